//! Items of a list in the place of others, where the list lies. The rest of the list moves once, or not at all.

ghost use Rattle.std.specs.Prelude.{◌≡◌, ◌+◌, ◌-◌, ◌<◌, ◌≤◌, length, OnOk, OnErr, vec_capacity};
ghost use Rattle.ot_list.specs.Leaves.{with_run};

use crate::blocks::{move_down, move_up};
use std::alloc::AllocError;

// Items in the place of at least as many.
fn put_fewer<T: Copy>(items: &mut Vec<T>, at: usize, gone: usize, come: &[T])
    requires within { at + gone ≤ length items.old.items }
    requires fewer { length come.now ≤ gone }
    ensures { items.new.items ≡ with_run items.old.items at gone come.now }
{
    let from = at + gone;
    let to = at + come.len();
    let length = items.len();
    if to < from {
        move_down(items.as_mut_slice(), from, to, length - from);
        items.truncate(length - from + to);
    }
    items.slice_mut(at..to).copy_from_slice(come);
}

// Items in the place of fewer, for which there is room.
fn put_more<T: Copy>(items: &mut Vec<T>, at: usize, gone: usize, come: &[T])
    requires within { at + gone ≤ length items.old.items }
    requires more { gone < length come.now }
    requires room { length items.old.items - gone + length come.now ≤ vec_capacity items.old }
    ensures { items.new.items ≡ with_run items.old.items at gone come.now }
{
    let from = at + gone;
    let to = at + come.len();
    let length = items.len();
    if items.extend_from_slice(&come[gone..]).is_err() {
        unreachable!();
    }
    move_up(items.as_mut_slice(), from, to, length - from);
    items.slice_mut(at..to).copy_from_slice(come);
}

/// From a place on `gone` items go, and others come there. Where the list grows, it gets room for `room` items. `AllocError` where the growth was refused: the list
/// is as it was then, and more items were to come than to go.
pub fn replace<T: Copy>(
    items: &mut Vec<T>,
    at: usize,
    gone: usize,
    come: &[T],
    room: usize,
) -> Result<(), AllocError>
    requires within { at + gone ≤ length items.old.items }
    requires small { length items.old.items ≤ room }
    requires fits { length items.old.items - gone + length come.now ≤ room }
    ensures ok { OnOk result (items.new.items ≡ with_run items.old.items at gone come.now) }
    ensures err { OnErr result (items.new.items ≡ items.old.items) }
    ensures grown { OnErr result (gone < length come.now) }
{
    if come.len() <= gone {
        put_fewer(items, at, gone, come);
        return Ok(());
    }
    if items.len() - gone + come.len() > items.capacity() {
        items.reserve_exact(room - items.len())?;
    }
    put_more(items, at, gone, come);
    Ok(())
}

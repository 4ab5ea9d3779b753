//! Whether an operation makes another list of a list.

ghost use Rattle.std.specs.Prelude.{◌≡◌, ◌+◌, ◌≤◌, ◌↔◌, length, take, drop, IsTrue};
ghost use Rattle.ot_debug.specs.Changes.{ChangesList};

use ot_isa::Tagged;
use ot_text::{ComponentRef, Doc, TextOp};

// The two are the same element, or none.
fn is_same(a: Option<Tagged>, b: Option<Tagged>) -> bool
    ensures { IsTrue result ↔ (a ≡ b) }
{
    a == b
}

// So many elements from one place on are those from the other place on.
fn repeats(list: &Doc<Tagged>, from: usize, to: usize, count: usize) -> bool
    requires from { from + count ≤ length list.now }
    requires to { to ≤ length list.now }
    ensures { IsTrue result ↔ (take count (drop from list.now) ≡ take count (drop to list.now)) }
{
    if from == to {
        return true;
    }
    // For the proof: how long a list is.
    let _length = list.len();
    for place in 0..count {
        if !is_same(list.get(from + place), list.get(to + place)) {
            return false;
        }
    }
    true
}

// The text stands in the list from this place on.
fn has_text(list: &Doc<Tagged>, to: usize, text: &[Tagged]) -> bool
    requires { to ≤ length list.now }
    ensures { IsTrue result ↔ (take (length text.now) (drop to list.now) ≡ text.now) }
{
    // For the proof: how long a list is.
    let length = list.len();
    if text.len() > length - to {
        return false;
    }
    for place in 0..text.len() {
        if !is_same(list.get(to + place), Some(text[place])) {
            return false;
        }
    }
    true
}

/// Whether the operation, which is over the list, makes another list of it. Walks over the operation, and over the list only from the
/// first place on that is touched, up to the first element that differs: that is the first one, where no tag stands twice.
pub(crate) fn changes(op: &TextOp<Tagged>, list: &Doc<Tagged>) -> bool
    requires { op.now.base ≡ length list.now }
    ensures { ChangesList op.now list.now result }
{
    // For the proof: how long a list is.
    let length = list.len();
    let mut from = 0;
    let mut to = 0;
    for component in op.components() {
        match component {
            ComponentRef::Retain(count) => {
                if !repeats(list, from, to, count) {
                    return true;
                }
                from += count;
                to += count;
            }
            ComponentRef::Insert(text) => {
                if !has_text(list, to, text) {
                    return true;
                }
                to += text.len();
            }
            ComponentRef::Delete(count) => from += count,
        }
    }
    to != length
}

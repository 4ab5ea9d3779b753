//! Runs exchanged between two lists of one type: of leaves, and of their sums.

ghost use Rattle.std.specs.Prelude.{◌≡◌, ◌⊎◌, ◌↔◌, IsTrue, ◌+◌, ◌<◌, ◌≤◌, ◌++◌, ℕ, [], length, take, drop, reverse, All, OnOk, vec_len, vec_capacity};
ghost use Rattle.ot_list.specs.Spans.{all_gone, merged, taken, IsEven, Fit};

use crate::Span;
use std::alloc::{AllocError, Global};

// Room for a list that is made of another, and for what goes of it: none where nothing was asked for.
#[derive(Drop)]
pub struct Room<T> {
    pub list: Vec<T>,
    pub gone: Vec<T>,
}

impl<T> Room<T> {
    pub fn new(alloc: Global) -> Room<T>
        ensures list { result.list.items ≡ [] }
        ensures gone { result.gone.items ≡ [] }
    {
        Room {
            list: Vec::new(alloc),
            gone: Vec::new(alloc),
        }
    }

    // Makes room for so many.
    pub fn reserve(&mut self, list: usize, gone: usize) -> Result<(), AllocError>
        requires list_empty { self.old.list.items ≡ [] }
        requires gone_empty { self.old.gone.items ≡ [] }
        ensures list { self.new.list.items ≡ [] }
        ensures gone { self.new.gone.items ≡ [] }
        ensures list_room { OnOk result (list ≤ vec_capacity self.new.list) }
        ensures gone_room { OnOk result (gone ≤ vec_capacity self.new.gone) }
    {
        self.list.reserve(list)?;
        self.gone.reserve(gone)
    }
}

// Exchanges a run of one list for a run of another.
fn exchange_run<T>(list: &mut [T], at: usize, others: &mut [T], from: usize, count: usize)
    requires list { at + count ≤ length list.old }
    requires others { from + count ≤ length others.old }
    ensures list { list.new ≡ take at list.old ++ take count (drop from others.old) ++ drop (at + count) list.old }
    ensures others { others.new ≡ take from others.old ++ take count (drop at list.old) ++ drop (from + count) others.old }
{
    let run = &mut list[at..at + count];
    run.swap_with_slice(&mut others[from..from + count]);
}

// Exchanges runs one for one.
fn exchange<T>(spans: &[Span], list: &mut [T], others: &mut [T])
    requires even { All IsEven spans.now }
    requires fit { Fit spans.now list.old others.old }
    ensures list { list.new ≡ merged spans.now list.old others.old }
    ensures others { others.new ≡ taken spans.now list.old }
{
    let mut at = 0;
    let mut from = 0;
    for span in spans {
        at += span.kept;
        exchange_run(list, at, others, from, span.gone);
        at += span.gone;
        from += span.gone;
    }
}

// Moves the last `count` items of a list to the end of another, the last one first.
fn move_last<T>(from: &mut Vec<T>, count: usize, to: &mut Vec<T>)
    requires enough { count ≤ length from.old.items }
    requires room { vec_len to.old + count ≤ vec_capacity to.old }
    ensures to { to.new.items ≡ to.old.items ++ take count (reverse from.old.items) }
    ensures from { reverse from.new.items ≡ drop count (reverse from.old.items) }
    ensures to_capacity { vec_capacity to.new ≡ vec_capacity to.old }
{
    for _moved in 0..count {
        to.push_reserved(from.take_last());
    }
}

// Moves the runs of two lists to a new one, and those that go to another.
fn merge<T>(spans: &[Span], list: &mut Vec<T>, others: &mut Vec<T>, room: &mut Room<T>)
    requires fit { Fit spans.now list.old.items others.old.items }
    requires list_empty { room.old.list.items ≡ [] }
    requires gone_empty { room.old.gone.items ≡ [] }
    requires list_room { length (merged spans.now list.old.items others.old.items) ≤ vec_capacity room.old.list }
    requires gone_room { all_gone spans.now ≤ vec_capacity room.old.gone }
    ensures list { room.new.list.items ≡ merged spans.now list.old.items others.old.items }
    ensures gone { room.new.gone.items ≡ taken spans.now list.old.items }
    ensures list_left { list.new.items ≡ [] }
    ensures others_left { others.new.items ≡ [] }
{
    list.reverse();
    others.reverse();
    for span in spans {
        move_last(list, span.kept, &mut room.list);
        move_last(list, span.gone, &mut room.gone);
        move_last(others, span.put, &mut room.list);
    }
    let left = list.len();
    move_last(list, left, &mut room.list);
}

// Puts the runs of another list in the place of some of this one, and what goes in the place of the other.
fn rebuild<T>(spans: &[Span], list: &mut Vec<T>, others: &mut Vec<T>, room: &mut Room<T>)
    requires fit { Fit spans.now list.old.items others.old.items }
    requires list_empty { room.old.list.items ≡ [] }
    requires gone_empty { room.old.gone.items ≡ [] }
    requires list_room { length (merged spans.now list.old.items others.old.items) ≤ vec_capacity room.old.list }
    requires gone_room { all_gone spans.now ≤ vec_capacity room.old.gone }
    ensures list { list.new.items ≡ merged spans.now list.old.items others.old.items }
    ensures others { others.new.items ≡ taken spans.now list.old.items }
    ensures list_empty { room.new.list.items ≡ [] }
    ensures gone_empty { room.new.gone.items ≡ [] }
{
    merge(spans, list, others, room);
    std::mem::swap(list, &mut room.list);
    std::mem::swap(others, &mut room.gone);
}

// Do as many go as come, at each place?
pub fn are_even(spans: &[Span]) -> bool
    ensures { IsTrue result ↔ All IsEven spans.now }
{
    spans.iter().all(|span| span.gone == span.put)
}

// Puts the runs of another list in the place of some of this one, and what goes in the place of the other.
pub fn carry_out<T>(spans: &[Span], list: &mut Vec<T>, others: &mut Vec<T>, room: &mut Room<T>)
    requires fit { Fit spans.now list.old.items others.old.items }
    requires list_empty { room.old.list.items ≡ [] }
    requires gone_empty { room.old.gone.items ≡ [] }
    requires ready { All IsEven spans.now ⊎ ((length (merged spans.now list.old.items others.old.items) ≤ vec_capacity room.old.list) × (all_gone spans.now ≤ vec_capacity room.old.gone)) }
    ensures list { list.new.items ≡ merged spans.now list.old.items others.old.items }
    ensures others { others.new.items ≡ taken spans.now list.old.items }
    ensures list_empty { room.new.list.items ≡ [] }
    ensures gone_empty { room.new.gone.items ≡ [] }
{
    if are_even(spans) {
        exchange(spans, list.as_mut_slice(), others.as_mut_slice());
        return;
    }
    rebuild(spans, list, others, room);
}

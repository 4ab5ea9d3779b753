//! The judge of traces.

ghost use Rattle.std.specs.Prelude.{◌≡◌, ◌<◌, ◌≤◌, ◌↔◌, ℕ, IfOk, List, length, All, map, Some, None, MatchOption, slice_index_or, true, false};
ghost use Rattle.ot_judge.specs.Views.{trace_view, views};
ghost use Rattle.ot_judge.specs.Numbers.{IsNumbered};
ghost use Rattle.ot_model.specs.WeakList.{EventHolds, WeakListProperty, lists};
ghost use Rattle.ot_judge.specs.Turns.{HoldBefore, HoldsAfter};
ghost use Rattle.ot_judge.specs.Verdict.{IsFault, IsVerdict};

use crate::confirm::confirmed;
use crate::contents::{first_doubled, first_misplaced, first_outside, required};
use crate::graph::make_order;
use crate::ranks::find_in_order;
use crate::trace::{Event, Trace};
use crate::verdict::Verdict;
use crate::visibility::{numbers_of, sees_rightly};
use ot_isa::Tag;
use std::alloc::{AllocError, Global};

// The fault of one event, if it has one.
fn fault_of(
    alloc: Global,
    start: &[Tag],
    events: &[Event],
    numbers: &[usize],
    e: usize,
) -> Result<Option<Verdict>, AllocError>
    requires numbered { IsNumbered (views events.now) numbers.now }
    requires within { e < length events.now }
    ensures { IfOk result (λ r. MatchOption r (EventHolds start.now (views events.now) e) (λ v. IsFault start.now (views events.now) e v)) }
{
    if !sees_rightly(events, numbers, e) {
        return Ok(Some(Verdict::BadVisibility(e)));
    }
    let x = &events[e];
    let list = x.list.as_slice();
    if let Some(a) = first_doubled(alloc, list)? {
        return Ok(Some(Verdict::Doubled(e, a)));
    }
    let wanted = required(alloc, start, events, numbers, e)?;
    if let Some(a) = first_outside(alloc, list, wanted.as_slice())? {
        return Ok(Some(Verdict::Missing(e, a)));
    }
    if let Some(a) = first_outside(alloc, wanted.as_slice(), list)? {
        return Ok(Some(Verdict::Extra(e, a)));
    }
    if let Some(a) = first_misplaced(x) {
        return Ok(Some(Verdict::WrongPlace(e, a)));
    }
    Ok(None)
}

// The fault of one event, if it has one, sought only where the event is not confirmed.
fn fault_at(
    alloc: Global,
    start: &[Tag],
    events: &[Event],
    numbers: &[usize],
    marks: &[bool],
    e: usize,
) -> Result<Option<Verdict>, AllocError>
    requires numbered { IsNumbered (views events.now) numbers.now }
    requires within { e < length events.now }
    requires long { length marks.now ≡ length events.now }
    requires marks { (k : ℕ) → slice_index_or marks.now k false ≡ true → HoldsAfter start.now (views events.now) k }
    ensures { IfOk result (λ r. HoldBefore start.now (views events.now) e → MatchOption r (EventHolds start.now (views events.now) e) (λ v. IsFault start.now (views events.now) e v)) }
{
    if marks[e] {
        return Ok(None);
    }
    let found = fault_of(alloc, start, events, numbers, e)?;
    Ok(found)
}

// A copy of each event's list.
fn lists_of(alloc: Global, events: &[Event]) -> Result<Vec<Vec<Tag>>, AllocError>
    ensures { IfOk result (λ v. map (λ w. w.items) v.items ≡ lists (views events.now)) }
{
    let mut all = Vec::new(alloc);
    for x in events {
        let copy = Vec::from_slice(alloc, x.list.as_slice())?;
        all.push(copy)?;
    }
    Ok(all)
}

// The replica of each event.
fn actors_of(alloc: Global, events: &[Event]) -> Result<Vec<usize>, AllocError> {
    let mut actors = Vec::new(alloc);
    for x in events {
        actors.push(x.replica)?;
    }
    Ok(actors)
}

/// The verdict of a trace: `Holds` exactly where it has the weak list property, else the first fault of the least event
/// that has one, else two elements in both orders. Answers an error only if memory runs out.
///
/// Its time grows with the entries of all lists, the elements of the start, the insertions and the deletions, each of which takes
/// a few looks into a hash table; with the elements of the start and the insertions, times the replicas, in steps along tables;
/// with the entries and these steps of what the event's own replica has not deleted, times the replicas that delete one element;
/// and with the events, times the square of the replicas. An event that does not hold costs once more what it knows, and the
/// events times the replicas. Where elements lie on cycles of the order there is more, but never all pairs of lists: of each two
/// replicas, the entries on cycles of the one that has fewer, which is at most these entries times half the replicas. An entry whose
/// element falls in the other replica's order is looked at again, where no pair is reversed at most four times for each halving of
/// that replica's events. Memory grows with the entries, the start, the insertions and the deletions.
pub fn judge(alloc: Global, trace: &Trace) -> Result<Verdict, AllocError>
    ensures verdict { IfOk result (λ v. IsVerdict trace.now v) }
    ensures property { IfOk result (λ v. (v ≡ Verdict.Holds) ↔ WeakListProperty trace.now) }
{
    let start = trace.start.as_slice();
    let events = trace.events.as_slice();
    let numbers = numbers_of(alloc, events)?;
    let marks = confirmed(alloc, trace.replicas, start, events, numbers.as_slice())?;
    for e in 0..events.len() {
        if let Some(v) = fault_at(
            alloc,
            start,
            events,
            numbers.as_slice(),
            marks.as_slice(),
            e,
        )? {
            return Ok(v);
        }
    }
    let all = lists_of(alloc, events)?;
    let lists = all.as_slice();
    let order = make_order(alloc, lists)?;
    let actors = actors_of(alloc, events)?;
    match find_in_order(alloc, trace.replicas, actors.as_slice(), &order, lists)? {
        Some(r) => Ok(Verdict::Reversed(r.earlier, r.later, r.a, r.b)),
        None => Ok(Verdict::Holds),
    }
}

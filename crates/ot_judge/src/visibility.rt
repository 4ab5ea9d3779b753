//! What an event sees of the others.

ghost use Rattle.std.specs.Prelude.{◌≡◌, ◌<◌, ◌≤◌, ◌+◌, ◌^◌, ◌↔◌, ℕ, IfOk, IfSome, OnOk, IsTrue, length, nat_eq, if◌then◌else◌};
ghost use Rattle.std.specs.HashMap.{get};
ghost use Rattle.std.specs.Map.{count_at};
ghost use Rattle.ot_model.specs.Trace.{event_at};
ghost use Rattle.ot_judge.specs.Views.{event_view, views};
ghost use Rattle.ot_judge.specs.Numbers.{IsNumbered};
ghost use Rattle.ot_judge.specs.Turns.{IsBacked, IsLastOf, SeesAsMuch};
ghost use Rattle.ot_model.specs.Visibility.{edits_before, follows, is_edit_of, seen_of, sees, SeesRightly};

use crate::news::find_edit;
use crate::trace::Event;
use std::alloc::{AllocError, Global};
use std::collections::HashMap;

// Whether an event is an edit of a replica.
pub fn is_edit_of(x: &Event, replica: usize) -> bool
    ensures { result ≡ is_edit_of replica (event_view x.now) }
{
    x.edit && x.replica == replica
}

/// How many edits of a replica stand before the event at `e`.
#[tactic(auto, using(crate::proofs::Views::view_steps))]
pub fn edits_before(events: &[Event], e: usize, replica: usize) -> usize
    requires { e ≤ length events.now }
    ensures value { result ≡ edits_before (views events.now) e replica }
    ensures bound { result ≤ e }
{
    let mut count = 0;
    for i in 0..e {
        if is_edit_of(&events[i], replica) {
            count += 1;
        }
    }
    count
}

/// How many edits of a replica an event sees.
pub fn seen_of(x: &Event, replica: usize) -> usize
    ensures { result ≡ seen_of (event_view x.now) replica }
{
    if replica < x.seen.len() {
        x.seen[replica] as usize
    } else {
        0
    }
}

// How many edits of the replica come before the next event, where so many came before this one.
fn count_of(counts: &HashMap<usize, usize>, replica: usize) -> usize
    ensures { result ≡ count_at (get nat_eq counts.now) replica }
{
    counts.get(&replica).copied().unwrap_or(0)
}

// Counts an event, if it is an edit.
fn count_edit(
    counts: &mut HashMap<usize, usize>,
    x: &Event,
    before: usize,
) -> Result<(), AllocError>
    requires small { before < 2 ^ 63 }
    requires before { before ≡ count_at (get nat_eq counts.old) x.now.replica }
    ensures { OnOk result ((r : ℕ) → count_at (get nat_eq counts.new) r ≡ count_at (get nat_eq counts.old) r + (if is_edit_of r (event_view x.now) then 1 else 0)) }
{
    if x.edit {
        counts.insert(x.replica, before + 1)?;
    }
    Ok(())
}

// The number of each event among the edits of its replica.
#[tactic(auto, using(crate::proofs::Views::view_steps))]
pub fn numbers_of(alloc: Global, events: &[Event]) -> Result<Vec<usize>, AllocError>
    ensures { IfOk result (λ v. IsNumbered (views events.now) v.items) }
{
    let mut numbers = Vec::new(alloc);
    let mut counts = HashMap::new(alloc);
    for d in 0..events.len() {
        let x = &events[d];
        let before = count_of(&counts, x.replica);
        count_edit(&mut counts, x, before)?;
        numbers.push(before)?;
    }
    Ok(numbers)
}

/// Whether the event at `e` sees the one at `d`, `before` being how many edits of its replica stand before that one.
#[tactic(auto, using(crate::proofs::Views::view_steps))]
pub fn sees(events: &[Event], e: usize, d: usize, before: usize) -> bool
    requires within { e < length events.now }
    requires other { d < length events.now }
    requires counted { before ≡ edits_before (views events.now) d (event_at (views events.now) d).replica }
    ensures { result ≡ sees (views events.now) e d }
{
    let x = &events[e];
    let y = &events[d];
    y.edit && before < seen_of(x, y.replica)
}

// Whether one event sees no more than another, at any replica.
fn sees_at_most(y: &Event, x: &Event) -> bool
    ensures { IsTrue result ↔ ((r : ℕ) → seen_of (event_view y.now) r ≤ seen_of (event_view x.now) r) }
{
    for r in 0..y.seen.len() {
        if seen_of(x, r) < seen_of(y, r) {
            return false;
        }
    }
    true
}

// Whether the event sees nothing that comes later.
#[tactic(auto, using(crate::proofs::Views::view_steps))]
fn sees_past(events: &[Event], e: usize) -> bool
    requires { e < length events.now }
    ensures { IsTrue result ↔ ((r : ℕ) → seen_of (event_at (views events.now) e) r ≤ edits_before (views events.now) e r) }
{
    let x = &events[e];
    for r in 0..x.seen.len() {
        if edits_before(events, e, r) < seen_of(x, r) {
            return false;
        }
    }
    true
}

/// Whether the event at `e` has to see what the one at `d` sees, `before` being how many edits of its replica stand before that one.
#[tactic(auto, using(crate::proofs::Views::view_steps))]
pub fn follows(events: &[Event], e: usize, d: usize, before: usize) -> bool
    requires within { e < length events.now }
    requires other { d < length events.now }
    requires counted { before ≡ edits_before (views events.now) d (event_at (views events.now) d).replica }
    ensures { result ≡ follows (views events.now) e d }
{
    let same = events[d].replica == events[e].replica;
    sees(events, e, d, before) || same
}

// Whether the event sees what those see that it follows.
#[tactic(auto, using(crate::proofs::Views::view_steps))]
fn sees_closed(events: &[Event], numbers: &[usize], e: usize) -> bool
    requires numbered { IsNumbered (views events.now) numbers.now }
    requires within { e < length events.now }
    ensures { IsTrue result ↔ ((d : ℕ) → d < e → IsTrue (follows (views events.now) e d) → (r : ℕ) → seen_of (event_at (views events.now) d) r ≤ seen_of (event_at (views events.now) e) r) }
{
    let x = &events[e];
    for d in 0..e {
        if follows(events, e, d, numbers[d]) {
            let y = &events[d];
            if !sees_at_most(y, x) {
                return false;
            }
        }
    }
    true
}

// Whether the event sees exactly its replica's own earlier edits, nothing later, and what the events it follows see.
#[tactic(auto, using(crate::proofs::Views::view_steps))]
pub fn sees_rightly(events: &[Event], numbers: &[usize], e: usize) -> bool
    requires numbered { IsNumbered (views events.now) numbers.now }
    requires within { e < length events.now }
    ensures { IsTrue result ↔ SeesRightly (views events.now) e }
{
    let x = &events[e];
    if seen_of(x, x.replica) != edits_before(events, e, x.replica) {
        return false;
    }
    if !sees_past(events, e) {
        return false;
    }
    sees_closed(events, numbers, e)
}

// Whether an event sees no edit of a replica, or all that the last one which it counts sees.
#[tactic(auto, using(crate::proofs::Views::view_steps))]
fn is_backed(
    events: &[Event],
    numbers: &[usize],
    table: &[Vec<usize>],
    e: usize,
    replica: usize,
) -> bool
    requires numbered { IsNumbered (views events.now) numbers.now }
    requires within { e < length events.now }
    ensures { IsTrue result → IsBacked (views events.now) e replica }
{
    let x = &events[e];
    let count = seen_of(x, replica);
    if count == 0 {
        return true;
    }
    match find_edit(events, numbers, table, replica, count - 1) {
        Some(d) => d < e && sees_at_most(&events[d], x),
        None => false,
    }
}

// Whether the same holds at each replica.
#[tactic(auto, using(crate::proofs::Views::view_steps))]
fn all_backed(events: &[Event], numbers: &[usize], table: &[Vec<usize>], e: usize) -> bool
    requires numbered { IsNumbered (views events.now) numbers.now }
    requires within { e < length events.now }
    ensures { IsTrue result → (r : ℕ) → IsBacked (views events.now) e r }
{
    for r in 0..events[e].seen.len() {
        if !is_backed(events, numbers, table, e, r) {
            return false;
        }
    }
    true
}

// Whether the event sees what the last one of its replica sees.
#[tactic(auto, using(crate::proofs::Views::view_steps))]
fn sees_on(events: &[Event], e: usize, last: Option<usize>) -> bool
    requires within { e < length events.now }
    requires last { IfSome last (λ p. p < length events.now) }
    ensures { IsTrue result → IfSome last (λ p. SeesAsMuch (views events.now) e p) }
{
    match last {
        Some(p) => sees_at_most(&events[p], &events[e]),
        None => true,
    }
}

/// Whether the event sees what it has to, where all before it do; by the last event of its replica and the last edit of each
/// replica that it counts.
#[tactic(auto, using(crate::proofs::Views::view_steps))]
pub fn sees_after(
    events: &[Event],
    numbers: &[usize],
    table: &[Vec<usize>],
    e: usize,
    last: Option<usize>,
) -> bool
    requires numbered { IsNumbered (views events.now) numbers.now }
    requires within { e < length events.now }
    requires last { IsLastOf (views events.now) e (event_at (views events.now) e).replica last }
    ensures { IsTrue result → ((d : ℕ) → d < e → SeesRightly (views events.now) d) → SeesRightly (views events.now) e }
{
    let x = &events[e];
    if seen_of(x, x.replica) != numbers[e] {
        return false;
    }
    if !sees_on(events, e, last) {
        return false;
    }
    all_backed(events, numbers, table, e)
}

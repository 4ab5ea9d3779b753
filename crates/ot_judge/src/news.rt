//! What an event knows beyond the last event of its replica. A table names each replica's edits; it is checked where it is
//! read and never trusted.

ghost use Rattle.std.specs.Prelude.{◌≡◌, ◌<◌, ◌||◌, ℕ, IfOk, IfSome, OnOk, IsTrue, List, Some, length, All, true};
ghost use Rattle.ot_model.specs.Trace.{contains, event_at, inserted_tags, same_tag};
ghost use Rattle.ot_model.specs.Visibility.{edits_before, is_edit_of, seen_of};
ghost use Rattle.ot_judge.specs.Numbers.{IsNumbered};
ghost use Rattle.ot_judge.specs.Turns.{Adds, AreNews, IsEdit, given, knew};
ghost use Rattle.ot_judge.specs.Views.{views};

use crate::trace::Event;
use crate::visibility::{is_edit_of, seen_of};
use std::alloc::{AllocError, Global};

// So many empty rows.
fn empty_rows(alloc: Global, count: usize) -> Result<Vec<Vec<usize>>, AllocError> {
    let mut rows = Vec::new(alloc);
    for _ in 0..count {
        rows.push(Vec::new(alloc))?;
    }
    Ok(rows)
}

/// By replica, where its edits stand among the events. No contract speaks of it: who reads it checks it.
pub fn edits_of(
    alloc: Global,
    replicas: usize,
    events: &[Event],
) -> Result<Vec<Vec<usize>>, AllocError> {
    let mut table = empty_rows(alloc, replicas)?;
    for d in 0..events.len() {
        let x = &events[d];
        if x.edit {
            if let Some(row) = table.get_mut(x.replica) {
                row.push(d)?;
            }
        }
    }
    Ok(table)
}

/// What a table has in a row at a place.
pub fn entry(table: &[Vec<usize>], replica: usize, n: usize) -> Option<usize> {
    let row = table.get(replica)?;
    row.get(n).copied()
}

/// The edit of a replica that `n` of its edits stand before, where the table names it.
#[tactic(auto, using(crate::proofs::Views::view_steps))]
pub fn find_edit(
    events: &[Event],
    numbers: &[usize],
    table: &[Vec<usize>],
    replica: usize,
    n: usize,
) -> Option<usize>
    requires { IsNumbered (views events.now) numbers.now }
    ensures { IfSome result (λ d. IsEdit (views events.now) replica n d) }
{
    let d = entry(table, replica, n)?;
    if d < events.len() && is_edit_of(&events[d], replica) && numbers[d] == n {
        Some(d)
    } else {
        None
    }
}

// How many edits of a replica the last event sees; none where there is no last event.
#[tactic(auto, using(crate::proofs::Views::view_steps))]
fn seen_before(events: &[Event], last: Option<usize>, replica: usize) -> usize
    requires { IfSome last (λ p. p < length events.now) }
    ensures { (d : ℕ) → is_edit_of replica (event_at (views events.now) d) ≡ true → edits_before (views events.now) d replica < result → knew (views events.now) last d ≡ true }
{
    match last {
        Some(p) => seen_of(&events[p], replica),
        None => 0,
    }
}

// Whether this is the last event.
fn is_last(last: Option<usize>, d: usize) -> bool
    ensures { IsTrue result → last ≡ Some d }
{
    match last {
        Some(p) => p == d,
        None => false,
    }
}

// Appends the edits of a replica that the event at `e` sees and the last one did not; false where the table lacks one.
#[tactic(auto, using(crate::proofs::Views::view_steps))]
fn add_seen(
    news: &mut Vec<usize>,
    events: &[Event],
    numbers: &[usize],
    table: &[Vec<usize>],
    e: usize,
    last: Option<usize>,
    replica: usize,
) -> Result<bool, AllocError>
    requires numbered { IsNumbered (views events.now) numbers.now }
    requires within { e < length events.now }
    requires last { IfSome last (λ p. p < length events.now) }
    ensures { IfOk result (λ b. IsTrue b → Adds (views events.now) e last replica (seen_of (event_at (views events.now) e) replica) news.old.items news.new.items) }
{
    for n in seen_before(events, last, replica)..seen_of(&events[e], replica) {
        let Some(d) = find_edit(events, numbers, table, replica, n) else {
            return Ok(false);
        };
        if !is_last(last, d) {
            news.push(d)?;
        }
    }
    Ok(true)
}

/// The events that the one at `e` knows and the last one of its replica did not, where the table names them.
#[tactic(auto, using(crate::proofs::Views::view_steps))]
pub fn news_of(
    alloc: Global,
    events: &[Event],
    numbers: &[usize],
    table: &[Vec<usize>],
    e: usize,
    last: Option<usize>,
) -> Result<Option<Vec<usize>>, AllocError>
    requires numbered { IsNumbered (views events.now) numbers.now }
    requires within { e < length events.now }
    requires last { IfSome last (λ p. p < length events.now) }
    ensures { IfOk result (λ r. IfSome r (λ v. AreNews (views events.now) e last v.items)) }
{
    let mut news = Vec::new(alloc);
    news.push(e)?;
    let x = &events[e];
    let seen = x.seen.as_slice();
    for replica in 0..seen.len() {
        if !add_seen(&mut news, events, numbers, table, e, last, replica)? {
            return Ok(None);
        }
    }
    Ok(Some(news))
}

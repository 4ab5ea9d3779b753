//! Why an event does not see what it has to.

ghost use Rattle.std.specs.Prelude.{◌≡◌, ◌<◌, ◌↔◌, length, IfSome, None};
ghost use Rattle.ot_judge.specs.Views.{event_view, views};
ghost use Rattle.ot_model.specs.Visibility.{SeesRightly};
ghost use Rattle.ot_report.specs.Causes.{NamesBefore, cause_of, first_lacked, first_passed, lacked_at, sees_own};
ghost use Rattle.ot_report.specs.Searches.{first_below};

use ot_judge::{Event, edits_before, follows, seen_of};

/// Why an event does not see what it has to. Replicas and events are counted from 0.
#[derive(Clone, Copy, Debug, PartialEq, Eq)]
pub enum Cause {
    /// It sees more or fewer edits of its own replica than stand before it.
    Own,
    /// It sees more edits of this replica than stand before it.
    Past(usize),
    /// An event that it follows sees more edits of a replica than it: that event, and the replica.
    Lacks(usize, usize),
}

// Whether the event sees exactly the edits of its own replica that stand before it.
#[tactic(auto, using(ot_judge::proofs::Views::view_steps))]
fn sees_own(events: &[Event], e: usize) -> bool
    requires { e < length events.now }
    ensures { result ≡ sees_own (views events.now) e }
{
    let x = &events[e];
    seen_of(x, x.replica) == edits_before(events, e, x.replica)
}

// The least replica of which the event sees more edits than stand before it.
#[tactic(auto, using(ot_judge::proofs::Views::view_steps))]
fn first_passed(events: &[Event], e: usize) -> Option<usize>
    requires { e < length events.now }
    ensures { result ≡ first_passed (views events.now) e }
{
    let x = &events[e];
    for r in 0..x.seen.len() {
        if edits_before(events, e, r) < seen_of(x, r) {
            return Some(r);
        }
    }
    None
}

// The least replica of which `y` sees more edits than `x`.
fn first_lacked(y: &Event, x: &Event) -> Option<usize>
    ensures { result ≡ first_lacked (event_view y.now) (event_view x.now) }
{
    for r in 0..y.seen.len() {
        if seen_of(x, r) < seen_of(y, r) {
            return Some(r);
        }
    }
    None
}

// What the event at `e` lacks of what the one at `d` sees, if it follows that one.
#[tactic(auto, using(ot_judge::proofs::Views::view_steps))]
fn lacked_at(events: &[Event], e: usize, d: usize) -> Option<Cause>
    requires within { e < length events.now }
    requires earlier { d < e }
    ensures value { result ≡ lacked_at (views events.now) e d }
    ensures within { IfSome result (NamesBefore e) }
{
    match first_lacked(&events[d], &events[e]) {
        Some(r) if follows(events, e, d, edits_before(events, d, events[d].replica)) => {
            Some(Cause::Lacks(d, r))
        }
        _ => None,
    }
}

// What the event lacks of what the first event sees of which it lacks something.
fn first_lacking(events: &[Event], e: usize) -> Option<Cause>
    requires { e < length events.now }
    ensures value { result ≡ first_below e (lacked_at (views events.now) e) }
    ensures within { IfSome result (NamesBefore e) }
{
    for d in 0..e {
        if let Some(cause) = lacked_at(events, e, d) {
            return Some(cause);
        }
    }
    None
}

/// The first cause for which the event at `e` does not see what it has to: its own replica's edits, then an edit that does not stand before
/// it, then what an event sees that it follows, each time with the least event and replica. None exactly where it sees what it has to.
pub fn cause_of(events: &[Event], e: usize) -> Option<Cause>
    requires { e < length events.now }
    ensures first { result ≡ cause_of (views events.now) e }
    ensures within { IfSome result (NamesBefore e) }
    ensures exact { (result ≡ None) ↔ SeesRightly (views events.now) e }
{
    if !sees_own(events, e) {
        return Some(Cause::Own);
    }
    match first_passed(events, e) {
        Some(r) => Some(Cause::Past(r)),
        None => first_lacking(events, e),
    }
}

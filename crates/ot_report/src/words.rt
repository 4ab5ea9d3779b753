//! The words of a verdict.

ghost use Rattle.std.specs.Prelude.{◌≡◌, ◌<◌, IfOk, Some, length, slice_get, string_bytes};
ghost use Rattle.ot_judge.specs.Verdict.{IsVerdict};
ghost use Rattle.ot_judge.specs.Views.{event_view, views};
ghost use Rattle.ot_model.specs.Trace.{event_at};
ghost use Rattle.ot_report.specs.Causes.{NamesBefore};
ghost use Rattle.ot_report.specs.Finds as finds;
ghost use Rattle.ot_report.specs.Words.{absent_text, again_text, at_text, bad_visibility_text, cause_text, counts_text, deleter_text, doubled_text, event_line, event_text, extra_text, history_text, holds_text, inserter_text, kind_text, link_text, misplaced_text, missing_text, order_at, order_text, origin_text, own_text, placed_text, reversed_text, seer_text, standing_text, verdict_words, wrong_place_text};

use crate::causes::{Cause, cause_of};
use crate::finds::{contains, deleter, inserter, misplaced, place_of, second_place};
use crate::verdicts::tag_name;
use ot_isa::Tag;
use ot_judge::{Event, Placed, Trace, Verdict, edits_before, seen_of};
use std::alloc::{AllocError, Global};

fn kind_text(edit: bool) -> &'static str
    ensures { result.now ≡ kind_text edit }
{
    if edit { "an edit" } else { "a read" }
}

// The event with this number, and its replica.
fn event_text(alloc: Global, e: usize, x: &Event) -> Result<String, AllocError>
    ensures { IfOk result (λ s. string_bytes s ≡ event_text e (event_view x.now)) }
{
    let kind = kind_text(x.edit);
    let replica = x.replica;
    format!(in alloc; "  event {e} is {kind} of replica {replica}")
}

// The event, and what is said of it.
fn event_line(alloc: Global, e: usize, x: &Event, said: String) -> Result<String, AllocError>
    ensures { IfOk result (λ s. string_bytes s ≡ event_line e (event_view x.now) (string_bytes said)) }
{
    let event = event_text(alloc, e, x)?;
    format!(in alloc; "{event}; {said}\n")
}

// How many edits of a replica there are, and how many the event sees.
fn counts_text(
    alloc: Global,
    replica: usize,
    which: &str,
    wanted: usize,
    seen: usize,
) -> Result<String, AllocError>
    ensures { IfOk result (λ s. string_bytes s ≡ counts_text replica which.now wanted seen) }
{
    format!(in alloc; "edits of replica {replica}{which}: {wanted}; that it sees: {seen}")
}

// Why `x` has to see what `y` sees.
fn link_text(alloc: Global, y: &Event, x: &Event) -> Result<String, AllocError>
    ensures { IfOk result (λ s. string_bytes s ≡ link_text (event_view y.now) (event_view x.now)) }
{
    let replica = x.replica;
    if y.replica == replica {
        format!(in alloc; "an earlier event of replica {replica}")
    } else {
        String::from_str(alloc, "an edit that it sees")
    }
}

// The event that sees what `x` lacks.
fn seer_text(alloc: Global, d: usize, y: &Event, x: &Event) -> Result<String, AllocError>
    ensures { IfOk result (λ s. string_bytes s ≡ seer_text d (event_view y.now) (event_view x.now)) }
{
    let link = link_text(alloc, y, x)?;
    format!(in alloc; " that event {d}, {link}, sees")
}

// The edits of the event's own replica.
fn own_text(alloc: Global, events: &[Event], e: usize, x: &Event) -> Result<String, AllocError>
    requires { e < length events.now }
    ensures { IfOk result (λ s. string_bytes s ≡ own_text (views events.now) e (event_view x.now)) }
{
    counts_text(
        alloc,
        x.replica,
        ", its own, that stand before it",
        edits_before(events, e, x.replica),
        seen_of(x, x.replica),
    )
}

// What stands before the event, or is seen elsewhere, and how much of that it sees.
#[tactic(auto, using(ot_judge::proofs::Views::view_steps))]
fn cause_text(alloc: Global, events: &[Event], e: usize, cause: Cause) -> Result<String, AllocError>
    requires within { e < length events.now }
    requires names { NamesBefore e cause }
    ensures { IfOk result (λ s. string_bytes s ≡ cause_text (views events.now) e (Some cause)) }
{
    let x = &events[e];
    match cause {
        Cause::Own => own_text(alloc, events, e, x),
        Cause::Past(r) => counts_text(
            alloc,
            r,
            " that stand before it",
            edits_before(events, e, r),
            seen_of(x, r),
        ),
        Cause::Lacks(d, r) => {
            let y = &events[d];
            let seer = seer_text(alloc, d, y, x)?;
            counts_text(alloc, r, seer.as_str(), seen_of(y, r), seen_of(x, r))
        }
    }
}

// What is wrong with what the event sees.
fn bad_visibility_text(alloc: Global, events: &[Event], e: usize) -> Result<String, AllocError>
    requires { e < length events.now }
    ensures { IfOk result (λ s. string_bytes s ≡ bad_visibility_text (views events.now) e) }
{
    let said = match cause_of(events, e) {
        Some(cause) => cause_text(alloc, events, e, cause)?,
        None => String::from_str(alloc, "it sees what it has to")?,
    };
    event_line(alloc, e, &events[e], said)
}

// A tag, and where it first stands in a list.
fn at_text(alloc: Global, tag: Tag, list: &[Tag]) -> Result<String, AllocError>
    ensures { IfOk result (λ s. string_bytes s ≡ at_text tag (finds.place_of tag list.now)) }
{
    let name = tag_name(alloc, tag)?;
    match place_of(list, tag) {
        Some(place) => format!(in alloc; "{name} at {place}"),
        None => format!(in alloc; "no {name}"),
    }
}

fn again_text(alloc: Global, place: Option<usize>) -> Result<String, AllocError>
    ensures { IfOk result (λ s. string_bytes s ≡ again_text place) }
{
    match place {
        Some(place) => format!(in alloc; " and at {place}"),
        None => Ok(String::new(alloc)),
    }
}

// An element that stands in a list twice.
fn doubled_text(alloc: Global, e: usize, x: &Event, tag: Tag) -> Result<String, AllocError>
    ensures { IfOk result (λ s. string_bytes s ≡ doubled_text e (event_view x.now) tag) }
{
    let list = x.list.as_slice();
    let first = at_text(alloc, tag, list)?;
    let again = again_text(alloc, second_place(list, tag))?;
    let said = format!(in alloc; "its list has {first}{again}")?;
    event_line(alloc, e, x, said)
}

fn inserter_text(alloc: Global, d: Option<usize>) -> Result<String, AllocError>
    ensures { IfOk result (λ s. string_bytes s ≡ inserter_text d) }
{
    match d {
        Some(d) => format!(in alloc; ", which event {d} inserted"),
        None => String::from_str(
            alloc,
            ", which is not in the start and which no event that it knows inserted",
        ),
    }
}

// Where an element comes from, as far as the event knows.
fn origin_text(
    alloc: Global,
    start: &[Tag],
    events: &[Event],
    e: usize,
    tag: Tag,
) -> Result<String, AllocError>
    requires { e < length events.now }
    ensures { IfOk result (λ s. string_bytes s ≡ origin_text start.now (views events.now) e tag) }
{
    if contains(start, tag) {
        return String::from_str(alloc, ", which the start has");
    }
    inserter_text(alloc, inserter(events, e, tag))
}

// The event that deleted an element, or what is said where there is none.
fn deleter_text(alloc: Global, d: Option<usize>, otherwise: &str) -> Result<String, AllocError>
    ensures { IfOk result (λ s. string_bytes s ≡ deleter_text d otherwise.now) }
{
    match d {
        Some(d) => format!(in alloc; ", which event {d} deleted"),
        None => String::from_str(alloc, otherwise),
    }
}

// Where an element comes from, and what deleted it, as far as the event knows.
fn history_text(
    alloc: Global,
    start: &[Tag],
    events: &[Event],
    e: usize,
    tag: Tag,
) -> Result<String, AllocError>
    requires { e < length events.now }
    ensures { IfOk result (λ s. string_bytes s ≡ history_text start.now (views events.now) e tag) }
{
    let origin = origin_text(alloc, start, events, e, tag)?;
    let deleted = deleter_text(
        alloc,
        deleter(events, e, tag),
        "; no event that it knows deleted it",
    )?;
    format!(in alloc; "{origin}{deleted}")
}

// An element that the event's list must have.
#[tactic(auto, using(ot_judge::proofs::Views::view_steps))]
fn missing_text(
    alloc: Global,
    start: &[Tag],
    events: &[Event],
    e: usize,
    tag: Tag,
) -> Result<String, AllocError>
    requires { e < length events.now }
    ensures { IfOk result (λ s. string_bytes s ≡ missing_text start.now (views events.now) e tag) }
{
    let x = &events[e];
    let at = at_text(alloc, tag, x.list.as_slice())?;
    let history = history_text(alloc, start, events, e, tag)?;
    let said = format!(in alloc; "its list has {at}{history}")?;
    event_line(alloc, e, x, said)
}

// An element that the event's list must not have.
#[tactic(auto, using(ot_judge::proofs::Views::view_steps))]
fn extra_text(
    alloc: Global,
    start: &[Tag],
    events: &[Event],
    e: usize,
    tag: Tag,
) -> Result<String, AllocError>
    requires { e < length events.now }
    ensures { IfOk result (λ s. string_bytes s ≡ extra_text start.now (views events.now) e tag) }
{
    let x = &events[e];
    let at = at_text(alloc, tag, x.list.as_slice())?;
    let origin = origin_text(alloc, start, events, e, tag)?;
    let why = deleter_text(alloc, deleter(events, e, tag), origin.as_str())?;
    let said = format!(in alloc; "its list has {at}{why}")?;
    event_line(alloc, e, x, said)
}

// What stands at a place of a list.
fn standing_text(alloc: Global, list: &[Tag], place: usize) -> Result<String, AllocError>
    ensures { IfOk result (λ s. string_bytes s ≡ standing_text list.now (slice_get list.now place)) }
{
    match list.get(place) {
        Some(other) => {
            let name = tag_name(alloc, *other)?;
            format!(in alloc; "where its list has {name}")
        }
        None => {
            let count = list.len();
            format!(in alloc; "past the end of its list, whose length is {count}")
        }
    }
}

// The event that deleted an element which the list of the one at `e` does not have.
#[tactic(auto, using(ot_judge::proofs::Views::view_steps))]
fn absent_text(alloc: Global, events: &[Event], e: usize, tag: Tag) -> Result<String, AllocError>
    requires { e < length events.now }
    ensures { IfOk result (λ s. string_bytes s ≡ absent_text (finds.place_of tag (event_at (views events.now) e).list) (finds.deleter (views events.now) e tag)) }
{
    let x = &events[e];
    match place_of(x.list.as_slice(), tag) {
        Some(_) => Ok(String::new(alloc)),
        None => deleter_text(alloc, deleter(events, e, tag), ""),
    }
}

// Where an inserted element has to stand, and where it stands.
#[tactic(auto, using(ot_judge::proofs::Views::view_steps))]
fn placed_text(alloc: Global, events: &[Event], e: usize, p: Placed) -> Result<String, AllocError>
    requires { e < length events.now }
    ensures { IfOk result (λ s. string_bytes s ≡ placed_text (views events.now) e p) }
{
    let list = events[e].list.as_slice();
    let name = tag_name(alloc, p.tag)?;
    let place = p.place;
    let standing = standing_text(alloc, list, place)?;
    let at = at_text(alloc, p.tag, list)?;
    let absent = absent_text(alloc, events, e, p.tag)?;
    format!(in alloc; "it inserts {name} at {place}, {standing}; its list has {at}{absent}")
}

// What is inserted and does not stand at its place.
#[tactic(auto, using(ot_judge::proofs::Views::view_steps))]
fn wrong_place_text(alloc: Global, events: &[Event], e: usize) -> Result<String, AllocError>
    requires { e < length events.now }
    ensures { IfOk result (λ s. string_bytes s ≡ wrong_place_text (views events.now) e) }
{
    let x = &events[e];
    let said = match misplaced(x) {
        Some(p) => placed_text(alloc, events, e, p)?,
        None => String::from_str(alloc, "what it inserts stands at its place")?,
    };
    event_line(alloc, e, x, said)
}

// Where two elements stand in an event's list.
fn order_text(alloc: Global, e: usize, x: &Event, a: Tag, b: Tag) -> Result<String, AllocError>
    ensures { IfOk result (λ s. string_bytes s ≡ order_text e (event_view x.now) a b) }
{
    let list = x.list.as_slice();
    let first = at_text(alloc, a, list)?;
    let second = at_text(alloc, b, list)?;
    let said = format!(in alloc; "its list has {first} and {second}")?;
    event_line(alloc, e, x, said)
}

#[tactic(auto, using(ot_judge::proofs::Views::view_steps))]
fn order_at(alloc: Global, events: &[Event], e: usize, a: Tag, b: Tag) -> Result<String, AllocError>
    requires { e < length events.now }
    ensures { IfOk result (λ s. string_bytes s ≡ order_at (views events.now) e a b) }
{
    order_text(alloc, e, &events[e], a, b)
}

// Two elements in one order in one list, and in the other in another.
fn reversed_text(
    alloc: Global,
    events: &[Event],
    d: usize,
    e: usize,
    a: Tag,
    b: Tag,
) -> Result<String, AllocError>
    requires first { d < length events.now }
    requires second { e < length events.now }
    ensures { IfOk result (λ s. string_bytes s ≡ reversed_text (views events.now) d e a b) }
{
    let forth = order_at(alloc, events, d, a, b)?;
    let back = order_at(alloc, events, e, b, a)?;
    format!(in alloc; "{forth}{back}")
}

fn event_count(trace: &Trace) -> usize
    ensures { result ≡ length trace.now.events }
{
    trace.events().len()
}

// How much was judged.
fn holds_text(alloc: Global, trace: &Trace) -> Result<String, AllocError>
    ensures { IfOk result (λ s. string_bytes s ≡ holds_text trace.now) }
{
    let count = event_count(trace);
    let replicas = trace.replicas();
    format!(in alloc;
        "  events: {count}; replicas: {replicas}; no two lists order two elements differently\n"
    )
}

/// The words of the verdict of a trace: for each event that it names a line that says what the event is, what it sees or what its list has,
/// and where that comes from; where the property holds, how much was judged. Answers an error only if memory runs out.
///
/// Its time grows with the trace; of a fault of visibility also with the events times the replicas; and with the events times those that
/// delete the element, or see something that the event does not.
pub fn print_words(alloc: Global, trace: &Trace, verdict: Verdict) -> Result<String, AllocError>
    requires { IsVerdict trace.now verdict }
    ensures { IfOk result (λ s. string_bytes s ≡ verdict_words trace.now verdict) }
{
    let start = trace.start();
    let events = trace.events();
    match verdict {
        Verdict::Holds => holds_text(alloc, trace),
        Verdict::BadVisibility(e) => bad_visibility_text(alloc, events, e),
        Verdict::Doubled(e, tag) => doubled_text(alloc, e, &events[e], tag),
        Verdict::Missing(e, tag) => missing_text(alloc, start, events, e, tag),
        Verdict::Extra(e, tag) => extra_text(alloc, start, events, e, tag),
        Verdict::WrongPlace(e, _) => wrong_place_text(alloc, events, e),
        Verdict::Reversed(d, e, a, b) => reversed_text(alloc, events, d, e, a, b),
    }
}

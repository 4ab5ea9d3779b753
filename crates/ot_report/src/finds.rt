//! Where elements stand, and which events insert and delete them.

ghost use Rattle.std.specs.Prelude.{◌≡◌, ◌<◌, length};
ghost use Rattle.ot_judge.specs.Views.{event_view, views};
ghost use Rattle.ot_model.specs.Trace.{contains};
ghost use Rattle.ot_report.specs.Finds.{deleter, inserter, inserts, misplaced, place_of, second_place};

use ot_isa::Tag;
use ot_judge::{Event, Placed, edits_before, knows, stands_at_place};

/// The first place of a tag in a list, counted from 0.
pub(crate) fn place_of(list: &[Tag], tag: Tag) -> Option<usize>
    ensures { result ≡ place_of tag list.now }
{
    list.iter().position(|other| tag == *other)
}

/// The second place of a tag in a list.
pub(crate) fn second_place(list: &[Tag], tag: Tag) -> Option<usize>
    ensures { result ≡ second_place tag list.now }
{
    let first = place_of(list, tag)?;
    let behind = place_of(&list[first + 1..], tag)?;
    Some(behind + (first + 1))
}

/// Whether the tag is among these.
pub(crate) fn contains(tags: &[Tag], tag: Tag) -> bool
    ensures { result ≡ contains tags.now tag }
{
    tags.iter().any(|other| tag == *other)
}

fn inserts(x: &Event, tag: Tag) -> bool
    ensures { result ≡ inserts tag (event_view x.now) }
{
    x.inserted.iter().any(|p| tag == p.tag)
}

/// The first event that the one at `e` knows and that inserts the tag.
#[tactic(auto, using(ot_judge::proofs::Views::view_steps))]
pub(crate) fn inserter(events: &[Event], e: usize, tag: Tag) -> Option<usize>
    requires { e < length events.now }
    ensures { result ≡ inserter (views events.now) e tag }
{
    for d in 0..events.len() {
        let x = &events[d];
        if inserts(x, tag) && knows(events, e, d, edits_before(events, d, x.replica)) {
            return Some(d);
        }
    }
    None
}

/// The first event that the one at `e` knows and that deletes the tag.
#[tactic(auto, using(ot_judge::proofs::Views::view_steps))]
pub(crate) fn deleter(events: &[Event], e: usize, tag: Tag) -> Option<usize>
    requires { e < length events.now }
    ensures { result ≡ deleter (views events.now) e tag }
{
    for d in 0..events.len() {
        let x = &events[d];
        if contains(x.deleted.as_slice(), tag)
            && knows(events, e, d, edits_before(events, d, x.replica))
        {
            return Some(d);
        }
    }
    None
}

/// The first inserted element that does not stand at its place.
pub(crate) fn misplaced(x: &Event) -> Option<Placed>
    ensures { result ≡ misplaced (event_view x.now) }
{
    let list = x.list.as_slice();
    x.inserted
        .iter()
        .copied()
        .find(|p| !stands_at_place(list, p))
}

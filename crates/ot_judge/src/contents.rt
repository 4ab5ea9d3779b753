//! What a list must hold.

ghost use Rattle.std.specs.Prelude.{◌≡◌, ◌<◌, ◌≤◌, ◌++◌, ◌||◌, ◌&&◌, ℕ, IfOk, OnOk, IsTrue, List, length, not, filter, find, map, nat_lt, false, None, if◌then◌else◌, []};
ghost use Rattle.std.specs.HashSet.{contains as set_contains};
ghost use Rattle.ot_model.specs.Trace.{contains, occurrences, same_tag, event_at};
ghost use Rattle.ot_judge.specs.Views.{event_view, views};
ghost use Rattle.ot_judge.specs.Numbers.{IsNumbered};
ghost use Rattle.ot_judge.specs.Contents.{first_doubled, first_misplaced, first_outside, stands_at_place};
ghost use Rattle.ot_model.specs.Visibility.{edits_before};
ghost use Rattle.ot_model.specs.WeakList.{knows, known_deletions, required};

use crate::seed::Seed;
use crate::trace::Event;
use crate::visibility::sees;
use ot_isa::Tag;
use ot_model::Placed;
use std::alloc::{AllocError, Global};
use std::collections::HashSet;

/// Whether the event at `e` knows the one at `d`: its own edit, or one that it sees. `before` is how many edits of its replica stand before
/// the one at `d`.
pub fn knows(events: &[Event], e: usize, d: usize, before: usize) -> bool
    requires within { e < length events.now }
    requires other { d < length events.now }
    requires counted { before ≡ edits_before (views events.now) d (event_at (views events.now) d).replica }
    ensures { result ≡ knows (views events.now) e d }
{
    d == e || sees(events, e, d, before)
}

// Adds tags to a set.
#[tactic(auto, using(crate::proofs::TagLemmas::tag_steps))]
fn add_all(set: &mut HashSet<Tag, Seed>, tags: &[Tag]) -> Result<(), AllocError>
    ensures { OnOk result ((q : Tag) → set_contains same_tag set.new q ≡ (set_contains same_tag set.old q || contains tags.now q)) }
{
    for a in tags {
        set.insert(*a)?;
    }
    Ok(())
}

// What the event at `d` deletes, where the one at `e` knows it.
#[tactic(auto, using(crate::proofs::Views::view_steps))]
fn known_deleted<'a>(events: &'a [Event], numbers: &[usize], e: usize, d: usize) -> &'a [Tag]
    requires numbered { IsNumbered (views events.now) numbers.now }
    requires within { e < length events.now }
    requires other { d < length events.now }
    ensures { result.now ≡ (if knows (views events.now) e d then (event_at (views events.now) d).deleted else []) }
{
    if knows(events, e, d, numbers[d]) {
        let x = &events[d];
        x.deleted.as_slice()
    } else {
        &[]
    }
}

// What the event at `d` inserts, where the one at `e` knows it.
#[tactic(auto, using(crate::proofs::Views::view_steps))]
fn known_inserted<'a>(events: &'a [Event], numbers: &[usize], e: usize, d: usize) -> &'a [Placed]
    requires numbered { IsNumbered (views events.now) numbers.now }
    requires within { e < length events.now }
    requires other { d < length events.now }
    ensures { result.now ≡ (if knows (views events.now) e d then (event_at (views events.now) d).inserted else []) }
{
    if knows(events, e, d, numbers[d]) {
        let x = &events[d];
        x.inserted.as_slice()
    } else {
        &[]
    }
}

// Begins with all that is deleted.
fn seed_of_deletions(events: &[Event]) -> Seed {
    let mut seed = Seed::new();
    for x in events {
        seed.add(x.deleted.as_slice());
    }
    seed
}

// What the event at `e` knows as deleted.
fn deletions(
    alloc: Global,
    events: &[Event],
    numbers: &[usize],
    e: usize,
) -> Result<HashSet<Tag, Seed>, AllocError>
    requires numbered { IsNumbered (views events.now) numbers.now }
    requires within { e < length events.now }
    ensures { IfOk result (λ s. (q : Tag) → set_contains same_tag s q ≡ contains (known_deletions (views events.now) e) q) }
{
    let mut set = HashSet::with_hasher(alloc, seed_of_deletions(events));
    for d in 0..events.len() {
        add_all(&mut set, known_deleted(events, numbers, e, d))?;
    }
    Ok(set)
}

// Appends the tags that are not in a set.
#[tactic(auto, using(crate::proofs::TagLemmas::tag_steps))]
fn push_kept(kept: &mut Vec<Tag>, gone: &HashSet<Tag, Seed>, tags: &[Tag]) -> Result<(), AllocError>
    ensures { OnOk result (kept.new.items ≡ kept.old.items ++ filter (λ a. not (set_contains same_tag gone.now a)) tags.now) }
{
    for a in tags {
        if !gone.contains(a) {
            kept.push(*a)?;
        }
    }
    Ok(())
}

// Appends the inserted tags that are not in a set.
#[tactic(auto, using(crate::proofs::TagLemmas::tag_steps))]
fn push_inserted(
    kept: &mut Vec<Tag>,
    gone: &HashSet<Tag, Seed>,
    inserted: &[Placed],
) -> Result<(), AllocError>
    ensures { OnOk result (kept.new.items ≡ kept.old.items ++ filter (λ a. not (set_contains same_tag gone.now a)) (map (λ (p : Placed). p.tag) inserted.now)) }
{
    for p in inserted {
        if !gone.contains(&p.tag) {
            kept.push(p.tag)?;
        }
    }
    Ok(())
}

// What the list of the event at `e` must hold.
pub fn required(
    alloc: Global,
    start: &[Tag],
    events: &[Event],
    numbers: &[usize],
    e: usize,
) -> Result<Vec<Tag>, AllocError>
    requires numbered { IsNumbered (views events.now) numbers.now }
    requires within { e < length events.now }
    ensures { IfOk result (λ v. v.items ≡ required start.now (views events.now) e) }
{
    let gone = deletions(alloc, events, numbers, e)?;
    let mut kept = Vec::new(alloc);
    push_kept(&mut kept, &gone, start)?;
    for d in 0..events.len() {
        push_inserted(&mut kept, &gone, known_inserted(events, numbers, e, d))?;
    }
    Ok(kept)
}

// The first of these tags that is not in a set.
fn first_not_in(set: &HashSet<Tag, Seed>, these: &[Tag]) -> Option<Tag>
    ensures { result ≡ find (λ a. not (set_contains same_tag set.now a)) these.now }
{
    these.iter().copied().find(|a| !set.contains(a))
}

// The first of these tags that is not among those.
pub fn first_outside(alloc: Global, those: &[Tag], these: &[Tag]) -> Result<Option<Tag>, AllocError>
    ensures { IfOk result (λ r. r ≡ first_outside those.now these.now) }
{
    let mut set = HashSet::with_hasher(alloc, Seed::of(those));
    add_all(&mut set, those)?;
    Ok(first_not_in(&set, these))
}

// Notes one more tag, among those that were noted before too where it is one.
fn note(
    seen: &mut HashSet<Tag, Seed>,
    again: &mut HashSet<Tag, Seed>,
    a: Tag,
) -> Result<(), AllocError>
    ensures seen { OnOk result ((q : Tag) → set_contains same_tag seen.new q ≡ (set_contains same_tag seen.old q || same_tag q a)) }
    ensures again { OnOk result ((q : Tag) → set_contains same_tag again.new q ≡ (set_contains same_tag again.old q || (same_tag q a && set_contains same_tag seen.old q))) }
{
    if !seen.insert(a)? {
        again.insert(a)?;
    }
    Ok(())
}

// The tags that stand in a list twice.
fn repeated(alloc: Global, list: &[Tag]) -> Result<HashSet<Tag, Seed>, AllocError>
    ensures { IfOk result (λ s. (q : Tag) → set_contains same_tag s q ≡ nat_lt 1 (occurrences q list.now)) }
{
    let seed = Seed::of(list);
    let mut seen = HashSet::with_hasher(alloc, seed);
    let mut again = HashSet::with_hasher(alloc, seed);
    for a in list {
        note(&mut seen, &mut again, *a)?;
    }
    Ok(again)
}

// The first of these tags that is in a set.
fn first_in(set: &HashSet<Tag, Seed>, these: &[Tag]) -> Option<Tag>
    ensures { result ≡ find (λ a. set_contains same_tag set.now a) these.now }
{
    these.iter().copied().find(|a| set.contains(a))
}

// The first tag of a list that stands in it twice.
pub fn first_doubled(alloc: Global, list: &[Tag]) -> Result<Option<Tag>, AllocError>
    ensures { IfOk result (λ r. r ≡ first_doubled list.now) }
{
    let twice = repeated(alloc, list)?;
    Ok(first_in(&twice, list))
}

/// Whether an inserted element stands at its place.
pub fn stands_at_place(list: &[Tag], p: &Placed) -> bool
    ensures { result ≡ stands_at_place list.now p.now }
{
    match list.get(p.place) {
        Some(b) => p.tag == *b,
        None => false,
    }
}

// The first inserted element that does not stand at its place.
pub fn first_misplaced(x: &Event) -> Option<Tag>
    ensures { result ≡ first_misplaced (event_view x.now) }
{
    let list = x.list.as_slice();
    x.inserted
        .iter()
        .find(|p| !stands_at_place(list, p))
        .map(|p| p.tag)
}

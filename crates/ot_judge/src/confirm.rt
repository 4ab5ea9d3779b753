//! Events confirmed, replica by replica, each from the list that its replica had before it and from what newly known events
//! insert, but for what it knows as deleted.

ghost use Rattle.std.specs.Prelude.{◌≡◌, ◌<◌, ◌||◌, ◌&&◌, ◌++◌, ℕ, IfOk, IfSome, OnOk, IsTrue, List, length, map, not, All, true, false, slice_index_or};
ghost use Rattle.std.specs.List.{flat_map};
ghost use Rattle.std.specs.HashSet.{contains as set_contains};
ghost use Rattle.ot_isa.specs.declared.elements.Tag.{Tag};
ghost use Rattle.ot_model.specs.Trace.{contains, event_at, inserted_tags, occurrences, same_tag};
ghost use Rattle.ot_model.specs.Visibility.{SeesRightly};
ghost use Rattle.ot_model.specs.WeakList.{known_deletions};
ghost use Rattle.ot_judge.specs.Elements.{IsElement};
ghost use Rattle.ot_judge.specs.Numbers.{IsNumbered};
ghost use Rattle.ot_judge.specs.Places.{IsDistinct};
ghost use Rattle.ot_judge.specs.Turns.{HoldsAfter, HoldsExactly, IsLastOf, IsTaken, ReadsOnly, StandsOnce, given, list_before};
ghost use Rattle.ot_judge.specs.Views.{views};

use crate::contents::first_misplaced;
use crate::elements::{Element, Elements, elements_of, first_of, is_gone};
use crate::news::{edits_of, news_of};
use crate::seed::Seed;
use crate::trace::Event;
use crate::visibility::sees_after;
use ot_isa::Tag;
use ot_model::Placed;
use std::alloc::{AllocError, Global};
use std::collections::HashSet;

// The tags of a list as a set, where none stands in it twice.
#[tactic(auto, using(crate::proofs::TagLemmas::tag_steps))]
fn set_of(alloc: Global, list: &[Tag]) -> Result<Option<HashSet<Tag, Seed>>, AllocError>
    ensures { IfOk result (λ r. IfSome r (λ s. (q : Tag) → StandsOnce list.now q (set_contains same_tag s q))) }
{
    let mut set = HashSet::with_capacity_and_hasher(alloc, list.len(), Seed::of(list))?;
    for a in list {
        if !set.insert(*a)? {
            return Ok(None);
        }
    }
    Ok(Some(set))
}

// Takes the element with this number and tag, unless it is gone, out of a set; false where there is no such element, or where it
// is not in the set.
fn take_one(
    set: &mut HashSet<Tag, Seed>,
    all: &[Element],
    events: &[Event],
    numbers: &[usize],
    e: usize,
    n: usize,
    a: Tag,
) -> bool
    requires numbered { IsNumbered (views events.now) numbers.now }
    requires within { e < length events.now }
    requires reads { All ReadsOnly (views events.now) }
    requires elements { All (IsElement (views events.now) (length events.now)) all.now }
    ensures { IsTrue result → SeesRightly (views events.now) e → IsTaken (set_contains same_tag set.old) (set_contains same_tag set.new) (λ q. same_tag q a && not (contains (known_deletions (views events.now) e) q)) }
{
    let Some(x) = all.get(n) else {
        return false;
    };
    if x.tag != a {
        return false;
    }
    if is_gone(x, events, numbers, e) {
        return true;
    }
    set.remove(&a)
}

// Takes the elements that the start holds and that are not gone out of a set; false where one is not in it.
fn take_start(
    set: &mut HashSet<Tag, Seed>,
    elements: &Elements,
    events: &[Event],
    numbers: &[usize],
    e: usize,
    start: &[Tag],
) -> bool
    requires numbered { IsNumbered (views events.now) numbers.now }
    requires within { e < length events.now }
    requires reads { All ReadsOnly (views events.now) }
    requires elements { All (IsElement (views events.now) (length events.now)) elements.now.all.items }
    ensures { IsTrue result → SeesRightly (views events.now) e → IsTaken (set_contains same_tag set.old) (set_contains same_tag set.new) (λ q. contains start.now q && not (contains (known_deletions (views events.now) e) q)) }
{
    let all = elements.all.as_slice();
    for n in 0..start.len() {
        if !take_one(set, all, events, numbers, e, n, start[n]) {
            return false;
        }
    }
    true
}

// Takes the elements that a list holds and that are not gone out of a set; false where one is not in it.
fn take_listed(
    set: &mut HashSet<Tag, Seed>,
    elements: &Elements,
    events: &[Event],
    numbers: &[usize],
    e: usize,
    list: &[Tag],
) -> bool
    requires numbered { IsNumbered (views events.now) numbers.now }
    requires within { e < length events.now }
    requires reads { All ReadsOnly (views events.now) }
    requires elements { All (IsElement (views events.now) (length events.now)) elements.now.all.items }
    ensures { IsTrue result → SeesRightly (views events.now) e → IsTaken (set_contains same_tag set.old) (set_contains same_tag set.new) (λ q. contains list.now q && not (contains (known_deletions (views events.now) e) q)) }
{
    let all = elements.all.as_slice();
    for i in 0..list.len() {
        let Some(n) = elements.index.get(&list[i]) else {
            return false;
        };
        if !take_one(set, all, events, numbers, e, *n, list[i]) {
            return false;
        }
    }
    true
}

// Takes inserted elements, numbered from `first` on, that are not gone out of a set; false where one is not in it.
fn take_inserted(
    set: &mut HashSet<Tag, Seed>,
    all: &[Element],
    events: &[Event],
    numbers: &[usize],
    e: usize,
    inserted: &[Placed],
    first: usize,
) -> bool
    requires numbered { IsNumbered (views events.now) numbers.now }
    requires within { e < length events.now }
    requires reads { All ReadsOnly (views events.now) }
    requires elements { All (IsElement (views events.now) (length events.now)) all.now }
    ensures { IsTrue result → SeesRightly (views events.now) e → IsTaken (set_contains same_tag set.old) (set_contains same_tag set.new) (λ q. contains (map (λ (p : Placed). p.tag) inserted.now) q && not (contains (known_deletions (views events.now) e) q)) }
{
    for i in 0..inserted.len() {
        let n = first.saturating_add(i);
        if !take_one(set, all, events, numbers, e, n, inserted[i].tag) {
            return false;
        }
    }
    true
}

// Takes what newly known events insert and is not gone out of a set; false where one is not in it.
#[tactic(auto, using(crate::proofs::Views::view_steps))]
fn take_news(
    set: &mut HashSet<Tag, Seed>,
    elements: &Elements,
    events: &[Event],
    numbers: &[usize],
    e: usize,
    news: &[usize],
) -> bool
    requires numbered { IsNumbered (views events.now) numbers.now }
    requires within { e < length events.now }
    requires reads { All ReadsOnly (views events.now) }
    requires elements { All (IsElement (views events.now) (length events.now)) elements.now.all.items }
    requires news { All (λ d. d < length events.now) news.now }
    ensures { IsTrue result → SeesRightly (views events.now) e → IsTaken (set_contains same_tag set.old) (set_contains same_tag set.new) (λ q. contains (given (views events.now) inserted_tags news.now) q && not (contains (known_deletions (views events.now) e) q)) }
{
    let all = elements.all.as_slice();
    for i in 0..news.len() {
        let x = &events[news[i]];
        let first = first_of(elements, news[i]);
        let inserted = x.inserted.as_slice();
        if !take_inserted(set, all, events, numbers, e, inserted, first) {
            return false;
        }
    }
    true
}

// Takes what the replica's list held before the event and is not gone out of a set; false where one is not in it.
#[tactic(auto, using(crate::proofs::Views::view_steps))]
fn take_held(
    set: &mut HashSet<Tag, Seed>,
    elements: &Elements,
    start: &[Tag],
    events: &[Event],
    numbers: &[usize],
    e: usize,
    last: Option<usize>,
) -> bool
    requires numbered { IsNumbered (views events.now) numbers.now }
    requires within { e < length events.now }
    requires last { IfSome last (λ p. p < length events.now) }
    requires reads { All ReadsOnly (views events.now) }
    requires elements { All (IsElement (views events.now) (length events.now)) elements.now.all.items }
    ensures { IsTrue result → SeesRightly (views events.now) e → IsTaken (set_contains same_tag set.old) (set_contains same_tag set.new) (λ q. contains (list_before start.now (views events.now) last) q && not (contains (known_deletions (views events.now) e) q)) }
{
    match last {
        Some(p) => {
            let x = &events[p];
            let list = x.list.as_slice();
            take_listed(set, elements, events, numbers, e, list)
        }
        None => take_start(set, elements, events, numbers, e, start),
    }
}

// Whether the list of the event at `e` holds once each what the replica held and what newly known events insert, but for what
// it knows as deleted, and nothing else.
#[tactic(auto, using(crate::proofs::Views::view_steps))]
fn holds_exactly(
    alloc: Global,
    elements: &Elements,
    start: &[Tag],
    events: &[Event],
    numbers: &[usize],
    e: usize,
    last: Option<usize>,
    news: &[usize],
) -> Result<bool, AllocError>
    requires numbered { IsNumbered (views events.now) numbers.now }
    requires within { e < length events.now }
    requires last { IfSome last (λ p. p < length events.now) }
    requires reads { All ReadsOnly (views events.now) }
    requires elements { All (IsElement (views events.now) (length events.now)) elements.now.all.items }
    requires news { All (λ d. d < length events.now) news.now }
    ensures { IfOk result (λ b. IsTrue b → SeesRightly (views events.now) e → HoldsExactly (event_at (views events.now) e).list (λ q. (contains (list_before start.now (views events.now) last) q || contains (given (views events.now) inserted_tags news.now) q) && not (contains (known_deletions (views events.now) e) q))) }
{
    let x = &events[e];
    let Some(mut left) = set_of(alloc, x.list.as_slice())? else {
        return Ok(false);
    };
    if !take_held(&mut left, elements, start, events, numbers, e, last) {
        return Ok(false);
    }
    if !take_news(&mut left, elements, events, numbers, e, news) {
        return Ok(false);
    }
    Ok(left.is_empty())
}

// Whether the event at `e` is seen to hold where all before it do.
fn holds_after(
    alloc: Global,
    elements: &Elements,
    start: &[Tag],
    events: &[Event],
    numbers: &[usize],
    table: &[Vec<usize>],
    e: usize,
    last: Option<usize>,
) -> Result<bool, AllocError>
    requires numbered { IsNumbered (views events.now) numbers.now }
    requires within { e < length events.now }
    requires last { IsLastOf (views events.now) e (event_at (views events.now) e).replica last }
    requires reads { All ReadsOnly (views events.now) }
    requires elements { All (IsElement (views events.now) (length events.now)) elements.now.all.items }
    ensures { IfOk result (λ b. IsTrue b → HoldsAfter start.now (views events.now) e) }
{
    if !sees_after(events, numbers, table, e, last) {
        return Ok(false);
    }
    let Some(news) = news_of(alloc, events, numbers, table, e, last)? else {
        return Ok(false);
    };
    let news = news.as_slice();
    if !holds_exactly(alloc, elements, start, events, numbers, e, last, news)? {
        return Ok(false);
    }
    if let Some(_) = first_misplaced(&events[e]) {
        return Ok(false);
    }
    Ok(true)
}

// Marks the events of one replica that are seen to hold where all before them do, up to the first that is not.
fn confirm_replica(
    alloc: Global,
    elements: &Elements,
    start: &[Tag],
    events: &[Event],
    numbers: &[usize],
    table: &[Vec<usize>],
    marks: &mut [bool],
    replica: usize,
) -> Result<(), AllocError>
    requires numbered { IsNumbered (views events.now) numbers.now }
    requires reads { All ReadsOnly (views events.now) }
    requires long { length marks.old ≡ length events.now }
    requires elements { All (IsElement (views events.now) (length events.now)) elements.now.all.items }
    ensures { OnOk result (((k : ℕ) → slice_index_or marks.old k false ≡ true → HoldsAfter start.now (views events.now) k) → (k : ℕ) → slice_index_or marks.new k false ≡ true → HoldsAfter start.now (views events.now) k) }
{
    let mut last = None;
    for e in 0..events.len() {
        if events[e].replica == replica {
            if !holds_after(alloc, elements, start, events, numbers, table, e, last)? {
                return Ok(());
            }
            marks[e] = true;
            last = Some(e);
        }
    }
    Ok(())
}

// No event marked.
fn no_marks(alloc: Global, count: usize) -> Result<Vec<bool>, AllocError>
    ensures long { IfOk result (λ v. length v.items ≡ count) }
    ensures none { IfOk result (λ v. (k : ℕ) → slice_index_or v.items k false ≡ false) }
{
    let marks = vec![in alloc; false; count]?;
    Ok(marks)
}

/// By event, whether it is seen to hold where all before it do. Each entry of a list takes three looks into a hash table, each
/// element of the start and insertion one, and each deletion at most one; each element of the start and insertion takes a step
/// for each replica, and each event one for each two replicas. An element that the event's own replica has not deleted is looked
/// at once for each of its deleters, at most one of a replica.
pub fn confirmed(
    alloc: Global,
    replicas: usize,
    start: &[Tag],
    events: &[Event],
    numbers: &[usize],
) -> Result<Vec<bool>, AllocError>
    requires numbered { IsNumbered (views events.now) numbers.now }
    requires reads { All ReadsOnly (views events.now) }
    requires distinct { IsDistinct (start.now ++ flat_map inserted_tags (views events.now)) }
    ensures long { IfOk result (λ v. length v.items ≡ length events.now) }
    ensures holds { IfOk result (λ v. (k : ℕ) → slice_index_or v.items k false ≡ true → HoldsAfter start.now (views events.now) k) }
{
    let elements = elements_of(alloc, start, events)?;
    let table = edits_of(alloc, replicas, events)?;
    let mut marks = no_marks(alloc, events.len())?;
    for replica in 0..replicas {
        confirm_replica(
            alloc,
            &elements,
            start,
            events,
            numbers,
            table.as_slice(),
            marks.as_mut_slice(),
            replica,
        )?;
    }
    Ok(marks)
}

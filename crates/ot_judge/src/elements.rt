//! The elements of a trace by number, the start's first and then those that the events insert, and who deletes each. An event
//! knows an element as deleted where it knows one of the element's deleters. Of each replica only the first one is recorded: what
//! knows a later edit of a replica knows the earlier ones.

ghost use Rattle.std.specs.Prelude.{◌≡◌, ◌<◌, ◌≤◌, ◌⊎◌, ◌+◌, ◌++◌, ℕ, IfOk, IfErr, OnOk, IsTrue, List, length, map, All};
ghost use Rattle.std.specs.List.{Contains, flat_map};
ghost use Rattle.ot_isa.specs.declared.elements.Tag.{Tag};
ghost use Rattle.std.specs.HashMap.{get};
ghost use Rattle.ot_model.specs.Trace.{contains, event_at, inserted_tags, same_tag};
ghost use Rattle.ot_model.specs.Visibility.{SeesRightly};
ghost use Rattle.ot_model.specs.WeakList.{known_deletions};
ghost use Rattle.ot_judge.specs.Elements.{IsDeletedBy, IsElement, OfReplica};
ghost use Rattle.ot_judge.specs.Numbers.{IsNumbered};
ghost use Rattle.ot_judge.specs.Places.{IsDistinct, IsIndex};
ghost use Rattle.ot_judge.specs.Turns.{ReadsOnly};
ghost use Rattle.ot_judge.specs.Views.{views};

use crate::contents::knows;
use crate::order::places_of;
use crate::seed::Seed;
use crate::trace::{Event, named_tags};
use ot_isa::Tag;
use std::alloc::{AllocError, Global};
use std::collections::HashMap;

/// An element and its deleters, of which nearly all have one or none: the one of the greatest replica, and the others sorted by
/// their replicas. No contract speaks of that order, which makes them quick to find.
#[derive(Drop)]
pub struct Element {
    pub tag: Tag,
    pub last: Option<usize>,
    pub others: Vec<usize>,
}

/// The elements by number, the number of each tag, and by event the number of the first element that it inserts. No contract
/// speaks of the numbers: who reads an element checks its tag.
#[derive(Drop)]
pub struct Elements {
    pub all: Vec<Element>,
    pub index: HashMap<Tag, usize, Seed>,
    pub firsts: Vec<usize>,
}

// Whether the event at `d` is of this replica.
#[tactic(auto, using(crate::proofs::Views::view_steps))]
fn is_of(events: &[Event], d: usize, replica: usize) -> bool
    requires { d < length events.now }
    ensures { IsTrue result → (event_at (views events.now) d).replica ≡ replica }
{
    events[d].replica == replica
}

// The deleter of this replica among some that are sorted by their replicas, or where it would go. No more stand before it than
// there are replicas below, and mostly it is the last of these. Where they are not sorted, what is found is one of them all the
// same.
#[tactic(auto, using(crate::proofs::Views::view_steps))]
fn find_deleter(others: &[usize], events: &[Event], replica: usize) -> Result<usize, usize>
    requires { All (λ d. d < length events.now) others.now }
    ensures found { IfOk result (λ d. Contains others.now d × ((event_at (views events.now) d).replica ≡ replica)) }
    ensures place { IfErr result (λ at. at ≤ length others.now) }
{
    let mut low = 0;
    let mut high = others.len().min(replica.saturating_add(1));
    let mut middle = high.saturating_sub(1);
    while low < high {
        let d = others[middle];
        if is_of(events, d, replica) {
            return Ok(d);
        }
        if events[d].replica < replica {
            low = middle + 1;
        } else {
            high = middle;
        }
        middle = low + (high - low) / 2;
    }
    Err(low)
}

// Notes that an event deletes an element, unless an earlier one of its replica does.
#[tactic(auto, using(crate::proofs::Views::view_steps))]
fn note_deleter(x: &mut Element, events: &[Event], d: usize) -> Result<(), AllocError>
    requires within { d < length events.now }
    requires known { (k : ℕ) → IsDeletedBy x.old k → k < length events.now }
    ensures tag { OnOk result (x.new.tag ≡ x.old.tag) }
    ensures kept { OnOk result ((k : ℕ) → IsDeletedBy x.old k → IsDeletedBy x.new k) }
    ensures only { OnOk result ((k : ℕ) → IsDeletedBy x.new k → IsDeletedBy x.old k ⊎ (k ≡ d)) }
    ensures here { OnOk result (OfReplica (views events.now) x.new (event_at (views events.now) d).replica) }
{
    let replica = events[d].replica;
    let Some(last) = x.last else {
        x.last = Some(d);
        return Ok(());
    };
    if is_of(events, last, replica) {
        return Ok(());
    }
    if events[last].replica < replica {
        x.others.push(last)?;
        x.last = Some(d);
    } else if let Err(at) = find_deleter(x.others.as_slice(), events, replica) {
        x.others.insert(at, d)?;
    }
    Ok(())
}

// The number of an element, which is looked for first where it is guessed to be.
fn element_number(
    all: &[Element],
    index: &HashMap<Tag, usize, Seed>,
    guess: usize,
    a: Tag,
) -> Option<usize>
    requires { IsIndex index.now (map (λ x. x.tag) all.now) }
    ensures { result ≡ get same_tag index.now a }
{
    if guess < all.len() && all[guess].tag == a {
        return Some(guess);
    }
    index.get(&a).copied()
}

// Notes what the event at `d` deletes.
#[tactic(auto, using(crate::proofs::Views::view_steps))]
fn note_deletions(
    all: &mut [Element],
    index: &HashMap<Tag, usize, Seed>,
    events: &[Event],
    d: usize,
) -> Result<(), AllocError>
    requires within { d < length events.now }
    requires index { IsIndex index.now (map (λ x. x.tag) all.old) }
    requires before { All (IsElement (views events.now) d) all.old }
    ensures tags { OnOk result (map (λ x. x.tag) all.new ≡ map (λ x. x.tag) all.old) }
    ensures after { OnOk result (All (IsElement (views events.now) (d + 1)) all.new) }
{
    let y = &events[d];
    let mut guess = 0;
    for a in &y.deleted {
        if let Some(n) = element_number(all, index, guess, *a) {
            note_deleter(&mut all[n], events, d)?;
            guess = n.saturating_add(1);
        }
    }
    Ok(())
}

// Elements that nothing deletes.
fn fresh(alloc: Global, tags: &[Tag]) -> Result<Vec<Element>, AllocError>
    ensures tags { IfOk result (λ v. map (λ x. x.tag) v.items ≡ tags.now) }
    ensures none { IfOk result (λ v. All (λ x. (k : ℕ) → IsDeletedBy x k → ⊥) v.items) }
{
    let mut all = Vec::with_capacity(alloc, tags.len())?;
    for a in tags {
        all.push(Element {
            tag: *a,
            last: None,
            others: Vec::new(alloc),
        })?;
    }
    Ok(all)
}

// The elements of these tags with their deleters.
#[tactic(auto, using(crate::proofs::Views::view_steps))]
fn with_deleters(
    alloc: Global,
    tags: &[Tag],
    index: &HashMap<Tag, usize, Seed>,
    events: &[Event],
) -> Result<Vec<Element>, AllocError>
    requires { IsIndex index.now tags.now }
    ensures { IfOk result (λ v. All (IsElement (views events.now) (length events.now)) v.items) }
{
    let mut all = fresh(alloc, tags)?;
    for d in 0..events.len() {
        note_deletions(all.as_mut_slice(), index, events, d)?;
    }
    Ok(all)
}

// By event, how many elements come before those that it inserts.
fn firsts_of(alloc: Global, start: usize, events: &[Event]) -> Result<Vec<usize>, AllocError> {
    let mut firsts = Vec::new(alloc);
    let mut count = start;
    for x in events {
        firsts.push(count)?;
        count = count.saturating_add(x.inserted.len());
    }
    Ok(firsts)
}

/// The elements of a trace.
pub fn elements_of(alloc: Global, start: &[Tag], events: &[Event]) -> Result<Elements, AllocError>
    requires { IsDistinct (start.now ++ flat_map inserted_tags (views events.now)) }
    ensures { IfOk result (λ t. All (IsElement (views events.now) (length events.now)) t.all.items) }
{
    let tags = named_tags(alloc, start, events)?;
    let index = places_of(alloc, tags.as_slice())?;
    let all = with_deleters(alloc, tags.as_slice(), &index, events)?;
    let firsts = firsts_of(alloc, start.len(), events)?;
    Ok(Elements { all, index, firsts })
}

/// The number of the first element that the event at `d` inserts.
pub fn first_of(elements: &Elements, d: usize) -> usize {
    elements.firsts.get(d).copied().unwrap_or(0)
}

/// Whether the event at `e` knows an element as deleted, where it sees what it has to.
pub fn is_gone(x: &Element, events: &[Event], numbers: &[usize], e: usize) -> bool
    requires numbered { IsNumbered (views events.now) numbers.now }
    requires within { e < length events.now }
    requires reads { All ReadsOnly (views events.now) }
    requires deleters { IsElement (views events.now) (length events.now) x.now }
    ensures { SeesRightly (views events.now) e → result ≡ contains (known_deletions (views events.now) e) x.now.tag }
{
    if let Some(d) = x.last {
        if knows(events, e, d, numbers[d]) {
            return true;
        }
    }
    if let Ok(d) = find_deleter(x.others.as_slice(), events, events[e].replica) {
        if knows(events, e, d, numbers[d]) {
            return true;
        }
    }
    for d in &x.others {
        if knows(events, e, *d, numbers[*d]) {
            return true;
        }
    }
    false
}

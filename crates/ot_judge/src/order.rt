//! Two elements in one order in one list and in the other order in another.

ghost use Rattle.std.specs.Prelude.{◌≡◌, ◌≢◌, ◌<◌, ◌≤◌, ℕ, IfOk, IsTrue, List, length, map, All, MatchOption};
ghost use Rattle.ot_model.specs.WeakList.{IsBefore, IsReversed, nth};
ghost use Rattle.ot_model.specs.TraceLaws.{AgreeInOrder};
ghost use Rattle.ot_judge.specs.Places.{IsDistinct, IsIndex};
ghost use Rattle.ot_judge.specs.Ranks.{Climbs, IsCompared, rank_of};
ghost use Rattle.ot_isa.specs.declared.elements.Tag.{Tag};

use crate::seed::Seed;
use ot_isa::Tag;
use std::alloc::{AllocError, Global};
use std::collections::HashMap;

/// Two elements: the first stands before the second in the list of the earlier event, and behind it in the other's.
#[derive(Clone, Copy, PartialEq, Eq, Debug)]
pub struct Reversal {
    pub earlier: usize,
    pub later: usize,
    pub a: Tag,
    pub b: Tag,
}

/// The place of each tag of a list.
pub fn places_of(alloc: Global, xs: &[Tag]) -> Result<HashMap<Tag, usize, Seed>, AllocError>
    requires { IsDistinct xs.now }
    ensures { IfOk result (λ m. IsIndex m xs.now) }
{
    let mut places = HashMap::with_hasher(alloc, Seed::of(xs));
    for i in 0..xs.len() {
        places.insert(xs[i], i)?;
    }
    Ok(places)
}

// Two elements of which the first stands before the second in `xs` and behind it in `ys`.
fn first_fall(xs: &[Tag], places: &HashMap<Tag, usize, Seed>, ys: &[Tag]) -> Option<(Tag, Tag)>
    requires { IsIndex places.now xs.now }
    ensures { MatchOption result (AgreeInOrder xs.now ys.now) (λ r. IsBefore xs.now r.0 r.1 × IsBefore ys.now r.1 r.0) }
{
    let mut last = 0;
    for i in 0..ys.len() {
        let y = ys[i];
        if let Some(p) = places.get(&y) {
            if *p < last {
                return Some((y, xs[last]));
            }
            last = *p;
        }
    }
    None
}

/// The place of an element, or 0 where it has none.
pub fn place_in(places: &HashMap<Tag, usize, Seed>, a: Tag) -> usize
    ensures { result ≡ rank_of places.now a }
{
    places.get(&a).copied().unwrap_or(0)
}

// Whether the elements of a list have places that rise along it.
fn climbs(places: &HashMap<Tag, usize, Seed>, xs: &[Tag]) -> bool
    ensures { IsTrue result → Climbs places.now xs.now }
{
    let mut last = 0;
    for i in 0..xs.len() {
        let place = place_in(places, xs[i]);
        if place <= last {
            return false;
        }
        last = place;
    }
    true
}

// The same of each of the lists.
pub fn all_climb(places: &HashMap<Tag, usize, Seed>, lists: &[Vec<Tag>]) -> bool
    ensures { IsTrue result → (d e : ℕ) (a b : Tag) → ¬ IsReversed (map (λ v. v.items) lists.now) d e a b }
{
    for v in lists {
        if !climbs(places, v.as_slice()) {
            return false;
        }
    }
    true
}

/// Two elements that two lists have in two orders, if there are any.
pub fn compare(
    alloc: Global,
    lists: &[Vec<Tag>],
    d: usize,
    e: usize,
) -> Result<Option<Reversal>, AllocError>
    requires later { d < e }
    requires within { e < length lists.now }
    requires distinct { All (λ v. IsDistinct v.items) lists.now }
    ensures { IfOk result (λ r. MatchOption r (AgreeInOrder (nth (map (λ v. v.items) lists.now) d) (nth (map (λ v. v.items) lists.now) e)) (λ r. IsReversed (map (λ v. v.items) lists.now) r.earlier r.later r.a r.b)) }
{
    let xs = lists[d].as_slice();
    let places = places_of(alloc, xs)?;
    match first_fall(xs, &places, lists[e].as_slice()) {
        Some(pair) => Ok(Some(Reversal {
            earlier: d,
            later: e,
            a: pair.0,
            b: pair.1,
        })),
        None => Ok(None),
    }
}

// Two elements that the list at `d` and a later one have in two orders, if there are any.
fn compare_later(
    alloc: Global,
    lists: &[Vec<Tag>],
    d: usize,
) -> Result<Option<Reversal>, AllocError>
    requires within { d < length lists.now }
    requires distinct { All (λ v. IsDistinct v.items) lists.now }
    ensures { IfOk result (λ r. MatchOption r (IsCompared (map (λ v. v.items) lists.now) d) (λ r. IsReversed (map (λ v. v.items) lists.now) r.earlier r.later r.a r.b)) }
{
    for e in d + 1..lists.len() {
        if let Some(found) = compare(alloc, lists, d, e)? {
            return Ok(Some(found));
        }
    }
    Ok(None)
}

/// A reversed pair of the lists, if there is one, sought by comparing each list with all later ones.
pub fn compare_all(alloc: Global, lists: &[Vec<Tag>]) -> Result<Option<Reversal>, AllocError>
    requires { All (λ v. IsDistinct v.items) lists.now }
    ensures { IfOk result (λ r. MatchOption r ((d e : ℕ) (a b : Tag) → ¬ IsReversed (map (λ v. v.items) lists.now) d e a b) (λ r. IsReversed (map (λ v. v.items) lists.now) r.earlier r.later r.a r.b)) }
{
    for d in 0..lists.len() {
        if let Some(found) = compare_later(alloc, lists, d)? {
            return Ok(Some(found));
        }
    }
    Ok(None)
}

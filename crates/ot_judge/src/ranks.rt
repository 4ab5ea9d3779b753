//! Ranks that are checked and never trusted: where they never fall along any list, only elements of equal rank can be reversed.

ghost use Rattle.std.specs.Prelude.{◌≡◌, ◌<◌, ◌≤◌, ◌⊎◌, ℕ, IfOk, OnOk, IsTrue, List, length, map, filter, All, MatchOption, nat_eq, true, Some};
ghost use Rattle.std.specs.HashMap.{get};
ghost use Rattle.std.specs.HashSet.{contains as set_contains};
ghost use Rattle.ot_model.specs.WeakList.{IsReversed};
ghost use Rattle.ot_judge.specs.Places.{IsDistinct};
ghost use Rattle.ot_judge.specs.Ranks.{IsAccounted, NeverFalls, is_crowded, rank_of};
ghost use Rattle.ot_isa.specs.declared.elements.Tag.{Tag};

use crate::graph::Order;
use crate::order::{Reversal, all_climb, place_in};
use crate::search::find_reversal;
use crate::seed::Seed;
use ot_isa::Tag;
use std::alloc::{AllocError, Global};
use std::collections::{HashMap, HashSet};

// Whether the ranks never fall along a list.
fn never_falls(ranks: &HashMap<Tag, usize, Seed>, xs: &[Tag]) -> bool
    ensures { IsTrue result → NeverFalls ranks.now xs.now }
{
    let mut highest = 0;
    for i in 0..xs.len() {
        let rank = place_in(ranks, xs[i]);
        if rank < highest {
            return false;
        }
        highest = rank;
    }
    true
}

// Whether the ranks never fall along any of the lists.
fn never_fall(ranks: &HashMap<Tag, usize, Seed>, lists: &[Vec<Tag>]) -> bool
    ensures { IsTrue result → All (λ v. NeverFalls ranks.now v.items) lists.now }
{
    for v in lists {
        if !never_falls(ranks, v.as_slice()) {
            return false;
        }
    }
    true
}

// The elements of a list whose rank is crowded.
fn crowded_part(
    alloc: Global,
    ranks: &HashMap<Tag, usize, Seed>,
    crowded: &HashSet<usize>,
    xs: &[Tag],
) -> Result<Vec<Tag>, AllocError>
    ensures { IfOk result (λ v. v.items ≡ filter (is_crowded ranks.now crowded.now) xs.now) }
{
    let mut kept = Vec::new(alloc);
    for a in xs {
        if crowded.contains(&place_in(ranks, *a)) {
            kept.push(*a)?;
        }
    }
    Ok(kept)
}

// Whether an element is the one that its rank belongs to.
fn is_owner(ranks: &HashMap<Tag, usize, Seed>, owners: &HashMap<usize, Tag>, a: Tag) -> bool
    ensures { IsTrue result → get nat_eq owners.now (rank_of ranks.now a) ≡ Some a }
{
    match owners.get(&place_in(ranks, a)) {
        Some(b) => *b == a,
        None => false,
    }
}

// Adds the ranks of a list's elements that do not own them.
fn add_crowded(
    crowded: &mut HashSet<usize>,
    ranks: &HashMap<Tag, usize, Seed>,
    owners: &HashMap<usize, Tag>,
    xs: &[Tag],
) -> Result<(), AllocError>
    ensures grows { OnOk result ((n : ℕ) → set_contains nat_eq crowded.old n ≡ true → set_contains nat_eq crowded.new n ≡ true) }
    ensures accounted { OnOk result (IsAccounted ranks.now owners.now crowded.new xs.now) }
{
    for a in xs {
        if !is_owner(ranks, owners, *a) {
            crowded.insert(place_in(ranks, *a))?;
        }
    }
    Ok(())
}

// The ranks that two elements or more may have.
fn crowded_ranks(
    alloc: Global,
    ranks: &HashMap<Tag, usize, Seed>,
    owners: &HashMap<usize, Tag>,
    lists: &[Vec<Tag>],
) -> Result<HashSet<usize>, AllocError>
    ensures { IfOk result (λ s. All (λ v. IsAccounted ranks.now owners.now s v.items) lists.now) }
{
    let mut crowded = HashSet::new(alloc);
    for v in lists {
        add_crowded(&mut crowded, ranks, owners, v.as_slice())?;
    }
    Ok(crowded)
}

// The crowded part of each list.
fn crowded_parts(
    alloc: Global,
    ranks: &HashMap<Tag, usize, Seed>,
    crowded: &HashSet<usize>,
    lists: &[Vec<Tag>],
) -> Result<Vec<Vec<Tag>>, AllocError>
    ensures { IfOk result (λ k. map (λ w. w.items) k.items ≡ map (filter (is_crowded ranks.now crowded.now)) (map (λ w. w.items) lists.now)) }
{
    let mut parts = Vec::new(alloc);
    for v in lists {
        let part = crowded_part(alloc, ranks, crowded, v.as_slice())?;
        parts.push(part)?;
    }
    Ok(parts)
}

// A reversed pair of the lists, if there is one, sought among elements of equal rank where the ranks never fall.
fn find_reversal_by_rank(
    alloc: Global,
    replicas: usize,
    actors: &[usize],
    ranks: &HashMap<Tag, usize, Seed>,
    owners: &HashMap<usize, Tag>,
    places: &HashMap<Tag, usize, Seed>,
    lists: &[Vec<Tag>],
) -> Result<Option<Reversal>, AllocError>
    requires { All (λ v. IsDistinct v.items) lists.now }
    ensures { IfOk result (λ r. MatchOption r ((d e : ℕ) (a b : Tag) → ¬ IsReversed (map (λ v. v.items) lists.now) d e a b) (λ r. IsReversed (map (λ v. v.items) lists.now) r.earlier r.later r.a r.b)) }
{
    if !never_fall(ranks, lists) {
        return find_reversal(alloc, replicas, actors, places, lists);
    }
    let crowded = crowded_ranks(alloc, ranks, owners, lists)?;
    let parts = crowded_parts(alloc, ranks, &crowded, lists)?;
    let found = find_reversal(alloc, replicas, actors, places, parts.as_slice())?;
    Ok(found)
}

/// A reversed pair of the lists, if there is one; there is none where the order's places rise along each list.
pub fn find_in_order(
    alloc: Global,
    replicas: usize,
    actors: &[usize],
    order: &Order,
    lists: &[Vec<Tag>],
) -> Result<Option<Reversal>, AllocError>
    requires { All (λ v. IsDistinct v.items) lists.now }
    ensures { IfOk result (λ r. MatchOption r ((d e : ℕ) (a b : Tag) → ¬ IsReversed (map (λ v. v.items) lists.now) d e a b) (λ r. IsReversed (map (λ v. v.items) lists.now) r.earlier r.later r.a r.b)) }
{
    let places = &order.places;
    if all_climb(places, lists) {
        return Ok(None);
    }
    let found = find_reversal_by_rank(
        alloc,
        replicas,
        actors,
        &order.ranks,
        &order.owners,
        places,
        lists,
    )?;
    Ok(found)
}

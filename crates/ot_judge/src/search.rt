//! The search for a reversed pair among the lists of several replicas. Each replica's elements get seats, and the lists of the others are held beside
//! them. What is suspected is confirmed in the lists themselves.

ghost use Rattle.std.specs.Prelude.{◌≡◌, ◌<◌, ℕ, ⊤, IfOk, IsTrue, None, false, length, map, All, MatchOption};
ghost use Rattle.ot_model.specs.WeakList.{IsReversed, nth};
ghost use Rattle.ot_judge.specs.Places.{IsDistinct};
ghost use Rattle.ot_judge.specs.Ranks.{rank_of};
ghost use Rattle.ot_judge.specs.Replicas.{IsOwn, IsSettled, Leads, entry_of};
ghost use Rattle.ot_judge.specs.Seats.{AgreesAt};

use crate::falls::falls_at;
use crate::order::{Reversal, compare, compare_all, place_in};
use crate::seats::{Seat, Seating, first_unseated};
use crate::seed::Seed;
use ot_isa::Tag;
use std::alloc::{AllocError, Global};
use std::collections::HashMap;

// The numbers of a list's elements.
fn numbers_in(
    alloc: Global,
    numbers: &HashMap<Tag, usize, Seed>,
    xs: &[Tag],
) -> Result<Vec<usize>, AllocError>
    ensures { IfOk result (λ v. v.items ≡ map (rank_of numbers.now) xs.now) }
{
    let mut list = Vec::new(alloc);
    for a in xs {
        list.push(place_in(numbers, *a))?;
    }
    Ok(list)
}

// The lists, with numbers for their elements.
fn numbered(
    alloc: Global,
    numbers: &HashMap<Tag, usize, Seed>,
    lists: &[Vec<Tag>],
) -> Result<Vec<Vec<usize>>, AllocError>
    ensures { IfOk result (λ k. map (λ w. w.items) k.items ≡ map (map (rank_of numbers.now)) (map (λ w. w.items) lists.now)) }
{
    let mut all = Vec::new(alloc);
    for v in lists {
        let list = numbers_in(alloc, numbers, v.as_slice())?;
        all.push(list)?;
    }
    Ok(all)
}

// The number at a place of a table, or 0 past its end.
fn entry_of(table: &[usize], k: usize) -> usize
    ensures { result ≡ entry_of table.now k }
{
    table.get(k).copied().unwrap_or(0)
}

// Where a replica's lists stand among so many.
fn own_of(
    alloc: Global,
    actors: &[usize],
    count: usize,
    replica: usize,
) -> Result<Vec<usize>, AllocError>
    ensures { IfOk result (λ v. IsOwn actors.now count replica v.items) }
{
    let mut own = Vec::new(alloc);
    for e in 0..count {
        if entry_of(actors, e) == replica {
            own.push(e)?;
        }
    }
    Ok(own)
}

// Whether so many lists are of the first replicas, of which there are `replicas`.
fn all_act(actors: &[usize], count: usize, replicas: usize) -> bool
    ensures { IsTrue result → (e : ℕ) → e < count → entry_of actors.now e < replicas }
{
    for e in 0..count {
        if entry_of(actors, e) >= replicas {
            return false;
        }
    }
    true
}

// By replica, how many elements its lists have in all.
fn sizes_of(
    alloc: Global,
    replicas: usize,
    actors: &[usize],
    lists: &[Vec<usize>],
) -> Result<Vec<usize>, AllocError> {
    let mut sizes = vec![in alloc; 0usize; replicas]?;
    for e in 0..lists.len() {
        if let Some(size) = sizes.get_mut(entry_of(actors, e)) {
            *size = size.saturating_add(lists[e].len());
        }
    }
    Ok(sizes)
}

// Whether the lists of replica `s` are held beside those of `r`: of two replicas, those of the one whose lists are shorter in all.
fn leads(sizes: &[usize], r: usize, s: usize) -> bool
    ensures { result ≡ false → ¬ Leads sizes.now r s }
{
    let here = entry_of(sizes, r);
    let there = entry_of(sizes, s);
    there < here || (there == here && s < r)
}

// A list, and one of the replica's own whose elements have seats, that have two elements in two orders.
fn found_beside(
    alloc: Global,
    seats: &[Seat],
    own: &[usize],
    actors: &[usize],
    sizes: &[usize],
    lists: &[Vec<usize>],
    replica: usize,
) -> Result<Option<(usize, usize)>, AllocError>
    ensures { IfOk result (λ r. r ≡ None → (d : ℕ) → d < length lists.now → Leads sizes.now replica (entry_of actors.now d) → AgreesAt seats.now (nth (map (λ v. v.items) lists.now) d) 0 (length own.now)) }
{
    for d in 0..lists.len() {
        if leads(sizes, replica, entry_of(actors, d)) {
            if let Some(turn) = falls_at(alloc, seats, lists[d].as_slice(), 0, own.len())? {
                return Ok(Some((d, entry_of(own, turn))));
            }
        }
    }
    Ok(None)
}

// Two lists that have two elements in two orders, one of them of this replica.
fn found_at(
    alloc: Global,
    seating: &mut Seating,
    actors: &[usize],
    sizes: &[usize],
    lists: &[Vec<usize>],
    replica: usize,
) -> Result<Option<(usize, usize)>, AllocError>
    ensures { IfOk result (λ r. r ≡ None → IsSettled actors.now sizes.now (map (λ v. v.items) lists.now) replica) }
{
    let all = own_of(alloc, actors, lists.len(), replica)?;
    let own = all.as_slice();
    seating.seat_all(own, lists);
    let seats = seating.seats.as_slice();
    if let Some(turn) = first_unseated(seats, own, lists) {
        return Ok(Some((entry_of(own, turn.saturating_sub(1)), entry_of(own, turn))));
    }
    let found = found_beside(alloc, seats, own, actors, sizes, lists, replica)?;
    seating.clear_all(own, lists);
    Ok(found)
}

// Two lists that have two elements in two orders: a suspicion, but where there is none, none have.
fn suspected(
    alloc: Global,
    replicas: usize,
    actors: &[usize],
    most: usize,
    lists: &[Vec<usize>],
) -> Result<Option<(usize, usize)>, AllocError>
    ensures { IfOk result (λ r. r ≡ None → (d e a b : ℕ) → ¬ IsReversed (map (λ v. v.items) lists.now) d e a b) }
{
    if !all_act(actors, lists.len(), replicas) {
        return Ok(Some((0, 0)));
    }
    let sizes = sizes_of(alloc, replicas, actors, lists)?;
    let mut seating = Seating::new(alloc, most)?;
    for r in 0..replicas {
        if let Some(found) = found_at(alloc, &mut seating, actors, sizes.as_slice(), lists, r)? {
            return Ok(Some(found));
        }
    }
    Ok(None)
}

// A reversed pair of these two lists, if there is one.
fn confirmed(
    alloc: Global,
    lists: &[Vec<Tag>],
    d: usize,
    e: usize,
) -> Result<Option<Reversal>, AllocError>
    requires { All (λ v. IsDistinct v.items) lists.now }
    ensures { IfOk result (λ r. MatchOption r ⊤ (λ r. IsReversed (map (λ v. v.items) lists.now) r.earlier r.later r.a r.b)) }
{
    if d < e && e < lists.len() {
        let found = compare(alloc, lists, d, e)?;
        return Ok(found);
    }
    if e < d && d < lists.len() {
        let found = compare(alloc, lists, e, d)?;
        return Ok(found);
    }
    Ok(None)
}

/// A reversed pair of the lists, if there is one. `actors` says which replica's each list is, of so many; what these numbers say is not trusted, and costs time
/// alone where it is wrong.
pub fn find_reversal(
    alloc: Global,
    replicas: usize,
    actors: &[usize],
    numbers: &HashMap<Tag, usize, Seed>,
    lists: &[Vec<Tag>],
) -> Result<Option<Reversal>, AllocError>
    requires { All (λ v. IsDistinct v.items) lists.now }
    ensures { IfOk result (λ r. MatchOption r ((d e : ℕ) (a b : Tag) → ¬ IsReversed (map (λ v. v.items) lists.now) d e a b) (λ r. IsReversed (map (λ v. v.items) lists.now) r.earlier r.later r.a r.b)) }
{
    let all = numbered(alloc, numbers, lists)?;
    let Some(pair) = suspected(alloc, replicas, actors, numbers.len(), all.as_slice())? else {
        return Ok(None);
    };
    if let Some(found) = confirmed(alloc, lists, pair.0, pair.1)? {
        return Ok(Some(found));
    }
    let found = compare_all(alloc, lists)?;
    Ok(found)
}

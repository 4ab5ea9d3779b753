//! A list beside all lists of one replica, whose elements have seats. Where the places never fall along the list, it agrees with each of them. Else only
//! those of its elements whose places fall are sought in the first half of the replica's turns and in the second one: two that ever stood together in
//! one of the replica's lists and fall are reversed, so among lists that agree only elements that stood there for a part of these turns are looked at again.

ghost use Rattle.std.specs.Prelude.{◌≡◌, ◌<◌, ◌≤◌, ℕ, IfOk, IsTrue, List, None, length, slice_index_or, true};
ghost use Rattle.ot_judge.specs.Seats.{AgreesAt, IsIn, KeepsFalls, FallsNowhere, seat_of};

use crate::seats::{Seat, is_in, seat_of};
use std::alloc::{AllocError, Global};

// Whether the places of these turns never fall along a list.
fn falls_nowhere(seats: &[Seat], xs: &[usize], from: usize, to: usize) -> bool
    ensures { IsTrue result → FallsNowhere seats.now from to xs.now }
{
    let mut highest = 0;
    for i in 0..xs.len() {
        let seat = seat_of(seats, xs[i]);
        if is_in(seat, from, to) {
            if seat.place < highest {
                return false;
            }
            highest = seat.place;
        }
    }
    true
}

// The least place from here on, where this seat comes first.
fn lowered(seat: Seat, from: usize, to: usize, least: usize) -> usize
    ensures less { result ≤ least }
    ensures here { IsIn seat from to → result ≤ seat.place }
{
    if is_in(seat, from, to) {
        least.min(seat.place)
    } else {
        least
    }
}

// For each element of a list the least place of the elements behind it.
fn least_behind(
    alloc: Global,
    seats: &[Seat],
    xs: &[usize],
    from: usize,
    to: usize,
) -> Result<Vec<usize>, AllocError>
    ensures long { IfOk result (λ v. length v.items ≡ length xs.now) }
    ensures least { IfOk result (λ v. (i j : ℕ) → i < j → j < length xs.now → IsIn (seat_of seats.now (slice_index_or xs.now j 0)) from to → slice_index_or v.items i 0 ≤ (seat_of seats.now (slice_index_or xs.now j 0)).place) }
{
    let mut behind = vec![in alloc; 0; xs.len()]?;
    let mut least = usize::MAX;
    let mut i = xs.len();
    while i > 0 {
        i -= 1;
        behind[i] = least;
        least = lowered(seat_of(seats, xs[i]), from, to, least);
    }
    Ok(behind)
}

// Whether an element's place falls behind a higher one, or before a lower one.
fn is_fallen(seat: Seat, from: usize, to: usize, highest: usize, least: usize) -> bool
    ensures behind { IsIn seat from to → seat.place < highest → result ≡ true }
    ensures before { IsIn seat from to → least < seat.place → result ≡ true }
{
    is_in(seat, from, to) && (seat.place < highest || least < seat.place)
}

// The highest place up to here, where this seat comes last.
fn raised(seat: Seat, from: usize, to: usize, highest: usize) -> usize
    ensures more { highest ≤ result }
    ensures here { IsIn seat from to → seat.place ≤ result }
{
    if is_in(seat, from, to) {
        highest.max(seat.place)
    } else {
        highest
    }
}

// The elements of a list whose places fall.
fn fallen(
    alloc: Global,
    seats: &[Seat],
    xs: &[usize],
    from: usize,
    to: usize,
) -> Result<Vec<usize>, AllocError>
    ensures { IfOk result (λ v. KeepsFalls seats.now from to xs.now v.items) }
{
    let behind = least_behind(alloc, seats, xs, from, to)?;
    let mut kept = Vec::new(alloc);
    let mut highest = 0;
    for i in 0..xs.len() {
        let seat = seat_of(seats, xs[i]);
        if is_fallen(seat, from, to, highest, behind[i]) {
            kept.push(xs[i])?;
        }
        highest = raised(seat, from, to, highest);
    }
    Ok(kept)
}

/// A turn of these at which a list has two elements in another order than the replica's list.
pub fn falls_at(
    alloc: Global,
    seats: &[Seat],
    xs: &[usize],
    from: usize,
    to: usize,
) -> Result<Option<usize>, AllocError>
    ensures { IfOk result (λ r. r ≡ None → AgreesAt seats.now xs.now from to) }
{
    if falls_nowhere(seats, xs, from, to) {
        return Ok(None);
    }
    if to <= from || to - from == 1 {
        return Ok(Some(from));
    }
    let kept = fallen(alloc, seats, xs, from, to)?;
    let middle = from + (to - from) / 2;
    if let Some(turn) = falls_at(alloc, seats, kept.as_slice(), from, middle)? {
        return Ok(Some(turn));
    }
    let later = falls_at(alloc, seats, kept.as_slice(), middle, to)?;
    Ok(later)
}

//! Seats of elements in the lists of one replica: one order for all that ever stood in them, and for how long each stood there. An element that
//! is met for the first time is put behind the one that stands before it. No contract speaks of that: what rests on seats checks that its lists are seated.

ghost use Rattle.std.specs.Prelude.{◌≡◌, ◌<◌, ℕ, IsTrue, None, false, length, map, slice_index_or};
ghost use Rattle.ot_model.specs.WeakList.{nth};
ghost use Rattle.ot_judge.specs.Seats.{IsIn, IsSeated, seat_of};

use std::alloc::{AllocError, Global};

/// An element's place in the order, counted from 1, and the turns of the replica's lists in which it stands: from the first one to before `past`.
#[derive(Clone, Copy)]
pub struct Seat {
    pub place: usize,
    pub first: usize,
    pub past: usize,
}

const NO_SEAT: Seat = Seat {
    place: 0,
    first: 0,
    past: 0,
};

/// The seats of elements by number, which are counted from 1, and behind each the next one in the order: 0 is before the first one and behind the last.
#[derive(Drop)]
pub struct Seating {
    pub seats: Vec<Seat>,
    next: Vec<usize>,
}

impl Seating {
    /// No element has a seat; their numbers are at most `most`.
    pub fn new(alloc: Global, most: usize) -> Result<Seating, AllocError> {
        let count = most.saturating_add(1);
        Ok(Seating {
            seats: vec![in alloc; NO_SEAT; count]?,
            next: vec![in alloc; 0; count]?,
        })
    }

    // Puts an element into the order, behind another one.
    fn link(&mut self, n: usize, previous: usize) {
        let behind = self.next.get(previous).copied().unwrap_or(0);
        if let Some(next) = self.next.get_mut(n) {
            *next = behind;
        }
        if let Some(next) = self.next.get_mut(previous) {
            *next = n;
        }
    }

    // Meets an element behind another one in the list of this turn.
    fn meet(&mut self, n: usize, previous: usize, turn: usize) {
        let mut met = true;
        if let Some(seat) = self.seats.get_mut(n) {
            if seat.past == 0 {
                met = false;
                seat.first = turn;
            }
            seat.past = turn.saturating_add(1);
        }
        if !met {
            self.link(n, previous);
        }
    }

    // Meets the elements of the list of this turn.
    fn meet_all(&mut self, xs: &[usize], turn: usize) {
        let mut previous = 0;
        for n in xs {
            self.meet(*n, previous, turn);
            previous = *n;
        }
    }

    // Numbers the places along the order.
    fn place_all(&mut self) {
        let mut here = 0;
        for place in 0..self.next.len() {
            here = self.next.get(here).copied().unwrap_or(0);
            if let Some(seat) = self.seats.get_mut(here) {
                seat.place = place.saturating_add(1);
            }
            if here == 0 {
                return;
            }
        }
    }

    /// Gives seats to the elements of a replica's lists, which stand at `own` among all lists.
    pub fn seat_all(&mut self, own: &[usize], lists: &[Vec<usize>]) {
        for turn in 0..own.len() {
            if let Some(v) = lists.get(own[turn]) {
                self.meet_all(v.as_slice(), turn);
            }
        }
        self.place_all();
    }

    // Takes the seats of a list's elements.
    fn clear(&mut self, xs: &[usize]) {
        for n in xs {
            if let Some(seat) = self.seats.get_mut(*n) {
                *seat = NO_SEAT;
            }
        }
    }

    /// Takes the seats of the elements of these lists.
    pub fn clear_all(&mut self, own: &[usize], lists: &[Vec<usize>]) {
        for e in own {
            if let Some(v) = lists.get(*e) {
                self.clear(v.as_slice());
            }
        }
        if let Some(next) = self.next.get_mut(0) {
            *next = 0;
        }
    }
}

/// The seat of an element.
pub fn seat_of(seats: &[Seat], n: usize) -> Seat
    ensures { result ≡ seat_of seats.now n }
{
    seats.get(n).copied().unwrap_or(NO_SEAT)
}

/// Whether the element of this seat stands in one of the lists of these turns, so far as its seat says.
pub fn is_in(seat: Seat, from: usize, to: usize) -> bool
    ensures yes { IsTrue result → IsIn seat from to }
    ensures no { result ≡ false → ¬ IsIn seat from to }
{
    seat.first < to && from < seat.past
}

// Whether the seats are those of a list of this turn.
fn is_seated(seats: &[Seat], xs: &[usize], turn: usize) -> bool
    ensures { IsTrue result → IsSeated seats.now xs.now turn }
{
    let mut last = 0;
    for i in 0..xs.len() {
        let seat = seat_of(seats, xs[i]);
        if seat.place <= last || !is_in(seat, turn, turn.saturating_add(1)) {
            return false;
        }
        last = seat.place;
    }
    true
}

// The same of one of these lists.
fn is_seated_at(seats: &[Seat], lists: &[Vec<usize>], e: usize, turn: usize) -> bool
    ensures { IsTrue result → IsSeated seats.now (nth (map (λ v. v.items) lists.now) e) turn }
{
    match lists.get(e) {
        Some(v) => is_seated(seats, v.as_slice(), turn),
        None => true,
    }
}

/// The first turn of which the replica's list is not seated.
pub fn first_unseated(seats: &[Seat], own: &[usize], lists: &[Vec<usize>]) -> Option<usize>
    ensures { result ≡ None → (k : ℕ) → k < length own.now → IsSeated seats.now (nth (map (λ v. v.items) lists.now) (slice_index_or own.now k 0)) k }
{
    for turn in 0..own.len() {
        if !is_seated_at(seats, lists, own[turn], turn) {
            return Some(turn);
        }
    }
    None
}

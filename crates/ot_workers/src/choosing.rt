//! The pure part of a turn: which client it goes on with.

ghost use Rattle.std.specs.Prelude.{◌≡◌, slice_index_or};
ghost use Rattle.ot_workers.specs.Choosing.{choice, nobody, way};

/// What is seen of a client under the lock.
#[derive(Clone, Copy, Debug, PartialEq, Eq)]
pub struct Seat {
    pub joined: bool,
    /// It was lent and is not settled, parked or not.
    pub out: bool,
    pub parked: bool,
    /// A message waits on its downlink.
    pub message: bool,
    /// Its user has an action that is not typed.
    pub untyped: bool,
}

impl Seat {
    /// What is seen where there is no client.
    pub const NOBODY: Seat = Seat {
        joined: false,
        out: false,
        parked: false,
        message: false,
        untyped: false,
    };
}

/// How a client is obtained.
#[derive(Clone, Copy, Debug, PartialEq, Eq)]
pub enum Way {
    PickUp,
    Lend,
    /// It is joined and then lent.
    Join,
}

// How this client is obtained, if it can be.
fn way_of(seat: Seat) -> Option<Way>
    ensures { result ≡ way seat }
{
    if seat.parked {
        return Some(Way::PickUp);
    }
    if seat.out {
        return None;
    }
    if seat.joined {
        return if seat.message || seat.untyped {
            Some(Way::Lend)
        } else {
            None
        };
    }
    if seat.untyped { Some(Way::Join) } else { None }
}

// How the client at a place is obtained, if there is one and it can be.
fn way_at(seats: &[Seat], place: usize) -> Option<Way>
    ensures { result ≡ way (slice_index_or seats.now place nobody) }
{
    match seats.get(place) {
        Some(seat) => way_of(*seat),
        None => None,
    }
}

/// The first client that can be obtained, from client `worker + turn` on and round once, and how.
pub fn choose(seats: &[Seat], worker: usize, turn: u64) -> Option<(usize, Way)>
    ensures { result ≡ choice seats.now worker turn }
{
    let from = worker as u128 + turn as u128;
    for i in 0..seats.len() {
        let place = ((from + i as u128) % (seats.len() as u128)) as usize;
        if let Some(way) = way_at(seats, place) {
            return Some((place, way));
        }
    }
    None
}

//! One lock round a board.

ghost use Rattle.std.specs.Prelude.{◌≡◌, false, length, IfErr, IfOk};
ghost use Rattle.ot_plan.specs.Typing.{typing_view};
ghost use Rattle.ot_workers.specs.Sharing.{MayShare};

use crate::choosing::Seat;
use ot_board::Board;
use ot_plan::Typing;
use std::alloc::{AllocError, Global};
use std::sync::{Condvar, Mutex, Wait};

/// What lies under the lock: a board, with a count and a place for each of its clients.
#[derive(Drop)]
pub struct Inside {
    pub board: Board,
    /// By client, how many of its actions stand in settled or parked sessions.
    pub typed: Vec<usize>,
    /// By client, what a turn has seen of it.
    pub seats: Vec<Seat>,
    /// A worker has ended with a fault.
    pub stopped: bool,
    pub ghost counts: { length typed.items ≡ board.recorded.clients },
    pub ghost places: { length seats.items ≡ board.recorded.clients },
}

/// A board that workers share, and what the clients' users type.
#[derive(Drop)]
pub struct Shared {
    inside: Mutex<Inside>,
    turned: Condvar,
    typing: Vec<Vec<Typing>>,
}

impl Inside {
    /// The board with nothing typed, nobody seen and no fault. If memory runs out the board comes back.
    pub fn new(alloc: Global, board: Board) -> Result<Inside, (AllocError, Board)>
        ensures board { IfOk result (λ inside. inside.board ≡ board) }
        ensures going { IfOk result (λ inside. inside.stopped ≡ false) }
        ensures back { IfErr result (λ back. back.1 ≡ board) }
    {
        // For the proof: the invariant of every board.
        let _kept = board.steps();
        let clients = usize::from(board.machine().clients());
        match counts(alloc, clients) {
            Ok((typed, seats)) => Ok(Inside {
                board,
                typed,
                seats,
                stopped: false,
            }),
            Err(error) => Err((error, board)),
        }
    }
}

// The counts and the places of so many clients.
fn counts(alloc: Global, clients: usize) -> Result<(Vec<usize>, Vec<Seat>), AllocError>
    ensures typed { IfOk result (λ given. length given.0.items ≡ clients) }
    ensures seats { IfOk result (λ given. length given.1.items ≡ clients) }
{
    let typed = vec![in alloc; 0; clients]?;
    let seats = vec![in alloc; Seat::NOBODY; clients]?;
    Ok((typed, seats))
}

impl Shared {
    /// The board under a lock, with nothing typed yet. No client is out, and there is one list of actions for each client, of at most 1,000,
    /// which with what the client has inserted already insert at most 15,000 characters. If memory runs out both come back as they were.
    pub fn new(
        alloc: Global,
        board: Board,
        typing: Vec<Vec<Typing>>,
    ) -> Result<Shared, (AllocError, Board, Vec<Vec<Typing>>)>
        requires { MayShare board (typing_view typing.items) }
        ensures { IfErr result (λ back. (back.1 ≡ board) × (back.2 ≡ typing)) }
    {
        match Inside::new(alloc, board) {
            Ok(inside) => Ok(Shared {
                inside: Mutex::new(inside),
                turned: Condvar::new(),
                typing,
            }),
            Err((error, board)) => Err((error, board, typing)),
        }
    }

    /// The board as the workers left it. It takes no memory.
    pub fn into_board(self) -> Board {
        let Shared {
            inside,
            turned: _,
            typing: _,
        } = self;
        let Inside {
            board,
            typed: _,
            seats: _,
            stopped: _,
        } = inside.into_inner();
        board
    }

    pub(crate) fn inside(&self) -> &Mutex<Inside> {
        &self.inside
    }

    pub(crate) fn turned(&self) -> &Condvar {
        &self.turned
    }

    pub(crate) fn typing(&self) -> &[Vec<Typing>] {
        self.typing.as_slice()
    }

    /// Sets the stop mark: each worker ends with `Stopped` at its next turn.
    pub(crate) fn stop<R: Wait>(&self, rt: &R) {
        let mut inside = self.inside.lock(rt);
        inside.stopped = true;
        self.turned.notify_all();
        drop(inside);
    }
}

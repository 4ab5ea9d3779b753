//! A turn as a call on the session.

ghost use Rattle.std.specs.Prelude.{IfNone, IfSome};
ghost use Rattle.ot_workers.specs.Playing.{turn_steps, HasMade, IsCutShort, IsPlayFault, MayPlay};

use crate::fault::WorkFault;
use crate::gate::Gate;
use crate::playing::{Task, make_steps};
use ot_board::Lent;
use std::alloc::Global;

/// What a turn can be played with: a client that was lent, in whichever state it is.
pub trait Play: Sized {
    ghost use Rattle.ot_model.specs.Session.{Session};

    // the session, as contracts see it
    ghost session: { Self → Session };

    /// The same as the function [`play`](crate::play): notifies the gate that the worker holds the session, and then makes the steps of the turn.
    /// For `Enter` the session has no steps yet. The first step that is not made ends it, as `Memory` or `Refused`; the session comes back as
    /// far as it came.
    fn play<G: Gate>(
        self,
        alloc: Global,
        task: Task<'_>,
        gate: &G,
        worker: usize,
        turn: u64,
    ) -> (Self, Option<WorkFault>)
        requires { MayPlay (session self) task }
        ensures done { IfNone result.1 (HasMade (session self) (turn_steps (session self) task.entry) (session result.0)) }
        ensures short { IfSome result.1 (λ _. IsCutShort (session self) (turn_steps (session self) task.entry) (session result.0)) }
        ensures fault { IfSome result.1 (λ fault. IsPlayFault (session self) task.entry (session result.0) fault) };
}

impl Play for Lent {
    ghost use Rattle.ot_board.specs.Lents.{session_of};

    ghost session = { session_of };

    fn play<G: Gate>(
        self,
        alloc: Global,
        task: Task<'_>,
        gate: &G,
        worker: usize,
        turn: u64,
    ) -> (Lent, Option<WorkFault>) {
        gate.holding(worker, turn);
        make_steps(alloc, self, task)
    }
}

//! A plan carried out by workers.

ghost use Rattle.std.specs.Prelude.{◌≡◌, IfOk, map};
ghost use Rattle.ot_plan.specs.Typing.{action_view, row_view, typing_view};
ghost use Rattle.ot_threads.specs.Concluded.{AreLeft};

use ot_board::Board;
use ot_plan::{Plan, Typing};
use ot_workers::{OpenGate, Shared, WorkerEnd, run_workers};
use std::alloc::{AllocError, Global};
use std::sync::Wait;
use std::thread::Threads;

// A copy of one user's actions.
fn copy_row(alloc: Global, actions: &[Typing]) -> Result<Vec<Typing>, AllocError>
    ensures { IfOk result (λ row. row_view row ≡ map action_view actions.now) }
{
    let mut row = Vec::with_capacity(alloc, actions.len())?;
    for action in actions {
        row.push(action.copy(alloc)?)?;
    }
    Ok(row)
}

// A copy of what each client's user types.
fn copy_typing(alloc: Global, typing: &[Vec<Typing>]) -> Result<Vec<Vec<Typing>>, AllocError>
    ensures { IfOk result (λ rows. typing_view rows.items ≡ typing_view typing.now) }
{
    let mut rows = Vec::with_capacity(alloc, typing.len())?;
    for actions in typing {
        rows.push(copy_row(alloc, actions.as_slice())?)?;
    }
    Ok(rows)
}

// The board and what its users type, under a lock.
fn shared_of(alloc: Global, plan: &Plan) -> Result<Shared, AllocError> {
    let typing = copy_typing(alloc, plan.typing())?;
    let board = Board::with_present(alloc, plan.clients(), plan.present(), plan.start())?;
    match Shared::new(alloc, board, typing) {
        Ok(shared) => Ok(shared),
        Err((error, _, _)) => Err(error),
    }
}

/// The board as the plan's workers left it, and their ends. `Err` where memory for the workers ran out.
pub fn carry_out<R: Threads + Wait + Sync>(
    rt: &R,
    alloc: Global,
    plan: &Plan,
) -> Result<(Board, Vec<WorkerEnd>), AllocError>
    ensures { IfOk result (λ left. AreLeft plan.now.workers left.0 left.1.items) }
{
    let shared = shared_of(alloc, plan)?;
    // For the proof: the invariant of every plan.
    let _limits = plan.clients();
    let ends = run_workers(rt, alloc, &shared, plan.workers(), &OpenGate)?;
    let board = shared.into_board();
    // For the proof: the invariant of every board.
    let _kept = board.steps();
    Ok((board, ends))
}

//! What is made of what workers left.

ghost use Rattle.std.specs.Prelude.{◌≡◌, IfErr, IfNone, IfOk, IfSome, map, vec_items};
ghost use Rattle.std.specs.List.{All};
ghost use Rattle.ot_model.specs.Runs.{opening_of};
ghost use Rattle.ot_model.specs.Session.{RunsTo};
ghost use Rattle.ot_board.specs.Tiling.{lists};
ghost use Rattle.ot_threads.specs.Concluded.{receipts_of, IsChecked, IsCheckFault, IsConcluded, IsFaultless, IsFirstFault, IsThreadsFault};

use crate::fault::ThreadsFault;
use crate::printing::print_record;
use ot_board::{Board, Finished, Receipt, StillOut, audit};
use ot_plan::Plan;
use ot_workers::{WorkFault, WorkerEnd};
use std::alloc::{AllocError, Global};

// The fault of the first worker that has one.
fn first_fault(ends: &[WorkerEnd]) -> Option<WorkFault>
    ensures some { IfSome result (λ fault. IsFirstFault ends.now fault) }
    ensures none { IfNone result (All IsFaultless ends.now) }
{
    for end in ends {
        match end.fault {
            Some(fault) => return Some(fault),
            None => {}
        }
    }
    None
}

// The workers' receipts, by worker.
fn receipts_of(alloc: Global, ends: Vec<WorkerEnd>) -> Result<Vec<Vec<Receipt>>, AllocError>
    ensures { IfOk result (λ lists. map vec_items lists.items ≡ receipts_of ends.items) }
{
    let mut receipts = Vec::with_capacity(alloc, ends.len())?;
    for end in ends {
        receipts.push(end.receipts)?;
    }
    Ok(receipts)
}

// What is printed of a finished board whose record is the workers' receipts and follows the plan, or the first fault.
fn check(
    alloc: Global,
    plan: &Plan,
    finished: Finished,
    ends: Vec<WorkerEnd>,
) -> Result<Vec<u8>, ThreadsFault>
    requires { RunsTo (opening_of finished.schedule) finished.schedule.instrs finished.machine }
    ensures ok { IfOk result (λ text. IsChecked plan.now finished.schedule (receipts_of ends.items) text.items) }
    ensures err { IfErr result (λ fault. IsCheckFault plan.now finished.schedule (receipts_of ends.items) fault) }
{
    let receipts = receipts_of(alloc, ends)?;
    if let Err(fault) = audit(alloc, &finished, receipts.as_slice()) {
        return Err(ThreadsFault::Audit(fault));
    }
    let Finished { schedule, machine } = finished;
    match print_record(alloc, plan, &schedule, machine)? {
        Some(text) => Ok(text),
        None => Err(ThreadsFault::NotPlan),
    }
}

/// What is printed of a board and of the ends of the workers that shared it: the recorded schedule as text, and its end as comment lines,
/// where no worker has a fault, no client is out, the workers' receipts tile the record, and the recorded schedule follows the plan. Else
/// the first of these faults, in this order; `Memory` where a growth was refused, which may be before the last two.
pub fn conclude(
    alloc: Global,
    plan: &Plan,
    board: Board,
    ends: Vec<WorkerEnd>,
) -> Result<Vec<u8>, ThreadsFault>
    ensures ok { IfOk result (λ text. IsConcluded plan.now board ends.items text.items) }
    ensures err { IfErr result (λ fault. IsThreadsFault plan.now board ends.items fault) }
{
    if let Some(fault) = first_fault(ends.as_slice()) {
        return Err(ThreadsFault::Work(fault));
    }
    match board.finish() {
        Ok(finished) => check(alloc, plan, finished, ends),
        Err((StillOut(client), _)) => Err(ThreadsFault::StillOut(client)),
    }
}

//! The record of a run on threads as it is printed.

ghost use Rattle.std.specs.Prelude.{◌≡◌, IfOk, IfSome, None, Ok};
ghost use Rattle.ot_model.specs.Runs.{opening_of};
ghost use Rattle.ot_model.specs.Session.{RunsTo};
ghost use Rattle.ot_threads.specs.Follows.{Follows};
ghost use Rattle.ot_threads.specs.Record.{IsRecord, IsPrinted};

use crate::comment::push_comment;
use crate::following::follows;
use ot_asm::disassemble;
use ot_isa::Schedule;
use ot_machine::Machine;
use ot_plan::Plan;
use ot_report::print_end;
use std::alloc::{AllocError, Global};

// The schedule's canonical text, and the state of a machine that is no longer needed as comments.
fn printed(alloc: Global, schedule: &Schedule, machine: Machine) -> Result<Vec<u8>, AllocError>
    ensures { IfOk result (λ v. IsPrinted schedule.now machine v.items) }
{
    let text = disassemble(alloc, schedule)?;
    let end = print_end(alloc, &machine)?;
    let mut bytes = Vec::from_slice(alloc, text.as_bytes())?;
    push_comment(&mut bytes, end.as_bytes())?;
    Ok(bytes)
}

/// What is printed of a recorded schedule that follows the plan, where the machine is the one that the schedule leads to: its canonical
/// text, and the machine's state as comment lines. `None` where it does not follow the plan. `Err` where a growth was refused.
///
/// The machine is gone before the schedule is run again beside the plan: with 64 documents of a million characters each of the two takes a gigabyte.
pub fn print_record(
    alloc: Global,
    plan: &Plan,
    schedule: &Schedule,
    machine: Machine,
) -> Result<Option<Vec<u8>>, AllocError>
    requires { RunsTo (opening_of schedule.now) schedule.now.instrs machine }
    ensures some { IfOk result (λ r. IfSome r (λ v. IsRecord plan.now schedule.now v.items)) }
    ensures none { result ≡ Ok None → Follows plan.now schedule.now → ⊥ }
{
    let bytes = printed(alloc, schedule, machine)?;
    if !follows(alloc, plan, schedule)? {
        return Ok(None);
    }
    Ok(Some(bytes))
}

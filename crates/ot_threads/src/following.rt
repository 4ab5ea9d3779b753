//! Whether a schedule follows a plan.

ghost use Rattle.std.specs.Prelude.{◌↔◌, IfOk, IsTrue};
ghost use Rattle.ot_threads.specs.Follows.{Follows};

use crate::stepping::{is_next, is_over, perform, zeros};
use ot_isa::Schedule;
use ot_machine::Machine;
use ot_plan::Plan;
use std::alloc::{AllocError, Global};

/// Whether the schedule follows the plan: its clients, present ones and start text are the plan's, no instruction is refused, each
/// client's edits are its actions in order and no others, each the edit that the action is on the client's list at that moment,
/// and in the end the session is quiet. `Err` where a growth was refused.
pub fn follows(alloc: Global, plan: &Plan, schedule: &Schedule) -> Result<bool, AllocError>
    ensures { IfOk result (λ b. IsTrue b ↔ Follows plan.now schedule.now) }
{
    let clients = schedule.clients();
    let present = schedule.present();
    if clients != plan.clients() || present != plan.present() || schedule.start() != plan.start() {
        return Ok(false);
    }
    let mut machine = Machine::with_present(alloc, clients, present, schedule.start())?;
    let mut counts = zeros(alloc, clients as usize)?;
    for place in 0..schedule.len() {
        let Some(instr) = schedule.get(place) else {
            unreachable!()
        };
        if !is_next(alloc, plan, &mut counts, &machine, instr)? {
            return Ok(false);
        }
        if !perform(&mut machine, instr)? {
            return Ok(false);
        }
    }
    Ok(is_over(plan, &machine, counts.as_slice()))
}

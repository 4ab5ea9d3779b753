//! Runs of schedules.

ghost use Rattle.std.specs.Prelude.{◌≡◌, ◌≤◌, ◌∷◌, [], length, vec_capacity, vec_len, ◌<◌, IfErr, IfOk, IsSome, OnErr, OnOk, Some};
ghost use Rattle.ot_model.specs.Runs.{IsStateAt};
ghost use Rattle.ot_model.specs.Table as table;
ghost use Rattle.ot_model.specs.Table.{step};
ghost use Rattle.ot_machine.specs.Answers.{IsRefusal};
ghost use Rattle.ot_machine.specs.Ended.{IsEnding, IsRun};

use crate::machine::Machine;
use crate::outcome::{Ending, Run};
use ot_isa::{Instr, Schedule};
use ot_model::{Refusal, Shown};
use std::alloc::{AllocError, Global};

// Makes room for one more list, if there is one.
fn reserve_for(shown: &mut Vec<Shown>, list: &Option<Shown>) -> Result<(), AllocError>
    ensures same { shown.new.items ≡ shown.old.items }
    ensures room { OnOk result (IsSome list.now → vec_len shown.new < vec_capacity shown.new) }
    ensures some { OnErr result (IsSome list.now) }
{
    if list.is_some() {
        shown.reserve(1)?;
    }
    Ok(())
}

impl Machine {
    // Performs the instruction, if the table does and what it shows can be recorded.
    fn keep(&mut self, instr: &Instr, shown: &mut Vec<Shown>) -> Result<(), Refusal>
        ensures done { OnOk result (table.run (instr.now ∷ []) (record { state = self.old; shown = shown.old.items }) ≡ Some (record { state = self.new; shown = shown.new.items })) }
        ensures refused { IfErr result (λ r. IsRefusal (step self.old instr.now) r) }
        ensures unchanged { OnErr result (self.new ≡ self.old) }
        ensures kept { OnErr result (shown.new.items ≡ shown.old.items) }
    {
        let list = self.shown(instr)?;
        reserve_for(shown, &list)?;
        self.perform::<false>(instr)?;
        if let Some(list) = list {
            shown.push_reserved(list);
        }
        Ok(())
    }
}

/// Runs the schedule from its opening up to the first instruction that is not performed: one that is refused, one that finds no
/// memory, or a read whose list cannot be recorded. If memory runs out at the opening there is no run.
pub fn run(alloc: Global, schedule: &Schedule) -> Result<Run, AllocError>
    ensures { IfOk result (λ run. IsRun schedule.now run) }
{
    let clients = schedule.clients();
    let mut machine = Machine::with_present(alloc, clients, schedule.present(), schedule.start())?;
    let mut shown = Vec::new(alloc);
    for place in 0..schedule.len() {
        let Some(instr) = schedule.get(place) else {
            unreachable!()
        };
        if let Err(refusal) = machine.keep(instr, &mut shown) {
            return Ok(Run {
                machine,
                shown,
                stopped: Some((place, refusal)),
            });
        }
    }
    Ok(Run {
        machine,
        shown,
        stopped: None,
    })
}

/// Runs the schedule on from the place to which the machine has come, as [`run`] does, and records none of the lists that its reads show: it takes the memory of the
/// machine alone, and a read none. The machine is as the schedule's first `from` instructions leave it, which are no more than the schedule has.
pub fn run_on(schedule: &Schedule, from: usize, machine: Machine) -> Ending
    requires inside { from ≤ length schedule.now.instrs }
    requires at { IsStateAt schedule.now from machine }
    ensures { IsEnding schedule.now result }
{
    let mut machine = machine;
    for place in from..schedule.len() {
        let Some(instr) = schedule.get(place) else {
            unreachable!()
        };
        match machine.perform::<false>(instr) {
            Ok(_effect) => {}
            Err(refusal) => {
                return Ending {
                    machine,
                    stopped: Some((place, refusal)),
                };
            }
        }
    }
    Ending {
        machine,
        stopped: None,
    }
}

//! Instructions performed with and without undo records, and once more where somebody goes back beyond these.

ghost use Rattle.std.specs.Prelude.{◌≡◌, ◌≢◌, ◌≤◌, ◌==◌, [], true, IfErr, IfOk, OnErr, OnOk};
ghost use Rattle.ot_model.specs.declared.shown.Refusal.TheVariants.{Memory};
ghost use Rattle.ot_model.specs.Runs.{done, IsStateAt};
ghost use Rattle.ot_model.specs.Table.{step, Refused, State};
ghost use Rattle.ot_debug.specs.Stepping.{undos_in, AreRecords, Gives, GoOn, IsAsBefore, Leads, OneMore};

use crate::debugger::opening;
use crate::recent::Recent;
use ot_isa::{Instr, Schedule};
use ot_machine::{Machine, Refusal, Shown};
use std::alloc::AllocError;

// A copy of the list that the instruction shows, where it is performed and `LISTS` is 1. Else none is made.
fn shown<const LISTS: u8>(machine: &Machine, instr: &Instr) -> Result<Option<Shown>, Refusal>
    ensures given { IfOk result (λ list. (t : State) → Leads machine.now instr.now t → Gives (LISTS == 1) machine.now instr.now t list) }
    ensures refused { IfErr result (λ r. r ≢ Memory → step machine.now instr.now ≡ Refused r) }
{
    if LISTS == 1 {
        return machine.shown(instr);
    }
    Ok(None)
}

// Performs the instruction, and adds its record; the oldest may go.
fn perform_recorded<const LISTS: u8>(
    machine: &mut Machine,
    undos: &mut Recent,
    instr: &Instr,
) -> Result<Option<Shown>, Refusal>
    ensures done { IfOk result (λ list. Gives (LISTS == 1) machine.old instr.now machine.new list) }
    ensures record { OnOk result (OneMore machine.old machine.new (undos_in undos.old) (undos_in undos.new)) }
    ensures limit { undos.new.limit ≡ undos.old.limit }
    ensures kept { undos.new.kept ≡ undos.old.kept }
    ensures refused { IfErr result (λ r. r ≢ Memory → step machine.old instr.now ≡ Refused r) }
    ensures unchanged { OnErr result (machine.new ≡ machine.old) }
    ensures records_stay { OnErr result (undos_in undos.new ≡ undos_in undos.old) }
{
    undos.reserve_one()?;
    let list = shown::<LISTS>(machine, instr)?;
    let Some(undo) = machine.perform::<true>(instr)?.into_undo() else {
        unreachable!()
    };
    undos.push(undo);
    Ok(list)
}

/// Performs the instruction, and gives the list that it shows where `LISTS` is 1. Where it `leaves` a record this is added; else those that there were go. Every
/// refusal leaves all as it was.
pub(crate) fn perform<const LISTS: u8>(
    machine: &mut Machine,
    undos: &mut Recent,
    instr: &Instr,
    leaves: bool,
) -> Result<Option<Shown>, Refusal>
    ensures done { IfOk result (λ list. Gives (LISTS == 1) machine.old instr.now machine.new list) }
    ensures records { OnOk result (GoOn leaves machine.old machine.new undos.old undos.new) }
    ensures limit { undos.new.limit ≡ undos.old.limit }
    ensures refused { IfErr result (λ r. r ≢ Memory → step machine.old instr.now ≡ Refused r) }
    ensures unchanged { OnErr result (machine.new ≡ machine.old) }
    ensures records_stay { OnErr result (IsAsBefore undos.old undos.new) }
{
    if leaves {
        return perform_recorded::<LISTS>(machine, undos, instr);
    }
    let list = shown::<LISTS>(machine, instr)?;
    machine.perform::<false>(instr)?;
    undos.forget();
    Ok(list)
}

/// Performs so many of the schedule's instructions once more, from the opening on. Gives another machine, which stands after them, and `undos` with the records
/// of the last ones: of one instruction at least, if there is one. `undos` has none before.
pub(crate) fn perform_again(
    schedule: &Schedule,
    count: usize,
    mut undos: Recent,
) -> Result<(Machine, Recent), AllocError>
    requires count { count ≤ done schedule.now }
    requires none { undos_in undos ≡ [] }
    requires kept { undos.kept ≡ true }
    ensures state { IfOk result (λ given. IsStateAt schedule.now count given.0) }
    ensures records { IfOk result (λ given. AreRecords schedule.now count given.1) }
    ensures limit { IfOk result (λ given. given.1.limit ≡ undos.limit) }
{
    let mut machine = opening(undos.allocator(), schedule)?;
    for place in 0..count {
        let Some(instr) = schedule.get(place) else {
            unreachable!()
        };
        if let Err(refusal) = perform_recorded::<0>(&mut machine, &mut undos, instr) {
            match refusal {
                Refusal::Memory => return Err(AllocError),
                _ => unreachable!(),
            }
        }
    }
    Ok((machine, undos))
}

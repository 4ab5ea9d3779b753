//! A schedule, and behind it what brings its run to quiet.

ghost use Rattle.std.specs.Prelude.{◌≡◌, true, length, IfErr, IfOk, OnOk};
ghost use Rattle.ot_generate.specs.Completed.{IsCompletion, IsIncomplete};
ghost use Rattle.ot_generate.specs.Completing.{IsDrained, IsFollowed, IsStuck};

use crate::walk::Walk;
use ot_isa::{INSTR_LIMIT, Schedule};
use ot_model::Refusal;
use std::alloc::{AllocError, Global};

/// Why a schedule is not completed.
#[derive(Drop)]
pub enum Incomplete {
    /// The instruction at this place, counted from 0, is refused.
    Refused(usize, Refusal),
    /// With the instructions that bring it to quiet there would be more than 100,000.
    TooMany,
    /// Out of memory.
    Memory,
}

impl From<AllocError> for Incomplete {
    ghost use Rattle.ot_generate.specs.declared.completing.Incomplete.TheVariants.{Memory};

    ghost from_gives = { λ _ e. e ≡ Memory };

    fn from(_error: AllocError) -> Incomplete {
        Incomplete::Memory
    }
}

// Performs all instructions of the schedule, and records them.
fn follow(alloc: Global, schedule: &Schedule) -> Result<Walk, Incomplete>
    ensures ok { IfOk result (IsFollowed schedule.now (length schedule.now.instrs)) }
    ensures err { IfErr result (IsIncomplete schedule.now) }
{
    let mut walk = Walk::new(
        alloc,
        schedule.clients(),
        schedule.present(),
        schedule.start(),
        INSTR_LIMIT,
        true,
    )?;
    for place in 0..schedule.len() {
        let Some(instr) = schedule.get(place) else {
            unreachable!()
        };
        walk.keeps();
        match walk.follow(instr) {
            Ok(()) => {}
            Err(Refusal::Memory) => return Err(Incomplete::Memory),
            Err(refusal) => return Err(Incomplete::Refused(place, refusal)),
        }
    }
    Ok(walk)
}

// Makes what comes next as long as something does.
fn drain(walk: &mut Walk) -> Result<(), Incomplete>
    requires is_open { walk.old.is_open ≡ true }
    ensures ok { OnOk result (IsDrained walk.old walk.new) }
    ensures err { IfErr result (IsStuck walk.old) }
{
    while let Some(instr) = walk.next() {
        walk.keeps();
        if walk.is_full() {
            return Err(Incomplete::TooMany);
        }
        walk.make_next(instr)?;
    }
    Ok(())
}

/// The schedule, and behind it the instructions that bring its run to quiet. Each is what comes next: the take of the first client, by number,
/// whose message is on its way to the server; where there is none, the receipt of the first client to whom something is on its way.
///
/// `Refused` where an instruction of the schedule is refused; `TooMany` where the whole would pass 100,000 instructions; `Memory` where
/// a growth was refused.
pub fn complete(alloc: Global, schedule: &Schedule) -> Result<Schedule, Incomplete>
    ensures ok { IfOk result (IsCompletion schedule.now) }
    ensures err { IfErr result (IsIncomplete schedule.now) }
{
    let mut walk = match follow(alloc, schedule) {
        Ok(walk) => walk,
        Err(fault) => return Err(fault),
    };
    walk.keeps();
    match drain(&mut walk) {
        Ok(()) => Ok(walk.finish()),
        Err(fault) => Err(fault),
    }
}

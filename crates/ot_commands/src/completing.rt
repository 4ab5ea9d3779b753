//! `complete`: a schedule, and behind it what brings its run to quiet.

ghost use Rattle.std.specs.Prelude.{IfSome};
ghost use Rattle.ot_commands.specs.Inputs.{OfText};
ghost use Rattle.ot_commands.specs.Completes.{incomplete_line, MayComplete};
ghost use Rattle.streams.specs.Outcomes.{Complains};

use crate::converting::give_text;
use crate::faults::complain_of_line;
use ot_asm::assemble_from;
use ot_generate::{Incomplete, complete};
use ot_isa::Schedule;
use ot_report::print_stop;
use std::alloc::Global;
use streams::{Sink, Source, complain, complain_of_memory};

// Writes why a schedule is not completed.
fn complain_of_incomplete<F: Sink>(alloc: Global, fault: Incomplete, faults: &mut F)
    ensures { Complains (incomplete_line fault) (F.contents faults.old) (F.contents faults.new) (F.failed faults.new) }
{
    match fault {
        Incomplete::Refused(place, refusal) => match print_stop(alloc, place, refusal) {
            Ok(line) => complain(faults, line.as_str()),
            Err(_) => complain_of_memory(faults),
        },
        Incomplete::TooMany => complain(faults, "otbench: TooMany\n"),
        Incomplete::Memory => complain_of_memory(faults),
    }
}

// Writes the canonical text of the schedule's completion.
fn give_completion<O: Sink, F: Sink>(
    alloc: Global,
    schedule: &Schedule,
    output: &mut O,
    faults: &mut F,
) -> u8
    ensures { MayComplete schedule.now result (record { output = O.contents output.old; output' = O.contents output.new; broken = O.failed output.new; faults = F.contents faults.old; faults' = F.contents faults.new; faults_broken = F.failed faults.new }) }
{
    match complete(alloc, schedule) {
        Ok(completion) => {
            // For the proof: the invariant of every schedule.
            let _limits = completion.clients();
            give_text(alloc, &completion, output, faults)
        }
        Err(fault) => {
            complain_of_incomplete(alloc, fault, faults);
            1
        }
    }
}

/// Writes the canonical text of the schedule whose text is the input, with the instructions behind it that bring its run to quiet. Where an
/// instruction is refused, `stopped at I: Refusal` on the faults; where the whole would pass 100,000 instructions, `otbench: TooMany`.
pub fn complete_text<I: Source, O: Sink, F: Sink>(
    alloc: Global,
    input: &mut I,
    output: &mut O,
    faults: &mut F,
) -> u8
    ensures { IfSome (I.remaining input.old) (λ text. OfText MayComplete (I.failed input.new) text result (record { output = O.contents output.old; output' = O.contents output.new; broken = O.failed output.new; faults = F.contents faults.old; faults' = F.contents faults.new; faults_broken = F.failed faults.new })) }
{
    match assemble_from(alloc, input) {
        Ok(schedule) => give_completion(alloc, &schedule, output, faults),
        Err(fault) => {
            complain_of_line(alloc, fault, faults);
            1
        }
    }
}

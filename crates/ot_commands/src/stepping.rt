//! `steps`: the run of a schedule's text as lines of JSON.
//!
//! ```text
//!    text ── ot_asm ──▶ Schedule ── ot_steps ──▶ lines on the output, written while the run goes
//!      └── refused: the fault's line on the faults, nothing on the output
//! ```

ghost use Rattle.std.specs.Prelude.{IfSome};
ghost use Rattle.ot_commands.specs.Stepped.{MayStep, Steps};

use crate::faults::complain_of_line;
use ot_asm::assemble_from;
use ot_isa::Schedule;
use ot_steps::print_steps;
use std::alloc::Global;
use streams::{OutputFault, Sink, Source, complain_of_memory};

// Writes the lines of the schedule's run.
fn write_steps<O: Sink, F: Sink>(
    alloc: Global,
    documents: bool,
    schedule: &Schedule,
    output: &mut O,
    faults: &mut F,
) -> u8
    ensures { MayStep documents schedule.now result (record { output = O.contents output.old; output' = O.contents output.new; broken = O.failed output.new; faults = F.contents faults.old; faults' = F.contents faults.new; faults_broken = F.failed faults.new }) }
{
    match print_steps(alloc, schedule, documents, output) {
        Ok(true) => 1,
        Ok(false) => 0,
        Err(OutputFault::WriteFault) => 1,
        Err(OutputFault::Memory) => {
            complain_of_memory(faults);
            1
        }
    }
}

/// Writes the run of the schedule whose text is the input as lines of JSON, with `documents` the document of each client that moved, and
/// answers the status: 0 where all instructions were performed; 1 where one was not, for a refused text (its fault's line on the faults,
/// nothing on the output), and for a fault of reading, writing or memory.
pub fn run_steps<I: Source, O: Sink, F: Sink>(
    alloc: Global,
    documents: bool,
    input: &mut I,
    output: &mut O,
    faults: &mut F,
) -> u8
    ensures { IfSome (I.remaining input.old) (λ text. Steps documents (I.failed input.new) text result (record { output = O.contents output.old; output' = O.contents output.new; broken = O.failed output.new; faults = F.contents faults.old; faults' = F.contents faults.new; faults_broken = F.failed faults.new })) }
{
    match assemble_from(alloc, input) {
        Ok(schedule) => write_steps(alloc, documents, &schedule, output, faults),
        Err(fault) => {
            complain_of_line(alloc, fault, faults);
            1
        }
    }
}

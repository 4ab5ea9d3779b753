//! `debug`: a schedule's lines, a line `%%`, and commands that lead through its run back and forth.

ghost use Rattle.std.specs.Prelude.{◌≡◌, IfSome};
ghost use Rattle.streams.specs.Lines.{lines_of};
ghost use Rattle.ot_commands.specs.Debugged.{loop_status, Debugs, MayConverse, TellsStop};

use crate::faults::complain_of_line;
use ot_asm::{AsmFault, Kind, assemble_until_mark};
use ot_console::{LoopStop, command_loop};
use ot_debug::Stepper;
use ot_isa::Schedule;
use std::alloc::Global;
use streams::{Sink, Source, complain_of_memory};

// Writes why the command loop broke off.
fn complain_of_stop<F: Sink>(alloc: Global, stop: LoopStop, faults: &mut F)
    ensures { TellsStop stop (F.contents faults.old) (F.contents faults.new) (F.failed faults.new) }
{
    match stop {
        LoopStop::ReadFault(line) => complain_of_line(
            alloc,
            AsmFault {
                line,
                kind: Kind::ReadFault,
            },
            faults,
        ),
        LoopStop::Memory(line) => complain_of_line(
            alloc,
            AsmFault {
                line,
                kind: Kind::Memory,
            },
            faults,
        ),
        LoopStop::WriteFault => {}
    }
}

// The status of a command loop.
fn loop_status(faulted: bool) -> u8
    ensures { result ≡ loop_status faulted }
{
    if faulted { 1 } else { 0 }
}

// Answers the commands that are left, from the schedule's opening on. So many lines stand before them.
fn answer_commands<I: Source, O: Sink, F: Sink>(
    alloc: Global,
    schedule: Schedule,
    earlier: u64,
    input: &mut I,
    output: &mut O,
    faults: &mut F,
) -> u8
    ensures { IfSome (I.remaining input.old) (λ rest. MayConverse (I.failed input.new) schedule (lines_of rest) earlier result (record { output = O.contents output.old; output' = O.contents output.new; broken = O.failed output.new; faults = F.contents faults.old; faults' = F.contents faults.new; faults_broken = F.failed faults.new })) }
{
    let Ok(mut debugger) = Stepper::new(alloc, schedule) else {
        complain_of_memory(faults);
        return 1;
    };
    match command_loop(alloc, &mut debugger, input, output, earlier) {
        Ok(faulted) => loop_status(faulted),
        Err(stop) => {
            complain_of_stop(alloc, stop, faults);
            1
        }
    }
}

/// Reads a schedule's lines as far as the first line `%%`, and answers each command behind it as it is read.
pub fn debug_text<I: Source, O: Sink, F: Sink>(
    alloc: Global,
    input: &mut I,
    output: &mut O,
    faults: &mut F,
) -> u8
    ensures { IfSome (I.remaining input.old) (λ text. Debugs (I.failed input.new) text result (record { output = O.contents output.old; output' = O.contents output.new; broken = O.failed output.new; faults = F.contents faults.old; faults' = F.contents faults.new; faults_broken = F.failed faults.new })) }
{
    match assemble_until_mark(alloc, input) {
        Ok((schedule, taken)) => { answer_commands(alloc, schedule, taken, input, output, faults) }
        Err(fault) => {
            complain_of_line(alloc, fault, faults);
            1
        }
    }
}

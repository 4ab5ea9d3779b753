//! `run`: a schedule's reads, its stop and its end.

ghost use Rattle.std.specs.Prelude.{◌≡◌, IfSome, true};
ghost use Rattle.ot_commands.specs.Inputs.{OfImage, OfTextAs, OfWholeText};
ghost use Rattle.ot_commands.specs.Ran.{MayReport, stop_status};

use crate::faults::{answer_fault, complain_of_byte, complain_of_line};
use ot_asm::{assemble_bytes, assemble_from};
use ot_image::load;
use ot_isa::Schedule;
use ot_model::Refusal;
use ot_report::write_report;
use std::alloc::Global;
use streams::{OutputFault, Sink, Source, complain_of_input, complain_of_memory};

/// The status of a run that stopped in this way: 0 where all instructions were performed, else 1.
pub fn status_of(stopped: Option<(usize, Refusal)>) -> u8
    ensures { result ≡ stop_status stopped }
{
    match stopped {
        None => 0,
        Some(_) => 1,
    }
}

// Runs the schedule and writes its report, in words or as JSON.
fn report<O: Sink, F: Sink>(
    alloc: Global,
    schedule: &Schedule,
    json: bool,
    output: &mut O,
    faults: &mut F,
) -> u8
    ensures { MayReport json schedule.now result (record { output = O.contents output.old; output' = O.contents output.new; broken = O.failed output.new; faults = F.contents faults.old; faults' = F.contents faults.new; faults_broken = F.failed faults.new }) }
{
    match write_report(alloc, schedule, json, output) {
        Ok(stopped) => status_of(stopped),
        Err(OutputFault::WriteFault) => 1,
        Err(OutputFault::Memory) => {
            complain_of_memory(faults);
            1
        }
    }
}

// The same for a text that is read whole, as lines of JSON.
fn run_whole<I: Source, O: Sink, F: Sink>(
    alloc: Global,
    input: &mut I,
    output: &mut O,
    faults: &mut F,
) -> u8
    ensures { IfSome (I.remaining input.old) (λ text. OfWholeText (MayReport true) (I.failed input.new) text result (record { output = O.contents output.old; output' = O.contents output.new; broken = O.failed output.new; faults = F.contents faults.old; faults' = F.contents faults.new; faults_broken = F.failed faults.new })) }
{
    let text = match input.read_whole(alloc) {
        Ok(text) => text,
        Err(fault) => {
            complain_of_input(fault, faults);
            return 1;
        }
    };
    match assemble_bytes(alloc, text.as_slice()) {
        Ok(schedule) => report(alloc, &schedule, true, output, faults),
        Err(fault) => answer_fault(alloc, text.as_slice(), fault, output, faults),
    }
}

/// Runs the schedule whose text is the input, and prints its report, in words or as lines of `json`. With `json` the text is read whole, at most 2^30
/// bytes, and the fault of a refused one is a line of JSON too.
pub fn run_text<I: Source, O: Sink, F: Sink>(
    alloc: Global,
    json: bool,
    input: &mut I,
    output: &mut O,
    faults: &mut F,
) -> u8
    ensures { IfSome (I.remaining input.old) (λ text. OfTextAs json (MayReport json) (I.failed input.new) text result (record { output = O.contents output.old; output' = O.contents output.new; broken = O.failed output.new; faults = F.contents faults.old; faults' = F.contents faults.new; faults_broken = F.failed faults.new })) }
{
    if json {
        return run_whole(alloc, input, output, faults);
    }
    match assemble_from(alloc, input) {
        Ok(schedule) => report(alloc, &schedule, false, output, faults),
        Err(fault) => {
            complain_of_line(alloc, fault, faults);
            1
        }
    }
}

/// Runs the schedule whose image is the input, and prints its report, in words or as lines of `json`.
pub fn run_image<I: Source, O: Sink, F: Sink>(
    alloc: Global,
    json: bool,
    input: &mut I,
    output: &mut O,
    faults: &mut F,
) -> u8
    ensures { IfSome (I.remaining input.old) (λ bytes. OfImage (MayReport json) (I.failed input.new) bytes result (record { output = O.contents output.old; output' = O.contents output.new; broken = O.failed output.new; faults = F.contents faults.old; faults' = F.contents faults.new; faults_broken = F.failed faults.new })) }
{
    match input.read_whole(alloc) {
        Ok(bytes) => match load(alloc, bytes.as_slice()) {
            Ok(schedule) => report(alloc, &schedule, json, output, faults),
            Err(fault) => {
                complain_of_byte(alloc, fault, faults);
                1
            }
        },
        Err(fault) => {
            complain_of_input(fault, faults);
            1
        }
    }
}

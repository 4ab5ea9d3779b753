//! `check`: what is found of a schedule's run.

ghost use Rattle.std.specs.Prelude.{◌≡◌, IfSome, true};
ghost use Rattle.ot_commands.specs.Inputs.{OfTextAs, OfWholeText};
ghost use Rattle.ot_commands.specs.Checked.{check_status, MayFind};

use crate::faults::{answer_fault, complain_of_line};
use crate::running::status_of;
use ot_asm::{assemble_bytes, assemble_from};
use ot_isa::Schedule;
use ot_report::{Findings, find, found_text};
use std::alloc::Global;
use streams::{Sink, Source, complain_of_input, complain_of_memory, give};

// The status of what is found of a run.
fn check_status(found: &Findings) -> u8
    ensures { result ≡ check_status found.now.verdict found.now.stopped }
{
    match found.verdict {
        None => 1,
        Some(_) => status_of(found.stopped),
    }
}

// Runs the schedule and prints what is found, in words or as JSON.
fn report_findings<O: Sink, F: Sink>(
    alloc: Global,
    schedule: &Schedule,
    all: bool,
    json: bool,
    output: &mut O,
    faults: &mut F,
) -> u8
    ensures { MayFind all json schedule.now result (record { output = O.contents output.old; output' = O.contents output.new; broken = O.failed output.new; faults = F.contents faults.old; faults' = F.contents faults.new; faults_broken = F.failed faults.new }) }
{
    let Ok(found) = find(alloc, schedule, all) else {
        complain_of_memory(faults);
        return 1;
    };
    let Ok(text) = found_text(alloc, json, &found) else {
        complain_of_memory(faults);
        return 1;
    };
    give(text.as_bytes(), check_status(&found), output)
}

// The same for a text that is read whole, as a line of JSON.
fn check_whole<I: Source, O: Sink, F: Sink>(
    alloc: Global,
    all: bool,
    input: &mut I,
    output: &mut O,
    faults: &mut F,
) -> u8
    ensures { IfSome (I.remaining input.old) (λ text. OfWholeText (MayFind all true) (I.failed input.new) text result (record { output = O.contents output.old; output' = O.contents output.new; broken = O.failed output.new; faults = F.contents faults.old; faults' = F.contents faults.new; faults_broken = F.failed faults.new })) }
{
    let text = match input.read_whole(alloc) {
        Ok(text) => text,
        Err(fault) => {
            complain_of_input(fault, faults);
            return 1;
        }
    };
    match assemble_bytes(alloc, text.as_slice()) {
        Ok(schedule) => report_findings(alloc, &schedule, all, true, output, faults),
        Err(fault) => answer_fault(alloc, text.as_slice(), fault, output, faults),
    }
}

/// Runs the schedule whose text is the input, and prints what is found of it, in words or as a line of `json`: of what is not settled the
/// first, or with `all` everything. With `json` the text is read whole, at most 2^30 bytes, and the fault of a refused one is a line of JSON too.
pub fn check_text<I: Source, O: Sink, F: Sink>(
    alloc: Global,
    all: bool,
    json: bool,
    input: &mut I,
    output: &mut O,
    faults: &mut F,
) -> u8
    ensures { IfSome (I.remaining input.old) (λ text. OfTextAs json (MayFind all json) (I.failed input.new) text result (record { output = O.contents output.old; output' = O.contents output.new; broken = O.failed output.new; faults = F.contents faults.old; faults' = F.contents faults.new; faults_broken = F.failed faults.new })) }
{
    if json {
        return check_whole(alloc, all, input, output, faults);
    }
    match assemble_from(alloc, input) {
        Ok(schedule) => report_findings(alloc, &schedule, all, false, output, faults),
        Err(fault) => {
            complain_of_line(alloc, fault, faults);
            1
        }
    }
}

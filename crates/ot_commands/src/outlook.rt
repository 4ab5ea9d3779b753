//! `explain --json`: the verdict on where a schedule's run ends, as a line of JSON.

ghost use Rattle.std.specs.Prelude.{◌≡◌, IfSome};
ghost use Rattle.ot_commands.specs.ExplainedOutlooks.{MayGiveOutlook};
ghost use Rattle.ot_commands.specs.Inputs.{OfWholeText};

use crate::faults::answer_fault;
use crate::running::status_of;
use ot_asm::assemble_bytes;
use ot_explain::{outlook_json, run_end};
use ot_isa::Schedule;
use std::alloc::Global;
use streams::{Sink, Source, complain_of_input, complain_of_memory, give};

// Runs the schedule and writes the verdict.
fn give_outlook<O: Sink, F: Sink>(
    alloc: Global,
    schedule: &Schedule,
    output: &mut O,
    faults: &mut F,
) -> u8
    ensures { MayGiveOutlook schedule.now result (record { output = O.contents output.old; output' = O.contents output.new; broken = O.failed output.new; faults = F.contents faults.old; faults' = F.contents faults.new; faults_broken = F.failed faults.new }) }
{
    let Ok(ending) = run_end(alloc, schedule) else {
        complain_of_memory(faults);
        return 1;
    };
    let Ok(line) = outlook_json(alloc, schedule, &ending) else {
        complain_of_memory(faults);
        return 1;
    };
    give(line.as_bytes(), status_of(ending.stopped), output)
}

/// Runs the schedule whose text is the input, and writes as one line of JSON how many instructions were performed, why the next one was not, and
/// whether all documents must agree (`outlook_json` of `ot_explain`). The status is 0 where all instructions were performed; 1 where one was not, for a
/// refused text (on the faults its fault's line, on the output the fault as JSON), and for a fault of reading, writing or memory. The text is
/// read whole, at most 2^30 bytes.
pub fn explain_outlook<I: Source, O: Sink, F: Sink>(
    alloc: Global,
    input: &mut I,
    output: &mut O,
    faults: &mut F,
) -> u8
    ensures { IfSome (I.remaining input.old) (λ text. OfWholeText MayGiveOutlook (I.failed input.new) text result (record { output = O.contents output.old; output' = O.contents output.new; broken = O.failed output.new; faults = F.contents faults.old; faults' = F.contents faults.new; faults_broken = F.failed faults.new })) }
{
    let text = match input.read_whole(alloc) {
        Ok(text) => text,
        Err(fault) => {
            complain_of_input(fault, faults);
            return 1;
        }
    };
    match assemble_bytes(alloc, text.as_slice()) {
        Ok(schedule) => give_outlook(alloc, &schedule, output, faults),
        Err(fault) => answer_fault(alloc, text.as_slice(), fault, output, faults),
    }
}

//! `explain --plan`: what a plan is; of an input that is none, where its first fault is, in words.

ghost use Rattle.std.specs.Prelude.{◌≡◌, ◌≢◌, ◌++◌, Ok, Err, IfErr, IfOk, IfSome, string_bytes};
ghost use Rattle.ot_commands.specs.ExplainedPlans.{ExplainsPlan, IsReasonOfBytes, MayGivePlan};
ghost use Rattle.ot_commands.specs.ExplainedTraces.{Tells};
ghost use Rattle.ot_plan.specs.Lines.{fault_line};
ghost use Rattle.ot_plan.specs.Reading.{plan_of_bytes};
ghost use Rattle.ot_reasons.specs.Ignored.{ignored_of_text, ignored_rows, key_values};
ghost use Rattle.ot_reasons.specs.PlanWords.{plan_text};
ghost use Rattle.ot_plan.specs.declared.fault.PlanFault.TheVariants as kind;

use ot_asm::read_text;
use ot_plan::fault_line;
use ot_reasons::{PlanReason, ReadPlan, ignored_text, no_plan_text, plan_text, read_plan_or_tell};
use std::alloc::{AllocError, Global};
use streams::{Sink, Source, complain, complain_of_input, complain_of_memory, give};

// The plan that the bytes are, or why there is none.
fn plan_or_reason(alloc: Global, bytes: &[u8]) -> Result<ReadPlan, PlanReason>
    ensures ok { IfOk result (λ p. plan_of_bytes bytes.now ≡ Ok p.plan) }
    ensures ignored { IfOk result (λ p. key_values p.ignored.items ≡ ignored_of_text bytes.now) }
    ensures err { IfErr result (λ r. r.fault ≢ kind.Memory → plan_of_bytes bytes.now ≡ Err r.fault) }
    ensures reason { IfErr result (λ r. r.fault ≢ kind.Memory → IsReasonOfBytes bytes.now r.fault (string_bytes r.words)) }
{
    match read_text(bytes) {
        Some(text) => read_plan_or_tell(alloc, text),
        None => Err(no_plan_text(alloc, bytes)),
    }
}

// Writes the line of a fault, and behind it the words.
fn tell<F: Sink>(reason: &PlanReason, faults: &mut F)
    ensures { Tells (fault_line reason.now.fault) (string_bytes reason.now.words) (F.contents faults.old) (F.contents faults.new) (F.failed faults.new) }
{
    complain(faults, fault_line(reason.fault));
    complain(faults, reason.words.as_str());
}

// What a plan is, and which keys of its text are not read.
fn told(alloc: Global, read: &ReadPlan) -> Result<String, AllocError>
    ensures { IfOk result (λ s. string_bytes s ≡ plan_text read.now.plan ++ ignored_rows (key_values read.now.ignored.items)) }
{
    let mut text = plan_text(alloc, &read.plan)?;
    let rows = ignored_text(alloc, read.ignored.as_slice())?;
    text.push_str(rows.as_str())?;
    Ok(text)
}

// Writes what a plan is.
fn give_plan<O: Sink, F: Sink>(alloc: Global, read: &ReadPlan, output: &mut O, faults: &mut F) -> u8
    ensures { MayGivePlan read.now.plan (key_values read.now.ignored.items) result (record { output = O.contents output.old; output' = O.contents output.new; broken = O.failed output.new; faults = F.contents faults.old; faults' = F.contents faults.new; faults_broken = F.failed faults.new }) }
{
    let Ok(text) = told(alloc, read) else {
        complain_of_memory(faults);
        return 1;
    };
    give(text.as_bytes(), 0, output)
}

/// Says what plan the input is, in a line, and in a line for each which of its keys are not read. Of an input that is no plan it writes the fault's line as `threads` does, and below it a line of
/// words: where the first fault is, what stands there and what is wanted.
pub fn explain_plan<I: Source, O: Sink, F: Sink>(
    alloc: Global,
    input: &mut I,
    output: &mut O,
    faults: &mut F,
) -> u8
    ensures { IfSome (I.remaining input.old) (λ bytes. ExplainsPlan (I.failed input.new) bytes result (record { output = O.contents output.old; output' = O.contents output.new; broken = O.failed output.new; faults = F.contents faults.old; faults' = F.contents faults.new; faults_broken = F.failed faults.new })) }
{
    let bytes = match input.read_whole(alloc) {
        Ok(bytes) => bytes,
        Err(fault) => {
            complain_of_input(fault, faults);
            return 1;
        }
    };
    match plan_or_reason(alloc, bytes.as_slice()) {
        Ok(read) => give_plan(alloc, &read, output, faults),
        Err(reason) => {
            tell(&reason, faults);
            1
        }
    }
}

//! `explain --trace`: the verdict of a recorded trace, with its words; of an input that is none, where its first fault is, in words.

ghost use Rattle.std.specs.Prelude.{◌≡◌, ◌≢◌, ◌++◌, Ok, Err, IfErr, IfOk, IfSome, string_bytes};
ghost use Rattle.ot_commands.specs.ExplainedTraces.{ExplainsTrace, IsReasonOfBytes, MayTellVerdict, Tells};
ghost use Rattle.ot_commands.specs.Judged.{trace_fault, trace_of_bytes};
ghost use Rattle.ot_judge.specs.declared.fault.TraceFault.TheVariants as kind;
ghost use Rattle.ot_judge.specs.Verdict.{IsVerdict};
ghost use Rattle.ot_report.specs.Verdicts.{verdict_line};
ghost use Rattle.ot_report.specs.Words.{verdict_words};

use crate::judging::{fault_line, status_of};
use ot_asm::read_text;
use ot_judge::{Trace, Verdict, judge};
use ot_reasons::{Reason, no_text, read_or_tell};
use ot_report::{print_verdict, print_words};
use std::alloc::{AllocError, Global};
use streams::{Sink, Source, complain, complain_of_input, complain_of_memory, give};

// The trace that the bytes are, or why there is none.
fn trace_or_reason(alloc: Global, bytes: &[u8]) -> Result<Trace, Reason>
    ensures ok { IfOk result (λ t. trace_of_bytes bytes.now ≡ Ok t) }
    ensures err { IfErr result (λ r. r.fault ≢ kind.Memory → trace_of_bytes bytes.now ≡ Err r.fault) }
    ensures reason { IfErr result (λ r. r.fault ≢ kind.Memory → IsReasonOfBytes bytes.now r.fault (string_bytes r.words)) }
{
    match read_text(bytes) {
        Some(text) => read_or_tell(alloc, text),
        None => Err(no_text(alloc, bytes)),
    }
}

// Writes the line of a fault, and behind it the words.
fn tell<F: Sink>(reason: &Reason, faults: &mut F)
    ensures { Tells (trace_fault reason.now.fault) (string_bytes reason.now.words) (F.contents faults.old) (F.contents faults.new) (F.failed faults.new) }
{
    complain(faults, fault_line(reason.fault));
    complain(faults, reason.words.as_str());
}

// The verdict's line, and below it its words.
fn verdict_text(alloc: Global, trace: &Trace, verdict: Verdict) -> Result<String, AllocError>
    requires { IsVerdict trace.now verdict }
    ensures { IfOk result (λ s. string_bytes s ≡ verdict_line verdict ++ verdict_words trace.now verdict) }
{
    let mut text = print_verdict(alloc, verdict)?;
    let words = print_words(alloc, trace, verdict)?;
    text.push_str(words.as_str())?;
    Ok(text)
}

// Judges the trace, and prints the verdict with its words.
fn tell_verdict<O: Sink, F: Sink>(
    alloc: Global,
    trace: &Trace,
    output: &mut O,
    faults: &mut F,
) -> u8
    ensures { MayTellVerdict trace.now result (record { output = O.contents output.old; output' = O.contents output.new; broken = O.failed output.new; faults = F.contents faults.old; faults' = F.contents faults.new; faults_broken = F.failed faults.new }) }
{
    let Ok(verdict) = judge(alloc, trace) else {
        complain_of_memory(faults);
        return 1;
    };
    let Ok(text) = verdict_text(alloc, trace, verdict) else {
        complain_of_memory(faults);
        return 1;
    };
    give(text.as_bytes(), status_of(verdict), output)
}

/// Judges the trace that is the input, as `judge_input` does, and writes below the verdict's line its words: which events, which elements,
/// and what each list has. Of an input that is no trace it writes the fault's line, and below it a line of
/// words: where the first fault is, what stands there and what is wanted.
pub fn explain_trace<I: Source, O: Sink, F: Sink>(
    alloc: Global,
    input: &mut I,
    output: &mut O,
    faults: &mut F,
) -> u8
    ensures { IfSome (I.remaining input.old) (λ bytes. ExplainsTrace (I.failed input.new) bytes result (record { output = O.contents output.old; output' = O.contents output.new; broken = O.failed output.new; faults = F.contents faults.old; faults' = F.contents faults.new; faults_broken = F.failed faults.new })) }
{
    let bytes = match input.read_whole(alloc) {
        Ok(bytes) => bytes,
        Err(fault) => {
            complain_of_input(fault, faults);
            return 1;
        }
    };
    match trace_or_reason(alloc, bytes.as_slice()) {
        Ok(trace) => tell_verdict(alloc, &trace, output, faults),
        Err(reason) => {
            tell(&reason, faults);
            1
        }
    }
}

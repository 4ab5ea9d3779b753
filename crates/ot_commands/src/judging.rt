//! `judge`: whether a recorded trace has the weak list property.

ghost use Rattle.std.specs.Prelude.{◌≡◌, ◌≢◌, Ok, Err, IfErr, IfOk, IfSome};
ghost use Rattle.ot_commands.specs.Judged.{trace_fault, trace_of_bytes, verdict_status, Judges, MayGiveVerdict};
ghost use Rattle.ot_judge.specs.declared.fault.TraceFault.TheVariants as kind;

use ot_asm::read_text;
use ot_judge::{Trace, TraceFault, Verdict, judge, read_trace};
use ot_report::verdict_text;
use std::alloc::Global;
use streams::{Sink, Source, complain, complain_of_input, complain_of_memory, give};

/// The status of a verdict.
pub(crate) fn status_of(verdict: Verdict) -> u8
    ensures { result ≡ verdict_status verdict }
{
    match verdict {
        Verdict::Holds => 0,
        _ => 1,
    }
}

/// The line of a trace's fault.
pub(crate) fn fault_line(fault: TraceFault) -> &'static str
    ensures { result.now ≡ trace_fault fault }
{
    match fault {
        TraceFault::NotJson => "otbench: NotJson\n",
        TraceFault::BadShape => "otbench: BadShape\n",
        TraceFault::TraceFull => "otbench: TraceFull\n",
        TraceFault::TagTwice(_) => "otbench: TagTwice\n",
        TraceFault::Memory => "otbench: Memory\n",
    }
}

// The trace that the bytes are.
fn trace_in(alloc: Global, bytes: &[u8]) -> Result<Trace, TraceFault>
    ensures ok { IfOk result (λ t. trace_of_bytes bytes.now ≡ Ok t) }
    ensures err { IfErr result (λ e. e ≢ kind.Memory → trace_of_bytes bytes.now ≡ Err e) }
{
    match read_text(bytes) {
        Some(text) => {
            let trace = read_trace(alloc, text)?;
            Ok(trace)
        }
        None => Err(TraceFault::NotJson),
    }
}

// Judges the trace and prints the verdict, in words or as JSON.
fn give_verdict<O: Sink, F: Sink>(
    alloc: Global,
    json: bool,
    trace: &Trace,
    output: &mut O,
    faults: &mut F,
) -> u8
    ensures { MayGiveVerdict json trace.now result (record { output = O.contents output.old; output' = O.contents output.new; broken = O.failed output.new; faults = F.contents faults.old; faults' = F.contents faults.new; faults_broken = F.failed faults.new }) }
{
    let Ok(verdict) = judge(alloc, trace) else {
        complain_of_memory(faults);
        return 1;
    };
    let Ok(line) = verdict_text(alloc, json, verdict) else {
        complain_of_memory(faults);
        return 1;
    };
    give(line.as_bytes(), status_of(verdict), output)
}

/// Judges the trace that is the input, and prints the verdict, in words or as a line of `json`.
pub fn judge_input<I: Source, O: Sink, F: Sink>(
    alloc: Global,
    json: bool,
    input: &mut I,
    output: &mut O,
    faults: &mut F,
) -> u8
    ensures { IfSome (I.remaining input.old) (λ bytes. Judges json (I.failed input.new) bytes result (record { output = O.contents output.old; output' = O.contents output.new; broken = O.failed output.new; faults = F.contents faults.old; faults' = F.contents faults.new; faults_broken = F.failed faults.new })) }
{
    let bytes = match input.read_whole(alloc) {
        Ok(bytes) => bytes,
        Err(fault) => {
            complain_of_input(fault, faults);
            return 1;
        }
    };
    match trace_in(alloc, bytes.as_slice()) {
        Ok(trace) => give_verdict(alloc, json, &trace, output, faults),
        Err(fault) => {
            complain(faults, fault_line(fault));
            1
        }
    }
}

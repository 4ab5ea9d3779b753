//! What `check` finds of a schedule, in words and as JSON.

ghost use Rattle.std.specs.Prelude.{◌≡◌, IfOk, IfSome, string_bytes};
ghost use Rattle.std.specs.Option.{option_map};
ghost use Rattle.ot_machine.specs.Ended.{reached};
ghost use Rattle.ot_model.specs.Trace.{TraceView};
ghost use Rattle.ot_model.specs.WeakList.{WeakListProperty};
ghost use Rattle.ot_report.specs.Findings.{IsFound, found_json, found_text, found_value, found_words, trace_text};

use crate::lines::push_stop;
use crate::members::{stopped_member, trace_members, unsettled_members};
use crate::unsettled::settling;
use crate::verdicts::{print_settling, print_verdict};
use ot_check::{Convergence, TracedRun, traced_run};
use ot_isa::Schedule;
use ot_judge::{Trace, Verdict, judge};
use ot_machine::Ending;
use ot_model::Refusal;
use std::alloc::{AllocError, Global};

/// What is found of a schedule's run: of it the words and the JSON are made.
#[derive(Drop)]
pub struct Findings {
    /// How many instructions were performed.
    pub at: usize,
    /// The place of the instruction that was not performed, and why; none where all were performed.
    pub stopped: Option<(usize, Refusal)>,
    /// Whether all is quiet where the run ended, or what is not.
    pub settling: Vec<Convergence>,
    /// The verdict of the schedule's trace; none where the trace is too large to be judged.
    pub verdict: Option<Verdict>,
}

// The verdict of a schedule's trace; none where the trace is too large.
fn verdict_of(alloc: Global, trace: Option<Trace>) -> Result<Option<Verdict>, AllocError>
    requires { IfSome trace WeakListProperty }
    ensures { IfOk result (λ v. v ≡ option_map (λ (t : TraceView). Verdict.Holds) trace) }
{
    match trace {
        Some(trace) => {
            let verdict = judge(alloc, &trace)?;
            Ok(Some(verdict))
        }
        None => Ok(None),
    }
}

// How many instructions of the schedule were performed where its run ended so.
fn reached(schedule: &Schedule, stopped: Option<(usize, Refusal)>) -> usize
    ensures { result ≡ reached schedule.now stopped }
{
    match stopped {
        Some((place, _)) => place,
        None => schedule.len(),
    }
}

/// Runs the schedule once, and says what is found of it: the stop if an instruction was not performed, whether all is quiet with equal lists
/// where the run ended, and the verdict of the schedule's trace, which holds, or is none where the trace has more than 4,000 events or
/// 4,000,000 list entries. Where not all is quiet, the first that is not settled, or with `all` each, as [`settling`] says. The machine is
/// dropped before the trace is judged.
pub fn find(alloc: Global, schedule: &Schedule, all: bool) -> Result<Findings, AllocError>
    ensures { IfOk result (λ found. IsFound all schedule.now (found_value found)) }
{
    let TracedRun { ending, trace } = traced_run(alloc, schedule)?;
    let Ending { machine, stopped } = ending;
    let settling = settling(alloc, &machine, all)?;
    drop(machine);
    let verdict = verdict_of(alloc, trace)?;
    Ok(Findings {
        at: reached(schedule, stopped),
        stopped,
        settling,
        verdict,
    })
}

// The line of a trace's verdict, or `trace full`.
fn print_trace(alloc: Global, verdict: Option<Verdict>) -> Result<String, AllocError>
    ensures { IfOk result (λ s. string_bytes s ≡ trace_text verdict) }
{
    match verdict {
        Some(verdict) => print_verdict(alloc, verdict),
        None => String::from_str(alloc, "trace full\n"),
    }
}

// What is found, as lines.
fn found_words(alloc: Global, found: &Findings) -> Result<String, AllocError>
    ensures { IfOk result (λ s. string_bytes s ≡ found_words (found_value found.now)) }
{
    let settling = print_settling(alloc, found.settling.as_slice())?;
    let verdict = print_trace(alloc, found.verdict)?;
    let mut text = String::new(alloc);
    push_stop(alloc, false, &mut text, found.stopped)?;
    text.push_str(settling.as_str())?;
    text.push_str(verdict.as_str())?;
    Ok(text)
}

// What is found, as a line of JSON.
fn found_json(alloc: Global, found: &Findings) -> Result<String, AllocError>
    ensures { IfOk result (λ s. string_bytes s ≡ found_json (found_value found.now)) }
{
    let at = found.at;
    let stopped = stopped_member(alloc, found.stopped)?;
    let unsettled = unsettled_members(alloc, found.settling.as_slice())?;
    let verdict = trace_members(alloc, found.verdict)?;
    format!(in alloc; "{{\"at\":{at}{stopped}{unsettled},{verdict}}}\n")
}

/// What is found of a schedule's run, in words or as a line of JSON.
pub fn found_text(alloc: Global, json: bool, found: &Findings) -> Result<String, AllocError>
    ensures { IfOk result (λ s. string_bytes s ≡ found_text json (found_value found.now)) }
{
    if json {
        found_json(alloc, found)
    } else {
        found_words(alloc, found)
    }
}

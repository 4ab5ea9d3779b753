//! `threads` over any streams.

ghost use Rattle.std.specs.Prelude.{◌≡◌, Ok, IfErr, IfOk, IfSome};
ghost use Rattle.ot_plan.specs.Reading.{plan_of_bytes};
ghost use Rattle.ot_threads.specs.Threaded.{CarriesOut, Concludes, IsPlanFault, Threads as DoesThreads};

use crate::carrying::carry_out;
use crate::concluding::conclude;
use crate::lines::threads_line;
use ot_asm::read_text;
use ot_board::Board;
use ot_plan::{Plan, PlanFault, fault_line, read_plan};
use ot_workers::WorkerEnd;
use std::alloc::Global;
use std::sync::Wait;
use std::thread::Threads;
use streams::{Sink, Source, complain, complain_of_input, complain_of_memory, give};

// The plan that the bytes are.
fn plan_in(alloc: Global, bytes: &[u8]) -> Result<Plan, PlanFault>
    ensures ok { IfOk result (λ p. plan_of_bytes bytes.now ≡ Ok p) }
    ensures err { IfErr result (λ e. IsPlanFault bytes.now e) }
{
    match read_text(bytes) {
        Some(text) => {
            let plan = read_plan(alloc, text)?;
            Ok(plan)
        }
        None => Err(PlanFault::NotJson),
    }
}

// Prints what the workers recorded, or the first fault.
fn give_conclusion<O: Sink, F: Sink>(
    alloc: Global,
    plan: &Plan,
    board: Board,
    ends: Vec<WorkerEnd>,
    output: &mut O,
    faults: &mut F,
) -> u8
    ensures { Concludes plan.now board ends.items result (record { output = O.contents output.old; output' = O.contents output.new; broken = O.failed output.new; faults = F.contents faults.old; faults' = F.contents faults.new; faults_broken = F.failed faults.new }) }
{
    match conclude(alloc, plan, board, ends) {
        Ok(text) => give(text.as_slice(), 0, output),
        Err(fault) => {
            complain(faults, threads_line(fault));
            1
        }
    }
}

// Carries the plan out and prints what the workers recorded.
fn give_record<R: Threads + Wait + Sync, O: Sink, F: Sink>(
    rt: &R,
    alloc: Global,
    plan: &Plan,
    output: &mut O,
    faults: &mut F,
) -> u8
    ensures { CarriesOut plan.now result (record { output = O.contents output.old; output' = O.contents output.new; broken = O.failed output.new; faults = F.contents faults.old; faults' = F.contents faults.new; faults_broken = F.failed faults.new }) }
{
    match carry_out(rt, alloc, plan) {
        Ok((board, ends)) => give_conclusion(alloc, plan, board, ends, output, faults),
        Err(_) => {
            complain_of_memory(faults);
            1
        }
    }
}

/// Reads a plan, has it carried out by its workers on threads, and prints the schedule that they recorded and where it ends, or the first
/// fault. Status 0 only where the recorded schedule, which is printed, is all of the workers' steps and follows the plan; else 1. It may
/// wait, and what it ensures holds at the moment when it returns.
pub fn run_threads<R: Threads + Wait + Sync, I: Source, O: Sink, F: Sink>(
    rt: &R,
    alloc: Global,
    input: &mut I,
    output: &mut O,
    faults: &mut F,
) -> u8
    ensures { IfSome (I.remaining input.old) (λ bytes. DoesThreads (I.failed input.new) bytes result (record { output = O.contents output.old; output' = O.contents output.new; broken = O.failed output.new; faults = F.contents faults.old; faults' = F.contents faults.new; faults_broken = F.failed faults.new })) }
{
    let bytes = match input.read_whole(alloc) {
        Ok(bytes) => bytes,
        Err(fault) => {
            complain_of_input(fault, faults);
            return 1;
        }
    };
    match plan_in(alloc, bytes.as_slice()) {
        Ok(plan) => give_record(rt, alloc, &plan, output, faults),
        Err(fault) => {
            complain(faults, fault_line(fault));
            1
        }
    }
}

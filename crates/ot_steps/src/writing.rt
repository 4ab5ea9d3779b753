//! The lines of a whole run.

ghost use Rattle.std.specs.Prelude.{◌≡◌, ◌<◌, IfErr, IfOk, OnErr, OnOk, length, string_bytes};
ghost use Rattle.streams.specs.Streams.{IsCaused};
ghost use Rattle.ot_model.specs.Runs.{opening_of};
ghost use Rattle.ot_model.specs.Table as table;
ghost use Rattle.ot_machine.specs.Answers.{IsRefusal};
ghost use Rattle.ot_steps.specs.Steps.{last_lines};
ghost use Rattle.ot_steps.specs.Text.{lines_text};
ghost use Rattle.ot_steps.specs.Gathered.{Gathers, GathersMoves, GathersRun, GathersUpTo, MovesUpTo, RunUpTo};
ghost use Rattle.ot_steps.specs.Written.{IsMove, WritesRun, WritesUpTo};

use crate::line::{Line, Stop};
use ot_isa::{Instr, Schedule};
use ot_machine::{Machine, Refusal};
use std::alloc::{AllocError, Global};
use streams::{OutputFault, Sink};

/// As many bytes of lines are held before they are written: 64 KiB.
const HELD: usize = 65_536;

// Performs the instruction and writes its line into the text, instead of what that held, or says why it was not performed.
fn perform_and_write(
    alloc: Global,
    machine: &mut Machine,
    at: usize,
    instr: &Instr,
    documents: bool,
    text: &mut String,
) -> Result<Result<(), Refusal>, AllocError>
    ensures line { IfOk result (λ answer. OnOk answer (IsMove documents at instr.now machine.old machine.new (string_bytes text.new))) }
    ensures refused { IfOk result (λ answer. IfErr answer (λ r. IsRefusal (table.step machine.old instr.now) r)) }
    ensures unchanged { IfOk result (λ answer. OnErr answer (machine.new ≡ machine.old)) }
{
    let effect = match machine.perform::<false>(instr) {
        Ok(effect) => effect,
        Err(refusal) => return Ok(Err(refusal)),
    };
    let delivered = effect.applied.operation(machine);
    let line = Line::step(machine, at, instr, effect.sent, delivered);
    line.write(alloc, text, documents)?;
    Ok(Ok(()))
}

// Holds a text, and writes all that is held where it is much.
fn gather<W: Sink>(held: &mut Vec<u8>, text: &str, output: &mut W) -> Result<(), OutputFault>
    ensures ok { OnOk result (Gathers (W.contents output.old) (W.contents output.new) held.old.items held.new.items text.now) }
    ensures few { OnOk result (length held.new.items < HELD) }
    ensures err { IfErr result (λ f. GathersUpTo f (W.contents output.old) (W.contents output.new) held.old.items held.new.items text.now) }
    ensures cause { IfErr result (λ f. IsCaused f (W.failed output.new)) }
{
    held.extend_from_slice(text.as_bytes())?;
    if held.len() < HELD {
        return Ok(());
    }
    output.put(held.as_slice())?;
    held.clear();
    Ok(())
}

// Performs the instructions up to the first that is not performed, and gathers the line of each.
fn gather_moves<W: Sink>(
    alloc: Global,
    machine: &mut Machine,
    schedule: &Schedule,
    documents: bool,
    held: &mut Vec<u8>,
    output: &mut W,
) -> Result<Option<(usize, Refusal)>, OutputFault>
    requires { machine.old ≡ opening_of schedule.now }
    ensures ok { IfOk result (λ stopped. GathersMoves documents schedule.now stopped machine.new (W.contents output.old) (W.contents output.new) held.old.items held.new.items) }
    ensures err { IfErr result (λ f. MovesUpTo f documents schedule.now (W.contents output.old) (W.contents output.new) held.old.items held.new.items) }
    ensures cause { IfErr result (λ f. IsCaused f (W.failed output.new)) }
{
    let mut line = String::new(alloc);
    for place in 0..schedule.len() {
        let Some(instr) = schedule.get(place) else {
            unreachable!()
        };
        match perform_and_write(alloc, machine, place + 1, instr, documents, &mut line)? {
            Ok(()) => gather(held, line.as_str(), output)?,
            Err(refusal) => return Ok(Some((place, refusal))),
        }
    }
    Ok(None)
}

// The lines of a run's stop, if there was one, and of its end.
fn print_last(
    alloc: Global,
    machine: &Machine,
    schedule: &Schedule,
    stopped: Option<(usize, Refusal)>,
) -> Result<String, AllocError>
    ensures { IfOk result (λ s. string_bytes s ≡ lines_text (last_lines schedule.now machine.now stopped)) }
{
    let quiet = machine.is_quiet();
    let Some((place, refusal)) = stopped else {
        let at = schedule.len();
        return Line::End { at, quiet }.text(alloc, false);
    };
    let end = Line::End { at: place, quiet }.text(alloc, false)?;
    let Some(instr) = schedule.get(place) else {
        return Ok(end);
    };
    let stop = Stop {
        at: place,
        instr,
        refusal,
    };
    let mut text = Line::Stop(stop).text(alloc, false)?;
    text.push_str(end.as_str())?;
    Ok(text)
}

// Runs the schedule and gathers the lines of its run. Says whether an instruction was not performed.
fn gather_run<W: Sink>(
    alloc: Global,
    schedule: &Schedule,
    documents: bool,
    held: &mut Vec<u8>,
    output: &mut W,
) -> Result<bool, OutputFault>
    ensures ok { IfOk result (λ refused. GathersRun documents schedule.now refused (W.contents output.old) (W.contents output.new) held.old.items held.new.items) }
    ensures err { IfErr result (λ f. RunUpTo f documents schedule.now (W.contents output.old) (W.contents output.new) held.old.items held.new.items) }
    ensures cause { IfErr result (λ f. IsCaused f (W.failed output.new)) }
{
    let clients = schedule.clients();
    let mut machine = Machine::with_present(alloc, clients, schedule.present(), schedule.start())?;
    let opening = Line::Opening(schedule).text(alloc, documents)?;
    gather(held, opening.as_str(), output)?;
    let stopped = gather_moves(alloc, &mut machine, schedule, documents, held, output)?;
    let last = print_last(alloc, &machine, schedule, stopped)?;
    gather(held, last.as_str(), output)?;
    Ok(stopped.is_some())
}

/// Runs the schedule and writes the lines of its run while it goes: the opening, a line for each performed instruction, the stop if an
/// instruction was not performed (refused, or out of memory), and the end. Says whether one was not performed. With `documents` each
/// performed instruction's line has the document of the one that moved.
///
/// After a fault a first part of the lines is written. `WriteFault` is said only where a write has failed, as the output says itself. If memory for a line ran out these are whole lines, all that were made before it. Memory does
/// not grow with the lines: they are written wherever 64 KiB of them are held.
pub fn print_steps<W: Sink>(
    alloc: Global,
    schedule: &Schedule,
    documents: bool,
    output: &mut W,
) -> Result<bool, OutputFault>
    ensures ok { IfOk result (λ refused. WritesRun documents schedule.now refused (W.contents output.old) (W.contents output.new)) }
    ensures err { IfErr result (λ f. WritesUpTo f documents schedule.now (W.contents output.old) (W.contents output.new)) }
    ensures cause { IfErr result (λ f. IsCaused f (W.failed output.new)) }
{
    let mut held = Vec::new(alloc);
    match gather_run(alloc, schedule, documents, &mut held, output) {
        Ok(refused) => {
            output.put(held.as_slice())?;
            Ok(refused)
        }
        Err(OutputFault::Memory) => {
            output.put(held.as_slice())?;
            Err(OutputFault::Memory)
        }
        Err(OutputFault::WriteFault) => Err(OutputFault::WriteFault),
    }
}

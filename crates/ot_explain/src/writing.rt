//! A whole run in words.

ghost use Rattle.std.specs.Prelude.{◌≡◌, IfErr, IfOk};
ghost use Rattle.streams.specs.Streams.{IsCaused};
ghost use Rattle.ot_model.specs.Runs.{opening_of};
ghost use Rattle.ot_explain.specs.Explained.{MovesUpTo, WritesMoves, WritesRun, WritesUpTo};

use crate::ends::last_words;
use crate::paragraphs::{opening_words, perform};
use ot_asm::{Comments, named};
use ot_isa::Schedule;
use ot_machine::{Machine, Refusal};
use std::alloc::Global;
use streams::{OutputFault, Sink};

// Performs the instructions up to the first that is not performed, and writes the paragraph of each.
fn write_moves<W: Sink>(
    alloc: Global,
    machine: &mut Machine,
    lines: &[u64],
    comments: &Comments,
    schedule: &Schedule,
    output: &mut W,
) -> Result<Option<(usize, Refusal)>, OutputFault>
    requires { machine.old ≡ opening_of schedule.now }
    ensures ok { IfOk result (λ stopped. WritesMoves lines.now comments.now schedule.now stopped machine.new (W.contents output.old) (W.contents output.new)) }
    ensures err { IfErr result (λ f. MovesUpTo f lines.now comments.now schedule.now (W.contents output.old) (W.contents output.new)) }
    ensures cause { IfErr result (λ f. IsCaused f (W.failed output.new)) }
{
    let mut paragraph = String::new(alloc);
    for number in 0..schedule.len() {
        let Some(instr) = schedule.get(number) else {
            unreachable!()
        };
        match perform(&mut paragraph, machine, lines, number, instr)? {
            Ok(()) => {
                let words = named(alloc, paragraph.as_bytes(), comments)?;
                output.put(words.as_slice())?;
            }
            Err(refusal) => return Ok(Some((number, refusal))),
        }
    }
    Ok(None)
}

/// Runs the schedule and writes its run in words while it goes: the opening, a paragraph for each performed instruction, the stop if an
/// instruction was not performed (refused, or out of memory), the end, and the verdict. Says whether one was not performed. `lines` are the lines
/// of the instructions, as [`places`](crate::places) of the schedule's text; an instruction without one has line 0. `comments` are what the
/// text's comments tell: where they name a client, its name stands behind its number; where the schedule is cut, the last line says so.
///
/// After a fault a first part of the text is written; whole paragraphs if memory ran out. `WriteFault` is said only where a write has
/// failed, as the output says itself. Memory does not grow with the text: each
/// paragraph is written before the next instruction is performed, and no more is kept than one paragraph.
pub fn explain<W: Sink>(
    alloc: Global,
    schedule: &Schedule,
    lines: &[u64],
    comments: &Comments,
    output: &mut W,
) -> Result<bool, OutputFault>
    ensures ok { IfOk result (λ refused. WritesRun lines.now comments.now schedule.now refused (W.contents output.old) (W.contents output.new)) }
    ensures err { IfErr result (λ f. WritesUpTo f lines.now comments.now schedule.now (W.contents output.old) (W.contents output.new)) }
    ensures cause { IfErr result (λ f. IsCaused f (W.failed output.new)) }
{
    let clients = schedule.clients();
    let mut machine = Machine::with_present(alloc, clients, schedule.present(), schedule.start())?;
    let opening = opening_words(alloc, schedule, &machine)?;
    output.put(opening.as_bytes())?;
    let stopped = write_moves(alloc, &mut machine, lines, comments, schedule, output)?;
    let last = last_words(alloc, &machine, lines, comments, schedule, stopped)?;
    output.put(last.as_slice())?;
    Ok(stopped.is_some())
}

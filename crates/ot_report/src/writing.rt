//! The report of a schedule's run, written while it goes.

ghost use Rattle.std.specs.Prelude.{◌≡◌, true, [], ◌++◌, IfErr, IfOk, IfSome, OnErr, OnOk, string_bytes};
ghost use Rattle.std.specs.Bool.{OnTrue};
ghost use Rattle.std.specs.Option.{option_map};
ghost use Rattle.streams.specs.Streams.{WritesPart, IsCaused};
ghost use Rattle.ot_model.specs.Runs.{opening_of};
ghost use Rattle.ot_machine.specs.Effects.{shown_by, IsThere};
ghost use Rattle.ot_report.specs.Authors.{author_in, AreInserters};
ghost use Rattle.ot_report.specs.Written.{Flushes, Gathers, GathersReads, GathersUpTo, ReadsUpTo, WritesReport, WritesReportUpTo};

use crate::authors::Authors;
use crate::ending::end_text;
use crate::lines::{push_read_text, push_stop};
use ot_isa::Schedule;
use ot_machine::Machine;
use ot_model::{Reader, Refusal};
use std::alloc::{AllocError, Global};
use streams::{OutputFault, Sink};

/// Lines are gathered until they have so many bytes, and then written in one go: 64 KiB.
const GATHERED: usize = 1 << 16;

// Writes what is gathered, where that is enough.
fn flush_full<W: Sink>(text: &mut String, output: &mut W) -> Result<(), streams::WriteFault>
    ensures ok { OnOk result (Flushes (string_bytes text.old) (string_bytes text.new) (W.contents output.old) (W.contents output.new)) }
    ensures err { OnErr result (WritesPart (W.contents output.old) (W.contents output.new) (string_bytes text.old)) }
    ensures cause { OnErr result (W.failed output.new ≡ true) }
{
    if text.len() < GATHERED {
        return Ok(());
    }
    output.put(text.as_bytes())?;
    text.clear();
    Ok(())
}

// Gathers the line of a read, where there is one: it shows the machine's own list.
fn gather<W: Sink>(
    alloc: Global,
    json: bool,
    authors: &Authors,
    machine: &Machine,
    who: Option<Reader>,
    text: &mut String,
    output: &mut W,
) -> Result<(), OutputFault>
    requires { IfSome who (IsThere machine.now) }
    ensures ok { OnOk result (Gathers json (author_in authors.now) (option_map (shown_by machine.now) who) (string_bytes text.old) (string_bytes text.new) (W.contents output.old) (W.contents output.new)) }
    ensures err { IfErr result (λ f. GathersUpTo f (string_bytes text.old) (W.contents output.old) (W.contents output.new)) }
    ensures cause { IfErr result (λ f. IsCaused f (W.failed output.new)) }
{
    let Some(who) = who else { return Ok(()) };
    flush_full(text, output)?;
    push_read_text(alloc, json, authors, text, who, machine.document_of(who))?;
    Ok(())
}

// Performs the instructions up to the first that is not performed, and gathers and writes the lines of the reads.
fn write_reads<W: Sink>(
    alloc: Global,
    json: bool,
    authors: &Authors,
    machine: &mut Machine,
    schedule: &Schedule,
    text: &mut String,
    output: &mut W,
) -> Result<Option<(usize, Refusal)>, OutputFault>
    requires opening { machine.old ≡ opening_of schedule.now }
    requires authors { OnTrue json (AreInserters schedule.now.instrs authors.now) }
    requires empty { string_bytes text.old ≡ [] }
    ensures ok { IfOk result (λ stopped. GathersReads json schedule.now stopped machine.new (string_bytes text.new) (W.contents output.old) (W.contents output.new)) }
    ensures err { IfErr result (λ f. ReadsUpTo f json schedule.now (W.contents output.old) (W.contents output.new)) }
    ensures cause { IfErr result (λ f. IsCaused f (W.failed output.new)) }
{
    for place in 0..schedule.len() {
        let Some(instr) = schedule.get(place) else {
            unreachable!()
        };
        match machine.perform::<false>(instr) {
            Ok(effect) => gather(alloc, json, authors, machine, effect.shown, text, output)?,
            Err(refusal) => return Ok(Some((place, refusal))),
        }
    }
    Ok(None)
}

// The authors of the schedule's characters, where they are asked for.
fn authors_if(alloc: Global, json: bool, schedule: &Schedule) -> Result<Authors, AllocError>
    ensures { IfOk result (λ a. OnTrue json (AreInserters schedule.now.instrs a)) }
{
    if json {
        Authors::of(alloc, schedule)
    } else {
        Ok(Authors::none(alloc))
    }
}

/// Runs the schedule and writes its report while it goes, in words or as lines of `json`: the line of each read, the stop if an instruction was not performed (refused,
/// or out of memory), and the state where the run ended. Says which instruction was not performed, and why.
///
/// After a failed write a first part of the report is written, and `WriteFault` is said only where one has failed, as the output says itself; if memory ran out, the lines of the first reads, and these are whole; lines
/// that were gathered and not yet written are lost. Memory does not grow with the reads: their lines are gathered in one buffer, which is
/// written once it has 64 KiB, and beside it there is room for the machine, for the line of one read, and for the lines of the end;
/// with `json` for the authors too, four bytes for each character that the schedule inserts, and for a copy of the list that is read.
pub fn write_report<W: Sink>(
    alloc: Global,
    schedule: &Schedule,
    json: bool,
    output: &mut W,
) -> Result<Option<(usize, Refusal)>, OutputFault>
    ensures ok { IfOk result (λ stopped. WritesReport json schedule.now stopped (W.contents output.old) (W.contents output.new)) }
    ensures err { IfErr result (λ f. WritesReportUpTo f json schedule.now (W.contents output.old) (W.contents output.new)) }
    ensures cause { IfErr result (λ f. IsCaused f (W.failed output.new)) }
{
    let clients = schedule.clients();
    let mut machine = Machine::with_present(alloc, clients, schedule.present(), schedule.start())?;
    let authors = authors_if(alloc, json, schedule)?;
    let mut text = String::new(alloc);
    let stopped = write_reads(
        alloc,
        json,
        &authors,
        &mut machine,
        schedule,
        &mut text,
        output,
    )?;
    push_stop(alloc, json, &mut text, stopped)?;
    let end = end_text(alloc, json, &machine)?;
    output.put(text.as_bytes())?;
    output.put(end.as_bytes())?;
    Ok(stopped)
}

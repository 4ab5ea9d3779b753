//! How a run ends: the instruction that is refused, whether all is quiet, and the verdict.

ghost use Rattle.std.specs.Prelude.{◌≡◌, ◌++◌, IfOk, OnOk, string_bytes};
ghost use Rattle.ot_steps.specs.Steps.{is_quiet};
ghost use Rattle.ot_explain.specs.Reasons.{refused_paragraph, tried};
ghost use Rattle.ot_explain.specs.Explained.{end_text, end_words, last_text, stop_text};

use crate::agreeing::push_verdict;
use crate::paragraphs::{push_heading, push_user};
use crate::reasons::push_reason;
use ot_asm::{Comments, named, push_cut};
use ot_isa::{Instr, Schedule};
use ot_machine::{Machine, Refusal};
use ot_values::refusal_name;
use std::alloc::{AllocError, Global};

// The edit that was tried, if the instruction is one.
fn push_tried(text: &mut String, instr: &Instr) -> Result<(), AllocError>
    ensures { OnOk result (string_bytes text.new ≡ string_bytes text.old ++ tried instr.now) }
{
    let Instr::Edit(client, op) = instr else {
        return Ok(());
    };
    push_user(text, *client, op)?;
    text.push_str("\n")
}

// The paragraph of an instruction that the machine as it is refuses.
fn push_refused(
    text: &mut String,
    machine: &Machine,
    lines: &[u64],
    schedule: &Schedule,
    number: usize,
    instr: &Instr,
    refusal: Refusal,
) -> Result<(), AllocError>
    ensures { OnOk result (string_bytes text.new ≡ string_bytes text.old ++ refused_paragraph lines.now schedule.now.instrs number instr.now machine.now refusal) }
{
    push_heading(text, lines, number, instr)?;
    push_tried(text, instr)?;
    let name = refusal_name(refusal);
    write!(text, "  refused: {name}: ")?;
    push_reason(text, machine, lines, schedule, instr, refusal)?;
    text.push_str("\n")
}

// The paragraph of the instruction at which a run stopped, if it did.
fn push_stop(
    text: &mut String,
    machine: &Machine,
    lines: &[u64],
    schedule: &Schedule,
    stopped: Option<(usize, Refusal)>,
) -> Result<(), AllocError>
    ensures { OnOk result (string_bytes text.new ≡ string_bytes text.old ++ stop_text lines.now schedule.now machine.now stopped) }
{
    let Some((number, refusal)) = stopped else {
        return Ok(());
    };
    match schedule.get(number) {
        Some(instr) => push_refused(text, machine, lines, schedule, number, instr, refusal),
        None => Ok(()),
    }
}

// Whether all is quiet.
fn push_end(text: &mut String, machine: &Machine) -> Result<(), AllocError>
    ensures { OnOk result (string_bytes text.new ≡ string_bytes text.old ++ end_words (is_quiet machine.now)) }
{
    if machine.is_quiet() {
        return text.push_str("the end: all is quiet\n");
    }
    text.push_str("the end: not all is quiet\n")
}

// All of a run's end.
fn push_last(
    alloc: Global,
    text: &mut String,
    machine: &Machine,
    lines: &[u64],
    schedule: &Schedule,
    stopped: Option<(usize, Refusal)>,
) -> Result<(), AllocError>
    ensures { OnOk result (string_bytes text.new ≡ string_bytes text.old ++ end_text lines.now schedule.now machine.now stopped) }
{
    push_stop(text, machine, lines, schedule, stopped)?;
    push_end(text, machine)?;
    push_verdict(alloc, text, machine)
}

/// The paragraphs of a run's stop, if there was one, of its end and of the verdict, with the clients' names, and behind them what tells of the cut.
pub(crate) fn last_words(
    alloc: Global,
    machine: &Machine,
    lines: &[u64],
    comments: &Comments,
    schedule: &Schedule,
    stopped: Option<(usize, Refusal)>,
) -> Result<Vec<u8>, AllocError>
    ensures { IfOk result (λ v. v.items ≡ last_text lines.now comments.now schedule.now machine.now stopped) }
{
    let mut text = String::new(alloc);
    push_last(alloc, &mut text, machine, lines, schedule, stopped)?;
    let mut last = named(alloc, text.as_bytes(), comments)?;
    push_cut(&mut last, comments)?;
    Ok(last)
}

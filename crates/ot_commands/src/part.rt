//! The lines of a schedule before the line `%%`, kept as a text.

ghost use Rattle.std.specs.Prelude.{◌≡◌, ◌≤◌, ◌+◌, ◌++◌, ◌∷◌, [], ℕ, Bool, true, List, Ok, IfErr, IfOk, IfSome, OnErr, OnOk};
ghost use Rattle.streams.specs.Lines.{lines_of};
ghost use Rattle.ot_asm.specs.Canonical.{lines_text};
ghost use Rattle.ot_asm.specs.Parts.{TakesPart, is_mark, lines_before};
ghost use Rattle.ot_asm.specs.Stepping.{outcome_of_lines};
ghost use Rattle.ot_commands.specs.Faults.{IsLineFault};
ghost use Rattle.ot_commands.specs.Part.{BreaksIn, HasFaultIn, has_mark};

use ot_asm::{AsmFault, Kind, assemble_bytes, trimmed};
use ot_isa::Schedule;
use std::alloc::{AllocError, Global};
use streams::{LineFault, Source};

/// How many lines were taken, and whether the last of them is a mark.
#[derive(Clone, Copy, Debug, PartialEq, Eq)]
pub(crate) struct TakenPart {
    pub lines: u64,
    pub is_marked: bool,
}

fn is_mark(line: &[u8]) -> bool
    ensures { result ≡ is_mark line.now }
{
    trimmed(line) == b"%%".as_slice()
}

// Puts a line and its end behind the text. Without memory the text stays as it was.
fn keep_line(text: &mut Vec<u8>, line: &mut Vec<u8>) -> Result<(), AllocError>
    ensures ok { OnOk result (text.new.items ≡ text.old.items ++ (line.old.items ++ 10 ∷ [])) }
    ensures err { OnErr result (text.new.items ≡ text.old.items) }
{
    line.push(b'\n')?;
    text.extend_from_slice(line.as_slice())?;
    Ok(())
}

/// Takes the lines as far as the first mark, and keeps those before it as a text, each with its end. Says how many lines were taken, the mark among them.
/// After a fault the text has the lines before that of the fault.
pub(crate) fn keep_part<R: Source>(
    alloc: Global,
    input: &mut R,
    text: &mut Vec<u8>,
) -> Result<TakenPart, AsmFault>
    ensures ok { OnOk result (IfSome (R.remaining input.old) (λ all. lines_of text.new.items ≡ lines_before true (lines_of all))) }
    ensures err { IfErr result (λ f. IfSome (R.remaining input.old) (λ all. BreaksIn (R.failed input.new) text.new.items (lines_before true (lines_of all)) f)) }
    ensures ended { OnOk result (IfSome (R.remaining input.old) (λ all. text.new.items ≡ lines_text (lines_before true (lines_of all)))) }
    ensures part { IfOk result (λ taken. TakesPart true (R.remaining input.old) (R.remaining input.new) taken.lines) }
    ensures marked { IfOk result (λ taken. IfSome (R.remaining input.old) (λ all. taken.is_marked ≡ has_mark (lines_of all))) }
    ensures few { IfOk result (λ taken. taken.lines ≤ R.left input.old) }
    ensures spent { IfOk result (λ taken. taken.is_marked ≡ true → taken.lines + R.left input.new ≤ R.left input.old) }
{
    // For the proof: its bound.
    let _most = input.left();
    let mut line = Vec::new(alloc);
    let mut number = 1;
    text.clear();
    loop {
        match input.next_line(&mut line) {
            Ok(true) => {}
            Ok(false) => {
                return Ok(TakenPart {
                    lines: number - 1,
                    is_marked: false,
                });
            }
            Err(LineFault::ReadFault) => {
                return Err(AsmFault {
                    line: number,
                    kind: Kind::ReadFault,
                });
            }
            Err(LineFault::Memory) => {
                return Err(AsmFault {
                    line: number,
                    kind: Kind::Memory,
                });
            }
        }
        if is_mark(line.as_slice()) {
            return Ok(TakenPart {
                lines: number,
                is_marked: true,
            });
        }
        if keep_line(text, &mut line).is_err() {
            return Err(AsmFault {
                line: number,
                kind: Kind::Memory,
            });
        }
        number += 1;
    }
}

// The first fault of lines that could not be taken further: that of a line before, or why.
fn first_fault(alloc: Global, text: &[u8], stop: AsmFault) -> AsmFault
    ensures fault { (unread : Bool) → (lines : List (List ℕ)) → BreaksIn unread text.now lines stop → IsLineFault unread lines result }
    ensures kept { (unread : Bool) → (lines : List (List ℕ)) → BreaksIn unread text.now lines stop → HasFaultIn (lines_of text.now) lines result }
{
    match assemble_bytes(alloc, text) {
        Ok(_schedule) => stop,
        Err(fault) => { if fault.line < stop.line { fault } else { stop } }
    }
}

/// The schedule of the lines as far as the first mark, and how many lines were taken; the text gets the lines before the mark. Or the fault of
/// the first faulty line, which the text has, unless that line could not be kept or read.
pub(crate) fn read_part<R: Source>(
    alloc: Global,
    input: &mut R,
    text: &mut Vec<u8>,
) -> Result<(Schedule, u64), AsmFault>
    ensures ok { IfOk result (λ p. IfSome (R.remaining input.old) (λ all. outcome_of_lines (lines_before true (lines_of all)) ≡ Ok p.0)) }
    ensures text { OnOk result (IfSome (R.remaining input.old) (λ all. lines_of text.new.items ≡ lines_before true (lines_of all))) }
    ensures part { IfOk result (λ p. TakesPart true (R.remaining input.old) (R.remaining input.new) p.1) }
    ensures err { IfErr result (λ f. IfSome (R.remaining input.old) (λ all. IsLineFault (R.failed input.new) (lines_before true (lines_of all)) f)) }
    ensures kept { IfErr result (λ f. IfSome (R.remaining input.old) (λ all. HasFaultIn (lines_of text.new.items) (lines_before true (lines_of all)) f)) }
{
    match keep_part(alloc, input, text) {
        Ok(taken) => {
            match assemble_bytes(alloc, text.as_slice()) {
                Ok(schedule) => Ok((schedule, taken.lines)),
                Err(fault) => Err(fault),
            }
        }
        Err(stop) => Err(first_fault(alloc, text.as_slice(), stop)),
    }
}

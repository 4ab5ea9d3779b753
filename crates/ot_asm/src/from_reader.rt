//! From the lines of a reader to a schedule.

ghost use Rattle.std.specs.Prelude.{◌≡◌, ◌≢◌, ◌⊎◌, ◌+◌, ◌<◌, ◌^◌, ℕ, true, false, Ok, Err, IfOk, IfErr, IfSome, OnOk, length};
ghost use Rattle.std.specs.Io.KnownBytes.{IsAtEnd};
ghost use Rattle.streams.specs.Lines.{lines_of};
ghost use Rattle.ot_asm.specs.Stepping.{ended, outcome, outcome_of_lines, IsFaultlessBefore, OutOfMemoryIn};
ghost use Rattle.ot_asm.specs.Spelling.{Spells};
ghost use Rattle.ot_isa.specs.Program.{Program};
ghost use Rattle.ot_asm.specs.Parts.{lines_before, TakesPart, StopsIn};

use crate::assembling::finished;
use crate::body::Body;
use crate::fault::{AsmFault, Kind};
use crate::marks::ends_part;
use crate::stepping::numbered_step;
use ot_isa::Schedule;
use std::alloc::Global;
use streams::{LineFault, Source};

/// The schedule at the end of lines, and how many lines were taken.
fn finished_part(body: Option<Body>, line: u64, taken: u64) -> Result<(Schedule, u64), AsmFault>
    ensures ok { IfOk result (λ p. (lines : ℕ) → lines + 1 ≡ line → ended lines (Ok body) ≡ Ok p.0) }
    ensures taken { IfOk result (λ p. p.1 ≡ taken) }
    ensures err { IfErr result (λ f. (lines : ℕ) → lines + 1 ≡ line → ended lines (Ok body) ≡ Err f) }
    ensures line { IfErr result (λ f. (f.line ≡ line) × (f.kind ≡ Kind.NoClients)) }
{
    match finished(body, line) {
        Ok(schedule) => Ok((schedule, taken)),
        Err(fault) => Err(fault),
    }
}

/// What the lines as far as the first mark make, where marks count, or all lines; and how many lines were taken, the
/// mark among them.
fn assemble_part<R: Source>(
    alloc: Global,
    reader: &mut R,
    marked: bool,
) -> Result<(Schedule, u64), AsmFault>
    ensures ok { IfOk result (λ p. IfSome (R.remaining reader.old) (λ text. outcome_of_lines (lines_before marked (lines_of text)) ≡ Ok p.0)) }
    ensures part { IfOk result (λ p. TakesPart marked (R.remaining reader.old) (R.remaining reader.new) p.1) }
    ensures end { OnOk result (marked ≡ false → IsAtEnd (R.remaining reader.new)) }
    ensures short { OnOk result (marked ≡ false → IfSome (R.remaining reader.old) (λ text. length text < R.left reader.old)) }
    ensures err { IfErr result (λ f. f.kind ≢ Kind.Memory → f.kind ≢ Kind.ReadFault → IfSome (R.remaining reader.old) (λ text. outcome_of_lines (lines_before marked (lines_of text)) ≡ Err f)) }
    ensures faultless { IfErr result (λ f. IfSome (R.remaining reader.old) (λ text. IsFaultlessBefore (lines_before marked (lines_of text)) f.line)) }
    ensures memory { IfErr result (λ f. f.kind ≡ Kind.Memory → IfSome (R.remaining reader.old) (λ text. OutOfMemoryIn (lines_before marked (lines_of text)) f.line) ⊎ StopsIn (R.remaining reader.old) (R.remaining reader.new) f.line) }
    ensures stop { IfErr result (λ f. f.kind ≡ Kind.ReadFault → StopsIn (R.remaining reader.old) (R.remaining reader.new) f.line) }
    ensures cause { IfErr result (λ f. f.kind ≡ Kind.ReadFault → R.failed reader.new ≡ true) }
{
    // For the proof: its bound.
    let _most = reader.left();
    let mut piece = Vec::new(alloc);
    let mut body: Option<Body> = None;
    let mut line = 1;
    loop {
        match reader.next_line(&mut piece) {
            Ok(true) => {}
            Ok(false) => {
                return finished_part(body, line, line - 1);
            }
            Err(LineFault::ReadFault) => {
                return Err(AsmFault {
                    line,
                    kind: Kind::ReadFault,
                });
            }
            Err(LineFault::Memory) => {
                return Err(AsmFault {
                    line,
                    kind: Kind::Memory,
                });
            }
        }
        if ends_part(marked, piece.as_slice()) {
            return finished_part(body, line, line);
        }
        match numbered_step(alloc, &mut body, piece.as_slice(), line) {
            Ok(()) => {}
            Err(fault) => return Err(fault),
        }
        line += 1;
    }
}

/// The schedule that the bytes of a reader spell, or the fault of the first faulty line; `ReadFault`, where no line
/// before was faulty, once a read failed or 2^50 bytes were read, as the reader says itself.
pub fn assemble_from<R: Source>(alloc: Global, reader: &mut R) -> Result<Schedule, AsmFault>
    ensures ok { IfOk result (λ s. IfSome (R.remaining reader.old) (λ text. outcome text ≡ Ok s)) }
    ensures spells { IfOk result (λ s. IfSome (R.remaining reader.old) (λ text. Spells text s)) }
    // The schedule that the bytes spell is what is given, unless reading fails or memory runs out.
    ensures only { (p : Program) → IfSome (R.remaining reader.old) (λ text. Spells text p → IfOk result (λ s. s ≡ p) × IfErr result (λ f. (f.kind ≡ Kind.Memory) ⊎ (f.kind ≡ Kind.ReadFault))) }
    ensures short { OnOk result (IfSome (R.remaining reader.old) (λ text. length text < 2 ^ 50)) }
    ensures end { OnOk result (IsAtEnd (R.remaining reader.new)) }
    ensures err { IfErr result (λ f. f.kind ≢ Kind.Memory → f.kind ≢ Kind.ReadFault → IfSome (R.remaining reader.old) (λ text. outcome text ≡ Err f)) }
    ensures faultless { IfErr result (λ f. IfSome (R.remaining reader.old) (λ text. IsFaultlessBefore (lines_of text) f.line)) }
    ensures stop { IfErr result (λ f. f.kind ≡ Kind.ReadFault → StopsIn (R.remaining reader.old) (R.remaining reader.new) f.line) }
    ensures cause { IfErr result (λ f. f.kind ≡ Kind.ReadFault → R.failed reader.new ≡ true) }
{
    // For the proof: its bound.
    let _most = reader.left();
    match assemble_part(alloc, reader, false) {
        Ok((schedule, _)) => {
            // For the proof: the invariant of every schedule.
            let _clients = schedule.clients();
            Ok(schedule)
        }
        Err(fault) => Err(fault),
    }
}

/// The schedule that the lines of a reader as far as the first line `%%` spell, and how many lines were taken, that
/// line among them. The lines behind it stay with the reader.
pub fn assemble_until_mark<R: Source>(
    alloc: Global,
    reader: &mut R,
) -> Result<(Schedule, u64), AsmFault>
    ensures ok { IfOk result (λ p. IfSome (R.remaining reader.old) (λ text. outcome_of_lines (lines_before true (lines_of text)) ≡ Ok p.0)) }
    ensures part { IfOk result (λ p. TakesPart true (R.remaining reader.old) (R.remaining reader.new) p.1) }
    ensures err { IfErr result (λ f. f.kind ≢ Kind.Memory → f.kind ≢ Kind.ReadFault → IfSome (R.remaining reader.old) (λ text. outcome_of_lines (lines_before true (lines_of text)) ≡ Err f)) }
    ensures faultless { IfErr result (λ f. IfSome (R.remaining reader.old) (λ text. IsFaultlessBefore (lines_before true (lines_of text)) f.line)) }
    // Out of memory names a line that has no fault but one of its JSON text, or one that was not read to its end.
    ensures memory { IfErr result (λ f. f.kind ≡ Kind.Memory → IfSome (R.remaining reader.old) (λ text. OutOfMemoryIn (lines_before true (lines_of text)) f.line) ⊎ StopsIn (R.remaining reader.old) (R.remaining reader.new) f.line) }
    ensures stop { IfErr result (λ f. f.kind ≡ Kind.ReadFault → StopsIn (R.remaining reader.old) (R.remaining reader.new) f.line) }
    ensures cause { IfErr result (λ f. f.kind ≡ Kind.ReadFault → R.failed reader.new ≡ true) }
{
    assemble_part(alloc, reader, true)
}

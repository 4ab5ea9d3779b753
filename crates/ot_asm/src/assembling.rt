//! From a text to a schedule.

ghost use Rattle.std.specs.Prelude.{◌≡◌, ◌≢◌, ◌⊎◌, ◌∷◌, ◌+◌, ◌<◌, ℕ, Ok, Err, IfOk, IfErr, length};
ghost use Rattle.streams.specs.Lines.{lines_of};
ghost use Rattle.ot_isa.specs.Program.{IsProgram, Program};
ghost use Rattle.ot_asm.specs.Stepping.{ended, outcome, IsFaultlessBefore, OutOfMemoryIn};
ghost use Rattle.ot_asm.specs.Spelling.{Spells};

use crate::body::Body;
use crate::fault::{AsmFault, Kind};
use crate::stepping::numbered_step;
use ot_isa::Schedule;
use std::alloc::Global;
use streams::split_line;

/// The first line of a text, and what is below it.
fn first_line(text: &[u8]) -> (&[u8], &[u8])
    requires { 0 < length text.now }
    ensures lines { lines_of text.now ≡ result.0.now ∷ lines_of result.1.now }
    ensures shorter { length result.1.now < length text.now }
{
    match split_line(text) {
        Some(parts) => parts,
        None => text.split_at(text.len()),
    }
}

/// The schedule at the end of lines, where the next line would have this number.
pub fn finished(body: Option<Body>, line: u64) -> Result<Schedule, AsmFault>
    ensures ok { IfOk result (λ s. (lines : ℕ) → lines + 1 ≡ line → ended lines (Ok body) ≡ Ok s) }
    ensures limits { IfOk result (λ s. IsProgram s) }
    ensures err { IfErr result (λ f. (lines : ℕ) → lines + 1 ≡ line → ended lines (Ok body) ≡ Err f) }
    ensures line { IfErr result (λ f. (f.line ≡ line) × (f.kind ≡ Kind.NoClients)) }
{
    match body {
        Some(body) => {
            let schedule = body.finish();
            // For the proof: the invariant of every schedule.
            let _clients = schedule.clients();
            Ok(schedule)
        }
        None => Err(AsmFault {
            line,
            kind: Kind::NoClients,
        }),
    }
}

/// The schedule that the bytes of a text spell, or the fault of its first faulty line, as [`assemble`] says it.
pub fn assemble_bytes(alloc: Global, text: &[u8]) -> Result<Schedule, AsmFault>
    ensures ok { IfOk result (λ s. outcome text.now ≡ Ok s) }
    ensures limits { IfOk result (λ s. IsProgram s) }
    ensures err { IfErr result (λ f. (f.kind ≡ Kind.Memory) ⊎ (outcome text.now ≡ Err f)) }
    ensures faultless { IfErr result (λ f. IsFaultlessBefore (lines_of text.now) f.line) }
    ensures memory { IfErr result (λ f. f.kind ≡ Kind.Memory → OutOfMemoryIn (lines_of text.now) f.line) }
    ensures other { IfErr result (λ f. f.kind ≢ Kind.ReadFault) }
{
    let mut body: Option<Body> = None;
    let mut rest = text;
    let mut line = 1;
    while !rest.is_empty() {
        let (first, below) = first_line(rest);
        match numbered_step(alloc, &mut body, first, line) {
            Ok(()) => {}
            Err(fault) => return Err(fault),
        }
        rest = below;
        line += 1;
    }
    finished(body, line)
}

/// The schedule that a text spells, or the fault of its first faulty line. `Memory` names the line for which a growth was refused: no
/// line before it has a fault, nor has it one itself, except perhaps in its JSON text.
pub fn assemble(alloc: Global, text: &str) -> Result<Schedule, AsmFault>
    ensures ok { IfOk result (λ s. outcome text.now ≡ Ok s) }
    ensures spells { IfOk result (λ s. Spells text.now s) }
    // The schedule that the text spells is what is given, unless memory runs out.
    ensures only { (p : Program) → Spells text.now p → IfOk result (λ s. s ≡ p) × IfErr result (λ f. f.kind ≡ Kind.Memory) }
    ensures err { IfErr result (λ f. (f.kind ≡ Kind.Memory) ⊎ (outcome text.now ≡ Err f)) }
    ensures faultless { IfErr result (λ f. IsFaultlessBefore (lines_of text.now) f.line) }
    ensures memory { IfErr result (λ f. f.kind ≡ Kind.Memory → OutOfMemoryIn (lines_of text.now) f.line) }
{
    assemble_bytes(alloc, text.as_bytes())
}

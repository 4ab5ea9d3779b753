//! A comparison over the lines of a reader.

ghost use Rattle.std.specs.Prelude.{◌≡◌, ◌∷◌, [], ℕ, false, IfErr, IfOk, IfSome, List, None, OnOk};
ghost use Rattle.streams.specs.Lines.{lines_of};
ghost use Rattle.ot_conform.specs.Compared.{IsCaused, IsVerdictOf, Leads, NamesKeys, StopsBehind};
ghost use Rattle.ot_asm.specs.Words.{trimmed};
ghost use Rattle.ot_conform.specs.Ports.{Nothing, counted_lines, is_empty, port_line};
ghost use Rattle.ot_conform.specs.Standing.{IsStanding, IsVerdict, rest};
ghost use Rattle.ot_conform.specs.Unknown.{all_named, with_unknown_bytes};

use crate::comparison::{Comparison, Verdict};
use crate::unknown::UnknownKey;
use ot_asm::trimmed;
use ot_isa::Schedule;
use std::alloc::{AllocError, Global};
use streams::{LineFault, Source};

/// Why a comparison stopped before anything was decided.
#[derive(Clone, Copy, Debug, PartialEq, Eq)]
pub enum CompareStop {
    /// A read failed, or 2^50 bytes were read, in the line of this number, counted from 1.
    ReadFault(u64),
    /// No memory was found for the line of this number, or for what is due there.
    Memory(u64),
}

/// What comes of comparing a port's lines.
#[derive(Drop)]
pub struct Compared {
    pub verdict: Verdict,
    /// The keys of the lines up to where that is decided which no line of `steps` has; the first sixteen of them.
    pub unknown: Vec<UnknownKey>,
}

// Compares the line of this number, and names its unknown keys; an empty one is passed over.
fn take_bytes(
    alloc: Global,
    schedule: &Schedule,
    comparison: &mut Comparison,
    line: &[u8],
    number: u64,
    keys: &mut Vec<UnknownKey>,
) -> Result<Option<Verdict>, AllocError>
    requires { IsStanding schedule.now comparison.old }
    ensures goes { IfOk result (λ v. v ≡ None → Leads schedule.now comparison.old (counted_lines (line.now ∷ [])) comparison.new) }
    ensures decided { IfOk result (λ v. IfSome v (λ verdict. (is_empty (trimmed line.now) ≡ false) × ((lines : List (List ℕ)) → IsVerdict comparison.old (port_line (trimmed line.now)) (rest schedule.now comparison.old (counted_lines (line.now ∷ lines))) verdict))) }
    ensures noted { OnOk result (all_named keys.new.items ≡ with_unknown_bytes number line.now (all_named keys.old.items)) }
{
    let text = trimmed(line);
    if text.is_empty() {
        return Ok(None);
    }
    comparison.take_bytes(alloc, schedule, text, number, keys)
}

// What comes of it where no line is left; this would be the next line's number.
fn finish(
    alloc: Global,
    schedule: &Schedule,
    comparison: &mut Comparison,
    number: u64,
) -> Result<Verdict, CompareStop>
    requires { IsStanding schedule.now comparison.old }
    ensures ok { IfOk result (λ verdict. IsVerdict comparison.old Nothing (rest schedule.now comparison.old []) verdict) }
    ensures err { IfErr result (λ stop. stop ≡ CompareStop.Memory number) }
{
    match comparison.finish(alloc, schedule) {
        Ok(verdict) => Ok(verdict),
        Err(_) => Err(CompareStop::Memory(number)),
    }
}

/// Compares the lines that the reader has left with the schedule's run, as they come, and says what comes of it: what stands
/// behind the first difference is not read. The keys of these lines that no line of `steps` has are named. Where it is `sparse`, instructions without a line are passed over. `earlier` lines stand before these; the number of a line where the comparison stops counts
/// them too. `ReadFault` is said only where the reader has failed, as it says itself.
pub fn compare_lines<R: Source>(
    alloc: Global,
    schedule: &Schedule,
    sparse: bool,
    reader: &mut R,
    earlier: u64,
) -> Result<Compared, CompareStop>
    ensures ok { IfOk result (λ c. IfSome (R.remaining reader.old) (λ text. IsVerdictOf sparse schedule.now (counted_lines (lines_of text)) c.verdict)) }
    ensures unknown { IfOk result (λ c. IfSome (R.remaining reader.old) (λ text. NamesKeys sparse schedule.now earlier (lines_of text) c.verdict (all_named c.unknown.items))) }
    ensures err { IfErr result (λ stop. IfSome (R.remaining reader.old) (λ text. StopsBehind sparse schedule.now stop earlier (lines_of text))) }
    ensures cause { IfErr result (λ stop. IsCaused stop (R.failed reader.new)) }
{
    let Ok(mut comparison) = Comparison::new(alloc, schedule, sparse) else {
        return Err(CompareStop::Memory(earlier.saturating_add(1)));
    };
    // For the proof: its bound.
    let _most = reader.left();
    let mut line = Vec::new(alloc);
    let mut unknown = Vec::new(alloc);
    let mut taken = 0u64;
    'taking: loop {
        let number = earlier.saturating_add(taken + 1);
        match reader.next_line(&mut line) {
            Ok(true) => {}
            Ok(false) => {
                let verdict = finish(alloc, schedule, &mut comparison, number)?;
                return Ok(Compared { verdict, unknown });
            }
            Err(LineFault::ReadFault) => return Err(CompareStop::ReadFault(number)),
            Err(LineFault::Memory) => return Err(CompareStop::Memory(number)),
        }
        let bytes = line.as_slice();
        match take_bytes(
            alloc,
            schedule,
            &mut comparison,
            bytes,
            number,
            &mut unknown,
        ) {
            Ok(None) => taken += 1,
            Ok(Some(verdict)) => return Ok(Compared { verdict, unknown }),
            Err(_) => return Err(CompareStop::Memory(number)),
        }
    }
}

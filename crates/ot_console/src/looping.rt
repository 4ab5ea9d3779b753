//! The command loop of a debugger, line by line.

ghost use Rattle.std.specs.Prelude.{◌≡◌, true, IfErr, IfOk, OnErr, OnOk};
ghost use Rattle.std.specs.Io.KnownBytes.{IsAtEnd};
ghost use Rattle.ot_console.specs.Looping.{IsCaused, LoopsToEnd, LoopsPart, WritesPartOfTurn, WritesTurn};

use crate::turns::respond;
use ot_debug::Stepper;
use std::alloc::Global;
use streams::{LineFault, Sink, Source, WriteFault};

/// Why a command loop stopped before the end of its lines.
#[derive(Clone, Copy, Debug, PartialEq, Eq)]
pub enum LoopStop {
    /// A read failed, or 2^50 bytes were read, in the line of this number, counted from 1.
    ReadFault(u64),
    /// No memory was found for the line of this number.
    Memory(u64),
    /// A write failed, or took no byte.
    WriteFault,
}

// Answers one line and writes what it is answered with. Says whether that is a fault.
fn answer<W: Sink>(
    alloc: Global,
    debugger: &mut Stepper,
    line: &[u8],
    writer: &mut W,
) -> Result<bool, WriteFault>
    ensures ok { IfOk result (λ faulted. WritesTurn debugger.old line.now debugger.new faulted (W.contents writer.old) (W.contents writer.new)) }
    ensures err { OnErr result (WritesPartOfTurn debugger.old line.now debugger.new (W.contents writer.old) (W.contents writer.new)) }
    ensures cause { OnErr result (W.failed writer.new ≡ true) }
{
    let response = respond(alloc, debugger, line);
    match writer.put(response.text.as_bytes()) {
        Ok(()) => Ok(response.faulted),
        Err(fault) => Err(fault),
    }
}

/// Answers each line that the reader has left, before the next one is read, and says whether a fault was
/// among the replies: `bad command`, a refused instruction or `no memory`.
///
/// `earlier` lines stand before these; the number of a line where the loop stops counts them too, and is at most
/// `u64::MAX`. The lines before that one were answered, and what they were answered with is written. Where writing
/// failed, a first part is written of what the lines, the last one that was taken included, were answered with. In each
/// case the debugger is as the answered lines leave it. `ReadFault` and `WriteFault` are said only where reader and writer say themselves that they have failed.
pub fn command_loop<R: Source, W: Sink>(
    alloc: Global,
    debugger: &mut Stepper,
    reader: &mut R,
    writer: &mut W,
    earlier: u64,
) -> Result<bool, LoopStop>
    ensures ok { IfOk result (λ faulted. LoopsToEnd debugger.old debugger.new faulted (R.remaining reader.old) (W.contents writer.old) (W.contents writer.new)) }
    ensures end { OnOk result (IsAtEnd (R.remaining reader.new)) }
    ensures err { IfErr result (λ stop. LoopsPart stop earlier debugger.old debugger.new (R.remaining reader.old) (R.remaining reader.new) (W.contents writer.old) (W.contents writer.new)) }
    ensures cause { IfErr result (λ stop. IsCaused stop (R.failed reader.new) (W.failed writer.new)) }
{
    // For the proof: its bound.
    let _most = reader.left();
    let mut line = Vec::new(alloc);
    let mut taken = 0u64;
    let mut faulted = false;
    loop {
        match reader.next_line(&mut line) {
            Ok(true) => taken += 1,
            Ok(false) => return Ok(faulted),
            Err(LineFault::ReadFault) => {
                return Err(LoopStop::ReadFault(earlier.saturating_add(taken + 1)));
            }
            Err(LineFault::Memory) => {
                return Err(LoopStop::Memory(earlier.saturating_add(taken + 1)));
            }
        }
        match answer(alloc, debugger, line.as_slice(), writer) {
            Ok(fault) => faulted |= fault,
            Err(_) => return Err(LoopStop::WriteFault),
        }
    }
}

//! From a schedule to a writer.

ghost use Rattle.std.specs.Prelude.{◌≡◌, true, IfErr, OnOk, OnErr};
ghost use Rattle.std.specs.Io.KnownBytes.{Appends};
ghost use Rattle.streams.specs.Streams.{WritesPart};
ghost use Rattle.ot_asm.specs.Canonical.{canonical};
ghost use Rattle.ot_asm.specs.declared.writing.WriteStop.TheVariants.{WriteFault};

use crate::disassembling::disassemble;
use ot_isa::Schedule;
use std::alloc::Global;
use streams::Sink;
use thiserror::Error;

/// Why a text was not written whole.
#[derive(Clone, Copy, Debug, PartialEq, Eq, Error)]
pub enum WriteStop {
    /// A write failed, or took no byte.
    #[error("a write failed")]
    WriteFault,
    /// No memory was found for the text.
    #[error("no memory")]
    Memory,
}

/// Writes the canonical text of a schedule. After a fault the writer has got a first part of it; `WriteFault` is said only where a write has
/// failed, as the writer says itself.
pub fn disassemble_to<W: Sink>(
    alloc: Global,
    schedule: &Schedule,
    writer: &mut W,
) -> Result<(), WriteStop>
    ensures ok { OnOk result (Appends (W.contents writer.old) (W.contents writer.new) (canonical schedule.now)) }
    ensures err { OnErr result (WritesPart (W.contents writer.old) (W.contents writer.new) (canonical schedule.now)) }
    ensures cause { IfErr result (λ stop. stop ≡ WriteFault → W.failed writer.new ≡ true) }
{
    match disassemble(alloc, schedule) {
        Ok(text) => match writer.put(text.as_bytes()) {
            Ok(()) => Ok(()),
            Err(_) => Err(WriteStop::WriteFault),
        },
        Err(_) => Err(WriteStop::Memory),
    }
}

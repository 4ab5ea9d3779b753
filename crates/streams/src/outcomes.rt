//! What a subcommand leaves: on the output, on the faults, and its status.
//!
//! ```text
//!    the whole output, no fault    Gives right text    its own status; 1 only where a write failed, with a first part of the text
//!    a refused input               Refuses line        1, nothing on the output, the fault's line
//!    the same, if it has a place   MayRefuse line      1, nothing on the output, the fault's line or, if memory for it ran out, the line below
//!    out of memory                 OutOfMemory         1, nothing on the output, `otbench: Memory`
//!    an input that was not read    GivesUp unread      1, nothing on the output, `otbench: ReadFault` only where it has failed, or the line above
//! ```
//!
//! A line on the faults is there; only where a write to the faults has failed, it may be a first part of the line. That a write to the output
//! or the faults, or a read of the input, has failed is what these, each a `Sink` or a `Source`, say of themselves.
//! The definitions stand in `specs/Outcomes.antt`; a subcommand's contract puts together what they say.

ghost use Rattle.std.specs.Prelude.{◌≡◌, true};
ghost use Rattle.streams.specs.Streams.{Writes};
ghost use Rattle.streams.specs.Outcomes.{Puts, input_fault, memory_fault};

use crate::{InputFault, Sink};

/// Writes the whole output and answers its status; 1 where writing failed.
pub fn give<O: Sink>(text: &[u8], right: u8, output: &mut O) -> u8
    ensures { Puts right text.now result (O.contents output.old) (O.contents output.new) (O.failed output.new) }
{
    match output.put(text) {
        Ok(()) => right,
        Err(_) => 1,
    }
}

/// Writes a line on the faults, as far as that can be done.
pub fn complain<F: Sink>(faults: &mut F, line: &str)
    ensures line { Writes (F.contents faults.old) (F.contents faults.new) (F.failed faults.new) line.now }
    ensures failed { F.failed faults.old ≡ true → F.failed faults.new ≡ true }
{
    let _ = faults.put(line.as_bytes());
}

/// Writes that memory ran out.
pub fn complain_of_memory<F: Sink>(faults: &mut F)
    ensures line { Writes (F.contents faults.old) (F.contents faults.new) (F.failed faults.new) memory_fault }
    ensures failed { F.failed faults.old ≡ true → F.failed faults.new ≡ true }
{
    complain(faults, "otbench: Memory\n");
}

/// Writes why an input was not read whole.
pub fn complain_of_input<F: Sink>(fault: InputFault, faults: &mut F)
    ensures line { Writes (F.contents faults.old) (F.contents faults.new) (F.failed faults.new) (input_fault fault) }
    ensures failed { F.failed faults.old ≡ true → F.failed faults.new ≡ true }
{
    match fault {
        InputFault::Read => complain(faults, "otbench: ReadFault\n"),
        InputFault::Memory => complain_of_memory(faults),
    }
}

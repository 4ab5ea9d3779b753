//! `generate`: a session made at random.

ghost use Rattle.ot_commands.specs.Generated.{Generates};

use crate::converting::give_text;
use ot_generate::{Shape, generate};
use std::alloc::Global;
use streams::{Sink, complain_of_memory};

/// Writes the canonical text of the session of this seed.
pub fn generate_session<O: Sink, F: Sink>(
    alloc: Global,
    seed: u32,
    shape: &Shape,
    output: &mut O,
    faults: &mut F,
) -> u8
    ensures { Generates shape.now result (record { output = O.contents output.old; output' = O.contents output.new; broken = O.failed output.new; faults = F.contents faults.old; faults' = F.contents faults.new; faults_broken = F.failed faults.new }) }
{
    match generate(alloc, seed as u64, shape) {
        Ok(schedule) => {
            // For the proof: the invariant of every schedule.
            let _limits = schedule.clients();
            give_text(alloc, &schedule, output, faults)
        }
        Err(_) => {
            complain_of_memory(faults);
            1
        }
    }
}

//! `asm` and `dis`: between a schedule's text and its image.

ghost use Rattle.std.specs.Prelude.{IfSome};
ghost use Rattle.ot_commands.specs.Inputs.{OfImage, OfText};
ghost use Rattle.ot_commands.specs.Converted.{MayGiveImage, MayGiveText};

use crate::faults::{complain_of_byte, complain_of_line};
use ot_asm::{assemble_from, disassemble};
use ot_image::{encode, load};
use ot_isa::Schedule;
use std::alloc::Global;
use streams::{Sink, Source, complain_of_input, complain_of_memory, give};

// Writes the image of a schedule.
fn give_image<O: Sink, F: Sink>(
    alloc: Global,
    schedule: &Schedule,
    output: &mut O,
    faults: &mut F,
) -> u8
    ensures { MayGiveImage schedule.now result (record { output = O.contents output.old; output' = O.contents output.new; broken = O.failed output.new; faults = F.contents faults.old; faults' = F.contents faults.new; faults_broken = F.failed faults.new }) }
{
    let Ok(image) = encode(alloc, schedule) else {
        complain_of_memory(faults);
        return 1;
    };
    give(image.as_slice(), 0, output)
}

/// Writes the canonical text of a schedule.
pub fn give_text<O: Sink, F: Sink>(
    alloc: Global,
    schedule: &Schedule,
    output: &mut O,
    faults: &mut F,
) -> u8
    ensures { MayGiveText schedule.now result (record { output = O.contents output.old; output' = O.contents output.new; broken = O.failed output.new; faults = F.contents faults.old; faults' = F.contents faults.new; faults_broken = F.failed faults.new }) }
{
    let Ok(text) = disassemble(alloc, schedule) else {
        complain_of_memory(faults);
        return 1;
    };
    give(text.as_bytes(), 0, output)
}

/// Writes the image of the schedule whose text is the input.
pub fn assemble<I: Source, O: Sink, F: Sink>(
    alloc: Global,
    input: &mut I,
    output: &mut O,
    faults: &mut F,
) -> u8
    ensures { IfSome (I.remaining input.old) (λ text. OfText MayGiveImage (I.failed input.new) text result (record { output = O.contents output.old; output' = O.contents output.new; broken = O.failed output.new; faults = F.contents faults.old; faults' = F.contents faults.new; faults_broken = F.failed faults.new })) }
{
    match assemble_from(alloc, input) {
        Ok(schedule) => give_image(alloc, &schedule, output, faults),
        Err(fault) => {
            complain_of_line(alloc, fault, faults);
            1
        }
    }
}

/// Writes the canonical text of the schedule whose image is the input.
pub fn disassemble_image<I: Source, O: Sink, F: Sink>(
    alloc: Global,
    input: &mut I,
    output: &mut O,
    faults: &mut F,
) -> u8
    ensures { IfSome (I.remaining input.old) (λ bytes. OfImage MayGiveText (I.failed input.new) bytes result (record { output = O.contents output.old; output' = O.contents output.new; broken = O.failed output.new; faults = F.contents faults.old; faults' = F.contents faults.new; faults_broken = F.failed faults.new })) }
{
    match input.read_whole(alloc) {
        Ok(bytes) => match load(alloc, bytes.as_slice()) {
            Ok(schedule) => give_text(alloc, &schedule, output, faults),
            Err(fault) => {
                complain_of_byte(alloc, fault, faults);
                1
            }
        },
        Err(fault) => {
            complain_of_input(fault, faults);
            1
        }
    }
}

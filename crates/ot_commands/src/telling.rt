//! `explain`: the run of a schedule in words, of its text or of its image.
//!
//! ```text
//!    text ── ot_asm ──▶ Schedule ── ot_explain ──▶ paragraphs on the output, written while the run goes
//!     ▲ └── refused: the fault's line on the faults, and behind it the words of `ot_faults`; nothing on the output
//!     └── ot_asm, the canonical text
//!    image ── ot_image ──▶ Schedule
//!       └── refused: the fault's line on the faults, and behind it the words of `ot_image`
//! ```
//!
//! The text is read whole, since an instruction is shown with its line, and a fault with its column; comments anywhere in it name clients
//! (`ot_asm`).

ghost use Rattle.std.specs.Prelude.{◌≡◌, true, IfSome, option_map};
ghost use Rattle.streams.specs.Outcomes.{Complains};
ghost use Rattle.ot_image.specs.Words.{refusal_text};
ghost use Rattle.streams.specs.Lines.{lines_of};
ghost use Rattle.ot_faults.specs.Faults.{fault_value};
ghost use Rattle.ot_faults.specs.Words.{fault_words};
ghost use Rattle.ot_commands.specs.Explains.{Explains, ExplainsText, MayExplain, Tells};
ghost use Rattle.ot_commands.specs.ExplainsImages.{ExplainsBytes, ExplainsCanonical, ExplainsImage, TellsImage, image_words};

use crate::faults::{complain_of_byte, complain_of_line};
use ot_asm::{AsmFault, Comments, assemble_bytes, comments_of, disassemble};
use ot_explain::{explain, places};
use ot_faults::{LineFault, fault_words, line_fault};
use ot_image::{ImageFault, Kind, Refusal, first_refusal, load, refusal_text};
use ot_isa::Schedule;
use std::alloc::Global;
use streams::{OutputFault, Sink, Source, complain, complain_of_input, complain_of_memory};

// Writes the schedule's run in words; its instructions stand at these lines, and the comments of its text tell this.
fn write_words<O: Sink, F: Sink>(
    alloc: Global,
    lines: &[u64],
    comments: &Comments,
    schedule: &Schedule,
    output: &mut O,
    faults: &mut F,
) -> u8
    ensures { MayExplain lines.now comments.now schedule.now result (record { output = O.contents output.old; output' = O.contents output.new; broken = O.failed output.new; faults = F.contents faults.old; faults' = F.contents faults.new; faults_broken = F.failed faults.new }) }
{
    match explain(alloc, schedule, lines, comments, output) {
        Ok(true) => 1,
        Ok(false) => 0,
        Err(OutputFault::WriteFault) => 1,
        Err(OutputFault::Memory) => {
            complain_of_memory(faults);
            1
        }
    }
}

// Writes where the fault of a text stands, what stands there and what is wanted.
fn complain_of_words<F: Sink>(alloc: Global, fault: &LineFault, faults: &mut F)
    ensures line { Complains (fault_words (fault_value fault.now)) (F.contents faults.old) (F.contents faults.new) (F.failed faults.new) }
    ensures failed { F.failed faults.old ≡ true → F.failed faults.new ≡ true }
{
    match fault_words(alloc, fault) {
        Ok(words) => complain(faults, words.as_str()),
        Err(_) => complain_of_memory(faults),
    }
}

// Writes the fault of a text, and where it stands.
fn complain_of_text<F: Sink>(alloc: Global, text: &[u8], fault: AsmFault, faults: &mut F)
    ensures { Tells (lines_of text.now) fault (F.contents faults.old) (F.contents faults.new) (F.failed faults.new) }
{
    complain_of_line(alloc, fault, faults);
    match line_fault(alloc, text, fault) {
        Ok(Some(found)) => complain_of_words(alloc, &found, faults),
        Ok(None) => {}
        Err(_) => complain_of_memory(faults),
    }
}

// Explains a text.
fn explain_text<O: Sink, F: Sink>(alloc: Global, text: &[u8], output: &mut O, faults: &mut F) -> u8
    ensures { ExplainsText text.now result (record { output = O.contents output.old; output' = O.contents output.new; broken = O.failed output.new; faults = F.contents faults.old; faults' = F.contents faults.new; faults_broken = F.failed faults.new }) }
{
    match assemble_bytes(alloc, text) {
        Ok(schedule) => {
            let Ok(lines) = places(alloc, text) else {
                complain_of_memory(faults);
                return 1;
            };
            let Ok(comments) = comments_of(alloc, text) else {
                complain_of_memory(faults);
                return 1;
            };
            write_words(
                alloc,
                lines.as_slice(),
                &comments,
                &schedule,
                output,
                faults,
            )
        }
        Err(fault) => {
            complain_of_text(alloc, text, fault, faults);
            1
        }
    }
}

/// Writes the run of the schedule whose text is the input in words, and answers the status: 0 where all instructions were performed; 1
/// where one was not, for a refused text (on the faults its fault's line, and where it stands, what stands there and what is wanted; nothing on the output), and for a fault of
/// reading, writing or memory. The text is read whole, at most 2^30 bytes.
pub fn run_explain<I: Source, O: Sink, F: Sink>(
    alloc: Global,
    input: &mut I,
    output: &mut O,
    faults: &mut F,
) -> u8
    ensures { IfSome (I.remaining input.old) (λ text. Explains (I.failed input.new) text result (record { output = O.contents output.old; output' = O.contents output.new; broken = O.failed output.new; faults = F.contents faults.old; faults' = F.contents faults.new; faults_broken = F.failed faults.new })) }
{
    match input.read_whole(alloc) {
        Ok(text) => explain_text(alloc, text.as_slice(), output, faults),
        Err(fault) => {
            complain_of_input(fault, faults);
            1
        }
    }
}

// The field of this fault of the bytes; memory that ran out has none.
fn refusal_for(bytes: &[u8], fault: ImageFault) -> Option<Refusal>
    ensures { option_map (refusal_text bytes.now) result ≡ image_words bytes.now fault }
{
    match fault.kind {
        Kind::Memory => None,
        _ => first_refusal(bytes),
    }
}

// Writes the words for a field that is refused.
fn complain_of_refusal<F: Sink>(alloc: Global, bytes: &[u8], refusal: &Refusal, faults: &mut F)
    ensures line { Complains (refusal_text bytes.now refusal.now) (F.contents faults.old) (F.contents faults.new) (F.failed faults.new) }
    ensures failed { F.failed faults.old ≡ true → F.failed faults.new ≡ true }
{
    match refusal_text(alloc, bytes, refusal) {
        Ok(words) => complain(faults, words.as_str()),
        Err(_) => complain_of_memory(faults),
    }
}

// Writes the fault of an image, and below it the words for the field.
fn complain_of_image<F: Sink>(alloc: Global, bytes: &[u8], fault: ImageFault, faults: &mut F)
    ensures { TellsImage bytes.now fault (F.contents faults.old) (F.contents faults.new) (F.failed faults.new) }
{
    complain_of_byte(alloc, fault, faults);
    match refusal_for(bytes, fault) {
        Some(refusal) => complain_of_refusal(alloc, bytes, &refusal, faults),
        None => {}
    }
}

// Explains the canonical text of a schedule.
fn explain_canonical<O: Sink, F: Sink>(
    alloc: Global,
    schedule: &Schedule,
    output: &mut O,
    faults: &mut F,
) -> u8
    ensures { ExplainsCanonical schedule.now result (record { output = O.contents output.old; output' = O.contents output.new; broken = O.failed output.new; faults = F.contents faults.old; faults' = F.contents faults.new; faults_broken = F.failed faults.new }) }
{
    let Ok(text) = disassemble(alloc, schedule) else {
        complain_of_memory(faults);
        return 1;
    };
    explain_text(alloc, text.as_bytes(), output, faults)
}

// Explains an image.
fn explain_bytes<O: Sink, F: Sink>(
    alloc: Global,
    bytes: &[u8],
    output: &mut O,
    faults: &mut F,
) -> u8
    ensures { ExplainsBytes bytes.now result (record { output = O.contents output.old; output' = O.contents output.new; broken = O.failed output.new; faults = F.contents faults.old; faults' = F.contents faults.new; faults_broken = F.failed faults.new }) }
{
    match load(alloc, bytes) {
        Ok(schedule) => explain_canonical(alloc, &schedule, output, faults),
        Err(fault) => {
            complain_of_image(alloc, bytes, fault, faults);
            1
        }
    }
}

/// Writes the run of the schedule whose image is the input in words, and answers the status, as [`run_explain`] does for its canonical text; lines
/// are those of that text. Of bytes that are no image it writes the fault's line as `dis` does, and below it a line of words: the field, what
/// stands there and what is wanted; nothing on the output, status 1. The image is read whole, at most 2^30 bytes.
pub fn run_explain_image<I: Source, O: Sink, F: Sink>(
    alloc: Global,
    input: &mut I,
    output: &mut O,
    faults: &mut F,
) -> u8
    ensures { IfSome (I.remaining input.old) (λ bytes. ExplainsImage (I.failed input.new) bytes result (record { output = O.contents output.old; output' = O.contents output.new; broken = O.failed output.new; faults = F.contents faults.old; faults' = F.contents faults.new; faults_broken = F.failed faults.new })) }
{
    match input.read_whole(alloc) {
        Ok(bytes) => explain_bytes(alloc, bytes.as_slice(), output, faults),
        Err(fault) => {
            complain_of_input(fault, faults);
            1
        }
    }
}

//! Faults of texts and images as they are printed.

ghost use Rattle.std.specs.Prelude.{◌≡◌, true, IfOk, string_bytes};
ghost use Rattle.ot_commands.specs.Faults.{AnswersFault, IsFaultJson, TellsFault, byte_fault, byte_kind, fault_json, line_fault, line_kind};
ghost use Rattle.streams.specs.Lines.{lines_of};
ghost use Rattle.streams.specs.Outcomes.{Complains};

use ot_asm::AsmFault;
use ot_faults::{fault_members, line_fault};
use ot_image::ImageFault;
use std::alloc::{AllocError, Global};
use streams::{Sink, complain, complain_of_memory, give};

/// The name of a fault of a text as it is printed.
pub(crate) fn line_name(kind: ot_asm::Kind) -> &'static str
    ensures { result.now ≡ line_kind kind }
{
    match kind {
        ot_asm::Kind::BadText => "BadText",
        ot_asm::Kind::NoClients => "NoClients",
        ot_asm::Kind::UnknownWord => "UnknownWord",
        ot_asm::Kind::BadNumber => "BadNumber",
        ot_asm::Kind::BadClient => "BadClient",
        ot_asm::Kind::BadOperation => "BadOperation",
        ot_asm::Kind::Extra => "Extra",
        ot_asm::Kind::TooLong => "TooLong",
        ot_asm::Kind::TooMany => "TooMany",
        ot_asm::Kind::Memory => "Memory",
        ot_asm::Kind::ReadFault => "ReadFault",
    }
}

fn byte_name(kind: ot_image::Kind) -> &'static str
    ensures { result.now ≡ byte_kind kind }
{
    match kind {
        ot_image::Kind::Cut => "Cut",
        ot_image::Kind::BadMagic => "BadMagic",
        ot_image::Kind::BadNumber => "BadNumber",
        ot_image::Kind::TooLong => "TooLong",
        ot_image::Kind::TooMany => "TooMany",
        ot_image::Kind::BadScalar => "BadScalar",
        ot_image::Kind::BadOpcode => "BadOpcode",
        ot_image::Kind::BadClient => "BadClient",
        ot_image::Kind::NotNormal => "NotNormal",
        ot_image::Kind::Trailing => "Trailing",
        ot_image::Kind::Memory => "Memory",
    }
}

fn line_text(alloc: Global, fault: AsmFault) -> Result<String, AllocError>
    ensures { IfOk result (λ s. string_bytes s ≡ line_fault fault) }
{
    let line = fault.line;
    let name = line_name(fault.kind);
    format!(in alloc; "otbench: line {line}: {name}\n")
}

fn byte_text(alloc: Global, fault: ImageFault) -> Result<String, AllocError>
    ensures { IfOk result (λ s. string_bytes s ≡ byte_fault fault) }
{
    let at = fault.at;
    let name = byte_name(fault.kind);
    format!(in alloc; "otbench: byte {at}: {name}\n")
}

/// Writes the fault of a text.
pub fn complain_of_line<F: Sink>(alloc: Global, fault: AsmFault, faults: &mut F)
    ensures line { Complains (line_fault fault) (F.contents faults.old) (F.contents faults.new) (F.failed faults.new) }
    ensures failed { F.failed faults.old ≡ true → F.failed faults.new ≡ true }
{
    match line_text(alloc, fault) {
        Ok(text) => complain(faults, text.as_str()),
        Err(_) => complain_of_memory(faults),
    }
}

// The members of the fault's JSON behind its name.
fn members(alloc: Global, text: &[u8], fault: AsmFault) -> Result<String, AllocError>
    ensures { IfOk result (λ s. IsFaultJson (lines_of text.now) fault (fault_json fault (string_bytes s))) }
{
    match line_fault(alloc, text, fault)? {
        Some(found) => fault_members(alloc, &found),
        None => {
            let line = fault.line;
            format!(in alloc; "\"line\":{line}")
        }
    }
}

// The fault of a text as a line of JSON.
fn fault_json(alloc: Global, text: &[u8], fault: AsmFault) -> Result<String, AllocError>
    ensures { IfOk result (λ s. IsFaultJson (lines_of text.now) fault (string_bytes s)) }
{
    let members = members(alloc, text, fault)?;
    let name = line_name(fault.kind);
    format!(in alloc; "{{\"fault\":\"{name}\",{members}}}\n")
}

/// Writes the fault of a text, and on the output as JSON where it stands, what stands there and what is wanted. Answers the status, which is 1.
pub fn answer_fault<O: Sink, F: Sink>(
    alloc: Global,
    text: &[u8],
    fault: AsmFault,
    output: &mut O,
    faults: &mut F,
) -> u8
    ensures { AnswersFault (lines_of text.now) fault result (record { output = O.contents output.old; output' = O.contents output.new; broken = O.failed output.new; faults = F.contents faults.old; faults' = F.contents faults.new; faults_broken = F.failed faults.new }) }
{
    complain_of_line(alloc, fault, faults);
    match fault_json(alloc, text, fault) {
        Ok(json) => give(json.as_bytes(), 1, output),
        Err(_) => {
            complain_of_memory(faults);
            1
        }
    }
}

/// Writes the fault of a text, with `json` as JSON on the output too. Answers the status, which is 1.
pub fn tell_fault<O: Sink, F: Sink>(
    alloc: Global,
    json: bool,
    text: &[u8],
    fault: AsmFault,
    output: &mut O,
    faults: &mut F,
) -> u8
    ensures { TellsFault json (lines_of text.now) fault result (record { output = O.contents output.old; output' = O.contents output.new; broken = O.failed output.new; faults = F.contents faults.old; faults' = F.contents faults.new; faults_broken = F.failed faults.new }) }
{
    if json {
        return answer_fault(alloc, text, fault, output, faults);
    }
    complain_of_line(alloc, fault, faults);
    1
}

/// Writes the fault of an image.
pub fn complain_of_byte<F: Sink>(alloc: Global, fault: ImageFault, faults: &mut F)
    ensures line { Complains (byte_fault fault) (F.contents faults.old) (F.contents faults.new) (F.failed faults.new) }
    ensures failed { F.failed faults.old ≡ true → F.failed faults.new ≡ true }
{
    match byte_text(alloc, fault) {
        Ok(text) => complain(faults, text.as_str()),
        Err(_) => complain_of_memory(faults),
    }
}

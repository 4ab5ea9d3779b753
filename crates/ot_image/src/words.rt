//! The line of words for the first field of bytes that is refused.

ghost use Rattle.std.specs.Prelude.{◌≡◌, ◌++◌, IfOk, OnOk, option_map, string_bytes, take};
ghost use Rattle.ot_image.specs.Words.{behind_text, byte_text, bytes_text, count_text, first_words, instr_text, next_byte_text, no_magic_text, place_text, reason_text, refusal_text, value_text, wanted_text};

use crate::refusal::{Place, Reason, Refusal, Text, Wanted};
use crate::whole::first_refusal;
use std::alloc::{AllocError, Global};

// The path to a field.
fn place_text(alloc: Global, place: Place) -> Result<String, AllocError>
    ensures { IfOk result (λ s. string_bytes s ≡ place_text place) }
{
    match place {
        Place::Magic => String::from_str(alloc, "magic"),
        Place::Clients => String::from_str(alloc, "clients"),
        Place::Present => String::from_str(alloc, "present"),
        Place::StartCount => String::from_str(alloc, "count of start characters"),
        Place::Character(Text::Start, n) => format!(in alloc; "start character {n}"),
        Place::Character(Text::Insertion(i, k), n) => {
            format!(in alloc; "instruction {i}, component {k}, character {n}")
        }
        Place::InstrCount => String::from_str(alloc, "count of instructions"),
        Place::InstrKind(i) => format!(in alloc; "instruction {i}, kind"),
        Place::Client(i) => format!(in alloc; "instruction {i}, client"),
        Place::ComponentCount(i) => format!(in alloc; "instruction {i}, count of components"),
        Place::ComponentKind(i, k) => format!(in alloc; "instruction {i}, component {k}, kind"),
        Place::ComponentLength(i, k) => {
            format!(in alloc; "instruction {i}, component {k}, length")
        }
        Place::End => String::from_str(alloc, "after the last instruction"),
    }
}

// A byte as two hexadecimal digits.
fn byte_text(alloc: Global, byte: u32) -> Result<String, AllocError>
    ensures { IfOk result (λ s. string_bytes s ≡ byte_text byte) }
{
    let high = byte / 16;
    let low = byte % 16;
    format!(in alloc; "{high:x}{low:x}")
}

// Kinds as two hexadecimal digits, characters in hexadecimal, other numbers in decimal.
fn value_text(alloc: Global, place: Place, value: u32) -> Result<String, AllocError>
    ensures { IfOk result (λ s. string_bytes s ≡ value_text place value) }
{
    match place {
        Place::InstrKind(_) | Place::ComponentKind(_, _) => {
            let byte = byte_text(alloc, value)?;
            format!(in alloc; "0x{byte}")
        }
        Place::Character(_, _) => format!(in alloc; "0x{value:x}"),
        _ => format!(in alloc; "{value}"),
    }
}

// A byte behind a blank.
fn next_byte_text(alloc: Global, byte: u8) -> Result<String, AllocError>
    ensures { IfOk result (λ s. string_bytes s ≡ next_byte_text byte) }
{
    let digits = byte_text(alloc, u32::from(byte))?;
    format!(in alloc; " {digits}")
}

// Bytes in hexadecimal, each behind a blank.
fn push_bytes(alloc: Global, row: &mut String, bytes: &[u8]) -> Result<(), AllocError>
    ensures { OnOk result (string_bytes row.new ≡ string_bytes row.old ++ bytes_text bytes.now) }
{
    for byte in bytes {
        let next = next_byte_text(alloc, *byte)?;
        row.push_str(next.as_str())?;
    }
    Ok(())
}

// The first four bytes, or fewer if there are no more.
fn first_four(bytes: &[u8]) -> &[u8]
    ensures { result.now ≡ take 4 bytes.now }
{
    &bytes[..bytes.len().min(4)]
}

// The first four bytes are no magic.
fn no_magic_text(alloc: Global, bytes: &[u8]) -> Result<String, AllocError>
    ensures { IfOk result (λ s. string_bytes s ≡ no_magic_text bytes.now) }
{
    let mut text = String::from_str(alloc, "found")?;
    push_bytes(alloc, &mut text, first_four(bytes))?;
    text.push_str("; wanted 4f 54 53 31 (OTS1) or 4f 54 53 32 (OTS2)")?;
    Ok(text)
}

fn count_text(alloc: Global, n: usize) -> Result<String, AllocError>
    ensures { IfOk result (λ s. string_bytes s ≡ count_text n) }
{
    if n == 1 {
        return String::from_str(alloc, "1 byte");
    }
    format!(in alloc; "{n} bytes")
}

// The bytes of instructions; the first version has no join.
fn instr_text(version: u8) -> &'static str
    ensures { result.now ≡ instr_text version }
{
    if version == 1 {
        "0x01 (edit), 0x02 (take), 0x03 (deliver), 0x04 (ack), 0x05 (read) or 0x06 (read-server)"
    } else {
        "0x01 (edit), 0x02 (take), 0x03 (deliver), 0x04 (ack), 0x05 (read), 0x06 (read-server) or 0x07 (join)"
    }
}

// Which component does not stand behind which.
fn behind_text(last: u8, code: u8) -> &'static str
    ensures { result.now ≡ behind_text last code }
{
    if code == 16 {
        "no retain behind a retain"
    } else if code == 18 {
        "no deletion behind a deletion"
    } else if last == 17 {
        "no insertion behind an insertion"
    } else {
        "no insertion behind a deletion"
    }
}

fn wanted_text(alloc: Global, wanted: Wanted) -> Result<String, AllocError>
    ensures { IfOk result (λ s. string_bytes s ≡ wanted_text wanted) }
{
    match wanted {
        Wanted::Positive(most) => format!(in alloc; "a number from 1 to {most}"),
        Wanted::Number(most) => format!(in alloc; "a number from 0 to {most}"),
        Wanted::Most(most) => format!(in alloc; "at most {most}"),
        Wanted::Scalar => String::from_str(alloc, "a Unicode scalar value"),
        Wanted::Instr(version) => String::from_str(alloc, instr_text(version)),
        Wanted::Component => {
            String::from_str(alloc, "0x10 (retain), 0x11 (insert) or 0x12 (delete)")
        }
        Wanted::NotBehind(last, code) => String::from_str(alloc, behind_text(last, code)),
        Wanted::NotZero => String::from_str(alloc, "not 0"),
        Wanted::WithinBase(most) => {
            format!(in alloc; "at most {most}, for a base length of at most 1000000")
        }
        Wanted::WithinTarget(most) => {
            format!(in alloc; "at most {most}, for a target length of at most 1000000")
        }
    }
}

// What stands there, and what is wanted.
fn reason_text(
    alloc: Global,
    bytes: &[u8],
    place: Place,
    reason: Reason,
) -> Result<String, AllocError>
    ensures { IfOk result (λ s. string_bytes s ≡ reason_text bytes.now place reason) }
{
    match reason {
        Reason::Cut(found, size) => {
            let size = count_text(alloc, size)?;
            format!(in alloc; "found {found} of {size}")
        }
        Reason::NoMagic => no_magic_text(alloc, bytes),
        Reason::Value(value, wanted) => {
            let found = value_text(alloc, place, value)?;
            let wanted = wanted_text(alloc, wanted)?;
            format!(in alloc; "found {found}; wanted {wanted}")
        }
        Reason::Trailing(found) => {
            let found = count_text(alloc, found)?;
            format!(in alloc; "found {found}; wanted nothing")
        }
    }
}

/// The line for a field of these bytes that is refused: two blanks, the path to the field, what stands there, what is wanted. Fails only
/// where memory runs out.
pub fn refusal_text(alloc: Global, bytes: &[u8], refusal: &Refusal) -> Result<String, AllocError>
    ensures { IfOk result (λ s. string_bytes s ≡ refusal_text bytes.now refusal.now) }
{
    let place = place_text(alloc, refusal.place)?;
    let reason = reason_text(alloc, bytes, refusal.place, refusal.reason)?;
    format!(in alloc; "  {place}: {reason}\n")
}

/// The line of words for bytes that are no image, or none where they are one. Fails only where memory runs out.
pub fn first_words(alloc: Global, bytes: &[u8]) -> Result<Option<String>, AllocError>
    ensures { IfOk result (λ words. option_map string_bytes words ≡ first_words bytes.now) }
{
    match first_refusal(bytes) {
        Some(refusal) => {
            let text = refusal_text(alloc, bytes, &refusal)?;
            Ok(Some(text))
        }
        None => Ok(None),
    }
}

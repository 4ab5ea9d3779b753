//! The first field that is refused: of instructions, the head, and the whole.

ghost use Rattle.std.specs.Prelude.{◌≡◌, ◌≤◌, if◌then◌else◌, length};
ghost use Rattle.ot_image.specs.Layout.{is_front};
ghost use Rattle.ot_image.specs.Fields.{End, after_magic, first_refusal, instruction, instructions, magic_cut, no_magic, operands, present, refusal_of, start};
ghost use Rattle.ot_image.specs.Reads.{Ends, Passes, seen};

use crate::fault::{ImageFault, Kind};
use crate::named_fields::{
    client_of, clients_of, instr_count_of, instr_kind_of, present_of, start_count_of,
};
use crate::named_operations::{characters_of, operation_of};
use crate::refusal::{Place, Reason, Refusal, Text};
use crate::spot::Spot;

// What follows the byte of an instruction; there is a client.
fn operands_of<'a>(clients: u16, instr: u32, code: u8, spot: Spot<'a>) -> Result<Spot<'a>, Refusal>
    requires { 1 ≤ clients }
    ensures { Passes (λ t. seen t) (operands clients instr code) (seen spot.entry) result }
{
    if code == 6 {
        return Ok(spot);
    }
    let after = client_of(clients, Place::Client(instr), spot)?.1;
    if code == 1 {
        return operation_of(instr, after);
    }
    Ok(after)
}

// An instruction of this version.
fn instruction_of<'a>(
    version: u8,
    clients: u16,
    instr: u32,
    spot: Spot<'a>,
) -> Result<Spot<'a>, Refusal>
    requires version { version ≤ 2 }
    requires clients { 1 ≤ clients }
    ensures { Passes (λ t. seen t) (instruction version clients instr) (seen spot.entry) result }
{
    let (code, after) = instr_kind_of(version, Place::InstrKind(instr), spot)?;
    operands_of(clients, instr, code, after)
}

// So many instructions.
fn instructions_of<'a>(
    version: u8,
    clients: u16,
    count: u32,
    spot: Spot<'a>,
) -> Result<Spot<'a>, Refusal>
    requires version { version ≤ 2 }
    requires clients { 1 ≤ clients }
    ensures { Passes (λ t. seen t) (instructions version clients 0 count) (seen spot.entry) result }
{
    let mut rest = spot;
    for instr in 0..count {
        rest = instruction_of(version, clients, instr, rest)?;
    }
    Ok(rest)
}

// How many clients are present, which the first version does not say.
fn present_if<'a>(version: u8, clients: u16, spot: Spot<'a>) -> Result<Spot<'a>, Refusal>
    ensures { Passes (λ t. seen t) (present version clients) (seen spot.entry) result }
{
    if version == 1 {
        return Ok(spot);
    }
    let after = present_of(clients, spot)?.1;
    Ok(after)
}

// The start text.
fn start_of<'a>(spot: Spot<'a>) -> Result<Spot<'a>, Refusal>
    ensures { Passes (λ t. seen t) start (seen spot.entry) result }
{
    let (count, after) = start_count_of(spot)?;
    characters_of(Text::Start, count, after)
}

// The end, behind which nothing follows.
fn end_of(spot: Spot<'_>) -> Result<(), Refusal>
    ensures { Ends End (seen spot.entry) result }
{
    if spot.rest.is_empty() {
        return Ok(());
    }
    Err(Refusal {
        fault: ImageFault {
            at: spot.at,
            kind: Kind::Trailing,
        },
        place: Place::End,
        reason: Reason::Trailing(spot.rest.len()),
    })
}

// All that follows the magic of this version.
fn after_magic_of(version: u8, spot: Spot<'_>) -> Result<(), Refusal>
    requires { version ≤ 2 }
    ensures { Ends (after_magic version) (seen spot.entry) result }
{
    let (clients, present) = clients_of(spot)?;
    let start = present_if(version, clients, present)?;
    let instrs = start_of(start)?;
    let (count, first) = instr_count_of(instrs)?;
    let end = instructions_of(version, clients, count, first)?;
    end_of(end)
}

// The refusal of bytes that begin with the magic of this version.
fn after_front(version: u8, rest: &[u8]) -> Option<Refusal>
    requires version { version ≤ 2 }
    ensures { result ≡ first_refusal (after_magic version) (record { at = 4; rest = rest.now }) }
{
    match after_magic_of(version, Spot { at: 4, rest }) {
        Ok(()) => None,
        Err(refusal) => Some(refusal),
    }
}

// The refusal of bytes that do not begin with a magic.
fn magic_refusal(bytes: &[u8]) -> Refusal
    ensures { result ≡ (if is_front bytes.now then magic_cut (length bytes.now) else no_magic) }
{
    let len = bytes.len();
    if len < 4 && (bytes == &b"OTS1"[..len] || bytes == &b"OTS2"[..len]) {
        return Refusal {
            fault: ImageFault {
                at: len,
                kind: Kind::Cut,
            },
            place: Place::Magic,
            reason: Reason::Cut(len, 4),
        };
    }
    Refusal {
        fault: ImageFault {
            at: 0,
            kind: Kind::BadMagic,
        },
        place: Place::Magic,
        reason: Reason::NoMagic,
    }
}

/// The first field of the bytes from the left that is cut or whose value is not allowed, or none where they are an image. Its fault is the one
/// that `load` gives. The time is linear in the bytes; no memory is taken.
#[tactic(auto, unfolding(crate::specs::Fields::refusal_of))]
pub fn first_refusal(bytes: &[u8]) -> Option<Refusal>
    ensures { result ≡ refusal_of bytes.now }
{
    if bytes.len() < 4 {
        return Some(magic_refusal(bytes));
    }
    let magic1 = b"OTS1";
    let magic2 = b"OTS2";
    let (front, rest) = bytes.split_at(4);
    if front == magic1.as_slice() {
        return after_front(1, rest);
    }
    if front == magic2.as_slice() {
        return after_front(2, rest);
    }
    Some(magic_refusal(bytes))
}

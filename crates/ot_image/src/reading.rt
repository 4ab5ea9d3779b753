//! Fields that take no memory: each reader gives its value and the place after it, or the field's fault.

ghost use Rattle.std.specs.Prelude.{◌≡◌, ◌<◌, ◌≤◌, ◌+◌, ◌⊎◌, IfOk, length};
ghost use Rattle.std.specs.Int.{w8, w16, w32};
ghost use Rattle.ot_operation.specs.Operation.{Operation};
ghost use Rattle.ot_image.specs.Reading.{IsRead, number_at, version_at, clients_at, present_at, start_count_at, scalar_at, code_at, length_at, opcode_at, client_at, instr_count_at};
ghost use Rattle.ot_image.specs.Views.{seen};

use crate::fault::{ImageFault, Kind};
use crate::spot::Spot;
use ot_isa::{CLIENT_LIMIT, INSTR_LIMIT, START_LIMIT};
use ot_text::{LIMIT, TextOp};

/// A fault at the spot.
pub fn bad(spot: Spot<'_>, kind: Kind) -> ImageFault
    ensures { result ≡ (record { at = spot.entry.at; kind = kind }) }
{
    ImageFault { at: spot.at, kind }
}

/// The end of the bytes as a fault.
fn cut_off(spot: Spot<'_>) -> ImageFault
    ensures { result ≡ (record { at = spot.entry.at + length spot.entry.rest.now; kind = Kind.Cut }) }
{
    ImageFault {
        at: spot.at + spot.rest.len(),
        kind: Kind::Cut,
    }
}

fn u8_at<'a>(spot: Spot<'a>) -> Result<(u8, Spot<'a>), ImageFault>
    ensures { IsRead (λ x. (x.0, seen x.1)) result (number_at w8 (seen spot.entry)) }
{
    if spot.rest.len() < 1 {
        return Err(cut_off(spot));
    }
    let (front, rest) = spot.rest.split_at(1);
    let number = u8::from_be_bytes([front[0]]);
    let at = spot.at + 1;
    Ok((number, Spot { at, rest }))
}

fn u16_at<'a>(spot: Spot<'a>) -> Result<(u16, Spot<'a>), ImageFault>
    ensures { IsRead (λ x. (x.0, seen x.1)) result (number_at w16 (seen spot.entry)) }
{
    if spot.rest.len() < 2 {
        return Err(cut_off(spot));
    }
    let (front, rest) = spot.rest.split_at(2);
    let number = u16::from_be_bytes([front[0], front[1]]);
    let at = spot.at + 2;
    Ok((number, Spot { at, rest }))
}

/// Four bytes as a number.
pub fn u32_at<'a>(spot: Spot<'a>) -> Result<(u32, Spot<'a>), ImageFault>
    ensures { IsRead (λ x. (x.0, seen x.1)) result (number_at w32 (seen spot.entry)) }
{
    if spot.rest.len() < 4 {
        return Err(cut_off(spot));
    }
    let (front, rest) = spot.rest.split_at(4);
    let number = u32::from_be_bytes([front[0], front[1], front[2], front[3]]);
    let at = spot.at + 4;
    Ok((number, Spot { at, rest }))
}

/// The magic, as the version's number, 1 or 2.
#[tactic(auto, unfolding(crate::specs::Reading::version_at))]
pub fn version_of<'a>(spot: Spot<'a>) -> Result<(u8, Spot<'a>), ImageFault>
    ensures read { IsRead (λ x. (x.0, seen x.1)) result (version_at (seen spot.entry)) }
    ensures range { IfOk result (λ x. x.0 ≤ 2) }
{
    let magic1 = b"OTS1";
    let magic2 = b"OTS2";
    if spot.rest.len() < 4 {
        if spot.rest == &magic1[..spot.rest.len()] {
            return Err(cut_off(spot));
        }
        return Err(bad(spot, Kind::BadMagic));
    }
    let (front, rest) = spot.rest.split_at(4);
    let at = spot.at + 4;
    if front == magic1.as_slice() {
        return Ok((1, Spot { at, rest }));
    }
    if front == magic2.as_slice() {
        return Ok((2, Spot { at, rest }));
    }
    Err(bad(spot, Kind::BadMagic))
}

/// The number of clients, 1 to 64.
#[tactic(auto, unfolding(crate::specs::Reading::clients_at))]
pub fn clients_of<'a>(spot: Spot<'a>) -> Result<(u16, Spot<'a>), ImageFault>
    ensures read { IsRead (λ x. (x.0, seen x.1)) result (clients_at (seen spot.entry)) }
    ensures range { IfOk result (λ x. (1 ≤ x.0) × (x.0 ≤ CLIENT_LIMIT)) }
{
    let (clients, after) = u16_at(spot)?;
    if clients == 0 || clients > CLIENT_LIMIT {
        return Err(bad(spot, Kind::BadNumber));
    }
    Ok((clients, after))
}

/// How many clients are present; the first version has no such field, and all are.
#[tactic(auto, unfolding(crate::specs::Reading::present_at))]
pub fn present_of<'a>(
    version: u8,
    clients: u16,
    spot: Spot<'a>,
) -> Result<(u16, Spot<'a>), ImageFault>
    ensures read { IsRead (λ x. (x.0, seen x.1)) result (present_at version clients (seen spot.entry)) }
    ensures range { IfOk result (λ x. x.0 ≤ clients) }
{
    if version == 1 {
        return Ok((clients, spot));
    }
    let (present, after) = u16_at(spot)?;
    if present > clients {
        return Err(bad(spot, Kind::BadNumber));
    }
    Ok((present, after))
}

/// The count of start characters, at most 40,000.
#[tactic(auto, unfolding(crate::specs::Reading::start_count_at))]
pub fn start_count_of<'a>(spot: Spot<'a>) -> Result<(u32, Spot<'a>), ImageFault>
    ensures read { IsRead (λ x. (x.0, seen x.1)) result (start_count_at (seen spot.entry)) }
    ensures range { IfOk result (λ x. x.0 ≤ START_LIMIT) }
    ensures onward { IfOk result (λ x. spot.entry.at < x.1.at) }
{
    let (count, after) = u32_at(spot)?;
    if count as usize > START_LIMIT {
        return Err(bad(spot, Kind::TooLong));
    }
    Ok((count, after))
}

/// The count of instructions, at most 100,000.
#[tactic(auto, unfolding(crate::specs::Reading::instr_count_at))]
pub fn instr_count_of<'a>(spot: Spot<'a>) -> Result<(u32, Spot<'a>), ImageFault>
    ensures read { IsRead (λ x. (x.0, seen x.1)) result (instr_count_at (seen spot.entry)) }
    ensures range { IfOk result (λ x. x.0 ≤ INSTR_LIMIT) }
{
    let (count, after) = u32_at(spot)?;
    if count as usize > INSTR_LIMIT {
        return Err(bad(spot, Kind::TooMany));
    }
    Ok((count, after))
}

/// A character.
#[tactic(auto, unfolding(crate::specs::Reading::scalar_at))]
pub fn char_of<'a>(spot: Spot<'a>) -> Result<(char, Spot<'a>), ImageFault>
    ensures read { IsRead (λ x. (x.0, seen x.1)) result (scalar_at (seen spot.entry)) }
    ensures onward { IfOk result (λ x. spot.entry.at < x.1.at) }
{
    let (code, after) = u32_at(spot)?;
    match char::from_u32(code) {
        Some(scalar) => Ok((scalar, after)),
        None => Err(bad(spot, Kind::BadScalar)),
    }
}

/// An instruction's byte: 1 to 6 in the first version, 1 to 7 in the second.
#[tactic(auto, unfolding(crate::specs::Reading::opcode_at))]
pub fn opcode_of<'a>(version: u8, spot: Spot<'a>) -> Result<(u8, Spot<'a>), ImageFault>
    requires { version ≤ 2 }
    ensures read { IsRead (λ x. (x.0, seen x.1)) result (opcode_at version (seen spot.entry)) }
    ensures range { IfOk result (λ x. (1 ≤ x.0) × (x.0 ≤ 5 + version)) }
{
    let (code, after) = u8_at(spot)?;
    if code == 0 || code > 5 + version {
        return Err(bad(spot, Kind::BadOpcode));
    }
    Ok((code, after))
}

/// A client that is there.
#[tactic(auto, unfolding(crate::specs::Reading::client_at))]
pub fn client_of<'a>(clients: u16, spot: Spot<'a>) -> Result<(u16, Spot<'a>), ImageFault>
    ensures read { IsRead (λ x. (x.0, seen x.1)) result (client_at clients (seen spot.entry)) }
    ensures below { IfOk result (λ x. x.0 < clients) }
{
    let (client, after) = u16_at(spot)?;
    if client >= clients {
        return Err(bad(spot, Kind::BadClient));
    }
    Ok((client, after))
}

/// A component's byte, after a component of the kind `last`, 0 for none.
#[tactic(auto, unfolding(crate::specs::Reading::code_at))]
pub fn code_of<'a>(last: u8, spot: Spot<'a>) -> Result<(u8, Spot<'a>), ImageFault>
    ensures { IsRead (λ x. (x.0, seen x.1)) result (code_at last (seen spot.entry)) }
{
    let (code, after) = u8_at(spot)?;
    if code < 16 || code > 18 {
        return Err(bad(spot, Kind::BadOpcode));
    }
    if code == last || (last == 18 && code == 17) {
        return Err(bad(spot, Kind::NotNormal));
    }
    Ok((code, after))
}

/// A component's length, with which the operation keeps its limits.
#[tactic(auto, unfolding(crate::specs::Reading::length_at))]
pub fn length_of<'a>(
    code: u8,
    op: &TextOp<char>,
    spot: Spot<'a>,
) -> Result<(u32, Spot<'a>), ImageFault>
    ensures read { IsRead (λ x. (x.0, seen x.1)) result (length_at code op.now (seen spot.entry)) }
    ensures base { IfOk result (λ x. (code ≡ 17) ⊎ (op.now.base + x.0 ≤ LIMIT)) }
    ensures target { IfOk result (λ x. (code ≡ 18) ⊎ (length op.now.image + x.0 ≤ LIMIT)) }
    ensures onward { IfOk result (λ x. spot.entry.at < x.1.at) }
{
    let (count, after) = u32_at(spot)?;
    if count == 0 {
        return Err(bad(spot, Kind::BadNumber));
    }
    let base = op.base_len();
    let target = op.target_len();
    if code != 17 && count as usize > LIMIT - base {
        return Err(bad(spot, Kind::TooLong));
    }
    if code != 18 && count as usize > LIMIT - target {
        return Err(bad(spot, Kind::TooLong));
    }
    Ok((count, after))
}

//! Fields with their names, whose value is checked.

ghost use Rattle.std.specs.Prelude.{◌≡◌, ◌≤◌, ◌+◌, ◌⊎◌, ◌&&◌, IfOk, nat_le};
ghost use Rattle.std.specs.Int.{w8, w16, w32};
ghost use Rattle.ot_image.specs.Layout.{base_after, target_after};
ghost use Rattle.ot_image.specs.Fields.{client_objection, clients_objection, field_at, instr_objection, instrs_objection, is_scalar, kind_objection, length_objection, longest, present_objection, start_objection};
ghost use Rattle.ot_image.specs.Reads.{IsRead, IsWithin, seen};

use crate::fault::Kind;
use crate::named_numbers::{refusal_at, u8_at, u16_at, u32_at};
use crate::refusal::{Place, Refusal, Wanted};
use crate::shape::Shape;
use crate::spot::Spot;
use ot_isa::{CLIENT_LIMIT, INSTR_LIMIT, START_LIMIT};
use ot_text::LIMIT;

/// The number of clients.
pub fn clients_of<'a>(spot: Spot<'a>) -> Result<(u16, Spot<'a>), Refusal>
    ensures read { IsRead (λ x. (x.0, seen x.1)) result (field_at Place.Clients w16 clients_objection (seen spot.entry)) }
    ensures some { IfOk result (λ x. 1 ≤ x.0) }
{
    let place = Place::Clients;
    let (clients, after) = u16_at(place, spot)?;
    if clients == 0 || clients > CLIENT_LIMIT {
        let wanted = Wanted::Positive(CLIENT_LIMIT);
        return Err(refusal_at(place, spot, u32::from(clients), Kind::BadNumber, wanted));
    }
    Ok((clients, after))
}

/// How many clients are present, of so many.
pub fn present_of<'a>(clients: u16, spot: Spot<'a>) -> Result<(u16, Spot<'a>), Refusal>
    ensures { IsRead (λ x. (x.0, seen x.1)) result (field_at Place.Present w16 (present_objection clients) (seen spot.entry)) }
{
    let place = Place::Present;
    let (present, after) = u16_at(place, spot)?;
    if present > clients {
        let wanted = Wanted::Number(clients);
        return Err(refusal_at(place, spot, u32::from(present), Kind::BadNumber, wanted));
    }
    Ok((present, after))
}

/// The count of start characters.
pub fn start_count_of<'a>(spot: Spot<'a>) -> Result<(u32, Spot<'a>), Refusal>
    ensures { IsRead (λ x. (x.0, seen x.1)) result (field_at Place.StartCount w32 start_objection (seen spot.entry)) }
{
    let place = Place::StartCount;
    let (count, after) = u32_at(place, spot)?;
    if count as usize > START_LIMIT {
        let wanted = Wanted::Most(START_LIMIT as u32);
        return Err(refusal_at(place, spot, count, Kind::TooLong, wanted));
    }
    Ok((count, after))
}

/// The count of instructions.
pub fn instr_count_of<'a>(spot: Spot<'a>) -> Result<(u32, Spot<'a>), Refusal>
    ensures { IsRead (λ x. (x.0, seen x.1)) result (field_at Place.InstrCount w32 instrs_objection (seen spot.entry)) }
{
    let place = Place::InstrCount;
    let (count, after) = u32_at(place, spot)?;
    if count as usize > INSTR_LIMIT {
        let wanted = Wanted::Most(INSTR_LIMIT as u32);
        return Err(refusal_at(place, spot, count, Kind::TooMany, wanted));
    }
    Ok((count, after))
}

/// A character.
pub fn char_of<'a>(place: Place, spot: Spot<'a>) -> Result<(u32, Spot<'a>), Refusal>
    ensures { IsRead (λ x. (x.0, seen x.1)) result (field_at place w32 is_scalar (seen spot.entry)) }
{
    let (code, after) = u32_at(place, spot)?;
    if char::from_u32(code).is_none() {
        return Err(refusal_at(place, spot, code, Kind::BadScalar, Wanted::Scalar));
    }
    Ok((code, after))
}

/// The byte of an instruction's kind, of this version.
pub fn instr_kind_of<'a>(
    version: u8,
    place: Place,
    spot: Spot<'a>,
) -> Result<(u8, Spot<'a>), Refusal>
    requires { version ≤ 2 }
    ensures { IsRead (λ x. (x.0, seen x.1)) result (field_at place w8 (instr_objection version) (seen spot.entry)) }
{
    let (code, after) = u8_at(place, spot)?;
    if code == 0 || code > 5 + version {
        let wanted = Wanted::Instr(version);
        return Err(refusal_at(place, spot, u32::from(code), Kind::BadOpcode, wanted));
    }
    Ok((code, after))
}

/// The client of an instruction, one of so many; there is one.
pub fn client_of<'a>(clients: u16, place: Place, spot: Spot<'a>) -> Result<(u16, Spot<'a>), Refusal>
    requires { 1 ≤ clients }
    ensures { IsRead (λ x. (x.0, seen x.1)) result (field_at place w16 (client_objection clients) (seen spot.entry)) }
{
    let (client, after) = u16_at(place, spot)?;
    if client >= clients {
        let wanted = Wanted::Number(clients - 1);
        return Err(refusal_at(place, spot, u32::from(client), Kind::BadClient, wanted));
    }
    Ok((client, after))
}

/// The byte of a component's kind, behind a component with the byte `last`, 0 for none.
pub fn kind_of<'a>(last: u8, place: Place, spot: Spot<'a>) -> Result<(u8, Spot<'a>), Refusal>
    ensures { IsRead (λ x. (x.0, seen x.1)) result (field_at place w8 (kind_objection last) (seen spot.entry)) }
{
    let (code, after) = u8_at(place, spot)?;
    if code < 16 || code > 18 {
        return Err(refusal_at(
            place,
            spot,
            u32::from(code),
            Kind::BadOpcode,
            Wanted::Component,
        ));
    }
    if code == last || (last == 18 && code == 17) {
        let wanted = Wanted::NotBehind(last, code);
        return Err(refusal_at(place, spot, u32::from(code), Kind::NotNormal, wanted));
    }
    Ok((code, after))
}

// The greatest length with which both lengths keep their limit.
fn longest(code: u8, shape: &Shape) -> Wanted
    requires { IsWithin shape.now }
    ensures { result ≡ longest code shape.now }
{
    if code == 18 || (code == 16 && shape.target <= shape.base) {
        Wanted::WithinBase(LIMIT - shape.base)
    } else {
        Wanted::WithinTarget(LIMIT - shape.target)
    }
}

// Whether both lengths keep their limit with so long a component more.
fn has_room(code: u8, shape: &Shape, count: usize) -> bool
    requires { IsWithin shape.now }
    ensures { result ≡ (nat_le (base_after code shape.now.base count) LIMIT && nat_le (target_after code shape.now.target count) LIMIT) }
{
    (code == 17 || count <= LIMIT - shape.base) && (code == 18 || count <= LIMIT - shape.target)
}

/// The length of a component with this byte, behind components of this shape.
pub fn length_of<'a>(
    code: u8,
    shape: &Shape,
    place: Place,
    spot: Spot<'a>,
) -> Result<(u32, Spot<'a>), Refusal>
    requires { IsWithin shape.now }
    ensures read { IsRead (λ x. (x.0, seen x.1)) result (field_at place w32 (length_objection code shape.now) (seen spot.entry)) }
    ensures base { IfOk result (λ x. (code ≡ 17) ⊎ (shape.now.base + x.0 ≤ LIMIT)) }
    ensures target { IfOk result (λ x. (code ≡ 18) ⊎ (shape.now.target + x.0 ≤ LIMIT)) }
{
    let (count, after) = u32_at(place, spot)?;
    if count == 0 {
        return Err(refusal_at(place, spot, count, Kind::BadNumber, Wanted::NotZero));
    }
    if !has_room(code, shape, count as usize) {
        return Err(refusal_at(place, spot, count, Kind::TooLong, longest(code, shape)));
    }
    Ok((count, after))
}

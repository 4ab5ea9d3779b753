//! Reading an image: instructions, the head, and the whole.

ghost use Rattle.std.specs.Prelude.{◌≡◌, ◌≤◌, ◌<◌, ◌⊎◌, ◌+◌, [], length, OnOk, IsOk, IfOk, IfErr, IfSome, Ok, Err, Some, None};
ghost use Rattle.ot_isa.specs.Program.{Program, client_of, IsForClients, IsProgram};
ghost use Rattle.ot_image.specs.Reading.{IsRead, Gives, Loads, times, named_at, instr_at, push_instr, head_at, program_at, image_at, image_of, plain_instr, IsWant};
ghost use Rattle.ot_image.specs.Spelling.{IsImageOf, ImagesDiffer};
ghost use Rattle.ot_image.specs.Layout.{fault_of, FaultsAgree};
ghost use Rattle.ot_image.specs.Views.{seen};
ghost use Rattle.ot_isa.specs.declared.builder.TheConstants.{INSTR_LIMIT};

use crate::edits::{chars_of, operation_of};
use crate::fault::{ImageFault, Kind, ReadError};
use crate::reading::{
    bad, client_of, clients_of, instr_count_of, opcode_of, present_of, start_count_of, version_of,
};
use crate::spot::Spot;
use ot_isa::{Builder, Instr, OpeningFault, PushFault, Schedule};
use std::alloc::Global;

// An instruction that names a client and nothing else.
fn plain_of(code: u8, client: u16) -> Instr
    requires { (2 ≤ code) × (code ≤ 7) × (code ≡ 6 → ⊥) }
    ensures value { result ≡ plain_instr code client }
    ensures client { client_of result ≡ Some client }
{
    match code {
        2 => Instr::Take(client),
        3 => Instr::Deliver(client),
        4 => Instr::Acknowledge(client),
        5 => Instr::Read(client),
        _ => Instr::Join(client),
    }
}

// What follows an instruction's byte and its client.
#[tactic(auto, unfolding(crate::specs::Reading::named_at))]
fn named_of<'a>(
    alloc: Global,
    code: u8,
    client: u16,
    spot: Spot<'a>,
) -> Result<(Instr, Spot<'a>), ReadError>
    requires { (1 ≤ code) × (code ≤ 7) × (code ≡ 6 → ⊥) }
    ensures read { Gives (λ x. (x.0, seen x.1)) result (named_at code client (seen spot.entry)) }
    ensures client { IfOk result (λ x. client_of x.0 ≡ Some client) }
{
    if code == 1 {
        let (op, after) = operation_of(alloc, spot)?;
        return Ok((Instr::Edit(client, op), after));
    }
    Ok((plain_of(code, client), spot))
}

// One instruction of this version, of clients that are there.
#[tactic(auto, unfolding(crate::specs::Reading::instr_at))]
fn instr_of<'a>(
    alloc: Global,
    version: u8,
    clients: u16,
    spot: Spot<'a>,
) -> Result<(Instr, Spot<'a>), ReadError>
    requires { version ≤ 2 }
    ensures read { Gives (λ x. (x.0, seen x.1)) result (instr_at version clients (seen spot.entry)) }
    ensures client { IfOk result (λ x. IsForClients clients x.0) }
{
    let (code, spot) = opcode_of(version, spot)?;
    if code == 6 {
        return Ok((Instr::ReadServer, spot));
    }
    let (client, spot) = client_of(clients, spot)?;
    named_of(alloc, code, client, spot)
}

// So many instructions into the builder. No room is reserved by the count.
fn instrs_of<'a>(
    alloc: Global,
    version: u8,
    clients: u16,
    count: u32,
    builder: &mut Builder,
    spot: Spot<'a>,
) -> Result<Spot<'a>, ReadError>
    requires version { version ≤ 2 }
    requires clients { clients ≡ builder.old.program.clients }
    requires empty { builder.old.program.instrs ≡ [] }
    requires many { count ≤ INSTR_LIMIT }
    ensures { Gives (λ t. (builder.new.program, seen t)) result (times (push_instr version) count builder.old.program (seen spot.entry)) }
{
    let mut rest = spot;
    for _ in 0..count {
        let (instr, after) = instr_of(alloc, version, clients, rest)?;
        match builder.push(instr) {
            Ok(()) => {}
            Err((PushFault::Memory, _)) => return Err(ReadError::Memory(rest.at)),
            Err((PushFault::BadClient, _)) => unreachable!(),
            Err((PushFault::TooMany, _)) => unreachable!(),
        }
        rest = after;
    }
    Ok(rest)
}

// All before the count of instructions: the version, and a builder of what the head says.
#[tactic(auto, unfolding(crate::specs::Reading::head_at))]
fn head_of<'a>(alloc: Global, bytes: &'a [u8]) -> Result<((u8, Builder), Spot<'a>), ReadError>
    ensures read { Gives (λ x. ((x.0.0, x.0.1.program), seen x.1)) result (head_at (record { at = 0; rest = bytes.entry.now })) }
    ensures version { IfOk result (λ x. x.0.0 ≤ 2) }
    ensures empty { IfOk result (λ x. x.0.1.program.instrs ≡ []) }
{
    let (version, spot) = version_of(Spot { at: 0, rest: bytes })?;
    let (clients, spot) = clients_of(spot)?;
    let (present, spot) = present_of(version, clients, spot)?;
    let (count, behind) = start_count_of(spot)?;
    let (start, after) = chars_of(alloc, count, behind)?;
    match Builder::with_present(alloc, clients, present, start.as_slice()) {
        Ok(builder) => Ok(((version, builder), after)),
        Err(OpeningFault::Memory) => Err(ReadError::Memory(spot.at)),
        Err(OpeningFault::BadClient) => unreachable!(),
        Err(OpeningFault::TooLong) => unreachable!(),
    }
}

// All up to the last instruction.
#[tactic(auto, unfolding(crate::specs::Reading::program_at))]
fn program_of<'a>(alloc: Global, bytes: &'a [u8]) -> Result<(Builder, Spot<'a>), ReadError>
    ensures { Gives (λ x. (x.0.program, seen x.1)) result (program_at (record { at = 0; rest = bytes.entry.now })) }
{
    let ((version, mut builder), spot) = head_of(alloc, bytes)?;
    let clients = builder.clients();
    let (count, spot) = instr_count_of(spot)?;
    let spot = instrs_of(alloc, version, clients, count, &mut builder, spot)?;
    Ok((builder, spot))
}

// The whole image, after which nothing follows.
#[tactic(auto, unfolding(crate::specs::Reading::image_at))]
fn schedule_of(alloc: Global, bytes: &[u8]) -> Result<Schedule, ReadError>
    ensures { Loads (λ s. s) result (image_of bytes.now) }
{
    let (builder, spot) = program_of(alloc, bytes)?;
    if !spot.rest.is_empty() {
        return Err(ReadError::Fault(bad(spot, Kind::Trailing)));
    }
    Ok(builder.finish())
}

// The same with one type of faults.
fn loaded(alloc: Global, bytes: &[u8]) -> Result<Schedule, ImageFault>
    ensures ok { IfOk result (λ s. image_of bytes.now ≡ Ok s) }
    ensures limits { IfOk result (λ s. IsProgram s) }
    ensures err { IfErr result (λ f. (image_of bytes.now ≡ Err f) ⊎ IsWant bytes.now f) }
{
    match schedule_of(alloc, bytes) {
        Ok(schedule) => {
            // For the proof: the invariant of every schedule.
            let _clients = schedule.clients();
            Ok(schedule)
        }
        Err(ReadError::Memory(at)) => Err(ImageFault {
            at,
            kind: Kind::Memory,
        }),
        Err(ReadError::Fault(fault)) => Err(fault),
    }
}

/// The schedule of which the bytes are an image, of either version, or their first fault from left to right.
///
/// The fault's place is the offset of the faulty field's first byte, for `Cut` the number of bytes given. `Memory` comes
/// at the field for which a growth was refused, and only where neither this field nor one before it is at fault.
pub fn load(alloc: Global, bytes: &[u8]) -> Result<Schedule, ImageFault>
    // What is loaded has these bytes as an image.
    ensures found { IfOk result (λ s. IsImageOf bytes.now s) }
    // The schedule of which these bytes are an image is loaded, unless memory runs out.
    ensures only { (p : Program) → IsImageOf bytes.now p → IfOk result (λ s. s ≡ p) × IfErr result (λ f. f.kind ≡ Kind.Memory) }
    // Which fault it is; or memory ran out, at a field before it.
    ensures fault { IfErr result (λ f. (image_of bytes.now ≡ Err f) ⊎ IsWant bytes.now f) }
    // The same in the format's words: the fault of the first field that is cut, or whose value is not allowed.
    ensures field { IfErr result (λ f. (fault_of bytes.now ≡ Some f) ⊎ ((f.kind ≡ Kind.Memory) × IfSome (fault_of bytes.now) (λ g. f.at < g.at))) }
    ensures no_field { IfOk result (λ _s. fault_of bytes.now ≡ None) }
{
    loaded(alloc, bytes)
}

/// No image is a proper front of another, and different schedules have different images.
pub fn images_differ()
    ensures { ImagesDiffer }
{}

/// The loader's fault of any bytes is that of the first field from the left that is cut, or whose value is not allowed.
pub fn faults_agree()
    ensures { FaultsAgree }
{}

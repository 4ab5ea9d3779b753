//! A client's place in the machine, and the rows there. A row first has the client prepare its change and makes the list, which may find no memory; the rest cannot
//! fail. Then it gives its undo record, whole where it is `KEPT` (kept.rt). Each has one caller, and is put in its place there, so that a plain row pays nothing for a
//! record that it does not give.

ghost use Rattle.std.specs.Prelude.{◌≡◌, ◌+◌, ◌≤◌, ◌↔◌, ◌++◌, drop, length, map, replicate, slice_get, OnOk, OnErr, IfOk, IfSome, IsFalse, IsSomeAnd, IsTrue, None, Some};
ghost use Rattle.std.specs.Option.{option_copied};
ghost use Rattle.ot_operation.specs.Operation.{apply, news};
ghost use Rattle.ot_client.specs.State as state;
ghost use Rattle.ot_client.specs.Client.{message_of};
ghost use Rattle.ot_server.specs.History.{received};
ghost use Rattle.ot_server.specs.Faults.{fault_of};
ghost use Rattle.ot_server.specs.Undo.{IsUndo};
ghost use Rattle.ot_model.specs.Table.{absent, acknowledged, against_pending, delivered, edited, present_with};
ghost use Rattle.ot_machine.specs.Effects.{has_buffer, is_synchronized, IsMadeOf};
ghost use Rattle.ot_machine.specs.Seats.{client_of, phase_of, revision_of, view_of, AreSettled, idle, queued, joined_at, under_way, Follows, MayPush, MaySend, HasRoom, HaveRoomFrom, MaySeatAcknowledge, MaySeatDeliver, IsMemory, IsReceivable, IsSettled, IsWaiting, emptied, outstanding_at, outstanding_of, received_from};
ghost use Rattle.ot_machine.specs.Undoing.{message_at, Restores};
ghost use Rattle.ot_isa.specs.declared.tagging.TheConstants.{INSERTED_LIMIT};

use crate::effect::Applied;
use crate::kept::{self, Before};
use ot_client::{Client, Sent, Synchronized};
use ot_isa::Tagged;
use ot_links::{Downlink, Uplink};
use ot_server::{Entry, Server, ServerFault};
use ot_text::{Doc, TextOp};
use std::alloc::{AllocError, Global};
use std::mem;

/// A client, if it has joined, with its list, how much it has inserted, and its two links.
#[derive(Drop)]
pub(crate) struct Seat {
    pub client: Option<Client<Tagged>>,
    pub list: Doc<Tagged>,
    pub count: u32,
    pub up: Uplink<Sent<Tagged>>,
    pub down: Downlink<u32>,
}

// The seat of a client that is there from the opening on.
pub(crate) fn present(alloc: Global, document: &Doc<Tagged>) -> Result<Seat, AllocError>
    ensures { IfOk result (λ seat. view_of seat ≡ idle (present_with document.now)) }
{
    let list = document.copy()?;
    Ok(Seat {
        client: Some(Client::Synchronized(Synchronized::new(0))),
        list,
        count: 0,
        up: Uplink::new(),
        down: Downlink::new(alloc),
    })
}

// The seat of a client that has not joined.
pub(crate) fn vacant(alloc: Global) -> Result<Seat, AllocError>
    ensures { IfOk result (λ seat. view_of seat ≡ idle absent) }
{
    let list = Doc::from_slice(alloc, &[])?;
    Ok(Seat {
        client: None,
        list,
        count: 0,
        up: Uplink::new(),
        down: Downlink::new(alloc),
    })
}

// So many more clients that are there from the opening on.
pub(crate) fn add_present(
    alloc: Global,
    seats: &mut Vec<Seat>,
    count: u16,
    document: &Doc<Tagged>,
) -> Result<(), AllocError>
    ensures { OnOk result (map view_of seats.new.items ≡ map view_of seats.old.items ++ replicate count (idle (present_with document.now))) }
{
    for _place in 0..count {
        let seat = present(alloc, document)?;
        seats.push(seat)?;
    }
    Ok(())
}

// So many more clients that have not joined.
pub(crate) fn add_vacant(alloc: Global, seats: &mut Vec<Seat>, count: u16) -> Result<(), AllocError>
    ensures { OnOk result (map view_of seats.new.items ≡ map view_of seats.old.items ++ replicate count (idle absent)) }
{
    for _place in 0..count {
        let seat = vacant(alloc)?;
        seats.push(seat)?;
    }
    Ok(())
}

// The client has joined, and nothing is under way from it.
pub(crate) fn is_synchronized(seat: &Seat) -> bool
    ensures { result ≡ is_synchronized (phase_of seat.now.client) }
{
    matches!(&seat.client, Some(Client::Synchronized(_)))
}

// The client has later edits than the operation that is under way.
pub(crate) fn has_buffer(seat: &Seat) -> bool
    ensures { result ≡ has_buffer (phase_of seat.now.client) }
{
    matches!(&seat.client, Some(Client::AwaitingWithBuffer(_)))
}

// Puts what the client sends, if anything, on its link.
pub(crate) fn put_up(up: &mut Uplink<Sent<Tagged>>, sent: Option<Sent<Tagged>>)
    requires { MayPush sent up.old }
    ensures { up.new ≡ under_way sent up.old }
{
    if let Some(sent) = sent {
        up.push(sent);
    }
}

// The user's edit at a client that has joined.
#[inline(always)]
pub(crate) fn edit<const KEPT: bool>(
    seat: &mut Seat,
    op: &TextOp<Tagged>,
) -> Result<Before, AllocError>
    requires follows { Follows (phase_of seat.old.client) op.now.base }
    requires sends { MaySend (phase_of seat.old.client) seat.old.up }
    requires base { op.now.base ≡ length seat.old.list }
    requires count { seat.old.count + length (news op.now.image) ≤ INSERTED_LIMIT }
    ensures ok { OnOk result (client_of seat.new ≡ edited (client_of seat.old) op.now) }
    ensures down { seat.new.down ≡ seat.old.down }
    ensures err { OnErr result (seat.new ≡ seat.old) }
    ensures kept { IsTrue KEPT → IfOk result (λ before. Restores before (client_of seat.old) (client_of seat.new)) }
    ensures none { IsFalse KEPT → IfOk result (λ before. before.inverse ≡ None) }
{
    let Some(client) = &mut seat.client else {
        unreachable!()
    };
    let (change, sent) = client.prepare_edit(op)?;
    let inverse = kept::inverse_of::<KEPT>(op, &seat.list)?;
    seat.list.change(op)?;
    let mut before = Before {
        change,
        inverse,
        count: seat.count,
        unsent: seat.up.is_empty(),
        received: false,
    };
    client.exchange(&mut before.change);
    put_up(&mut seat.up, sent);
    seat.count += op.inserted() as u32;
    Ok(before)
}

// Memory for one more message to the client.
fn reserve(seat: &mut Seat) -> Result<(), AllocError>
    ensures same { view_of seat.new ≡ view_of seat.old }
    ensures room { OnOk result (HasRoom seat.new) }
{
    seat.down.reserve_one()
}

// One more message to the client, if it has joined.
fn send(seat: &mut Seat, number: u32)
    requires { HasRoom seat.old }
    ensures { view_of seat.new ≡ queued number (view_of seat.old) }
{
    if seat.client.is_some() {
        seat.down.push(number);
    }
}

// Memory for one more message to each client.
pub(crate) fn reserve_all(seats: &mut Vec<Seat>) -> Result<(), AllocError>
    ensures same { map view_of seats.new.items ≡ map view_of seats.old.items }
    ensures room { OnOk result (HaveRoomFrom 0 seats.new.items) }
{
    for place in 0..seats.len() {
        reserve(&mut seats[place])?;
    }
    Ok(())
}

// One more message to each client that has joined.
pub(crate) fn send_all(seats: &mut Vec<Seat>, number: u32)
    requires { HaveRoomFrom 0 seats.old.items }
    ensures { map view_of seats.new.items ≡ map (queued number) (map view_of seats.old.items) }
{
    for place in 0..seats.len() {
        send(&mut seats[place], number);
    }
}

// The entry of the log that the first message to the client is of, if there is a message.
pub(crate) fn head<'a>(server: &'a Server<Tagged>, seat: &Seat) -> Option<&'a Entry<Tagged>>
    requires { IsWaiting server.now seat.now }
    ensures { option_copied result ≡ slice_get server.now.log (revision_of seat.now.client) }
{
    match seat.down.head() {
        Some(number) => server.entries().get(*number as usize),
        None => None,
    }
}

// Nothing is under way from or to the client, if it has joined, and it is synchronized.
fn is_settled(seat: &Seat) -> bool
    ensures { IsTrue result ↔ IsSettled (view_of seat.now) }
{
    match &seat.client {
        None => true,
        Some(Client::Synchronized(_)) => seat.up.is_empty() && seat.down.is_empty(),
        Some(_) => false,
    }
}

// So it is with all clients.
pub(crate) fn are_settled(seats: &[Seat]) -> bool
    ensures { IsTrue result ↔ AreSettled seats.now }
{
    for seat in seats {
        if !is_settled(seat) {
            return false;
        }
    }
    true
}

// The list after an operation, made here, or given: then what was there is left in its place.
fn change_list(
    list: &mut Doc<Tagged>,
    op: &TextOp<Tagged>,
    common: &mut Option<Doc<Tagged>>,
) -> Result<(), AllocError>
    requires base { op.now.base ≡ length list.old }
    requires common { IfSome common.old (λ given. given ≡ apply op.now list.old) }
    ensures ok { OnOk result (list.new ≡ apply op.now list.old) }
    ensures err { OnErr result (list.new ≡ list.old) }
{
    match common {
        Some(given) => {
            mem::swap(list, given);
            Ok(())
        }
        None => list.change(op),
    }
}

// Takes the first message, another's operation, to the client. Where the list that this makes is given it becomes the client's, and what that had is left in its place. Gives
// what it applied, too.
#[inline(always)]
pub(crate) fn deliver<const KEPT: bool>(
    seat: &mut Seat,
    op: &TextOp<Tagged>,
    common: &mut Option<Doc<Tagged>>,
) -> Result<(Before, Applied), AllocError>
    requires may { MaySeatDeliver seat.old op.now }
    requires common { IfSome common.old (λ list. list ≡ (delivered (client_of seat.old) op.now).list) }
    ensures ok { OnOk result (client_of seat.new ≡ delivered (client_of seat.old) op.now) }
    ensures down { OnOk result (seat.new.down.items ≡ drop 1 seat.old.down.items) }
    ensures err { OnErr result (seat.new ≡ seat.old) }
    ensures kept { IsTrue KEPT → IfOk result (λ given. Restores given.0 (client_of seat.old) (client_of seat.new)) }
    ensures none { IsFalse KEPT → IfOk result (λ given. given.0.inverse ≡ None) }
    ensures applied { IfOk result (λ given. IsMadeOf (revision_of seat.old.client) op.now (against_pending (phase_of seat.old.client) op.now) given.1) }
{
    let Some(client) = &mut seat.client else {
        unreachable!()
    };
    let number = client.revision() as usize;
    let (change, applied_op) = client.prepare_deliver(op)?;
    let applied = applied_op.as_ref().unwrap_or(op);
    let inverse = kept::inverse_of::<KEPT>(applied, &seat.list)?;
    change_list(&mut seat.list, applied, common)?;
    let mut before = Before {
        change,
        inverse,
        count: seat.count,
        unsent: seat.up.is_empty(),
        received: true,
    };
    client.exchange(&mut before.change);
    let _ = seat.down.pop();
    Ok((before, Applied::of(number, applied_op)))
}

// Takes the first message, the acknowledgement of the client's own operation.
#[inline(always)]
pub(crate) fn acknowledge(seat: &mut Seat) -> Result<Before, AllocError>
    requires may { MaySeatAcknowledge seat.old }
    ensures ok { OnOk result (acknowledged (client_of seat.old) (phase_of seat.old.client) ≡ Some (client_of seat.new)) }
    ensures down { OnOk result (seat.new.down.items ≡ drop 1 seat.old.down.items) }
    ensures err { OnErr result (seat.new ≡ seat.old) }
    ensures kept { IfOk result (λ before. Restores before (client_of seat.old) (client_of seat.new)) }
{
    let Some(client) = &mut seat.client else {
        unreachable!()
    };
    let (change, sent) = client.prepare_acknowledge()?;
    let mut before = Before {
        change,
        inverse: None,
        count: seat.count,
        unsent: true,
        received: true,
    };
    client.exchange(&mut before.change);
    put_up(&mut seat.up, sent);
    let _ = seat.down.pop();
    Ok(before)
}

// Gives the client, which has not joined, the server's document and revision.
pub(crate) fn join(seat: &mut Seat, revision: u32, document: &Doc<Tagged>) -> Result<(), AllocError>
    ensures ok { OnOk result (client_of seat.new ≡ joined_at revision document.now (client_of seat.old)) }
    ensures down { seat.new.down ≡ seat.old.down }
    ensures err { OnErr result (seat.new ≡ seat.old) }
{
    seat.list = document.copy()?;
    seat.client = Some(Client::Synchronized(Synchronized::new(revision)));
    Ok(())
}

// The server's fault where it can only be out of memory.
fn only_memory(fault: ServerFault) -> AllocError
    requires { IsMemory fault }
{
    match fault {
        ServerFault::Memory => AllocError,
        ServerFault::NotInHistory => unreachable!(),
        ServerFault::BadBase => unreachable!(),
        ServerFault::LogFull => unreachable!(),
        ServerFault::TooLong => unreachable!(),
    }
}

// The server receives the operation, which it does not refuse. Gives the inverse of what it appended, where that is recorded.
fn receive<const KEPT: bool>(
    server: &mut Server<Tagged>,
    client: u16,
    revision: u32,
    op: &TextOp<Tagged>,
) -> Result<Option<TextOp<Tagged>>, AllocError>
    requires { fault_of server.old revision op.now ≡ None }
    ensures ok { OnOk result (server.new ≡ received server.old client revision op.now) }
    ensures err { OnErr result (server.new ≡ server.old) }
    ensures undo { IsTrue KEPT → IfOk result (λ kept. IsSomeAnd kept (λ undo. IsUndo server.old server.new undo)) }
    ensures none { IsFalse KEPT → IfOk result (λ kept. kept ≡ None) }
{
    if !KEPT {
        return match server.receive(client, revision, op) {
            Ok(()) => Ok(None),
            Err(fault) => Err(only_memory(fault)),
        };
    }
    match server.receive_kept(client, revision, op) {
        Ok(undo) => Ok(Some(undo)),
        Err(fault) => Err(only_memory(fault)),
    }
}

// The server receives what is under way from the client. The outstanding operation is the message transformed against what the client has
// seen of the log, so only the entries that it has not seen are left to transform it against.
fn receive_outstanding<const KEPT: bool>(
    server: &mut Server<Tagged>,
    seat: &Seat,
    client: u16,
) -> Result<Option<TextOp<Tagged>>, AllocError>
    requires { IsReceivable server.old (outstanding_of (revision_of seat.now.client) (phase_of seat.now.client)) }
    ensures ok { OnOk result (server.new ≡ received_from server.old client (outstanding_of (revision_of seat.now.client) (phase_of seat.now.client))) }
    ensures err { OnErr result (server.new ≡ server.old) }
    ensures undo { IsTrue KEPT → IfOk result (λ kept. IsSomeAnd kept (λ undo. IsUndo server.old server.new undo)) }
    ensures none { IsFalse KEPT → IfOk result (λ kept. kept ≡ None) }
{
    match &seat.client {
        Some(Client::AwaitingConfirm(sender)) => {
            receive::<KEPT>(server, client, sender.revision(), sender.outstanding())
        }
        Some(Client::AwaitingWithBuffer(sender)) => {
            receive::<KEPT>(server, client, sender.revision(), sender.outstanding())
        }
        _ => unreachable!(),
    }
}

// What is under way from this client goes to the server, and word of it to all. Gives the message, and the inverse of what the server
// appended, where that is recorded.
pub(crate) fn take_in<const KEPT: bool>(
    server: &mut Server<Tagged>,
    seats: &mut Vec<Seat>,
    client: u16,
) -> Result<(Sent<Tagged>, Option<TextOp<Tagged>>), AllocError>
    requires accepts { IsReceivable server.old (outstanding_at (map view_of seats.old.items) client) }
    requires sends { message_at (map view_of seats.old.items) client ≡ None → ⊥ }
    ensures ok { OnOk result (server.new ≡ received_from server.old client (outstanding_at (map view_of seats.old.items) client)) }
    ensures views { OnOk result (map view_of seats.new.items ≡ emptied client (map (queued (length server.old.log)) (map view_of seats.old.items))) }
    ensures server { OnErr result (server.new ≡ server.old) }
    ensures seats { OnErr result (map view_of seats.new.items ≡ map view_of seats.old.items) }
    ensures message { IfOk result (λ given. message_at (map view_of seats.old.items) client ≡ Some (message_of given.0)) }
    ensures undo { IsTrue KEPT → IfOk result (λ given. IsSomeAnd given.1 (λ undo. IsUndo server.old server.new undo)) }
    ensures none { IsFalse KEPT → IfOk result (λ given. given.1 ≡ None) }
{
    let place = client as usize;
    let number = server.revision() as u32;
    reserve_all(seats)?;
    if place >= seats.len() {
        unreachable!();
    }
    let inverse = receive_outstanding::<KEPT>(server, &seats[place], client)?;
    send_all(seats, number);
    let Some(message) = seats[place].up.pop() else {
        unreachable!()
    };
    Ok((message, inverse))
}

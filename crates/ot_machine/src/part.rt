//! Clients off the machine: a copy of one, and how it comes back.

ghost use Rattle.std.specs.Prelude.{◌≡◌, ◌+◌, ◌≤◌, ◌↔◌, ◌<◌, drop, length, map, IfOk, IsTrue, None, true};
ghost use Rattle.std.specs.Option.{option_map};
ghost use Rattle.ot_client.specs.Client.{message_of, state_of};
ghost use Rattle.ot_model.specs.Part.{Leads};
ghost use Rattle.ot_model.specs.Session.{installed, Begins, IsPartIn, RunsTo};
ghost use Rattle.ot_model.specs.Sound.{AreInstrs};
ghost use Rattle.ot_model.specs.Table.{head_for, is_joined};
ghost use Rattle.ot_machine.specs.Parts.{head_in, part_in, AreFirst};
ghost use Rattle.ot_machine.specs.Readers.{ClientHas};
ghost use Rattle.ot_machine.specs.Seats.{client_of, MayPush};
ghost use Rattle.ot_model.specs.declared.limits.TheConstants.{STEP_LIMIT};

use crate::machine::Machine;
use crate::seat::{self, Seat};
use ot_client::{Client, Sent};
use ot_isa::{Instr, Tagged};
use ot_links::Downlink;
use ot_server::Entry;
use ot_text::{Doc, TextOp};
use std::alloc::{AllocError, Global};

/// A message to a client.
#[derive(Drop)]
pub enum Message {
    /// The client's own operation is in the log.
    Ack,
    /// Another client's operation.
    Op(TextOp<Tagged>),
}

/// A joined client off the machine, with the messages of its downlink and no table. Its steps there are the machine's own rows.
#[derive(Drop)]
pub struct Part {
    /// The client's number.
    pub number: u16,
    pub client: Client<Tagged>,
    /// The client's list.
    pub list: Doc<Tagged>,
    /// How many characters the client has inserted so far.
    pub count: u32,
    /// The messages to the client that are left, oldest first.
    pub incoming: Downlink<Message>,
    /// What the client has sent since it is off the machine, if anything.
    pub sent: Option<Sent<Tagged>>,
}

// What an entry of the log is to the client.
fn message_to(client: u16, entry: &Entry<Tagged>) -> Result<Message, AllocError>
    ensures { IfOk result (λ message. head_in message ≡ head_for client entry.now) }
{
    if entry.maker() == client {
        return Ok(Message::Ack);
    }
    Ok(Message::Op(entry.operation().copy()?))
}

// What these entries of the log are to the client.
fn messages_to(
    alloc: Global,
    client: u16,
    entries: &[Entry<Tagged>],
) -> Result<Downlink<Message>, AllocError>
    ensures { IfOk result (λ incoming. map head_in incoming.items ≡ map (head_for client) entries.now) }
{
    let mut incoming = Downlink::new(alloc);
    for place in 0..entries.len() {
        let message = message_to(client, &entries[place])?;
        incoming.reserve_one()?;
        incoming.push(message);
    }
    Ok(incoming)
}

// An equal message.
fn copy_message(message: &Message) -> Result<Message, AllocError>
    ensures { IfOk result (λ copy. head_in copy ≡ head_in message.now) }
{
    match message {
        Message::Ack => Ok(Message::Ack),
        Message::Op(op) => Ok(Message::Op(op.copy()?)),
    }
}

// Equal messages.
fn copy_messages(
    alloc: Global,
    messages: &Downlink<Message>,
) -> Result<Downlink<Message>, AllocError>
    ensures { IfOk result (λ copies. map head_in copies.items ≡ map head_in messages.now.items) }
{
    let mut copies = Downlink::new(alloc);
    for place in 0..messages.len() {
        let Some(message) = messages.get(place) else {
            unreachable!()
        };
        let copy = copy_message(message)?;
        copies.reserve_one()?;
        copies.push(copy);
    }
    Ok(copies)
}

// What was sent, if anything was, once more.
fn copy_sent(sent: &Option<Sent<Tagged>>) -> Result<Option<Sent<Tagged>>, AllocError>
    ensures { IfOk result (λ copy. option_map message_of copy ≡ option_map message_of sent.now) }
{
    match sent {
        None => Ok(None),
        Some(sent) => Ok(Some(sent.copy()?)),
    }
}

impl Part {
    /// An equal part. Where the list is shared, it has its elements in common with this one's.
    pub fn copy(&self) -> Result<Part, AllocError>
        ensures { IfOk result (λ copy. part_in copy ≡ part_in self.now) }
    {
        Ok(Part {
            number: self.number,
            client: self.client.copy()?,
            list: self.list.copy()?,
            count: self.count,
            incoming: copy_messages(self.list.allocator(), &self.incoming)?,
            sent: copy_sent(&self.sent)?,
        })
    }
}

// The message is what the entry is to the client.
fn is_message(message: &Message, client: u16, entry: &Entry<Tagged>) -> bool
    ensures { IsTrue result ↔ (head_in message.now ≡ head_for client entry.now) }
{
    match message {
        Message::Ack => entry.maker() == client,
        Message::Op(op) => entry.maker() != client && op.equals(entry.operation()),
    }
}

// The messages are what the first of the entries are to the client.
fn are_first(incoming: &Downlink<Message>, client: u16, entries: &[Entry<Tagged>]) -> bool
    ensures { IsTrue result ↔ AreFirst (map head_in incoming.now.items) (map (head_for client) entries.now) }
{
    if incoming.len() > entries.len() {
        return false;
    }
    for place in 0..incoming.len() {
        let Some(message) = incoming.get(place) else {
            unreachable!()
        };
        if !is_message(message, client, &entries[place]) {
            return false;
        }
    }
    true
}

// The clients are in the same state, at the same revision and with equal operations.
fn same_client(a: &Client<Tagged>, b: &Client<Tagged>) -> bool
    ensures { IsTrue result ↔ (state_of a.now ≡ state_of b.now) }
{
    match (a, b) {
        (Client::Synchronized(a), Client::Synchronized(b)) => a.revision() == b.revision(),
        (Client::AwaitingConfirm(a), Client::AwaitingConfirm(b)) => {
            a.revision() == b.revision() && a.outstanding().equals(b.outstanding())
        }
        (Client::AwaitingWithBuffer(a), Client::AwaitingWithBuffer(b)) => {
            a.revision() == b.revision()
                && a.outstanding().equals(b.outstanding())
                && a.buffer().equals(b.buffer())
        }
        _ => false,
    }
}

// Takes so many messages off the front of the link.
fn drop_first(down: &mut Downlink<u32>, count: u32)
    ensures { down.new.items ≡ drop count down.old.items }
{
    for _place in 0..count {
        let _ = down.pop();
    }
}

// Puts the part's client into its place, from whose downlink it has used so many messages.
fn settle(seat: &mut Seat, used: u32, now: Part)
    requires { MayPush now.sent seat.old.up }
    ensures client { client_of seat.new ≡ installed (part_in now).client (client_of seat.old).message }
    ensures down { seat.new.down.items ≡ drop used seat.old.down.items }
{
    let Part {
        number: _,
        client,
        list,
        count,
        incoming: _,
        sent,
    } = now;
    drop_first(&mut seat.down, used);
    seat.client = Some(client);
    seat.list = list;
    seat.count = count;
    seat::put_up(&mut seat.up, sent);
}

impl Machine {
    // The entries of the log that the client, which is at this revision, does not have.
    fn ahead(&self, client: u16, revision: u32) -> &[Entry<Tagged>]
        requires { ClientHas self.now client (λ x. x.revision) revision }
        ensures { result.now ≡ drop revision self.now.log }
    {
        &self.server.entries()[revision as usize..]
    }

    /// A copy of the client, which has joined, with its list, count and downlink. It has sent nothing.
    pub fn part(&self, client: u16) -> Result<Part, AllocError>
        requires { ClientHas self.now client (λ x. is_joined x.phase) true }
        ensures number { IfOk result (λ part. part.number ≡ client) }
        ensures part { IfOk result (λ part. IsPartIn self.now (part_in part)) }
    {
        let seat = self.seat(client);
        let Some(joined) = &seat.client else {
            unreachable!()
        };
        let entries = self.ahead(client, joined.revision());
        let incoming = messages_to(seat.list.allocator(), client, entries)?;
        Ok(Part {
            number: client,
            client: joined.copy()?,
            list: seat.list.copy()?,
            count: seat.count,
            incoming,
            sent: None,
        })
    }

    /// Makes the client's list shared ([`Doc::share`]): copies of the list, as those of [`Machine::part`], have its elements in common from
    /// then on and copy none. Nothing else changes, also where a growth was refused.
    pub fn share(&mut self, client: u16) -> Result<(), AllocError>
        requires { client < length self.old.clients }
        ensures { self.new ≡ self.old }
    {
        self.seats[client as usize].list.share()
    }

    /// The part's client is here and as in the part (revision, state with its operations, list and count, tags included), and the part's messages
    /// are the first ones of its downlink. What either has sent does not count. It takes no memory.
    pub fn begins(&self, part: &Part) -> bool
        ensures { IsTrue result ↔ Begins (part_in part.now) self.now }
    {
        if part.number >= self.clients() {
            return false;
        }
        let seat = self.seat(part.number);
        let Some(client) = &seat.client else {
            return false;
        };
        if !same_client(client, &part.client)
            || seat.count != part.count
            || !seat.list.equals(&part.list)
        {
            return false;
        }
        let entries = self.ahead(part.number, client.revision());
        are_first(&part.incoming, part.number, entries)
    }

    /// Puts a client back that made these steps off the machine: from `start`, which begins the client as it is here and has sent nothing, its rows
    /// lead by `steps` to `now`. The machine is then as if it had performed the steps one after the other at this moment. It takes no memory.
    pub fn install(&mut self, start: &Part, now: Part, steps: &[Instr])
        requires begins { Begins (part_in start.now) self.old }
        requires unsent { start.now.sent ≡ None }
        requires instrs { AreInstrs steps.now }
        requires leads { Leads (part_in start.now) steps.now (part_in now) }
        requires room { length steps.now + self.old.steps ≤ STEP_LIMIT }
        ensures { RunsTo self.old steps.now self.new }
    {
        let used = now.client.revision() - start.client.revision();
        let seat = &mut self.seats[start.number as usize];
        settle(seat, used, now);
        self.steps += steps.len() as u32;
    }
}

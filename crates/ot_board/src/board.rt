//! The board: what it lends, what is returned to it, and what it records.

ghost use Rattle.std.specs.Prelude.{◌≡◌, ◌≢◌, ◌+◌, ◌<◌, ◌≤◌, ◌↔◌, true, false, None, Some, length, replicate, set, slice_get, take, [], ◌∷◌, IfErr, IfNone, IfOk, IfSome, IsTrue, OnErr, OnOk};
ghost use Rattle.ot_isa.specs.Program.{with_instr, AreClients, IsForClients};
ghost use Rattle.ot_isa.specs.declared.instruction.Instr.TheVariants.{Join, Take};
ghost use Rattle.ot_model.specs.Table.{step};
ghost use Rattle.ot_model.specs.Runs.{opening_of};
ghost use Rattle.ot_model.specs.Session.{RunsTo};
ghost use Rattle.ot_machine.specs.Answers.{IsPerformed};
ghost use Rattle.std.specs.List.{All};
ghost use Rattle.ot_model.specs.Table.{is_joined};
ghost use Rattle.ot_machine.specs.Readers.{ClientHas};
ghost use Rattle.ot_board.specs.Boards.{IsBegun, IsStop, stop_of, with_steps};
ghost use Rattle.ot_board.specs.Lents.{session_of};
ghost use Rattle.ot_isa.specs.declared.builder.TheConstants.{START_LIMIT};

use crate::lent::Lent;
use crate::receipt::{Receipt, Replayed};
use crate::refusal::{BoardRefusal, SettleRefusal};
use crate::session::{Remains, SESSION_LIMIT, Session};
use ot_client::Client;
use ot_isa::{Builder, INSTR_LIMIT, Instr, PushFault, Schedule};
use ot_machine::{Machine, Part, Refusal};
use std::alloc::{AllocError, Global};
use std::marker::Model;

/// A machine, the record of what it performed, the clients that are out, and a slot for each client's session.
#[derive(Drop)]
pub struct Board {
    machine: Machine,
    recorded: Builder,
    out: Vec<bool>,
    slots: Vec<Option<Lent>>,
    alloc: Global,
}

/// The least client that is out.
#[derive(Clone, Copy, Debug, PartialEq, Eq)]
pub struct StillOut(pub u16);

/// A recorded schedule, and the machine that it leads to.
#[derive(Drop)]
pub struct Finished {
    pub schedule: Schedule,
    pub machine: Machine,
}

impl Model for Board {
    ghost use Rattle.ot_board.specs.Boards.{BoardView, IsBoard, board_in};

    ghost Value = { BoardView };

    ghost view = { λ b. board_in b.machine b.recorded.program b.out.items b.slots.items };

    ghost invariant = { λ b. IsBoard (board_in b.machine b.recorded.program b.out.items b.slots.items) };
}

// Adds the instruction to a record that takes it and has the room.
fn append(builder: &mut Builder, instr: Instr)
    requires client { IsForClients builder.old.program.clients instr }
    requires fits { length builder.old.program.instrs < INSTR_LIMIT }
    requires room { 0 < builder.old.room }
    ensures program { builder.new.program ≡ with_instr builder.old.program instr }
    ensures room { builder.new.room + 1 ≡ builder.old.room }
{
    match builder.push(instr) {
        Ok(()) => {}
        Err((PushFault::BadClient, _)) => unreachable!(),
        Err((PushFault::TooMany, _)) => unreachable!(),
        Err((PushFault::Memory, _)) => unreachable!(),
    }
}

// An equal instruction, alone.
fn one_step(alloc: Global, instr: &Instr) -> Result<Vec<Instr>, AllocError>
    ensures { IfOk result (λ steps. steps.items ≡ instr.now ∷ []) }
{
    let mut steps = Vec::with_capacity(alloc, 1)?;
    let copy = instr.copy()?;
    steps.push_reserved(copy);
    Ok(steps)
}

// Performs the instruction, which the table performs.
fn perform(machine: &mut Machine, instr: &Instr) -> Result<(), AllocError>
    requires { IsPerformed (step machine.old instr.now) }
    ensures ran { OnOk result (RunsTo machine.old (instr.now ∷ []) machine.new) }
    ensures err { OnErr result (machine.new ≡ machine.old) }
{
    match machine.step(instr) {
        Ok(_shown) => Ok(()),
        Err(_) => Err(AllocError),
    }
}

// Why the machine does not perform a step, as a session's refusal.
fn stop_of(refusal: Refusal) -> SettleRefusal
    ensures { result ≡ stop_of refusal }
{
    match refusal {
        Refusal::Memory => SettleRefusal::Memory,
        _ => SettleRefusal::Stranger,
    }
}

// Performs the steps up to the first that the machine does not perform: how many it performs, and why no more.
fn perform_first(machine: &mut Machine, steps: &[Instr]) -> (usize, Option<SettleRefusal>)
    ensures within { result.0 ≤ length steps.now }
    ensures ran { RunsTo machine.old (take result.0 steps.now) machine.new }
    ensures stop { IsStop machine.new steps.now result.0 result.1 }
{
    for place in 0..steps.len() {
        match machine.perform::<false>(&steps[place]) {
            Ok(_effect) => {}
            Err(refusal) => return (place, Some(stop_of(refusal))),
        }
    }
    (steps.len(), None)
}

impl Board {
    ghost use Rattle.ot_board.specs.Boards.{board_in, fresh, outside, with_out, with_parked, HasRoomFor, IsBoard, IsHere, IsJoinRefusal, IsLendRefusal, IsAwaited, IsPickUpRefusal, IsRecorded, IsReplayed, IsReplayRefusal, IsSettleRefusal, IsTakeRefusal, AreIn, IsFinished, IsLeastOut, RunsEndIn};

    /// The board at the opening, with all of its 1 to 64 clients joined, nothing recorded and nobody out. The start text has at most 40,000 scalars.
    pub fn new(alloc: Global, clients: u16, start: &[char]) -> Result<Board, AllocError>
        requires clients { AreClients clients clients }
        requires start { length start.now ≤ START_LIMIT }
        ensures { IfOk result (λ board. board ≡ fresh clients clients start.now) }
    {
        Board::with_present(alloc, clients, clients, start)
    }

    /// The board at the opening, with the first `present` of its 1 to 64 clients joined, nothing recorded and nobody out. The start text has at
    /// most 40,000 scalars.
    pub fn with_present(
        alloc: Global,
        clients: u16,
        present: u16,
        start: &[char],
    ) -> Result<Board, AllocError>
        requires clients { AreClients clients present }
        requires start { length start.now ≤ START_LIMIT }
        ensures { IfOk result (λ board. board ≡ fresh clients present start.now) }
    {
        let machine = Machine::with_present(alloc, clients, present, start)?;
        let recorded = match Builder::with_present(alloc, clients, present, start) {
            Ok(recorded) => recorded,
            Err(_) => return Err(AllocError),
        };
        let out = vec![in alloc; false; clients as usize]?;
        let slots = empty_slots(alloc, clients as usize)?;
        Ok(Board {
            machine,
            recorded,
            out,
            slots,
            alloc,
        })
    }

    /// The recorded instructions, at most 100,000.
    pub fn steps(&self) -> &[Instr]
        ensures value { result.now ≡ self.now.recorded.instrs }
        ensures kept { IsBoard self.now }
    {
        self.recorded.instrs()
    }

    /// The machine, as the recorded instructions lead to it from the opening.
    pub fn machine(&self) -> &Machine
        ensures value { result.now ≡ self.now.state }
        ensures replays { RunsTo (opening_of self.now.recorded) self.now.recorded.instrs self.now.state }
    {
        &self.machine
    }

    /// The client is out: lent and not settled, also while it is parked.
    pub fn is_out(&self, client: u16) -> bool
        requires { client < self.now.recorded.clients }
        ensures { slice_get self.now.out client ≡ Some result }
    {
        self.out[client as usize]
    }

    /// A session waits in the client's slot.
    pub fn is_parked(&self, client: u16) -> bool
        requires { client < self.now.recorded.clients }
        ensures { IsTrue result ↔ (slice_get self.now.parked client ≡ Some None → ⊥) }
    {
        self.slots[client as usize].is_some()
    }

    // How many clients are out.
    fn outside(&self) -> usize
        ensures { result ≡ outside self.now.out }
    {
        self.out.iter().filter(|out| **out).count()
    }

    // Whether so many more steps fit into the record.
    fn has_room_for(&self, count: usize) -> bool
        requires { count ≤ SESSION_LIMIT }
        ensures { IsTrue result ↔ HasRoomFor self.now count }
    {
        self.recorded.instrs().len() + SESSION_LIMIT * self.outside() + count <= INSTR_LIMIT
    }

    // Performs the instruction, which the table performs, and records it.
    fn record_step(&mut self, instr: Instr) -> Result<Receipt, AllocError>
        requires performed { IsPerformed (step self.old.state instr) }
        requires client { IsForClients self.old.recorded.clients instr }
        requires room { HasRoomFor self.old 1 }
        ensures ok { IfOk result (λ r. IsRecorded self.old (instr ∷ []) self.old.out self.new r) }
        ensures err { OnErr result (self.new ≡ self.old) }
    {
        let steps = one_step(self.alloc, &instr)?;
        self.recorded.reserve(1)?;
        let first = self.recorded.instrs().len();
        perform(&mut self.machine, &instr)?;
        append(&mut self.recorded, instr);
        Ok(Receipt { first, steps })
    }

    /// The server takes the client's message, also where the client is out. Refusals in order: `NoSuchClient`, `NotJoined`, `RecordFull`,
    /// `LinkEmpty`, `Memory`.
    pub fn take(&mut self, client: u16) -> Result<Receipt, BoardRefusal>
        ensures ok { IfOk result (λ r. IsRecorded self.old (Take client ∷ []) self.old.out self.new r) }
        ensures refused { IfErr result (λ r. IsTakeRefusal self.old client r) }
        ensures unchanged { OnErr result (self.new ≡ self.old) }
    {
        if client >= self.machine.clients() {
            return Err(BoardRefusal::NoSuchClient);
        }
        if !self.machine.joined(client) {
            return Err(BoardRefusal::NotJoined);
        }
        if !self.has_room_for(1) {
            return Err(BoardRefusal::RecordFull);
        }
        if self.machine.up(client).is_none() {
            return Err(BoardRefusal::LinkEmpty);
        }
        let receipt = self.record_step(Instr::Take(client))?;
        Ok(receipt)
    }

    /// The client joins. Refusals in order: `NoSuchClient`, `AlreadyJoined`, `RecordFull`, `Memory`.
    pub fn join(&mut self, client: u16) -> Result<Receipt, BoardRefusal>
        ensures ok { IfOk result (λ r. IsRecorded self.old (Join client ∷ []) self.old.out self.new r) }
        ensures refused { IfErr result (λ r. IsJoinRefusal self.old client r) }
        ensures unchanged { OnErr result (self.new ≡ self.old) }
    {
        if client >= self.machine.clients() {
            return Err(BoardRefusal::NoSuchClient);
        }
        if self.machine.joined(client) {
            return Err(BoardRefusal::AlreadyJoined);
        }
        if !self.has_room_for(1) {
            return Err(BoardRefusal::RecordFull);
        }
        let receipt = self.record_step(Instr::Join(client))?;
        Ok(receipt)
    }

    /// Lends the client out: a session of it and its downlink as they are now. Refusals in order: `NoSuchClient`, `NotJoined`, `Out`,
    /// `RecordFull` where 64 more steps may not fit, `Memory`.
    pub fn lend(&mut self, client: u16) -> Result<Lent, BoardRefusal>
        ensures ok { IfOk result (λ lent. IsBegun self.old.state client (session_of lent)) }
        ensures out { OnOk result (self.new ≡ with_out self.old client true) }
        ensures was_in { OnOk result (slice_get self.old.out client ≡ Some false) }
        ensures refused { IfErr result (λ r. IsLendRefusal self.old client r) }
        ensures unchanged { OnErr result (self.new ≡ self.old) }
    {
        if client >= self.machine.clients() {
            return Err(BoardRefusal::NoSuchClient);
        }
        if !self.machine.joined(client) {
            return Err(BoardRefusal::NotJoined);
        }
        if self.out[client as usize] {
            return Err(BoardRefusal::Out);
        }
        if !self.has_room_for(SESSION_LIMIT) {
            return Err(BoardRefusal::RecordFull);
        }
        self.machine.share(client)?;
        let lent = copy_out(self.alloc, &self.machine, client)?;
        self.out[client as usize] = true;
        Ok(lent)
    }

    // Whether the session's client is out here and not parked.
    fn is_awaited(&self, lent: &Lent) -> bool
        ensures { IsTrue result ↔ IsAwaited self.now (session_of lent.now) }
    {
        let client = lent.client() as usize;
        client < self.out.len() && self.out[client] && self.slots[client].is_none()
    }

    // Whether the session's client is out here and not parked, and is as the session's start.
    fn is_here(&self, lent: &Lent) -> bool
        ensures { IsTrue result ↔ IsHere self.now (session_of lent.now) }
    {
        self.is_awaited(lent) && self.machine.begins(lent.start())
    }

    /// Puts the session into its client's slot, where it waits. `Stranger` where the session's client is not out here, or is parked, or the
    /// session's start does not begin it; the session then comes back. It takes no memory.
    pub fn park(&mut self, lent: Lent) -> Result<(), (SettleRefusal, Lent)>
        ensures ok { OnOk result (self.new ≡ with_parked self.old (session_of lent).start.number (Some (session_of lent))) }
        ensures here { OnOk result (IsHere self.old (session_of lent)) }
        ensures refused { IfErr result (λ e. e.0 ≡ SettleRefusal.Stranger) }
        ensures stranger { IfErr result (λ e. IsSettleRefusal self.old (session_of lent) e.0) }
        ensures back { IfErr result (λ e. e.1 ≡ lent) }
        ensures unchanged { OnErr result (self.new ≡ self.old) }
    {
        if self.is_here(&lent) {
            self.hold(lent)
        } else {
            Err((SettleRefusal::Stranger, lent))
        }
    }

    /// Puts the session into its client's slot, as [`Board::park`] does, whether or not the session's start begins the board's client: nothing
    /// is compared. `Stranger` where the session's client is not out here, or is parked; the session then comes back. It takes no memory.
    pub fn hold(&mut self, lent: Lent) -> Result<(), (SettleRefusal, Lent)>
        ensures ok { OnOk result (self.new ≡ with_parked self.old (session_of lent).start.number (Some (session_of lent))) }
        ensures awaited { OnOk result (IsAwaited self.old (session_of lent)) }
        ensures refused { IfErr result (λ e. e.0 ≡ SettleRefusal.Stranger) }
        ensures stranger { IfErr result (λ e. IsReplayRefusal self.old (session_of lent) e.0) }
        ensures back { IfErr result (λ e. e.1 ≡ lent) }
        ensures unchanged { OnErr result (self.new ≡ self.old) }
    {
        if self.is_awaited(&lent) {
            let client = lent.client() as usize;
            fill(&mut self.slots, client, lent);
            Ok(())
        } else {
            Err((SettleRefusal::Stranger, lent))
        }
    }

    /// The session that waits in the client's slot. Refusals in order: `NoSuchClient`, `NotParked`. It takes no memory.
    pub fn pick_up(&mut self, client: u16) -> Result<Lent, BoardRefusal>
        ensures ok { IfOk result (λ lent. slice_get self.old.parked client ≡ Some (Some (session_of lent))) }
        ensures left { OnOk result (self.new ≡ with_parked self.old client None) }
        ensures refused { IfErr result (λ r. IsPickUpRefusal self.old client r) }
        ensures unchanged { OnErr result (self.new ≡ self.old) }
    {
        if client >= self.machine.clients() {
            return Err(BoardRefusal::NoSuchClient);
        }
        if self.slots[client as usize].is_none() {
            return Err(BoardRefusal::NotParked);
        }
        let Some(lent) = empty(&mut self.slots, client as usize) else {
            unreachable!()
        };
        Ok(lent)
    }

    /// Appends the session's steps to the record and installs them: the machine is then as if it had performed them one after the other at
    /// this moment, and the receipt says where they stand. Refusals in order: `Stranger`, `Memory`; the session then comes back.
    pub fn settle(&mut self, lent: Lent) -> Result<Receipt, (SettleRefusal, Lent)>
        ensures ok { IfOk result (λ r. IsRecorded self.old (session_of lent).steps (set self.old.out (session_of lent).start.number false) self.new r) }
        ensures here { OnOk result (IsHere self.old (session_of lent)) }
        ensures refused { IfErr result (λ e. IsSettleRefusal self.old (session_of lent) e.0) }
        ensures back { IfErr result (λ e. e.1 ≡ lent) }
        ensures unchanged { OnErr result (self.new ≡ self.old) }
    {
        if !self.is_here(&lent) {
            return Err((SettleRefusal::Stranger, lent));
        }
        let Ok(copies) = copy_instrs(self.alloc, lent.steps()) else {
            return Err((SettleRefusal::Memory, lent));
        };
        match self.recorded.reserve(copies.len()) {
            Ok(()) => {}
            Err(_) => return Err((SettleRefusal::Memory, lent)),
        }
        let first = self.recorded.instrs().len();
        let client = lent.client() as usize;
        let Remains { start, now, steps } = lent.into_remains();
        self.machine.install(&start, now, steps.as_slice());
        append_all(&mut self.recorded, copies);
        self.out[client] = false;
        Ok(Receipt { first, steps })
    }

    /// Has the machine perform the session's steps, one after the other at this moment, and records those that it performs. What the session
    /// made off the machine is dropped, so nothing is compared. Refused at once, in order: `Stranger` where the session's client is not out
    /// here, or is parked, and `Memory` where the record or the copies of the steps find no room; the session then comes back. Else the client
    /// is in again, and the answer says which steps were performed and why no more: none of a session that is as `settle` requires it is refused,
    /// unless memory runs out.
    pub fn replay(&mut self, lent: Lent) -> Result<Replayed, (SettleRefusal, Lent)>
        ensures ok { IfOk result (λ r. IsReplayed self.old (session_of lent) self.new r) }
        ensures awaited { OnOk result (IsAwaited self.old (session_of lent)) }
        ensures here { IsHere self.old (session_of lent) → IfOk result (λ r. r.stopped ≢ Some SettleRefusal.Stranger) }
        ensures refused { IfErr result (λ e. IsReplayRefusal self.old (session_of lent) e.0) }
        ensures back { IfErr result (λ e. e.1 ≡ lent) }
        ensures unchanged { OnErr result (self.new ≡ self.old) }
    {
        if !self.is_awaited(&lent) {
            return Err((SettleRefusal::Stranger, lent));
        }
        let Ok(mut performed) = copy_instrs(self.alloc, lent.steps()) else {
            return Err((SettleRefusal::Memory, lent));
        };
        match self.recorded.reserve(performed.len()) {
            Ok(()) => {}
            Err(_) => return Err((SettleRefusal::Memory, lent)),
        }
        let first = self.recorded.instrs().len();
        let client = lent.client() as usize;
        let mut steps = lent.into_steps();
        let (count, stopped) = perform_first(&mut self.machine, steps.as_slice());
        steps.truncate(count);
        performed.truncate(count);
        append_all(&mut self.recorded, performed);
        self.out[client] = false;
        Ok(Replayed {
            receipt: Receipt { first, steps },
            stopped,
        })
    }

    // The least client that is out.
    fn first_out(&self) -> Option<u16>
        ensures some { IfSome result (λ client. IsLeastOut self.now.out client) }
        ensures none { IfNone result (AreIn self.now.out) }
    {
        for client in 0..self.machine.clients() {
            if self.out[client as usize] {
                return Some(client);
            }
        }
        None
    }

    /// The recorded schedule and the machine that it leads to, where no client is out; else the least client that is out, and the board back.
    /// `ot_machine::run` of the schedule gives a machine in the same state, unless memory runs out. It takes no memory.
    pub fn finish(self) -> Result<Finished, (StillOut, Board)>
        ensures ok { IfOk result (λ finished. IsFinished self finished.schedule finished.machine) }
        ensures runs { IfOk result (λ finished. RunsEndIn finished.schedule finished.machine) }
        ensures out { IfErr result (λ e. IsLeastOut self.out e.0.0) }
        ensures back { IfErr result (λ e. e.1 ≡ self) }
    {
        if let Some(client) = self.first_out() {
            return Err((StillOut(client), self));
        }
        Ok(Finished {
            schedule: self.recorded.finish(),
            machine: self.machine,
        })
    }
}

// Slots without a session.
fn empty_slots(alloc: Global, count: usize) -> Result<Vec<Option<Lent>>, AllocError>
    ensures { IfOk result (λ slots. slots.items ≡ replicate count None) }
{
    let mut slots = Vec::with_capacity(alloc, count)?;
    for place in 0..count {
        let _ = place;
        slots.push(None)?;
    }
    Ok(slots)
}

// Puts the session into the slot.
fn fill(slots: &mut Vec<Option<Lent>>, client: usize, lent: Lent)
    requires { client < length slots.old.items }
    ensures { slots.new.items ≡ set slots.old.items client (Some lent) }
{
    drop(slots[client].replace(lent));
}

// Takes the session, if there is one, out of the slot.
fn empty(slots: &mut Vec<Option<Lent>>, client: usize) -> Option<Lent>
    requires { client < length slots.old.items }
    ensures value { slice_get slots.old.items client ≡ Some result }
    ensures rest { slots.new.items ≡ set slots.old.items client None }
{
    slots[client].take()
}

// Equal instructions.
fn copy_instrs(alloc: Global, instrs: &[Instr]) -> Result<Vec<Instr>, AllocError>
    ensures { IfOk result (λ copies. copies.items ≡ instrs.now) }
{
    let mut copies = Vec::with_capacity(alloc, instrs.len())?;
    for instr in instrs {
        let copy = instr.copy()?;
        copies.push(copy)?;
    }
    Ok(copies)
}

// Adds the instructions to a record that takes them and has the room.
fn append_all(builder: &mut Builder, instrs: Vec<Instr>)
    requires clients { All (IsForClients builder.old.program.clients) instrs.items }
    requires fits { length builder.old.program.instrs + length instrs.items ≤ INSTR_LIMIT }
    requires room { length instrs.items ≤ builder.old.room }
    ensures { builder.new.program ≡ with_steps builder.old.program instrs.items }
{
    for instr in instrs {
        append(builder, instr);
    }
}

// A session of the client, which has joined, without steps. What it has as its start and what it changes share their list.
fn copy_out(alloc: Global, machine: &Machine, client: u16) -> Result<Lent, AllocError>
    requires { ClientHas machine.now client (λ x. is_joined x.phase) true }
    ensures { IfOk result (λ lent. IsBegun machine.now client (session_of lent)) }
{
    // For the proof: the invariant of every machine.
    let _sound = machine.clients();
    let steps = Vec::with_capacity(alloc, SESSION_LIMIT)?;
    let start = machine.part(client)?;
    let now = start.copy()?;
    let Part {
        number: _,
        client,
        list,
        count,
        incoming,
        sent,
    } = now;
    Ok(match client {
        Client::Synchronized(state) => {
            Lent::Synchronized(Session::begin(start, state, list, count, incoming, sent, steps))
        }
        Client::AwaitingConfirm(state) => {
            Lent::AwaitingConfirm(Session::begin(start, state, list, count, incoming, sent, steps))
        }
        Client::AwaitingWithBuffer(state) => Lent::AwaitingWithBuffer(Session::begin(
            start, state, list, count, incoming, sent, steps,
        )),
    })
}

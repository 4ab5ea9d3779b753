//! A session that grows.

ghost use Rattle.std.specs.Prelude.{◌≡◌, ◌≢◌, ◌+◌, ◌<◌, ◌≤◌, ◌↔◌, ◌∷◌, [], suc, false, true, length, IfErr, IfOk, IfSome, IsTrue, None, OnOk, Some};
ghost use Rattle.ot_isa.specs.Program.{with_instr, AreClients, IsForClients};
ghost use Rattle.ot_isa.specs.declared.instruction.Instr.TheVariants as instr;
ghost use Rattle.ot_model.specs.Table.{step, IsQuiet, Refused};
ghost use Rattle.ot_model.specs.declared.shown.Refusal.TheVariants as refusal;
ghost use Rattle.ot_machine.specs.Readers.{ClientHas};
ghost use Rattle.ot_generate.specs.Completed.{next_of, receipt_next, take_next};
ghost use Rattle.ot_generate.specs.Left.{drain_due, edit_due, left, work};
ghost use Rattle.ot_generate.specs.Walks.{begun, HasNoMessage, HasReceived, HasSpare, IsAlong, IsAtRest, IsMade, IsPossible, IsRead, IsReadAt, IsWalk, MayEdit, MayMake, opened_up};
ghost use Rattle.ot_isa.specs.declared.builder.TheConstants.{INSTR_LIMIT, START_LIMIT};

use crate::choice::{Choice, Move};
use crate::edits::draw_edit;
use crate::habits::Habits;
use ot_isa::{Builder, Instr, PushFault, Schedule};
use ot_machine::{Head, INSERTED_LIMIT, Machine, Phase};
use ot_model::Refusal;
use ot_text::TextOp;
use rand_pcg::Pcg32;
use std::alloc::{AllocError, Global};
use std::marker::Model;

/// The weights of moves that have no client's own.
const TAKE: u32 = 5;

const JOIN: u32 = 2;

const READ: u32 = 1;

/// A machine, the instructions that have led to it, how many there may be, and whether the session may end anyhow.
#[derive(Drop)]
pub struct Walk {
    machine: Machine,
    recorded: Builder,
    room: usize,
    is_open: bool,
    alloc: Global,
}

impl Model for Walk {
    ghost use Rattle.ot_generate.specs.Walks.{IsWalk, WalkView};

    ghost Value = { WalkView };

    ghost view = { λ w. record { recorded = w.recorded.program; state = w.machine; room = w.room; is_open = w.is_open } };

    ghost invariant = { λ w. IsWalk (record { recorded = w.recorded.program; state = w.machine; room = w.room; is_open = w.is_open }) };
}

// What a client still has to send and to receive.
fn work(machine: &Machine, client: u16) -> usize
    requires { client < length machine.now.clients }
    ensures { ClientHas machine.now client (work (length machine.now.clients) (length machine.now.log)) result }
{
    let round = machine.clients() as usize + 1;
    let sent = if machine.up(client).is_some() {
        round
    } else {
        0
    };
    let kept = if machine.phase(client) == Phase::AwaitingWithBuffer {
        round
    } else {
        0
    };
    sent + kept + machine.down_len(client)
}

// After at most so many takes and receipts all is quiet.
fn left(machine: &Machine) -> usize
    requires { left machine.now ≤ INSTR_LIMIT }
    ensures { result ≡ left machine.now }
{
    let mut left = 0;
    for client in 0..machine.clients() {
        left += work(machine, client);
    }
    left
}

// Adds the instruction to a record that takes it and has the room.
fn append(recorded: &mut Builder, instr: Instr)
    requires client { IsForClients recorded.old.program.clients instr }
    requires fits { length recorded.old.program.instrs < INSTR_LIMIT }
    requires room { 0 < recorded.old.room }
    ensures { recorded.new.program ≡ with_instr recorded.old.program instr }
{
    match recorded.push(instr) {
        Ok(()) => {}
        Err((PushFault::BadClient, _)) => unreachable!(),
        Err((PushFault::TooMany, _)) => unreachable!(),
        Err((PushFault::Memory, _)) => unreachable!(),
    }
}

impl Walk {
    /// The session at its opening. Of its `room`, at most 100,000 instructions, nothing is taken yet.
    pub fn new(
        alloc: Global,
        clients: u16,
        present: u16,
        start: &[char],
        room: usize,
        is_open: bool,
    ) -> Result<Walk, AllocError>
        requires clients { AreClients clients present }
        requires start { length start.now ≤ START_LIMIT }
        requires room { room ≤ INSTR_LIMIT }
        ensures { IfOk result (λ walk. walk ≡ begun clients present start.now room is_open) }
    {
        let machine = Machine::with_present(alloc, clients, present, start)?;
        let recorded = match Builder::with_present(alloc, clients, present, start) {
            Ok(recorded) => recorded,
            Err(_) => return Err(AllocError),
        };
        Ok(Walk {
            machine,
            recorded,
            room,
            is_open,
            alloc,
        })
    }

    /// Gives the caller the type invariant.
    pub fn keeps(&self)
        ensures { IsWalk self.now }
    {
        // For the proof: the invariant of every walk.
        let _room = self.room;
    }

    // How many more instructions have room, once what is owed to the end is made.
    fn spare(&self) -> usize
        ensures { HasSpare self.now result }
    {
        let made = self.recorded.instrs().len();
        let owed = if self.is_open { 0 } else { left(&self.machine) };
        self.room - made - owed
    }

    // What an edit takes of the room.
    fn edit_due(&self) -> usize
        ensures { result ≡ edit_due self.now.is_open (length self.now.state.clients) }
    {
        if self.is_open {
            1
        } else {
            self.machine.clients() as usize + 2
        }
    }

    // What a take or a receipt takes of it.
    fn drain_due(&self) -> usize
        ensures { result ≡ drain_due self.now.is_open }
    {
        if self.is_open { 1 } else { 0 }
    }

    // An edit of the client, where it can be made.
    fn edit(&self, client: u16, spare: usize) -> Option<Move>
        requires client { client < length self.now.state.clients }
        requires spare { HasSpare self.now spare }
        ensures { IfSome result (IsPossible self.now) }
    {
        if !self.machine.joined(client) || spare < self.edit_due() {
            return None;
        }
        Some(Move::Edits(client))
    }

    fn join(&self, client: u16, spare: usize) -> Option<Move>
        requires client { client < length self.now.state.clients }
        requires spare { HasSpare self.now spare }
        ensures { IfSome result (IsPossible self.now) }
    {
        if self.machine.joined(client) || spare == 0 {
            return None;
        }
        Some(Move::Makes(Instr::Join(client)))
    }

    fn take(&self, client: u16, spare: usize) -> Option<Move>
        requires client { client < length self.now.state.clients }
        requires spare { HasSpare self.now spare }
        ensures some { IfSome result (IsPossible self.now) }
        ensures none { result ≡ None → self.now.is_open ≡ false → HasNoMessage self.now.state client }
    {
        if !self.machine.joined(client) || spare < self.drain_due() {
            return None;
        }
        if self.machine.up(client).is_none() {
            return None;
        }
        Some(Move::Makes(Instr::Take(client)))
    }

    // The receipt of what is next on the client's link.
    fn receipt(&self, client: u16, spare: usize) -> Option<Move>
        requires client { client < length self.now.state.clients }
        requires spare { HasSpare self.now spare }
        ensures some { IfSome result (IsPossible self.now) }
        ensures none { result ≡ None → self.now.is_open ≡ false → HasReceived self.now.state client }
    {
        if !self.machine.joined(client) || spare < self.drain_due() {
            return None;
        }
        match self.machine.down(client, 0) {
            Some(Head::Ack) => Some(Move::Makes(Instr::Acknowledge(client))),
            Some(Head::Op(_)) => Some(Move::Makes(Instr::Deliver(client))),
            None => None,
        }
    }

    fn read(&self, client: u16, spare: usize) -> Option<Move>
        requires client { client < length self.now.state.clients }
        requires spare { HasSpare self.now spare }
        ensures { IfSome result (IsPossible self.now) }
    {
        if !self.machine.joined(client) || spare == 0 {
            return None;
        }
        Some(Move::Makes(Instr::Read(client)))
    }

    fn read_server(&self, spare: usize) -> Option<Move>
        requires { HasSpare self.now spare }
        ensures some { IfSome result (IsPossible self.now) }
        ensures none { result ≡ None → spare ≡ 0 }
    {
        if spare == 0 {
            return None;
        }
        self.keeps();
        Some(Move::Makes(Instr::ReadServer))
    }

    // Offers what the client can do, and what the server can do for it.
    fn offer(
        &self,
        chance: &mut Pcg32,
        habits: &Habits,
        client: u16,
        spare: usize,
        choice: &mut Choice,
    )
        requires client { client < length self.now.state.clients }
        requires spare { HasSpare self.now spare }
        requires best { IfSome choice.old.best (IsPossible self.now) }
        ensures best { IfSome choice.new.best (IsPossible self.now) }
        ensures none { choice.new.best ≡ None → choice.old.best ≡ None }
        ensures rest { choice.new.best ≡ None → self.now.is_open ≡ false → IsAtRest self.now.state client }
    {
        choice.offer(chance, habits.typing(client), self.edit(client, spare));
        choice.offer(chance, TAKE, self.take(client, spare));
        choice.offer(
            chance,
            habits.hearing(client).saturating_mul(2),
            self.receipt(client, spare),
        );
        choice.offer(chance, JOIN, self.join(client, spare));
        choice.offer(chance, READ, self.read(client, spare));
    }

    /// A move that is possible, drawn among all that are. None where the room is used up; and unless the end is open, all is quiet then.
    pub fn choose(&self, chance: &mut Pcg32, habits: &Habits) -> Option<Move>
        ensures some { IfSome result (IsPossible self.now) }
        ensures full { result ≡ None → length self.now.recorded.instrs ≡ self.now.room }
        ensures quiet { result ≡ None → self.now.is_open ≡ false → IsQuiet self.now.state }
    {
        let spare = self.spare();
        let mut choice = Choice::new();
        for client in 0..self.machine.clients() {
            self.offer(chance, habits, client, spare, &mut choice);
        }
        choice.offer(chance, READ, self.read_server(spare));
        choice.best
    }

    // An edit that fits the client's document.
    fn draw(&self, chance: &mut Pcg32, client: u16) -> Result<TextOp<char>, AllocError>
        requires { MayEdit self.now client }
        ensures { IfOk result (λ op. MayMake self.now (instr.Edit client op)) }
    {
        let size = self.machine.document(client).len();
        let inserted = self.machine.inserted(client) as usize;
        draw_edit(self.alloc, chance, size, INSERTED_LIMIT - inserted)
    }

    // Performs the instruction and records it.
    fn push(&mut self, instr: Instr) -> Result<(), AllocError>
        requires { MayMake self.old instr }
        ensures { OnOk result (IsMade self.old instr self.new) }
    {
        self.recorded.reserve(1)?;
        match self.machine.perform::<false>(&instr) {
            Ok(_effect) => {}
            Err(_) => return Err(AllocError),
        }
        // For the proof: the invariant of every machine.
        let _sound = self.machine.clients();
        append(&mut self.recorded, instr);
        Ok(())
    }

    /// Makes a move that is possible.
    pub fn make(&mut self, chance: &mut Pcg32, next: Move) -> Result<(), AllocError>
        requires { IsPossible self.old next }
        ensures along { OnOk result (IsAlong self.old self.new) }
        ensures one { OnOk result (length self.new.recorded.instrs ≡ suc (length self.old.recorded.instrs)) }
        ensures kept { OnOk result (IsWalk self.new) }
    {
        match next {
            Move::Makes(instr) => self.push(instr)?,
            Move::Edits(client) => {
                let op = self.draw(chance, client)?;
                self.push(Instr::Edit(client, op))?;
            }
        }
        self.keeps();
        Ok(())
    }

    /// How many clients there are, 1 to 64.
    pub fn clients(&self) -> u16
        ensures { result ≡ length self.now.state.clients }
    {
        self.machine.clients()
    }

    /// From here on the session may end anyhow, and has room for a read of each client and of the server.
    pub fn open_up(&mut self)
        requires { length self.old.recorded.instrs + suc (length self.old.state.clients) ≤ INSTR_LIMIT }
        ensures { self.new ≡ opened_up self.old }
    {
        let made = self.recorded.instrs().len();
        self.room = made + self.machine.clients() as usize + 1;
        self.is_open = true;
    }

    /// Reads the client's document, if it has joined.
    pub fn read_client(&mut self, client: u16) -> Result<(), AllocError>
        requires client { client < length self.old.state.clients }
        requires is_open { self.old.is_open ≡ true }
        requires room { length self.old.recorded.instrs < self.old.room }
        ensures { OnOk result (IsReadAt self.old client self.new) }
    {
        if self.machine.joined(client) {
            self.push(Instr::Read(client))?;
        }
        Ok(())
    }

    /// Reads the server's document.
    pub fn read_last(&mut self) -> Result<(), AllocError>
        requires is_open { self.old.is_open ≡ true }
        requires room { length self.old.recorded.instrs < self.old.room }
        ensures { OnOk result (IsRead self.old (instr.ReadServer ∷ []) self.new) }
    {
        self.keeps();
        self.push(Instr::ReadServer)?;
        Ok(())
    }

    /// Whether no further instruction has room, where the session may end anyhow.
    pub fn is_full(&self) -> bool
        requires { self.now.is_open ≡ true }
        ensures { IsTrue result ↔ (length self.now.recorded.instrs ≡ self.now.room) }
    {
        self.spare() == 0
    }

    // The take of the client's message, where one is on its way to the server.
    fn take_next(&self, client: u16) -> Option<Instr>
        requires client { client < length self.now.state.clients }
        ensures { ClientHas self.now.state client (take_next client) result }
    {
        if !self.machine.joined(client) || self.machine.up(client).is_none() {
            return None;
        }
        Some(Instr::Take(client))
    }

    // The receipt of what is at the head of the client's link, where something is.
    fn receipt_next(&self, client: u16) -> Option<Instr>
        requires client { client < length self.now.state.clients }
        ensures { ClientHas self.now.state client (receipt_next self.now.state client) result }
    {
        match self.machine.down(client, 0) {
            Some(Head::Ack) => Some(Instr::Acknowledge(client)),
            Some(Head::Op(_)) => Some(Instr::Deliver(client)),
            None => None,
        }
    }

    /// What comes next on the way to quiet: the take of the first client, by number, whose message is on its way; where there is none, the receipt
    /// of the first client to whom something is on its way.
    pub fn next(&self) -> Option<Instr>
        ensures { result ≡ next_of self.now.state }
    {
        for client in 0..self.machine.clients() {
            if let Some(instr) = self.take_next(client) {
                return Some(instr);
            }
        }
        for client in 0..self.machine.clients() {
            if let Some(instr) = self.receipt_next(client) {
                return Some(instr);
            }
        }
        None
    }

    /// Makes what comes next.
    pub fn make_next(&mut self, instr: Instr) -> Result<(), AllocError>
        requires next { next_of self.old.state ≡ Some instr }
        requires is_open { self.old.is_open ≡ true }
        requires room { length self.old.recorded.instrs < self.old.room }
        ensures { OnOk result (IsMade self.old instr self.new) }
    {
        self.keeps();
        self.push(instr)
    }

    /// Performs an instruction that was given, and records it. It is refused where the table refuses it; `Memory` may come besides.
    pub fn follow(&mut self, instr: &Instr) -> Result<(), Refusal>
        requires client { IsForClients self.old.recorded.clients instr.now }
        requires is_open { self.old.is_open ≡ true }
        requires room { length self.old.recorded.instrs < self.old.room }
        ensures ok { OnOk result (IsMade self.old instr.now self.new) }
        ensures refused { IfErr result (λ r. r ≢ refusal.Memory → step self.old.state instr.now ≡ Refused r) }
    {
        self.recorded.reserve(1)?;
        let copy = instr.copy()?;
        self.machine.perform::<false>(instr)?;
        // For the proof: the invariant of every machine.
        let _sound = self.machine.clients();
        append(&mut self.recorded, copy);
        Ok(())
    }

    /// The schedule of what was made. Takes no memory.
    pub fn finish(self) -> Schedule
        ensures value { result ≡ self.recorded }
        ensures kept { IsWalk self }
    {
        self.recorded.finish()
    }
}

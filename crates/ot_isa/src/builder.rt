//! Making schedules.

ghost use Rattle.std.specs.Prelude.{◌≡◌, ◌+◌, ◌<◌, ◌≤◌, ◌↔◌, length, OnOk, OnErr, IfOk, IfErr, IsErrOf, IsOk};
ghost use Rattle.ot_isa.specs.Program.{opening, with_instr, AreClients, AreNoClients, IsForClients, IsRefusal, IsProgram};

use crate::instruction::Instr;
use crate::refusal::{OpeningFault, PushFault};
use crate::scalars::are_scalars;
use crate::schedule::Schedule;
use std::alloc::{AllocError, Global};
use std::marker::Model;

/// The most clients of a schedule.
pub const CLIENT_LIMIT: u16 = 64;

/// The most characters of a start text.
pub const START_LIMIT: usize = 40_000;

/// The most instructions of a schedule.
pub const INSTR_LIMIT: usize = 100_000;

/// A schedule that is being made: what it says so far is within the limits at each moment. Contracts see beside it
/// the room, for how many more instructions memory is there.
#[derive(Drop)]
pub struct Builder {
    clients: u16,
    present: u16,
    start: Vec<char>,
    instrs: Vec<Instr>,
}

impl Model for Builder {
    ghost use Rattle.std.specs.Prelude.{◌-◌, ◌≤◌, vec_len, vec_capacity};
    ghost use Rattle.ot_isa.specs.Program.{BuilderView, IsProgram};

    ghost Value = { BuilderView };

    ghost view = { λ b. record { program = record { clients = b.clients; present = b.present; start = b.start.items; instrs = b.instrs.items }; room = vec_capacity b.instrs - vec_len b.instrs } };

    ghost invariant = { λ b. IsProgram (record { clients = b.clients; present = b.present; start = b.start.items; instrs = b.instrs.items }) };
}

impl Builder {
    /// No instruction yet, and all clients present. `BadClient` where there are not 1 to 64 clients, then `TooLong`
    /// where the start text has more than 40,000 characters, then `Memory`.
    pub fn new(alloc: Global, clients: u16, start: &[char]) -> Result<Builder, OpeningFault>
        ensures ok { IfOk result (λ b. b.program ≡ opening clients clients start.now) }
        ensures bad_client { IsErrOf result OpeningFault.BadClient ↔ AreNoClients clients clients }
        ensures too_long { IsErrOf result OpeningFault.TooLong ↔ (AreClients clients clients × (START_LIMIT < length start.now)) }
    {
        Builder::with_present(alloc, clients, clients, start)
    }

    /// No instruction yet, and the first `present` clients present. `BadClient` where there are not 1 to 64 clients or
    /// more present ones than clients, then `TooLong` where the start text has more than 40,000 characters, then
    /// `Memory`.
    pub fn with_present(
        alloc: Global,
        clients: u16,
        present: u16,
        start: &[char],
    ) -> Result<Builder, OpeningFault>
        ensures ok { IfOk result (λ b. b.program ≡ opening clients present start.now) }
        ensures bad_client { IsErrOf result OpeningFault.BadClient ↔ AreNoClients clients present }
        ensures too_long { IsErrOf result OpeningFault.TooLong ↔ (AreClients clients present × (START_LIMIT < length start.now)) }
    {
        if clients == 0 {
            return Err(OpeningFault::BadClient);
        }
        if clients > CLIENT_LIMIT {
            return Err(OpeningFault::BadClient);
        }
        if present > clients {
            return Err(OpeningFault::BadClient);
        }
        if start.len() > START_LIMIT {
            return Err(OpeningFault::TooLong);
        }
        are_scalars(start);
        let start = Vec::from_slice(alloc, start)?;
        Ok(Builder {
            clients,
            present,
            start,
            instrs: Vec::new(alloc),
        })
    }

    /// Adds an instruction at the end. `BadClient` where it names a client that is not there, then `TooMany` at
    /// 100,000 instructions, then `Memory`, which comes only where there is no room. A push takes one of the room, and
    /// takes no memory where there is some. After a refusal nothing has changed, and the instruction comes back.
    pub fn push(&mut self, instr: Instr) -> Result<(), (PushFault, Instr)>
        ensures ok { OnOk result (self.new.program ≡ with_instr self.old.program instr) }
        ensures fits { OnOk result (IsForClients self.old.program.clients instr × (length self.old.program.instrs < INSTR_LIMIT)) }
        ensures room { 0 < self.old.room → OnOk result (self.new.room + 1 ≡ self.old.room) }
        ensures refusal { IfErr result (λ e. IsRefusal self.old instr e.0) }
        ensures err { IfErr result (λ e. (e.1 ≡ instr) × (self.new ≡ self.old)) }
    {
        if let Some(client) = instr.client() {
            if client >= self.clients {
                return Err((PushFault::BadClient, instr));
            }
        }
        if self.instrs.len() >= INSTR_LIMIT {
            return Err((PushFault::TooMany, instr));
        }
        if self.instrs.capacity() == self.instrs.len() {
            match self.instrs.reserve(1) {
                Ok(()) => {}
                Err(_) => return Err((PushFault::Memory, instr)),
            }
        }
        instr.inserts_scalars();
        self.instrs.push_reserved(instr);
        Ok(())
    }

    /// Finds memory for `count` more instructions in all: the room is then at least `count`, and not less than it was.
    pub fn reserve(&mut self, count: usize) -> Result<(), AllocError>
        ensures program { self.new.program ≡ self.old.program }
        ensures ok { OnOk result (count ≤ self.new.room) }
        ensures err { OnErr result (self.new ≡ self.old) }
        ensures kept { self.old.room ≤ self.new.room }
        ensures succeeds { count ≤ self.old.room → IsOk result }
    {
        self.instrs.reserve(count)
    }

    /// How many clients there are, 1 to 64.
    pub fn clients(&self) -> u16
        ensures { result ≡ self.now.program.clients }
    {
        self.clients
    }

    /// How many of them, the first ones, are there from the start: 0 to `clients`.
    pub fn present(&self) -> u16
        ensures { result ≡ self.now.program.present }
    {
        self.present
    }

    /// For how many more instructions memory is there.
    pub fn room(&self) -> usize
        ensures { result ≡ self.now.room }
    {
        self.instrs.capacity() - self.instrs.len()
    }

    /// The instructions so far, at most 100,000. The call also gives its caller the type invariant of schedules.
    pub fn instrs(&self) -> &[Instr]
        ensures value { result.now ≡ self.now.program.instrs }
        ensures limits { IsProgram self.now.program }
    {
        self.instrs.as_slice()
    }

    /// The schedule of what was pushed. Takes no memory.
    pub fn finish(self) -> Schedule
        ensures { result ≡ self.program }
    {
        Schedule {
            clients: self.clients,
            present: self.present,
            start: self.start,
            instrs: self.instrs,
        }
    }
}

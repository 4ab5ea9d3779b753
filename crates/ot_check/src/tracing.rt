//! A run that is traced: instruction by instruction.

ghost use Rattle.std.specs.Prelude.{◌≡◌, ◌⊎◌, ◌<◌, ◌≤◌, ◌+◌, Err, IfOk, IfErr, OnErr, OnOk, get_or, length};
ghost use Rattle.ot_isa.specs.Program.{IsForClients};
ghost use Rattle.ot_isa.specs.declared.instruction.Instr.TheVariants.{Acknowledge, Edit, Read, ReadServer, Take};
ghost use Rattle.ot_model.specs.declared.shown.Refusal.{Refusal as Reason};
ghost use Rattle.ot_model.specs.Runs.{opening_of};
ghost use Rattle.ot_model.specs.Table.{absent, step};
ghost use Rattle.ot_machine.specs.Answers.{IsRefusal};
ghost use Rattle.ot_check.specs.Rows.{seen_by};
ghost use Rattle.ot_check.specs.Following.{counts_of, events_of, FitsState, Follows, IsStuck, IsTracedTo, IsWithin, LeadsTo, Overflows, Stays};
ghost use Rattle.ot_operation.specs.declared.TheConstants.{LIMIT};

use crate::event::{edit_event, read_event, tags_of};
use crate::ledger::Ledger;
use crate::stop::Halt;
use ot_isa::{Instr, Schedule};
use ot_judge::{Event, MOST_ENTRIES, MOST_EVENTS};
use ot_machine::{Machine, Refusal};
use ot_text::TextOp;
use std::alloc::{AllocError, Global};

/// A run and what of its trace is made: counts beside the machine, the events, and how many entries stand in their lists.
#[derive(Drop)]
pub(crate) struct Tracer {
    pub machine: Machine,
    pub ledger: Ledger,
    pub events: Vec<Event>,
    pub entries: usize,
}

// Performs the instruction.
fn perform(machine: &mut Machine, instr: &Instr) -> Result<(), Halt>
    ensures done { OnOk result (LeadsTo (step machine.old instr.now) machine.new) }
    ensures refused { (r : Reason) → result ≡ Err (Halt.Refused r) → IsRefusal (step machine.old instr.now) r }
    ensures stuck { (r : Reason) → result ≡ Err (Halt.Refused r) → IsStuck (step machine.old instr.now) }
    ensures unchanged { OnErr result (machine.new ≡ machine.old) }
    ensures not_full { result ≡ Err Halt.Full → ⊥ }
{
    match machine.perform::<false>(instr) {
        Ok(_effect) => Ok(()),
        Err(Refusal::Memory) => Err(Halt::Memory),
        Err(refusal) => Err(Halt::Refused(refusal)),
    }
}

// How many entries there are with one more list, to which one more event belongs; `Full` where that passes a limit.
fn claim(events: usize, entries: usize, length: usize) -> Result<usize, Halt>
    requires few { entries ≤ 4000000 }
    requires small { length ≤ LIMIT }
    ensures ok { IfOk result (λ count. (count ≡ entries + length) × (events < 4000) × (count ≤ 4000000)) }
    ensures err { IfErr result (λ halt. halt ≡ Halt.Full) }
    ensures full { OnErr result ((4000 ≤ events) ⊎ (4000000 < entries + length)) }
{
    let count = entries + length;
    if events >= MOST_EVENTS || count > MOST_ENTRIES {
        return Err(Halt::Full);
    }
    Ok(count)
}

impl Tracer {
    // At the opening of the schedule.
    pub fn new(alloc: Global, schedule: &Schedule) -> Result<Tracer, AllocError>
        ensures traced { IfOk result (λ tracer. IsTracedTo schedule.now 0 tracer) }
        ensures opened { IfOk result (λ tracer. tracer.machine ≡ opening_of schedule.now) }
    {
        let clients = schedule.clients();
        let machine = Machine::with_present(alloc, clients, schedule.present(), schedule.start())?;
        let ledger = Ledger::new(alloc, clients)?;
        Ok(Tracer {
            machine,
            ledger,
            events: Vec::new(alloc),
            entries: 0,
        })
    }

    // What a client sees: its own edits, and those that lie in the log entries that it has.
    fn seen_by(&self, client: u16) -> Result<Vec<u32>, AllocError>
        requires client { client < length self.now.machine.clients }
        requires fits { FitsState self.now.machine (counts_of self.now.ledger) }
        ensures { IfOk result (λ seen. seen.items ≡ seen_by (counts_of self.now.ledger) client (get_or self.now.machine.clients client absent)) }
    {
        let place = client as usize;
        let revision = self.machine.revision(client) as usize;
        let own = self.ledger.made[place];
        self.ledger.seen(revision, place, own)
    }

    // An edit: what it finds is read before it is performed, and its event is made after it.
    fn edit(
        &mut self,
        alloc: Global,
        instr: &Instr,
        client: u16,
        op: &TextOp<char>,
    ) -> Result<(), Halt>
        requires is { instr.now ≡ Edit client op.now }
        requires client { client < length self.old.machine.clients }
        requires fits { FitsState self.old.machine (counts_of self.old.ledger) }
        requires within { IsWithin (events_of self.old) self.old.entries }
        ensures follows { OnOk result (Follows self.old self.new instr.now) }
        ensures refused { (r : Reason) → result ≡ Err (Halt.Refused r) → Stays self.old self.new instr.now r }
        ensures full { result ≡ Err Halt.Full → Overflows self.old instr.now self.new.machine }
    {
        let before = tags_of(alloc, self.machine.document(client))?;
        let first = self.machine.inserted(client);
        let phase = self.machine.phase(client);
        let seen = self.seen_by(client)?;
        perform(&mut self.machine, instr)?;
        let document = self.machine.document(client);
        self.entries = claim(self.events.len(), self.entries, document.len())?;
        let event = edit_event(alloc, client, op, first, seen, before.as_slice(), document)?;
        self.events.push(event)?;
        self.ledger.edit(client as usize, phase);
        Ok(())
    }

    // A client's read.
    fn read(&mut self, alloc: Global, instr: &Instr, client: u16) -> Result<(), Halt>
        requires is { instr.now ≡ Read client }
        requires client { client < length self.old.machine.clients }
        requires fits { FitsState self.old.machine (counts_of self.old.ledger) }
        requires within { IsWithin (events_of self.old) self.old.entries }
        ensures follows { OnOk result (Follows self.old self.new instr.now) }
        ensures refused { (r : Reason) → result ≡ Err (Halt.Refused r) → Stays self.old self.new instr.now r }
        ensures full { result ≡ Err Halt.Full → Overflows self.old instr.now self.new.machine }
    {
        let seen = self.seen_by(client)?;
        perform(&mut self.machine, instr)?;
        let document = self.machine.document(client);
        self.entries = claim(self.events.len(), self.entries, document.len())?;
        let event = read_event(alloc, client as usize, seen, document)?;
        self.events.push(event)?;
        Ok(())
    }

    // The server's read: it sees the whole log, and makes no edits itself.
    fn read_server(&mut self, alloc: Global, instr: &Instr) -> Result<(), Halt>
        requires is { instr.now ≡ ReadServer }
        requires fits { FitsState self.old.machine (counts_of self.old.ledger) }
        requires within { IsWithin (events_of self.old) self.old.entries }
        ensures follows { OnOk result (Follows self.old self.new instr.now) }
        ensures refused { (r : Reason) → result ≡ Err (Halt.Refused r) → Stays self.old self.new instr.now r }
        ensures full { result ≡ Err Halt.Full → Overflows self.old instr.now self.new.machine }
    {
        let server = self.machine.clients() as usize;
        perform(&mut self.machine, instr)?;
        let document = self.machine.server_document();
        self.entries = claim(self.events.len(), self.entries, document.len())?;
        let entries = self.ledger.rows.len() - 1;
        let seen = self.ledger.seen(entries, server, 0)?;
        let event = read_event(alloc, server, seen, document)?;
        self.events.push(event)?;
        Ok(())
    }

    // An entry more in the log.
    fn take(&mut self, instr: &Instr, client: u16) -> Result<(), Halt>
        requires is { instr.now ≡ Take client }
        requires client { client < length self.old.machine.clients }
        requires fits { FitsState self.old.machine (counts_of self.old.ledger) }
        requires within { IsWithin (events_of self.old) self.old.entries }
        ensures follows { OnOk result (Follows self.old self.new instr.now) }
        ensures refused { (r : Reason) → result ≡ Err (Halt.Refused r) → Stays self.old self.new instr.now r }
        ensures not_full { result ≡ Err Halt.Full → ⊥ }
    {
        perform(&mut self.machine, instr)?;
        self.ledger.take(client as usize)?;
        Ok(())
    }

    // The client's buffer is sent.
    fn acknowledge(&mut self, instr: &Instr, client: u16) -> Result<(), Halt>
        requires is { instr.now ≡ Acknowledge client }
        requires client { client < length self.old.machine.clients }
        requires fits { FitsState self.old.machine (counts_of self.old.ledger) }
        requires within { IsWithin (events_of self.old) self.old.entries }
        ensures follows { OnOk result (Follows self.old self.new instr.now) }
        ensures refused { (r : Reason) → result ≡ Err (Halt.Refused r) → Stays self.old self.new instr.now r }
        ensures not_full { result ≡ Err Halt.Full → ⊥ }
    {
        perform(&mut self.machine, instr)?;
        self.ledger.acknowledge(client as usize);
        Ok(())
    }

    // Performs an instruction, counts it and adds its event, if it has one. Where the table refuses it, nothing has changed; where its event
    // passes a limit, it is performed.
    pub fn follow(&mut self, alloc: Global, instr: &Instr) -> Result<(), Halt>
        requires client { IsForClients (length self.old.machine.clients) instr.now }
        requires fits { FitsState self.old.machine (counts_of self.old.ledger) }
        requires within { IsWithin (events_of self.old) self.old.entries }
        ensures follows { OnOk result (Follows self.old self.new instr.now) }
        ensures refused { (r : Reason) → result ≡ Err (Halt.Refused r) → Stays self.old self.new instr.now r }
        ensures full { result ≡ Err Halt.Full → Overflows self.old instr.now self.new.machine }
    {
        match instr {
            Instr::Edit(client, op) => self.edit(alloc, instr, *client, op),
            Instr::Take(client) => self.take(instr, *client),
            Instr::Acknowledge(client) => self.acknowledge(instr, *client),
            Instr::Read(client) => self.read(alloc, instr, *client),
            Instr::ReadServer => self.read_server(alloc, instr),
            Instr::Deliver(_) | Instr::Join(_) => perform(&mut self.machine, instr),
        }
    }
}

//! The main theorem, as the contract of one function.
//!
//! [`main_theorem`] calls each part of the program once: a step of the machine, a run, the machine's readers, the assembler, the loader, the debugger and a board.
//! Its arguments are any that there are, and its clauses say what the calls return, in the order of the theorem's sentence in README.md. Nothing calls it: what
//! it is for is its contract.
//!
//! The contract cites the written table (`step`, `run`, `begin`, `downlink` and `IsQuiet` of `ot_model/specs/Table.antt`), which texts and bytes are a schedule
//! (`Spells` of `ot_asm`, `IsImageOf` of `ot_image`), and how contracts see a client, a message and an entry of a downlink (`ot_client/specs/Client.antt`, `meant` of
//! `ot_machine/specs/Readers.antt`). `python3 tests/definitions.py ot_theorem main_theorem` lists all that these rest on.
//!
//! [`table_rules`] says that what the table states itself of a client, and not by the client's rules, is what these rules say.
//!
//! Not in the theorem, and proved of the same calls: which fault a text or image has, where the debugger stops, what it answers, why a board refuses. docs/PROOFS.md names
//! these contracts.
#![tactic(auto)]

ghost use Rattle.std.specs.Prelude.{◌≡◌, ◌⊎◌, ◌<◌, ◌↔◌, ℕ, length, slice_get, suc, take, IfErr, IfNone, IfOk, IfSome, IsTrue, List, None, OnErr, Option, Some, true};
ghost use Rattle.std.specs.Option.{option_copied, option_map};
ghost use Rattle.ot_asm.specs.Spelling.{Spells};
ghost use Rattle.ot_asm.specs.declared.fault.Kind.TheVariants.{Memory as TextMemory};
ghost use Rattle.ot_client.specs.Client.{message_of, state_of};
ghost use Rattle.ot_client.specs.State as client;
ghost use Rattle.ot_image.specs.Spelling.{IsImageOf};
ghost use Rattle.ot_image.specs.declared.fault.Kind.TheVariants.{Memory as ImageMemory};
ghost use Rattle.ot_isa.specs.Program.{Program};
ghost use Rattle.ot_isa.specs.declared.elements.Tagged.{Tagged};
ghost use Rattle.ot_isa.specs.declared.instruction.Instr.{Instr};
ghost use Rattle.ot_machine.specs.Readers.{meant};
ghost use Rattle.ot_model.specs.Table as table;
ghost use Rattle.ot_model.specs.Operation.{Operation};
ghost use Rattle.ot_model.specs.Session.{or_else};
ghost use Rattle.ot_model.specs.Table.{acknowledged, begin, downlink, message_edited, is_joined, phase_in, step, IsQuiet, NotJoined, Performed, Refused};
ghost use Rattle.ot_model.specs.declared.shown.Refusal.TheVariants.{Memory};
ghost use Rattle.ot_model.specs.declared.shown.Shown.{Shown as Shows};

use ot_asm::{AsmFault, assemble};
use ot_board::{Board, Finished, StillOut};
use ot_client::{Client, Sent};
use ot_debug::{Command, Debugger, Reply};
use ot_image::{ImageFault, load};
use ot_isa::{Instr, Schedule, Tagged};
use ot_machine::{Head, Machine, Run, run};
use ot_model::{Refusal, Shown};
use ot_server::Entry;
use ot_text::Doc;
use std::alloc::{AllocError, Global};

/// What the machine's readers return, about one client and one place of its downlink and of the log.
#[derive(Drop)]
pub struct Reading<'a> {
    /// The client's list.
    pub document: &'a Doc<Tagged>,
    /// The client's state, with its pending operations; none where it has not joined.
    pub client: Option<&'a Client<Tagged>>,
    /// The client's message on its way to the server, if there is one.
    pub up: Option<&'a Sent<Tagged>>,
    /// The message at the place on the way to the client, if there is one.
    pub down: Option<Head>,
    /// The entry of the log at the place, if there is one.
    pub entry: Option<&'a Entry<Tagged>>,
    /// How many entries of the log the client has.
    pub revision: u32,
    /// How many entries the log has.
    pub server_revision: usize,
    /// The server's list.
    pub server: &'a Doc<Tagged>,
    /// No message is under way, every downlink is empty, and every joined client is synchronized.
    pub quiet: bool,
}

/// What the calls return.
#[derive(Drop)]
pub struct Returned<'a> {
    /// `Machine::step`.
    pub stepped: Result<Option<Shown>, Refusal>,
    /// `ot_machine::run`.
    pub ran: Result<Run, AllocError>,
    pub read: Reading<'a>,
    /// `ot_asm::assemble`.
    pub assembled: Result<Schedule, AsmFault>,
    /// `ot_image::load`.
    pub loaded: Result<Schedule, ImageFault>,
    /// `Debugger::new`.
    pub opened: Result<Debugger, Schedule>,
    /// `Debugger::command`.
    pub reply: Reply,
    /// The machine of a debugger.
    pub debugged: &'a Machine,
    /// `Board::finish`.
    pub finished: Result<Finished, (StillOut, Board)>,
}

// The readers of a machine, for a client that is there.
fn read<'a>(machine: &'a Machine, client: u16, place: usize) -> Reading<'a>
    requires { client < length machine.now.clients }
    ensures document { option_map (λ (x : table.Client). x.list) (slice_get machine.now.clients client) ≡ Some result.document.now }
    ensures joined { IfSome result.client (λ given. option_map (λ (x : table.Client). x.phase) (slice_get machine.now.clients client) ≡ Some (phase_in (state_of given.now).phase)) }
    ensures absent { IfNone result.client (option_map (λ (x : table.Client). x.phase) (slice_get machine.now.clients client) ≡ Some NotJoined) }
    ensures up { option_map (λ (x : table.Client). x.message) (slice_get machine.now.clients client) ≡ Some (option_map message_of (option_copied result.up)) }
    ensures down { option_map (λ (x : table.Client). slice_get (downlink machine.now client x) place) (slice_get machine.now.clients client) ≡ Some (meant machine.now result.down) }
    ensures entry { option_copied result.entry ≡ slice_get machine.now.log place }
    ensures revision { option_map (λ (x : table.Client). x.revision) (slice_get machine.now.clients client) ≡ Some result.revision }
    ensures server_revision { result.server_revision ≡ length machine.now.log }
    ensures server { result.server.now ≡ machine.now.server }
    ensures quiet { IsTrue result.quiet ↔ IsQuiet machine.now }
    ensures converged { IsQuiet machine.now → (c : ℕ) (x : table.Client) → slice_get machine.now.clients c ≡ Some x → is_joined x.phase ≡ true → x.list ≡ machine.now.server }
{
    let joined = if machine.joined(client) {
        Some(machine.client(client))
    } else {
        None
    };
    Reading {
        document: machine.document(client),
        client: joined,
        up: machine.up(client),
        down: machine.down(client, place),
        entry: machine.entry(place),
        revision: machine.revision(client),
        server_revision: machine.server_revision(),
        server: machine.server_document(),
        quiet: machine.is_quiet(),
    }
}

/// The main theorem. A client, `at` a machine of any state, is there; the other arguments are any.
///
/// - *Instruction by instruction*: `steps`, `refuses`, `memory`, `unchanged`. What the machine does to an instruction is the table's row.
/// - *For every schedule*: `runs`, `stops`. A run performs the instructions from the table's opening on. Where it stops, it is before an instruction that the table
///   refuses for that reason, or that the table performs and for which memory ran out.
/// - *Documents, client states, links and revisions*: `document` to `server`. Each reader of a machine in any state returns that field of the state.
/// - *Assembling and loading*: `spells`, `assembles`, `is_image`, `loads`. A text or image of a schedule is read as that schedule, memory aside.
/// - *Debugging*: `opens`, `keeps`, `debugs`. After any commands the machine is that of the run of the same schedule, after as many instructions as the position says.
/// - *The record of a session on threads*: `finished`, `replays`, `unfinished`. A finished board gives its record and its machine, and the record, replayed from its opening,
///   ends in the machine's state. `finish` refuses only while a client is lent; the board then comes back.
/// - *Their documents equal the server's*: `quiet`, `converges`. In a quiet state of the machine every joined client's list is the server's.
pub fn main_theorem<'a>(
    alloc: Global,
    machine: &mut Machine,
    instr: &Instr,
    schedule: &Schedule,
    at: &'a Machine,
    client: u16,
    place: usize,
    text: &str,
    image: &[u8],
    opened: Schedule,
    debugger: &mut Debugger,
    command: Command,
    session: &'a Debugger,
    board: Board,
) -> Returned<'a>
    requires { client < length at.now.clients }
    ensures steps { IfOk result.stepped (λ shown. step machine.old instr.now ≡ Performed machine.new shown) }
    ensures refuses { IfErr result.stepped (λ r. (r ≡ Memory) ⊎ (step machine.old instr.now ≡ Refused r)) }
    ensures memory { IfErr result.stepped (λ r. r ≡ Memory → (s : table.State) × (list : Option Shows) × (step machine.old instr.now ≡ Performed s list)) }
    ensures unchanged { OnErr result.stepped (machine.new ≡ machine.old) }
    ensures runs { IfOk result.ran (λ run. run.stopped ≡ None → table.run schedule.now.instrs (begin schedule.now.clients schedule.now.present schedule.now.start) ≡ Some (record { state = run.machine; shown = run.shown.items })) }
    ensures stops { IfOk result.ran (λ run. IfSome run.stopped (λ stop. (table.run (take stop.0 schedule.now.instrs) (begin schedule.now.clients schedule.now.present schedule.now.start) ≡ Some (record { state = run.machine; shown = run.shown.items })) × ((i : Instr) × (slice_get schedule.now.instrs stop.0 ≡ Some i) × ((step run.machine i ≡ Refused stop.1) ⊎ ((stop.1 ≡ Memory) × ((s : table.State) × (list : Option Shows) × (step run.machine i ≡ Performed s list))))))) }
    ensures document { option_map (λ (x : table.Client). x.list) (slice_get at.now.clients client) ≡ Some result.read.document.now }
    ensures joined { IfSome result.read.client (λ given. option_map (λ (x : table.Client). x.phase) (slice_get at.now.clients client) ≡ Some (phase_in (state_of given.now).phase)) }
    ensures absent { IfNone result.read.client (option_map (λ (x : table.Client). x.phase) (slice_get at.now.clients client) ≡ Some NotJoined) }
    ensures up { option_map (λ (x : table.Client). x.message) (slice_get at.now.clients client) ≡ Some (option_map message_of (option_copied result.read.up)) }
    ensures down { option_map (λ (x : table.Client). slice_get (downlink at.now client x) place) (slice_get at.now.clients client) ≡ Some (meant at.now result.read.down) }
    ensures entry { option_copied result.read.entry ≡ slice_get at.now.log place }
    ensures revision { option_map (λ (x : table.Client). x.revision) (slice_get at.now.clients client) ≡ Some result.read.revision }
    ensures server_revision { result.read.server_revision ≡ length at.now.log }
    ensures server { result.read.server.now ≡ at.now.server }
    ensures spells { IfOk result.assembled (λ s. Spells text.now s) }
    ensures assembles { (p : Program) → Spells text.now p → IfOk result.assembled (λ s. s ≡ p) × IfErr result.assembled (λ f. f.kind ≡ TextMemory) }
    ensures is_image { IfOk result.loaded (λ s. IsImageOf image.now s) }
    ensures loads { (p : Program) → IsImageOf image.now p → IfOk result.loaded (λ s. s ≡ p) × IfErr result.loaded (λ f. f.kind ≡ ImageMemory) }
    ensures opens { IfOk result.opened (λ d. d.schedule ≡ opened) }
    ensures keeps { debugger.new.schedule ≡ debugger.old.schedule }
    ensures debugs { table.run (take session.now.position session.now.schedule.instrs) (begin session.now.schedule.clients session.now.schedule.present session.now.schedule.start) ≡ Some (record { state = result.debugged.now; shown = session.now.place.shown }) }
    ensures finished { IfOk result.finished (λ f. (f.schedule ≡ board.recorded) × (f.machine ≡ board.state)) }
    ensures replays { IfOk result.finished (λ f. (shown : List Shows) × (table.run f.schedule.instrs (begin f.schedule.clients f.schedule.present f.schedule.start) ≡ Some (record { state = f.machine; shown = shown }))) }
    ensures unfinished { IfErr result.finished (λ e. (slice_get board.out e.0.0 ≡ Some true) × (e.1 ≡ board)) }
    ensures quiet { IsTrue result.read.quiet ↔ IsQuiet at.now }
    ensures converges { IsQuiet at.now → (c : ℕ) (x : table.Client) → slice_get at.now.clients c ≡ Some x → is_joined x.phase ≡ true → x.list ≡ at.now.server }
{
    // For the proof: the invariant of every debugger.
    let _kept = session.schedule();
    Returned {
        stepped: machine.step(instr),
        ran: run(alloc, schedule),
        read: read(at, client, place),
        assembled: assemble(alloc, text),
        loaded: load(alloc, image),
        opened: Debugger::new(alloc, opened),
        reply: debugger.command(command),
        debugged: session.machine(),
        finished: board.finish(),
    }
}

/// The table states itself what a client sends and what an acknowledgement does. Both are the client's rules: what an edit sends comes in the place of the
/// message that is under way, if it sends any; so does what an acknowledgement sends, at the revision after it.
pub fn table_rules()
    ensures edits { (x : table.Client) (p : client.Phase Tagged) (op : Operation Tagged) → message_edited (phase_in p) x op ≡ or_else (client.message_edited x.revision p op) x.message }
    ensures acknowledgements { (x : table.Client) (p : client.Phase Tagged) → acknowledged x (phase_in p) ≡ option_map (λ (q : client.Phase Tagged). record { revision = suc x.revision; phase = phase_in q; list = x.list; count = x.count; message = or_else (client.message_acknowledged (suc x.revision) p) x.message }) (client.phase_acknowledged p) }
{}

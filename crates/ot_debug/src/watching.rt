//! What watches see of an instruction. It is determined before the instruction is performed: so nothing of the state before it is recorded, and no
//! list is copied, nor compared as a whole.

ghost use Rattle.std.specs.Prelude.{◌≡◌, ℕ, ◌<◌, ◌↔◌, length, IfOk, IfSome, IsTrue, MatchOption, Some, false};
ghost use Rattle.std.specs.List.{All};
ghost use Rattle.ot_isa.specs.Program.{client_of, IsForClients};
ghost use Rattle.ot_isa.specs.declared.instruction.Instr.TheVariants.{Deliver, Edit};
ghost use Rattle.ot_model.specs.Operation.{Operation};
ghost use Rattle.ot_model.specs.Table.{step};
ghost use Rattle.ot_debug.specs.Session.{IsOfClients};
ghost use Rattle.ot_debug.specs.Changes.{AreFirsts, Foretells, ForetellsFirst, ForetellsOf, IsAmong};

use crate::changing::changes;
use crate::command::Watched;
use ot_isa::{Instr, tagged};
use ot_machine::{INSERTED_LIMIT, Machine, Phase};
use ot_text::TextOp;
use std::alloc::AllocError;

// The client's edit changes its list. An edit that the table refuses is not looked at.
fn edit_changes(machine: &Machine, own: u16, op: &TextOp<char>) -> Result<bool, AllocError>
    requires { own < length machine.now.clients }
    ensures { IfOk result (λ changed. Foretells (step machine.now (Edit own op.now)) machine.now (Watched.Doc own) changed) }
{
    // For the proof: the invariant of every machine.
    let _sound = machine.clients();
    let list = machine.document(own);
    let first = machine.inserted(own);
    if op.base_len() != list.len() || first as usize + op.inserted() > INSERTED_LIMIT {
        return Ok(false);
    }
    let op = tagged(op.allocator(), op, own, first)?;
    Ok(changes(&op, list))
}

// So does a delivery.
fn delivery_changes(machine: &Machine, own: u16) -> Result<bool, AllocError>
    requires { own < length machine.now.clients }
    ensures { IfOk result (λ changed. Foretells (step machine.now (Deliver own)) machine.now (Watched.Doc own) changed) }
{
    match machine.delivery(own)? {
        Some(op) => Ok(changes(&op, machine.document(own))),
        None => Ok(false),
    }
}

// The instruction changes the list of the client that it names: a Join where the server's list is another.
fn changes_list(machine: &Machine, instr: &Instr) -> Result<bool, AllocError>
    requires { IsForClients (length machine.now.clients) instr.now }
    ensures { IfOk result (λ changed. IfSome (client_of instr.now) (λ c. Foretells (step machine.now instr.now) machine.now (Watched.Doc c) changed)) }
{
    match instr {
        Instr::Edit(own, op) => edit_changes(machine, *own, op),
        Instr::Deliver(own) => delivery_changes(machine, *own),
        Instr::Join(own) => Ok(!machine.server_document().equals(machine.document(*own))),
        _ => Ok(false),
    }
}

// The client's edit leads it to another state. It does not where there is a buffer already.
fn edit_moves(machine: &Machine, own: u16) -> bool
    requires { own < length machine.now.clients }
    ensures { (op : Operation ℕ) → Foretells (step machine.now (Edit own op)) machine.now (Watched.State own) result }
{
    !matches!(machine.phase(own), Phase::AwaitingWithBuffer)
}

// The instruction leads the client that it names to another state.
fn changes_phase(machine: &Machine, instr: &Instr) -> bool
    requires { IsForClients (length machine.now.clients) instr.now }
    ensures { IfSome (client_of instr.now) (λ c. Foretells (step machine.now instr.now) machine.now (Watched.State c) result) }
{
    match instr {
        Instr::Edit(own, _) => edit_moves(machine, *own),
        Instr::Acknowledge(_) => true,
        Instr::Join(_) => true,
        _ => false,
    }
}

// The instruction names the client.
fn names(instr: &Instr, client: u32) -> bool
    ensures { IsTrue result ↔ (client_of instr.now ≡ Some client) }
{
    matches!(instr.client(), Some(own) if u32::from(own) == client)
}

// The instruction changes what the watch looks at.
fn changes_seen(machine: &Machine, instr: &Instr, watch: Watched) -> Result<bool, AllocError>
    requires { IsOfClients (length machine.now.clients) watch }
    ensures { IfOk result (λ changed. Foretells (step machine.now instr.now) machine.now watch changed) }
{
    match watch {
        Watched::Doc(client) => Ok(names(instr, client) && changes_list(machine, instr)?),
        Watched::State(client) => Ok(names(instr, client) && changes_phase(machine, instr)),
        Watched::ServerRevision => Ok(matches!(instr, Instr::Take(_))),
    }
}

/// The first watch that the instruction, where it is performed, changes something for. Of equal watches only the first one is looked at,
/// by the numbers of these, of which there are at most two for each client and one for the server.
pub(crate) fn first_changed(
    machine: &Machine,
    instr: &Instr,
    watches: &[Watched],
    firsts: &[usize],
) -> Result<Option<usize>, AllocError>
    requires clients { All (IsOfClients (length machine.now.clients)) watches.now }
    requires firsts { AreFirsts watches.now firsts.now }
    ensures { IfOk result (λ found. MatchOption found ((number : ℕ) → ForetellsOf (step machine.now instr.now) machine.now watches.now number false) (λ number. ForetellsFirst (step machine.now instr.now) machine.now watches.now number)) }
{
    for number in firsts {
        if changes_seen(machine, instr, watches[*number])? {
            return Ok(Some(*number));
        }
    }
    Ok(None)
}

/// One of the first watches is this one.
pub(crate) fn is_among(watches: &[Watched], firsts: &[usize], watch: Watched) -> bool
    requires { AreFirsts watches.now firsts.now }
    ensures { IsTrue result ↔ IsAmong watches.now firsts.now (length watches.now) watch }
{
    for number in firsts {
        if watches[*number] == watch {
            return true;
        }
    }
    false
}

//! The verdict.

ghost use Rattle.std.specs.Prelude.{◌≡◌, ◌≤◌, length, IfOk};
ghost use Rattle.ot_model.specs.Sound.{IsSound};
ghost use Rattle.ot_verdict.specs.Ending.{ending};
ghost use Rattle.ot_verdict.specs.Pending.{untaken};
ghost use Rattle.ot_verdict.specs.Verdicts.{IsOutlook, IsVerdict};

use crate::choosing::first_taken;
use crate::receiving::received;
use crate::waiting::{Waiting, absent, all_waiting, untaken};
use ot_isa::Tagged;
use ot_machine::Machine;
use ot_text::Doc;
use std::alloc::{AllocError, Global};

/// Whether the documents must agree, and to what.
#[derive(Drop)]
pub enum Outlook {
    /// All is quiet: every document must be this list.
    Agreed(Doc<Tagged>),
    /// Not everything has arrived. At most one client has edits that the server has not taken: once everything has arrived, in whatever order, every document is
    /// this list, if no further edit comes.
    WillBe(Doc<Tagged>),
    /// Not everything has arrived, and these clients, two or more, by number, have edits that the server has not taken: what the documents become may depend on
    /// whose edit the server takes first. Behind them, the one whose edit it takes first by what `ot_generate`'s `complete` appends.
    Depends(Vec<u16>, u16),
}

/// What must hold of the documents, and what has not arrived.
#[derive(Drop)]
pub struct Verdict {
    pub outlook: Outlook,
    /// All that has not arrived, by client.
    pub waiting: Vec<Waiting>,
    /// The clients that have not joined, by number.
    pub absent: Vec<u16>,
}

// The list that every document becomes, where at most one client has edits that the server has not taken.
fn ending(machine: &Machine, clients: &[u16]) -> Result<Doc<Tagged>, AllocError>
    requires sound { IsSound machine.now }
    requires untaken { clients.now ≡ untaken machine.now }
    requires few { length clients.now ≤ 1 }
    ensures { IfOk result (λ list. list ≡ ending machine.now) }
{
    match clients.first() {
        None => machine.server_document().copy(),
        Some(client) => received(machine, *client),
    }
}

// Whether the documents must agree, and to what.
fn outlook_on(alloc: Global, machine: &Machine) -> Result<Outlook, AllocError>
    ensures { IfOk result (IsOutlook machine.now) }
{
    // For the proof: the state of every machine is sound.
    let _ = machine.clients();
    if machine.is_quiet() {
        return Ok(Outlook::Agreed(machine.server_document().copy()?));
    }
    let clients = untaken(alloc, machine)?;
    if clients.len() > 1 {
        let Some(first) = first_taken(machine) else {
            unreachable!()
        };
        return Ok(Outlook::Depends(clients, first));
    }
    Ok(Outlook::WillBe(ending(machine, clients.as_slice())?))
}

/// Whether the documents of the machine as it is must agree, and to what; what has not arrived, and who has not joined. The machine stays as it is. It takes the
/// time of a copy of a document, and of the deliveries to one client. `AllocError` where a growth was refused.
pub fn verdict_on(alloc: Global, machine: &Machine) -> Result<Verdict, AllocError>
    ensures { IfOk result (IsVerdict machine.now) }
{
    Ok(Verdict {
        outlook: outlook_on(alloc, machine)?,
        waiting: all_waiting(alloc, machine)?,
        absent: absent(alloc, machine)?,
    })
}

//! What a path keeps of each of its instructions, so that it is known which instruction comes late.

ghost use Rattle.std.specs.Prelude.{◌≡◌, ◌≤◌, length, map, IfOk, List};
ghost use Rattle.ot_model.specs.Orders.{ClientMachine};
ghost use Rattle.ot_every.specs.Listing.{Earlier, is_before, is_behind, machine_of};
ghost use Rattle.ot_every.specs.Walking.{is_late, stops, AreMarks, IsMark};

use ot_isa::Instr;
use ot_machine::Machine;
use std::alloc::{AllocError, Global};

/// Of an instruction of a path: its client, whether a client's machine performs it, whether the server does, and for each client whether the log had an entry before it
/// that the client had not seen.
#[derive(Drop)]
pub struct Mark {
    client: u16,
    is_client: bool,
    is_server: bool,
    behind: Vec<bool>,
}

// For each client whether the log has an entry that it has not seen.
fn behind(alloc: Global, machine: &Machine) -> Result<Vec<bool>, AllocError>
    ensures { IfOk result (λ all. all.items ≡ map (is_behind machine.now) machine.now.clients) }
{
    let mut all = Vec::new(alloc);
    let logged = machine.server_revision();
    for client in 0..machine.clients() {
        all.push((machine.revision(client) as usize) < logged)?;
    }
    Ok(all)
}

/// The mark of an instruction that is not performed yet.
pub fn mark_of(alloc: Global, machine: &Machine, instr: &Instr) -> Result<Mark, AllocError>
    ensures { IfOk result (λ mark. IsMark mark (record { before = machine.now; instr = instr.now })) }
{
    let behind = behind(alloc, machine)?;
    Ok(Mark {
        client: instr.client().unwrap_or(0),
        is_client: !matches!(instr, Instr::Take(_) | Instr::ReadServer),
        is_server: matches!(instr, Instr::Take(_) | Instr::Join(_) | Instr::ReadServer),
        behind,
    })
}

// Whether an instruction of the client cannot come before the marked one.
fn stops(mark: &Mark, client: u16, joins: bool, receives: bool) -> bool
    ensures { (p : Earlier) → IsMark mark.now p → result ≡ stops client joins receives p }
{
    if mark.is_client && mark.client == client || joins && mark.is_server {
        return true;
    }
    if !receives {
        return false;
    }
    match mark.behind.get(client as usize) {
        Some(behind) => !*behind,
        None => true,
    }
}

// Whether the machine of the marked instruction is a later one than the client's.
fn is_later(mark: &Mark, client: u16) -> bool
    ensures { (p : Earlier) → IsMark mark.now p → result ≡ is_before (ClientMachine client) (machine_of p.instr) }
{
    !mark.is_client || client < mark.client
}

/// Whether an instruction of the client comes late behind the first so many instructions: one that joins, receives, or edits.
pub fn is_late(marks: &[Mark], count: usize, client: u16, joins: bool, receives: bool) -> bool
    requires { count ≤ length marks.now }
    ensures { (path : List Earlier) → AreMarks path count marks.now → result ≡ is_late client joins receives path }
{
    if count == 0 {
        return false;
    }
    let mark = &marks[count - 1];
    if stops(mark, client, joins, receives) {
        return false;
    }
    if is_later(mark, client) {
        return true;
    }
    is_late(marks, count - 1, client, joins, receives)
}

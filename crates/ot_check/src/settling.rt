//! Whether a machine is quiet with equal lists everywhere.

ghost use Rattle.std.specs.Prelude.{◌≡◌, ◌<◌, ◌↔◌, ◌++◌, [], ℕ, None, is_some, length, slice_get, ◌==◌, IfOk, OnOk};
ghost use Rattle.ot_model.specs.Table.{downlink, IsQuiet};
ghost use Rattle.ot_model.specs.Sound.{IsSound};
ghost use Rattle.ot_machine.specs.Readers.{ClientHas};
ghost use Rattle.ot_check.specs.Convergence.{all_unsettled, all_unsettled_at, answer_of, astray_at, convergence_of, first_astray, first_unsettled, if_so, is_synchronized, unsettled_at};

use crate::comparing::first_unequal;
use crate::outcome::{Convergence, Unsettled};
use ot_machine::{Machine, Phase};
use std::alloc::{AllocError, Global};

// What of this client is not settled.
fn unsettled_at(machine: &Machine, client: u16) -> Option<Unsettled>
    requires { client < length machine.now.clients }
    ensures { ClientHas machine.now client (unsettled_at machine.now client) result }
{
    match machine.phase(client) {
        Phase::NotJoined => None,
        Phase::Synchronized => {
            if machine.up(client).is_some() {
                return Some(Unsettled::Up(client));
            }
            if machine.down_len(client) > 0 {
                return Some(Unsettled::Down(client));
            }
            None
        }
        Phase::AwaitingConfirm | Phase::AwaitingWithBuffer => Some(Unsettled::Client(client)),
    }
}

// The first that is not settled, by the client's number. The state of a machine is sound.
fn first_unsettled(machine: &Machine) -> Option<Unsettled>
    ensures value { result ≡ first_unsettled machine.now }
    ensures sound { IsSound machine.now }
{
    for client in 0..machine.clients() {
        if let Some(what) = unsettled_at(machine, client) {
            return Some(what);
        }
    }
    None
}

// The first place at which the list of this client, which is joined, is not the server's.
fn astray_at(machine: &Machine, client: u16) -> Option<(u16, usize)>
    requires { client < length machine.now.clients }
    ensures { ClientHas machine.now client (astray_at machine.now client) result }
{
    if !machine.joined(client) {
        return None;
    }
    match first_unequal(machine.document(client), machine.server_document()) {
        Some(place) => Some((client, place)),
        None => None,
    }
}

// The first joined client whose list is not the server's.
fn first_astray(machine: &Machine) -> Option<(u16, usize)>
    ensures { result ≡ first_astray machine.now }
{
    for client in 0..machine.clients() {
        if let Some(found) = astray_at(machine, client) {
            return Some(found);
        }
    }
    None
}

/// Whether all is quiet, or what is the first against it: `NotQuiet` with the first that is not settled, by the number of
/// the joined client and then in the order of `Unsettled`; else `Differs` with the first joined client whose list is not
/// the server's; else `Quiet`. `Differs` never comes: of every run, wherever all is quiet, all lists are equal. Takes no
/// memory.
pub fn convergence(machine: &Machine) -> Convergence
    ensures exact { result ≡ convergence_of machine.now }
    ensures never { (c : ℕ) (k : ℕ) → result ≡ Convergence.Differs c k → ⊥ }
    ensures quiet { (result ≡ Convergence.Quiet) ↔ IsQuiet machine.now }
{
    if let Some(what) = first_unsettled(machine) {
        return Convergence::NotQuiet(what);
    }
    if let Some((client, place)) = first_astray(machine) {
        return Convergence::Differs(client, place);
    }
    Convergence::Quiet
}

// The client is synchronized.
fn is_synchronized(machine: &Machine, client: u16) -> bool
    requires { client < length machine.now.clients }
    ensures { ClientHas machine.now client (λ x. is_synchronized x.phase) result }
{
    match machine.phase(client) {
        Phase::Synchronized => true,
        Phase::NotJoined | Phase::AwaitingConfirm | Phase::AwaitingWithBuffer => false,
    }
}

// A message is on its way from the client to the server.
fn sends(machine: &Machine, client: u16) -> bool
    requires { client < length machine.now.clients }
    ensures { ClientHas machine.now client (λ x. is_some x.message) result }
{
    machine.up(client).is_some()
}

// No message is on its way from the server to the client.
fn awaits_none(machine: &Machine, client: u16) -> bool
    requires { client < length machine.now.clients }
    ensures { ClientHas machine.now client (λ x. length (downlink machine.now client x) == 0) result }
{
    machine.down_len(client) == 0
}

// Adds what is not settled, if it is so.
fn push_if(found: &mut Vec<Unsettled>, so: bool, what: Unsettled) -> Result<(), AllocError>
    ensures { OnOk result (found.new.items ≡ found.old.items ++ if_so so what) }
{
    if so {
        found.push(what)?;
    }
    Ok(())
}

// Adds all that is not settled of this client.
fn push_unsettled(
    machine: &Machine,
    client: u16,
    found: &mut Vec<Unsettled>,
) -> Result<(), AllocError>
    requires { client < length machine.now.clients }
    ensures { OnOk result (ClientHas machine.now client (λ x. found.old.items ++ all_unsettled_at machine.now client x) found.new.items) }
{
    if !machine.joined(client) {
        return Ok(());
    }
    let synchronized = is_synchronized(machine, client);
    push_if(found, !synchronized, Unsettled::Client(client))?;
    let sends = sends(machine, client);
    push_if(found, sends, Unsettled::Up(client))?;
    let none = awaits_none(machine, client);
    push_if(found, !none, Unsettled::Down(client))?;
    Ok(())
}

/// All that is not settled: by the number of the joined client, and of one client in the order of `Unsettled`. The first of it is what
/// [`convergence`] names, and there is nothing exactly where all is quiet. An error only where a growth was refused.
pub fn all_unsettled(alloc: Global, machine: &Machine) -> Result<Vec<Unsettled>, AllocError>
    ensures exact { IfOk result (λ all. all.items ≡ all_unsettled machine.now) }
    ensures first { IfOk result (λ all. convergence_of machine.now ≡ answer_of (slice_get all.items 0) None) }
    ensures quiet { IfOk result (λ all. (all.items ≡ []) ↔ IsQuiet machine.now) }
{
    let mut found = Vec::new(alloc);
    for client in 0..machine.clients() {
        push_unsettled(machine, client, &mut found)?;
    }
    Ok(found)
}

//! Whether a session can end after so many more instructions.

ghost use Rattle.std.specs.Prelude.{◌≡◌, ◌+◌, ◌*◌, ◌≤◌, ◌<◌, length, IsFalse, ℕ};
ghost use Rattle.ot_model.specs.Sound.{IsSound};
ghost use Rattle.ot_model.specs.Table.{downlink};
ghost use Rattle.ot_machine.specs.Readers.{ClientHas};
ghost use Rattle.ot_every.specs.Due.{due_of, joined, MayEnd};

use ot_machine::{Machine, Phase};

// How many clients have joined.
fn joined(machine: &Machine) -> usize
    ensures value { result ≡ joined machine.now }
    ensures most { result ≤ length machine.now.clients }
{
    let mut count = 0;
    for client in 0..machine.clients() {
        if machine.joined(client) {
            count += 1;
        }
    }
    count
}

// What is still to come of the client, which has so many messages to receive.
fn due_of(machine: &Machine, client: u16, ahead: usize, joined: usize) -> usize
    requires client { client < length machine.now.clients }
    requires ahead { ClientHas machine.now client (λ x. length (downlink machine.now client x)) ahead }
    requires few { (ahead ≤ 1000) × (joined ≤ 4) }
    ensures value { ClientHas machine.now client (due_of joined (length machine.now.log)) result }
    ensures few { result ≤ 1010 }
{
    let round = joined + 1;
    let sent = if machine.up(client).is_some() {
        round
    } else {
        0
    };
    match machine.phase(client) {
        Phase::NotJoined => sent + 1,
        Phase::AwaitingWithBuffer => sent + round + ahead,
        Phase::Synchronized | Phase::AwaitingConfirm => sent + ahead,
    }
}

// The room is the least, or at most so many times each more.
fn is_reached(least: usize, each: usize, times: usize, room: usize) -> bool
    requires few { (each ≤ 5) × (times ≤ 1000) }
    requires room { (least ≤ room) × (room ≤ 1000) }
    ensures { IsFalse result → (k : ℕ) → k ≤ times → room ≡ least + k * each → ⊥ }
{
    let mut reached = least;
    for _more in 0..times {
        if reached >= room {
            return reached == room;
        }
        reached += each;
    }
    reached == room
}

/// Whether a session may end after so many more instructions, of which so many are edits.
pub fn may_end(machine: &Machine, edits: usize, room: usize) -> bool
    requires few { (length machine.now.clients ≤ 4) × (room ≤ 1000) }
    ensures ends { IsFalse result → MayEnd edits room machine.now → ⊥ }
    ensures sound { IsSound machine.now }
{
    let joined = joined(machine);
    let clients = machine.clients();
    if edits > room {
        return false;
    }
    let mut least = edits;
    for client in 0..clients {
        let ahead = machine.down_len(client);
        if ahead > room {
            return false;
        }
        least += due_of(machine, client, ahead, joined);
        if least > room {
            return false;
        }
    }
    joined < clients as usize || is_reached(least, joined + 1, edits, room)
}

//! Whether a session may end.

ghost use Rattle.std.specs.Prelude.{◌≡◌, ◌<◌, ◌&&◌, drop, length, is_none};
ghost use Rattle.ot_machine.specs.Readers.{ClientHas};
ghost use Rattle.ot_every.specs.Listing.{is_empty, is_settled, is_synchronized};

use ot_machine::{Machine, Phase};

// The client has joined, has nothing under way and has received the whole log.
fn is_client_settled(machine: &Machine, client: u16) -> bool
    requires { client < length machine.now.clients }
    ensures { ClientHas machine.now client (λ x. is_synchronized x.phase && (is_none x.message && is_empty (drop x.revision machine.now.log))) result }
{
    match machine.phase(client) {
        Phase::Synchronized => {}
        Phase::NotJoined => return false,
        Phase::AwaitingConfirm => return false,
        Phase::AwaitingWithBuffer => return false,
    }
    if machine.up(client).is_some() {
        return false;
    }
    machine.down_len(client) == 0
}

/// Each client has joined, has nothing under way and has received the whole log.
pub fn is_settled(machine: &Machine) -> bool
    ensures { result ≡ is_settled machine.now }
{
    for client in 0..machine.clients() {
        if !is_client_settled(machine, client) {
            return false;
        }
    }
    true
}

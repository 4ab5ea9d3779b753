//! Whether workers may share a board.

ghost use Rattle.std.specs.Prelude.{◌<◌, ◌≤◌, ◌↔◌, map, IsTrue};
ghost use Rattle.ot_plan.specs.Typing.{action_view, inserted, typing_view};
ghost use Rattle.ot_workers.specs.Sharing.{MayShare, MayType};

use ot_board::Board;
use ot_machine::INSERTED_LIMIT;
use ot_plan::Typing;

/// How many actions a client's user has at most.
pub const ACTION_LIMIT: usize = 1_000;

// Whether the actions insert at most so many characters.
fn insert_at_most(actions: &[Typing], most: usize) -> bool
    ensures { IsTrue result ↔ (inserted (map action_view actions.now) ≤ most) }
{
    let mut left = most;
    for action in actions {
        if action.insert.len() > left {
            return false;
        }
        left -= action.insert.len();
    }
    true
}

// Whether the client, which is there, is not out, and its user's actions are within the limits.
fn may_type(board: &Board, actions: &[Typing], client: u16) -> bool
    requires { client < board.now.recorded.clients }
    ensures { IsTrue result ↔ MayType board.now client (map action_view actions.now) }
{
    // For the proof: the invariant of every board.
    let _kept = board.steps();
    let count = board.machine().inserted(client) as usize;
    !board.is_out(client)
        && actions.len() <= ACTION_LIMIT
        && count <= INSERTED_LIMIT
        && insert_at_most(actions, INSERTED_LIMIT - count)
}

/// Whether workers may share the board, its users typing these actions: no client is out, and there is one list for each client, of at most
/// 1,000 actions, which with what the client has inserted already insert at most 15,000 characters.
pub fn can_share(board: &Board, typing: &[Vec<Typing>]) -> bool
    ensures { IsTrue result ↔ MayShare board.now (typing_view typing.now) }
{
    // For the proof: the invariant of every board.
    let _kept = board.steps();
    let clients = board.machine().clients();
    if typing.len() != usize::from(clients) {
        return false;
    }
    for client in 0..clients {
        let place = usize::from(client);
        if !may_type(board, typing[place].as_slice(), client) {
            return false;
        }
    }
    true
}

//! What a turn does under the lock.

ghost use Rattle.std.specs.Prelude.{◌≡◌, ◌⊎◌, ◌<◌, Bool, false, true, length, set, IfErr, IfOk, IsTrue, OnErr, OnOk, Some, option_copied, vec_capacity, vec_len, ℕ};
ghost use Rattle.ot_isa.specs.declared.instruction.Instr.TheVariants.{Take};
ghost use Rattle.ot_model.specs.Table.{step, Refused};
ghost use Rattle.ot_model.specs.declared.shown.Refusal.TheVariants.{LinkEmpty};
ghost use Rattle.ot_board.specs.Boards.{with_parked, IsJoined};
ghost use Rattle.ot_board.specs.Lents.{session_of};
ghost use Rattle.ot_workers.specs.Choosing as choosing;
ghost use Rattle.ot_workers.specs.Choosing.{IsHad};
ghost use Rattle.ot_workers.specs.Receipts.{HasReceipts, IsSettled};
ghost use Rattle.ot_workers.specs.Turns.{AreSeen, AreTaken, AreUplinksEmpty, EndsAs, HasJoined, IsHadFrom, IsLeft, IsMarked, IsMarkedBy, IsNextOf, IsNotBegun, IsPlay, IsSeen, IsShortage, IsUnsettled, IsUplinkEmpty, is_any_out, next_action, parks, typed_by, with_action, with_typed};
ghost use Rattle.ot_workers.specs.declared.choosing.Seat.{Seat as Seen};
ghost use Rattle.ot_workers.specs.declared.choosing.Way.TheVariants.{Join};

use crate::choosing::{Seat, Way, choose};
use crate::fault::WorkFault;
use crate::held::{Held, in_hand};
use crate::playing::Task;
use crate::shared::Inside;
use ot_board::{Board, Lent, Receipt, Replayed};
use ot_plan::Typing;

/// What a turn comes to under the lock.
#[derive(Drop)]
pub enum Next<'a> {
    /// The worker holds a session, plays it, and ends its turn.
    Play(Held<'a>),
    /// No client can be had, and somebody is out: the worker waits until another's turn ends, and begins again.
    Wait,
    /// No client can be had and nobody is out; or a fault.
    End(Option<WorkFault>),
}

/// What the end of a turn came to.
#[derive(Clone, Copy)]
pub enum Ended {
    /// All steps of the session are recorded.
    Settled,
    /// The session waits in its client's slot.
    Parked,
    /// The stop mark is set.
    Fault(WorkFault),
}

// Whether a message of the client is under way to the server. The client then has joined.
fn sends(board: &Board, client: u16) -> bool
    ensures none { result ≡ false → IsUplinkEmpty board.now.state client }
    ensures there { result ≡ true → client < board.now.recorded.clients }
    ensures joined { result ≡ true → IsJoined board.now client true }
    ensures some { result ≡ true → step board.now.state (Take client) ≡ Refused LinkEmpty → ⊥ }
{
    // For the proof: the invariant of every board.
    let _kept = board.steps();
    let machine = board.machine();
    if client >= machine.clients() || !machine.joined(client) {
        return false;
    }
    machine.up(client).is_some()
}

// The server takes the client's message, where one is under way.
fn take_one(board: &mut Board, receipts: &mut Vec<Receipt>, client: u16) -> Result<(), WorkFault>
    ensures taken { OnOk result (IsUplinkEmpty board.new.state client) }
    ensures others { (c : ℕ) → IsUplinkEmpty board.old.state c → IsUplinkEmpty board.new.state c }
    ensures clients { length board.new.state.clients ≡ length board.old.state.clients }
    ensures takes { AreTaken board.old board.new }
    ensures short { IfErr result (λ fault. IsShortage board.new fault) }
    ensures receipts { HasReceipts board.old receipts.old.items board.new receipts.new.items }
{
    if !sends(board, client) {
        return Ok(());
    }
    receipts.reserve(1)?;
    let receipt = board.take(client)?;
    receipts.push_reserved(receipt);
    Ok(())
}

// The server takes each message that is under way, by client.
fn take_all(board: &mut Board, receipts: &mut Vec<Receipt>) -> Result<(), WorkFault>
    ensures taken { OnOk result (AreUplinksEmpty board.new.state) }
    ensures takes { AreTaken board.old board.new }
    ensures short { IfErr result (λ fault. IsShortage board.new fault) }
    ensures receipts { HasReceipts board.old receipts.old.items board.new receipts.new.items }
{
    for client in 0..board.machine().clients() {
        take_one(board, receipts, client)?;
    }
    Ok(())
}

// The next action of a client that is not typed.
fn next_action<'a>(typed: &[usize], typing: &'a [Vec<Typing>], client: usize) -> Option<&'a Typing>
    ensures { option_copied result ≡ next_action typing.now typed.now client }
{
    let done = *typed.get(client)?;
    typing.get(client)?.as_slice().get(done)
}

// What is seen of a client.
fn seat_of(board: &Board, untyped: bool, client: u16) -> Seat
    ensures { client < length board.now.state.clients → IsSeen board.now untyped client result }
{
    // For the proof: the invariant of every board.
    let _kept = board.steps();
    let machine = board.machine();
    if client >= machine.clients() {
        return Seat::NOBODY;
    }
    Seat {
        joined: machine.joined(client),
        out: board.is_out(client),
        parked: board.is_parked(client),
        message: machine.down_len(client) > 0,
        untyped,
    }
}

// Writes what is seen of a client, where there is a place for it.
fn show(seats: &mut [Seat], client: usize, seat: Seat)
    ensures { seats.new ≡ set seats.old client seat }
{
    if client < seats.len() {
        seats[client] = seat;
    }
}

// Looks at all clients.
fn look(board: &Board, typed: &[usize], typing: &[Vec<Typing>], seats: &mut [Seat])
    ensures { AreSeen board.now typing.now typed.now seats.new }
{
    for client in 0..board.machine().clients() {
        let place = usize::from(client);
        let untyped = next_action(typed, typing, place).is_some();
        show(seats, place, seat_of(board, untyped, client));
    }
}

// The session of the client that was chosen, without steps where it was not parked. Room for the receipts of its join and of its settling is
// made before.
fn have(
    board: &mut Board,
    receipts: &mut Vec<Receipt>,
    client: u16,
    way: Way,
) -> Result<Lent, WorkFault>
    ensures room { OnOk result (vec_len receipts.new < vec_capacity receipts.new) }
    ensures fresh { IfOk result (λ lent. IsHad way (session_of lent)) }
    ensures had { IfOk result (λ lent. IsHadFrom board.old client way (session_of lent) board.new) }
    ensures joined { OnErr result ((board.new ≡ board.old) ⊎ ((way ≡ Join) × HasJoined board.old client board.new)) }
    ensures short { IfErr result (λ fault. (seat : Seen) (untyped : Bool) → IsSeen board.old untyped client seat → choosing.way seat ≡ Some way → IsShortage board.new fault) }
    ensures receipts { HasReceipts board.old receipts.old.items board.new receipts.new.items }
{
    // For the proof: the invariant of every board.
    let _kept = board.steps();
    receipts.reserve(2)?;
    match way {
        Way::PickUp => {
            let lent = board.pick_up(client)?;
            Ok(lent)
        }
        Way::Lend => {
            let lent = board.lend(client)?;
            Ok(lent)
        }
        Way::Join => {
            let receipt = board.join(client)?;
            receipts.push_reserved(receipt);
            let lent = board.lend(client)?;
            Ok(lent)
        }
    }
}

// Whether some client is out.
fn is_any_out(seats: &[Seat]) -> bool
    ensures { result ≡ is_any_out seats.now }
{
    seats.iter().any(|seat| seat.out)
}

// The first two steps of a turn, where nothing is refused.
fn begin<'a>(
    inside: &mut Inside,
    typing: &'a [Vec<Typing>],
    receipts: &mut Vec<Receipt>,
    worker: usize,
    turn: u64,
) -> Result<Next<'a>, WorkFault>
    ensures room { IfOk result (λ next. IsPlay next → vec_len receipts.new < vec_capacity receipts.new) }
    ensures next { IfOk result (λ next. IsNextOf typing.now worker turn inside.old inside.new next) }
    ensures fault { IfErr result (λ fault. IsNotBegun typing.now worker turn inside.old inside.new.seats.items inside.new.board fault) }
    ensures mark { IfOk result (λ next. IsMarked next inside.old.stopped inside.new.stopped) }
    ensures typed { inside.new.typed ≡ inside.old.typed }
    ensures receipts { HasReceipts inside.old.board receipts.old.items inside.new.board receipts.new.items }
{
    if inside.stopped {
        return Ok(Next::End(Some(WorkFault::Stopped)));
    }
    take_all(&mut inside.board, receipts)?;
    look(
        &inside.board,
        inside.typed.as_slice(),
        typing,
        inside.seats.as_mut_slice(),
    );
    // For the proof: the invariants of every board and machine.
    let _kept = inside.board.steps();
    let _few = inside.board.machine().clients();
    match choose(inside.seats.as_slice(), worker, turn) {
        Some((client, way)) => {
            let Ok(number) = u16::try_from(client) else {
                unreachable!()
            };
            let lent = have(&mut inside.board, receipts, number, way)?;
            let action = next_action(inside.typed.as_slice(), typing, client);
            Ok(Next::Play(in_hand(lent, way, action)))
        }
        None => {
            if is_any_out(inside.seats.as_slice()) {
                return Ok(Next::Wait);
            }
            Ok(Next::End(None))
        }
    }
}

/// The first two steps of a worker's turn, which a worker makes under the lock. Where the stop mark is set, nothing is done, and the turn ends with `Stopped`. Else the server takes
/// what is under way, and the client that `choose` gives is picked up or lent, or there is none. The typing is by client, and no action counts as typed yet. The turn ends with
/// `RecordFull` where 64 more steps may not fit into the record, or with `Memory`: the stop mark is then set, some messages are taken, and the chosen client may have joined.
/// What is recorded has its receipts, also before a fault.
pub fn begin_turn<'a>(
    inside: &mut Inside,
    typing: &'a [Vec<Typing>],
    receipts: &mut Vec<Receipt>,
    worker: usize,
    turn: u64,
) -> Next<'a>
    ensures room { IsPlay result → vec_len receipts.new < vec_capacity receipts.new }
    ensures next { IsNextOf typing.now worker turn inside.old inside.new result }
    ensures mark { IsMarked result inside.old.stopped inside.new.stopped }
    ensures typed { inside.new.typed ≡ inside.old.typed }
    ensures receipts { HasReceipts inside.old.board receipts.old.items inside.new.board receipts.new.items }
{
    match begin(inside, typing, receipts, worker, turn) {
        Ok(next) => next,
        Err(fault) => {
            inside.stopped = true;
            Next::End(Some(fault))
        }
    }
}

// Settles the session, for whose receipt there is room: the board's machine performs its steps. Where it stops before the last one, what was
// performed has its receipt all the same.
fn settle(board: &mut Board, receipts: &mut Vec<Receipt>, lent: Lent) -> Result<(), WorkFault>
    requires { vec_len receipts.old < vec_capacity receipts.old }
    ensures settled { OnOk result (IsSettled (session_of lent) board.old board.new) }
    ensures unsettled { IfErr result (λ fault. IsUnsettled (session_of lent) board.old board.new fault) }
    ensures receipts { HasReceipts board.old receipts.old.items board.new receipts.new.items }
{
    match board.replay(lent) {
        Ok(Replayed { receipt, stopped }) => {
            receipts.push_reserved(receipt);
            match stopped {
                Some(refusal) => Err(WorkFault::from(refusal)),
                None => Ok(()),
            }
        }
        Err((refusal, _lost)) => Err(WorkFault::from(refusal)),
    }
}

// Parks the session. Where that is refused, its client is not lent or is parked already, and the board would not settle it either.
fn park(board: &mut Board, lent: Lent) -> Result<(), WorkFault>
    ensures parked { OnOk result (board.new ≡ with_parked board.old (session_of lent).start.number (Some (session_of lent))) }
    ensures unsettled { IfErr result (λ fault. IsUnsettled (session_of lent) board.old board.new fault) }
    ensures recorded { board.new.recorded ≡ board.old.recorded }
{
    match board.hold(lent) {
        Ok(()) => Ok(()),
        Err((refusal, _stranger)) => Err(WorkFault::from(refusal)),
    }
}

// Parks or settles the session; after a fault it is settled, if that can be done.
fn leave(
    board: &mut Board,
    receipts: &mut Vec<Receipt>,
    parks: bool,
    lent: Lent,
    fault: Option<WorkFault>,
) -> Ended
    requires { vec_len receipts.old < vec_capacity receipts.old }
    ensures ended { EndsAs parks result }
    ensures left { IsLeft fault (session_of lent) board.old board.new result }
    ensures receipts { HasReceipts board.old receipts.old.items board.new receipts.new.items }
{
    if let Some(fault) = fault {
        let _ = settle(board, receipts, lent);
        return Ended::Fault(fault);
    }
    if parks {
        return match park(board, lent) {
            Ok(()) => Ended::Parked,
            Err(fault) => Ended::Fault(fault),
        };
    }
    match settle(board, receipts, lent) {
        Ok(()) => Ended::Settled,
        Err(fault) => Ended::Fault(fault),
    }
}

// Counts one more action of the client.
fn count_typed(typed: &mut [usize], client: u16)
    ensures { typed.new ≡ with_typed typed.old client }
{
    let place = usize::from(client);
    if place < typed.len() {
        typed[place] = typed[place].saturating_add(1);
    }
}

// Counts the action that a turn typed, if it typed one.
fn count_action(typed: &mut [usize], task: Task<'_>, client: u16)
    ensures { typed.new ≡ with_action task.entry client typed.old }
{
    if let Task::Enter(Some(_)) = task {
        count_typed(typed, client);
    }
}

// Whether the session is parked: in each fourth turn, where it was lent.
fn parks(turn: u64, task: Task<'_>) -> bool
    ensures { result ≡ parks turn task.entry }
{
    turn % 4 == 3 && matches!(task, Task::Enter(_))
}

/// The last step of a worker's turn, which a worker makes under the lock: the session is parked, where it was lent in each fourth turn, or settled, and what was typed is counted. After a
/// fault of the play, which is then the turn's, it is settled, if that can be done. A session of a client that is not lent here, or is parked, is `Refused`, and so is a step that
/// the table refuses. After a fault nothing counts as typed, and the stop mark is set. What is recorded has its receipts, also before a fault. A session that is not settled is
/// dropped: the board is as it was, or the first steps are recorded and the client is in.
pub fn end_turn(
    inside: &mut Inside,
    receipts: &mut Vec<Receipt>,
    turn: u64,
    task: Task<'_>,
    lent: Lent,
    fault: Option<WorkFault>,
) -> Ended
    requires { vec_len receipts.old < vec_capacity receipts.old }
    ensures ended { EndsAs (parks turn task.entry) result }
    ensures left { IsLeft fault (session_of lent) inside.old.board inside.new.board result }
    ensures mark { IsMarkedBy result inside.old.stopped inside.new.stopped }
    ensures typed { inside.new.typed.items ≡ typed_by task.entry result (session_of lent).start.number inside.old.typed.items }
    ensures receipts { HasReceipts inside.old.board receipts.old.items inside.new.board receipts.new.items }
{
    let client = lent.client();
    match leave(&mut inside.board, receipts, parks(turn, task), lent, fault) {
        Ended::Settled => {
            count_action(inside.typed.as_mut_slice(), task, client);
            Ended::Settled
        }
        Ended::Parked => {
            count_action(inside.typed.as_mut_slice(), task, client);
            Ended::Parked
        }
        Ended::Fault(fault) => {
            inside.stopped = true;
            Ended::Fault(fault)
        }
    }
}

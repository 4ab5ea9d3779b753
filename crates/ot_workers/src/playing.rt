//! What a turn does with a session, without the board and without the lock.

ghost use Rattle.std.specs.Prelude.{◌≡◌, ◌<◌, None, length, IfErr, IfNone, IfOk, IfSome};
ghost use Rattle.ot_isa.specs.declared.instruction.Instr.TheVariants.{Edit};
ghost use Rattle.ot_board.specs.Sessions.{IsNext};
ghost use Rattle.ot_board.specs.Lents.{session_of};
ghost use Rattle.ot_plan.specs.Typing.{action_view, edit_of};
ghost use Rattle.ot_workers.specs.Playing.{heard, turn_steps, HasHeard, HasMade, IsCutShort, IsEnterFault, IsPlayFault, MayPlay};
ghost use Rattle.ot_workers.specs.declared.playing.Task.TheVariants as Task;
ghost use Rattle.ot_model.specs.declared.limits.TheConstants.{SESSION_LIMIT};

use crate::fault::WorkFault;
use crate::gate::Gate;
use crate::session_calls::{acknowledge, deliver, edit, read};
use ot_board::{Lent, SessionRefusal};
use ot_plan::Typing;
use ot_text::OpRefusal;
use std::alloc::Global;

/// How many messages a turn delivers or acknowledges at most.
const MOST_MESSAGES: usize = 60;

/// What is to be done with a session.
#[derive(Clone, Copy)]
pub enum Task<'a> {
    /// Its messages are delivered or acknowledged, the first 60, and then the action is typed, if there is one.
    Enter(Option<&'a Typing>),
    /// Its list is read once.
    Read,
}

// Delivers the next message, or acknowledges it where it is an acknowledgement. What is refused is memory.
fn hear_next(lent: Lent) -> Result<Lent, Lent>
    requires next { 0 < length (session_of lent).now.incoming }
    requires room { length (session_of lent).steps < SESSION_LIMIT }
    ensures ok { IfOk result (λ next. HasHeard (session_of lent) (session_of next)) }
    ensures back { IfErr result (λ back. back ≡ lent) }
{
    match deliver(lent) {
        Ok(next) => Ok(next),
        Err((SessionRefusal::WrongHead, lent)) => match acknowledge(lent) {
            Ok(next) => Ok(next),
            Err((SessionRefusal::Memory, lent)) => Err(lent),
            Err((_, _)) => unreachable!(),
        },
        Err((SessionRefusal::Memory, lent)) => Err(lent),
        Err((_, _)) => unreachable!(),
    }
}

// Delivers or acknowledges the first messages, until memory runs out.
fn hear(mut lent: Lent) -> Result<Lent, Lent>
    requires { length (session_of lent).steps ≡ 0 }
    ensures ok { IfOk result (λ next. HasMade (session_of lent) (heard (session_of lent)) (session_of next)) }
    ensures err { IfErr result (λ back. IsCutShort (session_of lent) (heard (session_of lent)) (session_of back)) }
{
    let count = lent.incoming_len().min(MOST_MESSAGES);
    for place in 0..count {
        let _ = place;
        match hear_next(lent) {
            Ok(next) => lent = next,
            Err(back) => return Err(back),
        }
    }
    Ok(lent)
}

// Types the action on the client's list.
fn enter(alloc: Global, lent: Lent, action: &Typing) -> Result<Lent, (WorkFault, Lent)>
    requires { length (session_of lent).steps < SESSION_LIMIT }
    ensures ok { IfOk result (λ next. IsNext (session_of lent) (Edit (session_of lent).start.number (edit_of (action_view action.now) (length (session_of lent).now.client.list))) None (session_of next)) }
    ensures back { IfErr result (λ back. back.1 ≡ lent) }
    ensures fault { IfErr result (λ back. IsEnterFault (session_of lent) (action_view action.now) back.0) }
{
    // For the proof: the invariant of every session.
    let _allowed = lent.steps();
    let length = lent.document().len();
    match action.edit(alloc, length) {
        Ok(op) => match edit(lent, op) {
            Ok(next) => Ok(next),
            Err((refusal, lent, _op)) => Err((WorkFault::from(refusal), lent)),
        },
        Err(OpRefusal::TooLong) => Err((WorkFault::Refused, lent)),
        Err(OpRefusal::Memory) => Err((WorkFault::Memory, lent)),
    }
}

// Receives the messages and then types the action, if there is one.
fn hear_and_enter(
    alloc: Global,
    lent: Lent,
    action: Option<&Typing>,
) -> Result<Lent, (WorkFault, Lent)>
    requires { length (session_of lent).steps ≡ 0 }
    ensures ok { IfOk result (λ next. HasMade (session_of lent) (turn_steps (session_of lent) (Task.Enter action.entry)) (session_of next)) }
    ensures short { IfErr result (λ back. IsCutShort (session_of lent) (turn_steps (session_of lent) (Task.Enter action.entry)) (session_of back.1)) }
    ensures fault { IfErr result (λ back. IsPlayFault (session_of lent) (Task.Enter action.entry) (session_of back.1) back.0) }
{
    let lent = match hear(lent) {
        Ok(lent) => lent,
        Err(lent) => return Err((WorkFault::Memory, lent)),
    };
    match action {
        Some(action) => enter(alloc, lent, action),
        None => Ok(lent),
    }
}

// Reads the list, which nobody looks at here: the record shows the read.
fn look_once(lent: Lent) -> Result<Lent, (WorkFault, Lent)>
    ensures ok { IfOk result (λ next. HasMade (session_of lent) (turn_steps (session_of lent) Task.Read) (session_of next)) }
    ensures short { IfErr result (λ back. IsCutShort (session_of lent) (turn_steps (session_of lent) Task.Read) (session_of back.1)) }
    ensures fault { IfErr result (λ back. IsPlayFault (session_of lent) Task.Read (session_of back.1) back.0) }
{
    match read(lent) {
        Ok((next, _list)) => Ok(next),
        Err((refusal, lent)) => Err((WorkFault::from(refusal), lent)),
    }
}

// Makes the steps of the turn.
pub fn make_steps(alloc: Global, lent: Lent, task: Task<'_>) -> (Lent, Option<WorkFault>)
    requires { MayPlay (session_of lent) task }
    ensures done { IfNone result.1 (HasMade (session_of lent) (turn_steps (session_of lent) task.entry) (session_of result.0)) }
    ensures short { IfSome result.1 (λ _. IsCutShort (session_of lent) (turn_steps (session_of lent) task.entry) (session_of result.0)) }
    ensures fault { IfSome result.1 (λ fault. IsPlayFault (session_of lent) task.entry (session_of result.0) fault) }
{
    let played = match task {
        Task::Enter(action) => hear_and_enter(alloc, lent, action),
        Task::Read => look_once(lent),
    };
    match played {
        Ok(lent) => (lent, None),
        Err((fault, lent)) => (lent, Some(fault)),
    }
}

/// Notifies the gate that the worker holds the session, and then makes the steps of the turn: for `Enter` the first 60 messages of the session's
/// own part are delivered or acknowledged, each as it is, and then the action is typed, if there is one; for `Read` the list is read once.
/// The first step that is not made ends it: `Memory` where a growth was refused; else `Refused`, where the session has 64 steps already (a
/// read), or where the client would pass 15,000 inserted characters or its list 1,000,000 elements (the action). The session comes back as
/// far as it came.
pub fn play<G: Gate>(
    alloc: Global,
    lent: Lent,
    task: Task<'_>,
    gate: &G,
    worker: usize,
    turn: u64,
) -> (Lent, Option<WorkFault>)
    requires { MayPlay (session_of lent) task }
    ensures done { IfNone result.1 (HasMade (session_of lent) (turn_steps (session_of lent) task.entry) (session_of result.0)) }
    ensures short { IfSome result.1 (λ _. IsCutShort (session_of lent) (turn_steps (session_of lent) task.entry) (session_of result.0)) }
    ensures fault { IfSome result.1 (λ fault. IsPlayFault (session_of lent) task.entry (session_of result.0) fault) }
{
    gate.holding(worker, turn);
    make_steps(alloc, lent, task)
}

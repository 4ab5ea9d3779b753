//! The calls of a session in whichever state it is.

ghost use Rattle.std.specs.Prelude.{◌≡◌, None, Some, IfErr, IfOk};
ghost use Rattle.ot_isa.specs.declared.instruction.Instr.TheVariants.{Acknowledge, Deliver, Edit, Read};
ghost use Rattle.ot_model.specs.Table.{Ack};
ghost use Rattle.ot_board.specs.Sessions.{IsEditRefusal, IsNext, IsNextHead, IsStepRefusal, shown_by};
ghost use Rattle.ot_board.specs.Lents.{session_of};

use ot_board::{Lent, SessionRefusal};
use ot_isa::Tagged;
use ot_text::{Doc, TextOp};

/// `Session::edit`: a synchronized client then waits for a confirmation, and a waiting one has a buffer.
pub(crate) fn edit(
    lent: Lent,
    op: TextOp<char>,
) -> Result<Lent, (SessionRefusal, Lent, TextOp<char>)>
    ensures ok { IfOk result (λ next. IsNext (session_of lent) (Edit (session_of lent).start.number op) None (session_of next)) }
    ensures refused { IfErr result (λ back. IsEditRefusal (session_of lent) (Edit (session_of lent).start.number op) back.0) }
    ensures back { IfErr result (λ back. (back.1 ≡ lent) × (back.2 ≡ op)) }
{
    match lent {
        Lent::Synchronized(session) => match session.edit(op) {
            Ok(next) => Ok(Lent::AwaitingConfirm(next)),
            Err((refusal, session, op)) => Err((refusal, Lent::Synchronized(session), op)),
        },
        Lent::AwaitingConfirm(session) => match session.edit(op) {
            Ok(next) => Ok(Lent::AwaitingWithBuffer(next)),
            Err((refusal, session, op)) => Err((refusal, Lent::AwaitingConfirm(session), op)),
        },
        Lent::AwaitingWithBuffer(session) => match session.edit(op) {
            Ok(next) => Ok(Lent::AwaitingWithBuffer(next)),
            Err((refusal, session, op)) => Err((refusal, Lent::AwaitingWithBuffer(session), op)),
        },
    }
}

/// `Session::deliver`.
pub(crate) fn deliver(lent: Lent) -> Result<Lent, (SessionRefusal, Lent)>
    ensures ok { IfOk result (λ next. IsNext (session_of lent) (Deliver (session_of lent).start.number) None (session_of next)) }
    ensures refused { IfErr result (λ back. IsStepRefusal (session_of lent) (Deliver (session_of lent).start.number) back.0) }
    ensures back { IfErr result (λ back. back.1 ≡ lent) }
{
    match lent {
        Lent::Synchronized(session) => match session.deliver() {
            Ok(next) => Ok(Lent::Synchronized(next)),
            Err((refusal, session)) => Err((refusal, Lent::Synchronized(session))),
        },
        Lent::AwaitingConfirm(session) => match session.deliver() {
            Ok(next) => Ok(Lent::AwaitingConfirm(next)),
            Err((refusal, session)) => Err((refusal, Lent::AwaitingConfirm(session))),
        },
        Lent::AwaitingWithBuffer(session) => match session.deliver() {
            Ok(next) => Ok(Lent::AwaitingWithBuffer(next)),
            Err((refusal, session)) => Err((refusal, Lent::AwaitingWithBuffer(session))),
        },
    }
}

/// `Session::acknowledge`, where an acknowledgement is next: the client is then not synchronized.
pub(crate) fn acknowledge(lent: Lent) -> Result<Lent, (SessionRefusal, Lent)>
    requires { IsNextHead (session_of lent) Ack }
    ensures ok { IfOk result (λ next. IsNext (session_of lent) (Acknowledge (session_of lent).start.number) None (session_of next)) }
    ensures refused { IfErr result (λ back. IsStepRefusal (session_of lent) (Acknowledge (session_of lent).start.number) back.0) }
    ensures back { IfErr result (λ back. back.1 ≡ lent) }
{
    // For the proof: the invariant of every session.
    let _allowed = lent.steps();
    match lent {
        Lent::Synchronized(session) => {
            // For the proof: the invariant of every session.
            let _synchronized = session.state();
            unreachable!()
        }
        Lent::AwaitingConfirm(session) => match session.acknowledge() {
            Ok(next) => Ok(Lent::Synchronized(next)),
            Err((refusal, session)) => Err((refusal, Lent::AwaitingConfirm(session))),
        },
        Lent::AwaitingWithBuffer(session) => match session.acknowledge() {
            Ok(next) => Ok(Lent::AwaitingConfirm(next)),
            Err((refusal, session)) => Err((refusal, Lent::AwaitingWithBuffer(session))),
        },
    }
}

/// `Session::read`.
pub(crate) fn read(lent: Lent) -> Result<(Lent, Doc<Tagged>), (SessionRefusal, Lent)>
    ensures ok { IfOk result (λ given. IsNext (session_of lent) (Read (session_of lent).start.number) (Some (shown_by (session_of lent) given.1)) (session_of given.0)) }
    ensures refused { IfErr result (λ back. IsStepRefusal (session_of lent) (Read (session_of lent).start.number) back.0) }
    ensures back { IfErr result (λ back. back.1 ≡ lent) }
{
    match lent {
        Lent::Synchronized(session) => match session.read() {
            Ok((next, list)) => Ok((Lent::Synchronized(next), list)),
            Err((refusal, session)) => Err((refusal, Lent::Synchronized(session))),
        },
        Lent::AwaitingConfirm(session) => match session.read() {
            Ok((next, list)) => Ok((Lent::AwaitingConfirm(next), list)),
            Err((refusal, session)) => Err((refusal, Lent::AwaitingConfirm(session))),
        },
        Lent::AwaitingWithBuffer(session) => match session.read() {
            Ok((next, list)) => Ok((Lent::AwaitingWithBuffer(next), list)),
            Err((refusal, session)) => Err((refusal, Lent::AwaitingWithBuffer(session))),
        },
    }
}

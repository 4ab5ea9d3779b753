//! The undo record of a client's own step, and how the step is undone. `KEPT` says whether a step may have to be undone; where it may not,
//! no inverse is made and nothing is recorded.

ghost use Rattle.std.specs.Prelude.{◌≡◌, length, map, IfErr, IfOk, IsFalse, IsTrue, None, OnErr, OnOk};
ghost use Rattle.ot_operation.specs.Operation.{apply};
ghost use Rattle.ot_machine.specs.Seats.{client_of, revision_of, view_of};
ghost use Rattle.ot_machine.specs.Undoing.{exchanged, queue_before, reverted, unsent, FitsBack, FitsState, GivesBack};

use crate::seat::Seat;
use ot_client::Change;
use ot_isa::Tagged;
use ot_text::{Doc, TextOp};
use std::alloc::AllocError;

/// What a client's own step changes. Once the change is exchanged, this is the undo record: the change that undoes the one of the client's state, the inverse of what
/// the step applied to its list, how much it had inserted, whether nothing was under way from it, and whether the step took a message off its downlink.
#[derive(Drop)]
pub(crate) struct Before {
    pub change: Change<Tagged>,
    pub inverse: Option<TextOp<Tagged>>,
    pub count: u32,
    pub unsent: bool,
    pub received: bool,
}

// The inverse of the operation, over the list that it makes of this one; made where the step is `KEPT`.
pub(crate) fn inverse_of<const KEPT: bool>(
    op: &TextOp<Tagged>,
    list: &Doc<Tagged>,
) -> Result<Option<TextOp<Tagged>>, AllocError>
    requires { op.now.base ≡ length list.now }
    ensures kept { IsTrue KEPT → IfOk result (λ inverse. GivesBack inverse list.now (apply op.now list.now)) }
    ensures none { IsFalse KEPT → IfOk result (λ inverse. inverse ≡ None) }
{
    if !KEPT {
        return Ok(None);
    }
    // For the proof: the invariant of every operation.
    let _operation = op.base_len();
    let inverse = op.invert(list)?;
    Ok(Some(inverse))
}

// Removes the last message on the way to the client.
fn unsend(seat: &mut Seat)
    ensures { view_of seat.new ≡ unsent (view_of seat.old) }
{
    let _ = seat.down.take_back();
}

// Removes the last message on the way to each client.
pub(crate) fn unsend_all(seats: &mut Vec<Seat>)
    ensures { map view_of seats.new.items ≡ map unsent (map view_of seats.old.items) }
{
    for place in 0..seats.len() {
        unsend(&mut seats[place]);
    }
}

// The client as it was before the step. Where memory runs out the record comes back.
pub(crate) fn revert(seat: &mut Seat, before: Before) -> Result<(), (AllocError, Before)>
    requires list { FitsBack before.inverse seat.old.list }
    requires state { FitsState before.change (client_of seat.old) }
    ensures ok { OnOk result (client_of seat.new ≡ reverted before (client_of seat.old)) }
    ensures down { OnOk result (seat.new.down.items ≡ queue_before before (client_of seat.old) seat.old.down.items) }
    ensures err { OnErr result (view_of seat.new ≡ view_of seat.old) }
    ensures back { IfErr result (λ e. e.1 ≡ before) }
{
    if before.received
        && let Err(e) = seat.down.reserve_one()
    {
        return Err((e, before));
    }
    if let Some(inverse) = &before.inverse
        && let Err(e) = seat.list.change(inverse)
    {
        return Err((e, before));
    }
    let revision = revert_state(seat, before.change);
    if before.received {
        seat.down.put_back(revision);
    }
    if before.unsent {
        let _ = seat.up.pop();
    }
    seat.count = before.count;
    Ok(())
}

// The client's state as it was before the step; gives its revision. It takes no memory.
fn revert_state(seat: &mut Seat, change: Change<Tagged>) -> u32
    requires { FitsState change (client_of seat.old) }
    ensures client { client_of seat.new ≡ exchanged change (client_of seat.old) }
    ensures revision { result ≡ revision_of seat.new.client }
    ensures rest { (seat.new.list ≡ seat.old.list) × (seat.new.up ≡ seat.old.up) × (seat.new.down ≡ seat.old.down) × (seat.new.count ≡ seat.old.count) }
{
    let Some(client) = &mut seat.client else {
        unreachable!()
    };
    let mut change = change;
    client.exchange(&mut change);
    client.revision()
}

//! A board that lends clients out. A session makes a client's own steps off the machine, with no lock and no table; they come back into
//! the record as one block, and the record replays to what the board holds.
//!
//! ```text
//!   Board                        lend(c)         Session of c
//!     machine                   ---------->        start  c and its downlink, copied
//!     record  0, 1, 2, ..                          steps  edit, deliver, acknowledge, read: at most 64
//!     out     which are lent    <----------        now    c after these steps
//!     slots   parked sessions    settle, replay
//!                               a receipt: where the steps stand in the record
//! ```
//!
//! - The type invariant of [`Board`] says that its machine is the table's run of the recorded instructions from the opening, and that the record has
//!   room for 64 steps of each client that is out (`IsBoard` of specs/Boards.antt). So what a lock round it guards can always be replayed.
//! - `take` and `join` record one instruction at once, `take` also of a client that is out. `lend`, `park`, `hold` and `pick_up` record none.
//!   `settle` appends a session's steps as they are: by `ot_model::laws::session_block` and `session_waits` the table performs them one
//!   after the other at that moment, whatever came since the client was lent.
//! - `settle` and `park` look whether the session's start begins the client as it is here, which costs what the client's list is long. `replay`
//!   and `hold` are for callers that bring back what this board lent them, and look at nothing but who is out, and not parked: `replay` has the
//!   machine perform the session's steps once more, and records those that it performs (`IsReplayed`). What the session made off the machine is
//!   dropped, so nothing of it has to be believed; and of a session that `settle` would take, the table refuses no step.
//! - A [`Session`] has its client's state as a type, one of the three of `ot_client`; a call consumes it and gives the session in the next
//!   state, or hands it back with the refusal. Its type invariant says that it is allowed (`IsAllowed` of `ot_model`'s specs/Session.antt): a start
//!   that is a client's part in a sound state, and rows that lead from it by the steps to the present. [`Lent`] is a session in whichever state.
//! - `finish` gives the recorded schedule and the machine; `ot_machine::run` of the one gives the state of the other.
//! - [`audit`] says whether the receipts of all workers account for a record, each step exactly once (specs/Tiling.antt).
//!
//! The states are those of ot.js' `Client`. Begin reading at `Board::lend`, `Board::settle` and `Board::replay` in board.rt, then at `Session::deliver` in
//! session.rt; specs/Sessions.antt and specs/Boards.antt have what these calls ensure.
#![tactic(auto)]

mod auditing;
mod board;
mod lent;
mod receipt;
mod refusal;
mod session;
mod state;

pub use auditing::{AuditFault, audit};
pub use board::{Board, Finished, StillOut};
pub use lent::Lent;
pub use receipt::{Receipt, Replayed};
pub use refusal::{BoardRefusal, SessionRefusal, SettleRefusal};
pub use session::{SESSION_LIMIT, Session};
pub use state::{ClientState, EditedState};

//! The session machine: one server of ot.js, 1 to 64 clients and the links between them, moved by
//! one instruction at a time. Every step is the row of the written table.
//!
//! ```text
//!    seat 0: client, list, count                         server
//!            uplink    [ message or none ] ------------> document
//!            downlink  [ n, n+1, .. ] <----------------- log: 0, 1, 2, ..
//!    seat 1: ..                                          (numbers of entries)
//! ```
//!
//! - A [`Machine`] is seen by contracts as the `State` of the table (`ot_model`'s specs/Table.antt):
//!   log, server's list, clients, number of steps. Its type invariant says that this state is sound
//!   (specs/Sound.antt there): a property of the state alone, not of the run that led to it. So no length
//!   passes 1,000,000, the server refuses no message, and wherever all is quiet every joined
//!   client's list is the server's.
//! - [`Machine::step`] performs one instruction, or refuses it as the table does and changes
//!   nothing (specs/Answers.antt). `Memory` comes only where the table performs the instruction:
//!   what grows does so before anything is changed. An Edit and a Deliver have the client prepare its
//!   change, which only reads it, then change the list, and then exchange the client's change, which
//!   cannot fail. After that the change is what undoes the client's part of the step.
//! - A downlink holds numbers of log entries; the log tells whether an entry is an acknowledgement
//!   (its maker's) or another's operation. A client that has not joined has no client state at all.
//! - [`Machine::clients`] and the calls beside it read the fields of the state
//!   (specs/Readers.antt); [`Machine::state`] copies what a user looks at.
//! - [`Machine::perform`] performs an instruction too, and gives an [`Effect`]: who is read by it, whether it sent a message, what a delivery applied, and where asked for its
//!   undo record (specs/Effects.antt). It copies nothing for that: [`Machine::document_of`] shows the list that `step` copies. [`run_on`] runs a schedule so (specs/Ended.antt).
//! - [`Machine::delivery`] is what a delivery would apply, and changes nothing.
//! - A delivery may give a synchronized client the list of the server, or of another one that has taken the same entry: where an operation changes a very long
//!   document all over, many clients have one list in common (common.rt, specs/Common.antt).
//! - [`Machine::part`] copies a joined client with its downlink, and no element of its list after [`Machine::share`]; [`Machine::begins`] says whether such a
//!   part still begins the client that is here, and [`Machine::install`] puts a client back that made
//!   steps off the machine (specs/Parts.antt, over specs/Part.antt and specs/Session.antt of `ot_model`).
//! - [`laws`] has the theorems of all runs: every state is sound, and where a run is quiet, all lists
//!   are equal (specs/Laws.antt). Logs of several machines need no order between machines:
//!   [`laws::any_order`] (specs/Orders.antt).
//! - [`run`] performs a whole schedule up to its first instruction that is not performed
//!   (specs/Ended.antt, over `place_at` and `done` of specs/Runs.antt).
//!
//! The clients are those of ot.js' `Client` with its three states, the server is its `Server`, and the
//! atomic step follows Attiya et al. (PODC 2016): one event is one performed instruction.
//!
//! Begin reading at `Machine::perform` and the rows before it in performing.rt, then at seat.rt, where each
//! row changes one client; specs/Seats.antt says how the fields are the table's state.
#![tactic(auto)]

mod common;
mod effect;
mod kept;
pub mod laws;
mod machine;
mod order_laws;
mod outcome;
mod part;
mod performing;
mod readers;
mod running;
mod seat;
mod state;
mod undo;

pub use effect::{Applied, Effect};
pub use machine::{INSERTED_LIMIT, Machine, STEP_LIMIT};
pub use ot_model::{Reader, Refusal, Shown};
pub use outcome::{Ending, Run};
pub use part::{Message, Part};
pub use running::{run, run_on};
pub use state::{ClientView, Head, Phase, State};
pub use undo::Undo;

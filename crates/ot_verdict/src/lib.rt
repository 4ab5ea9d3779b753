//! Whether the documents of a session must agree, and to what.
//!
//! ```text
//!    Machine ── verdict_on ──▶ Verdict
//!
//!    outlook   Agreed(list)       all is quiet: every document must be the list
//!              WillBe(list)       at most one client has edits that the server has not taken: every document will be the list
//!              Depends(clients, first)   two or more have such edits: it may depend on whose edit the server takes first
//!    waiting   what has not arrived: messages on their way to the server, buffers, messages on their way to clients
//!    absent    the clients that have not joined
//! ```
//!
//! - *What has not arrived* (`specs/Pending.antt`): `waiting`, and `untaken`, the clients with edits that the server has not taken. All are read off the written table's
//!   state (`ot_model`'s specs/Table.antt).
//! - *What the documents become* (`specs/Ending.antt`): `ending`. If no client has such edits the server's list stays. If one has, its list has its edits already, and what
//!   is on its way to it is all that is missing.
//! - *The verdict* (`specs/Verdicts.antt`): `IsVerdict` is the contract of [`verdict_on`]. `Agreed` is said exactly where all is quiet.
//! - *The laws* (`specs/Laws.antt`, [`laws`]): whatever comes but an edit, takes, receipts, joins and reads in any order, wherever everything has arrived all is quiet and
//!   every document is `ending`. What `ot_generate`'s `complete` appends is one of these orders.
//!
//! Which list `WillBe` names is found beside the machine: a copy of the client receives what is on its way to it (receiving.rt), by the rules of ot.js' `Client`
//! (`applyServer`, `serverAck`). Begin reading at specs/Ending.antt, then at [`verdict_on`].
#![tactic(auto)]

mod choosing;
pub mod laws;
mod receiving;
mod verdict;
mod waiting;

pub use verdict::{Outlook, Verdict, verdict_on};
pub use waiting::Waiting;

//! Every small session of a few clients: one for each order of the instructions at each machine.
//!
//! ```text
//!    Space ── visit_sessions ──▶ the visitor, with one session after the other
//!
//!    Walk        machine    goes forth by each instruction of the session, and back by its undo record; not where no session can end, or a client is stuck
//!                instrs     the instructions so far
//!                marks      of each of them what decides which instruction comes late
//! ```
//!
//! - A [`Space`] says which sessions are listed: how many clients there are, how many of them are there from the start, the start text, and how many edits there are at
//!   most, each of how many insertions at most, each of how many letters.
//! - `sessions` in `specs/Listing.antt` is the list: the sessions by number of edits, then by number of instructions, each depth first over the machines in order. Of
//!   two orders that are the same at each machine one is listed: an instruction that comes late is left out. An edit is any operation over the client's document
//!   (`specs/Forms.antt`).
//! - The laws (`specs/Laws.antt`, [`laws`]): each session is performed whole, no two are the same but for letters, and for every other one that is small there is one.
//! - [`visit_sessions`] hands each of them to a [`Visitor`], in order. It keeps the path to where it is, and no list of sessions. [`visit_part`] hands on those of a
//!   [`Part`].
//!
//! Begin reading at `sessions_from` in specs/Listing.antt, then at `visit_from` in listing.rt.
#![tactic(auto)]

mod candidates;
mod due;
mod edits;
pub mod laws;
mod listing;
mod marks;
mod part;
mod parting;
mod settled;
mod space;
mod visitor;
mod walk;

pub use listing::visit_sessions;
pub use part::Part;
pub use parting::visit_part;
pub use space::Space;
pub use visitor::{Stop, Visitor};

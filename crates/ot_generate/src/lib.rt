//! Sessions made at random: schedules of which no instruction is refused.
//!
//! ```text
//!    seed, Shape ── generate ──▶ Schedule
//!
//!    Walk        machine    moves by each instruction as it is made, so none is made that the table refuses
//!                recorded   the instructions so far
//!                room       how many there may be: those made, and those owed so that all is quiet in the end
//! ```
//!
//! - A [`Shape`] says how many clients there are and how many of them are present from the start, how many instructions are made, which text
//!   the session starts with, and whether it may end anyhow (`specs/Shapes.antt`).
//! - A walk goes on by one move at a time, drawn among all that are possible: an edit of a client, a take, the receipt of what is next on a
//!   client's link, a join, a read. `left` in `specs/Left.antt` is how many takes and receipts lead to where all is quiet, whichever of
//!   them come first; a move is possible only where there is room for what is left after it (`specs/Walks.antt`). So the walk uses up its
//!   room, and where it cannot go on all is quiet.
//! - Then everybody is read. `IsGenerated` in `specs/Generated.antt` is what holds of each session, for every seed and shape.
//!
//! Which moves are drawn is the seed's alone, the same on every machine, and no contract speaks of it. The sessions have what breaks ports:
//! edits at one place by several clients, overlapping and whole deletions, replacements, edits of several components, edits that only
//! retain, empty documents, clients that lag behind, buffers of several edits, late joiners, characters past U+FFFF, combining ones, and such
//! as JSON escapes.
//!
//! Begin reading at [`generate`], then `choose` and `make` of the walk in walk.rt.
#![tactic(auto)]

mod chance;
mod choice;
mod completing;
mod edits;
mod generating;
mod habits;
mod shape;
mod walk;

pub use completing::{Incomplete, complete};
pub use generating::generate;
pub use shape::Shape;

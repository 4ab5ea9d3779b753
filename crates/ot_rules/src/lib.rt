//! Which rule of ot.js makes a value, what that rule is given, and what can truly be said of another value that a port printed in its place.
//!
//! ```text
//!    schedule, place ──▶ Machine before the instruction ── call_of ──▶ Call ── given_of ──▶ rule AwaitingWithBuffer.applyServer
//!                                                                       │                     given outstanding [1,"z"]
//!                                                                       │                     given buffer ["a",-1,1]
//!                                                                       │                     given operation ["c",1]
//!    found, ot.js' own ─────────────────────────────────────────────────┴── first_note ─────▶ note that is the buffer as it was, ..
//! ```
//!
//! - *Calls* (`specs/Call.antt`, `specs/Calling.antt`): an edit, a take, a delivery or an acknowledgement is a call of a method of ot.js' `Client` or `Server`, by the client's
//!   state, with what that is given: the pending operations, the operation, the concurrent ones of the log. [`call_of`] takes these from the state before the instruction,
//!   without tags: enough for a test of a port.
//! - *What a call is given* (`specs/Text.antt`): [`rule`] and [`given_of`].
//! - *Wrong rules* (`specs/Wrong.antt`): what a call makes if the tie is broken the other way, or if a transform, half of them, or compose is missing.
//! - *Notes* (`specs/Notes.antt`): each note is an equation of what was found, and the answer of [`first_note`] is the first one that is true, or none where none is. The form of an
//!   operation and lengths in UTF-16 units (`specs/Units.antt`) are asked before the wrong rules; these count over the text that the operation applies to
//!   (`specs/Texts.antt`, [`text_for`]).
//! - *All of it* (`specs/Explained.antt`): [`explain`] runs the schedule up to the instruction and gives all of it as a value, [`Explained`]; [`print_explained`] gives its lines.
//!
//! The wrong rules work on operations without tags, as a port has them, and are asked only where transform takes its two operations (one base; at most 1,000,000 with all that they
//! insert). Begin reading at `IsTrueOf` in specs/Notes.antt, then at [`explain`].
#![tactic(auto)]

mod call;
mod calling;
mod explaining;
mod note;
mod printing;
mod text;
mod units;
mod wrong;

pub use call::{Call, Pending};
pub use calling::call_of;
pub use explaining::{Difference, Explained, explain};
pub use note::{Asked, NOTES, Note, first_note, sentence};
pub use printing::{Given, given_of, print_explained, rule};
pub use text::text_for;

//! Why a text is no schedule: where its first fault stands, what stands there, and what is wanted.
//!
//! ```text
//!    text, AsmFault ── find_line ──▶ its line, and what the lines before it make: the stage, how many clients
//!                   └─ line_fault ─▶ LineFault:  line 3, column 1: found "edti"; wanted edit, take, deliver, ack, read, read-server or join; nearest: edit
//!                                                └ column ┘      └ found ┘      └ wanted, by the fault's kind and the stage ┘            └ nearest ┘
//! ```
//!
//! - *The lines before* (`specs/Reached.antt`): which words may begin a line, and which numbers clients have there.
//! - *The fault* (`specs/Faults.antt`): `fault_at`, where it stands in its line, the word there, what is wanted.
//! - *The note* (`specs/Notes.antt`): a help to repair the line. In a start text and in an operation it is on the first byte that is wrong, and the
//!   fault stands there: `cause_from` in `specs/Causes.antt` goes from byte to byte, and `next` says what may follow what.
//! - *The nearest word* (`specs/Nearest.antt`): by the distance of `strsim`.
//! - *Words and JSON* (`specs/Words.antt`): [`fault_words`] and [`fault_members`], of one value.
//! - *Laws* (`specs/Laws.antt`): the words and the numbers that are wanted are those that `ot_asm` takes ([`words_are_taken`], [`numbers_are_taken`]).
//!
//! Begin with `text_fault` in specs/Faults.antt, then with [`line_fault`].
#![tactic(auto)]

mod causes;
mod faults;
mod laws;
mod nearest;
mod notes;
mod reached;
mod wanted;
mod words;

pub use faults::{LineFault, line_fault};
pub use laws::{numbers_are_taken, stages_are_made, words_are_taken};
pub use reached::{Reached, Stage};
pub use wanted::{Wanted, Word};
pub use words::{fault_members, fault_words};

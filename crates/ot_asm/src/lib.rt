//! Schedules as text, both ways.
//!
//! A text is split at LF. A line, once one CR at its end and then blanks at both ends are dropped, is passed over where
//! it is empty or begins with `;`; any other line is words:
//!
//! ```text
//! clients 2                  the first line that counts: 1 to 64 clients
//! present 1                  optional, directly below: how many are there from the start, all by default
//! start "x"                  optional, below these: the start text, a JSON string
//! edit 0 [1,"a"]             instructions: an edit with its operation as JSON, by `ot_json::op_of_value`
//! take 0                     .. and deliver, ack, read, join, each with a client's number
//! read-server
//! ```
//!
//! `assemble`, `assemble_bytes` and `assemble_from` read the lines once, from the first, and stop at the first faulty one. The schedule
//! so far is a `Body` (none before the line `clients`); `line_step` says what one line makes of it. So every answer is
//! about `run` over the list of lines, and `disassemble` gives the canonical text, which is `canonical`.
//!
//! The contracts' words: `specs/Words.antt` and `Numbers.antt` (what a line holds), `Stepping.antt` (what a line does, in
//! the order of its faults; `outcome`, the schedule of a text or its first fault), `Spelling.antt` (`Spells`, a text and
//! its schedule, without any order of reading), `Canonical.antt`, `Laws.antt` (the canonical text spells its schedule),
//! `Parts.antt` (an input of a schedule, a line `%%` and commands). Begin with `assemble` in `assembling.rt`, then
//! `stepping.rt` and `body.rt`.
//!
//! Comments may name the clients, and say that the recorded session went on after the schedule's last instruction; a text is then shown with
//! these names:
//!
//! ```text
//!    ; client 1 is ben           client 1 takes client 0's operation ["client 1"]
//!    ; cut: "ann, event 9"   ──▶ client 1 (ben) takes client 0's operation ["client 1"]
//! ```
//!
//! - *Comments* (`specs/Comments.antt`): [`comments_of`] reads the names and what is said of the cut. The last comment about something
//!   counts. [`push_cut`] writes the line that tells of the cut.
//! - *Plain words* (`specs/Plain.antt`): words with a character that is not seen are not shown.
//! - *A text with names* (`specs/Named.antt`, from `named_from` on): each byte of a text stands at a [`Place`](place::Place). [`named`] goes over
//!   the bytes once, and passes over most (`specs/Passed.antt`); where nobody has a name it copies them ([`no_names_no_change`]).
#![tactic(auto)]

mod assembling;
mod body;
mod comments;
mod disassembling;
mod fault;
mod from_reader;
mod json_text;
mod keyword;
mod laws;
mod lines;
mod marks;
mod naming;
mod number;
mod passing;
mod place;
mod plain;
mod section;
mod stepping;
mod words;
mod writing;

pub use assembling::{assemble, assemble_bytes};
pub use comments::{Comments, comments_of, push_cut};
pub use disassembling::disassemble;
pub use fault::{AsmFault, Kind};
pub use from_reader::{assemble_from, assemble_until_mark};
pub use json_text::read_text;
pub use laws::{canonical_spells, no_names_no_change, spells_at_most_one};
pub use lines::push_instr;
pub use naming::named;
pub use number::read_number;
pub use words::{split_word, trimmed};
pub use writing::{WriteStop, disassemble_to};

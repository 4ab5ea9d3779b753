//! What a port printed against the run of its schedule, up to the first difference.
//!
//! ```text
//!    a port's line ── is it, byte for byte, the line of `steps`? ── yes ──▶ it agrees, and its values count
//!                          │ no
//!                          └── read_line ──▶ PortLine ─┐
//!                                                      ├── meet ──▶ it agrees, or the Field where it differs ──▶ Difference
//!    Machine::perform ─────────────────────▶ Due ──────┘
//! ```
//!
//! - *The port's lines* (`specs/Ports.antt`): an object with a place, a text of another form, bytes that are no text, or none. What is not
//!   printed is not compared, and `null` says that there is none (`specs/Keys.antt`).
//! - *What is due* (`specs/Due.antt`): all values that the run has for a line, from the written table's states before and after the
//!   instruction (`ot_model`'s specs/Table.antt), as `ot_steps` has them by their keys.
//! - *The message* (`specs/Received.antt`): what a take or a deliver receives. It is compared before the values that come of it, so that
//!   a message that was changed on its way is not held against a method.
//! - *Lines of `steps`* (`specs/Alike.antt`): where the port's bytes are those of the line that `steps` prints of an instruction, nothing is read
//!   as JSON. That the answer is the same then is proved of each such line (`step_stands` in proofs/Alike.antt).
//! - *Unknown keys* (`specs/Unknown.antt`): what stands under a key that no line of `steps` has is not compared, and the answer names the key.
//! - *The first difference* (`specs/Differences.antt`): `field_of` of one line, `outcome` of all.
//! - *Lines for some instructions* (`specs/Passed.antt`): a sparse comparison passes over what is due until a line's place; each line that is
//!   there is compared as ever.
//! - *The answer* (`specs/Ruled.antt`): one value, [`Answer`], of which both its words (`specs/Answers.antt`, `specs/Counted.antt`, [`print_verdict`]) and its
//!   JSON (`specs/Json.antt`, [`verdict_members`]) are functions: every byte of them, but the digits of a port's floats.
//! - *Values that may look alike* (`specs/Points.antt`): their code points, from where they first differ.
//! - *The rule of ot.js* (`specs/Ruled.antt`): behind a difference at an instruction stands what `ot_rules` says of it: the method of ot.js that
//!   makes the value, what that is given, and the first note that is true of what was found.
//! - *Laws* (`specs/Laws.antt`): [`steps_conform`], that a port with the lines of `steps` conforms, and [`printed_steps_conform`], the same of
//!   the bytes that `steps` prints; [`chosen_steps_conform`] and [`printed_chosen_steps_conform`], the same of any selection of those lines
//!   where the comparison is sparse. [`steps_are_counted`] and [`places_are_not_counted`]: those lines are never said to show nothing, and
//!   lines with places, clients and messages alone always are. [`messages_conform`]: a port that conforms does so too where it prints the messages.
//! - *A comparison under way* (`specs/Standing.antt`, `specs/Compared.antt`): [`Comparison`] is a machine that goes along; no run is kept
//!   whole, so memory is bounded by a line. [`compare_lines`] compares the lines of a reader as they come.
//! - *Many sessions* (`specs/Summed.antt`): [`Sum`] is what was compared of those that conform.
//!
//! Begin reading at `over` and `outcome` in specs/Differences.antt, then at [`Comparison`].
#![tactic(auto)]

mod agreement;
mod answer;
mod answers;
mod comparison;
mod counts;
mod due;
mod keys;
mod laws;
mod lines;
mod malformed;
mod meeting;
mod members;
mod passing;
mod points;
mod printing;
mod reading;
mod received;
mod ruling;
mod same_bytes;
mod summed;
mod unknown;

pub use answer::{Answer, answer_of};
pub use answers::{Difference, Owner, differs, left_over};
pub use comparison::{Comparison, Stage, Verdict};
pub use counts::{COUNTED, Counts};
pub use due::Due;
pub use keys::{FIRST_KEYS, OTHER_KEYS, found};
pub use laws::{
    chosen_steps_conform, messages_conform, places_are_not_counted, printed_chosen_steps_conform,
    printed_steps_conform, steps_are_counted, steps_conform,
};
pub use lines::{PortLine, is_opening_line, read_line};
pub use malformed::{Malformed, malformed_sentence};
pub use meeting::{Field, meet};
pub use members::{
    agreement_members, number_member, object, text_member, unknown_member, verdict_members,
};
pub use printing::{print_counts, print_verdict};
pub use reading::{CompareStop, Compared, compare_lines};
pub use received::Received;
pub use summed::{Sum, print_sum, sum_members};
pub use unknown::{Part, UnknownKey, print_unknown};

//! A schedule's run as lines of JSON: the opening, a line for each performed instruction with what it changed, a stop, and the end.
//!
//! ```text
//!    instruction ── Machine::perform ──▶ Effect ── Line::step ──▶ Line ── value ──▶ what a Key has
//!                              (what it sent and applied)          └── text ──▶ {"at":7,"do":"deliver","client":0,"revision":1, ..}
//! ```
//!
//! - *The lines as values* (`specs/Lines.antt`, `specs/Steps.antt`): `step_line` is a function of the written table's states before and after the
//!   instruction (`ot_model`'s specs/Table.antt). `run_lines` are all lines of a run.
//! - *The values by their keys* (`specs/Text.antt`, `specs/Held.antt`): a [`Line`] has under each [`Key`] what `value_at` says ([`Line::value`]);
//!   some of that is printed ([`Line::printed`]).
//! - *The lines as text* (`specs/Text.antt`): one JSON object a line, its keys in a fixed order ([`KEYS`]).
//! - *The fold* (`specs/Fold.antt`): from the lines alone, by applying operations to texts and nothing else of the algebra, come every
//!   client's revision, state, pending operations, text and links, the server's text and the log. [`fold_is_run`] and [`lines_fold`] are the
//!   laws (`specs/Laws.antt`) that this is the run. By [`finds_follow`] (`specs/Found.antt`) a text is found in these documents where it is in the table's.
//! - *Writing* (`specs/Written.antt`): [`print_steps`] writes the lines while the run goes, 64 KiB of them at a time (`specs/Gathered.antt`), and after a
//!   fault a first part of them stands.
//!
//! The machine says what an instruction sent and what a delivery applied (`Effect` of `ot_machine`). Begin reading at `step_line` in
//! specs/Steps.antt, then at [`Line`] and [`print_steps`].
#![tactic(auto)]

mod key;
mod laws;
mod line;
mod operations;
mod plain;
mod value;
mod writing;

pub use key::{KEYS, Key, key_text};
pub use laws::{downlinks_follow, finds_follow, fold_is_run, lines_fold};
pub use line::{Line, Step, Stop, buffer, last_operation, outstanding, placed_client, word};
pub use operations::push_decimal;
pub use plain::plain_operation;
pub use value::{Value, push_array, push_plain_array};
pub use writing::print_steps;

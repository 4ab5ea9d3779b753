//! A schedule's run in words: a paragraph for each instruction, and one for the instruction that is refused.
//!
//! ```text
//!    heading     line 7, instruction 3: take 1                                       its line of the text, its number
//!    before ───▶   the server takes client 1's message of revision 0, ["c",1], ..    told by the state before it
//!    perform ──▶   (of a delivery what it applies)                                   told by the step
//!    after ────▶   .. and appends [1,"c"] as revision 2                              told by the state after it
//! ```
//!
//! - *What an instruction did* (`specs/Told.antt`): `paragraph`, a text made of the written table's states before and after the instruction
//!   (`ot_model`'s specs/Table.antt), by way of what a line of `ot_steps` says (`applies`, `outstanding_of`, `last_of`).
//! - *The verdict* (`specs/Agreeing.antt`): `verdict_words`, behind the end: whether all documents must agree, and to what (`ot_verdict`). [`outlook_json`] gives the
//!   same as a line of JSON (`specs/OutlookJson.antt`), of a run that [`run_end`] performs.
//! - *Why one is refused* (`specs/Reasons.antt`): `reason`, of the refusal and the state in which the run stands.
//! - *Where an instruction stands* (`specs/Placed.antt`): [`places`], the lines of a text that are neither blank, nor comments, nor those
//!   above the instructions.
//! - *A run* (`specs/Explained.antt`): [`explain`] writes it while the run goes, each paragraph with the clients' names (`ot_asm`), and
//!   after a fault a first part of it stands.
//!
//! Begin reading at `paragraph` in specs/Told.antt, then at [`explain`].
#![tactic(auto)]

mod agreeing;
mod ends;
mod outlooks;
mod paragraphs;
mod placing;
mod reasons;
mod values;
mod writing;

pub use outlooks::{outlook_json, run_end};
pub use placing::places;
pub use writing::explain;

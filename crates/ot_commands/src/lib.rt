//! The program's subcommands but `threads`, over any reader and two writers.
//!
//! ```text
//!    running      run: a schedule's reads, stop and end
//!    stepping     steps: a run as lines of JSON
//!    telling      explain: a run in words, of a text or an image
//!    outlook      explain --json: the verdict on where a run ends
//!    checking     check: a run's stop, whether all is quiet or what is not, the verdict of its trace
//!    debugging    debug: back and forth through a run, by commands
//!    converting   asm, dis: between a schedule's text and its image
//!    judging      judge: whether a recorded trace has the weak list property
//!    explaining   explain --trace: its verdict with words, or in words where its first fault is
//!    describing   explain --plan: what a plan is, or in words where its first fault is
//!    generating   generate: a session made at random
//!    listing      generate --every: every small session, or how many they are
//!    completing   complete: a schedule, and behind it what brings its run to quiet
//!    conforming   conform: the lines that a port of ot.js printed, against the run of the schedule that it performed
//!    answering    its answer, in words or as JSON
//!    many         conform --many: the same of many sessions; sessions takes them from the input
//! ```
//!
//! Each call answers the program's status, and says by its clause what it writes: `specs/` has a file for each module (`Ran`, `Stepped`, `Explains`, `ExplainsImages`, `ExplainedOutlooks`, `Checked`,
//! `Debugged`, `Converted`, `Judged`, `ExplainedTraces`, `ExplainedPlans`, `Generated`, `Listed`, `Completes`, `Conformed`, `Answered`, `Many`, `Sessions`), over the outcomes of `streams`. Begin with [`run_text`].
//!
//! A schedule as the input, and its fault as a line:
//!
//! ```text
//!    text  ── ot_asm ───▶ Schedule, or AsmFault    otbench: line L: Kind
//!    image ── ot_image ─▶ Schedule, or ImageFault  otbench: byte B: Kind
//! ```
//!
//! `faults.rt` writes such a line. What a subcommand does with its input is stated by `OfText` and `OfImage` of `specs/Inputs.antt`: the input is
//! refused, or it spells a schedule and that is dealt with. `specs/Faults.antt` has the names of faults as they are printed and when an input
//! is refused.
#![tactic(auto)]

mod answering;
mod checking;
mod completing;
mod conforming;
mod converting;
mod debugging;
mod describing;
mod explaining;
mod faults;
mod generating;
mod judging;
mod listing;
mod many;
mod outlook;
mod part;
mod running;
mod sessions;
mod stepping;
mod telling;

pub use checking::check_text;
pub use completing::complete_text;
pub use conforming::run_conform;
pub use converting::{assemble, disassemble_image};
pub use debugging::debug_text;
pub use describing::explain_plan;
pub use explaining::explain_trace;
pub use generating::generate_session;
pub use judging::judge_input;
pub use listing::{count_sessions, list_sessions};
pub use many::run_conform_many;
pub use outlook::explain_outlook;
pub use running::{run_image, run_text};
pub use stepping::run_steps;
pub use telling::{run_explain, run_explain_image};

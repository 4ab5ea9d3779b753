//! The whole program over any reader and two writers, as a library.
//!
//! ```text
//!    words ── ot_words ──▶ Asked ── serve ──▶ ot_commands  run, steps, explain, check, debug, asm, dis, judge, generate, complete, conform
//!                                    └──▶ ot_threads   threads: a plan that workers on threads type, as the schedule that they record
//! ```
//!
//! [`serve`] says by its clause what it writes and answers (`specs/Served.antt`); the program `otbench` hands it the process's own
//! words and streams. What `threads` rests on is here too: [`read_plan`], the [`Plan`] that it gives, and [`follows`], which says
//! whether a schedule does what a plan says. Begin with `specs/Served.antt`.
#![tactic(auto)]

mod serving;

pub use ot_plan::{Plan, PlanFault, Typing, plan_of, read_plan};
pub use ot_threads::follows;
pub use serving::serve;

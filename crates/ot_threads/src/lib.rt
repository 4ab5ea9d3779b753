//! The subcommand `threads`: workers carry a plan out, and what they recorded is printed where it follows the plan.
//!
//! ```text
//!    input ── ot_plan ──▶ Plan ── carrying ──▶ a board and the workers' ends ── concluding ──▶ text, or the first fault
//!                                (threads)                                      (no threads)
//! ```
//!
//! `run_threads` is the whole of it over any reader and two writers, and the only call here that starts threads and waits. What it
//! ensures (`Threads` in `specs/Threaded.antt`) rests on nothing that the workers do: their receipts are audited against the board's
//! record, and the record is replayed against the plan, before it is printed. That part is [`conclude`], which takes a board and the
//! workers' ends by value and waits for nobody (`IsConcluded` and `IsThreadsFault` in `specs/Concluded.antt`). Begin there.
//!
//! [`follows`] replays a recorded schedule and says whether it begins as the plan does, no instruction is refused, each client's edits are
//! its actions in order and no others, each the edit that the action is on the client's list at that moment, and the session is quiet in
//! the end (`Follows` in `specs/Follows.antt`). Its answer is exact.
//!
//! What is printed is the record as text, and where it ends as comments, so it is a schedule that runs again to the same end (`IsRecord`
//! in `specs/Record.antt`):
//!
//! ```text
//! clients 1
//! edit 0 ["a"]
//! take 0
//! ack 0
//! ; client 0 rev 1 synchronized "a"
//! ; server rev 1 "a"
//! ; quiet
//! ```
#![tactic(auto)]

mod carrying;
mod comment;
mod concluding;
mod fault;
mod following;
mod lines;
mod printing;
mod stepping;
mod threading;

pub use concluding::conclude;
pub use fault::ThreadsFault;
pub use following::follows;
pub use threading::run_threads;

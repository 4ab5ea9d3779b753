//! What is decided of a session: whether all its lists are equal, and whether its trace has the weak list property.
//!
//! ```text
//!   machine  ----- convergence ---->  quiet | not quiet: client, up or down | differs: client, place
//!               |- all_unsettled ->   all that is not settled, in order
//!   schedule ----- traced_run ----->  where it ends: a machine, and its stop
//!               |                     trace, or none where it is full  ----- judge ---->  holds | the first fault
//!               -- trace_of ------->    "
//!   JSON     ----- read_trace ----->    "
//! ```
//!
//! - `convergence` says of a machine what is the first thing that is not settled: by client, its phase, its message to the
//!   server, the messages to it. Where all is settled it compares all lists; it then always answers `Quiet`, since every
//!   run converges. `differs` is that comparison by itself. `all_unsettled` lists everything that is not settled; what `convergence` names is
//!   the first of it. `specs/Convergence.antt` computes all three.
//! - `traced_run` runs a schedule once and gives where the run ended, and its trace, as `specs/Events.antt` of `ot_model`
//!   defines it: one event for each performed edit and read, with what it saw of each replica's edits; `trace_of` gives the
//!   trace alone, and goes no further where it is full. They run the machine and count beside it: how many
//!   edits each client made, how many of them wait in its buffer, and for each number of log entries a row that says how
//!   many of each replica's edits lie in them (`specs/Rows.antt`, `specs/Following.antt`).
//! - `judge` and `read_trace` are those of `ot_judge`. `laws` has the theorem that joins the two: of a schedule's trace the
//!   judge answers `Holds`, or finds no memory.
//!
//! ```text
//!   log entries                rows (clients 0 and 1, server)
//!                              0 0 0
//!   0: of 1                    0 1 0      an edit of client 0 at revision 1, after two edits of its own,
//!   1: of 0                    1 1 0      sees the second row with its own count: 2 1 0
//!   2: of 0, its buffer of 2   3 1 0
//! ```
//!
//! Begin with `convergence` in settling.rt, then with `traced_run` in traced.rt and `Tracer::follow` in tracing.rt.
#![tactic(auto)]

mod comparing;
mod event;
pub mod laws;
mod ledger;
mod outcome;
mod settling;
mod stop;
mod traced;
mod tracing;

pub use comparing::differs;
pub use ot_judge::{
    Event, MOST_ENTRIES, MOST_EVENTS, Placed, Trace, TraceFault, Verdict, judge, read_trace,
};
pub use outcome::{Convergence, Unsettled};
pub use settling::{all_unsettled, convergence};
pub use stop::TraceStop;
pub use traced::{TracedRun, trace_of, traced_run};

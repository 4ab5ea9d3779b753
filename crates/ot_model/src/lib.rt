//! What a session of ot.js clients and their server does, and what holds of all its runs.
//!
//! This crate has almost no code: it is the definitions that the session machine is compared with,
//! and their laws. Operations are those of `ot_text` over tagged characters, instructions those of
//! `ot_isa`.
//!
//! ```text
//!   client 0                 server                  client 1
//!   revision, phase     +--> log: maker, operation   revision, phase
//!   list, count         |    list                    list, count
//!      |                |      |                        ^
//!      | Edit           | Take | the log from the       | Deliver (another's operation)
//!      v                |      v client's revision on   | Acknowledge (its own)
//!   at most one message-+      +------------------------+ Join (the server's list and revision)
//! ```
//!
//! - *The written table* (`specs/Table.antt`): a state, and `step`, which says of each instruction
//!   what it makes of a state, or why it is refused. It restates ot.js' `Client` and `Server`. A
//!   downlink is not stored: it is the log from its client's revision on.
//! - *Runs* (`specs/Runs.antt`): how far a schedule's run goes, and where it is after each of its
//!   instructions.
//! - *Soundness* (`specs/Sound.antt`): a property of a state alone, not of the run that led to it. Each client's list
//!   is the log's at its revision with the pending operations applied; what is under way becomes what is outstanding;
//!   what a client inserted has tags of its own, each once. Every opening has it and every row keeps
//!   it (`opening_sound`, `step_sound`), and of it follow convergence (`convergence`) and that no
//!   call of a client or of the server finds its condition broken (`server_accepts`, `may_deliver`,
//!   `lengths_fit`).
//! - *Parts and sessions* (`specs/Part.antt`, `specs/Session.antt`): a client off the table with a
//!   copy of its downlink, its rows there, and the invariant of a session of such steps. The table performs
//!   the steps as one block wherever the start still begins the client (`session_block`), and it does
//!   so whatever others do meanwhile (`session_waits`).
//! - *Orders* (`specs/Orders.antt`, `specs/OrderLaws.antt`): logs of several machines give each
//!   machine's own order of instructions, and none between machines. Every order that keeps these
//!   leads to the same state (`any_order`), unless something is received before it was sent
//!   (`any_order_runs`). Neighbours that are independent can be exchanged (`commute`, `exchange`).
//! - *Traces* (`specs/Trace.antt`, `specs/Events.antt`): what each replica did, saw and returned, and
//!   the trace of a schedule.
//! - *The weak list property* (`specs/Visibility.antt`, `specs/WeakList.antt`) of Attiya et al., PODC
//!   2016: the definition that a judge of traces decides, and that every run has (`weak_list`).
//!
//! The laws are the functions of [`laws`], which have empty bodies: their contracts, spelled out in `specs/Laws.antt`,
//! `specs/SessionLaws.antt`, `specs/OrderLaws.antt` and `specs/TraceLaws.antt`, are the theorems, and nothing is assumed in
//! them. Begin with `specs/Table.antt`; `proofs/Examples.antt` has worked runs that the checker computes,
//! `proofs/OrderExamples.antt` has one in two orders, `proofs/TraceExamples.antt` has the runs' traces, and
//! `proofs/PartExamples.antt` has worked steps of parts.
#![tactic(auto)]

pub mod laws;
mod limits;
mod list_laws;
mod order_laws;
mod part_laws;
mod session_laws;
mod shown;
mod trace;

pub use limits::{SESSION_LIMIT, STEP_LIMIT};
pub use shown::{Reader, Refusal, Shown};
pub use trace::Placed;

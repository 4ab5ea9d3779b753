//! Tagged characters, instructions and schedules: what a session of ot.js is made to do, step by step.
//!
//! A schedule is data. It says how many clients there are, which of them are there from the start, which text they
//! start with, and which instructions are performed, one after the other:
//!
//! ```text
//! Schedule
//!   clients 2          1 to 64
//!   present 1          0 to clients: client 0 is there, client 1 joins later
//!   start   "xy"       at most 40,000 Unicode scalar values
//!   instrs             at most 100,000
//!     0  Edit(0, [2,"b"])     client 0 types, as `applyClient`
//!     1  Take(0)              the server takes client 0's message, as `receiveOperation`
//!     2  Join(1)              client 1 gets the server's document and revision
//!     3  Acknowledge(0)       client 0 hears that its edit was taken, as `serverAck`
//! ```
//!
//! A `Builder` takes instructions one at a time and refuses those that no schedule has; `finish` gives the schedule. So
//! the type invariant of `Schedule` has all limits (`IsProgram`).
//!
//! To tell one character from another in a run, each carries a `Tag`: who made it, and its number among all that its
//! maker made. The start text "xy" and the edit above, tagged as client 0's first, make
//!
//! ```text
//!   x 65535:0    y 65535:1    b 0:0
//! ```
//!
//! The definitions of the contracts: `specs/Tagging.antt` (tags, documents and operations over tagged characters) and
//! `specs/Program.antt` (`Program`, the value of a schedule; `BuilderView`, that of a builder; `IsProgram`, the invariant of
//! schedules). `proofs/Examples.antt` has examples of the first. Begin reading at `instruction.rt`, then `builder.rt`.
#![tactic(auto)]

mod builder;
mod elements;
mod instruction;
mod refusal;
mod scalars;
mod schedule;
mod tagging;

pub use builder::{Builder, CLIENT_LIMIT, INSTR_LIMIT, START_LIMIT};
pub use elements::{Tag, Tagged};
pub use instruction::Instr;
pub use refusal::{OpeningFault, PushFault};
pub use schedule::Schedule;
pub use tagging::{INSERTED_LIMIT, START_ORIGIN, plain, start_doc, tagged};

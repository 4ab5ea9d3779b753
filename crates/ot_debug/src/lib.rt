//! A debugger of schedules that steps back and forth.
//!
//! ```text
//!   place        0        1        2        3        4   ..   length
//!   state    opening -i0-> s1 -i1-> s2 -i2-> s3 -i3-> s4
//!   undos                     u1       u2        ^                (those of the last ones, or none at all)
//!                                            position 3: the machine is in s3, shown are the reads of i0, i1, i2
//!   breaks   -        -        -        -        *                (one mark a place)
//!   watches  0: Doc(0)  1: ServerRevision  ..                    (numbered in the order of setting)
//! ```
//!
//! - A [`Debugger`], and a [`Stepper`], is seen by contracts as a `Session` (specs/Session.antt): the schedule, the position, which is the number of
//!   performed instructions, the state and the shown lists there, breaks and watches. Its type invariant says that the state and the lists are
//!   those of the schedule's run after as many instructions (`place_at` of `ot_model`), whatever commands came before.
//! - The two are one type, [`Debugging`]. A `Debugger` records the lists that reads showed, and gives them by [`Debugger::shown`]; a `Stepper` records
//!   none, and copies none for a read: its memory is that of the machine and of the undo records, and of a second machine while a `Back` performs again.
//! - [`Debugging::command`] performs one [`Command`] and answers with a [`Reply`]; specs/Answers.antt says what each command answers
//!   and what it leaves, specs/Stops.antt where a `Run` or a `Step` stops and why.
//! - What watches see of an instruction is determined before it is performed (specs/Changes.antt): so no list is copied or compared for them.
//!   Of equal watches the first alone is looked at.
//! - [`laws`] says that stops are exact: a run has one stop at most, for one reason.
//! - Going forth costs what a run costs: only the last 32 instructions before a place where a command stops leave undo records, where that place is the end
//!   of the schedule, a break before a `Run`, or the last instruction of a `Step`, and the one that a watch stops at; what is performed behind that place without one lets them go. So
//!   the first few steps back take no time.
//!   Where `Back` is to go further and there are no records, another machine performs the schedule once more, from the opening up to the place where one goes, and leaves a
//!   record of each instruction; then it takes the place of the first one. To the opening that is nothing.
//!   The records are a stack: `Back` takes them off one by one, and once somebody has gone back all that is performed adds its own, until the opening is reached.
//! - The records together have a budget. Beyond it the oldest go, so they are those of the last performed instructions.
//!   So the memory that they take is bounded, and a `Back` performs once more at most, however far it goes.
//! - What grows does so before anything is changed. After `Memory` the debugger stands after a whole number of instructions,
//!   between its old place and the one to which the command would have gone.
//!
//! Begin reading at `Debugging` in debugger.rt, then stepping.rt (one instruction forth, and back), records.rt (the undo records), recent.rt (their stack),
//! watching.rt (what watches see), changing.rt (whether an operation changes a list) and moving.rt (the commands that move); settings.rt has the others.
#![tactic(auto)]

mod changing;
mod command;
mod debugger;
pub mod laws;
mod moving;
mod recent;
mod records;
mod settings;
mod stepping;
mod watching;

pub use command::{Command, Reply, Watched, Why};
pub use debugger::{Debugger, Debugging, Stepper};

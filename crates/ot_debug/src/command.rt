//! The commands of the debugger, and what it answers.

use ot_machine::{Refusal, State};

/// What a watch looks at. Clients are numbered from 0.
#[derive(Clone, Copy, Debug, PartialEq, Eq)]
pub enum Watched {
    /// The client's list, tags included.
    Doc(u32),
    /// Which of its four states the client is in: not joined, synchronized, awaiting a confirmation, or awaiting with a buffer.
    State(u32),
    /// How many entries the server's log has.
    ServerRevision,
}

/// A command. Places are counted in instructions: place p stands after the first p of them.
#[derive(Clone, Copy, Debug, PartialEq, Eq)]
pub enum Command {
    /// Goes on to the next stop: a watch, a break, a refused instruction or the schedule's end. A break at the place where it starts
    /// does not stop it.
    Run,
    /// Performs this many instructions, or those before the first refused one, or all that are left; breaks and watches do not count.
    Step(u32),
    /// Undoes this many instructions, or all, by the undo records that they left: the last 32 before a stop, all of them from the first `Back` on until the
    /// opening is reached. That costs what it undoes. Where it goes beyond them it performs the schedule once more, up to the place where it goes, which leaves the
    /// records of the instructions before it. Where these would be too large together, those of the last ones alone are kept. To the opening that is nothing.
    Back(u32),
    /// Sets a break at a place, 0 to the schedule's length.
    Break(u32),
    /// Removes the break at a place.
    Clear(u32),
    /// Adds a watch.
    Watch(Watched),
    /// Removes all watches.
    Unwatch,
    /// Asks for the place.
    Position,
    /// Asks for the state.
    Show,
}

/// Why the debugger stopped.
#[derive(Clone, Copy, Debug, PartialEq, Eq)]
pub enum Why {
    /// There is a break at the place.
    Break,
    /// The last instruction changed what this watch looks at; watches are numbered from 0 in the order of setting, and it is the least.
    Watch(usize),
    /// The schedule ends here.
    End,
    /// The next instruction is refused for this reason, which is never `Memory`.
    Refused(Refusal),
    /// As many instructions as were asked for were performed or undone.
    Count,
}

/// What the debugger answers.
#[derive(Drop)]
pub enum Reply {
    /// It has moved to this place, or stayed there.
    Stopped { at: usize, why: Why },
    /// Breaks or watches are as the command says.
    Done,
    /// The place.
    Place(usize),
    /// The state.
    Shown(State),
    /// Past the schedule's end (`Break`), or without a break (`Clear`).
    NoSuchPlace,
    /// The watch names a client that is not there.
    NoSuchClient,
    /// A growth was refused.
    Memory,
}

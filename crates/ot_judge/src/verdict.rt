//! What the judge answers.

use ot_isa::Tag;

/// Whether a trace has the weak list property, or its first fault: that of the least event with one, and of that event
/// the first in the order below; a reversed pair only where no event has a fault. Events are counted from 0.
#[derive(Clone, Copy, PartialEq, Eq, Debug)]
pub enum Verdict {
    /// The property holds.
    Holds,
    /// What the event sees is not exactly its replica's earlier edits, is not there yet, or lacks what it follows.
    BadVisibility(usize),
    /// The first tag of the event's list that stands in it twice.
    Doubled(usize, Tag),
    /// The first tag, by start and then by event, that the event's list must hold and does not.
    Missing(usize, Tag),
    /// The first tag of the event's list that it must not hold.
    Extra(usize, Tag),
    /// The first inserted tag, in the order of the insertions, that does not stand at its place.
    WrongPlace(usize, Tag),
    /// The first tag stands before the second in the list of the first event, and behind it in the later one's. Which
    /// pair is named is left open.
    Reversed(usize, usize, Tag, Tag),
}

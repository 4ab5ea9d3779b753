//! The laws of the small sessions, each as the contract of a function that does nothing: a proof that calls one has its law.

ghost use Rattle.ot_every.specs.Laws.{Complete, Distinct, Parts, Valid};
ghost use Rattle.ot_every.specs.Printed.{PrintedAreSessions};

/// Each session that is listed is performed whole by the table and ends quiet, with every client joined. It has at most so many
/// edits, each with at most so many insertions of so many letters, and reads nothing. Its edits insert the letters in turn.
pub fn valid()
    ensures { Valid }
{}

/// So is the schedule that is printed of a session, with its reads: the table performs it whole, and it ends quiet, with every client joined.
pub fn printed_are_sessions()
    ensures { PrintedAreSessions }
{}

/// No two sessions that are listed have the same instructions in the same order on each machine, not even where letters are not
/// told apart.
pub fn distinct()
    ensures { Distinct }
{}

/// For every schedule over so many clients and a start text of that length that is performed whole and ends quiet with every client
/// joined, with at most so many such edits, a session is listed that has the same instructions in the same order on each machine, but
/// for letters.
pub fn complete()
    ensures { Complete }
{}

/// Part i of n has each n-th session from the i-th on: together the parts are the whole, and each session is in one.
pub fn parts()
    ensures { Parts }
{}

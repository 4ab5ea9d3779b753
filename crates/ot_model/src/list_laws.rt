//! The laws of the lists that runs show, each as the contract of a function that does nothing.

ghost use Rattle.ot_model.specs.Lying.{CountsTellWhatLies, EventsSeeWhatLies};
ghost use Rattle.ot_model.specs.TraceLaws.{ListsAgree, OneHasBoth, OneOrder, TraceShape, WeakList};

/// The trace of every schedule is a trace: at most 65 replicas, no tag inserted twice (the start
/// included), one count of seen edits per replica, and reads that change nothing.
pub fn trace_shape()
    ensures { TraceShape }
{}

/// The trace of every schedule, late joiners included, has the weak list property of
/// Attiya et al. (PODC 2016).
pub fn weak_list()
    ensures { WeakList }
{}

/// There is no one order over all elements of each run: the strong list property of the same
/// authors does not hold.
pub fn not_one_order()
    ensures { OneOrder → ⊥ }
{}

/// Two elements of a client's list that also both stand in the server's list after some number of
/// log entries, of that moment or of a later one of the run, stand in one order in both.
pub fn lists_agree()
    ensures { ListsAgree }
{}

/// Of two different readers' lists that share two elements, at any two moments of a run, one has
/// both already in the server's list at its revision.
pub fn one_has_both()
    ensures { OneHasBoth }
{}

/// At each place of each run, which edits lie in a client's outstanding operation, in its buffer and in each log entry is what
/// the ledger of the trace counts: the relation over the run, from instruction to instruction, and the counts say the same.
pub fn counts_tell()
    ensures { CountsTellWhatLies }
{}

/// Each event of each trace counts its replica's own earlier edits, and of each other client exactly those that lie in a log
/// entry that the reader has: a client those below its revision, the server all.
pub fn events_see()
    ensures { EventsSeeWhatLies }
{}

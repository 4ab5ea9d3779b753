//! What the lines of every run give, each law as the contract of a function that does nothing.

ghost use Rattle.ot_steps.specs.Laws.{AllLinesFold, DownlinksFollow, FoldIsRun, FoundByLines, LinesFold};

/// The opening and the lines of the first instructions fold to the state after them: every client's revision, state, pending operations,
/// its text and its message to the server, the server's text, and the log with its makers. The fold applies operations to texts and
/// needs nothing else of the algebra.
pub fn fold_is_run()
    ensures { FoldIsRun }
{}

/// So do the first lines of all that are printed of a run, at each place up to its end, and all of them to the state where it ends.
pub fn lines_fold()
    ensures within { LinesFold }
    ensures all { AllLinesFold }
{}

/// What looks for a text in the documents that the lines give finds it where the table's documents have it, and as often. At every place, for the server and each client.
pub fn finds_follow()
    ensures { FoundByLines }
{}

/// What stands on the way to a client follows from the log and the client's revision.
pub fn downlinks_follow()
    ensures { DownlinksFollow }
{}

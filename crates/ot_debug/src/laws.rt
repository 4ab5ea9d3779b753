//! Laws of stops, each as the contract of a function that does nothing.

ghost use Rattle.ot_debug.specs.Laws.{RunsStop, RunsStopOnce, StepsStop, StepsStopOnce};

/// From each place of each session a run stops at one place at most, and for one reason: so the place and the reason that `Run`
/// answers are the only ones.
pub fn runs_stop_once()
    ensures { RunsStopOnce }
{}

/// So does a number of steps.
pub fn steps_stop_once()
    ensures { StepsStopOnce }
{}

/// From where a session stands a run has a stop: a watch that sees a change, a break, an instruction that the table refuses, or the
/// schedule's end. So with [`runs_stop_once`] the place and the reason of a run are determined, whatever memory allows.
pub fn runs_stop()
    ensures { RunsStop }
{}

/// So has each number of steps.
pub fn steps_stop()
    ensures { StepsStop }
{}

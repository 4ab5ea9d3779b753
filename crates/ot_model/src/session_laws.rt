//! The laws of all runs, each as the contract of a function that does nothing.

ghost use Rattle.ot_model.specs.Laws.{Convergence, DeliveriesFit, LengthsFit, OpeningSound, QuietSame, RunSound, RunsReach, SchedulesRun, ServerAccepts, StepSound};

/// Every opening is sound: of at most 64 clients, of which as many are present as one likes, and a
/// start text of at most 40,000 scalars.
pub fn opening_sound()
    ensures { OpeningSound }
{}

/// Each instruction leads from a sound state to a sound one or is refused; an acknowledgement never
/// comes to a client that waits for none (in ot.js' `Client`, `Synchronized.serverAck` throws).
pub fn step_sound()
    ensures { StepSound }
{}

/// Every state of every run is sound.
pub fn run_sound()
    ensures { RunSound }
{}

/// In a sound state that is quiet, each joined client's list is the server's, element by element.
pub fn quiet_same()
    ensures { QuietSame }
{}

/// Wherever a run is quiet (no message under way, all links empty, all joined clients
/// synchronized), each joined client's list is the server's, element by element.
pub fn convergence()
    ensures { Convergence }
{}

/// The server refuses no message of a sound state, unless memory runs out.
pub fn server_accepts()
    ensures { ServerAccepts }
{}

/// No document, operation or log of a sound state is longer than 1,000,000.
pub fn lengths_fit()
    ensures { LengthsFit }
{}

/// What a client asks of another's operation holds of each one that is delivered in a sound state.
pub fn may_deliver()
    ensures { DeliveriesFit }
{}

/// A schedule's run performs the instructions before the first that is refused, and no other.
pub fn runs_reach()
    ensures { RunsReach }
{}

/// Every value of the type of schedules keeps what a run asks: at most 64 clients, no more present
/// ones, a start text of at most 40,000 scalars, and operations in its edits.
pub fn schedules_run()
    ensures { SchedulesRun }
{}

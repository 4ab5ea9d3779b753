//! The laws of all traces of schedules, each as the contract of a function that does nothing.

ghost use Rattle.ot_check.specs.Laws.{JudgeAccepts};

/// The verdict on the trace of every schedule, late joiners included, is `Holds`: so `judge` answers nothing else,
/// unless memory runs out.
pub fn judge_accepts()
    ensures { JudgeAccepts }
{}

//! Laws of all runs, each as the contract of a function that does nothing but call the law it rests on.

ghost use Rattle.ot_operation.specs.Laws.{ApplyKeepsOrder, TransformKeepsSides};
ghost use Rattle.ot_isa.specs.declared.elements.Tagged.{Tagged};
ghost use Rattle.ot_machine.specs.Laws.{RunsConverge, RunsSound};
ghost use Rattle.ot_machine.specs.Undoing.{RecordsDetermine};
ghost use Rattle.ot_model.specs.TraceLaws.{ListsAgree, OneHasBoth, WeakList};

pub use crate::order_laws::{any_order, runs_beside};
use ot_isa::Tagged;

/// After any number of performed instructions of any schedule the state is sound.
pub fn runs_are_sound()
    ensures { RunsSound }
{}

/// Wherever a run is quiet (no message under way, every downlink empty, every joined client
/// synchronized), every joined client's list is the server's, tags included: of every schedule, at
/// every moment.
pub fn runs_converge()
    ensures { RunsConverge }
{}

/// The undo record of a step and the state after the step leave one state before it: no list is recorded, and nothing
/// of the state before is lost.
pub fn records_determine()
    ensures { RecordsDetermine }
{}

/// Where an operation keeps an element and what it becomes after another keeps it too, that element stands on the same side of each
/// of the operation's new elements; and applying an operation keeps the order of what stays.
pub fn operations_keep_order()
    ensures sides { TransformKeepsSides Tagged }
    ensures order { ApplyKeepsOrder Tagged }
{
    ot_algebra::laws::transform_keeps_sides::<Tagged>();
    ot_algebra::laws::apply_keeps_order::<Tagged>();
}

/// Two elements of a client's list that also both stand in the server's list after some number of log entries, of that moment or of
/// a later one of the run, stand in one order in both.
pub fn lists_agree()
    ensures { ListsAgree }
{
    ot_model::laws::lists_agree();
}

/// Of two different readers' lists that share two elements, at any two moments of a run, one has both already in the server's list
/// at its revision.
pub fn one_has_both()
    ensures { OneHasBoth }
{
    ot_model::laws::one_has_both();
}

/// The trace of every schedule, late joiners included, has the weak list property of Attiya et al. (PODC 2016); it rests on the three
/// laws before this one.
pub fn runs_have_weak_lists()
    ensures { WeakList }
{
    ot_model::laws::weak_list();
}

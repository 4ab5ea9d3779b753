//! The laws of instructions in other orders, each as the contract of a function that does nothing.

ghost use Rattle.ot_model.specs.OrderLaws.{AnyOrder, AnyOrderRuns, Commute, Exchange, SameInstructions, SameMultiset, TooEarlyStops};

/// Of two independent instructions that are each performed in a sound state, either can come first:
/// both orders lead to the same state and show the same lists.
pub fn commute()
    ensures { Commute }
{}

/// Two independent neighbours of a run can be exchanged where the second is performed in the state
/// before the first: the state after both is the same, its count of steps included, and so is what
/// they show.
pub fn exchange()
    ensures { Exchange }
{}

/// Two runs of the same instructions, in which each machine (each client's, and the server's) has
/// its own in the same order, lead to the same state, and each machine shows the same lists in the
/// same order. So logs of several machines need no order between machines.
pub fn any_order()
    ensures { AnyOrder }
{}

/// Another order of a run's instructions, with each machine's own in the same order, is a run to the
/// same state, where each machine shows the same lists, or it comes to an instruction that receives
/// what is not sent yet and is refused with `LinkEmpty`, while an instruction that may send it stands
/// behind it. Nothing else is ever refused.
pub fn any_order_runs()
    ensures { AnyOrderRuns }
{}

/// A run that comes to an instruction that receives what is not sent yet does not reach its end: the
/// two cases of `any_order_runs` exclude each other.
pub fn too_early_stops()
    ensures { TooEarlyStops }
{}

/// Where each machine has the same instructions in the same order, all together are the same
/// instructions, each as often, so that the one order is a permutation of the other.
pub fn same_instructions()
    ensures { SameInstructions }
{}

/// Where each machine shows the same lists in the same order, all together are the same lists, each
/// as often.
pub fn same_multiset()
    ensures { SameMultiset }
{}

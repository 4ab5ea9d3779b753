//! The laws of other letters, each as the contract of a function that does nothing: a proof that calls one has its law.

ghost use Rattle.ot_letters.specs.Laws.{ApplyMaps, ComposeMaps, TransformMaps, InvertMaps, EditMaps, DeliverMaps, AcknowledgeMaps, ReceiveMaps, TagMaps, OpeningMaps, DownlinkMaps, StepMaps, RunMaps, ScheduleMaps, InstrsMap, QuietMaps, OrderMaps, AlikeIsLength, AlikeIsShape, AlikeIsEach, OpeningsAreAlike, StepsAreAlike, RunsAreAlike, QuietIsAlike};

/// A mapped operation on a mapped document makes the mapped document.
pub fn apply_maps<A, B>()
    ensures { ApplyMaps A B }
{}

/// Two mapped operations compose to the mapped composition.
pub fn compose_maps<A, B>()
    ensures { ComposeMaps A B }
{}

/// Two mapped operations, transformed, are the mapped results, of which the order at one place is a part.
pub fn transform_maps<A, B>()
    ensures { TransformMaps A B }
{}

/// A mapped operation's inverse on a mapped document is the mapped inverse.
pub fn invert_maps<A, B>()
    ensures { InvertMaps A B }
{}

/// An edit of a client (ot.js: `applyClient`): its state after it and what it sends are mapped.
pub fn edit_maps<A, B>()
    ensures { EditMaps A B }
{}

/// A delivery to a client (ot.js: `applyServer`): its state after it and what it applies are mapped.
pub fn deliver_maps<A, B>()
    ensures { DeliverMaps A B }
{}

/// An acknowledgement (ot.js: `serverAck`): the client's phase after it and what it sends are mapped.
pub fn acknowledge_maps<A, B>()
    ensures { AcknowledgeMaps A B }
{}

/// An operation that the server receives (ot.js: `receiveOperation`): its fault is the same, and what it becomes and the
/// history after it are mapped.
pub fn receive_maps<A, B>()
    ensures { ReceiveMaps A B }
{}

/// Tags are given by place and not by letter.
pub fn tag_maps()
    ensures { TagMaps }
{}

/// A mapped start text has the mapped opening.
pub fn opening_maps()
    ensures { OpeningMaps }
{}

/// The downlinks of a mapped state are mapped.
pub fn downlink_maps()
    ensures { DownlinkMaps }
{}

/// A mapped instruction in a mapped state has the mapped outcome: it is performed, or refused for the same reason.
pub fn step_maps()
    ensures { StepMaps }
{}

/// The run of mapped instructions from a mapped place is the mapped run: it is performed as far, to the mapped state, shows the
/// mapped lists, and is refused for the same reason.
pub fn run_maps()
    ensures { RunMaps }
{}

/// The same of a schedule: as many of its instructions are performed, and each of its places is mapped.
pub fn schedule_maps()
    ensures { ScheduleMaps }
{}

/// A schedule can have the mapped instructions exactly if it can have the instructions.
pub fn instrs_map()
    ensures { InstrsMap }
{}

/// A mapped state is quiet exactly if the state is.
pub fn quiet_maps()
    ensures { QuietMaps }
{}

/// Each machine has the mapped instructions in the same order.
pub fn order_maps()
    ensures { OrderMaps }
{}

/// Two texts are alike exactly if they have one length.
pub fn alike_is_length()
    ensures { AlikeIsLength }
{}

/// Two edits are alike exactly if they have one client and retain, insert and delete the same numbers of characters at the
/// same places.
pub fn alike_is_shape()
    ensures { AlikeIsShape }
{}

/// Two schedules are alike exactly if they have one length and alike instructions at each place.
pub fn alike_is_each()
    ensures { AlikeIsEach }
{}

/// Alike start texts have alike openings.
pub fn openings_are_alike()
    ensures { OpeningsAreAlike }
{}

/// Alike instructions in alike states are both performed, or both refused for the same reason; what they make is alike.
pub fn steps_are_alike()
    ensures { StepsAreAlike }
{}

/// Of two alike schedules from alike places, each is performed as far as the other, and refused for the same reason. Where one
/// reaches its end, so does the other, at an alike place, and one is quiet there exactly if the other is.
pub fn runs_are_alike()
    ensures { RunsAreAlike }
{}

/// Of two alike states, both are quiet or neither is.
pub fn quiet_is_alike()
    ensures { QuietIsAlike }
{}

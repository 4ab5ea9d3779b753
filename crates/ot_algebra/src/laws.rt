//! The laws of operations, each as the contract of a function that does nothing: a proof that calls one has its law.
ghost use Rattle.ot_operation.specs.Laws.{ApplyKeepsOrder, ComposeApplies, ComposeAssociates, ComposeFits, ComposeKeepsNews, InvertFits, InvertGivesBack, TransformConverges, TransformFits, TransformIsMerge, TransformKeepsDeletions, TransformKeepsNews, TransformKeepsSides, TransformMeets};

use ot_text::Element;

/// To apply a composition is to apply its parts in turn.
pub fn compose_applies<T: Element>()
    ensures { ComposeApplies T }
{}

/// Three operations in turn are one, whichever two are composed first.
pub fn compose_associates<T: Element>()
    ensures { ComposeAssociates T }
{}

/// A composition takes what its first part takes, and makes as much as its second.
pub fn compose_fits<T: Element>()
    ensures { ComposeFits T }
{}

/// A composition inserts nothing that its parts do not insert.
pub fn compose_keeps_news<T: Element>()
    ensures { ComposeKeepsNews T }
{}

/// Two operations on one base, each after the other, are the same operation in either order.
pub fn transform_meets<T: Element>()
    ensures { TransformMeets T }
{}

/// Two operations on one base, each after the other, are their merge.
pub fn transform_is_merge<T: Element>()
    ensures { TransformIsMerge T }
{}

/// What two operations become takes what the other made; both orders make equally much, no more than the document and all
/// insertions.
pub fn transform_fits<T: Element>()
    ensures { TransformFits T }
{}

/// Two operations on one document, each after the other, make the same document in either order.
pub fn transform_converges<T: Element>()
    ensures { TransformConverges T }
{}

/// What two operations become inserts the same elements in the same order.
pub fn transform_keeps_news<T: Element>()
    ensures { TransformKeepsNews T }
{}

/// What both operations keep stays in what each becomes, on the same side of each new element.
pub fn transform_keeps_sides<T: Element>()
    ensures { TransformKeepsSides T }
{}

/// What an operation deletes and the other keeps is deleted by what the operation becomes.
pub fn transform_keeps_deletions<T: Element>()
    ensures { TransformKeepsDeletions T }
{}

/// What an operation keeps is what it was, and in its order.
pub fn apply_keeps_order<T: Element>()
    ensures { ApplyKeepsOrder T }
{}

/// An operation and then its inverse restore the document.
pub fn invert_gives_back<T: Element>()
    ensures { InvertGivesBack T }
{}

/// An inverse takes what the operation made, and makes as much as the operation took.
pub fn invert_fits<T: Element>()
    ensures { InvertFits T }
{}

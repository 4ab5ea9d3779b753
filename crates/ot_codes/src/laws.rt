//! The laws, each as the contract of a function that does nothing: a proof that calls one has its law.
ghost use Rattle.ot_codes.specs.Laws.{BuildingKeepsShape, ComposeFills, ComposeKeepsShape, CutsGiveText, FilledFits, FilledGivesBack, SameShape, ShapeKeepsLengths, TransformFills, TransformKeepsShape};

use ot_operation::Element;

/// A shape has the lengths of what it is the shape of.
pub fn shape_keeps_lengths<T: Element>()
    ensures { ShapeKeepsLengths T }
{}

/// An operation is its shape and its elements.
pub fn filled_gives_back<T: Element>()
    ensures { FilledGivesBack T }
{}

/// Two operations of one shape with the same elements are equal.
pub fn same_shape<T: Element>()
    ensures { SameShape T }
{}

/// A shape that is filled with as many elements as it inserts has that shape and these elements.
pub fn filled_fits<T: Element>()
    ensures { FilledFits T }
{}

/// One more component in the shape, and its elements behind the others.
pub fn building_keeps_shape<T: Element>()
    ensures { BuildingKeepsShape T }
{}

/// Transform looks at no element.
pub fn transform_keeps_shape<T: Element>()
    ensures { TransformKeepsShape T }
{}

/// What the shapes become by transform, filled with the elements that were there, is what the operations become.
pub fn transform_fills<T: Element>()
    ensures { TransformFills T }
{}

/// Compose looks at no element.
pub fn compose_keeps_shape<T: Element>()
    ensures { ComposeKeepsShape T }
{}

/// Cuts that give the text of a composition by the shapes give it for all operations of these shapes.
pub fn cuts_give_text<T: Element>()
    ensures { CutsGiveText T }
{}

/// The composition of the shapes, filled with the text that the cuts make, is the composition.
pub fn compose_fills<T: Element>()
    ensures { ComposeFills T }
{}

//! What a trace says of an insertion.

use ot_isa::Tag;

/// An element that an edit inserts, and its place (from 0, in elements) in the list after the edit.
#[derive(Clone, Copy, Debug, PartialEq, Eq)]
pub struct Placed {
    pub tag: Tag,
    pub place: usize,
}

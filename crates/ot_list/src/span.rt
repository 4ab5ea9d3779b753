//! Where a patch changes a list.

/// From where the span before ends: so many leaves of the old list are kept, then so many go, and so many new ones come in their place.
#[derive(Clone, Copy, Debug, PartialEq, Eq)]
pub struct Span {
    pub kept: usize,
    pub gone: usize,
    pub put: usize,
}

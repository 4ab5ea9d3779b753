//! An operation of which some components were read.

/// The last component's byte, 0 for none, and the base and target length so far.
#[derive(Clone, Copy)]
pub struct Shape {
    pub last: u8,
    pub base: usize,
    pub target: usize,
}

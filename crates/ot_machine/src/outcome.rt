//! What a run ends with.

use crate::machine::Machine;
use ot_model::{Refusal, Shown};

/// A schedule's run, as far as it went.
#[derive(Drop)]
pub struct Run {
    /// The machine after the performed instructions.
    pub machine: Machine,
    /// The lists that the performed reads showed, in order.
    pub shown: Vec<Shown>,
    /// The place of the instruction that was not performed, and why; none where all were performed.
    pub stopped: Option<(usize, Refusal)>,
}

/// Where a schedule's run ended.
#[derive(Drop)]
pub struct Ending {
    /// The machine after the performed instructions.
    pub machine: Machine,
    /// The place of the instruction that was not performed, and why; none where all were performed.
    pub stopped: Option<(usize, Refusal)>,
}

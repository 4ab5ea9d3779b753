//! What a worker gets for steps that were recorded.

use crate::refusal::SettleRefusal;
use ot_isa::Instr;

/// Steps that stand in a board's record, from the place `first` on, counted from 0.
#[derive(Drop)]
pub struct Receipt {
    /// Where the first of them stands.
    pub first: usize,
    /// The steps, in order.
    pub steps: Vec<Instr>,
}

/// What came of a session whose steps were performed once more.
#[derive(Drop)]
pub struct Replayed {
    /// Where the steps that were performed stand, all or the first ones of the session's.
    pub receipt: Receipt,
    /// Why the next step was not performed, where not all were: `Memory` if memory runs out, `Stranger` where the table refuses the step.
    pub stopped: Option<SettleRefusal>,
}

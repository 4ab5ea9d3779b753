//! One of several moves, each with its weight, as they are offered one after the other.

ghost use Rattle.std.specs.Prelude.{◌≡◌, None};
ghost use Rattle.ot_generate.specs.Walks.{IsOffered};

use crate::chance::below;
use ot_isa::Instr;
use rand_pcg::Pcg32;

/// What a session may go on with.
#[derive(Drop)]
pub enum Move {
    /// The client edits its document; the edit is drawn once the move is chosen.
    Edits(u16),
    Makes(Instr),
}

/// The move that is chosen among those offered so far, and the sum of their weights.
#[derive(Drop)]
pub struct Choice {
    pub best: Option<Move>,
    total: u32,
}

impl Choice {
    /// Nothing is offered yet.
    pub fn new() -> Choice
        ensures { result.best ≡ None }
    {
        Choice {
            best: None,
            total: 0,
        }
    }

    /// Offers a move, if there is one, with a weight from 1 on: it is chosen as often as its weight has a part in the sum, and always where
    /// it is the first.
    pub fn offer(&mut self, chance: &mut Pcg32, weight: u32, next: Option<Move>)
        ensures { IsOffered self.old.best next self.new.best }
    {
        let Some(next) = next else {
            return;
        };
        self.total = self.total.saturating_add(weight.max(1));
        if self.best.is_none() || below(chance, self.total.max(1)) < weight {
            self.best = Some(next);
        }
    }
}

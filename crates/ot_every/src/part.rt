//! One of so many parts of the sessions.

ghost use Rattle.std.specs.Prelude.{◌≡◌, ◌-◌};
ghost use Rattle.ot_every.specs.Parts.{part_if, part_in, whole};

use std::marker::Model;

/// One of n parts of the sessions: each n-th session, from that of its number on. Together the parts are the whole.
#[derive(Drop)]
pub struct Part {
    number: u32,
    parts: u32,
}

impl Model for Part {
    ghost use Rattle.std.specs.Prelude.{◌≡◌, true};
    ghost use Rattle.ot_every.specs.Parts.{is_part, part_in, PartView};

    ghost Value = { PartView };

    ghost view = { λ p. part_in p.number p.parts };

    ghost invariant = { λ p. is_part (part_in p.number p.parts) ≡ true };
}

impl Part {
    /// The part of this number, from 1 on, of so many; none where there is no such part.
    pub fn new(number: u32, parts: u32) -> Option<Part>
        ensures { result ≡ part_if (part_in number parts) }
    {
        if number < 1 || number > parts {
            return None;
        }
        Some(Part { number, parts })
    }

    /// The one part that is the whole.
    pub fn whole() -> Part
        ensures { result ≡ whole }
    {
        Part {
            number: 1,
            parts: 1,
        }
    }

    // How many sessions stand before its first one.
    pub(crate) fn before(&self) -> u32
        ensures { result ≡ self.now.number - 1 }
    {
        self.number - 1
    }

    // How many sessions stand between two of its own.
    pub(crate) fn between(&self) -> u32
        ensures { result ≡ self.now.parts - 1 }
    {
        self.parts - 1
    }
}

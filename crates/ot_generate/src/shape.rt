//! What is asked of a session.

ghost use Rattle.std.specs.Prelude.{◌≡◌};
ghost use Rattle.ot_generate.specs.Shapes.{shape_if, shape_in};

use ot_isa::{CLIENT_LIMIT, INSTR_LIMIT, START_LIMIT};
use std::marker::Model;

/// What is asked of a session: 1 to 64 clients, no more present ones than clients, at most 100,000 instructions before the reads at the
/// end, and a start text of at most 40,000 characters.
#[derive(Drop)]
pub struct Shape {
    pub(crate) clients: u32,
    pub(crate) present: Option<u32>,
    pub(crate) instructions: u32,
    pub(crate) start: Option<Vec<char>>,
    pub(crate) is_open: bool,
}

impl Model for Shape {
    ghost use Rattle.std.specs.Prelude.{◌≡◌, true};
    ghost use Rattle.ot_generate.specs.Shapes.{is_shape, shape_in, ShapeView};

    ghost Value = { ShapeView };

    ghost view = { λ s. shape_in s.clients s.present s.instructions s.start s.is_open };

    ghost invariant = { λ s. is_shape (shape_in s.clients s.present s.instructions s.start s.is_open) ≡ true };
}

impl Shape {
    /// The shape; none where a number is out of its range, or the start text too long. Where `present` or `start` is not given it is drawn:
    /// mostly all clients are present, and the text is short or empty. With `open` the session may end anyhow, else it ends where all is
    /// quiet, with reads of everybody.
    pub fn new(
        clients: u32,
        present: Option<u32>,
        instructions: u32,
        start: Option<Vec<char>>,
        is_open: bool,
    ) -> Option<Shape>
        ensures { result ≡ shape_if (shape_in clients present instructions start is_open) }
    {
        if clients < 1 || clients > CLIENT_LIMIT as u32 || present.unwrap_or(0) > clients {
            return None;
        }
        if instructions as usize > INSTR_LIMIT {
            return None;
        }
        if let Some(text) = &start
            && text.len() > START_LIMIT
        {
            return None;
        }
        Some(Shape {
            clients,
            present,
            instructions,
            start,
            is_open,
        })
    }
}

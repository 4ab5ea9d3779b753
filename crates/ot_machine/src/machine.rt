//! The machine.

ghost use Rattle.std.specs.Prelude.{◌≡◌, ◌≤◌, length, IfOk};
ghost use Rattle.ot_isa.specs.Program.{AreClients};
ghost use Rattle.ot_model.specs.Table.{opening};
ghost use Rattle.ot_isa.specs.declared.builder.TheConstants.{START_LIMIT};

use crate::seat::{self, Seat};
pub use ot_isa::INSERTED_LIMIT;
use ot_isa::{Tagged, start_doc};
pub use ot_model::STEP_LIMIT;
use ot_server::Server;
use std::alloc::{AllocError, Global};
use std::marker::Model;

/// A server, its clients and the links between them. Its state is sound, always.
#[derive(Drop)]
pub struct Machine {
    pub(crate) server: Server<Tagged>,
    pub(crate) seats: Vec<Seat>,
    pub(crate) steps: u32,
}

impl Model for Machine {
    ghost use Rattle.ot_model.specs.Table.{State};
    ghost use Rattle.ot_machine.specs.Seats.{state_from, IsKept};

    ghost Value = { State };

    ghost view = { λ m. state_from m.server m.seats.items m.steps };

    ghost invariant = { λ m. IsKept m.server m.seats.items m.steps };
}

impl Machine {
    /// The machine at the opening, with all of its 1 to 64 clients joined. The start text has at most 40,000 scalars.
    pub fn new(alloc: Global, clients: u16, start: &[char]) -> Result<Machine, AllocError>
        requires clients { AreClients clients clients }
        requires start { length start.now ≤ START_LIMIT }
        ensures { IfOk result (λ machine. machine ≡ opening clients clients start.now) }
    {
        Machine::with_present(alloc, clients, clients, start)
    }

    /// The machine at the opening, with the first `present` of its 1 to 64 clients joined. The start text has at most 40,000 scalars.
    pub fn with_present(
        alloc: Global,
        clients: u16,
        present: u16,
        start: &[char],
    ) -> Result<Machine, AllocError>
        requires clients { AreClients clients present }
        requires start { length start.now ≤ START_LIMIT }
        ensures { IfOk result (λ machine. machine ≡ opening clients present start.now) }
    {
        let document = start_doc(alloc, start)?;
        let mut seats = Vec::new(alloc);
        seat::add_present(alloc, &mut seats, present, &document)?;
        seat::add_vacant(alloc, &mut seats, clients - present)?;
        Ok(Machine {
            server: Server::new(document),
            seats,
            steps: 0,
        })
    }
}

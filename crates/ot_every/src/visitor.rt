//! What is done with each session.

ghost use Rattle.std.specs.Prelude.{◌≡◌, Err, List, OnErr, OnOk};
ghost use Rattle.ot_isa.specs.declared.instruction.Instr.{Instr};
ghost use Rattle.ot_every.specs.declared.visitor.Stop.TheVariants.{Memory, Output};

use ot_isa::Instr;
use std::alloc::AllocError;

/// Why not all sessions were visited.
#[derive(Clone, Copy, Debug, PartialEq, Eq)]
pub enum Stop {
    /// The visitor's output takes no more.
    Output,
    /// Out of memory.
    Memory,
}

impl From<AllocError> for Stop {
    ghost from_gives = { λ _ e. e ≡ Memory };

    fn from(_error: AllocError) -> Stop {
        Stop::Memory
    }
}

/// Does something with each session, over an output.
pub trait Visitor<O> {
    // What a visit makes of the visitor and the output.
    ghost visits: { Self → O → List Instr → Self → O → Type 0 };

    // What a visit leaves that stops.
    ghost stops: { Self → O → List Instr → Self → O → Type 0 };

    // The output takes no more.
    ghost failed: { O → Type 0 };

    /// Visits the session of these instructions.
    fn visit(&mut self, session: &[Instr], output: &mut O) -> Result<(), Stop>
        ensures ok { OnOk result (visits self.old output.old session.now self.new output.new) }
        ensures err { OnErr result (stops self.old output.old session.now self.new output.new) }
        ensures cause { result ≡ Err Output → failed output.new };
}

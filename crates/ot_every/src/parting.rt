//! The sessions of a part.

ghost use Rattle.std.specs.Prelude.{◌≡◌, Err, IfErr, IfOk, OnErr};
ghost use Rattle.ot_every.specs.Parts.{sessions_in};
ghost use Rattle.ot_every.specs.Walking.{Visits, VisitsPart};
ghost use Rattle.ot_every.specs.declared.visitor.Stop.TheVariants.{Output};

use crate::listing::visit_sessions;
use crate::part::Part;
use crate::space::Space;
use crate::visitor::{Stop, Visitor};
use ot_isa::Instr;
use std::alloc::Global;

// Hands each session of a part on to a visitor, and leaves the others out: so many before the next one, so many between two.
#[derive(Drop)]
struct Parting<V: Drop> {
    visitor: V,
    between: u32,
    left: u32,
}

impl<O, V: Visitor<O> + Drop> Visitor<O> for Parting<V> {
    ghost use Rattle.ot_every.specs.Walking.{HandsOn, StopsOn};

    ghost visits = { λ v o session w q. HandsOn V.visits v.between v.left v.visitor o session w.between w.left w.visitor q };

    ghost stops = { λ v o session w q. StopsOn V.stops v.left v.visitor o session w.visitor q };

    ghost failed = { V.failed };

    fn visit(&mut self, session: &[Instr], output: &mut O) -> Result<(), Stop> {
        if self.left > 0 {
            self.left -= 1;
            return Ok(());
        }
        self.visitor.visit(session, output)?;
        self.left = self.between;
        Ok(())
    }
}

/// Visits each session of a part of the space, in order. `Output` only where the visitor's output takes no more; `Memory` where a growth was refused. After an `Err`
/// the first sessions have been visited, and perhaps one visit has stopped. Gives the visitor back.
pub fn visit_part<O, V: Visitor<O> + Drop>(
    alloc: Global,
    space: &Space,
    part: &Part,
    visitor: V,
    output: &mut O,
) -> Result<V, Stop>
    ensures ok { IfOk result (λ w. Visits V.visits visitor output.old (sessions_in space.now part.now) w output.new) }
    ensures err { OnErr result ((w : _) × VisitsPart V.visits V.stops visitor output.old (sessions_in space.now part.now) w output.new) }
    ensures cause { IfErr result (λ stop. stop ≡ Output → V.failed output.new) }
{
    let mut parting = Parting {
        visitor,
        between: part.between(),
        left: part.before(),
    };
    visit_sessions(alloc, space, &mut parting, output)?;
    Ok(parting.visitor)
}

//! A path through the sessions: the machine where it is, and the instructions that led there.

ghost use Rattle.std.specs.Prelude.{◌≡◌, ◌++◌, ◌∷◌, [], List, IfOk, OnOk};
ghost use Rattle.ot_isa.specs.declared.instruction.Instr.{Instr};
ghost use Rattle.ot_model.specs.Table.{State};
ghost use Rattle.ot_machine.specs.Undoing.{IsUndoable, Undoes};
ghost use Rattle.ot_every.specs.Walking.{GoesOrStays};
ghost use Rattle.ot_every.specs.declared.marks.Mark.{Mark};

use crate::marks::{Mark, mark_of};
use ot_isa::Instr;
use ot_machine::{Machine, Refusal, Undo};
use std::alloc::{AllocError, Global};

/// The machine, the instructions that led it there, and their marks.
#[derive(Drop)]
pub struct Walk {
    pub machine: Machine,
    pub instrs: Vec<Instr>,
    pub marks: Vec<Mark>,
}

impl Walk {
    // Records an instruction.
    fn record(&mut self, instr: &Instr, mark: Mark) -> Result<(), AllocError>
        ensures machine { self.new.machine ≡ self.old.machine }
        ensures instrs { OnOk result (self.new.instrs.items ≡ self.old.instrs.items ++ instr.now ∷ []) }
        ensures marks { OnOk result (self.new.marks.items ≡ self.old.marks.items ++ mark ∷ []) }
    {
        let instr = instr.copy()?;
        self.instrs.push(instr)?;
        self.marks.push(mark)?;
        Ok(())
    }

    /// Performs the instruction and records it, and gives its undo record; where the table refuses it nothing changes.
    pub fn go(&mut self, alloc: Global, instr: &Instr) -> Result<Option<Undo>, AllocError>
        ensures { IfOk result (GoesOrStays self.old instr.now self.new) }
    {
        let mark = mark_of(alloc, &self.machine, instr)?;
        match self.machine.perform::<true>(instr) {
            Ok(effect) => {
                self.record(instr, mark)?;
                Ok(effect.into_undo())
            }
            Err(Refusal::Memory) => Err(AllocError),
            Err(_) => Ok(None),
        }
    }

    /// Undoes the last instruction.
    pub fn back(&mut self, undo: Undo) -> Result<(), AllocError>
        requires { IsUndoable self.old.machine undo }
        ensures machine { (earlier : State) → Undoes earlier self.old.machine undo → OnOk result (self.new.machine ≡ earlier) }
        ensures instrs { (before : List Instr) (last : Instr) → self.old.instrs.items ≡ before ++ last ∷ [] → OnOk result (self.new.instrs.items ≡ before) }
        ensures marks { (before : List Mark) (last : Mark) → self.old.marks.items ≡ before ++ last ∷ [] → OnOk result (self.new.marks.items ≡ before) }
    {
        let _ = self.instrs.pop();
        let _ = self.marks.pop();
        match self.machine.undo(undo) {
            Ok(()) => Ok(()),
            Err(_) => Err(AllocError),
        }
    }
}

//! One instruction forth, and one or more back.

ghost use Rattle.std.specs.Prelude.{◌≡◌, ◌≢◌, ◌<◌, ◌≤◌, ◌==◌, Bool, length, vec_capacity, vec_len, IfErr, IsSome, IsTrue, OnErr, OnOk};
ghost use Rattle.ot_model.specs.Runs.{done};
ghost use Rattle.ot_model.specs.declared.shown.Refusal.TheVariants.{Memory};
ghost use Rattle.ot_model.specs.Table.{with_shown};
ghost use Rattle.ot_debug.specs.Stops.{IsRefusedAt};
ghost use Rattle.ot_debug.specs.Answers.{Keeps};
ghost use Rattle.ot_debug.specs.Stepping.{is_read, shown_at, Advances, AreLists, AreShownBefore};

use crate::debugger::Debugging;
use crate::records::{perform, perform_again};
use ot_isa::{Instr, Schedule};
use ot_machine::{Refusal, Shown};
use std::alloc::AllocError;

// Makes room for one more list, where lists are recorded.
fn reserve_shown<const LISTS: u8>(shown: &mut Vec<Shown>) -> Result<(), AllocError>
    ensures same { shown.new.items ≡ shown.old.items }
    ensures room { OnOk result (IsTrue (LISTS == 1) → vec_len shown.new < vec_capacity shown.new) }
{
    if LISTS == 1 {
        shown.reserve(1)?;
    }
    Ok(())
}

// What the instruction showed is recorded; where it showed a list there is room for it.
fn keep_shown(shown: &mut Vec<Shown>, list: Option<Shown>)
    requires { IsSome list → vec_len shown.old < vec_capacity shown.old }
    ensures { shown.new.items ≡ with_shown shown.old.items list }
{
    if let Some(list) = list {
        shown.push_reserved(list);
    }
}

// What the instruction showed goes.
fn drop_last(shown: &mut Vec<Shown>, instr: &Instr)
    ensures { AreShownBefore (is_read instr.now) shown.old.items shown.new.items }
{
    if matches!(instr, Instr::Read(_) | Instr::ReadServer) {
        let _ = shown.pop();
    }
}

// What the instructions from the one place to the other showed goes.
fn drop_shown(shown: &mut Vec<Shown>, schedule: &Schedule, from: usize, to: usize)
    requires order { from ≤ to }
    requires reached { to ≤ done schedule.now }
    ensures { (kept : Bool) → AreLists kept (shown_at schedule.now to) shown.old.items → AreLists kept (shown_at schedule.now from) shown.new.items }
{
    for place in (from..to).rev() {
        let Some(instr) = schedule.get(place) else {
            unreachable!()
        };
        drop_last(shown, instr);
    }
}

impl<const LISTS: u8> Debugging<LISTS> {
    // Performs the next instruction, which leaves a record where somebody may soon go back: where somebody went back before, or the next stop is `near`. `Memory`
    // leaves all as it was, as every refusal does.
    pub(crate) fn forward(&mut self, near: bool) -> Result<(), Refusal>
        requires { self.old.position < length self.old.schedule.instrs }
        ensures done { OnOk result (Advances self.old self.new) }
        ensures refused { IfErr result (λ r. r ≢ Memory → IsRefusedAt self.old.schedule self.old.position r) }
        ensures unchanged { OnErr result (self.new ≡ self.old) }
    {
        reserve_shown::<LISTS>(&mut self.shown)?;
        let Some(instr) = self.schedule.get(self.position) else {
            unreachable!()
        };
        let leaves = self.undos.leaves(near);
        let list = perform::<LISTS>(&mut self.machine, &mut self.undos, instr, leaves)?;
        self.position += 1;
        keep_shown(&mut self.shown, list);
        Ok(())
    }

    // Stands at the place, by performing once more what comes before it. If memory runs out, all is as it was.
    fn go_again(&mut self, place: usize) -> Result<(), AllocError>
        requires { place ≤ self.old.position }
        ensures keeps { OnOk result (Keeps self.old self.new) }
        ensures there { OnOk result (self.new.position ≡ place) }
        ensures unchanged { OnErr result (self.new ≡ self.old) }
    {
        let undos = self.undos.again(place)?;
        let (machine, undos) = perform_again(&self.schedule, place, undos)?;
        drop_shown(&mut self.shown, &self.schedule, place, self.position);
        self.position = place;
        self.machine = machine;
        self.undos = undos;
        self.undos.went_back_to(place);
        Ok(())
    }

    // Undoes the last instruction where its record is there, and else goes all the way to the target. If memory runs out, all is as it was.
    pub(crate) fn backward(&mut self, target: usize) -> Result<(), AllocError>
        requires { target < self.old.position }
        ensures keeps { OnOk result (Keeps self.old self.new) }
        ensures less { OnOk result (self.new.position < self.old.position) }
        ensures not_beyond { OnOk result (target ≤ self.new.position) }
        ensures unchanged { OnErr result (self.new ≡ self.old) }
    {
        let Some(undo) = self.undos.pop() else {
            return self.go_again(target);
        };
        if let Err((e, undo)) = self.machine.undo(undo) {
            self.undos.put_back(undo);
            return Err(e);
        }
        let before = self.position - 1;
        drop_shown(&mut self.shown, &self.schedule, before, self.position);
        self.position = before;
        self.undos.went_back_to(before);
        Ok(())
    }
}

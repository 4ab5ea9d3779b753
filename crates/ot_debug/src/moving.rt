//! The commands that move.

ghost use Rattle.std.specs.Prelude.{◌≡◌, ◌≢◌, ◌<◌, ◌↔◌, length, IfErr, IfOk, IsTrue, MatchOption, OnErr, OnOk};
ghost use Rattle.ot_model.specs.declared.shown.Refusal.TheVariants.{Memory};
ghost use Rattle.ot_debug.specs.Session.{IsBreak};
ghost use Rattle.ot_debug.specs.Stops.{ChangesFirst, ChangesNone, IsRefusedAt, IsRunStop, IsStepStop};
ghost use Rattle.ot_debug.specs.Answers.{MovesBack, MovesForth};
ghost use Rattle.ot_debug.specs.Stepping.{Advances};

use crate::command::{Reply, Why};
use crate::debugger::Debugging;
use crate::watching::first_changed;
use ot_machine::Refusal;

/// So many instructions before a place where a command stops leave records, so that the first steps back from there take no time.
const NEAR: usize = 32;

// The answer where the next instruction is not performed.
fn halted(at: usize, refusal: Refusal) -> Reply
    ensures memory { refusal ≡ Memory → result ≡ Reply.Memory }
    ensures other { refusal ≢ Memory → result ≡ Reply.Stopped at (Why.Refused refusal) }
{
    match refusal {
        Refusal::Memory => Reply::Memory,
        other => Reply::Stopped {
            at,
            why: Why::Refused(other),
        },
    }
}

impl<const LISTS: u8> Debugging<LISTS> {
    // Performs the next instruction, and gives the first watch that it changed.
    fn forward_watched(&mut self) -> Result<Option<usize>, Refusal>
        requires { self.old.position < length self.old.schedule.instrs }
        ensures done { OnOk result (Advances self.old self.new) }
        ensures watch { IfOk result (λ changed. MatchOption changed (ChangesNone self.old self.old.position) (λ number. ChangesFirst self.old self.old.position number)) }
        ensures refused { IfErr result (λ r. r ≢ Memory → IsRefusedAt self.old.schedule self.old.position r) }
        ensures unchanged { OnErr result (self.new ≡ self.old) }
    {
        let place = self.position();
        let Some(instr) = self.schedule.get(place) else {
            unreachable!()
        };
        let changed = first_changed(
            &self.machine,
            instr,
            self.watches.as_slice(),
            self.firsts.as_slice(),
        )?;
        let near = changed.is_some() || self.is_stop_near(place);
        self.forward(near)?;
        // For the proof: the invariant of every debugger.
        let _kept = self.schedule();
        Ok(changed)
    }

    // There is a break at the place.
    fn is_break(&self, place: usize) -> bool
        ensures { IsTrue result ↔ IsBreak self.now place }
    {
        matches!(self.breaks.get(place), Some(true))
    }

    // Whether the next break, or the end of the schedule, is near.
    fn is_stop_near(&self, place: usize) -> bool {
        let end = place.saturating_add(NEAR);
        match self
            .breaks
            .get(place.saturating_add(1)..end.saturating_add(1))
        {
            Some(ahead) if end < self.schedule.len() => ahead.contains(&true),
            _ => true,
        }
    }

    /// Goes on to the next stop.
    pub(crate) fn run(&mut self) -> Reply
        ensures { MovesForth (λ s q reason. IsRunStop s s.position q reason) self.old result self.new }
    {
        for place in self.position()..self.schedule.len() {
            match self.forward_watched() {
                Ok(None) => {}
                Ok(Some(number)) => {
                    let (at, why) = (place + 1, Why::Watch(number));
                    return Reply::Stopped { at, why };
                }
                Err(refusal) => return halted(place, refusal),
            }
            if self.is_break(place + 1) {
                let (at, why) = (place + 1, Why::Break);
                return Reply::Stopped { at, why };
            }
        }
        let (at, why) = (self.position(), Why::End);
        Reply::Stopped { at, why }
    }

    /// Performs so many instructions, or as many as can be.
    pub(crate) fn step(&mut self, count: u32) -> Reply
        ensures { MovesForth (λ s q reason. IsStepStop s s.position count q reason) self.old result self.new }
    {
        let end = self.schedule.len();
        for performed in 0..count {
            let at = self.position();
            if at >= end {
                return Reply::Stopped { at, why: Why::End };
            }
            let left = ((count - performed) as usize).min(end - at);
            if let Err(refusal) = self.forward(left <= NEAR) {
                return halted(at, refusal);
            }
        }
        let (at, why) = (self.position(), Why::Count);
        Reply::Stopped { at, why }
    }

    /// Undoes so many instructions, or all.
    pub(crate) fn back(&mut self, count: u32) -> Reply
        ensures { MovesBack count self.old result self.new }
    {
        let target = self.position().saturating_sub(count as usize);
        while self.position() > target {
            if let Err(_e) = self.backward(target) {
                return Reply::Memory;
            }
        }
        let (at, why) = (target, Why::Count);
        Reply::Stopped { at, why }
    }
}

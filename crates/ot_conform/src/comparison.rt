//! A port's lines against a run, one line after the other.

ghost use Rattle.std.specs.Prelude.{◌≡◌, Bool, IfOk, List, OnOk, ℕ};
ghost use Rattle.ot_steps.specs.Held.{IsHeld, printed_of};
ghost use Rattle.ot_conform.specs.Alike.{IsJudged, StandsFor};
ghost use Rattle.ot_conform.specs.Counted.{with_port_line};
ghost use Rattle.ot_conform.specs.Differences.{is_limit};
ghost use Rattle.ot_conform.specs.Due.{due_of};
ghost use Rattle.ot_conform.specs.Read.{given_as, notes_given, read_as};
ghost use Rattle.ot_conform.specs.Unknown.{Named, all_named, with_unknown};

use crate::answers::{Difference, differs, left_over};
use crate::counts::Counts;
use crate::due::Due;
use crate::lines::{Given, PortLine, is_opening_line, read_noted};
use crate::meeting::meet;
use crate::passing::{passes_step, passes_stop};
use crate::received::Received;
use crate::same_bytes::printed_form;
use crate::unknown::UnknownKey;
use ot_isa::{Instr, Schedule};
use ot_machine::{Machine, Refusal};
use ot_steps::{Line, Stop};
use std::alloc::{AllocError, Global};

/// Which line is due.
#[derive(Clone, Copy, Debug, PartialEq, Eq)]
pub enum Stage {
    /// The opening's, which may be missing.
    Opening,
    /// That of the instruction at the place, or the end's.
    Running,
    /// The end's, behind an instruction that was not performed.
    Ending,
    /// None.
    Over,
}

/// What comes of a comparison.
#[derive(Drop)]
pub enum Verdict {
    /// No difference, with how much was compared.
    Conforms(Counts),
    /// The first difference.
    Differs(Difference),
    /// The instruction at the place was not performed for a limit of the bench: nothing is compared from there on.
    Stopped { place: usize, refusal: Refusal },
}

/// A comparison under way: a machine that goes along, the place where it stands, and what was counted.
#[derive(Drop)]
pub struct Comparison {
    machine: Machine,
    place: usize,
    stage: Stage,
    // Whether the port has lines for some instructions alone: what a line passes over needs none.
    sparse: bool,
    counts: Counts,
}

// With what the line says, which agrees.
fn counted(counts: Counts, line: &PortLine<'_>) -> Counts
    ensures { result ≡ with_port_line counts (read_as line.now) }
{
    match line {
        PortLine::Told(value) => counts.with_line(value),
        _ => counts,
    }
}

// Compares a line with the one that is due. If it agrees, its values are counted; else the verdict says where it differs.
fn judge(
    alloc: Global,
    counts: &mut Counts,
    line: &PortLine<'_>,
    due: &Due<'_>,
) -> Result<Option<Verdict>, AllocError>
    requires { IsHeld due.now.line }
    ensures { IfOk result (IsJudged counts.old counts.new (due_of due.now) (read_as line.now)) }
{
    match meet(alloc, line, due)? {
        Some(field) => Ok(Some(Verdict::Differs(differs(alloc, line, due, field)?))),
        None => {
            *counts = counted(*counts, line);
            Ok(None)
        }
    }
}

// The same against the line of an instruction that was performed. Bytes that `steps` prints are not read.
fn judge_given(
    alloc: Global,
    counts: &mut Counts,
    line: Given<'_>,
    number: u64,
    keys: &mut Vec<UnknownKey>,
    due: &Due<'_>,
) -> Result<Option<Verdict>, AllocError>
    requires there { IsHeld due.now.line }
    requires printed { (documents : Bool) → StandsFor (due_of due.now) (printed_of documents due.now.line) }
    ensures judged { IfOk result (IsJudged counts.old counts.new (due_of due.now) (given_as line.entry)) }
    ensures noted { OnOk result (all_named keys.new.items ≡ notes_given number line.entry (all_named keys.old.items)) }
{
    if let Given::Bytes(bytes) = &line {
        if let Some(documents) = printed_form(alloc, &due.line, bytes) {
            *counts = counts.with_printed(&due.line, documents);
            return Ok(None);
        }
    }
    let line = line.read(alloc, number, keys)?;
    judge(alloc, counts, &line, due)
}

// Whether the bench alone has the limit.
fn is_limit(refusal: Refusal) -> bool
    ensures { result ≡ is_limit refusal }
{
    matches!(
        refusal,
        Refusal::StepsFull | Refusal::ClientFull | Refusal::Memory
    )
}

impl Comparison {
    ghost use Rattle.std.specs.Prelude.{◌≡◌, ◌+◌, ◌^◌, ◌<◌, ◌≤◌, ◌&&◌, [], List, IfOk, IfSome, IsSome, None, OnOk, Some, true, false, length, slice_get};
    ghost use Rattle.ot_machine.specs.Answers.{IsRefusal};
    ghost use Rattle.ot_model.specs.Table.{step};
    ghost use Rattle.ot_conform.specs.Differences.{ending, over};
    ghost use Rattle.ot_conform.specs.Passed.{passes_step, passes_stop};
    ghost use Rattle.ot_steps.specs.Steps.{is_quiet};
    ghost use Rattle.ot_conform.specs.Due.{end_due};
    ghost use Rattle.ot_conform.specs.Ports.{PortLine as Printed, Nothing, front, is_nothing, is_opening_line, port_line};
    ghost use Rattle.ot_conform.specs.Read.{given_as, notes_given, read_as};
    ghost use Rattle.ot_conform.specs.Unknown.{all_named, with_unknown};
    ghost use Rattle.ot_conform.specs.Standing.{AgreesAt, Goes, IsStanding, IsVerdict, Passes, begun, rest};

    /// A comparison with the schedule's run that stands at its opening; or out of memory, for the machine. Where it is `sparse`, an instruction
    /// that a line passes over needs none of its own, and none is missing behind the last one.
    pub fn new(alloc: Global, schedule: &Schedule, sparse: bool) -> Result<Comparison, AllocError>
        ensures { IfOk result (λ c. c ≡ begun sparse schedule.now) }
    {
        let clients = schedule.clients();
        let machine = Machine::with_present(alloc, clients, schedule.present(), schedule.start())?;
        Ok(Comparison {
            machine,
            place: 0,
            stage: Stage::Opening,
            sparse,
            counts: Counts::none(),
        })
    }

    // Whether the line passes over that of the instruction at the place.
    fn passes_next(&self, line: &PortLine<'_>) -> bool
        requires { self.now.place < 2 ^ 63 }
        ensures { result ≡ (self.now.sparse && passes_step (self.now.place + 1) (read_as line.now)) }
    {
        self.sparse && passes_step(line, self.place + 1)
    }

    // Whether it passes over that of the instruction at the place, which is refused.
    fn passes_refused(&self, line: &PortLine<'_>) -> bool
        ensures { result ≡ (self.now.sparse && passes_stop self.now.place (read_as line.now)) }
    {
        self.sparse && passes_stop(line, self.place)
    }

    // Whether no line is left, and none is needed.
    fn needs_none(&self, line: &PortLine<'_>) -> bool
        ensures { result ≡ (self.now.sparse && is_nothing (read_as line.now)) }
    {
        self.sparse && matches!(line, PortLine::Nothing)
    }

    // The line against the opening's.
    fn take_opening(
        &mut self,
        alloc: Global,
        schedule: &Schedule,
        line: &PortLine<'_>,
    ) -> Result<Option<Verdict>, AllocError>
        requires standing { IsStanding schedule.now self.old }
        requires stage { self.old.stage ≡ Stage.Opening }
        requires opening { is_opening_line (read_as line.now) ≡ true }
        ensures goes { IfOk result (λ v. v ≡ None → Goes schedule.now self.old (read_as line.now) self.new) }
        ensures decided { IfOk result (λ v. IfSome v (λ verdict. (lines : List Printed) → IsVerdict self.old (read_as line.now) (rest schedule.now self.old (front (read_as line.now) lines)) verdict)) }
    {
        self.stage = Stage::Running;
        let due = Due {
            line: Line::Opening(schedule),
            received: &Received::Nothing,
        };
        judge(alloc, &mut self.counts, line, &due)
    }

    // The line against the end's.
    fn take_end(
        &mut self,
        alloc: Global,
        line: &PortLine<'_>,
    ) -> Result<Option<Verdict>, AllocError>
        ensures goes { IfOk result (λ v. v ≡ None → AgreesAt (end_due self.old.place (is_quiet self.old.machine)) Stage.Over self.old (read_as line.now) self.new) }
        ensures decided { IfOk result (λ v. IfSome v (λ verdict. (lines : List Printed) → IsVerdict self.old (read_as line.now) (over self.old.sparse self.old.place (ending self.old.place self.old.machine) (front (read_as line.now) lines)) verdict)) }
        ensures nothing { IfOk result (λ v. read_as line.now ≡ Nothing → IsSome v) }
    {
        if let PortLine::Nothing = line {
            return Ok(Some(Verdict::Conforms(self.counts)));
        }
        self.stage = Stage::Over;
        let at = self.place;
        let quiet = self.machine.is_quiet();
        let due = Due {
            line: Line::End { at, quiet },
            received: &Received::Nothing,
        };
        judge(alloc, &mut self.counts, line, &due)
    }

    // The line against that of the instruction at the place, which was not performed, or the end's where it passes over that.
    fn take_refused(
        &mut self,
        alloc: Global,
        schedule: &Schedule,
        instr: &Instr,
        refusal: Refusal,
        line: Given<'_>,
        number: u64,
        keys: &mut Vec<UnknownKey>,
    ) -> Result<Option<Verdict>, AllocError>
        requires standing { IsStanding schedule.now (record self.old { stage = Stage.Running }) }
        requires here { slice_get schedule.now.instrs self.old.place ≡ Some instr.now }
        requires refused { IsRefusal (step self.old.machine instr.now) refusal }
        requires there { given_as line ≡ Nothing → self.old.sparse ≡ false }
        ensures goes { IfOk result (λ v. v ≡ None → Goes schedule.now (record self.old { stage = Stage.Running }) (given_as line.entry) self.new) }
        ensures decided { IfOk result (λ v. IfSome v (λ verdict. (lines : List Printed) → IsVerdict self.old (given_as line.entry) (rest schedule.now (record self.old { stage = Stage.Running }) (front (given_as line.entry) lines)) verdict)) }
        ensures nothing { IfOk result (λ v. given_as line.entry ≡ Nothing → IsSome v) }
        ensures noted { OnOk result (all_named keys.new.items ≡ notes_given number line.entry (all_named keys.old.items)) }
    {
        let line = line.read(alloc, number, keys)?;
        if is_limit(refusal) {
            return Ok(Some(Verdict::Stopped {
                place: self.place,
                refusal,
            }));
        }
        if self.passes_refused(&line) {
            return self.take_end(alloc, &line);
        }
        self.stage = Stage::Ending;
        let at = self.place;
        let due = Due {
            line: Line::Stop(Stop { at, instr, refusal }),
            received: &Received::Nothing,
        };
        judge(alloc, &mut self.counts, &line, &due)
    }

    // The line against that of the instruction at the place, which it does not pass over.
    fn take_step(
        &mut self,
        alloc: Global,
        schedule: &Schedule,
        instr: &Instr,
        line: Given<'_>,
        number: u64,
        keys: &mut Vec<UnknownKey>,
    ) -> Result<Option<Verdict>, AllocError>
        requires standing { IsStanding schedule.now (record self.old { stage = Stage.Running }) }
        requires here { slice_get schedule.now.instrs self.old.place ≡ Some instr.now }
        requires there { given_as line ≡ Nothing → self.old.sparse ≡ false }
        requires kept { (self.old.sparse && passes_step (self.old.place + 1) (given_as line)) ≡ false }
        ensures goes { IfOk result (λ v. v ≡ None → Goes schedule.now (record self.old { stage = Stage.Running }) (given_as line.entry) self.new) }
        ensures decided { IfOk result (λ v. IfSome v (λ verdict. (lines : List Printed) → IsVerdict self.old (given_as line.entry) (rest schedule.now (record self.old { stage = Stage.Running }) (front (given_as line.entry) lines)) verdict)) }
        ensures nothing { IfOk result (λ v. given_as line.entry ≡ Nothing → IsSome v) }
        ensures noted { OnOk result (all_named keys.new.items ≡ notes_given number line.entry (all_named keys.old.items)) }
    {
        // For the proof: the invariant of every schedule.
        let _clients = schedule.clients();
        let received = Received::of(&self.machine, instr)?;
        let effect = match self.machine.perform::<false>(instr) {
            Ok(effect) => effect,
            Err(refusal) => {
                return self.take_refused(alloc, schedule, instr, refusal, line, number, keys);
            }
        };
        self.stage = Stage::Running;
        self.place += 1;
        let delivered = effect.applied.operation(&self.machine);
        let step = Line::step(&self.machine, self.place, instr, effect.sent, delivered);
        let due = Due {
            line: step,
            received: &received,
        };
        judge_given(alloc, &mut self.counts, line, number, keys, &due)
    }

    // Performs the instructions at the place that the line passes over, up to one that is refused, and says why.
    fn pass_over(&mut self, schedule: &Schedule, line: &PortLine<'_>) -> Option<Refusal>
        requires standing { IsStanding schedule.now (record self.old { stage = Stage.Running }) }
        ensures passes { Passes schedule.now (record self.old { stage = Stage.Running }) (read_as line.now) (record self.new { stage = Stage.Running }) }
        ensures kept { result ≡ None → (self.new.sparse && passes_step (self.new.place + 1) (read_as line.now)) ≡ true → length schedule.now.instrs ≤ self.new.place }
        ensures refused { IfSome result (λ refusal. (instr : Instr) × (slice_get schedule.now.instrs self.new.place ≡ Some instr) × IsRefusal (step self.new.machine instr) refusal) }
    {
        // For the proof: the invariant of every schedule.
        let _clients = schedule.clients();
        while let Some(instr) = schedule.get(self.place) {
            if !self.passes_next(line) {
                return None;
            }
            if let Err(refusal) = self.machine.perform::<false>(instr) {
                return Some(refusal);
            }
            self.place += 1;
        }
        None
    }

    // The line against that of the first instruction from the place on which it does not pass over, or the end's.
    fn take_running(
        &mut self,
        alloc: Global,
        schedule: &Schedule,
        line: PortLine<'_>,
    ) -> Result<Option<Verdict>, AllocError>
        requires standing { IsStanding schedule.now (record self.old { stage = Stage.Running }) }
        requires there { read_as line ≡ Nothing → self.old.sparse ≡ false }
        ensures goes { IfOk result (λ v. v ≡ None → Goes schedule.now (record self.old { stage = Stage.Running }) (read_as line.entry) self.new) }
        ensures decided { IfOk result (λ v. IfSome v (λ verdict. (lines : List Printed) → IsVerdict self.old (read_as line.entry) (rest schedule.now (record self.old { stage = Stage.Running }) (front (read_as line.entry) lines)) verdict)) }
        ensures nothing { IfOk result (λ v. read_as line.entry ≡ Nothing → IsSome v) }
    {
        let refusal = self.pass_over(schedule, &line);
        let Some(instr) = schedule.get(self.place) else {
            return self.take_end(alloc, &line);
        };
        let line = Given::Read(line);
        // A line that was read has its keys named already.
        let mut none = Vec::new(alloc);
        match refusal {
            Some(refusal) => {
                self.take_refused(alloc, schedule, instr, refusal, line, 0, &mut none)
            }
            None => self.take_step(alloc, schedule, instr, line, 0, &mut none),
        }
    }

    // Behind the end no line is due.
    fn take_behind(&self, alloc: Global, line: &PortLine<'_>) -> Result<Verdict, AllocError>
        ensures { IfOk result (λ verdict. (lines : List Printed) → IsVerdict self.now (read_as line.now) (over self.now.sparse self.now.place [] (front (read_as line.now) lines)) verdict) }
    {
        if let PortLine::Nothing = line {
            return Ok(Verdict::Conforms(self.counts));
        }
        Ok(Verdict::Differs(left_over(alloc, self.place, line)?))
    }

    /// Compares the next line of the port, or that it has none left, and says what comes of it, where that is decided. After running out
    /// of memory the comparison is of no use.
    pub fn take(
        &mut self,
        alloc: Global,
        schedule: &Schedule,
        line: PortLine<'_>,
    ) -> Result<Option<Verdict>, AllocError>
        requires { IsStanding schedule.now self.old }
        ensures goes { IfOk result (λ v. v ≡ None → Goes schedule.now self.old (read_as line.entry) self.new) }
        ensures decided { IfOk result (λ v. IfSome v (λ verdict. (lines : List Printed) → IsVerdict self.old (read_as line.entry) (rest schedule.now self.old (front (read_as line.entry) lines)) verdict)) }
        ensures nothing { IfOk result (λ v. read_as line.entry ≡ Nothing → IsSome v) }
    {
        if self.needs_none(&line) {
            return Ok(Some(Verdict::Conforms(self.counts)));
        }
        match self.stage {
            Stage::Opening if is_opening_line(&line) => self.take_opening(alloc, schedule, &line),
            Stage::Opening | Stage::Running => self.take_running(alloc, schedule, line),
            Stage::Ending => self.take_end(alloc, &line),
            Stage::Over => Ok(Some(self.take_behind(alloc, &line)?)),
        }
    }

    /// The same of the bytes of the port's next counted line, the one of this number, whose unknown keys are named. They are read only where
    /// they are not those of the line that `steps` prints of the instruction at the place.
    pub fn take_bytes(
        &mut self,
        alloc: Global,
        schedule: &Schedule,
        bytes: &[u8],
        number: u64,
        keys: &mut Vec<UnknownKey>,
    ) -> Result<Option<Verdict>, AllocError>
        requires { IsStanding schedule.now self.old }
        ensures goes { IfOk result (λ v. v ≡ None → Goes schedule.now self.old (port_line bytes.now) self.new) }
        ensures decided { IfOk result (λ v. IfSome v (λ verdict. (lines : List Printed) → IsVerdict self.old (port_line bytes.now) (rest schedule.now self.old (front (port_line bytes.now) lines)) verdict)) }
        ensures noted { OnOk result (all_named keys.new.items ≡ with_unknown number (port_line bytes.now) (all_named keys.old.items)) }
    {
        match (self.stage, schedule.get(self.place)) {
            (Stage::Running, Some(instr)) if !self.sparse => {
                self.take_step(alloc, schedule, instr, Given::Bytes(bytes), number, keys)
            }
            _ => {
                let line = read_noted(alloc, number, keys, bytes)?;
                self.take(alloc, schedule, line)
            }
        }
    }

    /// What comes of it where the port has no line left.
    pub fn finish(&mut self, alloc: Global, schedule: &Schedule) -> Result<Verdict, AllocError>
        requires { IsStanding schedule.now self.old }
        ensures { IfOk result (λ verdict. IsVerdict self.old Nothing (rest schedule.now self.old []) verdict) }
    {
        match self.take(alloc, schedule, PortLine::Nothing)? {
            Some(verdict) => Ok(verdict),
            None => unreachable!(),
        }
    }
}

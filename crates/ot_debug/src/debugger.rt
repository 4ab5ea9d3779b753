//! The debugger.

ghost use Rattle.std.specs.Prelude.{◌≡◌, IfErr, IfOk};
ghost use Rattle.ot_debug.specs.Session.{started, IsSession};
ghost use Rattle.ot_debug.specs.Answers.{Answers};
ghost use Rattle.ot_model.specs.Runs.{opening_of};

use crate::command::{Command, Reply, Watched};
use crate::recent::{BUDGET, Recent};
use ot_isa::Schedule;
use ot_machine::{Machine, Shown};
use std::alloc::{AllocError, Global};
use std::marker::Model;

/// A schedule, and a machine that stands after some of its instructions. Its value is a session: wherever commands have led, the machine
/// and the shown lists are those of the schedule's run after as many instructions. The lists themselves are recorded where `LISTS` is 1; where it is 0, none
/// is, nor is one copied for a read.
#[derive(Drop)]
pub struct Debugging<const LISTS: u8> {
    pub(crate) schedule: Schedule,
    pub(crate) position: usize,
    pub(crate) machine: Machine,
    // the lists that the performed reads showed, or none
    pub(crate) shown: Vec<Shown>,
    // the undo records of the last performed instructions
    pub(crate) undos: Recent,
    pub(crate) breaks: Vec<bool>,
    pub(crate) watches: Vec<Watched>,
    // the numbers of the watches that no equal one stands before, in order
    pub(crate) firsts: Vec<usize>,
}

impl<const LISTS: u8> Model for Debugging<LISTS> {
    ghost use Rattle.ot_debug.specs.Session.{Session};

    ghost Value = { Session };

    ghost use Rattle.std.specs.Prelude.{◌==◌};
    ghost use Rattle.ot_debug.specs.Changes.{AreFirsts};
    ghost use Rattle.ot_debug.specs.Stepping.{session_of, shown_at, AreLists, IsKept};

    ghost view = { λ d. session_of d.schedule d.position d.machine (shown_at d.schedule d.position) d.breaks.items d.watches.items };

    ghost invariant = { λ d. IsKept d.schedule d.position d.machine (shown_at d.schedule d.position) d.undos d.breaks.items d.watches.items × AreFirsts d.watches.items d.firsts.items × AreLists (LISTS == 1) (shown_at d.schedule d.position) d.shown.items };
}

/// A debugger that records the lists which the performed reads showed.
pub type Debugger = Debugging<1>;

/// A debugger that records none of these lists: it takes the memory of the machine, of the undo records of the last performed instructions, which is bounded, and,
/// where somebody goes back beyond these, of another machine meanwhile.
pub type Stepper = Debugging<0>;

/// The machine at the schedule's opening.
pub(crate) fn opening(alloc: Global, schedule: &Schedule) -> Result<Machine, AllocError>
    ensures { IfOk result (λ machine. machine ≡ opening_of schedule.now) }
{
    let clients = schedule.clients();
    Machine::with_present(alloc, clients, schedule.present(), schedule.start())
}

impl<const LISTS: u8> Debugging<LISTS> {
    /// At the opening of the schedule, without breaks and watches. If memory runs out, the schedule comes back.
    pub fn new(alloc: Global, schedule: Schedule) -> Result<Self, Schedule>
        ensures ok { IfOk result (λ debugger. debugger ≡ started schedule) }
        ensures err { IfErr result (λ back. back ≡ schedule) }
    {
        Self::within(alloc, schedule, BUDGET)
    }

    // So too, where records may be that large in all.
    pub(crate) fn within(alloc: Global, schedule: Schedule, budget: usize) -> Result<Self, Schedule>
        ensures ok { IfOk result (λ debugger. debugger ≡ started schedule) }
        ensures err { IfErr result (λ back. back ≡ schedule) }
    {
        let Ok(machine) = opening(alloc, &schedule) else {
            return Err(schedule);
        };
        let Ok(breaks) = vec![in alloc; false; schedule.len() + 1] else {
            return Err(schedule);
        };
        Ok(Debugging {
            schedule,
            position: 0,
            machine,
            shown: Vec::new(alloc),
            undos: Recent::new(alloc, budget),
            breaks,
            watches: Vec::new(alloc),
            firsts: Vec::new(alloc),
        })
    }

    /// How many instructions are performed, 0 to the schedule's length.
    pub fn position(&self) -> usize
        ensures { result ≡ self.now.position }
    {
        self.position
    }

    /// The machine after the performed instructions.
    pub fn machine(&self) -> &Machine
        ensures { result.now ≡ self.now.place.state }
    {
        &self.machine
    }

    /// The schedule. The call also gives its caller the type invariant of debuggers.
    pub fn schedule(&self) -> &Schedule
        ensures value { result.now ≡ self.now.schedule }
        ensures kept { IsSession self.now }
    {
        &self.schedule
    }

    /// Performs one command and answers it.
    ///
    /// `Run`, `Step` and `Back` answer `Stopped`, or `Memory`: then the debugger stands after a whole number of instructions, between its
    /// old place and the one to which the command would have gone. `Break` answers `Done`, or `NoSuchPlace` past the schedule's length;
    /// setting a break twice is setting it once. `Clear` answers `Done`, or `NoSuchPlace` where there is no break. `Watch` answers `Done`, or
    /// `NoSuchClient`, or `Memory`; `Unwatch` `Done`; `Position` `Place`; `Show` `Shown` or `Memory`. Breaks and watches are changed by their
    /// own commands alone, and these do not move the debugger; `Memory` comes only where a growth was refused.
    pub fn command(&mut self, command: Command) -> Reply
        ensures { Answers self.old command result self.new }
    {
        match command {
            Command::Run => self.run(),
            Command::Step(count) => self.step(count),
            Command::Back(count) => self.back(count),
            Command::Break(place) => self.set_break(place),
            Command::Clear(place) => self.clear_break(place),
            Command::Watch(watch) => self.add_watch(watch),
            Command::Unwatch => self.remove_watches(),
            Command::Position => Reply::Place(self.position()),
            Command::Show => self.show(),
        }
    }
}

impl Debugger {
    /// The lists that the performed reads showed, in order.
    pub fn shown(&self) -> &[Shown]
        ensures { result.now ≡ self.now.place.shown }
    {
        self.shown.as_slice()
    }
}

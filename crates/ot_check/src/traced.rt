//! A schedule's run with its trace.

ghost use Rattle.std.specs.Prelude.{◌≡◌, IfOk, IfSome, IsErrOf, true, false};
ghost use Rattle.ot_model.specs.Events as events;
ghost use Rattle.ot_model.specs.WeakList.{WeakListProperty};
ghost use Rattle.ot_machine.specs.Ended.{IsEnding};
ghost use Rattle.ot_judge.specs.Making.{is_full};
ghost use Rattle.ot_judge.specs.Views.{views};
ghost use Rattle.ot_check.specs.Following.{IsFollowed};
ghost use Rattle.ot_check.specs.Traced.{trace_within};

use crate::event::tags_of;
use crate::stop::{Halt, TraceStop};
use crate::tracing::Tracer;
use ot_isa::{Schedule, start_doc};
use ot_judge::{Event, Trace};
use ot_machine::{Ending, Machine, Refusal, run_on};
use std::alloc::{AllocError, Global};

/// A schedule's run, as far as it went, and its trace.
#[derive(Drop)]
pub struct TracedRun {
    /// Where the run ended.
    pub ending: Ending,
    /// The trace of the run; none where it has more than 4,000 events or 4,000,000 list entries.
    pub trace: Option<Trace>,
}

/// How far the trace of a schedule's run was made.
#[derive(Drop)]
pub(crate) enum Followed {
    /// To the end of the run: with the place of the instruction that was not performed, and why.
    Whole(Tracer, Option<(usize, Refusal)>),
    /// To its limits, which the event of the instruction before this place passes.
    Full(Machine, usize),
}

// Traces the schedule's run to its end, or to the limits of the trace.
fn follow_schedule(alloc: Global, schedule: &Schedule) -> Result<Followed, AllocError>
    ensures { IfOk result (IsFollowed schedule.now) }
{
    // For the proof: the invariant of every schedule.
    let _clients = schedule.clients();
    let mut tracer = Tracer::new(alloc, schedule)?;
    for place in 0..schedule.len() {
        let Some(instr) = schedule.get(place) else {
            unreachable!()
        };
        match tracer.follow(alloc, instr) {
            Ok(()) => {}
            Err(Halt::Refused(refusal)) => {
                return Ok(Followed::Whole(tracer, Some((place, refusal))));
            }
            Err(Halt::Full) => return Ok(Followed::Full(tracer.machine, place + 1)),
            Err(Halt::Memory) => return Err(AllocError),
        }
    }
    Ok(Followed::Whole(tracer, None))
}

// The trace of these events, which are all of the schedule's run.
fn whole_trace(alloc: Global, schedule: &Schedule, noted: Vec<Event>) -> Result<Trace, AllocError>
    requires { views noted.items ≡ (events.trace_of schedule.now).events }
    ensures trace { IfOk result (λ t. t ≡ events.trace_of schedule.now) }
    ensures holds { IfOk result (λ t. WeakListProperty t) }
{
    let replicas = schedule.clients() as usize + 1;
    let document = start_doc(alloc, schedule.start())?;
    let start = tags_of(alloc, &document)?;
    Ok(Trace::from_parts(replicas, start, noted))
}

/// Runs the schedule once and gives where the run ended, as [`run_on`] does from the opening, with its trace, as [`trace_of`] does: none
/// where it has more than 4,000 events or 4,000,000 list entries. As soon as that is known, what was made of the trace is dropped, and the
/// run goes on to its end without it.
///
/// It takes the memory of the machine, of a row of counts for each log entry, and of the trace. An error only where a growth was refused
/// while the trace was made; where one is refused after that, the run stops there for `Memory`.
pub fn traced_run(alloc: Global, schedule: &Schedule) -> Result<TracedRun, AllocError>
    ensures ending { IfOk result (λ run. IsEnding schedule.now run.ending) }
    ensures trace { IfOk result (λ run. run.trace ≡ trace_within schedule.now) }
    ensures holds { IfOk result (λ run. IfSome run.trace WeakListProperty) }
{
    match follow_schedule(alloc, schedule)? {
        Followed::Whole(tracer, stopped) => {
            let trace = whole_trace(alloc, schedule, tracer.events)?;
            Ok(TracedRun {
                ending: Ending {
                    machine: tracer.machine,
                    stopped,
                },
                trace: Some(trace),
            })
        }
        Followed::Full(machine, place) => Ok(TracedRun {
            ending: run_on(schedule, place, machine),
            trace: None,
        }),
    }
}

/// The trace of the schedule's run up to its first instruction that the table refuses: one event for each performed edit
/// and read, of the clients as replicas and of the server as the last one. In time linear in the run, what the events see
/// and their lists.
///
/// `TraceFull` exactly where that trace has more than 4,000 events or 4,000,000 list entries, as soon as that is known;
/// `Memory` where a growth was refused, which may come before `TraceFull` is decided.
pub fn trace_of(alloc: Global, schedule: &Schedule) -> Result<Trace, TraceStop>
    ensures trace { IfOk result (λ t. t ≡ events.trace_of schedule.now) }
    ensures holds { IfOk result (λ t. WeakListProperty t) }
    ensures room { IfOk result (λ t. is_full (events.trace_of schedule.now) ≡ false) }
    ensures full { IsErrOf result TraceStop.TraceFull → is_full (events.trace_of schedule.now) ≡ true }
{
    match follow_schedule(alloc, schedule)? {
        Followed::Whole(tracer, _stopped) => {
            let trace = whole_trace(alloc, schedule, tracer.events)?;
            Ok(trace)
        }
        Followed::Full(_machine, _place) => Err(TraceStop::TraceFull),
    }
}

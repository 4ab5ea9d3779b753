//! Traces: what each replica did, saw and returned.

ghost use Rattle.std.specs.Prelude.{◌≡◌, ◌≢◌, ◌⊎◌, ◌<◌, ◌≤◌, ◌+◌, ◌-◌, ◌^◌, ◌++◌, ◌↔◌, Ok, Err, IfOk, IfErr, IsTrue, OnOk, List, [], length, map, min};
ghost use Rattle.std.specs.List.{flat_map, list_all};
ghost use Rattle.ot_judge.specs.Making.{IsSized, entries, first_again, is_event, trace_from};
ghost use Rattle.ot_judge.specs.Views.{event_view, trace_view, views};
ghost use Rattle.ot_model.specs.Trace.{inserted_tags, IsTrace};

use crate::fault::TraceFault;
use crate::seed::Seed;
use ot_isa::Tag;
use ot_model::Placed;
use std::alloc::{AllocError, Global};
use std::collections::HashSet;
use std::marker::Model;

/// The most events of a trace.
pub const MOST_EVENTS: usize = 4_000;

/// The most tags in the lists of a trace's events, in all.
pub const MOST_ENTRIES: usize = 4_000_000;

/// A whole edit or a read of one replica, and the list that it returned.
#[derive(Drop)]
pub struct Event {
    /// The replica that acted, counted from 0.
    pub replica: usize,
    /// Whether it edited; a read inserts and deletes nothing.
    pub edit: bool,
    /// By replica, how many of its edits the event sees: the first ones, without the event's own.
    pub seen: Vec<u32>,
    /// What it inserted.
    pub inserted: Vec<Placed>,
    /// What it deleted.
    pub deleted: Vec<Tag>,
    /// The replica's list after the event.
    pub list: Vec<Tag>,
}

/// A trace of 1 to 65 replicas: each event's replica is one of them, its `seen` has one count for each, a read inserts
/// and deletes nothing, and the start and the insertions name no tag twice.
#[derive(Drop)]
pub struct Trace {
    pub(crate) replicas: usize,
    pub(crate) start: Vec<Tag>,
    pub(crate) events: Vec<Event>,
}

impl Model for Trace {
    ghost use Rattle.ot_model.specs.Trace.{TraceView, IsTrace};

    ghost Value = { TraceView };

    ghost use Rattle.ot_judge.specs.Views.{trace_view};

    ghost view = { λ t. trace_view t.replicas t.start.items t.events.items };

    ghost invariant = { λ t. IsTrace (trace_view t.replicas t.start.items t.events.items) };
}

// Whether an event fits the number of replicas, and changes nothing if it is a read.
fn is_event(x: &Event, replicas: usize) -> bool
    ensures { result ≡ is_event replicas (event_view x.now) }
{
    x.replica < replicas
        && x.seen.len() == replicas
        && (x.edit || (x.inserted.is_empty() && x.deleted.is_empty()))
}

// Whether each event does.
fn are_events(events: &[Event], replicas: usize) -> bool
    ensures { result ≡ list_all (is_event replicas) (views events.now) }
{
    for x in events {
        if !is_event(x, replicas) {
            return false;
        }
    }
    true
}

// How many tags stand in the lists, or the greatest number where there are more.
fn entries(events: &[Event]) -> usize
    ensures { result ≡ min (entries (views events.now)) (2 ^ 64 - 1) }
{
    let mut count: usize = 0;
    for x in events {
        count = count.saturating_add(x.list.len());
    }
    count
}

// Appends the tags of inserted elements.
pub(crate) fn push_tags(tags: &mut Vec<Tag>, inserted: &[Placed]) -> Result<(), AllocError>
    ensures { OnOk result (tags.new.items ≡ tags.old.items ++ map (λ (p : Placed). p.tag) inserted.now) }
{
    for p in inserted {
        tags.push(p.tag)?;
    }
    Ok(())
}

// The start and all that the events insert.
pub(crate) fn named_tags(
    alloc: Global,
    start: &[Tag],
    events: &[Event],
) -> Result<Vec<Tag>, AllocError>
    ensures { IfOk result (λ v. v.items ≡ start.now ++ flat_map inserted_tags (views events.now)) }
{
    let mut tags = Vec::from_slice(alloc, start)?;
    for x in events {
        push_tags(&mut tags, x.inserted.as_slice())?;
    }
    Ok(tags)
}

// The first tag that is among those before it.
fn first_again(alloc: Global, tags: &[Tag]) -> Result<Option<Tag>, AllocError>
    ensures { IfOk result (λ r. r ≡ first_again [] tags.now) }
{
    let mut set = HashSet::with_hasher(alloc, Seed::of(tags));
    for a in tags {
        if !set.insert(*a)? {
            return Ok(Some(*a));
        }
    }
    Ok(None)
}

// The first fault of the parts of a trace.
fn check(alloc: Global, replicas: usize, start: &[Tag], events: &[Event]) -> Result<(), TraceFault>
    ensures ok { OnOk result (trace_from (trace_view replicas start.now events.now) ≡ Ok (trace_view replicas start.now events.now)) }
    ensures err { IfErr result (λ e. (e ≡ TraceFault.Memory) ⊎ (trace_from (trace_view replicas start.now events.now) ≡ Err e)) }
    ensures memory { IfErr result (λ e. e ≡ TraceFault.Memory → IsSized (trace_view replicas start.now events.now)) }
{
    if replicas == 0 || replicas > 65 || !are_events(events, replicas) {
        return Err(TraceFault::BadShape);
    }
    if events.len() > MOST_EVENTS || entries(events) > MOST_ENTRIES {
        return Err(TraceFault::TraceFull);
    }
    let tags = named_tags(alloc, start, events)?;
    match first_again(alloc, tags.as_slice())? {
        Some(a) => Err(TraceFault::TagTwice(a)),
        None => Ok(()),
    }
}

impl Trace {
    /// The trace of these parts, in time linear in the events, the start and the insertions.
    ///
    /// What is refused comes back with the first reason: `BadShape` (not 1 to 65 replicas, or an event that does not fit
    /// them), `TraceFull` (more than 4,000 events or 4,000,000 list entries), `TagTwice` with the first tag that is named
    /// again, start first and then by event, or `Memory`, which may come before `TagTwice` is decided.
    pub fn new(
        alloc: Global,
        replicas: usize,
        start: Vec<Tag>,
        events: Vec<Event>,
    ) -> Result<Trace, (TraceFault, Vec<Tag>, Vec<Event>)>
        ensures ok { IfOk result (λ t. trace_from (trace_view replicas start.items events.items) ≡ Ok t) }
        ensures same { IfOk result (λ t. t ≡ trace_view replicas start.items events.items) }
        ensures err { IfErr result (λ r. (r.0 ≡ TraceFault.Memory) ⊎ (trace_from (trace_view replicas start.items events.items) ≡ Err r.0)) }
        ensures memory { IfErr result (λ r. r.0 ≡ TraceFault.Memory → IsSized (trace_view replicas start.items events.items)) }
        ensures handed_back { IfErr result (λ r. (r.1 ≡ start) × (r.2 ≡ events)) }
    {
        match check(alloc, replicas, start.as_slice(), events.as_slice()) {
            Ok(()) => Ok(Trace {
                replicas,
                start,
                events,
            }),
            Err(fault) => Err((fault, start, events)),
        }
    }

    /// The trace of parts that are known to be one, with no look at them.
    pub fn from_parts(replicas: usize, start: Vec<Tag>, events: Vec<Event>) -> Trace
        requires { IsTrace (trace_view replicas start.items events.items) }
        ensures { result ≡ trace_view replicas start.items events.items }
    {
        Trace {
            replicas,
            start,
            events,
        }
    }

    /// How many replicas there are, 1 to 65.
    pub fn replicas(&self) -> usize
        ensures { result ≡ self.now.replicas }
    {
        self.replicas
    }

    /// The tags of the start text.
    pub fn start(&self) -> &[Tag]
        ensures { result.now ≡ self.now.start }
    {
        self.start.as_slice()
    }

    /// The events, each of one replica.
    pub fn events(&self) -> &[Event]
        ensures { views result.now ≡ self.now.events }
    {
        self.events.as_slice()
    }
}

//! The commands that do not move.

ghost use Rattle.std.specs.Prelude.{◌≡◌, ◌↔◌, ◌++◌, ◌∷◌, [], IsTrue, OnErr, OnOk};
ghost use Rattle.ot_debug.specs.Session.{IsOfClients};
ghost use Rattle.ot_debug.specs.Changes.{AreFirsts};
ghost use Rattle.ot_debug.specs.Answers.{AddsWatch, ClearsBreak, RemovesWatches, SetsBreak, ShowsState};

use crate::command::{Reply, Watched};
use crate::debugger::Debugging;
use crate::watching::is_among;
use std::alloc::AllocError;

// The watch names one of so many clients, or none.
fn is_of_clients(clients: u16, watch: Watched) -> bool
    ensures { IsTrue result ↔ IsOfClients clients watch }
{
    match watch {
        Watched::Doc(client) | Watched::State(client) => client < u32::from(clients),
        Watched::ServerRevision => true,
    }
}

// One watch more, and its number where no equal one stands before it.
fn keep_watch(
    watches: &mut Vec<Watched>,
    firsts: &mut Vec<usize>,
    watch: Watched,
) -> Result<(), AllocError>
    requires { AreFirsts watches.old.items firsts.old.items }
    ensures done { OnOk result (watches.new.items ≡ watches.old.items ++ watch ∷ []) }
    ensures unchanged { OnErr result (watches.new.items ≡ watches.old.items) }
    ensures firsts { AreFirsts watches.new.items firsts.new.items }
{
    watches.reserve(1)?;
    if !is_among(watches.as_slice(), firsts.as_slice(), watch) {
        firsts.push(watches.len())?;
    }
    watches.push_reserved(watch);
    Ok(())
}

impl<const LISTS: u8> Debugging<LISTS> {
    pub(crate) fn set_break(&mut self, place: u32) -> Reply
        ensures { SetsBreak place self.old result self.new }
    {
        let place = place as usize;
        if place >= self.breaks.len() {
            return Reply::NoSuchPlace;
        }
        self.breaks[place] = true;
        Reply::Done
    }

    pub(crate) fn clear_break(&mut self, place: u32) -> Reply
        ensures { ClearsBreak place self.old result self.new }
    {
        let place = place as usize;
        if place >= self.breaks.len() || !self.breaks[place] {
            return Reply::NoSuchPlace;
        }
        self.breaks[place] = false;
        Reply::Done
    }

    pub(crate) fn add_watch(&mut self, watch: Watched) -> Reply
        ensures { AddsWatch watch self.old result self.new }
    {
        if !is_of_clients(self.schedule.clients(), watch) {
            return Reply::NoSuchClient;
        }
        match keep_watch(&mut self.watches, &mut self.firsts, watch) {
            Ok(()) => Reply::Done,
            Err(_) => Reply::Memory,
        }
    }

    pub(crate) fn remove_watches(&mut self) -> Reply
        ensures { RemovesWatches self.old result self.new }
    {
        self.watches.clear();
        self.firsts.clear();
        Reply::Done
    }

    pub(crate) fn show(&self) -> Reply
        ensures { ShowsState self.now result self.now }
    {
        match self.machine.state() {
            Ok(state) => Reply::Shown(state),
            Err(_) => Reply::Memory,
        }
    }
}

//! Lists that several have in common.
//!
//! A synchronized client's list is the server's at its revision. So where such a client takes an entry of the log, the list that this makes may be there already: the
//! server has it, if the entry is its last one, and so does each other synchronized client that has taken that entry and no later one. Where the entry changes a very long
//! list all over, and many clients wait for it, these have one list in common from then on, each until it changes its own:
//!
//! ```text
//!     server      list at revision 7 <-+
//!     client 0    ---------------------+     at revision 7, synchronized
//!     client 1    list at revision 6         synchronized: takes entry 6, and has the list of the others then
//! ```
//!
//! So a replacement all over a document of a million characters, which 64 clients have open, is made a few times and not 64 times, and takes the memory of a few lists.

ghost use Rattle.std.specs.Prelude.{◌≡◌, ◌↔◌, slice_get, IfSome, IsTrue, Some};
ghost use Rattle.ot_machine.specs.Common.{IsDelivered, IsSynchronizedAt};
ghost use Rattle.ot_machine.specs.Seats.{client_of};

use crate::machine::Machine;
use crate::seat::Seat;
use ot_client::Client;
use ot_isa::Tagged;
use ot_server::Server;
use ot_text::{Doc, TextOp};

// From how many leaves on a list is long: many shorter ones lie in the processor's caches, where to change one costs little more than to look at its leaves.
const LONG: usize = 256;

// How many components an operation has for each leaf of the list, at least. If they lie all over it, most leaves change, each at several places.
const EACH: usize = 8;

// How many others have to wait for the entry. A list in common is copied at each client that changes it later.
const OTHERS: usize = 7;

// Whether the list is long, and the operation has many components for each of its leaves.
fn is_wide(op: &TextOp<Tagged>, list: &Doc<Tagged>) -> bool {
    let leaves = list.chunks();
    leaves >= LONG && op.component_count() / EACH >= leaves
}

// Whether the client is synchronized, at that revision.
fn is_at(seat: &Seat, revision: u32) -> bool
    ensures { IsTrue result ↔ IsSynchronizedAt revision (client_of seat.now) }
{
    match &seat.client {
        Some(Client::Synchronized(here)) => here.revision() == revision,
        _ => false,
    }
}

// How many clients are synchronized at that revision.
fn count_at(seats: &[Seat], revision: u32) -> usize {
    let mut count: usize = 0;
    for seat in seats {
        if is_at(seat, revision) {
            count = count.saturating_add(1);
        }
    }
    count
}

// The first client that is synchronized at that revision.
fn first_at(seats: &[Seat], revision: u32) -> Option<usize>
    ensures { IfSome result (λ at. (seat : Seat) × (slice_get seats.now at ≡ Some seat) × IsSynchronizedAt revision (client_of seat)) }
{
    for place in 0..seats.len() {
        if is_at(&seats[place], revision) {
            return Some(place);
        }
    }
    None
}

// A copy of the list, which becomes a shared one for that: the two have all elements in common. None where memory was refused.
fn in_common(list: &mut Doc<Tagged>) -> Option<Doc<Tagged>>
    ensures same { list.new ≡ list.old }
    ensures copy { IfSome result (λ copy. copy ≡ list.old) }
{
    list.share().ok()?;
    list.copy().ok()
}

// A copy of the server's list, likewise.
fn in_common_with_server(server: &mut Server<Tagged>) -> Option<Doc<Tagged>>
    ensures same { server.new ≡ server.old }
    ensures copy { IfSome result (λ copy. copy ≡ server.old.document) }
{
    server.share().ok()?;
    server.document().copy().ok()
}

impl Machine {
    // The list that the next delivery makes of the client's, in common with the server or with another client that has it, where the client is synchronized, its next entry has
    // many components for each leaf of a long list, and many others stand where it does. A look-up, for which each delivery pays. The machine stays what it is.
    pub(crate) fn common_list(&mut self, client: u16) -> Option<Doc<Tagged>>
        ensures same { self.new ≡ self.old }
        ensures list { IfSome result (IsDelivered self.old client) }
    {
        let place = client as usize;
        if place >= self.seats.len() {
            return None;
        }
        let seat = &self.seats[place];
        let Some(Client::Synchronized(here)) = &seat.client else {
            return None;
        };
        let revision = here.revision();
        let entry = self.server.entries().get(revision as usize)?;
        if !is_wide(entry.operation(), &seat.list) {
            return None;
        }
        let newest = self.server.revision();
        if count_at(self.seats.as_slice(), revision) <= OTHERS {
            return None;
        }
        if revision as usize + 1 == newest {
            return in_common_with_server(&mut self.server);
        }
        let Some(other) = first_at(self.seats.as_slice(), revision + 1) else {
            return None;
        };
        in_common(&mut self.seats[other].list)
    }
}

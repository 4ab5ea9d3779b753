//! What callers see of a machine.

ghost use Rattle.std.specs.Prelude.{◌≡◌, ◌<◌, ◌↔◌, length, map, slice_get, IfOk, IsTrue, Some, true};
ghost use Rattle.std.specs.Option.{option_copied, option_map};
ghost use Rattle.ot_client.specs.Client.{message_of, state_of};
ghost use Rattle.ot_model.specs.Table.{downlink, is_joined, phase_in, IsQuiet};
ghost use Rattle.ot_model.specs.Sound.{IsSound};
ghost use Rattle.ot_machine.specs.Readers.{client_view, head_at, meant, phase_name, AreOne, ClientHas, IsShownState};
ghost use Rattle.ot_machine.specs.Effects.{list_of, IsThere};
ghost use Rattle.ot_machine.specs.Seats.{client_of, incoming};

use crate::machine::Machine;
use crate::seat::{self, Seat};
use crate::state::{ClientView, Head, Phase, State};
use ot_client::{Client, Sent};
use ot_isa::Tagged;
use ot_model::Reader;
use ot_server::Entry;
use ot_text::Doc;
use std::alloc::{AllocError, Global};

impl Machine {
    /// How many clients there are, joined or not: 1 to 64. The state of a machine is sound.
    pub fn clients(&self) -> u16
        ensures value { result ≡ length self.now.clients }
        ensures sound { IsSound self.now }
    {
        self.seats.len() as u16
    }

    /// How many steps were performed, 0 to 1,000,000.
    pub fn steps_done(&self) -> u32
        ensures { result ≡ self.now.steps }
    {
        self.steps
    }

    // The place of a client that is there.
    pub(crate) fn seat(&self, client: u16) -> &Seat
        requires { client < length self.now.clients }
        ensures client { slice_get self.now.clients client ≡ Some (client_of result.now) }
        ensures queue { result.now.down.items ≡ incoming (client_of result.now) (length self.now.log) }
    {
        &self.seats[client as usize]
    }

    /// The client has joined.
    pub fn joined(&self, client: u16) -> bool
        requires { client < length self.now.clients }
        ensures { ClientHas self.now client (λ x. is_joined x.phase) result }
    {
        self.seat(client).client.is_some()
    }

    /// Which of its states the client is in.
    pub fn phase(&self, client: u16) -> Phase
        requires { client < length self.now.clients }
        ensures { ClientHas self.now client (λ x. phase_name x.phase) result }
    {
        match &self.seat(client).client {
            None => Phase::NotJoined,
            Some(Client::Synchronized(_)) => Phase::Synchronized,
            Some(Client::AwaitingConfirm(_)) => Phase::AwaitingConfirm,
            Some(Client::AwaitingWithBuffer(_)) => Phase::AwaitingWithBuffer,
        }
    }

    /// The client, which has joined, with its outstanding operation and its buffer where it has such.
    pub fn client(&self, client: u16) -> &Client<Tagged>
        requires { ClientHas self.now client (λ x. is_joined x.phase) true }
        ensures revision { ClientHas self.now client (λ x. x.revision) (state_of result.now).revision }
        ensures phase { ClientHas self.now client (λ x. x.phase) (phase_in (state_of result.now).phase) }
    {
        let joined = self.seat(client);
        match &joined.client {
            Some(client) => client,
            None => unreachable!(),
        }
    }

    /// The client's list; empty where it has not joined.
    pub fn document(&self, client: u16) -> &Doc<Tagged>
        requires { client < length self.now.clients }
        ensures { ClientHas self.now client (λ x. x.list) result.now }
    {
        &self.seat(client).list
    }

    /// The list of the one who is read.
    pub fn document_of(&self, who: Reader) -> &Doc<Tagged>
        requires { IsThere self.now who }
        ensures { result.now ≡ list_of self.now who }
    {
        match who {
            Reader::Client(client) => self.document(client),
            Reader::Server => self.server_document(),
        }
    }

    /// How many entries of the log the client has; 0 where it has not joined.
    pub fn revision(&self, client: u16) -> u32
        requires { client < length self.now.clients }
        ensures { ClientHas self.now client (λ x. x.revision) result }
    {
        match &self.seat(client).client {
            Some(client) => client.revision(),
            None => 0,
        }
    }

    /// How many characters the client has inserted so far, 0 to 15,000. Deletions give nothing back.
    pub fn inserted(&self, client: u16) -> u32
        requires { client < length self.now.clients }
        ensures { ClientHas self.now client (λ x. x.count) result }
    {
        self.seat(client).count
    }

    /// The message on its way from the client to the server, if there is one.
    pub fn up(&self, client: u16) -> Option<&Sent<Tagged>>
        requires { client < length self.now.clients }
        ensures { ClientHas self.now client (λ x. x.message) (option_map message_of (option_copied result)) }
    {
        self.seat(client).up.head()
    }

    /// How many messages are on their way from the server to the client.
    pub fn down_len(&self, client: u16) -> usize
        requires { client < length self.now.clients }
        ensures { ClientHas self.now client (λ x. length (downlink self.now client x)) result }
    {
        self.seat(client).down.len()
    }

    /// The message at a place on the way to the client, counted from the front, if there is one.
    pub fn down(&self, client: u16, place: usize) -> Option<Head>
        requires { client < length self.now.clients }
        ensures entry { ClientHas self.now client (head_at self.now client place) result }
        ensures message { ClientHas self.now client (λ x. slice_get (downlink self.now client x) place) (meant self.now result) }
    {
        let seat = self.seat(client);
        let Some(number) = seat.down.get(place) else {
            return None;
        };
        let number = *number as usize;
        let Some(entry) = self.entry(number) else {
            return None;
        };
        if entry.maker() == client {
            return Some(Head::Ack);
        }
        Some(Head::Op(number))
    }

    /// The entry of the log with this number, counted from 0; none from the log's length on.
    pub fn entry(&self, number: usize) -> Option<&Entry<Tagged>>
        ensures { option_copied result ≡ slice_get self.now.log number }
    {
        self.server.entries().get(number)
    }

    /// The server's list.
    pub fn server_document(&self) -> &Doc<Tagged>
        ensures { result.now ≡ self.now.server }
    {
        self.server.document()
    }

    /// How many entries the log has.
    pub fn server_revision(&self) -> usize
        ensures { result ≡ length self.now.log }
    {
        self.server.revision()
    }

    /// No message is under way either way, and every joined client is synchronized. Then every joined client's list is the server's, tags included.
    pub fn is_quiet(&self) -> bool
        ensures exact { IsTrue result ↔ IsQuiet self.now }
        ensures converged { IsTrue result → AreOne self.now }
    {
        seat::are_settled(self.seats.as_slice())
    }

    // A copy of what is shown of a client.
    fn view(&self, client: u16) -> Result<ClientView, AllocError>
        requires { client < length self.now.clients }
        ensures { IfOk result (λ view. ClientHas self.now client client_view view) }
    {
        Ok(ClientView {
            revision: self.revision(client),
            phase: self.phase(client),
            document: self.document(client).copy()?,
        })
    }

    fn views(&self, alloc: Global) -> Result<Vec<ClientView>, AllocError>
        ensures { IfOk result (λ views. views.items ≡ map client_view self.now.clients) }
    {
        let mut views = Vec::new(alloc);
        for client in 0..self.clients() {
            let view = self.view(client)?;
            views.push(view)?;
        }
        Ok(views)
    }

    /// A copy of revisions, phases and lists, and whether all is quiet.
    pub fn state(&self) -> Result<State, AllocError>
        ensures { IfOk result (λ view. IsShownState self.now view) }
    {
        let server = self.server_document().copy()?;
        let clients = self.views(server.allocator())?;
        Ok(State {
            clients,
            server_revision: self.server_revision(),
            server,
            quiet: self.is_quiet(),
        })
    }
}

//! What readers of a machine see: plain values.

use ot_isa::Tagged;
use ot_text::Doc;

/// Which of its states a client is in: those of ot.js' `Client`, or not joined yet.
#[derive(Clone, Copy, Debug, PartialEq, Eq)]
pub enum Phase {
    /// The client has not joined.
    NotJoined,
    /// Nothing of the client is under way.
    Synchronized,
    /// One operation is under way, and there are no later edits.
    AwaitingConfirm,
    /// One operation is under way, and later edits wait in the buffer.
    AwaitingWithBuffer,
}

/// A message on its way to a client.
#[derive(Clone, Copy, Debug, PartialEq, Eq)]
pub enum Head {
    /// The client's own operation is in the log.
    Ack,
    /// Another client's operation, by its number in the log, counted from 0.
    Op(usize),
}

/// A client as it stands.
#[derive(Drop)]
pub struct ClientView {
    /// How many entries of the log the client has.
    pub revision: u32,
    pub phase: Phase,
    /// The client's list.
    pub document: Doc<Tagged>,
}

/// Clients and server as they stand.
#[derive(Drop)]
pub struct State {
    /// By client number.
    pub clients: Vec<ClientView>,
    /// How many entries the log has.
    pub server_revision: usize,
    /// The server's list.
    pub server: Doc<Tagged>,
    /// No message is under way, and every joined client is synchronized.
    pub quiet: bool,
}

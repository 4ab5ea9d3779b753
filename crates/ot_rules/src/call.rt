//! Calls of the methods of ot.js, with what each is given.

use ot_text::TextOp;

/// An operation without tags, as a port has it.
pub type Operation = TextOp<char>;

/// The state of a client, with its pending operations.
#[derive(Drop)]
pub enum Pending {
    /// `Synchronized`: nothing is under way.
    Nothing,
    /// `AwaitingConfirm`, with the outstanding operation.
    Outstanding(Operation),
    /// `AwaitingWithBuffer`, with the outstanding operation and the buffer.
    Buffered(Operation, Operation),
}

/// A call of a method of ot.js. Revisions are counted in log entries.
#[derive(Drop)]
pub enum Call {
    /// `applyClient` of the client's state: the user's edit.
    ApplyClient(Pending, Operation),
    /// `applyServer` of the client's state: another's operation, the next one of the log.
    ApplyServer(Pending, Operation),
    /// `serverAck` of the state of a client at this revision.
    ServerAck(u32, Pending),
    /// `Server.receiveOperation`: the message's revision and operation, and the operations of the log from that revision on, oldest first.
    ReceiveOperation(u32, Operation, Vec<Operation>),
}

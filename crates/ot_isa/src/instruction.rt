//! One instruction of a schedule.

ghost use Rattle.std.specs.Prelude.{◌≡◌, ◌↔◌, IsTrue, IfOk};
ghost use Rattle.ot_isa.specs.Program.{client_of, IsOfLimits, HasScalars};

use crate::scalars::inserts_scalars;
use ot_text::TextOp;
use std::alloc::AllocError;

/// What happens next in a run. Clients are numbered from 0.
#[derive(Drop)]
pub enum Instr {
    /// The client's user edits its document: ot.js' `Client.applyClient`.
    Edit(u16, TextOp<char>),
    /// The server takes the client's message and puts the transformed operation into its log: ot.js'
    /// `Server.receiveOperation`.
    Take(u16),
    /// The client gets the next operation of another client: ot.js' `Client.applyServer`.
    Deliver(u16),
    /// The client receives the acknowledgement of its own operation: ot.js' `Client.serverAck`.
    Acknowledge(u16),
    /// The client's document is shown.
    Read(u16),
    /// The client, who was not there so far, gets the server's document and revision.
    Join(u16),
    /// The server's document is shown.
    ReadServer,
}

impl Instr {
    /// The client that the instruction names; none for `ReadServer`. The call also gives its caller that an edit's
    /// operation is within its limits.
    pub fn client(&self) -> Option<u16>
        ensures value { result ≡ client_of self.now }
        ensures limits { IsOfLimits self.now }
    {
        match self {
            Instr::Edit(client, op) => {
                // For the proof: the invariant of every operation.
                let _base = op.base_len();
                let _target = op.target_len();
                Some(*client)
            }
            Instr::Take(client) => Some(*client),
            Instr::Deliver(client) => Some(*client),
            Instr::Acknowledge(client) => Some(*client),
            Instr::Read(client) => Some(*client),
            Instr::Join(client) => Some(*client),
            Instr::ReadServer => None,
        }
    }

    /// Each character that the instruction inserts is a Unicode scalar value.
    pub(crate) fn inserts_scalars(&self)
        ensures { HasScalars self.now }
    {
        if let Instr::Edit(_, op) = self {
            inserts_scalars(op)
        }
    }

    /// An instruction equal to this one.
    pub fn copy(&self) -> Result<Instr, AllocError>
        ensures { IfOk result (λ instr. instr ≡ self.now) }
    {
        match self {
            Instr::Edit(client, op) => {
                let op = op.copy()?;
                Ok(Instr::Edit(*client, op))
            }
            Instr::Take(client) => Ok(Instr::Take(*client)),
            Instr::Deliver(client) => Ok(Instr::Deliver(*client)),
            Instr::Acknowledge(client) => Ok(Instr::Acknowledge(*client)),
            Instr::Read(client) => Ok(Instr::Read(*client)),
            Instr::Join(client) => Ok(Instr::Join(*client)),
            Instr::ReadServer => Ok(Instr::ReadServer),
        }
    }

    /// Whether the two instructions are of one kind, client and operation.
    pub fn equals(&self, other: &Instr) -> bool
        ensures { IsTrue result ↔ (self.now ≡ other.now) }
    {
        match (self, other) {
            (Instr::Edit(c, a), Instr::Edit(d, b)) => *c == *d && a.equals(b),
            (Instr::Take(c), Instr::Take(d)) => *c == *d,
            (Instr::Deliver(c), Instr::Deliver(d)) => *c == *d,
            (Instr::Acknowledge(c), Instr::Acknowledge(d)) => *c == *d,
            (Instr::Read(c), Instr::Read(d)) => *c == *d,
            (Instr::Join(c), Instr::Join(d)) => *c == *d,
            (Instr::ReadServer, Instr::ReadServer) => true,
            _ => false,
        }
    }
}

//! What a client sends to the server.

ghost use Rattle.std.specs.Prelude.{◌≡◌, IfOk};
ghost use Rattle.ot_client.specs.Client.{message_of};

use ot_text::{Element, TextOp};
use std::alloc::AllocError;

/// An operation over the server's document at a revision, which is counted in log entries.
#[derive(Drop)]
pub struct Sent<T> {
    pub revision: u32,
    pub op: TextOp<T>,
}

impl<T: Element> Sent<T> {
    /// A message equal to this one, or out of memory.
    pub fn copy(&self) -> Result<Sent<T>, AllocError>
        ensures { IfOk result (λ sent. message_of sent ≡ message_of self.now) }
    {
        Ok(Sent {
            revision: self.revision,
            op: self.op.copy()?,
        })
    }
}

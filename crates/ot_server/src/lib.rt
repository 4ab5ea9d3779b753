//! The server of ot.js: a document and the log of the operations that led to it.
//!
//! ```text
//!    log:  [ entry 0 | entry 1 | .. | entry r | .. | entry n-1 ]          document = all entries applied in turn
//!                                     ^ an operation made at revision r   n = the server's revision
//!                                     goes over the entries r, .., n-1,
//!                                     is applied and becomes entry n
//! ```
//!
//! [`Server::receive`] is `Server.receiveOperation` of ot.js: an operation is replaced by the first result of `transform` with each
//! entry that its maker did not have, oldest first, and then applied and appended. It costs these transforms and the change of
//! the document; older entries are neither read nor copied. [`Server::receive_kept`] gives the undo record too, and
//! [`Server::retract`] undoes it.
//!
//! Contracts see a server as `History` of `specs/History.antt`, its document and log. `received` is the history after an operation,
//! `fault_of` why there is none, `IsUndo` and `IsRetractable` what undoes the last entry. The type invariant is `IsChain`: each entry makes
//! documents of the length that the next one takes, and the last one the document's.
//!
//! Begin reading at `received`, then at [`Server::receive`].
#![tactic(auto)]

ghost use Rattle.std.specs.Prelude.{◌≡◌, ◌<◌, ◌≤◌, [], length, drop, IfOk, OnErr, OnOk};
ghost use Rattle.ot_operation.specs.Operation.{IsOperation, invert};
ghost use Rattle.ot_server.specs.History.{History, received, transform_over, with_entry};
ghost use Rattle.ot_server.specs.Faults.{IsChain, Names, fault_of};
ghost use Rattle.ot_server.specs.Undo.{IsRetractable, IsUndo};

mod entry;
mod fault;
mod later;

pub use entry::Entry;
pub use fault::ServerFault;
use later::{base_length, has_room, transform_after};
use ot_text::{Doc, Element, TextOp};
use std::alloc::AllocError;
use std::marker::Model;

/// The greatest number of log entries.
pub const LOG_LIMIT: usize = 1_000_000;

/// A document and the log of the operations that led to it.
#[derive(Drop)]
pub struct Server<T: Element> {
    document: Doc<T>,
    log: Vec<Entry<T>>,
}

impl<T: Element> Model for Server<T> {
    ghost use Rattle.std.specs.Prelude.{length, ◌≤◌};
    ghost use Rattle.ot_server.specs.History.{History};
    ghost use Rattle.ot_server.specs.Faults.{IsChain};

    ghost Value = { History T };

    ghost view = { λ s. record { document = s.document; log = s.log.items } };

    ghost use Rattle.ot_server.specs.declared.TheConstants.{LOG_LIMIT};

    ghost invariant = { λ s. IsChain s.log.items (length s.document) × (length s.log.items ≤ LOG_LIMIT) };
}

impl<T: Element> Server<T> {
    /// The server of this document, with an empty log. It takes no memory.
    pub fn new(document: Doc<T>) -> Server<T>
        ensures { result ≡ record { document = document; log = [] } }
    {
        let alloc = document.allocator();
        Server {
            document,
            log: Vec::new(alloc),
        }
    }

    /// The document.
    pub fn document(&self) -> &Doc<T>
        ensures { result.now ≡ self.now.document }
    {
        &self.document
    }

    /// Makes the document's leaves shared ([`Doc::share`]): copies of it have them in common from then on. Nothing else changes.
    pub fn share(&mut self) -> Result<(), AllocError>
        ensures { self.new ≡ self.old }
    {
        self.document.share()
    }

    /// The log, oldest entry first.
    pub fn entries(&self) -> &[Entry<T>]
        ensures value { result.now ≡ self.now.log }
        ensures chain { IsChain self.now.log (length self.now.document) }
    {
        self.log.as_slice()
    }

    /// How many log entries there are: at most 1,000,000.
    pub fn revision(&self) -> usize
        ensures value { result ≡ length self.now.log }
        ensures small { result ≤ LOG_LIMIT }
    {
        self.log.len()
    }

    /// Receives the operation that client `maker` made on the document at `revision`, counted in log entries: it is transformed against the
    /// entries from that revision on, applied to the document and appended to the log (`Server.receiveOperation` of ot.js).
    ///
    /// The first of these faults that holds comes, and leaves the server as it was: `NotInHistory` where the revision is above the log's
    /// length; `BadBase` where the operation's base is not the document's length at that revision; `LogFull` at 1,000,000 entries; `TooLong`
    /// where that length, the items that the entries from the revision on insert and those that the operation inserts are more than
    /// 1,000,000 together. `Memory` comes where none of them holds.
    pub fn receive(&mut self, maker: u16, revision: u32, op: &TextOp<T>) -> Result<(), ServerFault>
        ensures fault { Names result (fault_of self.old revision op.now) }
        ensures ok { OnOk result (self.new ≡ received self.old maker revision op.now) }
        ensures err { OnErr result (self.new ≡ self.old) }
    {
        let transformed = self.after_log(revision, op)?;
        self.append(maker, transformed)?;
        Ok(())
    }

    /// Does as `receive`, and gives the inverse of the appended operation over the document before it, with which `retract` undoes the
    /// entry. The inverse is made first, so that every fault leaves the server as it was.
    pub fn receive_kept(
        &mut self,
        maker: u16,
        revision: u32,
        op: &TextOp<T>,
    ) -> Result<TextOp<T>, ServerFault>
        ensures fault { Names result (fault_of self.old revision op.now) }
        ensures ok { OnOk result (self.new ≡ received self.old maker revision op.now) }
        ensures err { OnErr result (self.new ≡ self.old) }
        ensures inverse { IfOk result (λ undo. undo ≡ invert (transform_over op.now (drop revision self.old.log)) self.old.document) }
        ensures undo { IfOk result (λ undo. IsUndo self.old self.new undo) }
    {
        let passed = self.after_log(revision, op)?;
        let inverse = passed.invert(&self.document)?;
        self.append(maker, passed)?;
        Ok(inverse)
    }

    /// Removes the last entry and changes the document back. The log must not be empty, and `undo` is the inverse of its last entry over the document before
    /// that entry. `AllocError` where a growth was refused; then the server is as it was.
    pub fn retract(&mut self, undo: &TextOp<T>) -> Result<(), AllocError>
        requires { IsRetractable self.old undo.now }
        ensures ok { (earlier : History T) → IsUndo earlier self.old undo.now → OnOk result (self.new ≡ earlier) }
        ensures err { OnErr result (self.new ≡ self.old) }
    {
        self.document.change(undo)?;
        self.log.pop();
        Ok(())
    }

    // The operation after the entries from the revision on, or why it is not received.
    fn after_log(&self, revision: u32, op: &TextOp<T>) -> Result<TextOp<T>, ServerFault>
        ensures fault { Names result (fault_of self.now revision op.now) }
        ensures value { IfOk result (λ transformed. transformed ≡ transform_over op.now (drop revision self.now.log)) }
        ensures base { IfOk result (λ transformed. transformed.base ≡ length self.now.document) }
        ensures operation { IfOk result (λ transformed. IsOperation transformed) }
        ensures room { OnOk result (length self.now.log < LOG_LIMIT) }
    {
        let count = self.log.len();
        let from = revision as usize;
        if from > count {
            return Err(ServerFault::NotInHistory);
        }
        let later = &self.log[from..];
        let end = self.document.len();
        let base = base_length(later, end);
        if op.base_len() != base {
            return Err(ServerFault::BadBase);
        }
        if count >= LOG_LIMIT {
            return Err(ServerFault::LogFull);
        }
        if !has_room(later, base + op.inserted()) {
            return Err(ServerFault::TooLong);
        }
        Ok(transform_after(op, later, end)?)
    }

    // Applies the operation and appends it.
    fn append(&mut self, maker: u16, op: TextOp<T>) -> Result<(), AllocError>
        requires base { op.base ≡ length self.old.document }
        requires operation { IsOperation op }
        requires room { length self.old.log < LOG_LIMIT }
        ensures ok { OnOk result (self.new ≡ with_entry self.old maker op) }
        ensures err { OnErr result (self.new ≡ self.old) }
    {
        self.log.reserve(1)?;
        self.document.change(&op)?;
        self.log.push_reserved(Entry::new(maker, op));
        Ok(())
    }
}

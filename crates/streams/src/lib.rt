//! Bytes in and out, over any reader and writer: whole reads and whole writes, lines, and what a subcommand leaves. Each error of the device is a fault.
//!
//! std's `write_all` and `read_to_end` try an `Interrupted` call again, and say nothing of the bytes at an error. [`put`] and
//! the calls of [`Source`] call `write` and `read` themselves: `Interrupted` is a fault, and so is a write that takes no byte; and after a
//! fault the writer has got a first part of the bytes (`WritesPart`), a whole read has lost bytes at the reader's front (`Loses`).
//! Both definitions stand in `specs/Streams.antt`. Lines are taken one at a time; what was read behind a line is held until it is taken (`ahead.rt`).
//! `outcomes.rt` has what a subcommand leaves on its output, on the faults and as its status.
//!
//! ```text
//!    Device<D> ── Sink::put ──────────▶ failed: a write has failed
//!              ── Source::read_whole ─▶ failed: a read has failed, or there are more than 2^30 bytes
//!              ── Source::next_line ──▶ failed: a read has failed, or 2^50 bytes were read
//! ```
//!
//! A [`Sink`] is a writer, and a [`Source`] a reader, that reports whether it has failed. Nobody but its own calls can make it say so, and so a
//! function over one can ensure that it speaks of a fault only where there was one. [`Device`] is both, over any reader or writer.
#![tactic(auto)]

mod ahead;
mod outcomes;
mod splitting;

ghost use Rattle.std.specs.Prelude.{◌≡◌, ◌≤◌, ◌<◌, ◌+◌, ◌-◌, ◌^◌, ℕ, List, [], length, take, Bool, true, false, IfSome, IfOk, IfErr, OnOk, OnErr, IsErrOf, vec_len};
ghost use Rattle.std.specs.Io.KnownBytes.{Appends, IsAtEnd};
ghost use Rattle.streams.specs.Streams.{WritesPart, Loses};
ghost use Rattle.streams.specs.Taken.{may_take, before, TakesLine, Spends, LosesPiece};
ghost use Rattle.streams.specs.declared.InputFault.TheVariants.{Memory, Read as IsRead};

use ahead::Held;
pub use ahead::LineFault;
pub use outcomes::{complain, complain_of_input, complain_of_memory, give};
pub use splitting::split_line;
use std::alloc::{AllocError, Global};
use std::io;
use std::io::{Read, Write};

/// The most bytes that are read whole: 2^30.
pub const MOST: usize = 1 << 30;

/// The most bytes that are read line by line: 2^50.
pub const MOST_BYTES: u64 = 1 << 50;

/// Why an input was not read.
#[derive(Clone, Copy, Debug, PartialEq, Eq)]
pub enum InputFault {
    /// A read failed, or there are more than 2^30 bytes.
    Read,
    /// No memory was found.
    Memory,
}

impl From<AllocError> for InputFault {
    ghost from_gives = { λ _ e. e ≡ Memory };

    fn from(_e: AllocError) -> InputFault {
        InputFault::Memory
    }
}

/// A write failed, or took no byte.
#[derive(Clone, Copy, Debug, PartialEq, Eq)]
pub struct WriteFault;

/// Why not all of an output is written.
#[derive(Clone, Copy, Debug, PartialEq, Eq)]
pub enum OutputFault {
    /// No memory was found for the run, or for what was to be written.
    Memory,
    /// A write failed, or took no byte.
    WriteFault,
}

impl From<AllocError> for OutputFault {
    ghost use Rattle.streams.specs.declared.OutputFault.TheVariants.{Memory as IsMemory};

    ghost from_gives = { λ _ e. e ≡ IsMemory };

    fn from(_e: AllocError) -> OutputFault {
        OutputFault::Memory
    }
}

impl From<WriteFault> for OutputFault {
    ghost use Rattle.streams.specs.declared.OutputFault.TheVariants.{WriteFault as IsWriteFault};

    ghost from_gives = { λ _ e. e ≡ IsWriteFault };

    fn from(_e: WriteFault) -> OutputFault {
        OutputFault::WriteFault
    }
}

/// Writes the bytes and nothing else. After a fault the writer has got a first part of them.
pub fn put<W: Write>(writer: &mut W, bytes: &[u8]) -> Result<(), WriteFault>
    ensures ok { OnOk result (Appends (W.contents writer.old) (W.contents writer.new) bytes.now) }
    ensures err { OnErr result (WritesPart (W.contents writer.old) (W.contents writer.new) bytes.now) }
{
    let mut at = 0;
    while at < bytes.len() {
        let (_, rest) = bytes.split_at(at);
        match writer.write(rest) {
            Ok(n) if n > 0 => at += n,
            _ => return Err(WriteFault),
        }
    }
    Ok(())
}

// All bytes that the reader has left, at most 2^30. After a fault the bytes that were read are lost.
fn read_whole<R: Read>(alloc: Global, reader: &mut R) -> Result<Vec<u8>, InputFault>
    ensures bytes { IfOk result (λ v. IfSome (R.remaining reader.old) (λ text. v.items ≡ text)) }
    ensures most { IfOk result (λ v. vec_len v ≤ MOST) }
    ensures end { OnOk result (IsAtEnd (R.remaining reader.new)) }
    ensures err { OnErr result (Loses (R.remaining reader.old) (R.remaining reader.new)) }
{
    let mut bytes = Vec::new(alloc);
    let mut buffer = [0u8; 4096];
    while bytes.len() <= MOST {
        match reader.read(&mut buffer) {
            Ok(0) => return Ok(bytes),
            Ok(n) => bytes.extend_from_slice(&buffer[..n])?,
            Err(_) => return Err(InputFault::Read),
        }
    }
    Err(InputFault::Read)
}

/// A writer that reports whether it has failed.
pub trait Sink: Write {
    // Whether a write by `put` has failed by now.
    ghost failed: { Self → Bool };

    /// Writes the bytes and nothing else. After a fault the writer has got a first part of them.
    fn put(&mut self, bytes: &[u8]) -> Result<(), WriteFault>
        ensures ok { OnOk result (Appends (Self.contents self.old) (Self.contents self.new) bytes.now) }
        ensures err { OnErr result (WritesPart (Self.contents self.old) (Self.contents self.new) bytes.now) }
        ensures same { OnOk result (failed self.new ≡ failed self.old) }
        ensures cause { OnErr result (failed self.new ≡ true) };
}

/// A reader that reports whether it has failed.
pub trait Source: Read {
    // Whether a read by `read_whole` or `next_line` has failed by now, or there were more bytes than are read: 2^30 whole, 2^50 line by line.
    ghost failed: { Self → Bool };

    // How many bytes may yet be taken line by line.
    ghost left: { Self → ℕ };

    /// All bytes that the reader has left, at most 2^30. After a fault the bytes that were read are lost.
    fn read_whole(&mut self, alloc: Global) -> Result<Vec<u8>, InputFault>
        ensures bytes { IfOk result (λ v. IfSome (Self.remaining self.old) (λ text. v.items ≡ text)) }
        ensures most { IfOk result (λ v. vec_len v ≤ MOST) }
        ensures end { OnOk result (IsAtEnd (Self.remaining self.new)) }
        ensures err { OnErr result (Loses (Self.remaining self.old) (Self.remaining self.new)) }
        ensures cause { IfErr result (λ f. f ≡ IsRead → failed self.new ≡ true) };

    /// Takes the next line, without its LF, in place of what `line` holds, and says whether there is one. An empty last piece is none. Errors:
    /// `ReadFault` where a read failed, or 2^50 bytes were read; `Memory` where no memory was found for the line. After one some bytes of the line are
    /// lost, and no byte behind it; what `line` holds is not specified.
    fn next_line(&mut self, line: &mut Vec<u8>) -> Result<bool, LineFault>
        ensures ok { IfOk result (λ more. TakesLine (Self.remaining self.old) (Self.remaining self.new) more line.new.items) }
        ensures less { IfOk result (λ more. more ≡ true → left self.new < left self.old) }
        ensures taken { OnOk result (left self.new + length line.new.items ≤ left self.old) }
        ensures spent { OnOk result (Spends (left self.old) (left self.new) (Self.remaining self.old) (Self.remaining self.new)) }
        ensures end { IfOk result (λ more. more ≡ false → IsAtEnd (Self.remaining self.new) × (0 < left self.new)) }
        ensures most { left self.old ≤ 2 ^ 50 }
        ensures err { OnErr result (LosesPiece (Self.remaining self.old) (Self.remaining self.new)) }
        ensures err_left { OnErr result (left self.new ≤ left self.old) }
        ensures same { OnOk result (failed self.new ≡ failed self.old) }
        ensures cause { IsErrOf result LineFault.ReadFault → failed self.new ≡ true };

    /// How many bytes may yet be taken line by line: those that were read ahead and those that may yet be read.
    fn left(&self) -> u64
        ensures value { result ≡ left self.now }
        ensures most { result ≤ 2 ^ 50 };
}

/// A reader or a writer, and whether it has failed.
#[derive(Debug, Drop)]
pub struct Device<D> {
    inner: D,
    failed: bool,
    // Bytes that the reader gave and that stand before those that it has left.
    ahead: Held,
}

impl<D> Device<D> {
    /// One that has not failed.
    pub fn new(inner: D) -> Device<D>
        ensures inner { result.inner ≡ inner }
        ensures failed { result.failed ≡ false }
        ensures held { result.ahead.held ≡ [] }
        ensures left { result.ahead.left ≡ 2 ^ 50 }
    {
        Device {
            inner,
            failed: false,
            ahead: Held::none(),
        }
    }

    /// The reader or the writer itself.
    pub fn inner(&self) -> &D
        ensures { result.now ≡ self.now.inner }
    {
        &self.inner
    }

    /// Whether it has failed.
    pub fn has_failed(&self) -> bool
        ensures { result ≡ self.now.failed }
    {
        self.failed
    }
}

impl<W: Write> Write for Device<W> {
    ghost contents = { λ d. W.contents d.inner };

    fn write(&mut self, buf: &[u8]) -> io::Result<usize> {
        self.inner.write(buf)
    }

    fn flush(&mut self) -> io::Result<()> {
        self.inner.flush()
    }
}

impl<W: Write> Sink for Device<W> {
    ghost failed = { λ d. d.failed };

    fn put(&mut self, bytes: &[u8]) -> Result<(), WriteFault> {
        let written = put(&mut self.inner, bytes);
        self.failed |= written.is_err();
        written
    }
}

impl<R: Read> Read for Device<R> {
    ghost remaining = { λ d. before d.ahead (R.remaining d.inner) };

    fn read(&mut self, buf: &mut [u8]) -> io::Result<usize> {
        if self.ahead.is_empty() {
            self.inner.read(buf)
        } else {
            self.ahead.read(buf)
        }
    }
}

impl<R: Read> Source for Device<R> {
    ghost failed = { λ d. d.failed };

    ghost left = { λ d. may_take d.ahead };

    fn read_whole(&mut self, alloc: Global) -> Result<Vec<u8>, InputFault> {
        let bytes = read_whole(alloc, self);
        if let Err(InputFault::Read) = bytes {
            self.failed = true;
        }
        bytes
    }

    fn next_line(&mut self, line: &mut Vec<u8>) -> Result<bool, LineFault> {
        let more = self.ahead.next_line(&mut self.inner, line);
        if let Err(LineFault::ReadFault) = more {
            self.failed = true;
        }
        more
    }

    fn left(&self) -> u64 {
        self.ahead.may_take()
    }
}

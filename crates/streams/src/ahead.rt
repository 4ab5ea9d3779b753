//! Bytes that were read ahead, and the lines that they begin.

ghost use Rattle.std.specs.Prelude.{◌≡◌, ◌↔◌, ◌<◌, ◌≤◌, ◌+◌, ◌^◌, [], true, false, length, Some, IfOk, OnOk, OnErr, IsErrOf};
ghost use Rattle.std.specs.Io.KnownBytes.{Keeps, IsAtEnd};
ghost use Rattle.streams.specs.Taken.{may_take, before, TakesPiece, TakesLine, Spends, LosesPiece};

use crate::MOST_BYTES;
use crate::splitting::split_line;
use std::alloc::AllocError;
use std::io;
use std::io::Read;
use std::marker::Model;

/// Why no line was taken.
#[derive(Clone, Copy, Debug, PartialEq, Eq)]
pub enum LineFault {
    /// A read failed, or 2^50 bytes were read, as the reader says itself.
    ReadFault,
    /// No memory was found for the line.
    Memory,
}

impl From<AllocError> for LineFault {
    ghost use Rattle.std.specs.Prelude.{◌≡◌};
    ghost use Rattle.streams.specs.declared.ahead.LineFault.TheVariants.{Memory};

    ghost from_gives = { λ _ e. e ≡ Memory };

    fn from(_e: AllocError) -> LineFault {
        LineFault::Memory
    }
}

/// Bytes that were read and not yet taken, and how many more may be read, at most 2^50 with those. Contracts see the bytes as a list.
#[derive(Debug, Drop)]
pub(crate) struct Held {
    bytes: [u8; 4096],
    from: usize,
    to: usize,
    left: u64,
}

impl Model for Held {
    ghost use Rattle.std.specs.Prelude.{◌≤◌, ◌+◌, ◌-◌, ◌^◌, take, drop};
    ghost use Rattle.streams.specs.Taken.{Ahead};

    ghost Value = { Ahead };

    ghost view = { λ a. record { held = take (a.to - a.from) (drop a.from a.bytes); left = a.left } };

    ghost invariant = { λ a. (a.from ≤ a.to) × (a.to ≤ 4096) × (a.left + (a.to - a.from) ≤ 2 ^ 50) };
}

impl Held {
    /// Nothing was read yet.
    pub(crate) fn none() -> Held
        ensures held { result.held ≡ [] }
        ensures left { result.left ≡ 2 ^ 50 }
    {
        Held {
            bytes: [0; 4096],
            from: 0,
            to: 0,
            left: MOST_BYTES,
        }
    }

    /// Whether no byte is held.
    pub(crate) fn is_empty(&self) -> bool
        ensures { result ≡ true ↔ self.now.held ≡ [] }
    {
        self.from == self.to
    }

    /// How many bytes may yet be taken: those that are held and those that may yet be read.
    pub(crate) fn may_take(&self) -> u64
        ensures value { result ≡ may_take self.now }
        ensures most { result ≤ 2 ^ 50 }
    {
        self.left + (self.to - self.from) as u64
    }

    /// Reads ahead where nothing is held, and says whether a byte is held. There is none at the end of the input.
    fn has_more<R: Read>(&mut self, reader: &mut R) -> Result<bool, LineFault>
        ensures kept { Keeps (before self.old (R.remaining reader.old)) (before self.new (R.remaining reader.new)) }
        ensures some { IfOk result (λ more. more ≡ true → 0 < length self.new.held) }
        ensures end { IfOk result (λ more. more ≡ false → IsAtEnd (before self.new (R.remaining reader.new)) × (0 < self.new.left)) }
        ensures may_take { may_take self.new ≡ may_take self.old }
    {
        if self.from < self.to {
            return Ok(true);
        }
        self.from = 0;
        self.to = 0;
        let most = (self.bytes.len() as u64).min(self.left) as usize;
        if most == 0 {
            return Err(LineFault::ReadFault);
        }
        let (front, _) = self.bytes.split_at_mut(most);
        match reader.read(front) {
            Ok(count) => {
                self.to = count;
                self.left -= count as u64;
                Ok(count > 0)
            }
            Err(_) => Err(LineFault::ReadFault),
        }
    }

    /// Moves what is held of a line to its end, and says whether the line is whole.
    fn take_piece(&mut self, line: &mut Vec<u8>) -> Result<bool, AllocError>
        ensures piece { IfOk result (λ whole. TakesPiece whole self.old.held self.new.held line.old.items line.new.items) }
        ensures left { self.new.left ≡ self.old.left }
        ensures err { OnErr result (self.new ≡ self.old) }
    {
        let held = &self.bytes[self.from..self.to];
        match split_line(held) {
            Some((piece, below)) => {
                line.extend_from_slice(piece)?;
                self.from = self.to - below.len();
                Ok(true)
            }
            None => {
                line.extend_from_slice(held)?;
                self.from = self.to;
                Ok(false)
            }
        }
    }

    /// Takes the next line, without its LF, and says whether there is one. An empty last piece is none.
    /// After a fault some bytes of the line are lost, and no byte behind it.
    pub(crate) fn next_line<R: Read>(
        &mut self,
        reader: &mut R,
        line: &mut Vec<u8>,
    ) -> Result<bool, LineFault>
        ensures ok { IfOk result (λ more. TakesLine (before self.old (R.remaining reader.old)) (before self.new (R.remaining reader.new)) more line.new.items) }
        ensures less { IfOk result (λ more. more ≡ true → may_take self.new < may_take self.old) }
        ensures taken { OnOk result (may_take self.new + length line.new.items ≤ may_take self.old) }
        ensures spent { OnOk result (Spends (may_take self.old) (may_take self.new) (before self.old (R.remaining reader.old)) (before self.new (R.remaining reader.new))) }
        ensures end { IfOk result (λ more. more ≡ false → IsAtEnd (before self.new (R.remaining reader.new)) × (0 < may_take self.new)) }
        ensures most { may_take self.old ≤ 2 ^ 50 }
        ensures err { OnErr result (LosesPiece (before self.old (R.remaining reader.old)) (before self.new (R.remaining reader.new))) }
        ensures err_left { OnErr result (may_take self.new ≤ may_take self.old) }
    {
        // For the proof: the invariant of every reader.
        let _ = &self.bytes;
        line.clear();
        while self.has_more(reader)? {
            if self.take_piece(line)? {
                return Ok(true);
            }
        }
        if line.is_empty() {
            return Ok(false);
        }
        Ok(true)
    }
}

// What is held, as a reader.
impl Read for Held {
    ghost remaining = { λ a. Some a.held };

    fn read(&mut self, buf: &mut [u8]) -> io::Result<usize> {
        let mut held = &self.bytes[self.from..self.to];
        let count = held.read(buf)?;
        self.from += count;
        Ok(count)
    }
}

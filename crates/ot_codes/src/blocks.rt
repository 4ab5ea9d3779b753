//! Codes in blocks.

ghost use Rattle.std.specs.Prelude.{◌≡◌, ◌+◌, ◌-◌, ◌<◌, ◌≤◌, ◌^◌, [], ◌∷◌, ◌++◌, length, set, false, IsTrue, IfOk, OnOk, OnErr};
ghost use Rattle.ot_codes.specs.Codes.{sum_of, total_of};
ghost use Rattle.ot_codes.specs.Ends.{last_end, start};

use crate::code::Sum;
use crate::cursor::Cursor;
use crate::end::End;
use crate::packed::Packed;
use crate::stretch::Stretch;
use std::alloc::{AllocError, Global};
use std::marker::Model;
use std::slice;

// The greatest number of codes of a block.
const BLOCK: usize = 64;

/// Codes in order, all of them in one vector, and beside it the ends of their blocks. What lies behind the last end is a block too: the last two codes are in it,
/// so that no end changes with them. A contract sees the list of the codes.
#[derive(Drop)]
pub(crate) struct Blocks {
    codes: Vec<Packed>,
    ends: Vec<End>,
}

impl Model for Blocks {
    ghost use Rattle.std.specs.Prelude.{List};
    ghost use Rattle.ot_codes.specs.declared.code.Code.{Code};

    ghost Value = { List Code };

    ghost use Rattle.ot_codes.specs.Ends.{AreEnds, start};

    ghost view = { λ blocks. blocks.codes.items };

    ghost invariant = { λ blocks. AreEnds start blocks.codes.items blocks.ends.items };
}

// How many codes lie before the last end.
fn ended(ends: &[End]) -> usize
    ensures { result ≡ (last_end start ends.now).count }
{
    match ends {
        [.., end] => end.count as usize,
        [] => 0,
    }
}

// Codes and an end, each behind all others. Where a growth was refused, nothing has changed.
fn add(
    codes: &mut Vec<Packed>,
    ends: &mut Vec<End>,
    more: &[Packed],
    end: End,
) -> Result<(), AllocError>
    ensures codes { OnOk result (codes.new.items ≡ codes.old.items ++ more.now) }
    ensures ends { OnOk result (ends.new.items ≡ ends.old.items ++ end ∷ []) }
    ensures same_codes { OnErr result (codes.new.items ≡ codes.old.items) }
    ensures same_ends { OnErr result (ends.new.items ≡ ends.old.items) }
{
    ends.reserve(1)?;
    codes.extend_from_slice(more)?;
    ends.push_reserved(end);
    Ok(())
}

impl Blocks {
    /// These codes, in one block, with room for a whole one.
    pub(crate) fn new(alloc: Global, codes: &[Packed]) -> Result<Blocks, AllocError>
        requires { length codes.now ≤ 64 }
        ensures { IfOk result (λ blocks. blocks ≡ codes.now) }
    {
        let mut all = Vec::with_capacity(alloc, BLOCK)?;
        all.extend_from_slice(codes)?;
        Ok(Blocks {
            codes: all,
            ends: Vec::new(alloc),
        })
    }

    /// The codes.
    pub(crate) fn as_slice(&self) -> &[Packed]
        ensures { result.now ≡ self.now }
    {
        self.codes.as_slice()
    }

    /// Adds a code at the end; `total` is what the others come to. `AllocError` where a growth was refused: the codes are as they were then.
    pub(crate) fn push(&mut self, code: Packed, total: Sum) -> Result<(), AllocError>
        requires total { total ≡ sum_of self.old }
        requires small { length self.old < 2 ^ 26 }
        ensures ok { OnOk result (self.new ≡ self.old ++ code ∷ []) }
        ensures err { OnErr result (self.new ≡ self.old) }
    {
        let count = self.codes.len();
        if count - ended(self.ends.as_slice()) < BLOCK {
            self.codes.push(code)?;
            return Ok(());
        }
        let last = self.codes[count - 1];
        let end = End {
            sum: total.less(last.code()),
            count: count as u32 - 1,
        };
        add(&mut self.codes, &mut self.ends, slice::from_ref(&code), end)?;
        Ok(())
    }

    /// Adds codes at the end, no more than a block may have; `total` is what the others come to. `AllocError` where a growth was refused: the codes are as they were
    /// then.
    pub(crate) fn extend(&mut self, codes: &[Packed], total: Sum) -> Result<(), AllocError>
        requires some { 0 < length codes.now }
        requires few { length codes.now ≤ 64 }
        requires total { total ≡ sum_of self.old }
        requires small { length self.old < 2 ^ 26 }
        ensures ok { OnOk result (self.new ≡ self.old ++ codes.now) }
        ensures err { OnErr result (self.new ≡ self.old) }
    {
        if codes.len() == 1 {
            return self.push(codes[0], total);
        }
        let count = self.codes.len();
        if count - ended(self.ends.as_slice()) + codes.len() <= BLOCK {
            self.codes.extend_from_slice(codes)?;
            return Ok(());
        }
        let end = End {
            sum: total,
            count: count as u32,
        };
        add(&mut self.codes, &mut self.ends, codes, end)?;
        Ok(())
    }

    /// Adds codes in blocks of their own at the end, before `left` others; `total` is what those there come to. No where there are none, or the first of these blocks has a
    /// single code. `AllocError` where a growth was refused: the codes are as they were then.
    pub(crate) fn extend_blocks(
        &mut self,
        more: &Stretch<'_>,
        total: Sum,
        left: usize,
    ) -> Result<bool, AllocError>
        requires total { total ≡ sum_of self.old }
        requires fits { total.kept + total.deleted + total.inserted < 2 ^ 26 }
        requires small { length self.old + length more.now < 2 ^ 26 }
        ensures yes { IfOk result (λ done. IsTrue done → self.new ≡ self.old ++ more.now) }
        ensures no { IfOk result (λ done. done ≡ false → self.new ≡ self.old) }
        ensures err { OnErr result (self.new ≡ self.old) }
    {
        if self.codes.is_empty() {
            return Ok(false);
        }
        let room = left.saturating_add(BLOCK); // since what is written between may be split
        more.add_to(&mut self.codes, &mut self.ends, total, room)
    }

    /// Another code in the place of one of the last two.
    pub(crate) fn set(&mut self, place: usize, code: Packed)
        requires within { place < length self.old }
        requires late { length self.old ≤ place + 2 }
        ensures { self.new ≡ set self.old place code }
    {
        self.codes[place] = code;
    }

    /// The same codes in the same blocks. `AllocError` where a growth was refused.
    pub(crate) fn copy(&self) -> Result<Blocks, AllocError>
        ensures { IfOk result (λ copy. copy ≡ self.now) }
    {
        let alloc = *self.codes.allocator();
        let codes = Vec::from_slice(alloc, self.codes.as_slice())?;
        let ends = Vec::from_slice(alloc, self.ends.as_slice())?;
        Ok(Blocks { codes, ends })
    }

    /// The codes from the first one on.
    pub(crate) fn cursor(&self) -> Cursor<'_>
        requires { total_of self.now < 2 ^ 26 }
        ensures { result ≡ self.now }
    {
        Cursor::at(&Stretch::new(self.codes.as_slice(), self.ends.as_slice()))
    }
}

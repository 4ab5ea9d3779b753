//! Codes in order, few or many.

ghost use Rattle.std.specs.Prelude.{◌≡◌, ◌+◌, ◌-◌, ◌<◌, ◌≤◌, ◌^◌, [], ◌∷◌, ◌++◌, length, get_or, set, false, IsTrue, IfOk, MatchOption, OnOk, OnErr};
ghost use Rattle.ot_codes.specs.Codes.{MayEndWith, length_of, sum_of, total_of};

use crate::blocks::Blocks;
use crate::code::{Code, Sum};
use crate::cursor::Cursor;
use crate::few::Few;
use crate::packed::Packed;
use crate::stretch::Stretch;
use std::alloc::{AllocError, Global};
use std::marker::Model;

// A few lie in the value itself, more in blocks.
#[derive(Drop)]
pub(crate) enum Held {
    Few(Few),
    Many(Box<Blocks>),
}

/// Codes in order: up to five lie in the value itself, without an allocation. A contract sees the list of them.
pub(crate) struct CodeList {
    held: Held,
    alloc: Global,
}

impl Model for CodeList {
    ghost use Rattle.std.specs.Prelude.{List};
    ghost use Rattle.ot_codes.specs.declared.code.Code.{Code};

    ghost Value = { List Code };

    ghost use Rattle.ot_codes.specs.Held.{held_codes};

    ghost view = { λ codes. held_codes codes.held };
}

impl Drop for CodeList {
    fn drop(self) {
        let CodeList { held: _, alloc: _ } = self;
    }
}

impl CodeList {
    /// No codes. Takes no memory; later calls take theirs from `alloc`.
    pub(crate) fn new(alloc: Global) -> CodeList
        ensures { result ≡ [] }
    {
        CodeList {
            held: Held::Few(Few::new()),
            alloc,
        }
    }

    /// Where the memory comes from.
    pub(crate) fn allocator(&self) -> Global {
        self.alloc
    }

    /// The codes, in order. A look-up.
    #[inline(always)]
    pub(crate) fn as_slice(&self) -> &[Packed]
        ensures { result.now ≡ self.now }
    {
        match &self.held {
            Held::Few(few) => few.as_slice(),
            Held::Many(blocks) => blocks.as_slice(),
        }
    }

    /// The last code. None, where there is no code.
    pub(crate) fn last(&self) -> Option<Packed>
        ensures { MatchOption result (length self.now ≡ 0) (λ x. (0 < length self.now) × (x ≡ get_or self.now (length self.now - 1) x)) }
    {
        match self.as_slice() {
            [.., last] => Some(*last),
            [] => None,
        }
    }

    /// The last code but one. None, where there are fewer than two.
    pub(crate) fn last_but_one(&self) -> Option<Packed>
        ensures { MatchOption result (length self.now < 2) (λ x. (1 < length self.now) × (x ≡ get_or self.now (length self.now - 2) x)) }
    {
        match self.as_slice() {
            [.., before, _] => Some(*before),
            _ => None,
        }
    }

    // Puts a code in the place of one of the last two.
    fn set(&mut self, place: usize, code: Packed)
        requires within { place < length self.old }
        requires late { length self.old ≤ place + 2 }
        ensures { self.new ≡ set self.old place code }
    {
        match &mut self.held {
            Held::Few(few) => few.set(place, code),
            Held::Many(blocks) => blocks.set(place, code),
        }
    }

    /// Puts a code in the place of the last one.
    pub(crate) fn set_last(&mut self, code: Packed)
        requires { 0 < length self.old }
        ensures { self.new ≡ set self.old (length self.old - 1) code }
    {
        let count = self.count();
        self.set(count - 1, code);
    }

    /// Puts a code in the place of the last one but one.
    pub(crate) fn set_last_but_one(&mut self, code: Packed)
        requires { 1 < length self.old }
        ensures { self.new ≡ set self.old (length self.old - 2) code }
    {
        let count = self.count();
        self.set(count - 2, code);
    }

    /// Adds a code at the end of a few, where it may stand directly behind the last one; no where it may not, or there is no room for it among them.
    #[inline(always)]
    pub(crate) fn push_behind(&mut self, code: Code) -> bool
        requires { length_of code < 2 ^ 26 }
        ensures yes { IsTrue result → self.new ≡ self.old ++ code ∷ [] }
        ensures may { IsTrue result → MayEndWith self.old code }
        ensures no { result ≡ false → self.new ≡ self.old }
    {
        match &mut self.held {
            Held::Few(few) => few.push_behind(code),
            Held::Many(_) => false,
        }
    }

    /// Adds a code at the end; `total` is what the others come to. `AllocError` where a growth was refused: the codes are as they were then.
    #[inline]
    pub(crate) fn push(&mut self, code: Packed, total: Sum) -> Result<(), AllocError>
        requires total { total ≡ sum_of self.old }
        requires small { length self.old < 2 ^ 26 }
        ensures ok { OnOk result (self.new ≡ self.old ++ code ∷ []) }
        ensures err { OnErr result (self.new ≡ self.old) }
    {
        if let Held::Few(few) = &mut self.held {
            if few.push(code) {
                return Ok(());
            }
        }
        self.push_to_blocks(code, total)
    }

    // The same where the code shall lie in a block.
    #[inline(never)]
    fn push_to_blocks(&mut self, code: Packed, total: Sum) -> Result<(), AllocError>
        requires total { total ≡ sum_of self.old }
        requires small { length self.old < 2 ^ 26 }
        ensures ok { OnOk result (self.new ≡ self.old ++ code ∷ []) }
        ensures err { OnErr result (self.new ≡ self.old) }
    {
        match &mut self.held {
            Held::Few(few) => {
                let mut blocks = Blocks::new(self.alloc, few.as_slice())?;
                blocks.push(code, total)?;
                self.held = Held::Many(Box::new(self.alloc, blocks)?);
                Ok(())
            }
            Held::Many(blocks) => blocks.push(code, total),
        }
    }

    /// Adds codes at the end, no more than a block may have; `total` is what the others come to. `AllocError` where a growth was refused: the codes are as they were
    /// then.
    pub(crate) fn extend(&mut self, codes: &[Packed], total: Sum) -> Result<(), AllocError>
        requires some { 0 < length codes.now }
        requires few { length codes.now ≤ 64 }
        requires total { total ≡ sum_of self.old }
        requires small { length self.old < 2 ^ 26 }
        ensures ok { OnOk result (self.new ≡ self.old ++ codes.now) }
        ensures err { OnErr result (self.new ≡ self.old) }
    {
        match &mut self.held {
            Held::Few(few) => {
                if few.extend(codes) {
                    return Ok(());
                }
                let mut blocks = Blocks::new(self.alloc, few.as_slice())?;
                blocks.extend(codes, total)?;
                self.held = Held::Many(Box::new(self.alloc, blocks)?);
                Ok(())
            }
            Held::Many(blocks) => blocks.extend(codes, total),
        }
    }

    /// Adds codes in blocks of their own at the end, before `left` others; `total` is what those there come to. No where these do not lie in blocks, or the first block of
    /// `more` has a single code. `AllocError` where a growth was refused: the codes are as they were then.
    pub(crate) fn extend_blocks(
        &mut self,
        more: &Stretch<'_>,
        total: Sum,
        left: usize,
    ) -> Result<bool, AllocError>
        requires total { total ≡ sum_of self.old }
        requires fits { total.kept + total.deleted + total.inserted < 2 ^ 26 }
        requires small { length self.old + length more.now < 2 ^ 26 }
        ensures yes { IfOk result (λ done. IsTrue done → self.new ≡ self.old ++ more.now) }
        ensures no { IfOk result (λ done. done ≡ false → self.new ≡ self.old) }
        ensures err { OnErr result (self.new ≡ self.old) }
    {
        match &mut self.held {
            Held::Few(_) => Ok(false),
            Held::Many(blocks) => blocks.extend_blocks(more, total, left),
        }
    }

    /// How many codes there are. A look-up.
    pub(crate) fn count(&self) -> usize
        ensures { result ≡ length self.now }
    {
        self.as_slice().len()
    }

    /// The same codes again. `AllocError` where a growth was refused.
    pub(crate) fn copy(&self) -> Result<CodeList, AllocError>
        ensures { IfOk result (λ copy. copy ≡ self.now) }
    {
        let held = match &self.held {
            Held::Few(few) => Held::Few(few.copy()),
            Held::Many(blocks) => Held::Many(Box::new(self.alloc, blocks.copy()?)?),
        };
        Ok(CodeList {
            held,
            alloc: self.alloc,
        })
    }

    /// The codes from the first one on.
    pub(crate) fn cursor(&self) -> Cursor<'_>
        requires { total_of self.now < 2 ^ 26 }
        ensures { result ≡ self.now }
    {
        match &self.held {
            Held::Few(few) => Cursor::of_few(few.as_slice()),
            Held::Many(blocks) => blocks.cursor(),
        }
    }
}

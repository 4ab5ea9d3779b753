//! A few codes, which lie in the value itself.

ghost use Rattle.std.specs.Prelude.{◌≡◌, ◌<◌, ◌≤◌, ◌^◌, [], ◌∷◌, ◌++◌, length, set, false, IsTrue};
ghost use Rattle.ot_codes.specs.Codes.{MayEndWith, length_of};

use crate::build::may_end_with;
use crate::code::Code;
use crate::packed::Packed;
use std::marker::Model;

// How many codes fit.
const FEW: usize = 5;

/// Up to five codes, without an allocation. A contract sees the list of them.
#[derive(Drop)]
pub(crate) struct Few {
    codes: [Packed; FEW],
    count: u32,
}

impl Model for Few {
    ghost use Rattle.std.specs.Prelude.{List, ◌≡◌, ◌≤◌, length, take};
    ghost use Rattle.ot_codes.specs.declared.code.Code.{Code};

    ghost Value = { List Code };

    ghost view = { λ few. take few.count few.codes };

    ghost invariant = { λ few. (few.count ≤ 5) × (length few.codes ≡ 5) };
}

impl Few {
    /// No codes.
    pub(crate) fn new() -> Few
        ensures { result ≡ [] }
    {
        Few {
            codes: [Packed::NONE; FEW],
            count: 0,
        }
    }

    /// The codes, in order.
    pub(crate) fn as_slice(&self) -> &[Packed]
        ensures value { result.now ≡ self.now }
        ensures few { length self.now ≤ 5 }
    {
        &self.codes[..self.count as usize]
    }

    /// One more code at the end; no where there is no room for it.
    pub(crate) fn push(&mut self, code: Packed) -> bool
        ensures yes { IsTrue result → self.new ≡ self.old ++ code ∷ [] }
        ensures no { result ≡ false → self.new ≡ self.old }
    {
        let count = self.count as usize;
        if count == FEW {
            return false;
        }
        self.codes[count] = code;
        self.count += 1;
        true
    }

    /// One more code at the end, where it may stand directly behind the last one; no where it may not, or there is no room for it.
    #[inline(always)]
    pub(crate) fn push_behind(&mut self, code: Code) -> bool
        requires { length_of code < 2 ^ 26 }
        ensures yes { IsTrue result → self.new ≡ self.old ++ code ∷ [] }
        ensures may { IsTrue result → MayEndWith self.old code }
        ensures no { result ≡ false → self.new ≡ self.old }
    {
        may_end_with(self.as_slice(), code) && self.push(Packed::new(code))
    }

    /// More codes at the end; no where there is no room for all of them.
    pub(crate) fn extend(&mut self, codes: &[Packed]) -> bool
        ensures yes { IsTrue result → self.new ≡ self.old ++ codes.now }
        ensures no { result ≡ false → self.new ≡ self.old }
    {
        let end = self.count as usize;
        if codes.len() > FEW - end {
            return false;
        }
        let all = &mut self.codes[..];
        let part = &mut all[end..end + codes.len()];
        part.copy_from_slice(codes);
        self.count += codes.len() as u32;
        true
    }

    /// Another code in the place of one.
    pub(crate) fn set(&mut self, place: usize, code: Packed)
        requires { place < length self.old }
        ensures { self.new ≡ set self.old place code }
    {
        let _ = &self.count;
        self.codes[place] = code;
    }

    /// The same codes again.
    pub(crate) fn copy(&self) -> Few
        ensures { result ≡ self.now }
    {
        Few {
            codes: self.codes,
            count: self.count,
        }
    }
}

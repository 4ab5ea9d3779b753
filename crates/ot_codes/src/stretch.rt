//! Codes that follow one another, in blocks.

ghost use Rattle.std.specs.Prelude.{◌≡◌, ◌+◌, ◌-◌, ◌<◌, ◌≤◌, ◌^◌, [], ◌++◌, length, get_or, false, IsTrue, IfOk, MatchOption, OnErr};
ghost use Rattle.ot_codes.specs.Codes.{first_of, subtracted, sum_of, total_of};
ghost use Rattle.ot_codes.specs.Ends.{AreEnds, first_block, start};
ghost use Rattle.ot_codes.specs.Runs.{measured};

use crate::code::{Code, Sum};
use crate::cursor::{Measure, head_of};
use crate::end::End;
use crate::packed::Packed;
use std::alloc::AllocError;
use std::marker::Model;

/// Codes that follow one another, in blocks with ends. A contract sees the list of the codes.
#[derive(Drop)]
pub struct Stretch<'a> {
    codes: &'a [Packed],
    // the ends of all blocks but the last, and the end before the first
    ends: &'a [End],
    done: End,
}

impl<'a> Model for Stretch<'a> {
    ghost use Rattle.std.specs.Prelude.{List, ◌<◌, ◌^◌};
    ghost use Rattle.ot_codes.specs.declared.code.Code.{Code};

    ghost Value = { List Code };

    ghost use Rattle.ot_codes.specs.Codes.{total_of};
    ghost use Rattle.ot_codes.specs.Ends.{AreEnds};

    ghost view = { λ s. s.codes.now };

    ghost invariant = { λ s. AreEnds s.done s.codes.now s.ends.now × (total_of s.codes.now < 2 ^ 26) };
}

// How many of the blocks with these ends, from the first on, come to at most `limit` elements together.
fn fitting(codes: &[Packed], ends: &[End], done: End, limit: u32, by: Measure) -> usize
    requires ends { AreEnds done codes.now ends.now }
    requires small { total_of codes.now < 2 ^ 26 }
    ensures within { result ≤ length ends.now }
    ensures fits { 0 < result → measured by (subtracted (get_or ends.now (result - 1) done).sum done.sum) ≤ limit }
{
    let _ = codes;
    let mut count = 0;
    let mut beyond = ends.len();
    while count < beyond {
        let middle = count + (beyond - count) / 2;
        if by.of(ends[middle].sum.minus(done.sum)) <= limit {
            count = middle + 1;
        } else {
            beyond = middle;
        }
    }
    count
}

// How many codes the first block has.
fn first_block(codes: &[Packed], ends: &[End], done: End) -> usize
    requires { AreEnds done codes.now ends.now }
    ensures { result ≡ first_block done codes.now ends.now }
{
    match ends {
        [end, ..] => (end.count - done.count) as usize,
        [] => codes.len(),
    }
}

impl<'a> Stretch<'a> {
    /// Codes in blocks with these ends.
    #[inline(always)]
    pub(crate) fn new(codes: &'a [Packed], ends: &'a [End]) -> Stretch<'a>
        requires ends { AreEnds start codes.now ends.now }
        requires small { total_of codes.now < 2 ^ 26 }
        ensures { result ≡ codes.now }
    {
        Stretch {
            codes,
            ends,
            done: End::START,
        }
    }

    /// No codes.
    #[inline(always)]
    pub(crate) fn none() -> Stretch<'a>
        ensures { result ≡ [] }
    {
        Stretch::new(&[], &[])
    }

    /// How many codes there are.
    pub(crate) fn count(&self) -> usize
        ensures { result ≡ length self.now }
    {
        self.codes.len()
    }

    /// The same codes.
    pub(crate) fn copy(&self) -> Stretch<'a>
        ensures { result ≡ self.now }
    {
        Stretch {
            codes: self.codes,
            ends: self.ends,
            done: self.done,
        }
    }

    /// The first code; none, where there is no code.
    pub(crate) fn first(&self) -> Option<Code>
        ensures { result ≡ first_of self.now }
    {
        head_of(self.codes)
    }

    /// The first block, what it comes to where others may stand behind it, and those.
    pub(crate) fn split(&self) -> (&'a [Packed], Option<Sum>, Stretch<'a>)
        ensures parts { self.now ≡ result.0.now ++ result.2 }
        ensures few { length result.0.now ≤ 64 }
        ensures small { total_of self.now < 2 ^ 26 }
        ensures sum { MatchOption result.1 (result.2 ≡ []) (λ sum. (0 < length result.0.now) × (sum ≡ sum_of result.0.now)) }
    {
        match self.ends {
            [end, ends @ ..] => {
                let count = (end.count - self.done.count) as usize;
                let behind = Stretch {
                    codes: &self.codes[count..],
                    ends,
                    done: *end,
                };
                (
                    &self.codes[..count],
                    Some(end.sum.minus(self.done.sum)),
                    behind,
                )
            }
            [] => (self.codes, None, Stretch::none()),
        }
    }

    /// Blocks from the first on that come to at most `limit` elements together, what they come to, and what is behind them. Only the sums at the ends are read.
    pub(crate) fn run(&self, limit: u32, by: Measure) -> (Stretch<'a>, Sum, Stretch<'a>)
        ensures parts { self.now ≡ result.0 ++ result.2 }
        ensures sum { result.1 ≡ sum_of result.0 }
        ensures fits { measured by result.1 ≤ limit }
    {
        let blocks = fitting(self.codes, self.ends, self.done, limit, by);
        if blocks == 0 {
            return (Stretch::none(), Sum::ZERO, self.copy());
        }
        let last = blocks - 1;
        let end = self.ends[last];
        let count = (end.count - self.done.count) as usize;
        prove!(count <= self.codes.len());
        let front = Stretch {
            codes: &self.codes[..count],
            ends: &self.ends[..last],
            done: self.done,
        };
        let behind = Stretch {
            codes: &self.codes[count..],
            ends: &self.ends[blocks..],
            done: end,
        };
        (front, end.sum.minus(self.done.sum), behind)
    }

    /// Adds the codes behind others that come to `total`, in blocks of their own, with room for `room` more; no, where the first block has a single code. `AllocError`
    /// where a growth was refused: nothing has changed then.
    pub(crate) fn add_to(
        &self,
        codes: &mut Vec<Packed>,
        ends: &mut Vec<End>,
        total: Sum,
        room: usize,
    ) -> Result<bool, AllocError>
        requires ends { AreEnds start codes.old.items ends.old.items }
        requires some { 0 < length codes.old.items }
        requires total { total ≡ sum_of codes.old.items }
        requires fits { total.kept + total.deleted + total.inserted < 2 ^ 26 }
        requires small { length codes.old.items + length self.now < 2 ^ 26 }
        ensures ends { AreEnds start codes.new.items ends.new.items }
        ensures yes { IfOk result (λ done. IsTrue done → codes.new.items ≡ codes.old.items ++ self.now) }
        ensures no { IfOk result (λ done. done ≡ false → codes.new.items ≡ codes.old.items) }
        ensures err { OnErr result (codes.new.items ≡ codes.old.items) }
    {
        if first_block(self.codes, self.ends, self.done) < 2 {
            return Ok(false);
        }
        let base = End {
            sum: total,
            count: codes.len() as u32,
        };
        ends.reserve(self.ends.len() + 1)?;
        codes.reserve(self.codes.len().saturating_add(room))?;
        codes.extend_from_slice(self.codes)?;
        ends.push_reserved(base);
        for end in self.ends {
            ends.push_reserved(end.moved(self.done, base));
        }
        Ok(true)
    }
}

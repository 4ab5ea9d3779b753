//! Reading codes, one after the other, or many at once.

ghost use Rattle.std.specs.Prelude.{◌≡◌, ◌+◌, ◌<◌, ◌≤◌, ◌^◌, ◌++◌, length, take, MatchOption};
ghost use Rattle.ot_codes.specs.Codes.{HasFirst, added, deletion_of, first_of, insertion_of, others_of, past, retain_of, sum_of, total_of, without};
ghost use Rattle.ot_codes.specs.Runs.{IsRun, measured};

use crate::code::{Code, Sum};
use crate::packed::Packed;
use crate::stretch::Stretch;
use std::marker::Model;

/// What is left of codes: a contract sees a list of codes, of which the first one may be what is left of a longer one.
#[derive(Drop)]
pub struct Cursor<'a> {
    // the code at hand: the first one of its block, or what is left of it
    head: Option<Code>,
    // what is left of that block
    block: &'a [Packed],
    // what it comes to, where that is known and all of the block is left
    sum: Option<Sum>,
    behind: Stretch<'a>,
}

impl<'a> Model for Cursor<'a> {
    ghost use Rattle.std.specs.Prelude.{List, ◌++◌, ◌<◌, ◌≤◌, ◌^◌, length};
    ghost use Rattle.ot_codes.specs.declared.code.Code.{Code};

    ghost Value = { List Code };

    ghost use Rattle.ot_codes.specs.Codes.{codes_left, others_of, total_of};
    ghost use Rattle.ot_codes.specs.Runs.{IsHead, IsSumOf};

    ghost view = { λ c. codes_left c.head (others_of c.block.now ++ c.behind) };

    ghost invariant = { λ c. IsHead c.head c.block.now × IsSumOf c.sum c.head c.block.now × (length c.block.now ≤ 64) × (total_of (codes_left c.head (others_of c.block.now ++ c.behind)) < 2 ^ 26) };
}

/// Codes that follow one another: `first`, which is the first one of `codes` or what is left of it, the others of `codes`, which lie in one block, and `more`, which lie in
/// whole blocks behind it. How much all retain, delete and insert, and how much `more` does; and what is left behind them.
#[derive(Drop)]
pub struct Run<'a> {
    pub first: Code,
    pub codes: &'a [Packed],
    pub more: Stretch<'a>,
    pub sum: Sum,
    pub more_sum: Sum,
    pub behind: Cursor<'a>,
}

/// What codes are measured by: the elements of the document that they take, or those that they make.
#[derive(Clone, Copy)]
pub enum Measure {
    Taken,
    Made,
}

impl Measure {
    // How much codes of this sum come to.
    pub(crate) fn of(self, sum: Sum) -> u32
        requires { sum.kept + sum.deleted + sum.inserted < 2 ^ 26 }
        ensures { result ≡ measured self sum }
    {
        match self {
            Measure::Taken => sum.kept + sum.deleted,
            Measure::Made => sum.kept + sum.inserted,
        }
    }
}

// How many codes follow before the measure passes the limit, and the sum with them.
fn fitting(codes: &[Packed], from: Sum, limit: u32, by: Measure) -> (usize, Sum)
    requires small { from.kept + from.deleted + from.inserted + total_of codes.now < 2 ^ 26 }
    requires fits { measured by from ≤ limit }
    ensures within { result.0 ≤ length codes.now }
    ensures sum { result.1 ≡ added from (sum_of (take result.0 codes.now)) }
    ensures fits { measured by result.1 ≤ limit }
{
    let mut sum = from;
    for (count, code) in codes.iter().enumerate() {
        let next = code.added_to(sum);
        if by.of(next) > limit {
            return (count, sum);
        }
        sum = next;
    }
    (codes.len(), sum)
}

/// The first code; none, where there is no code.
#[inline(always)]
pub(crate) fn head_of(codes: &[Packed]) -> Option<Code>
    ensures { result ≡ first_of codes.now }
{
    match codes {
        [first, ..] => Some(first.code()),
        [] => None,
    }
}

impl<'a> Cursor<'a> {
    /// A few codes, which lie in one block.
    #[inline(always)]
    pub(crate) fn of_few(codes: &'a [Packed]) -> Cursor<'a>
        requires few { length codes.now ≤ 64 }
        requires small { total_of codes.now < 2 ^ 26 }
        ensures { result ≡ codes.now }
    {
        Cursor {
            head: head_of(codes),
            block: codes,
            sum: None,
            behind: Stretch::none(),
        }
    }

    /// Codes in blocks, from the first one on.
    pub(crate) fn at(codes: &Stretch<'a>) -> Cursor<'a>
        ensures { result ≡ codes.now }
    {
        let (block, sum, behind) = codes.split();
        Cursor {
            head: head_of(block),
            block,
            sum,
            behind,
        }
    }

    // What is left of a block, and the codes behind it.
    fn within(block: &'a [Packed], behind: &Stretch<'a>) -> Cursor<'a>
        requires few { length block.now ≤ 64 }
        requires small { total_of (block.now ++ behind.now) < 2 ^ 26 }
        ensures { result ≡ block.now ++ behind.now }
    {
        match block {
            [] => Cursor::at(behind),
            [first, ..] => Cursor {
                head: Some(first.code()),
                block,
                sum: None,
                behind: behind.copy(),
            },
        }
    }

    /// The code at hand; none at the end.
    pub fn head(&self) -> Option<Code>
        ensures { result ≡ first_of self.now }
    {
        self.head
    }

    /// How much the code at hand retains, if it is a retain.
    pub fn retain(&self) -> Option<u32>
        ensures { result ≡ retain_of self.now }
    {
        match self.head {
            Some(Code::Retain(count)) => Some(count),
            _ => None,
        }
    }

    /// How much the code at hand inserts, if it is an insertion.
    pub fn insertion(&self) -> Option<u32>
        ensures { result ≡ insertion_of self.now }
    {
        match self.head {
            Some(Code::Insert(count)) => Some(count),
            _ => None,
        }
    }

    /// How much the code at hand deletes, if it is a deletion.
    pub fn deletion(&self) -> Option<u32>
        ensures { result ≡ deletion_of self.now }
    {
        match self.head {
            Some(Code::Delete(count)) => Some(count),
            _ => None,
        }
    }

    /// Codes from the one at hand on, whole ones, that come to at most `limit` elements together; none, where the code at hand comes to more, or there is none. They end
    /// with a block, or in the one at hand. Of whole blocks only the sums are read.
    pub fn run(&self, limit: u32, by: Measure) -> Option<Run<'a>>
        ensures { MatchOption result (Unit {0}) (λ run. IsRun limit by self.now run.first run.codes.now run.more run.sum run.more_sum run.behind) }
    {
        let Some(first) = self.head else {
            return None;
        };
        if let Some(sum) = self.sum {
            let taken = by.of(sum);
            if taken <= limit {
                let (more, more_sum, behind) = self.behind.run(limit - taken, by);
                return Some(Run {
                    first,
                    codes: self.block,
                    more,
                    sum: sum.plus(more_sum),
                    more_sum,
                    behind: Cursor::at(&behind),
                });
            }
        }
        self.part(first, limit, by)
    }

    // The same in the block at hand, which is gone through.
    fn part(&self, first: Code, limit: u32, by: Measure) -> Option<Run<'a>>
        requires { first_of self.now ≡ Some first }
        ensures { MatchOption result (Unit {0}) (λ run. IsRun limit by self.now run.first run.codes.now run.more run.sum run.more_sum run.behind) }
    {
        let _ = &self.block;
        let sum = Sum::ZERO.with(first);
        if by.of(sum) > limit {
            return None;
        }
        let (others, sum) = fitting(&self.block[1..], sum, limit, by);
        let count = others + 1;
        Some(Run {
            first,
            codes: &self.block[..count],
            more: Stretch::none(),
            sum,
            more_sum: Sum::ZERO,
            behind: Cursor::within(&self.block[count..], &self.behind),
        })
    }

    /// How many codes are left.
    pub(crate) fn left(&self) -> usize {
        self.block.len().saturating_add(self.behind.count())
    }

    /// Goes past the code at hand.
    pub fn next(&mut self)
        requires { 0 < length self.old }
        ensures { self.new ≡ others_of self.old }
    {
        let rest = &self.block[1..];
        match rest {
            [] if self.behind.count() == 0 => {
                self.head = None;
                self.sum = None;
            }
            [] => *self = Cursor::at(&self.behind),
            [first, ..] => {
                self.head = Some(first.code());
                self.block = rest;
                self.sum = None;
            }
        }
    }

    /// Goes past the first `count` elements of the code at hand.
    pub fn take(&mut self, count: u32)
        requires { HasFirst count self.old }
        ensures { self.new ≡ without count self.old }
    {
        let Some(code) = self.head else {
            unreachable!();
        };
        let length = code.len();
        if count == length {
            self.next();
        } else {
            self.head = Some(code.with_len(length - count));
            self.sum = None;
        }
    }

    /// Goes past the first `count` elements of the code at hand, if any.
    pub fn pass(&mut self, count: u32)
        requires { 0 < count → HasFirst count self.old }
        ensures { self.new ≡ past count self.old }
    {
        if count > 0 {
            self.take(count);
        }
    }
}

//! The codes of an operation, and the pen that writes them.

ghost use Rattle.std.specs.Prelude.{◌≡◌, ◌+◌, ◌*◌, ◌<◌, ◌≤◌, ◌∷◌, length, max, false, IsTrue, IfOk, OnOk, OnErr};
ghost use Rattle.ot_operation.specs.Operation.{IsOperation, IsTooLong, empty, news, with_retain};
ghost use Rattle.ot_operation.specs.Run.{IsNormal, normal_runs};
ghost use Rattle.ot_operation.specs.Steps.{with_runs};
ghost use Rattle.ot_operation.specs.declared.TheConstants.{LIMIT};
ghost use Rattle.ot_operation.specs.Steps.{appended};
ghost use Rattle.ot_codes.specs.Codes.{length_of, others_of, run_of, runs_of, spelled, sum_of};
ghost use Rattle.ot_codes.specs.Runs.{IsPartOf, IsRead, read_codes};

use crate::build::{add, may_end_with};
use crate::code::{Code, Sum};
use crate::code_list::CodeList;
use crate::cursor::{Cursor, Run};
use crate::packed::Packed;
use crate::stretch::Stretch;
use std::alloc::{AllocError, Global};
use std::marker::Model;

/// The codes of an operation, in normal form: no code is empty, no two neighbours are of one kind, and no insertion stands directly after a deletion. Base and
/// target length are at most 1,000,000 elements. A contract sees the operation that they spell over the unit type: the shape of every operation with these codes.
#[derive(Drop)]
pub struct Codes {
    list: CodeList,
    sum: Sum,
}

impl Model for Codes {
    ghost use Rattle.ot_operation.specs.Operation.{Operation};

    ghost Value = { Operation (Unit {0}) };

    ghost use Rattle.ot_codes.specs.Codes.{AreSound, spelled};

    ghost view = { λ s. spelled s.list };

    ghost invariant = { λ s. AreSound s.list s.sum };
}

impl Codes {
    /// No codes: the operation on the empty document that does nothing. Takes no memory; later calls take theirs from `alloc`.
    pub fn new(alloc: Global) -> Codes
        ensures { result ≡ empty }
    {
        Codes {
            list: CodeList::new(alloc),
            sum: Sum::ZERO,
        }
    }

    /// Where the memory of the codes comes from.
    pub fn allocator(&self) -> Global {
        self.list.allocator()
    }

    /// One more code at the end, as ot.js' builder adds a component: one of no elements adds nothing, a neighbour of its kind is lengthened, and an insertion
    /// stands before a deletion. `AllocError` where a growth was refused; nothing has changed then.
    #[inline(never)]
    pub fn put(&mut self, code: Code) -> Result<(), AllocError>
        requires { IsTooLong (appended self.old (run_of code)) → ⊥ }
        ensures ok { OnOk result (self.new ≡ appended self.old (run_of code)) }
        ensures err { OnErr result (self.new ≡ self.old) }
    {
        if code.len() == 0 {
            return Ok(());
        }
        add(&mut self.list, code, self.sum)?;
        self.sum = self.sum.with(code);
        Ok(())
    }

    // One more code directly behind the last one of a few; no where it may not stand there, or there is no room for it.
    #[inline(always)]
    fn put_behind(&mut self, code: Code) -> bool
        requires filled { 0 < length_of code }
        requires short { IsTooLong (appended self.old (run_of code)) → ⊥ }
        ensures yes { IsTrue result → self.new ≡ appended self.old (run_of code) }
        ensures no { result ≡ false → self.new ≡ self.old }
    {
        if !self.list.push_behind(code) {
            return false;
        }
        self.sum = self.sum.with(code);
        true
    }

    // These codes at the end, as they are, where the first of them may stand behind what is there. Else nothing changes, and the answer is no.
    fn extend(&mut self, codes: &[Packed], sum: Sum) -> Result<bool, AllocError>
        requires some { 0 < length codes.now }
        requires few { length codes.now ≤ 64 }
        requires normal { IsNormal (runs_of codes.now) }
        requires sum { sum ≡ sum_of codes.now }
        requires short { IsTooLong (with_runs self.old (runs_of codes.now)) → ⊥ }
        ensures yes { IfOk result (λ done. IsTrue done → self.new ≡ with_runs self.old (runs_of codes.now)) }
        ensures no { IfOk result (λ done. done ≡ false → self.new ≡ self.old) }
    {
        if !may_end_with(self.list.as_slice(), codes[0].code()) {
            return Ok(false);
        }
        self.list.extend(codes, self.sum)?;
        self.sum = self.sum.plus(sum);
        Ok(true)
    }

    // Codes in normal form at the end: those that join with what is there one by one, and the others as they are.
    fn append(&mut self, codes: &[Packed], sum: Sum) -> Result<(), AllocError>
        requires few { length codes.now ≤ 64 }
        requires normal { IsNormal (runs_of codes.now) }
        requires sum { sum ≡ sum_of codes.now }
        requires short { IsTooLong (with_runs self.old (runs_of codes.now)) → ⊥ }
        ensures { OnOk result (self.new ≡ with_runs self.old (runs_of codes.now)) }
    {
        let mut left = sum;
        for (place, code) in codes.iter().enumerate() {
            if self.extend(&codes[place..], left)? {
                return Ok(());
            }
            let code = code.code();
            self.put(code)?;
            left = left.less(code);
        }
        Ok(())
    }

    // The same of codes of which the first one may be what is left of a longer one.
    fn append_from(&mut self, first: Code, codes: &[Packed], sum: Sum) -> Result<(), AllocError>
        requires part { IsPartOf first codes.now }
        requires few { length codes.now ≤ 64 }
        requires normal { IsNormal (runs_of (first ∷ others_of codes.now)) }
        requires sum { sum ≡ sum_of (first ∷ others_of codes.now) }
        requires short { IsTooLong (with_runs self.old (runs_of (first ∷ others_of codes.now))) → ⊥ }
        ensures { OnOk result (self.new ≡ with_runs self.old (runs_of (first ∷ others_of codes.now))) }
    {
        if first.len() == codes[0].code().len() {
            return self.append(codes, sum);
        }
        self.put(first)?;
        self.append(&codes[1..], sum.less(first))
    }

    // Codes in blocks at the end, as they lie, where that is possible, before `left` others. Else nothing changes, and the answer is no.
    fn extend_blocks(
        &mut self,
        codes: &Stretch<'_>,
        sum: Sum,
        left: usize,
    ) -> Result<bool, AllocError>
        requires normal { IsNormal (runs_of codes.now) }
        requires sum { sum ≡ sum_of codes.now }
        requires short { IsTooLong (with_runs self.old (runs_of codes.now)) → ⊥ }
        ensures yes { IfOk result (λ done. IsTrue done → self.new ≡ with_runs self.old (runs_of codes.now)) }
        ensures no { IfOk result (λ done. done ≡ false → self.new ≡ self.old) }
    {
        let Some(first) = codes.first() else {
            return Ok(false);
        };
        if !may_end_with(self.list.as_slice(), first) {
            return Ok(false);
        }
        if !self.list.extend_blocks(codes, self.sum, left)? {
            return Ok(false);
        }
        self.sum = self.sum.plus(sum);
        Ok(true)
    }

    // Codes in blocks in normal form at the end: those of the first blocks one by one where they have to be, and the others as they lie, before `left` others.
    fn append_blocks(
        &mut self,
        codes: &Stretch<'_>,
        sum: Sum,
        left: usize,
    ) -> Result<(), AllocError>
        requires normal { IsNormal (runs_of codes.now) }
        requires sum { sum ≡ sum_of codes.now }
        requires short { IsTooLong (with_runs self.old (runs_of codes.now)) → ⊥ }
        ensures { OnOk result (self.new ≡ with_runs self.old (runs_of codes.now)) }
    {
        let mut more = codes.copy();
        let mut total = sum;
        'blocks: loop {
            let (block, known, behind) = more.split();
            let Some(part) = known else {
                return self.append(block, total);
            };
            if self.extend_blocks(&more, total, left)? {
                return Ok(());
            }
            self.append(block, part)?;
            more = behind;
            total = total.minus(part);
            continue 'blocks;
        }
    }

    // What was read at once at the end.
    fn append_run(&mut self, run: &Run<'_>) -> Result<(), AllocError>
        requires read { IsRead run.now.first run.now.codes.now run.now.more run.now.sum run.now.more_sum }
        requires normal { IsNormal (runs_of (read_codes run.now.first run.now.codes.now run.now.more)) }
        requires short { IsTooLong (with_runs self.old (runs_of (read_codes run.now.first run.now.codes.now run.now.more))) → ⊥ }
        ensures { OnOk result (self.new ≡ with_runs self.old (runs_of (read_codes run.now.first run.now.codes.now run.now.more))) }
    {
        self.append_from(run.first, run.codes, run.sum.minus(run.more_sum))?;
        self.append_blocks(&run.more, run.more_sum, run.behind.left())
    }

    /// The codes from the first one on.
    pub fn cursor(&self) -> Cursor<'_>
        ensures normal { IsNormal (runs_of result) }
        ensures spells { spelled result ≡ self.now }
        ensures fits { max self.now.base (length self.now.image) ≤ LIMIT }
    {
        self.list.cursor()
    }

    /// The codes, in order. A look-up.
    #[inline(always)]
    pub(crate) fn as_slice(&self) -> &[Packed]
        ensures spells { spelled result.now ≡ self.now }
        ensures normal { IsNormal (runs_of result.now) }
    {
        self.list.as_slice()
    }

    /// How many elements they retain, delete and insert. A look-up.
    pub fn sum(&self) -> Sum
        ensures base { result.kept + result.deleted ≡ self.now.base }
        ensures target { result.kept + result.inserted ≡ length self.now.image }
        ensures inserted { result.inserted ≡ length (news self.now.image) }
        ensures operation { IsOperation self.now }
        ensures base_fits { result.kept + result.deleted ≤ LIMIT }
        ensures target_fits { result.kept + result.inserted ≤ LIMIT }
    {
        self.sum // kept beside the codes
    }

    /// The base length: how many elements the documents have that the operation takes. A look-up.
    pub fn base_len(&self) -> u32
        ensures value { result ≡ self.now.base }
        ensures small { result ≤ LIMIT }
    {
        let sum = self.sum();
        sum.kept + sum.deleted
    }

    /// The target length: how many elements the documents have that the operation makes. A look-up.
    pub fn target_len(&self) -> u32
        ensures value { result ≡ length self.now.image }
        ensures small { result ≤ LIMIT }
    {
        let sum = self.sum();
        sum.kept + sum.inserted
    }

    /// How many elements the operation inserts. A look-up.
    pub fn inserted(&self) -> u32
        ensures value { result ≡ length (news self.now.image) }
        ensures small { result ≤ LIMIT }
    {
        self.sum().inserted
    }

    /// How many codes there are. A look-up.
    pub fn count(&self) -> usize
        ensures value { result ≡ length (normal_runs self.now) }
        ensures small { result ≤ 2 * LIMIT }
    {
        self.list.count()
    }

    /// Equal codes. `AllocError` where a growth was refused.
    pub fn copy(&self) -> Result<Codes, AllocError>
        ensures { IfOk result (λ copy. copy ≡ self.now) }
    {
        let list = self.list.copy()?;
        Ok(Codes {
            list,
            sum: self.sum,
        })
    }
}

// A retain at the end, where it has elements.
#[inline(always)]
fn retain(codes: &mut Codes, count: u32) -> Result<(), AllocError>
    requires { IsTooLong (with_retain codes.old count) → ⊥ }
    ensures ok { OnOk result (codes.new ≡ with_retain codes.old count) }
    ensures err { OnErr result (codes.new ≡ codes.old) }
{
    if count == 0 || codes.put_behind(Code::Retain(count)) {
        return Ok(());
    }
    codes.put(Code::Retain(count))
}

/// What is written of codes, from left to right, always in normal form.
#[derive(Drop)]
pub struct Pen {
    written: Codes,
    // what is retained behind them: it is written with the next code of another kind
    kept: u32,
}

impl Model for Pen {
    ghost use Rattle.ot_operation.specs.Operation.{Operation};

    ghost Value = { Operation (Unit {0}) };

    ghost use Rattle.ot_operation.specs.Operation.{IsTooLong, with_retain};

    ghost view = { λ p. with_retain p.written p.kept };

    ghost invariant = { λ p. IsTooLong (with_retain p.written p.kept) → ⊥ };
}

impl Pen {
    /// Nothing is written. Takes no memory; later calls take theirs from `alloc`.
    pub fn new(alloc: Global) -> Pen
        ensures { result ≡ empty }
    {
        Pen {
            written: Codes::new(alloc),
            kept: 0,
        }
    }

    /// Writes one more code, as ot.js' builder adds a component: one of no elements adds nothing, a neighbour of its kind is lengthened, and an insertion
    /// stands before a deletion. `AllocError` where a growth was refused; nothing has changed then.
    #[inline(always)]
    pub fn put(&mut self, code: Code) -> Result<(), AllocError>
        requires { IsTooLong (appended self.old (run_of code)) → ⊥ }
        ensures ok { OnOk result (self.new ≡ appended self.old (run_of code)) }
        ensures err { OnErr result (self.new ≡ self.old) }
    {
        if let Code::Retain(count) = code {
            self.kept += count;
            return Ok(());
        }
        retain(&mut self.written, self.kept)?;
        self.kept = 0;
        if code.len() == 0 || self.written.put_behind(code) {
            return Ok(());
        }
        self.written.put(code)
    }

    /// Writes codes that were read at once and are in normal form. What joins with what is written is written code by code, and the others follow as they are.
    /// `AllocError` where a growth was refused.
    pub fn append(&mut self, run: &Run<'_>) -> Result<(), AllocError>
        requires read { IsRead run.now.first run.now.codes.now run.now.more run.now.sum run.now.more_sum }
        requires normal { IsNormal (runs_of (read_codes run.now.first run.now.codes.now run.now.more)) }
        requires short { IsTooLong (with_runs self.old (runs_of (read_codes run.now.first run.now.codes.now run.now.more))) → ⊥ }
        ensures { OnOk result (self.new ≡ with_runs self.old (runs_of (read_codes run.now.first run.now.codes.now run.now.more))) }
    {
        retain(&mut self.written, self.kept)?;
        self.kept = 0;
        let done = self.written.append_run(run);
        let _ = self.written.sum(); // also what is written where a growth was refused is within the limits
        done
    }

    /// What is written, as the codes of an operation. `AllocError` where a growth was refused.
    #[inline(always)]
    pub fn finish(mut self) -> Result<Codes, AllocError>
        ensures { IfOk result (λ codes. codes ≡ self) }
    {
        retain(&mut self.written, self.kept)?;
        Ok(self.written)
    }
}

//! Two operations on one document, each after the other.

ghost use Rattle.std.specs.Prelude.{◌≡◌, ◌+◌, ◌≤◌, length, IfOk, IsTrue, OnOk};
ghost use Rattle.ot_operation.specs.Operation.{IsTooLong, empty, news};
ghost use Rattle.ot_operation.specs.Run.{IsNormal};
ghost use Rattle.ot_operation.specs.Steps.{with_runs};
ghost use Rattle.ot_operation.specs.declared.TheConstants.{LIMIT};
ghost use Rattle.ot_operation.specs.Merge.{first_after, second_after};
ghost use Rattle.ot_operation.specs.Steps.{appended, transformed_part};
ghost use Rattle.ot_codes.specs.Codes.{keeps, run_of, runs_of, spelled};
ghost use Rattle.ot_codes.specs.Runs.{IsRead, read_codes};

use crate::code::{Code, Sum};
use crate::codes::{Codes, Pen};
use crate::cursor::{Measure, Run};
use crate::packed::Packed;
use crate::reader::Reader;
use std::alloc::{AllocError, Global};

// How many codes an operation has at most of which none are read at once.
pub(crate) const SHORT: usize = 16;

/// What `a` becomes after `b`, and what `b` becomes after `a` (`transform` of ot.js' `TextOperation`), in codes: what the first inserts is what `a` inserts, and
/// what the second inserts is what `b` does (`laws::transform_fills`).
///
/// Both take one document. The base and all insertions together are at most 1,000,000 elements, so that neither result is too long. Where both insert at one
/// place, the elements of `a` come first. What both delete is deleted by neither result.
///
/// `Err` comes only where memory was refused; `a` and `b` are only read.
pub fn transform(alloc: Global, a: &Codes, b: &Codes) -> Result<(Codes, Codes), AllocError>
    requires same_base { a.now.base ≡ b.now.base }
    requires fits { a.now.base + length (news a.now.image) + length (news b.now.image) ≤ LIMIT }
    ensures { IfOk result (λ pair. pair ≡ (first_after a.now b.now, second_after a.now b.now)) }
{
    let mut first = Pen::new(alloc);
    let mut second = Pen::new(alloc);
    transform_as(a, b, true, &mut first, &mut second)?;
    Ok((first.finish()?, second.finish()?))
}

/// The first result of [`transform`] alone, under its conditions: the second is not written.
pub fn transform_first(alloc: Global, a: &Codes, b: &Codes) -> Result<Codes, AllocError>
    requires same_base { a.now.base ≡ b.now.base }
    requires fits { a.now.base + length (news a.now.image) + length (news b.now.image) ≤ LIMIT }
    ensures { IfOk result (λ first. first ≡ first_after a.now b.now) }
{
    let mut first = Pen::new(alloc);
    let mut unwritten = Pen::new(alloc);
    transform_as(a, b, false, &mut first, &mut unwritten)?;
    first.finish()
}

// Writes both results; the second only where it is wanted.
#[inline(always)]
fn transform_as(
    a: &Codes,
    b: &Codes,
    wanted: bool,
    first: &mut Pen,
    second: &mut Pen,
) -> Result<(), AllocError>
    requires same_base { a.now.base ≡ b.now.base }
    requires fits { a.now.base + length (news a.now.image) + length (news b.now.image) ≤ LIMIT }
    requires first_begins { first.old ≡ empty }
    requires second_begins { second.old ≡ empty }
    ensures first { OnOk result (first.new ≡ first_after a.now b.now) }
    ensures second { IsTrue wanted → OnOk result (second.new ≡ second_after a.now b.now) }
{
    let codes_a = a.as_slice();
    let codes_b = b.as_slice();
    if codes_a.len() <= SHORT && codes_b.len() <= SHORT {
        return transform_short(codes_a, codes_b, wanted, first, second);
    }
    transform_long(a, b, wanted, first, second)
}

// The same of two short operations, code by code.
#[inline(always)]
fn transform_short(
    a: &[Packed],
    b: &[Packed],
    wanted: bool,
    first: &mut Pen,
    second: &mut Pen,
) -> Result<(), AllocError>
    requires a_normal { IsNormal (runs_of a.now) }
    requires b_normal { IsNormal (runs_of b.now) }
    requires same_base { (spelled a.now).base ≡ (spelled b.now).base }
    requires fits { (spelled a.now).base + length (news (spelled a.now).image) + length (news (spelled b.now).image) ≤ LIMIT }
    requires first_begins { first.old ≡ empty }
    requires second_begins { second.old ≡ empty }
    ensures first { OnOk result (first.new ≡ first_after (spelled a.now) (spelled b.now)) }
    ensures second { IsTrue wanted → OnOk result (second.new ≡ second_after (spelled a.now) (spelled b.now)) }
{
    let mut at_a = Reader::new(a);
    let mut at_b = Reader::new(b);
    'parts: loop {
        let ours = at_a.head();
        if let Code::Insert(count) = ours {
            first.put(Code::Insert(count))?;
            put_if(wanted, second, Code::Retain(count))?;
            at_a.next();
            continue 'parts;
        }
        let theirs = at_b.head();
        if let Code::Insert(count) = theirs {
            first.put(Code::Retain(count))?;
            put_if(wanted, second, Code::Insert(count))?;
            at_b.next();
            continue 'parts;
        }
        let count = ours.len().min(theirs.len());
        if count == 0 {
            return Ok(());
        }
        put_part(true, first, ours, theirs, count)?;
        put_part(wanted, second, theirs, ours, count)?;
        at_a.take(count);
        at_b.take(count);
    }
}

// The same of operations of which one at least is long: where codes of it lie in a retain of the other, many at once.
#[inline(never)]
fn transform_long(
    a: &Codes,
    b: &Codes,
    wanted: bool,
    first: &mut Pen,
    second: &mut Pen,
) -> Result<(), AllocError>
    requires same_base { a.now.base ≡ b.now.base }
    requires fits { a.now.base + length (news a.now.image) + length (news b.now.image) ≤ LIMIT }
    requires first_begins { first.old ≡ empty }
    requires second_begins { second.old ≡ empty }
    ensures first { OnOk result (first.new ≡ first_after a.now b.now) }
    ensures second { IsTrue wanted → OnOk result (second.new ≡ second_after a.now b.now) }
{
    let mut at_a = a.cursor();
    let mut at_b = b.cursor();
    let long_a = a.count() > SHORT;
    let long_b = b.count() > SHORT;
    'parts: loop {
        if long_a {
            if let Some(count) = at_b.retain() {
                if let Some(run) = at_a.run(count, Measure::Taken) {
                    first.append(&run)?;
                    put_if(
                        wanted,
                        second,
                        Code::Retain(run.sum.kept + run.sum.inserted),
                    )?;
                    at_b.pass(run.sum.kept + run.sum.deleted);
                    at_a = run.behind;
                    continue 'parts;
                }
            }
        }
        // one element fewer: an insertion of `a` behind what it retains comes before one of `b` there
        if long_b {
            if let Some(count) = at_a.retain() {
                if let Some(run) = at_b.run(count - 1, Measure::Taken) {
                    append_if(wanted, second, &run)?;
                    first.put(Code::Retain(run.sum.kept + run.sum.inserted))?;
                    at_a.pass(run.sum.kept + run.sum.deleted);
                    at_b = run.behind;
                    continue 'parts;
                }
            }
        }
        if let Some(count) = at_a.insertion() {
            first.put(Code::Insert(count))?;
            put_if(wanted, second, Code::Retain(count))?;
            at_a.next();
            continue 'parts;
        }
        if let Some(count) = at_b.insertion() {
            first.put(Code::Retain(count))?;
            put_if(wanted, second, Code::Insert(count))?;
            at_b.next();
            continue 'parts;
        }
        let Some(ours) = at_a.head() else {
            return Ok(());
        };
        let Some(theirs) = at_b.head() else {
            return Ok(());
        };
        let count = ours.len().min(theirs.len());
        put_part(true, first, ours, theirs, count)?;
        put_part(wanted, second, theirs, ours, count)?;
        at_a.take(count);
        at_b.take(count);
    }
}

// One more code, where it is wanted.
#[inline(always)]
fn put_if(wanted: bool, pen: &mut Pen, code: Code) -> Result<(), AllocError>
    requires { IsTrue wanted → IsTooLong (appended pen.old (run_of code)) → ⊥ }
    ensures { IsTrue wanted → OnOk result (pen.new ≡ appended pen.old (run_of code)) }
{
    if !wanted {
        return Ok(());
    }
    pen.put(code)
}

// Codes in normal form as they are, where they are wanted.
fn append_if(wanted: bool, pen: &mut Pen, run: &Run<'_>) -> Result<(), AllocError>
    requires read { IsRead run.now.first run.now.codes.now run.now.more run.now.sum run.now.more_sum }
    requires normal { IsNormal (runs_of (read_codes run.now.first run.now.codes.now run.now.more)) }
    requires short { IsTrue wanted → IsTooLong (with_runs pen.old (runs_of (read_codes run.now.first run.now.codes.now run.now.more))) → ⊥ }
    ensures { IsTrue wanted → OnOk result (pen.new ≡ with_runs pen.old (runs_of (read_codes run.now.first run.now.codes.now run.now.more))) }
{
    if !wanted {
        return Ok(());
    }
    pen.append(run)
}

// `count` elements of the document, which one operation treats as `code` says and the other as `other`, as the first treats them after the other, where that is wanted.
#[inline(always)]
fn put_part(
    wanted: bool,
    pen: &mut Pen,
    code: Code,
    other: Code,
    count: u32,
) -> Result<(), AllocError>
    requires { IsTrue wanted → IsTooLong (transformed_part pen.old (keeps code) (keeps other) count) → ⊥ }
    ensures { IsTrue wanted → OnOk result (pen.new ≡ transformed_part pen.old (keeps code) (keeps other) count) }
{
    if !wanted {
        Ok(())
    } else if !other.keeps() {
        Ok(())
    } else if code.keeps() {
        pen.put(Code::Retain(count))
    } else {
        pen.put(Code::Delete(count))
    }
}

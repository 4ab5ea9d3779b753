//! Writing codes: each call adds one at the end, in normal form.

ghost use Rattle.std.specs.Prelude.{◌≡◌, ◌+◌, ◌<◌, ◌≤◌, ◌^◌, IsTrue, OnOk, OnErr};
ghost use Rattle.ot_operation.specs.Operation.{with_insert};
ghost use Rattle.ot_operation.specs.Run.{IsNormal, Extends};
ghost use Rattle.ot_operation.specs.Steps.{appended};
ghost use Rattle.ot_codes.specs.Codes.{EndsWithDelete, MayEndWith, MayGoBefore, blanks, length_of, run_of, runs_of, sum_of, total_of};

use crate::code::{Code, Sum};
use crate::code_list::CodeList;
use crate::packed::Packed;
use std::alloc::AllocError;

/// Adds a code to others that come to `total`: a neighbour of its kind is lengthened, and an insertion stands before a deletion.
pub(crate) fn add(codes: &mut CodeList, code: Code, total: Sum) -> Result<(), AllocError>
    requires filled { 0 < length_of code }
    requires total { total ≡ sum_of codes.old }
    requires normal { IsNormal (runs_of codes.old) }
    requires short { total_of codes.old + length_of code < 2 ^ 26 }
    ensures ok { OnOk result (Extends (runs_of codes.old) (runs_of codes.new) (λ op. appended op (run_of code))) }
    ensures err { OnErr result (codes.new ≡ codes.old) }
{
    let packed = Packed::new(code);
    let Some(last) = codes.last() else {
        return codes.push(packed, total);
    };
    if let Some(both) = last.joined(packed) {
        codes.set_last(both);
        return Ok(());
    }
    if packed.stands_before(last) {
        return insert_before_delete(codes, last.code(), code.len(), total);
    }
    codes.push(packed, total)
}

// The insertion stands before the deletion at the end.
#[inline(never)]
fn insert_before_delete(
    codes: &mut CodeList,
    last: Code,
    count: u32,
    total: Sum,
) -> Result<(), AllocError>
    requires filled { 0 < count }
    requires total { total ≡ sum_of codes.old }
    requires normal { IsNormal (runs_of codes.old) }
    requires short { total_of codes.old + count < 2 ^ 26 }
    requires at_delete { EndsWithDelete codes.old last }
    ensures ok { OnOk result (Extends (runs_of codes.old) (runs_of codes.new) (λ op. with_insert op (blanks count))) }
    ensures err { OnErr result (codes.new ≡ codes.old) }
{
    match codes.last_but_one() {
        None => put_before(codes, last, count, total),
        Some(before) => match before.code() {
            Code::Insert(length) => {
                codes.set_last_but_one(Packed::new(Code::Insert(length + count)));
                Ok(())
            }
            _ => put_before(codes, last, count, total),
        },
    }
}

// The insertion stands between the deletion at the end and what is before it.
fn put_before(codes: &mut CodeList, last: Code, count: u32, total: Sum) -> Result<(), AllocError>
    requires filled { 0 < count }
    requires total { total ≡ sum_of codes.old }
    requires normal { IsNormal (runs_of codes.old) }
    requires short { total_of codes.old + count < 2 ^ 26 }
    requires at_delete { EndsWithDelete codes.old last }
    requires may { MayGoBefore codes.old count }
    ensures ok { OnOk result (Extends (runs_of codes.old) (runs_of codes.new) (λ op. with_insert op (blanks count))) }
    ensures err { OnErr result (codes.new ≡ codes.old) }
{
    codes.push(Packed::new(last), total)?;
    codes.set_last_but_one(Packed::new(Code::Insert(count)));
    Ok(())
}

/// May that code stand directly behind these?
pub(crate) fn may_end_with(codes: &[Packed], code: Code) -> bool
    ensures { IsTrue result → MayEndWith codes.now code }
{
    match codes {
        [.., last] => last.code().precedes(code),
        [] => true,
    }
}

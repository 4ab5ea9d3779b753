//! Two operations, one after the other, as one.

ghost use Rattle.std.specs.Prelude.{◌≡◌, ◌+◌, ◌≤◌, length, IfOk, OnOk, Bool};
ghost use Rattle.ot_operation.specs.Operation.{IsTooLong};
ghost use Rattle.ot_operation.specs.declared.TheConstants.{LIMIT};
ghost use Rattle.ot_operation.specs.Compose.{compose as composition};
ghost use Rattle.ot_codes.specs.Codes.{length_of};
ghost use Rattle.ot_codes.specs.Cuts.{AreWithin, GiveText};
ghost use Rattle.ot_codes.specs.Splice.{SplicesCode, composed_code, inserts};

use crate::code::Code;
use crate::codes::{Codes, Pen};
use crate::cursor::Measure;
use crate::cut::{Cut, Splice};
use crate::transformation::SHORT;
use std::alloc::{AllocError, Global};

/// A composition: its codes, and the cuts that make its text of the first operation's and the second's.
#[derive(Drop)]
pub struct Composed {
    pub codes: Codes,
    pub cuts: Vec<Cut>,
}

/// First `a`, then `b`, as one operation (`compose` of ot.js' `TextOperation`), in codes. `b` takes what `a` makes: `a.target_len() == b.base_len()`. What `a` inserts and
/// `b` deletes is gone from the result, and what either deletes of the document is deleted by it. Its text is that of `a` with cuts (`laws::cuts_give_text`).
///
/// `Err` comes only where memory was refused; `a` and `b` are only read.
pub fn compose(alloc: Global, a: &Codes, b: &Codes) -> Result<Composed, AllocError>
    requires { length a.now.image ≡ b.now.base }
    ensures codes { IfOk result (λ composed. composed.codes ≡ composition a.now b.now) }
    ensures cuts { IfOk result (λ composed. GiveText composed.cuts.items a.now b.now) }
{
    let mut at_a = a.cursor();
    let mut at_b = b.cursor();
    let mut pen = Pen::new(alloc);
    let mut splice = Splice::new(alloc);
    let long = a.count() > SHORT;
    'parts: loop {
        if long {
            if let Some(count) = at_b.retain() {
                if let Some(run) = at_a.run(count, Measure::Made) {
                    pen.append(&run)?;
                    splice.keep(run.sum.inserted);
                    at_b.pass(run.sum.kept + run.sum.inserted);
                    at_a = run.behind;
                    continue 'parts;
                }
            }
        }
        if let Some(count) = at_a.deletion() {
            pen.put(Code::Delete(count))?;
            at_a.next();
            continue 'parts;
        }
        if let Some(count) = at_b.insertion() {
            pen.put(Code::Insert(count))?;
            splice.insert(count)?;
            at_b.next();
            continue 'parts;
        }
        let Some(ours) = at_a.head() else {
            return Ok(Composed {
                codes: pen.finish()?,
                cuts: splice.cuts,
            });
        };
        let Some(theirs) = at_b.head() else {
            return Ok(Composed {
                codes: pen.finish()?,
                cuts: splice.cuts,
            });
        };
        let count = ours.len().min(theirs.len());
        put_part(&mut pen, &mut splice, ours, theirs.keeps(), count)?;
        at_a.take(count);
        at_b.take(count);
    }
}

// `count` elements that the first operation makes by `code`, and that the second keeps or deletes.
fn put_part(
    pen: &mut Pen,
    splice: &mut Splice,
    code: Code,
    keeps: bool,
    count: u32,
) -> Result<(), AllocError>
    requires short { IsTooLong (composed_code pen.old code keeps count) → ⊥ }
    requires within { AreWithin 0 splice.old.cuts.items splice.old.at splice.old.from }
    requires fits { splice.old.at + inserts code ≤ LIMIT }
    requires fits_second { splice.old.from ≤ LIMIT }
    requires some { count ≤ length_of code }
    ensures pen_is { OnOk result (pen.new ≡ composed_code pen.old code keeps count) }
    ensures splice_is { OnOk result (SplicesCode code keeps count splice.old splice.new) }
{
    match code {
        Code::Retain(_) if keeps => pen.put(Code::Retain(count)),
        Code::Retain(_) => pen.put(Code::Delete(count)),
        Code::Insert(_) if keeps => {
            splice.keep(count);
            pen.put(Code::Insert(count))
        }
        Code::Insert(_) => splice.delete(count),
        Code::Delete(_) => Ok(()),
    }
}

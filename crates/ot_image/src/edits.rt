//! Characters and operations, which take memory.

ghost use Rattle.std.specs.Prelude.{◌≡◌, ◌≤◌, ◌<◌, ◌⊎◌, ◌+◌, [], length, OnOk, IsOk, IsErrOf, IfOk, IfErr};
ghost use Rattle.ot_operation.specs.Operation.{empty};
ghost use Rattle.ot_image.specs.Reading.{Gives, times, push_scalar, push_component, filled_at, components_at, operation_at};
ghost use Rattle.ot_image.specs.Views.{seen};
ghost use Rattle.ot_operation.specs.declared.TheConstants.{LIMIT};

use crate::fault::{ImageFault, Kind, ReadError};
use crate::reading::{char_of, code_of, length_of, u32_at};
use crate::spot::Spot;
use ot_text::{OpRefusal, TextOp};
use std::alloc::Global;

/// So many characters. No room is reserved by the count: a growth follows each character that was read.
pub fn chars_of<'a>(
    alloc: Global,
    count: u32,
    spot: Spot<'a>,
) -> Result<(Vec<char>, Spot<'a>), ReadError>
    ensures read { Gives (λ x. (x.0.items, seen x.1)) result (times push_scalar count [] (seen spot.entry)) }
    ensures len { IfOk result (λ x. length x.0.items ≡ count) }
    ensures onward { IfOk result (λ x. spot.entry.at ≤ x.1.at) }
{
    let mut chars = Vec::new(alloc);
    let mut rest = spot;
    for _ in 0..count {
        let (scalar, after) = char_of(rest)?;
        if chars.push(scalar).is_err() {
            return Err(ReadError::Memory(rest.at));
        }
        rest = after;
    }
    Ok((chars, rest))
}

// A growth of the operation where no length is too long, for the field at `at`.
fn grown(answer: Result<(), OpRefusal>, at: usize) -> Result<(), ReadError>
    requires { IsErrOf answer OpRefusal.TooLong → ⊥ }
    ensures ok { OnOk result (IsOk answer) }
    ensures err { IfErr result (λ e. e ≡ ReadError.Memory at) }
{
    match answer {
        Ok(()) => Ok(()),
        Err(OpRefusal::Memory) => Err(ReadError::Memory(at)),
        Err(OpRefusal::TooLong) => unreachable!(),
    }
}

// The component of this kind and length, whose length stands at `at`.
#[tactic(auto, unfolding(crate::specs::Reading::filled_at))]
fn filled<'a>(
    alloc: Global,
    code: u8,
    count: u32,
    at: usize,
    op: &mut TextOp<char>,
    spot: Spot<'a>,
) -> Result<(u8, Spot<'a>), ReadError>
    requires base { (code ≡ 17) ⊎ (op.old.base + count ≤ LIMIT) }
    requires target { (code ≡ 18) ⊎ (length op.old.image + count ≤ LIMIT) }
    requires place { at < spot.at }
    ensures { Gives (λ x. (record { last = x.0; op = op.new }, seen x.1)) result (filled_at code count op.old (seen spot.entry)) }
{
    // For the proof: the invariant of every operation.
    let _base = op.base_len();
    let _target = op.target_len();
    if code == 16 {
        grown(op.retain(count as usize), at)?;
        return Ok((16, spot));
    }
    if code == 18 {
        grown(op.delete(count as usize), at)?;
        return Ok((18, spot));
    }
    let (text, after) = chars_of(alloc, count, spot)?;
    grown(op.insert(text.as_slice()), at)?;
    Ok((17, after))
}

// One more component of the operation, after one of the kind `last`, 0 for none; gives its kind.
#[tactic(auto, unfolding(crate::specs::Reading::push_component))]
fn component_of<'a>(
    alloc: Global,
    last: u8,
    op: &mut TextOp<char>,
    spot: Spot<'a>,
) -> Result<(u8, Spot<'a>), ReadError>
    ensures { Gives (λ x. (record { last = x.0; op = op.new }, seen x.1)) result (push_component (record { last = last; op = op.old }) (seen spot.entry)) }
{
    let (code, spot) = code_of(last, spot)?;
    let (count, after) = length_of(code, op, spot)?;
    filled(alloc, code, count, spot.at, op, after)
}

fn components_of<'a>(
    alloc: Global,
    count: u32,
    spot: Spot<'a>,
) -> Result<(TextOp<char>, Spot<'a>), ReadError>
    ensures { Gives (λ x. (x.0, seen x.1)) result (components_at count (seen spot.entry)) }
{
    let mut op = TextOp::new(alloc);
    let mut last = 0;
    let mut rest = spot;
    for _ in 0..count {
        let (code, after) = component_of(alloc, last, &mut op, rest)?;
        last = code;
        rest = after;
    }
    Ok((op, rest))
}

/// An operation: the count of its components, and these.
#[tactic(auto, unfolding(crate::specs::Reading::operation_at))]
pub fn operation_of<'a>(
    alloc: Global,
    spot: Spot<'a>,
) -> Result<(TextOp<char>, Spot<'a>), ReadError>
    ensures { Gives (λ x. (x.0, seen x.1)) result (operation_at (seen spot.entry)) }
{
    let (count, spot) = u32_at(spot)?;
    components_of(alloc, count, spot)
}

//! The first field that is refused of characters, components and operations, which are read and forgotten.

ghost use Rattle.std.specs.Prelude.{◌≡◌, ◌≤◌, ◌+◌, ◌⊎◌, IfOk};
ghost use Rattle.ot_operation.specs.declared.TheConstants.{LIMIT};
ghost use Rattle.ot_image.specs.Layout.{base_after, target_after};
ghost use Rattle.ot_image.specs.Fields.{characters, component, components, inserted, longer, no_shape, operation};
ghost use Rattle.ot_image.specs.Reads.{IsWithin, Passes, Reads, seen};

use crate::named_fields::{char_of, kind_of, length_of};
use crate::named_numbers::u32_at;
use crate::refusal::{Place, Refusal, Text};
use crate::shape::Shape;
use crate::spot::Spot;

/// So many characters of a text.
pub fn characters_of<'a>(text: Text, count: u32, spot: Spot<'a>) -> Result<Spot<'a>, Refusal>
    ensures { Passes (λ t. seen t) (characters text 0 count) (seen spot.entry) result }
{
    let mut rest = spot;
    for k in 0..count {
        rest = char_of(Place::Character(text, k), rest)?.1;
    }
    Ok(rest)
}

// The characters of an insertion; a retain and a deletion have none.
fn inserted_of<'a>(
    instr: u32,
    k: u32,
    code: u8,
    count: u32,
    spot: Spot<'a>,
) -> Result<Spot<'a>, Refusal>
    ensures { Passes (λ t. seen t) (inserted instr k code count) (seen spot.entry) result }
{
    if code == 17 {
        return characters_of(Text::Insertion(instr, k), count, spot);
    }
    Ok(spot)
}

// The base length with so long a component of this kind more.
fn base_after(code: u8, base: usize, count: usize) -> usize
    requires base { base ≤ LIMIT }
    requires more { (code ≡ 17) ⊎ (base + count ≤ LIMIT) }
    ensures value { result ≡ base_after code base count }
    ensures limit { result ≤ LIMIT }
{
    if code == 17 { base } else { base + count }
}

// The target length with it.
fn target_after(code: u8, target: usize, count: usize) -> usize
    requires target { target ≤ LIMIT }
    requires more { (code ≡ 18) ⊎ (target + count ≤ LIMIT) }
    ensures value { result ≡ target_after code target count }
    ensures limit { result ≤ LIMIT }
{
    if code == 18 { target } else { target + count }
}

// The shape with it.
fn longer(code: u8, shape: &Shape, count: u32) -> Shape
    requires within { IsWithin shape.now }
    requires base { (code ≡ 17) ⊎ (shape.now.base + count ≤ LIMIT) }
    requires target { (code ≡ 18) ⊎ (shape.now.target + count ≤ LIMIT) }
    ensures value { result ≡ longer code shape.now count }
    ensures within { IsWithin result }
{
    let base = base_after(code, shape.base, count as usize);
    let target = target_after(code, shape.target, count as usize);
    Shape {
        last: code,
        base,
        target,
    }
}

// Component `k` of an instruction's operation, behind components of this shape; gives the shape with it.
fn component_of<'a>(
    instr: u32,
    k: u32,
    shape: &Shape,
    spot: Spot<'a>,
) -> Result<(Shape, Spot<'a>), Refusal>
    requires { IsWithin shape.now }
    ensures read { Reads (λ x. (x.0, seen x.1)) (component instr k shape.now) (seen spot.entry) result }
    ensures within { IfOk result (λ x. IsWithin x.0) }
{
    let (code, length) = kind_of(shape.last, Place::ComponentKind(instr, k), spot)?;
    let (count, text) = length_of(code, shape, Place::ComponentLength(instr, k), length)?;
    let more = longer(code, shape, count);
    let after = inserted_of(instr, k, code, count, text)?;
    Ok((more, after))
}

// So many components of an instruction's operation.
fn components_of<'a>(instr: u32, count: u32, spot: Spot<'a>) -> Result<Spot<'a>, Refusal>
    ensures { Passes (λ t. seen t) (components instr 0 count no_shape) (seen spot.entry) result }
{
    let mut shape = Shape {
        last: 0,
        base: 0,
        target: 0,
    };
    let mut rest = spot;
    for k in 0..count {
        let (more, after) = component_of(instr, k, &shape, rest)?;
        shape = more;
        rest = after;
    }
    Ok(rest)
}

/// The operation of an instruction: the count of its components, and these.
pub fn operation_of<'a>(instr: u32, spot: Spot<'a>) -> Result<Spot<'a>, Refusal>
    ensures { Passes (λ t. seen t) (operation instr) (seen spot.entry) result }
{
    let (count, after) = u32_at(Place::ComponentCount(instr), spot)?;
    components_of(instr, count, after)
}

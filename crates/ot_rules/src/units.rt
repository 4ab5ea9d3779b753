//! Operations with lengths counted in UTF-16 units.

ghost use Rattle.std.specs.Prelude.{◌≡◌, ◌≤◌, length, take, IfOk};
ghost use Rattle.ot_text.specs.Components.{run_of};
ghost use Rattle.ot_operation.specs.Operation.{empty};
ghost use Rattle.ot_rules.specs.Units as units;
ghost use Rattle.ot_operation.specs.declared.TheConstants.{LIMIT};

use ot_text::{ComponentRef, Components, OpRefusal, TextOp};
use std::alloc::{AllocError, Global};

// How many UTF-16 units the characters have: two for each past U+FFFF.
fn count_units(text: &[char]) -> usize
    requires { length text.now ≤ LIMIT }
    ensures { result ≡ units.units text.now }
{
    text.len() + text.iter().filter(|ch| **ch > '\u{ffff}').count()
}

// The first characters of the text: so many, or all.
fn front(text: &[char], count: usize) -> &[char]
    ensures { result.now ≡ take count text.now }
{
    &text[..count.min(text.len())]
}

// The text behind what the component keeps or takes away.
fn behind<'a>(text: &'a [char], component: ComponentRef<'_, char>) -> &'a [char]
    ensures { result.now ≡ units.behind text.now (run_of component.entry) }
{
    match component {
        ComponentRef::Insert(_) => text,
        ComponentRef::Retain(count) | ComponentRef::Delete(count) => {
            &text[count.min(text.len())..]
        }
    }
}

// Adds a component, counted over the text from where it stands; false where a length would pass the limit.
fn add(
    built: &mut TextOp<char>,
    text: &[char],
    component: ComponentRef<'_, char>,
) -> Result<bool, AllocError>
    requires { length text.now ≤ LIMIT }
    ensures { IfOk result (λ added. units.IsAdded built.old text.now (run_of component.entry) built.new added) }
{
    let added = match component {
        ComponentRef::Retain(count) => built.retain(count_units(front(text, count))),
        ComponentRef::Insert(letters) => built.insert(letters),
        ComponentRef::Delete(count) => built.delete(count_units(front(text, count))),
    };
    match added {
        Ok(()) => Ok(true),
        Err(OpRefusal::TooLong) => Ok(false),
        Err(OpRefusal::Memory) => Err(AllocError),
    }
}

fn components_in_units(
    alloc: Global,
    components: Components<'_, char>,
    text: &[char],
) -> Result<Option<TextOp<char>>, AllocError>
    requires { length text.now ≤ LIMIT }
    ensures { IfOk result (λ op. op ≡ units.units_from empty text.now components.entry) }
{
    let mut built = TextOp::new(alloc);
    let mut rest = text;
    for component in components {
        if !add(&mut built, rest, component)? {
            return Ok(None);
        }
        rest = behind(rest, component);
    }
    Ok(Some(built))
}

/// The operation that counts in UTF-16 units what this one counts in characters, over the text that it applies to. None where it does not
/// apply to the text, or where a length would pass 1,000,000 units.
pub fn in_units(op: &TextOp<char>, text: &[char]) -> Result<Option<TextOp<char>>, AllocError>
    ensures { IfOk result (λ counted. counted ≡ units.in_units op.now text.now) }
{
    if op.base_len() != text.len() {
        return Ok(None);
    }
    components_in_units(op.allocator(), op.components(), text)
}

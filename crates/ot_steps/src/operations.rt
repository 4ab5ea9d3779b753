//! Operations as the text of their JSON arrays, component by component.

ghost use Rattle.std.specs.Prelude.{◌≡◌, ◌≤◌, ◌+◌, ◌∷◌, ◌++◌, decimal, length, take, IfNone, IfOk, IfSome, OnOk, string_bytes};
ghost use Rattle.std.specs.Char.{encode_utf8};
ghost use Rattle.std.specs.Str.{IsAscii};
ghost use Rattle.json.specs.Print.{quoted};
ghost use Rattle.ot_text.specs.Components.{run_of};
ghost use Rattle.ot_operation.specs.Run.{IsFilled, IsNormal};
ghost use Rattle.ot_steps.specs.Lettered.{array_text, item_text, items_from};

use itoa::Buffer;
use ot_text::{ComponentRef, Components, Element};
use ot_values::{Letter, ascii_text, push_letters};
use std::alloc::{AllocError, Global};

/// So many bytes of items are gathered before they are added to the text.
const GATHERED: usize = 256;

/// So many bytes a short item has at most, with its comma: `,"x"`.
const SHORT: usize = 4;

// The digit of a number below 10: most counts are one, and a character is added for less than a string.
fn digit_of(number: u64) -> Option<char>
    ensures { IfSome result (λ digit. encode_utf8 digit ≡ decimal number) }
{
    match number {
        0 => Some('0'),
        1 => Some('1'),
        2 => Some('2'),
        3 => Some('3'),
        4 => Some('4'),
        5 => Some('5'),
        6 => Some('6'),
        7 => Some('7'),
        8 => Some('8'),
        9 => Some('9'),
        _ => None,
    }
}

// All digits at once.
fn push_digits(text: &mut String, number: u64) -> Result<(), AllocError>
    ensures { OnOk result (string_bytes text.new ≡ string_bytes text.old ++ decimal number) }
{
    let mut digits = Buffer::new();
    text.push_str(digits.format(number))
}

/// Adds the number's decimal digits.
pub fn push_decimal(text: &mut String, number: u64) -> Result<(), AllocError>
    ensures { OnOk result (string_bytes text.new ≡ string_bytes text.old ++ decimal number) }
{
    match digit_of(number) {
        Some(digit) => text.push(digit),
        None => push_digits(text, number),
    }
}

// A component as an item of the array.
fn push_component<T: Element + Letter>(
    alloc: Global,
    text: &mut String,
    component: ComponentRef<'_, T>,
) -> Result<(), AllocError>
    requires { IsFilled (run_of component) }
    ensures { OnOk result (string_bytes text.new ≡ string_bytes text.old ++ item_text T.code (run_of component.entry)) }
{
    match component {
        ComponentRef::Retain(count) => push_decimal(text, count as u64),
        ComponentRef::Insert(letters) => push_letters(alloc, text, letters),
        ComponentRef::Delete(count) => {
            text.push('-')?;
            push_decimal(text, count as u64)
        }
    }
}

// Puts the digits of a number of at most two behind the first `at` bytes. Answers where they end.
fn put_digits(number: usize, bytes: &mut [u8], at: usize) -> Option<usize>
    requires { at + 2 ≤ length bytes.old }
    ensures put { IfSome result (λ end. take end bytes.new ≡ take at bytes.old ++ decimal number) }
    ensures ascii { IsAscii (decimal number) }
    ensures short { IfSome result (λ end. end ≤ at + 2) }
    ensures not { IfNone result (bytes.new ≡ bytes.old) }
    ensures length { length bytes.new ≡ length bytes.old }
{
    if number < 10 {
        bytes[at] = b'0' + number as u8;
        return Some(at + 1);
    }
    if number < 100 {
        bytes[at] = b'0' + (number / 10) as u8;
        bytes[at + 1] = b'0' + (number % 10) as u8;
        return Some(at + 2);
    }
    None
}

// Puts the letter between quotes behind the first `at` bytes, if it is one byte that JSON writes as it is. Answers where it ends.
fn put_letter(letter: char, bytes: &mut [u8], at: usize) -> Option<usize>
    requires { at + 3 ≤ length bytes.old }
    ensures put { IfSome result (λ end. take end bytes.new ≡ take at bytes.old ++ quoted (encode_utf8 letter)) }
    ensures ascii { IfSome result (λ end. IsAscii (quoted (encode_utf8 letter))) }
    ensures short { IfSome result (λ end. end ≤ at + 3) }
    ensures not { IfNone result (bytes.new ≡ bytes.old) }
    ensures length { length bytes.new ≡ length bytes.old }
{
    if letter < ' ' || letter > '~' || letter == '"' || letter == '\\' {
        return None;
    }
    bytes[at] = b'"';
    bytes[at + 1] = letter as u8;
    bytes[at + 2] = b'"';
    Some(at + 3)
}

// Puts a comma and the component behind the first `at` bytes, if it is short: a count of at most two digits, or one letter of one byte that
// JSON writes as it is. Answers where it ends.
fn put_item<T: Element + Letter>(
    component: ComponentRef<'_, T>,
    bytes: &mut [u8],
    at: usize,
) -> Option<usize>
    requires filled { IsFilled (run_of component) }
    requires room { at + SHORT ≤ length bytes.old }
    ensures put { IfSome result (λ end. take end bytes.new ≡ take at bytes.old ++ 44 ∷ item_text T.code (run_of component.entry)) }
    ensures ascii { IfSome result (λ end. IsAscii (item_text T.code (run_of component.entry))) }
    ensures short { IfSome result (λ end. end ≤ at + SHORT) }
    ensures not { IfNone result (take at bytes.new ≡ take at bytes.old) }
    ensures length { length bytes.new ≡ length bytes.old }
{
    bytes[at] = b',';
    match component {
        ComponentRef::Retain(count) => put_digits(count, bytes, at + 1),
        ComponentRef::Insert(letters) => {
            if letters.len() != 1 {
                return None;
            }
            put_letter(letters[0].letter(), bytes, at + 1)
        }
        ComponentRef::Delete(count) => {
            bytes[at + 1] = b'-';
            put_digits(count, bytes, at + 2)
        }
    }
}

// Adds what is gathered, if there is no room for one more item. Answers how many bytes are gathered then.
fn make_room(text: &mut String, bytes: &[u8], gathered: usize) -> Result<usize, AllocError>
    requires ascii { IsAscii (take gathered bytes.now) }
    requires within { gathered ≤ length bytes.now }
    requires size { length bytes.now ≡ GATHERED }
    ensures same { IfOk result (λ left. string_bytes text.new ++ take left bytes.now ≡ string_bytes text.old ++ take gathered bytes.now) }
    ensures ascii { IfOk result (λ left. IsAscii (take left bytes.now)) }
    ensures room { IfOk result (λ left. left + SHORT ≤ GATHERED) }
{
    if gathered + SHORT <= GATHERED {
        return Ok(gathered);
    }
    text.push_str(ascii_text(&bytes[..gathered]))?;
    Ok(0)
}

// Adds a comma and the component behind what is gathered: gathers them, or adds all to the text, if the component is not short. Answers how many
// bytes are gathered then.
fn push_item<T: Element + Letter>(
    alloc: Global,
    text: &mut String,
    component: ComponentRef<'_, T>,
    bytes: &mut [u8],
    gathered: usize,
) -> Result<usize, AllocError>
    requires filled { IsFilled (run_of component) }
    requires ascii { IsAscii (take gathered bytes.old) }
    requires room { gathered + SHORT ≤ length bytes.old }
    ensures item { IfOk result (λ end. string_bytes text.new ++ take end bytes.new ≡ (string_bytes text.old ++ take gathered bytes.old) ++ 44 ∷ item_text T.code (run_of component.entry)) }
    ensures ascii { IfOk result (λ end. IsAscii (take end bytes.new)) }
    ensures within { IfOk result (λ end. end ≤ length bytes.new) }
    ensures length { length bytes.new ≡ length bytes.old }
{
    if let Some(end) = put_item(component, bytes, gathered) {
        return Ok(end);
    }
    text.push_str(ascii_text(&bytes[..gathered]))?;
    text.push(',')?;
    push_component(alloc, text, component)?;
    Ok(0)
}

// Each component behind a comma, and the closing bracket.
fn push_later<T: Element + Letter>(
    alloc: Global,
    text: &mut String,
    components: Components<'_, T>,
) -> Result<(), AllocError>
    requires { IsNormal components }
    ensures { OnOk result (string_bytes text.new ≡ string_bytes text.old ++ items_from T.code components.entry) }
{
    let mut bytes = [0u8; GATHERED];
    let mut gathered = 0;
    for component in components {
        let room = make_room(text, &bytes[..], gathered)?;
        gathered = push_item(alloc, text, component, &mut bytes[..], room)?;
    }
    text.push_str(ascii_text(&bytes[..gathered]))?;
    text.push(']')
}

/// The compact array of components in normal form.
pub(crate) fn push_components<T: Element + Letter>(
    alloc: Global,
    text: &mut String,
    components: Components<'_, T>,
) -> Result<(), AllocError>
    requires { IsNormal components }
    ensures { OnOk result (string_bytes text.new ≡ string_bytes text.old ++ array_text T.code components.entry) }
{
    let mut left = components;
    text.push('[')?;
    let Some(first) = left.next() else {
        return text.push(']');
    };
    push_component(alloc, text, first)?;
    push_later(alloc, text, left)
}

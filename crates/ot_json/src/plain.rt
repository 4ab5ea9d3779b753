//! Operations of plain texts, which are read in one pass over the bytes.
//!
//! ```text
//! [3, "ab",-1]     an opening bracket; components, each behind spaces, with a comma between two; a closing bracket, and nothing behind it
//! ```
//!
//! A plain number is an integer without a leading 0, and a plain string has no escape.

ghost use Rattle.std.specs.Prelude.{◌≡◌, ◌≤◌, ◌<◌, ◌^◌, ◌++◌, ◌∷◌, ℕ, List, true, Ok, IfSome, IsUtf8, decimal, length, take};
ghost use Rattle.std.specs.Str.{is_utf8};
ghost use Rattle.json.specs.Print.{escape};
ghost use Rattle.json.specs.Spaced.{IsGap};
ghost use Rattle.serde_json.specs.Written.{compact_text};
ghost use Rattle.ot_json.specs.Reading.{operation_of_text};
ghost use Rattle.ot_json.specs.Writing.{data_of, HasForm};
ghost use Rattle.ot_json.specs.Parts.{run_of_part};

use crate::building::add_part;
use crate::part::Part;
use ot_text::{LIMIT, TextOp};
use std::alloc::Global;

/// The bytes without the spaces in front.
fn skip_spaces(bytes: &[u8]) -> &[u8]
    ensures { (gap : List ℕ) × IsGap gap × (bytes.now ≡ gap ++ result.now) }
{
    let mut rest = bytes;
    while let Some((byte, below)) = rest.split_first() {
        if *byte != b' ' {
            return rest;
        }
        rest = below;
    }
    rest
}

/// The number above 0 that bytes begin with, and what follows it. A number above 1,000,000 may be cut between two digits.
fn plain_count(bytes: &[u8]) -> Option<(usize, &[u8])>
    ensures text { IfSome result (λ p. bytes.now ≡ decimal p.0 ++ p.1.now) }
    ensures counted { IfSome result (λ p. (0 < p.0) × (p.0 < 2 ^ 32)) }
{
    let Some((first, mut rest)) = bytes.split_first() else {
        return None;
    };
    if *first < b'1' || b'9' < *first {
        return None;
    }
    let mut count = (*first - b'0') as usize;
    while let Some((byte, below)) = rest.split_first() {
        if !byte.is_ascii_digit() || count > LIMIT {
            break;
        }
        count = count * 10 + (*byte - b'0') as usize;
        rest = below;
    }
    Some((count, rest))
}

/// How many bytes at the front stand for themselves in a string.
fn plain_length(bytes: &[u8]) -> usize
    ensures within { result ≤ length bytes.now }
    ensures plain { escape (take result bytes.now) ≡ take result bytes.now }
{
    let mut at = 0;
    while at < bytes.len() {
        let byte = bytes[at];
        if byte < b' ' || byte == b'"' || byte == b'\\' {
            return at;
        }
        at += 1;
    }
    at
}

/// The text before the quote that ends a plain string, and what follows the quote.
fn plain_string(bytes: &[u8]) -> Option<(&str, &[u8])>
    ensures text { IfSome result (λ p. bytes.now ≡ escape p.0.now ++ (34 ∷ p.1.now)) }
    ensures utf8 { IfSome result (λ p. IsUtf8 p.0.now) }
{
    let (text, rest) = bytes.split_at(plain_length(bytes));
    let Some((quote, behind)) = rest.split_first() else {
        return None;
    };
    if *quote != b'"' {
        return None;
    }
    match str::from_utf8(text) {
        Ok(text) => Some((text, behind)),
        Err(_) => None,
    }
}

/// The plain component that bytes begin with, and what follows it.
fn plain_part(bytes: &[u8]) -> Option<(Part<'_>, &[u8])>
    ensures text { IfSome result (λ p. bytes.now ≡ compact_text (data_of (run_of_part p.0)) ++ p.1.now) }
    ensures form { IfSome result (λ p. HasForm (run_of_part p.0)) }
{
    let Some((first, below)) = bytes.split_first() else {
        return None;
    };
    match *first {
        b'"' => match plain_string(below) {
            Some((text, behind)) => Some((Part::Insert(text), behind)),
            None => None,
        },
        b'-' => match plain_count(below) {
            Some((count, behind)) => Some((Part::Delete(count), behind)),
            None => None,
        },
        _ => match plain_count(bytes) {
            Some((count, behind)) => Some((Part::Retain(count), behind)),
            None => None,
        },
    }
}

/// The operation that bytes are, where they are a plain one. It takes no memory but the operation's own. `None` says nothing of the
/// bytes: `read_op` reads them then, and reports their fault.
pub fn read_plain(alloc: Global, bytes: &[u8]) -> Option<TextOp<char>>
    ensures operation { IfSome result (λ op. operation_of_text bytes.now ≡ Ok op) }
    ensures utf8 { IfSome result (λ op. is_utf8 bytes.now ≡ true) }
{
    let Some((bracket, mut rest)) = bytes.split_first() else {
        return None;
    };
    if *bracket != b'[' {
        return None;
    }
    let mut op = TextOp::new(alloc);
    loop {
        let Some((part, behind)) = plain_part(skip_spaces(rest)) else {
            return None;
        };
        if add_part(alloc, &mut op, &part).is_err() {
            return None;
        }
        let Some((next, below)) = behind.split_first() else {
            return None;
        };
        if *next == b']' && below.is_empty() {
            return Some(op);
        }
        if *next != b',' {
            return None;
        }
        rest = below;
    }
}

//! Where a client's number ends in a text.

ghost use Rattle.std.specs.Prelude.{◌≡◌, ◌++◌, ℕ, List, None, true, IfSome};
ghost use Rattle.ot_asm.specs.Named.{named};
ghost use Rattle.ot_asm.specs.Passed.{PassesOver, SplitsAtNumber, ended_number, goes_on, has_neither, is_outside, last_place};

use crate::place::{Place, is_of_word, next};
use memchr::memchr2;

// Cuts a text before the first of two bytes, or at its end.
fn cut_before(first: u8, second: u8, text: &[u8]) -> (&[u8], &[u8])
    ensures whole { text.now ≡ result.0.now ++ result.1.now }
    ensures neither { has_neither first second result.0.now ≡ true }
{
    match memchr2(first, second, text) {
        Some(at) => text.split_at(at),
        None => text.split_at(text.len()),
    }
}

// The place behind bytes outside of a string, of which none is `"` or `c`.
fn last_place(place: Place, bytes: &[u8]) -> Place
    ensures { result ≡ last_place place bytes.now }
{
    match bytes.last() {
        Some(byte) => {
            if is_of_word(*byte) {
                Place::Word
            } else {
                Place::Apart
            }
        }
        None => place,
    }
}

// Apart from words: passes over `client` and one blank, if they stand there.
fn pass_client(text: &[u8]) -> (Place, &[u8])
    ensures { PassesOver Place.Apart text.now result.0 result.1.now }
{
    let (front, rest) = text.split_at(text.len().min(7));
    if front == b"client ".as_slice() {
        (Place::Behind, rest)
    } else {
        (Place::Apart, text)
    }
}

// Outside of a string and of `client N`: passes over the bytes before the next `"` or `c`, and over `client` there.
fn pass_outside(place: Place, text: &[u8]) -> (Place, &[u8])
    requires { is_outside place ≡ true }
    ensures { PassesOver place text.now result.0 result.1.now }
{
    let (bytes, rest) = cut_before(b'"', b'c', text);
    match last_place(place, bytes) {
        Place::Apart => pass_client(rest),
        last => (last, rest),
    }
}

// In a string: passes over the bytes before the next `"` or `\`.
fn pass_inside(text: &[u8]) -> &[u8]
    ensures { PassesOver Place.Inside text.now Place.Inside result.now }
{
    let (_, rest) = cut_before(b'"', b'\\', text);
    rest
}

fn is_outside(place: Place) -> bool
    ensures { result ≡ is_outside place }
{
    match place {
        Place::Apart | Place::Word => true,
        _ => false,
    }
}

// Passes over bytes that neither begin nor end anything: most of a text.
fn pass_over(place: Place, text: &[u8]) -> (Place, &[u8])
    ensures { PassesOver place text.now result.0 result.1.now }
{
    if is_outside(place) {
        return pass_outside(place, text);
    }
    match place {
        Place::Inside => (Place::Inside, pass_inside(text)),
        _ => (place, text),
    }
}

// Whether a text goes on with a byte of a word.
fn goes_on(text: &[u8]) -> bool
    ensures { result ≡ goes_on text.now }
{
    match text.split_first() {
        Some((byte, _)) => is_of_word(*byte),
        None => false,
    }
}

// The client whose number ends where the rest of a text begins.
fn ended_number(place: Place, rest: &[u8]) -> Option<u32>
    ensures { result ≡ ended_number place rest.now }
{
    match place {
        Place::Number(client) => { if goes_on(rest) { None } else { Some(client) } }
        _ => None,
    }
}

/// A text at the end of the first client's number in it: what stands before, the client, and what stands behind.
pub(crate) fn split_at_number(text: &[u8]) -> Option<(&[u8], u32, &[u8])>
    ensures some { IfSome result (λ p. SplitsAtNumber text.now p.0.now p.1 p.2.now) }
    ensures none { result ≡ None → (names : List (List ℕ)) → named names text.now ≡ text.now }
{
    let mut place = Place::Apart;
    let mut rest = text;
    loop {
        let (after, behind) = pass_over(place, rest);
        if let Some(client) = ended_number(after, behind) {
            let (front, _) = text.split_at(text.len() - behind.len());
            return Some((front, client, behind));
        }
        let Some((byte, below)) = behind.split_first() else {
            return None;
        };
        place = next(after, *byte);
        rest = below;
    }
}

//! Letters as the text of a JSON string.

ghost use Rattle.std.specs.Prelude.{◌≡◌, ◌++◌, ◌<◌, ◌≤◌, ℕ, map, length, take, true, false, IfOk, OnOk, string_bytes};
ghost use Rattle.std.specs.Bool.{OnTrue};
ghost use Rattle.std.specs.Str.{encode_utf8_all, IsAscii};
ghost use Rattle.json.specs.Print.{escape, quoted};
ghost use Rattle.ot_values.specs.Values.{text_of};
ghost use Rattle.ot_values.specs.Values.{Continues};

use crate::bytes::ascii_text;
use ot_isa::Tagged;
use ot_text::{Doc, Element, Pieces};
use serde_json::Value;
use std::alloc::{AllocError, Global};

/// So many letters a piece of a document has at most.
const PIECE: usize = 512;

/// What is printed as a character.
pub trait Letter {
    ghost code: { Self → ℕ };

    fn letter(&self) -> char
        ensures { result ≡ code self.now };
}

impl Letter for char {
    ghost code = { λ c. c };

    fn letter(&self) -> char {
        *self
    }
}

impl Letter for Tagged {
    ghost code = { λ x. x.ch };

    fn letter(&self) -> char {
        self.ch
    }
}

// Whether JSON writes the letters as they are.
fn are_plain<T: Letter>(letters: &[T]) -> bool
    ensures { OnTrue result (escape (encode_utf8_all (map T.code letters.now)) ≡ encode_utf8_all (map T.code letters.now)) }
{
    for item in letters {
        let letter = item.letter();
        if letter < ' ' || letter == '"' || letter == '\\' {
            return false;
        }
    }
    true
}

// The letters as they are.
fn push_plain<T: Letter>(text: &mut String, letters: &[T]) -> Result<(), AllocError>
    ensures { OnOk result (string_bytes text.new ≡ string_bytes text.old ++ encode_utf8_all (map T.code letters.now)) }
{
    for item in letters {
        text.push(item.letter())?;
    }
    Ok(())
}

// The lowest byte of a letter's number.
fn low_byte(number: u32) -> u8
    ensures { number < 128 → result ≡ number }
{
    (number % 256) as u8
}

// Puts the lowest byte of each letter into the front of `bytes`. Says whether each letter is one byte: then these bytes are their text. The bits
// of all letters are gathered, which is less than to compare each.
fn put_low<T: Letter>(letters: &[T], bytes: &mut [u8]) -> bool
    requires { length letters.now ≤ length bytes.old }
    ensures bytes { OnTrue result (take (length letters.now) bytes.new ≡ encode_utf8_all (map T.code letters.now)) }
    ensures ascii { OnTrue result (IsAscii (take (length letters.now) bytes.new)) }
    ensures length { length bytes.new ≡ length bytes.old }
{
    let mut bits = 0;
    for place in 0..letters.len() {
        let number = letters[place].letter() as u32;
        bits |= number;
        bytes[place] = low_byte(number);
    }
    bits < 128
}

// Whether JSON writes the byte in another way.
fn is_escaped(byte: u8) -> bool
    ensures printable { result ≡ false → 32 ≤ byte }
    ensures unquoted { result ≡ false → byte ≡ 34 → ⊥ }
    ensures unescaped { result ≡ false → byte ≡ 92 → ⊥ }
{
    (byte < b' ') | (byte == b'"') | (byte == b'\\')
}

// Whether JSON writes the bytes as they are.
fn are_free(bytes: &[u8]) -> bool
    ensures { OnTrue result (escape bytes.now ≡ bytes.now) }
{
    let mut escaped = false;
    for place in 0..bytes.len() {
        escaped |= is_escaped(bytes[place]);
    }
    !escaped
}

// Puts the letters into the front of `bytes`, where each is one byte, which JSON writes as it is. All are looked at, with no way out between
// them, so that the compiler can look at many at a time.
fn put_ascii<T: Letter>(letters: &[T], bytes: &mut [u8]) -> bool
    requires { length letters.now ≤ length bytes.old }
    ensures bytes { OnTrue result (take (length letters.now) bytes.new ≡ encode_utf8_all (map T.code letters.now)) }
    ensures ascii { OnTrue result (IsAscii (take (length letters.now) bytes.new)) }
    ensures plain { OnTrue result (escape (encode_utf8_all (map T.code letters.now)) ≡ encode_utf8_all (map T.code letters.now)) }
    ensures length { length bytes.new ≡ length bytes.old }
{
    put_low(letters, bytes) && are_free(&bytes[..letters.len()])
}

// Adds the letters as they are: at once, where each is one byte.
fn push_text<T: Letter>(text: &mut String, letters: &[T]) -> Result<(), AllocError>
    ensures { OnOk result (string_bytes text.new ≡ string_bytes text.old ++ encode_utf8_all (map T.code letters.now)) }
{
    let mut bytes = [0u8; PIECE];
    if letters.len() <= PIECE && put_low(letters, &mut bytes[..]) {
        return text.push_str(ascii_text(&bytes[..letters.len()]));
    }
    push_plain(text, letters)
}

// Adds all letters that are left, as they are.
fn push_texts<T: Letter + Element>(
    text: &mut String,
    pieces: Pieces<'_, T>,
) -> Result<(), AllocError>
    ensures { OnOk result (string_bytes text.new ≡ string_bytes text.old ++ encode_utf8_all (map T.code pieces.entry)) }
{
    let mut ahead = pieces;
    while let Some(piece) = ahead.next() {
        push_text(text, piece)?;
    }
    Ok(())
}

// Adds the letters, if JSON writes them as they are.
fn push_piece<T: Letter>(text: &mut String, letters: &[T]) -> Result<bool, AllocError>
    ensures pushed { IfOk result (λ plain. plain ≡ true → string_bytes text.new ≡ string_bytes text.old ++ encode_utf8_all (map T.code letters.now)) }
    ensures plain { IfOk result (λ plain. plain ≡ true → escape (encode_utf8_all (map T.code letters.now)) ≡ encode_utf8_all (map T.code letters.now)) }
    ensures not { IfOk result (λ plain. plain ≡ false → string_bytes text.new ≡ string_bytes text.old) }
{
    let mut bytes = [0u8; PIECE];
    if letters.len() <= PIECE && put_ascii(letters, &mut bytes[..]) {
        text.push_str(ascii_text(&bytes[..letters.len()]))?;
        return Ok(true);
    }
    if !are_plain(letters) {
        return Ok(false);
    }
    push_plain(text, letters)?;
    Ok(true)
}

// Adds all letters that are left, up to the first piece of which JSON does not write all as they are.
fn push_pieces<T: Letter + Element>(
    text: &mut String,
    pieces: Pieces<'_, T>,
) -> Result<bool, AllocError>
    ensures pushed { IfOk result (λ plain. plain ≡ true → string_bytes text.new ≡ string_bytes text.old ++ escape (encode_utf8_all (map T.code pieces.entry))) }
    ensures not { IfOk result (λ plain. plain ≡ false → Continues (string_bytes text.old) (string_bytes text.new)) }
{
    let mut ahead = pieces;
    while let Some(piece) = ahead.next() {
        if !push_piece(text, piece)? {
            return Ok(false);
        }
    }
    Ok(true)
}

// The text between quotes, escaped where JSON requires it.
fn push_escaped(alloc: Global, text: &mut String, plain: String) -> Result<(), AllocError>
    ensures { OnOk result (string_bytes text.new ≡ string_bytes text.old ++ quoted (string_bytes plain)) }
{
    let escaped = Value::String(plain).to_string(alloc)?;
    text.push_str(escaped.as_str())
}

/// Adds the letters between quotes, escaped where JSON requires it. If memory runs out, the text holds a part of them.
pub fn push_letters<T: Letter>(
    alloc: Global,
    text: &mut String,
    letters: &[T],
) -> Result<(), AllocError>
    ensures { OnOk result (string_bytes text.new ≡ string_bytes text.old ++ quoted (encode_utf8_all (map T.code letters.now))) }
{
    if are_plain(letters) {
        text.push('"')?;
        push_plain(text, letters)?;
        return text.push('"');
    }
    let mut plain = String::new(alloc);
    push_plain(&mut plain, letters)?;
    push_escaped(alloc, text, plain)
}

/// Adds the document's text as a JSON string, looked at where it lies: only where JSON requires an escape the text is copied. If memory runs out,
/// the text holds a part of it.
pub fn push_quoted(alloc: Global, text: &mut String, list: &Doc<Tagged>) -> Result<(), AllocError>
    ensures { OnOk result (string_bytes text.new ≡ string_bytes text.old ++ text_of list.now) }
{
    let start = text.len();
    text.reserve(list.len() + 2)?;
    text.push('"')?;
    if push_pieces(text, list.pieces())? {
        return text.push('"');
    }
    text.truncate(start);
    let mut plain = String::new(alloc);
    push_texts(&mut plain, list.pieces())?;
    push_escaped(alloc, text, plain)
}

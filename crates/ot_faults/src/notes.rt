//! A note on a line that is refused: a help to repair it.

ghost use Rattle.std.specs.Prelude.{◌≡◌, ◌≤◌, length};
ghost use Rattle.ot_faults.specs.Causes.{note_value};
ghost use Rattle.ot_faults.specs.Notes as spec;

use crate::causes::{Note, byte_at, operation_note, string_note};
use ot_asm::{Kind, read_text, split_word};

// What is wrong with a line that begins with this byte, or other words.
fn byte_words(byte: u8, other: &'static str) -> &'static str
    ensures { result.now ≡ spec.byte_words byte other.now }
{
    match byte {
        b'#' | b'/' => "a comment begins with `;`",
        b'A'..=b'Z' => "words are in lower case",
        _ => other,
    }
}

// What is wrong where the text begins otherwise than with the clients.
fn first_words(line: &[u8]) -> &'static str
    ensures { result.now ≡ spec.first_words line.now }
{
    if line.is_empty() {
        return "no line says `clients N`";
    }
    if line.starts_with(b"\xEF\xBB\xBF".as_slice()) {
        return "a byte order mark stands in front: save the text as UTF-8 without it";
    }
    byte_words(
        line[0],
        "`clients N` is the first line, above all others but comments",
    )
}

// Why a line does not begin with this word.
fn word_words(word: &[u8], line: &[u8]) -> &'static str
    ensures { result.now ≡ spec.word_words word.now line.now }
{
    if word == b"clients".as_slice() {
        return "this line stands once, and first";
    }
    if word == b"present".as_slice() {
        return "this line stands once, directly below `clients N`";
    }
    if word == b"start".as_slice() {
        return "this line stands once, above all instructions";
    }
    if line == b"%%".as_slice() {
        return "`%%` and what stands behind it are read by debug, conform and view alone";
    }
    byte_words(byte_at(line, 0), "")
}

// A text without the digits in front.
fn behind_digits(text: &[u8]) -> &[u8]
    ensures { result.now ≡ spec.behind_digits text.now }
{
    let mut rest = text;
    while let Some((byte, tail)) = rest.split_first() {
        if !byte.is_ascii_digit() {
            return rest;
        }
        rest = tail;
    }
    rest
}

// Whether a bracket stands right behind a number.
fn is_glued(rest: &[u8]) -> bool
    ensures { result ≡ spec.is_glued rest.now }
{
    byte_at(rest, 0).is_ascii_digit() && byte_at(behind_digits(rest), 0) == b'['
}

// What is wrong with a number, behind which this stands.
fn number_words(word: &[u8], rest: &[u8]) -> &'static str
    ensures { result.now ≡ spec.number_words word.now rest.now }
{
    let (next, _) = split_word(rest);
    if is_glued(rest) {
        return "a blank is missing behind the number";
    }
    if word == b"read".as_slice() && next == b"server".as_slice() {
        return "the server's document is read by `read-server`";
    }
    ""
}

// What is wrong with a word too many.
fn extra_words(rest: &[u8]) -> &'static str
    ensures { result.now ≡ spec.extra_words rest.now }
{
    if byte_at(rest, 0) == b';' {
        "a comment stands on a line of its own"
    } else {
        ""
    }
}

// Whether a text with this first line begins as an image does, and as no schedule.
fn is_image(first: &[u8]) -> bool
    ensures { result ≡ spec.is_image first.now }
{
    first.starts_with(b"OTS1".as_slice()) || first.starts_with(b"OTS2".as_slice())
}

// The note on the line as a whole.
fn whole_note(words: &'static str) -> Note
    ensures value { note_value result ≡ record { at = 0; words = words.now } }
    ensures within { result.at ≡ 0 }
{
    Note { at: 0, words }
}

// The note on a fault of this kind in a trimmed line, of which `rest` is what stands from the word on that is wrong.
fn note_in(kind: Kind, line: &[u8], rest: &[u8]) -> Note
    ensures value { note_value result ≡ spec.note_in kind line.now rest.now }
    ensures within { result.at ≤ length rest.now }
{
    let (word, _) = split_word(line);
    match kind {
        Kind::BadText if read_text(line).is_some() => string_note(rest),
        Kind::BadOperation => operation_note(rest),
        Kind::NoClients => whole_note(first_words(line)),
        Kind::UnknownWord => whole_note(word_words(word, line)),
        Kind::BadNumber => whole_note(number_words(word, rest)),
        Kind::Extra => whole_note(extra_words(rest)),
        _ => whole_note(""),
    }
}

/// The note on a fault of this kind in a trimmed line, of which `rest` is what stands from the word on that is wrong; `first` is the text's first
/// line.
pub(crate) fn note_of(first: &[u8], kind: Kind, line: &[u8], rest: &[u8]) -> Note
    ensures value { note_value result ≡ spec.note_of first.now kind line.now rest.now }
    ensures within { result.at ≤ length rest.now }
{
    if is_image(first) {
        return whole_note("this is an image, which `run --image` and `dis` read");
    }
    note_in(kind, line, rest)
}

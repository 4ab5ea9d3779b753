//! The fault of a text.

ghost use Rattle.std.specs.Prelude.{◌≡◌, ◌≤◌, IfOk, IfSome, is_some, length};
ghost use Rattle.streams.specs.Lines.{lines_of};
ghost use Rattle.ot_faults.specs.Faults as spec;
ghost use Rattle.ot_faults.specs.Faults.{characters, fault_value, is_of_text, leading, nearest_wanted, start_of, text_fault, without_words, word_there, words_before};

use crate::nearest::nearest_at;
use crate::notes::note_of;
use crate::reached::{Reached, find_line, first_line};
use crate::wanted::{Wanted, Word, wanted_of};
use crate::words::found_text;
use ot_asm::{AsmFault, Kind, read_text, split_word, trimmed};
use std::alloc::{AllocError, Global};

/// The first fault of a text: where it stands, what stands there, and what is wanted.
#[derive(Debug, PartialEq, Eq, Drop)]
pub struct LineFault {
    /// Counted from 1.
    pub line: u64,
    /// The character of the line, counted from 1.
    pub column: usize,
    /// The word that stands there, as a JSON string; of more than 60 bytes how many these are; `0xff` of a byte that is not UTF-8; or `nothing`.
    pub found: String,
    pub wanted: Wanted,
    /// Of words that are wanted the one nearest to what stands there, if one is near.
    pub nearest: Option<Word>,
    /// A help to repair the line; empty where what is wanted says enough.
    pub note: &'static str,
}

// How many blanks stand in front of a line.
fn leading(line: &[u8]) -> usize
    ensures value { result ≡ leading line.now }
    ensures within { result ≤ length line.now }
{
    let mut at = 0;
    while at < line.len() {
        if line[at] != b' ' && line[at] != b'\t' {
            break;
        }
        at += 1;
    }
    at
}

// How many words stand before the one that is wrong.
fn words_before(kind: Kind, word: &[u8]) -> u8
    ensures { result ≡ words_before kind word.now }
{
    match kind {
        Kind::BadText | Kind::BadNumber | Kind::BadClient => 1,
        Kind::BadOperation => 2,
        Kind::Extra => {
            if word == b"read-server".as_slice() {
                1
            } else {
                2
            }
        }
        Kind::TooLong => { if word == b"start".as_slice() { 1 } else { 2 } }
        Kind::NoClients | Kind::UnknownWord | Kind::TooMany | Kind::Memory | Kind::ReadFault => 0,
    }
}

// A trimmed line without so many words in front.
fn without_words(count: u8, line: &[u8]) -> &[u8]
    ensures { result.now ≡ without_words count line.now }
{
    if count == 0 {
        return line;
    }
    let (_, behind) = split_word(line);
    if count == 1 {
        return behind;
    }
    let (_, behind) = split_word(behind);
    behind
}

// How many bytes of a trimmed line stand before what is wrong.
fn start_of(kind: Kind, line: &[u8]) -> usize
    ensures value { result ≡ start_of kind line.now }
    ensures within { result ≤ length line.now }
{
    match str::from_utf8(line) {
        Ok(_) => {
            let (word, _) = split_word(line);
            let rest = without_words(words_before(kind, word), line);
            line.len().saturating_sub(rest.len())
        }
        Err(fault) => fault.valid_up_to(),
    }
}

// How many characters bytes are.
fn characters(bytes: &[u8]) -> usize
    ensures value { result ≡ characters bytes.now }
    ensures within { result ≤ length bytes.now }
{
    bytes
        .iter()
        .filter(|byte| **byte < 128 || **byte >= 192)
        .count()
}

// The word that is nearest to what stands there, where words are wanted.
fn nearest_wanted(alloc: Global, found: &[u8], wanted: Wanted) -> Result<Option<Word>, AllocError>
    ensures { IfOk result (λ w. w ≡ nearest_wanted found.now wanted) }
{
    match (wanted, read_text(found)) {
        (Wanted::Words(stage), Some(found)) => nearest_at(alloc, stage, found),
        _ => Ok(None),
    }
}

// The character that stands there, and what follows it up to the first blank.
fn word_there(rest: &[u8]) -> &[u8]
    ensures { result.now ≡ word_there rest.now }
{
    if rest.is_empty() {
        return rest;
    }
    let mut at = 1;
    while at < rest.len() {
        if rest[at] == b' ' || rest[at] == b'\t' {
            break;
        }
        at += 1;
    }
    let (word, _) = rest.split_at(at);
    word
}

// The fault of this line, in a text with this first line.
fn fault_in(
    alloc: Global,
    first: &[u8],
    reached: Reached,
    line: &[u8],
    fault: AsmFault,
) -> Result<LineFault, AllocError>
    ensures { IfOk result (λ f. fault_value f ≡ spec.line_fault first.now reached line.now fault) }
{
    let blanks = leading(line);
    let line = trimmed(line);
    let start = start_of(fault.kind, line);
    let (_, rest) = line.split_at(start);
    let note = note_of(first, fault.kind, line, rest);
    let (front, rest) = line.split_at(start + note.at);
    let found = word_there(rest);
    let (word, _) = split_word(line);
    let wanted = wanted_of(fault.kind, reached, word, read_text(line).is_some());
    Ok(LineFault {
        line: fault.line,
        column: blanks + characters(front) + 1,
        found: found_text(alloc, found)?,
        wanted,
        nearest: nearest_wanted(alloc, found, wanted)?,
        note: note.words,
    })
}

/// Where the fault of a text stands, which is that of the first faulty line; what stands there, what is wanted, and the note on it. Nothing where the
/// text is not at fault, but memory or a read.
pub fn line_fault(
    alloc: Global,
    text: &[u8],
    fault: AsmFault,
) -> Result<Option<LineFault>, AllocError>
    ensures fault { IfOk result (λ found. IfSome found (λ f. fault_value f ≡ text_fault (lines_of text.now) fault)) }
    ensures exact { IfOk result (λ found. is_some found ≡ is_of_text fault.kind) }
{
    if matches!(fault.kind, Kind::Memory | Kind::ReadFault) {
        return Ok(None);
    }
    let (reached, line) = find_line(text, fault.line);
    Ok(Some(fault_in(alloc, first_line(text), reached, line, fault)?))
}

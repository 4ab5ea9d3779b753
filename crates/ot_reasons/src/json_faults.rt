//! Where a text stops being JSON, and why.
//!
//! No clause says anything of these words: that the text is no JSON is `serde_json`'s, and what is said of its cause here is a help to repair it.

use std::alloc::{AllocError, Global};

/// How deep arrays and objects may nest.
const DEEPEST: usize = 127;

// What stands before a byte.
#[derive(Clone, Copy)]
enum Before {
    // What a value stands behind.
    Start,
    // The bracket that opens an array.
    Bracket,
    // The brace that opens an object.
    Brace,
    // A comma in an object.
    Comma,
    // A whole key.
    Key,
    // A part of a string, which is a key or not.
    Text(bool),
    // A part of an escape in such a string; so many bytes of it are left.
    Escape(bool, usize),
    // The minus of a number, its single 0, its digits, its point, what stands behind that, its e, that one's sign, its digits.
    Minus,
    Zero,
    Digits,
    Point,
    Fraction,
    Exponent,
    Sign,
    Power,
    // A part of a word; so many bytes of it are left.
    Word(&'static [u8], usize),
    // A whole value.
    Value,
}

// What a byte does.
#[derive(Clone, Copy)]
enum Does {
    Leads(Before),
    // It opens an object, or an array.
    Opens(bool),
    // It closes an object, or an array.
    Closes(bool),
}

fn is_blank(byte: u8) -> bool {
    byte == b' ' || byte == b'\t' || byte == b'\r' || byte == b'\n'
}

// Where a value has to begin.
fn begin(byte: u8) -> Result<Does, &'static str> {
    match byte {
        b'"' => Ok(Does::Leads(Before::Text(false))),
        b'-' => Ok(Does::Leads(Before::Minus)),
        b'0' => Ok(Does::Leads(Before::Zero)),
        b'1'..=b'9' => Ok(Does::Leads(Before::Digits)),
        b'[' => Ok(Does::Opens(false)),
        b'{' => Ok(Does::Opens(true)),
        b't' => Ok(Does::Leads(Before::Word(b"true".as_slice(), 3))),
        b'f' => Ok(Does::Leads(Before::Word(b"false".as_slice(), 4))),
        b'n' => Ok(Does::Leads(Before::Word(b"null".as_slice(), 3))),
        b',' => Err("a value is missing before this comma"),
        b']' | b'}' => Err("a value is missing before this bracket"),
        b'\'' => Err("strings stand in double quotes"),
        b'/' | b'#' => Err("JSON has no comments"),
        b'+' | b'.' => Err("a number begins with a digit or a minus"),
        _ => Err(
            "a value is a string in double quotes, a number, an array, an object, true, false or null",
        ),
    }
}

// Where a key has to begin.
fn begin_key(byte: u8) -> Result<Does, &'static str> {
    match byte {
        b'"' => Ok(Does::Leads(Before::Text(true))),
        b'}' => Err("a key is missing behind the last comma"),
        b'\'' => Err("keys stand in double quotes"),
        b'/' | b'#' => Err("JSON has no comments"),
        _ => Err("a key in double quotes stands here"),
    }
}

// Behind a whole value.
fn go_on_behind(byte: u8, object: bool) -> Result<Does, &'static str> {
    match byte {
        b',' if object => Ok(Does::Leads(Before::Comma)),
        b',' => Ok(Does::Leads(Before::Start)),
        b']' => Ok(Does::Closes(false)),
        b'}' => Ok(Does::Closes(true)),
        b'/' | b'#' => Err("JSON has no comments"),
        b':' if !object => Err("a colon stands in an object alone, behind a key"),
        _ => Err("a comma is missing before this, or the array or object is not closed"),
    }
}

// In a number, behind what is whole already.
fn end_number(byte: u8, object: bool) -> Result<Does, &'static str> {
    match byte {
        b'.' | b'e' | b'E' | b'0'..=b'9' => Err("a number has one point and one exponent"),
        _ => go_on_behind(byte, object),
    }
}

fn go_on_in_number(before: Before, byte: u8, object: bool) -> Result<Does, &'static str> {
    match (before, byte) {
        (Before::Minus, b'0') => Ok(Does::Leads(Before::Zero)),
        (Before::Minus, b'1'..=b'9') => Ok(Does::Leads(Before::Digits)),
        (Before::Minus, _) => Err("a digit stands right behind a minus"),
        (Before::Zero, b'0'..=b'9') => Err("no number of several digits begins with 0"),
        (Before::Digits, b'0'..=b'9') => Ok(Does::Leads(Before::Digits)),
        (Before::Zero | Before::Digits, b'.') => Ok(Does::Leads(Before::Point)),
        (Before::Point | Before::Fraction, b'0'..=b'9') => Ok(Does::Leads(Before::Fraction)),
        (Before::Point, _) => Err("a digit stands behind the point of a number"),
        (Before::Zero | Before::Digits | Before::Fraction, b'e' | b'E') => {
            Ok(Does::Leads(Before::Exponent))
        }
        (Before::Exponent, b'+' | b'-') => Ok(Does::Leads(Before::Sign)),
        (Before::Exponent | Before::Sign | Before::Power, b'0'..=b'9') => {
            Ok(Does::Leads(Before::Power))
        }
        (Before::Exponent | Before::Sign, _) => Err("a digit stands in an exponent"),
        _ => end_number(byte, object),
    }
}

// The number of an escape by four digits at the front of a text.
fn unit(json: &[u8]) -> Option<u32> {
    if !json.starts_with(b"\\u".as_slice()) {
        return None;
    }
    let mut unit = 0;
    for at in 2..6 {
        let digit = char::from(*json.get(at)?).to_digit(16)?;
        unit = (unit << 4) | digit;
    }
    Some(unit)
}

// How long an escape at the front of a text is, both halves of a surrogate pair together.
fn escape_len(json: &[u8]) -> Result<usize, &'static str> {
    match json.get(1) {
        Some(b'"' | b'\\' | b'/' | b'b' | b'f' | b'n' | b'r' | b't') => return Ok(2),
        Some(b'u') => {}
        _ => return Err("this is no escape of JSON; a backslash is written \\\\"),
    }
    let (_, behind) = json.split_at(json.len().min(6));
    match (unit(json), unit(behind)) {
        (Some(0xD800..=0xDBFF), Some(0xDC00..=0xDFFF)) => Ok(12),
        (Some(0xD800..=0xDFFF), _) => {
            Err("this is half of a surrogate pair: the other half is missing")
        }
        (Some(_), _) => Ok(6),
        (None, _) => Err("\\u stands before four hexadecimal digits"),
    }
}

// Within a string, at a byte with what is behind it.
fn go_on_in_text(key: bool, byte: u8, json: &[u8]) -> Result<Does, &'static str> {
    match byte {
        b'"' if key => Ok(Does::Leads(Before::Key)),
        b'"' => Ok(Does::Leads(Before::Value)),
        b'\\' => Ok(Does::Leads(Before::Escape(key, escape_len(json)?.saturating_sub(1)))),
        0..=0x1F => Err("a control character in a string is written as an escape, such as \\t"),
        _ => Ok(Does::Leads(Before::Text(key))),
    }
}

// Within a word.
fn go_on_in_word(word: &'static [u8], left: usize, byte: u8) -> Result<Does, &'static str> {
    match word.get(word.len().saturating_sub(left)) {
        Some(letter) if *letter == byte && left > 1 => {
            Ok(Does::Leads(Before::Word(word, left - 1)))
        }
        Some(letter) if *letter == byte => Ok(Does::Leads(Before::Value)),
        _ => Err("the words of JSON are true, false and null"),
    }
}

// What the next byte does, where that is right: `json` is the text from this byte on, `object` whether an object is open innermost.
fn go_on(before: Before, byte: u8, json: &[u8], object: bool) -> Result<Does, &'static str> {
    match before {
        Before::Text(key) => go_on_in_text(key, byte, json),
        Before::Escape(key, left) if left > 1 => Ok(Does::Leads(Before::Escape(key, left - 1))),
        Before::Escape(key, _) => Ok(Does::Leads(Before::Text(key))),
        Before::Word(word, left) => go_on_in_word(word, left, byte),
        Before::Start | Before::Bracket | Before::Brace | Before::Comma | Before::Key
            if is_blank(byte) => { Ok(Does::Leads(before)) }
        Before::Zero | Before::Digits | Before::Fraction | Before::Power | Before::Value
            if is_blank(byte) => { Ok(Does::Leads(Before::Value)) }
        Before::Bracket if byte == b']' => Ok(Does::Closes(false)),
        Before::Brace if byte == b'}' => Ok(Does::Closes(true)),
        Before::Start | Before::Bracket => begin(byte),
        Before::Brace | Before::Comma => begin_key(byte),
        Before::Key if byte == b':' => Ok(Does::Leads(Before::Start)),
        Before::Key => Err("a colon stands behind a key"),
        Before::Value => go_on_behind(byte, object),
        _ => go_on_in_number(before, byte, object),
    }
}

// What stands before the next byte, with what is open then.
fn perform(does: Does, open: &mut Vec<bool>) -> Result<Result<Before, &'static str>, AllocError> {
    match does {
        Does::Leads(before) => Ok(Ok(before)),
        Does::Opens(_) if open.len() >= DEEPEST => {
            Ok(Err("arrays and objects nest at most 127 deep"))
        }
        Does::Opens(object) => {
            open.push(object)?;
            Ok(Ok(if object {
                Before::Brace
            } else {
                Before::Bracket
            }))
        }
        Does::Closes(object) => Ok(match open.pop() {
            Some(opened) if opened == object => Ok(Before::Value),
            Some(true) => Err("this closes an array, and an object is open"),
            Some(false) => Err("this closes an object, and an array is open"),
            None => Err("nothing is open that this closes"),
        }),
    }
}

// What is wrong with a text that ends so.
fn end_cause(before: Before, open: &[bool]) -> &'static str {
    match (before, open) {
        (Before::Text(_) | Before::Escape(_, _), _) => "the string is not closed",
        (Before::Start, []) => "the text is empty",
        (_, [.., true]) => "the text ends, and an object is not closed",
        (_, [.., false]) => "the text ends, and an array is not closed",
        _ => "a number is incomplete or out of range, or a word is cut",
    }
}

// Where a text stops being JSON, as the number of a byte, and why.
fn cause(alloc: Global, text: &[u8]) -> Result<(usize, &'static str), AllocError> {
    if text.starts_with(b"\xEF\xBB\xBF".as_slice()) {
        return Ok((
            0,
            "a byte order mark stands in front: save the text as UTF-8 without it",
        ));
    }
    let mut open = Vec::new(alloc);
    let mut before = Before::Start;
    for (at, byte) in text.iter().enumerate() {
        let (_, rest) = text.split_at(at);
        let whole = open.is_empty() && matches!(before, Before::Value) && !is_blank(*byte);
        if whole {
            return Ok((at, "nothing stands behind the value"));
        }
        let object = open.last().is_some_and(|object| *object);
        match go_on(before, *byte, rest, object) {
            Ok(does) => match perform(does, &mut open)? {
                Ok(next) => before = next,
                Err(words) => return Ok((at, words)),
            },
            Err(words) => return Ok((at, words)),
        }
    }
    Ok((text.len(), end_cause(before, open.as_slice())))
}

// The line and the column of a byte, each from 1; columns count characters.
fn line_and_column(text: &[u8], at: usize) -> (usize, usize) {
    let (front, _) = text.split_at(at.min(text.len()));
    let mut line: usize = 1;
    let mut column: usize = 1;
    for byte in front {
        if *byte == b'\n' {
            line = line.saturating_add(1);
            column = 1;
        } else if *byte & 0xC0 != 0x80 {
            column = column.saturating_add(1);
        }
    }
    (line, column)
}

/// The words for why a text is no JSON, with the line and the column: a line.
pub(crate) fn json_reason(alloc: Global, text: &str) -> Result<String, AllocError> {
    let (at, words) = cause(alloc, text.as_bytes())?;
    let (line, column) = line_and_column(text.as_bytes(), at);
    format!(in alloc; "  line {line}, column {column}: {words}\n")
}

/// The words for bytes that are no UTF-8.
pub(crate) fn bytes_reason(alloc: Global, bytes: &[u8]) -> Result<String, AllocError> {
    let mut wide = bytes.len();
    for (at, byte) in bytes.iter().enumerate() {
        if *byte >= 0x80 {
            wide = at;
            break;
        }
    }
    let (line, column) = line_and_column(bytes, wide);
    format!(in alloc; "  line {line}, column {column}: a byte here or behind is not UTF-8\n")
}

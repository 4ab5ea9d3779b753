//! The first byte of an operation or of a start text that is wrong, and what is wrong there.

ghost use Rattle.std.specs.Prelude.{◌≡◌, ◌<◌, ◌≤◌, Err, IfErr, IfOk, Ok, drop, get_or, is_some, length};
ghost use Rattle.std.specs.Char.{digit_value};
ghost use Rattle.json.specs.Text.{code_unit, short_escape};
ghost use Rattle.ot_faults.specs.Causes as spec;

/// At which byte of what stands there a text is wrong, and the note on it; no words where what is wanted says enough.
#[derive(Clone, Copy)]
pub(crate) struct Note {
    pub at: usize,
    pub words: &'static str,
}

/// What stands before a byte of an array.
#[derive(Clone, Copy)]
pub(crate) enum Before {
    /// The bracket that opens it.
    Opening,
    Comma,
    Minus,
    /// So many digits of a number.
    Number(usize),
    /// A whole component, and what blanks are behind it.
    Component,
    /// A part of a string.
    Text,
    /// A part of an escape; so many bytes of it are left.
    Escape(usize),
    /// The bracket that closes it.
    Closing,
}

/// The byte at a place of a text; 0 behind its end.
pub(crate) fn byte_at(text: &[u8], at: usize) -> u8
    ensures { result ≡ get_or text.now at 0 }
{
    if at < text.len() { text[at] } else { 0 }
}

/// The bytes from this one on; none where there are not so many.
fn behind(text: &[u8], at: usize) -> &[u8]
    ensures { result.now ≡ drop at text.now }
{
    let (_, rest) = text.split_at(at.min(text.len()));
    rest
}

// The value of a hexadecimal digit; of another byte 16 and more.
fn digit_value(byte: u8) -> u32
    ensures { result ≡ digit_value byte }
{
    match byte {
        b'0'..=b'9' => (byte - b'0') as u32,
        b'A'..=b'Z' => (byte - b'A') as u32 + 10,
        b'a'..=b'z' => (byte - b'a') as u32 + 10,
        _ => 36,
    }
}

// The number that four hexadecimal digits are.
fn code_unit(a: u8, b: u8, c: u8, d: u8) -> Option<u32>
    ensures { result ≡ code_unit a b c d }
{
    let (a, b, c, d) = (
        digit_value(a),
        digit_value(b),
        digit_value(c),
        digit_value(d),
    );
    if (a < 16) & (b < 16) & (c < 16) & (d < 16) {
        Some(a * 4096 + b * 256 + c * 16 + d)
    } else {
        None
    }
}

// The number of an escape `\uXXXX` in front of a text.
fn unit(json: &[u8]) -> Option<u32>
    ensures { result ≡ spec.unit json.now }
{
    if byte_at(json, 0) == b'\\' && byte_at(json, 1) == b'u' {
        code_unit(
            byte_at(json, 2),
            byte_at(json, 3),
            byte_at(json, 4),
            byte_at(json, 5),
        )
    } else {
        None
    }
}

fn is_second_half(unit: Option<u32>) -> bool
    ensures { result ≡ spec.is_second_half unit }
{
    match unit {
        Some(unit) => 0xDC00 <= unit && unit < 0xE000,
        None => false,
    }
}

// How long an escape with this number is, before an escape with the other or none: both halves of a surrogate pair together.
fn unit_length(unit: Option<u32>, later: Option<u32>) -> Result<usize, &'static str>
    ensures ok { IfOk result (λ n. spec.unit_length unit later ≡ Ok n) }
    ensures err { IfErr result (λ words. spec.unit_length unit later ≡ Err words.now) }
{
    let Some(unit) = unit else {
        return Err("\\u stands before four hexadecimal digits");
    };
    let is_first = 0xD800 <= unit && unit < 0xDC00;
    if is_first && is_second_half(later) {
        return Ok(12);
    }
    if is_first || 0xDC00 <= unit && unit < 0xE000 {
        return Err("this is half of a surrogate pair: the other half is missing");
    }
    Ok(6)
}

// Whether a backslash and this byte are an escape.
fn is_short(byte: u8) -> bool
    ensures { result ≡ is_some (short_escape byte) }
{
    matches!(byte, b'"' | b'\\' | b'/' | b'b' | b'f' | b'n' | b'r' | b't')
}

// How long an escape in front of a text is.
fn escape_length(json: &[u8]) -> Result<usize, &'static str>
    ensures ok { IfOk result (λ n. spec.escape_length json.now ≡ Ok n) }
    ensures err { IfErr result (λ words. spec.escape_length json.now ≡ Err words.now) }
{
    let byte = byte_at(json, 1);
    if is_short(byte) {
        return Ok(2);
    }
    if byte == b'u' {
        return unit_length(unit(json), unit(behind(json, 6)));
    }
    Err("this is no escape of JSON; a backslash is written \\\\")
}

// A byte of a string; `json` is the text from it on.
fn in_string(byte: u8, json: &[u8]) -> Result<Before, &'static str>
    ensures ok { IfOk result (λ after. spec.in_string byte json.now ≡ Ok after) }
    ensures err { IfErr result (λ words. spec.in_string byte json.now ≡ Err words.now) }
{
    if byte == b'"' {
        return Ok(Before::Component);
    }
    if byte == b'\\' {
        return match escape_length(json) {
            Ok(count) => Ok(Before::Escape(count.saturating_sub(1))),
            Err(words) => Err(words),
        };
    }
    if byte < 32 {
        return Err("a control character in a string is written as an escape, such as \\t");
    }
    Ok(Before::Text)
}

// A byte of an escape of which so many are left.
fn in_escape(left: usize) -> Before
    ensures { result ≡ spec.in_escape left }
{
    if left > 1 {
        Before::Escape(left - 1)
    } else {
        Before::Text
    }
}

// Blanks of JSON in a line.
fn is_space(byte: u8) -> bool
    ensures { result ≡ spec.is_space byte }
{
    byte == b' ' || byte == b'\t' || byte == b'\r'
}

// What is wrong with a byte that begins no component.
fn no_component(byte: u8) -> &'static str
    ensures { result.now ≡ spec.no_component byte }
{
    match byte {
        b'0' => "no component is 0, and no number begins with 0",
        b'.' => "numbers are whole",
        b'\'' => "strings stand in double quotes",
        b'[' | b'{' => "a component is a string or a number: nothing is nested",
        b',' => "a component is missing before this comma",
        b'+' => "a number that retains has no sign",
        _ => "a component is a string in double quotes or a number",
    }
}

// Where a component begins.
fn at_component(byte: u8) -> Result<Before, &'static str>
    ensures ok { IfOk result (λ after. spec.at_component byte ≡ Ok after) }
    ensures err { IfErr result (λ words. spec.at_component byte ≡ Err words.now) }
{
    match byte {
        b'"' => Ok(Before::Text),
        b'-' => Ok(Before::Minus),
        b'1'..=b'9' => Ok(Before::Number(1)),
        _ => Err(no_component(byte)),
    }
}

fn behind_opening(byte: u8) -> Result<Before, &'static str>
    ensures ok { IfOk result (λ after. spec.behind_opening byte ≡ Ok after) }
    ensures err { IfErr result (λ words. spec.behind_opening byte ≡ Err words.now) }
{
    if is_space(byte) {
        return Ok(Before::Opening);
    }
    if byte == b']' {
        return Ok(Before::Closing);
    }
    at_component(byte)
}

fn behind_comma(byte: u8) -> Result<Before, &'static str>
    ensures ok { IfOk result (λ after. spec.behind_comma byte ≡ Ok after) }
    ensures err { IfErr result (λ words. spec.behind_comma byte ≡ Err words.now) }
{
    if is_space(byte) {
        return Ok(Before::Comma);
    }
    if byte == b']' {
        return Err("a component is missing behind the last comma");
    }
    at_component(byte)
}

fn behind_minus(byte: u8) -> Result<Before, &'static str>
    ensures ok { IfOk result (λ after. spec.behind_minus byte ≡ Ok after) }
    ensures err { IfErr result (λ words. spec.behind_minus byte ≡ Err words.now) }
{
    match byte {
        b'1'..=b'9' => Ok(Before::Number(1)),
        b'0' => Err("no component is 0, and no number begins with 0"),
        _ => Err("a number stands right behind its minus"),
    }
}

// What is wrong with a byte that does not go on behind a component.
fn no_comma(byte: u8) -> &'static str
    ensures { result.now ≡ spec.no_comma byte }
{
    match byte {
        b'.' => "numbers are whole",
        b'\'' => "strings stand in double quotes",
        b'[' | b'{' => "a component is a string or a number: nothing is nested",
        b'"' | b'-' | b'0'..=b'9' => "a comma is missing before this component",
        _ => "a comma, or the bracket that closes the array, stands behind a component",
    }
}

fn behind_component(byte: u8) -> Result<Before, &'static str>
    ensures ok { IfOk result (λ after. spec.behind_component byte ≡ Ok after) }
    ensures err { IfErr result (λ words. spec.behind_component byte ≡ Err words.now) }
{
    if is_space(byte) {
        return Ok(Before::Component);
    }
    match byte {
        b',' => Ok(Before::Comma),
        b']' => Ok(Before::Closing),
        _ => Err(no_comma(byte)),
    }
}

// Behind so many digits of a number.
fn in_number(digits: usize, byte: u8) -> Result<Before, &'static str>
    ensures ok { IfOk result (λ after. spec.in_number digits byte ≡ Ok after) }
    ensures err { IfErr result (λ words. spec.in_number digits byte ≡ Err words.now) }
{
    match byte {
        b'0'..=b'9' if digits < 7 => Ok(Before::Number(digits + 1)),
        b'0'..=b'9' => Err("no document has more than 1000000 characters"),
        b'e' | b'E' => Err("numbers are whole"),
        _ => behind_component(byte),
    }
}

fn behind_array(byte: u8) -> Result<Before, &'static str>
    ensures ok { IfOk result (λ after. spec.behind_array byte ≡ Ok after) }
    ensures err { IfErr result (λ words. spec.behind_array byte ≡ Err words.now) }
{
    if is_space(byte) {
        return Ok(Before::Closing);
    }
    match byte {
        b';' => Err("a comment stands on a line of its own"),
        b',' => Err("no comma stands behind the array"),
        _ => Err("nothing stands behind the array"),
    }
}

// A string that is no component, but all.
fn behind_string(byte: u8) -> Result<Before, &'static str>
    ensures ok { IfOk result (λ after. spec.behind_string byte ≡ Ok after) }
    ensures err { IfErr result (λ words. spec.behind_string byte ≡ Err words.now) }
{
    if is_space(byte) {
        return Ok(Before::Component);
    }
    match byte {
        b';' => Err("a comment stands on a line of its own"),
        _ => Err("nothing stands behind the string"),
    }
}

// What stands before the next byte, where this one is right; `json` is the text from it on.
fn next(is_array: bool, before: Before, byte: u8, json: &[u8]) -> Result<Before, &'static str>
    ensures ok { IfOk result (λ after. spec.next is_array before byte json.now ≡ Ok after) }
    ensures err { IfErr result (λ words. spec.next is_array before byte json.now ≡ Err words.now) }
{
    match before {
        Before::Opening => behind_opening(byte),
        Before::Comma => behind_comma(byte),
        Before::Minus => behind_minus(byte),
        Before::Number(digits) => in_number(digits, byte),
        Before::Component if is_array => behind_component(byte),
        Before::Component => behind_string(byte),
        Before::Text => in_string(byte, json),
        Before::Escape(left) => Ok(in_escape(left)),
        Before::Closing => behind_array(byte),
    }
}

// What is wrong at the end of a text; where no byte is wrong, the array as a whole is.
fn end_note(is_array: bool, before: Before, at: usize) -> Note
    ensures value { spec.note_value result ≡ spec.end_note is_array before at }
    ensures within { result.at ≤ at }
{
    let (at, words) = match before {
        Before::Closing => (0, "this is no array of strings and numbers"),
        Before::Component if !is_array => (0, ""),
        Before::Text | Before::Escape(_) => (at, "the string is not closed"),
        _ => (at, "the array is not closed"),
    };
    Note { at, words }
}

// The first byte behind the first one that is wrong, where this stands before it.
fn cause_behind(is_array: bool, first: Before, json: &[u8]) -> Note
    requires { 0 < length json.now }
    ensures value { spec.note_value result ≡ spec.cause_from is_array 1 first (drop 1 json.now) }
    ensures within { result.at ≤ length json.now }
{
    let mut before = first;
    let mut at = 1;
    while at < json.len() {
        let (_, rest) = json.split_at(at);
        match next(is_array, before, json[at], rest) {
            Ok(after) => before = after,
            Err(words) => return Note { at, words },
        }
        at += 1;
    }
    end_note(is_array, before, at)
}

/// Why a text is no operation.
pub(crate) fn operation_note(json: &[u8]) -> Note
    ensures value { spec.note_value result ≡ spec.operation_note json.now }
    ensures within { result.at ≤ length json.now }
{
    match json.first() {
        Some(b'[') => cause_behind(true, Before::Opening, json),
        Some(_) => Note {
            at: 0,
            words: "an operation is an array, and nothing round it",
        },
        None => Note { at: 0, words: "" },
    }
}

/// Why a text is no JSON string.
pub(crate) fn string_note(json: &[u8]) -> Note
    ensures value { spec.note_value result ≡ spec.string_note json.now }
    ensures within { result.at ≤ length json.now }
{
    match json.first() {
        Some(b'"') => cause_behind(false, Before::Text, json),
        _ => Note { at: 0, words: "" },
    }
}

//! The code points of two texts that may look alike, from where they first differ.

ghost use Rattle.std.specs.Prelude.{◌≡◌, ◌++◌, IfOk, OnOk, option_map, string_bytes};
ghost use Rattle.std.specs.Str.{chars};
ghost use Rattle.ot_conform.specs.Points.{begins_plain, four_from, point_text, points_of, points_row, points_rows, points_text, points_value, zeros};

use crate::answers::{letters, same_front};
use std::alloc::{AllocError, Global};

// The characters from a place on, four at most.
fn four_from(text: &[char], place: usize) -> &[char]
    ensures { result.now ≡ four_from place text.now }
{
    let rest = &text[place.min(text.len())..];
    &rest[..rest.len().min(4)]
}

// Whether the first one, if there is one, is a character of ASCII that is seen.
fn begins_plain(text: &[char]) -> bool
    ensures { result ≡ begins_plain text.now }
{
    match text.first() {
        Some(letter) => *letter >= ' ' && *letter <= '~',
        None => true,
    }
}

// The zeros before a code point's number, which has four digits or more.
fn zeros(letter: char) -> &'static str
    ensures { result.now ≡ zeros letter }
{
    if letter < '\u{10}' {
        "000"
    } else if letter < '\u{100}' {
        "00"
    } else if letter < '\u{1000}' {
        "0"
    } else {
        ""
    }
}

// A code point, behind a blank.
fn point_text(alloc: Global, letter: char) -> Result<String, AllocError>
    ensures { IfOk result (λ s. string_bytes s ≡ point_text letter) }
{
    let zeros = zeros(letter);
    let number = letter as u32;
    format!(in alloc; " U+{zeros}{number:X}")
}

fn push_points(alloc: Global, row: &mut String, text: &[char]) -> Result<(), AllocError>
    ensures { OnOk result (string_bytes row.new ≡ string_bytes row.old ++ points_text text.now) }
{
    for letter in text {
        let point = point_text(alloc, *letter)?;
        row.push_str(point.as_str())?;
    }
    Ok(())
}

fn points_row(alloc: Global, found: &[char], wanted: &[char]) -> Result<String, AllocError>
    ensures { IfOk result (λ s. string_bytes s ≡ points_row found.now wanted.now) }
{
    let mut row = String::from_str(alloc, "points")?;
    push_points(alloc, &mut row, found)?;
    row.push_str(" |")?;
    push_points(alloc, &mut row, wanted)?;
    row.push_str("\n")?;
    Ok(row)
}

/// The characters of two texts from where they first differ, four at most of each.
#[derive(Drop)]
pub(crate) struct Points {
    pub found: Vec<char>,
    pub wanted: Vec<char>,
}

/// Those of both texts; none where what differs are characters of ASCII that are seen.
pub(crate) fn points_of(
    alloc: Global,
    found: &str,
    wanted: &str,
) -> Result<Option<Points>, AllocError>
    ensures { IfOk result (λ p. option_map points_value p ≡ points_of (chars found.now) (chars wanted.now)) }
{
    let found = letters(alloc, found)?;
    let wanted = letters(alloc, wanted)?;
    let same = same_front(found.as_slice(), wanted.as_slice());
    let found = four_from(found.as_slice(), same);
    let wanted = four_from(wanted.as_slice(), same);
    if begins_plain(found) && begins_plain(wanted) {
        return Ok(None);
    }
    Ok(Some(Points {
        found: found.to_vec(alloc)?,
        wanted: wanted.to_vec(alloc)?,
    }))
}

/// Their row.
pub(crate) fn points_rows(alloc: Global, points: &Option<Points>) -> Result<String, AllocError>
    ensures { IfOk result (λ s. string_bytes s ≡ points_rows (option_map points_value points.now)) }
{
    match points {
        Some(points) => points_row(alloc, points.found.as_slice(), points.wanted.as_slice()),
        None => Ok(String::new(alloc)),
    }
}

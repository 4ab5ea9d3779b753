//! Words of a comment that can be shown as they are.

ghost use Rattle.std.specs.Prelude.{◌≡◌, IfOk};
ghost use Rattle.ot_asm.specs.Plain.{all_seen, is_control, is_hidden, is_mark, is_plain, is_sign, is_special, is_within, shown};

use crate::json_text::read_text;
use std::alloc::{AllocError, Global};

fn is_within(low: u32, high: u32, c: u32) -> bool
    ensures { result ≡ is_within low high c }
{
    low <= c && c <= high
}

fn is_control(c: u32) -> bool
    ensures { result ≡ is_control c }
{
    c < 0x20 || is_within(0x7F, 0x9F, c)
}

fn is_sign(c: u32) -> bool
    ensures { result ≡ is_sign c }
{
    c == 0xAD || c == 0x61C || c == 0x180E
}

fn is_mark(c: u32) -> bool
    ensures { result ≡ is_mark c }
{
    is_within(0x200B, 0x200F, c) || is_within(0x2028, 0x202E, c) || is_within(0x2060, 0x206F, c)
}

fn is_special(c: u32) -> bool
    ensures { result ≡ is_special c }
{
    c == 0xFEFF || is_within(0xFFF9, 0xFFFB, c) || is_within(0xE0000, 0xE0FFF, c)
}

// A character that is not seen, or turns the direction of writing.
fn is_hidden(c: u32) -> bool
    ensures { result ≡ is_hidden c }
{
    is_control(c) || is_sign(c) || is_mark(c) || is_special(c)
}

fn all_seen(letters: &[char]) -> bool
    ensures { result ≡ all_seen letters.now }
{
    let mut rest = letters;
    while let Some((letter, below)) = rest.split_first() {
        if is_hidden(*letter as u32) {
            return false;
        }
        rest = below;
    }
    true
}

fn is_plain(alloc: Global, words: &[u8]) -> Result<bool, AllocError>
    ensures { IfOk result (λ plain. plain ≡ is_plain words.now) }
{
    match read_text(words) {
        Some(text) => {
            let letters: Vec<char> = text.chars().collect(alloc)?;
            Ok(all_seen(letters.as_slice()))
        }
        None => Ok(false),
    }
}

/// The words if they are plain, and none if they are not.
pub fn shown(alloc: Global, words: &[u8]) -> Result<Vec<u8>, AllocError>
    ensures { IfOk result (λ v. v.items ≡ shown words.now) }
{
    if is_plain(alloc, words)? {
        Vec::from_slice(alloc, words)
    } else {
        Ok(Vec::new(alloc))
    }
}

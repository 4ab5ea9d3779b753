//! Numbers, characters and texts by chance.

ghost use Rattle.std.specs.Prelude.{◌≡◌, ◌<◌, length, IfOk};

use rand_core::Rng;
use rand_pcg::Pcg32;
use std::alloc::{AllocError, Global};

/// Characters that ports get wrong: past U+FFFF, combining, of two and three bytes, and such as JSON escapes.
const RARE: [char; 9] = [
    '\u{1F600}',
    '\u{1D4B3}',
    '\u{301}',
    '\u{E9}',
    '\u{939}',
    '"',
    '\\',
    '\n',
    '\0',
];

/// A number below `count`.
pub fn below(chance: &mut Pcg32, count: u32) -> u32
    requires { 0 < count }
    ensures { result < count }
{
    chance.next_u32() % count
}

/// A letter, or one time in ten a rare character.
fn draw_char(chance: &mut Pcg32) -> char {
    if below(chance, 10) == 0 {
        RARE[below(chance, 9) as usize]
    } else {
        (b'a' + below(chance, 26) as u8) as char
    }
}

/// A text of so many characters.
pub fn draw_text(alloc: Global, chance: &mut Pcg32, count: usize) -> Result<Vec<char>, AllocError>
    ensures { IfOk result (λ text. length text.items ≡ count) }
{
    let mut text = Vec::with_capacity(alloc, count)?;
    for place in 0..count {
        let _ = place;
        text.push(draw_char(chance))?;
    }
    Ok(text)
}

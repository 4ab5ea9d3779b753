//! The lines of a text at which its instructions stand.

ghost use Rattle.std.specs.Prelude.{◌≡◌, ◌++◌, IfOk, OnOk};
ghost use Rattle.ot_asm.specs.Words.{counts};
ghost use Rattle.ot_explain.specs.Placed.{has_instr, is_above, place_of, places};

use ot_asm::{split_word, trimmed};
use std::alloc::{AllocError, Global};
use streams::split_line;

// Whether a line, once trimmed, is neither blank nor a comment.
fn counts(line: &[u8]) -> bool
    ensures { result ≡ counts line.now }
{
    match line.split_first() {
        Some((first, _)) => *first != b';',
        None => false,
    }
}

// Whether a word begins a line above the instructions.
fn is_above(word: &[u8]) -> bool
    ensures { result ≡ is_above word.now }
{
    word == b"clients".as_slice() || word == b"present".as_slice() || word == b"start".as_slice()
}

// Whether an instruction stands on the line.
fn has_instr(line: &[u8]) -> bool
    ensures { result ≡ has_instr line.now }
{
    let line = trimmed(line);
    let (word, _) = split_word(line);
    counts(line) && !is_above(word)
}

// Adds the number of a line with an instruction.
fn add_line(found: &mut Vec<u64>, line: &[u8], number: u64) -> Result<(), AllocError>
    ensures { OnOk result (found.new.items ≡ found.old.items ++ place_of number line.now) }
{
    if has_instr(line) {
        found.push(number)?;
    }
    Ok(())
}

/// The lines at which the instructions of a schedule's text stand, in order, counted from 1; or out of memory.
pub fn places(alloc: Global, text: &[u8]) -> Result<Vec<u64>, AllocError>
    ensures { IfOk result (λ v. v.items ≡ places text.now) }
{
    let mut found = Vec::new(alloc);
    let mut rest = text;
    let mut number = 1;
    while let Some((line, below)) = split_line(rest) {
        add_line(&mut found, line, number)?;
        rest = below;
        number += 1;
    }
    add_line(&mut found, rest, number)?;
    Ok(found)
}

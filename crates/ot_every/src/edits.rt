//! The edits of a client's document.

ghost use Rattle.std.specs.Prelude.{◌≡◌, ◌+◌, ◌*◌, ◌<◌, ◌≤◌, ◌++◌, length, map, vec_items, IfOk, OnOk};
ghost use Rattle.ot_isa.specs.declared.instruction.Instr.TheVariants.{Edit};
ghost use Rattle.ot_operation.specs.declared.TheConstants.{LIMIT};
ghost use Rattle.ot_every.specs.Forms.{forms};
ghost use Rattle.ot_every.specs.Listing.{letters_of, texts_from};
ghost use Rattle.ot_every.specs.Walking.{ends, letter_of};

use ot_isa::Instr;
use ot_text::{TextOp, only_memory};
use std::alloc::{AllocError, Global};

// The small or the capital letter of the edit with this number.
fn letter(edit: usize, is_small: bool) -> char
    requires { edit < 26 }
    ensures { result ≡ letter_of is_small edit }
{
    let first = if is_small { b'a' } else { b'A' };
    (first + edit as u8) as char
}

// The letters of the insertions of the edit with this number: small ones and capitals in turn.
fn letters(alloc: Global, edit: usize, count: usize) -> Result<Vec<char>, AllocError>
    requires { edit < 26 }
    ensures { IfOk result (λ text. text.items ≡ letters_of count edit) }
{
    let mut text = Vec::new(alloc);
    let mut is_small = true;
    for place in 0..count {
        text.push(letter(edit, is_small))?;
        is_small = !is_small;
    }
    Ok(text)
}

/// The texts of so many edits, each of so many letters.
pub fn texts(alloc: Global, edits: usize, count: usize) -> Result<Vec<Vec<char>>, AllocError>
    requires { edits ≤ 26 }
    ensures { IfOk result (λ texts. map vec_items texts.items ≡ texts_from count 0 edits) }
{
    let mut texts = Vec::new(alloc);
    for edit in 0..edits {
        let text = letters(alloc, edit, count)?;
        texts.push(text)?;
    }
    Ok(texts)
}

// Adds the edits whose operations begin as `op` does, and go on over so many more characters with at most so many more insertions; none stands before the next
// character.
fn push_ends(
    next: &mut Vec<Instr>,
    client: u16,
    op: TextOp<char>,
    left: usize,
    text: &[char],
    inserts: usize,
) -> Result<(), AllocError>
    requires base { op.base + left ≤ LIMIT }
    requires target { length op.image + (left + inserts * length text.now) ≤ LIMIT }
    ensures { OnOk result (next.new.items ≡ next.old.items ++ map (Edit client) (ends text.now op left inserts)) }
{
    if left == 0 {
        next.push(Instr::Edit(client, op))?;
        return Ok(());
    }
    let mut kept = op.copy()?;
    only_memory(kept.retain(1))?;
    let mut gone = op;
    only_memory(gone.delete(1))?;
    if inserts == 0 {
        push_ends(next, client, kept, left - 1, text, 0)?;
        push_ends(next, client, gone, left - 1, text, 0)?;
        return Ok(());
    }
    let mut longer = kept.copy()?;
    only_memory(longer.insert(text))?;
    push_ends(next, client, kept, left - 1, text, inserts)?;
    push_ends(next, client, longer, left - 1, text, inserts - 1)?;
    push_ends(next, client, gone, left - 1, text, inserts)?;
    Ok(())
}

/// Adds the client's edits over so many characters with at most so many insertions of the text.
pub fn push_edits(
    alloc: Global,
    next: &mut Vec<Instr>,
    client: u16,
    text: &[char],
    inserts: usize,
    count: usize,
) -> Result<(), AllocError>
    requires { count + inserts * length text.now ≤ LIMIT }
    ensures { OnOk result (next.new.items ≡ next.old.items ++ map (Edit client) (forms text.now inserts count)) }
{
    push_ends(next, client, TextOp::new(alloc), count, text, inserts)?;
    if inserts == 0 {
        return Ok(());
    }
    let mut op = TextOp::new(alloc);
    only_memory(op.insert(text))?;
    push_ends(next, client, op, count, text, inserts - 1)?;
    Ok(())
}

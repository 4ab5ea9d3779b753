//! Edits by chance.

ghost use Rattle.std.specs.Prelude.{◌≡◌, ◌+◌, ◌≤◌, length, IfOk};
ghost use Rattle.ot_operation.specs.Operation.{news};
ghost use Rattle.ot_operation.specs.declared.TheConstants.{LIMIT};

use crate::chance::{below, draw_text};
use ot_text::{OpRefusal, TextOp, only_memory};
use rand_pcg::Pcg32;
use std::alloc::{AllocError, Global};

/// What an edit does at one place: it retains so many characters, so many are inserted, and so many deleted. What is not there is neither retained
/// nor deleted.
#[derive(Clone, Copy)]
struct Stroke {
    keep: usize,
    come: usize,
    gone: usize,
}

const NO_STROKE: Stroke = Stroke {
    keep: 0,
    come: 0,
    gone: 0,
};

// The document's ends, its middle, or anywhere: so edits of several clients often meet.
fn draw_place(chance: &mut Pcg32, size: usize) -> usize
    requires { size ≤ LIMIT }
{
    match below(chance, 4) {
        0 => 0,
        1 => size,
        2 => size / 2,
        _ => below(chance, size as u32 + 1) as usize,
    }
}

fn draw_count(chance: &mut Pcg32, least: usize, count: u32) -> usize
    requires least { least ≤ 1 }
    requires count { 1 ≤ count }
{
    least + below(chance, count) as usize
}

// One edit in six deletes two stretches or more, one in thirty the whole document, and one in sixty changes nothing.
fn draw_strokes(chance: &mut Pcg32, size: usize) -> (Stroke, Stroke)
    requires { size ≤ LIMIT }
{
    let keep = draw_place(chance, size);
    let come = draw_count(chance, 1, 3);
    let gone = draw_count(chance, 1, 4);
    match below(chance, 60) {
        0..=24 => (
            Stroke {
                keep,
                come,
                gone: 0,
            },
            NO_STROKE,
        ),
        25..=36 => (
            Stroke {
                keep: keep.saturating_sub(gone),
                come: 0,
                gone,
            },
            NO_STROKE,
        ),
        37..=46 => (Stroke { keep, come, gone }, NO_STROKE),
        47..=56 => several(chance, come, gone),
        57 => (
            Stroke {
                keep: 0,
                come: 0,
                gone: size,
            },
            NO_STROKE,
        ),
        58 => (
            Stroke {
                keep: 0,
                come,
                gone: size,
            },
            NO_STROKE,
        ),
        _ => (NO_STROKE, NO_STROKE),
    }
}

fn several(chance: &mut Pcg32, come: usize, gone: usize) -> (Stroke, Stroke) {
    let first = Stroke {
        keep: draw_count(chance, 0, 3),
        come,
        gone: draw_count(chance, 0, 3),
    };
    let second = Stroke {
        keep: draw_count(chance, 1, 3),
        come: draw_count(chance, 0, 2),
        gone,
    };
    (first, second)
}

// Carries a stroke out on what is left of the document, and gives what is left behind it.
fn carry_out(
    alloc: Global,
    chance: &mut Pcg32,
    op: &mut TextOp<char>,
    left: usize,
    stroke: Stroke,
) -> Result<usize, OpRefusal>
    ensures { IfOk result (λ rest. op.new.base + rest ≡ op.old.base + left) }
{
    let keep = stroke.keep.min(left);
    let gone = stroke.gone.min(left - keep);
    let text = draw_text(alloc, chance, stroke.come)?;
    op.retain(keep)?;
    op.insert(text.as_slice())?;
    op.delete(gone)?;
    Ok(left - keep - gone)
}

fn draw_changes(alloc: Global, chance: &mut Pcg32, size: usize) -> Result<TextOp<char>, OpRefusal>
    requires { size ≤ LIMIT }
    ensures { IfOk result (λ op. op.base ≡ size) }
{
    let (first, second) = draw_strokes(chance, size);
    let mut op = TextOp::new(alloc);
    let left = carry_out(alloc, chance, &mut op, size, first)?;
    let left = carry_out(alloc, chance, &mut op, left, second)?;
    op.retain(left)?;
    Ok(op)
}

fn identity(alloc: Global, size: usize) -> Result<TextOp<char>, AllocError>
    requires { size ≤ LIMIT }
    ensures base { IfOk result (λ op. op.base ≡ size) }
    ensures none { IfOk result (λ op. length (news op.image) ≡ 0) }
{
    let mut op = TextOp::new(alloc);
    only_memory(op.retain(size))?;
    Ok(op)
}

/// An edit of a document of `size` characters, at most 1,000,000, that inserts at most `most`. One that would insert more, or make the
/// document too long, changes nothing in its place.
pub fn draw_edit(
    alloc: Global,
    chance: &mut Pcg32,
    size: usize,
    most: usize,
) -> Result<TextOp<char>, AllocError>
    requires { size ≤ LIMIT }
    ensures base { IfOk result (λ op. op.base ≡ size) }
    ensures few { IfOk result (λ op. length (news op.image) ≤ most) }
{
    match draw_changes(alloc, chance, size) {
        Ok(op) if op.inserted() <= most => Ok(op),
        Err(OpRefusal::Memory) => Err(AllocError),
        _ => identity(alloc, size),
    }
}

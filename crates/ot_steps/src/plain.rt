//! Operations without tags.

ghost use Rattle.std.specs.Prelude.{◌≡◌, IfOk};
ghost use Rattle.ot_isa.specs.Tagging.{chars_of};
ghost use Rattle.ot_steps.specs.Lines.{plain_operation};

use ot_isa::Tagged;
use ot_text::TextOp;
use std::alloc::{AllocError, Global};

fn letters(alloc: Global, items: &[Tagged]) -> Result<Vec<char>, AllocError>
    ensures { IfOk result (λ v. v.items ≡ chars_of items.now) }
{
    items.iter().map(|item| item.ch).collect(alloc)
}

/// The operation without the tags of what it inserts, or out of memory.
pub fn plain_operation(alloc: Global, op: &TextOp<Tagged>) -> Result<TextOp<char>, AllocError>
    ensures { IfOk result (λ plain. plain ≡ plain_operation op.now) }
{
    let codes = op.codes().copy()?;
    let text = letters(alloc, op.text())?;
    Ok(TextOp::from_parts(codes, text))
}

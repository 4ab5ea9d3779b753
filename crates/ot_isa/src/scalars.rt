//! That characters are Unicode scalar values, as facts for contracts.
//!
//! A `char` is one by its type. A contract sees the numbers alone, so a walk that only reads proves it of a whole
//! text; an optimizer can leave nothing of such a walk.

ghost use Rattle.std.specs.Prelude.{◌≡◌, true};
ghost use Rattle.std.specs.Str.{all_scalars};
ghost use Rattle.ot_operation.specs.Operation.{news};

use ot_text::TextOp;

/// Each character of the text is a Unicode scalar value.
pub fn are_scalars(text: &[char])
    ensures { all_scalars text.now ≡ true }
{
    for ch in text {
        let ch = *ch;
        // For the proof: a character is a Unicode scalar.
        let _code = ch as u32;
    }
}

/// Each character that the operation inserts is a Unicode scalar value.
pub fn inserts_scalars(op: &TextOp<char>)
    ensures { all_scalars (news op.now.image) ≡ true }
{
    are_scalars(op.text())
}

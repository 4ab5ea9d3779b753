//! The line between a schedule and the commands behind it.

ghost use Rattle.std.specs.Prelude.{◌≡◌, ◌&&◌};
ghost use Rattle.ot_asm.specs.Parts.{is_mark};

use crate::words::trimmed;

/// Marks count, and the line is `%%` once one CR at its end and then blanks at both ends are dropped.
pub fn ends_part(marked: bool, line: &[u8]) -> bool
    ensures { result ≡ (marked && is_mark line.now) }
{
    marked && trimmed(line) == b"%%".as_slice()
}

//! Lines as comments.

ghost use Rattle.std.specs.Prelude.{◌≡◌, ◌++◌, OnOk};
ghost use Rattle.ot_threads.specs.Record.{commented};

use std::alloc::AllocError;

/// Appends a text whose lines become comments of an assembly text: `; ` stands before each.
pub fn push_comment(text: &mut Vec<u8>, lines: &[u8]) -> Result<(), AllocError>
    ensures { OnOk result (text.new.items ≡ text.old.items ++ commented lines.now) }
{
    let mut starts = true;
    for byte in lines {
        if starts {
            text.extend_from_slice([b';', b' '].as_slice())?;
        }
        text.push(*byte)?;
        starts = *byte == b'\n';
    }
    Ok(())
}

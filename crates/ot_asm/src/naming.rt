//! A text with the clients' names.

ghost use Rattle.std.specs.Prelude.{◌≡◌, ◌++◌, IfOk, OnOk};
ghost use Rattle.ot_asm.specs.Named.{in_brackets, named};

use crate::comments::Comments;
use crate::passing::split_at_number;
use std::alloc::{AllocError, Global};

// Adds a name in brackets, if there is one.
fn push_in_brackets(shown: &mut Vec<u8>, name: &[u8]) -> Result<(), AllocError>
    ensures { OnOk result (shown.new.items ≡ shown.old.items ++ in_brackets name.now) }
{
    match name.split_first() {
        Some(_) => {
            shown.extend_from_slice(b" (".as_slice())?;
            shown.extend_from_slice(name)?;
            shown.extend_from_slice(b")".as_slice())?;
            Ok(())
        }
        None => Ok(()),
    }
}

/// The text with ` (NAME)` behind each `client N` that stands outside of a JSON string and whose client the comments name; or out of
/// memory.
pub fn named(alloc: Global, text: &[u8], comments: &Comments) -> Result<Vec<u8>, AllocError>
    ensures { IfOk result (λ v. v.items ≡ named comments.now.names text.now) }
{
    if !comments.has_names() {
        return Vec::from_slice(alloc, text);
    }
    let mut shown = Vec::with_capacity(alloc, text.len())?;
    let mut rest = text;
    while let Some((front, client, behind)) = split_at_number(rest) {
        shown.extend_from_slice(front)?;
        push_in_brackets(&mut shown, comments.name(client))?;
        rest = behind;
    }
    shown.extend_from_slice(rest)?;
    Ok(shown)
}

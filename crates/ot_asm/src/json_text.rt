//! The JSON texts of a line.

ghost use Rattle.std.specs.Prelude.{◌≡◌, None, Ok, true, false, IfOk, IfSome, option_map};
ghost use Rattle.std.specs.Str.{is_utf8};
ghost use Rattle.serde_json.specs.View.{view};
ghost use Rattle.ot_asm.specs.Stepping.{json_of};

use serde_json::Value;
use std::alloc::{AllocError, Global};

/// The text that bytes are, if they are UTF-8.
pub fn read_text(bytes: &[u8]) -> Option<&str>
    ensures some { IfSome result (λ t. (t.now ≡ bytes.now) × (is_utf8 bytes.now ≡ true)) }
    ensures none { result ≡ None → is_utf8 bytes.now ≡ false }
{
    match str::from_utf8(bytes) {
        Ok(text) => Some(text),
        Err(_) => None,
    }
}

/// The JSON value that bytes are, if they are one.
pub fn read_json(alloc: Global, bytes: &[u8]) -> Result<Option<Value>, AllocError>
    ensures { IfOk result (λ v. option_map view v ≡ json_of bytes.now) }
{
    match read_text(bytes) {
        Some(text) => match Value::from_str(alloc, text) {
            Ok(value) => Ok(Some(value)),
            Err(error) if error.is_memory() => Err(AllocError),
            Err(_) => Ok(None),
        },
        None => Ok(None),
    }
}

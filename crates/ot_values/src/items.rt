//! The items of a JSON array or object, one by one.

ghost use Rattle.std.specs.Prelude.{◌≡◌, OnOk, string_bytes};
ghost use Rattle.ot_values.specs.Items.{with_item};

use std::alloc::AllocError;

/// Adds one item more, behind a comma where it is not the first. If memory runs out, the text holds a part of it.
pub fn push_item(text: &mut String, item: &str) -> Result<(), AllocError>
    ensures { OnOk result (string_bytes text.new ≡ with_item (string_bytes text.old) item.now) }
{
    if !text.is_empty() {
        text.push_str(",")?;
    }
    text.push_str(item)
}

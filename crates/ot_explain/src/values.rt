//! Values in words.

ghost use Rattle.std.specs.Prelude.{◌≡◌, ◌++◌, OnOk, string_bytes};
ghost use Rattle.std.specs.Option.{option_copied};
ghost use Rattle.ot_steps.specs.Held.{operations};
ghost use Rattle.ot_steps.specs.Lines.{plain_operation};
ghost use Rattle.ot_explain.specs.Words.{document_words, entry_text, is_short, list_text, operation_words, size_words, with_operation};

use ot_isa::Tagged;
use ot_server::Entry;
use ot_steps::{push_array, push_plain_array};
use ot_text::{Doc, Element, TextOp};
use ot_values::push_quoted;
use std::alloc::AllocError;

/// The most characters of a document that are shown.
const SHORT: usize = 80;

/// The most components of an operation that is shown whole.
const FEW_COMPONENTS: usize = 40;

/// The most inserted characters of an operation that is shown whole.
const FEW_INSERTED: usize = 200;

// Whether an operation is shown whole.
fn is_short<T: Element>(op: &TextOp<T>) -> bool
    ensures { result ≡ is_short op.now }
{
    op.component_count() <= FEW_COMPONENTS && op.inserted() <= FEW_INSERTED
}

// So many components, which make documents of the target length of those of the base length.
fn push_size(text: &mut String, count: usize, base: usize, target: usize) -> Result<(), AllocError>
    ensures { OnOk result (string_bytes text.new ≡ string_bytes text.old ++ size_words count base target) }
{
    if count == 1 {
        write!(
            text,
            "[1 component, which makes {target} characters of {base}]"
        )
    } else {
        write!(
            text,
            "[{count} components, which make {target} characters of {base}]"
        )
    }
}

/// Adds an edit's operation, whole where it is short, else by its size.
pub(crate) fn push_edit(text: &mut String, op: &TextOp<char>) -> Result<(), AllocError>
    ensures { OnOk result (string_bytes text.new ≡ string_bytes text.old ++ operation_words op.now) }
{
    if is_short(op) {
        return push_array(op.allocator(), text, op);
    }
    push_size(text, op.component_count(), op.base_len(), op.target_len())
}

/// Adds an operation without its tags, whole where it is short, else by its size.
pub(crate) fn push_operation(text: &mut String, op: &TextOp<Tagged>) -> Result<(), AllocError>
    ensures { OnOk result (string_bytes text.new ≡ string_bytes text.old ++ operation_words (plain_operation op.now)) }
{
    if is_short(op) {
        return push_plain_array(op.allocator(), text, op);
    }
    push_size(text, op.component_count(), op.base_len(), op.target_len())
}

/// Adds these words and the operation, or where there is none the other words.
pub(crate) fn push_with(
    text: &mut String,
    words: &str,
    op: Option<&TextOp<Tagged>>,
    other: &str,
) -> Result<(), AllocError>
    ensures { OnOk result (string_bytes text.new ≡ string_bytes text.old ++ with_operation words.now (operations op.entry) other.now) }
{
    let Some(op) = op else {
        return text.push_str(other);
    };
    text.push_str(words)?;
    push_operation(text, op)
}

/// Adds an entry of the log, if there is one.
pub(crate) fn push_entry(text: &mut String, entry: Option<&Entry<Tagged>>) -> Result<(), AllocError>
    ensures { OnOk result (string_bytes text.new ≡ string_bytes text.old ++ entry_text (option_copied entry.entry)) }
{
    let Some(entry) = entry else {
        return text.push_str("nothing");
    };
    let maker = entry.maker();
    write!(text, "client {maker}'s operation ")?;
    push_operation(text, entry.operation())
}

/// Adds the document as a JSON string where it is short, else its length.
pub(crate) fn push_list(text: &mut String, list: &Doc<Tagged>) -> Result<(), AllocError>
    ensures { OnOk result (string_bytes text.new ≡ string_bytes text.old ++ list_text list.now) }
{
    let count = list.len();
    if count > SHORT {
        return write!(text, "{count} characters long");
    }
    push_quoted(list.allocator(), text, list)
}

/// Adds these words, the document and the line's end.
pub(crate) fn push_document(
    text: &mut String,
    words: &str,
    list: &Doc<Tagged>,
) -> Result<(), AllocError>
    ensures { OnOk result (string_bytes text.new ≡ string_bytes text.old ++ document_words words.now list.now) }
{
    text.push_str(words)?;
    push_list(text, list)?;
    text.push_str("\n")
}

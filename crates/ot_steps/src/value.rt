//! The values of a line, and their texts.

ghost use Rattle.std.specs.Prelude.{◌≡◌, ◌++◌, IfOk, OnOk, string_bytes};
ghost use Rattle.ot_client.specs.Client.{message_of};
ghost use Rattle.ot_json.specs.Writing.{text_of_operation};
ghost use Rattle.ot_steps.specs.Held.{value_of};
ghost use Rattle.ot_steps.specs.Lines.{plain_message, plain_operation};
ghost use Rattle.ot_steps.specs.Text.{message_text, value_text};

use crate::operations::{push_components, push_decimal};
use ot_client::Sent;
use ot_isa::Tagged;
use ot_text::{Doc, TextOp};
use ot_values::{push_letters, push_quoted};
use std::alloc::{AllocError, Global};

/// What a line has under a key.
#[derive(Clone, Copy)]
pub enum Value<'a> {
    Number(u64),
    /// A name, which JSON writes as it is.
    Name(&'a str),
    Letters(&'a [char]),
    Document(&'a Doc<Tagged>),
    Edit(&'a TextOp<char>),
    Operation(&'a TextOp<Tagged>),
    Message(&'a Sent<Tagged>),
}

/// Adds the operation as a compact JSON array. If memory runs out, the text holds a part of it.
pub fn push_array(alloc: Global, text: &mut String, op: &TextOp<char>) -> Result<(), AllocError>
    ensures { OnOk result (string_bytes text.new ≡ string_bytes text.old ++ text_of_operation op.now) }
{
    push_components(alloc, text, op.components())
}

/// Adds the operation as a compact JSON array, without the tags of what it inserts. If memory runs out, the text holds a part of it.
pub fn push_plain_array(
    alloc: Global,
    text: &mut String,
    op: &TextOp<Tagged>,
) -> Result<(), AllocError>
    ensures { OnOk result (string_bytes text.new ≡ string_bytes text.old ++ text_of_operation (plain_operation op.now)) }
{
    push_components(alloc, text, op.components())
}

// A message: `{"revision":R,"operation":[..]}`.
fn push_message(alloc: Global, text: &mut String, message: &Sent<Tagged>) -> Result<(), AllocError>
    ensures { OnOk result (string_bytes text.new ≡ string_bytes text.old ++ message_text (plain_message (message_of message.now))) }
{
    text.push_str("{\"revision\":")?;
    push_decimal(text, message.revision as u64)?;
    text.push_str(",\"operation\":")?;
    push_plain_array(alloc, text, &message.op)?;
    text.push_str("}")
}

impl Value<'_> {
    /// Adds it as compact JSON, operations without the tags of what they insert. If memory runs out, the text holds a part of it.
    pub(crate) fn push(&self, alloc: Global, text: &mut String) -> Result<(), AllocError>
        ensures { OnOk result (string_bytes text.new ≡ string_bytes text.old ++ value_text (value_of self.now)) }
    {
        match self {
            Value::Number(number) => push_decimal(text, *number),
            Value::Name(name) => {
                text.push_str("\"")?;
                text.push_str(name)?;
                text.push_str("\"")
            }
            Value::Letters(letters) => push_letters(alloc, text, letters),
            Value::Document(document) => push_quoted(alloc, text, document),
            Value::Edit(op) => push_array(alloc, text, op),
            Value::Operation(op) => push_plain_array(alloc, text, op),
            Value::Message(message) => push_message(alloc, text, message),
        }
    }

    /// It as compact JSON.
    pub fn text(&self, alloc: Global) -> Result<String, AllocError>
        ensures { IfOk result (λ s. string_bytes s ≡ value_text (value_of self.now)) }
    {
        let mut text = String::new(alloc);
        self.push(alloc, &mut text)?;
        Ok(text)
    }
}

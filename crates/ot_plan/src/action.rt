//! One action in a JSON value.

ghost use Rattle.std.specs.Prelude.{◌≡◌, IfOk, length, option_map, true};
ghost use Rattle.std.specs.Str.{chars};
ghost use Rattle.serde_json.specs.View.{view};
ghost use Rattle.ot_plan.specs.Typing.{action_view};
ghost use Rattle.ot_plan.specs.Reading.{action_of, is_action};
ghost use Rattle.ot_plan.specs.Layout.{text_action};

use crate::typing::Typing;
use ot_json::{number_at, number_or, text_or_empty};
use ot_text::LIMIT;
use serde_json::Value;
use std::alloc::{AllocError, Global};

/// The most that an action's place and number of deletions may be.
const MOST: u64 = LIMIT as u64;

/// An action whose text lies in the JSON value, its numbers of any size.
#[derive(Clone, Copy)]
pub struct ActionText<'a> {
    pub at: u64,
    pub delete: u64,
    pub insert: &'a str,
}

/// The action that a value is.
pub fn action_of(value: &Value) -> Option<ActionText<'_>>
    ensures { option_map text_action result ≡ action_of (view value.now) }
{
    let at = number_at(value, "at")?;
    let delete = number_or(value, "delete", 0)?;
    let insert = text_or_empty(value, "insert")?;
    Some(ActionText { at, delete, insert })
}

/// How many characters a text has.
pub fn char_count(text: &str) -> usize
    ensures { result ≡ length (chars text.now) }
{
    text.chars().count()
}

// The characters of a text.
pub fn chars_of(alloc: Global, text: &str) -> Result<Vec<char>, AllocError>
    ensures { IfOk result (λ v. v.items ≡ chars text.now) }
{
    text.chars().collect(alloc)
}

/// Whether the action's numbers are in range.
pub fn is_action(a: &ActionText<'_>) -> bool
    ensures { result ≡ is_action (text_action a.now) }
{
    a.at <= MOST && a.delete <= MOST
}

/// The action by itself.
pub fn typing_of(alloc: Global, a: &ActionText<'_>) -> Result<Typing, AllocError>
    requires { is_action (text_action a.now) ≡ true }
    ensures { IfOk result (λ t. action_view t ≡ text_action a.now) }
{
    let insert = chars_of(alloc, a.insert)?;
    Ok(Typing {
        at: a.at as u32,
        delete: a.delete as u32,
        insert,
    })
}

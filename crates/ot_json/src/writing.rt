//! From an operation to a text.

ghost use Rattle.std.specs.Prelude.{◌≡◌, Ok, IfOk, string_bytes};
ghost use Rattle.serde_json.specs.View.{view};
ghost use Rattle.ot_text.specs.Components.{run_of};
ghost use Rattle.ot_json.specs.Reading.{operation_of_text};
ghost use Rattle.ot_json.specs.Writing.{data_of, text_of_operation, IsCounted, HasScalars};

use ot_text::{ComponentRef, TextOp};
use serde_json::Value;
use std::alloc::{AllocError, Global};

/// The JSON value of a component.
fn value_of(alloc: Global, component: ComponentRef<'_, char>) -> Result<Value, AllocError>
    requires { IsCounted (run_of component) }
    ensures value { IfOk result (λ v. view v ≡ data_of (run_of component.entry)) }
    ensures scalars { IfOk result (λ v. HasScalars (run_of component.entry)) }
{
    match component {
        ComponentRef::Retain(count) => Ok(Value::from(count as u64)),
        ComponentRef::Delete(count) => Ok(Value::from(-1 - (count as u64 - 1) as i64)),
        ComponentRef::Insert(text) => {
            let letters: String = text.iter().copied().collect(alloc)?;
            Ok(Value::String(letters))
        }
    }
}

/// The compact text of the operation's array.
pub fn write_op(alloc: Global, op: &TextOp<char>) -> Result<String, AllocError>
    ensures text { IfOk result (λ s. string_bytes s ≡ text_of_operation op.now) }
    ensures reads_back { IfOk result (λ s. operation_of_text (string_bytes s) ≡ Ok op.now) }
{
    let mut items = Vec::new(alloc);
    for component in op.components() {
        items.push(value_of(alloc, component)?)?;
    }
    let array = Value::Array(items);
    array.to_string(alloc)
}

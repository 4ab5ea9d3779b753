//! From a text to an operation.

ghost use Rattle.std.specs.Prelude.{◌≡◌, ◌<◌, ◌⊎◌, Ok, Err, IfOk, IfErr, IsErrOf, IsOk, length};
ghost use Rattle.serde_json.specs.View.{view};
ghost use Rattle.ot_json.specs.Reading.{operation_of_data, operation_of_text};

use crate::building::read_items;
use crate::fault::OpFault;
use ot_text::TextOp;
use serde_json::Value;
use std::alloc::Global;

/// The operation that a JSON value is: the builder's result over the array from left to right, or the first faulty
/// component. Out of memory is answered only where the value has no fault.
pub fn op_of_value(alloc: Global, value: &Value) -> Result<TextOp<char>, OpFault>
    ensures ok { IfOk result (λ op. operation_of_data (view value.now) ≡ Ok op) }
    ensures err { IfErr result (λ e. (e ≡ OpFault.Memory) ⊎ (operation_of_data (view value.now) ≡ Err e)) }
    ensures memory { IsErrOf result OpFault.Memory → IsOk (operation_of_data (view value.now)) }
{
    match value.as_array() {
        Some(items) => read_items(alloc, items.as_slice()),
        None => Err(OpFault::NotArray),
    }
}

/// The operation that a JSON text is, or its fault. Where `serde_json` finds no memory for the value, the answer is
/// `Memory` whatever else the text holds; else `Memory` is answered only where there is no fault. An empty text takes no memory: it is
/// `NotJson`.
pub fn read_op(alloc: Global, text: &str) -> Result<TextOp<char>, OpFault>
    ensures ok { IfOk result (λ op. operation_of_text text.now ≡ Ok op) }
    ensures err { IfErr result (λ e. (e ≡ OpFault.Memory) ⊎ (operation_of_text text.now ≡ Err e)) }
    ensures memory { IsErrOf result OpFault.Memory → 0 < length text.now }
{
    match Value::from_str(alloc, text) {
        Ok(value) => op_of_value(alloc, &value),
        Err(error) if error.is_memory() => Err(OpFault::Memory),
        Err(_) => Err(OpFault::NotJson),
    }
}

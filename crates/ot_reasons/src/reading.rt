//! From a JSON text to a trace, or to the words for why there is none.

ghost use Rattle.std.specs.Prelude.{◌≡◌, ◌⊎◌, Ok, Err, IfErr, IfOk, string_bytes};
ghost use Rattle.serde_json.specs.View.{view};
ghost use Rattle.ot_judge.specs.Reading.{shape_of, trace_of_shape, trace_of_text};
ghost use Rattle.ot_reasons.specs.Words.{IsReason, IsValueReason};

use crate::json_faults::{bytes_reason, json_reason};
use crate::words::value_reason;
use ot_judge::{Trace, TraceFault, trace_of};
use serde_json::Value;
use std::alloc::{AllocError, Global};

/// Why a text is no trace: the fault, and below its line a line of words on where it is, what stands there and what is wanted.
#[derive(Drop)]
pub struct Reason {
    pub fault: TraceFault,
    pub words: String,
}

// That memory ran out.
fn memory(alloc: Global) -> Reason
    ensures { result.fault ≡ TraceFault.Memory }
{
    Reason {
        fault: TraceFault::Memory,
        words: String::new(alloc),
    }
}

// That the input is no JSON, with these words.
fn no_json(alloc: Global, words: Result<String, AllocError>) -> Reason
    ensures { (result.fault ≡ TraceFault.Memory) ⊎ (result.fault ≡ TraceFault.NotJson) }
{
    match words {
        Ok(words) => Reason {
            fault: TraceFault::NotJson,
            words,
        },
        Err(_) => memory(alloc),
    }
}

// The reason of a value that is refused with this fault.
fn reason_of(alloc: Global, value: &Value, fault: TraceFault) -> Reason
    requires { (fault ≡ TraceFault.Memory) ⊎ (trace_of_shape (shape_of (view value.now)) ≡ Err fault) }
    ensures { (result.fault ≡ TraceFault.Memory) ⊎ ((result.fault ≡ fault) × IsValueReason (view value.now) fault (string_bytes result.words)) }
{
    if fault == TraceFault::Memory {
        return memory(alloc);
    }
    match value_reason(alloc, value, fault) {
        Ok(words) => Reason { fault, words },
        Err(_) => memory(alloc),
    }
}

// The trace that a value spells, or why there is none.
fn trace_in(alloc: Global, value: &Value) -> Result<Trace, Reason>
    ensures ok { IfOk result (λ t. trace_of_shape (shape_of (view value.now)) ≡ Ok t) }
    ensures err { IfErr result (λ r. (r.fault ≡ TraceFault.Memory) ⊎ ((trace_of_shape (shape_of (view value.now)) ≡ Err r.fault) × IsValueReason (view value.now) r.fault (string_bytes r.words))) }
{
    match trace_of(alloc, value) {
        Ok(trace) => Ok(trace),
        Err(fault) => Err(reason_of(alloc, value, fault)),
    }
}

/// The trace that a JSON text is, or why it is none: the fault that `ot_judge::read_trace` answers, with its words. `Memory` where no
/// memory was found for the trace or the words; it has none.
pub fn read_or_tell(alloc: Global, text: &str) -> Result<Trace, Reason>
    ensures ok { IfOk result (λ t. trace_of_text text.now ≡ Ok t) }
    ensures err { IfErr result (λ r. (r.fault ≡ TraceFault.Memory) ⊎ ((trace_of_text text.now ≡ Err r.fault) × IsReason text.now r.fault (string_bytes r.words))) }
{
    match Value::from_str(alloc, text) {
        Ok(value) => trace_in(alloc, &value),
        Err(error) if error.is_memory() => Err(memory(alloc)),
        Err(_) => Err(no_json(alloc, json_reason(alloc, text))),
    }
}

/// Why bytes that are no UTF-8 are no trace: `NotJson`, or `Memory`.
pub fn no_text(alloc: Global, bytes: &[u8]) -> Reason
    ensures { (result.fault ≡ TraceFault.Memory) ⊎ (result.fault ≡ TraceFault.NotJson) }
{
    no_json(alloc, bytes_reason(alloc, bytes))
}

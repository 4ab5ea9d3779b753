//! From a JSON text to a plan, or to the words for why there is none.

ghost use Rattle.std.specs.Prelude.{◌≡◌, ◌⊎◌, Ok, Err, IfErr, IfOk, string_bytes};
ghost use Rattle.serde_json.specs.View.{view};
ghost use Rattle.ot_plan.specs.Reading.{plan_of_shape, plan_of_text, shape_of};
ghost use Rattle.ot_reasons.specs.Ignored.{ignored_in, ignored_of_text, key_values};
ghost use Rattle.ot_reasons.specs.PlanWords.{IsReason, IsValueReason};

use crate::ignored::{Ignored, ignored_keys};
use crate::json_faults::{bytes_reason, json_reason};
use crate::plan_words::value_reason;
use ot_plan::{Plan, PlanFault, plan_of};
use serde_json::Value;
use std::alloc::{AllocError, Global};

/// Why a text is no plan: the fault, and below its line a line of words on where it is, what stands there and what is wanted.
#[derive(Drop)]
pub struct PlanReason {
    pub fault: PlanFault,
    pub words: String,
}

/// A plan, and the keys of its text that are not read.
#[derive(Drop)]
pub struct ReadPlan {
    pub plan: Plan,
    pub ignored: Vec<Ignored>,
}

// That memory ran out.
fn memory(alloc: Global) -> PlanReason
    ensures { result.fault ≡ PlanFault.Memory }
{
    PlanReason {
        fault: PlanFault::Memory,
        words: String::new(alloc),
    }
}

// That the input is no JSON, with these words.
fn no_json(alloc: Global, words: Result<String, AllocError>) -> PlanReason
    ensures { (result.fault ≡ PlanFault.Memory) ⊎ (result.fault ≡ PlanFault.NotJson) }
{
    match words {
        Ok(words) => PlanReason {
            fault: PlanFault::NotJson,
            words,
        },
        Err(_) => memory(alloc),
    }
}

// The reason of a value that is refused with this fault.
fn reason_of(alloc: Global, value: &Value, fault: PlanFault) -> PlanReason
    requires { (fault ≡ PlanFault.Memory) ⊎ (plan_of_shape (shape_of (view value.now)) ≡ Err fault) }
    ensures { (result.fault ≡ PlanFault.Memory) ⊎ ((result.fault ≡ fault) × IsValueReason (view value.now) fault (string_bytes result.words)) }
{
    if fault == PlanFault::Memory {
        return memory(alloc);
    }
    match value_reason(alloc, value, fault) {
        Ok(words) => PlanReason { fault, words },
        Err(_) => memory(alloc),
    }
}

// A plan with the keys of the value that are not read.
fn with_ignored(alloc: Global, value: &Value, plan: Plan) -> Result<ReadPlan, PlanReason>
    ensures ok { IfOk result (λ p. (p.plan ≡ plan) × (key_values p.ignored.items ≡ ignored_in (view value.now))) }
    ensures err { IfErr result (λ r. r.fault ≡ PlanFault.Memory) }
{
    match ignored_keys(alloc, value) {
        Ok(ignored) => Ok(ReadPlan { plan, ignored }),
        Err(_) => Err(memory(alloc)),
    }
}

// The plan that a value is, or why it is none.
fn plan_in(alloc: Global, value: &Value) -> Result<ReadPlan, PlanReason>
    ensures ok { IfOk result (λ p. plan_of_shape (shape_of (view value.now)) ≡ Ok p.plan) }
    ensures ignored { IfOk result (λ p. key_values p.ignored.items ≡ ignored_in (view value.now)) }
    ensures err { IfErr result (λ r. (r.fault ≡ PlanFault.Memory) ⊎ ((plan_of_shape (shape_of (view value.now)) ≡ Err r.fault) × IsValueReason (view value.now) r.fault (string_bytes r.words))) }
{
    match plan_of(alloc, value) {
        Ok(plan) => with_ignored(alloc, value, plan),
        Err(fault) => Err(reason_of(alloc, value, fault)),
    }
}

/// The plan that a JSON text is, with the keys that are not read, or why it is none: the fault that `ot_plan::read_plan` answers, with its words. `Memory` where no memory was
/// found for the plan or the words; it has none.
pub fn read_plan_or_tell(alloc: Global, text: &str) -> Result<ReadPlan, PlanReason>
    ensures ok { IfOk result (λ p. plan_of_text text.now ≡ Ok p.plan) }
    ensures ignored { IfOk result (λ p. key_values p.ignored.items ≡ ignored_of_text text.now) }
    ensures err { IfErr result (λ r. (r.fault ≡ PlanFault.Memory) ⊎ ((plan_of_text text.now ≡ Err r.fault) × IsReason text.now r.fault (string_bytes r.words))) }
{
    match Value::from_str(alloc, text) {
        Ok(value) => plan_in(alloc, &value),
        Err(error) if error.is_memory() => Err(memory(alloc)),
        Err(_) => Err(no_json(alloc, json_reason(alloc, text))),
    }
}

/// Why bytes that are no UTF-8 are no plan: `NotJson`, or `Memory`.
pub fn no_plan_text(alloc: Global, bytes: &[u8]) -> PlanReason
    ensures { (result.fault ≡ PlanFault.Memory) ⊎ (result.fault ≡ PlanFault.NotJson) }
{
    no_json(alloc, bytes_reason(alloc, bytes))
}

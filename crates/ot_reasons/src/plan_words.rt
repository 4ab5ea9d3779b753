//! The words for what a plan is, and for why a value is none.

ghost use Rattle.std.specs.Prelude.{◌≡◌, ◌^◌, ◌-◌, IfOk, Err, min, string_bytes};
ghost use Rattle.serde_json.specs.View.{view};
ghost use Rattle.ot_plan.specs.Reading.{plan_of_shape, shape_of};
ghost use Rattle.ot_plan.specs.Typing.{typing_view};
ghost use Rattle.ot_reasons.specs.PlanWords.{IsValueReason, action_count, counted, ending, plan_text};

use crate::plan_faults::plan_fault;
use crate::words::fault_text;
use ot_plan::{Plan, PlanFault, Typing};
use serde_json::Value;
use std::alloc::{AllocError, Global};

// What the name of one gets where there are so many.
fn ending(n: usize) -> &'static str
    ensures { result.now ≡ ending n }
{
    if n == 1 { "" } else { "s" }
}

// How many there are: `1 worker`, `2 workers`.
fn counted(alloc: Global, n: usize, one: &str) -> Result<String, AllocError>
    ensures { IfOk result (λ s. string_bytes s ≡ counted n one.now) }
{
    let end = ending(n);
    format!(in alloc; "{n} {one}{end}")
}

// How many actions all clients' users type, or the greatest number where there are more.
fn action_count(rows: &[Vec<Typing>]) -> usize
    ensures { result ≡ min (action_count (typing_view rows.now)) (2 ^ 64 - 1) }
{
    let mut count: usize = 0;
    for row in rows {
        count = count.saturating_add(row.len());
    }
    count
}

// How many actions all clients' users type.
fn actions_of(plan: &Plan) -> usize
    ensures { result ≡ action_count plan.now.typing }
{
    // For the proof: the invariant of every plan.
    let _limits = plan.clients();
    action_count(plan.typing())
}

/// The line that says what a plan is.
pub fn plan_text(alloc: Global, plan: &Plan) -> Result<String, AllocError>
    ensures { IfOk result (λ s. string_bytes s ≡ plan_text plan.now) }
{
    let clients = counted(alloc, plan.clients() as usize, "client")?;
    let workers = counted(alloc, plan.workers(), "worker")?;
    let actions = counted(alloc, actions_of(plan), "action")?;
    format!(in alloc; "a plan: {clients}, {workers}, {actions} of typing\n")
}

/// Why a value is refused with this fault: the line of words below the fault's.
pub(crate) fn value_reason(
    alloc: Global,
    value: &Value,
    fault: PlanFault,
) -> Result<String, AllocError>
    requires { plan_of_shape (shape_of (view value.now)) ≡ Err fault }
    ensures { IfOk result (λ s. IsValueReason (view value.now) fault (string_bytes s)) }
{
    match plan_fault(value) {
        Some(refusal) => fault_text(alloc, "the plan", value, refusal.fault),
        None => unreachable!(),
    }
}

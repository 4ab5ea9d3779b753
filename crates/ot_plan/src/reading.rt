//! From a JSON text to a plan.

ghost use Rattle.std.specs.Option.{IsSomeAnd};
ghost use Rattle.std.specs.Prelude.{◌≡◌, ◌<◌, ◌⊎◌, ◌≢◌, length, None, Some, Ok, Err, IfOk, IfErr, IsErrOf, IsOk, option_map};
ghost use Rattle.serde_json.specs.Read.{read};
ghost use Rattle.serde_json.specs.View.{items_view, view};
ghost use Rattle.ot_json.specs.Fields.{all_of};
ghost use Rattle.ot_plan.specs.Layout.{action_in_range, layout_view, row_in_range};
ghost use Rattle.ot_plan.specs.Typing.{row_view, typing_view};
ghost use Rattle.ot_plan.specs.Reading.{fault_of, plan_of_shape, plan_of_text, shape_from, shape_of};

use crate::action::{action_of, chars_of, is_action, typing_of};
use crate::fault::PlanFault;
use crate::layout::{Layout, checked_layout};
use crate::plan::Plan;
use crate::typing::Typing;
use serde_json::Value;
use std::alloc::{AllocError, Global};

// The actions that the items are, where they are actions in range.
fn actions_from(alloc: Global, items: &[Value]) -> Result<Option<Vec<Typing>>, AllocError>
    ensures { IfOk result (λ r. option_map row_view r ≡ all_of action_in_range (items_view items.now)) }
{
    let mut found = Vec::new(alloc);
    for value in items {
        let Some(action) = action_of(value) else {
            return Ok(None);
        };
        if !is_action(&action) {
            return Ok(None);
        }
        let typing = typing_of(alloc, &action)?;
        found.push(typing)?;
    }
    Ok(Some(found))
}

// The actions of one client that a value is.
fn row_from(alloc: Global, value: &Value) -> Result<Option<Vec<Typing>>, AllocError>
    ensures { IfOk result (λ r. option_map row_view r ≡ row_in_range (view value.now)) }
{
    match value.as_array() {
        Some(items) => actions_from(alloc, items.as_slice()),
        None => Ok(None),
    }
}

// The actions of all clients.
fn rows_from(alloc: Global, items: &[Value]) -> Result<Option<Vec<Vec<Typing>>>, AllocError>
    ensures { IfOk result (λ r. option_map (λ v. typing_view v.items) r ≡ all_of row_in_range (items_view items.now)) }
{
    let mut found = Vec::new(alloc);
    for value in items {
        match row_from(alloc, value)? {
            Some(row) => found.push(row)?,
            None => return Ok(None),
        }
    }
    Ok(Some(found))
}

// The plan of fields without a fault.
fn plan_from(alloc: Global, x: &Layout<'_>) -> Result<Plan, AllocError>
    requires { IsSomeAnd (shape_from (layout_view x.now)) (λ p. fault_of p ≡ None) }
    ensures { IfOk result (λ p. shape_from (layout_view x.now) ≡ Some p) }
{
    let Some(typing) = rows_from(alloc, x.typing)? else {
        unreachable!()
    };
    let start = chars_of(alloc, x.start)?;
    Ok(Plan {
        clients: x.clients as u16,
        workers: x.workers as usize,
        present: x.present as u16,
        start,
        typing,
    })
}

/// The plan that a JSON value is, or its first fault; `Memory` only where there is none. `NotJson` never comes.
pub fn plan_of(alloc: Global, value: &Value) -> Result<Plan, PlanFault>
    ensures ok { IfOk result (λ p. plan_of_shape (shape_of (view value.now)) ≡ Ok p) }
    ensures err { IfErr result (λ e. (e ≡ PlanFault.Memory) ⊎ (plan_of_shape (shape_of (view value.now)) ≡ Err e)) }
    ensures memory { IsErrOf result PlanFault.Memory → IsOk (plan_of_shape (shape_of (view value.now))) }
{
    let x = checked_layout(value)?;
    let plan = plan_from(alloc, &x)?;
    Ok(plan)
}

/// The plan that a JSON text is, or its first fault, in time linear in the text's bytes.
///
/// An object with `"clients"` (1 to 64), `"workers"` (1 to 8), `"typing"` (an array with one array of actions for each client)
/// and, where they are not all clients and the empty text, `"present"` (0 to clients) and `"start"` (a string of at most 40,000
/// characters). An action is an object with `"at"` and, where they are not 0 and empty, `"delete"` (both 0 to 1,000,000) and
/// `"insert"` (a string). Other keys are ignored; where a key stands twice, the last value counts.
///
/// The faults come in the order of `PlanFault`; where the number of clients is out of range, how long `"typing"` is does not
/// matter. `Memory`: no memory was found for the JSON value, whatever it is, or for a plan without a fault (`plan_of`); it never
/// comes at the empty text.
pub fn read_plan(alloc: Global, text: &str) -> Result<Plan, PlanFault>
    ensures ok { IfOk result (λ p. plan_of_text text.now ≡ Ok p) }
    ensures err { IfErr result (λ e. (e ≡ PlanFault.Memory) ⊎ (plan_of_text text.now ≡ Err e)) }
    ensures memory { IsErrOf result PlanFault.Memory → 0 < length text.now }
{
    match Value::from_str(alloc, text) {
        Ok(value) => plan_of(alloc, &value),
        Err(error) if error.is_memory() => Err(PlanFault::Memory),
        Err(_) => Err(PlanFault::NotJson),
    }
}

//! The fields of a plan in a JSON value, and its first fault; neither takes memory.

ghost use Rattle.std.specs.Option.{IsSomeAnd};
ghost use Rattle.std.specs.Prelude.{◌≡◌, ◌≢◌, ◌&&◌, None, Some, Err, IfErr, IfOk, length, nat_le, option_map};
ghost use Rattle.std.specs.Str.{chars};
ghost use Rattle.serde_json.specs.View.{view};
ghost use Rattle.ot_plan.specs.Reading.{fault_of, first_fault, has_lists, has_numbers, plan_data, plan_of_shape, shape_from, shape_of};
ghost use Rattle.ot_plan.specs.Layout.{layout_view};

use crate::action::char_count;
use crate::fault::PlanFault;
use crate::survey::{Survey, survey_rows};
use ot_isa::{CLIENT_LIMIT, START_LIMIT};
use ot_json::{items_at, number_at, number_or, text_or_empty};
use serde_json::Value;

/// The most characters of a start text.
const MOST_START: usize = START_LIMIT;

/// The most clients.
const MOST_CLIENTS: u64 = CLIENT_LIMIT as u64;

/// The fields of a plan.
#[derive(Clone, Copy)]
pub struct Layout<'a> {
    pub clients: u64,
    pub workers: u64,
    pub present: u64,
    pub start: &'a str,
    pub typing: &'a [Value],
}

/// The fields of a plan.
pub fn layout_of(value: &Value) -> Option<Layout<'_>>
    ensures { option_map layout_view result ≡ plan_data (view value.now) }
{
    let clients = number_at(value, "clients")?;
    let workers = number_at(value, "workers")?;
    let present = number_or(value, "present", clients)?;
    let start = text_or_empty(value, "start")?;
    let typing = items_at(value, "typing")?;
    Some(Layout {
        clients,
        workers,
        present,
        start,
        typing,
    })
}

/// Whether there is one list for each client, or the number of clients is out of range.
pub fn has_lists(clients: u64, lists: usize) -> bool
    ensures { result ≡ has_lists clients lists }
{
    clients == 0 || clients > MOST_CLIENTS || lists as u64 == clients
}

// Whether these numbers are in range.
fn has_numbers(clients: u64, workers: u64, present: u64) -> bool
    ensures { result ≡ has_numbers clients workers present }
{
    clients > 0 && clients <= MOST_CLIENTS && workers > 0 && workers <= 8 && present <= clients
}

// The first fault of fields of right shape, by the survey of their actions.
fn fault_in(x: &Layout<'_>, actions: Survey) -> Option<PlanFault>
    ensures value { result ≡ first_fault (has_lists x.now.clients (length x.now.typing.now)) (has_numbers x.now.clients x.now.workers x.now.present && actions.in_range) (nat_le (length (chars x.now.start.now)) START_LIMIT && actions.short) actions.few }
    ensures other { result ≢ Some PlanFault.Memory }
{
    if !has_lists(x.clients, x.typing.len()) {
        return Some(PlanFault::BadShape);
    }
    if !has_numbers(x.clients, x.workers, x.present) || !actions.in_range {
        return Some(PlanFault::BadNumber);
    }
    if char_count(x.start) > MOST_START || !actions.short {
        return Some(PlanFault::TooLong);
    }
    if !actions.few {
        return Some(PlanFault::TooMany);
    }
    None
}

/// The fields of a plan without a fault, or the first fault.
pub fn checked_layout(value: &Value) -> Result<Layout<'_>, PlanFault>
    ensures fields { IfOk result (λ x. plan_data (view value.now) ≡ Some (layout_view x)) }
    ensures ok { IfOk result (λ x. IsSomeAnd (shape_from (layout_view x)) (λ p. fault_of p ≡ None)) }
    ensures err { IfErr result (λ e. plan_of_shape (shape_of (view value.now)) ≡ Err e) }
    ensures other { IfErr result (λ e. e ≢ PlanFault.Memory) }
{
    let Some(x) = layout_of(value) else {
        return Err(PlanFault::BadShape);
    };
    let Some(actions) = survey_rows(x.typing) else {
        return Err(PlanFault::BadShape);
    };
    match fault_in(&x, actions) {
        Some(fault) => Err(fault),
        None => Ok(x),
    }
}

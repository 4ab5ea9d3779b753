//! The first fault of a value as a plan; takes no memory.

ghost use Rattle.std.specs.Prelude.{◌≡◌, ◌&&◌, IfSome, None, false, nat_le, nat_lt};
ghost use Rattle.serde_json.specs.Find.{as_array};
ghost use Rattle.serde_json.specs.View.{items_view, view};
ghost use Rattle.ot_plan.specs.Layout.{layout_view, text_action};
ghost use Rattle.ot_plan.specs.Reading.{are_clients, plan_of_shape, shape_of};
ghost use Rattle.ot_reasons.specs.Faults.{of_array};
ghost use Rattle.ot_reasons.specs.Places.{found_at};
ghost use Rattle.ot_reasons.specs.Satisfied.{is_met};
ghost use Rattle.ot_reasons.specs.PlanFaults.{action_fault, action_keys, action_numbers, action_shape, actions_fault, fault_in, fault_of_data, first_kind, kind_in, length_fault_in, number_fault_in, other_keys, own_numbers, plan_fault, plan_keys, plan_layout, refuses, row_fault, rows_fault, shape_fault_in};

use crate::checks::{count, unless, wants};
use crate::place::{Fault, Field, HERE, Place, Wanted};
use ot_isa::{CLIENT_LIMIT, START_LIMIT};
use ot_json::{items_at, number_at, number_or, text_or_empty};
use ot_plan::PlanFault;
use ot_plan::action::{ActionText, action_of, char_count};
use ot_plan::layout::{Layout, has_lists, layout_of};
use ot_plan::survey::survey_row;
use ot_text::LIMIT;
use serde_json::Value;

/// The most clients.
const MOST_CLIENTS: u64 = CLIENT_LIMIT as u64;

/// The most that an action's place and number of deletions may be.
const MOST: u64 = LIMIT as u64;

/// Why a value is no plan: the kind of its first fault, where that is, and what is wanted there.
#[derive(Clone, Copy, Debug, PartialEq, Eq)]
pub struct PlanRefusal {
    pub kind: PlanFault,
    pub fault: Fault,
}

// The first key of an action that is missing, or under which a value of another kind stands.
fn action_keys(value: &Value, place: Place) -> Option<Fault>
    ensures { result ≡ action_keys place (view value.now) }
{
    if number_at(value, "at").is_none() {
        return wants(place.in_key(Field::At), Wanted::Number(MOST));
    }
    if number_or(value, "delete", 0).is_none() {
        return wants(place.in_key(Field::Delete), Wanted::Number(MOST));
    }
    unless(
        text_or_empty(value, "insert").is_some(),
        place.in_key(Field::Insert),
        Wanted::Text,
    )
}

// What keeps a value from having the shape of an action.
fn action_shape(value: &Value, place: Place) -> Option<Fault>
    ensures { result ≡ action_shape place (view value.now) }
{
    if !value.is_object() {
        return wants(place, Wanted::Object);
    }
    action_keys(value, place)
}

// The first number of an action that is out of range.
fn action_numbers(a: &ActionText<'_>, place: Place) -> Option<Fault>
    ensures { result ≡ action_numbers place (text_action a.now) }
{
    if a.at > MOST {
        return wants(place.in_key(Field::At), Wanted::Number(MOST));
    }
    unless(
        a.delete <= MOST,
        place.in_key(Field::Delete),
        Wanted::Number(MOST),
    )
}

// The fault of this kind of a value as an action.
fn action_fault(kind: PlanFault, value: &Value, place: Place) -> Option<Fault>
    ensures { result ≡ action_fault kind place (view value.now) }
{
    match kind {
        PlanFault::BadShape => action_shape(value, place),
        PlanFault::BadNumber => match action_of(value) {
            Some(action) => action_numbers(&action, place),
            None => None,
        },
        _ => None,
    }
}

// The first fault of this kind of items as actions.
fn actions_fault(kind: PlanFault, items: &[Value], place: Place) -> Option<Fault>
    ensures { result ≡ actions_fault kind place (items_view items.now) }
{
    for (k, value) in items.iter().enumerate() {
        if let Some(fault) = action_fault(kind, value, place.in_part(k)) {
            return Some(fault);
        }
    }
    None
}

// The fault of a client's actions that insert too much together.
fn insertions_fault(value: &Value, place: Place) -> Option<Fault>
    ensures { result ≡ row_fault PlanFault.TooLong place (view value.now) }
{
    match survey_row(value) {
        Some(actions) => unless(actions.short, place, Wanted::Insertions),
        None => None,
    }
}

// The fault of a client's actions that are too many.
fn many_fault(value: &Value, place: Place) -> Option<Fault>
    ensures { result ≡ row_fault PlanFault.TooMany place (view value.now) }
{
    match survey_row(value) {
        Some(actions) => unless(actions.few, place, Wanted::Actions),
        None => None,
    }
}

// The first fault of this kind, of those that single actions have, of a value as the actions of a client.
fn items_fault(
    kind: PlanFault,
    value: &Value,
    missing: Option<Fault>,
    place: Place,
) -> Option<Fault>
    ensures { result ≡ of_array missing (actions_fault kind place) (as_array (view value.now)) }
{
    match value.as_array() {
        Some(items) => actions_fault(kind, items.as_slice(), place),
        None => missing,
    }
}

// The first fault of this kind of a value as the actions of a client.
fn row_fault(kind: PlanFault, value: &Value, place: Place) -> Option<Fault>
    ensures { result ≡ row_fault kind place (view value.now) }
{
    match kind {
        PlanFault::BadShape => items_fault(kind, value, wants(place, Wanted::Array), place),
        PlanFault::BadNumber => items_fault(kind, value, None, place),
        PlanFault::TooLong => insertions_fault(value, place),
        PlanFault::TooMany => many_fault(value, place),
        PlanFault::NotJson | PlanFault::Memory => None,
    }
}

// The first fault of this kind of items as the clients' actions, in time linear in them.
fn rows_fault(kind: PlanFault, items: &[Value]) -> Option<Fault>
    ensures { result ≡ rows_fault kind (items_view items.now) }
{
    for (k, value) in items.iter().enumerate() {
        if let Some(fault) = row_fault(kind, value, Place::of_row(k)) {
            return Some(fault);
        }
    }
    None
}

// The first key of a plan of so many clients that is missing, or under which a value of another kind stands.
fn other_keys(value: &Value, clients: u64) -> Option<Fault>
    ensures { result ≡ other_keys clients (view value.now) }
{
    if number_at(value, "workers").is_none() {
        return wants(HERE.in_field(Field::Workers), Wanted::Positive(8));
    }
    if number_or(value, "present", clients).is_none() {
        return wants(HERE.in_field(Field::Present), Wanted::Number(clients));
    }
    if text_or_empty(value, "start").is_none() {
        return wants(HERE.in_field(Field::Start), Wanted::StartText);
    }
    unless(
        items_at(value, "typing").is_some(),
        HERE.in_field(Field::Typing),
        Wanted::Array,
    )
}

// The first key of a plan that is missing, or under which a value of another kind stands.
fn plan_keys(value: &Value) -> Option<Fault>
    ensures { result ≡ plan_keys (view value.now) }
{
    match number_at(value, "clients") {
        Some(clients) => other_keys(value, clients),
        None => wants(
            HERE.in_field(Field::Clients),
            Wanted::Positive(MOST_CLIENTS),
        ),
    }
}

// The first fault of a value whose keys are not those of a plan.
fn plan_layout(value: &Value) -> Option<Fault>
    ensures { result ≡ plan_layout (view value.now) }
{
    if !value.is_object() {
        return wants(HERE, Wanted::Object);
    }
    plan_keys(value)
}

// The first fault of shape in the fields of a plan.
fn shape_fault_in(x: &Layout<'_>) -> Option<Fault>
    ensures { result ≡ shape_fault_in (layout_view x.now) }
{
    if let Some(fault) = rows_fault(PlanFault::BadShape, x.typing) {
        return Some(fault);
    }
    unless(
        has_lists(x.clients, count(x.typing)),
        HERE.in_field(Field::Typing),
        Wanted::Lists(x.clients),
    )
}

// Whether there may be so many clients.
fn are_clients(clients: u64) -> bool
    ensures { result ≡ are_clients clients }
{
    clients > 0 && clients <= MOST_CLIENTS
}

// Whether there may be so many workers.
fn are_workers(workers: u64) -> bool
    ensures { result ≡ (nat_lt 0 workers && nat_le workers 8) }
{
    workers > 0 && workers <= 8
}

// The first number out of range of those that stand in a plan once each.
fn own_numbers(x: &Layout<'_>) -> Option<Fault>
    ensures { result ≡ own_numbers (layout_view x.now) }
{
    if !are_clients(x.clients) {
        return wants(
            HERE.in_field(Field::Clients),
            Wanted::Positive(MOST_CLIENTS),
        );
    }
    if !are_workers(x.workers) {
        return wants(HERE.in_field(Field::Workers), Wanted::Positive(8));
    }
    unless(
        x.present <= x.clients,
        HERE.in_field(Field::Present),
        Wanted::Number(x.clients),
    )
}

// The first number out of range in the fields of a plan.
fn number_fault_in(x: &Layout<'_>) -> Option<Fault>
    ensures { result ≡ number_fault_in (layout_view x.now) }
{
    if let Some(fault) = own_numbers(x) {
        return Some(fault);
    }
    rows_fault(PlanFault::BadNumber, x.typing)
}

// The first text in the fields of a plan that is too long.
fn length_fault_in(x: &Layout<'_>) -> Option<Fault>
    ensures { result ≡ length_fault_in (layout_view x.now) }
{
    if char_count(x.start) > START_LIMIT {
        return wants(HERE.in_field(Field::Start), Wanted::StartText);
    }
    rows_fault(PlanFault::TooLong, x.typing)
}

// That a value is refused.
fn refuses(kind: PlanFault, fault: Fault) -> Option<PlanRefusal>
    ensures { result ≡ refuses kind fault }
{
    Some(PlanRefusal { kind, fault })
}

// The first fault in the fields of a plan.
fn fault_of_data(x: &Layout<'_>) -> Option<PlanRefusal>
    ensures { result ≡ fault_of_data (layout_view x.now) }
{
    if let Some(fault) = shape_fault_in(x) {
        return refuses(PlanFault::BadShape, fault);
    }
    if let Some(fault) = number_fault_in(x) {
        return refuses(PlanFault::BadNumber, fault);
    }
    if let Some(fault) = length_fault_in(x) {
        return refuses(PlanFault::TooLong, fault);
    }
    match rows_fault(PlanFault::TooMany, x.typing) {
        Some(fault) => refuses(PlanFault::TooMany, fault),
        None => None,
    }
}

// The refusal of a value whose keys are not those of a plan.
fn layout_refusal(value: &Value) -> Option<PlanRefusal>
    ensures { result ≡ first_kind (plan_layout (view value.now)) None None None }
{
    match plan_layout(value) {
        Some(fault) => refuses(PlanFault::BadShape, fault),
        None => None,
    }
}

// The first fault of a value as a plan.
fn first_fault(value: &Value) -> Option<PlanRefusal>
    ensures { result ≡ plan_fault (view value.now) }
{
    match layout_of(value) {
        Some(x) => fault_of_data(&x),
        None => layout_refusal(value),
    }
}

/// The first fault of a value as a plan; none exactly where `ot_plan::plan_of` has no fault, and of the kind of that one. What stands at its
/// place is not what is wanted there. In time linear in the value.
pub fn plan_fault(value: &Value) -> Option<PlanRefusal>
    ensures first { result ≡ plan_fault (view value.now) }
    ensures exact { kind_in result ≡ fault_in (plan_of_shape (shape_of (view value.now))) }
    ensures unmet { IfSome result (λ r. is_met r.fault.wanted (found_at r.fault.place (view value.now)) ≡ false) }
{
    first_fault(value)
}

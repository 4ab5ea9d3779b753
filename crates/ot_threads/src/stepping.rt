//! One instruction of a schedule that is compared with a plan.

ghost use Rattle.std.specs.Prelude.{◌≡◌, ◌+◌, ◌<◌, ◌^◌, IfSome, ◌≤◌, ◌↔◌, IfOk, IsTrue, length, option_map, replicate, slice_get, false};
ghost use Rattle.ot_model.specs.Table.{step, IsQuiet, Performed, Refused};
ghost use Rattle.ot_model.specs.declared.shown.Refusal.{Refusal};
ghost use Rattle.ot_model.specs.declared.shown.Shown.{Shown};
ghost use Rattle.std.specs.Prelude.{Option};
ghost use Rattle.ot_plan.specs.Typing.{action_view, edit_of};
ghost use Rattle.ot_threads.specs.Follows.{actions_of};
ghost use Rattle.ot_threads.specs.Stepping.{counted, AreComplete, IsEdit, IsNext};
ghost use Rattle.ot_operation.specs.declared.TheConstants.{LIMIT};

use ot_isa::Instr;
use ot_machine::{Machine, Refusal};
use ot_plan::{Plan, Typing};
use ot_text::{OpRefusal, TextOp};
use std::alloc::{AllocError, Global};

// The action of a client that comes after so many.
fn action_at(plan: &Plan, client: u16, done: usize) -> Option<&Typing>
    ensures value { option_map (λ t. action_view t.now) result ≡ slice_get (actions_of plan.now client) done }
    ensures small { IfSome result (λ _. done + 1 < 2 ^ 64) }
{
    let actions = plan.typing().get(client as usize)?;
    actions.as_slice().get(done)
}

// Whether the operation is the edit that the action is on a list of so many elements.
fn is_edit(
    alloc: Global,
    action: &Typing,
    length: usize,
    op: &TextOp<char>,
) -> Result<bool, AllocError>
    requires { length ≤ LIMIT }
    ensures { IfOk result (λ b. IsTrue b ↔ (op.now ≡ edit_of (action_view action.now) length)) }
{
    // For the proof: the invariant of every operation, so that one past the limits is another.
    let _base = op.base_len();
    let _target = op.target_len();
    match action.edit(alloc, length) {
        Ok(edit) => Ok(op.equals(&edit)),
        Err(OpRefusal::TooLong) => Ok(false),
        Err(OpRefusal::Memory) => Err(AllocError),
    }
}

// Whether the edit is the client's next action, after so many, on its list as it is.
fn is_next_edit(
    alloc: Global,
    plan: &Plan,
    done: usize,
    machine: &Machine,
    client: u16,
    op: &TextOp<char>,
) -> Result<bool, AllocError>
    ensures value { IfOk result (λ b. IsTrue b ↔ IsEdit plan.now done machine.now client op.now) }
    ensures small { IfOk result (λ b. IsTrue b → done + 1 < 2 ^ 64) }
{
    if client >= machine.clients() {
        return Ok(false);
    }
    let Some(action) = action_at(plan, client, done) else {
        return Ok(false);
    };
    is_edit(alloc, action, machine.document(client).len(), op)
}

/// So many zeros.
pub fn zeros(alloc: Global, count: usize) -> Result<Vec<usize>, AllocError>
    ensures { IfOk result (λ v. v.items ≡ replicate count 0) }
{
    let zeros = vec![in alloc; 0; count]?;
    Ok(zeros)
}

/// Whether the instruction is one that the plan has here, where each client has made so many edits; an edit is then counted.
pub fn is_next(
    alloc: Global,
    plan: &Plan,
    counts: &mut Vec<usize>,
    machine: &Machine,
    instr: &Instr,
) -> Result<bool, AllocError>
    ensures next { IfOk result (λ b. IsTrue b ↔ IsNext plan.now counts.old.items machine.now instr.now) }
    ensures counts { IfOk result (λ b. IsTrue b → counts.new.items ≡ counted counts.old.items instr.now) }
{
    if let Instr::Edit(client, op) = instr {
        let place = *client as usize;
        let done = counts.get(place).copied().unwrap_or(0);
        if !is_next_edit(alloc, plan, done, machine, *client, op)? {
            return Ok(false);
        }
        if place < counts.len() {
            counts[place] = done + 1;
        }
    }
    Ok(true)
}

/// Performs the instruction and answers true, or false where the table refuses it.
pub fn perform(machine: &mut Machine, instr: &Instr) -> Result<bool, AllocError>
    ensures performed { IfOk result (λ b. IsTrue b → (shown : Option Shown) × (step machine.old instr.now ≡ Performed machine.new shown)) }
    ensures refused { IfOk result (λ b. b ≡ false → (r : Refusal) × (step machine.old instr.now ≡ Refused r)) }
{
    match machine.perform::<false>(instr) {
        Ok(_) => Ok(true),
        Err(Refusal::Memory) => Err(AllocError),
        Err(_) => Ok(false),
    }
}

// How many actions a client has.
fn action_count(plan: &Plan, place: usize) -> usize
    ensures { result ≡ length (actions_of plan.now place) }
{
    match plan.typing().get(place) {
        Some(actions) => actions.len(),
        None => 0,
    }
}

// Whether each client has made all its edits.
fn are_complete(plan: &Plan, counts: &[usize]) -> bool
    requires { length counts.now ≡ plan.now.clients }
    ensures { IsTrue result ↔ AreComplete plan.now counts.now }
{
    for place in 0..counts.len() {
        if counts[place] != action_count(plan, place) {
            return false;
        }
    }
    true
}

/// Whether the session is quiet and each client has made all its edits.
pub fn is_over(plan: &Plan, machine: &Machine, counts: &[usize]) -> bool
    requires { length counts.now ≡ plan.now.clients }
    ensures quiet { IsTrue result → IsQuiet machine.now }
    ensures complete { IsTrue result → AreComplete plan.now counts.now }
    ensures over { IsQuiet machine.now → AreComplete plan.now counts.now → IsTrue result }
{
    machine.is_quiet() && are_complete(plan, counts)
}

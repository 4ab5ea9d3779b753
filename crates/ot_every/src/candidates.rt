//! What may come next.

ghost use Rattle.std.specs.Prelude.{◌≡◌, ◌<◌, ◌≤◌, ◌++◌, ◌∷◌, [], drop, filter, length, map, not, vec_items, List, IfOk, OnOk, false, true, ℕ};
ghost use Rattle.ot_isa.specs.declared.instruction.Instr.TheVariants.{Acknowledge, Deliver, Join};
ghost use Rattle.ot_machine.specs.Readers.{ClientHas};
ghost use Rattle.ot_every.specs.Listing.{candidates, comes_late, edits, takes, Earlier};
ghost use Rattle.ot_every.specs.Walking.{unless, AreMarks, AreShort, LeadOn};
ghost use Rattle.ot_every.specs.Walking as walking;

use crate::edits::push_edits;
use crate::marks::{Mark, is_late};
use ot_isa::Instr;
use ot_machine::{Head, Machine};
use std::alloc::{AllocError, Global};

// Adds the client's edits with the next text, if one is left, unless they come late.
fn push_edits_in_time(
    alloc: Global,
    machine: &Machine,
    marks: &[Mark],
    client: u16,
    texts: &[Vec<char>],
    made: usize,
    inserts: usize,
    next: &mut Vec<Instr>,
) -> Result<(), AllocError>
    requires client { client < length machine.now.clients }
    requires few { (length machine.now.clients ≤ 4) × (inserts ≤ 8) }
    requires short { AreShort (map vec_items texts.now) }
    ensures { (path : List Earlier) → AreMarks path (length marks.now) marks.now → OnOk result (ClientHas machine.now client (λ x. next.old.items ++ unless (walking.is_late client false false path) (edits inserts (drop made (map vec_items texts.now)) client (length x.list))) next.new.items) }
{
    if made >= texts.len() {
        return Ok(());
    }
    if is_late(marks, marks.len(), client, false, false) {
        return Ok(());
    }
    // For the proof: the state of a machine is sound.
    let _sound = machine.clients();
    let text = &texts[made];
    let count = machine.document(client).len();
    push_edits(alloc, next, client, text.as_slice(), inserts, count)?;
    Ok(())
}

// Adds the receipt of the next message to the client, unless it comes late.
fn push_receipt(
    machine: &Machine,
    marks: &[Mark],
    client: u16,
    next: &mut Vec<Instr>,
) -> Result<(), AllocError>
    requires client { client < length machine.now.clients }
    ensures { (inserts count : ℕ) (texts : List (List ℕ)) (path : List Earlier) → AreMarks path (length marks.now) marks.now → OnOk result (LeadOn inserts count texts path machine.now next.new.items (next.old.items ++ unless (walking.is_late client false true path) (Deliver client ∷ Acknowledge client ∷ []))) }
{
    let Some(head) = machine.down(client, 0) else {
        return Ok(());
    };
    if is_late(marks, marks.len(), client, false, true) {
        return Ok(());
    }
    match head {
        Head::Ack => next.push(Instr::Acknowledge(client))?,
        Head::Op(_) => next.push(Instr::Deliver(client))?,
    }
    Ok(())
}

// Adds the join of the client, unless it comes late.
fn push_join(
    machine: &Machine,
    marks: &[Mark],
    client: u16,
    next: &mut Vec<Instr>,
) -> Result<(), AllocError>
    requires client { client < length machine.now.clients }
    ensures { (inserts count : ℕ) (texts : List (List ℕ)) (path : List Earlier) → AreMarks path (length marks.now) marks.now → OnOk result (LeadOn inserts count texts path machine.now next.new.items (next.old.items ++ unless (walking.is_late client true false path) (Join client ∷ []))) }
{
    if machine.joined(client) {
        return Ok(());
    }
    if is_late(marks, marks.len(), client, true, false) {
        return Ok(());
    }
    next.push(Instr::Join(client))?;
    Ok(())
}

// Adds the takes of the messages that are there.
fn push_takes(machine: &Machine, next: &mut Vec<Instr>) -> Result<(), AllocError>
    ensures { (inserts count : ℕ) (texts : List (List ℕ)) (path : List Earlier) → OnOk result (LeadOn inserts count texts path machine.now next.new.items (next.old.items ++ takes 0 machine.now.clients)) }
{
    for client in 0..machine.clients() {
        if machine.up(client).is_some() {
            next.push(Instr::Take(client))?;
        }
    }
    Ok(())
}

/// What may come next and does not come late, in order, but for what leads to no session. A client that has joined and has a message to receive is stuck once a later
/// machine goes first: then it can neither receive nor edit in time.
pub fn candidates(
    alloc: Global,
    machine: &Machine,
    marks: &[Mark],
    texts: &[Vec<char>],
    made: usize,
    inserts: usize,
) -> Result<Vec<Instr>, AllocError>
    requires few { (length machine.now.clients ≤ 4) × (inserts ≤ 8) }
    requires short { AreShort (map vec_items texts.now) }
    ensures { (count : ℕ) (path : List Earlier) → AreMarks path (length marks.now) marks.now → IfOk result (λ next. LeadOn inserts count (drop made (map vec_items texts.now)) path machine.now next.items (filter (λ i. not (comes_late path i)) (candidates inserts (drop made (map vec_items texts.now)) machine.now))) }
{
    let mut next = Vec::new(alloc);
    for client in 0..machine.clients() {
        push_edits_in_time(
            alloc, machine, marks, client, texts, made, inserts, &mut next,
        )?;
        push_receipt(machine, marks, client, &mut next)?;
        push_join(machine, marks, client, &mut next)?;
        if machine.down_len(client) > 0 {
            return Ok(next);
        }
    }
    push_takes(machine, &mut next)?;
    Ok(next)
}

//! What is said of a port's first difference.

ghost use Rattle.std.specs.Prelude.{◌≡◌, ◌≤◌, ◌≢◌, length, IfOk, OnOk};
ghost use Rattle.std.specs.Option.{option_map};
ghost use Rattle.ot_model.specs.Runs.{opening_of, place_at};
ghost use Rattle.ot_rules.specs.Call.{call_value};
ghost use Rattle.ot_rules.specs.Explained as explained;
ghost use Rattle.ot_rules.specs.Notes as notes;

use crate::call::Call;
use crate::calling::call_of;
use crate::note::{Asked, first_note, sentence};
use crate::printing::{Given, given_of, rule};
use crate::text::text_for;
use ot_isa::{Instr, Schedule};
use ot_machine::{Machine, Refusal};
use ot_steps::Key;
use std::alloc::{AllocError, Global};

/// A value that a port printed where ot.js has another.
#[derive(Clone, Copy)]
pub struct Difference<'a> {
    /// The key of the value; none where it is the line itself.
    pub key: Option<Key>,
    /// The port's value, as compact JSON; or what is said of it where it has none.
    pub found: &'a str,
    /// The value of ot.js, in the same form.
    pub wanted: &'a str,
    /// The port printed the operation that the instruction applies to a document, and it is ot.js'.
    pub printed: bool,
}

/// What is said of a difference: the method of ot.js that makes the value, what that is given, and a sentence that is true of what was found.
#[derive(Drop)]
pub struct Explained {
    /// The method's name, as ot.js has it.
    pub rule: &'static str,
    pub given: Vec<Given>,
    /// The sentence of the first note that is true, if one is.
    pub note: Option<&'static str>,
}

// An instruction was not performed: memory ran out, or it was refused.
fn only_refused(refusal: Refusal) -> Result<(), AllocError>
    ensures { OnOk result (refusal ≢ Refusal.Memory) }
{
    match refusal {
        Refusal::Memory => Err(AllocError),
        _ => Ok(()),
    }
}

// The machine at the schedule's opening.
fn opening(alloc: Global, schedule: &Schedule) -> Result<Machine, AllocError>
    ensures { IfOk result (λ machine. machine ≡ opening_of schedule.now) }
{
    let clients = schedule.clients();
    Machine::with_present(alloc, clients, schedule.present(), schedule.start())
}

// The machine in the run of the schedule after so many instructions; none where one of them is refused.
fn machine_at(
    alloc: Global,
    schedule: &Schedule,
    place: usize,
) -> Result<Option<Machine>, AllocError>
    requires { place ≤ length schedule.now.instrs }
    ensures { IfOk result (λ machine. machine ≡ option_map explained.state_in (place_at schedule.now place)) }
{
    let mut machine = opening(alloc, schedule)?;
    for number in 0..place {
        let Some(instr) = schedule.get(number) else {
            unreachable!()
        };
        if let Err(refusal) = machine.perform::<false>(instr) {
            only_refused(refusal)?;
            return Ok(None);
        }
    }
    Ok(Some(machine))
}

// What is said of the call that the instruction is, before which the machine is: the call, and the first note that is true.
fn explain_call(
    alloc: Global,
    schedule: &Schedule,
    machine: &Machine,
    instr: &Instr,
    call: &Call,
    difference: Difference<'_>,
) -> Result<Explained, AllocError>
    ensures { IfOk result (λ said. explained.IsExplained (explained.asked_of schedule.now machine.now instr.now (call_value call.now) (notes.difference_value difference.entry)) (explained.explained_value said)) }
{
    let text = text_for(alloc, schedule, machine, instr, call, difference.key)?;
    let asked = Asked {
        call,
        text: &text,
        difference,
    };
    let given = given_of(alloc, call)?;
    let note = match first_note(alloc, &asked)? {
        Some(note) => Some(sentence(note, difference.key)),
        None => None,
    };
    Ok(Explained {
        rule: rule(call),
        given,
        note,
    })
}

// What is said of the instruction, which the machine is before, if it is performed.
fn explain_step(
    alloc: Global,
    schedule: &Schedule,
    machine: &mut Machine,
    instr: &Instr,
    difference: Difference<'_>,
) -> Result<Option<Explained>, AllocError>
    ensures { IfOk result (λ said. explained.IsStepExplained schedule.now machine.old instr.now (notes.difference_value difference.entry) (option_map explained.explained_value said)) }
{
    let Some(call) = call_of(alloc, machine, instr)? else {
        return Ok(None);
    };
    let said = explain_call(alloc, schedule, machine, instr, &call, difference)?;
    if let Err(refusal) = machine.perform::<false>(instr) {
        only_refused(refusal)?;
        return Ok(None);
    }
    Ok(Some(said))
}

// A rule of ot.js makes the value; the place, the instruction and its client are the schedule's.
fn has_rule(key: Option<Key>) -> bool
    ensures { result ≡ explained.has_rule key }
{
    !matches!(key, Some(Key::At | Key::Do | Key::Client))
}

/// Says which rule of ot.js makes the value at the instruction with this number, counted from 0, what that is given, and the first note that
/// is true of what was found. Nothing where the instruction is not an edit, a take, a deliver or an ack that ot.js performs, and for `at`,
/// `do` and `client`, which no rule makes.
///
/// The schedule is run again up to that instruction. `Err` is out of memory.
pub fn explain(
    alloc: Global,
    schedule: &Schedule,
    place: usize,
    difference: Difference<'_>,
) -> Result<Option<Explained>, AllocError>
    ensures { IfOk result (λ said. explained.Explains schedule.now place (notes.difference_value difference.entry) (option_map explained.explained_value said)) }
{
    if !has_rule(difference.key) {
        return Ok(None);
    }
    let Some(instr) = schedule.get(place) else {
        return Ok(None);
    };
    match machine_at(alloc, schedule, place)? {
        Some(mut machine) => explain_step(alloc, schedule, &mut machine, instr, difference),
        None => Ok(None),
    }
}

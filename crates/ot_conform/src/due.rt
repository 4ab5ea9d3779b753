//! The lines that are due.

ghost use Rattle.std.specs.Prelude.{◌≡◌, IfOk, option_map};
ghost use Rattle.ot_isa.specs.Tagging.{chars_of};
ghost use Rattle.ot_steps.specs.Held.{IsHeld, value_of};
ghost use Rattle.ot_conform.specs.Answers.{instruction_of, letters_at, number_before, number_of};
ghost use Rattle.ot_conform.specs.Due.{due_of};
ghost use Rattle.ot_conform.specs.Received.{received_value};

use crate::received::Received;
use ot_isa::Tagged;
use ot_machine::Refusal;
use ot_steps::{Key, Line, Value as LineValue};
use ot_text::Doc;
use std::alloc::{AllocError, Global};

/// A line that is due.
#[derive(Clone, Copy)]
pub struct Due<'a> {
    pub line: Line<'a>,
    /// What its instruction received, where one was performed.
    pub received: &'a Received,
}

// The characters of a document.
fn letters_of(alloc: Global, document: &Doc<Tagged>) -> Result<Vec<char>, AllocError>
    ensures { IfOk result (λ v. v.items ≡ chars_of document.now) }
{
    let items = document.to_vec()?;
    items.iter().map(|item| item.ch).collect(alloc)
}

// The number of the instruction that leads to a place.
fn number_before(at: usize) -> Option<usize>
    ensures { result ≡ number_before at }
{
    if at == 0 { None } else { Some(at - 1) }
}

impl<'a> Due<'a> {
    /// The message that the instruction receives, if it receives one.
    pub fn message(&self) -> Option<LineValue<'a>>
        ensures { option_map value_of result ≡ option_map received_value (due_of self.now).received }
    {
        match self.line {
            Line::Step(step) => self.received.value(step.machine),
            _ => None,
        }
    }

    /// The text under a key, character by character, where that is the opening's text or a document.
    pub fn letters(&self, alloc: Global, key: Key) -> Result<Option<Vec<char>>, AllocError>
        requires { IsHeld self.now.line }
        ensures { IfOk result (λ o. option_map (λ v. v.items) o ≡ letters_at key (due_of self.now).line) }
    {
        match self.line.value(key) {
            Some(LineValue::Letters(letters)) => Ok(Some(letters.to_vec(alloc)?)),
            Some(LineValue::Document(document)) => Ok(Some(letters_of(alloc, document)?)),
            _ => Ok(None),
        }
    }

    /// Why the instruction was not performed.
    pub fn refusal(&self) -> Option<Refusal>
        ensures { result ≡ (due_of self.now).line.stopped }
    {
        match self.line {
            Line::Stop(stop) => Some(stop.refusal),
            _ => None,
        }
    }

    /// The number of the instruction that it is the line of, counted from 0, performed or not.
    pub fn instruction(&self) -> Option<usize>
        ensures { result ≡ instruction_of (due_of self.now).what (due_of self.now).line.stopped (due_of self.now).line.at }
    {
        match self.line {
            Line::Step(step) => number_before(step.at),
            Line::Stop(stop) => Some(stop.at),
            _ => None,
        }
    }

    /// The number of the instruction that it is the line of, counted from 0, where that was performed.
    pub fn number(&self) -> Option<usize>
        ensures { result ≡ number_of (due_of self.now).what (due_of self.now).line.stopped (due_of self.now).line.at }
    {
        match self.line {
            Line::Step(step) => number_before(step.at),
            _ => None,
        }
    }
}

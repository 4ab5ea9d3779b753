//! Actions.

ghost use Rattle.std.specs.Prelude.{◌≡◌, ◌≤◌, IfOk, IsErrOf};
ghost use Rattle.ot_operation.specs.Operation.{IsTooLong};
ghost use Rattle.ot_plan.specs.Typing.{action_view, edit_of};
ghost use Rattle.ot_operation.specs.declared.TheConstants.{LIMIT};

use ot_text::{OpRefusal, TextOp};
use std::alloc::{AllocError, Global};

/// What a user types next: at a place of its list some elements are deleted, and others inserted.
#[derive(Drop)]
pub struct Typing {
    /// The place, in elements; past the list's end it is the end.
    pub at: u32,
    /// How many elements are deleted from there on, or as many as there are.
    pub delete: u32,
    /// What is inserted at the place.
    pub insert: Vec<char>,
}

impl Typing {
    /// The edit that the action is on a list of `length` elements, at most 1,000,000: retain up to the place, insert, delete, and
    /// retain the rest. `TooLong` where the list would have more than 1,000,000 elements after it; else `Memory` where a growth
    /// was refused.
    pub fn edit(&self, alloc: Global, length: usize) -> Result<TextOp<char>, OpRefusal>
        requires { length ≤ LIMIT }
        ensures ok { IfOk result (λ op. op ≡ edit_of (action_view self.now) length) }
        ensures too_long { IsErrOf result OpRefusal.TooLong → IsTooLong (edit_of (action_view self.now) length) }
    {
        let place = (self.at as usize).min(length);
        let gone = (self.delete as usize).min(length - place);
        let mut op = TextOp::new(alloc);
        op.retain(place)?;
        op.insert(self.insert.as_slice())?;
        op.delete(gone)?;
        op.retain(length - place - gone)?;
        Ok(op)
    }

    /// The same action again. `Err` where a growth was refused.
    pub fn copy(&self, alloc: Global) -> Result<Typing, AllocError>
        ensures { IfOk result (λ copy. action_view copy ≡ action_view self.now) }
    {
        let insert = Vec::from_slice(alloc, self.insert.as_slice())?;
        Ok(Typing {
            at: self.at,
            delete: self.delete,
            insert,
        })
    }
}

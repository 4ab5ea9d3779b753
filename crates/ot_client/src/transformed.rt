//! A pending operation after another's, as codes for its text.

ghost use Rattle.std.specs.Prelude.{◌≡◌, ◌+◌, ◌≤◌, length, IfOk, OnOk};
ghost use Rattle.ot_codes.specs.Shape.{filled};
ghost use Rattle.ot_operation.specs.Merge.{first_after, second_after};
ghost use Rattle.ot_operation.specs.Operation.{news};
ghost use Rattle.ot_operation.specs.declared.TheConstants.{LIMIT};

use ot_algebra::{transform_codes, transform_codes_in_place};
use ot_codes::Codes;
use ot_text::{Element, TextOp};
use std::alloc::AllocError;

// The codes of what `a` becomes after `b`, which inserts what `a` inserts; and what `b` becomes after `a`.
pub fn transformed<T: Element>(
    a: &TextOp<T>,
    b: &TextOp<T>,
) -> Result<(Codes, TextOp<T>), AllocError>
    requires base { a.now.base ≡ b.now.base }
    requires fits { a.now.base + length (news a.now.image) + length (news b.now.image) ≤ LIMIT }
    ensures text { IfOk result (λ given. length (news given.0.image) ≡ length (news a.now.image)) }
    ensures codes { IfOk result (λ given. filled given.0 (news a.now.image) ≡ first_after a.now b.now) }
    ensures op { IfOk result (λ given. given.1 ≡ second_after a.now b.now) }
{
    // For the proof: the invariant of every operation.
    let _operation = a.base_len();
    let _operation = b.base_len();
    transform_codes(a, b)
}

// Makes of `b` what it becomes after `a`, and gives the codes of what `a` becomes after `b`, which inserts what `a` inserts.
pub fn transformed_in_place<T: Element>(
    a: &TextOp<T>,
    b: &mut TextOp<T>,
) -> Result<Codes, AllocError>
    requires base { a.now.base ≡ b.old.base }
    requires fits { a.now.base + length (news a.now.image) + length (news b.old.image) ≤ LIMIT }
    ensures text { IfOk result (λ first. length (news first.image) ≡ length (news a.now.image)) }
    ensures codes { IfOk result (λ first. filled first (news a.now.image) ≡ first_after a.now b.old) }
    ensures op { OnOk result (b.new ≡ second_after a.now b.old) }
{
    // For the proof: the invariant of every operation.
    let _operation = a.base_len();
    let _operation = b.base_len();
    transform_codes_in_place(a, b)
}

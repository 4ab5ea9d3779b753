//! The entries of the log from a revision on, which the maker of an operation at that revision did not have.

ghost use Rattle.std.specs.Prelude.{◌≡◌, ◌+◌, ◌≤◌, length, IfOk, IsTrue, ◌↔◌};
ghost use Rattle.ot_operation.specs.Operation.{IsOperation, news};
ghost use Rattle.ot_server.specs.History.{transform_over};
ghost use Rattle.ot_server.specs.Faults.{IsChain, base_at, inserted_in};

use crate::Entry;
use ot_algebra::transform_in_place;
use ot_text::{Element, LIMIT, TextOp};
use std::alloc::AllocError;

// The length of the documents that these entries take, which lead to one of length `end`.
pub fn base_length<T: Element>(entries: &[Entry<T>], end: usize) -> usize
    requires { end ≤ LIMIT }
    ensures value { result ≡ base_at entries.now end }
    ensures small { result ≤ LIMIT }
{
    match entries.first() {
        Some(entry) => entry.operation().base_len(),
        None => end,
    }
}

// Whether the entries' insertions and `length` together are within the limit.
pub fn has_room<T: Element>(entries: &[Entry<T>], length: usize) -> bool
    requires { length ≤ 2000000 }
    ensures { IsTrue result ↔ (length + inserted_in entries.now ≤ LIMIT) }
{
    let mut total = length;
    if total > LIMIT {
        return false;
    }
    for entry in entries {
        total += entry.operation().inserted();
        if total > LIMIT {
            return false;
        }
    }
    true
}

// The operation after these entries, which lead to a document of length `end`.
pub fn transform_after<T: Element>(
    op: &TextOp<T>,
    entries: &[Entry<T>],
    end: usize,
) -> Result<TextOp<T>, AllocError>
    requires base { op.now.base ≡ base_at entries.now end }
    requires chain { IsChain entries.now end }
    requires fits { op.now.base + inserted_in entries.now + length (news op.now.image) ≤ LIMIT }
    ensures value { IfOk result (λ transformed. transformed ≡ transform_over op.now entries.now) }
    ensures base { IfOk result (λ transformed. transformed.base ≡ end) }
    ensures operation { IfOk result (λ transformed. IsOperation transformed) }
{
    let mut transformed = op.copy()?;
    for entry in entries {
        // For the proof: the invariant of every operation.
        let _operation = transformed.base_len();
        let _operation = entry.operation().base_len();
        transform_in_place(&mut transformed, entry.operation())?;
    }
    // For the proof: the invariant of every operation.
    let _operation = transformed.base_len();
    Ok(transformed)
}

//! Whether receipts account for a record: first each block, then each worker, then each place.

ghost use Rattle.std.specs.Prelude.{◌≡◌, ◌+◌, ◌<◌, ◌≤◌, ◌↔◌, length, IfErr, IfSome, IfNone, IsTrue, OnOk, ℕ, slice_index, if◌then◌else◌};
ghost use Rattle.std.specs.List.{All};
ghost use Rattle.ot_board.specs.Tiling.{end_of, IsThere, AreRising, covers, times_in, capped, lists, AreMarks, IsUneven, IsTiling, IsFirstMissing, IsFirstBackwards, IsFault};

use crate::board::Finished;
use crate::receipt::Receipt;
use ot_isa::Schedule;
use std::alloc::Global;

/// Why receipts do not account for a record: the first of its kind.
#[derive(Clone, Copy, Debug, PartialEq, Eq)]
pub enum AuditFault {
    /// The record has not the steps of the worker's receipt from its `first` on.
    Missing(usize, usize),
    /// The block of the worker's receipt begins before the one of its receipt before ended.
    Backwards(usize, usize),
    /// The place is the least that does not lie in exactly one block, and lies in two or more.
    Doubled(usize),
    /// The place is the least that does not lie in exactly one block, and lies in none.
    Uncovered(usize),
    /// A growth was refused.
    Memory,
}

// Whether the receipt's block is in the record.
fn is_there(log: &Schedule, receipt: &Receipt) -> bool
    ensures { IsTrue result ↔ IsThere log.now.instrs receipt.now }
{
    let count = receipt.steps.len();
    if receipt.first > log.len() || count > log.len() - receipt.first {
        return false;
    }
    for place in 0..count {
        let Some(instr) = log.get(receipt.first + place) else {
            unreachable!()
        };
        if !instr.equals(&receipt.steps[place]) {
            return false;
        }
    }
    true
}

// The first of the receipts that is not in the record.
fn first_missing(log: &Schedule, receipts: &[Receipt]) -> Option<usize>
    ensures some { IfSome result (λ i. IsFirstMissing log.now.instrs receipts.now i) }
    ensures none { IfNone result (All (IsThere log.now.instrs) receipts.now) }
{
    for i in 0..receipts.len() {
        if !is_there(log, &receipts[i]) {
            return Some(i);
        }
    }
    None
}

// Whether the block begins before the one of the receipt before it ended.
fn overlaps(last: &Receipt, next: &Receipt) -> bool
    ensures { IsTrue result ↔ (next.now.first < end_of last.now) }
{
    next.first < last.first || next.first - last.first < last.steps.len()
}

// The first of the receipts whose block begins before the one before it ended.
fn first_backwards(receipts: &[Receipt]) -> Option<usize>
    ensures some { IfSome result (λ i. IsFirstBackwards receipts.now i) }
    ensures none { IfNone result (AreRising receipts.now) }
{
    for i in 1..receipts.len() {
        if overlaps(&receipts[i - 1], &receipts[i]) {
            return Some(i);
        }
    }
    None
}

// All workers' receipts are in the record.
fn check_there(log: &Schedule, workers: &[Vec<Receipt>]) -> Result<(), AuditFault>
    ensures ok { OnOk result (All (All (IsThere log.now.instrs)) (lists workers.now)) }
    ensures err { IfErr result (λ f. IsFault log.now.instrs (lists workers.now) f) }
{
    for w in 0..workers.len() {
        if let Some(i) = first_missing(log, workers[w].as_slice()) {
            return Err(AuditFault::Missing(w, i));
        }
    }
    Ok(())
}

// Each worker's blocks rise without overlap.
fn check_rising(log: &Schedule, workers: &[Vec<Receipt>]) -> Result<(), AuditFault>
    requires { All (All (IsThere log.now.instrs)) (lists workers.now) }
    ensures ok { OnOk result (All AreRising (lists workers.now)) }
    ensures err { IfErr result (λ f. IsFault log.now.instrs (lists workers.now) f) }
{
    for w in 0..workers.len() {
        if let Some(i) = first_backwards(workers[w].as_slice()) {
            return Err(AuditFault::Backwards(w, i));
        }
    }
    Ok(())
}

// Marks the places of the block.
fn mark(marks: &mut [u8], receipt: &Receipt)
    requires within { end_of receipt.now ≤ length marks.old }
    requires marks { (at : ℕ) → at < length marks.old → slice_index marks.old at ≤ 2 }
    ensures { (at : ℕ) → at < length marks.new → slice_index marks.new at ≡ (if covers at receipt.now then capped (slice_index marks.old at + 1) else slice_index marks.old at) }
{
    for at in receipt.first..receipt.first + receipt.steps.len() {
        if marks[at] < 2 {
            marks[at] += 1;
        }
    }
}

// Marks the places of all of a worker's blocks.
fn mark_all(marks: &mut [u8], receipts: &[Receipt])
    requires within { All (λ r. end_of r ≤ length marks.old) receipts.now }
    requires marks { (at : ℕ) → at < length marks.old → slice_index marks.old at ≤ 2 }
    ensures { (at : ℕ) → at < length marks.new → slice_index marks.new at ≡ capped (slice_index marks.old at + times_in at receipts.now) }
{
    for receipt in receipts {
        mark(marks, receipt);
    }
}

// Marks the places of all blocks.
fn mark_workers(marks: &mut [u8], workers: &[Vec<Receipt>])
    requires within { All (All (λ r. end_of r ≤ length marks.old)) (lists workers.now) }
    requires none { (at : ℕ) → at < length marks.old → slice_index marks.old at ≡ 0 }
    ensures { AreMarks marks.new (lists workers.now) }
{
    for w in 0..workers.len() {
        mark_all(marks, workers[w].as_slice());
    }
}

// The least place that does not lie in exactly one block, if there is one.
fn check_marks(marks: &[u8]) -> Result<(), AuditFault>
    ensures ok { OnOk result ((at : ℕ) → at < length marks.now → slice_index marks.now at ≡ 1) }
    ensures err { IfErr result (λ f. IsUneven marks.now f) }
{
    for at in 0..marks.len() {
        if marks[at] == 0 {
            return Err(AuditFault::Uncovered(at));
        }
        if marks[at] > 1 {
            return Err(AuditFault::Doubled(at));
        }
    }
    Ok(())
}

// Each place of the record lies in exactly one block.
fn check_once(alloc: Global, log: &Schedule, workers: &[Vec<Receipt>]) -> Result<(), AuditFault>
    requires there { All (All (IsThere log.now.instrs)) (lists workers.now) }
    requires rising { All AreRising (lists workers.now) }
    ensures ok { OnOk result (IsTiling log.now.instrs (lists workers.now)) }
    ensures err { IfErr result (λ f. IsFault log.now.instrs (lists workers.now) f) }
{
    let mut marks = match vec![in alloc; 0u8; log.len()] {
        Ok(marks) => marks,
        Err(_) => return Err(AuditFault::Memory),
    };
    mark_workers(marks.as_mut_slice(), workers);
    check_marks(marks.as_slice())
}

// What the audit finds, in its order.
fn check_all(alloc: Global, log: &Schedule, workers: &[Vec<Receipt>]) -> Result<(), AuditFault>
    ensures ok { OnOk result (IsTiling log.now.instrs (lists workers.now)) }
    ensures err { IfErr result (λ f. IsFault log.now.instrs (lists workers.now) f) }
{
    check_there(log, workers)?;
    check_rising(log, workers)?;
    check_once(alloc, log, workers)
}

/// Whether the workers' receipts, one list per worker, account for the finished board's record: each block lies in it and holds there
/// exactly its steps, each worker's blocks rise without overlap, and each place of the record lies in exactly one block. A fault is the
/// first of its kind, by worker and receipt or by place. `Memory` may come before `Doubled` and `Uncovered`; where the receipts account
/// for the record there is no other fault. The time is linear in the record and the receipts' steps.
pub fn audit(alloc: Global, finished: &Finished, workers: &[Vec<Receipt>]) -> Result<(), AuditFault>
    ensures ok { OnOk result (IsTiling finished.now.schedule.instrs (lists workers.now)) }
    ensures err { IfErr result (λ f. IsFault finished.now.schedule.instrs (lists workers.now) f) }
    ensures exact { IsTiling finished.now.schedule.instrs (lists workers.now) → IfErr result (λ f. f ≡ AuditFault.Memory) }
{
    check_all(alloc, &finished.schedule, workers)
}

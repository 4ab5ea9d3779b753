//! The undo records of the last instructions: a stack that forgets its oldest records where it grows too large.
//!
//! ```text
//!     oldest              newest
//!     u4   u5   u6   u7   u8      the last performed instruction is number 8
//! ```
//!
//! A record is pushed behind the newest. Where all together would be larger than the budget, the oldest go first, and they do not come back: what lies before the records
//! that are left is performed once more where somebody goes there. The newest record stays, however large it is.

ghost use Rattle.std.specs.Prelude.{◌≡◌, ◌<◌, ◌≤◌, ◌+◌, ◌↔◌, ◌++◌, ◌∷◌, ◌⊎◌, ◌-◌, ◌^◌, ◌||◌, [], true, false, IfOk, IfSome, IsTrue, None, OnOk, min};
ghost use Rattle.std.specs.VecDeque.{deque_capacity, deque_len};
ghost use Rattle.ot_debug.specs.Stepping.{undos_in, AreNewest, IsAsBefore, IsPushed};

use ot_machine::Undo;
use std::alloc::{AllocError, Global};
use std::collections::VecDeque;

/// How large the records of a debugger may be in all, counted as `Undo::size` counts: a unit takes 24 bytes, and up to 230 where many clients have much pending, so
/// they stay below 1 GB. 100,000 instructions of thirty components each are within it. One record alone may be larger.
pub(crate) const BUDGET: usize = 4_000_000;

/// The records of the last instructions, oldest first.
#[derive(Drop)]
pub(crate) struct Recent {
    // how large they may be in all
    limit: usize,
    // whether all that is performed leaves records: from where somebody goes back, until the opening is reached
    pub kept: bool,
    pub records: VecDeque<Undo>,
    // how large they are in all
    size: usize,
}

impl Recent {
    /// No records, and what is performed leaves some near a stop alone.
    pub(crate) fn new(alloc: Global, limit: usize) -> Recent
        ensures none { undos_in result ≡ [] }
        ensures limit { result.limit ≡ limit }
        ensures kept { result.kept ≡ false }
    {
        Recent {
            limit,
            kept: false,
            records: VecDeque::new(alloc),
            size: 0,
        }
    }

    /// A stack without records, with room for so many and the same budget. What is performed leaves records there.
    pub(crate) fn again(&self, count: usize) -> Result<Recent, AllocError>
        ensures none { IfOk result (λ recent. undos_in recent ≡ []) }
        ensures limit { IfOk result (λ recent. recent.limit ≡ self.now.limit) }
        ensures kept { IfOk result (λ recent. recent.kept ≡ true) }
    {
        Ok(Recent {
            limit: self.limit,
            kept: true,
            records: VecDeque::with_capacity(self.allocator(), count)?,
            size: 0,
        })
    }

    /// Where they are.
    pub(crate) fn allocator(&self) -> Global {
        *self.records.allocator()
    }

    /// All of them go.
    pub(crate) fn forget(&mut self)
        ensures none { undos_in self.new ≡ [] }
        ensures size { self.new.size ≡ 0 }
        ensures limit { self.new.limit ≡ self.old.limit }
        ensures kept { self.new.kept ≡ self.old.kept }
    {
        self.records.clear();
        self.size = 0;
    }

    /// Notes that somebody has gone back: from then on all that is performed leaves records; at the opening no more are needed, until somebody goes back again.
    pub(crate) fn went_back_to(&mut self, position: usize)
        ensures same { undos_in self.new ≡ undos_in self.old }
        ensures limit { self.new.limit ≡ self.old.limit }
        ensures kept { IsTrue self.new.kept ↔ (0 < position) }
    {
        self.kept = position > 0;
    }

    /// Whether the next instruction leaves a record: where all do, or the next stop is near.
    pub(crate) fn leaves(&self, near: bool) -> bool
        ensures { result ≡ (self.now.kept || near) }
    {
        self.kept || near
    }

    /// Makes room for one more.
    pub(crate) fn reserve_one(&mut self) -> Result<(), AllocError>
        ensures same { IsAsBefore self.old self.new }
        ensures limit { self.new.limit ≡ self.old.limit }
        ensures room { OnOk result (deque_len self.new.records < deque_capacity self.new.records) }
    {
        self.records.reserve(1)
    }

    // Adds a record of this size behind all others, for which there is room. None goes.
    fn add(&mut self, undo: Undo, size: usize)
        requires { deque_len self.old.records < deque_capacity self.old.records }
        ensures more { undos_in self.new ≡ undos_in self.old ++ undo ∷ [] }
        ensures size { self.new.size ≡ min (self.old.size + size) (2 ^ 64 - 1) }
        ensures limit { self.new.limit ≡ self.old.limit }
        ensures kept { self.new.kept ≡ self.old.kept }
    {
        self.size = self.size.saturating_add(size);
        self.records.push_back_reserved(undo);
    }

    /// Adds a record that was taken off behind all others, for which there is room. None goes.
    pub(crate) fn put_back(&mut self, undo: Undo)
        requires { deque_len self.old.records < deque_capacity self.old.records }
        ensures more { undos_in self.new ≡ undos_in self.old ++ undo ∷ [] }
        ensures limit { self.new.limit ≡ self.old.limit }
        ensures kept { self.new.kept ≡ self.old.kept }
    {
        let size = undo.size();
        self.add(undo, size);
    }

    // Drops the oldest records until one of this size fits into the budget beside the others, or none is left.
    fn make_room(&mut self, size: usize)
        requires { deque_len self.old.records < deque_capacity self.old.records }
        ensures rest { AreNewest (undos_in self.old) (undos_in self.new) }
        ensures stay { self.old.size + size ≤ self.old.limit → undos_in self.new ≡ undos_in self.old }
        ensures few { (min (self.new.size + size) (2 ^ 64 - 1) ≤ self.old.limit) ⊎ (undos_in self.new ≡ []) }
        ensures less { self.new.size ≤ self.old.size }
        ensures room { deque_len self.new.records < deque_capacity self.new.records }
        ensures limit { self.new.limit ≡ self.old.limit }
        ensures kept { self.new.kept ≡ self.old.kept }
    {
        while self.size.saturating_add(size) > self.limit {
            let Some(oldest) = self.records.pop_front() else {
                return;
            };
            self.size = self.size.saturating_sub(oldest.size());
            drop(oldest);
        }
    }

    /// Adds a record behind all others, for which there is room. Where all would be too large together, the oldest go first.
    pub(crate) fn push(&mut self, undo: Undo)
        requires { deque_len self.old.records < deque_capacity self.old.records }
        ensures more { IsPushed undo (undos_in self.old) (undos_in self.new) }
        ensures stay { self.old.size + self.new.size ≤ self.old.limit → undos_in self.new ≡ undos_in self.old ++ undo ∷ [] }
        ensures few { (self.new.size ≤ self.old.limit) ⊎ (undos_in self.new ≡ undo ∷ []) }
        ensures limit { self.new.limit ≡ self.old.limit }
        ensures kept { self.new.kept ≡ self.old.kept }
    {
        let size = undo.size();
        self.make_room(size);
        self.add(undo, size);
    }

    /// Takes the last record off. There is room for it then.
    pub(crate) fn pop(&mut self) -> Option<Undo>
        ensures none { result ≡ None → (undos_in self.old ≡ []) × (undos_in self.new ≡ []) }
        ensures some { IfSome result (λ undo. undos_in self.old ≡ undos_in self.new ++ undo ∷ []) }
        ensures room { IfSome result (λ undo. deque_len self.new.records < deque_capacity self.new.records) }
        ensures less { self.new.size ≤ self.old.size }
        ensures limit { self.new.limit ≡ self.old.limit }
        ensures kept { self.new.kept ≡ self.old.kept }
    {
        let undo = self.records.pop_back()?;
        self.size = self.size.saturating_sub(undo.size());
        Some(undo)
    }
}

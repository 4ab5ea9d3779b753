//! How many edits each client made, and how many of them lie in the log's entries.

ghost use Rattle.std.specs.Prelude.{◌≡◌, ◌<◌, ◌+◌, ◌-◌, ◌++◌, ◌∷◌, [], ◌^◌, set, length, IfOk, OnOk};
ghost use Rattle.ot_check.specs.Rows.{last_row, made_by, no_counts, row_at, waiting_of};
ghost use Rattle.ot_check.specs.Following.{counts_of, waiting_after};

use ot_machine::Phase;
use std::alloc::{AllocError, Global};

/// Counts beside a machine of some clients. Where its log has n entries there are n + 1 rows of one count a replica, the
/// server's last: row k says how many of the replica's edits lie in the first k entries.
#[derive(Drop)]
pub(crate) struct Ledger {
    /// By client, how many edits it made.
    pub made: Vec<u32>,
    /// By client, how many of them wait in its buffer.
    pub buffered: Vec<u32>,
    pub rows: Vec<Vec<u32>>,
}

impl Ledger {
    // Before the first instruction.
    pub fn new(alloc: Global, clients: u16) -> Result<Ledger, AllocError>
        ensures { IfOk result (λ ledger. counts_of ledger ≡ no_counts clients) }
    {
        let count = clients as usize;
        let made = vec![in alloc; 0; count]?;
        let buffered = vec![in alloc; 0; count]?;
        let row = vec![in alloc; 0; count + 1]?;
        let mut rows = Vec::new(alloc);
        rows.push(row)?;
        Ok(Ledger {
            made,
            buffered,
            rows,
        })
    }

    // What a replica sees that has the first `entries` entries of the log and made `own` edits.
    pub fn seen(&self, entries: usize, replica: usize, own: u32) -> Result<Vec<u32>, AllocError>
        requires entries { entries < length self.now.rows.items }
        requires replica { replica < length (row_at (counts_of self.now) entries) }
        ensures { IfOk result (λ seen. seen.items ≡ set (row_at (counts_of self.now) entries) replica own) }
    {
        let mut seen = self.rows[entries].clone()?;
        seen[replica] = own;
        Ok(seen)
    }

    // One more edit of a client that is in this phase.
    pub fn edit(&mut self, client: usize, phase: Phase)
        requires made { client < length self.old.made.items }
        requires buffered { client < length self.old.buffered.items }
        requires few { made_by (counts_of self.old) client + 1 < 2 ^ 32 }
        requires few_wait { waiting_of (counts_of self.old) client + 1 < 2 ^ 32 }
        ensures made { self.new.made.items ≡ set self.old.made.items client (made_by (counts_of self.old) client + 1) }
        ensures buffered { self.new.buffered.items ≡ set self.old.buffered.items client (waiting_after phase (waiting_of (counts_of self.old) client)) }
        ensures rows { self.new.rows ≡ self.old.rows }
    {
        self.made[client] += 1;
        self.buffered[client] = match phase {
            Phase::NotJoined | Phase::Synchronized => 0,
            Phase::AwaitingConfirm => 1,
            Phase::AwaitingWithBuffer => self.buffered[client] + 1,
        };
    }

    // One more entry of the log: what the client made and does not hold in its buffer.
    pub fn take(&mut self, client: usize) -> Result<(), AllocError>
        requires made { client < length self.old.made.items }
        requires buffered { client < length self.old.buffered.items }
        requires rows { 0 < length self.old.rows.items }
        requires client { client < length (last_row (counts_of self.old)) }
        ensures made { self.new.made ≡ self.old.made }
        ensures buffered { self.new.buffered ≡ self.old.buffered }
        ensures rows { OnOk result ((counts_of self.new).rows ≡ (counts_of self.old).rows ++ set (last_row (counts_of self.old)) client (made_by (counts_of self.old) client - waiting_of (counts_of self.old) client) ∷ []) }
    {
        let sent = self.made[client].saturating_sub(self.buffered[client]);
        let row = self.seen(self.rows.len() - 1, client, sent)?;
        self.rows.push(row)?;
        Ok(())
    }

    // What waited in the client's buffer is sent.
    pub fn acknowledge(&mut self, client: usize)
        requires { client < length self.old.buffered.items }
        ensures made { self.new.made ≡ self.old.made }
        ensures buffered { self.new.buffered.items ≡ set self.old.buffered.items client 0 }
        ensures rows { self.new.rows ≡ self.old.rows }
    {
        self.buffered[client] = 0;
    }
}

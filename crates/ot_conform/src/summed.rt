//! What was compared of many sessions that conform.

ghost use Rattle.std.specs.Prelude.{◌≡◌, IfOk, OnOk, string_bytes};
ghost use Rattle.ot_conform.specs.Summed.{no_sessions, sessions_word, sum_members, sum_text, sum_value, sum_word, with_session};
ghost use Rattle.ot_conform.specs.Unknown.{all_named};

use crate::counts::Counts;
use crate::members::{agreement_members, number_member, unknown_member};
use crate::printing::{agreement_word, print_counts};
use crate::unknown::{UnknownKey, join_keys, print_unknown};
use std::alloc::{AllocError, Global};

/// What was compared of sessions that conform: how often each key was, and the unknown keys, the first sixteen of them.
#[derive(Drop)]
pub struct Sum {
    pub counts: Counts,
    pub unknown: Vec<UnknownKey>,
}

impl Sum {
    /// Of no session.
    pub fn none(alloc: Global) -> Sum
        ensures { sum_value result ≡ no_sessions }
    {
        Sum {
            counts: Counts::none(),
            unknown: Vec::new(alloc),
        }
    }

    /// Adds what was compared of one more session. After out of memory some of its keys may be named.
    pub fn add(
        &mut self,
        alloc: Global,
        counts: &Counts,
        unknown: &[UnknownKey],
    ) -> Result<(), AllocError>
        ensures { OnOk result (sum_value self.new ≡ with_session counts.now (all_named unknown.now) (sum_value self.old)) }
    {
        join_keys(alloc, &mut self.unknown, unknown)?;
        self.counts = self.counts.plus(counts);
        Ok(())
    }
}

// How many sessions conform, in words.
fn sessions_word(alloc: Global, sessions: u64) -> Result<String, AllocError>
    ensures { IfOk result (λ s. string_bytes s ≡ sessions_word sessions) }
{
    if sessions == 1 {
        return String::from_str(alloc, "1 session conforms");
    }
    format!(in alloc; "{sessions} sessions conform")
}

// The same, or that nothing is compared.
fn sum_word(alloc: Global, is_nothing: bool, sessions: u64) -> Result<String, AllocError>
    ensures { IfOk result (λ s. string_bytes s ≡ sum_word is_nothing sessions) }
{
    if is_nothing {
        String::from_str(alloc, agreement_word(true))
    } else {
        sessions_word(alloc, sessions)
    }
}

/// The lines of so many sessions that conform: how many they are, or `nothing compared`, how often each key was compared, and the unknown keys.
pub fn print_sum(alloc: Global, sessions: u64, sum: &Sum) -> Result<String, AllocError>
    ensures { IfOk result (λ s. string_bytes s ≡ sum_text sessions (sum_value sum.now)) }
{
    let word = sum_word(alloc, sum.counts.is_nothing(), sessions)?;
    let row = print_counts(alloc, &sum.counts)?;
    let unknown = print_unknown(alloc, sum.unknown.as_slice())?;
    format!(in alloc; "{word}\n{row}{unknown}")
}

/// The same as the members of an object: `verdict`, `compared`, `sessions` and `unknown`.
pub fn sum_members(alloc: Global, sessions: u64, sum: &Sum) -> Result<String, AllocError>
    ensures { IfOk result (λ s. string_bytes s ≡ sum_members sessions (sum_value sum.now)) }
{
    let agreement = agreement_members(alloc, &sum.counts)?;
    let number = number_member(alloc, "sessions", sessions)?;
    let unknown = unknown_member(alloc, sum.unknown.as_slice())?;
    format!(in alloc; "{agreement}{number}{unknown}")
}

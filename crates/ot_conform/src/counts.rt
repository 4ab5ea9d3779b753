//! How much of a port's lines was compared.

ghost use Rattle.std.specs.Prelude.{◌≡◌};
ghost use Rattle.ot_conform.specs.Counted.{has, one_more, says_more, shows_nothing};
ghost use Rattle.ot_conform.specs.Summed.{both_values};
ghost use Rattle.ot_steps.specs.Held.{IsHeld, printed_of};

use crate::keys::tells;
use ot_steps::{Key, Line};
use serde_json::Value;

/// The keys whose values are counted, in the order in which the answer has them. Of a message its operation counts.
pub const COUNTED: [Key; 15] = [
    Key::Clients,
    Key::Present,
    Key::Start,
    Key::Do,
    Key::Client,
    Key::Edit,
    Key::Revision,
    Key::State,
    Key::Outstanding,
    Key::Buffer,
    Key::SentOperation,
    Key::Applied,
    Key::Appended,
    Key::Document,
    Key::End,
];

/// For each key of [`COUNTED`], in that order, on how many lines the port printed a value: the run has one there, and it is equal. No count passes 2^64 - 1.
#[derive(Clone, Copy, Debug, PartialEq, Eq)]
pub struct Counts {
    pub values: [u64; 15],
}

// One more where a value is given.
fn one_more(told: bool, count: u64) -> u64
    ensures { result ≡ one_more told count }
{
    if told { count.saturating_add(1) } else { count }
}

// Whether a value under the key says more than of which instruction the line is.
fn says_more(key: Key) -> bool
    ensures { result ≡ says_more key }
{
    !matches!(key, Key::Client)
}

// Those of two sessions together.
fn together(mut counts: [u64; 15], others: &[u64; 15]) -> [u64; 15]
    ensures { result ≡ both_values counts others.now }
{
    for (place, count) in others.iter().enumerate() {
        counts[place] = counts[place].saturating_add(*count);
    }
    counts
}

// Whether a key's count shows nothing.
fn shows_nothing(key: Key, count: u64) -> bool
    ensures { result ≡ shows_nothing key count }
{
    !says_more(key) || count == 0
}

// Whether the line that `steps` prints has something under a key.
fn has(line: &Line<'_>, key: Key, documents: bool) -> bool
    requires { IsHeld line.now }
    ensures { result ≡ has key (printed_of documents line.now) }
{
    line.printed(key, documents).is_some()
}

impl Counts {
    ghost use Rattle.std.specs.Prelude.{◌≡◌};
    ghost use Rattle.serde_json.specs.View.{view};
    ghost use Rattle.ot_conform.specs.Counted.{is_nothing, no_counts, with_line, with_printed};
    ghost use Rattle.ot_conform.specs.Summed.{both_counts};
    ghost use Rattle.ot_steps.specs.Held.{IsHeld, printed_of};

    /// Nothing was compared yet.
    pub fn none() -> Counts
        ensures { result ≡ no_counts }
    {
        Counts { values: [0; 15] }
    }

    /// With what one more line says, which agrees.
    pub fn with_line(mut self, line: &Value) -> Counts
        ensures { result ≡ with_line self (view line.now) }
    {
        for (place, key) in COUNTED.iter().enumerate() {
            self.values[place] = one_more(tells(line, *key), self.values[place]);
        }
        self
    }

    /// With what the line that `steps` prints of an instruction has, with its document or without.
    pub(crate) fn with_printed(mut self, line: &Line<'_>, documents: bool) -> Counts
        requires { IsHeld line.now }
        ensures { result ≡ with_printed self (printed_of documents line.now) }
    {
        for (place, key) in COUNTED.iter().enumerate() {
            self.values[place] = one_more(has(line, *key, documents), self.values[place]);
        }
        self
    }

    /// With those of another session.
    pub fn plus(self, other: &Counts) -> Counts
        ensures { result ≡ both_counts self other.now }
    {
        Counts {
            values: together(self.values, &other.values),
        }
    }

    /// Whether no value is counted but clients: a port that printed places and clients alone, whose lines agree and show nothing.
    pub fn is_nothing(&self) -> bool
        ensures { result ≡ is_nothing self.now }
    {
        for (place, key) in COUNTED.iter().enumerate() {
            if !shows_nothing(*key, self.values[place]) {
                return false;
            }
        }
        true
    }
}

//! The answer, as lines.

ghost use Rattle.std.specs.Prelude.{◌≡◌, ◌++◌, IfOk, OnOk, option_map, string_bytes};
ghost use Rattle.ot_rules.specs.Explained.{explained_value};
ghost use Rattle.ot_conform.specs.Counted.{counted_keys};
ghost use Rattle.ot_conform.specs.Ruled.{explained_rows, verdict_text};
ghost use Rattle.ot_conform.specs.Answers.{agreement_text, agreement_word, count_name, count_text, counts_row, counts_text, difference_text, found_row, front_rows, head_row, malformed_rows, wanted_row};

use crate::answer::Answer;
use crate::answers::{Difference, field_text};
use crate::comparison::Verdict;
use crate::counts::{COUNTED, Counts};
use crate::malformed::{Malformed, malformed_sentence};
use crate::points::{points_of, points_rows};
use ot_report::print_stop;
use ot_rules::{Explained, print_explained};
use ot_steps::{Key, key_text};
use std::alloc::{AllocError, Global};

// The row of what the run has.
fn wanted_row(alloc: Global, wanted: &str) -> Result<String, AllocError>
    ensures { IfOk result (λ s. string_bytes s ≡ wanted_row wanted.now) }
{
    format!(in alloc; "ot.js {wanted}\n")
}

// The row of two texts' common front.
fn front_rows(alloc: Global, front: Option<usize>) -> Result<String, AllocError>
    ensures { IfOk result (λ s. string_bytes s ≡ front_rows front) }
{
    match front {
        Some(front) => format!(in alloc; "place {front}\n"),
        None => Ok(String::new(alloc)),
    }
}

// Where a difference is.
fn head_row(alloc: Global, place: usize, what: &str, name: &str) -> Result<String, AllocError>
    ensures { IfOk result (λ s. string_bytes s ≡ head_row place what.now name.now) }
{
    format!(in alloc; "differs at {place}: {what}: {name}\n")
}

// What was found.
fn found_row(alloc: Global, found: &str) -> Result<String, AllocError>
    ensures { IfOk result (λ s. string_bytes s ≡ found_row found.now) }
{
    format!(in alloc; "found {found}\n")
}

// The lines of a difference: where it is, what was found, what ot.js has, and for two texts how much of them is equal.
fn print_difference(alloc: Global, difference: &Difference) -> Result<String, AllocError>
    ensures { IfOk result (λ s. string_bytes s ≡ difference_text difference.now) }
{
    let what = difference.what.as_str();
    let name = field_text(alloc, difference.owner, difference.field)?;
    let mut text = head_row(alloc, difference.place, what, name.as_str())?;
    let found = found_row(alloc, difference.found.as_str())?;
    let wanted = wanted_row(alloc, difference.wanted.as_str())?;
    let front = front_rows(alloc, difference.front)?;
    text.push_str(found.as_str())?;
    text.push_str(wanted.as_str())?;
    text.push_str(front.as_str())?;
    Ok(text)
}

/// Whether a port without a difference conforms, in words.
pub(crate) fn agreement_word(is_nothing: bool) -> &'static str
    ensures { result.now ≡ agreement_word is_nothing }
{
    if is_nothing {
        "nothing compared"
    } else {
        "conforms"
    }
}

/// The word of a key that is counted.
pub(crate) fn count_name(key: Key) -> &'static str
    ensures { result.now ≡ count_name key }
{
    match key {
        Key::SentOperation => "sent",
        _ => key_text(key),
    }
}

// How often a key was compared.
fn push_count(alloc: Global, text: &mut String, key: Key, count: u64) -> Result<(), AllocError>
    ensures { OnOk result (string_bytes text.new ≡ string_bytes text.old ++ count_text (count_name key) count) }
{
    let name = count_name(key);
    let row = format!(in alloc; " {name} {count}")?;
    text.push_str(row.as_str())
}

// The same of all keys.
fn push_counts(alloc: Global, text: &mut String, counts: &Counts) -> Result<(), AllocError>
    ensures { OnOk result (string_bytes text.new ≡ string_bytes text.old ++ counts_text counted_keys counts.now.values) }
{
    for (place, key) in COUNTED.iter().enumerate() {
        push_count(alloc, text, *key, counts.values[place])?;
    }
    Ok(())
}

/// The line that says how often each key was compared.
pub fn print_counts(alloc: Global, counts: &Counts) -> Result<String, AllocError>
    ensures { IfOk result (λ s. string_bytes s ≡ counts_row counts.now) }
{
    let mut text = String::from_str(alloc, "compared")?;
    push_counts(alloc, &mut text, counts)?;
    text.push_str("\n")?;
    Ok(text)
}

// The lines of a port without a difference: whether it conforms, and how much was compared.
fn print_agreement(alloc: Global, counts: &Counts) -> Result<String, AllocError>
    ensures { IfOk result (λ s. string_bytes s ≡ agreement_text counts.now) }
{
    let word = agreement_word(counts.is_nothing());
    let row = print_counts(alloc, counts)?;
    format!(in alloc; "{word}\n{row}")
}

// What is wrong with the port's line, as a note.
fn malformed_rows(alloc: Global, malformed: Option<Malformed>) -> Result<String, AllocError>
    ensures { IfOk result (λ s. string_bytes s ≡ malformed_rows malformed) }
{
    match malformed {
        Some(malformed) => {
            let sentence = malformed_sentence(malformed);
            format!(in alloc; "note {sentence}\n")
        }
        None => Ok(String::new(alloc)),
    }
}

// The lines of a difference, the code points of what may look alike, and behind them what is wrong with the port's line, or what the
// rules of ot.js say of it.
fn explained_rows(
    alloc: Global,
    difference: &Difference,
    explained: &Option<Explained>,
) -> Result<String, AllocError>
    ensures { IfOk result (λ s. string_bytes s ≡ explained_rows difference.now (option_map explained_value explained.now)) }
{
    let mut text = print_difference(alloc, difference)?;
    let points = points_of(alloc, difference.found.as_str(), difference.wanted.as_str())?;
    let points = points_rows(alloc, &points)?;
    let malformed = malformed_rows(alloc, difference.malformed)?;
    let rules = print_explained(alloc, explained)?;
    text.push_str(points.as_str())?;
    text.push_str(malformed.as_str())?;
    text.push_str(rules.as_str())?;
    Ok(text)
}

/// The lines of an answer's verdict: `conforms` with how much was compared, or `nothing compared` where no value was; the first difference
/// with what was found, what ot.js has, for two texts how much of them is equal, the code points of what may look alike, and where an
/// instruction was performed which rule of ot.js makes the value, if one does, what that is given, and the first note that is true of what
/// was found; or where the run stopped for a limit of the bench.
pub fn print_verdict(alloc: Global, answer: &Answer) -> Result<String, AllocError>
    ensures { IfOk result (λ s. string_bytes s ≡ verdict_text answer.now.compared.verdict (option_map explained_value answer.now.explained)) }
{
    match &answer.compared.verdict {
        Verdict::Conforms(counts) => print_agreement(alloc, counts),
        Verdict::Differs(difference) => explained_rows(alloc, difference, &answer.explained),
        Verdict::Stopped { place, refusal } => print_stop(alloc, *place, *refusal),
    }
}

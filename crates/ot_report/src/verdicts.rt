//! The lines of verdicts.

ghost use Rattle.std.specs.Prelude.{◌≡◌, IfOk, string_bytes};
ghost use Rattle.ot_report.specs.Members.{verdict_text};
ghost use Rattle.ot_report.specs.Verdicts.{at_event, convergence_line, settling_lines, tag_text, verdict_line};

use crate::members::verdict_json;
use ot_check::{Convergence, Unsettled};
use ot_isa::Tag;
use ot_judge::Verdict;
use std::alloc::{AllocError, Global};

/// A tag: `origin:serial`.
pub fn tag_name(alloc: Global, tag: Tag) -> Result<String, AllocError>
    ensures { IfOk result (λ s. string_bytes s ≡ tag_text tag) }
{
    let origin = tag.origin;
    let serial = tag.serial;
    format!(in alloc; "{origin}:{serial}")
}

// A word, an event and a tag.
fn event_line(alloc: Global, word: &str, event: usize, tag: Tag) -> Result<String, AllocError>
    ensures { IfOk result (λ s. string_bytes s ≡ at_event word.now event tag) }
{
    let tag = tag_name(alloc, tag)?;
    format!(in alloc; "{word} {event} {tag}\n")
}

fn reversed_line(
    alloc: Global,
    first: usize,
    second: usize,
    a: Tag,
    b: Tag,
) -> Result<String, AllocError>
    ensures { IfOk result (λ s. string_bytes s ≡ verdict_line (Verdict.Reversed first second a b)) }
{
    let a = tag_name(alloc, a)?;
    let b = tag_name(alloc, b)?;
    format!(in alloc; "reversed {first} {second} {a} {b}\n")
}

/// The line of a judge's verdict: `holds`, or the fault with its event, or the two events of a reversed pair, and the tags.
pub fn print_verdict(alloc: Global, verdict: Verdict) -> Result<String, AllocError>
    ensures { IfOk result (λ s. string_bytes s ≡ verdict_line verdict) }
{
    match verdict {
        Verdict::Holds => String::from_str(alloc, "holds\n"),
        Verdict::BadVisibility(event) => format!(in alloc; "bad-visibility {event}\n"),
        Verdict::Doubled(event, tag) => event_line(alloc, "doubled", event, tag),
        Verdict::Missing(event, tag) => event_line(alloc, "missing", event, tag),
        Verdict::Extra(event, tag) => event_line(alloc, "extra", event, tag),
        Verdict::WrongPlace(event, tag) => event_line(alloc, "wrong-place", event, tag),
        Verdict::Reversed(first, second, a, b) => reversed_line(alloc, first, second, a, b),
    }
}

/// The line of a judge's verdict in words, or as JSON.
pub fn verdict_text(alloc: Global, json: bool, verdict: Verdict) -> Result<String, AllocError>
    ensures { IfOk result (λ s. string_bytes s ≡ verdict_text json verdict) }
{
    if json {
        verdict_json(alloc, verdict)
    } else {
        print_verdict(alloc, verdict)
    }
}

/// The line of a comparison of all lists: `quiet`, `not quiet` with the first client or link that is not settled, or `differs` with the
/// first client whose list is not the server's and the first place at which it is not.
pub fn print_convergence(alloc: Global, convergence: Convergence) -> Result<String, AllocError>
    ensures { IfOk result (λ s. string_bytes s ≡ convergence_line convergence) }
{
    match convergence {
        Convergence::Quiet => String::from_str(alloc, "quiet\n"),
        Convergence::NotQuiet(Unsettled::Client(client)) => {
            format!(in alloc; "not quiet: client {client}\n")
        }
        Convergence::NotQuiet(Unsettled::Up(client)) => {
            format!(in alloc; "not quiet: up {client}\n")
        }
        Convergence::NotQuiet(Unsettled::Down(client)) => {
            format!(in alloc; "not quiet: down {client}\n")
        }
        Convergence::Differs(client, place) => {
            format!(in alloc; "differs: client {client} place {place}\n")
        }
    }
}

/// The lines of all of these, in order.
pub fn print_settling(alloc: Global, settling: &[Convergence]) -> Result<String, AllocError>
    ensures { IfOk result (λ s. string_bytes s ≡ settling_lines settling.now) }
{
    let mut text = String::new(alloc);
    for convergence in settling {
        let line = print_convergence(alloc, *convergence)?;
        text.push_str(line.as_str())?;
    }
    Ok(text)
}

//! The lines of reads, of a stop, of clients and of the server.

ghost use Rattle.std.specs.Prelude.{◌≡◌, ◌++◌, IfOk, OnOk, string_bytes};
ghost use Rattle.ot_report.specs.Authors.{author_in};
ghost use Rattle.ot_report.specs.Printed.{client_text, quiet_line, read_line, read_text, reader_text, server_text, stop_line, stop_text, stopped_text};

use crate::authors::Authors;
use crate::run_json::{push_read_json, stop_json};
use ot_isa::Tagged;
use ot_model::{Reader, Refusal};
use ot_text::Doc;
use ot_values::{push_quoted, refusal_name};
use std::alloc::{AllocError, Global};

// Who reads.
fn reader_name(alloc: Global, who: Reader) -> Result<String, AllocError>
    ensures { IfOk result (λ s. string_bytes s ≡ reader_text who) }
{
    match who {
        Reader::Client(client) => format!(in alloc; "read {client}"),
        Reader::Server => String::from_str(alloc, "read-server"),
    }
}

/// Adds the line of a read of this list: `read C "text"` or `read-server "text"`. If memory runs out, the text holds a part of the line.
pub fn push_read(
    alloc: Global,
    text: &mut String,
    who: Reader,
    list: &Doc<Tagged>,
) -> Result<(), AllocError>
    ensures { OnOk result (string_bytes text.new ≡ string_bytes text.old ++ read_line (record { who = who; list = list.now })) }
{
    let name = reader_name(alloc, who)?;
    text.push_str(name.as_str())?;
    text.push(' ')?;
    push_quoted(alloc, text, list)?;
    text.push('\n')
}

/// Adds the line of a read of this list, in words or, with these authors, as JSON. If memory runs out, the text holds a part of it.
pub(crate) fn push_read_text(
    alloc: Global,
    json: bool,
    authors: &Authors,
    text: &mut String,
    who: Reader,
    list: &Doc<Tagged>,
) -> Result<(), AllocError>
    ensures { OnOk result (string_bytes text.new ≡ string_bytes text.old ++ read_text json (author_in authors.now) (record { who = who; list = list.now })) }
{
    if json {
        push_read_json(alloc, authors, text, who, list)
    } else {
        push_read(alloc, text, who, list)
    }
}

/// The line of a run that stopped before the instruction at this place: `stopped at I: Refusal`.
pub fn print_stop(alloc: Global, place: usize, refusal: Refusal) -> Result<String, AllocError>
    ensures { IfOk result (λ s. string_bytes s ≡ stop_line place refusal) }
{
    let name = refusal_name(refusal);
    format!(in alloc; "stopped at {place}: {name}\n")
}

// The line of a stop before the instruction at this place.
fn stopped_text(
    alloc: Global,
    json: bool,
    place: usize,
    refusal: Refusal,
) -> Result<String, AllocError>
    ensures { IfOk result (λ s. string_bytes s ≡ stopped_text json place refusal) }
{
    if json {
        stop_json(alloc, place, refusal)
    } else {
        print_stop(alloc, place, refusal)
    }
}

/// Adds the line of the stop, if there was one, in words or as JSON.
pub(crate) fn push_stop(
    alloc: Global,
    json: bool,
    text: &mut String,
    stopped: Option<(usize, Refusal)>,
) -> Result<(), AllocError>
    ensures { OnOk result (string_bytes text.new ≡ string_bytes text.old ++ stop_text json stopped) }
{
    if let Some((place, refusal)) = stopped {
        let line = stopped_text(alloc, json, place, refusal)?;
        text.push_str(line.as_str())?;
    }
    Ok(())
}

/// The line of a client: `client C rev R STATE "text"`.
pub fn print_client(
    alloc: Global,
    client: u16,
    revision: u32,
    phase: &str,
    list: &Doc<Tagged>,
) -> Result<String, AllocError>
    ensures { IfOk result (λ s. string_bytes s ≡ client_text client revision phase.now list.now) }
{
    let mut text = format!(in alloc; "client {client} rev {revision} {phase} ")?;
    push_quoted(alloc, &mut text, list)?;
    text.push('\n')?;
    Ok(text)
}

/// The line of the server: `server rev R "text"`.
pub fn print_server(
    alloc: Global,
    revision: usize,
    list: &Doc<Tagged>,
) -> Result<String, AllocError>
    ensures { IfOk result (λ s. string_bytes s ≡ server_text revision list.now) }
{
    let mut text = format!(in alloc; "server rev {revision} ")?;
    push_quoted(alloc, &mut text, list)?;
    text.push('\n')?;
    Ok(text)
}

/// The last line: `quiet` or `not quiet`.
pub fn quiet_text(quiet: bool) -> &'static str
    ensures { result.now ≡ quiet_line quiet }
{
    if quiet { "quiet\n" } else { "not quiet\n" }
}

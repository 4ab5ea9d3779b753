//! From a reply to its lines.

ghost use Rattle.std.specs.Prelude.{◌≡◌, IfOk, IsErr, string_bytes};
ghost use Rattle.std.specs.Cow.{cow_str_bytes};
ghost use Rattle.ot_console.specs.Replies.{is_fault, place_line, stopped_line, IsMade, IsReplyText};

use ot_debug::{Reply, Stepper, Why};
use ot_report::print_end;
use ot_values::refusal_name;
use std::alloc::{AllocError, Global};
use std::borrow::CowStr;

// The line of a stop: `at P: REASON`.
fn stopped_line(alloc: Global, at: usize, why: Why) -> Result<String, AllocError>
    ensures { IfOk result (λ s. string_bytes s ≡ stopped_line at why) }
{
    match why {
        Why::Break => format!(in alloc; "at {at}: break\n"),
        Why::Watch(number) => format!(in alloc; "at {at}: watch {number}\n"),
        Why::End => format!(in alloc; "at {at}: end\n"),
        Why::Refused(refusal) => {
            let name = refusal_name(refusal);
            format!(in alloc; "at {at}: refused {name}\n")
        }
        Why::Count => format!(in alloc; "at {at}: count\n"),
    }
}

// The line of a place: `at P`.
fn place_line(alloc: Global, at: usize) -> Result<String, AllocError>
    ensures { IfOk result (λ s. string_bytes s ≡ place_line at) }
{
    format!(in alloc; "at {at}\n")
}

/// The lines of a reply that the debugger gave last: one line, or the lines of the state that it shows. Only a reply
/// with a number or a state takes memory.
pub fn print_reply(
    alloc: Global,
    debugger: &Stepper,
    reply: &Reply,
) -> Result<CowStr<'static>, AllocError>
    ensures ok { IfOk result (λ text. IsReplyText debugger.now reply.now (cow_str_bytes text)) }
    ensures err { IsErr result → IsMade reply.now }
{
    match reply {
        Reply::Stopped { at, why } => {
            let line = stopped_line(alloc, *at, *why)?;
            Ok(CowStr::Owned(line))
        }
        Reply::Done => Ok(CowStr::Borrowed("ok\n")),
        Reply::Place(at) => {
            let line = place_line(alloc, *at)?;
            Ok(CowStr::Owned(line))
        }
        Reply::Shown(_) => {
            let lines = print_end(alloc, debugger.machine())?;
            Ok(CowStr::Owned(lines))
        }
        Reply::NoSuchPlace => Ok(CowStr::Borrowed("no such place\n")),
        Reply::NoSuchClient => Ok(CowStr::Borrowed("no such client\n")),
        Reply::Memory => Ok(CowStr::Borrowed("no memory\n")),
    }
}

/// Whether an instruction was refused, or memory ran out.
pub(crate) fn is_fault(reply: &Reply) -> bool
    ensures { result ≡ is_fault reply.now }
{
    match reply {
        Reply::Stopped {
            why: Why::Refused(_),
            ..
        } => true,
        Reply::Memory => true,
        _ => false,
    }
}

//! What one line is answered with.

ghost use Rattle.std.specs.Cow.{cow_str_bytes};
ghost use Rattle.ot_console.specs.Looping.{IsCommandTurn, IsPrinted, IsTurn};

use crate::commands::read_command;
use crate::replies::{is_fault, print_reply};
use ot_asm::trimmed;
use ot_debug::{Command, Reply, Stepper};
use std::alloc::Global;
use std::borrow::CowStr;

/// What a line is answered with.
#[derive(Drop)]
pub struct Response {
    /// The lines to print, each with its LF; none for an empty line.
    pub text: CowStr<'static>,
    /// It says `bad command`, that an instruction was refused, or `no memory`.
    pub faulted: bool,
}

// What is printed of a reply.
fn printed(alloc: Global, debugger: &Stepper, reply: &Reply) -> Response
    ensures { IsPrinted debugger.now reply.now (cow_str_bytes result.text) result.faulted }
{
    match print_reply(alloc, debugger, reply) {
        Ok(text) => Response {
            text,
            faulted: is_fault(reply),
        },
        Err(_) => Response {
            text: CowStr::Borrowed("no memory\n"),
            faulted: true,
        },
    }
}

// Performs a command, where the line is one.
fn perform(alloc: Global, debugger: &mut Stepper, command: Option<Command>) -> Response
    ensures { IsCommandTurn debugger.old command debugger.new (cow_str_bytes result.text) result.faulted }
{
    match command {
        None => Response {
            text: CowStr::Borrowed("bad command\n"),
            faulted: true,
        },
        Some(command) => {
            let reply = debugger.command(command);
            printed(alloc, debugger, &reply)
        }
    }
}

/// Performs the command that a line is, and says what is printed. An empty line is passed over, and one that is no
/// command is answered with `bad command`; both leave the debugger as it is. Where memory for the lines of a reply
/// runs out, `no memory` is printed in their place, and the command was performed.
pub fn respond(alloc: Global, debugger: &mut Stepper, line: &[u8]) -> Response
    ensures { IsTurn debugger.old line.now debugger.new (cow_str_bytes result.text) result.faulted }
{
    if trimmed(line).is_empty() {
        return Response {
            text: CowStr::Borrowed(""),
            faulted: false,
        };
    }
    perform(alloc, debugger, read_command(line))
}

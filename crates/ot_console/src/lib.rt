//! The debugger's commands as lines of text, its replies as printed lines, and the command loop over the two.
//!
//! ```text
//!    line ── trimmed, split into words ──▶ Command ──▶ Stepper  ──▶ Reply ──▶ line
//!    "back 1"                              Back(1)                  Stopped     "at 2: count"
//! ```
//!
//! A line, once one CR at its end and then blanks at both ends are dropped, is passed over where it is empty. Any other
//! line is a command, by its words, or is answered with `bad command`. [`command_loop`] reads a line, performs it and writes its
//! reply before it reads the next one, over any reader and writer.
//!
//! The contracts' words: `specs/Commands.antt` (`command_of`, the command that a line is), `Replies.antt` (`IsReplyText`,
//! the lines of a reply), `Looping.antt` (`IsTurn`, what one line is answered with; `Loops`, the whole command loop as a walk over
//! the lines and the sessions between them). Begin with [`read_command`] in `commands.rt`, then [`print_reply`] and
//! [`command_loop`].
#![tactic(auto)]

mod commands;
mod looping;
mod replies;
mod turns;

pub use commands::read_command;
pub use looping::{LoopStop, command_loop};
pub use replies::print_reply;
pub use turns::{Response, respond};

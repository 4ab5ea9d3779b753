//! What the program's words ask for, as `clap` reads them, and the texts of its help.
//!
//! ```text
//!    words ── clap, by command() ──▶ matches ── request_in ──▶ Asked: a Request, or threads
//!      └── none: clap's error, with the text that says what is wanted
//! ```
//!
//! - *The command line* (`specs/Requests.antt`): `otbench_app` has the subcommands with their flags and options, and `request_of` is what words ask for.
//! - *Requests*: [`Request`] and [`Asked`] are what `otbench` carries out.
//!
//! Begin reading at `otbench_app` in specs/Requests.antt, then at [`read_request`].
#![tactic(auto)]

mod every;
mod help;
mod words;

pub use words::{Asked, Form, Request, Subject, read_request};

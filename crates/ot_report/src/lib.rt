//! What is printed of a run, and of the verdicts on it.
//!
//! ```text
//!   Schedule ── write_report ──▶ its reads, its stop, and its end, in words or as lines of JSON, written while the run goes
//!   Machine ── print_end ──▶ the lines of its state
//!   Schedule ── find ──▶ Findings: the stop of its run, whether all is quiet with one list or what is not settled, the verdict of its trace
//!     └── found_text ──▶ its lines, or a line of JSON
//! ```
//!
//! Every line ends with LF; a text is printed as a JSON string. Each call that prints answers an error only if memory runs out, and its
//! contract says every byte: `specs/Printed.antt` has the lines of a run, `specs/RunJson.antt` those as JSON, `specs/Authors.antt` who inserted the characters of a read, `specs/Verdicts.antt` those of verdicts, `specs/Members.antt` the
//! same as JSON, `specs/Findings.antt` what is found of a schedule; `specs/Written.antt` has what stands on the output after a fault. Begin
//! with [`write_report`] and [`find`].
//!
//! The verdict of a trace in words ([`print_words`]): which events, which elements, and what each list has.
//!
//! ```text
//!   Trace, Verdict ── print_words ──▶   event 2 is a read of replica 0; its list has 0:0 at 0 and 1:0 at 1
//!                                       event 4 is a read of replica 1; its list has 1:0 at 0 and 0:0 at 1
//! ```
//!
//! Each of these lines begins with two blanks and names an event and its replica; where the property holds, one line says how much was
//! judged. The sentences are true of every trace, since they say what is found there, whatever the verdict: a search that finds nothing has
//! words of its own. `specs/Causes.antt` has `cause_of`, the first cause why an event does not see what it has to, in the order of
//! `SeesRightly` (the clause `exact` of [`cause_of`]: there is one exactly then); `specs/Finds.antt` where an element stands in a list, and which
//! events insert and delete it; `specs/Words.antt` every byte. Each search goes once over the events, the lists or the replicas; whether an
//! event sees another costs one more look at the events before that one.
#![tactic(auto)]

mod authors;
mod causes;
mod ending;
mod findings;
mod finds;
mod lines;
mod members;
mod run_json;
mod spans;
mod unsettled;
mod verdicts;
mod words;
mod writing;

pub use authors::{Author, edits_are_authors};
pub use causes::{Cause, cause_of};
pub use ending::print_end;
pub use findings::{Findings, find, found_text};
pub use lines::{print_client, print_server, print_stop, push_read, quiet_text};
pub use members::verdict_json;
pub use spans::{Span, spans_spell};
pub use unsettled::settling;
pub use verdicts::{print_convergence, print_settling, print_verdict, tag_name, verdict_text};
pub use words::print_words;
pub use writing::write_report;

//! Traces of replicas that share a list, and the judge of the weak list property.
//!
//! A trace is what was seen of a run from outside: by event, which replica acted, which edits of each replica it had
//! seen before, what it inserted and deleted, and the whole list that it returned. Elements are named by tags
//! (`ot_isa::Tag`), so two equal characters are two elements.
//!
//! ```text
//! event  replica  sees      does                list
//!   0       0     none      inserts a at 0      a
//!   1       1     none      inserts b at 0      b
//!   2       0     0 and 1   reads               a b
//!   3       2     none      reads
//!   4       1     0 and 1   reads               b a         judge: Reversed(2, 4, a, b)
//! ```
//!
//! The weak list property, of Attiya, Burckhardt, Gotsman, Morrison, Yang and Zawirski, "Specification and complexity of
//! collaborative text editing", PODC 2016, with events of whole edits and exact places: each event sees its own
//! replica's edits and all that what it sees has seen; each list holds exactly what is known as inserted and not as
//! deleted, each element once; each inserted element stands at its place; and no two elements stand in one order in
//! one list and in the other order in another. No order of all elements is asked for.
//!
//! `read_trace` reads a trace from JSON, by the pieces of `layout` and `value`; `Trace::new` makes one from its parts (`Trace::from_parts` where they are known
//! to be one), and `judge` decides the property or names the first fault. Its answer is exact. It is fast because it
//! confirms each event from the last one of its replica and from what it newly knows (`confirm.rt`), because it notes once who
//! deletes each element (`elements.rt`), and because it gives elements places that rise along the lists (`graph.rt`) and checks them.
//! Where they do not rise, it holds lists beside the order of another replica's elements (`seats.rt`, `falls.rt`, `search.rt`), and never list beside list.
//! What an event sees, follows and knows are calls of their own, for words about a verdict: [`seen_of`], [`follows`], [`knows`].
//!
//! Traces as lists and their weak list property are defined in `ot_model`, in its `specs/Trace.antt`,
//! `specs/Visibility.antt` and `specs/WeakList.antt`: the judge decides the same property that `ot_model::laws::weak_list`
//! proves of every run. Here, `specs/` has `Views` (the code's traces as lists), `Verdict` and `Contents` (verdicts and
//! first faults), `Turns` (an event after the last one of its replica), `Elements` (who deletes an element), `Seats` and `Replicas` (the order of one
//! replica's elements, and lists beside it), `Making` (what parts are a trace) and `Reading` (what trace a JSON value is). Begin with `WeakListProperty` in `ot_model`, then with `specs/Verdict.antt` and `judge` in `decide.rt`.
#![tactic(auto)]

mod confirm;
mod contents;
mod decide;
mod elements;
mod falls;
mod fault;
mod graph;
pub mod layout;
mod news;
mod order;
mod ranks;
mod reading;
mod search;
mod seats;
mod seed;
mod trace;
pub mod value;
mod verdict;
mod visibility;

pub use contents::{knows, stands_at_place};
pub use decide::judge;
pub use fault::TraceFault;
pub use ot_model::Placed;
pub use reading::{read_trace, trace_of};
pub use trace::{Event, MOST_ENTRIES, MOST_EVENTS, Trace};
pub use verdict::Verdict;
pub use visibility::{edits_before, follows, seen_of};

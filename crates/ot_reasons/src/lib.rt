//! Why a text is no trace, or no plan, in words: where its first fault is, what stands there, and what is wanted.
//!
//! ```text
//!    text ── serde_json ──▶ value ── ot_judge::trace_of ──▶ Trace
//!     └── no JSON: line      └── BadShape: Place ── found ──▶   event 3, insert[2]: found [0,0]; wanted an array [origin, serial, place]
//!         and column             (the first fault)
//!    text ── serde_json ──▶ value ── ot_plan::plan_of ───▶ Plan        a plan: 2 clients, 1 worker, 5 actions of typing
//!                            └── a fault: Place ── found ──▶   typing[1][3], insert: found 7; wanted a text
//! ```
//!
//! - *Places* (`specs/Places.antt`): a [`Place`] is a path into the JSON value of a trace or a plan, and `found_at` what stands there.
//! - *The first fault of a trace* (`specs/Faults.antt`): `trace_fault`, in the order in which `ot_judge::trace_of` looks: the keys of the trace, the
//!   tags of `start`, and then event by event its keys, whether they fit the trace, and the items of its arrays. [`shape_fault`] finds it, and its
//!   contract says that there is one exactly where `ot_judge` has no trace of the value, and that what stands there is not what is wanted there
//!   (`specs/Satisfied.antt`).
//! - *Tags that are named twice* (`specs/Namings.antt`): the first two places that name a tag.
//! - *The first fault of a plan* (`specs/PlanFaults.antt`): `plan_fault`, of the kinds of `ot_plan` in their order: what its shape lacks, numbers,
//!   lengths, how many actions. [`plan_fault`] finds it, and its contract says that its kind is the fault of `ot_plan`, and
//!   of what stands there the same as for a trace.
//! - *Keys that are not read* (`specs/Ignored.antt`): [`ignored_keys`] names those of a plan, since a misspelled key says nothing.
//! - *Words* (`specs/Words.antt`, `specs/PlanWords.antt`): [`read_or_tell`] and [`read_plan_or_tell`] read a trace and a plan, or tell why there is none.
//!
//! Begin with `trace_fault` in specs/Faults.antt, then with [`read_or_tell`].
#![tactic(auto)]

mod checks;
mod ignored;
mod json_faults;
mod namings;
mod place;
mod plan_faults;
mod plan_reading;
mod plan_words;
mod reading;
mod shape;
mod words;

pub use ignored::{Ignored, Part, ignored_keys, ignored_text};
pub use namings::{Namings, namings_of};
pub use place::{Fault, Field, Place, Wanted};
pub use plan_faults::{PlanRefusal, plan_fault};
pub use plan_reading::{PlanReason, ReadPlan, no_plan_text, read_plan_or_tell};
pub use plan_words::plan_text;
pub use reading::{Reason, no_text, read_or_tell};
pub use shape::shape_fault;

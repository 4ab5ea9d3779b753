//! Plans: how many clients and workers there are, which text they start with, and what each client's user types.
//!
//! ```text
//! {"clients":2, "workers":1, "typing":[[{"at":0,"insert":"a"}], [{"at":0,"insert":"b"}]]}
//! ```
//!
//! `read_plan` reads a plan from JSON, and its answer is exact: the plan that the text is, or its first fault. The type
//! `Plan` has the limits in its invariant (`IsPlan`). It reads by the pieces of `action`, `layout` and `survey`, which take no memory.
//! Begin with `plan_of_text` in `specs/Reading.antt`, then with `specs/Plan.antt`.
//!
//! What a user types is an action, a [`Typing`]: where, how much is deleted, and what is inserted. It is made without a look at the list, so both
//! numbers are cut to what is there; its edit on a list is `edit_of` (`specs/Typing.antt`). Workers type by it, and a recorded schedule is compared
//! with it.
//!
//! ```text
//!     at 1, delete 5, insert "cd"     on a list of 3:  [1,"cd",-2]
//!                                     on a list of 0:  ["cd"]
//! ```
#![tactic(auto)]

pub mod action;
mod fault;
pub mod layout;
mod plan;
mod reading;
pub mod survey;
mod typing;

pub use fault::{PlanFault, fault_line};
pub use plan::Plan;
pub use reading::{plan_of, read_plan};
pub use typing::Typing;

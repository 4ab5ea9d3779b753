//! The laws of sessions and of all their runs, each as the contract of a function that does nothing: a proof that calls one has its law.

pub use crate::limits::limits;
pub use crate::list_laws::{
    counts_tell, events_see, lists_agree, not_one_order, one_has_both, trace_shape, weak_list,
};
pub use crate::order_laws::{
    any_order, any_order_runs, commute, exchange, same_instructions, same_multiset, too_early_stops,
};
pub use crate::part_laws::{
    part_begins, present_sound, runs_go_on, sends_once, session_block, session_sound,
    session_waits, sessions_go_on,
};
pub use crate::session_laws::{
    convergence, lengths_fit, may_deliver, opening_sound, quiet_same, run_sound, runs_reach,
    schedules_run, server_accepts, step_sound,
};

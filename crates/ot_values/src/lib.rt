//! Values of a run as they are printed: letters as the text of a JSON string, a refusal, a client's state, the items of a JSON array.
//!
//! What prints a run (`ot_report`, `ot_steps`, `ot_explain`) shares these. `specs/Values.antt` has each, `specs/Items.antt` the items. Begin with [`push_quoted`] and
//! [`refusal_name`].
#![tactic(auto)]

mod bytes;
mod items;
mod letters;
mod names;

pub use bytes::ascii_text;
pub use items::push_item;
pub use letters::{Letter, push_letters, push_quoted};
pub use names::{phase_name, refusal_name};

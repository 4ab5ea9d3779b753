//! The algebra of text operations: composition and transformation, as in ot.js' `TextOperation`.
//!
//! An operation is its codes and its text (`ot_text`), and neither of them looks at the other. So
//!
//! - `transform` changes codes alone (`ot_codes`). What `a` becomes has the text of `a`, and what `b` becomes has the text of `b`; where an operation is no longer
//!   needed, `transform_in_place` and `transform_codes_in_place` leave its text where it lies;
//! - `compose` changes codes, and cuts the text of `a`: elements that `b` deletes are removed, and elements that `b` inserts are added.
//!
//! Contracts: `Compose.antt`, `Merge.antt` and `Laws.antt` of `ot_operation`. Each law is the contract of a function in [`laws`]. To read: `algebra.rt`, then
//! `laws.rt`.
#![tactic(auto)]

mod algebra;
pub mod laws;

pub use algebra::{
    compose, transform, transform_codes, transform_codes_in_place, transform_first,
    transform_in_place, transform_second,
};

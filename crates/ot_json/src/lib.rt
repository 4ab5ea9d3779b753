//! Text operations as JSON arrays, in the form of ot.js' `TextOperation.toJSON` and `fromJSON`.
//!
//! ```text
//! [3, "ab", -1]     retain 3, insert "ab", delete 1
//! ```
//!
//! A positive number is a retain, a negative one a delete, a string an insert; lengths count Unicode scalar values.
//! Reading makes the builder's calls from left to right: so equal neighbours are merged and an empty string adds nothing,
//! and the first component that is none, or with which a length passes 1,000,000, is the fault. Writing gives the compact
//! array of the components in normal form, which reads back as the operation.
//!
//! `serde_json` reads and writes the JSON values. The contracts' words: `specs/Reading.antt` (`operation_of_text`, the
//! operation of a text or its fault) and `specs/Writing.antt` (`text_of_operation`). Begin with `reading.rt`; `building.rt`
//! has the one pass, and a second one without memory which finds whether a fault stands behind a refused growth. `plain.rt` reads
//! what programs write, arrays of strings without escapes and of integers, in one pass over the bytes and without a JSON value.
//!
//! What stands under the keys of JSON objects (numbers, texts, arrays) is read by [`number_at`] and the others of `fields.rt`; `specs/Fields.antt`
//! has the same words for the definitions of formats.
#![tactic(auto)]

mod building;
mod fault;
mod fields;
mod lengths;
mod part;
mod plain;
mod reading;
mod writing;

pub use fault::OpFault;
pub use fields::{items_at, items_or_none, number_at, number_or, text_or_empty};
pub use plain::read_plain;
pub use reading::{op_of_value, read_op};
pub use writing::write_op;

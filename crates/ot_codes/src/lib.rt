//! Operations without their text: `transform` and `compose` on codes.
//!
//! An operation is its codes and, apart from them, its text: all that it inserts, in order. A code is a component without its elements, a kind and a length.
//!
//! ```text
//!     operation   [2,"xy",-3,1,"z"]   on documents of 6 elements
//!     codes       Retain 2 | Insert 2 | Delete 3 | Retain 1 | Insert 1
//!     text        x y z
//!     shape       Old 0, Old 1, New _, New _, Old 5, New _      on base 6
//! ```
//!
//! A contract sees codes as the operation that they spell over the unit type: the *shape* of every operation with these codes. So `transform` and `compose` of codes
//! have the contracts of `ot_algebra`, at that type, and the laws of that crate hold of them. Three laws lead from codes back to operations ([`laws`]):
//!
//! - An operation is its shape, filled with its text. Two operations of one shape with one text are equal.
//! - `transform` changes no text. What `a` becomes after `b` has the text of `a`, and what `b` becomes after `a` has the text of `b`.
//! - `compose` cuts the text of `a`: elements that `b` deletes are removed, and elements that `b` inserts are added.
//!
//! ```text
//!     a           retain 1 | insert "xyz" | retain 1        text  x y z
//!     b           retain 2 | insert "uv" | delete 1 | retain 2    text  u v
//!     a then b    Retain 1 | Insert 4 | Retain 1
//!     cuts        at 1: 1 goes, 2 come, from 0              text  x u v z
//! ```
//!
//! Up to five codes lie in the value itself, without an allocation. More lie in one vector, four bytes each, in blocks of up to 64. Beside them stands what all codes
//! before the end of a block come to, and how many they are; the last block has no end yet:
//!
//! ```text
//!     codes    [ R 3  I 1  R 2  D 4 ..   | I 7  R 9  D 2 ..   | R 9  I 2  R 3 ]
//!     ends     [ 31 kept, 4 deleted,     | 60 kept, 9 deleted,
//!                9 inserted, 64 codes    | 20 inserted, 127 codes ]
//! ```
//!
//! They are read through a [`Cursor`] and written by a [`Pen`] alone, each of which a contract sees as a value: what is left, and what is written. [`Cursor::run`] reads
//! as many codes at once as fit into a length: some of a block, or it and whole blocks behind it, which are a [`Stretch`]; of whole blocks it searches the ends alone.
//! [`Pen::append`] writes them as they lie, with those ends moved behind what is written, and joins only what has to be joined. `transform` does so where codes of an
//! operation of more than sixteen lie in a retain of the other: they stay as they are, and the other retains what they make; `compose` does where such codes of the first make
//! what the second retains. Else both go code by code: each iteration of a loop ends a code of one operation at least, so they cost the codes of both, whatever is inserted.
//! `transform` reads two operations of sixteen codes or fewer as slices, without a cursor. A pen writes a retain with the next code of another kind: so what is retained piece
//! by piece is written once.
//!
//! Contracts: `specs/Shape.antt` (shapes, and how they are filled), `specs/Codes.antt` (codes as runs of `ot_text` over the unit type), `specs/Cuts.antt` (the text of a
//! composition, and what carrying out its cuts gives), `specs/Laws.antt` (the laws, each the contract of a function in [`laws`]). `specs/Splice.antt` serves the loop of `compose` alone, `specs/Runs.antt` says what is
//! read at once. To read: `code.rt`, `packed.rt` (four bytes), `code_list.rt`, `few.rt`, `blocks.rt` and `stretch.rt` (few or many), `build.rt` (normal form), `codes.rt`, `cursor.rt`, `reader.rt`, then `transformation.rt`, `cut.rt` and `composition.rt`.
#![tactic(auto)]

mod blocks;
mod build;
mod code;
mod code_list;
mod codes;
mod composition;
mod cursor;
mod cut;
mod end;
mod few;
pub mod laws;
mod packed;
mod reader;
mod stretch;
mod transformation;

pub use code::{Code, Sum};
pub use codes::{Codes, Pen};
pub use composition::{Composed, compose};
pub use cursor::{Cursor, Measure, Run};
pub use cut::{Cut, assemble};
pub use packed::Packed;
pub use stretch::Stretch;
pub use transformation::{transform, transform_first};

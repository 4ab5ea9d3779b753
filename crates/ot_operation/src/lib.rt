//! What a text operation is, and the laws of the algebra: definitions, with nearly no code.
//!
//! An operation is a list of components, as in ot.js' `TextOperation`, which walks over a document once, from left to right:
//!
//! ```text
//!     retain 1      a                  a          [1,"cd",-2,1] takes documents of 4 elements (base length)
//!     insert "cd"                      c d        and makes documents of 4 (target length): of "abbz" it makes "acdz"
//!     delete 2      b b
//!     retain 1      z                  z
//! ```
//!
//! It is always in normal form: no component is empty, no two neighbours are of one kind, and no insertion stands directly
//! after a deletion. So two operations that do the same are equal lists. A contract sees an operation as its base length and
//! its *image*, which says for each element of the result whether it stood at a place of the document before (`Old i`) or
//! is new (`New x`): here `Old 0, New c, New d, Old 3` on base 4. Over images
//!
//! - `compose(a, b)` is `b`'s image with each `Old j` replaced by item `j` of `a`'s, on `a`'s base;
//! - `transform(a, b)` gives what `a` becomes after `b` and what `b` becomes after `a`. Both come from the *merge* of the two
//!   images: at each place of the document first `a`'s new elements, then `b`'s, then the old element where both keep it.
//!   `a` after `b` is that merge with everything that stands in `b`'s image as `Old` of its place there, and `b` after `a`
//!   likewise over `a`'s.
//!
//! - `specs/Operation.antt`: base and image, the builder's three calls, `apply`, `invert`.
//! - `specs/Run.antt`: components as runs, their normal form, what they spell. `specs/Steps.antt`: runs that are added, and runs of which a part is taken.
//! - `specs/Compose.antt`, `specs/Merge.antt`: `compose`, `merge`, `first_after`, `second_after`. `specs/Laws.antt`: the laws of the algebra.
//!
//! To read: these, in this order. The laws are the contracts of functions of `ot_algebra`; their proofs are in `proofs/`.
#![tactic(auto)]

mod element;
mod refusal;

pub use element::Element;
pub use refusal::{OpRefusal, only_memory};

/// The greatest length of a document, and of an operation's base and target, in elements.
pub const LIMIT: usize = 1_000_000;

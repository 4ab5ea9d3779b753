//! A list in leaves, drafts that write one over another, and patches that lead from the one to the other. It knows nothing of what the items mean.
//!
//! ```text
//!   List     sums    [     5     |    4    |      6      ]    what each leaf comes to, side by side
//!            leaves  [ a b c d e | f g h i | j k l m n o ]    each 1 to CAP items, two neighbours more than CAP
//!
//!   Draft    keep leaf 0, extend x f g y z, keep leaf 2: what is written is  a b c d e x f g y z j k l m n o
//!
//!   Patch    spans   [ 1 kept, 1 gone, 1 put ]
//!            leaves  [ x f g y z ]                            the new leaves of all spans, with their sums
//!
//!   apply    List    [ a b c d e | x f g y z | j k l m n o ]
//! ```
//!
//! A contract sees a `List` as the list of its leaves; `concatenated` is the list that these make together. It sees a `Patch` as a `Change`: its spans, its
//! new leaves, and how much room it has. A span says how many leaves of the old list are kept from where the span before ends, how many go then, and how many
//! new ones come in their place. Of a `Draft` it says what is `written` over the old leaves, and
//! up to which `place_of` it they are done with.
//!
//! - `Draft::new`, then `keep`, `extend`, and `finish`, which makes the patch; or `list`, where there is no old list. The old list is only
//!   read. What is written is copied once where it becomes one leaf. After an error the draft is abandoned.
//! - `List::find` walks over leaves by their sums; `List::copy` copies a list. `List::replace_in_leaf` changes one leaf where it lies, if the rule on leaves still
//!   holds then; `List::leaf_with` copies the leaf so changed, and `List::exchange_leaf` exchanges it. A leaf that grows gets the room of a whole leaf at once.
//! - `List::prepare` makes room in the patch; that may fail, and changes no value.
//! - `List::apply` puts the patch's leaves in: it takes no memory, cannot fail, and moves only the headers of leaves. Where as many go as come at each place, it
//!   touches these alone; else it moves all headers once.
//! - `leaves_are_few` bounds the number of leaves by that of items.
#![tactic(auto)]

mod blocks;
mod draft;
mod item;
mod laws;
mod list;
mod moves;
mod patch;
mod replace;
mod span;

pub use draft::Draft;
pub use item::Item;
pub use laws::leaves_are_few;
pub use list::List;
pub use patch::Patch;
pub use span::Span;

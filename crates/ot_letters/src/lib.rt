//! What a session does depends on no letter: with other letters in its texts and edits, it does the same, with these letters.
//!
//! This crate has no code: it is definitions and laws. A *letter* is a character without its tag.
//!
//! ```text
//!     state  --- step, instruction --->  state
//!       |                                  |
//!       | f of each letter                 | f of each letter
//!       v                                  v
//!     state  --- step, mapped       ---> state
//!                instruction
//! ```
//!
//! - *Elements* (`specs/Elements.antt`): a map of the elements of a client, a message, a log, a history. The map of an
//!   operation is `mapped` of `ot_codes`.
//! - *Letters* (`specs/Letters.antt`): a map of the letters of all that the written table speaks of. Tags stay.
//! - *Alike* (`specs/Alike.antt`): two schedules are alike if they differ in their letters alone. So what is known of one
//!   schedule is known of all that are like it.
//!
//! The laws are the functions of [`laws`], which have empty bodies; `specs/Laws.antt` spells their contracts out. Begin with
//! `specs/Letters.antt`. `proofs/Examples.antt` has a run and the mapped run, which the checker computes.
#![tactic(auto)]

pub mod laws;

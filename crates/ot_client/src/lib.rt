//! A client of ot.js: a revision and one of three states, each a type of its own.
//!
//! ```text
//!                   edit: sends it                edit                       edit: composed into the buffer
//!   Synchronized ------------------> AwaitingConfirm -----> AwaitingWithBuffer ---.
//!        ^                            |           ^                 |       ^     |
//!        '------ acknowledge ---------'           '-- acknowledge --'       '-----'
//!                                                     sends the buffer
//!
//!   the client's document = the server's at the client's revision, with `outstanding` and then `buffer` applied
//! ```
//!
//! An edit, a delivery and an acknowledgement take the state by value and give the next one: what was sent is never sent or confirmed twice, an entry of
//! the log is never taken twice by one state, and an acknowledgement of nothing does not compile. Where memory runs out, the state and the operation come
//! back as they were. `deliver` receives another's operation: each pending operation becomes the first result of `transform`, and its text stays as it is.
//! [`Client::prepare_edit`], [`Client::prepare_deliver`] and [`Client::prepare_acknowledge`] take the same steps in two moves. They only read the client,
//! and give what the step changes of it, a [`Change`], for which all memory is there. [`Client::exchange`] then takes the step and cannot fail; so a
//! caller can change more than the client, or nothing. What it leaves in the `Change` is the undo record of the step: exchanged once more, the client is
//! as it was. A client that stays in its state changes where it lies.
//! These are the functions `applyClient`, `applyServer` and `serverAck` of the three states in ot.js' `Client`.
//!
//! Contracts see a state as `State` of `specs/State.antt`: a revision and a `Phase`. `edited` and `delivered` are two of the rules, `against_pending` what a
//! delivery applies; what an acknowledgement leaves, and what is sent, each call's clause says itself. The types' own values are a revision, a
//! `Confirming` and a `Buffering`; `synchronized`, `confirming` and `buffering` give each as a `State`, and `state_of` of `specs/Client.antt` a [`Client`].
//! `specs/Change.antt` says what a [`Change`] changes (`changed`), where it may be exchanged (`Fits`), whether in place (`IsInPlace`), and
//! what undoes it (`undoing`).
//!
//! Begin reading at the rules in `specs/State.antt`, then at [`AwaitingConfirm`].
#![tactic(auto)]

mod awaiting_confirm;
mod awaiting_with_buffer;
mod change;
mod client;
mod sent;
mod synchronized;
mod transformed;

/// The greatest revision of a client.
pub const REVISION_LIMIT: u32 = 1_000_000;

pub use awaiting_confirm::AwaitingConfirm;
pub use awaiting_with_buffer::AwaitingWithBuffer;
pub use change::Change;
pub use client::Client;
pub use sent::Sent;
pub use synchronized::Synchronized;

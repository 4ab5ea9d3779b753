//! The ordered links between a client and the server: no message is lost, doubled or overtaken.
//!
//! ```text
//!            Uplink: none or one message
//!    client ------------------------------> server
//!           <------------------------------
//!            Downlink: front [ m0, m1, .. ] end
//!                      pop <-               <- push
//!                 put_back ->               -> take_back
//! ```
//!
//! - [`Uplink`] is an optional message: contracts see an `Option`. A client of ot.js has at most one operation under way
//!   (`Client` of ot.js, the states `AwaitingConfirm` and `AwaitingWithBuffer`), so one place is enough.
//! - [`Downlink`] is a queue: contracts see `Queue` of `specs/Queue.antt`, the list of its messages and the `room`, which is how many
//!   more messages it takes without growing. Only `reserve_one` asks for memory; a change that needs several links at once makes
//!   the room of each first, and then pushes to each, which cannot fail.
//! - `take_back` and `put_back` undo `push` and `pop`.
//!
//! Begin reading at `Downlink::reserve_one` and `Downlink::push`.
#![tactic(auto)]

mod downlink;
mod uplink;

pub use downlink::Downlink;
pub use uplink::Uplink;

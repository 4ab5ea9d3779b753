//! Workers under one lock.
//!
//! Workers are threads, the caller's own among them, that take turns with the clients of one board, as users type. What a turn does under
//! the lock is short: the server takes what is under way, a client is chosen and lent (or picked up), and later its session is settled (or
//! parked). What it does off the lock, the session's steps with their transforms, runs beside the other workers' turns. To settle a session, the
//! board's machine performs its steps once more (`ot_board`'s `replay`): that costs what they change, and no list is compared, however long.
//!
//! ```text
//!   under the lock        off the lock                          under the lock
//!   stopped? take, ..     deliver, acknowledge, .. edit         replay, or hold (each fourth turn)
//!   choose, join, lend    or read, where it was picked up       wake all
//! ```
//!
//! Whatever the threads do, the board's invariant says that its machine is the run of its record, and `ot_board::audit` says whether the workers'
//! receipts are that record. What is proved of the workers' own steps stands on `play`: it makes exactly the steps of a turn, or with a fault
//! the first ones of them (`turn_steps` and `IsCutShort` in `specs/Playing.antt`). Which client a turn takes is `choice` in
//! `specs/Choosing.antt`, and what a board and its users' actions have to be is `MayShare` in `specs/Sharing.antt`. What a turn does under the
//! lock is `begin_turn` and `end_turn` in `turns.rt`: the first is `IsNextOf` in `specs/Turns.antt`, the second `IsLeft` there, and exactly what either records has its
//! receipts (`HasReceipts` in `specs/Receipts.antt`). Both are public: with `play` between them they make a turn without threads or a lock. Only `work` and `run_workers` may wait; no contract speaks of the order in which threads run,
//! or says that they make progress.
//!
//! Workers stand on the board, so this crate gives the board's names too: who takes it needs no other for sessions on threads. `play` is also a
//! call on the session, `lent.play(..)`, by the trait [`Play`].
//!
//! Begin with `work` in `working.rt`, which is a turn after a turn, and then read `play` in `playing.rt`.
#![tactic(auto)]

mod choosing;
mod fault;
mod gate;
mod held;
mod method;
mod playing;
mod session_calls;
mod shared;
mod sharing;
mod turns;
mod working;

pub use choosing::{Seat, Way, choose};
pub use fault::WorkFault;
pub use gate::{Gate, OpenGate};
pub use held::Held;
pub use method::Play;
pub use ot_board::{
    AuditFault, Board, BoardRefusal, ClientState, EditedState, Finished, Lent, Receipt, Replayed,
    SESSION_LIMIT, Session, SessionRefusal, SettleRefusal, StillOut, audit,
};
pub use ot_plan::Typing;
pub use playing::{Task, play};
pub use shared::{Inside, Shared};
pub use sharing::{ACTION_LIMIT, can_share};
pub use turns::{Ended, Next, begin_turn, end_turn};
pub use working::{WorkerEnd, run_workers, work};

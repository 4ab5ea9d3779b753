//! The workers.

ghost use Rattle.std.specs.Prelude.{◌≡◌, ◌+◌, ◌<◌, ◌≤◌, IfOk, vec_capacity, vec_len};

use crate::fault::WorkFault;
use crate::gate::Gate;
use crate::held::Held;
use crate::playing::play;
use crate::shared::Shared;
use crate::turns::{Ended, Next, begin_turn, end_turn};
use ot_board::Receipt;
use std::alloc::{AllocError, Global};
use std::sync::Wait;
use std::thread;
use std::thread::{JoinHandle, Threads};

/// What a worker did.
#[derive(Drop)]
pub struct WorkerEnd {
    /// For each call that recorded steps, where they stand, in the order of the calls.
    pub receipts: Vec<Receipt>,
    /// Why it ended before all was done, if it did.
    pub fault: Option<WorkFault>,
}

// A turn's work off the lock, and its last step.
fn go_on<R: Wait, G: Gate>(
    rt: &R,
    alloc: Global,
    shared: &Shared,
    receipts: &mut Vec<Receipt>,
    held: Held<'_>,
    worker: usize,
    turn: u64,
    gate: &G,
) -> Ended
    requires { vec_len receipts.old < vec_capacity receipts.old }
{
    let Held { lent, task } = held;
    let (lent, fault) = play(alloc, lent, task, gate, worker, turn);
    let mut inside = shared.inside().lock(rt);
    let ended = end_turn(&mut *inside, receipts, turn, task, lent, fault);
    shared.turned().notify_all();
    drop(inside);
    ended
}

/// One worker's turns, counted from 0, until nothing is left to do or there is a fault. In its turn k worker w does this:
///
/// 1. Under the lock, where a worker has ended with a fault, it ends with `Stopped`. Else the server takes each message that is under way.
/// 2. Under the same hold it goes through the clients from number w + k on, round once. The first that is parked is picked up, or the first
///    that is not out and has a message or an action to type is lent, and joined before where it has not joined. Where there is none and
///    nobody is out, it ends; where somebody is out, it waits for another's turn to end and begins its turn again.
/// 3. Off the lock it plays: `play`, with `Read` for a session that was picked up.
/// 4. Under the lock it parks the session (`Board::hold`), where it was lent and k mod 4 is 3, or settles it (`Board::replay`), and wakes the others.
///
/// A worker that meets a refusal settles the session that it holds, if that can be done, and stops the others. Where memory runs out in the
/// midst of settling, the steps that were performed until then have their receipt. Room for a receipt is made before the call that gives it. It
/// may wait, so nothing says that it returns.
pub fn work<R: Wait, G: Gate>(
    rt: &R,
    alloc: Global,
    shared: &Shared,
    worker: usize,
    gate: &G,
) -> WorkerEnd {
    let mut receipts = Vec::new(alloc);
    let mut turn = 0u64;
    for _ in rt.forever() {
        let mut inside = shared.inside().lock(rt);
        match begin_turn(&mut *inside, shared.typing(), &mut receipts, worker, turn) {
            Next::End(fault) => {
                shared.turned().notify_all();
                drop(inside);
                return WorkerEnd { receipts, fault };
            }
            Next::Wait => {
                drop(shared.turned().wait(rt, inside));
            }
            Next::Play(held) => {
                drop(inside);
                match go_on(rt, alloc, shared, &mut receipts, held, worker, turn, gate) {
                    Ended::Fault(fault) => {
                        return WorkerEnd {
                            receipts,
                            fault: Some(fault),
                        };
                    }
                    Ended::Settled => gate.settled(worker, turn),
                    Ended::Parked => {}
                }
                if turn == u64::MAX {
                    shared.stop(rt);
                    return WorkerEnd {
                        receipts,
                        fault: Some(WorkFault::Refused),
                    };
                }
                turn += 1;
            }
        }
    }
    unreachable!()
}

// Adds the ends of the workers, in order, to a list that has the room.
fn join_all<R: Threads>(
    rt: &R,
    handles: Vec<JoinHandle<WorkerEnd>>,
    mut ends: Vec<WorkerEnd>,
) -> Vec<WorkerEnd>
    requires { vec_len ends + vec_len handles ≤ vec_capacity ends }
    ensures { vec_len result ≡ vec_len ends + vec_len handles }
{
    for handle in handles {
        ends.push_reserved(handle.join(rt));
    }
    ends
}

/// The ends of so many workers, 1 to 8, in order. Worker 0 is the caller's own thread, and each other one a thread that is started for it. Where
/// a thread or the list of them cannot be made, the workers that were started are stopped and joined first.
pub fn run_workers<R: Threads + Wait + Sync, G: Gate>(
    rt: &R,
    alloc: Global,
    shared: &Shared,
    count: usize,
    gate: &G,
) -> Result<Vec<WorkerEnd>, AllocError>
    requires some { 1 ≤ count }
    requires few { count ≤ 8 }
    ensures { IfOk result (λ ends. vec_len ends ≡ count) }
{
    thread::scope(
        thread::scope_env(),
        rt,
        |scope| -> Result<Vec<WorkerEnd>, AllocError>
            ensures { IfOk result (λ ends. vec_len ends ≡ count) }
        {
            let Ok(mut ends) = Vec::with_capacity(alloc, count) else {
                shared.stop(rt);
                return Err(AllocError);
            };
            let Ok(mut handles) = Vec::with_capacity(alloc, count) else {
                shared.stop(rt);
                return Err(AllocError);
            };
            for worker in 1..count {
                match scope.spawn(move || work(rt, alloc, shared, worker, gate)) {
                    Ok(handle) => handles.push_reserved(handle),
                    Err(_) => {
                        shared.stop(rt);
                        break;
                    }
                }
            }
            if handles.len() + 1 != count {
                drop(join_all(rt, handles, ends));
                return Err(AllocError);
            }
            ends.push_reserved(work(rt, alloc, shared, 0, gate));
            Ok(join_all(rt, handles, ends))
        },
    )
}

//! The order between machines, which need not be known.
ghost use Rattle.std.specs.Prelude.{◌≡◌, ◌⊎◌, None};
ghost use Rattle.ot_machine.specs.Ended.{IsRun};
ghost use Rattle.ot_machine.specs.Orders.{AreReordered, EndAlike, IsBeside, IsWhole, StopsEarly};

use crate::outcome::Run;
use ot_isa::Schedule;

/// Of two schedules with the same clients, present ones and start text, in which each machine (each client's, and the server's) has
/// the same instructions in the same order, let the first be performed whole. Then the second is performed whole too, ends in the
/// same state, its count of steps included, and each machine has shown the same lists in the same order. Or it stops before an
/// instruction that receives what is not sent yet (`LinkEmpty`), while one that may send it stands behind. It never stops in another
/// way, and never does both.
pub fn any_order(first: &Schedule, second: &Schedule)
    ensures ends { AreReordered first.now second.now → IsWhole first.now → EndAlike first.now second.now ⊎ StopsEarly second.now }
    ensures not_both { EndAlike first.now second.now → StopsEarly second.now → ⊥ }
{
    // For the proof: the invariant of every schedule.
    let _ = first.clients();
}

/// The same of what [`run`](crate::run) gives for two such schedules, the first run without a stop: where the second has no stop
/// either, the machines are in the same state, and each machine has shown the same lists in the same order; its stop is `LinkEmpty`, or
/// out of memory.
pub fn runs_beside(first: &Schedule, second: &Schedule, one: &Run, other: &Run)
    ensures { AreReordered first.now second.now → IsRun first.now one.now → IsRun second.now other.now → one.now.stopped ≡ None → IsBeside one.now other.now other.now.stopped }
{
    // For the proof: the invariant of every schedule.
    let _ = first.clients();
}

//! What a worker holds between its two times under the lock.

ghost use Rattle.std.specs.Prelude.{◌≡◌, option_copied};
ghost use Rattle.ot_board.specs.Lents.{session_of};
ghost use Rattle.ot_workers.specs.Choosing.{IsHad, IsTaskFor};
ghost use Rattle.ot_workers.specs.Playing.{MayPlay};

use crate::choosing::Way;
use crate::playing::Task;
use ot_board::Lent;
use ot_plan::Typing;

/// A session, and what is to be done with it off the lock.
#[derive(Drop)]
pub struct Held<'a> {
    pub lent: Lent,
    pub task: Task<'a>,
    pub ghost playable: { MayPlay (session_of lent) task },
}

/// A session that was parked is read, and in any other the client's next action is typed.
pub(crate) fn in_hand<'a>(lent: Lent, way: Way, action: Option<&'a Typing>) -> Held<'a>
    requires { IsHad way (session_of lent) }
    ensures lent { result.lent ≡ lent }
    ensures task { IsTaskFor way (option_copied action.entry) result.task }
{
    let task = match way {
        Way::PickUp => Task::Read,
        Way::Lend | Way::Join => Task::Enter(action),
    };
    Held { lent, task }
}

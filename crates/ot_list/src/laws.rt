//! Laws.

ghost use Rattle.std.specs.Prelude.{◌+◌, ◌*◌, ◌≤◌, length};
ghost use Rattle.ot_list.specs.Leaves.{concatenated};

use crate::{Item, List};

/// There are at most two leaves for every `CAP + 1` items, and one more.
pub fn leaves_are_few<E: Item>(list: &List<E>)
    ensures { length list.now * (E.CAP + 1) ≤ 2 * length (concatenated list.now) + (E.CAP + 1) }
{
    let _ = list.leaf_count();
}

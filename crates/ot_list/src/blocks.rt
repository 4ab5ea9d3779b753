//! Items moved within a list, by blocks: a block is read whole before it is written, so that the compiler moves it in a few long words, where a loop over
//! items would move one after the other.

ghost use Rattle.std.specs.Prelude.{◌≡◌, ◌+◌, ◌≤◌, ◌++◌, length, take, drop};
ghost use Rattle.std.specs.List.{copy_within};

/// So many items a block has.
const BLOCK: usize = 8;

// Puts a block into the place of as many items.
fn put_block<T: Copy>(items: &mut [T], block: [T; BLOCK])
    requires { length items.old ≡ 8 }
    ensures { items.new ≡ block }
{
    let Some(all) = items.as_mut_array::<BLOCK>() else {
        unreachable!()
    };
    *all = block;
}

// Copies a block of items to another place; the two places may lie over one another.
fn move_block<T: Copy>(items: &mut [T], from: usize, to: usize)
    requires from { from + 8 ≤ length items.old }
    requires to { to + 8 ≤ length items.old }
    ensures { items.new ≡ take to items.old ++ take 8 (drop from items.old) ++ drop (to + 8) items.old }
{
    let Some(first) = items[from..].first_chunk::<BLOCK>() else {
        unreachable!()
    };
    let block = *first;
    put_block(&mut items[to..to + BLOCK], block);
}

/// Moves items up within the list, the last ones first: `slice::copy_within`, by blocks.
pub fn move_up<T: Copy>(items: &mut [T], from: usize, to: usize, count: usize)
    requires up { from ≤ to }
    requires within { to + count ≤ length items.old }
    ensures { items.new ≡ copy_within items.old from (from + count) to }
{
    let mut ahead = count;
    while ahead >= BLOCK {
        ahead -= BLOCK;
        move_block(items, from + ahead, to + ahead);
    }
    items.copy_within(from..from + ahead, to);
}

/// Moves items down within the list, the first ones first: `slice::copy_within`, by blocks.
pub fn move_down<T: Copy>(items: &mut [T], from: usize, to: usize, count: usize)
    requires down { to ≤ from }
    requires within { from + count ≤ length items.old }
    ensures { items.new ≡ copy_within items.old from (from + count) to }
{
    let mut done = 0;
    while count - done >= BLOCK {
        move_block(items, from + done, to + done);
        done += BLOCK;
    }
    items.copy_within(from + done..from + count, to + done);
}

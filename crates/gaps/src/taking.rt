// Blocks of cells that take a list, and a value where the list is used up. The two come one by one, as in the call that
// hands them on: a struct of them would be made only to be taken apart.
ghost use Rattle.std.specs.Prelude.{◌+◌, ◌≤◌, length};
ghost use Rattle.moves.specs.Blocks.{Inside};
ghost use Rattle.gaps.specs.Taken.{RowsTaken, Taken};

use moves::blocks::{copy_block, fill_range};
use moves::vec_storage::Block;

// Writes the list, and v behind it, into `len` cells.
fn take_block<T: Copy>(cells: &mut [T], from: usize, len: usize, list: &[T], v: T)
    requires { from + len ≤ length cells.old }
    ensures { Taken cells.old cells.new from len list.now v }
{
    let count = len.min(list.len());
    copy_block(list, 0, cells, from, count);
    fill_range(cells, from + count, len - count, v);
}

// Writes the list, and v behind it, into the rows, column by column. A loop of its own beside `put_rows` and `fill_rows`
// of `moves`: each turn writes in its own way.
pub(crate) fn take_rows<T: Copy>(cells: &mut [T], b: Block, list: &[T], v: T)
    requires { Inside b (length cells.old) }
    ensures { RowsTaken cells.old cells.new b list.now v }
{
    if b.count == 0 {
        return;
    }
    for c in 0..b.columns {
        let used = list.len().min(c * b.count);
        take_block(cells, b.first + c * b.rows, b.count, &list[used..], v);
    }
}

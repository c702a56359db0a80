// A table given its former shape: the cells that it has no place for now come back from another buffer.
ghost use Rattle.std.specs.Prelude.{◌-◌, ◌*◌, ◌≤◌, length};
ghost use Rattle.moves.specs.Blocks.{SameShape, count_of_lost};
ghost use Rattle.undo_resize.specs.Back.{RowsBack, ShapeBack};

use moves::blocks::copy_block;
use moves::edition::{compress_rows, restore_rows};
use moves::vec_storage::{Block, Table};

// Gives each of the columns, of m rows now, its former rows. A text of its own beside `resize_rows` of `resizing`: the
// rows come from a buffer, by another move of `moves`, and what is left to share is the test.
fn bring_back_rows<T: Copy>(saved: &[T], cells: &mut [T], m: usize, rows: usize, columns: usize)
    requires { (m * columns ≤ length cells.old) × (rows * columns ≤ length cells.old) × ((rows - m) * columns ≤ length saved.now) }
    ensures { RowsBack saved.now cells.old cells.new m rows columns }
{
    if m < rows {
        let gone = Block {
            rows: m,
            columns,
            first: m,
            count: rows - m,
        };
        restore_rows(saved, cells, gone);
    } else {
        let more = Block {
            rows: m,
            columns,
            first: rows,
            count: m - rows,
        };
        compress_rows(cells, more);
    }
}

// Moves the cells to where they lie in the former shape, and brings those back that went. The shape is left to the
// caller.
pub fn bring_back_shape<T: Copy>(saved: &[T], table: &mut Table<'_, T>, rows: u32, columns: u32)
    requires fits { rows * columns ≤ length table.old.cells.now }
    requires there { count_of_lost rows columns table.old.rows table.old.columns ≤ length saved.now }
    ensures cells { ShapeBack saved.now table.old.cells.now table.new.cells.now table.old.rows table.old.columns rows columns }
    ensures shape { SameShape table.old table.new }
{
    let both = columns.min(table.columns) as usize;
    let (m, high) = (table.rows as usize, rows as usize);
    bring_back_rows(saved, table.cells, m, high, both);
    let lower = high.saturating_sub(m) * both;
    let behind = (columns as usize - both) * high;
    copy_block(saved, lower, table.cells, both * high, behind);
}

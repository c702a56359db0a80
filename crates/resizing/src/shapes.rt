// A table given m rows and n columns: what it loses is saved, and then the rest moves to its new places.
ghost use Rattle.std.specs.Prelude.{◌≡◌, ◌*◌, ◌≤◌, min, length};
ghost use Rattle.moves.specs.Stores.{HasRoom, Kept, items};
ghost use Rattle.moves.specs.Blocks.{count_of_lost};
ghost use Rattle.resizing.specs.Resizing.{OutsideSaved, Resized, RowsResized};

use layout::side::Side;
use moves::blocks::fill_range;
use moves::edition::{compress_rows, insert_rows, save_rows};
use moves::store::Store;
use moves::vec_storage::{Block, Table};

// How many cells the new shape has no place for.
pub fn lost_count<T>(table: &Table<'_, T>, m: u32, n: u32) -> usize
    ensures { result ≡ count_of_lost table.now.rows table.now.columns m n }
{
    let stay = table.rows.min(m) as usize * table.columns.min(n) as usize;
    table.rows as usize * table.columns as usize - stay
}

// Gives each of the columns m rows.
fn resize_rows<T: Copy>(cells: &mut [T], rows: usize, columns: usize, m: usize, v: T)
    requires { (rows * columns ≤ length cells.old) × (m * columns ≤ length cells.old) }
    ensures { RowsResized cells.old cells.new rows columns m v }
{
    if m <= rows {
        let lower = Block {
            rows,
            columns,
            first: m,
            count: rows - m,
        };
        compress_rows(cells, lower);
    } else {
        let more = Block {
            rows,
            columns,
            first: rows,
            count: m - rows,
        };
        insert_rows(cells, more, v);
    }
}

// Gives the table m rows and n columns: cells of both shapes stay, the others are v.
pub fn resize_cells<T: Copy>(table: &mut Table<'_, T>, m: u32, n: u32, v: T)
    requires few { (m ≤ 4096) × (n ≤ 4096) }
    requires fits { m * n ≤ length table.old.cells.now }
    ensures cells { Resized table.old.cells.now table.new.cells.now table.old.rows table.old.columns m n v }
    ensures shape { (table.new.rows ≡ m) × (table.new.columns ≡ n) }
{
    let stay = table.columns.min(n) as usize;
    let (rows, high) = (table.rows as usize, m as usize);
    resize_rows(table.cells, rows, stay, high, v);
    fill_range(table.cells, stay * high, (n as usize - stay) * high, v);
    table.set_shape(m, n);
}

// Copies the cells that a shape of m rows and n columns has no place for to a store: those below the corner that
// stays, then those behind it. So they stand column by column, rows rising.
pub fn save_outside<T: Copy>(table: &Table<'_, T>, m: u32, n: u32, saved: &mut Store<'_, T>)
    requires { HasRoom saved.old (count_of_lost table.now.rows table.now.columns m n) }
    ensures saved { OutsideSaved table.now.cells.now (items saved.old) (items saved.new) table.now.rows table.now.columns (min table.now.rows m) (min table.now.columns n) }
    ensures kept { Kept saved.old saved.new }
{
    let (upper, left) = (table.rows.min(m), table.columns.min(n));
    let below = Block {
        rows: table.rows as usize,
        columns: left as usize,
        first: upper as usize,
        count: (table.rows - upper) as usize,
    };
    save_rows(table.cells, below, saved);
    table.save_lines(Side::Columns, left, table.columns - left, saved);
}

// Rows put into and taken out of a table that lies column by column at the start of a buffer: the cell of row r and
// column c is at r + c * rows. The lines of either side are such rows.
ghost use Rattle.std.specs.Prelude.{◌+◌, ◌-◌, ◌*◌, ◌≤◌, length};
ghost use Rattle.moves.specs.Blocks.{Inside, Opens, SameShape, Shaped, block_in, cells_of, count_of};
ghost use Rattle.moves.specs.Stores.{HasRoom, Kept, items};
ghost use Rattle.moves.specs.Tables.{Compressed, Extended, Inserted, Opened, Put, Restored, RowsFilled, Saved};

use crate::blocks::{copy_block, fill_range, slide};
use crate::store::Store;
use crate::vec_storage::{Block, Table};
use layout::side::Side;

// Takes the rows out: the table then has so many rows less and lies closer.
// To the left, columns from the first on, so a cell is read before it is written over. A move takes
// what is below the gap in a column along with what is above it in the next.
pub fn compress_rows<T: Copy>(cells: &mut [T], b: Block)
    requires { Inside b (length cells.old) }
    ensures { Compressed cells.old cells.new b }
{
    if b.count == 0 || b.columns == 0 {
        return;
    }
    let left = b.rows - b.count;
    let below = b.first + b.count;
    let last = b.columns - 1;
    for c in 0..last {
        slide(cells, below + c * b.rows, b.first + c * left, left);
    }
    slide(
        cells,
        below + last * b.rows,
        b.first + last * left,
        left - b.first,
    );
}

// Moves columns of b.rows cells, the first of them at b.first, to where each lies after b.count more. To the right,
// columns from the last on, so a cell is read before it is written over.
fn open_columns<T: Copy>(cells: &mut [T], b: Block)
    requires { b.first + b.columns * (b.rows + b.count) ≤ length cells.old }
    ensures { Opened cells.old cells.new b }
{
    for c in (0..b.columns).rev() {
        let to = b.first + c * (b.rows + b.count) + b.count;
        slide(cells, b.first + c * b.rows, to, b.rows);
    }
}

// Makes room for the rows: the table then has so many rows more, which hold what stood at their places.
// To the right, columns from the last on, so a cell is read before it is written over.
pub fn extend_rows<T: Copy>(cells: &mut [T], b: Block)
    requires { Opens b (length cells.old) }
    ensures { Extended cells.old cells.new b }
{
    if b.count == 0 || b.columns == 0 {
        return;
    }
    let grown = b.rows + b.count;
    let last = b.columns - 1;
    // The last column has no upper part of a next one to move along.
    slide(
        cells,
        last * b.rows + b.first,
        last * grown + b.first + b.count,
        b.rows - b.first,
    );
    open_columns(cells, Block { columns: last, ..b });
}

// Copies the rows to a store, column by column.
pub fn save_rows<T: Copy>(cells: &[T], b: Block, saved: &mut Store<'_, T>)
    requires { Inside b (length cells.now) × HasRoom saved.old (b.count * b.columns) }
    ensures saved { Saved cells.now (items saved.old) (items saved.new) b }
    ensures kept { Kept saved.old saved.new }
{
    // No row, no turn: there may be 4,096 columns.
    if b.count == 0 {
        return;
    }
    for c in 0..b.columns {
        let from = b.first + c * b.rows;
        saved.extend_from_slice(&cells[from..from + b.count]);
    }
}

// Writes rows that were saved over those of the block.
pub fn put_rows<T: Copy>(saved: &[T], cells: &mut [T], b: Block)
    requires { Inside b (length cells.old) × (b.count * b.columns ≤ length saved.now) }
    ensures { Put saved.now cells.old cells.new b }
{
    if b.count == 0 {
        return;
    }
    for c in 0..b.columns {
        let from = c * b.count;
        let to = b.first + c * b.rows;
        copy_block(saved, from, cells, to, b.count);
    }
}

// Puts rows that were saved in where they were taken out of.
pub fn restore_rows<T: Copy>(saved: &[T], cells: &mut [T], b: Block)
    requires { Opens b (length cells.old) × (b.count * b.columns ≤ length saved.now) }
    ensures { Restored saved.now cells.old cells.new b }
{
    if b.columns == 0 {
        return;
    }
    extend_rows(cells, b);
    put_rows(saved, cells, b.grown());
}

// Writes v into each cell of the rows.
pub fn fill_rows<T: Copy>(cells: &mut [T], b: Block, v: T)
    requires { Inside b (length cells.old) }
    ensures { RowsFilled cells.old cells.new b v }
{
    if b.count == 0 {
        return;
    }
    for c in 0..b.columns {
        fill_range(cells, b.first + c * b.rows, b.count, v);
    }
}

// Puts rows of v in.
pub fn insert_rows<T: Copy>(cells: &mut [T], b: Block, v: T)
    requires { Opens b (length cells.old) }
    ensures { Inserted cells.old cells.new b v }
{
    if b.columns == 0 {
        return;
    }
    extend_rows(cells, b);
    fill_rows(cells, b.grown(), v);
}

// Side, place and count come one by one, as in a sheet's calls; here they become a `Block`.
impl<'a, T: Copy> Table<'a, T> {
    // Copies n lines at i to a store, column by column.
    pub fn save_lines(&self, side: Side, i: u32, n: u32, saved: &mut Store<'_, T>)
        requires there { i + n ≤ count_of self.now side }
        requires fits { HasRoom saved.old (cells_of self.now side n) }
        ensures saved { Saved self.now.cells.now (items saved.old) (items saved.new) (block_in self.now side i n) }
        ensures kept { Kept saved.old saved.new }
    {
        let b = self.block(side, i, n);
        save_rows(self.cells, b, saved);
    }

    // Takes n lines out at i.
    pub fn remove_lines(&mut self, side: Side, i: u32, n: u32)
        requires { i + n ≤ count_of self.old side }
        ensures cells { Compressed self.old.cells.now self.new.cells.now (block_in self.old side i n) }
        ensures shape { Shaped self.old self.new side (count_of self.old side - n) }
    {
        let b = self.block(side, i, n);
        let left = self.count(side) - n;
        compress_rows(self.cells, b);
        self.set_count(side, left);
    }

    // Makes room for n lines at i; the shape is left to the caller.
    pub fn extend_lines(&mut self, side: Side, i: u32, n: u32)
        requires there { i ≤ count_of self.old side }
        requires fits { cells_of self.old side (count_of self.old side + n) ≤ length self.old.cells.now }
        ensures cells { Extended self.old.cells.now self.new.cells.now (block_in self.old side i n) }
        ensures shape { SameShape self.old self.new }
    {
        let b = self.block(side, i, n);
        extend_rows(self.cells, b);
    }

    // Puts n lines of v in at i.
    pub fn insert_lines(&mut self, side: Side, i: u32, n: u32, v: T)
        requires there { i ≤ count_of self.old side }
        requires few { count_of self.old side + n ≤ 4096 }
        requires fits { cells_of self.old side (count_of self.old side + n) ≤ length self.old.cells.now }
        ensures cells { Inserted self.old.cells.now self.new.cells.now (block_in self.old side i n) v }
        ensures shape { Shaped self.old self.new side (count_of self.old side + n) }
    {
        let b = self.block(side, i, n);
        let more = self.count(side) + n;
        insert_rows(self.cells, b, v);
        self.set_count(side, more);
    }

    // Puts n lines that were saved in at i; the shape is left to the caller.
    pub fn restore_lines(&mut self, side: Side, i: u32, n: u32, saved: &[T])
        requires there { i ≤ count_of self.old side }
        requires fits { cells_of self.old side (count_of self.old side + n) ≤ length self.old.cells.now }
        requires saved { cells_of self.old side n ≤ length saved.now }
        ensures cells { Restored saved.now self.old.cells.now self.new.cells.now (block_in self.old side i n) }
        ensures shape { SameShape self.old self.new }
    {
        let b = self.block(side, i, n);
        restore_rows(saved, self.cells, b);
    }
}

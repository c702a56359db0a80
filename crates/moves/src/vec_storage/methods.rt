ghost use Rattle.std.specs.Prelude.{◌≡◌, ◌+◌, ◌*◌, ◌^◌, ◌<◌, ◌≤◌, length, take};
ghost use Rattle.moves.specs.Blocks.{Shaped, block_in, cells_of, columns_with, count_of, rows_block, rows_with};

use super::{Block, Table};
use layout::side::Side;

impl Block {
    // The same rows of the table that has them more.
    pub fn grown(self) -> Block
        requires { self.rows + self.count < 2 ^ 64 }
        ensures { result ≡ rows_block (self.rows + self.count) self.columns self.first self.count }
    {
        Block {
            rows: self.rows + self.count,
            ..self
        }
    }
}

impl<'a, T> Table<'a, T> {
    // A table of no cell over the buffer.
    pub fn new(cells: &'a mut [T]) -> Table<'a, T>
        requires { length cells.old ≤ 65536 }
        ensures { (result.rows ≡ 0) × (result.columns ≡ 0) × (result.cells.now ≡ cells.old) }
    {
        Table {
            cells,
            rows: 0,
            columns: 0,
        }
    }

    // The cells of the table, column by column.
    pub fn as_slice(&self) -> &[T]
        ensures { result.now ≡ take (self.now.rows * self.now.columns) self.now.cells.now }
    {
        &self.cells[..self.rows as usize * self.columns as usize]
    }

    // How many lines the side has.
    pub fn count(&self, side: Side) -> u32
        ensures { result ≡ count_of self.now side }
    {
        match side {
            Side::Rows => self.rows,
            Side::Columns => self.columns,
        }
    }

    // The rows and the columns, were there k lines of the side.
    pub fn shape_with(&self, side: Side, k: usize) -> (usize, usize)
        ensures { (result.0 ≡ rows_with side k self.now.rows) × (result.1 ≡ columns_with side k self.now.columns) }
    {
        match side {
            Side::Rows => (k, self.columns as usize),
            Side::Columns => (self.rows as usize, k),
        }
    }

    // Gives the table another shape; the cells are left to the caller. Two clauses, here and where it is called: the two
    // questions that a caller has put.
    pub fn set_shape(&mut self, rows: u32, columns: u32)
        requires few { (rows ≤ 4096) × (columns ≤ 4096) }
        requires fits { rows * columns ≤ length self.old.cells.now }
        ensures cells { self.new.cells ≡ self.old.cells }
        ensures shape { (self.new.rows ≡ rows) × (self.new.columns ≡ columns) }
    {
        self.rows = rows;
        self.columns = columns;
    }

    // Gives the side k lines; the cells are left to the caller.
    pub fn set_count(&mut self, side: Side, k: u32)
        requires few { k ≤ 4096 }
        requires fits { cells_of self.old side k ≤ length self.old.cells.now }
        ensures cells { self.new.cells ≡ self.old.cells }
        ensures shape { Shaped self.old self.new side k }
    {
        match side {
            Side::Rows => self.rows = k,
            Side::Columns => self.columns = k,
        }
    }

    // How many cells n lines of the side have.
    pub fn cells_in(&self, side: Side, n: u32) -> usize
        ensures { result ≡ cells_of self.now side n }
    {
        let shape = self.shape_with(side, n as usize);
        shape.0 * shape.1
    }

    // The n lines at i as rows. A column is `rows` rows of the table seen as one column.
    pub fn block(&self, side: Side, i: u32, n: u32) -> Block
        ensures { result ≡ block_in self.now side i n }
    {
        let (rows, columns) = (self.rows as usize, self.columns as usize);
        let (first, count) = (i as usize, n as usize);
        match side {
            Side::Rows => Block {
                rows,
                columns,
                first,
                count,
            },
            Side::Columns => Block {
                rows: rows * columns,
                columns: 1,
                first: first * rows,
                count: count * rows,
            },
        }
    }
}

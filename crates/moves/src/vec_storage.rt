ghost use Rattle.std.specs.Prelude.{◌*◌, ◌≤◌, length};

mod methods;

// A table at the start of a handed-in buffer, column by column: the cell of row r and column c is at r + c * rows.
// A dense layout of its shape is lawful. Rows and columns are two numbers and no struct, here and in the calls above: as
// in the source they come one by one (`resize_mut`), as u32 from a call and as usize of a change under way, and a struct
// of them would be taken apart wherever one is compared.
#[derive(Drop)]
pub struct Table<'a, T> {
    pub cells: &'a mut [T],
    pub rows: u32,
    pub columns: u32,
    ghost fits: { rows * columns ≤ length cells.now },
    ghost few_cells: { length cells.now ≤ 65536 },
    ghost few_rows: { rows ≤ 4096 },
    ghost few_columns: { columns ≤ 4096 },
}

// So many rows from `first` on of a table that lies column by column.
#[derive(Clone, Copy)]
pub struct Block {
    pub rows: usize,
    pub columns: usize,
    pub first: usize,
    pub count: usize,
}

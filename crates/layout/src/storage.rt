// A layout: a shape, a span, and a place below the span for each cell of the shape.
ghost use Rattle.std.specs.Prelude.{◌≡◌, ◌+◌, ◌*◌, ◌<◌, ◌≤◌, [], ◌∷◌, length, MatchResult};
ghost use Rattle.layout.specs.Cells.{Cloned, ColumnCloned, clone_rules};
ghost use Rattle.layout.specs.Checks.{Checked, Passes, Reaches, few_lines, reaches};
ghost use Rattle.layout.specs.Lawful.{Grid, Lawful};
ghost use Rattle.layout.specs.Written.{Written, cell_of};

use super::refusal::Refusal;

pub trait Layout {
    // What the layout means.
    ghost grid: { Self → Grid };

    // The law that every layout owes: few lines, places below the span, and no two cells at one place.
    ghost lawful: { (s : Self) → Lawful (grid s) };

    // Rows, then columns.
    fn shape(&self) -> (u32, u32)
        ensures { (result.0 ≡ (grid self.now).rows) × (result.1 ≡ (grid self.now).columns) };

    fn span(&self) -> u32
        ensures { result ≡ (grid self.now).span };

    // Where the cell lies; the span for a cell outside the shape. No Option: a layout answers any two numbers with one
    // more, and the span is no cell's place.
    fn place(&self, row: u32, column: u32) -> u32
        ensures inside { row < (grid self.now).rows → column < (grid self.now).columns → result ≡ (grid self.now).place row column }
        ensures below { (grid self.now).rows ≤ row → result ≡ (grid self.now).span }
        ensures beside { (grid self.now).columns ≤ column → result ≡ (grid self.now).span };
}

// Puts question 3, of a shape.
pub fn ask_lines(rows: usize, columns: usize) -> Result<(), Refusal>
    ensures { Checked (few_lines rows columns ∷ []) result }
{
    if rows > 4096 || columns > 4096 {
        return Err(Refusal::TooManyLines);
    }
    Ok(())
}

// Puts question 10, of a buffer of so many places.
pub fn ask_span<L: Layout>(layout: &L, places: usize) -> Result<(), Refusal>
    ensures { Checked (reaches (L.grid layout.now) places ∷ []) result }
{
    if layout.span() as usize > places {
        return Err(Refusal::BufferTooShort);
    }
    Ok(())
}

// Puts questions 4 and 10, of a copy of the layout's table, from so many places to so many.
pub fn ask_clone<L: Layout>(layout: &L, source: usize, cells: usize) -> Result<(), Refusal>
    ensures { Checked (clone_rules (L.grid layout.now) source cells) result }
{
    let (rows, columns) = layout.shape();
    if rows as usize * columns as usize > cells {
        return Err(Refusal::TooManyCells);
    }
    ask_span(layout, source)
}

// The cell of a row and a column, in a buffer that reaches the span. Layout and buffer come apart, here and in all that
// acts through a layout: each method of a struct of the two would owe that it keeps both.
pub fn read<L: Layout, T: Copy>(layout: &L, buffer: &[T], row: u32, column: u32) -> T
    requires inside { (row < (L.grid layout.now).rows) × (column < (L.grid layout.now).columns) }
    requires fits { Reaches (L.grid layout.now) (length buffer.now) }
    ensures { (d : T) → cell_of (L.grid layout.now) buffer.now row column d ≡ result }
{
    buffer[layout.place(row, column) as usize]
}

// Writes that cell.
pub fn write<L: Layout, T: Copy>(layout: &L, buffer: &mut [T], row: u32, column: u32, v: T)
    requires inside { (row < (L.grid layout.now).rows) × (column < (L.grid layout.now).columns) }
    requires fits { Reaches (L.grid layout.now) (length buffer.old) }
    ensures { Written (L.grid layout.now) buffer.old buffer.new (λ r c. (r ≡ row) × (c ≡ column)) (λ r c d. v) }
{
    let place = layout.place(row, column) as usize;
    buffer[place] = v;
}

// Copies one column of a layout's table to its place in a dense one.
// By index: zipped with a part of `cells`, the loop would not know its row to be below `rows`.
fn clone_column<L: Layout, T: Copy>(
    layout: &L,
    source: &[T],
    cells: &mut [T],
    rows: u32,
    column: u32,
)
    requires shape { (rows ≡ (L.grid layout.now).rows) × (column < (L.grid layout.now).columns) }
    requires fits { Reaches (L.grid layout.now) (length source.now) × (column * rows + rows ≤ length cells.old) }
    ensures { ColumnCloned (L.grid layout.now) source.now cells.old cells.new column rows }
{
    let first = column as usize * rows as usize;
    for r in 0..rows {
        cells[first + r as usize] = read(layout, source, r, column);
    }
}

// Copies a layout's table, column by column, to the start of a buffer that has room for it.
pub fn clone_cells<L: Layout, T: Copy>(layout: &L, source: &[T], cells: &mut [T])
    requires { Passes (clone_rules (L.grid layout.now) (length source.now) (length cells.old)) }
    ensures { Cloned (L.grid layout.now) source.now cells.old cells.new (L.grid layout.now).columns }
{
    let (rows, columns) = layout.shape();
    for c in 0..columns {
        clone_column(layout, source, cells, rows, c);
    }
}

// The same for any buffer. Puts questions 4 and 10.
pub fn clone_owned<L: Layout, T: Copy>(
    layout: &L,
    source: &[T],
    cells: &mut [T],
) -> Result<(), Refusal>
    ensures answer { Checked (clone_rules (L.grid layout.now) (length source.now) (length cells.old)) result }
    ensures after { MatchResult result (λ _. Cloned (L.grid layout.now) source.now cells.old cells.new (L.grid layout.now).columns) (λ _. cells.new ≡ cells.old) }
{
    ask_clone(layout, source.len(), cells.len())?;
    clone_cells(layout, source, cells);
    Ok(())
}

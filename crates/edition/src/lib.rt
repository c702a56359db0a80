// What acts on a caller's buffer through any layout: swaps, selections, triangles.
#![tactic(auto)]

ghost use Rattle.std.specs.Prelude.{◌≡◌, ◌+◌, ◌*◌, ◌<◌, ◌≤◌, length, MatchResult};
ghost use Rattle.layout.specs.Cells.{Cloned};
ghost use Rattle.layout.specs.Checks.{Checked, Passes, Reaches};
ghost use Rattle.layout.specs.Lawful.{selected_rows};
ghost use Rattle.layout.specs.Written.{Written, cell_of};
ghost use Rattle.edition.specs.Selections.{Packed, Selected, select_rules, selected_columns, spread};
ghost use Rattle.edition.specs.Swaps.{ColumnsSwapped, RowsSwapped, swap_rules};
ghost use Rattle.edition.specs.Triangles.{LowerCopied, LowerFilled, UpperCopied, UpperFilled, fill_rules, square_rules};
ghost use Rattle.edition.specs.Turned.{turn};

use layout::indexing::all_below;
use layout::refusal::Refusal;
use layout::storage::{Layout, ask_lines, ask_span, read, write};
use turned::Turned;

mod turned;

// Cells (i, c) and (j, c) change places, for each column c.
pub fn exchange_rows<L: Layout, T: Copy>(layout: &L, buffer: &mut [T], i: u32, j: u32)
    requires { Passes (swap_rules (L.grid layout.now) i j (length buffer.old)) }
    ensures { RowsSwapped (L.grid layout.now) buffer.old buffer.new i j }
{
    let (rows, columns) = layout.shape();
    // Known here, and said for the compiler: else it tests both rows at each cell, and takes half as long again.
    if rows <= i || rows <= j {
        return;
    }
    for column in 0..columns {
        let p = layout.place(i, column) as usize;
        let q = layout.place(j, column) as usize;
        buffer.swap(p, q);
    }
}

// Cells (r, i) and (r, j) change places, for each row r.
pub fn exchange_columns<L: Layout, T: Copy>(layout: &L, buffer: &mut [T], i: u32, j: u32)
    requires { Passes (swap_rules (turn (L.grid layout.now)) i j (length buffer.old)) }
    ensures { ColumnsSwapped (L.grid layout.now) buffer.old buffer.new i j }
{
    let turned = Turned { layout };
    exchange_rows(&turned, buffer, i, j);
}

// The rows i and j change places. Puts questions 2 and 10.
pub fn swap_rows<L: Layout, T: Copy>(
    layout: &L,
    buffer: &mut [T],
    i: u32,
    j: u32,
) -> Result<(), Refusal>
    ensures answer { Checked (swap_rules (L.grid layout.now) i j (length buffer.old)) result }
    ensures after { MatchResult result (λ _. RowsSwapped (L.grid layout.now) buffer.old buffer.new i j) (λ _. buffer.new ≡ buffer.old) }
{
    let (rows, _) = layout.shape();
    if i >= rows || j >= rows {
        return Err(Refusal::NoSuchLine);
    }
    ask_span(layout, buffer.len())?;
    exchange_rows(layout, buffer, i, j);
    Ok(())
}

// The columns i and j change places. Puts questions 2 and 10.
pub fn swap_columns<L: Layout, T: Copy>(
    layout: &L,
    buffer: &mut [T],
    i: u32,
    j: u32,
) -> Result<(), Refusal>
    ensures answer { Checked (swap_rules (turn (L.grid layout.now)) i j (length buffer.old)) result }
    ensures after { MatchResult result (λ _. ColumnsSwapped (L.grid layout.now) buffer.old buffer.new i j) (λ _. buffer.new ≡ buffer.old) }
{
    let turned = Turned { layout };
    swap_rows(&turned, buffer, i, j)
}

// Fills one column from a row on.
fn fill_column_from<L: Layout, T: Copy>(layout: &L, buffer: &mut [T], v: T, row: u32, column: u32)
    requires { (column < (L.grid layout.now).columns) × Reaches (L.grid layout.now) (length buffer.old) }
    ensures { Written (L.grid layout.now) buffer.old buffer.new (λ r c. (c ≡ column) × (row ≤ r)) (λ r c d. v) }
{
    let (rows, _) = layout.shape();
    for r in row..rows {
        write(layout, buffer, r, column, v);
    }
}

// Writes v at each cell (i, j) with i ≥ j + s. Puts question 10.
pub fn fill_lower_triangle<L: Layout, T: Copy>(
    layout: &L,
    buffer: &mut [T],
    v: T,
    s: u32,
) -> Result<(), Refusal>
    ensures answer { Checked (fill_rules (L.grid layout.now) (length buffer.old)) result }
    ensures after { MatchResult result (λ _. LowerFilled (L.grid layout.now) buffer.old buffer.new v s) (λ _. buffer.new ≡ buffer.old) }
{
    ask_span(layout, buffer.len())?;
    let (_, columns) = layout.shape();
    for c in 0..columns {
        // A sum too large for 32 bits is below the last row too.
        fill_column_from(layout, buffer, v, c.saturating_add(s), c);
    }
    Ok(())
}

// Writes v at each cell (i, j) with i + s ≤ j. Puts question 10.
pub fn fill_upper_triangle<L: Layout, T: Copy>(
    layout: &L,
    buffer: &mut [T],
    v: T,
    s: u32,
) -> Result<(), Refusal>
    ensures answer { Checked (fill_rules (L.grid layout.now) (length buffer.old)) result }
    ensures after { MatchResult result (λ _. UpperFilled (L.grid layout.now) buffer.old buffer.new v s) (λ _. buffer.new ≡ buffer.old) }
{
    let turned = Turned { layout };
    fill_lower_triangle(&turned, buffer, v, s)
}

// The cells of one column below the diagonal take what stands across it.
fn copy_across<L: Layout, T: Copy>(layout: &L, buffer: &mut [T], column: u32)
    requires shape { (column < (L.grid layout.now).columns) × ((L.grid layout.now).rows ≡ (L.grid layout.now).columns) }
    requires fits { Reaches (L.grid layout.now) (length buffer.old) }
    ensures { Written (L.grid layout.now) buffer.old buffer.new (λ r c. (c ≡ column) × (column + 1 ≤ r)) (λ r c d. cell_of (L.grid layout.now) buffer.old c r d) }
{
    let (rows, _) = layout.shape();
    for r in column + 1..rows {
        let across = read(layout, buffer, column, r);
        write(layout, buffer, r, column, across);
    }
}

// Writes at each cell (i, j) with i > j the value of (j, i). Puts questions 10 and 12.
pub fn fill_lower_triangle_with_upper_triangle<L: Layout, T: Copy>(
    layout: &L,
    buffer: &mut [T],
) -> Result<(), Refusal>
    ensures answer { Checked (square_rules (L.grid layout.now) (length buffer.old)) result }
    ensures after { MatchResult result (λ _. LowerCopied (L.grid layout.now) buffer.old buffer.new) (λ _. buffer.new ≡ buffer.old) }
{
    ask_span(layout, buffer.len())?;
    let (rows, columns) = layout.shape();
    if rows != columns {
        return Err(Refusal::NotSquare);
    }
    for c in 0..columns {
        copy_across(layout, buffer, c);
    }
    Ok(())
}

// Writes at each cell (i, j) with i < j the value of (j, i). Puts questions 10 and 12.
pub fn fill_upper_triangle_with_lower_triangle<L: Layout, T: Copy>(
    layout: &L,
    buffer: &mut [T],
) -> Result<(), Refusal>
    ensures answer { Checked (square_rules (L.grid layout.now) (length buffer.old)) result }
    ensures after { MatchResult result (λ _. UpperCopied (L.grid layout.now) buffer.old buffer.new) (λ _. buffer.new ≡ buffer.old) }
{
    let turned = Turned { layout };
    fill_lower_triangle_with_upper_triangle(&turned, buffer)
}

// Where the lines of a selection go: how many there are, how far apart they begin, and how far apart their cells are. No
// layout: a selection may be of any size.
#[derive(Clone, Copy)]
struct Lines {
    count: usize,
    line_step: usize,
    cell_step: usize,
}

// Copies row `line` of the layout's table to line k of the target.
fn copy_line<L: Layout, T: Copy>(
    layout: &L,
    source: &[T],
    line: u32,
    target: &mut [T],
    to: Lines,
    k: usize,
)
    requires there { (line < (L.grid layout.now).rows) × Reaches (L.grid layout.now) (length source.now) × (k < to.count) }
    requires packed { Packed (spread to (L.grid layout.now).columns) }
    requires room { to.count * (L.grid layout.now).columns ≤ length target.old }
    ensures { Written (spread to (L.grid layout.now).columns) target.old target.new (λ i c. i ≡ k) (λ i c d. cell_of (L.grid layout.now) source.now line c d) }
{
    let (_, columns) = layout.shape();
    for c in 0..columns {
        target[k * to.line_step + c as usize * to.cell_step] = read(layout, source, line, c);
    }
}

// Copies the listed rows of the layout's table, one after another. Puts questions 2, 3, 4 and 10.
fn select_lines<L: Layout, T: Copy>(
    layout: &L,
    source: &[T],
    list: &[u32],
    target: &mut [T],
    to: Lines,
) -> Result<(), Refusal>
    requires all { to.count ≡ length list.now }
    requires packed { Packed (spread to (L.grid layout.now).columns) }
    ensures answer { Checked (select_rules (L.grid layout.now) list.now (length source.now) (length target.old)) result }
    ensures after { MatchResult result (λ _. Selected (L.grid layout.now) list.now to source.now target.old target.new) (λ _. target.new ≡ target.old) }
{
    let (rows, columns) = layout.shape();
    if !all_below(list, rows) {
        return Err(Refusal::NoSuchLine);
    }
    ask_lines(list.len(), columns as usize)?;
    if list.len() * columns as usize > target.len() {
        return Err(Refusal::TooManyCells);
    }
    ask_span(layout, source.len())?;
    for (k, line) in list.iter().enumerate() {
        copy_line(layout, source, *line, target, to, k);
    }
    Ok(())
}

// Writes the listed rows, in the list's order, as a dense table at the start of a second buffer.
// Puts questions 2, 3, 4 and 10.
pub fn select_rows<L: Layout, T: Copy>(
    layout: &L,
    source: &[T],
    list: &[u32],
    target: &mut [T],
) -> Result<(), Refusal>
    ensures answer { Checked (select_rules (L.grid layout.now) list.now (length source.now) (length target.old)) result }
    ensures after { MatchResult result (λ _. Cloned (selected_rows (L.grid layout.now) list.now) source.now target.old target.new (L.grid layout.now).columns) (λ _. target.new ≡ target.old) }
{
    let to = Lines {
        count: list.len(),
        line_step: 1,
        cell_step: list.len(),
    };
    select_lines(layout, source, list, target, to)
}

// Writes the listed columns, in the list's order, as a dense table at the start of a second buffer.
// Puts questions 2, 3, 4 and 10.
pub fn select_columns<L: Layout, T: Copy>(
    layout: &L,
    source: &[T],
    list: &[u32],
    target: &mut [T],
) -> Result<(), Refusal>
    ensures answer { Checked (select_rules (turn (L.grid layout.now)) list.now (length source.now) (length target.old)) result }
    ensures after { MatchResult result (λ _. Cloned (selected_columns (L.grid layout.now) list.now) source.now target.old target.new (length list.now)) (λ _. target.new ≡ target.old) }
{
    let (rows, _) = layout.shape();
    let to = Lines {
        count: list.len(),
        line_step: rows as usize,
        cell_step: 1,
    };
    let turned = Turned { layout };
    select_lines(&turned, source, list, target, to)
}

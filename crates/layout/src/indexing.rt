// A cell read through a layout, and the layout of some rows of a dense table.
ghost use Rattle.std.specs.Prelude.{◌≡◌, ◌*◌, ◌≤◌, length, Decides, IfOk};
ghost use Rattle.layout.specs.Cells.{Read};
ghost use Rattle.layout.specs.Checks.{Checked, Passes};
ghost use Rattle.layout.specs.Picked.{Below, Once, picked, picked_lawful, picked_rules};

use super::refusal::Refusal;
use super::storage::{Layout, read};
use super::vec_storage::Dense;

// Reads a cell of a buffer; None outside the shape, or if the buffer ends before the span.
pub fn get<L: Layout, T: Copy>(layout: &L, buffer: &[T], row: u32, column: u32) -> Option<T>
    ensures { Read (L.grid layout.now) buffer.now row column result }
{
    let (rows, columns) = layout.shape();
    if row < rows && column < columns && layout.span() as usize <= buffer.len() {
        Some(read(layout, buffer, row, column))
    } else {
        None
    }
}

// Some rows of a dense table, in the order of a list.
#[derive(Drop)]
pub struct Picked<'a> {
    list: &'a [u32],
    table: Dense,
    ghost below: { Below list.now table.rows },
    ghost few_listed: { length list.now ≤ 4096 },
    ghost once: { Once list.now },
}

// Whether each listed line is one of the first `count`.
pub fn all_below(list: &[u32], count: u32) -> bool
    ensures { Decides result (Below list.now count) }
{
    list.iter().all(|line| *line < count)
}

// Whether no row is listed twice. Clears 4,096 marks, then takes one step for each listed row, not one for each pair.
// A `for`, as a step both reads a mark and sets it.
fn all_once(list: &[u32]) -> bool
    requires { Below list.now 4096 }
    ensures { Decides result (Once list.now) }
{
    let mut marks = [false; 4096];
    for row in list {
        let at = *row as usize;
        if marks[at] {
            return false;
        }
        marks[at] = true;
    }
    true
}

impl<'a> Picked<'a> {
    // Puts questions 2, 3, 4 and 13.
    pub fn new(list: &'a [u32], rows: u32, columns: u32) -> Result<Picked<'a>, Refusal>
        ensures answer { Checked (picked_rules list.now rows columns) result }
        ensures made { IfOk result (λ p. (p.list.now ≡ list.now) × (p.table.rows ≡ rows) × (p.table.columns ≡ columns)) }
    {
        if !all_below(list, rows) {
            return Err(Refusal::NoSuchLine);
        }
        if list.len() > 4096 {
            return Err(Refusal::TooManyLines);
        }
        let table = Dense::new(rows, columns)?;
        if !all_once(list) {
            return Err(Refusal::CellsMeet);
        }
        Ok(Picked { list, table })
    }

    // Whether the layout can be made, and why not.
    pub fn check(list: &[u32], rows: u32, columns: u32) -> Result<(), Refusal>
        ensures { Checked (picked_rules list.now rows columns) result }
    {
        Picked::new(list, rows, columns).map(|_| ())
    }

    // The layout, or 0 × 0 where it is refused.
    pub fn make(list: &'a [u32], rows: u32, columns: u32) -> Picked<'a>
        ensures made { Passes (picked_rules list.now rows columns) → (result.list.now ≡ list.now) × (result.table.rows ≡ rows) × (result.table.columns ≡ columns) }
        ensures refused { (Passes (picked_rules list.now rows columns) → ⊥) → (length result.list.now ≡ 0) × (result.table.rows ≡ 0) × (result.table.columns ≡ 0) }
    {
        Picked::new(list, rows, columns).unwrap_or(Picked {
            list: &[],
            table: Dense::make(0, 0),
        })
    }
}

impl<'a> Layout for Picked<'a> {
    ghost grid = { λ s. picked s.list.now s.table.rows s.table.columns };

    ghost lawful = { λ s. picked_lawful s.list.now s.table.rows s.table.columns s.below s.few_listed s.table.few_columns s.table.short_span s.once };

    fn shape(&self) -> (u32, u32) {
        let (_, columns) = self.table.shape();
        (self.list.len() as u32, columns)
    }

    fn span(&self) -> u32 {
        self.table.span()
    }

    fn place(&self, row: u32, column: u32) -> u32 {
        // Not by the table's own `place`: a listed row is one of its rows, which that would test again.
        let (rows, columns) = self.table.shape();
        if (row as usize) < self.list.len() && column < columns {
            self.list[row as usize] + column * rows
        } else {
            self.span()
        }
    }
}

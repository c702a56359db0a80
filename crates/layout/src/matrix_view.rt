// Parts of a buffer seen as tables: the layout with steps, and a column of a dense one.
ghost use Rattle.std.specs.Prelude.{◌≡◌, ◌*◌, ◌≤◌, length, take, drop, Decides, IfOk};
ghost use Rattle.layout.specs.Cells.{column_rules};
ghost use Rattle.layout.specs.Checks.{Checked, Passes};
ghost use Rattle.layout.specs.Lawful.{dense};
ghost use Rattle.layout.specs.Strided.{Apart, Ends, strided, strided_lawful, strided_rules, strided_span};

use super::refusal::Refusal;
use super::storage::{Layout, ask_lines, ask_span};
use super::vec_storage::Dense;

// From a first place on, a step for each row and one for each column.
#[derive(Drop)]
pub struct Strided {
    rows: u32,
    columns: u32,
    first: u32,
    row_step: u32,
    column_step: u32,
    ghost few_rows: { rows ≤ 4096 },
    ghost few_columns: { columns ≤ 4096 },
    ghost short_span: { strided_span first row_step column_step rows columns ≤ 65536 },
    ghost apart: { ∥ Apart row_step column_step rows columns ∥₁ },
}

// Sums and products of any steps stay below 2^64. The five numbers come one by one, as to `new`: they are tested by it
// before they are the fields of a `Strided`.
fn span_of(rows: u32, columns: u32, first: u32, row_step: u32, column_step: u32) -> u64
    requires { (rows ≤ 4096) × (columns ≤ 4096) }
    ensures { result ≡ strided_span first row_step column_step rows columns }
{
    if rows == 0 || columns == 0 {
        return 0;
    }
    let down = u64::from(rows - 1) * u64::from(row_step);
    let across = u64::from(columns - 1) * u64::from(column_step);
    u64::from(first) + down + across + 1
}

// Whether a line of n cells, a step apart, ends before the next line begins, which is one long step on.
fn ends(step: u32, long_step: u32, n: u32) -> bool
    ensures { Decides result (Ends step long_step n) }
{
    step >= 1 && u64::from(n.saturating_sub(1)) * u64::from(step) + 1 <= u64::from(long_step)
}

impl Strided {
    // Puts questions 3, 4 and 13.
    pub fn new(
        rows: u32,
        columns: u32,
        first: u32,
        row_step: u32,
        column_step: u32,
    ) -> Result<Strided, Refusal>
        ensures answer { Checked (strided_rules first row_step column_step rows columns) result }
        ensures made { IfOk result (λ s. (s.rows ≡ rows) × (s.columns ≡ columns) × (s.first ≡ first) × (s.row_step ≡ row_step) × (s.column_step ≡ column_step)) }
    {
        ask_lines(rows as usize, columns as usize)?;
        if span_of(rows, columns, first, row_step, column_step) > 65536 {
            return Err(Refusal::TooManyCells);
        }
        let apart = rows == 0
            || columns == 0
            || ends(row_step, column_step, rows)
            || ends(column_step, row_step, columns);
        if !apart {
            return Err(Refusal::CellsMeet);
        }
        Ok(Strided {
            rows,
            columns,
            first,
            row_step,
            column_step,
        })
    }

    // Whether the layout can be made, and why not.
    pub fn check(
        rows: u32,
        columns: u32,
        first: u32,
        row_step: u32,
        column_step: u32,
    ) -> Result<(), Refusal>
        ensures { Checked (strided_rules first row_step column_step rows columns) result }
    {
        Strided::new(rows, columns, first, row_step, column_step).map(|_| ())
    }

    // The layout, or 0 × 0 where it is refused.
    pub fn make(rows: u32, columns: u32, first: u32, row_step: u32, column_step: u32) -> Strided
        ensures made { Passes (strided_rules first row_step column_step rows columns) → (result.rows ≡ rows) × (result.columns ≡ columns) × (result.first ≡ first) × (result.row_step ≡ row_step) × (result.column_step ≡ column_step) }
        ensures refused { (Passes (strided_rules first row_step column_step rows columns) → ⊥) → (result.rows ≡ 0) × (result.columns ≡ 0) × (result.first ≡ 0) × (result.row_step ≡ 0) × (result.column_step ≡ 0) }
    {
        let empty = Strided {
            rows: 0,
            columns: 0,
            first: 0,
            row_step: 0,
            column_step: 0,
        };
        Strided::new(rows, columns, first, row_step, column_step).unwrap_or(empty)
    }
}

impl Layout for Strided {
    ghost grid = { λ s. strided s.first s.row_step s.column_step s.rows s.columns };

    ghost lawful = { λ s. strided_lawful s.first s.row_step s.column_step s.rows s.columns s.few_rows s.few_columns s.short_span s.apart };

    fn shape(&self) -> (u32, u32) {
        (self.rows, self.columns)
    }

    fn span(&self) -> u32 {
        span_of(
            self.rows,
            self.columns,
            self.first,
            self.row_step,
            self.column_step,
        ) as u32
    }

    fn place(&self, row: u32, column: u32) -> u32 {
        if row < self.rows && column < self.columns {
            self.first + row * self.row_step + column * self.column_step
        } else {
            self.span()
        }
    }
}

// Hands out one column, as it stands in the caller's buffer. Puts questions 2 and 10.
pub fn column<'b, T>(layout: &Dense, buffer: &'b [T], index: u32) -> Result<&'b [T], Refusal>
    ensures answer { Checked (column_rules (dense layout.now.rows layout.now.columns) index (length buffer.now)) result }
    ensures part { IfOk result (λ s. s.now ≡ take layout.now.rows (drop (index * layout.now.rows) buffer.now)) }
{
    let (rows, columns) = layout.shape();
    if index >= columns {
        return Err(Refusal::NoSuchLine);
    }
    ask_span(layout, buffer.len())?;
    let from = index as usize * rows as usize;
    Ok(&buffer[from..from + rows as usize])
}

// The dense layout: column by column, with no gap.
ghost use Rattle.std.specs.Prelude.{◌≡◌, ◌*◌, ◌≤◌, IfOk};
ghost use Rattle.layout.specs.Checks.{Checked, Passes, dense_rules};
ghost use Rattle.layout.specs.Lawful.{dense};
ghost use Rattle.layout.specs.Dense.{dense_lawful};

use super::refusal::Refusal;
use super::storage::{Layout, ask_lines};

#[derive(Drop)]
pub struct Dense {
    rows: u32,
    columns: u32,
    ghost few_rows: { rows ≤ 4096 },
    ghost few_columns: { columns ≤ 4096 },
    ghost short_span: { rows * columns ≤ 65536 },
}

impl Dense {
    // Puts questions 3 and 4.
    pub fn new(rows: u32, columns: u32) -> Result<Dense, Refusal>
        ensures answer { Checked (dense_rules rows columns) result }
        ensures made { IfOk result (λ d. (d.rows ≡ rows) × (d.columns ≡ columns)) }
    {
        ask_lines(rows as usize, columns as usize)?;
        if rows * columns > 65536 {
            return Err(Refusal::TooManyCells);
        }
        Ok(Dense { rows, columns })
    }

    // Whether the layout can be made, and why not. This and `make` stand beside `new` in each layout, for those who want
    // a making that cannot refuse.
    pub fn check(rows: u32, columns: u32) -> Result<(), Refusal>
        ensures { Checked (dense_rules rows columns) result }
    {
        Dense::new(rows, columns).map(|_| ())
    }

    // The layout, or 0 × 0 where it is refused.
    pub fn make(rows: u32, columns: u32) -> Dense
        ensures made { Passes (dense_rules rows columns) → (result.rows ≡ rows) × (result.columns ≡ columns) }
        ensures refused { (Passes (dense_rules rows columns) → ⊥) → (result.rows ≡ 0) × (result.columns ≡ 0) }
    {
        Dense::new(rows, columns).unwrap_or(Dense {
            rows: 0,
            columns: 0,
        })
    }
}

impl Layout for Dense {
    ghost grid = { λ s. dense s.rows s.columns };

    ghost lawful = { λ s. dense_lawful s.rows s.columns s.few_rows s.few_columns s.short_span };

    fn shape(&self) -> (u32, u32) {
        (self.rows, self.columns)
    }

    fn span(&self) -> u32 {
        self.rows * self.columns
    }

    fn place(&self, row: u32, column: u32) -> u32 {
        if row < self.rows && column < self.columns {
            row + column * self.rows
        } else {
            self.span()
        }
    }
}

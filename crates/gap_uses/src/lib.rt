// A user's way with a gap: rows of listed cells put into a sheet.
#![tactic(auto)]

ghost use Rattle.model.specs.Sheet.{row, fill_lines};
ghost use Rattle.model.specs.Journal.{change, refused, step};
ghost use Rattle.journal.specs.View.{view};
ghost use Rattle.std.specs.Prelude.{◌≡◌, ℕ};

use layout::side::Side;
use sheet::cell::Weight;
use sheet::sheet::Sheet;

#[cfg(test)]
mod tests;

// Puts n rows in before row i: column by column they have the cells of the list, and v where it is used up.
// Where that is refused the sheet comes back as it was.
pub fn put_listed_rows<'a, T: Copy>(
    sheet: Sheet<'a, T>,
    i: u32,
    n: u32,
    list: &[T],
    v: T,
) -> Sheet<'a, T>
    ensures state { view result.parts ≡ (step (view sheet.entry.parts) (change (fill_lines row i n list.now v))).0 }
    ensures same { (k : ℕ) → (step (view sheet.entry.parts) (change (fill_lines row i n list.now v))).1 ≡ refused k → result.parts ≡ sheet.entry.parts }
{
    let gap = sheet.open_gap(Side::Rows, i, n);
    gap.fill(list, v)
}

// The same for weights: n rows of the listed ones before row i; where the list is used up a cell weighs nothing.
pub fn put_weights<'a>(
    sheet: Sheet<'a, Weight>,
    i: u32,
    n: u32,
    list: &[Weight],
) -> Sheet<'a, Weight>
    ensures state { view result.parts ≡ (step (view sheet.entry.parts) (change (fill_lines row i n list.now 0))).0 }
    ensures same { (k : ℕ) → (step (view sheet.entry.parts) (change (fill_lines row i n list.now 0))).1 ≡ refused k → result.parts ≡ sheet.entry.parts }
{
    put_listed_rows(sheet, i, n, list, 0)
}

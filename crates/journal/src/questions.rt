ghost use Rattle.std.specs.Prelude.{◌≡◌, IfOk};
ghost use Rattle.model.specs.Journal.{first_no, rooms};
ghost use Rattle.journal.specs.View.{answered, view};
ghost use Rattle.journal.specs.Asking.{Fits, FitsWith, rooms_with};

use super::parts::Parts;
use layout::refusal::Refusal;
use layout::side::Side;
use layout::storage::ask_lines;

// Questions 3 to 7, the same for every change: it leaves so many rows and columns, and has so many runs and lost
// cells of its own.
pub fn ask<T>(
    p: &Parts<'_, T>,
    rows: usize,
    columns: usize,
    runs: usize,
    cells: usize,
) -> Result<(), Refusal>
    ensures which { answered result ≡ first_no (rooms (view p.now) rows columns runs cells) }
    ensures goes { IfOk result (λ _. Fits p.now rows columns runs cells) }
{
    ask_lines(rows, columns)?;
    if rows * columns > p.table.cells.len() {
        return Err(Refusal::TooManyCells);
    }
    if p.entries.spare() == 0 {
        return Err(Refusal::JournalFull);
    }
    if runs > p.runs.spare() {
        return Err(Refusal::RunsFull);
    }
    if cells > p.saved.spare() {
        return Err(Refusal::SavedFull);
    }
    Ok(())
}

// The same, of a change that leaves k lines of the side.
pub fn ask_with<T>(
    p: &Parts<'_, T>,
    side: Side,
    k: usize,
    runs: usize,
    cells: usize,
) -> Result<(), Refusal>
    ensures which { answered result ≡ first_no (rooms_with p.now side k runs cells) }
    ensures goes { IfOk result (λ _. FitsWith p.now side k runs cells) }
{
    let (rows, columns) = p.table.shape_with(side, k);
    ask(p, rows, columns, runs, cells)
}

// Two rows or two columns of a sheet change places, on its buffers, and change back again.
#![tactic(auto)]

ghost use Rattle.std.specs.Prelude.{◌≡◌, ◌<◌, [], Ok};
ghost use Rattle.layout.specs.Lawful.{dense};
ghost use Rattle.moves.specs.Blocks.{SameShape, count_of};
ghost use Rattle.model.specs.Sheet.{swap_lines};
ghost use Rattle.model.specs.Journal.{change, undo};
ghost use Rattle.journal.specs.declared.parts.Note.TheVariants.{Exchange};
ghost use Rattle.journal.specs.View.{side_of};
ghost use Rattle.journal.specs.Asking.{Fits};
ghost use Rattle.journal.specs.Answering.{Answers, Held, Performed};
ghost use Rattle.leaving.specs.Leaving.{Newest};
ghost use Rattle.swaps.specs.Exchange.{Swapped};

use journal::parts::{Entry, Note, Parts};
use journal::questions::ask;
use layout::refusal::Refusal;
use layout::side::Side;
use layout::vec_storage::Dense;
use leaving::leave;
use moves::vec_storage::Table;

// A table's cells lie as a dense layout has them.
fn swap_cells<T: Copy>(table: &mut Table<'_, T>, side: Side, i: u32, j: u32)
    requires { (i < count_of table.old side) × (j < count_of table.old side) }
    ensures cells { Swapped side (dense table.old.rows table.old.columns) table.old.cells.now table.new.cells.now i j }
    ensures shape { SameShape table.old table.new }
{
    let whole = Dense::make(table.rows, table.columns);
    // Two calls, as in the source: `edition` says both by one text.
    match side {
        Side::Rows => edition::exchange_rows(&whole, table.cells, i, j),
        Side::Columns => edition::exchange_columns(&whole, table.cells, i, j),
    }
}

// Lines i and j change places.
pub fn swap<T: Copy>(p: &mut Parts<'_, T>, side: Side, i: u32, j: u32) -> Result<(), Refusal>
    requires { Held p.old }
    ensures { Answers p.old p.new (change (swap_lines (side_of side) i j)) result }
{
    let lines = p.table.count(side);
    if i >= lines || j >= lines {
        return Err(Refusal::NoSuchLine);
    }
    ask(p, p.table.rows as usize, p.table.columns as usize, 0, 0)?;
    exchange(p, side, i, j);
    Ok(())
}

fn exchange<T: Copy>(p: &mut Parts<'_, T>, side: Side, i: u32, j: u32)
    requires there { (i < count_of p.old.table side) × (j < count_of p.old.table side) }
    requires fits { Fits p.old p.old.table.rows p.old.table.columns 0 0 }
    ensures { Performed p.old p.new (swap_lines (side_of side) i j) p.old.table.rows p.old.table.columns [] 0 }
{
    let entry = p.entry(Note::Exchange(side, i, j), 0, 0);
    swap_cells(&mut p.table, side, i, j);
    p.entries.push(entry);
}

// Takes the swap back that the newest entry notes: the lines change places once more.
pub fn undo_swap<T: Copy>(p: &mut Parts<'_, T>, entry: Entry, side: Side, i: u32, j: u32)
    requires held { Held p.old }
    requires newest { Newest p.old entry }
    requires noted { entry.note ≡ Exchange side i j }
    ensures { Answers p.old p.new undo (Ok tt) }
{
    let table = &mut p.table;
    swap_cells(table, side, i, j);
    leave(p, entry);
}

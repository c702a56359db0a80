ghost use Rattle.std.specs.Prelude.{◌+◌, ◌≤◌, length};
ghost use Rattle.moves.specs.Blocks.{Shaped, block_in, cells_of, count_of};
ghost use Rattle.model.specs.Sheet as model;
ghost use Rattle.model.specs.Journal.{change};
ghost use Rattle.journal.specs.View.{side_of};
ghost use Rattle.journal.specs.Answering.{Answers, Held};
ghost use Rattle.gaps.specs.Taken.{RowsTaken};
ghost use Rattle.gaps.specs.Gaps.{Filled, Roomy};

use super::opening::open_gap;
use super::taking::take_rows;
use journal::parts::{Note, Parts};
use layout::refusal::Refusal;
use layout::side::Side;
use moves::vec_storage::Table;

// Counts n lines more, and writes the list, and v behind it, into those at i.
fn take_lines<T: Copy>(table: &mut Table<'_, T>, side: Side, i: u32, n: u32, list: &[T], v: T)
    requires there { i ≤ count_of table.old side }
    requires few { count_of table.old side + n ≤ 4096 }
    requires fits { cells_of table.old side (count_of table.old side + n) ≤ length table.old.cells.now }
    ensures cells { RowsTaken table.old.cells.now table.new.cells.now (block_in table.new side i n) list.now v }
    ensures shape { Shaped table.old table.new side (count_of table.old side + n) }
{
    let grown = table.count(side) + n;
    table.set_count(side, grown);
    let gap = table.block(side, i, n);
    take_rows(table.cells, gap, list, v);
}

// Writes the list, and v behind it, into the gap of n lines at i, column by column; enters the change.
pub fn fill_gap<T: Copy>(p: &mut Parts<'_, T>, side: Side, i: u32, n: u32, list: &[T], v: T)
    requires { Roomy p.old side i n }
    ensures { Filled p.old p.new side i n list.now v }
{
    let entry = p.entry(Note::Gap(side, i, n), 0, 0);
    take_lines(&mut p.table, side, i, n, list, v);
    p.entries.push(entry);
}

// Opens a gap of n lines before line i and fills it, as one call.
pub fn fill_lines<T: Copy>(
    p: &mut Parts<'_, T>,
    side: Side,
    i: u32,
    n: u32,
    list: &[T],
    v: T,
) -> Result<(), Refusal>
    requires { Held p.old }
    ensures { Answers p.old p.new (change (model.fill_lines (side_of side) i n list.now v)) result }
{
    open_gap(p, side, i, n)?;
    fill_gap(p, side, i, n, list, v);
    Ok(())
}

// Runs of lines put back in where they were cut out: the inverse of `cutting`.
ghost use Rattle.std.specs.Prelude.{◌≡◌, ◌+◌, ◌-◌, ◌*◌, ◌≤◌, map, length, take};
ghost use Rattle.moves.specs.Blocks.{SameShape, lines_in};
ghost use Rattle.journal.specs.View.{run_of};
ghost use Rattle.listed.specs.Runs.{Rising};
ghost use Rattle.listed.specs.Cuts.{Lying, Opened, Reopened, cut, gone, lines_of_side, spared};

use crate::cutting::Lines;
use crate::finding::count_lines;
use journal::parts::Run;
use layout::side::Side;
use moves::blocks::{copy_block, slide};
use moves::vec_storage::Table;

// Puts the runs of one group back in: what it keeps stands from `first` on, and the group is to stand from `top` on.
// From the last line on, to the right, so a cell is read before it is written over.
fn open_group<T: Copy>(
    cells: &mut [T],
    first: usize,
    top: usize,
    lines: Lines,
    runs: &[Run],
    saved: &[T],
)
    requires rising { Rising 0 (map run_of runs.now) lines.count }
    requires inside { top + lines.count * lines.width ≤ length cells.old }
    requires on { first ≤ top }
    requires own { length saved.now ≡ gone runs.now * lines.width }
    ensures { Opened cells.old cells.new first top lines runs.now saved.now }
{
    let size = lines.count * lines.width;
    let mut at = lines.count;
    let mut own = saved.len();
    let mut from = first + (size - own);
    let mut to = top + size;
    // By place: what is said of a turn names the runs behind this one.
    for j in (0..runs.len()).rev() {
        let run = runs[j];
        let start = run.offset as usize;
        let spared = (at - (start + run.length as usize)) * lines.width;
        from -= spared;
        to -= spared;
        slide(cells, from, to, spared);
        let lost = run.length as usize * lines.width;
        own -= lost;
        to -= lost;
        copy_block(saved, own, cells, to, lost);
        at = start;
    }
    slide(cells, first, top, at * lines.width);
}

// Puts the runs back in, group by group.
fn open_runs<T: Copy>(cells: &mut [T], lines: Lines, runs: &[Run], saved: &[T])
    requires rising { Rising 0 (map run_of runs.now) lines.count }
    requires few { lines.count ≤ 4096 }
    requires inside { Lying lines cells.old }
    requires own { length saved.now ≡ lines.groups * (gone runs.now * lines.width) }
    ensures { Reopened cells.old cells.new lines runs.now saved.now }
{
    let size = lines.count * lines.width;
    let lost = count_lines(runs) as usize * lines.width;
    let left = size - lost;
    for g in (0..lines.groups).rev() {
        let own = &saved[g * lost..g * lost + lost];
        open_group(cells, g * left, g * size, lines, runs, own);
    }
}

// Puts the runs' lines back in where they were cut out: the table then lies as one of the former shape does. The shape
// is left to the caller.
pub fn put_runs<T: Copy>(
    table: &mut Table<'_, T>,
    side: Side,
    rows: u32,
    columns: u32,
    runs: &[Run],
    saved: &[T],
)
    requires few { (rows ≤ 4096) × (columns ≤ 4096) }
    requires fits { rows * columns ≤ length table.old.cells.now }
    requires rising { Rising 0 (map run_of runs.now) (lines_in side rows columns) }
    requires own { length saved.now ≡ (lines_of_side side rows columns).groups * (gone runs.now * (lines_of_side side rows columns).width) }
    ensures own { cut (lines_of_side side rows columns) table.new.cells.now runs.now ≡ saved.now }
    ensures left { spared (lines_of_side side rows columns) table.new.cells.now runs.now ≡ take ((lines_of_side side rows columns).groups * (((lines_of_side side rows columns).count - gone runs.now) * (lines_of_side side rows columns).width)) table.old.cells.now }
    ensures long { length table.new.cells.now ≡ length table.old.cells.now }
    ensures shape { SameShape table.old table.new }
{
    let lines = Lines::of_shape(side, rows as usize, columns as usize);
    open_runs(table.cells, lines, runs, saved);
}

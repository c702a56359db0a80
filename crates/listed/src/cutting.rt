// Runs of lines saved and taken out: one text for rows and for columns.
ghost use Rattle.std.specs.Prelude.{◌≡◌, ◌+◌, ◌*◌, ◌≤◌, map, length, drop};
ghost use Rattle.moves.specs.Blocks.{SameShape, count_of};
ghost use Rattle.moves.specs.Stores.{Grown, HasRoom};
ghost use Rattle.journal.specs.View.{run_of};
ghost use Rattle.listed.specs.Runs.{Rising};
ghost use Rattle.listed.specs.Cuts.{Behind, Lying, between, cut, lines_of_side, lying, spared, taken};

use journal::parts::Run;
use layout::side::Side;
use moves::blocks::slide;
use moves::store::Store;
use moves::vec_storage::Table;

// How the lines of a side lie in the cells: `width` cells to a line, `count` lines one behind the other, and that
// `groups` times. A row has one cell in each column; a column is all its cells. No `Block` for each run: the runs of one
// column are saved before those of the next.
#[derive(Clone, Copy)]
pub(crate) struct Lines {
    pub(crate) width: usize,
    pub(crate) count: usize,
    pub(crate) groups: usize,
}

impl Lines {
    // The lines of a side of a table of so many rows and columns.
    pub(crate) fn of_shape(side: Side, rows: usize, columns: usize) -> Lines
        ensures { result ≡ lines_of_side side rows columns }
    {
        match side {
            Side::Rows => Lines {
                width: 1,
                count: rows,
                groups: columns,
            },
            Side::Columns => Lines {
                width: rows,
                count: columns,
                groups: 1,
            },
        }
    }

    fn of<T>(table: &Table<'_, T>, side: Side) -> Lines
        ensures { result ≡ lying side table.now }
    {
        Lines::of_shape(side, table.rows as usize, table.columns as usize)
    }
}

// Copies the runs of one group to a store; its first line lies at the start of the cells.
#[tactic(auto, using(crate::proofs::Blocks::saving_inside))]
fn save_group<T: Copy>(cells: &[T], lines: Lines, runs: &[Run], saved: &mut Store<'_, T>)
    requires rising { Rising 0 (map run_of runs.now) lines.count }
    requires inside { lines.count * lines.width ≤ length cells.now }
    requires fits { HasRoom saved.old (length (taken lines.width cells.now (map run_of runs.now))) }
    ensures { Grown saved.old saved.new (taken lines.width cells.now (map run_of runs.now)) }
{
    for run in runs {
        let from = run.offset as usize * lines.width;
        let len = run.length as usize * lines.width;
        saved.extend_from_slice(&cells[from..from + len]);
    }
}

// Moves what lies between the runs of one group together, from `top` on; says where it ends.
// To the left, from the first line on, so a cell is read before it is written over.
fn close_group<T: Copy>(
    cells: &mut [T],
    from: usize,
    lines: Lines,
    runs: &[Run],
    top: usize,
) -> usize
    requires rising { Rising 0 (map run_of runs.now) lines.count }
    requires inside { from + lines.count * lines.width ≤ length cells.old }
    requires back { top ≤ from }
    ensures ends { (result ≡ top + length (taken lines.width (drop from cells.old) (between 0 (map run_of runs.now) lines.count))) × (result ≤ from + lines.count * lines.width) }
    ensures put { Behind cells.old cells.new top (taken lines.width (drop from cells.old) (between 0 (map run_of runs.now) lines.count)) }
{
    let mut at = 0;
    let mut to = top;
    for run in runs {
        let start = run.offset as usize;
        let len = (start - at) * lines.width;
        slide(cells, from + at * lines.width, to, len);
        to += len;
        at = start + run.length as usize;
    }
    let len = (lines.count - at) * lines.width;
    slide(cells, from + at * lines.width, to, len);
    to + len
}

// Copies the runs to a store, group by group.
fn save_runs<T: Copy>(cells: &[T], lines: Lines, runs: &[Run], saved: &mut Store<'_, T>)
    requires rising { Rising 0 (map run_of runs.now) lines.count }
    requires inside { Lying lines cells.now }
    requires fits { HasRoom saved.old (length (cut lines cells.now runs.now)) }
    ensures { Grown saved.old saved.new (cut lines cells.now runs.now) }
{
    let size = lines.count * lines.width;
    // No `chunks_exact`: a group may have no cell.
    for g in 0..lines.groups {
        save_group(&cells[g * size..], lines, runs, saved);
    }
}

// Moves what lies between the runs together, group by group.
fn close_runs<T: Copy>(cells: &mut [T], lines: Lines, runs: &[Run])
    requires rising { Rising 0 (map run_of runs.now) lines.count }
    requires inside { Lying lines cells.old }
    ensures { Behind cells.old cells.new 0 (spared lines cells.old runs.now) }
{
    let size = lines.count * lines.width;
    let mut to = 0;
    for g in 0..lines.groups {
        to = close_group(cells, g * size, lines, runs, to);
    }
}

// Saves the runs and takes them out; the shape is left to the caller.
pub fn cut_runs<T: Copy>(
    table: &mut Table<'_, T>,
    side: Side,
    runs: &[Run],
    saved: &mut Store<'_, T>,
)
    requires rising { Rising 0 (map run_of runs.now) (count_of table.old side) }
    requires fits { HasRoom saved.old (length (cut (lying side table.old) table.old.cells.now runs.now)) }
    ensures lost { Grown saved.old saved.new (cut (lying side table.old) table.old.cells.now runs.now) }
    ensures left { Behind table.old.cells.now table.new.cells.now 0 (spared (lying side table.old) table.old.cells.now runs.now) }
    ensures shape { SameShape table.old table.new }
{
    let lines = Lines::of(table, side);
    let cells = &mut *table.cells;
    save_runs(cells, lines, runs, saved);
    close_runs(cells, lines, runs);
}

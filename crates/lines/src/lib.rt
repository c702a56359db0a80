// Lines put into and taken out of a sheet, on its buffers: the questions, the moves, the entry. Side, place and count
// come one by one, as in the sheet's calls that hand them on; the table makes a `Block` of them.
#![tactic(auto)]

ghost use Rattle.std.specs.Prelude.{◌+◌, ◌-◌, ◌≤◌, length};
ghost use Rattle.moves.specs.Blocks.{cells_of, count_of};
ghost use Rattle.model.specs.Sheet.{insert_lines, remove_lines};
ghost use Rattle.model.specs.Journal.{change, one_run};
ghost use Rattle.journal.specs.View.{side_of};
ghost use Rattle.journal.specs.Asking.{FitsWith};
ghost use Rattle.journal.specs.Answering.{Answers, Held};
ghost use Rattle.lines.specs.Moving.{Inserted, Removed};

use journal::entering::{note_run, run_count};
use journal::parts::{Note, Parts};
use journal::questions::ask_with;
use layout::refusal::Refusal;
use layout::side::Side;

// Takes out n lines at i.
pub fn remove_lines<T: Copy>(
    p: &mut Parts<'_, T>,
    side: Side,
    i: u32,
    n: u32,
) -> Result<(), Refusal>
    requires { Held p.old }
    ensures { Answers p.old p.new (change (remove_lines (side_of side) i n)) result }
{
    let count = p.table.count(side) as usize;
    if i as usize + n as usize > count {
        return Err(Refusal::NoSuchLine);
    }
    let lost = p.table.cells_in(side, n);
    ask_with(p, side, count - n as usize, run_count(i, n), lost)?;
    cut_lines(p, side, i, n);
    Ok(())
}

fn cut_lines<T: Copy>(p: &mut Parts<'_, T>, side: Side, i: u32, n: u32)
    requires there { i + n ≤ count_of p.old.table side }
    requires fits { FitsWith p.old side (count_of p.old.table side - n) (length (one_run i n)) (cells_of p.old.table side n) }
    ensures { Removed p.old p.new side i n }
{
    let lost = p.table.cells_in(side, n);
    let entry = p.entry(Note::Removal(side, i, n), run_count(i, n), lost);
    p.table.save_lines(side, i, n, &mut p.saved);
    p.table.remove_lines(side, i, n);
    note_run(&mut p.runs, i, n);
    p.entries.push(entry);
}

// Puts in n lines of v before line i.
pub fn insert_lines<T: Copy>(
    p: &mut Parts<'_, T>,
    side: Side,
    i: u32,
    n: u32,
    v: T,
) -> Result<(), Refusal>
    requires { Held p.old }
    ensures { Answers p.old p.new (change (insert_lines (side_of side) i n v)) result }
{
    let count = p.table.count(side);
    if i > count {
        return Err(Refusal::NoSuchLine);
    }
    ask_with(p, side, count as usize + n as usize, 0, 0)?;
    put_lines(p, side, i, n, v);
    Ok(())
}

fn put_lines<T: Copy>(p: &mut Parts<'_, T>, side: Side, i: u32, n: u32, v: T)
    requires there { i ≤ count_of p.old.table side }
    requires fits { FitsWith p.old side (count_of p.old.table side + n) 0 0 }
    ensures { Inserted p.old p.new side i n v }
{
    let entry = p.entry(Note::Insertion(side, i, n), 0, 0);
    p.table.insert_lines(side, i, n, v);
    p.entries.push(entry);
}

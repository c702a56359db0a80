// A sheet given another shape, on its buffers: the questions, the moves, the entry.
#![tactic(auto)]

mod shapes;

ghost use Rattle.std.specs.Prelude.{[]};
ghost use Rattle.model.specs.Sheet.{resize_to};
ghost use Rattle.model.specs.Journal.{change};
ghost use Rattle.journal.specs.Asking.{Fits};
ghost use Rattle.journal.specs.Answering.{Answers, Held, Performed};
ghost use Rattle.moves.specs.Blocks.{count_of_lost};

use crate::shapes::{lost_count, resize_cells, save_outside};
use journal::parts::{Note, Parts};
use journal::questions::ask;
use layout::refusal::Refusal;

// Gives the sheet so many rows and columns: cells of both shapes stay, the others are v.
pub fn resize_mut<T: Copy>(
    p: &mut Parts<'_, T>,
    rows: u32,
    columns: u32,
    v: T,
) -> Result<(), Refusal>
    requires { Held p.old }
    ensures { Answers p.old p.new (change (resize_to rows columns v)) result }
{
    let lost = lost_count(&p.table, rows, columns);
    ask(p, rows as usize, columns as usize, 0, lost)?;
    reshape(p, rows, columns, v);
    Ok(())
}

fn reshape<T: Copy>(p: &mut Parts<'_, T>, m: u32, n: u32, v: T)
    requires { Fits p.old m n 0 (count_of_lost p.old.table.rows p.old.table.columns m n) }
    ensures { Performed p.old p.new (resize_to m n v) m n [] (count_of_lost p.old.table.rows p.old.table.columns m n) }
{
    let lost = lost_count(&p.table, m, n);
    let entry = p.entry(Note::Resizing(m, n), 0, lost);
    save_outside(&p.table, m, n, &mut p.saved);
    resize_cells(&mut p.table, m, n, v);
    p.entries.push(entry);
}

// Lines that a list named and that were taken out, put in again with their saved cells.
#![tactic(auto)]

ghost use Rattle.std.specs.Prelude.{◌≡◌, Ok};
ghost use Rattle.model.specs.Journal.{undo};
ghost use Rattle.journal.specs.declared.parts.Note.TheVariants.{ListedRemoval};
ghost use Rattle.journal.specs.Answering.{Answers, Held};
ghost use Rattle.leaving.specs.Leaving.{Newest};

use journal::parts::{Entry, Parts};
use layout::side::Side;
use leaving::leave;
use listed::putting::put_runs;

// Takes back the newest change, which took out listed lines of the side: its runs say which.
pub fn undo_listed<T: Copy>(p: &mut Parts<'_, T>, entry: Entry, side: Side)
    requires held { Held p.old }
    requires newest { Newest p.old entry }
    requires noted { entry.note ≡ ListedRemoval side }
    ensures { Answers p.old p.new undo (Ok tt) }
{
    let own = p.saved.newest(entry.cells);
    let runs = p.runs.newest(entry.runs);
    put_runs(&mut p.table, side, entry.rows, entry.columns, runs, own);
    leave(p, entry);
}

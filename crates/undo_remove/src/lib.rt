// Lines that a removal took out, put in again with their saved cells.
#![tactic(auto)]

ghost use Rattle.std.specs.Prelude.{◌≡◌, Ok};
ghost use Rattle.model.specs.Journal.{undo};
ghost use Rattle.journal.specs.declared.parts.Note.TheVariants.{Removal};
ghost use Rattle.journal.specs.Answering.{Answers, Held};
ghost use Rattle.leaving.specs.Leaving.{Newest};

use journal::parts::{Entry, Parts};
use layout::side::Side;
use leaving::leave;

// Takes back the newest change, which took out n lines of the side at i: the three as its note has them.
pub fn undo_remove<T: Copy>(p: &mut Parts<'_, T>, entry: Entry, side: Side, i: u32, n: u32)
    requires held { Held p.old }
    requires newest { Newest p.old entry }
    requires noted { entry.note ≡ Removal side i n }
    ensures { Answers p.old p.new undo (Ok tt) }
{
    let own = p.saved.newest(entry.cells);
    p.table.restore_lines(side, i, n, own);
    leave(p, entry);
}

// Lines that an insertion or a filled gap put in, taken out again. Their cells need no saving.
#![tactic(auto)]

ghost use Rattle.std.specs.Prelude.{Ok};
ghost use Rattle.model.specs.Journal.{undo};
ghost use Rattle.journal.specs.Answering.{Answers, Held};
ghost use Rattle.leaving.specs.Leaving.{Newest};
ghost use Rattle.undo_insert.specs.Putting.{Puts};

use journal::parts::{Entry, Parts};
use layout::side::Side;
use leaving::leave;

// Takes back the newest change, which put in n lines of the side before line i: the three as its note has them.
pub fn undo_insert<T: Copy>(p: &mut Parts<'_, T>, entry: Entry, side: Side, i: u32, n: u32)
    requires held { Held p.old }
    requires newest { Newest p.old entry }
    requires noted { Puts entry.note side i n }
    ensures { Answers p.old p.new undo (Ok tt) }
{
    p.table.remove_lines(side, i, n);
    leave(p, entry);
}

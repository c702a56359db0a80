// A resize taken back, on the sheet's buffers.
#![tactic(auto)]

mod shapes;

ghost use Rattle.std.specs.Prelude.{Ok};
ghost use Rattle.model.specs.Journal.{undo};
ghost use Rattle.journal.specs.Answering.{Answers, Held};
ghost use Rattle.leaving.specs.Leaving.{Newest};
ghost use Rattle.undo_resize.specs.Noted.{OfResize};

use crate::shapes::bring_back_shape;
use journal::parts::{Entry, Parts};
use leaving::leave;

// Takes back the resize of the newest entry: the sheet has its former shape, and each cell that went is back.
pub fn undo_resize<T: Copy>(p: &mut Parts<'_, T>, entry: Entry)
    requires held { Held p.old }
    requires newest { Newest p.old entry }
    requires noted { OfResize entry }
    ensures { Answers p.old p.new undo (Ok tt) }
{
    let own = p.saved.newest(entry.cells);
    bring_back_shape(own, &mut p.table, entry.rows, entry.columns);
    leave(p, entry);
}

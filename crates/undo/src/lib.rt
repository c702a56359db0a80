// The newest change taken back, whichever it was.
#![tactic(auto)]

ghost use Rattle.model.specs.Journal as model;
ghost use Rattle.journal.specs.Answering.{Answers, Held};

use journal::parts::{Note, Parts};
use layout::refusal::Refusal;
use swaps::undo_swap;
use undo_insert::undo_insert;
use undo_listed::undo_listed;
use undo_remove::undo_remove;
use undo_resize::undo_resize;

// Brings back the sheet before its newest entry, and frees the entry, its runs and its saved cells. Puts question 8.
pub fn undo<T: Copy>(p: &mut Parts<'_, T>) -> Result<(), Refusal>
    requires { Held p.old }
    ensures { Answers p.old p.new model.undo result }
{
    let Some(entry) = p.entries.as_slice().last().copied() else {
        return Err(Refusal::NothingToUndo);
    };
    match entry.note {
        Note::Insertion(side, i, n) | Note::Gap(side, i, n) => undo_insert(p, entry, side, i, n),
        Note::Removal(side, i, n) => undo_remove(p, entry, side, i, n),
        Note::ListedRemoval(side) => undo_listed(p, entry, side),
        Note::Exchange(side, i, j) => undo_swap(p, entry, side, i, j),
        Note::Resizing(..) => undo_resize(p, entry),
    }
    Ok(())
}

// How entries leave the journal: the newest one with its runs and saved cells, or all of them.
#![tactic(auto)]

ghost use Rattle.std.specs.Prelude.{◌≡◌, Ok};
ghost use Rattle.model.specs.Journal.{settle};
ghost use Rattle.journal.specs.Answering.{Answers, Held};
ghost use Rattle.leaving.specs.Leaving.{Leaves, TakesBack};

use journal::parts::{Entry, Parts};

// Brings back the shape before the entry, and frees the entry, its runs and its saved cells.
pub fn leave<T>(p: &mut Parts<'_, T>, entry: Entry)
    requires { Leaves p.old entry }
    ensures rest { TakesBack p.old p.new entry }
    ensures cells { p.new.table.cells ≡ p.old.table.cells }
{
    p.table.set_shape(entry.rows, entry.columns);
    p.entries.forget(1);
    p.runs.forget(entry.runs);
    p.saved.forget(entry.cells);
}

// Frees all entries, runs and saved cells.
pub fn settle<T>(p: &mut Parts<'_, T>)
    requires { Held p.old }
    ensures { Answers p.old p.new settle (Ok tt) }
{
    p.clear();
}

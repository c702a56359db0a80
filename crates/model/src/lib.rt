// The meaning of the sheet, in specs/: what a change does to lines and cells, the journal, and every history of calls.
// The functions here only carry theorems about those definitions.
#![tactic(auto)]

pub mod sentences;

ghost use Rattle.model.specs.History.{Replay, TakesBack};
ghost use Rattle.model.specs.Pieces.{Pieces};
ghost use Rattle.model.specs.Provenance.{Cells, Interleaved};

// Where each line comes from, piece by piece.
pub fn origins_in_pieces()
    ensures { Pieces }
{}

// An undo brings back the very sheet before the last accepted change, for every kind of cell.
pub fn undo_takes_back<T>()
    ensures { TakesBack T }
{}

// The remaining calls alone lead to the same sheet.
pub fn replay_holds<T>()
    ensures { Replay T }
{}

// After every list of calls each cell is told by the descents of its row and its column.
pub fn cells_hold<T>()
    ensures { Cells T }
{}

// Row calls and column calls may mix in any way.
pub fn interleavings_agree<T>()
    ensures { Interleaved T }
{}

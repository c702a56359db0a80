// Cells for the tests: a number is written into a cell of either kind, and read out of it again.
#![tactic(auto)]

ghost use Rattle.std.specs.Prelude.{◌≡◌, ℕ, [], ◌∷◌, map};
ghost use Rattle.std.specs.Bool.{Decides};
ghost use Rattle.marked.specs.Notes.{note_mark, note_of};

use sheet::cell::WeighingNote;

// A kind of cell that a number can be written into and read out of again.
pub trait Marked {
    ghost cell_of: { ℕ → Self };

    ghost mark_of: { Self → ℕ };

    fn of(n: u32) -> Self
        ensures written { result ≡ cell_of n }
        ensures read { mark_of result ≡ n };

    fn mark(&self) -> u32
        ensures { result ≡ mark_of self.now };
}

impl Marked for u32 {
    ghost cell_of = { λ n. n };

    ghost mark_of = { λ n. n };

    fn of(n: u32) -> u32 {
        n
    }

    fn mark(&self) -> u32 {
        *self
    }
}

// A note whose parts do not belong together has the mark 999, and no Option: an example compares marks with numbers, and
// none has that one.
impl Marked for WeighingNote {
    ghost cell_of = { note_of };

    ghost mark_of = { note_mark };

    fn of(n: u32) -> WeighingNote {
        WeighingNote {
            ticket: n,
            kilograms: n ^ 1000,
            quality: (n % 26) as u8 + b'a',
        }
    }

    fn mark(&self) -> u32 {
        if self.kilograms == self.ticket ^ 1000
            && u32::from(self.quality) == self.ticket % 26 + 97
        {
            self.ticket
        } else {
            999
        }
    }
}

// The table of most examples, of three rows and two columns.
pub const TABLE: [u32; 6] = [1, 2, 3, 4, 5, 6];

// The note of a number.
pub fn note(n: u32) -> WeighingNote
    ensures { result ≡ note_of n }
{
    WeighingNote::of(n)
}

// The same table, of notes.
pub fn notes() -> [WeighingNote; 6]
    ensures { result ≡ map note_of (1 ∷ 2 ∷ 3 ∷ 4 ∷ 5 ∷ 6 ∷ []) }
{
    [note(1), note(2), note(3), note(4), note(5), note(6)]
}

// Whether the cells have these marks.
pub fn same_marks<T: Marked>(cells: &[T], marks: &[u32]) -> bool
    ensures { Decides result (map (λ cell. T.mark_of cell) cells.now ≡ marks.now) }
{
    cells.len() == marks.len()
        && cells
            .iter()
            .zip(marks)
            .all(|(cell, mark)| cell.mark() == *mark)
}

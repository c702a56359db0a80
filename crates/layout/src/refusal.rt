// Why a call is refused: one case for each question, and its number.
ghost use Rattle.std.specs.Prelude.{◌≡◌};
ghost use Rattle.layout.specs.Refusals.{number_of};

#[derive(Clone, Copy, PartialEq, Eq, Debug)]
pub enum Refusal {
    // A handed-in buffer is larger than a sheet takes.
    BufferTooLarge = 1,
    // A named line is not there.
    NoSuchLine = 2,
    // More than 4,096 rows or 4,096 columns.
    TooManyLines = 3,
    // The cells do not fit.
    TooManyCells = 4,
    // No journal entry is free.
    JournalFull = 5,
    // Too few run pairs are free.
    RunsFull = 6,
    // Too few saved cells are free.
    SavedFull = 7,
    // There is no entry to take back.
    NothingToUndo = 8,
    // Rows are removed by a list, and the sheet has no column.
    NoColumn = 9,
    // A buffer ends before the layout's span.
    BufferTooShort = 10,
    // The two shapes differ.
    ShapesDiffer = 11,
    // The table is not square.
    NotSquare = 12,
    // The layout does not keep its cells apart.
    CellsMeet = 13,
    // No command.
    NoCommand = 14,
    // A wrong count of words, or a word that is no number.
    BadNumber = 15,
    // No sheet has been opened.
    NoSheet = 16,
}

impl Refusal {
    // The number of the question that was answered no.
    pub fn number(self) -> u8
        ensures { result ≡ number_of self }
    {
        self as u8
    }
}

ghost use Rattle.std.specs.Prelude.{◌≡◌, ◌≤◌, length};
ghost use Rattle.journal.specs.Entering.{Cleared, Holds, entry_for};

use layout::side::Side;
use moves::store::Store;
use moves::vec_storage::Table;

// Which change an entry is of, and its numbers.
#[derive(Clone, Copy, PartialEq, Eq, Debug)]
pub enum Note {
    // Where the lines begin, and how many they are.
    Insertion(Side, u32, u32),
    Removal(Side, u32, u32),
    // The lines are in the entry's runs.
    ListedRemoval(Side),
    // The two lines.
    Exchange(Side, u32, u32),
    // As an insertion.
    Gap(Side, u32, u32),
    // The new shape.
    Resizing(u32, u32),
}

// Removed lines that stood side by side.
#[derive(Clone, Copy, PartialEq, Eq, Debug)]
pub struct Run {
    pub offset: u32,
    pub length: u32,
}

// What one change did (at the mill: a slip): the change, the shape before it, and how many runs and saved
// cells (at the mill: kept cells) are its own.
#[derive(Clone, Copy, PartialEq, Eq, Debug)]
pub struct Entry {
    pub note: Note,
    pub rows: u32,
    pub columns: u32,
    pub runs: usize,
    pub cells: usize,
}

// What fills a buffer of runs before it is handed in.
pub const NO_RUN: Run = Run {
    offset: 0,
    length: 0,
};

// And a buffer of entries.
pub const NO_ENTRY: Entry = Entry {
    note: Note::Removal(Side::Rows, 0, 0),
    rows: 0,
    columns: 0,
    runs: 0,
    cells: 0,
};

// A table and its journal, over four handed-in buffers.
#[derive(Drop)]
pub struct Parts<'a, T> {
    pub table: Table<'a, T>,
    pub entries: Store<'a, Entry>,
    pub runs: Store<'a, Run>,
    pub saved: Store<'a, T>,
}

impl<'a, T> Parts<'a, T> {
    // A table of no cell and an empty journal.
    pub fn new(
        cells: &'a mut [T],
        entries: &'a mut [Entry],
        runs: &'a mut [Run],
        saved: &'a mut [T],
    ) -> Parts<'a, T>
        requires { length cells.old ≤ 65536 }
        ensures { Holds result cells.old entries.old runs.old saved.old }
    {
        Parts {
            table: Table::new(cells),
            entries: Store::new(entries),
            runs: Store::new(runs),
            saved: Store::new(saved),
        }
    }

    // Forgets all entries, runs and saved cells.
    pub fn clear(&mut self)
        ensures { Cleared self.old self.new }
    {
        self.entries.clear();
        self.runs.clear();
        self.saved.clear();
    }

    // The entry of a change that is about to be made, with so many runs and saved cells of its own.
    pub fn entry(&self, note: Note, runs: usize, cells: usize) -> Entry
        ensures { result ≡ entry_for self.now note runs cells }
    {
        Entry {
            note,
            rows: self.table.rows,
            columns: self.table.columns,
            runs,
            cells,
        }
    }
}

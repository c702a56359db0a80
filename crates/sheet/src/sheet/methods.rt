ghost use Rattle.std.specs.Prelude.{◌≡◌, map, reverse, length, min, take, drop, IfOk, MatchResult, Ok};
ghost use Rattle.layout.specs.Checks.{Checked, Passes};
ghost use Rattle.model.specs.Sheet.{row, column, insert_lines, remove_lines, remove_listed, resize_to, swap_lines};
ghost use Rattle.model.specs.Journal.{change, opened, settle, undo};
ghost use Rattle.journal.specs.View.{entry_of, room_of, run_of, side_of, view};
ghost use Rattle.journal.specs.Answering.{Answers};
ghost use Rattle.calls.specs.Calls.{Ran, call_of};
ghost use Rattle.sheet.specs.Opening.{Read, no_table, opening_rules, room, room_in, table_in};

use super::super::opening;
use super::super::opening::Sizes;
use super::*;
use calls::call::Call;
use calls::playing;
use journal::parts::{Entry, Parts, Run};
use layout::refusal::Refusal;
use layout::side::Side;
use layout::storage::Layout;

impl<'a, T: Copy> Sheet<'a, T> {
    // Whether `open` would open the layout's table over these buffers: questions 1, 3, 4 and 10. The
    // buffers come one by one, here and at `new`: one is lent them and the other is given them, so it would take two
    // structs.
    pub fn check<L: Layout>(
        layout: &L,
        source: &[T],
        cells: &[T],
        entries: &[Entry],
        runs: &[Run],
        saved: &[T],
    ) -> Result<(), Refusal>
        ensures { Checked (opening_rules (L.grid layout.now) (length source.now) (room_in cells.now entries.now runs.now saved.now)) result }
    {
        let sizes = Sizes {
            cells: cells.len(),
            entries: entries.len(),
            runs: runs.len(),
            saved: saved.len(),
        };
        opening::ask_opening(layout, source.len(), sizes)
    }

    // The layout's table, copied to `cells`, with no entry; or the question that says no. What is asked stands in each
    // contract here with the room that it is asked of: of handed-in buffers, or of those that a sheet has.
    pub fn new<L: Layout>(
        layout: &L,
        source: &[T],
        cells: &'a mut [T],
        entries: &'a mut [Entry],
        runs: &'a mut [Run],
        saved: &'a mut [T],
    ) -> Result<Sheet<'a, T>, Refusal>
        ensures which { Checked (opening_rules (L.grid layout.now) (length source.now) (room_in cells.old entries.old runs.old saved.old)) result }
        ensures made { IfOk result (λ s. view s.parts ≡ opened (table_in (L.grid layout.now) source.now) (room_in cells.old entries.old runs.old saved.old)) }
    {
        Sheet::check(layout, source, cells, entries, runs, saved)?;
        let mut parts = Parts::new(cells, entries, runs, saved);
        opening::fill(&mut parts, layout, source);
        Ok(Sheet { parts })
    }

    // The same sheet; where the check refuses, 0 × 0 over empty buffers. With `unwrap_or_else`, or a `match` that gives
    // the sheet, the buffers do not live long enough for the checker.
    pub fn open<L: Layout>(
        layout: &L,
        source: &[T],
        cells: &'a mut [T],
        entries: &'a mut [Entry],
        runs: &'a mut [Run],
        saved: &'a mut [T],
    ) -> Sheet<'a, T>
        ensures made { Passes (opening_rules (L.grid layout.now) (length source.now) (room_in cells.old entries.old runs.old saved.old)) → view result.parts ≡ opened (table_in (L.grid layout.now) source.now) (room_in cells.old entries.old runs.old saved.old) }
        ensures refused { (Passes (opening_rules (L.grid layout.now) (length source.now) (room_in cells.old entries.old runs.old saved.old)) → ⊥) → view result.parts ≡ opened no_table (room 0 0 0 0) }
    {
        let Ok(sheet) = Sheet::new(layout, source, cells, entries, runs, saved) else {
            return Sheet::empty();
        };
        sheet
    }

    fn empty() -> Sheet<'a, T>
        ensures { view result.parts ≡ opened no_table (room 0 0 0 0) }
    {
        Sheet {
            parts: Parts::new(&mut [], &mut [], &mut [], &mut []),
        }
    }

    // Opens another table over the same buffers, by the same questions; a refusal leaves the sheet as it was.
    pub fn reopen<L: Layout>(&mut self, layout: &L, source: &[T]) -> Result<(), Refusal>
        ensures which { Checked (opening_rules (L.grid layout.now) (length source.now) (room_of self.old.parts)) result }
        ensures state { MatchResult result (λ _. view self.new.parts ≡ opened (table_in (L.grid layout.now) source.now) (room_of self.old.parts)) (λ _. self.new.parts ≡ self.old.parts) }
    {
        opening::refill(&mut self.parts, layout, source)
    }

    // Rows, then columns.
    pub fn shape(&self) -> (u32, u32)
        ensures { (result.0 ≡ (view self.now.parts).table.rows) × (result.1 ≡ (view self.now.parts).table.columns) }
    {
        (self.parts.table.rows, self.parts.table.columns)
    }

    // The cell, if it is in the shape. Not by way of a layout, which would be made and tested again for each cell.
    pub fn get(&self, row: u32, column: u32) -> Option<T>
        ensures { Read (view self.now.parts).table row column result }
    {
        let (rows, columns) = self.shape();
        if row < rows && column < columns {
            Some(self.cells()[row as usize + column as usize * rows as usize])
        } else {
            None
        }
    }

    // The cells of the table, column by column.
    pub fn cells(&self) -> &[T]
        ensures { result.now ≡ (view self.now.parts).table.cells }
    {
        self.parts.table.as_slice()
    }

    // The entries, the oldest first.
    pub fn entries(&self) -> &[Entry]
        ensures { map entry_of (reverse result.now) ≡ (view self.now.parts).entries }
    {
        self.parts.entries.as_slice()
    }

    // The runs of all entries, those of the oldest first.
    pub fn runs(&self) -> &[Run]
        ensures { map run_of result.now ≡ (view self.now.parts).runs }
    {
        self.parts.runs.as_slice()
    }

    // The saved cells of all entries, those of the oldest first.
    pub fn saved(&self) -> &[T]
        ensures { result.now ≡ (view self.now.parts).saved }
    {
        self.parts.saved.as_slice()
    }

    // Carries out a call. Those that follow are this one, with the call's numbers.
    pub fn perform(&mut self, call: &Call<'_, T>) -> Result<(), Refusal>
        ensures { Answers self.old.parts self.new.parts (call_of call.now) result }
    {
        playing::perform(&mut self.parts, call)
    }

    // Carries out the calls one after another, each with its answer, as far as there are places for answers; says how
    // many.
    pub fn perform_all(
        &mut self,
        calls: &[Call<'_, T>],
        answers: &mut [Result<(), Refusal>],
    ) -> usize
        ensures many { result ≡ min (length calls.now) (length answers.old) }
        ensures ran { Ran (view self.old.parts) (take result calls.now) self.new.parts (take result answers.new) }
        ensures left { drop result answers.new ≡ drop result answers.old }
    {
        playing::perform_all(&mut self.parts, calls, answers)
    }

    // Puts in n lines of v before line i. Beside this call and the next ones, which are over a side, stand those of the
    // Rust's names.
    pub fn insert_lines(&mut self, side: Side, i: u32, n: u32, v: T) -> Result<(), Refusal>
        ensures { Answers self.old.parts self.new.parts (change (insert_lines (side_of side) i n v)) result }
    {
        self.perform(&Call::InsertLines(side, i, n, v))
    }

    // Puts in n rows of v before row i.
    pub fn insert_rows(&mut self, i: u32, n: u32, v: T) -> Result<(), Refusal>
        ensures { Answers self.old.parts self.new.parts (change (insert_lines row i n v)) result }
    {
        self.insert_lines(Side::Rows, i, n, v)
    }

    // Puts in n columns of v before column i.
    pub fn insert_columns(&mut self, i: u32, n: u32, v: T) -> Result<(), Refusal>
        ensures { Answers self.old.parts self.new.parts (change (insert_lines column i n v)) result }
    {
        self.insert_lines(Side::Columns, i, n, v)
    }

    // Takes out n lines at i.
    pub fn remove_lines(&mut self, side: Side, i: u32, n: u32) -> Result<(), Refusal>
        ensures { Answers self.old.parts self.new.parts (change (remove_lines (side_of side) i n)) result }
    {
        self.perform(&Call::RemoveLines(side, i, n))
    }

    // Takes out n rows at i.
    pub fn remove_rows(&mut self, i: u32, n: u32) -> Result<(), Refusal>
        ensures { Answers self.old.parts self.new.parts (change (remove_lines row i n)) result }
    {
        self.remove_lines(Side::Rows, i, n)
    }

    // Takes out n columns at i.
    pub fn remove_columns(&mut self, i: u32, n: u32) -> Result<(), Refusal>
        ensures { Answers self.old.parts self.new.parts (change (remove_lines column i n)) result }
    {
        self.remove_lines(Side::Columns, i, n)
    }

    // Takes out each line that the list names, once; an index beyond the lines is passed over.
    pub fn remove_lines_at(&mut self, side: Side, list: &[u32]) -> Result<(), Refusal>
        ensures { Answers self.old.parts self.new.parts (change (remove_listed (side_of side) list.now)) result }
    {
        self.perform(&Call::RemoveLinesAt(side, list))
    }

    // Takes out each row that the list names, once; an index beyond the rows is passed over.
    pub fn remove_rows_at(&mut self, list: &[u32]) -> Result<(), Refusal>
        ensures { Answers self.old.parts self.new.parts (change (remove_listed row list.now)) result }
    {
        self.remove_lines_at(Side::Rows, list)
    }

    // Takes out each column that the list names, once; an index beyond the columns is passed over.
    pub fn remove_columns_at(&mut self, list: &[u32]) -> Result<(), Refusal>
        ensures { Answers self.old.parts self.new.parts (change (remove_listed column list.now)) result }
    {
        self.remove_lines_at(Side::Columns, list)
    }

    // Lines i and j change places.
    pub fn swap_lines(&mut self, side: Side, i: u32, j: u32) -> Result<(), Refusal>
        ensures { Answers self.old.parts self.new.parts (change (swap_lines (side_of side) i j)) result }
    {
        self.perform(&Call::SwapLines(side, i, j))
    }

    // Rows i and j change places.
    pub fn swap_rows(&mut self, i: u32, j: u32) -> Result<(), Refusal>
        ensures { Answers self.old.parts self.new.parts (change (swap_lines row i j)) result }
    {
        self.swap_lines(Side::Rows, i, j)
    }

    // Columns i and j change places.
    pub fn swap_columns(&mut self, i: u32, j: u32) -> Result<(), Refusal>
        ensures { Answers self.old.parts self.new.parts (change (swap_lines column i j)) result }
    {
        self.swap_lines(Side::Columns, i, j)
    }

    // Gives the sheet so many rows and columns: old cells in both shapes stay, others are v.
    pub fn resize_mut(&mut self, rows: u32, columns: u32, v: T) -> Result<(), Refusal>
        ensures { Answers self.old.parts self.new.parts (change (resize_to rows columns v)) result }
    {
        self.perform(&Call::ResizeMut(rows, columns, v))
    }

    // Brings back shape and cells before the newest entry, and frees the entry, its runs and its saved cells. Puts
    // question 8.
    pub fn undo(&mut self) -> Result<(), Refusal>
        ensures { Answers self.old.parts self.new.parts undo result }
    {
        self.perform(&Call::Undo)
    }

    // Frees all entries, runs and saved cells: what was done stays done.
    pub fn settle(&mut self)
        ensures { Answers self.old.parts self.new.parts settle (Ok tt) }
    {
        leaving::settle(&mut self.parts);
    }
}

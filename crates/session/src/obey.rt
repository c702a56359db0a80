ghost use Rattle.std.specs.Prelude.{◌≡◌, ◌++◌, OnOk};
ghost use Rattle.journal.specs.View.{answered, side_of, view};
ghost use Rattle.script.specs.Commands.{decided};
ghost use Rattle.model.specs.Journal.{settle, undo};
ghost use Rattle.model.specs.Sheet.{insert_lines, remove_lines, remove_listed, resize_to, swap_lines};
ghost use Rattle.session.specs.Transcript.{calling, changing, listed_in, needs_a_sheet, obeyed, outcome, performed, printed, said, unopened};
ghost use Rattle.session.specs.Meaning.{NewAnswers, state_of};

use super::state::Session;
use answers::answer::{Done, Refused, put_answer, put_row};
use layout::refusal::Refusal;
use layout::side::Side;
use layout::vec_storage::Dense;
use script::command::{Command, Numbers, decide};
use sheet::cell::Weight;
use sheet::sheet::Sheet;
use std::alloc::AllocError;

// Every command but `n` and a remark needs a sheet that has been opened.
fn needs_sheet(command: Command) -> bool
    ensures { result ≡ needs_a_sheet command }
{
    !matches!(command, Command::New { .. } | Command::Remark)
}

// Appends the rows of the sheet's table, a line each.
fn put_table(out: &mut Vec<u8>, sheet: &Sheet<'_, Weight>) -> Result<(), AllocError>
    ensures { OnOk result (out.new.items ≡ out.old.items ++ printed (view sheet.now.parts).table) }
{
    let (rows, columns) = sheet.shape();
    let cells = sheet.cells();
    for r in 0..rows {
        put_row(out, cells, rows, columns, r)?;
    }
    Ok(())
}

impl<'s, 'a> Session<'s, 'a> {
    // A session on this sheet; the script has opened none yet.
    pub fn new(sheet: &'s mut Sheet<'a, Weight>) -> Session<'s, 'a>
        ensures { state_of result ≡ unopened (view sheet.old.parts) }
    {
        Session {
            sheet,
            opened: false,
        }
    }

    // Opens a sheet of one value over the buffers; where that is refused the sheet that was there stays. Never inlined:
    // else the program has the room of the table on its stack all the time.
    #[inline(never)]
    fn open_new(&mut self, rows: u32, columns: u32, value: u32) -> Result<(), Refusal>
        ensures { NewAnswers self.old self.new rows columns value result }
    {
        let dense = Dense::new(rows, columns)?;
        self.sheet.reopen(&dense, &[value; 4096])?;
        self.opened = true;
        Ok(())
    }

    fn insert(&mut self, side: Side, at: u32, count: u32, value: Weight) -> Result<(), Refusal>
        ensures { (state_of self.new, answered result) ≡ changing (state_of self.old) (insert_lines (side_of side) at count value) }
    {
        self.sheet.insert_lines(side, at, count, value)
    }

    fn remove(&mut self, side: Side, at: u32, count: u32) -> Result<(), Refusal>
        ensures { (state_of self.new, answered result) ≡ changing (state_of self.old) (remove_lines (side_of side) at count) }
    {
        self.sheet.remove_lines(side, at, count)
    }

    fn remove_at(&mut self, side: Side, lines: Numbers) -> Result<(), Refusal>
        ensures { (state_of self.new, answered result) ≡ changing (state_of self.old) (remove_listed (side_of side) (listed_in lines)) }
    {
        self.sheet.remove_lines_at(side, lines.as_slice())
    }

    fn swap(&mut self, side: Side, first: u32, second: u32) -> Result<(), Refusal>
        ensures { (state_of self.new, answered result) ≡ changing (state_of self.old) (swap_lines (side_of side) first second) }
    {
        self.sheet.swap_lines(side, first, second)
    }

    fn resize(&mut self, rows: u32, columns: u32, value: Weight) -> Result<(), Refusal>
        ensures { (state_of self.new, answered result) ≡ changing (state_of self.old) (resize_to rows columns value) }
    {
        self.sheet.resize_mut(rows, columns, value)
    }

    fn undo(&mut self) -> Result<(), Refusal>
        ensures { (state_of self.new, answered result) ≡ calling (state_of self.old) undo }
    {
        self.sheet.undo()
    }

    fn settle(&mut self) -> Result<(), Refusal>
        ensures { (state_of self.new, answered result) ≡ calling (state_of self.old) settle }
    {
        self.sheet.settle();
        Ok(())
    }

    // Carries out a command; first of all a sheet must be open for it. A match: each command has numbers of its own.
    fn perform(&mut self, command: Command) -> Result<(), Refusal>
        ensures { (state_of self.new, answered result) ≡ performed (state_of self.old) command }
    {
        if needs_sheet(command) && !self.opened {
            return Err(Refusal::NoSheet);
        }
        match command {
            Command::New {
                rows,
                columns,
                value,
            } => self.open_new(rows, columns, value),
            Command::Insert {
                side,
                at,
                count,
                value,
            } => self.insert(side, at, count, value),
            Command::Remove { side, at, count } => self.remove(side, at, count),
            Command::RemoveAt { side, lines } => self.remove_at(side, lines),
            Command::Swap {
                side,
                first,
                second,
            } => self.swap(side, first, second),
            Command::Resize {
                rows,
                columns,
                value,
            } => self.resize(rows, columns, value),
            Command::Print | Command::Remark => Ok(()),
            Command::Undo => self.undo(),
            Command::Settle => self.settle(),
        }
    }

    // Appends what an accepted command prints: the rows for `p`, nothing for a remark, else the shape.
    fn put_outcome(&self, command: Command, out: &mut Vec<u8>) -> Result<(), AllocError>
        ensures { OnOk result (out.new.items ≡ out.old.items ++ outcome command (state_of self.now).sheet.table) }
    {
        match command {
            Command::Print => put_table(out, self.sheet),
            Command::Remark => Ok(()),
            _ => {
                let (rows, columns) = self.sheet.shape();
                put_answer(out, Ok(Done { rows, columns }))
            }
        }
    }

    // Reads and carries out the line with this number: its command, or why it is refused. A fault of the text has its
    // word; what a sheet refuses is at word 1.
    fn answer(&mut self, number: usize, line: &[u8]) -> Result<Command, Refused>
        ensures state { state_of self.new ≡ (obeyed (state_of self.old) number (decided line.now)).0 }
        ensures said { said result (state_of self.new).sheet.table ≡ (obeyed (state_of self.old) number (decided line.now)).1 }
    {
        let command = decide(line).map_err(|fault| Refused {
            line: number,
            word: fault.word,
            refusal: fault.refusal,
        })?;
        self.perform(command).map_err(|refusal| Refused {
            line: number,
            word: 1,
            refusal,
        })?;
        Ok(command)
    }

    // Carries out the line with this number, and appends what is said of it.
    pub fn obey(&mut self, number: usize, line: &[u8], out: &mut Vec<u8>) -> Result<(), AllocError>
        ensures { OnOk result ((state_of self.new ≡ (obeyed (state_of self.old) number (decided line.now)).0) × (out.new.items ≡ out.old.items ++ (obeyed (state_of self.old) number (decided line.now)).1)) }
    {
        match self.answer(number, line) {
            Ok(command) => self.put_outcome(command, out),
            Err(refused) => put_answer(out, Err(refused)),
        }
    }
}

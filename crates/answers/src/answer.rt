// Writes answers and rows as bytes.
ghost use Rattle.std.specs.Prelude.{◌≡◌, ◌+◌, ◌*◌, ◌<◌, [], ◌∷◌, ◌++◌, Some, decimal, OnOk, slice_index};
ghost use Rattle.layout.specs.Refusals.{number_of};
ghost use Rattle.answers.specs.Answers.{letter_of, field, row_cells, row_text, shape_words, no_words, done_text, refused_text, answer_text};

use itoa::Buffer;
use layout::refusal::Refusal;
use std::alloc::AllocError;
use std::fmt;

// The sheet's size after a command that was carried out.
#[derive(Clone, Copy, Debug, PartialEq, Eq)]
pub struct Done {
    pub rows: u32,
    pub columns: u32,
}

// Why a command was refused, and at which line and word of the script.
#[derive(Clone, Copy, Debug, PartialEq, Eq)]
pub struct Refused {
    pub line: usize,
    pub word: usize,
    pub refusal: Refusal,
}

// What is said of a command.
pub type Answer = Result<Done, Refused>;

// Who refuses: t, the text of the script, j, the journal, or s, the sheet. A byte of the answer's text.
pub fn letter(refusal: Refusal) -> u8
    ensures { result ≡ letter_of refusal }
{
    match refusal {
        Refusal::NoCommand | Refusal::BadNumber | Refusal::NoSheet => b't',
        Refusal::JournalFull | Refusal::RunsFull | Refusal::SavedFull | Refusal::NothingToUndo =>
            b'j',
        _ => b's',
    }
}

impl fmt::Display for Done {
    ghost output = { λ d. Some (shape_words d.rows d.columns) };

    fn fmt<W: fmt::Write>(&self, f: &mut fmt::Formatter<W>) -> fmt::Result {
        write!(f, "ok {} {}", self.rows, self.columns)
    }
}

impl fmt::Display for Refused {
    ghost output = { λ r. Some (no_words r.line r.word (number_of r.refusal)) };

    fn fmt<W: fmt::Write>(&self, f: &mut fmt::Formatter<W>) -> fmt::Result {
        let letter = letter(self.refusal) as char;
        let number = self.refusal.number();
        write!(f, "no {} {} {letter} {number}", self.line, self.word)
    }
}

fn put_digit(out: &mut Vec<u8>, n: u64) -> Result<(), AllocError>
    requires { n < 10 }
    ensures { OnOk result (out.new.items ≡ out.old.items ++ (48 + n) ∷ []) }
{
    out.push(b'0' + n as u8)?;
    Ok(())
}

// A number of three digits and more. Never inlined: else each shorter one pays for the room of its buffer too.
#[inline(never)]
fn put_long(out: &mut Vec<u8>, n: u64) -> Result<(), AllocError>
    ensures { OnOk result (out.new.items ≡ out.old.items ++ decimal n) }
{
    out.extend_from_slice(Buffer::new().format(n).as_bytes())
}

// Appends the decimal digits of a number. Not by `write!`, whose way to a `Vec` takes several times as long.
fn put_number(out: &mut Vec<u8>, n: u64) -> Result<(), AllocError>
    ensures { OnOk result (out.new.items ≡ out.old.items ++ decimal n) }
{
    match n {
        0..=9 => put_digit(out, n),
        10..=99 => {
            put_digit(out, n / 10)?;
            put_digit(out, n % 10)
        }
        _ => put_long(out, n),
    }
}

// Appends a blank and a number.
fn put_field(out: &mut Vec<u8>, n: u64) -> Result<(), AllocError>
    ensures { OnOk result (out.new.items ≡ out.old.items ++ field n) }
{
    out.push(b' ')?;
    put_number(out, n)
}

fn put_done(out: &mut Vec<u8>, done: Done) -> Result<(), AllocError>
    ensures { OnOk result (out.new.items ≡ out.old.items ++ done_text done.rows done.columns) }
{
    out.extend_from_slice(b"ok")?;
    put_field(out, u64::from(done.rows))?;
    put_field(out, u64::from(done.columns))?;
    out.push(b'\n')?;
    Ok(())
}

fn put_refused(out: &mut Vec<u8>, refused: Refused) -> Result<(), AllocError>
    ensures { OnOk result (out.new.items ≡ out.old.items ++ refused_text refused.line refused.word refused.refusal) }
{
    out.extend_from_slice(b"no")?;
    put_field(out, refused.line as u64)?;
    put_field(out, refused.word as u64)?;
    out.extend_from_slice(&[b' ', letter(refused.refusal)])?;
    put_field(out, u64::from(refused.refusal.number()))?;
    out.push(b'\n')?;
    Ok(())
}

// Appends `ok ROWS COLUMNS` or `no LINE WORD LETTER NUMBER`, and a line feed.
pub fn put_answer(out: &mut Vec<u8>, answer: Answer) -> Result<(), AllocError>
    ensures { OnOk result (out.new.items ≡ out.old.items ++ answer_text answer) }
{
    match answer {
        Ok(done) => put_done(out, done),
        Err(refused) => put_refused(out, refused),
    }
}

// The cell of a table that lies column by column, or 0 beyond the slice.
fn cell(cells: &[u32], rows: u32, row: u32, column: u32) -> u32
    ensures { result ≡ slice_index cells.now (row + column * rows) }
{
    // The product of two 32-bit numbers and a third fit 64 bits.
    let place = row as usize + column as usize * rows as usize;
    cells.get(place).copied().unwrap_or(0)
}

// Appends a row of a table that lies column by column: its cells, parted by single blanks, and a line feed.
// A place beyond the slice counts as 0, so that any size may be asked for.
pub fn put_row(
    out: &mut Vec<u8>,
    cells: &[u32],
    rows: u32,
    columns: u32,
    row: u32,
) -> Result<(), AllocError>
    ensures { OnOk result (out.new.items ≡ out.old.items ++ row_text (row_cells cells.now rows columns row)) }
{
    if columns > 0 {
        put_number(out, u64::from(cell(cells, rows, row, 0)))?;
    }
    // With `try_for_each` the goal stayed open: its closure writes to `out`.
    for column in 1..columns {
        put_field(out, u64::from(cell(cells, rows, row, column)))?;
    }
    out.push(b'\n')?;
    Ok(())
}

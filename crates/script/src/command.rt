// Reads a line to a command.
//
// The first word names the command: i, r, a or s before the side r (rows) or c (columns), or n, z, u, k or p alone.
// The numbers follow; a value that is left out is 0.
ghost use Rattle.std.specs.Prelude.{◌≡◌, ◌≤◌, min, [], length, take};
ghost use Rattle.std.specs.Result.{result_ok};
ghost use Rattle.layout.specs.declared.refusal.Refusal.TheVariants.{NoCommand};
ghost use Rattle.script.specs.Commands.{fault, fewest, most, takes, read_on, command_for, command_read, decided};
ghost use Rattle.script.specs.Verbs.{verb_named, side_of};
ghost use Rattle.script.specs.Words.{words_of};

use crate::token::{Token, first_token};
use layout::refusal::Refusal;
use layout::side::Side;

// A command without its numbers.
#[derive(Clone, Copy, Debug, PartialEq, Eq)]
pub enum Verb {
    Insert(Side),
    Remove(Side),
    RemoveAt(Side),
    Swap(Side),
    New,
    Resize,
    Undo,
    Settle,
    Print,
}

// A word that names no command.
#[derive(Clone, Copy, Debug, PartialEq, Eq)]
pub struct UnknownVerb;

// Up to 16 numbers, before zeros. They lie in place, so that a command needs no memory of its own; an `ArrayVec` is
// not `Copy`, as a command is.
#[derive(Clone, Copy, Debug, PartialEq, Eq)]
pub struct Numbers {
    pub at: [u32; 16],
    pub count: usize,
}

impl Numbers {
    // The numbers without the zeros behind them. A count above 16 is taken as 16.
    pub fn as_slice(&self) -> &[u32]
        ensures { result.now ≡ take (min self.now.count 16) self.now.at }
    {
        &self.at[0..self.count.min(16)]
    }
}

// A command with its numbers.
#[derive(Clone, Copy, Debug, PartialEq, Eq)]
pub enum Command {
    Insert {
        side: Side,
        at: u32,
        count: u32,
        value: u32,
    },
    Remove {
        side: Side,
        at: u32,
        count: u32,
    },
    RemoveAt {
        side: Side,
        lines: Numbers,
    },
    Swap {
        side: Side,
        first: u32,
        second: u32,
    },
    New {
        rows: u32,
        columns: u32,
        value: u32,
    },
    Resize {
        rows: u32,
        columns: u32,
        value: u32,
    },
    Undo,
    Settle,
    Print,
    Remark,
}

// Why a line is refused, and at which of its words, counted from 1.
#[derive(Clone, Copy, Debug, PartialEq, Eq)]
pub struct Fault {
    pub refusal: Refusal,
    pub word: usize,
}

const NO_COMMAND: Fault = Fault {
    refusal: Refusal::NoCommand,
    word: 1,
};

impl From<UnknownVerb> for Fault {
    ghost from_gives = { λ _ f. f ≡ fault NoCommand 1 };

    fn from(_: UnknownVerb) -> Fault {
        NO_COMMAND
    }
}

// A function: `Side` is another crate's type, so `TryFrom` for it cannot stand here.
fn side_of(letter: u8) -> Result<Side, UnknownVerb>
    ensures { result_ok result ≡ side_of letter }
{
    match letter {
        b'r' => Ok(Side::Rows),
        b'c' => Ok(Side::Columns),
        _ => Err(UnknownVerb),
    }
}

// A command by its word of one or two letters.
impl TryFrom<&[u8]> for Verb {
    type Error = UnknownVerb;

    ghost try_from_gives = { λ word r. result_ok r ≡ verb_named word.now };

    fn try_from(word: &[u8]) -> Result<Verb, UnknownVerb> {
        match word {
            [b'n'] => Ok(Verb::New),
            [b'z'] => Ok(Verb::Resize),
            [b'u'] => Ok(Verb::Undo),
            [b'k'] => Ok(Verb::Settle),
            [b'p'] => Ok(Verb::Print),
            [b'i', side] => Ok(Verb::Insert(side_of(*side)?)),
            [b'r', side] => Ok(Verb::Remove(side_of(*side)?)),
            [b'a', side] => Ok(Verb::RemoveAt(side_of(*side)?)),
            [b's', side] => Ok(Verb::Swap(side_of(*side)?)),
            _ => Err(UnknownVerb),
        }
    }
}

// The fewest and the most numbers that a command takes.
fn bounds(verb: Verb) -> (usize, usize)
    ensures low { result.0 ≡ fewest verb }
    ensures high { result.1 ≡ most verb }
{
    match verb {
        Verb::Insert(_) | Verb::New | Verb::Resize => (2, 3),
        Verb::Remove(_) | Verb::Swap(_) => (2, 2),
        Verb::RemoveAt(_) => (0, 16),
        Verb::Undo | Verb::Settle | Verb::Print => (0, 0),
    }
}

// Whether a command takes so many numbers.
fn takes(verb: Verb, count: usize) -> bool
    ensures { result ≡ takes verb count }
{
    let (low, high) = bounds(verb);
    (low..=high).contains(&count)
}

// How many words there are: one more than blanks.
fn count_words(words: Option<&[u8]>) -> usize
    ensures { result ≡ length (words_of words.entry) }
{
    let Some(text) = words else {
        return 0;
    };
    text.iter().filter(|b| **b == b' ').count() + 1
}

// The numbers that the words write. The first bad word is refused by its place in the line, where the command is word 1.
fn numbers_of(words: Option<&[u8]>) -> Result<Numbers, Fault>
    requires { length (words_of words) ≤ 16 }
    ensures { result ≡ read_on [] (words_of words.entry) }
{
    let mut at = [0; 16];
    if let Some(text) = words {
        for (k, word) in text.split(|b| *b == b' ').enumerate() {
            at[k] = Token::Number(word).value().ok_or(Fault {
                refusal: Refusal::BadNumber,
                word: k + 2,
            })?;
        }
    }
    Ok(Numbers {
        at,
        count: count_words(words),
    })
}

// A number that is left out is one of the zeros.
fn command_of(verb: Verb, n: &Numbers) -> Command
    ensures { result ≡ command_for verb n.now }
{
    let [a, b, c, ..] = n.at;
    match verb {
        Verb::Insert(side) => Command::Insert {
            side,
            at: a,
            count: b,
            value: c,
        },
        Verb::Remove(side) => Command::Remove {
            side,
            at: a,
            count: b,
        },
        Verb::RemoveAt(side) => Command::RemoveAt { side, lines: *n },
        Verb::Swap(side) => Command::Swap {
            side,
            first: a,
            second: b,
        },
        Verb::New => Command::New {
            rows: a,
            columns: b,
            value: c,
        },
        Verb::Resize => Command::Resize {
            rows: a,
            columns: b,
            value: c,
        },
        Verb::Undo => Command::Undo,
        Verb::Settle => Command::Settle,
        Verb::Print => Command::Print,
    }
}

// The command of a verb and the words behind it. Their count is asked for before any of them is read.
pub fn read_command(verb: Verb, words: Option<&[u8]>) -> Result<Command, Fault>
    ensures { result ≡ command_read verb (words_of words.entry) }
{
    if !takes(verb, count_words(words)) {
        return Err(Fault {
            refusal: Refusal::BadNumber,
            word: 1,
        });
    }
    let n = numbers_of(words)?;
    Ok(command_of(verb, &n))
}

// What a line asks for, or the first question that it answers with no: is it short enough, does its first word name a
// command, has it the right count of words, and is each a number? A remark is asked nothing.
pub fn decide(line: &[u8]) -> Result<Command, Fault>
    ensures { result ≡ decided line.now }
{
    let (token, words) = first_token(line);
    let Token::Command(word) = token else {
        return Ok(Command::Remark);
    };
    if line.len() > 80 {
        return Err(NO_COMMAND);
    }
    let verb = Verb::try_from(word)?;
    read_command(verb, words)
}

// Takes the first token off a line.
ghost use Rattle.std.specs.Prelude.{◌≡◌};
ghost use Rattle.std.specs.Option.{option_map};
ghost use Rattle.script.specs.Tokens.{part_of, first_part, after_first, part_value};

use crate::number::number;
use crate::words::cut;

// A part of a line, which it borrows. What a reader of lines meets has three kinds, each with a case of its own; the
// first part of a line is never a number, and the words behind a command are all to be numbers.
#[derive(Clone, Copy, Debug)]
pub enum Token<'l> {
    Command(&'l [u8]),
    Number(&'l [u8]),
    Remark(&'l [u8]),
}

impl Token<'_> {
    // The number that a token writes: none if it is no number token, or a bad one.
    pub fn value(self) -> Option<u32>
        ensures { result ≡ part_value (part_of self.entry) }
    {
        match self {
            Token::Number(word) => number(word),
            Token::Command(_) | Token::Remark(_) => None,
        }
    }
}

// The first token of a line, and what stands behind the blank after it. A remark takes the whole line.
pub fn first_token(line: &[u8]) -> (Token<'_>, Option<&[u8]>)
    ensures token { part_of result.0 ≡ first_part line.now }
    ensures rest { option_map (λ x. x.now) result.1 ≡ after_first line.now }
{
    match line {
        [b'#', remark @ ..] => (Token::Remark(remark), None),
        _ => {
            let (word, rest) = cut(line, b' ');
            (Token::Command(word), rest)
        }
    }
}

ghost use Rattle.std.specs.Prelude.{◌≡◌, ◌+◌, ◌<◌, ◌≤◌, ◌⊎◌, ◌++◌, length, take, vec_len, OnErr, OnOk, ◌==◌};
ghost use Rattle.std.specs.Iterator.{at_most};
ghost use Rattle.script.specs.Words.{lines_of};
ghost use Rattle.session.specs.Transcript.{played, transcript};
ghost use Rattle.session.specs.Meaning.{Takes, state_of};

use super::state::{Lines, Session};
use script::words::next_line;
use std::alloc::AllocError;

impl<'s> Lines<'s> {
    // The lines of the first 65,536 bytes of a script.
    pub fn new(script: &'s [u8]) -> Lines<'s>
        ensures { (result.rest.now ≡ take 65536 script.now) × (result.number ≡ 1) }
    {
        Lines {
            rest: &script[..script.len().min(65536)],
            number: 1,
        }
    }

    pub fn is_empty(&self) -> bool
        ensures { result ≡ (length self.now.rest.now == 0) }
    {
        self.rest.is_empty()
    }
}

// Each line with its number. No iterator of the library's: `run` may stop, and says which lines are left.
impl<'s> Iterator for Lines<'s> {
    type Item = (usize, &'s [u8]);

    ghost next_gives = { Takes };

    ghost remaining = { λ s. at_most (length s.rest.now) };

    fn next(&mut self) -> Option<(usize, &'s [u8])> {
        if self.is_empty() {
            return None;
        }
        let number = self.number;
        let (line, rest) = next_line(self.rest);
        self.number += 1;
        self.rest = rest;
        Some((number, line))
    }
}

impl<'s, 'a> Session<'s, 'a> {
    // Obeys the lines one after another, until none is left or the text has come to 65,536 bytes.
    // What is written, and what the lines left would write, is what all of them write.
    pub fn run(&mut self, lines: &mut Lines<'_>, out: &mut Vec<u8>) -> Result<(), AllocError>
        ensures played { OnOk result ((state_of self.new, (out.new.items, lines_of lines.new.rest.now)) ≡ played (state_of self.old) lines.old.number (lines_of lines.old.rest.now) out.old.items) }
        ensures numbered { OnOk result (lines.new.number + length (lines_of lines.new.rest.now) ≡ lines.old.number + length (lines_of lines.old.rest.now)) }
        ensures text { OnOk result (out.new.items ++ transcript (state_of self.new) lines.new.number (lines_of lines.new.rest.now) ≡ out.old.items ++ transcript (state_of self.old) lines.old.number (lines_of lines.old.rest.now)) }
        ensures goes { OnOk result (0 < length lines.old.rest.now → vec_len out.old < 65536 → length lines.new.rest.now < length lines.old.rest.now) }
        ensures ends { OnOk result ((length lines.new.rest.now ≡ 0) ⊎ (65536 ≤ vec_len out.new)) }
        ensures kept { OnErr result (lines.new ≡ lines.old) }
        ensures full { OnOk result (65536 ≤ vec_len out.old → (lines.new ≡ lines.old) × (state_of self.new ≡ state_of self.old) × (out.new.items ≡ out.old.items)) }
    {
        // Handed back at the end alone: where memory is wanting, `lines` are those that came.
        let mut left = Lines {
            rest: lines.rest,
            number: lines.number,
        };
        // It stops for want of room too, so this is no `for`.
        while out.len() < 65536
            && let Some((number, line)) = left.next()
        {
            self.obey(number, line, out)?;
        }
        *lines = left;
        Ok(())
    }
}

ghost use Rattle.std.specs.Prelude.{◌≡◌};
ghost use Rattle.gaps.specs.Gaps.{Asked, Fills, Gap};

use super::super::Sheet;
use super::*;
use gaps::{filling, opening};

impl<'a, T: Copy> Sheet<'a, T> {
    // Whether a gap of n lines can be opened before line i: questions 2, 3, 4 and 5.
    pub fn check_gap(&self, side: Side, i: u32, n: u32) -> Result<(), Refusal>
        ensures { Asked self.now.parts side i n result }
    {
        opening::ask_gap(&self.parts, side, i, n)
    }

    // Gives the sheet up for a gap of n lines before line i; where the check refuses, the gap is empty.
    pub fn open_gap(self, side: Side, i: u32, n: u32) -> Gapped<'a, T>
        ensures gap { Gap self.entry.parts result.parts side i n result.answer }
        ensures place { (result.side ≡ side) × (result.at ≡ i) × (result.count ≡ n) }
    {
        let Sheet { mut parts } = self;
        let answer = opening::open_gap(&mut parts, side, i, n);
        Gapped {
            parts,
            side,
            at: i,
            count: n,
            answer,
        }
    }
}

impl<'a, T: Copy> Gapped<'a, T> {
    // Whether the gap was opened, or the refusal for which it is empty.
    pub fn answer(&self) -> Result<(), Refusal>
        ensures { result ≡ self.now.answer }
    {
        self.answer
    }

    // Gives the sheet back. The gap's cells, column by column, take those of the list, then v; what the list has
    // beyond that is ignored. After a refusal the sheet is as it was.
    pub fn fill(self, list: &[T], v: T) -> Sheet<'a, T>
        ensures { Fills self.entry.parts result.parts self.entry.side self.entry.at self.entry.count self.entry.answer list.now v }
    {
        let Gapped {
            mut parts,
            side,
            at,
            count,
            answer,
        } = self;
        if answer.is_ok() {
            filling::fill_gap(&mut parts, side, at, count, list, v);
        }
        Sheet { parts }
    }
}

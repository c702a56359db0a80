ghost use Rattle.std.specs.Prelude.{IfOk};
ghost use Rattle.journal.specs.Answering.{Held};
ghost use Rattle.gaps.specs.Gaps.{Asked, Gap, Roomy};

use journal::parts::Parts;
use journal::questions::ask_with;
use layout::refusal::Refusal;
use layout::side::Side;

// Whether a gap of n lines can be opened before line i: questions 2, 3, 4 and 5.
pub fn ask_gap<T>(p: &Parts<'_, T>, side: Side, i: u32, n: u32) -> Result<(), Refusal>
    ensures which { Asked p.now side i n result }
    ensures goes { IfOk result (λ _. Roomy p.now side i n) }
{
    let count = p.table.count(side);
    if i > count {
        return Err(Refusal::NoSuchLine);
    }
    ask_with(p, side, count as usize + n as usize, 0, 0)
}

// Opens a gap of n lines before line i, or, where the check refuses, an empty one.
pub fn open_gap<T: Copy>(p: &mut Parts<'_, T>, side: Side, i: u32, n: u32) -> Result<(), Refusal>
    requires { Held p.old }
    ensures { Gap p.old p.new side i n result }
{
    ask_gap(p, side, i, n)?;
    p.table.extend_lines(side, i, n);
    Ok(())
}

ghost use Rattle.std.specs.Prelude.{◌+◌, ◌≤◌, length};

use sheet::cell::Weight;
use sheet::sheet::Sheet;

// A sheet of weights that the lines of a script act on, and whether the script has opened it yet.
// Both cases hold the same sheet, so an enum of two cases would be no plainer than the flag.
#[derive(Drop)]
pub struct Session<'s, 'a> {
    pub(crate) sheet: &'s mut Sheet<'a, Weight>,
    pub(crate) opened: bool,
}

// The lines of a script that are left, and the number of the first of them.
#[derive(Drop)]
pub struct Lines<'s> {
    pub(crate) rest: &'s [u8],
    pub(crate) number: usize,
    ghost few: { number + length rest.now ≤ 65537 },
}

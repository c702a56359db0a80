ghost use Rattle.std.specs.Prelude.{◌≡◌, ◌+◌, ◌++◌, map, length};
ghost use Rattle.moves.specs.Stores.{HasRoom, Kept, items};
ghost use Rattle.journal.specs.View.{run_of};
ghost use Rattle.model.specs.Journal.{one_run};

use super::parts::Run;
use moves::store::Store;

// How many runs the n lines at i are.
pub fn run_count(i: u32, n: u32) -> usize
    ensures { result ≡ length (one_run i n) }
{
    if n == 0 { 0 } else { 1 }
}

// Writes the run of n lines at i behind the others, or nothing where no line goes.
pub fn note_run(runs: &mut Store<'_, Run>, i: u32, n: u32)
    requires { HasRoom runs.old (length (one_run i n)) }
    ensures noted { map run_of (items runs.new) ≡ map run_of (items runs.old) ++ one_run i n }
    ensures kept { Kept runs.old runs.new }
{
    if n > 0 {
        runs.push(Run {
            offset: i,
            length: n,
        });
    }
}

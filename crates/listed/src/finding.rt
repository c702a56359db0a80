// The runs of the lines that a list names.
ghost use Rattle.std.specs.Prelude.{◌≡◌, ℕ, ◌+◌, ◌*◌, ◌<◌, ◌≤◌, ◌++◌, false, map, length, slice_index_or, sum_by};
ghost use Rattle.moves.specs.Stores.{Kept, items, room};
ghost use Rattle.model.specs.Sheet.{listed};
ghost use Rattle.model.specs.Journal.{runs_from};
ghost use Rattle.journal.specs.View.{run_of};
ghost use Rattle.listed.specs.Runs.{marked};

use journal::parts::Run;
use moves::store::Store;

// Marks the lines that the list names; an index beyond the marks is passed over.
fn mark_listed(list: &[u32], marks: &mut [bool])
    requires { (k : ℕ) → k < length marks.old → slice_index_or marks.old k false ≡ false }
    ensures { (k : ℕ) → k < length marks.new → slice_index_or marks.new k false ≡ listed list.now k }
{
    for x in list {
        let line = *x as usize;
        if line < marks.len() {
            marks[line] = true;
        }
    }
}

// Writes the runs of marked lines behind the others.
fn find_runs(marks: &[bool], runs: &mut Store<'_, Run>)
    requires { (length marks.now + 2 * length (items runs.old) ≤ 2 * room runs.old) × (length marks.now ≤ 4096) }
    ensures found { map run_of (items runs.new) ≡ map run_of (items runs.old) ++ runs_from (marked marks.now) 0 (length marks.now) }
    ensures kept { Kept runs.old runs.new }
{
    let mut at = 0;
    for alike in marks.chunk_by(|a, b| a == b) {
        if alike[0] {
            runs.push(Run {
                offset: at as u32,
                length: alike.len() as u32,
            });
        }
        at += alike.len();
    }
}

// Writes the runs of those of `count` lines that the list names, each once, behind the others.
pub fn find_listed(list: &[u32], count: usize, runs: &mut Store<'_, Run>)
    requires { (count + 2 * length (items runs.old) ≤ 2 * room runs.old) × (count ≤ 4096) }
    ensures found { map run_of (items runs.new) ≡ map run_of (items runs.old) ++ runs_from (listed list.now) 0 count }
    ensures kept { Kept runs.old runs.new }
{
    let mut table = [false; 4096];
    let marks = &mut table[..count];
    mark_listed(list, marks);
    find_runs(marks, runs);
}

// How many lines the runs have together.
pub fn count_lines(runs: &[Run]) -> u32
    requires { sum_by (λ run. run.length) runs.now ≤ 4096 }
    ensures { result ≡ sum_by (λ run. run.length) runs.now }
{
    runs.iter().map(|run| run.length).sum()
}

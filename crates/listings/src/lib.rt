// Listed lines taken out of a sheet, on its buffers: the runs, the questions, the moves, the entry.
#![tactic(auto)]

ghost use Rattle.std.specs.Prelude.{◌≡◌, ◌-◌, ◌*◌, ◌≤◌, [], map, length, sum_by};
ghost use Rattle.moves.specs.Blocks.{cells_of, count_of};
ghost use Rattle.moves.specs.Stores.{items, room};
ghost use Rattle.model.specs.Sheet.{listed, remove_listed};
ghost use Rattle.model.specs.Journal.{change, runs_from};
ghost use Rattle.journal.specs.View.{run_of, side_of};
ghost use Rattle.journal.specs.Asking.{FitsWith};
ghost use Rattle.journal.specs.Answering.{Answers, Held};
ghost use Rattle.listings.specs.Cut.{Cut, Own};

use journal::parts::{NO_RUN, Note, Parts, Run};
use journal::questions::ask_with;
use layout::refusal::Refusal;
use layout::side::Side;
use listed::cutting::cut_runs;
use listed::finding::{count_lines, find_listed};
use moves::store::Store;
use moves::vec_storage::Table;

// Saves the runs and takes them out, `gone` lines in all, and enters the change.
fn cut_lines<T: Copy>(p: &mut Parts<'_, T>, side: Side, own: &[Run], gone: u32)
    requires own { Own p.old side own.now gone }
    requires fits { FitsWith p.old side (count_of p.old.table side - gone) (length own.now) (cells_of p.old.table side gone) }
    ensures { Cut p.old p.new side own.now gone }
{
    let lost = p.table.cells_in(side, gone);
    let left = p.table.count(side) - gone;
    let entry = p.entry(Note::ListedRemoval(side), own.len(), lost);
    cut_runs(&mut p.table, side, own, &mut p.saved);
    p.table.set_count(side, left);
    p.runs.extend_from_slice(own);
    p.entries.push(entry);
}

// Writes the runs of the lines that the list names into an empty store; says how many lines they are.
fn find_own<T>(table: &Table<'_, T>, side: Side, list: &[u32], found: &mut Store<'_, Run>) -> u32
    requires { (items found.old ≡ []) × (4096 ≤ 2 * room found.old) }
    ensures found { map run_of (items found.new) ≡ runs_from (listed list.now) 0 (count_of table.now side) }
    ensures gone { (result ≡ sum_by (λ run. run.length) (items found.new)) × (result ≤ count_of table.now side) }
{
    let count = table.count(side) as usize;
    find_listed(list, count, found);
    count_lines(found.as_slice())
}

// Takes out each line that the list names, once; an index beyond the lines is passed over. Never inlined: else each
// other call takes the room of its runs and marks on the stack too.
#[inline(never)]
pub fn remove_lines_at<T: Copy>(
    p: &mut Parts<'_, T>,
    side: Side,
    list: &[u32],
) -> Result<(), Refusal>
    requires { Held p.old }
    ensures { Answers p.old p.new (change (remove_listed (side_of side) list.now)) result }
{
    // No more runs than this: between two of them a line stays.
    let mut places = [NO_RUN; 2048];
    let mut found = Store::new(&mut places);
    let gone = find_own(&p.table, side, list, &mut found);
    let own = found.as_slice();
    let left = p.table.count(side) - gone;
    let lost = p.table.cells_in(side, gone);
    ask_with(p, side, left as usize, own.len(), lost)?;
    // The last question, put of rows alone.
    if side == Side::Rows && p.table.columns == 0 {
        return Err(Refusal::NoColumn);
    }
    cut_lines(p, side, own, gone);
    Ok(())
}

ghost use Rattle.std.specs.Prelude.{◌≡◌, length, MatchResult};
ghost use Rattle.layout.specs.Cells.{Cloned, clone_rules};
ghost use Rattle.layout.specs.Checks.{Checked, Passes};
ghost use Rattle.model.specs.Journal.{opened};
ghost use Rattle.journal.specs.View.{room_of, view};
ghost use Rattle.sheet.specs.Opening.{opening_rules, room, table_in};

use journal::parts::Parts;
use layout::refusal::Refusal;
use layout::storage::{Layout, ask_clone, ask_lines, clone_cells};
use moves::vec_storage::Table;

// How many places the handed-in buffers have.
#[derive(Clone, Copy)]
pub struct Sizes {
    pub cells: usize,
    pub entries: usize,
    pub runs: usize,
    pub saved: usize,
}

// Questions 1, 3, 4 and 10, of a table in a source of so many cells, and of buffers of such sizes.
pub(crate) fn ask_opening<L: Layout>(layout: &L, source: usize, sizes: Sizes) -> Result<(), Refusal>
    ensures { Checked (opening_rules (L.grid layout.now) source (room sizes.cells sizes.entries sizes.runs sizes.saved)) result }
{
    if sizes.cells > 65536 || sizes.entries > 4096 || sizes.runs > 32768 || sizes.saved > 65536 {
        return Err(Refusal::BufferTooLarge);
    }
    let (rows, columns) = layout.shape();
    ask_lines(rows as usize, columns as usize)?;
    ask_clone(layout, source, sizes.cells)
}

// Copies the layout's table to the cells, and takes its shape.
fn copy_table<L: Layout, T: Copy>(table: &mut Table<'_, T>, layout: &L, source: &[T])
    requires { Passes (clone_rules (L.grid layout.now) (length source.now) (length table.old.cells.now)) }
    ensures cells { Cloned (L.grid layout.now) source.now table.old.cells.now table.new.cells.now (L.grid layout.now).columns }
    ensures shape { (table.new.rows ≡ (L.grid layout.now).rows) × (table.new.columns ≡ (L.grid layout.now).columns) }
{
    let (rows, columns) = layout.shape();
    clone_cells(layout, source, table.cells);
    table.set_shape(rows, columns);
}

// Copies the table to the cells, with an empty journal.
pub(crate) fn fill<L: Layout, T: Copy>(p: &mut Parts<'_, T>, layout: &L, source: &[T])
    requires { Passes (clone_rules (L.grid layout.now) (length source.now) (length p.old.table.cells.now)) }
    ensures { view p.new ≡ opened (table_in (L.grid layout.now) source.now) (room_of p.old) }
{
    copy_table(&mut p.table, layout, source);
    p.clear();
}

// Opens a table over buffers that are in use already.
pub(crate) fn refill<L: Layout, T: Copy>(
    p: &mut Parts<'_, T>,
    layout: &L,
    source: &[T],
) -> Result<(), Refusal>
    ensures which { Checked (opening_rules (L.grid layout.now) (length source.now) (room_of p.old)) result }
    ensures state { MatchResult result (λ _. view p.new ≡ opened (table_in (L.grid layout.now) source.now) (room_of p.old)) (λ _. p.new ≡ p.old) }
{
    let sizes = Sizes {
        cells: p.table.cells.len(),
        entries: p.entries.capacity(),
        runs: p.runs.capacity(),
        saved: p.saved.capacity(),
    };
    ask_opening(layout, source.len(), sizes)?;
    fill(p, layout, source);
    Ok(())
}

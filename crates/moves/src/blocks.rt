// Moves of blocks of cells inside one buffer, and copies between two.
ghost use Rattle.std.specs.Prelude.{◌≡◌, ◌+◌, ◌≤◌, true, length};
ghost use Rattle.std.specs.Mem.{FitsInMemory};
ghost use Rattle.moves.specs.Slides.{Copied, Filled};

// Whether a value of the type takes less than 128 KiB. The compiler knows. Of a no nothing is said: it costs time alone.
fn is_small<T>() -> bool
    ensures { result ≡ true → FitsInMemory T.row }
{
    size_of::<T>() < 0x2_0000
}

// Moves at most 4,096 cells either way, by way of a local array, so the two ranges may overlap.
// The compiler makes one memmove of this, and no array. Of `copy_within` it makes none: for 60,000 weights that took
// 1.7 times as long. `len` is tested first: else the copies in and out each have a test of their own, and the compiler
// does not join them.
fn slide_block<T: Copy>(cells: &mut [T], from: usize, to: usize, len: usize)
    requires { (from + len ≤ length cells.old) × (to + len ≤ length cells.old) × (len ≤ 4096) }
    ensures { Copied cells.old cells.old cells.new from to len }
{
    if len == 0 {
        return;
    }
    if !is_small::<[T; 4096]>() {
        cells.copy_within(from..from + len, to);
        return;
    }
    let mut block: [T; 4096] = [cells[from]; 4096];
    let held = &mut block[..];
    copy_block(cells, from, held, 0, len);
    copy_block(held, 0, cells, to, len);
}

// To the left, cell by cell from the first on: a cell is read before it is written over.
fn slide_left_cells<T: Copy>(cells: &mut [T], from: usize, to: usize, len: usize)
    requires { (to ≤ from) × (from + len ≤ length cells.old) }
    ensures { Copied cells.old cells.old cells.new from to len }
{
    for i in 0..len {
        cells[to + i] = cells[from + i];
    }
}

// To the right, cell by cell from the last on.
fn slide_right_cells<T: Copy>(cells: &mut [T], from: usize, to: usize, len: usize)
    requires { (from ≤ to) × (to + len ≤ length cells.old) }
    ensures { Copied cells.old cells.old cells.new from to len }
{
    for i in (0..len).rev() {
        cells[to + i] = cells[from + i];
    }
}

// Moves `len` cells either way, part by part. To the left it goes from the first part on, to the right from the last
// on, so a cell is read before it is written over.
fn slide_within<T: Copy>(cells: &mut [T], from: usize, to: usize, len: usize)
    requires { (from + len ≤ length cells.old) × (to + len ≤ length cells.old) }
    ensures { Copied cells.old cells.old cells.new from to len }
{
    // So few cells are moved before a call of memmove is under way, and sooner by these loops than by `copy_within`.
    if len < 8 {
        if to < from {
            slide_left_cells(cells, from, to, len);
        } else {
            slide_right_cells(cells, from, to, len);
        }
        return;
    }
    // Most moves are no longer than this, and then the parts need not be counted.
    if len <= 4096 {
        slide_block(cells, from, to, len);
        return;
    }
    let parts = len.div_ceil(4096);
    for k in 0..parts {
        let part = if to < from { k } else { parts - 1 - k };
        let at = 4096 * part;
        slide_block(cells, from + at, to + at, (len - at).min(4096));
    }
}

// Moves `len` cells either way, unless they lie there already. Apart from `slide_within`, so that the compiler goes over
// the two copies of `slide_block` once more: it makes one memmove of them for cells of twelve bytes only then.
#[inline]
pub fn slide<T: Copy>(cells: &mut [T], from: usize, to: usize, len: usize)
    requires { (from + len ≤ length cells.old) × (to + len ≤ length cells.old) }
    ensures { Copied cells.old cells.old cells.new from to len }
{
    if from != to {
        slide_within(cells, from, to, len);
    }
}

// Writes v into `len` cells.
pub fn fill_range<T: Copy>(cells: &mut [T], from: usize, len: usize, v: T)
    requires { from + len ≤ length cells.old }
    ensures { Filled cells.old cells.new from len v }
{
    // `fill` asks that a clone of v cannot fail, and a bound `Copy` does not say so.
    for i in from..from + len {
        cells[i] = v;
    }
}

// Copies `len` cells of one buffer into another. By places, here and above, as `slide` whose two ranges may overlap: so
// what is said of the whole buffer is said once.
pub fn copy_block<T: Copy>(src: &[T], from: usize, cells: &mut [T], to: usize, len: usize)
    requires { (from + len ≤ length src.now) × (to + len ≤ length cells.old) }
    ensures { Copied src.now cells.old cells.new from to len }
{
    cells[to..to + len].copy_from_slice(&src[from..from + len]);
}

use self::Call::*;
use super::mirrored::Mirrored;
use edition::{
    fill_lower_triangle, fill_lower_triangle_with_upper_triangle, fill_upper_triangle,
    fill_upper_triangle_with_lower_triangle, select_columns, select_rows, swap_columns, swap_rows,
};
use layout::indexing::{Picked, get};
use layout::matrix_view::Strided;
use layout::refusal::Refusal;
use layout::storage::Layout;
use layout::vec_storage::Dense;
use marked::{Marked, TABLE, note, notes, same_marks};
use std::process::Abort;

#[derive(Clone, Copy)]
enum Call<'c> {
    SwapRows(u32, u32),
    SwapColumns(u32, u32),
    FillLower(u32, u32),
    FillUpper(u32, u32),
    CopyLower,
    CopyUpper,
    SelectRows(&'c [u32]),
    SelectColumns(&'c [u32]),
}

// Dense, strided by 2 and 3, picked from a dense 3 × 2 table, or mirrored.
#[derive(Clone, Copy)]
enum Seen<'c> {
    Dense(u32, u32),
    Strided,
    Picked(&'c [u32]),
    MirroredDense,
    MirroredStrided,
}

fn perform<L: Layout, T: Copy + Marked>(
    layout: &L,
    call: Call<'_>,
    cells: &mut [T],
    target: &mut [T],
) -> Result<(), Refusal> {
    // A match: a closure cannot be for every layout and both kinds of cell.
    match call {
        Call::SwapRows(i, j) => swap_rows(layout, cells, i, j),
        Call::SwapColumns(i, j) => swap_columns(layout, cells, i, j),
        Call::FillLower(v, s) => fill_lower_triangle(layout, cells, T::of(v), s),
        Call::FillUpper(v, s) => fill_upper_triangle(layout, cells, T::of(v), s),
        Call::CopyLower => fill_lower_triangle_with_upper_triangle(layout, cells),
        Call::CopyUpper => fill_upper_triangle_with_lower_triangle(layout, cells),
        Call::SelectRows(list) => select_rows(layout, cells, list, target),
        Call::SelectColumns(list) => select_columns(layout, cells, list, target),
    }
}

// What a call answers and leaves in the two buffers; behind `written` the second one holds 77.
fn leaves<T: Copy + Marked>(
    rt: &impl Abort,
    seen: Seen<'_>,
    call: Call<'_>,
    answer: Result<(), Refusal>,
    after: (&[u32], &[u32]),
    cells: &mut [T],
    target: &mut [T],
) {
    let (table, written) = after;
    // And here, since a boxed layout is no `Layout`.
    let got = match seen {
        Seen::Dense(rows, columns) => perform(&Dense::make(rows, columns), call, cells, target),
        Seen::Strided => perform(&Strided::make(2, 2, 0, 2, 3), call, cells, target),
        Seen::Picked(list) => perform(&Picked::make(list, 3, 2), call, cells, target),
        Seen::MirroredDense => perform(&Mirrored(Dense::make(3, 2)), call, cells, target),
        Seen::MirroredStrided => {
            perform(&Mirrored(Strided::make(2, 2, 0, 2, 3)), call, cells, target)
        }
    };
    assert_eq!(rt; got, answer);
    assert!(rt; same_marks(cells, table));
    for (k, cell) in target.iter().enumerate() {
        assert_eq!(rt; cell.mark(), written.get(k).copied().unwrap_or(77));
    }
}

// On the cells 1 2 3 4 5 6, and a second buffer of eight cells 77, with both kinds of cell.
fn both_kinds(
    rt: &impl Abort,
    seen: Seen<'_>,
    call: Call<'_>,
    answer: Result<(), Refusal>,
    after: (&[u32], &[u32]),
) {
    let mut weights = TABLE;
    leaves(rt, seen, call, answer, after, &mut weights, &mut [77; 8]);
    let mut notes = notes();
    leaves(
        rt,
        seen,
        call,
        answer,
        after,
        &mut notes,
        &mut [note(77); 8],
    );
}

fn acts(rt: &impl Abort, seen: Seen<'_>, call: Call<'_>, cells: &[u32]) {
    both_kinds(rt, seen, call, Ok(()), (cells, &[]));
}

fn selects(rt: &impl Abort, seen: Seen<'_>, call: Call<'_>, written: &[u32]) {
    both_kinds(rt, seen, call, Ok(()), (&TABLE, written));
}

fn refuses(rt: &impl Abort, seen: Seen<'_>, call: Call<'_>, refusal: Refusal) {
    both_kinds(rt, seen, call, Err(refusal), (&TABLE, &[]));
}

const DENSE: Seen<'static> = Seen::Dense(3, 2);

const NO_ROW: Seen<'static> = Seen::Dense(0, 2);

const SHORT: Seen<'static> = Seen::Dense(7, 1);

const STEPS: Seen<'static> = Seen::Strided;

const PICKED: Seen<'static> = Seen::Picked(&[2, 0]);

const MIRROR: Seen<'static> = Seen::MirroredDense;

const MIRRORED_STEPS: Seen<'static> = Seen::MirroredStrided;

#[test]
fn through_dense(rt: HostRuntime) {
    acts(&rt, DENSE, SwapRows(0, 2), &[3, 2, 1, 6, 5, 4]);
    acts(&rt, DENSE, SwapRows(1, 1), &TABLE);
    acts(&rt, DENSE, SwapColumns(0, 1), &[4, 5, 6, 1, 2, 3]);
    acts(&rt, DENSE, FillLower(0, 1), &[1, 0, 0, 4, 5, 0]);
    acts(&rt, DENSE, FillUpper(0, 1), &[1, 2, 3, 0, 5, 6]);
    acts(&rt, DENSE, FillUpper(9, 0), &[9, 2, 3, 9, 9, 6]);
    acts(&rt, DENSE, FillLower(0, u32::MAX), &TABLE);
    acts(&rt, DENSE, FillUpper(0, u32::MAX), &TABLE);
    selects(&rt, DENSE, SelectRows(&[2, 2, 0]), &[3, 3, 1, 6, 6, 4]);
    selects(&rt, DENSE, SelectColumns(&[1, 1]), &[4, 5, 6, 4, 5, 6]);
    acts(&rt, NO_ROW, SwapColumns(0, 1), &TABLE);
    acts(&rt, NO_ROW, FillLower(0, 0), &TABLE);
    acts(&rt, Seen::Dense(0, 0), CopyLower, &TABLE);
    selects(&rt, NO_ROW, SelectColumns(&[1, 0, 1]), &[]);
    selects(&rt, DENSE, SelectRows(&[]), &[]);
}

#[test]
fn through_steps(rt: HostRuntime) {
    acts(&rt, STEPS, SwapRows(0, 1), &[3, 2, 1, 6, 5, 4]);
    acts(&rt, STEPS, SwapColumns(1, 0), &[4, 2, 6, 1, 5, 3]);
    acts(&rt, STEPS, FillLower(0, 0), &[0, 2, 0, 4, 5, 0]);
    acts(&rt, STEPS, FillUpper(0, 0), &[0, 2, 3, 0, 5, 0]);
    acts(&rt, STEPS, CopyLower, &[1, 2, 4, 4, 5, 6]);
    acts(&rt, STEPS, CopyUpper, &[1, 2, 3, 3, 5, 6]);
    selects(&rt, STEPS, SelectRows(&[1, 1, 0]), &[3, 3, 1, 6, 6, 4]);
    selects(&rt, STEPS, SelectColumns(&[1, 0, 1]), &[4, 6, 1, 3, 4, 6]);
}

// Row 0 is 3 6, row 1 is 1 4.
#[test]
fn through_picked_rows(rt: HostRuntime) {
    acts(&rt, PICKED, SwapRows(0, 1), &[3, 2, 1, 6, 5, 4]);
    acts(&rt, PICKED, SwapColumns(0, 1), &[4, 2, 6, 1, 5, 3]);
    acts(&rt, PICKED, FillLower(0, 1), &[0, 2, 3, 4, 5, 6]);
    acts(&rt, PICKED, FillUpper(0, 1), &[1, 2, 3, 4, 5, 0]);
    acts(&rt, PICKED, CopyLower, &[6, 2, 3, 4, 5, 6]);
    acts(&rt, PICKED, CopyUpper, &[1, 2, 3, 4, 5, 1]);
    selects(&rt, PICKED, SelectRows(&[1, 0]), &[1, 3, 4, 6]);
    selects(&rt, PICKED, SelectColumns(&[1]), &[6, 4]);
}

// The dense columns are 4 5 6 and 1 2 3, those with steps 4 6 and 1 3.
#[test]
fn through_mirrored_columns(rt: HostRuntime) {
    acts(&rt, MIRROR, SwapRows(0, 2), &[3, 2, 1, 6, 5, 4]);
    acts(&rt, MIRROR, SwapColumns(0, 1), &[4, 5, 6, 1, 2, 3]);
    acts(&rt, MIRROR, FillLower(0, 1), &[1, 2, 0, 4, 0, 0]);
    acts(&rt, MIRROR, FillUpper(0, 1), &[0, 2, 3, 4, 5, 6]);
    selects(&rt, MIRROR, SelectRows(&[2]), &[6, 3]);
    selects(&rt, MIRROR, SelectColumns(&[1, 0]), &[1, 2, 3, 4, 5, 6]);
    acts(&rt, MIRRORED_STEPS, SwapRows(0, 1), &[3, 2, 1, 6, 5, 4]);
    acts(&rt, MIRRORED_STEPS, SwapColumns(0, 1), &[4, 2, 6, 1, 5, 3]);
    acts(&rt, MIRRORED_STEPS, FillLower(0, 1), &[1, 2, 3, 4, 5, 0]);
    acts(&rt, MIRRORED_STEPS, FillUpper(0, 1), &[0, 2, 3, 4, 5, 6]);
    acts(&rt, MIRRORED_STEPS, CopyLower, &[1, 2, 3, 4, 5, 1]);
    acts(&rt, MIRRORED_STEPS, CopyUpper, &[6, 2, 3, 4, 5, 6]);
    selects(&rt, MIRRORED_STEPS, SelectRows(&[1, 0]), &[6, 4, 3, 1]);
    selects(&rt, MIRRORED_STEPS, SelectColumns(&[1]), &[1, 3]);
}

#[test]
fn refusals(rt: HostRuntime) {
    refuses(&rt, DENSE, SwapRows(0, 3), Refusal::NoSuchLine);
    refuses(&rt, DENSE, SwapRows(u32::MAX, 0), Refusal::NoSuchLine);
    refuses(&rt, DENSE, SwapColumns(2, 0), Refusal::NoSuchLine);
    refuses(&rt, NO_ROW, SwapRows(0, 0), Refusal::NoSuchLine);
    refuses(&rt, DENSE, CopyLower, Refusal::NotSquare);
    refuses(&rt, MIRROR, CopyUpper, Refusal::NotSquare);
    refuses(&rt, DENSE, SelectRows(&[0, 3]), Refusal::NoSuchLine);
    refuses(&rt, DENSE, SelectColumns(&[2; 4097]), Refusal::NoSuchLine);
    refuses(&rt, DENSE, SelectColumns(&[0; 4097]), Refusal::TooManyLines);
    refuses(&rt, DENSE, SelectColumns(&[0, 1, 0]), Refusal::TooManyCells);
    refuses(&rt, SHORT, SwapRows(7, 0), Refusal::NoSuchLine);
    refuses(&rt, SHORT, SwapRows(6, 0), Refusal::BufferTooShort);
    refuses(&rt, SHORT, FillLower(0, 0), Refusal::BufferTooShort);
    refuses(&rt, SHORT, FillUpper(0, 0), Refusal::BufferTooShort);
    refuses(&rt, SHORT, CopyLower, Refusal::BufferTooShort);
    refuses(&rt, SHORT, CopyUpper, Refusal::BufferTooShort);
    refuses(&rt, SHORT, SelectRows(&[0]), Refusal::BufferTooShort);
    refuses(&rt, SHORT, SelectColumns(&[0, 0]), Refusal::TooManyCells);
}

// 4,096 rows and 16 columns: the first and the last line of each side change places.
#[test]
fn largest_table(rt: HostRuntime) {
    let whole = Dense::make(4096, 16);
    let mut short = [5u32; 65535];
    assert_eq!(rt;
        swap_rows(&whole, &mut short, 0, 4095),
        Err(Refusal::BufferTooShort)
    );
    let mut cells = [5u32; 65536];
    cells[0] = 1;
    cells[65535] = 2;
    assert_eq!(rt; swap_rows(&whole, &mut cells, 0, 4095), Ok(()));
    assert_eq!(rt; swap_columns(&whole, &mut cells, 0, 15), Ok(()));
    assert_eq!(rt; get(&whole, &cells, 4095, 15), Some(1));
    let mut row = [0; 15];
    assert_eq!(rt;
        select_rows(&whole, &cells, &[0], &mut row),
        Err(Refusal::TooManyCells)
    );
    let mut row = [0; 16];
    assert_eq!(rt; select_rows(&whole, &cells, &[0], &mut row), Ok(()));
    assert_eq!(rt; row.get(0).copied(), Some(2));
}

use self::Call::*;
use calls::call;
use journal::parts::{Entry, NO_ENTRY, NO_RUN, Run};
use layout::refusal::Refusal;
use layout::side::Side;
use layout::vec_storage::Dense;
use marked::{Marked, TABLE, note, notes, same_marks};
use sheet::sheet::Sheet;
use std::process::Abort;

// The calls by the Rust's names, of either kind of cell; the library's `Call` is over the side and of one kind.
#[derive(Clone, Copy)]
pub(crate) enum Call<'c> {
    InsertRows(u32, u32, u32),
    InsertColumns(u32, u32, u32),
    RemoveRows(u32, u32),
    RemoveColumns(u32, u32),
    RemoveRowsAt(&'c [u32]),
    RemoveColumnsAt(&'c [u32]),
    SwapRows(u32, u32),
    SwapColumns(u32, u32),
    Resize(u32, u32, u32),
}

// What a call leaves: the shape, the cells, the saved cells, and the runs as offset and length.
#[derive(Clone, Copy)]
struct After<'e> {
    shape: (u32, u32),
    cells: &'e [u32],
    saved: &'e [u32],
    runs: &'e [(u32, u32)],
}

const SAME: After<'static> = After {
    shape: (3, 2),
    cells: &TABLE,
    saved: &[],
    runs: &[],
};

// The cases write a run as a pair, for shortness.
fn same_runs(rt: &impl Abort, runs: &[Run], pairs: &[(u32, u32)]) {
    assert_eq!(rt; runs.len(), pairs.len());
    for (run, pair) in runs.iter().zip(pairs) {
        assert_eq!(rt; (run.offset, run.length), *pair);
    }
}

pub(crate) fn play<T: Copy + Marked>(
    sheet: &mut Sheet<'_, T>,
    call: Call<'_>,
) -> Result<(), Refusal> {
    // A match: a closure cannot be for both kinds of cell.
    match call {
        Call::InsertRows(i, n, v) => sheet.insert_rows(i, n, T::of(v)),
        Call::InsertColumns(i, n, v) => sheet.insert_columns(i, n, T::of(v)),
        Call::RemoveRows(i, n) => sheet.remove_rows(i, n),
        Call::RemoveColumns(i, n) => sheet.remove_columns(i, n),
        Call::RemoveRowsAt(list) => sheet.remove_rows_at(list),
        Call::RemoveColumnsAt(list) => sheet.remove_columns_at(list),
        Call::SwapRows(i, j) => sheet.swap_rows(i, j),
        Call::SwapColumns(i, j) => sheet.swap_columns(i, j),
        Call::Resize(rows, columns, v) => sheet.resize_mut(rows, columns, T::of(v)),
    }
}

// One call on the 3 × 2 table, over nine cells, one entry, two run pairs and four saved cells; and then it is taken back.
fn answers<T: Copy + Marked>(
    rt: &impl Abort,
    call: Call<'_>,
    answer: Result<(), Refusal>,
    after: After<'_>,
    table: &[T],
    cells: &mut [T],
    saved: &mut [T],
) {
    let mut entries = [NO_ENTRY; 1];
    let mut runs = [NO_RUN; 2];
    let mut sheet = Sheet::open(
        &Dense::make(3, 2),
        table,
        cells,
        &mut entries,
        &mut runs,
        saved,
    );
    assert_eq!(rt; play(&mut sheet, call), answer);
    assert_eq!(rt; sheet.shape(), after.shape);
    assert!(rt; same_marks(sheet.cells(), after.cells));
    assert!(rt; same_marks(sheet.saved(), after.saved));
    same_runs(rt, sheet.runs(), after.runs);
    assert_eq!(rt; sheet.entries().len(), if answer.is_ok() { 1 } else { 0 });
    let back = answer.map_err(|_| Refusal::NothingToUndo);
    assert_eq!(rt; sheet.undo(), back);
    assert_eq!(rt; sheet.shape(), (3, 2));
    assert!(rt; same_marks(sheet.cells(), &TABLE));
    assert_eq!(rt; sheet.entries().len(), 0);
    assert_eq!(rt; sheet.runs().len(), 0);
    assert_eq!(rt; sheet.saved().len(), 0);
}

fn both_kinds(rt: &impl Abort, call: Call<'_>, answer: Result<(), Refusal>, after: After<'_>) {
    answers(rt, call, answer, after, &TABLE, &mut [77; 9], &mut [77; 4]);
    let notes = notes();
    let mut cells = [note(77); 9];
    answers(
        rt,
        call,
        answer,
        after,
        &notes,
        &mut cells,
        &mut [note(77); 4],
    );
}

// What a call that takes nothing out leaves.
fn leaves(rt: &impl Abort, call: Call<'_>, shape: (u32, u32), cells: &[u32]) {
    let after = After {
        shape,
        cells,
        ..SAME
    };
    both_kinds(rt, call, Ok(()), after);
}

// And what one that takes cells out leaves, which are saved.
fn takes(
    rt: &impl Abort,
    call: Call<'_>,
    shape: (u32, u32),
    cells: &[u32],
    saved: &[u32],
    runs: &[(u32, u32)],
) {
    let after = After {
        shape,
        cells,
        saved,
        runs,
    };
    both_kinds(rt, call, Ok(()), after);
}

fn refuses(rt: &impl Abort, call: Call<'_>, refusal: Refusal) {
    both_kinds(rt, call, Err(refusal), SAME);
}

#[test]
fn inserting_and_removing(rt: HostRuntime) {
    takes(
        &rt,
        RemoveRows(1, 1),
        (2, 2),
        &[1, 3, 4, 6],
        &[2, 5],
        &[(1, 1)],
    );
    leaves(&rt, RemoveRows(3, 0), (3, 2), &TABLE);
    refuses(&rt, RemoveRows(3, 1), Refusal::NoSuchLine);
    refuses(&rt, RemoveRows(u32::MAX, 1), Refusal::NoSuchLine);
    refuses(&rt, RemoveRows(0, 3), Refusal::SavedFull);
    let first = &[1, 2, 3];
    takes(
        &rt,
        RemoveColumns(0, 1),
        (3, 1),
        &[4, 5, 6],
        first,
        &[(0, 1)],
    );
    leaves(&rt, InsertRows(3, 1, 8), (4, 2), &[1, 2, 3, 8, 4, 5, 6, 8]);
    let wide = &[1, 2, 3, 0, 0, 0, 4, 5, 6];
    leaves(&rt, InsertColumns(1, 1, 0), (3, 3), wide);
    refuses(&rt, InsertColumns(3, 0, 0), Refusal::NoSuchLine);
    refuses(&rt, InsertRows(0, 2, 0), Refusal::TooManyCells);
    refuses(&rt, InsertRows(0, 4094, 0), Refusal::TooManyLines);
}

#[test]
fn listed_swapped_resized(rt: HostRuntime) {
    let ends = &[(0, 1), (2, 1)];
    takes(
        &rt,
        RemoveRowsAt(&[2, 0, 2, 9]),
        (1, 2),
        &[2, 5],
        &[1, 3, 4, 6],
        ends,
    );
    takes(
        &rt,
        RemoveRowsAt(&[2, 1]),
        (1, 2),
        &[1, 4],
        &[2, 3, 5, 6],
        &[(1, 2)],
    );
    leaves(&rt, RemoveRowsAt(&[3, u32::MAX]), (3, 2), &TABLE);
    leaves(&rt, RemoveColumnsAt(&[]), (3, 2), &TABLE);
    takes(
        &rt,
        RemoveColumnsAt(&[1, 7, 1]),
        (3, 1),
        &[1, 2, 3],
        &[4, 5, 6],
        &[(1, 1)],
    );
    refuses(&rt, RemoveColumnsAt(&[1, 0]), Refusal::SavedFull);
    leaves(&rt, SwapRows(0, 2), (3, 2), &[3, 2, 1, 6, 5, 4]);
    leaves(&rt, SwapRows(1, 1), (3, 2), &TABLE);
    leaves(&rt, SwapColumns(1, 0), (3, 2), &[4, 5, 6, 1, 2, 3]);
    refuses(&rt, SwapRows(0, 3), Refusal::NoSuchLine);
    refuses(&rt, SwapColumns(2, 0), Refusal::NoSuchLine);
    takes(
        &rt,
        Resize(2, 3, 9),
        (2, 3),
        &[1, 2, 4, 5, 9, 9],
        &[3, 6],
        &[],
    );
    takes(&rt, Resize(2, 1, 9), (2, 1), &[1, 2], &[3, 4, 5, 6], &[]);
    takes(&rt, Resize(4, 1, 9), (4, 1), &[1, 2, 3, 9], &[4, 5, 6], &[]);
    leaves(&rt, Resize(4, 2, 9), (4, 2), &[1, 2, 3, 9, 4, 5, 6, 9]);
    refuses(&rt, Resize(0, 0, 9), Refusal::SavedFull);
    refuses(&rt, Resize(5, 2, 9), Refusal::TooManyCells);
    refuses(&rt, Resize(4097, 0, 9), Refusal::TooManyLines);
}

// One call over stores that are one short of its need.
fn short(
    rt: &impl Abort,
    call: Call<'_>,
    entries: &mut [Entry],
    runs: &mut [Run],
    saved: &mut [u32],
    refusal: Refusal,
) {
    let mut cells = [0; 9];
    let mut sheet = Sheet::open(&Dense::make(3, 2), &TABLE, &mut cells, entries, runs, saved);
    assert_eq!(rt; play(&mut sheet, call), Err(refusal));
    assert_eq!(rt; sheet.cells(), &TABLE[..]);
    assert_eq!(rt; sheet.entries().len(), 0);
}

#[test]
fn full_stores(rt: HostRuntime) {
    let ends = RemoveRowsAt(&[0, 2]);
    short(
        &rt,
        ends,
        &mut [],
        &mut [NO_RUN; 2],
        &mut [0; 4],
        Refusal::JournalFull,
    );
    short(
        &rt,
        ends,
        &mut [NO_ENTRY; 1],
        &mut [NO_RUN; 1],
        &mut [0; 4],
        Refusal::RunsFull,
    );
    short(
        &rt,
        ends,
        &mut [NO_ENTRY; 1],
        &mut [NO_RUN; 2],
        &mut [0; 3],
        Refusal::SavedFull,
    );
    short(
        &rt,
        SwapRows(0, 2),
        &mut [],
        &mut [],
        &mut [],
        Refusal::JournalFull,
    );
    short(
        &rt,
        Resize(2, 1, 0),
        &mut [NO_ENTRY; 1],
        &mut [],
        &mut [0; 3],
        Refusal::SavedFull,
    );
}

// Both columns go; then a row cannot be removed by a list.
#[test]
fn no_column(rt: HostRuntime) {
    let mut cells = [0; 6];
    let mut entries = [NO_ENTRY; 2];
    let mut runs = [NO_RUN; 2];
    let mut saved = [0; 6];
    let mut sheet = Sheet::open(
        &Dense::make(3, 2),
        &TABLE,
        &mut cells,
        &mut entries,
        &mut runs,
        &mut saved,
    );
    assert_eq!(rt; sheet.remove_columns(0, 2), Ok(()));
    assert_eq!(rt; sheet.remove_rows_at(&[0]), Err(Refusal::NoColumn));
    assert_eq!(rt; sheet.remove_rows_at(&[]), Err(Refusal::NoColumn));
    assert_eq!(rt; sheet.shape(), (3, 0));
    assert_eq!(rt; sheet.remove_rows(0, 1), Ok(()));
    assert_eq!(rt; sheet.remove_rows_at(&[0]), Err(Refusal::JournalFull));
}

// One entry is free: it is used again once the first one is settled, and nothing settled is taken back.
#[test]
fn settled(rt: HostRuntime) {
    let mut cells = [0; 6];
    let mut entries = [NO_ENTRY; 1];
    let mut runs = [NO_RUN; 1];
    let mut saved = [0; 3];
    let mut sheet = Sheet::open(
        &Dense::make(3, 2),
        &TABLE,
        &mut cells,
        &mut entries,
        &mut runs,
        &mut saved,
    );
    assert_eq!(rt; sheet.undo(), Err(Refusal::NothingToUndo));
    assert_eq!(rt; sheet.remove_columns(0, 1), Ok(()));
    assert_eq!(rt; sheet.swap_rows(0, 1), Err(Refusal::JournalFull));
    sheet.settle();
    assert_eq!(rt; sheet.undo(), Err(Refusal::NothingToUndo));
    assert_eq!(rt; sheet.remove_rows_at(&[0]), Ok(()));
    assert_eq!(rt; sheet.cells(), &[5, 6][..]);
    assert_eq!(rt; sheet.saved(), &[4][..]);
    assert_eq!(rt; sheet.undo(), Ok(()));
    assert_eq!(rt; sheet.cells(), &[4, 5, 6][..]);
    sheet.settle();
    assert_eq!(rt; sheet.entries().len(), 0);
}

// Calls in one list: a refused one alters nothing, each has its answer, and an answer too many stays as it was.
#[test]
fn performed_one_after_another(rt: HostRuntime) {
    let mut cells = [0; 10];
    let mut entries = [NO_ENTRY; 3];
    let mut runs = [NO_RUN; 1];
    let mut saved = [0; 4];
    let mut sheet = Sheet::open(
        &Dense::make(3, 2),
        &TABLE,
        &mut cells,
        &mut entries,
        &mut runs,
        &mut saved,
    );
    let calls = [
        call::Call::InsertLines(Side::Rows, 1, 1, 8),
        call::Call::RemoveLines(Side::Columns, 0, 1),
        call::Call::Undo,
        call::Call::SwapLines(Side::Rows, 0, 2),
        call::Call::RemoveLines(Side::Rows, 4, 1),
        call::Call::FillLines(Side::Rows, 4, 1, &[7], 9),
        call::Call::Settle,
        call::Call::Undo,
    ];
    let mut answers = [Err(Refusal::NoSheet); 9];
    assert_eq!(rt; sheet.perform_all(&calls, &mut answers), 8);
    assert_eq!(rt;
        answers,
        [
            Ok(()),
            Ok(()),
            Ok(()),
            Ok(()),
            Err(Refusal::NoSuchLine),
            Ok(()),
            Ok(()),
            Err(Refusal::NothingToUndo),
            Err(Refusal::NoSheet),
        ]
    );
    assert_eq!(rt; sheet.shape(), (5, 2));
    assert_eq!(rt; sheet.cells(), &[2, 8, 1, 3, 7, 5, 8, 4, 6, 9][..]);
}

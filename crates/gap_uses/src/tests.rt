use super::put_weights;
use journal::parts::{Entry, NO_ENTRY, NO_RUN, Note};
use layout::refusal::Refusal;
use layout::side::Side;
use layout::vec_storage::Dense;
use marked::{Marked, TABLE, note, notes, same_marks};
use sheet::sheet::Sheet;
use std::process::Abort;

// A gap of `count` lines at `at` in the 3 × 2 table stored 1 2 3 4 5 6, filled with the first `listed` of 7 8 9 and
// with the value 0: its answer, and the shape and cells after it.
#[derive(Clone, Copy)]
struct Example<'e> {
    side: Side,
    at: u32,
    count: u32,
    listed: usize,
    answer: Result<(), Refusal>,
    shape: (u32, u32),
    cells: &'e [u32],
}

fn holds<T: Copy + Marked>(
    rt: &impl Abort,
    e: &Example<'_>,
    table: &[T],
    list: &[T],
    cells: &mut [T],
) {
    let listed = e.listed;
    assert!(rt; listed <= list.len());
    let list = &list[0..listed];
    let mut entries = [NO_ENTRY; 1];
    let mut runs = [NO_RUN; 1];
    let sheet = Sheet::open(
        &Dense::make(3, 2),
        table,
        cells,
        &mut entries,
        &mut runs,
        &mut [],
    );
    assert_eq!(rt; sheet.check_gap(e.side, e.at, e.count), e.answer);
    let gap = sheet.open_gap(e.side, e.at, e.count);
    let answer = gap.answer();
    let sheet = gap.fill(list, T::of(0));
    assert_eq!(rt; answer, e.answer);
    assert_eq!(rt; sheet.shape(), e.shape);
    assert!(rt; same_marks(sheet.cells(), e.cells));
    if e.answer.is_err() {
        assert_eq!(rt; sheet.entries().len(), 0);
        return;
    }
    let entry = Entry {
        note: Note::Gap(e.side, e.at, e.count),
        rows: 3,
        columns: 2,
        runs: 0,
        cells: 0,
    };
    assert_eq!(rt; sheet.entries(), &[entry][..]);
}

#[test]
fn worked_gaps(rt: HostRuntime) {
    let table: &[u32] = &TABLE;
    let examples = [
        Example {
            side: Side::Rows,
            at: 1,
            count: 1,
            listed: 2,
            answer: Ok(()),
            shape: (4, 2),
            cells: &[1, 7, 2, 3, 4, 8, 5, 6],
        },
        Example {
            side: Side::Rows,
            at: 1,
            count: 1,
            listed: 1,
            answer: Ok(()),
            shape: (4, 2),
            cells: &[1, 7, 2, 3, 4, 0, 5, 6],
        },
        Example {
            side: Side::Rows,
            at: 1,
            count: 1,
            listed: 3,
            answer: Ok(()),
            shape: (4, 2),
            cells: &[1, 7, 2, 3, 4, 8, 5, 6],
        },
        Example {
            side: Side::Rows,
            at: 1,
            count: 2,
            listed: 3,
            answer: Ok(()),
            shape: (5, 2),
            cells: &[1, 7, 8, 2, 3, 4, 9, 0, 5, 6],
        },
        Example {
            side: Side::Columns,
            at: 1,
            count: 1,
            listed: 1,
            answer: Ok(()),
            shape: (3, 3),
            cells: &[1, 2, 3, 7, 0, 0, 4, 5, 6],
        },
        Example {
            side: Side::Columns,
            at: 2,
            count: 0,
            listed: 3,
            answer: Ok(()),
            shape: (3, 2),
            cells: table,
        },
        Example {
            side: Side::Rows,
            at: 4,
            count: 1,
            listed: 2,
            answer: Err(Refusal::NoSuchLine),
            shape: (3, 2),
            cells: table,
        },
        Example {
            side: Side::Columns,
            at: 0,
            count: 2,
            listed: 2,
            answer: Err(Refusal::TooManyCells),
            shape: (3, 2),
            cells: table,
        },
    ];
    let notes = notes();
    for e in &examples {
        holds(&rt, e, &TABLE, &[7, 8, 9], &mut [77; 10]);
        holds(
            &rt,
            e,
            &notes,
            &[note(7), note(8), note(9)],
            &mut [note(77); 10],
        );
    }
}

// One entry is free: a second gap is refused, and the sheet comes back as the first one left it.
#[test]
fn journal_full(rt: HostRuntime) {
    let mut cells = [77; 10];
    let mut entries = [NO_ENTRY; 1];
    let mut runs = [NO_RUN; 1];
    let sheet = Sheet::open(
        &Dense::make(3, 2),
        &TABLE,
        &mut cells,
        &mut entries,
        &mut runs,
        &mut [],
    );
    let sheet = put_weights(sheet, 3, 1, &[7]);
    let gap = sheet.open_gap(Side::Rows, 0, 1);
    let answer = gap.answer();
    let sheet = gap.fill(&[8], 9);
    assert_eq!(rt; answer, Err(Refusal::JournalFull));
    assert_eq!(rt; sheet.entries().len(), 1);
    assert_eq!(rt; sheet.cells(), &[1, 2, 3, 7, 4, 5, 6, 0][..]);
}

use super::changes::{Call, play};
use journal::parts::{NO_ENTRY, NO_RUN, Run};
use layout::refusal::Refusal;
use layout::vec_storage::Dense;
use marked::{Marked, TABLE, note, notes, same_marks};
use sheet::sheet::Sheet;
use std::process::Abort;

// A call on the 3 × 2 table stored 1 2 3 4 5 6: its answer, and the shape, cells, saved cells and runs after it.
#[derive(Clone, Copy)]
struct Example<'e> {
    call: Call<'e>,
    answer: Result<(), Refusal>,
    shape: (u32, u32),
    cells: &'e [u32],
    saved: &'e [u32],
    runs: &'e [Run],
}

fn holds<T: Copy + Marked>(
    rt: &impl Abort,
    e: &Example<'_>,
    table: &[T],
    cells: &mut [T],
    saved: &mut [T],
) {
    let mut entries = [NO_ENTRY; 1];
    let mut runs = [NO_RUN; 1];
    let mut sheet = Sheet::open(
        &Dense::make(3, 2),
        table,
        cells,
        &mut entries,
        &mut runs,
        saved,
    );
    assert_eq!(rt; play(&mut sheet, e.call), e.answer);
    assert_eq!(rt; sheet.shape(), e.shape);
    assert!(rt; same_marks(sheet.cells(), e.cells));
    assert!(rt; same_marks(sheet.saved(), e.saved));
    assert_eq!(rt; sheet.runs(), e.runs);
    assert_eq!(rt; sheet.entries().len(), if e.answer.is_ok() { 1 } else { 0 });
}

// The examples of the first landing, with the inputs and answers of then; changes.rt has them again among others.
#[test]
fn worked_tables(rt: HostRuntime) {
    let table: &[u32] = &TABLE;
    let at_1: &[Run] = &[Run {
        offset: 1,
        length: 1,
    }];
    let at_0: &[Run] = &[Run {
        offset: 0,
        length: 1,
    }];
    let examples = [
        Example {
            call: Call::RemoveRows(1, 1),
            answer: Ok(()),
            shape: (2, 2),
            cells: &[1, 3, 4, 6],
            saved: &[2, 5],
            runs: at_1,
        },
        Example {
            call: Call::RemoveRows(3, 0),
            answer: Ok(()),
            shape: (3, 2),
            cells: table,
            saved: &[],
            runs: &[],
        },
        Example {
            call: Call::RemoveRows(3, 1),
            answer: Err(Refusal::NoSuchLine),
            shape: (3, 2),
            cells: table,
            saved: &[],
            runs: &[],
        },
        Example {
            call: Call::RemoveRows(0, 3),
            answer: Err(Refusal::SavedFull),
            shape: (3, 2),
            cells: table,
            saved: &[],
            runs: &[],
        },
        Example {
            call: Call::RemoveColumns(0, 1),
            answer: Ok(()),
            shape: (3, 1),
            cells: &[4, 5, 6],
            saved: &[1, 2, 3],
            runs: at_0,
        },
        Example {
            call: Call::InsertRows(3, 1, 8),
            answer: Ok(()),
            shape: (4, 2),
            cells: &[1, 2, 3, 8, 4, 5, 6, 8],
            saved: &[],
            runs: &[],
        },
        Example {
            call: Call::InsertColumns(1, 1, 0),
            answer: Ok(()),
            shape: (3, 3),
            cells: &[1, 2, 3, 0, 0, 0, 4, 5, 6],
            saved: &[],
            runs: &[],
        },
        Example {
            call: Call::InsertColumns(3, 0, 0),
            answer: Err(Refusal::NoSuchLine),
            shape: (3, 2),
            cells: table,
            saved: &[],
            runs: &[],
        },
        Example {
            call: Call::InsertRows(0, 2, 0),
            answer: Err(Refusal::TooManyCells),
            shape: (3, 2),
            cells: table,
            saved: &[],
            runs: &[],
        },
        Example {
            call: Call::InsertRows(0, 4094, 0),
            answer: Err(Refusal::TooManyLines),
            shape: (3, 2),
            cells: table,
            saved: &[],
            runs: &[],
        },
    ];
    let notes = notes();
    for e in &examples {
        holds(&rt, e, &TABLE, &mut [77; 9], &mut [77; 4]);
        holds(&rt, e, &notes, &mut [note(77); 9], &mut [note(77); 4]);
    }
}

// A table that does not fit is not opened, and a second opening takes the place of the first.
#[test]
fn opened_twice(rt: HostRuntime) {
    let table = TABLE;
    let mut cells = [0; 4];
    let mut entries = [NO_ENTRY; 1];
    let mut runs = [NO_RUN; 1];
    let mut saved = [0; 4];
    assert_eq!(rt;
        Sheet::check(&Dense::make(3, 2), &table, &cells, &entries, &runs, &saved),
        Err(Refusal::TooManyCells)
    );
    assert_eq!(rt;
        Sheet::check(
            &Dense::make(2, 2),
            &table[0..3],
            &cells,
            &entries,
            &runs,
            &saved,
        ),
        Err(Refusal::BufferTooShort)
    );
    let mut sheet = Sheet::open(
        &Dense::make(2, 2),
        &table,
        &mut cells,
        &mut entries,
        &mut runs,
        &mut saved,
    );
    assert_eq!(rt; sheet.get(1, 0), Some(2));
    assert_eq!(rt; sheet.get(2, 0), None);
    assert_eq!(rt; sheet.insert_rows(0, 0, 9), Ok(()));
    assert_eq!(rt; sheet.insert_rows(0, 0, 9), Err(Refusal::JournalFull));
    assert_eq!(rt;
        sheet.reopen(&Dense::make(3, 2), &table),
        Err(Refusal::TooManyCells)
    );
    assert_eq!(rt; sheet.shape(), (2, 2));
    assert_eq!(rt; sheet.reopen(&Dense::make(1, 3), &table), Ok(()));
    assert_eq!(rt; sheet.entries().len(), 0);
    assert_eq!(rt; sheet.cells(), &[1, 2, 3][..]);
}

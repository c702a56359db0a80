use layout::indexing::{Picked, get};
use layout::matrix_view::{Strided, column};
use layout::refusal::Refusal;
use layout::storage::Layout;
use layout::vec_storage::Dense;
use sheet::cell::WeighingNote;
use std::fmt::Debug;
use std::process::Abort;

const M: u32 = u32::MAX;

// What a check answers, and the shape and span of what is then made.
#[derive(Clone, Copy)]
struct Expected {
    answer: Result<(), Refusal>,
    shape: (u32, u32),
    span: u32,
}

fn made(rows: u32, columns: u32, span: u32) -> Expected {
    Expected {
        answer: Ok(()),
        shape: (rows, columns),
        span,
    }
}

fn refused(refusal: Refusal) -> Expected {
    Expected {
        answer: Err(refusal),
        shape: (0, 0),
        span: 0,
    }
}

fn meets<L: Layout>(rt: &impl Abort, layout: &L, answer: Result<(), Refusal>, e: Expected) {
    assert_eq!(rt; answer, e.answer);
    assert_eq!(rt; layout.shape(), e.shape);
    assert_eq!(rt; layout.span(), e.span);
}

fn dense(rt: &impl Abort, rows: u32, columns: u32, e: Expected) {
    meets(
        rt,
        &Dense::make(rows, columns),
        Dense::check(rows, columns),
        e,
    );
}

// Rows, columns, first place, row step, column step.
fn strided(rt: &impl Abort, a: [u32; 5], e: Expected) {
    let answer = Strided::check(a[0], a[1], a[2], a[3], a[4]);
    meets(rt, &Strided::make(a[0], a[1], a[2], a[3], a[4]), answer, e);
}

fn picked(rt: &impl Abort, list: &[u32], rows: u32, columns: u32, e: Expected) {
    let answer = Picked::check(list, rows, columns);
    meets(rt, &Picked::make(list, rows, columns), answer, e);
}

// Row, column, and where that cell lies.
fn places<L: Layout>(rt: &impl Abort, layout: &L, cells: &[(u32, u32, u32)]) {
    for (row, column, place) in cells {
        assert_eq!(rt; layout.place(*row, *column), *place);
    }
}

#[test]
fn dense_sizes(rt: HostRuntime) {
    dense(&rt, 0, 4096, made(0, 4096, 0));
    dense(&rt, 4096, 0, made(4096, 0, 0));
    dense(&rt, 4096, 16, made(4096, 16, 65536));
    dense(&rt, 4096, 17, refused(Refusal::TooManyCells));
    dense(&rt, 4097, 1, refused(Refusal::TooManyLines));
    dense(&rt, 0, 4097, refused(Refusal::TooManyLines));
    dense(&rt, M, M, refused(Refusal::TooManyLines));
}

#[test]
fn strided_sizes(rt: HostRuntime) {
    strided(&rt, [0, 4096, M, M, M], made(0, 4096, 0));
    strided(&rt, [4096, 0, M, 0, 0], made(4096, 0, 0));
    strided(&rt, [4096, 16, 0, 1, 4096], made(4096, 16, 65536));
    strided(&rt, [4096, 17, 0, 1, 4096], refused(Refusal::TooManyCells));
    strided(&rt, [4097, 1, 0, 1, 1], refused(Refusal::TooManyLines));
    strided(&rt, [0, 4097, 0, 0, 0], refused(Refusal::TooManyLines));
    strided(&rt, [4096, 4096, M, M, M], refused(Refusal::TooManyCells));
    // Spans of 4,294,967,296 and one more: a sum that wraps would give 0 and 1.
    strided(&rt, [2, 1, 0, M, 1], refused(Refusal::TooManyCells));
    strided(&rt, [2, 1, M, 1, 1], refused(Refusal::TooManyCells));
    strided(&rt, [1, 1, 65535, M, M], made(1, 1, 65536));
    strided(&rt, [1, 1, 65536, 1, 1], refused(Refusal::TooManyCells));
}

#[test]
fn strided_steps(rt: HostRuntime) {
    strided(&rt, [2, 2, 0, 2, 3], made(2, 2, 6));
    strided(&rt, [3, 2, 0, 2, 3], refused(Refusal::CellsMeet));
    strided(&rt, [2, 2, 0, 1, 1], refused(Refusal::CellsMeet));
    strided(&rt, [2, 2, 0, 2, 1], made(2, 2, 4));
    strided(&rt, [4096, 1, 0, 16, 1], made(4096, 1, 65521));
    strided(&rt, [1, 1, 0, 0, 1], refused(Refusal::CellsMeet));
    strided(&rt, [1, 1, 0, 1, 0], refused(Refusal::CellsMeet));
}

#[test]
fn picked_rows(rt: HostRuntime) {
    picked(&rt, &[], 0, 0, made(0, 0, 0));
    picked(&rt, &[], 4096, 16, made(0, 16, 65536));
    picked(&rt, &[2, 0], 3, 2, made(2, 2, 6));
    picked(&rt, &[0], 0, 0, refused(Refusal::NoSuchLine));
    picked(&rt, &[0, 3], 3, 4097, refused(Refusal::NoSuchLine));
    picked(&rt, &[M], M, 1, refused(Refusal::NoSuchLine));
    picked(&rt, &[0], 4097, 1, refused(Refusal::TooManyLines));
    picked(&rt, &[0], 1, 4097, refused(Refusal::TooManyLines));
    picked(&rt, &[0; 4097], 1, 1, refused(Refusal::TooManyLines));
    picked(&rt, &[0, 0], 4096, 17, refused(Refusal::TooManyCells));
    picked(&rt, &[2, 0, 2], 3, 2, refused(Refusal::CellsMeet));
}

// All 4,096 rows, the last one first.
#[test]
fn all_rows_picked(rt: HostRuntime) {
    let mut list = [0; 4096];
    for (place, row) in list.iter_mut().zip((0..4096).rev()) {
        *place = row;
    }
    picked(&rt, &list, 4096, 16, made(4096, 16, 65536));
    places(
        &rt,
        &Picked::make(&list, 4096, 16),
        &[(0, 15, 65535), (4095, 0, 0)],
    );
    list[4095] = 4095;
    picked(&rt, &list, 4096, 16, refused(Refusal::CellsMeet));
}

// The last ones of each list lie outside the shape.
#[test]
fn cells_have_places(rt: HostRuntime) {
    places(
        &rt,
        &Dense::make(3, 2),
        &[
            (2, 0, 2),
            (0, 1, 3),
            (2, 1, 5),
            (3, 0, 6),
            (0, 2, 6),
            (M, M, 6),
        ],
    );
    places(
        &rt,
        &Strided::make(2, 2, 0, 2, 3),
        &[
            (0, 0, 0),
            (1, 0, 2),
            (0, 1, 3),
            (1, 1, 5),
            (2, 0, 6),
            (0, 2, 6),
            (M, M, 6),
        ],
    );
    places(
        &rt,
        &Strided::make(2, 2, 7, 2, 1),
        &[
            (0, 0, 7),
            (1, 0, 9),
            (0, 1, 8),
            (1, 1, 10),
            (2, 0, 11),
            (0, 2, 11),
        ],
    );
    places(&rt, &Strided::make(3, 2, 0, 2, 3), &[(0, 0, 0), (2, 1, 0)]);
    places(
        &rt,
        &Picked::make(&[2, 0], 3, 2),
        &[
            (0, 0, 2),
            (1, 0, 0),
            (0, 1, 5),
            (1, 1, 3),
            (2, 0, 6),
            (0, 2, 6),
            (M, M, 6),
        ],
    );
}

// A buffer of six cells, read through each layout, whole and one short.
fn read<T: Copy + PartialEq + Debug>(rt: &impl Abort, cells: &[T; 6]) {
    let b = &cells[..];
    let short = &b[0..5];
    let dense = Dense::make(3, 2);
    assert_eq!(rt; get(&dense, b, 2, 1), Some(cells[5]));
    assert_eq!(rt; get(&dense, b, 3, 0), None);
    assert_eq!(rt; get(&dense, b, 0, 2), None);
    assert_eq!(rt; get(&dense, short, 0, 0), None);
    let strided = Strided::make(2, 2, 0, 2, 3);
    assert_eq!(rt; get(&strided, b, 0, 1), Some(cells[3]));
    assert_eq!(rt; get(&strided, b, 2, 0), None);
    assert_eq!(rt; get(&strided, short, 0, 1), None);
    let picked = Picked::make(&[2, 0], 3, 2);
    assert_eq!(rt; get(&picked, b, 0, 1), Some(cells[5]));
    assert_eq!(rt; get(&picked, b, M, M), None);
    assert_eq!(rt; get(&picked, short, 1, 0), None);
}

// The columns of a dense table over six cells.
fn hand_out<T: PartialEq + Debug>(rt: &impl Abort, cells: &[T; 6]) {
    let b = &cells[..];
    let short = &b[0..5];
    let dense = Dense::make(3, 2);
    assert_eq!(rt; column(&dense, b, 0), Ok(&b[0..3]));
    assert_eq!(rt; column(&dense, b, 1), Ok(&b[3..6]));
    assert_eq!(rt; column(&dense, b, 2), Err(Refusal::NoSuchLine));
    assert_eq!(rt; column(&dense, short, M), Err(Refusal::NoSuchLine));
    assert_eq!(rt; column(&dense, short, 0), Err(Refusal::BufferTooShort));
    assert_eq!(rt; column(&Dense::make(0, 2), &b[0..0], 1), Ok(&b[0..0]));
}

// Notes of one weight and quality: the inputs of these examples since they were written.
fn note(n: u32) -> WeighingNote {
    WeighingNote {
        ticket: n,
        kilograms: 1000,
        quality: b'a',
    }
}

#[test]
fn weights_and_notes(rt: HostRuntime) {
    let weights = [1, 2, 3, 4, 5, 6];
    let notes = [note(1), note(2), note(3), note(4), note(5), note(6)];
    read(&rt, &weights);
    read(&rt, &notes);
    hand_out(&rt, &weights);
    hand_out(&rt, &notes);
}

// Reads last year's archive in place, picks and selects growers, and prints what it did.
#![tactic(auto)]

use edition::{select_columns, select_rows, swap_rows};
use layout::indexing::{Picked, get};
use layout::matrix_view::{Strided, column};
use layout::refusal::Refusal;
use layout::storage::{Layout, clone_owned};
use layout::vec_storage::Dense;
use std::io;

// The year, then five growers with three batches each; a 0 parts one grower from the next.
const ARCHIVE: [u32; 20] = [
    2025, 11, 12, 13, 0, 21, 22, 23, 0, 31, 32, 33, 0, 41, 42, 43, 0, 51, 52, 53,
];

fn put_row<L: Layout>(rt: &HostRuntime, layout: &L, cells: &[u32], row: u32) -> io::Result<()> {
    let (_, columns) = layout.shape();
    for c in 0..columns {
        match get(layout, cells, row, c) {
            Some(kilograms) => print!(rt; " {kilograms}")?,
            None => print!(rt; " -")?,
        }
    }
    println!(rt; "")
}

fn put_table<L: Layout>(rt: &HostRuntime, name: &str, layout: &L, cells: &[u32]) -> io::Result<()> {
    let (rows, columns) = layout.shape();
    let span = layout.span();
    println!(rt; "{name}: {rows} x {columns}, span {span}")?;
    for r in 0..rows {
        put_row(rt, layout, cells, r)?;
    }
    Ok(())
}

fn put_answer(rt: &HostRuntime, call: &str, answer: Result<(), Refusal>) -> io::Result<()> {
    match answer {
        Ok(()) => println!(rt; "{call}: done"),
        Err(refusal) => {
            let number = refusal.number();
            println!(rt; "{call}: refused {number}")
        }
    }
}

fn put_cell<L: Layout>(
    rt: &HostRuntime,
    layout: &L,
    cells: &[u32],
    row: u32,
    batch: u32,
) -> io::Result<()> {
    match get(layout, cells, row, batch) {
        Some(kilograms) => println!(rt; "grower {row}, batch {batch}: {kilograms}"),
        None => println!(rt; "grower {row}, batch {batch}: nothing there"),
    }
}

fn put_batch(rt: &HostRuntime, layout: &Dense, cells: &[u32], index: u32) -> io::Result<()> {
    match column(layout, cells, index) {
        Ok(batch) => println!(rt; "batch {index}: {batch:?}"),
        Err(refusal) => put_answer(rt, "a batch handed out", Err(refusal)),
    }
}

// The growers of a list, copied out of the archive.
fn select(rt: &HostRuntime, archive: &Strided) -> io::Result<()> {
    let mut chosen = [0; 9];
    let answer = select_rows(archive, &ARCHIVE, &[3, 0, 3], &mut chosen);
    put_answer(rt, "growers 3, 0 and 3 selected", answer)?;
    put_table(rt, "selected", &Dense::make(3, 3), &chosen)?;
    let answer = select_rows(archive, &ARCHIVE, &[3, 5], &mut chosen);
    put_answer(rt, "growers 3 and 5 selected", answer)
}

// A dense copy of the archive, and two of its growers, seen where they stand.
fn pick(rt: &HostRuntime, archive: &Strided) -> io::Result<()> {
    let mut table = [0; 15];
    let whole = Dense::make(5, 3);
    put_answer(
        rt,
        "archive copied",
        clone_owned(archive, &ARCHIVE, &mut table),
    )?;
    put_batch(rt, &whole, &table, 1)?;
    put_batch(rt, &whole, &table, 3)?;
    put_answer(
        rt,
        "growers 4, 1 and 4 picked",
        Picked::check(&[4, 1, 4], 5, 3),
    )?;
    let picked = Picked::make(&[4, 1], 5, 3);
    put_table(rt, "growers 4 and 1 picked", &picked, &table)?;
    let mut batches = [0; 4];
    let answer = select_columns(&picked, &table, &[2, 0], &mut batches);
    put_answer(rt, "their batches 2 and 0 selected", answer)?;
    put_table(rt, "selected", &Dense::make(2, 2), &batches)?;
    put_answer(rt, "the two swapped", swap_rows(&picked, &mut table, 0, 1))?;
    put_table(rt, "the copy after it", &whole, &table)
}

fn main(rt: HostRuntime) -> io::Result<()> {
    let archive = Strided::make(5, 3, 1, 4, 1);
    put_table(&rt, "archive", &archive, &ARCHIVE)?;
    put_cell(&rt, &archive, &ARCHIVE, 2, 1)?;
    put_cell(&rt, &archive, &ARCHIVE, 5, 0)?;
    put_answer(&rt, "rows two places apart", Strided::check(5, 3, 1, 2, 1))?;
    select(&rt, &archive)?;
    pick(&rt, &archive)
}

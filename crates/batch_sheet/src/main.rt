// Carries out a script from standard input on a sheet of weights, and prints what is said of each line.
#![tactic(auto)]

ghost use Rattle.std.specs.Prelude.{◌≤◌, length, IfOk};

use journal::parts::{NO_ENTRY, NO_RUN};
use layout::vec_storage::Dense;
use session::state::{Lines, Session};
use sheet::sheet::Sheet;
use std::io;
use std::io::{Read, Write};

// So much of the input is read, and no more.
const INPUT: usize = 65536;

// The stores of the script's sheet.
const CELLS: usize = 4096;

const ENTRIES: usize = 64;

const RUNS: usize = 256;

const SAVED: usize = 4096;

// Reads up to the end of the input or of the page, and says how much was read. No `read_to_end` and no `io::copy`: the
// one takes memory of the heap, the other 8,192 bytes more on the stack.
fn fill<R: Read>(input: &mut R, page: &mut [u8]) -> io::Result<usize>
    ensures { IfOk result (λ n. n ≤ length page.old) }
{
    let mut n = 0;
    while n < page.len() {
        let got = input.read(&mut page[n..])?;
        if got == 0 {
            break;
        }
        n += got;
    }
    Ok(n)
}

// Obeys the script, and prints what is said of it whenever enough has come together.
fn obey(rt: &HostRuntime, session: &mut Session<'_, '_>, script: &[u8]) -> anyhow::Result<()> {
    let mut out = Vec::new(rt.alloc());
    let mut lines = Lines::new(script);
    // Until the lines are used up: a turn obeys as many as the text has room for.
    while !lines.is_empty() {
        session.run(&mut lines, &mut out)?;
        rt.stdout().write_all(out.as_slice())?;
        out.clear();
    }
    Ok(())
}

fn run(rt: &HostRuntime) -> anyhow::Result<()> {
    // A page on the stack, as the stores: a script is read without memory of the heap.
    let mut page = [0; INPUT];
    let read = fill(&mut rt.stdin(), &mut page)?;
    let mut cells = [0; CELLS];
    let mut entries = [NO_ENTRY; ENTRIES];
    let mut runs = [NO_RUN; RUNS];
    let mut saved = [0; SAVED];
    let mut sheet = Sheet::open(
        &Dense::make(0, 0),
        &[],
        &mut cells,
        &mut entries,
        &mut runs,
        &mut saved,
    );
    let mut session = Session::new(&mut sheet);
    obey(rt, &mut session, &page[..read])
}

fn main(rt: HostRuntime) -> anyhow::Result<()> {
    run(&rt)
}

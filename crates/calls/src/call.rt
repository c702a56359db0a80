use layout::side::Side;

// A call on a sheet with its numbers; of a gap, that it is opened and filled.
#[derive(Clone, Copy)]
pub enum Call<'l, T> {
    InsertLines(Side, u32, u32, T),
    RemoveLines(Side, u32, u32),
    RemoveLinesAt(Side, &'l [u32]),
    SwapLines(Side, u32, u32),
    FillLines(Side, u32, u32, &'l [T], T),
    ResizeMut(u32, u32, T),
    Undo,
    Settle,
}

ghost use Rattle.edition.specs.Turned.{turn, turn_lawful};

use layout::storage::Layout;

// A layout seen with rows for columns, so that what is written for rows serves for columns too.
#[derive(Drop)]
pub struct Turned<'a, L> {
    pub layout: &'a L,
}

impl<'a, L: Layout> Layout for Turned<'a, L> {
    ghost grid = { λ s. turn (L.Layout.grid s.layout.now) };

    ghost lawful = { λ s. turn_lawful (L.Layout.lawful s.layout.now) };

    fn shape(&self) -> (u32, u32) {
        let (rows, columns) = self.layout.shape();
        (columns, rows)
    }

    fn span(&self) -> u32 {
        self.layout.span()
    }

    fn place(&self, row: u32, column: u32) -> u32 {
        self.layout.place(column, row)
    }
}

ghost use Rattle.edition_tests.specs.Mirror.{mirror, mirror_lawful};

use layout::storage::Layout;

// Any layout with its columns in the opposite order: lawful, and dense over no table of two columns.
#[derive(Drop)]
pub struct Mirrored<L>(pub L);

impl<L: Layout> Layout for Mirrored<L> {
    ghost grid = { λ s. mirror (L.Layout.grid s.0) };

    ghost lawful = { λ s. mirror_lawful (L.Layout.lawful s.0) };

    fn shape(&self) -> (u32, u32) {
        self.0.shape()
    }

    fn span(&self) -> u32 {
        self.0.span()
    }

    fn place(&self, row: u32, column: u32) -> u32 {
        let (_, columns) = self.0.shape();
        if column < columns {
            self.0.place(row, columns - 1 - column)
        } else {
            self.0.span()
        }
    }
}

// The mill's two kinds of cell.

// Kilograms of fruit.
pub type Weight = u32;

// A weighing note: its ticket, the kilograms, and a letter for the quality.
#[derive(Clone, Copy, PartialEq, Eq, Debug)]
pub struct WeighingNote {
    pub ticket: u32,
    pub kilograms: u32,
    pub quality: u8,
}

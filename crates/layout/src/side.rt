// Which lines of a table are meant.
#[derive(Clone, Copy, PartialEq, Eq, Debug)]
pub enum Side {
    Rows,
    Columns,
}

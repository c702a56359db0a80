// Each change's own sentence, of the table, the saved cells and the runs, for rows and for columns, as a law about
// the one definition of a changed table.
ghost use Rattle.model.specs.Sentences.{Exchanging, Gapping, Inserting, Removing, RemovingListed, Resizing};

// insert_rows, insert_columns
pub fn inserting_lines<T>()
    ensures { Inserting T }
{}

// A filled gap, of rows or of columns.
pub fn filling_gaps<T>()
    ensures { Gapping T }
{}

// remove_rows, remove_columns
pub fn removing_lines<T>()
    ensures { Removing T }
{}

// remove_rows_at, remove_columns_at
pub fn removing_listed_lines<T>()
    ensures { RemovingListed T }
{}

// swap_rows, swap_columns
pub fn exchanging_lines<T>()
    ensures { Exchanging T }
{}

// resize_mut
pub fn resizing_tables<T>()
    ensures { Resizing T }
{}

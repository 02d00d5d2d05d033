//! The index of the stored zones: one line of text for each. `print_index` gives exactly the text of some
//! rows, and `read_index` the rows whose text some bytes are, or the first line that is wrong. No two rows
//! have one line, and no two texts are read as the same rows. `push_escaped` gives a path as it stands there.
#![tactic(auto)]

mod fault;
mod laws;
mod printing;
mod reading;
mod rows;

pub use fault::IndexFault;
pub use laws::{one_row_a_line, one_text_for_rows, printed_reads_back, reads_one_way};
pub use printing::{print_index, push_escaped};
pub use reading::read_index;
pub use rows::IndexRow;

//! An input is read a line at a time, over any source: no more of it is kept than the line under way and one piece that was
//! read ahead, and a line that is too long is found without being stored. Contracts say of each call what it took.
#![tactic(auto)]

mod lines;

pub use lines::{Ahead, Got, LINE_MAX, ReadFault, next_line};

//! The input of `live`: what is declared, and what sessions type. All of it is read before anything is run, so that whoever
//! types a line that is none, or too many, is told so while nothing was done.
#![tactic(auto)]

mod reading;

pub use reading::{Ending, LINES_MAX, read_lines};

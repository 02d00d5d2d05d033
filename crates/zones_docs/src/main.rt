//! The test of what is written: each example ends as the files beside its input say, each row of `data/rows` ends as it
//! says itself, and each code that `zones` can print has its paragraph in docs/CODES.md, and each paragraph its code.
//! Copies of the examples and of that page lie in `data/`, where a program that the gate runs may read them;
//! `tools/same_docs.py` makes and compares these. The rows stand there alone.
//!
//! A row is the input of a command, and what a run of it ends with. It is data, and costs no proof, as a test in Rattle
//! does. A file of rows is text of these lines:
//!
//! - a blank line, or one that begins with `#`, says nothing;
//! - `== NAME` begins a row;
//! - `= after NAME` stands first in a row, and puts the lines and the replies of an earlier row before its own;
//! - `= run COMMAND` and `= disk FILE` name the command, where it isn't `trace`, and what is on the disk before, where
//!   something is, and `= left FILE` what is on it afterwards;
//! - `> LINE` is a line of the input, and `>13 LINE` stands for thirteen of them;
//! - `= status N` and `= error LINE` are the status and the line on standard error, where they aren't 0 and nothing;
//! - every other line is one of the replies, which stand below the line that they answer, and together are all that
//!   comes on standard output.
//!
//! A line that is no text, or has no newline at its end, can't be said so: `zones_tests` has the few of these.
#![tactic(auto)]

mod brands;
mod codes;
mod examples;
mod row_files;
mod rows;
mod runs;

use std::io;

fn main(rt: HostRuntime) -> io::Result<()> {
    examples::check(&rt)?;
    row_files::check(&rt)?;
    codes::check(&rt)
}

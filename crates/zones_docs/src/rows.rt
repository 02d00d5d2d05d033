//! Rows, as the files of data/rows write them.
use std::alloc::{AllocError, AllocFailed, Global};
use thiserror::Error;

/// The input of a command, and what its run ends with.
#[derive(Drop)]
pub struct Row {
    pub name: String,
    command: String,
    /// The file of what is on the disk before; empty: there is nothing.
    pub disk: String,
    /// The file of what is on the disk afterwards; empty: that isn't said.
    pub left: String,
    pub lines: String,
    pub replies: String,
    pub status: u8,
    /// The line on standard error, with its newline; empty: there is none.
    pub error: String,
}

/// Why a line of a file says nothing of a row.
#[derive(Clone, Copy, Debug, PartialEq, Eq, Error)]
pub enum RowFault {
    #[error("no memory")]
    Memory,
    #[error("no row has begun")]
    NoRow,
    #[error("no earlier row has this name")]
    UnknownRow,
    #[error("what comes before a row stands first in it")]
    LateRow,
    #[error("not a number")]
    NoNumber,
    #[error("not one of after, run, disk, left, status and error")]
    UnknownWord,
}

impl From<AllocError> for RowFault {
    fn from(_: AllocError) -> Self {
        RowFault::Memory
    }
}

impl<T: Drop> From<AllocFailed<T>> for RowFault {
    fn from(_: AllocFailed<T>) -> Self {
        RowFault::Memory
    }
}

fn push_line(text: &mut String, line: &str) -> Result<(), AllocError> {
    text.push_str(line)?;
    text.push_str("\n")
}

fn find<'a>(rows: &'a [Row], name: &str) -> Result<&'a Row, RowFault> {
    for row in rows {
        if row.name.as_str() == name {
            return Ok(row);
        }
    }
    Err(RowFault::UnknownRow)
}

impl Row {
    fn new(alloc: Global, name: &str) -> Result<Row, AllocError> {
        Ok(Row {
            name: String::from_str(alloc, name)?,
            command: String::new(alloc),
            disk: String::new(alloc),
            left: String::new(alloc),
            lines: String::new(alloc),
            replies: String::new(alloc),
            status: 0,
            error: String::new(alloc),
        })
    }

    /// The command that is run: `trace`, where the row names no other.
    pub fn command(&self) -> &str {
        if self.command.is_empty() {
            "trace"
        } else {
            self.command.as_str()
        }
    }

    // `typed` is what follows the `>`: how many times the line comes, if more than once, a space, and the line.
    fn push_typed(&mut self, typed: &str) -> Result<(), RowFault> {
        let (times, line) = typed.split_once(' ').unwrap_or((typed, ""));
        let times = match times {
            "" => 1,
            _ => times.parse::<u16>().map_err(|_| RowFault::NoNumber)?,
        };
        for _ in 0..times {
            push_line(&mut self.lines, line)?;
        }
        Ok(())
    }

    // The lines of another row and their replies come before those of this one.
    fn go_on_from(&mut self, row: &Row) -> Result<(), RowFault> {
        if !self.lines.is_empty() || !self.replies.is_empty() {
            return Err(RowFault::LateRow);
        }
        self.lines.push_str(row.lines.as_str())?;
        self.replies.push_str(row.replies.as_str())?;
        Ok(())
    }

    fn set(&mut self, earlier: &[Row], word: &str, value: &str) -> Result<(), RowFault> {
        match word {
            "after" => self.go_on_from(find(earlier, value)?)?,
            "run" => self.command.push_str(value)?,
            "disk" => self.disk.push_str(value)?,
            "left" => self.left.push_str(value)?,
            "status" => self.status = value.parse::<u8>().map_err(|_| RowFault::NoNumber)?,
            "error" => push_line(&mut self.error, value)?,
            _ => return Err(RowFault::UnknownWord),
        }
        Ok(())
    }

    fn take_line(&mut self, earlier: &[Row], line: &str) -> Result<(), RowFault> {
        if let Some(typed) = line.strip_prefix('>') {
            self.push_typed(typed)
        } else if let Some(said) = line.strip_prefix("= ") {
            let (word, value) = said.split_once(' ').unwrap_or((said, ""));
            self.set(earlier, word, value)
        } else {
            Ok(push_line(&mut self.replies, line)?)
        }
    }
}

// Reads a line of a file, before which so many rows were there. The last row is the one that it says something of.
fn read_line(
    alloc: Global,
    rows: &mut Vec<Row>,
    before: usize,
    line: &str,
) -> Result<(), RowFault> {
    if line.is_empty() || line.starts_with('#') {
        return Ok(());
    }
    if let Some(name) = line.strip_prefix("== ") {
        rows.push(Row::new(alloc, name)?)?;
        return Ok(());
    }
    if rows.len() <= before {
        return Err(RowFault::NoRow);
    }
    let Some(mut row) = rows.pop() else {
        return Err(RowFault::NoRow);
    };
    let taken = row.take_line(rows, line);
    rows.push(row)?;
    taken
}

/// Reads the rows of a file after those of other files. Where a line is faulty, it answers its number too.
pub fn read_rows(alloc: Global, rows: &mut Vec<Row>, text: &str) -> Result<(), (u64, RowFault)> {
    let before = rows.len();
    let mut number = 0u64;
    for line in text.lines() {
        number = number.saturating_add(1);
        if let Err(fault) = read_line(alloc, rows, before, line) {
            return Err((number, fault));
        }
    }
    Ok(())
}

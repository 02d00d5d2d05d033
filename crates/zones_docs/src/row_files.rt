//! The files of rows, and the runs of what they say.
use crate::rows::{Row, read_rows};
use crate::runs::run_on;
use std::rt::Files;
use std::{fs, io, str};

// A row may go on from one of an earlier file.
const FILES: &[(&str, &str)] = &[
    ("lives", "rows/lives.rows"),
    ("traces", "rows/traces.rows"),
    ("trace_lines", "rows/trace_lines.rows"),
    ("declarations", "rows/declarations.rows"),
    ("exports", "rows/exports.rows"),
    ("commits", "rows/commits.rows"),
    ("sessions", "rows/sessions.rows"),
    ("session_commits", "rows/session_commits.rows"),
    ("requests", "rows/requests.rows"),
    ("listings", "rows/listings.rows"),
    ("stored", "rows/stored.rows"),
    ("stores", "rows/stores.rows"),
    ("processes", "rows/processes.rows"),
    ("mounts", "rows/mounts.rows"),
    ("holds", "rows/holds.rows"),
    ("logins", "rows/logins.rows"),
    ("consoles", "rows/consoles.rows"),
    ("restarts", "rows/restarts.rows"),
    ("scripts", "rows/scripts.rows"),
    ("indexes", "rows/indexes.rows"),
    ("calls_alone", "rows/calls_alone.rows"),
    ("purges", "rows/purges.rows"),
    ("givens", "rows/givens.rows"),
    ("bulks", "rows/bulks.rows"),
];

// The first line in which two texts differ, as each of them has it; a text that ends before has nothing.
fn difference<'a>(told: &'a str, wanted: &'a str) -> (&'a str, &'a str) {
    let mut lines = told.lines();
    for line in wanted.lines() {
        let other = lines.next().unwrap_or("");
        if other != line {
            return (other, line);
        }
    }
    (lines.next().unwrap_or(""), "")
}

// Whether a stream got what is written; it prints where that differs.
fn is_same(rt: &impl Print, stream: &str, told: &[u8], wanted: &str) -> io::Result<bool> {
    if told == wanted.as_bytes() {
        return Ok(true);
    }
    let (other, line) = difference(str::from_utf8(told).unwrap_or("NO TEXT"), wanted);
    println!(rt; "on {stream} {line:?} is written, and {other:?} came")?;
    Ok(false)
}

// What is on the disk before a row.
fn disk_of(rt: &(impl Files + AllocGlobal), row: &Row) -> io::Result<Vec<u8>> {
    if row.disk.is_empty() {
        Ok(Vec::new(rt.alloc()))
    } else {
        fs::read(rt, row.disk.as_str())
    }
}

// Whether the disk has what is written that a row leaves, where that is said; it prints where that differs.
fn is_left(rt: &(impl Files + Print + AllocGlobal), row: &Row, store: &[u8]) -> io::Result<bool> {
    if row.left.is_empty() || fs::read(rt, row.left.as_str())?.as_slice() == store {
        return Ok(true);
    }
    println!(rt; "{} is written, and the disk has something else", row.left)?;
    Ok(false)
}

// Whether a row ends as it is written; it prints what differs.
fn is_kept(rt: &(impl Files + Print + AllocGlobal), row: &Row) -> io::Result<bool> {
    let disk = disk_of(rt, row)?;
    let lines = row.lines.as_bytes().to_vec(rt.alloc())?;
    let ended = run_on(rt.alloc(), row.command(), lines, disk)?;
    let out = is_same(
        rt,
        "standard output",
        ended.out.bytes(),
        row.replies.as_str(),
    )?;
    let err = is_same(rt, "standard error", ended.err.bytes(), row.error.as_str())?;
    let left = is_left(rt, row, &ended.store)?;
    if ended.status != row.status {
        println!(rt;
            "status {} is written, and {} came",
            row.status, ended.status
        )?;
    }
    Ok(out && err && left && ended.status == row.status)
}

// Runs the rows after those of other files.
fn check_rows(
    rt: &(impl Files + Print + AllocGlobal),
    subject: &str,
    rows: &[Row],
    before: usize,
) -> io::Result<()> {
    let mut kept = 0u64;
    for row in rows.iter().skip(before) {
        if is_kept(rt, row)? {
            kept = kept.saturating_add(1);
        } else {
            println!(rt; "{subject}: {} DIFFERS", row.name)?;
        }
    }
    println!(rt; "{subject}: {kept} rows as written")
}

/// Runs each row of each file, and prints how many end as they are written, and what differs in the others.
pub fn check(rt: &(impl Files + Print + AllocGlobal)) -> io::Result<()> {
    let mut rows = Vec::new(rt.alloc());
    for (subject, file) in FILES {
        let before = rows.len();
        let text = fs::read_to_string(rt, *file)?;
        if let Err((line, fault)) = read_rows(rt.alloc(), &mut rows, text.as_str()) {
            println!(rt; "{file}, line {line}: {fault}")?;
            return Err(io::Error::from(io::ErrorKind::InvalidData));
        }
        check_rows(rt, subject, &rows, before)?;
    }
    Ok(())
}

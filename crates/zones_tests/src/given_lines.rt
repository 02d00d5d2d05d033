//! Lines of traces whose events are behind what they were given, and what they say.
use crate::kept::Kept;
use crate::texts::is_same;
use std::alloc::Global;
use std::process::Abort;
use std::test::Fail;
use trace_text::{LineFault, print_line, read_given};
use zone_cases::Event;
use zone_pools::{Grant, Pool};

// What a line is to say: nothing, a grant and an event that is printed so, or a fault.
type Wanted = Result<Option<(Grant, &'static [u8])>, LineFault>;

type Given = Result<Option<(Grant, Event)>, LineFault>;

fn given_of(alloc: Global, line: &[u8], started: bool) -> Given {
    if line.len() > 4096 {
        return Ok(None);
    }
    read_given(alloc, line, started)
}

fn is_event(alloc: Global, event: &Event, text: &[u8]) -> Result<bool, Fail> {
    Ok(is_same(&print_line(alloc, event)?, text))
}

fn is_read(alloc: Global, read: &Given, wanted: &Wanted) -> Result<bool, Fail> {
    match (read, wanted) {
        (Ok(None), Ok(None)) => Ok(true),
        (Ok(Some((grant, event))), Ok(Some((stated, text)))) => {
            Ok(grant == stated && is_event(alloc, event, text)?)
        }
        (Err(LineFault::Memory), _) => Err(LineFault::Memory.into()),
        (Err(fault), Err(wanted)) => Ok(fault == wanted),
        _ => Ok(false),
    }
}

fn says(alloc: Global, line: &[u8], started: bool, wanted: &Wanted) -> Result<bool, Fail> {
    let read = Kept(given_of(alloc, line, started));
    is_read(alloc, &read.0, wanted)
}

fn check(
    rt: &impl Abort,
    alloc: Global,
    started: bool,
    rows: &[(&[u8], Wanted)],
) -> Result<(), Fail> {
    for (line, wanted) in rows {
        assert!(rt; says(alloc, line, started, wanted)?, "{line:?}");
    }
    Ok(())
}

const LINES: &[(&[u8], Wanted)] = &[
    (b"", Ok(None)),
    (b"   ", Ok(None)),
    (b"# @- D a\xff", Ok(None)),
    // Each grant.
    (b"@- D a", Ok(Some((Grant::Nothing, b"D a")))),
    (b"@0 D a", Ok(Some((Grant::Number(0), b"D a")))),
    (
        b"@7 P b 3 fork y",
        Ok(Some((Grant::Number(7), b"P b 3 fork y"))),
    ),
    (
        b"@4294967295 D a",
        Ok(Some((Grant::Number(4294967295), b"D a"))),
    ),
    (b"@yes D a", Ok(Some((Grant::Yes, b"D a")))),
    (
        b"@no pids P a 2 fork x",
        Ok(Some((Grant::Denied(Pool::Pids), b"P a 2 fork x"))),
    ),
    (
        b"@no zids D a",
        Ok(Some((Grant::Denied(Pool::Zids), b"D a"))),
    ),
    (
        b"@no zones S 1 x",
        Ok(Some((Grant::Denied(Pool::Zones), b"S 1 x"))),
    ),
    (
        b"@no paths S 1 x",
        Ok(Some((Grant::Denied(Pool::Paths), b"S 1 x"))),
    ),
    (
        b"@no store D a",
        Ok(Some((Grant::Denied(Pool::Store), b"D a"))),
    ),
    (
        b"@no links D a",
        Ok(Some((Grant::Denied(Pool::Links), b"D a"))),
    ),
    (
        b"@no addresses D a",
        Ok(Some((Grant::Denied(Pool::Addresses), b"D a"))),
    ),
    (
        b"@no datasets D a",
        Ok(Some((Grant::Denied(Pool::Datasets), b"D a"))),
    ),
    (
        b"@no source D a",
        Ok(Some((Grant::Denied(Pool::Source), b"D a"))),
    ),
    // Events of other kinds; a text keeps its spaces.
    (b"@- S 1", Ok(Some((Grant::Nothing, b"S 1")))),
    (b"@- S 1 ", Ok(Some((Grant::Nothing, b"S 1")))),
    (
        b"@2 S 64  a  b ",
        Ok(Some((Grant::Number(2), b"S 64  a  b "))),
    ),
    (
        b"@- Y link net0",
        Ok(Some((Grant::Nothing, b"Y link net0"))),
    ),
    (b"@- R", Ok(Some((Grant::Nothing, b"R")))),
    // No grant, or none of these forms.
    (b"D a", Err(LineFault::GrantForm)),
    (b" @- D a", Err(LineFault::GrantForm)),
    (b"@", Err(LineFault::GrantForm)),
    (b"@ D a", Err(LineFault::GrantForm)),
    (b"@-", Err(LineFault::GrantForm)),
    (b"@-D a", Err(LineFault::GrantForm)),
    (b"@--- D a", Err(LineFault::GrantForm)),
    (b"@-1 D a", Err(LineFault::GrantForm)),
    (b"@00 D a", Err(LineFault::GrantForm)),
    (b"@07 D a", Err(LineFault::GrantForm)),
    (b"@1x D a", Err(LineFault::GrantForm)),
    (b"@4294967296 D a", Err(LineFault::GrantForm)),
    (b"@YES D a", Err(LineFault::GrantForm)),
    (b"@yes", Err(LineFault::GrantForm)),
    (b"@no D a", Err(LineFault::GrantForm)),
    (b"@no pid D a", Err(LineFault::GrantForm)),
    (b"@no  pids D a", Err(LineFault::GrantForm)),
    (b"@no pids", Err(LineFault::GrantForm)),
    (b"@no", Err(LineFault::GrantForm)),
    // Behind a grant stands an event, and no second grant.
    (b"@- ", Err(LineFault::BadTag)),
    (b"@no pids ", Err(LineFault::BadTag)),
    (b"@-    ", Err(LineFault::BadTag)),
    (b"@-  D a", Err(LineFault::BadTag)),
    (b"@- # D a", Err(LineFault::BadTag)),
    (b"@- Q", Err(LineFault::BadTag)),
    (b"@- @- D a", Err(LineFault::GrantForm)),
    (b"@yes @", Err(LineFault::GrantForm)),
    // Places count from the beginning of the line.
    (b"@- D", Err(LineFault::BadWord(4))),
    (b"@- D a b", Err(LineFault::BadWord(7))),
    (b"@- R x", Err(LineFault::BadWord(5))),
    (b"@no addresses S 65 x", Err(LineFault::BadWord(16))),
    (b"@12 P a 2 fork", Err(LineFault::BadWord(14))),
    (b"@yes S 1 a\tb", Err(LineFault::BadWord(10))),
    (b"@- Y link a b", Err(LineFault::BadWord(12))),
];

#[test]
fn lines_say_grants_and_events(rt: HostRuntime) -> Result<(), Fail> {
    check(&rt, rt.alloc(), false, LINES)
}

// Where an event other than a declaration has come before.
const LATER: &[(&[u8], Wanted)] = &[
    (b"@- Y link a", Err(LineFault::SysAfterStart)),
    (b"@- Y link", Err(LineFault::BadWord(9))),
    (b"@yes R", Ok(Some((Grant::Yes, b"R")))),
];

#[test]
fn no_declaration_is_late(rt: HostRuntime) -> Result<(), Fail> {
    check(&rt, rt.alloc(), true, LATER)
}

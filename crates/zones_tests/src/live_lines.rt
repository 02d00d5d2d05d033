//! Lines of live sessions, and what they say.
use crate::kept::Kept;
use crate::trace_lines::{Said, is_read};
use datalink_table::ClaimKind;
use std::alloc::Global;
use std::process::Abort;
use std::test::Fail;
use trace_text::{LineFault, read_live};
use zone_cases::Event;

fn live_of(alloc: Global, line: &[u8], started: bool) -> Result<Option<Event>, LineFault> {
    if line.len() > 4096 {
        return Ok(None);
    }
    read_live(alloc, line, started)
}

fn says(alloc: Global, line: &[u8], started: bool, said: &Said) -> Result<bool, Fail> {
    let read = Kept(live_of(alloc, line, started));
    is_read(alloc, &read.0, said)
}

fn check(
    rt: &impl Abort,
    alloc: Global,
    started: bool,
    rows: &[(&[u8], Said)],
) -> Result<(), Fail> {
    for (line, said) in rows {
        assert!(rt; says(alloc, line, started, said)?, "{line:?}");
    }
    Ok(())
}

const LINES: &[(&[u8], Said)] = &[
    (b"", Said::Nothing),
    (b"   ", Said::Nothing),
    (b"# D a\xff", Said::Nothing),
    (
        b"S 1 zoneadm -z a boot",
        Said::Types(1, b"zoneadm -z a boot"),
    ),
    (b"S 64  x ", Said::Types(64, b" x ")),
    (b"S 2", Said::Types(2, b"")),
    (b"S 2 D a", Said::Types(2, b"D a")),
    (b"S 2 D a", Said::Prints(b"S 2 D a")),
    (b"Y link net0", Said::Item(ClaimKind::Link, b"net0")),
    (
        b"Y address 10.0.0.1",
        Said::Item(ClaimKind::Address, b"10.0.0.1"),
    ),
    (
        b"Y dataset rpool/a",
        Said::Item(ClaimKind::Dataset, b"rpool/a"),
    ),
    (b"Y device /dev/null", Said::Device(b"/dev/null")),
    // The tags that a trace alone has, before any word behind them.
    (b"D a", Said::Fault(LineFault::BadTag)),
    (b"D", Said::Fault(LineFault::BadTag)),
    (b"D a b", Said::Fault(LineFault::BadTag)),
    (b"P a 2 fork sh", Said::Fault(LineFault::BadTag)),
    (b"P a x", Said::Fault(LineFault::BadTag)),
    (b"R", Said::Fault(LineFault::BadTag)),
    (b"R x", Said::Fault(LineFault::BadTag)),
    (b"R \xff", Said::Fault(LineFault::BadTag)),
    // What is no line of a trace either.
    (b"Q", Said::Fault(LineFault::BadTag)),
    (b"Da", Said::Fault(LineFault::BadTag)),
    (b" S 1", Said::Fault(LineFault::BadTag)),
    (b"@- S 1 x", Said::Fault(LineFault::GrantForm)),
    (b"@- D a", Said::Fault(LineFault::GrantForm)),
    (b"S", Said::Fault(LineFault::BadWord(1))),
    (b"S 65 x", Said::Fault(LineFault::BadWord(2))),
    (b"S 1 a\tb", Said::Fault(LineFault::BadWord(5))),
    (b"Y link a b", Said::Fault(LineFault::BadWord(9))),
];

#[test]
fn live_lines_say_what_is_typed_or_declared(rt: HostRuntime) -> Result<(), Fail> {
    check(&rt, rt.alloc(), false, LINES)
}

// Where a session's line has come before.
const LATER: &[(&[u8], Said)] = &[
    (b"S 1 x", Said::Types(1, b"x")),
    (b"Y link a", Said::Fault(LineFault::SysAfterStart)),
    (b"Y link", Said::Fault(LineFault::BadWord(6))),
    (b"R", Said::Fault(LineFault::BadTag)),
];

#[test]
fn no_declaration_is_late_among_live_sessions(rt: HostRuntime) -> Result<(), Fail> {
    check(&rt, rt.alloc(), true, LATER)
}

//! Runs of one session, whose record is one alone, and what ends a run.
use crate::brands::{Hook, make_brands, proceeds};
use crate::gates::OpenGate;
use crate::runs::{Ended, Given, LIVE, run};
use std::alloc::{AllocError, Global};
use std::process::Abort;
use std::sync::Wait;
use std::test::*;
use std::thread::Threads;

const USAGE: &[u8] = b"usage: zones export|script|trace|given|purge ZONE|index|bulk N|live\n";

/// What a run is given, and its status, standard output and standard error.
type Row = (Given<'static>, u8, &'static [u8], &'static [u8]);

fn is_same(told: &[u8], wanted: &[u8]) -> bool {
    told == wanted
}

fn is_ended(ended: &Ended, status: u8, out_text: &[u8], err_text: &[u8]) -> bool {
    ended.status == status
        && is_same(ended.out.bytes(), out_text)
        && is_same(ended.err.bytes(), err_text)
}

fn ends<R: Threads + Wait + Sync + AllocGlobal>(
    rt: &R,
    given: &Given,
    status: u8,
    out_text: &[u8],
    err_text: &[u8],
) -> Result<bool, Fail> {
    let hook: Hook = proceeds;
    let brands = make_brands(rt.alloc(), hook)?;
    let ended = run(rt, rt.alloc(), given, &brands, &OpenGate)?;
    Ok(is_ended(&ended, status, out_text, err_text))
}

fn check<R: Threads + Wait + Sync + Abort + AllocGlobal>(rt: &R, rows: &[Row]) -> Result<(), Fail> {
    for (at, (given, status, out_text, err_text)) in rows.iter().enumerate() {
        let is_so = ends(rt, given, *status, out_text, err_text)?;
        assert!(rt; is_so, "row {at}");
    }
    Ok(())
}

const WORDS: &[Row] = &[
    (Given { words: &[], ..LIVE }, 2, b"", USAGE),
    (
        Given {
            words: &["live", "x"],
            input: b"S 1 zoneadm list\n",
            ..LIVE
        },
        2,
        b"",
        USAGE,
    ),
    (
        Given {
            words: &["trace"],
            ..LIVE
        },
        2,
        b"",
        USAGE,
    ),
    (LIVE, 0, b"", b""),
];

#[test]
fn words_are_live_alone(rt: HostRuntime) -> Result<(), Fail> {
    check(&rt, WORDS)
}

// A zone is made, installed and booted by one session.
const WEB: &[u8] = b"Y link net0
S 1 zonecfg -z web create -b; set zonepath=/zones/web; set brand=ipkg
S 1 zoneadm -z web install
S 1 zoneadm list
";

const WEB_RECORD: &[u8] = b"> @- Y link net0
* ok
> @1 S 1 zonecfg -z web create -b; set zonepath=/zones/web; set brand=ipkg
web ok
> @- S 1 zoneadm -z web install
web ticket 1
> @- D web
web began 1 install
> @- D web
web step hook before install
> @2 D web
web step record incomplete
> @- D web
web step copy 1
> @- D web
web step copy 2
> @- D web
web step copy 3
> @- D web
web step copy 4
> @3 D web
web step record installed
> @- D web
web step hook after install
> @- D web
web finished 1 ok
> @- S 1 zoneadm list
global ok
| global
";

const RECORDS: &[Row] = &[
    (
        Given {
            input: b"S 1 zoneadm list\n",
            ..LIVE
        },
        0,
        b"> @- S 1 zoneadm list\nglobal ok\n| global\n",
        b"",
    ),
    // The last newline may be missing, and blank lines and comments say nothing.
    (
        Given {
            input: b"# a comment\n\nS 64 zoneadm list",
            ..LIVE
        },
        0,
        b"> @- S 64 zoneadm list\nglobal ok\n| global\n",
        b"",
    ),
    (Given { input: WEB, ..LIVE }, 0, WEB_RECORD, b""),
];

#[test]
fn records_of_one_session(rt: HostRuntime) -> Result<(), Fail> {
    check(&rt, RECORDS)
}

const ENDED: &[Row] = &[
    // A refused entry: the second one of the record.
    (
        Given {
            input: b"S 1 zoneadm list\nS 1 zoneadm -z web boot\n",
            ..LIVE
        },
        1,
        b"> @- S 1 zoneadm list\nglobal ok\n| global\n> @- S 1 zoneadm -z web boot\nweb err 90 NoZone\n",
        b"first refused entry: 2\n",
    ),
    // A line outside the grammar: nothing is run.
    (
        Given {
            input: b"S 1 zoneadm list\nQ\n",
            ..LIVE
        },
        3,
        b"",
        b"line 2: 101 BadTag\n",
    ),
    (
        Given {
            input: b"D web\n",
            ..LIVE
        },
        3,
        b"",
        b"line 1: 101 BadTag\n",
    ),
    (
        Given {
            input: b"S 1 zoneadm list\nY link net0\n",
            ..LIVE
        },
        3,
        b"",
        b"line 2: 104 SysAfterStart\n",
    ),
    (
        Given {
            input: b"S 65 zoneadm list\n",
            ..LIVE
        },
        3,
        b"",
        b"line 1: 102 BadWord 2\n",
    ),
    // The source fails at its first call.
    (
        Given {
            input: b"S 1 zoneadm list\n",
            reads: &[1],
            ..LIVE
        },
        4,
        b"",
        b"read fault\n",
    ),
    // Standard output fails.
    (
        Given {
            input: b"S 1 zoneadm list\n",
            outs: &[1],
            ..LIVE
        },
        5,
        b"",
        b"write fault\n",
    ),
    // Standard error fails where a refusal is to be told.
    (
        Given {
            input: b"S 1 zoneadm -z web boot\n",
            errs: &[1],
            ..LIVE
        },
        5,
        b"> @- S 1 zoneadm -z web boot\nweb err 90 NoZone\n",
        b"write fault\n",
    ),
    // The disk fails at its first call.
    (
        Given {
            input: b"S 1 zoneadm list\n",
            calls: &[1],
            ..LIVE
        },
        6,
        b"",
        b"disk fault\n",
    ),
    // The disk is no store.
    (
        Given {
            input: b"S 1 zoneadm list\n",
            disk: b"\x01b",
            ..LIVE
        },
        7,
        b"",
        b"not a store: 61 NotAStore 1\n",
    ),
];

#[test]
fn what_ends_a_run(rt: HostRuntime) -> Result<(), Fail> {
    check(&rt, ENDED)
}

// So many lines that say nothing.
fn lines(alloc: Global, many: u64) -> Result<Vec<u8>, AllocError> {
    let mut text = Vec::new(alloc);
    for _ in 0..many {
        text.push(b'\n')?;
    }
    Ok(text)
}

// The input has 4,000 lines at most, of 4,096 bytes at most.
#[test]
fn limits(rt: HostRuntime) -> Result<(), Fail> {
    let alloc = rt.alloc();
    let full = lines(alloc, 4000)?;
    let given = Given {
        input: &full,
        ..LIVE
    };
    assert!(rt; ends(&rt, &given, 0, b"", b"")?);
    let over = lines(alloc, 4001)?;
    let given = Given {
        input: &over,
        ..LIVE
    };
    assert!(rt; ends(&rt, &given, 8, b"", b"limit at line 4001\n")?);
    let mut long = Vec::new(alloc);
    long.extend_from_slice(b"S 1 zoneadm list\n")?;
    for _ in 0..4097 {
        long.push(b' ')?;
    }
    let given = Given {
        input: &long,
        ..LIVE
    };
    assert!(rt; ends(&rt, &given, 8, b"", b"limit at line 2\n")?);
    Ok(())
}

// The disk fails at each of its calls in turn: what was done till then is written, and the run says so.
#[test]
fn each_disk_call_fails(rt: HostRuntime) -> Result<(), Fail> {
    let alloc = rt.alloc();
    let hook: Hook = proceeds;
    let brands = make_brands(alloc, hook)?;
    for call in 1..64 {
        let calls = [call];
        let given = Given {
            input: WEB,
            calls: &calls,
            ..LIVE
        };
        let ended = run(&rt, alloc, &given, &brands, &OpenGate)?;
        if ended.status == 0 {
            assert!(rt; call > 8);
            return Ok(());
        }
        assert_eq!(rt; ended.status, 6);
        assert!(rt; is_same(ended.err.bytes(), b"disk fault\n"));
        let told = ended.out.bytes();
        let all = WEB_RECORD.get(..told.len());
        assert!(rt;
            matches!(all, Some(front) if is_same(told, front)),
            "call {call}"
        );
    }
    assert!(rt; false);
    Ok(())
}

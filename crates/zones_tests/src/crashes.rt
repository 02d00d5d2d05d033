//! Runs of a trace that end within a call of the disk, a read or a write: what each crash leaves, as the next run finds it.
ghost use Rattle.std.specs.Prelude.{◌<◌};

use crate::runs::{Ended, Given, run};
use crate::texts::is_same;
use crate::traces::TRACED;
use std::alloc::Global;
use std::test::Fail;
use zn_io::{Fill, MemDisk};

// Two zones are made, installed and booted, and have processes.
const LINES: &[u8] = b"S 1 zonecfg -z a create -b; set zonepath=/zones/a; set brand=ipkg
S 1 zonecfg -z b create -b; set zonepath=/zones/b; set brand=ipkg
S 1 zoneadm -z a install
D a\nD a\nD a\nD a\nD a\nD a\nD a\nD a\nD a\nD a
S 2 zoneadm -z b install
D b\nD b\nD b\nD b\nD b\nD b\nD b\nD b\nD b\nD b
S 1 zoneadm -z a boot
D a\nD a\nD a\nD a\nD a\nD a\nD a\nD a\nD a\nD a\nD a\nD a\nD a
S 2 zoneadm -z b boot
D b\nD b\nD b\nD b\nD b\nD b\nD b\nD b\nD b\nD b\nD b\nD b\nD b
P a 2 fork x
P b 3 fork y
P b 3 ps
";

const RUN: Given<'static> = Given {
    input: LINES,
    ..TRACED
};

// The replies to the six events that store a record, each after the replies that come before it.
const CHANGES: [(&[u8], &[u8]); 6] = [
    (b"", b"a ok\n"),
    (b"", b"b ok\n"),
    (
        b"a ticket 1
a began 1 install
a step hook before install
",
        b"a step record incomplete\n",
    ),
    (
        b"a step copy 1
a step copy 2
a step copy 3
a step copy 4
",
        b"a step record installed\n",
    ),
    (
        b"a step hook after install
a finished 1 ok
b ticket 1
b began 1 install
b step hook before install
",
        b"b step record incomplete\n",
    ),
    (
        b"b step copy 1
b step copy 2
b step copy 3
b step copy 4
",
        b"b step record installed\n",
    ),
];

// The replies after these.
const REST: &[u8] = b"b step hook after install
b finished 1 ok
a ticket 2
a began 2 boot
a step hook before ready
a step zid 1
a step limits
a step devices 0
a step root
a step state ready
a step hook after ready
a step hook before boot
a step init 2
a step state running
a step hook after boot
a finished 2 ok
b ticket 2
b began 2 boot
b step hook before ready
b step zid 2
b step limits
b step devices 0
b step root
b step state ready
b step hook after ready
b step hook before boot
b step init 3
b step state running
b step hook after boot
b finished 2 ok
a ok
| child 4
b ok
| child 5
b ok
| 3 0 init
| 5 3 y
";

// A halt begins in no state that is stored, so what it is answered tells the state.
const ASKING: Given<'static> = Given {
    input: b"S 1 zoneadm -z a halt\nD a\nS 2 zoneadm -z b halt\nD b\n",
    ..TRACED
};

// What a run is told of the zones after so many of the changes.
const TOLD: [&[u8]; 7] = [
    b"a err 90 NoZone
a idle
b err 90 NoZone
b idle
",
    b"a ticket 1
a finished 1 err 81 WrongState configured
b err 90 NoZone
b idle
",
    b"a ticket 1
a finished 1 err 81 WrongState configured
b ticket 1
b finished 1 err 81 WrongState configured
",
    b"a ticket 1
a finished 1 err 81 WrongState incomplete
b ticket 1
b finished 1 err 81 WrongState configured
",
    b"a ticket 1
a finished 1 err 81 WrongState installed
b ticket 1
b finished 1 err 81 WrongState configured
",
    b"a ticket 1
a finished 1 err 81 WrongState installed
b ticket 1
b finished 1 err 81 WrongState incomplete
",
    b"a ticket 1
a finished 1 err 81 WrongState installed
b ticket 1
b finished 1 err 81 WrongState installed
",
];

const FILLS: [Fill; 5] = [
    Fill::Old,
    Fill::New,
    Fill::Byte(0),
    Fill::Byte(1),
    Fill::Byte(255),
];

// How many of the changes are answered in a text, and what stands after their replies.
fn answered(text: &[u8]) -> (usize, &[u8]) {
    let mut rest = text;
    for (number, (before, reply)) in CHANGES.iter().enumerate() {
        let Some(after) = rest.strip_prefix(*before) else {
            return (number, rest);
        };
        let Some(after) = after.strip_prefix(*reply) else {
            return (number, rest);
        };
        rest = after;
    }
    (CHANGES.len(), rest)
}

// Whether a run is told of the zones after so many of the changes.
fn is_told(text: &[u8], number: usize) -> bool {
    number < TOLD.len() && is_same(text, TOLD[number])
}

// The next run after a crash finds the zones as so many changes leave them, or as so many others do.
fn finds(
    alloc: Global,
    disk: &MemDisk,
    fill: Fill,
    stored: usize,
    may_be: usize,
) -> Result<bool, Fail> {
    let image = disk.after_crash(alloc, fill)?;
    let given = Given {
        disk: &image,
        ..ASKING
    };
    let ended = run(alloc, &given, 64)?;
    let text = ended.out.bytes();
    Ok(ended.status == 1 && (is_told(text, stored) || is_told(text, may_be)))
}

// Whatever a crash leaves at the end of a run.
fn finds_any(alloc: Global, disk: &MemDisk, stored: usize, may_be: usize) -> Result<bool, Fail> {
    for fill in FILLS {
        if !finds(alloc, disk, fill, stored, may_be)? {
            return Ok(false);
        }
    }
    Ok(true)
}

// Whether a run ended with this status and this text, and left the zones as so many changes do, or as so many others.
fn leaves(
    alloc: Global,
    ended: &Ended,
    status: u8,
    err_text: &[u8],
    stored: usize,
    may_be: usize,
) -> Result<bool, Fail> {
    Ok(
        ended.status == status
            && is_same(ended.err.bytes(), err_text)
            && finds_any(alloc, &ended.disk, stored, may_be)?,
    )
}

// A run was answered to its end; or its disk failed, and the replies to all events before the one under way are written.
fn is_answered(alloc: Global, ended: &Ended) -> Result<bool, Fail> {
    let (number, rest) = answered(ended.out.bytes());
    if number < CHANGES.len() {
        Ok(
            is_same(rest, CHANGES[number].0)
                && leaves(alloc, ended, 6, b"disk fault\n", number, number + 1)?,
        )
    } else {
        Ok(is_same(rest, REST) && leaves(alloc, ended, 0, b"", number, number)?)
    }
}

fn ends(alloc: Global, given: &Given, status: u8) -> Result<bool, Fail> {
    let ended = run(alloc, given, 64)?;
    Ok(ended.status == status && is_answered(alloc, &ended)?)
}

// Whether runs end with a status over a disk that fails from a call on, and over one that fails at this call alone.
fn both_end(alloc: Global, call: u64, status: u8) -> Result<bool, Fail> {
    let calls = [call];
    let stopped = Given {
        stop: Some(call),
        ..RUN
    };
    let failed = Given {
        calls: &calls,
        ..RUN
    };
    Ok(ends(alloc, &stopped, status)? && ends(alloc, &failed, status)?)
}

// How many calls of the disk a run makes.
fn calls_of(alloc: Global, input: &[u8]) -> Result<u64, Fail> {
    for call in 1..64 {
        let given = Given {
            input,
            stop: Some(call),
            ..RUN
        };
        if run(alloc, &given, 64)?.status == 0 {
            return Ok(call - 1);
        }
    }
    Ok(64)
}

#[test]
fn a_record_costs_four_calls_of_the_disk(rt: HostRuntime) -> Result<(), Fail> {
    let opening = calls_of(rt.alloc(), b"")?;
    let whole = calls_of(rt.alloc(), LINES)?;
    assert!(rt; opening < 64 && whole == opening + 24);
    Ok(())
}

#[test]
fn a_disk_that_stops_or_fails_once_has_what_was_answered(rt: HostRuntime) -> Result<(), Fail> {
    let calls = calls_of(rt.alloc(), LINES)?;
    for call in 1..64 {
        let status = if call <= calls { 6 } else { 0 };
        assert!(rt; both_end(rt.alloc(), call, status)?, "{call}");
    }
    Ok(())
}

// Whether so many changes are answered in what a run writes that ends with this status and this text, and so many stored.
fn is_cut_off(
    alloc: Global,
    given: &Given,
    piece: usize,
    status: u8,
    err_text: &[u8],
    told: usize,
    stored: usize,
) -> Result<bool, Fail>
    requires { 0 < piece }
{
    let ended = run(alloc, given, piece)?;
    let (number, _rest) = answered(ended.out.bytes());
    Ok(number == told && leaves(alloc, &ended, status, err_text, stored, stored)?)
}

// Which read of 64 bytes fails, and how many changes are asked for before.
const READS: &[(&[u64], usize)] = &[
    (&[1], 0),
    (&[2], 0),
    (&[3], 1),
    (&[4], 4),
    (&[5], 6),
    (&[6], 6),
    (&[7], 6),
    (&[8], 6),
];

#[test]
fn a_read_that_fails_loses_nothing(rt: HostRuntime) -> Result<(), Fail> {
    for (reads, number) in READS {
        let given = Given { reads, ..RUN };
        let fault = b"read fault\n";
        assert!(rt;
            is_cut_off(rt.alloc(), &given, 64, 4, fault, *number, *number)?,
            "{number}"
        );
    }
    Ok(())
}

// Which write fails, where all lines are there at once, and how many changes are answered before it, and stored. What waits
// is written before a record is stored: the disk, which then would fail too, isn't called. What is stored is told at once.
const WRITES: &[(&[u64], usize, usize)] = &[
    (&[1], 0, 1),
    (&[2], 1, 2),
    (&[3], 2, 2),
    (&[4], 2, 3),
    (&[5], 3, 3),
    (&[6], 3, 4),
    (&[7], 4, 4),
    (&[8], 4, 5),
    (&[9], 5, 5),
    (&[10], 5, 6),
    (&[11], 6, 6),
];

#[test]
fn replies_are_written_before_a_record_is_stored(rt: HostRuntime) -> Result<(), Fail> {
    let opening = calls_of(rt.alloc(), b"")?;
    assert!(rt; opening < 64);
    for (outs, told, stored) in WRITES {
        assert!(rt; *stored < 7);
        let given = Given {
            outs,
            stop: Some(opening + 4 * *stored as u64 + 1),
            ..RUN
        };
        let fault = b"write fault\n";
        assert!(rt;
            is_cut_off(rt.alloc(), &given, 4096, 5, fault, *told, *stored)?,
            "{told}"
        );
    }
    Ok(())
}

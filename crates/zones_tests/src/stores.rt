//! Runs over a store that isn't whole, over what is no store, and over a disk that fails at once. What runs leave in a store,
//! and find in it, is said by the rows that zones_docs runs.
use crate::runs::{EXPORT, Given, ends, is_ended, run};
use crate::texts::is_same;
use crate::traces::TRACED;
use std::alloc::Global;
use std::test::Fail;

const MAKE_WEB: Given<'static> = Given {
    input: b"S 1 zonecfg -z web create -b; set zonepath=/zones/web; set brand=ipkg\n",
    ..TRACED
};

/// A store without records, byte by byte. It and the next are as a plain script writes them from docs/STORE.md
/// (tools/store_of_web.py).
pub const NOTHING: &[u8] = b"\x01ZNSTORE1A\0\0\0\0\0\0\0";

/// A store of one record, of web.
pub const WEB: &[u8] = b"\x01ZNSTORE1A\0\0\0\0\0\0\x01\0\0\0\xafzone web
state configured
uuid 8a2e61b6-8ea3-5b49-9719-c91d461d9a87
revision 0000000001
create -b
set zonepath=/zones/web
set brand=ipkg
set autoboot=false
set ip-type=shared
\0";

// Whether a run ends with this status and this text, writes no reply and leaves the disk as it was.
fn is_left(alloc: Global, given: &Given, status: u8, err_text: &[u8]) -> Result<bool, Fail> {
    let ended = run(alloc, given, 64)?;
    Ok(is_ended(&ended, status, b"", err_text) && is_same(ended.disk.bytes(), given.disk))
}

// Whether what is on the disk is told to be no store.
fn is_refused(alloc: Global, disk: &[u8], err_text: &[u8]) -> Result<bool, Fail> {
    is_left(alloc, &Given { disk, ..MAKE_WEB }, 7, err_text)
}

// Which byte of web's store is another one, and what is told of it.
type Wrong = (usize, u8, &'static [u8]);

const WRONG: &[Wrong] = &[
    (0, b'x', b"not a store: 61 NotAStore 0\n"),
    (8, b'2', b"not a store: 61 NotAStore 8\n"),
    (9, 0x42, b"not a store: 61 NotAStore 9\n"),
    (15, 1, b"not a store: 61 NotAStore 15\n"),
    (17, 0x7f, b"not a store: 62 BadRecord 16\n"),
    (36, b'C', b"not a store: 65 RecordForm 1\n"),
];

fn is_wrong(alloc: Global, wrong: &Wrong) -> Result<bool, Fail> {
    let (place, byte, err_text) = wrong;
    let mut disk = WEB.to_vec(alloc)?;
    if *place >= disk.len() {
        return Ok(false);
    }
    disk[*place] = *byte;
    is_refused(alloc, &disk, err_text)
}

#[test]
fn a_wrong_byte_of_a_store_is_told(rt: HostRuntime) -> Result<(), Fail> {
    for wrong in WRONG {
        assert!(rt; is_wrong(rt.alloc(), wrong)?, "{}", wrong.0);
    }
    Ok(())
}

// From 2 to 16 bytes on, the header isn't whole.
const SHORT: [&[u8]; 15] = [
    b"not a store: 61 NotAStore 2\n",
    b"not a store: 61 NotAStore 3\n",
    b"not a store: 61 NotAStore 4\n",
    b"not a store: 61 NotAStore 5\n",
    b"not a store: 61 NotAStore 6\n",
    b"not a store: 61 NotAStore 7\n",
    b"not a store: 61 NotAStore 8\n",
    b"not a store: 61 NotAStore 9\n",
    b"not a store: 61 NotAStore 10\n",
    b"not a store: 61 NotAStore 11\n",
    b"not a store: 61 NotAStore 12\n",
    b"not a store: 61 NotAStore 13\n",
    b"not a store: 61 NotAStore 14\n",
    b"not a store: 61 NotAStore 15\n",
    b"not a store: 61 NotAStore 16\n",
];

// The first bytes of web's store.
fn is_front_told(alloc: Global, front: &[u8]) -> Result<bool, Fail> {
    let size = front.len();
    if size < 2 {
        let given = Given {
            disk: front,
            ..TRACED
        };
        ends(alloc, &given, 64, 0, b"", b"")
    } else if size < 17 {
        is_refused(alloc, front, SHORT[size - 2])
    } else {
        is_refused(alloc, front, b"not a store: 62 BadRecord 16\n")
    }
}

#[test]
fn each_front_of_a_store_is_told(rt: HostRuntime) -> Result<(), Fail> {
    assert!(rt; WEB.len() == 197);
    for size in 0..WEB.len() {
        assert!(rt; is_front_told(rt.alloc(), &WEB[..size])?, "{size}");
    }
    Ok(())
}

// Which words open no store, and what they are answered.
const OTHERS: &[(Given, u8)] = &[
    (EXPORT, 0),
    (
        Given {
            input: b"end\n",
            ..EXPORT
        },
        1,
    ),
    (
        Given {
            words: &["--help"],
            ..EXPORT
        },
        0,
    ),
    (
        Given {
            words: &["--version"],
            ..EXPORT
        },
        0,
    ),
    (
        Given {
            words: &["index", "x"],
            ..EXPORT
        },
        2,
    ),
];

// Whether a run over a disk that fails from the first call on ends as one over a disk that doesn't.
fn opens_none(alloc: Global, other: &(Given<'static>, u8)) -> Result<bool, Fail> {
    let (given, status) = other;
    let wanted = run(alloc, given, 7)?;
    let over_none = Given {
        disk: b"x",
        stop: Some(1),
        ..*given
    };
    let ended = run(alloc, &over_none, 7)?;
    Ok(
        is_ended(&ended, *status, wanted.out.bytes(), wanted.err.bytes())
            && is_same(ended.disk.bytes(), b"x")
            && wanted.disk.bytes().is_empty(),
    )
}

#[test]
fn other_commands_open_no_store(rt: HostRuntime) -> Result<(), Fail> {
    for other in OTHERS {
        assert!(rt; opens_none(rt.alloc(), other)?);
    }
    Ok(())
}

// What is on a disk whose first call fails.
const FAILING: &[&[u8]] = &[b"", NOTHING, WEB, b"xxxxxxxxxxxxxxxxxxxx"];

#[test]
fn a_disk_that_fails_at_once_is_told(rt: HostRuntime) -> Result<(), Fail> {
    for disk in FAILING {
        let given = Given {
            disk,
            calls: &[1],
            ..MAKE_WEB
        };
        assert!(rt; is_left(rt.alloc(), &given, 6, b"disk fault\n")?);
    }
    Ok(())
}

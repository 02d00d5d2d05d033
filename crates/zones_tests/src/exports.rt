//! Runs of `export`.
use crate::runs::{EXPORT, Given, Row, WEB_TEXT, check, ends};
use std::alloc::{AllocError, Global};
use std::test::Fail;
use zn_base::push_numbered;

// Without a newline at the end, and with bytes that are no text: the rows that zones_docs runs have all other scripts.
const SCRIPTS: &[Row] = &[
    (
        Given {
            input: b"create -b\nset zonepath=/zones/web\nset brand=ipkg",
            ..EXPORT
        },
        0,
        WEB_TEXT,
        b"",
    ),
    (
        Given {
            input: b"create -b\r\n",
            ..EXPORT
        },
        1,
        b"",
        b"line 1: 12 StrayByte 9\n",
    ),
    (
        Given {
            input: b"create -b\nset\0brand=ipkg\n",
            ..EXPORT
        },
        1,
        b"",
        b"line 2: 12 StrayByte 3\n",
    ),
    (
        Given {
            input: b"create -b\nset brand=\xff\n",
            ..EXPORT
        },
        1,
        b"",
        b"line 2: 12 StrayByte 10\n",
    ),
];

#[test]
fn scripts_have_all_bytes(rt: HostRuntime) -> Result<(), Fail> {
    check(&rt, SCRIPTS)
}

// What stands before and behind the number of each of the resources of an input, how many `x` follow, how many resources
// there are, and what is told of them.
type Many = (&'static [u8], &'static [u8], usize, u32, &'static [u8]);

// `create -b`, and then resources, one a line: each with a number between two texts, from 10 on, and so many `x`
// after them.
fn resources(alloc: Global, many: &Many) -> Result<Vec<u8>, AllocError> {
    let (before, behind, letters, count, _) = many;
    let letters = b"x".repeat(alloc, *letters)?;
    let mut input = b"create -b\n".to_vec(alloc)?;
    for number in 0..*count {
        push_numbered(&mut input, before, number as u64 + 10)?;
        input.extend_from_slice(behind)?;
        input.extend_from_slice(&letters)?;
        input.extend_from_slice(b"; end\n")?;
    }
    Ok(input)
}

const LONG: &[u8] = b"; set value=";

const NO_PATH: &[u8] = b"end: 41 NoZonepath\n";

// The text of `create -b` alone has 10 + 19 + 19 bytes, and that of each of the attrs 9 + 12 + 1011 + 4.
const MANY: &[Many] = &[
    (b"add attr; set name=", LONG, 1000, 31, NO_PATH),
    (
        b"add attr; set name=",
        LONG,
        1000,
        33,
        b"line 33: 29 TooLarge 33200\n",
    ),
    (b"add fs; set dir=/", b"", 0, 100, NO_PATH),
    (
        b"add fs; set dir=/",
        b"",
        0,
        101,
        b"line 102: 27 TooMany 100\n",
    ),
    (b"add attr; set name=", b"", 0, 256, NO_PATH),
    (
        b"add attr; set name=",
        b"",
        0,
        257,
        b"line 258: 27 TooMany 256\n",
    ),
];

fn tells_room(alloc: Global, many: &Many) -> Result<bool, Fail> {
    let input = resources(alloc, many)?;
    let given = Given {
        input: &input,
        ..EXPORT
    };
    ends(alloc, &given, 10_000, 1, b"", many.4)
}

#[test]
fn no_room_is_told(rt: HostRuntime) -> Result<(), Fail> {
    for many in MANY {
        assert!(rt; tells_room(rt.alloc(), many)?);
    }
    Ok(())
}

#[test]
fn a_sink_may_be_full(rt: HostRuntime) -> Result<(), Fail> {
    for room in 0..WEB_TEXT.len() {
        let given = Given { room, ..EXPORT };
        let out_text = &WEB_TEXT[..room];
        assert!(rt;
            ends(rt.alloc(), &given, 7, 5, out_text, b"write fault\n")?,
            "{room}"
        );
    }
    Ok(())
}

const FAILING: &[Row] = &[
    (
        Given {
            reads: &[1],
            ..EXPORT
        },
        4,
        b"",
        b"read fault\n",
    ),
    (
        Given {
            reads: &[2],
            ..EXPORT
        },
        4,
        b"",
        b"read fault\n",
    ),
    (
        Given {
            reads: &[3],
            ..EXPORT
        },
        4,
        b"",
        b"read fault\n",
    ),
    (
        Given {
            reads: &[4],
            ..EXPORT
        },
        4,
        b"",
        b"read fault\n",
    ),
    (
        Given {
            reads: &[5],
            ..EXPORT
        },
        4,
        b"",
        b"read fault\n",
    ),
    (
        Given {
            reads: &[6],
            ..EXPORT
        },
        4,
        b"",
        b"read fault\n",
    ),
    (
        Given {
            reads: &[7],
            ..EXPORT
        },
        4,
        b"",
        b"read fault\n",
    ),
    (
        Given {
            reads: &[8],
            ..EXPORT
        },
        4,
        b"",
        b"read fault\n",
    ),
    (
        Given {
            reads: &[9],
            ..EXPORT
        },
        0,
        WEB_TEXT,
        b"",
    ),
    (
        Given {
            outs: &[1],
            ..EXPORT
        },
        5,
        b"",
        b"write fault\n",
    ),
    (
        Given {
            outs: &[1],
            errs: &[1],
            ..EXPORT
        },
        5,
        b"",
        b"",
    ),
    (
        Given {
            input: b"",
            errs: &[1],
            ..EXPORT
        },
        5,
        b"",
        b"write fault\n",
    ),
    (
        Given {
            reads: &[1],
            errs: &[1],
            ..EXPORT
        },
        4,
        b"",
        b"",
    ),
    (
        Given {
            words: &[],
            errs: &[1],
            ..EXPORT
        },
        2,
        b"",
        b"",
    ),
];

#[test]
fn each_read_and_write_may_fail(rt: HostRuntime) -> Result<(), Fail> {
    check(&rt, FAILING)
}

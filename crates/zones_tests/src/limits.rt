//! The limits of lines.
use crate::runs::{EXPORT, Given, ends};
use crate::traces::TRACED;
use std::alloc::{AllocError, Global};
use std::test::Fail;

// A comment of so many bytes, so many newlines after it, and the status and standard error of an export and of a trace.
type Limit = (usize, usize, (u8, &'static [u8]), (u8, &'static [u8]));

const EMPTY: (u8, &[u8]) = (1, b"end: 33 NothingOpen\n");

const LIMITS: &[Limit] = &[
    (4096, 1, EMPTY, (0, b"")),
    (4096, 0, EMPTY, (0, b"")),
    (
        4097,
        1,
        (8, b"limit at line 1\n"),
        (8, b"limit at line 1\n"),
    ),
    (
        4097,
        0,
        (8, b"limit at line 1\n"),
        (8, b"limit at line 1\n"),
    ),
    (0, 200_000, EMPTY, (0, b"")),
    (
        0,
        200_001,
        (8, b"limit at line 200001\n"),
        (8, b"limit at line 200001\n"),
    ),
];

fn input(alloc: Global, comment: usize, newlines: usize) -> Result<Vec<u8>, AllocError> {
    let mut input = b"#".repeat(alloc, comment)?;
    input.extend_from_slice(&b"\n".repeat(alloc, newlines)?)?;
    Ok(input)
}

fn is_limited(alloc: Global, limit: &Limit) -> Result<bool, Fail> {
    let (comment, newlines, export, trace) = limit;
    let input = input(alloc, *comment, *newlines)?;
    let exported = Given {
        input: &input,
        ..EXPORT
    };
    let traced = Given {
        input: &input,
        ..TRACED
    };
    Ok(
        ends(alloc, &exported, 10_000, export.0, b"", export.1)?
            && ends(alloc, &traced, 10_000, trace.0, b"", trace.1)?,
    )
}

#[test]
fn lines_have_limits(rt: HostRuntime) -> Result<(), Fail> {
    for limit in LIMITS {
        assert!(rt; is_limited(rt.alloc(), limit)?);
    }
    Ok(())
}

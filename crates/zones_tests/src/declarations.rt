//! How many links, addresses, datasets and devices can be declared, in a run of `trace`.
use crate::runs::{Given, ends};
use crate::traces::TRACED;
use std::alloc::{AllocError, Global};
use std::test::Fail;
use zn_base::push_numbered;

const KINDS: &[&[u8]] = &[
    b"Y link n",
    b"Y address 10.0.",
    b"Y dataset n",
    b"Y device /n",
];

// The item of a number, as `4.255`.
fn push_item(lines: &mut Vec<u8>, kind: &[u8], number: u64) -> Result<(), AllocError> {
    push_numbered(lines, kind, number / 256)?;
    push_numbered(lines, b".", number % 256)?;
    lines.extend_from_slice(b"\n")
}

// Of each kind one item more than there may be, and one that is declared already.
fn declaring_all(alloc: Global) -> Result<Vec<u8>, AllocError> {
    let mut lines = Vec::new(alloc);
    for kind in KINDS {
        for number in 0..1025 {
            push_item(&mut lines, kind, number)?;
        }
        push_item(&mut lines, kind, 7)?;
    }
    Ok(lines)
}

fn declared_all(alloc: Global) -> Result<Vec<u8>, AllocError> {
    let declared = b"* ok\n".repeat(alloc, 1024)?;
    let mut replies = Vec::new(alloc);
    for _ in KINDS {
        replies.extend_from_slice(&declared)?;
        replies.extend_from_slice(b"* err 27 TooMany 1024\n* err 24 Duplicate\n")?;
    }
    Ok(replies)
}

#[test]
fn of_a_kind_1024_are_declared_at_most(rt: HostRuntime) -> Result<(), Fail> {
    let lines = declaring_all(rt.alloc())?;
    let replies = declared_all(rt.alloc())?;
    let given = Given {
        input: &lines,
        room: 32_768,
        ..TRACED
    };
    let err_text = b"first refused line: 1025\n";
    assert!(rt; ends(rt.alloc(), &given, 64, 1, &replies, err_text)?);
    Ok(())
}

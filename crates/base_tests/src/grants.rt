//! Grants, printed and read, by tables.
use grant_text::{pool_word, push_grant, read_grant};
use std::alloc::{AllocError, Global};
use std::test::Fail;
use zone_pools::{Grant, Pool};

const WORDS: &[(Pool, &[u8])] = &[
    (Pool::Pids, b"pids"),
    (Pool::Zids, b"zids"),
    (Pool::Zones, b"zones"),
    (Pool::Paths, b"paths"),
    (Pool::Store, b"store"),
    (Pool::Links, b"links"),
    (Pool::Addresses, b"addresses"),
    (Pool::Datasets, b"datasets"),
    (Pool::Source, b"source"),
];

#[test]
fn pools_have_their_words(rt: HostRuntime) {
    for (pool, word) in WORDS {
        assert!(rt; pool_word(*pool) == *word, "{word:?}");
    }
}

const TEXTS: &[(Grant, &[u8])] = &[
    (Grant::Nothing, b"@-"),
    (Grant::Number(0), b"@0"),
    (Grant::Number(10), b"@10"),
    (Grant::Number(4_294_967_295), b"@4294967295"),
    (Grant::Yes, b"@yes"),
    (Grant::Denied(Pool::Pids), b"@no pids"),
    (Grant::Denied(Pool::Zids), b"@no zids"),
    (Grant::Denied(Pool::Zones), b"@no zones"),
    (Grant::Denied(Pool::Paths), b"@no paths"),
    (Grant::Denied(Pool::Store), b"@no store"),
    (Grant::Denied(Pool::Links), b"@no links"),
    (Grant::Denied(Pool::Addresses), b"@no addresses"),
    (Grant::Denied(Pool::Datasets), b"@no datasets"),
    (Grant::Denied(Pool::Source), b"@no source"),
];

// Where memory runs out, a front of the text is there, and it is printed again.
fn is_printed(alloc: Global, grant: Grant, text: &[u8]) -> Result<bool, AllocError> {
    let mut line = Vec::new(alloc);
    if push_grant(&mut line, grant).is_ok() {
        return Ok(line.as_slice() == text);
    }
    let has_front = text.starts_with(&line);
    line.clear();
    push_grant(&mut line, grant)?;
    Ok(has_front && line.as_slice() == text)
}

#[test]
fn grants_are_printed(rt: HostRuntime) -> Result<(), Fail> {
    for (grant, text) in TEXTS {
        assert!(rt; is_printed(rt.alloc(), *grant, text)?, "{text:?}");
    }
    Ok(())
}

const RESTS: &[&[u8]] = &[b"D a", b"", b" D a", b"@yes D a"];

fn is_read(alloc: Global, grant: Grant, text: &[u8], rest: &[u8]) -> Result<bool, AllocError> {
    let mut line = Vec::from_slice(alloc, text)?;
    line.push(b' ')?;
    line.extend_from_slice(rest)?;
    Ok(match read_grant(&line) {
        Some((read, after)) => read == grant && after == rest,
        None => false,
    })
}

#[test]
fn grants_are_read_with_what_follows_the_space(rt: HostRuntime) -> Result<(), Fail> {
    for (grant, text) in TEXTS {
        for rest in RESTS {
            assert!(rt;
                is_read(rt.alloc(), *grant, text, rest)?,
                "{text:?} {rest:?}"
            );
        }
    }
    Ok(())
}

const NO_GRANTS: &[&[u8]] = &[
    b"",
    b"@",
    b"@ D a",
    b"@01 D a",
    b"@00 D a",
    b"@+1 D a",
    b"@4294967296 D a",
    b"@no",
    b"@no D a",
    b"@no pid D a",
    b"@no pids",
    b"@no  pids D a",
    b"@no\tpids D a",
    b"@NO pids D a",
    b"@yes",
    b"@yes\tD a",
    b"@-",
    b"@--",
    b" @- D a",
    b"- x",
    b"D a",
];

#[test]
fn other_lines_begin_with_no_grant(rt: HostRuntime) {
    for line in NO_GRANTS {
        assert!(rt; read_grant(line).is_none(), "{line:?}");
    }
}

//! Absolute paths.
use std::alloc::Global;
use std::test::Fail;
use zn_base::{AbsPath, PathFault, is_path};

// Whether bytes are read as they are, and a copy is equal and another one isn't.
fn is_read(alloc: Global, bytes: &[u8], other: &AbsPath) -> Result<bool, PathFault> {
    let read = AbsPath::read(alloc, bytes)?;
    let copy = read.copy(alloc)?;
    Ok(read.bytes() == bytes && read == copy && read != *other)
}

const GOOD: &[&[u8]] = &[b"/", b"/zones/db", b"/a/...", b"/.a"];

#[test]
fn paths_are_read_copied_and_compared(rt: HostRuntime) -> Result<(), Fail> {
    let other = AbsPath::read(rt.alloc(), b"/zones/web")?;
    for bytes in GOOD {
        assert!(rt; is_read(rt.alloc(), bytes, &other)?, "{bytes:?}");
    }
    Ok(())
}

fn is_fault(alloc: Global, bytes: &[u8], fault: PathFault) -> bool {
    match AbsPath::read(alloc, bytes) {
        Ok(_) => false,
        Err(found) => found == fault,
    }
}

const FAULTS: &[(&[u8], PathFault)] = &[
    (b"", PathFault::NotAbsolute),
    (b"zones/web", PathFault::NotAbsolute),
    (b"//", PathFault::BadComponent(1)),
    (b"/zones/", PathFault::BadComponent(7)),
    (b"/zones/../web", PathFault::BadComponent(7)),
    (b"/zones/./web", PathFault::BadComponent(7)),
    (b"/a b/c", PathFault::BadComponent(1)),
    (&[b'a'; 1023], PathFault::NotAbsolute),
    (&[b'a'; 1024], PathFault::PathLong),
];

#[test]
fn faults_of_paths(rt: HostRuntime) {
    for (bytes, fault) in FAULTS {
        assert!(rt; is_fault(rt.alloc(), bytes, *fault), "{bytes:?}");
    }
}

#[test]
fn a_path_is_told_without_memory(rt: HostRuntime) {
    assert!(rt; is_path(b"/") && is_path(b"/zones/web"));
    assert!(rt; !is_path(b"zones") && !is_path(b"/zones/../web") && !is_path(b"/a/"));
}

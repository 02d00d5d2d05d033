//! Names of zones.
use std::alloc::Global;
use std::test::Fail;
use zn_base::{NameFault, ZoneName};

// Whether bytes are read as they are, and a copy is equal and another one isn't.
fn is_read(alloc: Global, bytes: &[u8], other: &ZoneName) -> Result<bool, NameFault> {
    let read = ZoneName::read(alloc, bytes)?;
    let copy = read.copy(alloc)?;
    Ok(read.bytes() == bytes && read == copy && read != *other)
}

const GOOD: &[&[u8]] = &[b"0-a_b.C", b"globals", b"sunwA", &[b'z'; 63]];

#[test]
fn names_are_read_copied_and_compared(rt: HostRuntime) -> Result<(), Fail> {
    let other = ZoneName::read(rt.alloc(), b"web")?;
    for bytes in GOOD {
        assert!(rt; is_read(rt.alloc(), bytes, &other)?, "{bytes:?}");
    }
    Ok(())
}

fn is_fault(alloc: Global, bytes: &[u8], fault: NameFault) -> bool {
    match ZoneName::read(alloc, bytes) {
        Ok(_) => false,
        Err(found) => found == fault,
    }
}

const FAULTS: &[(&[u8], NameFault)] = &[
    (b"", NameFault::Empty),
    (&[b'-'; 64], NameFault::TooLong),
    (b"-a", NameFault::BadByte(0)),
    (b"SUNW/", NameFault::BadByte(4)),
    (b"global", NameFault::Reserved),
    (b"SUNW", NameFault::Reserved),
];

#[test]
fn faults_of_names(rt: HostRuntime) {
    for (bytes, fault) in FAULTS {
        assert!(rt; is_fault(rt.alloc(), bytes, *fault), "{bytes:?}");
    }
}

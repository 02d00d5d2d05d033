//! Texts.
use std::alloc::{AllocError, Global};
use std::test::Fail;
use zn_base::{Text, TextFault};

// Whether bytes are read as they are, and a copy is equal and another one isn't.
fn is_read(alloc: Global, bytes: &[u8], other: &Text) -> Result<bool, TextFault> {
    let read = Text::read(alloc, bytes)?;
    let copy = read.copy(alloc)?;
    Ok(read.bytes() == bytes && read == copy && read != *other)
}

const GOOD: &[&[u8]] = &[b"web team ~", b"", &[b'~'; 4200]];

#[test]
fn texts_are_read_copied_and_compared(rt: HostRuntime) -> Result<(), Fail> {
    let other = Text::read(rt.alloc(), b"web")?;
    for bytes in GOOD {
        assert!(rt; is_read(rt.alloc(), bytes, &other)?, "{bytes:?}");
    }
    Ok(())
}

fn is_fault(alloc: Global, bytes: &[u8], fault: TextFault) -> bool {
    match Text::read(alloc, bytes) {
        Ok(_) => false,
        Err(found) => found == fault,
    }
}

const FAULTS: &[(&[u8], TextFault)] = &[
    (b"a\tb", TextFault::BadText(1)),
    (&[b'~'; 4201], TextFault::TextLong),
];

#[test]
fn faults_of_texts(rt: HostRuntime) {
    for (bytes, fault) in FAULTS {
        assert!(rt; is_fault(rt.alloc(), bytes, *fault), "{bytes:?}");
    }
}

#[test]
fn a_known_text_is_as_written(rt: HostRuntime) -> Result<(), AllocError> {
    let brand = Text::of(rt.alloc(), b"ipkg")?;
    assert!(rt; brand.bytes() == b"ipkg".as_slice());
    Ok(())
}

#[test]
fn an_empty_text_has_no_bytes(rt: HostRuntime) {
    assert!(rt; Text::empty(rt.alloc()).bytes().is_empty());
}

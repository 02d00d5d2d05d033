//! Stores on disks in memory: their bytes, their bounds, and what is left after stops and faults.
use std::alloc::{AllocError, Global};
use std::process::Abort;
use std::test::Fail;
use zn_io::{Fill, MemDisk, Room};
use zone_disk::{BANK_BYTES, Bank, BankFault, Body};

const BODIES: [&[u8]; 3] = [b"one", b"", b"three"];

const FILLS: [Fill; 5] = [
    Fill::Old,
    Fill::New,
    Fill::Byte(0),
    Fill::Byte(1),
    Fill::Byte(255),
];

// A disk with room for a few small writes.
fn disk_of(
    rt: &impl Abort,
    alloc: Global,
    bytes: Vec<u8>,
    failing: Option<u64>,
    stop: Option<u64>,
) -> Result<MemDisk, AllocError> {
    let room = Room {
        length: 4096,
        calls: 64,
        written: 4096,
    };
    let mut numbers = Vec::new(alloc);
    if let Some(number) = failing {
        numbers.push(number)?;
    }
    assert!(rt; bytes.len() <= 4096);
    MemDisk::new(alloc, bytes, room, numbers, stop)
}

// Opens a store, appends the bodies until one fails, and says how many were acknowledged.
fn run(alloc: Global, disk: MemDisk) -> (usize, Option<BankFault>, MemDisk) {
    let mut bank = match Bank::open(alloc, disk) {
        Ok(bank) => bank,
        Err((fault, disk)) => return (0, Some(fault), disk),
    };
    let mut fault = None;
    for body in BODIES {
        if bank.sound() {
            fault = match Body::of(alloc, body) {
                Ok(body) => bank.append(body).err(),
                Err(_) => Some(BankFault::Memory),
            };
        }
    }
    (bank.records().len(), fault, bank.into_disk())
}

// The image stands for the acknowledged bodies, or for these and one more.
fn assert_left(
    rt: &impl Abort,
    alloc: Global,
    image: Vec<u8>,
    acknowledged: usize,
) -> Result<(), AllocError> {
    match Bank::open(alloc, disk_of(rt, alloc, image, None, None)?) {
        Ok(bank) => {
            let records = bank.records();
            assert!(rt; acknowledged <= records.len() && records.len() - acknowledged <= 1);
            for (record, body) in records.iter().zip(BODIES.iter()) {
                assert_eq!(rt; record.bytes(), *body);
            }
        }
        Err((fault, _disk)) => assert_eq!(rt; Some(fault), None),
    }
    Ok(())
}

// What is left of a run from a disk, with a fault or a stop at one call. Without them it makes so many calls.
fn assert_left_by(
    rt: &impl Abort,
    alloc: Global,
    start: &[u8],
    calls: u64,
    number: u64,
) -> Result<(), AllocError> {
    for (failing, stop) in [(Some(number), None), (None, Some(number))] {
        let disk = disk_of(rt, alloc, start.to_vec(alloc)?, failing, stop)?;
        let (count, fault, disk) = run(alloc, disk);
        assert_eq!(rt;
            fault,
            if number <= calls {
                Some(BankFault::DiskFault)
            } else {
                None
            }
        );
        for fill in FILLS {
            let image = disk.after_crash(alloc, fill)?;
            assert_left(rt, alloc, image, count)?;
        }
    }
    Ok(())
}

#[test]
fn every_stop_and_every_single_fault_leaves_the_acknowledged_bodies(
    rt: HostRuntime,
) -> Result<(), Fail> {
    let starts = [
        (b"".as_slice(), 21),
        (b"\x01".as_slice(), 21),
        (b"xxxxx".as_slice(), 19),
    ];
    for (start, calls) in starts.iter() {
        for number in 1..23 {
            assert_left_by(&rt, rt.alloc(), start, *calls, number)?;
        }
    }
    Ok(())
}

#[test]
fn a_store_byte_by_byte(rt: HostRuntime) -> Result<(), Fail> {
    let empty = disk_of(&rt, rt.alloc(), Vec::new(rt.alloc()), None, None)?;
    let (count, fault, disk) = run(rt.alloc(), empty);
    assert_eq!(rt; (count, fault), (3, None));
    let store = b"\x01ZNSTORE1A\0\0\0\0\0\0\x01\0\0\0\x03one\x01\0\0\0\0\x01\0\0\0\x05three\0";
    assert_eq!(rt; disk.bytes(), store.as_slice());
    Ok(())
}

const STORE: &[u8] = b"\x01ZNSTORE1A\0\0\0\0\0\0\x01\0\0\0\x03one\0";

const EMPTY: &[u8] = b"\x01ZNSTORE1A\0\0\0\0\0\0\0";

// What opening comes to: the number of bodies, or the fault. The disk is as it is then.
fn opened_and_left(alloc: Global, disk: MemDisk) -> (Result<usize, BankFault>, MemDisk) {
    match Bank::open(alloc, disk) {
        Ok(bank) => {
            let count = bank.records().len();
            (Ok(count), bank.into_disk())
        }
        Err((fault, disk)) => (Err(fault), disk),
    }
}

fn opened(
    rt: &impl Abort,
    alloc: Global,
    bytes: Vec<u8>,
) -> Result<Result<usize, BankFault>, AllocError> {
    let disk = disk_of(rt, alloc, bytes, None, None)?;
    let (came, _disk) = opened_and_left(alloc, disk);
    Ok(came)
}

#[test]
fn a_disk_of_other_bytes_is_formatted_up_to_17_of_them(rt: HostRuntime) -> Result<(), Fail> {
    let cases = [
        (1, Ok(0)),
        (17, Ok(0)),
        (18, Err(BankFault::NotAStore(0))),
        (20, Err(BankFault::NotAStore(0))),
    ];
    for (size, want) in cases {
        let bytes = Vec::from_elem(rt.alloc(), b'x', size)?;
        let disk = disk_of(&rt, rt.alloc(), bytes, None, None)?;
        let (came, disk) = opened_and_left(rt.alloc(), disk);
        let left = if want.is_ok() {
            EMPTY.to_vec(rt.alloc())?
        } else {
            Vec::from_elem(rt.alloc(), b'x', size)?
        };
        assert_eq!(rt; came, want);
        assert_eq!(rt; disk.bytes(), left.as_slice());
    }
    Ok(())
}

#[test]
fn every_front_of_a_store(rt: HostRuntime) -> Result<(), Fail> {
    for n in 0..=STORE.len() {
        let want = match n {
            0 | 1 => Ok(0),
            2..=16 => Err(BankFault::NotAStore(n as u64)),
            17..25 => Err(BankFault::BadRecord(16)),
            _ => Ok(1),
        };
        let front = STORE[..n].to_vec(rt.alloc())?;
        assert_eq!(rt; opened(&rt, rt.alloc(), front)?, want, "at {n}");
    }
    Ok(())
}

#[test]
fn a_wrong_byte_is_named(rt: HostRuntime) -> Result<(), Fail> {
    let cases = [
        (0, 0, Err(BankFault::NotAStore(0))),
        (8, b'2', Err(BankFault::NotAStore(8))),
        (9, 0x42, Err(BankFault::NotAStore(9))),
        (9, b'x', Ok(1)),
        (15, 1, Err(BankFault::NotAStore(15))),
        (16, 2, Ok(0)),
        (17, 0x7f, Err(BankFault::BadRecord(16))),
        (24, 1, Err(BankFault::BadRecord(24))),
    ];
    for (place, byte, want) in cases.iter() {
        let mut bytes = STORE.to_vec(rt.alloc())?;
        assert!(rt; *place < bytes.len());
        bytes[*place] = *byte;
        assert_eq!(rt; opened(&rt, rt.alloc(), bytes)?, *want, "at {place}");
    }
    Ok(())
}

// How full a bank may be, and where the last record may end, the clauses of `append` and `open` say by this number.
#[test]
fn a_bank_has_32_mebibytes(rt: HostRuntime) -> Result<(), Fail> {
    assert_eq!(rt; BANK_BYTES, 33_554_432);
    Ok(())
}

//! Disks, in memory and over a file.
use std::fs;
use std::test::Fail;
use zn_io::{Disk, Failed, FileDisk, Fill, MemDisk, Room};

const ROOM: Room = Room {
    length: 8,
    calls: 3,
    written: 6,
};

#[test]
fn fails_where_told_and_past_its_room(rt: HostRuntime) -> Result<(), Fail> {
    let bytes = b"zone".to_vec(rt.alloc())?;
    assert!(rt; bytes.len() <= 8);
    let failing = [2].to_vec(rt.alloc())?;
    let mut disk = MemDisk::new(rt.alloc(), bytes, ROOM, failing, Some(7))?;
    assert_eq!(rt; disk.write_at(6, b"s"), Ok(()));
    assert_eq!(rt; disk.length(), Err(Failed));
    assert_eq!(rt; disk.write_at(6, b"abc"), Err(Failed));
    assert_eq!(rt; disk.sync(), Ok(()));
    assert_eq!(rt; disk.write_at(0, b"Z"), Ok(()));
    assert_eq!(rt; disk.sync(), Err(Failed));
    let mut front = [1; 9];
    assert_eq!(rt; disk.read(0, &mut front), Err(Failed));
    assert_eq!(rt; disk.bytes(), b"Zone\0\0s".as_slice());
    Ok(())
}

#[test]
fn a_crash_fills_what_was_written_since_the_last_sync(rt: HostRuntime) -> Result<(), Fail> {
    let bytes = b"zone".to_vec(rt.alloc())?;
    assert!(rt; bytes.len() <= 8);
    let mut disk = MemDisk::new(rt.alloc(), bytes, ROOM, Vec::new(rt.alloc()), None)?;
    disk.sync()?;
    disk.write_at(1, b"ON")?;
    disk.write_at(5, b"s")?;
    let mut front = [1; 3];
    assert_eq!(rt; disk.read(4, &mut front), Ok(2));
    assert_eq!(rt; front.as_slice(), [0, b's', 1].as_slice());
    let images = [
        (Fill::Old, b"zone".as_slice()),
        (Fill::New, b"zONe\0s"),
        (Fill::Byte(b'x'), b"zxxe\0x"),
    ];
    for (fill, image) in images.iter() {
        let left = disk.after_crash(rt.alloc(), *fill)?;
        assert_eq!(rt; left.as_slice(), *image);
    }
    Ok(())
}

const NAME: &str = "file_disk_test.store";

#[test]
fn writes_closes_opens_again_and_reads(rt: HostRuntime) -> Result<(), Fail> {
    let mut disk = FileDisk::new(&rt, NAME);
    assert_eq!(rt; disk.length(), Ok(0));
    disk.write_at(2, b"zones")?;
    disk.sync()?;
    drop(disk);
    let mut again = FileDisk::new(&rt, NAME);
    let mut bytes = [1; 8];
    assert_eq!(rt; again.read(1, &mut bytes), Ok(6));
    assert_eq!(rt; bytes.as_slice(), b"\0zones\x01\x01".as_slice());
    assert_eq!(rt; again.length(), Ok(7));
    fs::remove_file(&rt, NAME)?;
    let mut nowhere = FileDisk::new(&rt, "no such folder/store");
    assert_eq!(rt; nowhere.sync(), Err(Failed));
    Ok(())
}

//! Stores on disks in memory: their bytes, what is left after stops, and a store that another program wrote.
use commit_journal::{Record, Row, Store, StoreFault, StoredConfig};
use export_read::read_export;
use std::alloc::{AllocError, Global};
use std::process::Abort;
use std::test::Fail;
use uuid::Uuid;
use zn_base::{ZoneName, ZoneState};
use zn_io::{Fill, MemDisk, Room};

const WEB: &[u8] = b"create -b
set zonepath=/zones/web
set brand=ipkg
set autoboot=false
set ip-type=shared
";

const WEB_BOOTS: &[u8] = b"create -b
set zonepath=/zones/web
set brand=ipkg
set autoboot=true
set ip-type=shared
";

const FILLS: [Fill; 3] = [Fill::Old, Fill::New, Fill::Byte(1)];

// A store of one zone, as a plain script writes it from docs/STORE.md (tools/store_of_web.py).
const STORE: &[u8] = b"\x01ZNSTORE1A\0\0\0\0\0\0\x01\0\0\0\xafzone web
state configured
uuid 8a2e61b6-8ea3-5b49-9719-c91d461d9a87
revision 0000000001
create -b
set zonepath=/zones/web
set brand=ipkg
set autoboot=false
set ip-type=shared
\0";

// A disk with room for some records.
fn disk_of(
    rt: &impl Abort,
    alloc: Global,
    bytes: Vec<u8>,
    stop: Option<u64>,
) -> Result<MemDisk, Fail> {
    let room = Room {
        length: 65_536,
        calls: 64,
        written: 65_536,
    };
    assert!(rt; bytes.len() <= 65_536);
    Ok(MemDisk::new(alloc, bytes, room, Vec::new(alloc), stop)?)
}

fn row_of_web(alloc: Global, revision: u32, config: &[u8]) -> Result<Record, Fail> {
    Ok(Record {
        state: ZoneState::Configured,
        uuid: Uuid::try_parse_ascii(b"8a2e61b6-8ea3-5b49-9719-c91d461d9a87")?,
        revision,
        config: StoredConfig::new(alloc, read_export(alloc, config)?)?,
    })
}

fn changed(
    rt: &impl Abort,
    alloc: Global,
    store: &mut Store<MemDisk>,
    name: &ZoneName,
    row: Record,
) -> Result<u32, StoreFault> {
    assert!(rt; store.sound() && store.count() < 256);
    assert!(rt; row.state.is_stored() && row.revision >= 1 && row.config.zonepath.is_some());
    store.change(alloc, name, Some(Row::new(row)))
}

// Opens the disk, stores web with a configuration, and says what came of it.
fn change_web(
    rt: &impl Abort,
    alloc: Global,
    disk: MemDisk,
    revision: u32,
    config: &[u8],
) -> Result<(Result<u32, StoreFault>, MemDisk), Fail> {
    let web = ZoneName::read(alloc, b"web")?;
    let row = row_of_web(alloc, revision, config)?;
    match Store::open(alloc, disk) {
        Ok(mut store) => {
            let answer = changed(rt, alloc, &mut store, &web, row);
            Ok((answer, store.into_disk()))
        }
        Err((fault, disk)) => Ok((Err(fault), disk)),
    }
}

// Whether a store has web alone, by one record with this UUID, and room for another.
fn has_web(store: &Store<MemDisk>, uuid: Uuid) -> bool {
    if store.count() != 1 || store.next_serial() != 2 || !store.sound() {
        return false;
    }
    let (name, row) = store.at(0);
    name.bytes() == b"web".as_slice()
        && row.state == ZoneState::Configured
        && row.uuid == uuid
        && row.revision == 1
        && store.get(name).is_some()
        && store.room_for(name, None)
        && store.room_for(name, Some(row))
}

// How many zones there are, and the last one's autoboot.
fn last_boots(store: &Store<MemDisk>) -> (u32, bool) {
    let count = store.count();
    if count == 0 {
        return (0, false);
    }
    let (_name, row) = store.at(count - 1);
    (count, row.config.autoboot)
}

// What opening comes to: how many zones there are, and the last one's autoboot.
fn opened(
    rt: &impl Abort,
    alloc: Global,
    bytes: Vec<u8>,
) -> Result<Result<(u32, bool), StoreFault>, Fail> {
    match Store::open(alloc, disk_of(rt, alloc, bytes, None)?) {
        Ok(store) => Ok(Ok(last_boots(&store))),
        Err((fault, _disk)) => Ok(Err(fault)),
    }
}

#[test]
fn the_first_record_of_a_store_byte_by_byte(rt: HostRuntime) -> Result<(), Fail> {
    let empty = disk_of(&rt, rt.alloc(), Vec::new(rt.alloc()), None)?;
    let (answer, disk) = change_web(&rt, rt.alloc(), empty, 1, WEB)?;
    assert_eq!(rt; answer, Ok(1));
    assert_eq!(rt; disk.bytes(), STORE);
    Ok(())
}

#[test]
fn a_store_that_a_script_wrote_is_opened(rt: HostRuntime) -> Result<(), Fail> {
    let uuid = Uuid::try_parse_ascii(b"8a2e61b6-8ea3-5b49-9719-c91d461d9a87")?;
    let disk = disk_of(&rt, rt.alloc(), STORE.to_vec(rt.alloc())?, None)?;
    let is_web = match Store::open(rt.alloc(), disk) {
        Ok(store) => has_web(&store, uuid),
        Err(_) => false,
    };
    assert!(rt; is_web);
    Ok(())
}

// A change ends with four calls of the disk: it writes, syncs, writes and syncs.
#[test]
fn each_stop_leaves_the_record_before_or_the_new_one(rt: HostRuntime) -> Result<(), Fail> {
    let mut calls = 0;
    for stop in 1..40 {
        let disk = disk_of(&rt, rt.alloc(), STORE.to_vec(rt.alloc())?, Some(stop))?;
        if change_web(&rt, rt.alloc(), disk, 2, WEB_BOOTS)?.0.is_err() {
            calls = stop;
        }
    }
    assert!(rt; 4 < calls && calls < 39);
    for stop in 1..calls + 2 {
        let disk = disk_of(&rt, rt.alloc(), STORE.to_vec(rt.alloc())?, Some(stop))?;
        let (answer, disk) = change_web(&rt, rt.alloc(), disk, 2, WEB_BOOTS)?;
        for fill in FILLS {
            let left = opened(&rt, rt.alloc(), disk.after_crash(rt.alloc(), fill)?)?;
            if stop > calls {
                assert_eq!(rt; (answer, left), (Ok(2), Ok((1, true))));
            } else {
                assert_eq!(rt; answer, Err(StoreFault::DiskFault));
                assert!(rt; left == Ok((1, false)) || (stop + 2 > calls && left == Ok((1, true))));
            }
        }
    }
    Ok(())
}

#[test]
fn a_wrong_byte_is_told(rt: HostRuntime) -> Result<(), Fail> {
    let cases = [
        (0, b'x', Err(StoreFault::NotAStore(0))),
        (17, 0x7f, Err(StoreFault::BadRecord(16))),
        // The zone's name, the state, the UUID, the revision and the configuration.
        (26, b'_', Err(StoreFault::RecordForm(1))),
        (36, b'C', Err(StoreFault::RecordForm(1))),
        (52, b'9', Ok((1, false))),
        (55, b'A', Err(StoreFault::RecordForm(1))),
        (107, b'0', Err(StoreFault::RecordForm(1))),
        (119, b' ', Err(StoreFault::RecordForm(1))),
    ];
    for (place, byte, want) in cases.iter() {
        let mut bytes = STORE.to_vec(rt.alloc())?;
        assert!(rt; *place < bytes.len());
        bytes[*place] = *byte;
        assert_eq!(rt; opened(&rt, rt.alloc(), bytes)?, *want, "at {place}");
    }
    Ok(())
}

// The store with so many zeros in its record's revision.
fn store_of_digits(alloc: Global, digits: u16) -> Result<Vec<u8>, AllocError> {
    let mut body = STORE[21..98].to_vec(alloc)?;
    body.resize(77 + digits as usize, b'0')?;
    body.extend_from_slice(&STORE[108..196])?;
    let size = 165 + digits as u32;
    let mut bytes = STORE[..17].to_vec(alloc)?;
    bytes.extend_from_slice(&size.to_be_bytes())?;
    bytes.extend_from_slice(&body)?;
    bytes.push(0)?;
    Ok(bytes)
}

#[test]
fn a_revision_of_any_length_is_looked_at(rt: HostRuntime) -> Result<(), Fail> {
    for digits in [0, 9, 10, 11, 20_000] {
        let bytes = store_of_digits(rt.alloc(), digits)?;
        let came = opened(&rt, rt.alloc(), bytes)?;
        assert_eq!(rt; came, Err(StoreFault::RecordForm(1)), "{digits} digits");
    }
    Ok(())
}

#[test]
fn a_revision_is_a_number_of_32_bits(rt: HostRuntime) -> Result<(), Fail> {
    let cases = [
        (b"0000000005".as_slice(), Ok((1, false))),
        (b"4294967295", Ok((1, false))),
        (b"4294967296", Err(StoreFault::RecordForm(1))),
    ];
    for (digits, want) in cases {
        let mut bytes = STORE[..98].to_vec(rt.alloc())?;
        bytes.extend_from_slice(digits)?;
        bytes.extend_from_slice(&STORE[108..])?;
        assert_eq!(rt; opened(&rt, rt.alloc(), bytes)?, want);
    }
    Ok(())
}

// A record that is not whole is reported before one that is out of form, and no length is too large to be looked at.
#[test]
fn a_record_is_whole_before_it_is_read(rt: HostRuntime) -> Result<(), Fail> {
    let cases = [
        (b"\x01\0\0\0\x01x\0".as_slice(), StoreFault::RecordForm(1)),
        (b"\x01\0\0\0\x01x\x01", StoreFault::BadRecord(22)),
        (b"\x01\xff\xff\xff\xff\0", StoreFault::BadRecord(16)),
    ];
    for (bank, fault) in cases {
        let mut bytes = STORE[..16].to_vec(rt.alloc())?;
        bytes.extend_from_slice(bank)?;
        assert_eq!(rt; opened(&rt, rt.alloc(), bytes)?, Err(fault));
    }
    Ok(())
}

// Opens the disk, removes web, which is stored, and says what came of it.
fn remove_web(
    rt: &impl Abort,
    alloc: Global,
    disk: MemDisk,
) -> Result<(Result<u32, StoreFault>, MemDisk), Fail> {
    let web = ZoneName::read(alloc, b"web")?;
    match Store::open(alloc, disk) {
        Ok(mut store) => {
            assert!(rt; store.sound() && store.get(&web).is_some());
            let answer = store.change(alloc, &web, None);
            Ok((answer, store.into_disk()))
        }
        Err((fault, disk)) => Ok((Err(fault), disk)),
    }
}

#[test]
fn a_removal_byte_by_byte(rt: HostRuntime) -> Result<(), Fail> {
    let disk = disk_of(&rt, rt.alloc(), STORE.to_vec(rt.alloc())?, None)?;
    let (answer, disk) = remove_web(&rt, rt.alloc(), disk)?;
    assert_eq!(rt; answer, Ok(2));
    let mut left = STORE[..196].to_vec(rt.alloc())?;
    left.extend_from_slice(b"\x01\0\0\0\x14zone web\nstate none\n\0")?;
    assert_eq!(rt; disk.bytes(), left.as_slice());
    assert_eq!(rt; opened(&rt, rt.alloc(), left)?, Ok((0, false)));
    Ok(())
}

// Puts a record after the last one of a store: a zone made or changed, or a removal.
fn push_record(
    alloc: Global,
    bytes: &mut Vec<u8>,
    name: &[u8],
    removed: bool,
) -> Result<(), AllocError> {
    let mut body = b"zone ".to_vec(alloc)?;
    body.extend_from_slice(name)?;
    body.push(b'\n')?;
    body.extend_from_slice(if removed {
        b"state none\n".as_slice()
    } else {
        &STORE[30..196]
    })?;
    bytes.pop();
    bytes.push(1)?;
    bytes.extend_from_slice(&(body.len() as u64).to_be_bytes()[4..])?;
    bytes.extend_from_slice(&body)?;
    bytes.push(0)?;
    Ok(())
}

// A store of some records: `+NAME` makes or changes a zone, and `-NAME` removes it.
fn store_of(alloc: Global, records: &str) -> Result<Vec<u8>, AllocError> {
    let mut bytes = STORE[..16].to_vec(alloc)?;
    bytes.push(0)?;
    for record in records.split(' ') {
        match record.as_bytes() {
            [b'-', name @ ..] => push_record(alloc, &mut bytes, name, true)?,
            [_, name @ ..] => push_record(alloc, &mut bytes, name, false)?,
            [] => {}
        }
    }
    Ok(bytes)
}

// The names of the zones in their order, with a space after each.
fn names_of(alloc: Global, store: &Store<MemDisk>) -> Result<Vec<u8>, AllocError> {
    let mut names = Vec::new(alloc);
    for place in 0..store.count() {
        names.extend_from_slice(store.at(place).0.bytes())?;
        names.push(b' ')?;
    }
    Ok(names)
}

#[test]
fn zones_stand_in_the_order_in_which_they_were_made(rt: HostRuntime) -> Result<(), Fail> {
    let cases = [
        ("+a +b +c", b"a b c ".as_slice(), 4),
        ("+a +b +a", b"a b ", 4),
        ("+a +b -a", b"b ", 4),
        ("+a +b -a +a +b", b"b a ", 6),
        ("+a -a", b"", 3),
    ];
    for (records, names, serial) in cases {
        let bytes = store_of(rt.alloc(), records)?;
        match Store::open(rt.alloc(), disk_of(&rt, rt.alloc(), bytes, None)?) {
            Ok(store) => {
                assert_eq!(rt;
                    names_of(rt.alloc(), &store)?.as_slice(),
                    names,
                    "{records}"
                );
                assert_eq!(rt; store.next_serial(), serial, "{records}");
            }
            Err(_) => assert!(rt; false, "{records}"),
        }
    }
    Ok(())
}

#[test]
fn no_zone_is_removed_that_is_not_stored(rt: HostRuntime) -> Result<(), Fail> {
    for (records, number) in [("-a", 1), ("+a -b", 2), ("+a -a -a", 3), ("+a -a -a +a", 3)] {
        let came = opened(&rt, rt.alloc(), store_of(rt.alloc(), records)?)?;
        assert_eq!(rt; came, Err(StoreFault::RecordForm(number)), "{records}");
    }
    Ok(())
}

// The name of three digits after a letter.
fn numbered(number: u8) -> [u8; 4] {
    [
        b'z',
        b'0' + number / 100,
        b'0' + number / 10 % 10,
        b'0' + number % 10,
    ]
}

#[test]
fn at_most_256_zones_are_stored_at_once(rt: HostRuntime) -> Result<(), Fail> {
    let mut bytes = STORE[..16].to_vec(rt.alloc())?;
    bytes.push(0)?;
    for number in 0..=255 {
        push_record(rt.alloc(), &mut bytes, &numbered(number), false)?;
    }
    assert_eq!(rt;
        opened(&rt, rt.alloc(), bytes.to_vec(rt.alloc())?)?,
        Ok((256, false))
    );
    let mut more = bytes.to_vec(rt.alloc())?;
    push_record(rt.alloc(), &mut more, b"web", false)?;
    assert_eq!(rt;
        opened(&rt, rt.alloc(), more)?,
        Err(StoreFault::RecordForm(257))
    );
    push_record(rt.alloc(), &mut bytes, b"z005", true)?;
    push_record(rt.alloc(), &mut bytes, b"web", false)?;
    assert_eq!(rt;
        opened(&rt, rt.alloc(), bytes.to_vec(rt.alloc())?)?,
        Ok((256, false))
    );
    push_record(rt.alloc(), &mut bytes, b"z005", false)?;
    assert_eq!(rt;
        opened(&rt, rt.alloc(), bytes)?,
        Err(StoreFault::RecordForm(259))
    );
    Ok(())
}

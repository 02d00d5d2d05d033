//! Runs of the whole program over an input in memory.
use crate::brands::{Hook, make_brands, proceeds, refuses_clones};
use std::alloc::{AllocError, Global};
use zn_io::{MemDisk, MemSink, MemSource, Room};
use zones_run::run_zones;

// The size of a piece of the source: many a line comes in two.
const PIECE: usize = 64;

// The room of each sink.
const ROOM: usize = 16384;

/// What a run ends with: its status, what standard output and standard error have taken, and what is on the disk.
#[derive(Drop)]
pub struct Ended {
    pub status: u8,
    pub out: MemSink,
    pub err: MemSink,
    pub store: Vec<u8>,
}

// How much a disk may take.
const DISK: Room = Room {
    length: 262_144,
    calls: 4096,
    written: 262_144,
};

fn disk_of(alloc: Global, bytes: Vec<u8>) -> Result<MemDisk, AllocError> {
    if bytes.len() > 262_144 {
        return Err(AllocError);
    }
    MemDisk::new(alloc, bytes, DISK, Vec::new(alloc), None)
}

/// Runs a command, of one word or more, over an input and a disk of some bytes.
pub fn run_on(
    alloc: Global,
    command: &str,
    input: Vec<u8>,
    bytes: Vec<u8>,
) -> Result<Ended, AllocError> {
    let mut words = Vec::new(alloc);
    for word in command.split_whitespace() {
        words.push(String::from_str(alloc, word)?)?;
    }
    let mut source = MemSource::new(input, PIECE, Vec::new(alloc));
    let mut out = MemSink::new(alloc, ROOM, Vec::new(alloc))?;
    let mut err = MemSink::new(alloc, ROOM, Vec::new(alloc))?;
    let ipkg: Hook = proceeds;
    let lx: Hook = refuses_clones;
    let Ok(brands) = make_brands(alloc, ipkg, lx) else {
        return Err(AllocError);
    };
    let disk = disk_of(alloc, bytes)?;
    let (status, disk) = run_zones(
        alloc,
        &words,
        &mut source,
        &mut out,
        &mut err,
        disk,
        &brands,
    );
    let store = disk.bytes().to_vec(alloc)?;
    Ok(Ended {
        status,
        out,
        err,
        store,
    })
}

/// The same over an empty disk.
pub fn run(alloc: Global, command: &str, input: Vec<u8>) -> Result<Ended, AllocError> {
    run_on(alloc, command, input, Vec::new(alloc))
}

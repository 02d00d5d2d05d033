//! Runs of `live` over sources, sinks and disks in memory.
ghost use Rattle.std.specs.Prelude.{◌<◌};
ghost use Rattle.brand_hooks.specs.Hooks.{AllFollow};

use brand_hooks::{Brands, Change, HookAnswer};
use std::alloc::{AllocError, Global};
use std::sync::Wait;
use std::test::Fail;
use std::thread::Threads;
use zn_io::{MemDisk, MemSink, MemSource, Room};
use zone_threads::Gate;
use zones_live::run_live;

/// What a run is given: its words, its input, what is on the disk before, and the calls of the source, of standard output, of
/// standard error and of the disk that fail.
#[derive(Clone, Copy)]
pub struct Given<'a> {
    pub words: &'a [&'a str],
    pub input: &'a [u8],
    pub disk: &'a [u8],
    pub reads: &'a [u64],
    pub outs: &'a [u64],
    pub errs: &'a [u64],
    pub calls: &'a [u64],
}

pub const LIVE: Given<'static> = Given {
    words: &["live"],
    input: b"",
    disk: b"",
    reads: &[],
    outs: &[],
    errs: &[],
    calls: &[],
};

/// What a run ends with: its status, what the two sinks have taken, and the disk.
pub struct Ended {
    pub status: u8,
    pub out: MemSink,
    pub err: MemSink,
    pub disk: MemDisk,
}

impl Drop for Ended {
    fn drop(self) {
        let Ended {
            status: _status,
            out: _out,
            err: _err,
            disk: _disk,
        } = self;
    }
}

fn words_of(alloc: Global, given: &Given) -> Result<Vec<String>, AllocError> {
    let mut words = Vec::new(alloc);
    for word in given.words {
        words.push(String::from_str(alloc, word)?)?;
    }
    Ok(words)
}

fn sink_of(alloc: Global, failing: &[u64]) -> Result<MemSink, AllocError> {
    MemSink::new(alloc, 1_048_576, failing.to_vec(alloc)?)
}

// How much a disk of a run may take.
const ROOM: Room = Room {
    length: 1_048_576,
    calls: 65_536,
    written: 2_097_152,
};

/// The disk of a run.
pub fn disk_of(alloc: Global, given: &Given) -> Result<MemDisk, AllocError> {
    let bytes = given.disk.to_vec(alloc)?;
    if bytes.len() > 65_536 {
        return Err(AllocError);
    }
    MemDisk::new(alloc, bytes, ROOM, given.calls.to_vec(alloc)?, None)
}

/// Runs `live` over an input that comes in pieces of seven bytes.
pub fn run<R: Threads + Wait + Sync, F: Fn(&Change) -> HookAnswer + Sync, G: Gate + Sync>(
    rt: &R,
    alloc: Global,
    given: &Given,
    brands: &Brands<F>,
    gate: &G,
) -> Result<Ended, Fail>
    requires { AllFollow F.Fn brands.now }
{
    let words = words_of(alloc, given)?;
    let reads = given.reads.to_vec(alloc)?;
    let mut source = MemSource::new(given.input.to_vec(alloc)?, 7, reads);
    let mut out = sink_of(alloc, given.outs)?;
    let mut err = sink_of(alloc, given.errs)?;
    let disk = disk_of(alloc, given)?;
    let (status, disk) = run_live(
        rt,
        alloc,
        &words,
        &mut source,
        &mut out,
        &mut err,
        disk,
        brands,
        gate,
    );
    Ok(Ended {
        status,
        out,
        err,
        disk,
    })
}

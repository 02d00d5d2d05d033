//! A zone with what it has in the kernel, and what a call on it came to. What is done goes through helpers without
//! contracts, so that no test's proof follows what a cell holds.
use kernel_objects::{Errno, KernelCell, KernelFault, KernelShared, ProcRow, Running, Signal};
use priv_sets::limit_of;
use std::alloc::Global;
use std::test::Fail;
use zn_base::{AbsPath, Text, ZoneName};

/// A zone with its cell, and what other zones may ask.
pub struct Zone {
    name: ZoneName,
    pub cell: KernelCell,
    pub shared: KernelShared,
}

impl Drop for Zone {
    fn drop(self) {
        let Zone {
            name: _name,
            cell: _cell,
            shared: _shared,
        } = self;
    }
}

/// What a call came to.
#[derive(Clone, Copy, Debug, PartialEq, Eq)]
pub enum Came {
    Done,
    NotSo,
    NotFree,
    Fault(KernelFault),
}

pub const DONE: Came = Came::Done;

pub const ESRCH: Came = Came::Fault(KernelFault::Refused(Errno::ESRCH));

pub const EPERM: Came = Came::Fault(KernelFault::Refused(Errno::EPERM));

pub const EAGAIN: Came = Came::Fault(KernelFault::Refused(Errno::EAGAIN));

pub const MEMORY: Came = Came::Fault(KernelFault::Memory);

fn told(answer: Result<(), KernelFault>) -> Came {
    match answer {
        Ok(()) => DONE,
        Err(fault) => Came::Fault(fault),
    }
}

pub fn refused(answer: Result<(), Errno>) -> Came {
    match answer {
        Ok(()) => DONE,
        Err(errno) => Came::Fault(KernelFault::Refused(errno)),
    }
}

/// The number of a process, its parent's, and its name.
pub type Row = (u32, u32, &'static [u8]);

fn are_rows(listed: &[ProcRow], rows: &[Row]) -> bool {
    if listed.len() != rows.len() {
        return false;
    }
    for (row, (pid, parent, name)) in listed.iter().zip(rows) {
        if row.pid != *pid || row.parent != *parent || row.name.bytes() != *name {
            return false;
        }
    }
    true
}

fn are_paths(devices: &[AbsPath], paths: &[&[u8]]) -> bool {
    if devices.len() != paths.len() {
        return false;
    }
    for (device, path) in devices.iter().zip(paths) {
        if device.bytes() != *path {
            return false;
        }
    }
    true
}

impl Zone {
    pub fn new(alloc: Global) -> Result<Box<Zone>, Fail> {
        let name = ZoneName::read(alloc, b"a")?;
        let zone = Zone {
            name,
            cell: KernelCell::new(alloc),
            shared: KernelShared::new(alloc),
        };
        Ok(Box::new(alloc, zone)?)
    }

    pub fn activate(&mut self, alloc: Global, zid: u32) -> Came {
        if !self.shared.zid_free(zid) {
            return Came::NotFree;
        }
        told(self.cell.activate(alloc, &mut self.shared, &self.name, zid))
    }

    /// A zone that has an id, the limit set of a limitpriv text and so many processes at most.
    pub fn limited(alloc: Global, limit: &[u8], most: Option<u64>) -> Result<Box<Zone>, Fail> {
        let mut zone = Zone::new(alloc)?;
        zone.activate(alloc, 1);
        zone.cell
            .set_limits(limit_of(limit)?, most, Text::empty(alloc));
        Ok(zone)
    }

    pub fn enter(
        &mut self,
        alloc: Global,
        name: &[u8],
        first: bool,
        pid: u32,
    ) -> Result<Came, Fail> {
        let name = Text::read(alloc, name)?;
        if !self.shared.pid_free(pid) {
            return Ok(Came::NotFree);
        }
        Ok(told(
            self.cell
                .enter(alloc, &mut self.shared, &self.name, name, first, pid),
        ))
    }

    pub fn fork(
        &mut self,
        alloc: Global,
        parent: u32,
        name: &[u8],
        pid: u32,
    ) -> Result<Came, Fail> {
        let name = Text::read(alloc, name)?;
        if !self.shared.pid_free(pid) {
            return Ok(Came::NotFree);
        }
        Ok(told(
            self.cell
                .fork(alloc, &mut self.shared, &self.name, parent, name, pid),
        ))
    }

    pub fn begin(&mut self, alloc: Global, pid: u32, running: &Running) -> bool {
        self.shared.pid_free(pid)
            && self
                .cell
                .begin(alloc, &mut self.shared, &self.name, pid, running)
                .is_ok()
    }

    pub fn rename(&mut self, alloc: Global, pid: u32, name: &[u8]) -> Result<Came, Fail> {
        let name = Text::read(alloc, name)?;
        Ok(refused(self.cell.rename(pid, name)))
    }

    pub fn exit(&mut self, pid: u32) -> Came {
        refused(self.cell.exit(&mut self.shared, pid))
    }

    pub fn kill(&mut self, inside: bool, signal: Signal, pid: u32) -> Came {
        refused(self.cell.kill(&mut self.shared, inside, signal, pid))
    }

    pub fn kill_all(&mut self) -> u32 {
        self.cell.kill_all(&mut self.shared)
    }

    pub fn give_devices(&mut self, alloc: Global, patterns: &[Text]) -> Result<u32, KernelFault> {
        self.cell.give_devices(alloc, &self.shared, patterns)
    }

    pub fn drop_priv(&mut self, pid: u32, number: u8) -> Came {
        refused(self.cell.drop_priv(pid, number))
    }

    pub fn may_mount(&self, pid: u32) -> Came {
        refused(self.cell.check_mounter(pid))
    }

    pub fn may(&self, pid: u32, number: u8) -> bool {
        match self.cell.privs(pid) {
            Some(set) => set.has(number),
            None => false,
        }
    }

    /// Whether just these processes are listed, each with its parent and its name.
    pub fn lists(&self, alloc: Global, rows: &[Row]) -> Result<bool, Fail> {
        let listed = self.cell.list_procs(alloc)?;
        Ok(are_rows(listed.as_slice(), rows))
    }

    pub fn has_devices(&self, alloc: Global, paths: &[&[u8]]) -> Result<bool, Fail> {
        let devices = self.cell.list_devices(alloc)?;
        Ok(are_paths(devices.as_slice(), paths))
    }

    pub fn declare(&mut self, alloc: Global, path: &[u8]) -> Result<Came, Fail> {
        let path = AbsPath::read(alloc, path)?;
        Ok(told(self.shared.declare_device(path)))
    }
}

//! What other zones may ask.
ghost use Rattle.std.specs.Prelude.{◌≡◌, ◌<◌, [], None, OnErr, OnOk, bytes_eq, if◌then◌else◌, nat_eq, IfOk, false, length, ℕ, ◌≤◌};
ghost use Rattle.std.specs.List.{list_any};
ghost use Rattle.std.specs.Option.{option_map};
ghost use Rattle.zn_base.specs.Answers.{AnswersUnless};
ghost use Rattle.zone_pools.specs.declared.limits.TheConstants.{PID_MAX, PID_MIN, ZID_MAX, ZID_MIN};
ghost use Rattle.kernel_objects.specs.Kernel.{has_zid};
ghost use Rattle.kernel_objects.specs.Processes.{has_pid};
ghost use Rattle.kernel_objects.specs.Shared.{Alike, FreesPids, FreesZids, TakesPid, TakesZid, declare_answer, declaring, is_declared, is_free, next_pid, next_zid, pid_owner, pid_used, zid_owner, zid_used};

use crate::faults::KernelFault;
use crate::limits::DEVICES_MAX;
use crate::processes::Processes;
use std::alloc::{AllocError, Global};
use std::marker::Model;
use zn_base::{AbsPath, ZoneName};
use zone_pools::{Grant, Owners, PID_MAX, PID_MIN, Pool, ZID_MAX, ZID_MIN, next_free, numbered};

/// Who holds each number of a process and of a zone, the last ones given, and the declared devices. Contracts see
/// `Shared`.
#[derive(Drop)]
pub struct KernelShared {
    pids: Owners<u32>,
    zids: Owners<u32>,
    last_pid: u32,
    last_zid: u32,
    devices: Vec<AbsPath>,
}

impl Model for KernelShared {
    ghost use Rattle.std.specs.Prelude.{◌≤◌, length};
    ghost use Rattle.kernel_objects.specs.Shared.{Shared};

    ghost Value = { Shared };

    ghost view = { λ s. record { pids = s.pids; zids = s.zids; last_pid = s.last_pid; last_zid = s.last_zid; devices = s.devices.items } };

    ghost invariant = { λ s. length s.devices.items ≤ 1024 };
}

// Whether a path is among the devices.
fn has_device(devices: &[AbsPath], path: &AbsPath) -> bool
    ensures { result ≡ list_any (bytes_eq path.now) devices.now }
{
    devices.iter().any(|device| path.bytes() == device.bytes())
}

impl KernelShared {
    /// Nobody holds anything, the first process will have number 2 and the first zone number 1, and no device is
    /// declared. It takes no memory.
    pub fn new(alloc: Global) -> Self
        ensures pids { (n : ℕ) → pid_owner result n ≡ None }
        ensures zids { (n : ℕ) → zid_owner result n ≡ None }
        ensures last_pid { result.last_pid ≡ 1 }
        ensures last_zid { result.last_zid ≡ 0 }
        ensures devices { result.devices ≡ [] }
    {
        Self {
            pids: Owners::new(alloc),
            zids: Owners::new(alloc),
            last_pid: PID_MIN - 1,
            last_zid: ZID_MIN - 1,
            devices: Vec::new(alloc),
        }
    }

    /// The system restarts: the devices stay declared, and all else is as in a new one. It takes no memory.
    pub fn restart(&mut self, alloc: Global)
        ensures pids { (n : ℕ) → pid_owner self.new n ≡ None }
        ensures zids { (n : ℕ) → zid_owner self.new n ≡ None }
        ensures last_pid { self.new.last_pid ≡ 1 }
        ensures last_zid { self.new.last_zid ≡ 0 }
        ensures devices { self.new.devices ≡ self.old.devices }
    {
        self.pids = Owners::new(alloc);
        self.zids = Owners::new(alloc);
        self.last_pid = PID_MIN - 1;
        self.last_zid = ZID_MIN - 1;
    }

    fn check_device(&self, path: &AbsPath) -> Result<(), KernelFault>
        ensures { result ≡ declare_answer path.now self.now }
    {
        if has_device(&self.devices, path) {
            return Err(KernelFault::Duplicate);
        }
        if self.devices.len() >= DEVICES_MAX {
            return Err(KernelFault::TooMany(DEVICES_MAX));
        }
        Ok(())
    }

    fn push_device(&mut self, path: AbsPath) -> Result<(), AllocError>
        requires { length self.old.devices < 1024 }
        ensures declared { OnOk result (self.new ≡ declaring path self.old) }
        ensures same { OnErr result (self.new ≡ self.old) }
    {
        self.devices.push(path)?;
        Ok(())
    }

    /// Declares a device, one that isn't declared yet, 1,024 at most.
    pub fn declare_device(&mut self, path: AbsPath) -> Result<(), KernelFault>
        ensures result { AnswersUnless KernelFault.Memory (declare_answer path self.old) result }
        ensures declared { OnOk result (self.new ≡ declaring path self.old) }
        ensures same { OnErr result (self.new ≡ self.old) }
    {
        self.check_device(&path)?;
        self.push_device(path)?;
        Ok(())
    }

    /// The declared devices, in order of declaration, 1,024 at most.
    pub fn devices(&self) -> &[AbsPath]
        ensures devices { result.now ≡ self.now.devices }
        ensures bound { length result.now ≤ 1024 }
    {
        &self.devices
    }

    /// The number of the next process, 2 to 29999, or the pool's denial.
    pub fn next_pid(&self) -> Grant
        ensures { result ≡ next_pid self.now }
    {
        numbered(
            Pool::Pids,
            next_free(&self.pids, PID_MIN, PID_MAX, self.last_pid),
        )
    }

    /// The number of the next zone, 1 to 9999, or the pool's denial.
    pub fn next_zid(&self) -> Grant
        ensures { result ≡ next_zid self.now }
    {
        numbered(
            Pool::Zids,
            next_free(&self.zids, ZID_MIN, ZID_MAX, self.last_zid),
        )
    }

    /// Whether a process may have a number: it is in the pool's range, and no zone has it.
    pub fn pid_free(&self, pid: u32) -> bool
        ensures { result ≡ is_free PID_MIN PID_MAX (pid_used self.now) pid }
    {
        (PID_MIN..=PID_MAX).contains(&pid) && !self.pids.is_held(&pid)
    }

    /// Whether a zone may have a number: it is in the pool's range, and no zone has it.
    pub fn zid_free(&self, zid: u32) -> bool
        ensures { result ≡ is_free ZID_MIN ZID_MAX (zid_used self.now) zid }
    {
        (ZID_MIN..=ZID_MAX).contains(&zid) && !self.zids.is_held(&zid)
    }

    /// The zone that has a process, or nothing where none has it.
    pub fn owner(&self, pid: u32) -> Option<&ZoneName>
        ensures { option_map (λ zone. zone.now) result ≡ pid_owner self.now pid }
    {
        self.pids.owner(&pid)
    }

    /// The name of a zone that gets a process, with room for the process's number.
    pub(crate) fn room_for_pid(
        &mut self,
        alloc: Global,
        zone: &ZoneName,
    ) -> Result<ZoneName, AllocError>
        ensures alike { Alike self.old self.new }
        ensures same { self.new ≡ record self.old { pids = self.new.pids } }
        ensures owner { IfOk result (λ owner. owner ≡ zone.now) }
        ensures room { OnOk result (0 < self.new.pids.room) }
    {
        self.pids.reserve()?;
        zone.copy(alloc)
    }

    /// A process has a number from now on, which is the last one given.
    pub(crate) fn take_pid(&mut self, pid: u32, zone: ZoneName)
        requires free { pid_owner self.old pid ≡ None }
        requires room { 0 < self.old.pids.room }
        ensures { TakesPid zone pid self.old self.new }
    {
        self.pids.take_reserved(pid, zone);
        self.last_pid = pid;
    }

    /// The number of a process is nobody's from now on.
    pub(crate) fn free_pid(&mut self, pid: u32)
        ensures { FreesPids (nat_eq pid) self.old self.new }
    {
        self.pids.give_back(&pid);
    }

    /// The numbers of some processes are nobody's from now on.
    pub(crate) fn free_pids(&mut self, processes: &Processes)
        ensures { FreesPids (λ n. list_any (has_pid n) processes.now) self.old self.new }
    {
        processes.give_back(&mut self.pids);
    }

    /// The name of a zone that gets an id, with room for the id's number.
    pub(crate) fn room_for_zid(
        &mut self,
        alloc: Global,
        zone: &ZoneName,
    ) -> Result<ZoneName, AllocError>
        ensures alike { Alike self.old self.new }
        ensures same { self.new ≡ record self.old { zids = self.new.zids } }
        ensures owner { IfOk result (λ owner. owner ≡ zone.now) }
        ensures room { OnOk result (0 < self.new.zids.room) }
    {
        self.zids.reserve()?;
        zone.copy(alloc)
    }

    /// A zone has a number from now on, which is the last one given.
    pub(crate) fn take_zid(&mut self, zid: u32, zone: ZoneName)
        requires free { zid_owner self.old zid ≡ None }
        requires room { 0 < self.old.zids.room }
        ensures { TakesZid zone zid (λ n. false) self.old self.new }
    {
        self.zids.take_reserved(zid, zone);
        self.last_zid = zid;
    }

    /// The number of a zone is nobody's from now on.
    pub(crate) fn free_zid(&mut self, zid: u32)
        ensures freed { FreesZids (nat_eq zid) self.old self.new }
        ensures room { self.old.zids.room ≤ self.new.zids.room }
    {
        self.zids.give_back(&zid);
    }
}

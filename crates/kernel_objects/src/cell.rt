//! What one zone has in the kernel: its id with its limits, its processes and its devices.
ghost use Rattle.std.specs.Prelude.{◌≡◌, IfErr, IfSome, OnErr, OnOk, is_some, None, Some, [], true, ◌≤◌};
ghost use Rattle.std.specs.Option.{option_map};
ghost use Rattle.kernel_objects.specs.declared.faults.KernelFault.TheVariants.{Memory};
ghost use Rattle.kernel_objects.specs.Kernel.{at_limit, bootargs_of, cleared, fs_allowed_of, has_zid, is_nothing, limit_of, limited, new_id, nothing, reaches, with_bootargs, with_id, zid_of};
ghost use Rattle.kernel_objects.specs.Shared.{Alike, FreesZids, TakesZid, zid_owner};

use crate::faults::KernelFault;
use crate::objects::Id;
use crate::processes::Processes;
use crate::shared::KernelShared;
use priv_sets::PrivSet;
use std::alloc::Global;
use std::marker::Model;
use zn_base::{AbsPath, Text, ZoneName};

/// What one zone has in the kernel. Contracts see `Kernel`. It has no zone's name: a call that makes the shared part name
/// the zone is told the name. A cell and the shared part agree where the shared part names for the zone just what the
/// cell has, by `Agree`: then no process of the zone has a number that is nobody's.
pub struct KernelCell {
    pub(crate) id: Option<Id>,
    pub(crate) processes: Processes,
    pub(crate) devices: Vec<AbsPath>,
}

impl Drop for KernelCell {
    fn drop(self) {
        let KernelCell {
            id: _id,
            processes: _processes,
            devices: _devices,
        } = self;
    }
}

impl Model for KernelCell {
    ghost use Rattle.kernel_objects.specs.Kernel.{Kernel};

    ghost Value = { Kernel };

    ghost view = { λ c. record { id = c.id; processes = c.processes; devices = c.devices.items } };
}

// Whether so many are as many as there may be.
fn reaches(most: Option<u64>, count: u64) -> bool
    ensures { result ≡ reaches most count }
{
    match most {
        Some(most) => count >= most,
        None => false,
    }
}

impl KernelCell {
    /// A zone that has nothing. It takes no memory.
    pub fn new(alloc: Global) -> Self
        ensures { result ≡ nothing }
    {
        Self {
            id: None,
            processes: Processes::new(alloc),
            devices: Vec::new(alloc),
        }
    }

    /// Whether the zone has nothing.
    pub fn is_empty(&self) -> bool
        ensures { result ≡ is_nothing self.now }
    {
        self.id.is_none() && self.processes.len() == 0 && self.devices.is_empty()
    }

    /// The zone gets an id, with an empty limit set, no limit of processes and empty texts, in place of the one that it
    /// had, if any. Its number is nobody's, and is the last one given from now on. Where memory runs out nothing changes,
    /// so a caller that changes more than this calls it once all other memory is taken, and before it changes anything.
    pub fn activate(
        &mut self,
        alloc: Global,
        shared: &mut KernelShared,
        zone: &ZoneName,
        zid: u32,
    ) -> Result<(), KernelFault>
        requires { zid_owner shared.old zid ≡ None }
        ensures id { OnOk result (self.new ≡ record self.old { id = Some (new_id zid) }) }
        ensures taken { OnOk result (TakesZid zone.now zid (λ n. has_zid n self.old.id) shared.old shared.new) }
        ensures memory { IfErr result (λ e. e ≡ Memory) }
        ensures same { OnErr result (self.new ≡ self.old) }
        ensures alike { OnErr result (Alike shared.old shared.new) }
    {
        let owner = shared.room_for_zid(alloc, zone)?;
        self.free_zid(shared);
        shared.take_zid(zid, owner);
        self.id = Some(Id::new(alloc, zid));
        Ok(())
    }

    /// What the zone may have and do, by limitpriv, max-processes and fs-allowed of zonecfg(8): the limit set of its
    /// processes, how many there may be, and the types of file systems that it may mount. A zone without an id has none
    /// of it.
    pub fn set_limits(&mut self, limit: PrivSet, most: Option<u64>, fs_allowed: Text)
        ensures { self.new ≡ with_id (limited limit most fs_allowed) self.old }
    {
        if let Some(id) = &mut self.id {
            id.limit = limit;
            id.most = most;
            id.fs_allowed = fs_allowed;
        }
    }

    /// The arguments of the zone's boot. A zone without an id has none.
    pub fn set_bootargs(&mut self, args: Text)
        ensures { self.new ≡ with_id (with_bootargs args) self.old }
    {
        if let Some(id) = &mut self.id {
            id.bootargs = args;
        }
    }

    /// The types of file systems that the zone may mount, where it has an id.
    pub fn fs_allowed_of(&self) -> Option<&Text>
        ensures { option_map (λ text. text.now) result ≡ fs_allowed_of self.now.id }
    {
        match &self.id {
            Some(id) => Some(&id.fs_allowed),
            None => None,
        }
    }

    /// The arguments of the zone's boot, where it has an id.
    pub fn bootargs_of(&self) -> Option<&Text>
        ensures { option_map (λ text. text.now) result ≡ bootargs_of self.now.id }
    {
        match &self.id {
            Some(id) => Some(&id.bootargs),
            None => None,
        }
    }

    /// The limits and the boot arguments are as `activate` set them. A zone without an id has none. It takes no memory.
    pub fn clear_limits(&mut self, alloc: Global)
        ensures { self.new ≡ with_id cleared self.old }
    {
        if let Some(id) = &mut self.id {
            *id = Id::new(alloc, id.zid);
        }
    }

    /// The limits and the boot arguments are as `activate` set them, and the devices are gone. It takes no memory.
    pub fn clear(&mut self, alloc: Global)
        ensures { self.new ≡ record (with_id cleared self.old) { devices = [] } }
    {
        self.clear_limits(alloc);
        self.devices.clear();
    }

    /// The zone's number, where it has an id.
    pub fn zid_of(&self) -> Option<u32>
        ensures { result ≡ zid_of self.now.id }
    {
        match &self.id {
            Some(id) => Some(id.zid),
            None => None,
        }
    }

    // The zone's number, if it has one, is nobody's from now on.
    fn free_zid(&self, shared: &mut KernelShared)
        ensures freed { FreesZids (λ n. has_zid n self.now.id) shared.old shared.new }
        ensures room { shared.old.zids.room ≤ shared.new.zids.room }
    {
        if let Some(zid) = self.zid_of() {
            shared.free_zid(zid);
        }
    }

    /// The zone gives its id back, if it has one: its number is nobody's from now on. It takes no memory.
    pub fn give_up_id(&mut self, shared: &mut KernelShared)
        ensures id { self.new ≡ record self.old { id = None } }
        ensures freed { FreesZids (λ n. has_zid n self.old.id) shared.old shared.new }
    {
        self.free_zid(shared);
        self.id = None;
    }

    /// The zone gives its id back, and its number is answered. It takes no memory.
    pub fn deactivate(&mut self, shared: &mut KernelShared) -> u32
        requires { is_some self.old.id ≡ true }
        ensures zid { Some result ≡ zid_of self.old.id }
        ensures id { self.new ≡ record self.old { id = None } }
        ensures freed { FreesZids (λ n. has_zid n self.old.id) shared.old shared.new }
    {
        match self.zid_of() {
            Some(zid) => {
                self.give_up_id(shared);
                zid
            }
            None => unreachable!(),
        }
    }

    /// The zone's limit set, by limitpriv of zonecfg(8), which a process has that enters. A zone without an id has an empty
    /// one.
    pub fn limit(&self) -> PrivSet
        ensures { result ≡ limit_of self.now.id }
    {
        match &self.id {
            Some(id) => id.limit.copy(),
            None => PrivSet::none(),
        }
    }

    /// Whether the zone has as many processes as it may have.
    pub fn at_limit(&self) -> bool
        ensures { result ≡ at_limit self.now }
    {
        match &self.id {
            Some(id) => reaches(id.most, self.processes.len() as u64),
            None => false,
        }
    }
}

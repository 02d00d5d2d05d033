//! The mounts of one zone.
ghost use Rattle.std.specs.Prelude.{◌≡◌, ◌<◌, [], IsTrue, Ok, OnOk};
ghost use Rattle.std.specs.Option.{option_map};
ghost use Rattle.zone_pools.specs.Owned_lists.{Change, edited};
ghost use Rattle.loopback_mounts.specs.Mounts.{at_dir, freed_at, held_at, last_of, mount_answer, mount_at, mounted, unmounted, well_kept, with_hold, without_last};

use crate::mount::{Mount, MountEntry};
use crate::search::{find, search};
use std::alloc::{AllocError, Global};
use std::marker::Model;
use zn_base::AbsPath;

/// The mounts of one zone, and the holds of the global zone on them. Contracts see `Mounts`: their list, in byte
/// order of the directories, and for how many more there is room. It has no zone's name, and stands on no other
/// zone's mounts.
#[derive(Drop)]
pub struct MountCell {
    mounts: Vec<MountEntry>,
}

impl Model for MountCell {
    ghost use Rattle.std.specs.Prelude.{◌-◌, IsTrue, vec_capacity, vec_len};
    ghost use Rattle.loopback_mounts.specs.Mounts.{Mounts, well_kept};

    ghost Value = { Mounts };

    ghost view = { λ c. record { list = c.mounts.items; room = vec_capacity c.mounts - vec_len c.mounts } };

    ghost invariant = { λ c. IsTrue (well_kept c.mounts.items) };
}

impl MountCell {
    /// A zone without mounts. It takes no memory.
    pub fn new(alloc: Global) -> Self
        ensures { result.list ≡ [] }
    {
        Self {
            mounts: Vec::new(alloc),
        }
    }

    /// The mounts with their holds, in byte order of their directories.
    pub fn entries(&self) -> &[MountEntry]
        ensures entries { result.now ≡ self.now.list }
        ensures kept { IsTrue (well_kept result.now) }
    {
        &self.mounts
    }

    /// The mount at a directory.
    pub fn find(&self, dir: &AbsPath) -> Option<&MountEntry>
        ensures { option_map (λ m. m.now) result ≡ mount_at dir.now self.now.list }
    {
        find(self.entries(), dir.bytes())
    }

    /// Room for one more mount, so that the next `put_reserved` wants no memory.
    pub fn reserve(&mut self) -> Result<(), AllocError>
        ensures same { self.new.list ≡ self.old.list }
        ensures room { OnOk result (0 < self.new.room) }
    {
        self.mounts.reserve(1)
    }

    /// A mount comes to its place among the others, and is free. `check_mount` tells whether it may come. There is room
    /// for it, so this takes no memory.
    pub fn put_reserved(&mut self, mount: Mount)
        requires room { 0 < self.old.room }
        requires free { mount_answer mount.dir self.old.list ≡ Ok tt }
        ensures { self.new.list ≡ mounted mount self.old.list }
    {
        match search(&self.mounts, mount.dir.bytes()) {
            Err(at) => {
                let entry = MountEntry { mount, held: false };
                match self.mounts.insert(at, entry) {
                    Ok(()) => {}
                    Err(_) => unreachable!(),
                }
            }
            Ok(_) => unreachable!(),
        }
    }

    /// The mount at a directory goes, and is answered, where there is one. Nothing is looked at: `check_unmount` tells
    /// whether it may go. It takes no memory.
    pub fn take_out(&mut self, dir: &AbsPath) -> Option<Mount>
        ensures mount { result ≡ option_map (λ m. m.mount) (mount_at dir.now self.old.list) }
        ensures gone { self.new.list ≡ unmounted dir.now self.old.list }
    {
        match search(&self.mounts, dir.bytes()) {
            Ok(at) => Some(self.mounts.remove(at).mount),
            Err(_) => None,
        }
    }

    /// The mount with the greatest directory in byte order.
    pub fn last(&self) -> Option<&MountEntry>
        ensures { option_map (λ m. m.now) result ≡ last_of self.now.list }
    {
        self.entries().last()
    }

    /// The mount with the greatest directory goes, and is answered, where there is one. Nothing is looked at: `last`
    /// tells whether it is held. It takes no memory.
    pub fn take_last(&mut self) -> Option<Mount>
        ensures mount { result ≡ option_map (λ m. m.mount) (last_of self.old.list) }
        ensures gone { self.new.list ≡ without_last self.old.list }
    {
        match self.mounts.pop() {
            Some(entry) => Some(entry.mount),
            None => None,
        }
    }

    fn set_hold(&mut self, dir: &AbsPath, held: bool)
        ensures { self.new.list ≡ edited (Change (at_dir dir.now (with_hold held))) self.old.list }
    {
        if let Ok(at) = search(&self.mounts, dir.bytes()) {
            self.mounts[at].held = held;
        }
    }

    /// The global zone holds the mount at a directory, where there is one. Nothing is looked at: `check_hold` tells
    /// whether it may. It takes no memory.
    pub fn put_hold(&mut self, dir: &AbsPath)
        ensures { self.new.list ≡ held_at dir.now self.old.list }
    {
        self.set_hold(dir, true);
    }

    /// The mount at a directory is free, where there is one. Nothing is looked at: `check_release` tells whether it
    /// was held. It takes no memory.
    pub fn lift_hold(&mut self, dir: &AbsPath)
        ensures { self.new.list ≡ freed_at dir.now self.old.list }
    {
        self.set_hold(dir, false);
    }
}

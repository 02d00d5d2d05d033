//! What is done to a zone's mounts, and when it is refused.
ghost use Rattle.std.specs.Prelude.{◌≡◌, IfErr, IfOk, OnErr, OnOk, Ok};
ghost use Rattle.std.specs.List.Sorted.{IsStrictlySortedBy};
ghost use Rattle.std.specs.Result.{result_and};
ghost use Rattle.zn_base.specs.Answers.{AnswersUnless};
ghost use Rattle.loopback_mounts.specs.declared.faults.MountFault.TheVariants.{Memory};
ghost use Rattle.loopback_mounts.specs.Mounts.{after_last, freed_at, has_below, held_at, hold_answer, last_answer, listed, mount_answer, mounted, release_answer, unmount_answer, unmounted};

use crate::cell::MountCell;
use crate::faults::{HoldFault, MountFault};
use crate::limits::MOUNTS_MAX;
use crate::mount::{Last, Mount, MountEntry};
use crate::paths::is_below;
use kernel_objects::Errno;
use std::alloc::{AllocError, Global};
use zn_base::{AbsPath, Listing, TryClone};

// Equal mounts, without their holds.
fn copies(alloc: Global, entries: &[MountEntry]) -> Result<Listing<Mount>, AllocError>
    ensures { IfOk result (λ mounts. mounts ≡ listed entries.now) }
{
    let mut mounts = Listing::new(alloc);
    for entry in entries {
        mounts.push(entry.mount.try_clone(alloc)?)?;
    }
    Ok(mounts)
}

impl MountCell {
    /// Whether something may be mounted at a directory: EBUSY where it is a mount already, then `TooManyMounts` where
    /// the zone has 128. `put_reserved` does the rest.
    pub fn check_mount(&self, dir: &AbsPath) -> Result<(), MountFault>
        ensures { result ≡ mount_answer dir.now self.now.list }
    {
        if self.find(dir).is_some() {
            return Err(MountFault::Refused(Errno::EBUSY));
        }
        if self.entries().len() >= MOUNTS_MAX {
            return Err(MountFault::TooManyMounts);
        }
        Ok(())
    }

    /// A mount comes to its place among the others, by mount(2), and is free: EBUSY where its directory is a mount
    /// already, then `TooManyMounts` where the zone has 128.
    pub fn mount(&mut self, mount: Mount) -> Result<(), MountFault>
        ensures result { AnswersUnless MountFault.Memory (mount_answer mount.dir self.old.list) result }
        ensures mounted { OnOk result (self.new.list ≡ mounted mount self.old.list) }
        ensures same { OnErr result (self.new.list ≡ self.old.list) }
    {
        self.check_mount(&mount.dir)?;
        self.reserve()?;
        self.put_reserved(mount);
        Ok(())
    }

    // Whether a mount lies below a directory.
    fn has_below(&self, dir: &AbsPath) -> bool
        ensures { result ≡ has_below dir.now self.now.list }
    {
        self.entries()
            .iter()
            .any(|entry| is_below(dir.bytes(), entry.mount.dir.bytes()))
    }

    /// Whether the mount at a directory may go: EINVAL where it is no mount, then EBUSY where it is held or a mount
    /// lies below it. `take_out` does the rest.
    pub fn check_unmount(&self, dir: &AbsPath) -> Result<(), MountFault>
        ensures { result ≡ result_and (unmount_answer dir.now self.now.list) (Ok tt) }
    {
        match self.find(dir) {
            None => Err(MountFault::Refused(Errno::EINVAL)),
            Some(entry) if entry.held || self.has_below(dir) => {
                Err(MountFault::Refused(Errno::EBUSY))
            }
            Some(_) => Ok(()),
        }
    }

    /// The mount at a directory goes, by umount(2), and is answered: EINVAL where it is no mount, then EBUSY where it
    /// is held or a mount lies below it. It takes no memory.
    pub fn unmount(&mut self, dir: &AbsPath) -> Result<Mount, MountFault>
        ensures result { result ≡ unmount_answer dir.now self.old.list }
        ensures gone { OnOk result (self.new.list ≡ unmounted dir.now self.old.list) }
        ensures same { OnErr result (self.new.list ≡ self.old.list) }
    {
        self.check_unmount(dir)?;
        match self.take_out(dir) {
            Some(mount) => Ok(mount),
            None => Err(MountFault::Refused(Errno::EINVAL)),
        }
    }

    /// The mount with the greatest directory goes, as at a zone's halt, unless it is held. It takes no memory.
    pub fn unmount_last(&mut self) -> Last
        ensures result { result ≡ last_answer self.old.list }
        ensures gone { self.new.list ≡ after_last result self.old.list }
    {
        match self.last() {
            None => return Last::Nothing,
            Some(entry) if entry.held => return Last::Held,
            Some(_) => {}
        }
        match self.take_last() {
            Some(mount) => Last::Removed(mount),
            None => Last::Nothing,
        }
    }

    /// Whether the global zone may hold the mount at a directory: `NoMount` where it is no mount, `HoldState` where
    /// it is held already. `put_hold` does the rest.
    pub fn check_hold(&self, dir: &AbsPath) -> Result<(), HoldFault>
        ensures { result ≡ hold_answer dir.now self.now.list }
    {
        match self.find(dir) {
            None => Err(HoldFault::NoMount),
            Some(entry) if entry.held => Err(HoldFault::HoldState),
            Some(_) => Ok(()),
        }
    }

    /// The global zone holds the mount at a directory, so that it stays: `NoMount` where it is no mount, `HoldState`
    /// where it is held already. It takes no memory.
    pub fn hold(&mut self, dir: &AbsPath) -> Result<(), HoldFault>
        ensures result { result ≡ hold_answer dir.now self.old.list }
        ensures held { OnOk result (self.new.list ≡ held_at dir.now self.old.list) }
        ensures same { OnErr result (self.new.list ≡ self.old.list) }
    {
        self.check_hold(dir)?;
        self.put_hold(dir);
        Ok(())
    }

    /// Whether the mount at a directory is held: `NoMount` where it is no mount, `HoldState` where it is free.
    /// `lift_hold` does the rest.
    pub fn check_release(&self, dir: &AbsPath) -> Result<(), HoldFault>
        ensures { result ≡ release_answer dir.now self.now.list }
    {
        match self.find(dir) {
            None => Err(HoldFault::NoMount),
            Some(entry) if !entry.held => Err(HoldFault::HoldState),
            Some(_) => Ok(()),
        }
    }

    /// The global zone holds the mount at a directory no more: `NoMount` where it is no mount, `HoldState` where it is
    /// free. It takes no memory.
    pub fn release(&mut self, dir: &AbsPath) -> Result<(), HoldFault>
        ensures result { result ≡ release_answer dir.now self.old.list }
        ensures freed { OnOk result (self.new.list ≡ freed_at dir.now self.old.list) }
        ensures same { OnErr result (self.new.list ≡ self.old.list) }
    {
        self.check_release(dir)?;
        self.lift_hold(dir);
        Ok(())
    }

    /// The zone's mounts, as mount(8) lists them, in byte order of their directories.
    pub fn list(&self, alloc: Global) -> Result<Listing<Mount>, MountFault>
        ensures mounts { IfOk result (λ mounts. mounts ≡ listed self.now.list) }
        ensures memory { IfErr result (λ e. e ≡ Memory) }
    {
        Ok(copies(alloc, self.entries())?)
    }
}

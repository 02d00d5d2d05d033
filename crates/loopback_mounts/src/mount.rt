//! Mounts.
ghost use Rattle.std.specs.Prelude.{◌≡◌, IfOk};

use std::alloc::{AllocError, Global};
use zn_base::{AbsPath, Text, TryClone};

/// A mount of a zone, known by its directory, as a line of mnttab(5) tells it.
#[derive(Drop)]
pub struct Mount {
    /// Where it stands in the zone.
    pub dir: AbsPath,
    /// The type of the file system, as `lofs` or `root`.
    pub fstype: Text,
    /// What is mounted: a path of the global zone for lofs and root, else a word.
    pub special: Text,
    pub read_only: bool,
    /// Whether a process of the zone mounted it, and not the zone's boot.
    pub by_process: bool,
}

impl TryClone for Mount {
    fn try_clone(&self, alloc: Global) -> Result<Self, AllocError> {
        Ok(Mount {
            dir: self.dir.copy(alloc)?,
            fstype: self.fstype.copy(alloc)?,
            special: self.special.copy(alloc)?,
            read_only: self.read_only,
            by_process: self.by_process,
        })
    }
}

/// A mount as a zone has it.
#[derive(Drop)]
pub struct MountEntry {
    pub mount: Mount,
    /// Whether the global zone holds it, so that it stays.
    pub held: bool,
}

/// What becomes of the mount with the greatest directory, where a zone is halted.
#[derive(Drop)]
pub enum Last {
    /// There is no mount.
    Nothing,
    /// That mount is held, and stays.
    Held,
    Removed(Mount),
}

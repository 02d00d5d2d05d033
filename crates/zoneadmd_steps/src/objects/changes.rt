//! What becomes of a zone's objects, and what comes to the zone with a grant.
use commit_journal::Row;
use datalink_table::Claim;
use kernel_objects::Running;
use loopback_mounts::Mount;
use priv_sets::PrivSet;
use std::snapshot::Snapshot;
use zn_base::{AbsPath, Listing, Text, ZoneName};

/// What comes with a grant. A process and an id take their number from there.
#[derive(Drop)]
pub enum Came {
    /// The zone's first process, and the arguments of its boot.
    Process(Box<Running>, Text),
    Id,
    Claim(Claim),
    /// A record, and the name of the zone whose it is.
    Record(Box<Row>, ZoneName),
    /// A record with another zonepath, which takes its revision from the grant, the name of the zone, and whether the path is
    /// new to it.
    Moved(Box<Row>, ZoneName, bool),
    /// Nothing comes where the zone of a name may be cloned.
    Source(ZoneName),
}

/// What a zone may have and do: by limitpriv, max-processes, max-lwps and fs-allowed of zonecfg(8).
#[derive(Drop)]
pub struct Limits {
    pub set: PrivSet,
    /// How many processes there may be, if that is limited.
    pub most: Option<u64>,
    pub fs_allowed: Text,
}

/// What an event does to the zone's objects.
#[derive(Drop)]
pub enum ObjectEdit {
    Nothing,
    EndProcesses,
    /// The process of a number ends.
    EndProcess(u32),
    /// The process of a number runs another program.
    Rename(u32, Text),
    /// The process of a number gives up a privilege.
    GiveUp(u32, u8),
    /// A mount comes to its place among the others, and is free.
    Mount(Box<Mount>),
    /// The mount at a directory goes.
    Unmount(AbsPath),
    /// The last mount goes, which is at this directory.
    UnmountLast(Snapshot<AbsPath>),
    /// The global zone holds the mount at a directory.
    Hold(AbsPath),
    /// The mount at a directory is free.
    Release(AbsPath),
    /// The latest claim ends.
    EndClaim,
    /// The latest claim ends, which is this.
    ReleaseLast(Snapshot<Claim>),
    /// The zone has these devices and no others.
    SetDevices(Listing<AbsPath>),
    /// The zone has no devices.
    DropDevices,
    EndIds,
    SetLimits(Box<Limits>),
    /// The arguments of the zone's boot.
    SetBootargs(Text),
    ClearLimits,
    /// The limits and the devices are given up.
    Clear,
}

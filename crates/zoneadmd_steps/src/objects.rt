//! The objects of the kernel that zones own, and what a daemon finds on the system.
pub(crate) mod changes;

use brand_hooks::BrandTables;
use datalink_table::ClaimCell;
use kernel_objects::{KernelCell, KernelShared};
use loopback_mounts::MountCell;

/// The objects of one zone.
#[derive(Clone, Copy)]
pub struct Objects<'z> {
    pub kernel: &'z KernelCell,
    pub mounts: &'z MountCell,
    pub claims: &'z ClaimCell,
}

/// What a daemon finds on the system: the declared devices, and the brands without their hooks.
#[derive(Clone, Copy)]
pub struct System<'s> {
    pub kernel: &'s KernelShared,
    pub brands: &'s BrandTables,
}

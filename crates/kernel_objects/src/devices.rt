//! The devices that a zone is given.
ghost use Rattle.std.specs.Prelude.{◌≡◌, ◌≤◌, [], IfErr, IfOk, OnErr, filter, length, OnOk};
ghost use Rattle.std.specs.List.{list_any};
ghost use Rattle.zn_base.specs.Glob.{glob};
ghost use Rattle.kernel_objects.specs.declared.faults.KernelFault.TheVariants.{Memory};
ghost use Rattle.kernel_objects.specs.Shared.{devices_for, fits_some};

use crate::cell::KernelCell;
use crate::faults::KernelFault;
use crate::shared::KernelShared;
use std::alloc::{AllocError, Global};
use zn_base::{AbsPath, Listing, Text, glob, try_clone_all};

// Whether one of some patterns fits a device.
fn fits_some(patterns: &[Text], device: &AbsPath) -> bool
    ensures { result ≡ fits_some patterns.now device.now }
{
    patterns
        .iter()
        .any(|pattern| glob(pattern.bytes(), device.bytes()))
}

// The declared devices that fit one of the patterns.
fn fitting(
    alloc: Global,
    declared: &[AbsPath],
    patterns: &[Text],
) -> Result<Vec<AbsPath>, AllocError>
    ensures { IfOk result (λ given. given.items ≡ filter (fits_some patterns.now) declared.now) }
{
    let mut given = Vec::new(alloc);
    for device in declared {
        if fits_some(patterns, device) {
            given.push(device.copy(alloc)?)?;
        }
    }
    Ok(given)
}

impl KernelShared {
    /// The declared devices that one of the patterns fits, in order of declaration, for `set_devices`.
    pub fn devices_for(&self, alloc: Global, patterns: &[Text]) -> Result<Vec<AbsPath>, KernelFault>
        ensures devices { IfOk result (λ given. given.items ≡ devices_for patterns.now self.now) }
        ensures bound { IfOk result (λ given. length given.items ≤ 1024) }
        ensures memory { IfErr result (λ e. e ≡ Memory) }
    {
        Ok(fitting(alloc, self.devices(), patterns)?)
    }
}

impl KernelCell {
    /// The zone has these devices, in this order, and no others. It takes no memory.
    pub fn set_devices(&mut self, devices: Vec<AbsPath>)
        ensures { self.new ≡ record self.old { devices = devices.items } }
    {
        self.devices = devices;
    }

    /// The zone has the declared devices that one of the patterns fits, in order of declaration, and no others. How many
    /// there are is answered. A caller that takes all memory before it changes anything calls `devices_for` first, and
    /// then `set_devices`.
    pub fn give_devices(
        &mut self,
        alloc: Global,
        shared: &KernelShared,
        patterns: &[Text],
    ) -> Result<u32, KernelFault>
        ensures given { OnOk result (self.new ≡ record self.old { devices = devices_for patterns.now shared.now }) }
        ensures count { IfOk result (λ count. count ≡ length (devices_for patterns.now shared.now)) }
        ensures memory { IfErr result (λ e. e ≡ Memory) }
        ensures same { OnErr result (self.new ≡ self.old) }
    {
        let given = shared.devices_for(alloc, patterns)?;
        let count = given.len() as u32;
        self.set_devices(given);
        Ok(count)
    }

    /// The zone has no device any more. It takes no memory.
    pub fn drop_devices(&mut self)
        ensures { self.new ≡ record self.old { devices = [] } }
    {
        self.devices.clear();
    }

    /// The zone's devices, in order of declaration.
    pub fn list_devices(&self, alloc: Global) -> Result<Listing<AbsPath>, KernelFault>
        ensures devices { IfOk result (λ devices. devices ≡ self.now.devices) }
        ensures memory { IfErr result (λ e. e ≡ Memory) }
    {
        Ok(try_clone_all(alloc, &self.devices)?)
    }
}

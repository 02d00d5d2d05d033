//! What is told of one zone outside any event: its objects, as its cell has them. A zone without a cell has none.
ghost use Rattle.std.specs.Prelude.{◌≡◌, IfOk, IsOkUnless};
ghost use Rattle.zone_machine.specs.Code.Told.{IsTold, world_in};
ghost use Rattle.zone_machine.specs.Machine.Told.{claims, console_in_use, devices, mounts, processes, zid_of};

use crate::faults::StepFault;
use crate::machine::Machine;
use crate::machine::parts::Parts;
use brand_hooks::{Change, HookAnswer};
use datalink_table::ClaimKind;
use kernel_objects::ProcRow;
use loopback_mounts::Mount;
use std::alloc::Global;
use zn_base::{AbsPath, Text, ZoneName};
use zn_io::Disk;

impl Parts {
    fn processes(&self, alloc: Global, zone: &ZoneName) -> Result<Vec<ProcRow>, StepFault>
        ensures ok { IfOk result (λ rows. rows.items ≡ processes (world_in zone.now self.now)) }
        ensures err { IsOkUnless result StepFault.Memory }
    {
        let Some(cell) = self.cells.get(zone) else {
            return Ok(Vec::new(alloc));
        };
        match cell.kernel.list_procs(alloc) {
            Ok(rows) => Ok(rows.into_vec()),
            Err(_) => Err(StepFault::Memory),
        }
    }

    fn mounts(&self, alloc: Global, zone: &ZoneName) -> Result<Vec<Mount>, StepFault>
        ensures ok { IfOk result (λ list. list.items ≡ mounts (world_in zone.now self.now)) }
        ensures err { IsOkUnless result StepFault.Memory }
    {
        let Some(cell) = self.cells.get(zone) else {
            return Ok(Vec::new(alloc));
        };
        match cell.mounts.list(alloc) {
            Ok(mounts) => Ok(mounts.into_vec()),
            Err(_) => Err(StepFault::Memory),
        }
    }

    fn claims(
        &self,
        alloc: Global,
        zone: &ZoneName,
        kind: ClaimKind,
    ) -> Result<Vec<Text>, StepFault>
        ensures ok { IfOk result (λ items. items.items ≡ claims kind (world_in zone.now self.now)) }
        ensures err { IsOkUnless result StepFault.Memory }
    {
        let Some(cell) = self.cells.get(zone) else {
            return Ok(Vec::new(alloc));
        };
        match cell.claims.list(alloc, kind) {
            Ok(items) => Ok(items.into_vec()),
            Err(_) => Err(StepFault::Memory),
        }
    }

    fn devices(&self, alloc: Global, zone: &ZoneName) -> Result<Vec<AbsPath>, StepFault>
        ensures ok { IfOk result (λ paths. paths.items ≡ devices (world_in zone.now self.now)) }
        ensures err { IsOkUnless result StepFault.Memory }
    {
        let Some(cell) = self.cells.get(zone) else {
            return Ok(Vec::new(alloc));
        };
        match cell.kernel.list_devices(alloc) {
            Ok(paths) => Ok(paths.into_vec()),
            Err(_) => Err(StepFault::Memory),
        }
    }

    fn console_in_use(&self, zone: &ZoneName) -> bool
        ensures { result ≡ console_in_use (world_in zone.now self.now) }
    {
        let Some(cell) = self.cells.get(zone) else {
            return false;
        };
        match &cell.console {
            Some(console) => console.in_use(),
            None => false,
        }
    }

    fn zid_of(&self, zone: &ZoneName) -> Option<u32>
        ensures { result ≡ zid_of (world_in zone.now self.now) }
    {
        match self.cells.get(zone) {
            Some(cell) => cell.kernel.zid_of(),
            None => None,
        }
    }
}

impl<'b, D: Disk, F: Fn(&Change) -> HookAnswer> Machine<'b, D, F> {
    /// The processes of a zone as ps(1) lists them, in order of their numbers.
    pub fn processes(&self, alloc: Global, zone: &ZoneName) -> Result<Vec<ProcRow>, StepFault>
        ensures ok { IfOk result (λ rows. IsTold self.now.parts zone.now processes rows.items) }
        ensures err { IsOkUnless result StepFault.Memory }
    {
        Ok(self.parts.processes(alloc, zone)?)
    }

    /// The mounts of a zone, in byte order of their directories.
    pub fn mounts(&self, alloc: Global, zone: &ZoneName) -> Result<Vec<Mount>, StepFault>
        ensures ok { IfOk result (λ list. IsTold self.now.parts zone.now mounts list.items) }
        ensures err { IsOkUnless result StepFault.Memory }
    {
        Ok(self.parts.mounts(alloc, zone)?)
    }

    /// The items of a kind that a zone holds, in the order of its claims.
    pub fn claims(
        &self,
        alloc: Global,
        zone: &ZoneName,
        kind: ClaimKind,
    ) -> Result<Vec<Text>, StepFault>
        ensures ok { IfOk result (λ items. IsTold self.now.parts zone.now (claims kind) items.items) }
        ensures err { IsOkUnless result StepFault.Memory }
    {
        Ok(self.parts.claims(alloc, zone, kind)?)
    }

    /// The devices that a zone was given.
    pub fn devices(&self, alloc: Global, zone: &ZoneName) -> Result<Vec<AbsPath>, StepFault>
        ensures ok { IfOk result (λ paths. IsTold self.now.parts zone.now devices paths.items) }
        ensures err { IsOkUnless result StepFault.Memory }
    {
        Ok(self.parts.devices(alloc, zone)?)
    }

    /// Whether the console of a zone keeps something, or a session has it. It takes no memory.
    pub fn console_in_use(&self, zone: &ZoneName) -> bool
        ensures { IsTold self.now.parts zone.now console_in_use result }
    {
        self.parts.console_in_use(zone)
    }

    /// The number of a zone's id, where it has one. It takes no memory.
    pub fn zid_of(&self, zone: &ZoneName) -> Option<u32>
        ensures { IsTold self.now.parts zone.now zid_of result }
    {
        self.parts.zid_of(zone)
    }
}

//! The machine taken apart, so that its cells may lie apart from one another and from what zones share, and put together again.
ghost use Rattle.std.specs.Prelude.{◌≡◌, ◌<◌, IsOkUnless, None, OnOk, bytes_eq, is_some, true};
ghost use Rattle.indexmap.specs.IndexMap.{get_by, spare};
ghost use Rattle.zn_base.specs.Names.{Name};
ghost use Rattle.zone_cases.specs.Code.Cells.{Outside, cell_world, empty_world, world_or_empty};
ghost use Rattle.zone_cases.specs.State.{State};
ghost use Rattle.zone_machine.specs.Code.Cells.{cell_at};
ghost use Rattle.zone_machine.specs.Code.Openings.{StandsFor};
ghost use Rattle.zone_machine.specs.Code.Partings.{StandApart};
ghost use Rattle.zone_machine.specs.Code.Steps.{AsItWas};

use crate::faults::StepFault;
use crate::machine::Machine;
use crate::machine::parts::Parts;
use crate::machine::shared::Shared;
use brand_hooks::Brands;
use indexmap::IndexMap;
use std::alloc::{AllocError, Global};
use zn_base::ZoneName;
use zn_io::Disk;
use zone_cases::{Cell, put};
use zone_disk::Bank;

/// A machine taken apart: a cell for each zone that has something, and perhaps for others; what zones share; and the bank of
/// records and the brands.
#[derive(Drop)]
pub struct Parted<'b, D: Disk, F> {
    pub cells: IndexMap<ZoneName, Cell>,
    pub shared: Shared,
    pub bank: Bank<D>,
    pub brands: &'b Brands<F>,
}

// A zone that had no cell has one that has nothing.
fn put_empty(cells: &mut IndexMap<ZoneName, Cell>, zone: ZoneName, cell: Cell)
    requires none { get_by (bytes_eq zone) cells.old ≡ None }
    requires room { 0 < spare cells.old }
    requires nothing { (out : Outside) → cell_world out cell ≡ empty_world out }
    ensures cell { is_some (get_by (bytes_eq zone) cells.new) ≡ true }
    ensures kept { (y : Name) → is_some (get_by (bytes_eq y) cells.old) ≡ true → is_some (get_by (bytes_eq y) cells.new) ≡ true }
    ensures same { (out : Outside) (y : Name) → world_or_empty out (get_by (bytes_eq y) cells.new) ≡ world_or_empty out (get_by (bytes_eq y) cells.old) }
{
    put(cells, zone, cell);
}

// A zone has a cell from now on. No zone has anything more or less by it, whether or not memory runs out.
fn make_cell(
    cells: &mut IndexMap<ZoneName, Cell>,
    alloc: Global,
    zone: &ZoneName,
) -> Result<(), AllocError>
    ensures cell { OnOk result (is_some (get_by (bytes_eq zone.now) cells.new) ≡ true) }
    ensures kept { (y : Name) → is_some (get_by (bytes_eq y) cells.old) ≡ true → is_some (get_by (bytes_eq y) cells.new) ≡ true }
    ensures same { (out : Outside) (y : Name) → world_or_empty out (get_by (bytes_eq y) cells.new) ≡ world_or_empty out (get_by (bytes_eq y) cells.old) }
{
    match cells.get(zone) {
        Some(_) => return Ok(()),
        None => {}
    }
    let key = zone.copy(alloc)?;
    cells.reserve(1)?;
    put_empty(cells, key, Cell::new(alloc));
    Ok(())
}

impl<'b, D: Disk, F> Machine<'b, D, F> {
    /// A zone has a cell from now on, which has nothing where the zone has nothing. The machine stands for just the states that it
    /// stood for, whether or not memory runs out.
    pub fn make_cell(&mut self, alloc: Global, zone: &ZoneName) -> Result<(), StepFault>
        ensures cell { OnOk result (is_some (cell_at zone.now self.new.parts) ≡ true) }
        ensures kept { (y : Name) → is_some (cell_at y self.old.parts) ≡ true → is_some (cell_at y self.new.parts) ≡ true }
        ensures same { AsItWas self.old.parts self.new.parts }
        ensures shared { self.new.parts.shared ≡ self.old.parts.shared }
        ensures bank { self.new.bank ≡ self.old.bank }
        ensures brands { self.new.brands ≡ self.old.brands }
        ensures err { IsOkUnless result StepFault.Memory }
    {
        make_cell(&mut self.parts.cells, alloc, zone)?;
        Ok(())
    }

    /// The machine is taken apart: what it is taken into stands for just the states that it stood for. It takes no memory.
    pub fn part(self) -> Parted<'b, D, F>
        ensures stands { (S : State) → (StandsFor S self.entry → StandApart S result) × (StandApart S result → StandsFor S self.entry) }
        ensures cells { result.cells ≡ self.entry.parts.cells }
        ensures shared { result.shared ≡ self.entry.parts.shared }
        ensures bank { result.bank ≡ self.entry.bank }
        ensures brands { result.brands ≡ self.entry.brands }
    {
        let Machine {
            parts,
            bank,
            brands,
        } = self;
        let Parts { cells, shared } = parts;
        Parted {
            cells,
            shared,
            bank,
            brands,
        }
    }

    /// A machine is put together: it stands for just the states that its parts stood for. It takes no memory.
    pub fn whole(parted: Parted<'b, D, F>) -> Self
        ensures stands { (S : State) → (StandApart S parted.entry → StandsFor S result) × (StandsFor S result → StandApart S parted.entry) }
        ensures shared { result.parts.shared ≡ parted.entry.shared }
        ensures bank { result.bank ≡ parted.entry.bank }
        ensures brands { result.brands ≡ parted.entry.brands }
    {
        let Parted {
            cells,
            shared,
            bank,
            brands,
        } = parted;
        Machine {
            parts: Parts { cells, shared },
            bank,
            brands,
        }
    }
}

//! What each zone shows of itself where all zones are listed, apart from the zones' cells.
ghost use Rattle.std.specs.Prelude.{◌≡◌, IfOk, OnOk, bytes_eq, true, if◌then◌else◌};
ghost use Rattle.kernel_objects.specs.Kernel.{zid_of};
ghost use Rattle.zn_base.specs.Names.{Name};
ghost use Rattle.zone_machine.specs.Code.Shown_zones.{has_place, shown_in};
ghost use Rattle.zone_machine.specs.Shown.{nothing_shown, shown_by};
ghost use Rattle.zoneadmd_steps.specs.Code.Desks.{as_desk};
ghost use Rattle.zoneadmd_steps.specs.Objects.{ids_of};

use indexmap::IndexMap;
use std::alloc::{AllocError, Global};
use zn_base::{ZoneName, ZoneState};
use zone_cases::Cell;

/// What a zone shows of itself: its state, where that is none of the stored ones, and its id.
#[derive(Clone, Copy)]
pub struct Shown {
    pub active: Option<ZoneState>,
    pub id: Option<u32>,
}

/// What each zone shows. One that isn't there shows nothing.
#[derive(Drop)]
pub struct ShownZones {
    pub(crate) zones: IndexMap<ZoneName, Shown>,
}

fn nothing() -> Shown
    ensures { result ≡ nothing_shown }
{
    Shown {
        active: None,
        id: None,
    }
}

// What a zone shows, by its cell.
fn shown_by_cell(cell: &Cell) -> Shown
    ensures { result ≡ shown_by (as_desk cell.now.desk) (ids_of cell.now.kernel.id) }
{
    Shown {
        active: cell.desk.active(),
        id: cell.kernel.zid_of(),
    }
}

impl ShownZones {
    /// No zone shows anything. It takes no memory.
    pub fn new(alloc: Global) -> Self
        ensures { (z : Name) → shown_in result z ≡ nothing_shown }
    {
        Self {
            zones: IndexMap::new(alloc),
        }
    }

    /// What a zone shows.
    pub fn get(&self, zone: &ZoneName) -> Shown
        ensures { result ≡ shown_in self.now zone.now }
    {
        match self.zones.get(zone) {
            Some(shown) => *shown,
            None => nothing(),
        }
    }

    /// A place for a zone, so that what it shows may be noted without memory. Nothing is changed by it, whether or not memory runs
    /// out.
    pub fn make_place(&mut self, alloc: Global, zone: &ZoneName) -> Result<(), AllocError>
        ensures same { (y : Name) → shown_in self.new y ≡ shown_in self.old y }
        ensures place { OnOk result (has_place zone.now self.new ≡ true) }
    {
        if self.zones.contains_key(zone) {
            return Ok(());
        }
        self.zones.insert(zone.copy(alloc)?, nothing())?;
        Ok(())
    }

    /// What a zone shows is noted, by its cell. It takes no memory.
    pub fn note(&mut self, zone: &ZoneName, cell: &Cell)
        requires { has_place zone.now self.old ≡ true }
        ensures { (y : Name) → shown_in self.new y ≡ (if bytes_eq zone.now y then shown_by (as_desk cell.now.desk) (ids_of cell.now.kernel.id) else shown_in self.old y) }
    {
        if let Some(shown) = self.zones.get_mut(zone) {
            *shown = shown_by_cell(cell);
        }
    }
}

//! The cells of a machine, each in a place of its own.
ghost use Rattle.std.specs.Prelude.{◌≡◌, ◌+◌, ◌^◌, ◌<◌, ◌≤◌, ◌++◌, ◌∷◌, [], IfErr, IfOk, OnOk, bytes_eq, map, vec_capacity, vec_len, if◌then◌else◌};
ghost use Rattle.indexmap.specs.IndexMap.{IsUnique, get_by, index_map_len, spare};
ghost use Rattle.zone_machine.specs.Code.Shown_zones.{shown_in};
ghost use Rattle.zone_machine.specs.Shown.{shown_by};
ghost use Rattle.zoneadmd_steps.specs.Code.Desks.{as_desk};
ghost use Rattle.zoneadmd_steps.specs.Objects.{ids_of};
ghost use Rattle.zn_base.specs.Names.{Name};
ghost use Rattle.daemon_threads.specs.Dealing.{IsDealt, IsRoomFor};
ghost use Rattle.daemon_threads.specs.Gathering.{back_cell, put_all, put_one};

use crate::cell::PlaceCell;
use indexmap::IndexMap;
use std::alloc::{AllocError, Global};
use zn_base::ZoneName;
use zone_cases::Cell;
use zone_machine::ShownZones;
use zone_threads::Back;

/// The zones in the order of their places, from 2 on; what lies in the places, from 1 on; what each zone shows; and room for the
/// cells where they come back.
#[derive(Drop)]
pub(crate) struct Dealt {
    pub zones: Vec<ZoneName>,
    pub cells: Vec<PlaceCell>,
    pub shown: ShownZones,
    pub room: IndexMap<ZoneName, Cell>,
}

// No zone yet, and room for as many places.
fn room_for(alloc: Global, places: usize) -> Result<Dealt, AllocError>
    ensures { IfOk result (IsRoomFor [] places) }
{
    Ok(Dealt {
        zones: Vec::new(alloc),
        cells: Vec::with_capacity(alloc, places)?,
        shown: ShownZones::new(alloc),
        room: IndexMap::with_capacity(alloc, places)?,
    })
}

// A zone gets a name for its place, and what it shows is noted.
fn show_zone(
    alloc: Global,
    dealt: &mut Dealt,
    zone: &ZoneName,
    cell: &Cell,
) -> Result<(), AllocError>
    ensures zones { OnOk result (dealt.new.zones.items ≡ dealt.old.zones.items ++ zone.now ∷ []) }
    ensures cells { dealt.new.cells ≡ dealt.old.cells }
    ensures room { dealt.new.room ≡ dealt.old.room }
    ensures shown { OnOk result ((y : Name) → shown_in dealt.new.shown y ≡ (if bytes_eq zone.now y then shown_by (as_desk cell.now.desk) (ids_of cell.now.kernel.id) else shown_in dealt.old.shown y)) }
{
    dealt.shown.make_place(alloc, zone)?;
    dealt.shown.note(zone, cell);
    dealt.zones.push(zone.copy(alloc)?)?;
    Ok(())
}

// All that the places of these cells take, but for the cells.
fn shown_zones(alloc: Global, cells: &IndexMap<ZoneName, Cell>) -> Result<Dealt, AllocError>
    ensures { IfOk result (IsRoomFor cells.now.entries (index_map_len cells.now + 1)) }
{
    let mut dealt = room_for(alloc, cells.len() + 1)?;
    for (zone, cell) in cells.iter() {
        show_zone(alloc, &mut dealt, zone, cell)?;
    }
    Ok(dealt)
}

/// Each zone of a map gets a place. Where memory runs out the map comes back.
pub(crate) fn deal(
    alloc: Global,
    cells: IndexMap<ZoneName, Cell>,
) -> Result<Dealt, IndexMap<ZoneName, Cell>>
    ensures dealt { IfOk result (IsDealt cells.entries) }
    ensures err { IfErr result (λ m. m ≡ cells) }
    ensures unique { IsUnique bytes_eq cells }
{
    match shown_zones(alloc, &cells) {
        Ok(dealt) => Ok(in_places(dealt, cells)),
        Err(_) => Err(cells),
    }
}

// Each cell goes to its place. It takes no memory.
fn in_places(mut dealt: Dealt, cells: IndexMap<ZoneName, Cell>) -> Dealt
    requires { IsRoomFor cells.entries (index_map_len cells + 1) dealt }
    ensures { IsDealt cells.entries result }
{
    dealt.cells.push_reserved(PlaceCell::Global);
    for (zone, cell) in cells {
        dealt.cells.push_reserved(PlaceCell::Zone(zone, cell));
    }
    dealt
}

// What lay in a place goes back to the map, if it is a zone's. It takes no memory.
fn put_back(cells: &mut IndexMap<ZoneName, Cell>, cell: PlaceCell)
    requires { 0 < spare cells.old }
    ensures put { (y : Name) → get_by (bytes_eq y) cells.new ≡ put_one (λ z. get_by (bytes_eq z) cells.old) cell y }
    ensures room { spare cells.old ≤ spare cells.new + 1 }
{
    match cell {
        PlaceCell::Global => {}
        PlaceCell::Zone(zone, cell) => match cells.insert(zone, cell) {
            Ok(_) => {}
            Err(_) => unreachable!(),
        },
    }
}

/// A map of the cells of places that were not used. It takes no memory.
pub(crate) fn gathered(
    room: IndexMap<ZoneName, Cell>,
    cells: Vec<PlaceCell>,
) -> IndexMap<ZoneName, Cell>
    requires { (room.entries ≡ []) × (vec_len cells ≤ spare room) }
    ensures { (y : Name) → get_by (bytes_eq y) result ≡ put_all cells.items y }
{
    let mut gathered = room;
    for cell in cells {
        put_back(&mut gathered, cell);
    }
    gathered
}

/// A map of the cells that came back. It takes no memory.
pub(crate) fn gathered_back(
    room: IndexMap<ZoneName, Cell>,
    backs: Vec<Back<PlaceCell>>,
) -> IndexMap<ZoneName, Cell>
    requires { (room.entries ≡ []) × (vec_len backs ≤ spare room) }
    ensures { (y : Name) → get_by (bytes_eq y) result ≡ put_all (map back_cell backs.items) y }
{
    let mut gathered = room;
    for back in backs {
        put_back(&mut gathered, back.cell);
    }
    gathered
}

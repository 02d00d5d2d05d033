//! The stored zones, in the order of their creation.
ghost use Rattle.std.specs.Prelude.{◌≡◌, ◌<◌, ◌↔◌, IsSome, IsTrue, option_map};
ghost use Rattle.indexmap.specs.IndexMap.{spare};
ghost use Rattle.zone_pools.specs.Firsts.{placed};
ghost use Rattle.commit_journal.specs.Store.{row_of};
ghost use Rattle.commit_journal.specs.Stored.{holds, may_stand, with_stored, without};
ghost use Rattle.commit_journal.specs.Zones.{rows_of};

use crate::{Record, Row};
use indexmap::IndexMap;
use zn_base::ZoneName;
use zone_pools::ZONES_MAX;

/// The stored zones by their names, each with its record.
pub type Zones = IndexMap<ZoneName, Row>;

/// What is stored of a zone.
#[tactic(auto, using(crate::proofs::Zones::row_is, crate::proofs::Zones::held_is))]
pub(crate) fn row_of<'z>(zones: &'z Zones, zone: &ZoneName) -> Option<&'z Row>
    ensures row { option_map (λ row. row.now) result ≡ row_of zone.now (rows_of zones.now.entries) }
    ensures held { IsSome result ↔ IsTrue (holds zone.now (rows_of zones.now.entries)) }
{
    zones.get(zone)
}

#[tactic(auto, using(crate::proofs::Zones::held_is))]
fn holds(zones: &Zones, zone: &ZoneName) -> bool
    ensures { result ≡ holds zone.now (rows_of zones.now.entries) }
{
    zones.contains_key(zone)
}

/// Whether the record of a zone may come next: a removal where the zone is stored, and anything else where
/// it is or has a place.
pub(crate) fn may_stand(zones: &Zones, zone: &ZoneName, stored: Option<&Record>) -> bool
    ensures { result ≡ may_stand zone.now (option_map (λ row. row.now) stored.entry) (rows_of zones.now.entries) }
{
    let is_held = holds(zones, zone);
    match stored {
        None => is_held,
        Some(_) => is_held || zones.len() < ZONES_MAX,
    }
}

#[tactic(auto, using(crate::proofs::Zones::placed_is))]
fn put(zones: &mut Zones, zone: ZoneName, row: Row)
    requires { 0 < spare zones.old }
    ensures { rows_of zones.new.entries ≡ placed zone row (rows_of zones.old.entries) }
{
    zones.insert(zone, row).unwrap();
}

#[tactic(auto, using(crate::proofs::Zones::without_is))]
fn remove(zones: &mut Zones, zone: &ZoneName)
    ensures { rows_of zones.new.entries ≡ without zone.now (rows_of zones.old.entries) }
{
    zones.shift_remove(zone);
}

/// A zone's new record comes into its place, or at the end, or the zone goes. It takes no memory.
pub(crate) fn apply(zones: &mut Zones, zone: ZoneName, stored: Option<Row>)
    requires { 0 < spare zones.old }
    ensures { rows_of zones.new.entries ≡ with_stored zone stored (rows_of zones.old.entries) }
{
    match stored {
        Some(row) => put(zones, zone, row),
        None => remove(zones, &zone),
    }
}

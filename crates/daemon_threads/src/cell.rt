//! What lies under a place's lock.
use zn_base::ZoneName;
use zone_cases::Cell;

/// What lies in a place: a zone's name and its cell, or nothing, in that of the global zone.
#[derive(Drop)]
pub enum PlaceCell {
    Global,
    Zone(ZoneName, Cell),
}

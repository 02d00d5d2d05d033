//! Rows of an index.
use uuid::Uuid;
use zn_base::{AbsPath, ZoneName, ZoneState};

/// What the index says of one stored zone: its name, its state, its zonepath and its UUID.
#[derive(Drop)]
pub struct IndexRow {
    pub name: ZoneName,
    pub state: ZoneState,
    pub path: AbsPath,
    pub uuid: Uuid,
}

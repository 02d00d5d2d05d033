//! What zones own, each thing with its zone's name.
use zn_base::ZoneName;

/// A thing of a zone.
#[derive(Drop)]
pub struct Owned<T> {
    pub zone: ZoneName,
    pub it: T,
}

//! Which zones are up: whose state is none of the stored ones. A zone that isn't there is not up.
ghost use Rattle.std.specs.Prelude.{◌≡◌, IfOk, OnErr, OnOk, bytes_eq, false, is_some, true, unwrap_or, if◌then◌else◌};
ghost use Rattle.indexmap.specs.IndexMap.{get_by};
ghost use Rattle.zn_base.specs.Names.{Name};

use indexmap::IndexMap;
use std::alloc::{AllocError, Global};
use zn_base::ZoneName;

/// Whether a zone is up.
pub(crate) fn is_up(ups: &IndexMap<ZoneName, bool>, zone: &ZoneName) -> bool
    ensures { result ≡ unwrap_or (get_by (bytes_eq zone.now) ups.now) false }
{
    match ups.get(zone) {
        Some(up) => *up,
        None => false,
    }
}

/// A place for a zone, so that it may be marked as up without memory. Nothing is changed by it, whether or not memory runs out.
pub(crate) fn make_place(
    alloc: Global,
    ups: &mut IndexMap<ZoneName, bool>,
    zone: &ZoneName,
) -> Result<(), AllocError>
    ensures same { (y : Name) → unwrap_or (get_by (bytes_eq y) ups.new) false ≡ unwrap_or (get_by (bytes_eq y) ups.old) false }
    ensures place { OnOk result (is_some (get_by (bytes_eq zone.now) ups.new) ≡ true) }
{
    if ups.contains_key(zone) {
        return Ok(());
    }
    ups.insert(zone.copy(alloc)?, false)?;
    Ok(())
}

// A zone is up from now on, or isn't. One that comes up has a place.
fn set_up(ups: &mut IndexMap<ZoneName, bool>, zone: &ZoneName, is: bool)
    requires { is ≡ true → is_some (get_by (bytes_eq zone.now) ups.old) ≡ true }
    ensures { (y : Name) → unwrap_or (get_by (bytes_eq y) ups.new) false ≡ (if bytes_eq zone.now y then is else unwrap_or (get_by (bytes_eq y) ups.old) false) }
{
    if let Some(up) = ups.get_mut(zone) {
        *up = is;
    }
}

/// A zone that was up, or wasn't, is so from now on, or isn't. One that comes up has a place.
pub(crate) fn mark(ups: &mut IndexMap<ZoneName, bool>, zone: &ZoneName, was: bool, is: bool)
    requires { was ≡ false → is ≡ true → is_some (get_by (bytes_eq zone.now) ups.old) ≡ true }
    ensures { unwrap_or (get_by (bytes_eq zone.now) ups.old) false ≡ was
        → (y : Name) → unwrap_or (get_by (bytes_eq y) ups.new) false ≡ (if bytes_eq zone.now y then is else unwrap_or (get_by (bytes_eq y) ups.old) false) }
{
    if is != was {
        set_up(ups, zone, is);
    }
}

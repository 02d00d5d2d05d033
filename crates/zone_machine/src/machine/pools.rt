//! What the pools give that all zones share, and which grants may be stated.
ghost use Rattle.std.specs.Prelude.{◌≡◌, ◌&&◌, ◌∷◌, [], ◌+◌, slice_get, if◌then◌else◌};
ghost use Rattle.std.specs.List.{list_any};
ghost use Rattle.datalink_table.specs.Shared.{ask_answer};
ghost use Rattle.zone_machine.specs.Code.Cells.{row_in};
ghost use Rattle.zone_pools.specs.Asked.{A_path, A_source, A_zone, An_item};
ghost use Rattle.commit_journal.specs.Zones.{rows_of};
ghost use Rattle.datalink_table.specs.Claims.{pool_of};
ghost use Rattle.zn_base.specs.Names.{Name};
ghost use Rattle.zone_machine.specs.Code.Needs.{asked_by, pools_in, sized, takes_path};
ghost use Rattle.zone_machine.specs.Machine.Pools.{is_path, path_taken};
ghost use Rattle.zone_pools.specs.Pools.{fits_asked, fits_pool, has_place, has_room, has_serial, is_pool, said_by_all};

use crate::machine::needs::Need;
use crate::machine::shared::Shared;
use crate::machine::ups::is_up;
use commit_journal::{Row, fits as fits_in_bank};
use datalink_table::Claim;
use indexmap::IndexMap;
use zn_base::{AbsPath, ZoneName, ZoneState};
use zone_pools::{Grant, Pool, SERIAL_MAX, ZONES_MAX};

fn is_path(path: &[u8], own: &Option<AbsPath>) -> bool
    ensures { result ≡ is_path path.now own.now }
{
    match own {
        Some(own) => path == own.bytes(),
        None => false,
    }
}

fn is_taken_at(rows: &IndexMap<ZoneName, Row>, at: usize, zone: &ZoneName, path: &[u8]) -> bool
    ensures { result ≡ takes_path zone.now path.now (slice_get rows.now.entries at) }
{
    match rows.get_index(at) {
        Some((owner, row)) => zone != owner && is_path(path, &row.config.zonepath),
        None => false,
    }
}

fn path_taken(rows: &IndexMap<ZoneName, Row>, zone: &ZoneName, path: &[u8]) -> bool
    ensures { result ≡ path_taken (rows_of rows.now.entries) zone.now path.now }
{
    for at in 0..rows.len() {
        if is_taken_at(rows, at, zone, path) {
            return true;
        }
    }
    false
}

// Whether a new zone still has a place.
#[tactic(auto, using(crate::proofs::Pools_laws::count_rows))]
fn has_place(shared: &Shared) -> bool
    ensures { result ≡ has_place (pools_in shared.now) }
{
    shared.rows.len() < ZONES_MAX
}

// Whether one more record of a zone can be counted, with so many bytes, and the bank has room for it.
fn may_store(shared: &Shared, zone: &ZoneName, size: usize) -> bool
    ensures { result ≡ (has_serial (pools_in shared.now) && (pools_in shared.now).may_store zone.now size) }
{
    shared.serial < SERIAL_MAX && fits_in_bank(shared.used, zone, size)
}

fn next_serial(shared: &Shared, zone: &ZoneName, size: usize) -> Grant
    ensures { result ≡ (if has_room (pools_in shared.now) zone.now (λ _. size) (shared.now.serial + 1) then Grant.Number (shared.now.serial + 1) else Grant.Denied Pool.Store) }
{
    if shared.serial < SERIAL_MAX && fits_in_bank(shared.used, zone, size) {
        Grant::Number(shared.serial + 1)
    } else {
        Grant::Denied(Pool::Store)
    }
}

fn new_zone(shared: &Shared, zone: &ZoneName, path: &[u8], size: usize) -> Grant
    ensures { result ≡ said_by_all (pools_in shared.now) zone.now (A_zone ∷ A_path path.now ∷ sized size ∷ []) Grant.Nothing }
{
    if !has_place(shared) {
        return Grant::Denied(Pool::Zones);
    }
    if path_taken(&shared.rows, zone, path) {
        return Grant::Denied(Pool::Paths);
    }
    next_serial(shared, zone, size)
}

// A path that is new to a zone that is stored, and a record of it.
fn new_path(shared: &Shared, zone: &ZoneName, path: &[u8], size: usize) -> Grant
    ensures { result ≡ said_by_all (pools_in shared.now) zone.now (A_path path.now ∷ sized size ∷ []) Grant.Nothing }
{
    if path_taken(&shared.rows, zone, path) {
        return Grant::Denied(Pool::Paths);
    }
    next_serial(shared, zone, size)
}

// An item that a zone would hold.
fn item(shared: &Shared, zone: &ZoneName, claim: &Claim) -> Grant
    ensures { result ≡ said_by_all (pools_in shared.now) zone.now (An_item (pool_of claim.now.kind) claim.now.item ∷ []) Grant.Nothing }
{
    shared.claims.ask(claim.kind, &claim.item, zone)
}

// Whether a zone may be cloned.
fn may_clone(shared: &Shared, source: &ZoneName) -> bool
    ensures { result ≡ (pools_in shared.now).may_clone source.now }
{
    match shared.rows.get(source) {
        Some(row) => matches!(row.state, ZoneState::Installed) && !is_up(&shared.ups, source),
        None => false,
    }
}

fn source(shared: &Shared, zone: &ZoneName, source: &ZoneName) -> Grant
    ensures { result ≡ said_by_all (pools_in shared.now) zone.now (A_source source.now ∷ []) Grant.Nothing }
{
    if may_clone(shared, source) {
        Grant::Yes
    } else {
        Grant::Denied(Pool::Source)
    }
}

/// What the pools give for a need.
pub(crate) fn grant_for(shared: &Shared, zone: &ZoneName, need: &Need) -> Grant
    ensures { result ≡ said_by_all (pools_in shared.now) zone.now (asked_by need.now) Grant.Nothing }
{
    match need {
        Need::Nothing => Grant::Nothing,
        Need::Pid => shared.kernel.next_pid(),
        Need::Zid => shared.kernel.next_zid(),
        Need::Record(size) => next_serial(shared, zone, *size),
        Need::Moved(path, size) => new_path(shared, zone, path, *size),
        Need::NewZone(path, size) => new_zone(shared, zone, path, *size),
        Need::Item(claim) => item(shared, zone, claim),
        Need::Source(name) => source(shared, zone, name),
    }
}

fn asks_pool(need: &Need, pool: Pool) -> bool
    ensures { result ≡ list_any (is_pool pool) (asked_by need.now) }
{
    match need {
        Need::Nothing => false,
        Need::Pid => pool == Pool::Pids,
        Need::Zid => pool == Pool::Zids,
        Need::Record(_) => pool == Pool::Store,
        Need::Moved(_, _) => pool == Pool::Paths || pool == Pool::Store,
        Need::NewZone(_, _) => pool == Pool::Zones || pool == Pool::Paths || pool == Pool::Store,
        Need::Item(claim) => pool == claim.kind.pool(),
        Need::Source(_) => pool == Pool::Source,
    }
}

fn serial_fits(shared: &Shared, zone: &ZoneName, size: usize, number: u32) -> bool
    ensures { result ≡ fits_pool (pools_in shared.now) zone.now number (sized size) }
{
    number >= 1 && may_store(shared, zone, size)
}

fn number_fits(shared: &Shared, zone: &ZoneName, need: &Need, number: u32) -> bool
    ensures { result ≡ fits_asked (pools_in shared.now) zone.now (asked_by need.now) (Grant.Number number) }
{
    match need {
        Need::Nothing => false,
        Need::Pid => shared.kernel.pid_free(number),
        Need::Zid => shared.kernel.zid_free(number),
        Need::Record(size) | Need::Moved(_, size) => serial_fits(shared, zone, *size, number),
        Need::Item(_) | Need::Source(_) => false,
        Need::NewZone(_, size) => has_place(shared) && serial_fits(shared, zone, *size, number),
    }
}

// Whether a yes may be stated for a need.
fn yes_fits(shared: &Shared, zone: &ZoneName, need: &Need) -> bool
    ensures { result ≡ fits_asked (pools_in shared.now) zone.now (asked_by need.now) Grant.Yes }
{
    match need {
        Need::Item(claim) => shared
            .claims
            .check_claim(claim.kind, &claim.item, zone)
            .is_ok(),
        Need::Source(_) => true,
        _ => false,
    }
}

/// Whether a grant may be stated for a need.
pub(crate) fn fits(shared: &Shared, zone: &ZoneName, need: &Need, grant: Grant) -> bool
    ensures { result ≡ fits_asked (pools_in shared.now) zone.now (asked_by need.now) grant }
{
    match grant {
        Grant::Nothing => matches!(need, Need::Nothing),
        Grant::Number(number) => number_fits(shared, zone, need, number),
        Grant::Yes => yes_fits(shared, zone, need),
        Grant::Denied(pool) => asks_pool(need, pool),
    }
}

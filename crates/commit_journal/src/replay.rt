//! Records applied one after the other.
ghost use Rattle.std.specs.Prelude.{◌≡◌, ◌<◌, ◌^◌, false, IfErr, IfOk, IfSome, IsTrue, Ok, length};
ghost use Rattle.commit_journal.specs.declared.records.Commit.{Commit};
ghost use Rattle.commit_journal.specs.Bodies.{body_text, IsCommit, IsRecord};
ghost use Rattle.commit_journal.specs.Replay.{Stops, TakesIn};
ghost use Rattle.commit_journal.specs.Store.{HasZones};
ghost use Rattle.commit_journal.specs.Stored.{may_stand};
ghost use Rattle.commit_journal.specs.Zones.{rows_of};

use crate::reading::read_commit;
use crate::rows::{Zones, apply, may_stand};
use crate::{Record, Row, StoreFault};
use indexmap::IndexMap;
use std::alloc::{AllocError, Global};
use zone_disk::Body;

// The row of a record that is in form, where there is one.
fn row_of(stored: Option<Record>) -> Option<Row>
    requires { IfSome stored IsRecord }
    ensures { result ≡ stored }
{
    match stored {
        Some(record) => Some(Row::new(record)),
        None => None,
    }
}

// Applies what a body says, if it says something that may come next.
fn take_in(alloc: Global, zones: &mut Zones, body: &[u8]) -> Result<bool, AllocError>
    ensures taken { IfOk result (λ is. IsTrue is → TakesIn body.now (rows_of zones.old.entries) (rows_of zones.new.entries)) }
    ensures refused { result ≡ Ok false → (c : Commit) → IsCommit c → body.now ≡ body_text c → may_stand c.zone c.stored (rows_of zones.old.entries) ≡ false }
{
    let Some(commit) = read_commit(alloc, body)? else {
        return Ok(false);
    };
    if !may_stand(zones, &commit.zone, commit.stored.as_ref()) {
        return Ok(false);
    }
    zones.reserve(1)?;
    apply(zones, commit.zone, row_of(commit.stored));
    Ok(true)
}

/// The zones that bodies leave, or the number, from 1, of the first one that is out of form, removes a zone
/// that isn't stored, or stores a 257th. No bodies leave no zones, which takes no memory.
pub(crate) fn replay(alloc: Global, bodies: &[Body]) -> Result<Zones, StoreFault>
    requires { length bodies.now < 2 ^ 32 }
    ensures zones { IfOk result (λ zones. HasZones bodies.now (rows_of zones.entries)) }
    ensures fault { IfErr result (Stops bodies.now) }
{
    let mut zones = IndexMap::new(alloc);
    for (place, body) in bodies.iter().enumerate() {
        if !take_in(alloc, &mut zones, body.bytes())? {
            return Err(StoreFault::RecordForm((place + 1) as u32));
        }
    }
    Ok(zones)
}

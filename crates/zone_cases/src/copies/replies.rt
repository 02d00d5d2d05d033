//! Copies of the two parts of replies.
ghost use Rattle.std.specs.Prelude.{◌≡◌, IfOk};

use crate::copies::refusals::copy_refusal;
use crate::copies::turns::copy_turn;
use crate::replies::{Body, Head};
use kernel_objects::ProcRow;
use std::alloc::{AllocError, Global};
use zn_base::{Listing, TryClone};

/// An equal first line.
pub(crate) fn copy_head(alloc: Global, head: &Head) -> Result<Head, AllocError>
    ensures { IfOk result (λ copy. copy ≡ head.now) }
{
    match head {
        Head::Ok => Ok(Head::Ok),
        Head::Ticket(ticket) => Ok(Head::Ticket(*ticket)),
        Head::Refused(refusal) => Ok(Head::Refused(copy_refusal(alloc, refusal)?)),
        Head::Turned(turn) => Ok(Head::Turned(copy_turn(alloc, turn)?)),
        Head::Status(status) => Ok(Head::Status(*status)),
    }
}

fn copy_row(alloc: Global, row: &ProcRow) -> Result<ProcRow, AllocError>
    ensures { IfOk result (λ copy. copy ≡ row.now) }
{
    Ok(ProcRow {
        pid: row.pid,
        parent: row.parent,
        name: row.name.copy(alloc)?,
    })
}

fn copy_rows(alloc: Global, rows: &[ProcRow]) -> Result<Listing<ProcRow>, AllocError>
    ensures { IfOk result (λ copies. copies ≡ rows.now) }
{
    let mut copies = Listing::new(alloc);
    for row in rows {
        copies.push(copy_row(alloc, row)?)?;
    }
    Ok(copies)
}

/// An equal body.
pub(crate) fn copy_body(alloc: Global, body: &Body) -> Result<Body, AllocError>
    ensures { IfOk result (λ copy. copy ≡ body.now) }
{
    Ok(match body {
        Body::Nothing => Body::Nothing,
        Body::Child(pid) => Body::Child(*pid),
        Body::Processes(rows) => Body::Processes(copy_rows(alloc, rows.as_slice())?),
        Body::Mounts(mounts) => Body::Mounts(mounts.try_clone(alloc)?),
        Body::Net(links, addresses) => Body::Net(
            links.try_clone(alloc)?,
            addresses.try_clone(alloc)?,
        ),
        Body::Datasets(datasets) => Body::Datasets(datasets.try_clone(alloc)?),
        Body::Devices(devices) => Body::Devices(devices.try_clone(alloc)?),
        Body::Lines(lines) => Body::Lines(lines.try_clone(alloc)?),
        Body::Why(refusal) => Body::Why(copy_refusal(alloc, refusal)?),
    })
}

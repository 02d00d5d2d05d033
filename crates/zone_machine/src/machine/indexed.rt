//! The index of what is stored.
ghost use Rattle.std.specs.Prelude.{◌≡◌, ◌++◌, IfOk, OnOk, map, slice_get};
ghost use Rattle.config_terms.specs.Fields.{path_text};
ghost use Rattle.commit_journal.specs.Zones.{rows_of};
ghost use Rattle.zone_machine.specs.Machine.Indexed.{index_row, row_at};
ghost use Rattle.zone_pools.specs.Owned_lists.{tag};

use commit_journal::Row;
use index_file::IndexRow;
use indexmap::IndexMap;
use std::alloc::{AllocError, Global};
use zn_base::{AbsPath, ZoneName};

// The zonepath of a row, which each has.
fn zonepath(alloc: Global, row: &Row) -> Result<AbsPath, AllocError>
    ensures { IfOk result (λ path. path ≡ path_text row.now.config.zonepath) }
{
    match &row.record().config.zonepath {
        Some(path) => path.copy(alloc),
        None => unreachable!(),
    }
}

// The index row of a stored zone.
fn index_row(alloc: Global, zone: &ZoneName, row: &Row) -> Result<IndexRow, AllocError>
    ensures { IfOk result (λ r. r ≡ index_row (tag zone.now row.now)) }
{
    Ok(IndexRow {
        name: zone.copy(alloc)?,
        state: row.state,
        path: zonepath(alloc, row)?,
        uuid: row.uuid,
    })
}

// The row at a place among the stored zones is put after others.
fn push_row(
    alloc: Global,
    rows: &IndexMap<ZoneName, Row>,
    at: usize,
    index: &mut Vec<IndexRow>,
) -> Result<(), AllocError>
    ensures { OnOk result (index.new.items ≡ index.old.items ++ row_at (slice_get rows.now.entries at)) }
{
    match rows.get_index(at) {
        Some((zone, row)) => {
            index.push(index_row(alloc, zone, row)?)?;
            Ok(())
        }
        None => Ok(()),
    }
}

/// An index row for each stored zone, in the order in which they were made.
pub(crate) fn index_rows(
    alloc: Global,
    rows: &IndexMap<ZoneName, Row>,
) -> Result<Vec<IndexRow>, AllocError>
    ensures { IfOk result (λ index. index.items ≡ map index_row (rows_of rows.now.entries)) }
{
    let mut index = Vec::new(alloc);
    for at in 0..rows.len() {
        push_row(alloc, rows, at, &mut index)?;
    }
    Ok(index)
}

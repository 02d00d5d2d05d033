//! What `list` of zoneadm(8) tells of all zones.
ghost use Rattle.std.specs.Prelude.{◌≡◌, ◌++◌, IfOk, OnOk, slice_get};
ghost use Rattle.zone_machine.specs.Code.Cells.{Stands};
ghost use Rattle.zone_cases.specs.Code.Rows.{as_row};
ghost use Rattle.zone_machine.specs.Code.Listed.{row_in_parts, told_entries, told_entry};
ghost use Rattle.zone_cases.specs.Session.Listed.{list_zones, listing};
ghost use Rattle.zone_cases.specs.State.{State};

use crate::machine::parts::Parts;
use commit_journal::Row;
use std::alloc::{AllocError, Global};
use zn_base::{Bytes, Listing, ZoneName};
use zone_cases::{Options, ZoneRow, bare_row, cell_row, is_listed, list_global, push_line};

impl Parts {
    fn zone_row<'p>(&'p self, zone: &'p ZoneName, row: &'p Row) -> ZoneRow<'p>
        ensures { as_row result ≡ row_in_parts self.now zone.now row.now }
    {
        match self.cells.get(zone) {
            Some(cell) => cell_row(zone, row, cell),
            None => bare_row(zone, row),
        }
    }

    // The line of the stored zone at a place is put last, where the options say so.
    fn push_zone(
        &self,
        alloc: Global,
        lines: &mut Listing<Bytes>,
        options: Options,
        at: usize,
    ) -> Result<(), AllocError>
        ensures { OnOk result (lines.new ≡ lines.old ++ told_entry options self.now (slice_get self.now.shared.rows.entries at)) }
    {
        let Some((zone, row)) = self.shared.rows.get_index(at) else {
            return Ok(());
        };
        let row = self.zone_row(zone, row);
        if is_listed(options, row.state) {
            push_line(alloc, lines, options.form, &row)
        } else {
            Ok(())
        }
    }

    // The lines of the stored zones that the options say are put last, in the order in which these were made.
    fn push_zones(
        &self,
        alloc: Global,
        lines: &mut Listing<Bytes>,
        options: Options,
    ) -> Result<(), AllocError>
        ensures { OnOk result (lines.new ≡ lines.old ++ told_entries options self.now self.now.shared.rows.entries) }
    {
        for at in 0..self.shared.rows.len() {
            self.push_zone(alloc, lines, options, at)?;
        }
        Ok(())
    }

    /// The lines that tell of the zones that the options say: the global zone first, and then the stored ones in the order in
    /// which they were made.
    #[inline(never)]
    pub(crate) fn list_zones(
        &self,
        alloc: Global,
        options: Options,
    ) -> Result<Listing<Bytes>, AllocError>
        ensures { IfOk result (λ lines. (S : State) → Stands S self.now → lines ≡ listing options.form (list_zones options S)) }
    {
        let mut lines = list_global(alloc, options)?;
        self.push_zones(alloc, &mut lines, options)?;
        Ok(lines)
    }
}

//! An event of the global zone, on what zones share and what they show, where their cells lie apart.
ghost use Rattle.std.specs.Prelude.{◌≡◌, ◌++◌, IfOk, IsOkUnless, OnErr, OnOk, slice_get};
ghost use Rattle.zone_cases.specs.Code.Lines.{as_line};
ghost use Rattle.zone_cases.specs.Code.Rows.{as_row};
ghost use Rattle.zone_cases.specs.Session.Listed.{list_zones, listing};
ghost use Rattle.zone_cases.specs.Session.Typed.{global_line};
ghost use Rattle.zone_cases.specs.State.{State};
ghost use Rattle.zone_cases.specs.declared.events.Subject.TheVariants as subject_variants;
ghost use Rattle.zone_machine.specs.Code.Cells.{SharedOf};
ghost use Rattle.zone_machine.specs.Code.Global_steps.{IsGlobalStep};
ghost use Rattle.zone_machine.specs.Code.Reads.{global_read};
ghost use Rattle.zone_machine.specs.Code.Shown_zones.{ShownOf, row_shown, shown_entries, shown_entry, shown_in};
ghost use Rattle.zone_machine.specs.Machine.Common.{common};

use crate::faults::StepFault;
use crate::machine::reads::{Read, listed_options, read_event, says, told, unlisted_line};
use crate::machine::shared::Shared;
use crate::machine::shown::{Shown, ShownZones};
use commit_journal::Row;
use std::alloc::{AllocError, Global};
use zn_base::{Bytes, Listing, ZoneName};
use zone_cases::{
    Entry, Event, Head, Line, Options, Reply, Subject, ZoneRow, bare_row, is_listed, list_global,
    push_line,
};
use zone_pools::Grant;

// What is told of a stored zone that shows this.
fn zone_row<'r>(zone: &'r ZoneName, row: &'r Row, shown: Shown) -> ZoneRow<'r>
    ensures { as_row result ≡ row_shown zone.now row.now shown }
{
    ZoneRow {
        state: shown.active.unwrap_or(row.state),
        id: shown.id,
        ..bare_row(zone, row)
    }
}

// The line of the stored zone at a place is put last, where the options say so.
fn push_zone(
    alloc: Global,
    lines: &mut Listing<Bytes>,
    options: Options,
    shared: &Shared,
    shown: &ShownZones,
    at: usize,
) -> Result<(), AllocError>
    ensures { OnOk result (lines.new ≡ lines.old ++ shown_entry options shown.now (slice_get shared.now.rows.entries at)) }
{
    let Some((zone, row)) = shared.rows.get_index(at) else {
        return Ok(());
    };
    let row = zone_row(zone, row, shown.get(zone));
    if is_listed(options, row.state) {
        push_line(alloc, lines, options.form, &row)
    } else {
        Ok(())
    }
}

// The lines of the stored zones that the options say are put last, in the order in which these were made.
fn push_zones(
    alloc: Global,
    lines: &mut Listing<Bytes>,
    options: Options,
    shared: &Shared,
    shown: &ShownZones,
) -> Result<(), AllocError>
    ensures { OnOk result (lines.new ≡ lines.old ++ shown_entries options shown.now shared.now.rows.entries) }
{
    for at in 0..shared.rows.len() {
        push_zone(alloc, lines, options, shared, shown, at)?;
    }
    Ok(())
}

// The lines that tell of the zones that the options say, by what they show.
fn list_shown(
    alloc: Global,
    options: Options,
    shared: &Shared,
    shown: &ShownZones,
) -> Result<Listing<Bytes>, AllocError>
    ensures { IfOk result (λ lines. (S : State) → SharedOf shared.now (common S) → ShownOf shown.now S → lines ≡ listing options.form (list_zones options S)) }
{
    let mut lines = list_global(alloc, options)?;
    push_zones(alloc, &mut lines, options, shared, shown)?;
    Ok(lines)
}

// What a line is answered that belongs to no zone, by what the zones show.
fn global_line(
    alloc: Global,
    shared: &Shared,
    shown: &ShownZones,
    line: Line<'_>,
) -> Result<Reply, AllocError>
    ensures { IfOk result (λ reply. (S : State) → SharedOf shared.now (common S) → ShownOf shown.now S → reply ≡ global_line S (as_line line.entry)) }
{
    match listed_options(line) {
        Some(options) => Ok(told(list_shown(alloc, options, shared, shown)?)),
        None => unlisted_line(alloc, line),
    }
}

// What an event is answered that is no zone's, by what the zones show.
fn global_reply(
    alloc: Global,
    shared: &Shared,
    shown: &ShownZones,
    read: Read<'_>,
) -> Result<Reply, AllocError>
    ensures { IfOk result (λ reply. (S : State) → SharedOf shared.now (common S) → ShownOf shown.now S → reply ≡ global_read S read.entry) }
{
    match read {
        Read::Line(_, line) => global_line(alloc, shared, shown, line),
        Read::Turn(_) | Read::Process(_, _, _) | Read::System(_) | Read::Restart => Ok(says(
            Head::Ok,
        )),
    }
}

/// An event of the global zone is answered on the shared part, by what the zones show. Where memory runs out, the shared part is
/// as it was.
pub fn global_step(
    alloc: Global,
    shared: &mut Shared,
    shown: &ShownZones,
    event: Event,
) -> Result<Entry, StepFault>
    ensures event { IfOk result (λ entry. entry.event ≡ event) }
    ensures of { IfOk result (λ entry. entry.subject ≡ subject_variants.Global) }
    ensures ok { IfOk result (λ entry. IsGlobalStep shared.old shown.now event entry shared.new) }
    ensures err { IsOkUnless result StepFault.Memory }
    ensures same { OnErr result (shared.new ≡ shared.old) }
    ensures rows { shared.new.rows ≡ shared.old.rows }
    ensures used { shared.new.used ≡ shared.old.used }
    ensures brands { shared.new.brands ≡ shared.old.brands }
{
    let reply = global_reply(alloc, shared, shown, read_event(&event))?;
    shared.started = true;
    Ok(Entry {
        event,
        subject: Subject::Global,
        grant: Grant::Nothing,
        reply,
    })
}

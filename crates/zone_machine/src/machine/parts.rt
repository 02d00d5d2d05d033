//! The parts of the machine: a cell for each zone that has something, and what zones share.
ghost use Rattle.std.specs.Prelude.{◌≡◌, ◌<◌, IfOk, IsOkUnless, List, None, Some, length};
ghost use Rattle.zone_machine.specs.Code.Cells.{Stands, cell_at, outside_in, row_in};
ghost use Rattle.zone_cases.specs.Code.Cells.{world_or_empty};
ghost use Rattle.zone_machine.specs.Code.Reads.{IsRightRead, decide_read, is_turn, is_turn_read, subject_in};
ghost use Rattle.zone_machine.specs.Code.Decided.{IsCellAt, IsHeard, IsNextHook, IsPlacedTurn, turn_records};
ghost use Rattle.commit_journal.specs.Stored.{stored};
ghost use Rattle.commit_journal.specs.Zones.{rows_of};
ghost use Rattle.commit_journal.specs.declared.records.Commit.{Commit};
ghost use Rattle.zone_cases.specs.State.{bytes_used, State};
ghost use Rattle.zone_machine.specs.Code.Steps.{IsAllowed, IsTaken};
ghost use Rattle.zoneadmd_steps.specs.Desks.{state_of};
ghost use Rattle.zone_machine.specs.Machine.{decide, opening, restarted};
ghost use Rattle.zone_cases.specs.State.Worlds.{View};
ghost use Rattle.zone_cases.specs.declared.events.Subject.TheVariants.{Zone};

use crate::faults::StepFault;
use crate::machine::reads::{Read, read_event, subject};
use crate::machine::shared::Shared;
use crate::machine::steps::cell_grant;
use brand_hooks::{BrandTables, Change, HookAnswer};
use commit_journal::Zones;
use indexmap::IndexMap;
use std::alloc::Global;
use zn_base::{ZoneName, ZoneState};
use zone_cases::{Cell, Event, Subject};
use zone_pools::Grant;

/// A cell for each zone that has something, and what zones share.
#[derive(Drop)]
pub(crate) struct Parts {
    pub(crate) cells: IndexMap<ZoneName, Cell>,
    pub(crate) shared: Shared,
}

impl Parts {
    /// Where these zones are stored, by so many records that use so many bytes of the bank, and there are these brands. It
    /// takes no memory.
    pub(crate) fn opened(
        alloc: Global,
        brands: BrandTables,
        rows: Zones,
        serial: u32,
        used: u32,
    ) -> Self
        ensures stands { (R : List Commit) → stored R ≡ rows_of rows.entries → length R ≡ serial → bytes_used R ≡ used → Stands (opening brands R) result }
        ensures rows { rows_of result.shared.rows.entries ≡ rows_of rows.entries }
        ensures used { result.shared.used ≡ used }
        ensures brands { result.shared.brands ≡ brands }
    {
        Self {
            cells: IndexMap::new(alloc),
            shared: Shared::opened(alloc, brands, rows, serial, used),
        }
    }

    /// The system restarts, where these zones are stored, by so many records that use so many bytes of the bank. It takes no
    /// memory.
    pub(crate) fn restart(&mut self, alloc: Global, rows: Zones, serial: u32, used: u32)
        ensures stands { (S : State) (R : List Commit) → Stands S self.old → stored R ≡ rows_of rows.entries → length R ≡ serial → bytes_used R ≡ used → Stands (restarted (record S { commits = R })) self.new }
        ensures rows { rows_of self.new.shared.rows.entries ≡ rows_of rows.entries }
        ensures used { self.new.shared.used ≡ used }
        ensures brands { self.new.shared.brands ≡ self.old.shared.brands }
    {
        self.cells = IndexMap::new(alloc);
        self.shared.restart(alloc, rows, serial, used);
    }

    // What is next for the daemon of a zone whose cell stands at an index.
    #[inline(always)]
    fn ahead_at(&self, zone: &ZoneName, at: usize) -> (Option<(Option<usize>, Change)>, bool)
        requires { IsCellAt self.now at zone.now }
        ensures hook { IsNextHook self.now (Event.Turn zone.now) result.0 }
        ensures records { result.1 ≡ turn_records self.now (Event.Turn zone.now) }
    {
        let cell = &self.cells[at];
        (cell.next_hook(), cell.records_next())
    }

    /// What is next for the daemon of a turn's zone: where the zone's cell stands, if it has one, the place of the brand and the
    /// change of which it is asked, if it is, and whether the step changes what is stored of the zone.
    #[inline(always)]
    pub(crate) fn ahead(
        &self,
        event: &Event,
    ) -> (Option<usize>, Option<(Option<usize>, Change)>, bool)
        ensures place { IsPlacedTurn self.now event.now result.0 }
        ensures hook { IsNextHook self.now event.now result.1 }
        ensures records { result.2 ≡ turn_records self.now event.now }
    {
        match event {
            Event::Turn { zone } => match self.cells.get_index_of(zone) {
                Some(at) => {
                    let (hook, records) = self.ahead_at(zone, at);
                    (Some(at), hook, records)
                }
                None => (None, None, false),
            },
            Event::Session { .. } | Event::Process { .. } | Event::System(_) | Event::Restart => (
                None, None, false,
            ),
        }
    }

    // The grant that the pools give an event of a zone.
    fn zone_grant(
        &self,
        alloc: Global,
        event: &Event,
        read: Read<'_>,
        zone: &ZoneName,
        hook: HookAnswer,
    ) -> Result<Grant, StepFault>
        requires of { subject_in self.now.shared event.now ≡ Zone zone.now }
        requires decides { (v : View) → decide_read v read ≡ decide v event.now }
        requires turn { is_turn_read read ≡ is_turn event.now }
        requires right { IsRightRead read }
        requires hook { IsHeard self.now event.now hook }
        ensures ok { IfOk result (IsTaken self.now None event.now) }
        ensures err { IsOkUnless result StepFault.Memory }
    {
        match self.cells.get(zone) {
            Some(cell) => cell_grant(alloc, zone, cell, &self.shared, read, hook),
            None => {
                let cell = Cell::new(alloc);
                cell_grant(alloc, zone, &cell, &self.shared, read, HookAnswer::Proceed)
            }
        }
    }

    /// The grant that the pools give an event.
    pub(crate) fn allowed(
        &self,
        alloc: Global,
        event: &Event,
        hook: HookAnswer,
    ) -> Result<Grant, StepFault>
        requires hook { IsHeard self.now event.now hook }
        ensures ok { IfOk result (IsAllowed self.now event.now) }
        ensures err { IsOkUnless result StepFault.Memory }
    {
        let read = read_event(event);
        match subject(&self.shared, alloc, read)? {
            Subject::Zone(zone) => self.zone_grant(alloc, event, read, &zone, hook),
            Subject::Global => Ok(Grant::Nothing),
            Subject::Whole => Ok(Grant::Nothing),
        }
    }

    fn active(&self, zone: &ZoneName) -> Option<ZoneState>
        ensures { result ≡ (world_or_empty (outside_in zone.now self.now.shared) (cell_at zone.now self.now)).desk.active }
    {
        match self.cells.get(zone) {
            Some(cell) => cell.desk.active(),
            None => None,
        }
    }

    /// The state of a zone, where it is stored.
    pub(crate) fn state(&self, zone: &ZoneName) -> Option<ZoneState>
        ensures { result ≡ state_of (row_in zone.now self.now.shared) (world_or_empty (outside_in zone.now self.now.shared) (cell_at zone.now self.now)).desk }
    {
        match self.shared.rows.get(zone) {
            Some(row) => Some(self.active(zone).unwrap_or(row.state)),
            None => None,
        }
    }
}

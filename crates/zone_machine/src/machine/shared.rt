//! What more than one zone may ask.
ghost use Rattle.std.specs.Prelude.{◌≡◌, [], List, length};
ghost use Rattle.commit_journal.specs.Stored.{stored};
ghost use Rattle.commit_journal.specs.Zones.{rows_of};
ghost use Rattle.commit_journal.specs.declared.records.Commit.{Commit};
ghost use Rattle.zone_cases.specs.State.{State, bytes_used};
ghost use Rattle.zone_machine.specs.Code.Cells.{SharedOf};
ghost use Rattle.zone_machine.specs.Machine.Common.{common};
ghost use Rattle.zone_machine.specs.Machine.{opening, restarted};

use brand_hooks::BrandTables;
use commit_journal::{Row, Zones};
use datalink_table::ClaimShared;
use indexmap::IndexMap;
use kernel_objects::KernelShared;
use std::alloc::Global;
use zn_base::ZoneName;
use zone_pools::Owners;

/// What more than one zone may ask: who holds which number, what is stored, the last numbers given, and what is declared.
#[derive(Drop)]
pub struct Shared {
    pub(crate) kernel: KernelShared,
    pub(crate) claims: ClaimShared,
    /// The zone that each session does something in. Those that aren't there are idle.
    pub(crate) sessions: Owners<u8>,
    /// The stored zones, in the order of their creation.
    pub(crate) rows: IndexMap<ZoneName, Row>,
    /// How many records were stored, and how many bytes of the bank are in use.
    pub(crate) serial: u32,
    pub(crate) used: u32,
    /// Whether an event has come that is no declaration.
    pub(crate) started: bool,
    /// The zones whose state is none of the stored ones, and perhaps others, of which it says that theirs is a stored one.
    pub(crate) ups: IndexMap<ZoneName, bool>,
    /// The brands that there are, without their hooks.
    pub(crate) brands: BrandTables,
}

impl Shared {
    /// What is shared before any event, where no zone is stored and there are these brands. It takes no memory.
    pub fn new(alloc: Global, brands: BrandTables) -> Self
        ensures stands { SharedOf result (common (opening brands [])) }
        ensures brands { result.brands ≡ brands }
    {
        Self {
            kernel: KernelShared::new(alloc),
            claims: ClaimShared::new(alloc),
            sessions: Owners::new(alloc),
            rows: IndexMap::new(alloc),
            serial: 0,
            // The closed gate.
            used: 1,
            started: false,
            ups: IndexMap::new(alloc),
            brands,
        }
    }

    /// What is shared before any event, where these zones are stored by so many records, which use so many bytes of the bank,
    /// and there are these brands. It takes no memory.
    pub(crate) fn opened(
        alloc: Global,
        brands: BrandTables,
        rows: Zones,
        serial: u32,
        used: u32,
    ) -> Self
        ensures stands { (R : List Commit) → stored R ≡ rows_of rows.entries → length R ≡ serial → bytes_used R ≡ used → SharedOf result (common (opening brands R)) }
        ensures rows { rows_of result.rows.entries ≡ rows_of rows.entries }
        ensures used { result.used ≡ used }
        ensures brands { result.brands ≡ brands }
    {
        Self {
            rows,
            serial,
            used,
            ..Self::new(alloc, brands)
        }
    }

    /// The system restarts, where these zones are stored, by so many records that use so many bytes of the bank: what is declared
    /// stays, and nobody holds anything. It takes no memory.
    pub(crate) fn restart(&mut self, alloc: Global, rows: Zones, serial: u32, used: u32)
        ensures stands { (S : State) (R : List Commit) → SharedOf self.old (common S) → stored R ≡ rows_of rows.entries → length R ≡ serial → bytes_used R ≡ used → SharedOf self.new (common (restarted (record S { commits = R }))) }
        ensures rows { rows_of self.new.rows.entries ≡ rows_of rows.entries }
        ensures used { self.new.used ≡ used }
        ensures brands { self.new.brands ≡ self.old.brands }
    {
        self.kernel.restart(alloc);
        self.claims.restart(alloc);
        self.sessions = Owners::new(alloc);
        self.rows = rows;
        self.serial = serial;
        self.used = used;
        self.started = true;
        self.ups = IndexMap::new(alloc);
    }
}

//! A zone's cell: everything that one zone has, but for its name and what is stored of it.
ghost use Rattle.std.specs.Prelude.{◌≡◌, option_map, true};
ghost use Rattle.console_link.specs.Consoles.{is_in_use};
ghost use Rattle.zone_cases.specs.Code.Consoles.{console_in};
ghost use Rattle.zone_cases.specs.Code.Cells.{Outside, cell_objects, cell_world, empty_world};
ghost use Rattle.zoneadmd_steps.specs.Code.Cases.{next_hook};
ghost use Rattle.zoneadmd_steps.specs.Code.Desks.{as_desk};
ghost use Rattle.zoneadmd_steps.specs.Code.Recordings.{records_next};

use crate::session::doings::Doings;
use brand_hooks::Change;
use console_link::Console;
use datalink_table::ClaimCell;
use indexmap::IndexMap;
use kernel_objects::KernelCell;
use loopback_mounts::MountCell;
use std::alloc::Global;
use zoneadmd_steps::Desk;

/// Everything that one zone has, but for its name and what is stored of it.
pub struct Cell {
    pub kernel: KernelCell,
    pub mounts: MountCell,
    pub claims: ClaimCell,
    pub desk: Desk,
    /// The zone's console, from the first time on that it was written to or a session had it.
    pub console: Option<Console>,
    /// What sessions do in the zone.
    pub doings: Doings,
}

impl Drop for Cell {
    fn drop(self) {
        let Cell {
            kernel: _kernel,
            mounts: _mounts,
            claims: _claims,
            desk: _desk,
            console: _console,
            doings: _doings,
        } = self;
    }
}

impl Cell {
    /// A zone that has nothing.
    pub fn new(alloc: Global) -> Self
        ensures { (out : Outside) → cell_world out result ≡ empty_world out }
    {
        Self {
            kernel: KernelCell::new(alloc),
            mounts: MountCell::new(alloc),
            claims: ClaimCell::new(alloc),
            desk: Desk::new(alloc),
            console: None,
            doings: IndexMap::new(alloc),
        }
    }

    // Whether the console keeps something or has a session.
    fn has_console(&self) -> bool
        ensures { result ≡ is_in_use (console_in self.now.console) }
    {
        match &self.console {
            Some(console) => console.in_use(),
            None => false,
        }
    }

    /// Whether the zone has nothing.
    pub fn is_empty(&self) -> bool
        ensures { result ≡ true → (out : Outside) → cell_world out self.now ≡ empty_world out }
    {
        self.kernel.is_empty()
            && self.mounts.entries().is_empty()
            && self.claims.is_empty()
            && self.desk.is_new()
            && !self.has_console()
            && self.doings.is_empty()
    }

    /// The place of the brand and the change of which it is asked at the next step of the zone's daemon, if it is.
    pub fn next_hook(&self) -> Option<(Option<usize>, Change)>
        ensures { result ≡ next_hook (cell_objects self.now) (as_desk self.now.desk).job }
    {
        self.desk.next_hook(&self.mounts, &self.claims)
    }

    /// Whether the next step of the zone's daemon changes what is stored of the zone. Such a step stores a record, unless that
    /// is denied or fails.
    pub fn records_next(&self) -> bool
        ensures { result ≡ records_next (cell_objects self.now) (as_desk self.now.desk).job }
    {
        self.desk.records_next(&self.mounts, &self.claims)
    }
}

//! What is asked of a zone's cell and of what zones share, where these lie apart.
ghost use Rattle.std.specs.Prelude.{◌≡◌, ◌&&◌, IfOk, IsOkUnless, is_some, true};
ghost use Rattle.brand_hooks.specs.Brands.{tables_of};
ghost use Rattle.brand_hooks.specs.Hooks.{AllFollow};
ghost use Rattle.zone_cases.specs.Code.Cells.{CellOf, IsHeardIn};
ghost use Rattle.zone_cases.specs.State.{State};
ghost use Rattle.zone_cases.specs.State.Worlds.{world};
ghost use Rattle.zoneadmd_steps.specs.Code.Desks.{as_desk};
ghost use Rattle.zoneadmd_steps.specs.Desks.{has_request};
ghost use Rattle.zone_machine.specs.Code.Cells.{SharedOf, common_in, row_in};
ghost use Rattle.zone_machine.specs.Machine.{subject};
ghost use Rattle.zone_machine.specs.Machine.Common.{common};
ghost use Rattle.zone_machine.specs.Machine.Local.{is_busy};

use crate::faults::StepFault;
use crate::machine::reads::{read_event, subject};
use crate::machine::shared::Shared;
use brand_hooks::{Brands, Change, HookAnswer};
use std::alloc::Global;
use zn_base::ZoneName;
use zone_cases::{Cell, Event, Subject};

/// What a zone's brand answers to the next step of its daemon, where it is asked; else that the change proceeds. The zone's cell
/// is enough to know. It takes no memory.
pub fn hear<F: Fn(&Change) -> HookAnswer>(cell: &Cell, brands: &Brands<F>) -> HookAnswer
    requires { AllFollow F.Fn brands.now }
    ensures { IsHeardIn (tables_of brands.now) cell.now result }
{
    match cell.next_hook() {
        Some((brand, change)) => brands.answer(brand, &change),
        None => HookAnswer::Proceed,
    }
}

// Whether a zone is stored and has a request, by what is stored and by its desk.
fn has_work(zone: &ZoneName, cell: &Cell, shared: &Shared) -> bool
    ensures { result ≡ is_some (row_in zone.now shared.now) && has_request (as_desk cell.now.desk) }
{
    match shared.rows.get(zone) {
        Some(_) => cell.desk.has_request(),
        None => false,
    }
}

/// Whether a zone is stored and its daemon has a request that waits or is under way: then no turn of it is idle. It takes no
/// memory.
pub fn is_busy(zone: &ZoneName, cell: &Cell, shared: &Shared) -> bool
    ensures { (S : State) → CellOf cell.now (world zone.now S) → SharedOf shared.now (common S) → result ≡ is_busy (world zone.now S) }
{
    has_work(zone, cell, shared)
}

impl Shared {
    /// Whose an event is, in every state whose common part this is.
    pub fn subject(&self, alloc: Global, event: &Event) -> Result<Subject, StepFault>
        ensures ok { IfOk result (λ s. (S : State) → SharedOf self.now (common S) → s ≡ subject S event.now) }
        ensures err { IsOkUnless result StepFault.Memory }
    {
        Ok(subject(self, alloc, read_event(event))?)
    }

    /// An event has come that is no declaration. It is to be said where local turns were taken.
    pub fn note_event(&mut self)
        ensures common { common_in self.new ≡ record (common_in self.old) { started = true } }
        ensures rows { self.new.rows ≡ self.old.rows }
        ensures used { self.new.used ≡ self.old.used }
        ensures brands { self.new.brands ≡ self.old.brands }
    {
        self.started = true;
    }
}

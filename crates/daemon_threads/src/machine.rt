//! The machine of all zones, under threads.
ghost use Rattle.std.specs.Prelude.{◌≡◌, ◌≢◌, ℕ, Err, IfOk, IfSome, None, OnErr, OnOk, Some, false, true};
ghost use Rattle.brand_hooks.specs.declared.table.HookAnswer.{HookAnswer};
ghost use Rattle.session_records.specs.Places.{place_of, zone_at};
ghost use Rattle.zone_cases.specs.Code.Cells.{CellOf, IsHeardIn};
ghost use Rattle.zone_cases.specs.State.Worlds.{World};
ghost use Rattle.zone_cases.specs.declared.events.Subject.TheVariants as subjects;
ghost use Rattle.zone_machine.specs.Code.Local_turns.{IsAsItWas};
ghost use Rattle.zone_machine.specs.Code.Reads.{is_turn};
ghost use Rattle.zone_machine.specs.Machine.{subject};
ghost use Rattle.zone_threads.specs.Machines.{IsTurnOf, Stepped, Unfinished};
ghost use Rattle.zone_threads.specs.declared.machine.Stop.TheVariants.{Elsewhere};
ghost use Rattle.daemon_threads.specs.Definitions.{CellIn, PlaceWorld, daemons, place_world, session_of, state_of};
ghost use Rattle.daemon_threads.specs.Parts.{IsUndone, Stands, commons};
ghost use Rattle.daemon_threads.specs.Running.{IsDoneIn, IsSet};
ghost use Rattle.daemon_threads.specs.declared.cell.PlaceCell.TheVariants as cells;
ghost use Rattle.daemon_threads.specs.declared.past.Past.{Past};

use crate::cell::PlaceCell;
use crate::names::Names;
use crate::part::SharedPart;
use crate::past::Past;
use crate::told::told;
use brand_hooks::{Brands, Change, HookAnswer};
use std::alloc::{AllocError, Global};
use std::marker::PhantomData;
use std::sync::Mutex;
use zn_base::{Text, ZoneName};
use zn_io::Disk;
use zone_cases::{Cell, Entry, Event, Subject};
use zone_machine::{StepFault, hear, local_turn};
use zone_threads::{Machine, Stop, Told, Zoned};

/// The machine of all zones under threads: the zones that have places, from 2 on, and the brands whose hooks it asks.
#[derive(Drop)]
pub struct Daemons<'b, D: Disk, F, N: Names> {
    pub alloc: Global,
    pub zones: Vec<ZoneName>,
    pub brands: &'b Brands<F>,
    /// The disk lies in what zones share. It is never looked at from two threads at once.
    pub of: PhantomData<(Mutex<D>, N)>,
}

impl<'b, D: Disk, F: Fn(&Change) -> HookAnswer, N: Names> Daemons<'b, D, F, N> {
    // Whether a place is a zone's.
    fn is_at(&self, place: u32, zone: &ZoneName) -> bool
        requires ready { IsSet F.Fn N.zones N.brands self.now.zones.items self.now.brands.now }
        ensures { result ≡ true → zone_at N.zones place ≡ Some zone.now }
    {
        if place < 2 {
            return false;
        }
        let at = place as usize - 2;
        at < self.zones.len() && self.zones[at] == *zone
    }

    // The place of a zone, or 0.
    fn place_of(&self, zone: &ZoneName) -> u32
        requires ready { IsSet F.Fn N.zones N.brands self.now.zones.items self.now.brands.now }
        ensures { result ≡ place_of N.zones (subjects.Zone zone.now) }
    {
        for at in 0..self.zones.len() {
            if self.zones[at] == *zone {
                return at as u32 + 2;
            }
        }
        0
    }

    // What a zone's brand answers to the next step of its daemon.
    fn hear_zone(&self, cell: &Cell) -> HookAnswer
        requires ready { IsSet F.Fn N.zones N.brands self.now.zones.items self.now.brands.now }
        ensures { IsHeardIn N.brands cell.now result }
    {
        hear(cell, self.brands)
    }

    // The next turn of a zone's daemon, where it is local.
    fn local_turn_at(
        &self,
        place: u32,
        zone: &ZoneName,
        cell: &mut Cell,
    ) -> Result<Option<Entry>, AllocError>
        requires ready { IsSet F.Fn N.zones N.brands self.now.zones.items self.now.brands.now }
        ensures turn { IfOk result (λ turn. IfSome turn (λ e. (place_of N.zones e.subject ≡ place) × (session_of e.event ≡ 0))) }
        ensures some { IfOk result (λ turn. IfSome turn (λ e. (w : World) → CellOf cell.old w → w.brands ≡ N.brands → IsDoneIn N.zones place zone.now e cell.new w)) }
        ensures none { IfOk result (λ turn. turn ≡ None → IsAsItWas cell.old cell.new) }
        ensures memory { OnErr result (IsAsItWas cell.old cell.new) }
    {
        if !self.is_at(place, zone) {
            return Ok(None);
        }
        let hook = self.hear_zone(cell);
        local_turn(self.alloc, zone, cell, hook)
    }

    // An event of a zone, in the zone's place.
    fn zone_event(
        &self,
        place: u32,
        zone: &ZoneName,
        cell: &mut Cell,
        shared: &mut SharedPart<D, N>,
        event: Event,
        hook: HookAnswer,
    ) -> Result<Entry, StepFault>
        requires sound { shared.old.bank.sound ≡ true }
        requires hook { is_turn event ≡ true → IsHeardIn N.brands cell.old hook }
        requires there { zone_at N.zones place ≡ Some zone.now }
        ensures event { IfOk result (λ e. e.event ≡ event) }
        ensures of { IfOk result (λ e. e.subject ≡ subjects.Zone zone.now) }
        ensures step { IfOk result (λ e. (s : Past) → CellIn N.brands (cells.Zone zone.now cell.old) (place_world N.zones place (state_of N.brands s)) → Stands D.view N.view s.stored shared.old (commons (state_of N.brands s))
            → subject (state_of N.brands s) event ≡ subjects.Zone zone.now → Stepped (daemons D.view N.view N.zones N.brands) place (cells.Zone zone.now cell.new) shared.new e s) }
        ensures err { OnErr result (IsUndone D.view N.view zone.now event cell.old shared.old cell.new shared.new) }
    {
        shared.zone_step(self.alloc, zone, cell, event, hook)
    }

    // A line of the global zone, in its place.
    fn global_event(&self, shared: &mut SharedPart<D, N>, event: Event) -> Result<Entry, StepFault>
        requires sound { shared.old.bank.sound ≡ true }
        ensures event { IfOk result (λ e. e.event ≡ event) }
        ensures of { IfOk result (λ e. e.subject ≡ subjects.Global) }
        ensures step { IfOk result (λ e. (p : ℕ) (s : Past) → zone_at N.zones p ≡ None → Stands D.view N.view s.stored shared.old (commons (state_of N.brands s))
            → subject (state_of N.brands s) event ≡ subjects.Global → Stepped (daemons D.view N.view N.zones N.brands) p cells.Global shared.new e s) }
        ensures err { OnErr result (shared.new ≡ shared.old) }
    {
        shared.global_step(self.alloc, event)
    }

    // A turn of a zone's daemon, in the zone's place.
    fn turn_at(
        &self,
        place: u32,
        zone: &ZoneName,
        cell: &mut Cell,
        shared: &mut SharedPart<D, N>,
        heard: HookAnswer,
    ) -> Result<Entry, StepFault>
        requires ready { IsSet F.Fn N.zones N.brands self.now.zones.items self.now.brands.now }
        requires sound { shared.old.bank.sound ≡ true }
        requires heard { IsHeardIn N.brands cell.old heard }
        ensures turn { IfOk result (IsTurnOf (daemons D.view N.view N.zones N.brands) place) }
        ensures step { IfOk result (λ e. (s : Past) → CellIn N.brands (cells.Zone zone.now cell.old) (place_world N.zones place (state_of N.brands s)) → Stands D.view N.view s.stored shared.old (commons (state_of N.brands s)) → Stepped (daemons D.view N.view N.zones N.brands) place (cells.Zone zone.now cell.new) shared.new e s) }
        ensures err { OnErr result (Unfinished (daemons D.view N.view N.zones N.brands) place (cells.Zone zone.now cell.old) shared.old (cells.Zone zone.now cell.new) shared.new) }
    {
        if !self.is_at(place, zone) {
            return Err(StepFault::Memory);
        }
        let event = Event::Turn {
            zone: zone.copy(self.alloc)?,
        };
        self.zone_event(place, zone, cell, shared, event, heard)
    }

    // A line of a session that belongs to a zone, where the zone has this place.
    fn zone_line(
        &self,
        place: u32,
        cell: &mut PlaceCell,
        shared: &mut SharedPart<D, N>,
        zone: &ZoneName,
        event: Event,
    ) -> Result<Entry, Stop<StepFault>>
        requires ready { IsSet F.Fn N.zones N.brands self.now.zones.items self.now.brands.now }
        requires sound { shared.old.bank.sound ≡ true }
        requires line { is_turn event ≡ false }
        ensures event { IfOk result (λ e. (e.event ≡ event) × (place_of N.zones e.subject ≡ place)) }
        ensures here { OnOk result (place_of N.zones (subjects.Zone zone.now) ≡ place) }
        ensures elsewhere { (p : ℕ) → result ≡ Err (Elsewhere p) → (p ≢ place) × (place_of N.zones (subjects.Zone zone.now) ≡ p) }
        ensures step { IfOk result (λ e. (s : Past) → CellIn N.brands cell.old (place_world N.zones place (state_of N.brands s)) → Stands D.view N.view s.stored shared.old (commons (state_of N.brands s)) → subject (state_of N.brands s) event ≡ subjects.Zone zone.now → Stepped (daemons D.view N.view N.zones N.brands) place cell.new shared.new e s) }
        ensures kept { OnErr result (shared.new.bank.sound ≡ true → (w : PlaceWorld) → CellIn N.brands cell.old w → CellIn N.brands cell.new w) }
        ensures left { OnErr result ((s : Past) → CellIn N.brands cell.old (place_world N.zones place (state_of N.brands s)) → Stands D.view N.view s.stored shared.old (commons (state_of N.brands s)) → subject (state_of N.brands s) event ≡ subjects.Zone zone.now → Stands D.view N.view s.stored shared.new (commons (state_of N.brands s))) }
    {
        let at = self.place_of(zone);
        if at != place {
            return Err(Stop::Elsewhere(at));
        }
        match cell {
            PlaceCell::Zone(name, cell) => {
                if &*name != zone || !self.is_at(place, name) {
                    return Err(Stop::Fault(StepFault::Memory));
                }
                match self.zone_event(place, name, cell, shared, event, HookAnswer::Proceed) {
                    Ok(entry) => Ok(entry),
                    Err(fault) => Err(Stop::Fault(fault)),
                }
            }
            PlaceCell::Global => Err(Stop::Fault(StepFault::Memory)),
        }
    }

    // A line of a session that belongs to the global zone, where that has this place.
    fn global_line(
        &self,
        place: u32,
        cell: &PlaceCell,
        shared: &mut SharedPart<D, N>,
        event: Event,
    ) -> Result<Entry, Stop<StepFault>>
        requires sound { shared.old.bank.sound ≡ true }
        ensures event { IfOk result (λ e. (e.event ≡ event) × (place_of N.zones e.subject ≡ place)) }
        ensures here { OnOk result (place_of N.zones subjects.Global ≡ place) }
        ensures elsewhere { (p : ℕ) → result ≡ Err (Elsewhere p) → (p ≢ place) × (place_of N.zones subjects.Global ≡ p) }
        ensures step { IfOk result (λ e. (s : Past) → CellIn N.brands cell.now (place_world N.zones place (state_of N.brands s)) → Stands D.view N.view s.stored shared.old (commons (state_of N.brands s)) → subject (state_of N.brands s) event ≡ subjects.Global → Stepped (daemons D.view N.view N.zones N.brands) place cell.now shared.new e s) }
        ensures err { OnErr result (shared.new ≡ shared.old) }
    {
        if place != 1 {
            return Err(Stop::Elsewhere(1));
        }
        match cell {
            PlaceCell::Global => match self.global_event(shared, event) {
                Ok(entry) => Ok(entry),
                Err(fault) => Err(Stop::Fault(fault)),
            },
            PlaceCell::Zone(_, _) => Err(Stop::Fault(StepFault::Memory)),
        }
    }
}

impl<'b, D: Disk + Drop + Send, F, N: Names + Send> Zoned for Daemons<'b, D, F, N> {
    type State = Past;

    type Cell = PlaceCell;

    type Shared = SharedPart<D, N>;

    type Line = Text;

    type Entry = Entry;

    type Heard = HookAnswer;

    type Fault = StepFault;

    ghost use Rattle.daemon_threads.specs.Definitions.{daemons};

    ghost machine = { daemons D.view N.view N.zones N.brands };
}

impl<'b, D: Disk + Drop + Send, F: Fn(&Change) -> HookAnswer, N: Names + Send> Machine
    for Daemons<'b, D, F, N> {
    ghost use Rattle.daemon_threads.specs.Running.{IsSet};
    ghost use Rattle.daemon_threads.specs.Meets.{laws};

    ghost ready = { λ m. IsSet F.Fn N.zones N.brands m.zones.items m.brands.now };

    fn told(&self, entry: &Entry) -> Told {
        told(entry)
    }

    fn is_sound(&self, shared: &SharedPart<D, N>) -> bool {
        shared.is_sound()
    }

    fn is_busy(&self, cell: &PlaceCell, shared: &SharedPart<D, N>) -> bool {
        match cell {
            PlaceCell::Global => false,
            PlaceCell::Zone(zone, cell) => shared.is_busy(zone, cell),
        }
    }

    fn hear(&self, cell: &PlaceCell) -> HookAnswer {
        match cell {
            PlaceCell::Global => HookAnswer::Proceed,
            PlaceCell::Zone(_, cell) => self.hear_zone(cell),
        }
    }

    fn local_turn(&self, cell: &mut PlaceCell, place: u32) -> Result<Option<Entry>, AllocError> {
        match cell {
            PlaceCell::Global => Ok(None),
            PlaceCell::Zone(zone, cell) => self.local_turn_at(place, zone, cell),
        }
    }

    fn turn(
        &self,
        cell: &mut PlaceCell,
        shared: &mut SharedPart<D, N>,
        place: u32,
        heard: HookAnswer,
    ) -> Result<Entry, StepFault> {
        match cell {
            PlaceCell::Global => Err(StepFault::Memory),
            PlaceCell::Zone(zone, cell) => self.turn_at(place, zone, cell, shared, heard),
        }
    }

    fn line(
        &self,
        cell: &mut PlaceCell,
        shared: &mut SharedPart<D, N>,
        place: u32,
        session: u8,
        line: &Text,
    ) -> Result<Entry, Stop<StepFault>> {
        if session == 0 {
            return Err(Stop::Fault(StepFault::Memory));
        }
        let Ok(text) = line.copy(self.alloc) else {
            return Err(Stop::Fault(StepFault::Memory));
        };
        let event = Event::Session {
            number: session,
            text,
        };
        match shared.subject(self.alloc, &event) {
            Ok(Subject::Zone(zone)) => self.zone_line(place, cell, shared, &zone, event),
            Ok(Subject::Global) => self.global_line(place, cell, shared, event),
            Ok(Subject::Whole) => Err(Stop::Fault(StepFault::Memory)),
            Err(fault) => Err(Stop::Fault(fault)),
        }
    }

    ghost laws = { laws D.view N.view N.zones N.brands N.apart };
}

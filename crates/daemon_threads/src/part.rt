//! What the zones share.
ghost use Rattle.std.specs.Prelude.{◌≡◌, List, true, false, IfOk, OnErr, OnOk};
ghost use Rattle.brand_hooks.specs.declared.table.HookAnswer.{HookAnswer};
ghost use Rattle.commit_journal.specs.declared.records.Commit.{Commit};
ghost use Rattle.zone_cases.specs.Code.Cells.{CellOf, IsHeardIn};
ghost use Rattle.zone_cases.specs.State.{State};
ghost use Rattle.zone_cases.specs.State.Worlds.{world};
ghost use Rattle.zone_cases.specs.declared.events.Subject.TheVariants as subjects;
ghost use Rattle.zone_machine.specs.Code.Reads.{is_turn};
ghost use Rattle.zone_machine.specs.Code.Records.{Passes};
ghost use Rattle.zn_io.specs.Streams.{Rose};
ghost use Rattle.zone_machine.specs.Machine.Local.{is_busy};
ghost use Rattle.zone_machine.specs.Machine.{subject};
ghost use Rattle.daemon_threads.specs.Goods.{IsUsable};
ghost use Rattle.daemon_threads.specs.Parts.{Answers, CellAnswers, IsUndone, PartOf, Stands, commons};

use crate::names::Names;
use brand_hooks::HookAnswer;
use std::alloc::Global;
use std::marker::{Model, PhantomData};
use zn_base::ZoneName;
use zn_io::Disk;
use zone_cases::{Cell, Entry, Event, Subject};
use zone_disk::Bank;
use zone_machine::{Shared, ShownZones, StepFault, cell_step, global_step, is_busy};

/// What the zones share: what more than one of them may ask, what each shows of itself, and the bank of records. Contracts see
/// these three.
#[derive(Drop)]
pub struct SharedPart<D: Disk, N: Names> {
    shared: Shared,
    shown: ShownZones,
    bank: Bank<D>,
    of: PhantomData<N>,
}

impl<D: Disk, N: Names> Model for SharedPart<D, N> {
    ghost use Rattle.std.specs.Coded.{codes};
    ghost use Rattle.zone_machine.specs.contracts.machine.shared.Shared.{the_row as shared_row};
    ghost use Rattle.zone_machine.specs.contracts.machine.shown.ShownZones.{the_row as shown_row};
    ghost use Rattle.daemon_threads.specs.Goods.{Goods, IsUsable};

    ghost Value = { Goods D };

    ghost coded = { Prim.hlevel (codes, shared_row.coded, shown_row.coded) };

    ghost view = { λ p. record { shared = p.shared; shown = p.shown; bank = p.bank } };

    ghost invariant = { λ p. IsUsable N.view (D.view p.bank.disk) N.brands p.shared p.bank };
}

impl<D: Disk, N: Names> SharedPart<D, N> {
    /// What the zones share when sessions begin.
    pub(crate) fn new(shared: Shared, shown: ShownZones, bank: Bank<D>) -> Self
        requires usable { IsUsable N.view (D.view bank.disk) N.brands shared bank }
        ensures { result ≡ record { shared = shared; shown = shown; bank = bank } }
    {
        Self {
            shared,
            shown,
            bank,
            of: PhantomData,
        }
    }

    /// Takes it apart. What zones show is left out.
    pub(crate) fn into_parts(self) -> (Shared, Bank<D>)
        ensures shared { result.0 ≡ self.shared }
        ensures bank { result.1 ≡ self.bank }
        ensures passes { Passes N.view (D.view self.bank.disk) }
        ensures rose { self.bank.sound ≡ false → Rose N.view.faults (D.view self.bank.disk).faults }
        ensures usable { IsUsable N.view (D.view self.bank.disk) N.brands self.shared self.bank }
    {
        (self.shared, self.bank)
    }

    /// Whether events may be taken.
    pub(crate) fn is_sound(&self) -> bool
        ensures { result ≡ self.now.bank.sound }
    {
        self.bank.sound()
    }

    /// Whether a zone is stored and its daemon has a request.
    pub(crate) fn is_busy(&self, zone: &ZoneName, cell: &Cell) -> bool
        ensures { (S : State) → CellOf cell.now (world zone.now S) → PartOf self.now (commons S) → result ≡ is_busy (world zone.now S) }
    {
        is_busy(zone, cell, &self.shared)
    }

    /// Whose an event is.
    pub(crate) fn subject(&self, alloc: Global, event: &Event) -> Result<Subject, StepFault>
        ensures { IfOk result (λ s. (S : State) → PartOf self.now (commons S) → s ≡ subject S event.now) }
    {
        self.shared.subject(alloc, event)
    }

    /// An event of a zone on its cell.
    pub(crate) fn zone_step(
        &mut self,
        alloc: Global,
        zone: &ZoneName,
        cell: &mut Cell,
        event: Event,
        hook: HookAnswer,
    ) -> Result<Entry, StepFault>
        requires sound { self.old.bank.sound ≡ true }
        requires hook { is_turn event ≡ true → IsHeardIn N.brands cell.old hook }
        ensures event { IfOk result (λ entry. entry.event ≡ event) }
        ensures of { IfOk result (λ entry. entry.subject ≡ subjects.Zone zone.now) }
        ensures sound { OnOk result (self.new.bank.sound ≡ true) }
        ensures step { IfOk result (λ entry. (S : State) (before : List Commit) → CellOf cell.old (world zone.now S) → Stands D.view N.view before self.old (commons S) → subject S event ≡ subjects.Zone zone.now → CellAnswers D.view N.view before zone.now S event entry cell.new self.new) }
        ensures err { OnErr result (IsUndone D.view N.view zone.now event cell.old self.old cell.new self.new) }
    {
        self.shown.make_place(alloc, zone)?;
        let entry = cell_step(
            alloc,
            zone,
            cell,
            &mut self.shared,
            &mut self.bank,
            event,
            hook,
        )?;
        self.shown.note(zone, cell);
        Ok(entry)
    }

    /// An event of the global zone.
    pub(crate) fn global_step(&mut self, alloc: Global, event: Event) -> Result<Entry, StepFault>
        ensures event { IfOk result (λ entry. entry.event ≡ event) }
        ensures of { IfOk result (λ entry. entry.subject ≡ subjects.Global) }
        ensures sound { self.new.bank.sound ≡ self.old.bank.sound }
        ensures step { IfOk result (λ entry. self.old.bank.sound ≡ true → (S : State) (before : List Commit) → Stands D.view N.view before self.old (commons S) → subject S event ≡ subjects.Global → Answers D.view N.view before S event entry self.new) }
        ensures err { OnErr result (self.new ≡ self.old) }
    {
        global_step(alloc, &mut self.shared, &self.shown, event)
    }
}

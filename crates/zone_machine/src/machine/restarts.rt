//! A restart of the system, as an event.
ghost use Rattle.std.specs.Prelude.{◌≡◌, IfErr, IfOk, None, OnOk, true};
ghost use Rattle.zone_machine.specs.Code.Decided.{AsksBrands, MayGoOn, entry_by};
ghost use Rattle.zone_machine.specs.Code.Cells.{Stands};
ghost use Rattle.zone_machine.specs.Code.Openings.{BeginsAgain};
ghost use Rattle.zone_machine.specs.Code.Records.{GoesUnder, Passes};
ghost use Rattle.zone_machine.specs.Code.Restarts.{KeepsBodiesOf, LeavesRestart, RestartLeft, RestartsUnder, restart_entry};
ghost use Rattle.zone_machine.specs.Code.Steps.{FitsIn};
ghost use Rattle.zone_cases.specs.State.{State};
ghost use Rattle.zone_cases.specs.declared.events.Event.TheVariants as events;

use crate::faults::StepFault;
use crate::machine::Machine;
use crate::machine::other_events::nothing_of;
use crate::machine::reads::says;
use brand_hooks::{Change, HookAnswer};
use commit_journal::StoreFault;
use std::alloc::Global;
use zn_io::Disk;
use zone_cases::{Answer, Entry, Event, Head, Subject, Whose};
use zone_pools::Grant;

impl<'b, D: Disk, F: Fn(&Change) -> HookAnswer> Machine<'b, D, F> {
    // The system restarts, under the grant of an event that asks nothing.
    fn restart_under(&mut self, alloc: Global, stated: Option<Grant>) -> Result<Grant, StepFault>
        requires asks { AsksBrands F.Fn self.old }
        requires ready { MayGoOn D.view self.old }
        ensures ok { IfOk result (λ grant. RestartsUnder D.view stated self.old (restart_entry grant) self.new) }
        ensures again { OnOk result ((S : State) → Stands S self.old.parts → BeginsAgain S self.new) }
        ensures goes { GoesUnder stated self.old.parts events.Restart self.old.bank.records (D.view self.old.bank.disk) (D.view self.new.bank.disk) }
        ensures bodies { OnOk result (KeepsBodiesOf D.view stated self.old events.Restart self.new) }
        ensures fits { OnOk result (FitsIn stated self.old.parts events.Restart) }
        ensures ready { OnOk result (MayGoOn D.view self.new) }
        ensures passes { Passes (D.view self.old.bank.disk) (D.view self.new.bank.disk) }
        ensures fault { IfErr result (λ fault. LeavesRestart fault stated self.old.parts self.new.parts) }
        ensures left { IfErr result (λ fault. RestartLeft true fault self.old.bank self.new.bank (D.view self.old.bank.disk) (D.view self.new.bank.disk) self.new.parts.shared) }
        ensures asks { AsksBrands F.Fn self.new }
    {
        let grant = nothing_of(stated)?;
        match self.restart(alloc) {
            Ok(()) => Ok(grant),
            Err(StoreFault::Memory) => Err(StepFault::Memory),
            Err(StoreFault::DiskFault) => Err(StepFault::DiskFault),
            Err(fault) => Err(StepFault::NoStore(fault)),
        }
    }

    /// A restart is answered, where it may go to the disk, under the grant that the pools give it, or under one that is stated,
    /// where it fits.
    pub(crate) fn answer_restart(
        &mut self,
        alloc: Global,
        stated: Option<Grant>,
        may_record: bool,
    ) -> Result<Answer, StepFault>
        requires asks { AsksBrands F.Fn self.old }
        requires ready { MayGoOn D.view self.old }
        ensures ok { IfOk result (λ answer. RestartsUnder D.view stated self.old (entry_by events.Restart answer) self.new) }
        ensures again { OnOk result ((S : State) → Stands S self.old.parts → BeginsAgain S self.new) }
        ensures goes { GoesUnder stated self.old.parts events.Restart self.old.bank.records (D.view self.old.bank.disk) (D.view self.new.bank.disk) }
        ensures bodies { OnOk result (KeepsBodiesOf D.view stated self.old events.Restart self.new) }
        ensures fits { OnOk result (FitsIn stated self.old.parts events.Restart) }
        ensures ready { OnOk result (MayGoOn D.view self.new) }
        ensures passes { Passes (D.view self.old.bank.disk) (D.view self.new.bank.disk) }
        ensures fault { IfErr result (λ fault. LeavesRestart fault stated self.old.parts self.new.parts) }
        ensures left { IfErr result (λ fault. RestartLeft may_record fault self.old.bank self.new.bank (D.view self.old.bank.disk) (D.view self.new.bank.disk) self.new.parts.shared) }
        ensures asks { AsksBrands F.Fn self.new }
    {
        if !may_record {
            return Err(StepFault::WouldRecord);
        }
        let grant = self.restart_under(alloc, stated)?;
        Ok(Answer {
            whose: Whose::Own,
            grant,
            reply: says(Head::Ok),
        })
    }

    /// A restart is answered, under the grant that the pools give it, or under one that is stated, where it fits.
    pub(crate) fn step_restart(
        &mut self,
        alloc: Global,
        stated: Option<Grant>,
    ) -> Result<Entry, StepFault>
        requires asks { AsksBrands F.Fn self.old }
        requires ready { MayGoOn D.view self.old }
        ensures ok { IfOk result (λ entry. RestartsUnder D.view stated self.old entry self.new) }
        ensures again { OnOk result ((S : State) → Stands S self.old.parts → BeginsAgain S self.new) }
        ensures goes { GoesUnder stated self.old.parts events.Restart self.old.bank.records (D.view self.old.bank.disk) (D.view self.new.bank.disk) }
        ensures bodies { OnOk result (KeepsBodiesOf D.view stated self.old events.Restart self.new) }
        ensures fits { OnOk result (FitsIn stated self.old.parts events.Restart) }
        ensures ready { OnOk result (MayGoOn D.view self.new) }
        ensures passes { Passes (D.view self.old.bank.disk) (D.view self.new.bank.disk) }
        ensures fault { IfErr result (λ fault. LeavesRestart fault stated self.old.parts self.new.parts) }
        ensures left { IfErr result (λ fault. RestartLeft true fault self.old.bank self.new.bank (D.view self.old.bank.disk) (D.view self.new.bank.disk) self.new.parts.shared) }
        ensures asks { AsksBrands F.Fn self.new }
    {
        let grant = self.restart_under(alloc, stated)?;
        Ok(Entry {
            event: Event::Restart,
            subject: Subject::Whole,
            grant,
            reply: says(Head::Ok),
        })
    }
}

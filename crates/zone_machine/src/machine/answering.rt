//! An event is answered that isn't a restart: it is found whose it is, and what is its subject's part of the machine answers.
ghost use Rattle.std.specs.Prelude.{◌≡◌, ◌<◌, IfErr, IfOk, None, OnOk, false, true};
ghost use Rattle.zone_machine.specs.Code.Reads.{IsRightRead, decide_read, global_read, is_turn, is_turn_read, subject_in};
ghost use Rattle.zone_machine.specs.Code.Decided.{IsForeseen, IsHeard, IsPlaced, entry_by, entry_of, own_subject};
ghost use Rattle.zone_machine.specs.Code.Records.{BankLeft, GoesUnder, IsReady, KeepsBodies, NeedsNoDisk, Passes};
ghost use Rattle.zone_machine.specs.Code.Steps.{IsStepUnder, Leaves};
ghost use Rattle.zone_machine.specs.Machine.{decide, global_reply};
ghost use Rattle.zone_cases.specs.Events.{is_restart};
ghost use Rattle.zone_cases.specs.State.{State};
ghost use Rattle.zone_cases.specs.State.Worlds.{View};
ghost use Rattle.zone_cases.specs.declared.events.Subject.TheVariants as subject_variants;
ghost use Rattle.zone_cases.specs.declared.events.Subject.TheVariants.{Zone};

use crate::faults::StepFault;
use crate::machine::Foreseen;
use crate::machine::parts::Parts;
use crate::machine::reads::{Read, read_event, subject};
use brand_hooks::HookAnswer;
use std::alloc::Global;
use zn_base::ZoneName;
use zn_io::Disk;
use zone_cases::{Answer, Entry, Event, Reply, Subject, Whose};
use zone_disk::Bank;
use zone_pools::Grant;

impl Parts {
    // An event is answered of which it was found whose it is.
    fn answer_of<D: Disk>(
        &mut self,
        bank: &mut Bank<D>,
        alloc: Global,
        event: &Event,
        read: Read<'_>,
        subject: &Subject,
        stated: Option<Grant>,
        hook: HookAnswer,
        may_record: bool,
    ) -> Result<(Grant, Reply), StepFault>
        requires of { subject_in self.old.shared event.now ≡ subject.now }
        requires stays { is_restart event.now ≡ false }
        requires decides { (v : View) → decide_read v read ≡ decide v event.now }
        requires turn { is_turn_read read ≡ is_turn event.now }
        requires right { IsRightRead read }
        requires hook { IsHeard self.old event.now hook }
        requires global { (S : State) → global_read S read ≡ global_reply S event.now }
        requires ready { IsReady (D.view bank.old.disk) bank.old self.old.shared }
        ensures ok { IfOk result (λ r. IsStepUnder stated self.old event.now (entry_of subject.now event.now r.0 r.1) self.new) }
        ensures fault { IfErr result (λ fault. Leaves fault stated self.old event.now self.new) }
        ensures ready { OnOk result (IsReady (D.view bank.new.disk) bank.new self.new.shared) }
        ensures goes { GoesUnder stated self.old event.now bank.old.records (D.view bank.old.disk) (D.view bank.new.disk) }
        ensures bodies { OnOk result (KeepsBodies stated self.old event.now bank.old.records bank.new.records) }
        ensures passes { Passes (D.view bank.old.disk) (D.view bank.new.disk) }
        ensures left { IfErr result (λ fault. BankLeft may_record fault bank.old bank.new (D.view bank.old.disk) (D.view bank.new.disk) self.new.shared) }
        ensures brands { self.new.shared.brands ≡ self.old.shared.brands }
    {
        match subject {
            Subject::Zone(zone) => self.answer_zone(
                bank, alloc, event, read, zone, stated, hook, may_record,
            ),
            Subject::Global => self.answer_global(alloc, event, read, stated),
            Subject::Whole => self.answer_whole(alloc, event, stated),
        }
    }

    // What a session types is answered.
    fn answer_line<D: Disk>(
        &mut self,
        bank: &mut Bank<D>,
        alloc: Global,
        event: &Event,
        stated: Option<Grant>,
        hook: HookAnswer,
        may_record: bool,
    ) -> Result<Answer, StepFault>
        requires stays { is_restart event.now ≡ false }
        requires hook { IsHeard self.old event.now hook }
        requires ready { IsReady (D.view bank.old.disk) bank.old self.old.shared }
        ensures ok { IfOk result (λ answer. IsStepUnder stated self.old event.now (entry_by event.now answer) self.new) }
        ensures fault { IfErr result (λ fault. Leaves fault stated self.old event.now self.new) }
        ensures ready { OnOk result (IsReady (D.view bank.new.disk) bank.new self.new.shared) }
        ensures goes { GoesUnder stated self.old event.now bank.old.records (D.view bank.old.disk) (D.view bank.new.disk) }
        ensures bodies { OnOk result (KeepsBodies stated self.old event.now bank.old.records bank.new.records) }
        ensures passes { Passes (D.view bank.old.disk) (D.view bank.new.disk) }
        ensures left { IfErr result (λ fault. BankLeft may_record fault bank.old bank.new (D.view bank.old.disk) (D.view bank.new.disk) self.new.shared) }
        ensures brands { self.new.shared.brands ≡ self.old.shared.brands }
    {
        let read = read_event(event);
        let subject = subject(&self.shared, alloc, read)?;
        let (grant, reply) = self.answer_of(
            bank, alloc, event, read, &subject, stated, hook, may_record,
        )?;
        Ok(Answer {
            whose: Whose::Found(subject),
            grant,
            reply,
        })
    }

    // An event of the whole system is answered that isn't a restart.
    fn answer_system(
        &mut self,
        alloc: Global,
        event: &Event,
        stated: Option<Grant>,
    ) -> Result<Answer, StepFault>
        requires of { own_subject event.now ≡ subject_variants.Whole }
        requires stays { is_restart event.now ≡ false }
        ensures ok { IfOk result (λ answer. IsStepUnder stated self.old event.now (entry_by event.now answer) self.new) }
        ensures fault { IfErr result (λ fault. Leaves fault stated self.old event.now self.new) }
        ensures apart { IfErr result NeedsNoDisk }
        ensures rows { self.new.shared.rows ≡ self.old.shared.rows }
        ensures used { self.new.shared.used ≡ self.old.shared.used }
        ensures brands { self.new.shared.brands ≡ self.old.shared.brands }
    {
        let (grant, reply) = self.answer_whole(alloc, event, stated)?;
        Ok(Answer {
            whose: Whose::Own,
            grant,
            reply,
        })
    }

    // An event is answered that has its zone itself.
    fn answer_own<D: Disk>(
        &mut self,
        bank: &mut Bank<D>,
        alloc: Global,
        event: &Event,
        read: Read<'_>,
        zone: &ZoneName,
        stated: Option<Grant>,
        hook: HookAnswer,
        may_record: bool,
    ) -> Result<Answer, StepFault>
        requires of { own_subject event.now ≡ Zone zone.now }
        requires decides { (v : View) → decide_read v read ≡ decide v event.now }
        requires turn { is_turn_read read ≡ is_turn event.now }
        requires right { IsRightRead read }
        requires hook { IsHeard self.old event.now hook }
        requires ready { IsReady (D.view bank.old.disk) bank.old self.old.shared }
        ensures ok { IfOk result (λ answer. IsStepUnder stated self.old event.now (entry_by event.now answer) self.new) }
        ensures fault { IfErr result (λ fault. Leaves fault stated self.old event.now self.new) }
        ensures ready { OnOk result (IsReady (D.view bank.new.disk) bank.new self.new.shared) }
        ensures goes { GoesUnder stated self.old event.now bank.old.records (D.view bank.old.disk) (D.view bank.new.disk) }
        ensures bodies { OnOk result (KeepsBodies stated self.old event.now bank.old.records bank.new.records) }
        ensures passes { Passes (D.view bank.old.disk) (D.view bank.new.disk) }
        ensures left { IfErr result (λ fault. BankLeft may_record fault bank.old bank.new (D.view bank.old.disk) (D.view bank.new.disk) self.new.shared) }
        ensures brands { self.new.shared.brands ≡ self.old.shared.brands }
    {
        let (grant, reply) = self.answer_zone(
            bank, alloc, event, read, zone, stated, hook, may_record,
        )?;
        Ok(Answer {
            whose: Whose::Own,
            grant,
            reply,
        })
    }

    // A turn is answered that was foreseen.
    #[tactic(auto, unfolding(crate::specs::Machine::decide))]
    #[inline(always)]
    fn answer_turn<D: Disk>(
        &mut self,
        bank: &mut Bank<D>,
        alloc: Global,
        event: &Event,
        zone: &ZoneName,
        stated: Option<Grant>,
        foreseen: Foreseen,
        may_record: bool,
    ) -> Result<Answer, StepFault>
        requires turn { event.now ≡ Event.Turn zone.now }
        requires place { IsPlaced self.old zone.now foreseen.place }
        requires hook { IsHeard self.old event.now foreseen.hook }
        requires ready { IsReady (D.view bank.old.disk) bank.old self.old.shared }
        ensures ok { IfOk result (λ answer. IsStepUnder stated self.old event.now (entry_by event.now answer) self.new) }
        ensures fault { IfErr result (λ fault. Leaves fault stated self.old event.now self.new) }
        ensures ready { OnOk result (IsReady (D.view bank.new.disk) bank.new self.new.shared) }
        ensures goes { GoesUnder stated self.old event.now bank.old.records (D.view bank.old.disk) (D.view bank.new.disk) }
        ensures bodies { OnOk result (KeepsBodies stated self.old event.now bank.old.records bank.new.records) }
        ensures passes { Passes (D.view bank.old.disk) (D.view bank.new.disk) }
        ensures left { IfErr result (λ fault. BankLeft may_record fault bank.old bank.new (D.view bank.old.disk) (D.view bank.new.disk) self.new.shared) }
        ensures brands { self.new.shared.brands ≡ self.old.shared.brands }
    {
        let (grant, reply) = match foreseen.place {
            Some(at) => self.turn_at(
                bank,
                alloc,
                event,
                zone,
                at,
                stated,
                foreseen.hook,
                may_record,
            )?,
            None => self.answer_new(
                bank,
                alloc,
                event,
                Read::Turn(zone),
                zone,
                stated,
                may_record,
            )?,
        };
        Ok(Answer {
            whose: Whose::Own,
            grant,
            reply,
        })
    }

    /// An event that is lent and was foreseen is answered, where it isn't a restart, under the grant that the pools give it, or
    /// under one that is stated, where it fits.
    #[tactic(auto, unfolding(crate::specs::Machine::decide))]
    #[inline(always)]
    pub(crate) fn answer<D: Disk>(
        &mut self,
        bank: &mut Bank<D>,
        alloc: Global,
        event: &Event,
        stated: Option<Grant>,
        foreseen: Foreseen,
        may_record: bool,
    ) -> Result<Answer, StepFault>
        requires stays { is_restart event.now ≡ false }
        requires foreseen { IsForeseen self.old event.now foreseen }
        requires ready { IsReady (D.view bank.old.disk) bank.old self.old.shared }
        ensures ok { IfOk result (λ answer. IsStepUnder stated self.old event.now (entry_by event.now answer) self.new) }
        ensures fault { IfErr result (λ fault. Leaves fault stated self.old event.now self.new) }
        ensures ready { OnOk result (IsReady (D.view bank.new.disk) bank.new self.new.shared) }
        ensures goes { GoesUnder stated self.old event.now bank.old.records (D.view bank.old.disk) (D.view bank.new.disk) }
        ensures bodies { OnOk result (KeepsBodies stated self.old event.now bank.old.records bank.new.records) }
        ensures passes { Passes (D.view bank.old.disk) (D.view bank.new.disk) }
        ensures left { IfErr result (λ fault. BankLeft may_record fault bank.old bank.new (D.view bank.old.disk) (D.view bank.new.disk) self.new.shared) }
        ensures brands { self.new.shared.brands ≡ self.old.shared.brands }
    {
        match event {
            Event::Session { .. } => {
                self.answer_line(bank, alloc, event, stated, foreseen.hook, may_record)
            },
            Event::Turn { zone } => self.answer_turn(
                bank, alloc, event, zone, stated, foreseen, may_record,
            ),
            Event::Process { zone, pid, call } => self.answer_own(
                bank,
                alloc,
                event,
                Read::Process(zone, *pid, call),
                zone,
                stated,
                foreseen.hook,
                may_record,
            ),
            Event::System(_) => self.answer_system(alloc, event, stated),
            Event::Restart => unreachable!(),
        }
    }

    /// An event is answered that isn't a restart, under the grant that the pools give it, or under one that is stated, where it
    /// fits; of a turn the brand answered `hook`.
    pub(crate) fn step<D: Disk>(
        &mut self,
        bank: &mut Bank<D>,
        alloc: Global,
        event: Event,
        stated: Option<Grant>,
        hook: HookAnswer,
    ) -> Result<Entry, StepFault>
        requires stays { is_restart event ≡ false }
        requires hook { IsHeard self.old event hook }
        requires ready { IsReady (D.view bank.old.disk) bank.old self.old.shared }
        ensures ok { IfOk result (λ entry. IsStepUnder stated self.old event entry self.new) }
        ensures fault { IfErr result (λ fault. Leaves fault stated self.old event self.new) }
        ensures ready { OnOk result (IsReady (D.view bank.new.disk) bank.new self.new.shared) }
        ensures goes { GoesUnder stated self.old event bank.old.records (D.view bank.old.disk) (D.view bank.new.disk) }
        ensures bodies { OnOk result (KeepsBodies stated self.old event bank.old.records bank.new.records) }
        ensures passes { Passes (D.view bank.old.disk) (D.view bank.new.disk) }
        ensures left { IfErr result (λ fault. BankLeft true fault bank.old bank.new (D.view bank.old.disk) (D.view bank.new.disk) self.new.shared) }
        ensures brands { self.new.shared.brands ≡ self.old.shared.brands }
    {
        let read = read_event(&event);
        let subject = subject(&self.shared, alloc, read)?;
        let (grant, reply) = self.answer_of(
            bank, alloc, &event, read, &subject, stated, hook, true,
        )?;
        Ok(Entry {
            event,
            subject,
            grant,
            reply,
        })
    }
}

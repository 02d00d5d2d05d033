//! Events of the global zone and of the whole system.
ghost use Rattle.std.specs.Prelude.{◌≡◌, ◌<◌, [], IfErr, IfOk, Err, None, OnErr, Some, false, true};
ghost use Rattle.zn_base.specs.Names.{Name};
ghost use Rattle.zone_pools.specs.Pools.{Pools};
ghost use Rattle.zone_machine.specs.Code.Reads.{global_read, subject_in};
ghost use Rattle.zone_machine.specs.Code.Decided.{entry_of};
ghost use Rattle.zone_machine.specs.Code.Records.{NeedsNoDisk};
ghost use Rattle.zone_machine.specs.Code.Steps.{IsGrantFor, IsStepUnder, IsUnfit, Leaves};
ghost use Rattle.zone_machine.specs.Machine.{global_reply};
ghost use Rattle.zone_cases.specs.Events.{is_restart};
ghost use Rattle.zone_cases.specs.State.{State};
ghost use Rattle.zone_cases.specs.State.Decisions.{head_of, says};
ghost use Rattle.zone_cases.specs.declared.events.Event.TheVariants as events;
ghost use Rattle.zone_cases.specs.declared.events.Subject.TheVariants as subject_variants;

use crate::faults::StepFault;
use crate::machine::declarations::declare;
use crate::machine::parts::Parts;
use crate::machine::reads::{Read, global_reply, says};
use std::alloc::Global;
use zone_cases::{Declaration, Event, Head, Refusal, Reply};
use zone_pools::Grant;

/// The grant of an event that asks nothing.
pub(crate) fn nothing_of(stated: Option<Grant>) -> Result<Grant, StepFault>
    ensures takes { IfOk result (λ grant. (P : Pools) (z : Name) → IsGrantFor z P [] stated grant) }
    ensures misfit { OnErr result ((result ≡ Err StepFault.BadGrant) × ((P : Pools) (z : Name) → IsUnfit z P [] stated)) }
{
    match stated {
        None | Some(Grant::Nothing) => Ok(Grant::Nothing),
        Some(Grant::Number(_) | Grant::Yes | Grant::Denied(_)) => Err(StepFault::BadGrant),
    }
}

// A reply that says no more than whether a declaration is refused.
fn declared_reply(refusal: Option<Refusal>) -> Reply
    ensures { result ≡ says (head_of refusal) }
{
    match refusal {
        None => says(Head::Ok),
        Some(refusal) => says(Head::Refused(refusal)),
    }
}

impl Parts {
    /// An event that is no zone's is answered.
    #[inline(never)]
    pub(crate) fn answer_global(
        &mut self,
        alloc: Global,
        event: &Event,
        read: Read<'_>,
        stated: Option<Grant>,
    ) -> Result<(Grant, Reply), StepFault>
        requires of { subject_in self.old.shared event.now ≡ subject_variants.Global }
        requires global { (S : State) → global_read S read ≡ global_reply S event.now }
        ensures ok { IfOk result (λ r. IsStepUnder stated self.old event.now (entry_of subject_variants.Global event.now r.0 r.1) self.new) }
        ensures fault { IfErr result (λ fault. Leaves fault stated self.old event.now self.new) }
        ensures apart { IfErr result NeedsNoDisk }
        ensures rows { self.new.shared.rows ≡ self.old.shared.rows }
        ensures used { self.new.shared.used ≡ self.old.shared.used }
        ensures brands { self.new.shared.brands ≡ self.old.shared.brands }
    {
        let reply = global_reply(alloc, self, read)?;
        let grant = nothing_of(stated)?;
        self.shared.started = true;
        Ok((grant, reply))
    }

    // What the whole system declares is answered.
    fn answer_declaration(
        &mut self,
        alloc: Global,
        what: &Declaration,
        stated: Option<Grant>,
    ) -> Result<(Grant, Reply), StepFault>
        ensures ok { IfOk result (λ r. IsStepUnder stated self.old (events.System what.now) (entry_of subject_variants.Whole (events.System what.now) r.0 r.1) self.new) }
        ensures fault { IfErr result (λ fault. Leaves fault stated self.old (events.System what.now) self.new) }
        ensures apart { IfErr result NeedsNoDisk }
        ensures rows { self.new.shared.rows ≡ self.old.shared.rows }
        ensures used { self.new.shared.used ≡ self.old.shared.used }
        ensures brands { self.new.shared.brands ≡ self.old.shared.brands }
    {
        let grant = nothing_of(stated)?;
        let refusal = declare(alloc, &mut self.shared, what)?;
        Ok((grant, declared_reply(refusal)))
    }

    /// An event of the whole system is answered that isn't a restart.
    #[inline(never)]
    pub(crate) fn answer_whole(
        &mut self,
        alloc: Global,
        event: &Event,
        stated: Option<Grant>,
    ) -> Result<(Grant, Reply), StepFault>
        requires of { subject_in self.old.shared event.now ≡ subject_variants.Whole }
        requires stays { is_restart event.now ≡ false }
        ensures ok { IfOk result (λ r. IsStepUnder stated self.old event.now (entry_of subject_variants.Whole event.now r.0 r.1) self.new) }
        ensures fault { IfErr result (λ fault. Leaves fault stated self.old event.now self.new) }
        ensures apart { IfErr result NeedsNoDisk }
        ensures rows { self.new.shared.rows ≡ self.old.shared.rows }
        ensures used { self.new.shared.used ≡ self.old.shared.used }
        ensures brands { self.new.shared.brands ≡ self.old.shared.brands }
    {
        match event {
            Event::System(what) => self.answer_declaration(alloc, what, stated),
            _ => unreachable!(),
        }
    }
}

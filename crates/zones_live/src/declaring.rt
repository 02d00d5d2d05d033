//! What an input declares comes to the machine before any session does.
ghost use Rattle.std.specs.Prelude.{◌≡◌, ◌<◌, ◌⊎◌, ◌∷◌, [], IfErr, IfOk, IsErrOf, OnOk, vec_capacity, vec_len};
ghost use Rattle.session_runs.specs.Midway.{Takes};
ghost use Rattle.zn_io.specs.Streams.{Rose};
ghost use Rattle.zone_cases.specs.State.{State};
ghost use Rattle.zone_machine.specs.Code.Decided.{AsksBrands, MayGoOn};
ghost use Rattle.zone_machine.specs.Code.Openings.{StandsFor};
ghost use Rattle.zone_machine.specs.Code.Records.{Passes};
ghost use Rattle.zones_live.specs.Declaring.{Declared};
ghost use Rattle.zones_run.specs.Recording.{KeepsStore};

use brand_hooks::{Change, HookAnswer};
use std::alloc::{AllocError, Global};
use zn_io::Disk;
use zone_cases::{Declaration, Entry, Event};
use zone_machine::{Machine, StepFault};
use zones_run::RunFault;

// One thing is declared, with room taken before for its entry.
fn step<D: Disk, F: Fn(&Change) -> HookAnswer>(
    alloc: Global,
    machine: &mut Machine<'_, D, F>,
    what: Declaration,
    entries: &mut Vec<Entry>,
) -> Result<Entry, RunFault>
    requires asks { AsksBrands F.Fn machine.old }
    requires ready { MayGoOn D.view machine.old }
    ensures takes { IfOk result (λ entry. (S : State) → StandsFor S machine.old → Takes S (Event.System what) entry (λ T. StandsFor T machine.new) (D.view machine.old.bank.disk) (D.view machine.new.bank.disk)) }
    ensures kept { (S : State) → StandsFor S machine.old → (D.view machine.old.bank.disk).Keeps → KeepsStore S.commits (D.view machine.old.bank.disk) (D.view machine.new.bank.disk) }
    ensures same { entries.new.items ≡ entries.old.items }
    ensures room { OnOk result (vec_len entries.new < vec_capacity entries.new) }
    ensures only { IfErr result (λ fault. (fault ≡ RunFault.Memory) ⊎ (fault ≡ RunFault.Disk)) }
    ensures disk { IsErrOf result RunFault.Disk → Rose (D.view machine.old.bank.disk).faults (D.view machine.new.bank.disk).faults }
    ensures ready { OnOk result (MayGoOn D.view machine.new) }
    ensures passes { Passes (D.view machine.old.bank.disk) (D.view machine.new.bank.disk) }
    ensures asks { AsksBrands F.Fn machine.new }
{
    if let Err(AllocError) = entries.reserve(1) {
        return Err(RunFault::Memory);
    }
    match machine.step(alloc, Event::System(what)) {
        Ok(entry) => Ok(entry),
        Err(StepFault::Memory) => Err(RunFault::Memory),
        Err(StepFault::DiskFault) => Err(RunFault::Disk),
        Err(_) => unreachable!(),
    }
}

// One thing is declared, and its entry is put behind others.
fn declare_one<D: Disk, F: Fn(&Change) -> HookAnswer>(
    alloc: Global,
    machine: &mut Machine<'_, D, F>,
    what: Declaration,
    entries: &mut Vec<Entry>,
) -> Result<(), RunFault>
    requires asks { AsksBrands F.Fn machine.old }
    requires ready { MayGoOn D.view machine.old }
    ensures declared { OnOk result ((S : State) → StandsFor S machine.old → Declared S (what ∷ []) entries.old.items entries.new.items (λ T. StandsFor T machine.new)) }
    ensures kept { (S : State) → StandsFor S machine.old → (D.view machine.old.bank.disk).Keeps → KeepsStore S.commits (D.view machine.old.bank.disk) (D.view machine.new.bank.disk) }
    ensures only { IfErr result (λ fault. (fault ≡ RunFault.Memory) ⊎ (fault ≡ RunFault.Disk)) }
    ensures disk { IsErrOf result RunFault.Disk → Rose (D.view machine.old.bank.disk).faults (D.view machine.new.bank.disk).faults }
    ensures ready { OnOk result (MayGoOn D.view machine.new) }
    ensures passes { Passes (D.view machine.old.bank.disk) (D.view machine.new.bank.disk) }
    ensures asks { AsksBrands F.Fn machine.new }
{
    let entry = step(alloc, machine, what, entries)?;
    entries.push_reserved(entry);
    Ok(())
}

/// Declares what is to be declared, in order, and puts the entries behind others. It changes nothing of what is stored. After a fault
/// nothing is known of the entries.
pub(crate) fn declare<D: Disk, F: Fn(&Change) -> HookAnswer>(
    alloc: Global,
    machine: &mut Machine<'_, D, F>,
    declared: Vec<Declaration>,
    entries: &mut Vec<Entry>,
) -> Result<(), RunFault>
    requires asks { AsksBrands F.Fn machine.old }
    requires ready { MayGoOn D.view machine.old }
    ensures declared { OnOk result ((S : State) → StandsFor S machine.old → Declared S declared.items entries.old.items entries.new.items (λ T. StandsFor T machine.new)) }
    ensures kept { (S : State) → StandsFor S machine.old → (D.view machine.old.bank.disk).Keeps → KeepsStore S.commits (D.view machine.old.bank.disk) (D.view machine.new.bank.disk) }
    ensures only { IfErr result (λ fault. (fault ≡ RunFault.Memory) ⊎ (fault ≡ RunFault.Disk)) }
    ensures disk { IsErrOf result RunFault.Disk → Rose (D.view machine.old.bank.disk).faults (D.view machine.new.bank.disk).faults }
    ensures ready { OnOk result (MayGoOn D.view machine.new) }
    ensures passes { Passes (D.view machine.old.bank.disk) (D.view machine.new.bank.disk) }
    ensures asks { AsksBrands F.Fn machine.new }
{
    for what in declared {
        declare_one(alloc, machine, what, entries)?;
    }
    Ok(())
}

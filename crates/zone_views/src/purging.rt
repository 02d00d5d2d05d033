//! Runs of a machine, and what is left of them where all other zones' entries are removed.
ghost use Rattle.std.specs.Prelude.{◌≡◌, ◌⊎◌, Bool, IfErr, IfOk, IsErrOf, List, OnOk, false, true};
ghost use Rattle.brand_hooks.specs.Brands.{Tabled};
ghost use Rattle.commit_journal.specs.declared.records.Commit.{Commit};
ghost use Rattle.zn_io.specs.Streams.{Rose};
ghost use Rattle.zone_cases.specs.State.{State, stored};
ghost use Rattle.zone_cases.specs.declared.events.Event as event_types;
ghost use Rattle.zone_pools.specs.declared.grant.Grant as grant_types;
ghost use Rattle.zone_machine.specs.Code.Decided.{AsksBrands, MayGoOn};
ghost use Rattle.zone_machine.specs.Code.Openings.{StandsFor};
ghost use Rattle.zone_machine.specs.Code.Records.{Passes};
ghost use Rattle.zone_machine.specs.Machine.Histories.{asked, concerns, is_history, is_of, only, replies, run};
ghost use Rattle.zone_machine.specs.Machine.{opening};
ghost use Rattle.zone_views.specs.Running.{HasRun, HasRunGiven, HasRunSome, HasRunSomeGiven, all_fit};

use brand_hooks::{Change, HookAnswer};
use std::alloc::{AllocError, Global};
use zn_base::ZoneName;
use zn_io::Disk;
use zone_cases::{Entry, Event, Reply, Subject};
use zone_machine::{Machine, StepFault};
use zone_pools::Grant;

// Whether an entry of this subject is one of a zone.
fn is_of(zone: &ZoneName, subject: &Subject) -> bool
    ensures { result ≡ is_of zone.now subject.now }
{
    match subject {
        Subject::Zone(other) => *zone == *other,
        Subject::Global | Subject::Whole => false,
    }
}

// Whether it is one of the zone or of the whole system.
fn concerns(zone: &ZoneName, subject: &Subject) -> bool
    ensures { result ≡ concerns zone.now subject.now }
{
    match subject {
        Subject::Zone(other) => *zone == *other,
        Subject::Global => false,
        Subject::Whole => true,
    }
}

/// The entries of a zone and of the whole system, in order, with their grants.
pub fn only(alloc: Global, entries: &[Entry], zone: &ZoneName) -> Result<Vec<Entry>, AllocError>
    ensures { IfOk result (λ kept. kept.items ≡ only zone.now entries.now) }
{
    let mut kept = Vec::new(alloc);
    for entry in entries {
        if concerns(zone, &entry.subject) {
            kept.push(entry.copy(alloc)?)?;
        }
    }
    Ok(kept)
}

/// The replies of the entries of a zone, in order.
pub fn replies_of(
    alloc: Global,
    entries: &[Entry],
    zone: &ZoneName,
) -> Result<Vec<Reply>, AllocError>
    ensures { IfOk result (λ list. list.items ≡ replies zone.now entries.now) }
{
    let mut list = Vec::new(alloc);
    for entry in entries {
        if is_of(zone, &entry.subject) {
            list.push(entry.reply.copy(alloc)?)?;
        }
    }
    Ok(list)
}

/// Events are answered one after the other, each under the grant that the pools give it: their entries are a legal history. Where
/// memory runs out the steps before stand.
pub fn run<D: Disk, F: Fn(&Change) -> HookAnswer>(
    alloc: Global,
    machine: &mut Machine<'_, D, F>,
    events: Vec<Event>,
) -> Result<Vec<Entry>, StepFault>
    requires asks { AsksBrands F.Fn machine.old }
    requires ready { MayGoOn D.view machine.old }
    ensures ok { (D.view machine.old.bank.disk).Keeps → IfOk result (λ entries. (S : State) → StandsFor S machine.old → HasRun S events.items entries.items machine.new) }
    ensures memory { (D.view machine.old.bank.disk).Keeps → IsErrOf result StepFault.Memory → (S : State) → StandsFor S machine.old → HasRunSome S events.items machine.new.parts }
    ensures err { (D.view machine.old.bank.disk).Keeps → IfErr result (λ fault. (fault ≡ StepFault.Memory) ⊎ (fault ≡ StepFault.DiskFault)) }
    ensures disk { IsErrOf result StepFault.DiskFault → Rose (D.view machine.old.bank.disk).faults (D.view machine.new.bank.disk).faults }
    ensures ready { OnOk result (MayGoOn D.view machine.new) }
    ensures passes { Passes (D.view machine.old.bank.disk) (D.view machine.new.bank.disk) }
    ensures asks { AsksBrands F.Fn machine.new }
{
    let mut entries = Vec::new(alloc);
    for event in events {
        let entry = machine.step(alloc, event)?;
        entries.push(entry)?;
    }
    Ok(entries)
}

// What an entry's event was, and what the pools gave it. What it was answered is let go.
fn into_asked(entry: Entry) -> (Event, Grant)
    ensures event { result.0 ≡ entry.event }
    ensures grant { result.1 ≡ entry.grant }
{
    let Entry {
        event,
        subject: _subject,
        grant,
        reply: _reply,
    } = entry;
    (event, grant)
}

// The same of the events of entries, under their grants.
fn run_given<D: Disk, F: Fn(&Change) -> HookAnswer>(
    alloc: Global,
    machine: &mut Machine<'_, D, F>,
    entries: Vec<Entry>,
) -> Result<Vec<Entry>, StepFault>
    requires asks { AsksBrands F.Fn machine.old }
    requires ready { MayGoOn D.view machine.old }
    ensures ok { (D.view machine.old.bank.disk).Keeps → IfOk result (λ answered. (S : State) → StandsFor S machine.old → HasRunGiven S entries.items answered.items machine.new) }
    ensures memory { (D.view machine.old.bank.disk).Keeps → IsErrOf result StepFault.Memory → (S : State) → StandsFor S machine.old → HasRunSomeGiven S entries.items machine.new.parts }
    ensures misfit { (D.view machine.old.bank.disk).Keeps → IsErrOf result StepFault.BadGrant → (S : State) → StandsFor S machine.old → all_fit S (asked entries.items) ≡ false }
    ensures stays { (D.view machine.old.bank.disk).Keeps → IsErrOf result StepFault.BadGrant → (S : State) → StandsFor S machine.old → HasRunSomeGiven S entries.items machine.new.parts }
    ensures goes_on { IsErrOf result StepFault.BadGrant → MayGoOn D.view machine.new }
    ensures err { (D.view machine.old.bank.disk).Keeps → IfErr result (λ fault. (fault ≡ StepFault.Memory) ⊎ ((fault ≡ StepFault.DiskFault) ⊎ (fault ≡ StepFault.BadGrant))) }
    ensures disk { IsErrOf result StepFault.DiskFault → Rose (D.view machine.old.bank.disk).faults (D.view machine.new.bank.disk).faults }
    ensures ready { OnOk result (MayGoOn D.view machine.new) }
    ensures passes { Passes (D.view machine.old.bank.disk) (D.view machine.new.bank.disk) }
    ensures asks { AsksBrands F.Fn machine.new }
{
    let mut answered = Vec::new(alloc);
    for entry in entries {
        let (event, grant) = into_asked(entry);
        let answer = machine.step_given(alloc, event, grant)?;
        answered.push(answer)?;
    }
    Ok(answered)
}

/// The events of a zone and of the whole system among some entries are answered again, under their grants and without those of
/// other zones: the replies of the zone. A grant may not fit any more; where all do, the zone is answered what it was answered
/// among the others. Where one doesn't, or memory runs out, the steps before stand; where one doesn't, the machine may go on.
pub fn run_purged<D: Disk, F: Fn(&Change) -> HookAnswer>(
    alloc: Global,
    machine: &mut Machine<'_, D, F>,
    entries: &[Entry],
    zone: &ZoneName,
) -> Result<Vec<Reply>, StepFault>
    requires asks { AsksBrands F.Fn machine.old }
    requires ready { MayGoOn D.view machine.old }
    ensures ok { (D.view machine.old.bank.disk).Keeps → IfOk result (λ list. (S : State) → StandsFor S machine.old → list.items ≡ replies zone.now (run S (asked (only zone.now entries.now)))) }
    // Where the entries are a history from other records, which have the same of the zone, these are the replies that it has there.
    ensures alike { (D.view machine.old.bank.disk).Keeps → IfOk result (λ list. (permits : State → event_types.Event → grant_types.Grant → Bool) (brands : List Tabled) (commits others : List Commit)
        → StandsFor (opening brands others) machine.old → is_history permits (opening brands commits) entries.now ≡ true → stored zone.now commits ≡ stored zone.now others
        → list.items ≡ replies zone.now entries.now) }
    ensures stands { (D.view machine.old.bank.disk).Keeps → OnOk result ((S : State) → StandsFor S machine.old → HasRunGiven S (only zone.now entries.now) (run S (asked (only zone.now entries.now))) machine.new) }
    ensures memory { (D.view machine.old.bank.disk).Keeps → IsErrOf result StepFault.Memory → (S : State) → StandsFor S machine.old → HasRunSomeGiven S (only zone.now entries.now) machine.new.parts }
    ensures misfit { (D.view machine.old.bank.disk).Keeps → IsErrOf result StepFault.BadGrant → (S : State) → StandsFor S machine.old → all_fit S (asked (only zone.now entries.now)) ≡ false }
    ensures stays { (D.view machine.old.bank.disk).Keeps → IsErrOf result StepFault.BadGrant → (S : State) → StandsFor S machine.old → HasRunSomeGiven S (only zone.now entries.now) machine.new.parts }
    ensures goes_on { IsErrOf result StepFault.BadGrant → MayGoOn D.view machine.new }
    ensures err { (D.view machine.old.bank.disk).Keeps → IfErr result (λ fault. (fault ≡ StepFault.Memory) ⊎ ((fault ≡ StepFault.DiskFault) ⊎ (fault ≡ StepFault.BadGrant))) }
    ensures disk { IsErrOf result StepFault.DiskFault → Rose (D.view machine.old.bank.disk).faults (D.view machine.new.bank.disk).faults }
    ensures ready { OnOk result (MayGoOn D.view machine.new) }
    ensures passes { Passes (D.view machine.old.bank.disk) (D.view machine.new.bank.disk) }
    ensures asks { AsksBrands F.Fn machine.new }
{
    let kept = only(alloc, entries, zone)?;
    let answered = run_given(alloc, machine, kept)?;
    Ok(replies_of(alloc, &answered, zone)?)
}

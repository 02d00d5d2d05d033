//! What is left of scripts, one after the other.
ghost use Rattle.std.specs.Prelude.{◌≡◌, ◌⊎◌, ◌≤◌, ◌<◌, ℕ, IfErr, IsErrOf, List, None, OnOk, false, length, slice_index_or};
ghost use Rattle.zn_io.specs.Streams.{Rose};
ghost use Rattle.session_records.specs.Scripts.{Progress};
ghost use Rattle.session_runs.specs.Far.{Differ, IsAt, scripts_of};
ghost use Rattle.session_runs.specs.Midway.{AddsOn, AddsUpTo, IsMidway};
ghost use Rattle.session_runs.specs.Runs.{IsCut, IsOver, IsUnderWay};
ghost use Rattle.session_runs.specs.declared.far.Far.{Far as Far_of};
ghost use Rattle.session_runs.specs.declared.far.Script.{Script as Script_of};
ghost use Rattle.zone_cases.specs.State.{State};
ghost use Rattle.zone_machine.specs.Code.Decided.{AsksBrands, MayGoOn};
ghost use Rattle.zone_machine.specs.Code.Openings.{StandsFor};
ghost use Rattle.zone_machine.specs.Code.Records.{Passes};

use crate::far::{Far, Script};
use crate::steps::{take_turn, type_line};
use brand_hooks::{Change, HookAnswer};
use std::alloc::Global;
use std::sync::Wait;
use zn_io::Disk;
use zone_cases::Entry;
use zone_machine::{Machine, StepFault};

// Turns of the daemon for which a session waits, until one answers its ticket or is stuck.
fn until_answered<W: Wait, D: Disk, F: Fn(&Change) -> HookAnswer>(
    rt: &W,
    alloc: Global,
    machine: &mut Machine<'_, D, F>,
    at: usize,
    far: &mut Vec<Far>,
    entries: &mut Vec<Entry>,
) -> Result<(), StepFault>
    requires at { at < length far.old.items }
    requires asks { AsksBrands F.Fn machine.old }
    requires ready { MayGoOn D.view machine.old }
    ensures adds { (S : State) (p : ℕ → Progress) (scripts : List Script_of) → IsMidway S p scripts far.old.items (λ T. StandsFor T machine.old)
        → OnOk result (AddsOn S p scripts far.new.items entries.old.items entries.new.items (λ T. StandsFor T machine.new) (D.view machine.old.bank.disk) (D.view machine.new.bank.disk)) }
    ensures halts { (S : State) (p : ℕ → Progress) (scripts : List Script_of) → IsMidway S p scripts far.old.items (λ T. StandsFor T machine.old)
        → IfErr result (λ fault. AddsUpTo fault S p entries.old.items entries.new.items (λ T. StandsFor T machine.new) (D.view machine.old.bank.disk) (D.view machine.new.bank.disk)) }
    ensures answered { OnOk result ((f : Far_of) → slice_index_or far.new.items at f ≡ record { done = (slice_index_or far.old.items at f).done; awaits = None }) }
    ensures len { length far.new.items ≡ length far.old.items }
    ensures only { IfErr result (λ fault. (fault ≡ StepFault.Memory) ⊎ (fault ≡ StepFault.DiskFault)) }
    ensures ready { OnOk result (MayGoOn D.view machine.new) }
    ensures memory { IsErrOf result StepFault.Memory → MayGoOn D.view machine.new }
    ensures disk { IsErrOf result StepFault.DiskFault → Rose (D.view machine.old.bank.disk).faults (D.view machine.new.bank.disk).faults × (machine.new.bank.sound ≡ false) }
    ensures passes { Passes (D.view machine.old.bank.disk) (D.view machine.new.bank.disk) }
    ensures asks { AsksBrands F.Fn machine.new }
{
    for _ in rt.forever() {
        let zone = match &far[at].awaits {
            Some(awaited) => awaited.zone.copy(alloc)?,
            None => return Ok(()),
        };
        take_turn(alloc, machine, zone, far, entries)?;
    }
    unreachable!()
}

// The turns for the ticket that a session waits for, and then each line that is left, each followed by the turns for its ticket.
fn run_script<W: Wait, D: Disk, F: Fn(&Change) -> HookAnswer>(
    rt: &W,
    alloc: Global,
    machine: &mut Machine<'_, D, F>,
    script: &Script,
    at: usize,
    far: &mut Vec<Far>,
    entries: &mut Vec<Entry>,
) -> Result<(), StepFault>
    requires at { at < length far.old.items }
    requires asks { AsksBrands F.Fn machine.old }
    requires ready { MayGoOn D.view machine.old }
    ensures adds { (S : State) (p : ℕ → Progress) (scripts : List Script_of) → IsMidway S p scripts far.old.items (λ T. StandsFor T machine.old) → Differ scripts → IsAt scripts at script.now
        → OnOk result (AddsOn S p scripts far.new.items entries.old.items entries.new.items (λ T. StandsFor T machine.new) (D.view machine.old.bank.disk) (D.view machine.new.bank.disk)) }
    ensures halts { (S : State) (p : ℕ → Progress) (scripts : List Script_of) → IsMidway S p scripts far.old.items (λ T. StandsFor T machine.old) → Differ scripts → IsAt scripts at script.now
        → IfErr result (λ fault. AddsUpTo fault S p entries.old.items entries.new.items (λ T. StandsFor T machine.new) (D.view machine.old.bank.disk) (D.view machine.new.bank.disk)) }
    ensures done { OnOk result ((f : Far_of) → (length script.now.lines.items ≤ (slice_index_or far.new.items at f).done) × ((slice_index_or far.new.items at f).awaits ≡ None)) }
    ensures len { length far.new.items ≡ length far.old.items }
    ensures only { IfErr result (λ fault. (fault ≡ StepFault.Memory) ⊎ (fault ≡ StepFault.DiskFault)) }
    ensures ready { OnOk result (MayGoOn D.view machine.new) }
    ensures memory { IsErrOf result StepFault.Memory → MayGoOn D.view machine.new }
    ensures disk { IsErrOf result StepFault.DiskFault → Rose (D.view machine.old.bank.disk).faults (D.view machine.new.bank.disk).faults × (machine.new.bank.sound ≡ false) }
    ensures passes { Passes (D.view machine.old.bank.disk) (D.view machine.new.bank.disk) }
    ensures asks { AsksBrands F.Fn machine.new }
{
    until_answered(rt, alloc, machine, at, far, entries)?;
    for number in far[at].done..script.lines.len() {
        type_line(alloc, machine, script, number, at, far, entries)?;
        until_answered(rt, alloc, machine, at, far, entries)?;
    }
    Ok(())
}

/// Runs what sessions' scripts have left, by how far each is, and puts the entries behind those that are there: for each script in
/// order the turns for the ticket that its session waits for, and then each line that is left, each followed by such turns. Those
/// that are there are a part of a record of the scripts, for whose last state the machine stands; with those that come they are the
/// whole. A fault ends it, after which they are still a part, with all entries of events that were answered. Where memory ran out
/// the machine may go on; where the disk failed it may not.
pub fn run_rest<W: Wait, D: Disk, F: Fn(&Change) -> HookAnswer>(
    rt: &W,
    alloc: Global,
    machine: &mut Machine<'_, D, F>,
    scripts: &[Script],
    far: Vec<Far>,
    entries: &mut Vec<Entry>,
) -> Result<(), StepFault>
    requires differ { Differ scripts.now }
    requires far { length far.items ≡ length scripts.now }
    requires asks { AsksBrands F.Fn machine.old }
    requires ready { MayGoOn D.view machine.old }
    ensures whole { (S : State) → IsUnderWay S scripts.now far.items entries.old.items (λ T. StandsFor T machine.old)
        → OnOk result (IsOver S (scripts_of scripts.now) entries.old.items entries.new.items (λ T. StandsFor T machine.new) (D.view machine.old.bank.disk) (D.view machine.new.bank.disk)) }
    ensures part { (S : State) → IsUnderWay S scripts.now far.items entries.old.items (λ T. StandsFor T machine.old)
        → IfErr result (λ fault. IsCut fault S (scripts_of scripts.now) entries.old.items entries.new.items (λ T. StandsFor T machine.new) (D.view machine.old.bank.disk) (D.view machine.new.bank.disk)) }
    ensures only { IfErr result (λ fault. (fault ≡ StepFault.Memory) ⊎ (fault ≡ StepFault.DiskFault)) }
    ensures ready { OnOk result (MayGoOn D.view machine.new) }
    ensures memory { IsErrOf result StepFault.Memory → MayGoOn D.view machine.new }
    ensures disk { IsErrOf result StepFault.DiskFault → Rose (D.view machine.old.bank.disk).faults (D.view machine.new.bank.disk).faults × (machine.new.bank.sound ≡ false) }
    ensures passes { Passes (D.view machine.old.bank.disk) (D.view machine.new.bank.disk) }
    ensures asks { AsksBrands F.Fn machine.new }
{
    let mut far = far;
    for (at, script) in scripts.iter().enumerate() {
        run_script(rt, alloc, machine, script, at, &mut far, entries)?;
    }
    Ok(())
}

//! One event of a session's script: a turn for the ticket that it waits for, or its next line.
ghost use Rattle.std.specs.Prelude.{◌≡◌, ◌≢◌, ◌⊎◌, ◌+◌, ◌<◌, ℕ, IfErr, IfOk, IsErrOf, List, None, OnOk, Some, [], false, length, slice_index_or, vec_capacity, vec_len};
ghost use Rattle.zn_io.specs.Streams.{Rose};
ghost use Rattle.session_records.specs.Records.{Awaited};
ghost use Rattle.session_records.specs.Scripts.{Progress};
ghost use Rattle.session_runs.specs.Far.{Differ, IsAt};
ghost use Rattle.session_runs.specs.Midway.{AddsOn, AddsUpTo, Halts, IsMidway, Takes};
ghost use Rattle.session_runs.specs.declared.far.Far.{Far as Far_of};
ghost use Rattle.session_runs.specs.declared.far.Script.{Script as Script_of};
ghost use Rattle.zone_cases.specs.Events.{is_restart};
ghost use Rattle.zone_cases.specs.State.{State};
ghost use Rattle.zone_machine.specs.Code.Decided.{AsksBrands, MayGoOn};
ghost use Rattle.zone_machine.specs.Code.Openings.{StandsFor};
ghost use Rattle.zone_machine.specs.Code.Records.{Passes};

use crate::far::{Far, Script, given_ticket, note_turn};
use brand_hooks::{Change, HookAnswer};
use std::alloc::Global;
use zn_base::ZoneName;
use zn_io::Disk;
use zone_cases::{Entry, Event};
use zone_machine::{Machine, StepFault};
use zone_views::no_turn_is_idle_while_a_session_waits;

// One event that is no restart is answered, with room taken before for its entry.
fn step<D: Disk, F: Fn(&Change) -> HookAnswer>(
    alloc: Global,
    machine: &mut Machine<'_, D, F>,
    event: Event,
    entries: &mut Vec<Entry>,
) -> Result<Entry, StepFault>
    requires stays { is_restart event ≡ false }
    requires asks { AsksBrands F.Fn machine.old }
    requires ready { MayGoOn D.view machine.old }
    ensures takes { IfOk result (λ entry. (S : State) → StandsFor S machine.old → Takes S event entry (λ T. StandsFor T machine.new) (D.view machine.old.bank.disk) (D.view machine.new.bank.disk)) }
    ensures halts { IfErr result (λ fault. (S : State) → StandsFor S machine.old → Halts fault S (λ T. StandsFor T machine.new) (D.view machine.old.bank.disk) (D.view machine.new.bank.disk) []) }
    ensures same { entries.new.items ≡ entries.old.items }
    ensures room { OnOk result (vec_len entries.new < vec_capacity entries.new) }
    ensures only { IfErr result (λ fault. (fault ≡ StepFault.Memory) ⊎ (fault ≡ StepFault.DiskFault)) }
    ensures ready { OnOk result (MayGoOn D.view machine.new) }
    ensures memory { IsErrOf result StepFault.Memory → MayGoOn D.view machine.new }
    ensures disk { IsErrOf result StepFault.DiskFault → Rose (D.view machine.old.bank.disk).faults (D.view machine.new.bank.disk).faults × (machine.new.bank.sound ≡ false) }
    ensures passes { Passes (D.view machine.old.bank.disk) (D.view machine.new.bank.disk) }
    ensures asks { AsksBrands F.Fn machine.new }
{
    entries.reserve(1)?;
    machine.step(alloc, event)
}

/// A turn of the daemon for which a session waits.
pub(crate) fn take_turn<D: Disk, F: Fn(&Change) -> HookAnswer>(
    alloc: Global,
    machine: &mut Machine<'_, D, F>,
    zone: ZoneName,
    far: &mut Vec<Far>,
    entries: &mut Vec<Entry>,
) -> Result<(), StepFault>
    requires asks { AsksBrands F.Fn machine.old }
    requires ready { MayGoOn D.view machine.old }
    ensures adds { (S : State) (p : ℕ → Progress) (scripts : List Script_of) (n : ℕ) (w : Awaited) → IsMidway S p scripts far.old.items (λ T. StandsFor T machine.old) → (p n).waits ≡ Some w → w.zone ≡ zone
        → OnOk result (AddsOn S p scripts far.new.items entries.old.items entries.new.items (λ T. StandsFor T machine.new) (D.view machine.old.bank.disk) (D.view machine.new.bank.disk)) }
    ensures halts { (S : State) (p : ℕ → Progress) (scripts : List Script_of) → IsMidway S p scripts far.old.items (λ T. StandsFor T machine.old)
        → IfErr result (λ fault. AddsUpTo fault S p entries.old.items entries.new.items (λ T. StandsFor T machine.new) (D.view machine.old.bank.disk) (D.view machine.new.bank.disk)) }
    ensures len { length far.new.items ≡ length far.old.items }
    ensures done { (i : ℕ) (f : Far_of) → i < length far.old.items → (slice_index_or far.new.items i f).done ≡ (slice_index_or far.old.items i f).done }
    ensures only { IfErr result (λ fault. (fault ≡ StepFault.Memory) ⊎ (fault ≡ StepFault.DiskFault)) }
    ensures ready { OnOk result (MayGoOn D.view machine.new) }
    ensures memory { IsErrOf result StepFault.Memory → MayGoOn D.view machine.new }
    ensures disk { IsErrOf result StepFault.DiskFault → Rose (D.view machine.old.bank.disk).faults (D.view machine.new.bank.disk).faults × (machine.new.bank.sound ≡ false) }
    ensures passes { Passes (D.view machine.old.bank.disk) (D.view machine.new.bank.disk) }
    ensures asks { AsksBrands F.Fn machine.new }
{
    // A law of histories: such a turn is not idle.
    no_turn_is_idle_while_a_session_waits();
    let entry = step(alloc, machine, Event::Turn { zone }, entries)?;
    note_turn(far, &entry);
    entries.push_reserved(entry);
    Ok(())
}

/// The line of a number is typed by the session of a script, which waits for nothing.
pub(crate) fn type_line<D: Disk, F: Fn(&Change) -> HookAnswer>(
    alloc: Global,
    machine: &mut Machine<'_, D, F>,
    script: &Script,
    number: usize,
    at: usize,
    far: &mut Vec<Far>,
    entries: &mut Vec<Entry>,
) -> Result<(), StepFault>
    requires number { number < length script.now.lines.items }
    requires at { at < length far.old.items }
    requires asks { AsksBrands F.Fn machine.old }
    requires ready { MayGoOn D.view machine.old }
    ensures adds { (S : State) (p : ℕ → Progress) (scripts : List Script_of) → IsMidway S p scripts far.old.items (λ T. StandsFor T machine.old) → Differ scripts → IsAt scripts at script.now
        → IsAt far.old.items at (record { done = number; awaits = None })
        → OnOk result (AddsOn S p scripts far.new.items entries.old.items entries.new.items (λ T. StandsFor T machine.new) (D.view machine.old.bank.disk) (D.view machine.new.bank.disk)) }
    ensures halts { (S : State) (p : ℕ → Progress) (scripts : List Script_of) → IsMidway S p scripts far.old.items (λ T. StandsFor T machine.old) → Differ scripts → IsAt scripts at script.now
        → IsAt far.old.items at (record { done = number; awaits = None })
        → IfErr result (λ fault. AddsUpTo fault S p entries.old.items entries.new.items (λ T. StandsFor T machine.new) (D.view machine.old.bank.disk) (D.view machine.new.bank.disk)) }
    ensures len { length far.new.items ≡ length far.old.items }
    ensures done { OnOk result ((f : Far_of) → (slice_index_or far.new.items at f).done ≡ number + 1) }
    ensures only { IfErr result (λ fault. (fault ≡ StepFault.Memory) ⊎ (fault ≡ StepFault.DiskFault)) }
    ensures ready { OnOk result (MayGoOn D.view machine.new) }
    ensures memory { IsErrOf result StepFault.Memory → MayGoOn D.view machine.new }
    ensures disk { IsErrOf result StepFault.DiskFault → Rose (D.view machine.old.bank.disk).faults (D.view machine.new.bank.disk).faults × (machine.new.bank.sound ≡ false) }
    ensures passes { Passes (D.view machine.old.bank.disk) (D.view machine.new.bank.disk) }
    ensures asks { AsksBrands F.Fn machine.new }
{
    let text = script.lines[number].copy(alloc)?;
    let event = Event::Session {
        number: script.session,
        text,
    };
    let entry = step(alloc, machine, event, entries)?;
    let awaits = given_ticket(alloc, &entry);
    entries.push_reserved(entry);
    far[at] = Far {
        done: number + 1,
        awaits: awaits?,
    };
    Ok(())
}

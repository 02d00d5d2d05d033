//! The top call of `live`.
ghost use Rattle.std.specs.Prelude.{◌≡◌, ◌≢◌, ◌⊎◌, ◌<◌, [], IfSome, List, false, map, string_bytes, true};
ghost use Rattle.std.specs.List.{All};
ghost use Rattle.brand_hooks.specs.Brands.{Tabled, tables_of};
ghost use Rattle.brand_hooks.specs.Hooks.{AllFollow};
ghost use Rattle.commit_journal.specs.declared.records.Commit.{Commit};
ghost use Rattle.live_input.specs.Input.{IsNumbered, input_of};
ghost use Rattle.session_runs.specs.Far.{Differ, scripts_of};
ghost use Rattle.zn_io.specs.Streams.{Rose, TakesFront};
ghost use Rattle.zone_cases.specs.declared.events.Declaration.{Declaration};
ghost use Rattle.zone_machine.specs.Code.Decided.{AsksBrands, MayGoOn};
ghost use Rattle.zone_machine.specs.Code.Openings.{StandsFor};
ghost use Rattle.zone_machine.specs.Machine.{opening};
ghost use Rattle.zone_machine.specs.Machine.Images.{IsStoreOf};
ghost use Rattle.zones_live.specs.Declaring.{Declared};
ghost use Rattle.zones_live.specs.Living.{FoundNone, IsDone, IsForm, LivesOn, LivesOnSome, LivesOverSome, RunsNothing, RunsOn, TellsFaults};
ghost use Rattle.zones_live.specs.Sorting.{declared_in, typed_in};
ghost use Rattle.zones_run.specs.Fixed.{usage_text};
ghost use Rattle.zones_run.specs.Run.{IsStatus, disk_fault_line, memory_line, read_fault_line};

use crate::declaring::declare;
use crate::opening::{hand_back, open};
use crate::sorting::{Sorted, sort};
use crate::telling::{tell_ending, tell_live};
use brand_hooks::{Brands, Change, HookAnswer};
use commit_journal::StoreFault;
use daemon_threads::{Live, run_sessions};
use live_input::{Ending, read_lines};
use session_runs::Script;
use std::alloc::{AllocError, Global};
use std::sync::Wait;
use std::thread::Threads;
use zn_io::{Disk, Sink, Source};
use zone_cases::{Entry, Event};
use zone_machine::Machine;
use zone_threads::Gate;
use zones_run::{
    Complaint, DISK_FAULT, NO_MEMORY, NOT_A_STORE, READ_FAULT, RunFault, USAGE, USAGE_LINE,
    WRITE_FAULT, fail, tell,
};

// Whether the words are `live` alone.
fn is_live(words: &[String]) -> bool
    ensures yes { result ≡ true → IsForm (map string_bytes words.now) }
    ensures no { result ≡ false → IsForm (map string_bytes words.now) → ⊥ }
{
    match words {
        [word] => word.as_str() == "live",
        _ => false,
    }
}

// Sessions run over a machine to which all is declared, and the record is written.
fn run_declared<
    R: Threads + Wait + Sync,
    K: Sink,
    E: Sink,
    D: Disk + Drop + Send,
    F: Fn(&Change) -> HookAnswer + Sync,
    G: Gate + Sync,
>(
    rt: &R,
    alloc: Global,
    machine: Machine<'_, D, F>,
    gate: &G,
    scripts: Vec<Script>,
    declared: Vec<Entry>,
    out: &mut K,
    err: &mut E,
) -> (u8, D)
    requires differ { Differ scripts.items }
    requires sessions { All (λ s. (s.session ≢ 0) × (s.session < 65)) scripts.items }
    requires asks { AsksBrands F.Fn machine }
    requires ready { MayGoOn D.view machine }
    ensures statuses { IsDone result.0 ⊎ ((result.0 ≡ NO_MEMORY) ⊎ (result.0 ≡ DISK_FAULT)) }
    ensures runs { (brands : List Tabled) (R : List Commit) (what : List Declaration) → Declared (opening brands R) what [] declared.items (λ T. StandsFor T machine.entry) →
        RunsOn brands R what (scripts_of scripts.items) result.0 (K.holds out.old) (K.holds out.new) (E.holds err.old) (E.holds err.new) (E.faults err.old) (E.faults err.new) (D.view machine.entry.bank.disk) (D.view result.1) }
    ensures faults { TellsFaults result.0 (K.faults out.old) (K.faults out.new) (E.holds err.old) (E.holds err.new) (E.faults err.old) (E.faults err.new) (D.view machine.entry.bank.disk) (D.view result.1) }
{
    let Live {
        entries,
        machine,
        ended,
    } = run_sessions(rt, alloc, machine, gate, scripts);
    let status = tell_live(alloc, out, err, declared, entries, ended);
    (status, machine.into_disk())
}

// What is to be declared comes to a machine, and then sessions run over it.
fn run_on_machine<
    R: Threads + Wait + Sync,
    K: Sink,
    E: Sink,
    D: Disk + Drop + Send,
    F: Fn(&Change) -> HookAnswer + Sync,
    G: Gate + Sync,
>(
    rt: &R,
    alloc: Global,
    machine: Machine<'_, D, F>,
    gate: &G,
    sorted: Sorted,
    out: &mut K,
    err: &mut E,
) -> (u8, D)
    requires differ { Differ sorted.scripts.items }
    requires sessions { All (λ s. (s.session ≢ 0) × (s.session < 65)) sorted.scripts.items }
    requires asks { AsksBrands F.Fn machine }
    requires ready { MayGoOn D.view machine }
    ensures statuses { IsDone result.0 ⊎ ((result.0 ≡ NO_MEMORY) ⊎ (result.0 ≡ DISK_FAULT)) }
    ensures runs { (brands : List Tabled) (R : List Commit) → StandsFor (opening brands R) machine.entry →
        RunsOn brands R sorted.declared.items (scripts_of sorted.scripts.items) result.0 (K.holds out.old) (K.holds out.new) (E.holds err.old) (E.holds err.new) (E.faults err.old) (E.faults err.new) (D.view machine.entry.bank.disk) (D.view result.1) }
    ensures faults { TellsFaults result.0 (K.faults out.old) (K.faults out.new) (E.holds err.old) (E.holds err.new) (E.faults err.old) (E.faults err.new) (D.view machine.entry.bank.disk) (D.view result.1) }
{
    let mut machine = machine;
    let mut entries = Vec::new(alloc);
    let Sorted { declared, scripts } = sorted;
    match declare(alloc, &mut machine, declared, &mut entries) {
        Ok(()) => run_declared(rt, alloc, machine, gate, scripts, entries, out, err),
        Err(fault) => (fail(err, fault), machine.into_disk()),
    }
}

// What the events of an input declare and type is run over a machine.
fn run_events<
    R: Threads + Wait + Sync,
    K: Sink,
    E: Sink,
    D: Disk + Drop + Send,
    F: Fn(&Change) -> HookAnswer + Sync,
    G: Gate + Sync,
>(
    rt: &R,
    alloc: Global,
    machine: Machine<'_, D, F>,
    gate: &G,
    events: Vec<Event>,
    out: &mut K,
    err: &mut E,
) -> (u8, D)
    requires numbered { All IsNumbered events.items }
    requires asks { AsksBrands F.Fn machine }
    requires ready { MayGoOn D.view machine }
    ensures statuses { IsDone result.0 ⊎ ((result.0 ≡ NO_MEMORY) ⊎ (result.0 ≡ DISK_FAULT)) }
    ensures runs { (brands : List Tabled) (R : List Commit) → StandsFor (opening brands R) machine.entry →
        RunsOn brands R (declared_in events.items) (typed_in events.items) result.0 (K.holds out.old) (K.holds out.new) (E.holds err.old) (E.holds err.new) (E.faults err.old) (E.faults err.new) (D.view machine.entry.bank.disk) (D.view result.1) }
    ensures faults { TellsFaults result.0 (K.faults out.old) (K.faults out.new) (E.holds err.old) (E.holds err.new) (E.faults err.old) (E.faults err.new) (D.view machine.entry.bank.disk) (D.view result.1) }
{
    match sort(alloc, events) {
        Ok(sorted) => run_on_machine(rt, alloc, machine, gate, sorted, out, err),
        Err(AllocError) => (fail(err, RunFault::Memory), hand_back(machine)),
    }
}

// All of the input is read, and run over a machine where no line ends it before.
fn run_input<
    R: Threads + Wait + Sync,
    S: Source,
    K: Sink,
    E: Sink,
    D: Disk + Drop + Send,
    F: Fn(&Change) -> HookAnswer + Sync,
    G: Gate + Sync,
>(
    rt: &R,
    alloc: Global,
    machine: Machine<'_, D, F>,
    gate: &G,
    src: &mut S,
    out: &mut K,
    err: &mut E,
) -> (u8, D)
    requires asks { AsksBrands F.Fn machine }
    requires ready { MayGoOn D.view machine }
    ensures statuses { IsStatus result.0 }
    ensures usage { result.0 ≢ USAGE }
    ensures store { result.0 ≢ NOT_A_STORE }
    ensures nothing { RunsNothing result.0 → K.holds out.new ≡ K.holds out.old }
    ensures lives { (brands : List Tabled) (R : List Commit) → StandsFor (opening brands R) machine.entry →
        LivesOnSome brands R (S.left src.old) result.0 (K.holds out.old) (K.holds out.new) (E.holds err.old) (E.holds err.new) (E.faults err.old) (E.faults err.new) (D.view machine.entry.bank.disk) (D.view result.1) }
    ensures read_fault { result.0 ≡ READ_FAULT → Rose (S.faults src.old) (S.faults src.new) }
    ensures read_line { result.0 ≡ READ_FAULT → TakesFront (E.holds err.old) (E.holds err.new) (E.faults err.old) (E.faults err.new) read_fault_line }
    ensures faults { TellsFaults result.0 (K.faults out.old) (K.faults out.new) (E.holds err.old) (E.holds err.new) (E.faults err.old) (E.faults err.new) (D.view machine.entry.bank.disk) (D.view result.1) }
{
    let mut events = Vec::new(alloc);
    match read_lines(alloc, src, &mut events) {
        Ok(Ending::End) => run_events(rt, alloc, machine, gate, events, out, err),
        Ok(Ending::Grammar(number, fault)) => {
            let complaint = Complaint::Grammar(number, fault);
            (tell_ending(alloc, err, complaint), hand_back(machine))
        }
        Ok(Ending::Limit(number)) => {
            let complaint = Complaint::Limit(number);
            (tell_ending(alloc, err, complaint), hand_back(machine))
        }
        Err(fault) => (fail(err, RunFault::from(fault)), hand_back(machine)),
    }
}

// The machine is opened on the disk, which is handed back however that ends.
fn run_on_store<
    R: Threads + Wait + Sync,
    S: Source,
    K: Sink,
    E: Sink,
    D: Disk + Drop + Send,
    F: Fn(&Change) -> HookAnswer + Sync,
    G: Gate + Sync,
>(
    rt: &R,
    alloc: Global,
    src: &mut S,
    out: &mut K,
    err: &mut E,
    disk: D,
    brands: &Brands<F>,
    gate: &G,
) -> (u8, D)
    requires { AllFollow F.Fn brands.now }
    ensures statuses { IsStatus result.0 }
    ensures usage { result.0 ≢ USAGE }
    ensures lives { (R : List Commit) → IsStoreOf (D.view disk) R → IfSome (S.left src.old) (λ bytes.
        LivesOn (tables_of brands.now) R (input_of bytes) result.0 (K.holds out.old) (K.holds out.new) (E.holds err.old) (E.holds err.new) (E.faults err.old) (E.faults err.new) (D.view disk) (D.view result.1)) }
    ensures any_disk { LivesOverSome (tables_of brands.now) (S.left src.old) result.0 (K.holds out.old) (K.holds out.new) (E.holds err.old) (E.holds err.new) (E.faults err.old) (E.faults err.new) (D.view disk) (D.view result.1) }
    ensures store { result.0 ≡ NOT_A_STORE → (D.view disk).Keeps → FoundNone (D.view disk) (E.holds err.old) (E.holds err.new) (E.faults err.old) (E.faults err.new) }
    ensures unread { result.0 ≡ NOT_A_STORE → src.new ≡ src.old }
    ensures nothing { RunsNothing result.0 → K.holds out.new ≡ K.holds out.old }
    ensures read_fault { result.0 ≡ READ_FAULT → Rose (S.faults src.old) (S.faults src.new) }
    ensures read_line { result.0 ≡ READ_FAULT → TakesFront (E.holds err.old) (E.holds err.new) (E.faults err.old) (E.faults err.new) read_fault_line }
    ensures faults { TellsFaults result.0 (K.faults out.old) (K.faults out.new) (E.holds err.old) (E.holds err.new) (E.faults err.old) (E.faults err.new) (D.view disk) (D.view result.1) }
{
    match open(alloc, disk, brands) {
        Ok(machine) => run_input(rt, alloc, machine, gate, src, out, err),
        Err((StoreFault::Memory, disk)) => (fail(err, RunFault::Memory), disk),
        Err((StoreFault::DiskFault, disk)) => (fail(err, RunFault::Disk), disk),
        Err((fault, disk)) => (tell_ending(alloc, err, Complaint::NotAStore(fault)), disk),
    }
}

/// Does what the words say where these are `live` alone: opens the store on the disk, reads what sessions declare and type to the end of
/// the input, runs each session's script on a thread of its own, and writes the record on standard output. Answers the exit status and the
/// disk. It may wait.
pub fn run_live<
    R: Threads + Wait + Sync,
    S: Source,
    K: Sink,
    E: Sink,
    D: Disk + Drop + Send,
    F: Fn(&Change) -> HookAnswer + Sync,
    G: Gate + Sync,
>(
    rt: &R,
    alloc: Global,
    words: &[String],
    src: &mut S,
    out: &mut K,
    err: &mut E,
    disk: D,
    brands: &Brands<F>,
    gate: &G,
) -> (u8, D)
    requires { AllFollow F.Fn brands.now }
    ensures statuses { IsStatus result.0 }

    // Over a store and a whole input: the record that was written, and what is on the disk of it.
    ensures lives { (R : List Commit) → IsForm (map string_bytes words.now) → IsStoreOf (D.view disk) R → IfSome (S.left src.old) (λ bytes.
        LivesOn (tables_of brands.now) R (input_of bytes) result.0 (K.holds out.old) (K.holds out.new) (E.holds err.old) (E.holds err.new) (E.faults err.old) (E.faults err.new) (D.view disk) (D.view result.1)) }

    // Whatever the disk and the input are, that is so over the store of some commits and of some input, which is this one where it is
    // known; or no store was opened, and nothing was written: then the status is 6, 7 or 9.
    ensures any_disk { IsForm (map string_bytes words.now) →
        LivesOverSome (tables_of brands.now) (S.left src.old) result.0 (K.holds out.old) (K.holds out.new) (E.holds err.old) (E.holds err.new) (E.faults err.old) (E.faults err.new) (D.view disk) (D.view result.1) }

    // Where nothing is run, nothing is written on standard output, whatever the disk is.
    ensures nothing { RunsNothing result.0 → K.holds out.new ≡ K.holds out.old }

    // Status 2 comes exactly where the words are not this one.
    ensures usage { result.0 ≡ USAGE → IsForm (map string_bytes words.now) → ⊥ }
    ensures form { (IsForm (map string_bytes words.now) → ⊥) → (result.0 ≡ USAGE) × (result.1 ≡ disk) × (src.new ≡ src.old) }
    ensures usage_line { result.0 ≡ USAGE → TakesFront (E.holds err.old) (E.holds err.new) (E.faults err.old) (E.faults err.new) usage_text }

    // The source failed.
    ensures read_fault { result.0 ≡ READ_FAULT → Rose (S.faults src.old) (S.faults src.new) }
    ensures read_line { result.0 ≡ READ_FAULT → TakesFront (E.holds err.old) (E.holds err.new) (E.faults err.old) (E.faults err.new) read_fault_line }

    // A sink failed.
    ensures write_fault { result.0 ≡ WRITE_FAULT → Rose (K.faults out.old) (K.faults out.new) ⊎ Rose (E.faults err.old) (E.faults err.new) }

    // The disk failed.
    ensures disk_fault { result.0 ≡ DISK_FAULT → Rose (D.view disk).faults (D.view result.1).faults }
    ensures disk_line { result.0 ≡ DISK_FAULT → TakesFront (E.holds err.old) (E.holds err.new) (E.faults err.old) (E.faults err.new) disk_fault_line }

    // What is on the disk is no store, which is told. Then nothing is read.
    ensures store { result.0 ≡ NOT_A_STORE → (D.view disk).Keeps → FoundNone (D.view disk) (E.holds err.old) (E.holds err.new) (E.faults err.old) (E.faults err.new) }
    ensures unread { result.0 ≡ NOT_A_STORE → src.new ≡ src.old }

    // Memory ran out.
    ensures memory_line { result.0 ≡ NO_MEMORY → TakesFront (E.holds err.old) (E.holds err.new) (E.faults err.old) (E.faults err.new) memory_line }
{
    if is_live(words) {
        return run_on_store(rt, alloc, src, out, err, disk, brands, gate);
    }
    tell(err, USAGE_LINE);
    (USAGE, disk)
}

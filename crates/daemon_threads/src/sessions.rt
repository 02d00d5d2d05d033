//! Sessions on threads.
ghost use Rattle.std.specs.Prelude.{◌≡◌, ◌≢◌, ◌+◌, ◌<◌, ◌≤◌, ◌⊎◌, ◌^◌, ℕ, [], None, Some, IfOk, IfSome, false, is_some, length, map, true, vec_len};
ghost use Rattle.std.specs.List.{All};
ghost use Rattle.indexmap.specs.IndexMap.{spare};
ghost use Rattle.zn_io.specs.Disk.{IsSound};
ghost use Rattle.zn_io.specs.Streams.{Rose};
ghost use Rattle.session_runs.specs.Far.{Differ, scripts_of};
ghost use Rattle.session_runs.specs.Runs.{IsReached};
ghost use Rattle.zone_cases.specs.State.{State};
ghost use Rattle.zone_machine.specs.Code.Decided.{AsksBrands, MayGoOn};
ghost use Rattle.zone_machine.specs.Code.Openings.{StandsFor};
ghost use Rattle.zone_machine.specs.Code.Partings.{StandApart};
ghost use Rattle.zone_machine.specs.Code.Records.{IsReady, Passes};
ghost use Rattle.zone_machine.specs.Machine.Histories.{after};
ghost use Rattle.brand_hooks.specs.Brands.{tables_of};
ghost use Rattle.brand_hooks.specs.Hooks.{AllFollow};
ghost use Rattle.zone_threads.specs.Ends.{IsScript};
ghost use Rattle.daemon_threads.specs.Begun.{IsBegun, ended_by, moved_script, script_lines};
ghost use Rattle.daemon_threads.specs.Definitions.{no_session, state_of};
ghost use Rattle.daemon_threads.specs.Disks.{DiskOf};
ghost use Rattle.daemon_threads.specs.Gathering.{StandTogether, back_cell, put_all};
ghost use Rattle.daemon_threads.specs.Goods.{IsUsable};
ghost use Rattle.daemon_threads.specs.Running.{IsSet};
ghost use Rattle.daemon_threads.specs.Sessions.{Lives};
ghost use Rattle.daemon_threads.specs.declared.past.Past.{Past};

use crate::begun::Begun;
use crate::cell::PlaceCell;
use crate::dealing::{Dealt, deal, gathered, gathered_back};
use crate::machine::Daemons;
use crate::named::name_all;
use crate::names::Names;
use crate::part::SharedPart;
use brand_hooks::{Brands, Change, HookAnswer};
use indexmap::IndexMap;
use session_runs::Script;
use std::alloc::{AllocError, Global};
use std::marker::{Brand, PhantomData};
use std::sync::Wait;
use std::thread::Threads;
use zn_base::{Text, ZoneName};
use zn_io::Disk;
use zone_cases::{Cell, Entry};
use zone_disk::Bank;
use zone_machine::{Machine, Parted, Shared, StepFault};
use zone_threads::{Gate, History, Lived, run_scripts};

// There are fewer zones in places than this.
const ZONES_MAX: usize = 4_294_967_290;

/// What sessions leave: the entries, which are taken in the order of the one history, the machine, and what ended them, if something did.
#[derive(Drop)]
pub struct Live<'b, D: Disk, F> {
    pub entries: History<Entry>,
    pub machine: Machine<'b, D, F>,
    pub ended: Option<StepFault>,
}

// What sessions leave where memory ran out before they began.
fn unbegun<'b, D: Disk, F>(alloc: Global, machine: Machine<'b, D, F>) -> Live<'b, D, F>
    ensures entries { result.entries ≡ [] }
    ensures machine { result.machine ≡ machine.entry }
    ensures ended { result.ended ≡ Some StepFault.Memory }
    ensures sound { IsSound (D.view machine.entry.bank.disk) }
{
    Live {
        entries: History::empty(alloc),
        machine,
        ended: Some(StepFault::Memory),
    }
}

// A law of disks.
fn disk_is_sound<D: Disk>(_bank: &Bank<D>)
    ensures { IsSound (D.view _bank.now.disk) }
{}

// What ended them: the disk, where it may be used no more, or else memory.
fn ended_by(is_sound: bool, is_ended: bool) -> Option<StepFault>
    ensures { result ≡ ended_by is_sound is_ended }
{
    if !is_sound {
        Some(StepFault::DiskFault)
    } else if is_ended {
        Some(StepFault::Memory)
    } else {
        None
    }
}

// What sessions leave where memory ran out before a thread was started.
fn unlisted<'b, D: Disk, F, N: Names>(
    alloc: Global,
    kept: (SharedPart<D, N>, Vec<PlaceCell>),
    room: IndexMap<ZoneName, Cell>,
    brands: &'b Brands<F>,
) -> Live<'b, D, F>
    requires room { (room.entries ≡ []) × (vec_len kept.1 ≤ spare room) }
    ensures entries { result.entries ≡ [] }
    ensures bank { result.machine.bank ≡ kept.0.bank }
    ensures brands { result.machine.brands ≡ brands.entry }
    ensures stands { (S : State) → StandTogether S (put_all kept.1.items) kept.0.shared kept.0.bank.records → StandsFor S result.machine }
    ensures ended { result.ended ≡ Some StepFault.Memory }
    ensures passes { Passes N.view (D.view kept.0.bank.disk) }
    ensures usable { IsUsable N.view (D.view result.machine.bank.disk) N.brands result.machine.parts.shared result.machine.bank }
{
    let (part, cells) = kept;
    let (shared, bank) = part.into_parts();
    let machine = Machine::whole(Parted {
        cells: gathered(room, cells),
        shared,
        bank,
        brands,
    });
    unbegun(alloc, machine)
}

// What sessions leave that lived.
fn listed<'b, D: Disk + Drop + Send, F, N: Names + Send>(
    lived: Lived<Daemons<'b, D, F, N>>,
    room: IndexMap<ZoneName, Cell>,
    brands: &'b Brands<F>,
) -> Live<'b, D, F>
    requires room { (room.entries ≡ []) × (vec_len lived.cells ≤ spare room) }
    ensures entries { result.entries ≡ lived.entry.entries }
    ensures bank { result.machine.bank ≡ lived.entry.shared.bank }
    ensures brands { result.machine.brands ≡ brands.entry }
    ensures stands { (S : State) → StandTogether S (put_all (map back_cell lived.entry.cells.items)) lived.entry.shared.shared lived.entry.shared.bank.records → StandsFor S result.machine }
    ensures ended { result.ended ≡ ended_by lived.entry.shared.bank.sound (is_some lived.entry.ended) }
    ensures passes { Passes N.view (D.view lived.entry.shared.bank.disk) }
    ensures usable { IsUsable N.view (D.view result.machine.bank.disk) N.brands result.machine.parts.shared result.machine.bank }
    ensures rose { lived.entry.shared.bank.sound ≡ false → Rose N.view.faults (D.view lived.entry.shared.bank.disk).faults }
{
    let Lived {
        entries,
        shared,
        cells,
        ended,
    } = lived;
    let is_sound = shared.is_sound();
    let is_ended = ended.is_some();
    let (shared, bank) = shared.into_parts();
    let machine = Machine::whole(Parted {
        cells: gathered_back(room, cells),
        shared,
        bank,
        brands,
    });
    Live {
        entries,
        machine,
        ended: ended_by(is_sound, is_ended),
    }
}

// Runs the scripts from whichever state these parts stand for.
fn run_picked<
    'b,
    N: Names + Send + Sync,
    R: Threads + Wait + Sync,
    D: Disk + Drop + Send,
    F: Fn(&Change) -> HookAnswer + Sync,
    G: Gate + Sync,
>(
    rt: &R,
    alloc: Global,
    brands: &'b Brands<F>,
    gate: &G,
    dealt: Dealt,
    shared: Shared,
    bank: Bank<D>,
    scripts: &[zone_threads::Script<Text>],
) -> Live<'b, D, F>
    requires set { IsSet F.Fn N.zones N.brands dealt.zones.items brands.now }
    requires disk { (s : Past) → N.starts s → DiskOf N.view s.stored true (D.view bank.disk) (state_of N.brands s).commits }
    requires usable { IsUsable N.view (D.view bank.disk) N.brands shared bank }
    requires sound { bank.sound ≡ true }
    requires begun { (s : Past) → N.starts s → IsBegun N.zones N.brands dealt shared bank s }
    requires places { length dealt.cells.items ≡ length N.zones + 1 }
    requires room { (dealt.room.entries ≡ []) × (length dealt.cells.items ≤ spare dealt.room) }
    requires few { length dealt.cells.items < 4294967295 }
    requires scripts { All (IsScript N.lines) scripts.now }
    requires others { (n : ℕ) → All (λ x. x.session ≢ n) scripts.now → N.lines n ≡ [] }
    requires short { (n : ℕ) → length (N.lines n) < 2 ^ 64 }
    requires none { (N.lines 0 ≡ []) × (N.lines no_session ≡ []) }
    ensures lives { (s : Past) → N.starts s → Lives result.ended (state_of N.brands s) N.lines result.entries N.view (D.view result.machine.bank.disk) }
    ensures stands { (s : Past) → N.starts s → result.machine.bank.sound ≡ true → StandsFor (after (state_of N.brands s) result.entries) result.machine }
    ensures sound { (result.machine.bank.sound ≡ false → result.ended ≡ Some StepFault.DiskFault) × (result.ended ≡ Some StepFault.DiskFault → result.machine.bank.sound ≡ false) }
    ensures brands { result.machine.brands ≡ brands.entry }
    ensures asks { AsksBrands F.Fn result.machine }
    ensures ready { result.machine.bank.sound ≡ true → MayGoOn D.view result.machine }
    ensures only { IfSome result.ended (λ fault. (fault ≡ StepFault.Memory) ⊎ (fault ≡ StepFault.DiskFault)) }
    ensures disk { result.ended ≡ Some StepFault.DiskFault → Rose N.view.faults (D.view result.machine.bank.disk).faults }
    ensures passes { Passes N.view (D.view result.machine.bank.disk) }
{
    let Dealt {
        zones,
        cells,
        shown,
        room,
    } = dealt;
    let part: SharedPart<D, N> = SharedPart::new(shared, shown, bank);
    let daemons: Daemons<'b, D, F, N> = Daemons {
        alloc,
        zones,
        brands,
        of: PhantomData,
    };
    match run_scripts::<Daemons<'b, D, F, N>, Begun<N>, R, G>(
        rt, alloc, &daemons, gate, cells, part, scripts,
    ) {
        Ok(lived) => listed(lived, room, brands),
        Err(kept) => unlisted(alloc, kept, room, brands),
    }
}

// Runs the scripts over a machine that was taken apart.
fn run_apart<
    'b,
    R: Threads + Wait + Sync,
    D: Disk + Drop + Send,
    F: Fn(&Change) -> HookAnswer + Sync,
    G: Gate + Sync,
>(
    rt: &R,
    alloc: Global,
    parted: Parted<'b, D, F>,
    gate: &G,
    scripts: &[zone_threads::Script<Text>],
) -> Live<'b, D, F>
    requires asks { AllFollow F.Fn parted.brands.now × (parted.shared.brands ≡ tables_of parted.brands.now) }
    requires ready { IsReady (D.view parted.bank.disk) parted.bank parted.shared }
    requires scripts { All (IsScript (script_lines scripts.now)) scripts.now }
    ensures lives { (S : State) → IsReached S → StandApart S parted.entry → Lives result.ended S (script_lines scripts.now) result.entries (D.view parted.entry.bank.disk) (D.view result.machine.bank.disk) }
    ensures stands { (S : State) → IsReached S → StandApart S parted.entry → result.machine.bank.sound ≡ true → StandsFor (after S result.entries) result.machine }
    ensures sound { (result.machine.bank.sound ≡ false → result.ended ≡ Some StepFault.DiskFault) × (result.ended ≡ Some StepFault.DiskFault → result.machine.bank.sound ≡ false) }
    ensures brands { result.machine.brands ≡ parted.entry.brands }
    ensures asks { AsksBrands F.Fn result.machine }
    ensures ready { result.machine.bank.sound ≡ true → MayGoOn D.view result.machine }
    ensures only { IfSome result.ended (λ fault. (fault ≡ StepFault.Memory) ⊎ (fault ≡ StepFault.DiskFault)) }
    ensures disk { result.ended ≡ Some StepFault.DiskFault → Rose (D.view parted.entry.bank.disk).faults (D.view result.machine.bank.disk).faults }
    ensures passes { Passes (D.view parted.entry.bank.disk) (D.view result.machine.bank.disk) }
{
    disk_is_sound(&parted.bank);
    if parted.cells.len() >= ZONES_MAX {
        return unbegun(alloc, Machine::whole(parted));
    }
    let Parted {
        cells,
        shared,
        bank,
        brands,
    } = parted;
    match deal(alloc, cells) {
        Ok(dealt) => run_picked::<Brand, R, D, F, G>(
            rt, alloc, brands, gate, dealt, shared, bank, scripts,
        ),
        Err(cells) => unbegun(
            alloc,
            Machine::whole(Parted {
                cells,
                shared,
                bank,
                brands,
            }),
        ),
    }
}

// The scripts as threads take them.
fn moved(alloc: Global, scripts: Vec<Script>) -> Result<Vec<zone_threads::Script<Text>>, AllocError>
    ensures { IfOk result (λ moved. moved.items ≡ map moved_script scripts.items) }
{
    let mut moved = Vec::new(alloc);
    for script in scripts {
        moved.push(zone_threads::Script {
            session: script.session,
            lines: script.lines,
        })?;
    }
    Ok(moved)
}

/// Runs each script on a thread of its own, from whichever state the machine stands for, and hands the machine back: unless the disk
/// failed, it stands for the state after the entries. A zone that a line names has a place of its own from the first event on, where
/// its lines and the turns of its daemon wait for no other zone but for what zones share.
pub fn run_sessions<
    'b,
    R: Threads + Wait + Sync,
    D: Disk + Drop + Send,
    F: Fn(&Change) -> HookAnswer + Sync,
    G: Gate + Sync,
>(
    rt: &R,
    alloc: Global,
    machine: Machine<'b, D, F>,
    gate: &G,
    scripts: Vec<Script>,
) -> Live<'b, D, F>
    requires differ { Differ scripts.items }
    requires sessions { All (λ s. (s.session ≢ 0) × (s.session < 65)) scripts.items }
    requires asks { AsksBrands F.Fn machine }
    requires ready { MayGoOn D.view machine }
    ensures lives { (S : State) → IsReached S → StandsFor S machine.entry → Lives result.ended S (scripts_of scripts.items) result.entries (D.view machine.entry.bank.disk) (D.view result.machine.bank.disk) }
    ensures stands { (S : State) → IsReached S → StandsFor S machine.entry → result.machine.bank.sound ≡ true → StandsFor (after S result.entries) result.machine }
    ensures sound { (result.machine.bank.sound ≡ false → result.ended ≡ Some StepFault.DiskFault) × (result.ended ≡ Some StepFault.DiskFault → result.machine.bank.sound ≡ false) }
    ensures brands { result.machine.brands ≡ machine.entry.brands }
    ensures asks { AsksBrands F.Fn result.machine }
    ensures ready { result.machine.bank.sound ≡ true → MayGoOn D.view result.machine }
    ensures only { IfSome result.ended (λ fault. (fault ≡ StepFault.Memory) ⊎ (fault ≡ StepFault.DiskFault)) }
    ensures disk { result.ended ≡ Some StepFault.DiskFault → Rose (D.view machine.entry.bank.disk).faults (D.view result.machine.bank.disk).faults }
    ensures passes { Passes (D.view machine.entry.bank.disk) (D.view result.machine.bank.disk) }
{
    let mut machine = machine;
    if name_all(alloc, &mut machine, &scripts).is_err() {
        return unbegun(alloc, machine);
    }
    let Ok(scripts) = moved(alloc, scripts) else {
        return unbegun(alloc, machine);
    };
    run_apart(rt, alloc, machine.part(), gate, &scripts)
}

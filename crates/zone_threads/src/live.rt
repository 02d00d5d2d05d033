//! Sessions on threads, and the one history that they leave.
ghost use Rattle.std.specs.Prelude.{◌≡◌, ◌≢◌, ◌<◌, ◌≤◌, ◌^◌, ℕ, List, [], None, Some, true, length, map, vec_len, vec_capacity, IfErr, IfOk};
ghost use Rattle.std.specs.List.{All};
ghost use Rattle.zone_turn.specs.Passes.{first_view};
ghost use Rattle.zone_turn.specs.declared.limits.TheConstants.{PASSES_OUT_MAX};
ghost use Rattle.zone_threads.specs.Ends.{AreAll, AreFree, Ended, Finished, HasAll, IsBack, IsOpening, IsScript, Over, back, tail};
ghost use Rattle.zone_threads.specs.Folds.{folded};
ghost use Rattle.zone_threads.specs.Scripts.{TallyOf, beginning};
ghost use Rattle.zone_threads.specs.Words.{IsPartial, IsRecord};
ghost use Rattle.zone_threads.specs.declared.live.Ending.TheVariants.{Fault};

use crate::end::worked;
use crate::gate::Gate;
use crate::history::{History, Tail};
use crate::machine::{Machine, Zoned};
use crate::part::{Outset, Part, Place, Start};
use crate::run::Script;
use crate::step::progress_of;
use crate::tally::{Progress, SESSIONS};
use crate::zone::{Back, Log};
use std::alloc::{AllocError, Global};
use std::marker::{Brand, PhantomData};
use std::sync::Wait;
use std::thread::Threads;
use zone_turn::{Pass, Turn};

/// Why lines were not run.
#[derive(Drop)]
pub enum Ending<F: Drop> {
    /// An event ended so.
    Fault(F),
    /// Memory was refused, or a line belongs to the zone of a place that no cell has.
    Memory,
}

/// What sessions leave: the entries in the order of the one history, what zones share, the cells, and why lines were not run, if
/// some were not.
#[derive(Drop)]
pub struct Lived<M: Zoned> {
    pub entries: History<M::Entry>,
    pub shared: M::Shared,
    pub cells: Vec<Back<M::Cell>>,
    pub ended: Option<Ending<M::Fault>>,
}

// Whether a script's lines were all run, and each of its tickets was answered.
fn is_done<L>(tally: &[Progress], script: &Script<L>) -> bool
    ensures { result ≡ true → Finished tally.now script.now.session (length script.now.lines.items) }
{
    match progress_of(tally, script.session) {
        Ok(done) => done == script.lines.len() as u64,
        Err(_) => false,
    }
}

fn all_done<L>(tally: &[Progress], scripts: &[Script<L>]) -> bool
    ensures { result ≡ true → All (λ x. Finished tally.now x.session (length x.lines.items)) scripts.now }
{
    for i in 0..scripts.len() {
        if !is_done(tally, &scripts[i]) {
            return false;
        }
    }
    true
}

fn ending_of<F: Drop>(fault: Option<F>, is_finished: bool) -> Option<Ending<F>>
    ensures none { result ≡ None → is_finished ≡ true }
    ensures fault { (f : F) → result ≡ Some (Fault f) → fault ≡ Some f }
{
    match fault {
        Some(fault) => Some(Ending::Fault(fault)),
        None if is_finished => None,
        None => Some(Ending::Memory),
    }
}

fn fresh_tally(alloc: Global) -> Result<Vec<Progress>, AllocError>
    ensures wide { IfOk result (λ v. length v.items ≡ 65) }
    ensures fresh { IfOk result (λ v. TallyOf v.items beginning) }
{
    let mut tally = Vec::with_capacity(alloc, SESSIONS)?;
    for _ in 0..SESSIONS {
        tally.push(Progress::fresh())?;
    }
    Ok(tally)
}

// The cells of the logs, and their entries.
fn put_apart<C: Drop, E: Drop>(
    logs: Vec<Log<C, E>>,
    cells: &mut Vec<Back<C>>,
    tails: &mut Vec<Tail<E>>,
)
    requires cells { (cells.old.items ≡ []) × (vec_len logs ≤ vec_capacity cells.old) }
    requires tails { (tails.old.items ≡ []) × (vec_len logs ≤ vec_capacity tails.old) }
    ensures cells { cells.new.items ≡ map back logs.items }
    ensures tails { tails.new.items ≡ map tail logs.items }
{
    for log in logs {
        let Log {
            place,
            entries,
            given: _,
            cell,
            marked,
        } = log;
        cells.push_reserved(Back {
            place,
            cell,
            marked,
        });
        tails.push_reserved(Tail { place, entries });
    }
}

// What the logs leave. It takes no memory.
fn what_is_left<M: Machine, J: Start<M>, N: Outset<M::Shared>>(
    part: Part<M, J, N>,
    logs: Vec<Log<M::Cell, M::Entry>>,
    mut cells: Vec<Back<M::Cell>>,
    mut tails: Vec<Tail<M::Entry>>,
    scripts: &[Script<M::Line>],
) -> Lived<M>
    requires ended { Ended M.machine J.starts J.scripts N.zones part.shared part.tally.items part.order.items logs.items }
    requires cells { (cells.items ≡ []) × (vec_len logs ≤ vec_capacity cells) }
    requires tails { (tails.items ≡ []) × (vec_len logs ≤ vec_capacity tails) }
    ensures over { Over M.machine J.starts J.scripts N.zones result.shared result.entries result.cells.items }
    ensures finished { (start : M.State) → J.starts start → result.ended ≡ None → All (λ x. HasAll M.machine result.entries x.session (length x.lines.items)) scripts.now }
{
    let is_finished = all_done(&part.tally, scripts);
    put_apart(logs, &mut cells, &mut tails);
    Lived {
        entries: History::of_logs(part.order, tails),
        shared: part.shared,
        cells,
        ended: ending_of(part.ended, is_finished),
    }
}

// Runs the scripts in a turn that is made.
fn placed<
    M: Machine + Send + Sync,
    J: Start<M> + Send + Sync,
    N: Outset<M::Shared> + Send + Sync,
    K: Place + Send + Sync,
    R: Threads + Wait + Sync,
    G: Gate + Sync,
>(
    rt: &R,
    alloc: Global,
    machine: &M,
    gate: &G,
    turn: Turn<Part<M, J, N>>,
    first: Pass<Part<M, J, N>>,
    cells: Vec<M::Cell>,
    scripts: &[Script<M::Line>],
    mut logs: Vec<Log<M::Cell, M::Entry>>,
    backs: Vec<Back<M::Cell>>,
    tails: Vec<Tail<M::Entry>>,
) -> Result<Lived<M>, (M::Shared, Vec<M::Cell>)>
    requires ready { M.ready machine.now }
    requires turn { (turn ≡ K.turn) × (first.turn ≡ K.turn) × (first.knows ≡ first_view) }
    requires cells { IsOpening M.machine J.starts cells.items }
    requires scripts { All (IsScript J.scripts) scripts.now }
    requires zones { length cells.items ≡ N.zones }
    requires few { length cells.items < PASSES_OUT_MAX }
    requires room { (logs.items ≡ []) × (length cells.items ≤ vec_capacity logs) × (backs.items ≡ []) × (length cells.items ≤ vec_capacity backs) }
    requires tails { (tails.items ≡ []) × (length cells.items ≤ vec_capacity tails) }
    ensures over { IfOk result (λ r. Over M.machine J.starts J.scripts N.zones r.shared r.entries r.cells.items) }
    ensures finished { IfOk result (λ r. (start : M.State) → J.starts start → r.ended ≡ None → All (λ x. HasAll M.machine r.entries x.session (length x.lines.items)) scripts.now) }
    ensures memory { IfErr result (λ m. N.shared m.0 × (m.1.items ≡ cells.items)) }
{
    let Ok(zones) = Vec::with_capacity(alloc, cells.len()) else {
        return Err((turn.close(first).shared, cells));
    };
    let part = worked::<M, J, N, K, R, G>(
        rt, alloc, machine, gate, turn, first, cells, scripts, zones, &mut logs,
    );
    Ok(what_is_left(part, logs, backs, tails, scripts))
}

// Makes the turn. The lists that are wanted at the end are taken before, and so is the room for a run more of each zone.
fn started<
    M: Machine + Send + Sync,
    J: Start<M> + Send + Sync,
    N: Outset<M::Shared> + Send + Sync,
    R: Threads + Wait + Sync,
    G: Gate + Sync,
>(
    rt: &R,
    alloc: Global,
    machine: &M,
    gate: &G,
    cells: Vec<M::Cell>,
    shared: M::Shared,
    scripts: &[Script<M::Line>],
) -> Result<Lived<M>, (M::Shared, Vec<M::Cell>)>
    requires ready { M.ready machine.now }
    requires cells { IsOpening M.machine J.starts cells.items }
    requires shared { (start : M.State) → J.starts start → M.machine.shared_of shared (M.machine.common start) }
    requires scripts { All (IsScript J.scripts) scripts.now }
    requires few { length cells.items < PASSES_OUT_MAX }
    requires outset { (length cells.items ≡ N.zones) × ((m : M.Shared) → m ≡ shared → N.shared m) }
    ensures over { IfOk result (λ r. Over M.machine J.starts J.scripts N.zones r.shared r.entries r.cells.items) }
    ensures finished { IfOk result (λ r. (start : M.State) → J.starts start → r.ended ≡ None → All (λ x. HasAll M.machine r.entries x.session (length x.lines.items)) scripts.now) }
    ensures memory { IfErr result (λ m. N.shared m.0 × (m.1.items ≡ cells.items)) }
{
    let zones = cells.len();
    let Ok(tally) = fresh_tally(alloc) else {
        return Err((shared, cells));
    };
    let Ok(logs) = Vec::with_capacity(alloc, zones) else {
        return Err((shared, cells));
    };
    let Ok(backs) = Vec::with_capacity(alloc, zones) else {
        return Err((shared, cells));
    };
    let Ok(order) = Vec::with_capacity(alloc, zones) else {
        return Err((shared, cells));
    };
    let Ok(tails) = Vec::with_capacity(alloc, zones) else {
        return Err((shared, cells));
    };
    let part: Part<M, J, N> = Part {
        shared,
        tally,
        order,
        ended: None,
        zones,
        of: PhantomData,
    };
    match Turn::new(alloc, part) {
        Ok((turn, first)) => placed::<M, J, N, Brand, R, G>(
            rt, alloc, machine, gate, turn, first, cells, scripts, logs, backs, tails,
        ),
        Err((_, part)) => Err((part.shared, cells)),
    }
}

/// Runs each script on a thread of its own, over cells that have the places 1, 2 and so on. After a line that is answered by a ticket
/// its session takes turns of that zone's daemon until the ticket is answered or a turn is stuck. What the scripts did is one history.
/// Where memory is refused before a thread is started, what zones share and the cells come back as they came. What is done after the
/// last line takes no memory: the room for it is taken ahead.
pub fn run_scripts<
    M: Machine + Send + Sync,
    J: Start<M> + Send + Sync,
    R: Threads + Wait + Sync,
    G: Gate + Sync,
>(
    rt: &R,
    alloc: Global,
    machine: &M,
    gate: &G,
    cells: Vec<M::Cell>,
    shared: M::Shared,
    scripts: &[Script<M::Line>],
) -> Result<Lived<M>, (M::Shared, Vec<M::Cell>)>
    requires ready { M.ready machine.now }
    requires cells { IsOpening M.machine J.starts cells.items }
    requires shared { (start : M.State) → J.starts start → M.machine.shared_of shared (M.machine.common start) }
    requires scripts { All (IsScript J.scripts) scripts.now }
    requires others { (s : ℕ) → All (λ x. x.session ≢ s) scripts.now → J.scripts s ≡ [] }
    requires few { (length cells.items < PASSES_OUT_MAX) × ((s : ℕ) → length (J.scripts s) < 2 ^ 64) }
    ensures partial { IfOk result (λ r. (start : M.State) → J.starts start → IsPartial M.machine start J.scripts r.entries) }
    ensures record { IfOk result (λ r. (start : M.State) → J.starts start → r.ended ≡ None → IsRecord M.machine start J.scripts r.entries) }
    ensures shared { IfOk result (λ r. (start : M.State) → J.starts start → M.machine.shared_of r.shared (M.machine.common (folded M.machine.one start r.entries))) }
    ensures cells { IfOk result (λ r. (start : M.State) → J.starts start → All (IsBack M.machine start r.entries) r.cells.items) }
    ensures there { IfOk result (λ r. AreAll (length cells.items) r.cells.items) }
    ensures sound { IfOk result (λ r. M.machine.is_sound r.shared ≡ true → AreFree r.cells.items) }
    ensures memory { IfErr result (λ m. (m.0 ≡ shared) × (m.1.items ≡ cells.items)) }
{
    started::<M, J, Brand, R, G>(rt, alloc, machine, gate, cells, shared, scripts)
}

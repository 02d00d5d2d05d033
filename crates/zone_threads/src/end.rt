//! From cells to logs: each cell lies in a zone while the workers run, and at the end all passes are taken back.
ghost use Rattle.std.specs.Prelude.{◌≡◌, ◌+◌, ◌<◌, ◌≤◌, ◌*◌, ◌++◌, ◌∷◌, ℕ, [], true, length, take, vec_len, vec_capacity};
ghost use Rattle.std.specs.List.{All};
ghost use Rattle.zone_turn.specs.Passes.{first_view, is_first, is_idle};
ghost use Rattle.zone_turn.specs.declared.limits.TheConstants.{PASSES_OUT_MAX};
ghost use Rattle.zone_turn.specs.declared.views.Role.TheVariants.{First};
ghost use Rattle.zone_threads.specs.Ends.{Closed, Ended, Gathered, IsLeft, IsOpening, IsScript, roster};
ghost use Rattle.zone_threads.specs.Notes.{dones, has_mark};

use crate::gate::Gate;
use crate::machine::Machine;
use crate::part::{Outset, Part, Place, Start};
use crate::run::{Script, work};
use crate::step::note_log;
use crate::zone::{Log, Zone};
use std::alloc::Global;
use std::sync::atomic::AtomicBool;
use std::sync::{Mutex, Wait};
use std::thread::{Threads, map_indices};
use zone_turn::{Pass, Turn};

// Makes a zone for each cell.
fn deal<M: Machine, J: Start<M>, N: Outset<M::Shared>, K: Place>(
    alloc: Global,
    turn: &Turn<Part<M, J, N>>,
    first: &mut Pass<Part<M, J, N>>,
    cells: Vec<M::Cell>,
    zones: &mut Vec<Mutex<Zone<M, J, N, K>>>,
)
    requires turn { (turn.now ≡ K.turn) × (first.old.turn ≡ K.turn) × (first.old.knows ≡ first_view) }
    requires cells { IsOpening M.machine J.starts cells.items }
    requires zones { length cells.items ≤ N.zones }
    requires room { (length cells.items < PASSES_OUT_MAX) × (vec_len zones.old ≡ 0) × (length cells.items ≤ vec_capacity zones.old) }
    ensures turn { (first.new.turn ≡ K.turn) × (is_idle first.new.knows ≡ true) × (first.new.knows.list ≡ []) }
    ensures first { first.new.knows.role ≡ First (roster (length cells.items + 1) (vec_len zones.new) []) }
    ensures zones { vec_len zones.new ≡ length cells.items }
{
    let mut place: u32 = 0;
    for cell in cells {
        place += 1;
        let pass = turn.split(first);
        zones.push_reserved(Mutex::new(Zone::new(alloc, pass, place, cell)));
    }
}

// Takes a zone's pass back, and keeps its log.
fn keep<M: Machine, J: Start<M>, N: Outset<M::Shared>>(
    turn: &Turn<Part<M, J, N>>,
    first: &mut Pass<Part<M, J, N>>,
    pass: Pass<Part<M, J, N>>,
    log: Log<M::Cell, M::Entry>,
    logs: &mut Vec<Log<M::Cell, M::Entry>>,
)
    requires turn { (first.old.turn ≡ turn.now) × (pass.turn ≡ turn.now) }
    requires idle { (is_idle first.old.knows ≡ true) × (is_idle pass.knows ≡ true) }
    requires first { is_first first.old.knows ≡ true }
    requires list { (pass.knows.number ≡ log.place) × (dones pass.knows.list ≡ take log.given log.entries.items) × (log.marked ≡ true → has_mark pass.knows.list ≡ true) }
    requires room { vec_len logs.old < vec_capacity logs.old }
    ensures turn { first.new.turn ≡ first.old.turn }
    ensures idle { is_idle first.new.knows ≡ true }
    ensures first { is_first first.new.knows ≡ true }
    ensures list { first.new.knows.list ≡ first.old.knows.list }
    ensures logs { logs.new.items ≡ logs.old.items ++ log ∷ [] }
    ensures capacity { vec_capacity logs.new ≡ vec_capacity logs.old }
    ensures roster { (made out : ℕ) → Gathered first.old.knows.role made (out + 1) logs.old.items → Gathered first.new.knows.role made out logs.new.items }
{
    turn.join(first, pass);
    logs.push_reserved(log);
}

// Ends a zone.
fn end_zone<M: Machine, J: Start<M>, N: Outset<M::Shared>, K: Place>(
    turn: &Turn<Part<M, J, N>>,
    first: &mut Pass<Part<M, J, N>>,
    zone: Mutex<Zone<M, J, N, K>>,
    logs: &mut Vec<Log<M::Cell, M::Entry>>,
)
    requires turn { (turn.now ≡ K.turn) × (first.old.turn ≡ K.turn) }
    requires idle { is_idle first.old.knows ≡ true }
    requires first { is_first first.old.knows ≡ true }
    requires room { vec_len logs.old < vec_capacity logs.old }
    ensures turn { first.new.turn ≡ K.turn }
    ensures idle { is_idle first.new.knows ≡ true }
    ensures first { is_first first.new.knows ≡ true }
    ensures list { first.new.knows.list ≡ first.old.knows.list }
    ensures logs { vec_len logs.new ≡ vec_len logs.old + 1 }
    ensures capacity { vec_capacity logs.new ≡ vec_capacity logs.old }
    ensures roster { (made out : ℕ) → Gathered first.old.knows.role made (out + 1) logs.old.items → Gathered first.new.knows.role made out logs.new.items }
    ensures cells { All (IsLeft M.machine J.starts) logs.old.items → All (IsLeft M.machine J.starts) logs.new.items }
    ensures near { All (λ l. l.place ≤ N.zones) logs.old.items → All (λ l. l.place ≤ N.zones) logs.new.items }
{
    let (pass, log) = zone.into_inner().end();
    keep(turn, first, pass, log, logs);
}

// Ends all zones, and takes all passes back.
fn gather<M: Machine, J: Start<M>, N: Outset<M::Shared>, K: Place>(
    turn: &Turn<Part<M, J, N>>,
    first: &mut Pass<Part<M, J, N>>,
    mut zones: Vec<Mutex<Zone<M, J, N, K>>>,
    logs: &mut Vec<Log<M::Cell, M::Entry>>,
)
    requires turn { (turn.now ≡ K.turn) × (first.old.turn ≡ K.turn) }
    requires idle { is_idle first.old.knows ≡ true }
    requires first { is_first first.old.knows ≡ true }
    requires room { (logs.old.items ≡ []) × (vec_len zones ≤ vec_capacity logs.old) }
    ensures turn { first.new.turn ≡ K.turn }
    ensures idle { is_idle first.new.knows ≡ true }
    ensures first { is_first first.new.knows ≡ true }
    ensures list { first.new.knows.list ≡ first.old.knows.list }
    ensures count { vec_len logs.new ≡ vec_len zones }
    ensures roster { (made : ℕ) → first.old.knows.role ≡ First (roster made (vec_len zones) []) → Gathered first.new.knows.role made 0 logs.new.items }
    ensures cells { All (IsLeft M.machine J.starts) logs.new.items }
    ensures near { All (λ l. l.place ≤ N.zones) logs.new.items }
{
    while let Some(zone) = zones.pop() {
        end_zone(turn, first, zone, logs);
    }
    zones.destroy_empty();
}

// Ends all zones, and closes the turn.
fn finish<M: Machine, J: Start<M>, N: Outset<M::Shared>, K: Place>(
    turn: Turn<Part<M, J, N>>,
    mut first: Pass<Part<M, J, N>>,
    zones: Vec<Mutex<Zone<M, J, N, K>>>,
    logs: &mut Vec<Log<M::Cell, M::Entry>>,
) -> Part<M, J, N>
    requires turn { (turn ≡ K.turn) × (first.turn ≡ K.turn) }
    requires idle { (is_idle first.knows ≡ true) × (first.knows.list ≡ []) }
    requires first { first.knows.role ≡ First (roster (vec_len zones + 1) (vec_len zones) []) }
    requires zones { vec_len zones ≡ N.zones }
    requires room { (logs.old.items ≡ []) × (vec_len zones ≤ vec_capacity logs.old) }
    ensures closed { Closed M.machine J.starts J.scripts N.zones result.shared result.tally.items result.order.items logs.new.items }
    ensures room { length result.order.items + N.zones ≤ vec_capacity result.order }
{
    gather(&turn, &mut first, zones, logs);
    turn.close(first)
}

// Notes what all zones left that they didn't give.
fn note_logs<M: Machine, J: Start<M>, N: Outset<M::Shared>>(
    machine: &M,
    part: &mut Part<M, J, N>,
    logs: &[Log<M::Cell, M::Entry>],
)
    requires closed { Closed M.machine J.starts J.scripts N.zones part.old.shared part.old.tally.items part.old.order.items logs.now }
    requires room { length part.old.order.items + N.zones ≤ vec_capacity part.old.order }
    ensures { Ended M.machine J.starts J.scripts N.zones part.new.shared part.new.tally.items part.new.order.items logs.now }
{
    for log in logs {
        note_log(machine, part, log);
    }
}

// The worker of a script of these.
fn work_at<M: Machine, J: Start<M>, N: Outset<M::Shared>, K: Place, W: Wait, G: Gate>(
    rt: &W,
    machine: &M,
    gate: &G,
    turn: &Turn<Part<M, J, N>>,
    is_over: &AtomicBool,
    zones: &[Mutex<Zone<M, J, N, K>>],
    scripts: &[Script<M::Line>],
    at: usize,
)
    requires ready { M.ready machine.now }
    requires turn { turn.now ≡ K.turn }
    requires near { at < length scripts.now }
    requires scripts { All (IsScript J.scripts) scripts.now }
{
    work(rt, machine, gate, turn, is_over, zones, &scripts[at]);
}

// Runs each script by a worker of its own, and then, by the caller, what is left of them. Where no thread can be started the caller
// runs them all.
fn work_all<
    M: Machine + Send + Sync,
    J: Start<M> + Send + Sync,
    N: Outset<M::Shared> + Send + Sync,
    K: Place + Send + Sync,
    R: Threads + Wait + Sync,
    G: Gate + Sync,
>(
    rt: &R,
    alloc: Global,
    machine: &M,
    gate: &G,
    turn: &Turn<Part<M, J, N>>,
    is_over: &AtomicBool,
    zones: &[Mutex<Zone<M, J, N, K>>],
    scripts: &[Script<M::Line>],
)
    requires ready { M.ready machine.now }
    requires turn { turn.now ≡ K.turn }
    requires scripts { All (IsScript J.scripts) scripts.now }
{
    let done = map_indices(
        rt,
        alloc,
        scripts.len(),
        &|i: usize|
            requires ready { M.ready machine.now }
            requires turn { turn.now ≡ K.turn }
            requires near { i < length scripts.now }
            requires scripts { All (IsScript J.scripts) scripts.now }
        { work_at(rt, machine, gate, turn, is_over, zones, scripts, i) },
    );
    let _ = done;
    for i in 0..scripts.len() {
        work_at(rt, machine, gate, turn, is_over, zones, scripts, i);
    }
}

/// Runs the scripts over these cells, and answers the part and the logs.
pub(crate) fn worked<
    M: Machine + Send + Sync,
    J: Start<M> + Send + Sync,
    N: Outset<M::Shared> + Send + Sync,
    K: Place + Send + Sync,
    R: Threads + Wait + Sync,
    G: Gate + Sync,
>(
    rt: &R,
    alloc: Global,
    machine: &M,
    gate: &G,
    turn: Turn<Part<M, J, N>>,
    mut first: Pass<Part<M, J, N>>,
    cells: Vec<M::Cell>,
    scripts: &[Script<M::Line>],
    mut zones: Vec<Mutex<Zone<M, J, N, K>>>,
    logs: &mut Vec<Log<M::Cell, M::Entry>>,
) -> Part<M, J, N>
    requires ready { M.ready machine.now }
    requires turn { (turn ≡ K.turn) × (first.turn ≡ K.turn) × (first.knows ≡ first_view) }
    requires cells { IsOpening M.machine J.starts cells.items }
    requires scripts { All (IsScript J.scripts) scripts.now }
    requires zones { length cells.items ≡ N.zones }
    requires room { (length cells.items < PASSES_OUT_MAX) × (vec_len zones ≡ 0) × (length cells.items ≤ vec_capacity zones) × (logs.old.items ≡ []) × (length cells.items ≤ vec_capacity logs.old) }
    ensures { Ended M.machine J.starts J.scripts N.zones result.shared result.tally.items result.order.items logs.new.items }
{
    deal(alloc, &turn, &mut first, cells, &mut zones);
    let is_over = AtomicBool::new(false);
    work_all(
        rt,
        alloc,
        machine,
        gate,
        &turn,
        &is_over,
        zones.as_slice(),
        scripts,
    );
    let mut part = finish(turn, first, zones, logs);
    note_logs(machine, &mut part, logs);
    part
}

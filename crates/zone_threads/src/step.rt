//! One event of a zone, on its cell and the part.
ghost use Rattle.std.specs.Prelude.{◌≡◌, ◌≢◌, ◌+◌, ◌-◌, ◌*◌, ◌<◌, ◌≤◌, ◌++◌, ℕ, List, Some, true, false, ◌∷◌, [], None, length, take, drop, slice_get, slice_index_or, vec_len, vec_capacity, IfOk, OnErr};
ghost use Rattle.std.specs.List.{All};
ghost use Rattle.zone_turn.specs.Histories.{own};
ghost use Rattle.zone_threads.specs.Machines.{Unfinished};
ghost use Rattle.zone_threads.specs.Records.{Stands};
ghost use Rattle.zone_threads.specs.Scripts.{IsSilent, fresh};
ghost use Rattle.zone_threads.specs.Zones.{Does, IsAsk, IsJob, Logged, left_by, where_at};

use crate::machine::{Machine, Stop, Told};
use crate::part::{Outset, Part, Start};
use crate::tally::{Progress, are_silent, note, note_rest, note_some};
use crate::zone::Log;

/// What is asked of a zone, for a session.
#[derive(Clone, Copy, Debug, PartialEq, Eq)]
pub enum Ask {
    /// A turn of its daemon.
    Turn,
    /// That its local entries are given.
    Give,
    /// How far the session is.
    Look,
    /// The session's line of this number.
    Line(u64),
}

/// What is to be done in a zone.
#[derive(Drop)]
pub enum Job<H> {
    /// A turn of its daemon, whose hooks answered so.
    Turn(H),
    Give,
    Look,
    Line(u64),
}

/// Why no event was done.
#[derive(Clone, Copy, Debug, PartialEq, Eq)]
pub enum Outcome {
    /// Nothing is done any more.
    Ended,
    Given,
    /// The session is at this line.
    At(u64),
    /// The session waits for a turn of the zone of this place.
    Waits(u32),
    /// The line belongs to the zone of this place.
    Elsewhere(u32),
    /// The zone's daemon has nothing to do.
    Idle,
}

/// What is asked, with what the zone's hooks answer before a turn.
pub(crate) fn job_of<M: Machine>(machine: &M, cell: &M::Cell, ask: Ask) -> Job<M::Heard>
    requires ready { M.ready machine.now }
    ensures { (scripts : ℕ → List M.Line) (s : ℕ) (lines : List M.Line) → IsAsk scripts s lines ask → IsJob M.machine scripts s lines cell.now result }
{
    match ask {
        Ask::Turn => Job::Turn(machine.hear(cell)),
        Ask::Give => Job::Give,
        Ask::Look => Job::Look,
        Ask::Line(number) => Job::Line(number),
    }
}

// Why an event was not done. A fault ends all.
fn stopped<M: Machine, J: Start<M>, N: Outset<M::Shared>>(
    part: &mut Part<M, J, N>,
    stop: Stop<M::Fault>,
) -> Outcome
    ensures { part.new ≡ record part.old { ended = part.new.ended } }
{
    match stop {
        Stop::Elsewhere(place) => Outcome::Elsewhere(place),
        Stop::Fault(fault) => {
            part.ended = Some(fault);
            Outcome::Ended
        }
    }
}

// A turn of the zone's daemon, where it has something to do.
fn try_turn<M: Machine, J: Start<M>, N: Outset<M::Shared>>(
    machine: &M,
    cell: &mut M::Cell,
    part: &mut Part<M, J, N>,
    place: u32,
    heard: M::Heard,
) -> Result<M::Entry, Outcome>
    requires ready { M.ready machine.now }
    requires sound { M.machine.is_sound part.old.shared ≡ true }
    requires few { length part.old.tally.items ≤ 65 }
    requires heard { M.machine.heard cell.old heard }
    ensures mine { IfOk result (λ e. M.machine.by e ≡ place) }
    ensures did { IfOk result (Does M.machine J.scripts place cell.old part.old.shared part.old.tally.items cell.new part.new.shared part.new.tally.items) }
    ensures tally { OnErr result (part.new.tally ≡ part.old.tally) }
    ensures same { OnErr result (Unfinished M.machine place cell.old part.old.shared cell.new part.new.shared) }
    ensures order { part.new.order ≡ part.old.order }
    ensures zones { part.new.zones ≡ part.old.zones }
    ensures wide { length part.new.tally.items ≡ length part.old.tally.items }
{
    if !machine.is_busy(cell, &part.shared) {
        return Err(Outcome::Idle);
    }
    match machine.turn(cell, &mut part.shared, place, heard) {
        Ok(entry) => {
            note(&mut part.tally, place, machine.told(&entry));
            Ok(entry)
        }
        Err(fault) => Err(stopped(part, Stop::Fault(fault))),
    }
}

/// Where a session is: at a line, or it waits.
pub(crate) fn progress_of(tally: &[Progress], session: u8) -> Result<u64, Outcome>
    ensures at { IfOk result (λ done. (session < length tally.now) × (slice_index_or tally.now session fresh ≡ record { done = done; awaits = None })) }
    ensures exact { result ≡ where_at (slice_get tally.now session) }
{
    match tally.get(session as usize) {
        Some(progress) => match progress.awaits {
            Some(ticket) => Err(Outcome::Waits(ticket.place)),
            None => Ok(progress.done),
        },
        None => Err(Outcome::Ended),
    }
}

// A session's line of a number, where the session is there.
fn try_line<M: Machine, J: Start<M>, N: Outset<M::Shared>>(
    machine: &M,
    cell: &mut M::Cell,
    part: &mut Part<M, J, N>,
    place: u32,
    session: u8,
    lines: &[M::Line],
    number: u64,
) -> Result<M::Entry, Outcome>
    requires ready { M.ready machine.now }
    requires sound { M.machine.is_sound part.old.shared ≡ true }
    requires few { length part.old.tally.items ≤ 65 }
    requires script { (session ≢ 0) × (lines.now ≡ J.scripts session) }
    ensures mine { IfOk result (λ e. M.machine.by e ≡ place) }
    ensures did { IfOk result (Does M.machine J.scripts place cell.old part.old.shared part.old.tally.items cell.new part.new.shared part.new.tally.items) }
    ensures tally { OnErr result (part.new.tally ≡ part.old.tally) }
    ensures same { OnErr result (Unfinished M.machine place cell.old part.old.shared cell.new part.new.shared) }
    ensures order { part.new.order ≡ part.old.order }
    ensures zones { part.new.zones ≡ part.old.zones }
    ensures wide { length part.new.tally.items ≡ length part.old.tally.items }
{
    let done = progress_of(&part.tally, session)?;
    if done != number || number >= lines.len() as u64 {
        return Err(Outcome::At(done));
    }
    match machine.line(
        cell,
        &mut part.shared,
        place,
        session,
        &lines[number as usize],
    ) {
        Ok(entry) => {
            note(&mut part.tally, place, machine.told(&entry));
            Ok(entry)
        }
        Err(stop) => Err(stopped(part, stop)),
    }
}

fn attempt<M: Machine, J: Start<M>, N: Outset<M::Shared>>(
    machine: &M,
    cell: &mut M::Cell,
    part: &mut Part<M, J, N>,
    place: u32,
    session: u8,
    lines: &[M::Line],
    job: Job<M::Heard>,
) -> Result<M::Entry, Outcome>
    requires ready { M.ready machine.now }
    requires sound { M.machine.is_sound part.old.shared ≡ true }
    requires few { length part.old.tally.items ≤ 65 }
    requires job { IsJob M.machine J.scripts session lines.now cell.old job }
    ensures mine { IfOk result (λ e. M.machine.by e ≡ place) }
    ensures did { IfOk result (Does M.machine J.scripts place cell.old part.old.shared part.old.tally.items cell.new part.new.shared part.new.tally.items) }
    ensures tally { OnErr result (part.new.tally ≡ part.old.tally) }
    ensures same { OnErr result (Unfinished M.machine place cell.old part.old.shared cell.new part.new.shared) }
    ensures order { part.new.order ≡ part.old.order }
    ensures zones { part.new.zones ≡ part.old.zones }
    ensures wide { length part.new.tally.items ≡ length part.old.tally.items }
{
    match job {
        Job::Give => Err(Outcome::Given),
        Job::Look => match progress_of(&part.tally, session) {
            Ok(done) => Err(Outcome::At(done)),
            Err(outcome) => Err(outcome),
        },
        Job::Turn(heard) => try_turn(machine, cell, part, place, heard),
        Job::Line(number) => try_line(machine, cell, part, place, session, lines, number),
    }
}

// Puts on the order of entries that so many more are of the zone of a place.
fn put_run<M: Machine, J: Start<M>, N: Outset<M::Shared>>(
    part: &mut Part<M, J, N>,
    place: u32,
    many: usize,
)
    requires room { length part.old.order.items < vec_capacity part.old.order }
    ensures order { part.new.order.items ≡ part.old.order.items ++ (place, many) ∷ [] }
    ensures capacity { vec_capacity part.new.order ≡ vec_capacity part.old.order }
    ensures same { part.new ≡ record part.old { order = part.new.order } }
{
    part.order.push_reserved((place, many as u64));
}

/// Whether none of what a zone did and didn't give changes how far a session is.
pub(crate) fn is_rest_silent<M: Machine>(machine: &M, log: &Vec<M::Entry>, given: usize) -> bool
    requires { given ≤ vec_len log.now }
    ensures { result ≡ true → IsSilent M.machine (drop given log.now.items) }
{
    are_silent(machine, &log[given..])
}

/// Notes the local entries, which may be known to be silent, tries the job, and puts an entry that comes on the log.
pub(crate) fn act<M: Machine, J: Start<M>, N: Outset<M::Shared>>(
    machine: &M,
    place: u32,
    cell: &mut M::Cell,
    log: &mut Vec<M::Entry>,
    given: usize,
    marked: &mut bool,
    part: &mut Part<M, J, N>,
    session: u8,
    lines: &[M::Line],
    job: Job<M::Heard>,
    silent: bool,
) -> Result<Told, Outcome>
    requires ready { M.ready machine.now }
    requires few { length part.old.tally.items ≤ 65 }
    requires job { IsJob M.machine J.scripts session lines.now cell.old job }
    requires silent { silent ≡ true → IsSilent M.machine (drop given log.old.items) }
    requires given { given ≤ vec_len log.old }
    requires room { (vec_len log.old < vec_capacity log.old) × (length part.old.order.items + 1 + N.zones ≤ vec_capacity part.old.order) }
    ensures grown { (new : List M.Entry) × (log.new.items ≡ log.old.items ++ new) }
    ensures mine { All (λ e. M.machine.by e ≡ place) (drop given log.old.items) → All (λ e. M.machine.by e ≡ place) (drop given log.new.items) }
    ensures stands { (start : M.State) (h : List M.Entry) → Stands M.machine start J.scripts part.old.shared part.old.tally.items part.old.order.items h → own M.machine.by place h ≡ take given log.old.items → Logged M.machine start place cell.old log.old.items given marked.old
        → Stands M.machine start J.scripts part.new.shared part.new.tally.items part.new.order.items (h ++ drop given log.new.items) × All (λ e. M.machine.by e ≡ place) (drop given log.new.items) × (marked.new ≡ false → M.machine.cell_of cell.new (left_by M.machine start place log.new.items)) }
    ensures wide { length part.new.tally.items ≡ length part.old.tally.items }
    ensures room { (part.new.zones ≡ part.old.zones) × (length part.new.order.items + N.zones ≤ vec_capacity part.new.order) }
    ensures marks { M.machine.is_sound part.new.shared ≡ true → (M.machine.is_sound part.old.shared ≡ true) × (marked.new ≡ marked.old) }
{
    note_some(machine, &mut part.tally, place, &log[given..], silent);
    if *marked || part.ended.is_some() || !machine.is_sound(&part.shared) {
        put_run(part, place, log.len() - given);
        return Err(Outcome::Ended);
    }
    match attempt(machine, cell, part, place, session, lines, job) {
        Ok(entry) => {
            let told = machine.told(&entry);
            log.push_reserved(entry);
            put_run(part, place, log.len() - given);
            Ok(told)
        }
        Err(outcome) => {
            if !machine.is_sound(&part.shared) {
                *marked = true;
            }
            put_run(part, place, log.len() - given);
            Err(outcome)
        }
    }
}

/// Notes what a zone left that it didn't give. Room for it was taken before.
pub(crate) fn note_log<M: Machine, J: Start<M>, N: Outset<M::Shared>>(
    machine: &M,
    part: &mut Part<M, J, N>,
    log: &Log<M::Cell, M::Entry>,
)
    requires few { length part.old.tally.items ≤ 65 }
    requires given { log.now.given ≤ length log.now.entries.items }
    requires room { length part.old.order.items < vec_capacity part.old.order }
    ensures stands { (start : M.State) (h : List M.Entry) → Stands M.machine start J.scripts part.old.shared part.old.tally.items part.old.order.items h → own M.machine.by log.now.place h ≡ take log.now.given log.now.entries.items → Logged M.machine start log.now.place log.now.cell log.now.entries.items log.now.given log.now.marked
        → Stands M.machine start J.scripts part.new.shared part.new.tally.items part.new.order.items (h ++ drop log.now.given log.now.entries.items) }
    ensures room { (length part.new.order.items ≡ length part.old.order.items + 1) × (vec_capacity part.new.order ≡ vec_capacity part.old.order) }
    ensures wide { length part.new.tally.items ≡ length part.old.tally.items }
    ensures shared { part.new.shared ≡ part.old.shared }
{
    note_rest(machine, &mut part.tally, log.place, &log.entries, log.given);
    put_run(part, log.place, log.entries.len() - log.given);
}

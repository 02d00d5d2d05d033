//! Runs of the toy machine.
ghost use Rattle.std.specs.Prelude.{◌≡◌, ◌≢◌, ◌<◌, ◌^◌, ℕ, [], length, IfOk};
ghost use Rattle.std.specs.List.{All};
ghost use Rattle.zone_turn.specs.declared.limits.TheConstants.{PASSES_OUT_MAX};
ghost use Rattle.zone_threads.specs.Ends.{IsOpening, IsScript};
ghost use Rattle.threads_tests.specs.Runs.{Numbered};
ghost use Rattle.threads_tests.specs.Toys.{toy};

use crate::starts::{Fresh, Lines};
use crate::toy::{Cell, Entry, Line, Pool, Toy};
use std::alloc::{AllocError, Global};
use std::marker::Brand;
use std::sync::Wait;
use std::sync::atomic::{AtomicU64, Ordering};
use std::test::*;
use std::thread;
use std::thread::Threads;
use zone_threads::{Ending, Gate, History, Lived, Script, run_scripts};

// A gate at which nobody waits.
#[derive(Drop)]
struct Open;

impl Gate for Open {
    fn pass<W: Wait>(&self, _rt: &W, _place: u32) {}
}

// For how many turns of a loop a zone waits for another.
const TURNS_MAX: u64 = 20_000_000;

// Each of the zones 2 and 3 waits at its event of this number, from 1 on, until the other has come to its own, and how many of them saw
// the other come is counted. Both do only where the two events are under way at once: one that is over before the other begins has waited
// in vain. At the zone 1, where all sessions look first for their lines' zones, nobody waits.
#[derive(Drop)]
struct Meeting {
    at: u64,
    at_2: AtomicU64,
    at_3: AtomicU64,
    met: AtomicU64,
}

impl Gate for Meeting {
    fn pass<W: Wait>(&self, _rt: &W, place: u32) {
        let (mine, other) = match place {
            2 => (&self.at_2, &self.at_3),
            3 => (&self.at_3, &self.at_2),
            _ => return,
        };
        let before = mine.fetch_add(1, Ordering::SeqCst);
        if before.wrapping_add(1) == self.at {
            for _ in 0..TURNS_MAX {
                if other.load(Ordering::SeqCst) >= self.at {
                    self.met.fetch_add(1, Ordering::SeqCst);
                    break;
                }
                thread::yield_now();
            }
        }
    }
}

// The sessions 1 and 3 are held in the zones 3 and 4 until session 2 has a ticket in the zone 2, and is there for its first turn. Then the
// zone 1 comes to its first line, once both were sent to it, so that the other comes there, too. Session 2 waits in the zone 2 until it did: by
// then the first line of the zone 1 is over. It is counted whether session 2 saw so.
#[derive(Drop)]
struct Holding<'a> {
    sent: &'a AtomicU64,
    at_1: AtomicU64,
    at_2: AtomicU64,
    saw: AtomicU64,
}

// Waits until a count is so high, and tells whether it is.
fn waits_for(count: &AtomicU64, many: u64) -> bool {
    for _ in 0..TURNS_MAX {
        if count.load(Ordering::SeqCst) >= many {
            return true;
        }
        thread::yield_now();
    }
    false
}

impl<'a> Gate for Holding<'a> {
    fn pass<W: Wait>(&self, _rt: &W, place: u32) {
        match place {
            1 => {
                if self.at_1.fetch_add(1, Ordering::SeqCst) == 3 {
                    waits_for(self.sent, 5);
                }
            }
            2 => {
                if self.at_2.fetch_add(1, Ordering::SeqCst) == 1 && waits_for(&self.at_1, 5) {
                    self.saw.fetch_add(1, Ordering::SeqCst);
                }
            }
            _ => {
                waits_for(&self.at_2, 2);
            }
        }
    }
}

// So many zones, none of which is busy.
fn cells(alloc: Global, many: u32) -> Result<Vec<Cell>, AllocError>
    ensures { IfOk result (λ v. (length v.items ≡ many) × IsOpening toy (λ s. s ≡ []) v.items) }
{
    let mut cells = Vec::new(alloc);
    for _ in 0..many {
        cells.push(Cell {
            is_busy: false,
            left: 0,
            ticket: 0,
        })?;
    }
    Ok(cells)
}

// So many lines of a session, which are all in the zone of this place, or go round the zones from there. Each third line is answered by
// a ticket, if its zone isn't busy.
fn script(
    alloc: Global,
    session: u8,
    from: u32,
    many: u32,
    zones: u32,
    goes_round: bool,
) -> Result<Script<Line>, AllocError>
    ensures { IfOk result (λ s. s.session ≡ session) }
{
    let mut lines = Vec::new(alloc);
    let mut place = from;
    for number in 0..many {
        lines.push(Line {
            number,
            place,
            turns: if number % 3 == 0 { 5 } else { 0 },
        })?;
        if goes_round {
            place = if place < zones { place + 1 } else { 1 };
        }
    }
    Ok(Script { session, lines })
}

// A script for each of these, which say whether its lines go round. The first one begins at this place, and each at the next.
fn scripts(
    alloc: Global,
    rounds: &[bool],
    from: u32,
    many: u32,
    zones: u32,
) -> Result<Vec<Script<Line>>, AllocError>
    requires { length rounds.now < 65 }
    ensures { IfOk result (λ v. Numbered 1 v.items × (length v.items ≡ length rounds.now)) }
{
    let mut scripts = Vec::new(alloc);
    for i in 0..rounds.len() {
        scripts.push(script(
            alloc,
            i as u8 + 1,
            from.saturating_add(i as u32),
            many,
            zones,
            rounds[i],
        )?)?;
    }
    Ok(scripts)
}

// Runs scripts, which are of these lines, over so many zones, with so much in the pool.
fn run<L: Lines + Send + Sync, R: Threads + Wait + Sync, G: Gate + Sync>(
    rt: &R,
    alloc: Global,
    toy: &Toy,
    gate: &G,
    zones: u32,
    all: u64,
    scripts: &[Script<Line>],
) -> Result<Lived<Toy>, AllocError>
    requires zones { zones < PASSES_OUT_MAX }
    requires scripts { All (IsScript L.lines) scripts.now }
    requires others { (s : ℕ) → All (λ x. x.session ≢ s) scripts.now → L.lines s ≡ [] }
    requires few { (s : ℕ) → length (L.lines s) < 2 ^ 64 }
{
    let pool = Pool {
        drawn: 0,
        all,
        is_sound: true,
    };
    match run_scripts::<Toy, Fresh<L>, R, G>(
        rt,
        alloc,
        toy,
        gate,
        cells(alloc, zones)?,
        pool,
        scripts,
    ) {
        Ok(lived) => Ok(lived),
        Err(_) => Err(AllocError),
    }
}

// Runs scripts whose sessions are numbered.
fn run_toy<R: Threads + Wait + Sync, G: Gate + Sync>(
    rt: &R,
    alloc: Global,
    toy: &Toy,
    gate: &G,
    zones: u32,
    all: u64,
    scripts: &[Script<Line>],
) -> Result<Lived<Toy>, AllocError>
    requires zones { zones < PASSES_OUT_MAX }
    requires scripts { Numbered 1 scripts.now × (length scripts.now < 65) }
{
    run::<Brand, R, G>(rt, alloc, toy, gate, zones, all, scripts)
}

// The same on a machine of its own.
fn run_all<R: Threads + Wait + Sync, G: Gate + Sync>(
    rt: &R,
    alloc: Global,
    gate: &G,
    zones: u32,
    all: u64,
    scripts: &[Script<Line>],
) -> Result<Lived<Toy>, AllocError>
    requires zones { zones < PASSES_OUT_MAX }
    requires scripts { Numbered 1 scripts.now × (length scripts.now < 65) }
{
    let toy = Toy {
        sent: AtomicU64::new(0),
    };
    run_toy(rt, alloc, &toy, gate, zones, all, scripts)
}

// How many entries are of lines, how many of turns, and how many of those of turns in the zone 2.
#[derive(Clone, Copy, Debug, PartialEq, Eq, Drop)]
struct Counted {
    lines: u64,
    turns: u64,
    turns_in_2: u64,
}

// Takes all entries, and counts them.
fn count_all(entries: &mut History<Entry>) -> Counted
    ensures { entries.new ≡ [] }
{
    let mut counted = Counted {
        lines: 0,
        turns: 0,
        turns_in_2: 0,
    };
    while let Some(entry) = entries.next() {
        if entry.told.session != 0 {
            counted.lines = counted.lines.saturating_add(1);
        } else {
            counted.turns = counted.turns.saturating_add(1);
            if entry.place == 2 {
                counted.turns_in_2 = counted.turns_in_2.saturating_add(1);
            }
        }
    }
    counted
}

#[test]
fn one_session(rt: HostRuntime) -> Result<(), Fail> {
    let alloc = rt.alloc();
    let scripts = scripts(alloc, &[true], 1, 30, 3)?;
    let mut lived = run_all(&rt, alloc, &Open, 3, 1000, &scripts)?;
    assert!(rt; lived.ended.is_none());
    // 30 lines, and five turns for each of ten tickets.
    let counted = count_all(&mut lived.entries);
    assert_eq!(rt; counted.lines, 30);
    assert_eq!(rt; counted.turns, 50);
    assert!(rt; lived.entries.next().is_none());
    assert_eq!(rt; lived.cells.len(), 3);
    assert_eq!(rt; lived.shared.drawn, 30);
    Ok(())
}

#[test]
fn four_sessions(rt: HostRuntime) -> Result<(), Fail> {
    let alloc = rt.alloc();
    let scripts = scripts(alloc, &[true, false, true, false], 1, 60, 4)?;
    let mut lived = run_all(&rt, alloc, &Open, 4, 1000, &scripts)?;
    assert!(rt; lived.ended.is_none());
    assert_eq!(rt; count_all(&mut lived.entries).lines, 240);
    assert_eq!(rt; lived.shared.drawn, 240);
    Ok(())
}

#[test]
fn a_fault_in_the_middle(rt: HostRuntime) -> Result<(), Fail> {
    let alloc = rt.alloc();
    let scripts = scripts(alloc, &[true, true, true], 1, 60, 4)?;
    let mut lived = run_all(&rt, alloc, &Open, 4, 50, &scripts)?;
    assert!(rt; matches!(lived.ended, Some(Ending::Fault(_))));
    assert_eq!(rt; count_all(&mut lived.entries).lines, 50);
    assert_eq!(rt; lived.shared.drawn, 50);
    let mut marked: u64 = 0;
    for back in lived.cells.iter() {
        if back.marked {
            marked = marked.saturating_add(1);
        }
    }
    assert_eq!(rt; marked, 1);
    Ok(())
}

// A line belongs to a zone that isn't there.
#[test]
fn no_such_zone(rt: HostRuntime) -> Result<(), Fail> {
    let alloc = rt.alloc();
    let scripts = scripts(alloc, &[true], 1, 30, 3)?;
    let mut lived = run_all(&rt, alloc, &Open, 2, 1000, &scripts)?;
    assert!(rt; matches!(lived.ended, Some(Ending::Memory)));
    assert_eq!(rt; count_all(&mut lived.entries).lines, 2);
    Ok(())
}

// Two zones' events are under way at once: a line of each, then a local turn of each, and then a turn of each that needs what they share.
#[test]
fn two_zones_at_once(rt: HostRuntime) -> Result<(), Fail> {
    let alloc = rt.alloc();
    let scripts = scripts(alloc, &[false, false], 2, 9, 3)?;
    for at in [1, 3, 6] {
        let gate = Meeting {
            at,
            at_2: AtomicU64::new(0),
            at_3: AtomicU64::new(0),
            met: AtomicU64::new(0),
        };
        let lived = run_all(&rt, alloc, &gate, 3, 100, &scripts)?;
        assert!(rt; lived.ended.is_none(), "at {at}");
        assert_eq!(rt; gate.met.load(Ordering::SeqCst), 2, "at {at}");
    }
    Ok(())
}

// Three scripts: two begin in the zones 3 and 4, and go on in the zone 1, and the one between them has a ticket in the zone 2.
fn held_scripts(alloc: Global) -> Result<Vec<Script<Line>>, AllocError>
    ensures { IfOk result (λ v. Numbered 1 v.items × (length v.items ≡ 3)) }
{
    let mut scripts = Vec::new(alloc);
    scripts.push(script(alloc, 1, 3, 2, 3, true)?)?;
    scripts.push(script(alloc, 2, 2, 1, 4, false)?)?;
    scripts.push(script(alloc, 3, 4, 2, 4, true)?)?;
    Ok(scripts)
}

// After a fault no zone makes a local turn.
#[test]
fn no_turn_after_a_fault(rt: HostRuntime) -> Result<(), Fail> {
    let alloc = rt.alloc();
    let scripts = held_scripts(alloc)?;
    let toy = Toy {
        sent: AtomicU64::new(0),
    };
    let gate = Holding {
        sent: &toy.sent,
        at_1: AtomicU64::new(0),
        at_2: AtomicU64::new(0),
        saw: AtomicU64::new(0),
    };
    // The first line of each is all that the pool has.
    let mut lived = run_toy(&rt, alloc, &toy, &gate, 4, 3, &scripts)?;
    assert!(rt; matches!(lived.ended, Some(Ending::Fault(_))));
    assert_eq!(rt; gate.saw.load(Ordering::SeqCst), 1);
    let counted = count_all(&mut lived.entries);
    assert_eq!(rt; counted.lines, 3);
    assert_eq!(rt; counted.turns_in_2, 0);
    Ok(())
}

//! A toy machine: each zone has a counter, and all draw from one pool.
ghost use Rattle.std.specs.Prelude.{◌≡◌};
ghost use Rattle.threads_tests.specs.Toys.{toy};
ghost use Rattle.threads_tests.specs.Laws.{laws};

use std::alloc::AllocError;
use std::collections::LinkedList;
use std::sync::atomic::{AtomicU64, Ordering};
use zone_threads::{Machine, Said, Stop, Told, Zoned};

/// A zone: what is left of the request of its ticket, and how many requests came.
#[derive(Drop)]
pub struct Cell {
    pub is_busy: bool,
    pub left: u32,
    pub ticket: u32,
}

/// What zones share: how much was drawn from a pool, of which each line draws one, how much there is, and whether no fault came.
#[derive(Drop)]
pub struct Pool {
    pub drawn: u64,
    pub all: u64,
    pub is_sound: bool,
}

/// A line of a session: its number, the place of its zone, and how many turns its request takes, the last of which isn't local. With 0 it
/// is answered at once.
#[derive(Clone, Copy, Debug, PartialEq, Eq, Drop)]
pub struct Line {
    pub number: u32,
    pub place: u32,
    pub turns: u32,
}

/// What was done.
#[derive(Clone, Copy, Debug, PartialEq, Eq, Drop)]
pub struct Entry {
    pub place: u32,
    pub told: Told,
    /// The number of its line, if it is a line's.
    pub line: u32,
    /// How much it draws from the pool.
    pub draws: u32,
    /// Whether the zone is busy after it.
    pub is_busy: bool,
}

/// The pool is empty.
#[derive(Drop)]
pub struct Empty;

/// The machine. It counts how many lines it sent to another zone.
#[derive(Drop)]
pub struct Toy {
    pub sent: AtomicU64,
}

impl Zoned for Toy {
    type State = LinkedList<Entry>;

    type Cell = Cell;

    type Shared = Pool;

    type Line = Line;

    type Entry = Entry;

    type Heard = ();

    type Fault = Empty;

    ghost machine = { toy };
}

fn turn_entry(place: u32, said: Said, is_busy: bool) -> Entry
    ensures { result ≡ record { place = place; told = record { session = 0; said = said }; line = 0; draws = 0; is_busy = is_busy } }
{
    Entry {
        place,
        told: Told { session: 0, said },
        line: 0,
        draws: 0,
        is_busy,
    }
}

impl Machine for Toy {
    ghost ready = { λ m. Unit {0} };

    fn told(&self, entry: &Entry) -> Told {
        entry.told
    }

    fn is_sound(&self, shared: &Pool) -> bool {
        shared.is_sound
    }

    fn is_busy(&self, cell: &Cell, _shared: &Pool) -> bool {
        cell.is_busy
    }

    fn hear(&self, _cell: &Cell) {}

    fn local_turn(&self, cell: &mut Cell, place: u32) -> Result<Option<Entry>, AllocError> {
        if cell.left < 2 {
            return Ok(None);
        }
        cell.left -= 1;
        Ok(Some(turn_entry(place, Said::Other, cell.is_busy)))
    }

    fn turn(
        &self,
        cell: &mut Cell,
        _shared: &mut Pool,
        place: u32,
        _heard: (),
    ) -> Result<Entry, Empty> {
        cell.left = 0;
        cell.is_busy = false;
        Ok(turn_entry(place, Said::Finished(cell.ticket), false))
    }

    fn line(
        &self,
        cell: &mut Cell,
        shared: &mut Pool,
        place: u32,
        session: u8,
        line: &Line,
    ) -> Result<Entry, Stop<Empty>> {
        if line.place != place {
            self.sent.fetch_add(1, Ordering::SeqCst);
            return Err(Stop::Elsewhere(line.place));
        }
        if shared.drawn >= shared.all {
            shared.is_sound = false;
            return Err(Stop::Fault(Empty));
        }
        shared.drawn += 1;
        let mut said = Said::Other;
        if line.turns > 0 && !cell.is_busy {
            cell.ticket = cell.ticket.wrapping_add(1);
            cell.left = line.turns;
            cell.is_busy = true;
            said = Said::Ticket(cell.ticket);
        }
        Ok(Entry {
            place,
            told: Told { session, said },
            line: line.number,
            draws: 1,
            is_busy: cell.is_busy,
        })
    }

    ghost laws = { laws };
}

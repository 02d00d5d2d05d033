//! A zone under its lock, with its log and its pass.
ghost use Rattle.std.specs.Prelude.{◌≡◌, ◌*◌, ◌≤◌, ◌++◌, ℕ, List, [], true, IfOk, take, vec_capacity};
ghost use Rattle.std.specs.List.{All};
ghost use Rattle.zone_turn.specs.Passes.{idle_with, is_idle};
ghost use Rattle.zone_turn.specs.declared.views.Stage.TheVariants.{Out};
ghost use Rattle.zone_threads.specs.Ends.{IsLeft};
ghost use Rattle.zone_threads.specs.Notes.{dones, has_mark, notes_of};
ghost use Rattle.zone_threads.specs.Records.{IsPart};
ghost use Rattle.zone_threads.specs.Zones.{IsAsk};
ghost use Rattle.zone_threads.specs.declared.notes.Note.{Note};

use crate::machine::{Machine, Told, Zoned};
use crate::notes::Note;
use crate::part::{Outset, Part, Place, Start};
use crate::step::{Ask, Outcome, act, is_rest_silent, job_of};
use std::alloc::{AllocError, Global};
use std::collections::VecDeque;
use std::marker::{Brand, Model, PhantomData};
use std::sync::Wait;
use std::sync::atomic::{AtomicBool, Ordering};
use zone_turn::{Batch, Pass, PassOf, Turn};

/// The cell of the zone of a place. Where a fault left it between two entries it is marked, and nothing is said of the cell. None is
/// marked where what zones share may still be used.
#[derive(Drop)]
pub struct Back<C> {
    pub place: u32,
    pub cell: C,
    pub marked: bool,
}

/// What the zone of a place did, how much of that it gave, and its cell, as in `Back`.
#[derive(Drop)]
pub(crate) struct Log<C, E> {
    pub place: u32,
    pub entries: VecDeque<E>,
    pub given: usize,
    pub cell: C,
    pub marked: bool,
}

/// A zone, as it lies under its lock: its cell, what it did, how much of that was given to the part, and the pass by which it has
/// the part. Contracts see its place and its log.
pub(crate) struct Zone<M: Zoned, J: Start<M>, N: Outset<M::Shared>, K: Place> {
    place: u32,
    cell: M::Cell,
    log: Vec<M::Entry>,
    given: usize,
    marked: bool,
    pass: PassOf<Part<M, J, N>, Note<M::Entry>>,
    of: PhantomData<K>,
}

impl<M: Zoned, J: Start<M>, N: Outset<M::Shared>, K: Place> Model for Zone<M, J, N, K> {
    ghost use Rattle.std.specs.Prelude.{ℕ, List, ◌≤◌};
    ghost use Rattle.zone_threads.specs.Zones.{IsZone};

    ghost Value = { ℕ × List M.Entry };

    ghost view = { λ z. (z.place, z.log.items) };

    ghost invariant = { λ z. IsZone M.machine J.starts K.turn z.place z.cell z.log.items z.given z.marked z.pass × (z.place ≤ N.zones) };
}

impl<M: Machine, J: Start<M>, N: Outset<M::Shared>, K: Place> Zone<M, J, N, K> {
    /// A zone that has done nothing.
    pub(crate) fn new(alloc: Global, pass: Pass<Part<M, J, N>>, place: u32, cell: M::Cell) -> Self
        requires pass { (pass.turn ≡ K.turn) × (is_idle pass.knows ≡ true) × (pass.knows.number ≡ place) × (pass.knows.list ≡ []) }
        requires cell { (start : M.State) → J.starts start → M.machine.cell_of cell (M.machine.world place start) }
        requires near { place ≤ N.zones }
        ensures { result ≡ (place, []) }
    {
        Zone {
            place,
            cell,
            log: Vec::new(alloc),
            given: 0,
            marked: false,
            pass,
            of: PhantomData,
        }
    }

    /// The next turn of the zone's daemon, where it is local, under the zone's lock alone. Room is taken for an entry behind it, too.
    pub(crate) fn local(&mut self, machine: &M) -> Result<Option<Told>, AllocError>
        requires ready { M.ready machine.now }
        ensures place { self.new.0 ≡ self.old.0 }
    {
        if self.marked {
            return Ok(None);
        }
        self.log.reserve(2)?;
        match machine.local_turn(&mut self.cell, self.place)? {
            Some(entry) => {
                let told = machine.told(&entry);
                self.log.push_reserved(entry);
                Ok(Some(told))
            }
            None => Ok(None),
        }
    }
}

// Marks that the run is over, where that is why an event was not done.
fn mark_over(is_over: &AtomicBool, done: Result<Told, Outcome>) {
    if let Err(Outcome::Ended) = done {
        is_over.store(true, Ordering::SeqCst);
    }
}

// Gives the part back, and tells what the zone of a place did, and whether it is marked.
fn give_notes<M: Machine, J: Start<M>, N: Outset<M::Shared>, B: Batch<Note<M::Entry>>>(
    turn: &Turn<Part<M, J, N>>,
    pass: &mut Pass<Part<M, J, N>>,
    part: Part<M, J, N>,
    _place: u32,
    _done: &[M::Entry],
    _marked: bool,
)
    requires turn { pass.old.turn ≡ turn.now }
    requires picked { B.entries ≡ notes_of _place _done.now _marked }
    requires out { (gives : ℕ) × (ns : List (Note M.Entry)) × (pass.old.knows.stage ≡ Out gives ns) × IsPart M.machine J.starts J.scripts N.shared N.zones part.shared part.tally.items part.zones part.order.items (vec_capacity part.order) (ns ++ notes_of _place _done.now _marked) }
    requires own { (pass.old.knows.number ≡ _place) × All (λ e. M.machine.by e ≡ _place) _done.now }
    ensures turn { pass.new.turn ≡ pass.old.turn }
    ensures idle { pass.new.knows ≡ idle_with (pass.old.knows.list ++ notes_of _place _done.now _marked) pass.old.knows }
{
    turn.give_picked::<B>(pass, part);
}

impl<M: Machine, J: Start<M>, N: Outset<M::Shared>, K: Place> Zone<M, J, N, K> {
    /// One job with the part out. An entry that comes is given, behind the local ones. Where all ends, the run is marked as over before
    /// the part is given back.
    pub(crate) fn event<W: Wait>(
        &mut self,
        rt: &W,
        machine: &M,
        turn: &Turn<Part<M, J, N>>,
        is_over: &AtomicBool,
        session: u8,
        lines: &[M::Line],
        ask: Ask,
    ) -> Result<Told, Outcome>
        requires ready { M.ready machine.now }
        requires turn { turn.now ≡ K.turn }
        requires ask { IsAsk J.scripts session lines.now ask }
        ensures place { self.new.0 ≡ self.old.0 }
    {
        if self.log.reserve(1).is_err() {
            is_over.store(true, Ordering::SeqCst);
            return Err(Outcome::Ended);
        }
        let job = job_of(machine, &self.cell, ask);
        let silent = is_rest_silent(machine, &self.log, self.given);
        let mut part = turn.take(rt, &mut self.pass);
        if part.make_room().is_err() {
            // Nothing is given.
            is_over.store(true, Ordering::SeqCst);
            turn.give_picked::<Brand>(&mut self.pass, part);
            return Err(Outcome::Ended);
        }
        let done = act(
            machine,
            self.place,
            &mut self.cell,
            &mut self.log,
            self.given,
            &mut self.marked,
            &mut part,
            session,
            lines,
            job,
            silent,
        );
        mark_over(is_over, done);
        give_notes::<M, J, N, Brand>(
            turn,
            &mut self.pass,
            part,
            self.place,
            &self.log[self.given..],
            self.marked,
        );
        self.given = self.log.len();
        done
    }

    /// Hands out the pass and the log, of which what was local at last wasn't given.
    pub(crate) fn end(self) -> (Pass<Part<M, J, N>>, Log<M::Cell, M::Entry>)
        ensures left { IsLeft M.machine J.starts result.1 }
        ensures near { result.1.place ≤ N.zones }
        ensures pass { (result.0.turn ≡ K.turn) × (is_idle result.0.knows ≡ true) × (result.0.knows.number ≡ result.1.place) × (dones result.0.knows.list ≡ take result.1.given result.1.entries.items) × (result.1.marked ≡ true → has_mark result.0.knows.list ≡ true) }
    {
        let Zone {
            place,
            cell,
            log,
            given,
            marked,
            pass,
            of: _,
        } = self;
        (
            pass,
            Log {
                place,
                entries: VecDeque::from_vec(log),
                given,
                cell,
                marked,
            },
        )
    }
}

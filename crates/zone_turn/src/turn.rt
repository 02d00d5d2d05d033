//! The turn, and its passes.
ghost use Rattle.std.specs.Prelude.{◌≡◌, ◌++◌, ◌∷◌, ◌<◌, ℕ, List, [], true, IfOk, IfErr, Option};
ghost use Rattle.std.specs.List.{All};
ghost use Rattle.zone_turn.specs.declared.views.Stage.TheVariants.{Out};
ghost use Rattle.zone_turn.specs.Passes.{after_join, after_split, alive, first_view, hand_of, idle_with, is_first, is_idle, new_view, out_of};
ghost use Rattle.zone_turn.specs.Calls.{Closes, Extends, Takes};
ghost use Rattle.zone_turn.specs.declared.faults.TurnFault.TheVariants.{Memory};
ghost use Rattle.zone_turn.specs.declared.limits.TheConstants.{PASSES_OUT_MAX};

use crate::faults::TurnFault;
use crate::plays::{Batch, Count, Deal, Draw, Look, TurnRule};
use crate::story::Storied;
use crate::views::View;
use atomic_table::{Refused, Seat, Table};
use std::alloc::{AllocError, Global};
use std::hint::spin_loop;
use std::marker::{Brand, Model};
use std::sync::Wait;
use std::sync::atomic::{AtomicU64, Ordering};
use std::thread::yield_now;

// How often a pass looks whether the ticket that is served changes, before it sleeps: first without a break, and then between breaks in
// which others may run. What a holder does takes less than all of this mostly, and to sleep and be woken takes more.
const LOOKS: u32 = 300;

const LOOKS_WITH_BREAKS: u32 = 200;

/// Lends a part to one holder at a time, in the order in which they ask. Contracts see which turn it is. It isn't dropped:
/// `close` ends it.
pub struct Turn<T: Storied> {
    table: Table<Option<T>, View<T::Entry>, (), TurnRule, Global>,
    // How many passes sleep, or are about to.
    sleepers: AtomicU64,
}

impl<T: Storied> Model for Turn<T> {
    ghost use Rattle.std.specs.Prelude.{◌≡◌};
    ghost use Rattle.atomic_table.specs.Seated.{TableId};

    ghost Value = { TableId };

    ghost view = { λ t. t.table.shared.table_id };

    ghost invariant = { λ t. (t.table.shared.table_id.words ≡ 2) × (t.table.shared.table_id.slots ≡ 1) };
}

/// A pass of a turn whose part is a `T`.
pub type Pass<T> = PassOf<T, <T as Storied>::Entry>;

/// A pass of a turn whose part is a `T`, with entries `E`. Contracts see `Holder`: the turn, and what the pass knows. It has
/// no bytes. With no bound on `T` or `E` it may lie in a type with a lifetime.
pub struct PassOf<T, E> {
    seat: Seat<Option<T>, View<E>>,
}

impl<T, E> Model for PassOf<T, E> {
    ghost use Rattle.zone_turn.specs.Passes.{Holder, IsPass};

    ghost Value = { Holder E };

    ghost view = { λ p. record { turn = p.seat.table_id; knows = p.seat.me.0 } };

    ghost invariant = { λ p. IsPass p.seat.me.0 p.seat.me.1 };
}

type Place<T> = Seat<Option<T>, View<<T as Storied>::Entry>>;

impl<T: Storied> Turn<T> {
    /// A turn of a part that stands for no entries, with its first pass, whose number is 0.
    pub fn new(alloc: Global, shared: T) -> Result<(Turn<T>, Pass<T>), (TurnFault, T)>
        requires { T.stands_for shared [] }
        ensures turn { IfOk result (λ made. made.1.turn ≡ made.0) }
        ensures first { IfOk result (λ made. made.1.knows ≡ first_view) }
        ensures memory { IfErr result (λ back. back ≡ (Memory, shared)) }
    {
        let mut slots = Vec::new(alloc);
        if let Err(failed) = slots.push(Some(shared)) {
            slots.destroy_empty();
            return Err((TurnFault::Memory, failed.value.unwrap()));
        }
        match Table::new(alloc, &[0, 0], slots, &()) {
            Ok((table, seat)) => {
                let sleepers = AtomicU64::new(0);
                Ok((Turn { table, sleepers }, PassOf { seat }))
            }
            Err(Refused { mut slots }) => {
                let shared = slots.pop().unwrap().unwrap();
                slots.destroy_empty();
                Err((TurnFault::Memory, shared))
            }
        }
    }

    // Whether another ticket than this is served while the pass looks.
    fn moves_on(&self, served: u64) -> bool {
        for look in 0..LOOKS + LOOKS_WITH_BREAKS {
            if self.table.shared.peek(1) != served {
                return true;
            }
            if look < LOOKS {
                spin_loop();
            } else {
                yield_now();
            }
        }
        false
    }

    // Sleeps while this ticket is served. It may also return for no reason.
    fn sleep<W: Wait>(&self, rt: &W, served: u64) {
        self.sleepers.fetch_add(1, Ordering::SeqCst);
        self.table.shared.park(rt, 1, (served % (1 << 32)) as u32);
        self.sleepers.fetch_sub(1, Ordering::SeqCst);
    }

    // Wakes all who sleep. Who counts itself later finds that the ticket has changed.
    fn wake(&self) {
        if self.sleepers.load(Ordering::SeqCst) != 0 {
            self.table.shared.wake_all(1);
        }
    }

    fn take_seat<W: Wait>(&self, rt: &W, seat: &mut Place<T>) -> T
        requires turn { seat.old.table_id ≡ self.now }
        requires idle { is_idle seat.old.me.0 ≡ true }
        requires lives { alive seat.old.me.0 ≡ 1 }
        requires empty { seat.old.me.1 ≡ [] }
        ensures turn { seat.new.table_id ≡ seat.old.table_id }
        ensures hand { seat.new.me.1 ≡ (0, None) ∷ [] }
        ensures out { (h : List T.Entry) × (gives : ℕ) × Takes T.stands_for T.belongs_to gives h result seat.old.me.0 seat.new.me.0 }
    {
        let shared = &self.table.shared;
        let ticket = shared.fetch_add::<Draw>(seat, 0, 1);
        for _ in rt.forever() {
            let served = shared.load::<Look>(seat, 1);
            if served == ticket {
                return shared.exchange(seat, 0, None).unwrap();
            }
            if !self.moves_on(served) {
                self.sleep(rt, served);
            }
        }
        unreachable!()
    }

    /// Waits until it is the pass's turn, and hands out the part.
    pub fn take<W: Wait>(&self, rt: &W, pass: &mut Pass<T>) -> T
        requires turn { pass.old.turn ≡ self.now }
        requires idle { is_idle pass.old.knows ≡ true }
        ensures turn { pass.new.turn ≡ pass.old.turn }
        ensures out { (h : List T.Entry) × (gives : ℕ) × Takes T.stands_for T.belongs_to gives h result pass.old.knows pass.new.knows }
    {
        self.take_seat(rt, &mut pass.seat)
    }

    fn give_seat<B: Batch<T::Entry>>(&self, seat: &mut Place<T>, shared: T)
        requires turn { seat.old.table_id ≡ self.now }
        requires out { Extends T.stands_for shared B.entries seat.old.me.0 }
        requires own { All (λ e. T.belongs_to e ≡ seat.old.me.0.number) B.entries }
        requires lives { alive seat.old.me.0 ≡ 1 }
        requires hand { seat.old.me.1 ≡ (0, None) ∷ [] }
        ensures turn { seat.new.table_id ≡ seat.old.table_id }
        ensures idle { seat.new.me ≡ (idle_with (seat.old.me.0.list ++ B.entries) seat.old.me.0, []) }
    {
        let empty = self.table.shared.exchange(seat, 0, Some(shared));
        let None = empty else { unreachable!() };
        self.table.shared.fetch_add::<Count<B>>(seat, 1, 1);
        self.wake();
    }

    /// Gives back the part, which stands for what it stood for when it was taken and then the batch. The batch, which may be
    /// empty, is counted once, and the pass keeps its entries in its list.
    pub fn give(&self, pass: &mut Pass<T>, shared: T, batch: &[T::Entry])
        requires turn { pass.old.turn ≡ self.now }
        requires out { Extends T.stands_for shared batch.now pass.old.knows }
        requires own { All (λ e. T.belongs_to e ≡ pass.old.knows.number) batch.now }
        ensures turn { pass.new.turn ≡ pass.old.turn }
        ensures idle { pass.new.knows ≡ idle_with (pass.old.knows.list ++ batch.now) pass.old.knows }
    {
        self.give_list::<Brand>(pass, shared, batch);
    }

    fn give_list<B: Batch<T::Entry>>(&self, pass: &mut Pass<T>, shared: T, _batch: &[T::Entry])
        requires turn { pass.old.turn ≡ self.now }
        requires named { _batch.now ≡ B.entries }
        requires out { Extends T.stands_for shared _batch.now pass.old.knows }
        requires own { All (λ e. T.belongs_to e ≡ pass.old.knows.number) _batch.now }
        ensures turn { pass.new.turn ≡ pass.old.turn }
        ensures idle { pass.new.knows ≡ idle_with (pass.old.knows.list ++ _batch.now) pass.old.knows }
    {
        self.give_picked::<B>(pass, shared);
    }

    /// The same where the entries of the batch lie in no one list: who gives picks them.
    pub fn give_picked<B: Batch<T::Entry>>(&self, pass: &mut Pass<T>, shared: T)
        requires turn { pass.old.turn ≡ self.now }
        requires out { Extends T.stands_for shared B.entries pass.old.knows }
        requires own { All (λ e. T.belongs_to e ≡ pass.old.knows.number) B.entries }
        ensures turn { pass.new.turn ≡ pass.old.turn }
        ensures idle { pass.new.knows ≡ idle_with (pass.old.knows.list ++ B.entries) pass.old.knows }
    {
        self.give_seat::<B>(&mut pass.seat, shared);
    }

    /// A new pass, whose number is the count of passes made before.
    pub fn split(&self, first: &mut Pass<T>) -> Pass<T>
        requires turn { first.old.turn ≡ self.now }
        requires idle { is_idle first.old.knows ≡ true }
        requires first { is_first first.old.knows ≡ true }
        requires few { out_of first.old.knows.role < PASSES_OUT_MAX }
        ensures turn { first.new.turn ≡ first.old.turn }
        ensures first { first.new.knows ≡ after_split first.old.knows }
        ensures same { result.turn ≡ first.old.turn }
        ensures new { result.knows ≡ new_view first.old.knows }
    {
        let seat = self.table.shared.split_seat::<Deal>(&mut first.seat);
        PassOf { seat }
    }

    /// Takes a pass back. The first pass keeps its list, with its number.
    pub fn join(&self, first: &mut Pass<T>, other: Pass<T>)
        requires turn { first.old.turn ≡ self.now }
        requires same { other.turn ≡ self.now }
        requires first { is_first first.old.knows ≡ true }
        requires idle { is_idle first.old.knows ≡ true }
        requires idle_too { is_idle other.knows ≡ true }
        ensures turn { first.new.turn ≡ first.old.turn }
        ensures first { first.new.knows ≡ after_join first.old.knows other.knows }
    {
        let PassOf { seat } = other;
        self.table.shared.join_seat::<Deal>(&mut first.seat, seat);
    }

    /// Ends the turn, and hands back the part. All other passes were taken back.
    pub fn close(self, first: Pass<T>) -> T
        requires turn { first.turn ≡ self }
        requires idle { is_idle first.knows ≡ true }
        requires first { is_first first.knows ≡ true }
        requires all_back { out_of first.knows.role ≡ 0 }
        ensures { (h : List T.Entry) × Closes T.stands_for T.belongs_to h result first.knows }
    {
        let Turn { table, sleepers: _ } = self;
        let PassOf { seat } = first;
        let mut closed = table.close_with(seat);
        let part = closed.take(0).unwrap();
        closed.free();
        part
    }
}

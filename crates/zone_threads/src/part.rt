//! The part that goes round.
ghost use Rattle.std.specs.Prelude.{◌≡◌, ◌+◌, ◌≤◌, OnOk, length, vec_capacity};

use crate::machine::Zoned;
use crate::notes::Note;
use crate::tally::Progress;
use std::alloc::AllocError;
use std::marker::{Brand, PhantomData};
use zone_turn::Storied;

/// What all began with: one of these states, whichever it was, and the lines of each session by its number.
pub trait Start<M: Zoned> {
    ghost use Rattle.std.specs.Prelude.{ℕ, List};

    ghost starts: { M.State → Type 0 };

    ghost scripts: { ℕ → List M.Line };
}

/// What a run begins with, whichever its states are: how many zones, and what they share.
pub trait Outset<S> {
    ghost use Rattle.std.specs.Prelude.{ℕ};

    ghost zones: { ℕ };

    ghost shared: { S → Type 0 };
}

impl<S> Outset<S> for Brand {
    ghost zones = { 0 };

    ghost shared = { λ _. Unit {0} };
}

/// Which turn it is.
pub trait Place {
    ghost use Rattle.atomic_table.specs.Seated.{TableId};

    ghost turn: { TableId };
}

impl Place for Brand {
    ghost turn = { record { words = 0; slots = 0; views_name = 0; atom = 0; block = 0; offset = 0; slot_names = [] } };

    ghost use Rattle.std.specs.Prelude.{[]};
}

/// What zones share, how far each session is, the places of the entries in their order, as runs of one place, and the fault that
/// ended all, if one did.
#[derive(Drop)]
pub struct Part<M: Zoned, J: Start<M>, N: Outset<M::Shared>> {
    pub shared: M::Shared,
    pub tally: Vec<Progress>,
    /// It has room for a run more of each zone.
    pub order: Vec<(u32, u64)>,
    pub ended: Option<M::Fault>,
    /// How many zones there are.
    pub zones: usize,
    pub of: PhantomData<(J, N)>,
}

impl<M: Zoned, J: Start<M>, N: Outset<M::Shared>> Storied for Part<M, J, N> {
    ghost use Rattle.std.specs.Prelude.{vec_capacity};
    ghost use Rattle.zone_threads.specs.Notes.{note_by};
    ghost use Rattle.zone_threads.specs.Records.{IsPart};

    type Entry = Note<M::Entry>;

    ghost stands_for = { λ p ns. IsPart M.machine J.starts J.scripts N.shared N.zones p.shared p.tally.items p.zones p.order.items (vec_capacity p.order) ns };

    ghost belongs_to = { λ n. note_by M.machine.by n };
}

impl<M: Zoned, J: Start<M>, N: Outset<M::Shared>> Part<M, J, N> {
    /// Takes room for the run of an event, beside the one of each zone at the end.
    pub(crate) fn make_room(&mut self) -> Result<(), AllocError>
        requires zones { self.old.zones ≡ N.zones }
        requires room { length self.old.order.items + N.zones ≤ vec_capacity self.old.order }
        ensures same { self.new ≡ record self.old { order = self.new.order } }
        ensures order { self.new.order.items ≡ self.old.order.items }
        ensures kept { length self.new.order.items + N.zones ≤ vec_capacity self.new.order }
        ensures room { OnOk result (length self.new.order.items + 1 + N.zones ≤ vec_capacity self.new.order) }
    {
        self.order.reserve(self.zones + 1)
    }
}

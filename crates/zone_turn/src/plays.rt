//! The rule of a turn's table, and what each step on it tells the pass that takes it.
ghost use Rattle.std.specs.Prelude.{List, []};

use crate::story::Storied;
use crate::views::View;
use atomic_table::{Join, Play, Split, TableRule};
use std::marker::{Brand, PhantomData};

// The rule that holds between any two steps.
pub(crate) struct TurnRule;

impl<T: Storied> TableRule<Option<T>, View<T::Entry>, ()> for TurnRule {
    ghost use Rattle.zone_turn.specs.Passes.{first_view};
    ghost use Rattle.zone_turn.specs.Rule.{IsTurn};

    ghost holds = { λ _. IsTurn T.stands_for T.belongs_to };

    ghost first = { λ _. first_view };
}

// A ticket is drawn: one is added to word 0.
pub(crate) struct Draw;

impl<T: Storied> Play<Option<T>, View<T::Entry>> for Draw {
    ghost use Rattle.zone_turn.specs.Steps.{Draws};

    ghost then = { Draws };
}

// The pass looks which ticket is served: word 1. Where it is its own, the part goes out.
pub(crate) struct Look;

impl<T: Storied> Play<Option<T>, View<T::Entry>> for Look {
    ghost use Rattle.zone_turn.specs.Steps.{Looks};

    ghost then = { Looks T.stands_for T.belongs_to };
}

/// The entries that a give counts. Who gives picks them.
pub trait Batch<E> {
    ghost entries: { List E };
}

// A call picks its own entries in place of these.
impl<E> Batch<E> for Brand {
    ghost entries = { [] };
}

// The part comes back, and its batch is counted: one is added to word 1.
pub(crate) struct Count<B> {
    of: PhantomData<B>,
}

impl<T: Storied, B: Batch<T::Entry>> Play<Option<T>, View<T::Entry>> for Count<B> {
    ghost use Rattle.zone_turn.specs.Steps.{Counts};

    ghost then = { Counts B.entries };
}

// How the first pass makes others, and takes them back.
pub(crate) struct Deal;

impl<E> Split<View<E>> for Deal {
    ghost use Rattle.zone_turn.specs.Passes.{after_split, new_view};

    ghost left = { after_split };

    ghost right = { new_view };
}

impl<E> Join<View<E>> for Deal {
    ghost use Rattle.zone_turn.specs.Passes.{after_join, spent};

    ghost both = { after_join };

    ghost spent = { spent };
}

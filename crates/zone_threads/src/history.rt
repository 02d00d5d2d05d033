//! The one history, as it is taken: from the logs of all zones and the order of their places.
ghost use Rattle.std.specs.Prelude.{◌≡◌, ◌++◌, ◌∷◌, ◌==◌, ℕ, List, [], map, replicate, IfSome, IfNone, if◌then◌else◌};
ghost use Rattle.zone_turn.specs.Histories.{own};
ghost use Rattle.zone_threads.specs.Joined.{joined, tail_of};
ghost use Rattle.zone_threads.specs.Records.{spread};

use std::alloc::Global;
use std::collections::VecDeque;
use std::marker::Model;

/// What is still to come of the entries of the zone of a place.
#[derive(Drop)]
pub(crate) struct Tail<E> {
    pub place: u32,
    pub entries: VecDeque<E>,
}

/// The entries of all zones in the order of the one history, which are taken from its front. Contracts see the list of those still to
/// come.
#[derive(Drop)]
pub struct History<E> {
    // What is left of the run that is under way, and the runs behind it.
    run: (u32, u64),
    order: VecDeque<(u32, u64)>,
    tails: Vec<Tail<E>>,
}

impl<E> Model for History<E> {
    ghost use Rattle.std.specs.Prelude.{List, ◌++◌, replicate};

    ghost Value = { List E };

    ghost use Rattle.zone_threads.specs.Joined.{joined, tail_of};
    ghost use Rattle.zone_threads.specs.Records.{spread};

    ghost view = { λ h. joined (replicate h.run.1 h.run.0 ++ spread h.order.items) (tail_of h.tails.items) };
}

// The first entry of a zone that is still to come.
fn first_of<E>(tail: &mut Tail<E>) -> Option<E>
    ensures place { tail.new.place ≡ tail.old.place }
    ensures some { IfSome result (λ e. tail.old.entries.items ≡ e ∷ tail.new.entries.items) }
    ensures none { IfNone result ((tail.old.entries.items ≡ []) × (tail.new.entries.items ≡ [])) }
{
    tail.entries.pop_front()
}

// The next entry of the zone of a place.
fn next_of<E>(tails: &mut Vec<Tail<E>>, place: u32) -> Option<E>
    ensures some { IfSome result (λ e. (p : ℕ) → tail_of tails.old.items p ≡ (if p == place then e ∷ tail_of tails.new.items p else tail_of tails.new.items p)) }
    ensures none { IfNone result ((tail_of tails.old.items place ≡ []) × ((p : ℕ) → tail_of tails.new.items p ≡ tail_of tails.old.items p)) }
{
    for i in 0..tails.len() {
        if tails[i].place == place {
            return first_of(&mut tails[i]);
        }
    }
    None
}

// The next entry of a run. Where there is none the run is over.
fn next_of_run<E>(tails: &mut Vec<Tail<E>>, run: &mut (u32, u64)) -> Option<E>
    ensures some { IfSome result (λ e. (ps : List ℕ) → joined (replicate run.old.1 run.old.0 ++ ps) (tail_of tails.old.items) ≡ e ∷ joined (replicate run.new.1 run.new.0 ++ ps) (tail_of tails.new.items)) }
    ensures none { IfNone result ((ps : List ℕ) → joined (replicate run.old.1 run.old.0 ++ ps) (tail_of tails.old.items) ≡ joined ps (tail_of tails.new.items)) }
    ensures over { IfNone result (run.new.1 ≡ 0) }
{
    if run.1 == 0 {
        return None;
    }
    match next_of(tails, run.0) {
        Some(entry) => {
            run.1 -= 1;
            Some(entry)
        }
        None => {
            run.1 = 0;
            None
        }
    }
}

impl<E> History<E> {
    /// No entries.
    pub fn empty(alloc: Global) -> Self
        ensures { result ≡ [] }
    {
        History {
            run: (0, 0),
            order: VecDeque::new(alloc),
            tails: Vec::new(alloc),
        }
    }

    /// The history of which these are the entries of each place, in this order of runs of places. It takes no memory.
    pub(crate) fn of_logs(order: Vec<(u32, u64)>, tails: Vec<Tail<E>>) -> Self
        ensures { (by : E → ℕ) (h : List E) → spread order.items ≡ map by h → ((p : ℕ) → own by p h ≡ tail_of tails.items p) → result ≡ h }
    {
        History {
            run: (0, 0),
            order: VecDeque::from_vec(order),
            tails,
        }
    }

    /// Takes the first entry that is still to come. There is none where none is left. It takes no memory.
    pub fn next(&mut self) -> Option<E>
        ensures some { IfSome result (λ e. self.old ≡ e ∷ self.new) }
        ensures none { IfNone result ((self.old ≡ []) × (self.new ≡ [])) }
    {
        loop {
            if let Some(entry) = next_of_run(&mut self.tails, &mut self.run) {
                return Some(entry);
            }
            match self.order.pop_front() {
                Some(run) => self.run = run,
                None => return None,
            }
        }
    }
}

//! How far each session is.
ghost use Rattle.std.specs.Prelude.{◌≡◌, ◌≢◌, ◌<◌, ◌≤◌, ℕ, drop, false, length, slice_index_or, true};
ghost use Rattle.std.specs.List.{All};
ghost use Rattle.zone_threads.specs.Folds.{folded};
ghost use Rattle.zone_threads.specs.Scripts.{IsSilent, TallyOf, after_turn, answers, ends_ticket, fresh, noted, progress_one, ticket_of};

use crate::machine::{Machine, Said, Told};
use std::collections::VecDeque;

/// The numbers of sessions are below this.
pub(crate) const SESSIONS: usize = 65;

/// A ticket of the daemon of the zone of a place.
#[derive(Clone, Copy, Debug, PartialEq, Eq)]
pub struct Ticket {
    pub place: u32,
    pub number: u32,
}

/// How far a session is: how many of its lines are done, and the ticket that it waits for.
#[derive(Clone, Copy, Debug, PartialEq, Eq)]
pub struct Progress {
    pub done: u64,
    pub awaits: Option<Ticket>,
}

impl Progress {
    /// A session that has done nothing.
    pub(crate) fn fresh() -> Self
        ensures { result ≡ fresh }
    {
        Progress {
            done: 0,
            awaits: None,
        }
    }
}

impl Ticket {
    // Whether what a turn of the zone of a place says answers it.
    fn is_answered(self, place: u32, said: Said) -> bool
        ensures { result ≡ answers self place said }
    {
        self.place == place
            && match said {
                Said::Finished(number) => number == self.number,
                Said::Stuck => true,
                _ => false,
            }
    }
}

// The ticket that a line was answered by.
fn ticket_of(place: u32, said: Said) -> Option<Ticket>
    ensures { result ≡ ticket_of place said }
{
    match said {
        Said::Ticket(number) => Some(Ticket { place, number }),
        _ => None,
    }
}

// A session after a turn of the zone of a place.
fn after_turn(progress: Progress, place: u32, said: Said) -> Progress
    ensures { result ≡ after_turn place said progress }
{
    match progress.awaits {
        Some(ticket) if ticket.is_answered(place, said) => Progress {
            awaits: None,
            ..progress
        },
        _ => progress,
    }
}

// A session after an entry of the zone of a place.
#[tactic(auto, unfolding(crate::specs::Scripts::progress_one))]
fn progressed(session: u8, progress: Progress, place: u32, told: Told) -> Progress
    ensures { result ≡ progress_one session progress place told }
{
    if told.session == 0 {
        after_turn(progress, place, told.said)
    } else if told.session == session {
        Progress {
            done: progress.done.wrapping_add(1),
            awaits: ticket_of(place, told.said),
        }
    } else {
        progress
    }
}

// Whether what a turn says may answer a ticket.
fn may_answer(said: Said) -> bool
    ensures { result ≡ false → (n : ℕ) → ends_ticket n said ≡ false }
{
    match said {
        Said::Finished(_) | Said::Stuck => true,
        Said::Idle | Said::Ticket(_) | Said::Other => false,
    }
}

// Notes a line of a session.
#[tactic(auto, unfolding(crate::specs::Scripts::progress_one))]
fn note_line(tally: &mut Vec<Progress>, place: u32, told: Told)
    requires line { told.session ≢ 0 }
    ensures len { length tally.new.items ≡ length tally.old.items }
    ensures each { (s : ℕ) → s < length tally.old.items → slice_index_or tally.new.items s fresh ≡ progress_one s (slice_index_or tally.old.items s fresh) place told }
{
    let session = told.session as usize;
    if session < tally.len() {
        tally[session] = progressed(told.session, tally[session], place, told);
    }
}

// Notes a turn that may answer tickets.
fn note_turn(tally: &mut Vec<Progress>, place: u32, told: Told)
    requires few { length tally.old.items ≤ 65 }
    ensures len { length tally.new.items ≡ length tally.old.items }
    ensures each { (s : ℕ) → s < length tally.old.items → slice_index_or tally.new.items s fresh ≡ progress_one s (slice_index_or tally.old.items s fresh) place told }
{
    for i in 0..tally.len() {
        tally[i] = progressed(i as u8, tally[i], place, told);
    }
}

/// Notes an entry for each session. Only a turn that ends a request, or is stuck, looks at all of them.
#[tactic(auto, unfolding(crate::specs::Scripts::progress_one))]
pub(crate) fn note(tally: &mut Vec<Progress>, place: u32, told: Told)
    requires { length tally.old.items ≤ 65 }
    ensures len { length tally.new.items ≡ length tally.old.items }
    ensures each { (s : ℕ) → s < length tally.old.items → slice_index_or tally.new.items s fresh ≡ progress_one s (slice_index_or tally.old.items s fresh) place told }
{
    if told.session != 0 {
        note_line(tally, place, told);
    } else if may_answer(told.said) {
        note_turn(tally, place, told);
    }
}

// Notes entries of the zone of a place, in their order.
fn note_all<M: Machine>(machine: &M, tally: &mut Vec<Progress>, place: u32, entries: &[M::Entry])
    requires { length tally.old.items ≤ 65 }
    ensures len { length tally.new.items ≡ length tally.old.items }
    ensures each { (t : ℕ → Progress) → All (λ e. M.machine.by e ≡ place) entries.now → TallyOf tally.old.items t → TallyOf tally.new.items (folded (noted M.machine) t entries.now) }
{
    for entry in entries {
        note(tally, place, machine.told(entry));
    }
}

// Whether an entry that tells this changes nothing of how far sessions are: a turn that answers no ticket.
fn is_silent(told: Told) -> bool
    ensures { result ≡ true → (s p : ℕ) (t : Progress) → progress_one s t p told ≡ t }
{
    told.session == 0 && !may_answer(told.said)
}

/// Whether none of some entries changes how far a session is.
pub(crate) fn are_silent<M: Machine>(machine: &M, entries: &[M::Entry]) -> bool
    ensures { result ≡ true → IsSilent M.machine entries.now }
{
    for entry in entries {
        if !is_silent(machine.told(entry)) {
            return false;
        }
    }
    true
}

/// Notes entries of the zone of a place, in their order, unless none of them changes how far a session is.
pub(crate) fn note_some<M: Machine>(
    machine: &M,
    tally: &mut Vec<Progress>,
    place: u32,
    entries: &[M::Entry],
    silent: bool,
)
    requires few { length tally.old.items ≤ 65 }
    requires silent { silent ≡ true → IsSilent M.machine entries.now }
    ensures len { length tally.new.items ≡ length tally.old.items }
    ensures each { (t : ℕ → Progress) → All (λ e. M.machine.by e ≡ place) entries.now → TallyOf tally.old.items t → TallyOf tally.new.items (folded (noted M.machine) t entries.now) }
{
    if !silent {
        note_all(machine, tally, place, entries);
    }
}

/// Notes entries of the zone of a place from this number on.
pub(crate) fn note_rest<M: Machine>(
    machine: &M,
    tally: &mut Vec<Progress>,
    place: u32,
    entries: &VecDeque<M::Entry>,
    from: usize,
)
    requires few { length tally.old.items ≤ 65 }
    requires near { from ≤ length entries.now.items }
    ensures len { length tally.new.items ≡ length tally.old.items }
    ensures each { (t : ℕ → Progress) → All (λ e. M.machine.by e ≡ place) (drop from entries.now.items) → TallyOf tally.old.items t → TallyOf tally.new.items (folded (noted M.machine) t (drop from entries.now.items)) }
{
    for i in from..entries.len() {
        note(tally, place, machine.told(&entries[i]));
    }
}

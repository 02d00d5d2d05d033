//! What sessions do in a zone. A session that isn't there does nothing in it.
ghost use Rattle.indexmap.specs.IndexMap.{get, spare};
ghost use Rattle.std.specs.Prelude.{◌≡◌, ℕ, None, Some, nat_eq, not, option_copied, slice_get, if◌then◌else◌, ◌<◌, ◌≤◌};
ghost use Rattle.zone_cases.specs.Code.Doings.{ends_there, ends_with, is_ended, unless_ended};
ghost use Rattle.zone_cases.specs.State.Edits.{at_session};
ghost use Rattle.zone_pools.specs.Owners.{owner};

use crate::maps::put;
use crate::session::held::HeldEditor;
use indexmap::IndexMap;
use zone_pools::Owners;

/// What a session does in a zone.
#[derive(Drop)]
pub enum Doing {
    /// It waits for a ticket of the zone's daemon.
    Awaits(u32),
    /// It edits the zone's configuration.
    Edits(HeldEditor),
    /// It is logged in with this process; a line that begins with the escape byte and a period ends that.
    LoggedIn(u32, Option<u8>),
    /// It has the zone's console.
    AtConsole(Option<u8>),
}

/// What ends, and with it what sessions do.
#[derive(Clone, Copy)]
pub enum Ended {
    /// A ticket of the zone's daemon, for which sessions wait.
    Ticket(u32),
    /// A process, with which a session may be logged in.
    Process(u32),
    /// All processes of the zone.
    Processes,
    /// The zone's console.
    Console,
}

/// What sessions do, by their numbers.
pub type Doings = IndexMap<u8, Doing>;

impl Doing {
    fn ends_with(&self, ended: Ended) -> bool
        ensures { result ≡ ends_with ended self.now }
    {
        match (self, ended) {
            (Doing::Awaits(awaited), Ended::Ticket(ticket)) => *awaited == ticket,
            (Doing::LoggedIn(own, _), Ended::Process(pid)) => *own == pid,
            (Doing::LoggedIn(_, _), Ended::Processes) => true,
            (Doing::AtConsole(_), Ended::Console) => true,
            _ => false,
        }
    }
}

/// A session does this from now on. There is room for it.
pub fn begin_doing(doings: &mut Doings, number: u8, doing: Doing)
    requires { 0 < spare doings.old }
    ensures { (k : ℕ) → get nat_eq doings.new k ≡ at_session (Some number) k (Some doing) (get nat_eq doings.old k) }
{
    put(doings, number, doing);
}

/// A session does nothing from now on.
pub fn stop_doing(doings: &mut Doings, number: u8)
    ensures { (k : ℕ) → get nat_eq doings.new k ≡ at_session (Some number) k None (get nat_eq doings.old k) }
{
    doings.swap_remove(&number);
}

// The session at an index is nobody's, where what it does ends.
fn free_at(sessions: &mut Owners<u8>, doings: &Doings, at: usize, ended: Ended)
    ensures sessions { (k : ℕ) → owner nat_eq sessions.new k ≡ (if ends_there ended k (slice_get doings.now.entries at) then None else owner nat_eq sessions.old k) }
    ensures room { sessions.old.room ≤ sessions.new.room }
{
    let Some((number, doing)) = doings.get_index(at) else {
        return;
    };
    if doing.ends_with(ended) {
        sessions.give_back(number);
    }
}

/// Whoever did what ends does nothing from now on, and is nobody's session. The others go on.
#[inline(never)]
pub fn end_doings(doings: &mut Doings, sessions: &mut Owners<u8>, ended: Ended)
    ensures doings { (k : ℕ) → get nat_eq doings.new k ≡ unless_ended ended (get nat_eq doings.old k) }
    ensures sessions { (k : ℕ) → owner nat_eq sessions.new k ≡ (if is_ended ended (get nat_eq doings.old k) then None else owner nat_eq sessions.old k) }
    ensures room { (spare doings.old ≤ spare doings.new) × (sessions.old.room ≤ sessions.new.room) }
{
    for at in 0..doings.len() {
        free_at(sessions, doings, at, ended);
    }
    doings.retain(
        |_number: &u8, doing: &mut Doing| -> bool
            ensures { (result ≡ not (ends_with ended doing.old)) × (doing.new ≡ doing.old) }
        { !doing.ends_with(ended) },
    );
}

/// What a session does.
pub fn doing_of(doings: &Doings, number: u8) -> Option<&Doing>
    ensures { option_copied result ≡ get nat_eq doings.now number }
{
    doings.get(&number)
}

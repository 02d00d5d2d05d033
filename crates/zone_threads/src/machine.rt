//! What threads ask of a machine of zones.
ghost use Rattle.std.specs.Prelude.{◌≡◌, ◌≢◌, ℕ, Err, IfOk, IfSome, IsNone, OnErr, OnOk, true};
ghost use Rattle.zone_threads.specs.declared.machine.Stop.TheVariants.{Elsewhere};
ghost use Rattle.zone_threads.specs.Machines.{Definitions, IsLineOf, IsTurnOf, Laws, Stepped, Turned, Unfinished};

use std::alloc::AllocError;

/// What an entry says, as far as sessions look at it.
#[derive(Clone, Copy, Debug, PartialEq, Eq)]
pub enum Said {
    /// The daemon had nothing to do.
    Idle,
    /// A session's line was answered by a ticket.
    Ticket(u32),
    /// The request of a ticket came to its end.
    Finished(u32),
    /// The daemon can go no further.
    Stuck,
    /// Anything else.
    Other,
}

/// Whose an entry is, a session's by its number or with 0 a turn's, and what it says.
#[derive(Clone, Copy, Debug, PartialEq, Eq)]
pub struct Told {
    pub session: u8,
    pub said: Said,
}

/// Why a line was not run.
#[derive(Drop)]
pub enum Stop<F: Drop> {
    /// It belongs to another zone, which has this place.
    Elsewhere(u32),
    Fault(F),
}

/// What a machine of zones is made of. Each zone has a place, counted from 1, and a cell; all zones share one part. Its definitions say
/// what each of these stands for.
pub trait Zoned {
    /// What its states are. No value of it is made: it stands in contracts alone.
    type State;

    /// What one zone has.
    type Cell: Drop + Send;

    /// What zones share.
    type Shared: Drop + Send;

    /// A line of a session.
    type Line: Sync;

    /// What was done, with its reply.
    type Entry: Drop + Send;

    /// What a zone's hooks answer before a turn of its daemon.
    type Heard: Drop + Send;

    /// Why nothing more is done.
    type Fault: Drop + Send;

    ghost machine: { Definitions Self.State Self.Cell Self.Shared Self.Line Self.Entry Self.Heard };
}

/// What threads ask of a machine of zones. Its laws are what they rest on.
pub trait Machine: Zoned {
    /// What holds of a machine that is in use, as that its hooks answer what is known of them.
    ghost ready: { Self → Type 0 };

    /// Whose an entry is, and what it says.
    fn told(&self, entry: &Self::Entry) -> Told
        ensures { result ≡ Self.machine.told entry.now };

    /// Whether the shared part may still be used.
    fn is_sound(&self, shared: &Self::Shared) -> bool
        ensures { result ≡ Self.machine.is_sound shared.now };

    /// Whether a zone's daemon has something to do, by its cell and what zones share.
    fn is_busy(&self, cell: &Self::Cell, shared: &Self::Shared) -> bool
        ensures { Self.machine.is_sound shared.now ≡ true → (p : ℕ) (s : Self.State) → Self.machine.cell_of cell.now (Self.machine.world p s) → Self.machine.shared_of shared.now (Self.machine.common s) → result ≡ Self.machine.is_busy (Self.machine.world p s) };

    /// Asks the hooks of a zone, which are not asked while the shared part is held.
    fn hear(&self, cell: &Self::Cell) -> Self::Heard
        requires ready { ready self.now }
        ensures { Self.machine.heard cell.now result };

    /// The next turn of a zone's daemon, where it needs nothing that zones share.
    fn local_turn(
        &self,
        cell: &mut Self::Cell,
        place: u32,
    ) -> Result<Option<Self::Entry>, AllocError>
        requires ready { ready self.now }
        ensures turn { IfOk result (λ turn. IfSome turn (IsTurnOf Self.machine place)) }
        ensures some { IfOk result (λ turn. IfSome turn (λ e. (w : Self.machine.World) → Self.machine.cell_of cell.old w → Turned Self.machine place cell.new e w)) }
        ensures none { IfOk result (λ turn. IsNone turn → (w : Self.machine.World) → Self.machine.cell_of cell.old w → Self.machine.cell_of cell.new w) }
        ensures err { OnErr result ((w : Self.machine.World) → Self.machine.cell_of cell.old w → Self.machine.cell_of cell.new w) };

    /// A turn of a zone's daemon.
    fn turn(
        &self,
        cell: &mut Self::Cell,
        shared: &mut Self::Shared,
        place: u32,
        heard: Self::Heard,
    ) -> Result<Self::Entry, Self::Fault>
        requires ready { ready self.now }
        requires sound { Self.machine.is_sound shared.old ≡ true }
        requires heard { Self.machine.heard cell.old heard }
        ensures turn { IfOk result (IsTurnOf Self.machine place) }
        ensures step { IfOk result (λ e. (s : Self.State) → Self.machine.cell_of cell.old (Self.machine.world place s) → Self.machine.shared_of shared.old (Self.machine.common s) → Stepped Self.machine place cell.new shared.new e s) }
        ensures err { OnErr result (Unfinished Self.machine place cell.old shared.old cell.new shared.new) };

    /// A line of a session, where it belongs to the zone.
    fn line(
        &self,
        cell: &mut Self::Cell,
        shared: &mut Self::Shared,
        place: u32,
        session: u8,
        line: &Self::Line,
    ) -> Result<Self::Entry, Stop<Self::Fault>>
        requires ready { ready self.now }
        requires sound { Self.machine.is_sound shared.old ≡ true }
        ensures line { IfOk result (IsLineOf Self.machine place session line.now) }
        ensures here { OnOk result ((k : Self.machine.Common) → Self.machine.shared_of shared.old k → Self.machine.place_of k session line.now ≡ place) }
        ensures elsewhere { (p : ℕ) → result ≡ Err (Elsewhere p) → (p ≢ place) × ((k : Self.machine.Common) → Self.machine.shared_of shared.old k → Self.machine.place_of k session line.now ≡ p) }
        ensures step { IfOk result (λ e. (s : Self.State) → Self.machine.cell_of cell.old (Self.machine.world place s) → Self.machine.shared_of shared.old (Self.machine.common s) → Stepped Self.machine place cell.new shared.new e s) }
        ensures err { OnErr result (Unfinished Self.machine place cell.old shared.old cell.new shared.new) };

    ghost laws: { Laws Self.machine };
}

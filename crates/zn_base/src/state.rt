//! The states of a zone.
ghost use Rattle.std.specs.Prelude.{◌≡◌};
ghost use Rattle.zn_base.specs.Moves.{may_move};
ghost use Rattle.zn_base.specs.States.{is_stored, state_text, stored_state};

/// The states of zones(7).
#[derive(Clone, Copy, Debug, PartialEq, Eq)]
pub enum ZoneState {
    Configured,
    Incomplete,
    Installed,
    Ready,
    Running,
    ShuttingDown,
    Down,
}

impl ZoneState {
    /// The state's name in zoneadm(8).
    pub fn text(self) -> &'static [u8]
        ensures { result.now ≡ state_text self }
    {
        match self {
            ZoneState::Configured => b"configured",
            ZoneState::Incomplete => b"incomplete",
            ZoneState::Installed => b"installed",
            ZoneState::Ready => b"ready",
            ZoneState::Running => b"running",
            ZoneState::ShuttingDown => b"shutting_down",
            ZoneState::Down => b"down",
        }
    }

    /// Whether a zone is stored in this state: configured, incomplete or installed. The other states do
    /// not outlast the running system.
    pub fn is_stored(self) -> bool
        ensures { result ≡ is_stored self }
    {
        matches!(
            self,
            ZoneState::Configured | ZoneState::Incomplete | ZoneState::Installed
        )
    }

    /// The stored state that a word names.
    pub fn stored(word: &[u8]) -> Option<ZoneState>
        ensures { result ≡ stored_state word.now }
    {
        if word == ZoneState::Configured.text() {
            Some(ZoneState::Configured)
        } else if word == ZoneState::Incomplete.text() {
            Some(ZoneState::Incomplete)
        } else if word == ZoneState::Installed.text() {
            Some(ZoneState::Installed)
        } else {
            None
        }
    }
}

/// Whether a zone may go from the one state to the other, `None` where no such zone is stored. A restart
/// of the system aside, which takes the four states that aren't stored to installed. It takes no memory.
pub fn may_move(from: Option<ZoneState>, to: Option<ZoneState>) -> bool
    ensures { result ≡ may_move from to }
{
    use ZoneState::{Configured, Down, Incomplete, Installed, Ready, Running, ShuttingDown};
    matches!(
        (from, to),
        (None, Some(Configured))
            | (Some(Configured), None | Some(Incomplete | Installed))
            | (Some(Incomplete), Some(Installed | Configured))
            | (Some(Installed), Some(Incomplete | Configured | Ready))
            | (Some(Ready), Some(Running | ShuttingDown))
            | (Some(Running), Some(ShuttingDown))
            | (Some(ShuttingDown), Some(Down))
            | (Some(Down), Some(Installed))
    )
}

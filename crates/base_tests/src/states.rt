//! The states of a zone.
use zn_base::ZoneState::{
    self, Configured, Down, Incomplete, Installed, Ready, Running, ShuttingDown,
};
use zn_base::may_move;

// Where a zone may go from each state.
const MOVES: &[(Option<ZoneState>, &[Option<ZoneState>])] = &[
    (None, &[Some(Configured)]),
    (Some(Configured), &[None, Some(Incomplete), Some(Installed)]),
    (Some(Incomplete), &[Some(Configured), Some(Installed)]),
    (
        Some(Installed),
        &[Some(Configured), Some(Incomplete), Some(Ready)],
    ),
    (Some(Ready), &[Some(Running), Some(ShuttingDown)]),
    (Some(Running), &[Some(ShuttingDown)]),
    (Some(ShuttingDown), &[Some(Down)]),
    (Some(Down), &[Some(Installed)]),
];

// Whether a zone may go just to these states.
fn moves_to(from: Option<ZoneState>, ways: &[Option<ZoneState>]) -> bool {
    let mut told = true;
    for (to, _) in MOVES {
        told = told && may_move(from, *to) == ways.contains(to);
    }
    told
}

#[test]
fn zones_move_along_the_table(rt: HostRuntime) {
    for (from, ways) in MOVES {
        assert!(rt; moves_to(*from, ways), "{from:?}");
    }
}

const WORDS: &[(ZoneState, &[u8], bool)] = &[
    (Configured, b"configured", true),
    (Incomplete, b"incomplete", true),
    (Installed, b"installed", true),
    (Ready, b"ready", false),
    (Running, b"running", false),
    (ShuttingDown, b"shutting_down", false),
    (Down, b"down", false),
];

#[test]
fn states_have_their_words(rt: HostRuntime) {
    for (state, word, stored) in WORDS {
        let read = ZoneState::stored(word);
        assert!(rt;
            state.text() == *word && state.is_stored() == *stored,
            "{state:?}"
        );
        assert!(rt;
            read == if *stored { Some(*state) } else { None },
            "{state:?}"
        );
    }
}

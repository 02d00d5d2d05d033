//! The events of an input are sorted: what is declared, and what each session types.
ghost use Rattle.std.specs.Prelude.{◌≡◌, ◌++◌, ◌∷◌, [], ℕ, IfOk, List, OnOk, nat_eq, position};
ghost use Rattle.std.specs.List.{All};
ghost use Rattle.live_input.specs.Input.{IsNumbered};
ghost use Rattle.session_records.specs.Records.{typed_by};
ghost use Rattle.session_runs.specs.Far.{Differ, scripts_of};
ghost use Rattle.zone_cases.specs.declared.events.Event.{Event as Event_of};
ghost use Rattle.zones_live.specs.Sorting.{HasNumber, Sorts};

use session_runs::Script;
use std::alloc::{AllocError, Global};
use zn_base::Text;
use zone_cases::{Declaration, Event};

/// What an input declares, in order, and a script for each session that types something.
#[derive(Drop)]
pub struct Sorted {
    pub declared: Vec<Declaration>,
    pub scripts: Vec<Script>,
}

// The place of a session's script, if it has one.
fn place_of(scripts: &[Script], session: u8) -> Option<usize>
    ensures { result ≡ position (λ script. nat_eq script.session session) scripts.now }
{
    scripts.iter().position(|script| script.session == session)
}

// A line more of a session, whose first it may be.
fn put_typed(
    scripts: &mut Vec<Script>,
    alloc: Global,
    session: u8,
    text: Text,
) -> Result<(), AllocError>
    ensures typed { OnOk result ((n : ℕ) → scripts_of scripts.new.items n ≡ scripts_of scripts.old.items n ++ typed_by n (Event.Session session text)) }
    ensures differ { OnOk result (Differ scripts.old.items → Differ scripts.new.items) }
    ensures sessions { OnOk result (IsNumbered (Event.Session session text) → All HasNumber scripts.old.items → All HasNumber scripts.new.items) }
{
    match place_of(scripts, session) {
        Some(at) => Ok(scripts[at].lines.push(text)?),
        None => {
            let mut lines = Vec::new(alloc);
            lines.push(text)?;
            Ok(scripts.push(Script { session, lines })?)
        }
    }
}

// An event more. One that is neither a declaration nor a session's line is left out.
fn put(sorted: &mut Sorted, alloc: Global, event: Event) -> Result<(), AllocError>
    ensures { OnOk result ((events : List Event_of) → Sorts events sorted.old → Sorts (events ++ event ∷ []) sorted.new) }
{
    match event {
        Event::System(what) => Ok(sorted.declared.push(what)?),
        Event::Session { number, text } => put_typed(&mut sorted.scripts, alloc, number, text),
        _ => Ok(()),
    }
}

/// Sorts events. Those that are neither a declaration nor a session's line are left out.
pub(crate) fn sort(alloc: Global, events: Vec<Event>) -> Result<Sorted, AllocError>
    ensures { IfOk result (Sorts events.items) }
{
    let mut sorted = Sorted {
        declared: Vec::new(alloc),
        scripts: Vec::new(alloc),
    };
    for event in events {
        put(&mut sorted, alloc, event)?;
    }
    Ok(sorted)
}

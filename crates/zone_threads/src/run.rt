//! The workers.
ghost use Rattle.std.specs.Prelude.{◌≡◌};
ghost use Rattle.zone_threads.specs.Ends.{IsScript};

use crate::gate::Gate;
use crate::machine::{Machine, Said, Told};
use crate::part::{Outset, Part, Place, Start};
use crate::step::{Ask, Outcome};
use crate::zone::Zone;
use std::sync::atomic::{AtomicBool, Ordering};
use std::sync::{Mutex, Wait};
use zone_turn::Turn;

/// The lines of a session, and its number.
#[derive(Drop)]
pub struct Script<L> {
    pub session: u8,
    pub lines: Vec<L>,
}

// One event under the zone's lock: a local turn where turns are asked for and one is next, else what is asked. After a local turn that
// is stuck its entries are given at once, since its session goes on by it. Once the run is marked as over no event is begun.
fn visit<M: Machine, J: Start<M>, N: Outset<M::Shared>, K: Place, W: Wait, G: Gate>(
    rt: &W,
    machine: &M,
    gate: &G,
    turn: &Turn<Part<M, J, N>>,
    is_over: &AtomicBool,
    zone: &Mutex<Zone<M, J, N, K>>,
    at: u32,
    script: &Script<M::Line>,
    ask: Ask,
) -> Result<Told, Outcome>
    requires ready { M.ready machine.now }
    requires turn { turn.now ≡ K.turn }
    requires script { IsScript J.scripts script.now }
{
    let mut zone = zone.lock(rt);
    gate.pass(rt, at);
    if is_over.load(Ordering::SeqCst) {
        return Err(Outcome::Ended);
    }
    if ask == Ask::Turn {
        match zone.local(machine) {
            Err(_) => {
                is_over.store(true, Ordering::SeqCst);
                return Err(Outcome::Ended);
            }
            Ok(Some(told)) => {
                if told.said == Said::Stuck {
                    let _ = zone.event(
                        rt,
                        machine,
                        turn,
                        is_over,
                        script.session,
                        &script.lines,
                        Ask::Give,
                    );
                }
                return Ok(told);
            }
            Ok(None) => {}
        }
    }
    zone.event(
        rt,
        machine,
        turn,
        is_over,
        script.session,
        &script.lines,
        ask,
    )
}

// What a worker asks next, that is at this line of its script or takes turns.
fn next_ask<L>(takes_turns: bool, number: u64, script: &Script<L>) -> Ask {
    if takes_turns {
        Ask::Turn
    } else if number >= script.lines.len() as u64 {
        Ask::Look
    } else {
        Ask::Line(number)
    }
}

// Whether turns are taken after what was told: where a ticket is open, or its request goes on.
fn goes_on(took_turn: bool, told: Told) -> bool {
    match told.said {
        Said::Ticket(_) => true,
        Said::Other => took_turn,
        Said::Idle | Said::Finished(_) | Said::Stuck => false,
    }
}

/// One worker, which runs the lines of a session from wherever it is: the part tells it how far that is.
pub(crate) fn work<M: Machine, J: Start<M>, N: Outset<M::Shared>, K: Place, W: Wait, G: Gate>(
    rt: &W,
    machine: &M,
    gate: &G,
    turn: &Turn<Part<M, J, N>>,
    is_over: &AtomicBool,
    zones: &[Mutex<Zone<M, J, N, K>>],
    script: &Script<M::Line>,
)
    requires ready { M.ready machine.now }
    requires turn { turn.now ≡ K.turn }
    requires script { IsScript J.scripts script.now }
{
    let mut number: u64 = 0;
    let mut at: u32 = 1;
    let mut takes_turns = false;
    for _ in rt.forever() {
        if at == 0 || at as usize > zones.len() {
            return;
        }
        let ask = next_ask(takes_turns, number, script);
        match visit(
            rt,
            machine,
            gate,
            turn,
            is_over,
            &zones[at as usize - 1],
            at,
            script,
            ask,
        ) {
            Ok(told) => {
                if !takes_turns {
                    number = number.wrapping_add(1);
                }
                takes_turns = goes_on(takes_turns, told);
            }
            Err(Outcome::Ended) => return,
            Err(Outcome::At(done)) => {
                if done == number && done >= script.lines.len() as u64 {
                    return;
                }
                number = done;
            }
            Err(Outcome::Waits(place)) => {
                at = place;
                takes_turns = true;
            }
            Err(Outcome::Elsewhere(place)) => at = place,
            Err(Outcome::Idle) => takes_turns = false,
            Err(Outcome::Given) => {}
        }
    }
}

//! Desks: requests that wait for their turn, and turns that are local.
use crate::boots::PLAIN;
use crate::zone::{Zone, booting, check_turns, web};
use brand_hooks::HookAnswer;
use std::alloc::{AllocError, Global};
use std::process::Abort;
use std::test::Fail;
use zn_base::ZoneState;
use zoneadmd_steps::{Desk, Request, TurnReply, local_case};

// Eight marks wait, of which the first is done, and the others find an incomplete zone.
const MARKED: &str = "began 1 mark
record incomplete
finished 1: ok
finished 2: 81 incomplete
finished 3: 81 incomplete
finished 4: 81 incomplete
finished 5: 81 incomplete
finished 6: 81 incomplete
finished 7: 81 incomplete
finished 8: 81 incomplete
idle
";

fn check_eight<R: Abort + AllocGlobal>(rt: &R, zone: &mut Zone) -> Result<(), Fail> {
    for ticket in 1..=8 {
        assert_eq!(rt; zone.put(rt.alloc(), Request::Mark)?, Some(ticket));
    }
    assert_eq!(rt; zone.put(rt.alloc(), Request::Mark)?, None);
    check_turns(rt, zone, 11, MARKED)
}

#[test]
fn eight_requests_wait_for_their_turn(rt: HostRuntime) -> Result<(), Fail> {
    let mut zone = web(rt.alloc(), ZoneState::Installed, PLAIN)?;
    check_eight(&rt, &mut zone)
}

fn check_new<R: Abort>(rt: &R, desk: &Desk) {
    assert!(rt; desk.is_new());
    assert!(rt; !desk.is_full());
    assert!(rt; desk.active().is_none());
}

#[test]
fn a_new_desk_is_empty(rt: HostRuntime) {
    let desk = Desk::new(rt.alloc());
    check_new(&rt, &desk);
}

// A zone that isn't stored has no turn.
fn check_missing<R: Abort + AllocGlobal>(rt: &R, zone: &mut Zone) -> Result<(), Fail> {
    zone.row = None;
    zone.put(rt.alloc(), Request::Install)?;
    check_turns(rt, zone, 3, "idle\n")
}

#[test]
fn a_zone_that_is_not_stored_is_idle(rt: HostRuntime) -> Result<(), Fail> {
    let mut zone = web(rt.alloc(), ZoneState::Installed, PLAIN)?;
    check_missing(&rt, &mut zone)
}

// `L` for a turn that is local, `-` for any other.
fn locality(alloc: Global, zone: &Zone) -> Result<u8, AllocError> {
    let answer = HookAnswer::Proceed;
    let case = local_case(alloc, &zone.desk, &zone.mounts, &zone.claims, answer)?;
    Ok(if case.is_some() { b'L' } else { b'-' })
}

fn localities(alloc: Global, zone: &mut Zone) -> Result<Vec<u8>, AllocError> {
    let mut out = Vec::new(alloc);
    for _ in 0..16 {
        out.extend_from_slice(&[locality(alloc, zone)?])?;
        if let TurnReply::Idle = zone.turn(alloc)? {
            return Ok(out);
        }
    }
    Ok(out)
}

// Began, hook, zid, limits, devices, root, state, hook, hook, init, state, hook, finished, idle.
const LOCAL_IN_BOOT: &[u8] = b"-L-L-L-LL--L--";

// Began, hook, state, kill, unmount, clear, state, zidback, state, hook, finished, idle.
const LOCAL_IN_HALT: &[u8] = b"-L--L----L--";

fn check_local<R: Abort + AllocGlobal>(rt: &R, zone: &mut Zone) -> Result<(), Fail> {
    zone.put(rt.alloc(), booting(rt.alloc(), b"")?)?;
    let booted = localities(rt.alloc(), zone)?;
    assert_eq!(rt; booted.as_slice(), LOCAL_IN_BOOT);
    zone.put(rt.alloc(), Request::Halt)?;
    let halted = localities(rt.alloc(), zone)?;
    assert_eq!(rt; halted.as_slice(), LOCAL_IN_HALT);
    Ok(())
}

#[test]
fn hooks_limits_and_mounts_are_local(rt: HostRuntime) -> Result<(), Fail> {
    let mut zone = web(rt.alloc(), ZoneState::Installed, PLAIN)?;
    check_local(&rt, &mut zone)
}

//! What is stored in the course of a request.
use crate::boots::PLAIN;
use crate::zone::{Zone, check_has, check_run, check_turns, web};
use std::alloc::{AllocError, Global};
use std::process::Abort;
use std::str;
use std::test::Fail;
use zn_base::{AbsPath, ZoneState};
use zone_config::export;
use zone_pools::{Grant, Pool};
use zoneadmd_steps::Request;

const LATER: &[u8] = b"create -b
set zonepath=/zones/web
set brand=ipkg
set autoboot=true
set pool=p1
set ip-type=shared
";

const REST: &str = "hook before install
record incomplete
copy 1
copy 2
copy 3
copy 4
record installed
hook after install
finished 1: ok
idle
";

fn exported(alloc: Global, zone: &Zone) -> Result<Vec<u8>, Fail> {
    match &zone.row {
        Some(row) => Ok(export(alloc, row.config.as_config())?),
        None => Ok(Vec::new(alloc)),
    }
}

fn check_stored<R: Abort + AllocGlobal>(rt: &R, zone: &Zone, text: &[u8]) -> Result<(), Fail> {
    let stored = exported(rt.alloc(), zone)?;
    assert_eq!(rt; str::from_utf8(&stored)?, str::from_utf8(text)?);
    Ok(())
}

fn check_install<R: Abort + AllocGlobal>(rt: &R, zone: &mut Zone) -> Result<(), Fail> {
    zone.put(rt.alloc(), Request::Install)?;
    check_turns(rt, zone, 1, "began 1 install\n")?;
    zone.commit(rt.alloc(), LATER)?;
    check_turns(rt, zone, 20, REST)?;
    check_has(rt, zone, "stored installed 2 /zones/web\n")?;
    check_stored(rt, zone, LATER)
}

#[test]
fn a_record_keeps_a_later_configuration(rt: HostRuntime) -> Result<(), Fail> {
    let mut zone = web(rt.alloc(), ZoneState::Configured, PLAIN)?;
    check_install(&rt, &mut zone)
}

const MOVED: &[u8] = b"create -b
set zonepath=/pool/web
set brand=ipkg
set autoboot=true
set pool=p1
set ip-type=shared
";

fn moving(alloc: Global, path: &[u8]) -> Result<Request, Fail> {
    Ok(Request::Move(AbsPath::read(alloc, path)?))
}

const MOVED_TURNS: &str = "record moved
finished 1: ok
idle
";

// The move's record is the third.
fn check_move<R: Abort + AllocGlobal>(rt: &R, zone: &mut Zone) -> Result<(), Fail> {
    zone.put(rt.alloc(), moving(rt.alloc(), b"/pool/web")?)?;
    check_turns(rt, zone, 1, "began 1 move\n")?;
    zone.commit(rt.alloc(), LATER)?;
    check_turns(rt, zone, 20, MOVED_TURNS)?;
    check_has(rt, zone, "stored installed 3 /pool/web\n")?;
    check_stored(rt, zone, MOVED)
}

#[test]
fn a_move_changes_the_path_and_the_revision_alone(rt: HostRuntime) -> Result<(), Fail> {
    let mut zone = web(rt.alloc(), ZoneState::Installed, PLAIN)?;
    check_move(&rt, &mut zone)
}

const TAKEN: &str = "failed 1: 82 paths
finished 1: 82 paths
idle
";

fn check_taken<R: Abort + AllocGlobal>(rt: &R, zone: &mut Zone) -> Result<(), Fail> {
    zone.put(rt.alloc(), moving(rt.alloc(), b"/pool/web")?)?;
    check_turns(rt, zone, 1, "began 1 move\n")?;
    zone.stated = Some(Grant::Denied(Pool::Paths));
    check_turns(rt, zone, 20, TAKEN)?;
    check_has(rt, zone, "stored installed 1 /zones/web\n")
}

#[test]
fn a_move_to_a_taken_path_changes_nothing(rt: HostRuntime) -> Result<(), Fail> {
    let mut zone = web(rt.alloc(), ZoneState::Installed, PLAIN)?;
    check_taken(&rt, &mut zone)
}

fn push_net(text: &mut Vec<u8>, length: usize) -> Result<(), AllocError> {
    text.extend_from_slice(b"add net\nset physical=")?;
    for _ in 0..length {
        text.extend_from_slice(b"x")?;
    }
    text.extend_from_slice(b"\nend\n")
}

// An export text of 32,768 bytes: 87 of the plain zone, 32 nets of 1,000 bytes and one of 681, each 26 more than its name.
fn greatest(alloc: Global) -> Result<Vec<u8>, AllocError> {
    let mut text = PLAIN.to_vec(alloc)?;
    for _ in 0..32 {
        push_net(&mut text, 974)?;
    }
    push_net(&mut text, 655)?;
    Ok(text)
}

const TOO_LARGE: &str = "began 1 move
failed 1: 29 32769
finished 1: 29 32769
idle
";

const JUST_FITS: &str = "began 2 move
record moved
finished 2: ok
idle
";

fn check_size<R: Abort + AllocGlobal>(rt: &R, zone: &mut Zone) -> Result<(), Fail> {
    check_run(rt, zone, moving(rt.alloc(), b"/zones/webs")?, TOO_LARGE)?;
    check_has(rt, zone, "stored installed 1 /zones/web\n")?;
    check_run(rt, zone, moving(rt.alloc(), b"/pools/web")?, JUST_FITS)?;
    check_has(rt, zone, "stored installed 2 /pools/web\n")
}

#[test]
fn a_path_with_which_the_text_is_too_long_is_refused(rt: HostRuntime) -> Result<(), Fail> {
    let text = greatest(rt.alloc())?;
    assert_eq!(rt; text.len(), 32768);
    let mut zone = web(rt.alloc(), ZoneState::Installed, &text)?;
    check_size(&rt, &mut zone)
}

fn check_denied<R: Abort + AllocGlobal>(rt: &R, zone: &mut Zone) -> Result<(), Fail> {
    zone.put(rt.alloc(), Request::Mark)?;
    check_turns(rt, zone, 1, "began 1 mark\n")?;
    zone.stated = Some(Grant::Denied(Pool::Store));
    check_turns(
        rt,
        zone,
        20,
        "failed 1: 82 store\nfinished 1: 82 store\nidle\n",
    )?;
    check_has(rt, zone, "stored installed 1 /zones/web\n")
}

#[test]
fn a_full_store_leaves_the_state(rt: HostRuntime) -> Result<(), Fail> {
    let mut zone = web(rt.alloc(), ZoneState::Installed, PLAIN)?;
    check_denied(&rt, &mut zone)
}

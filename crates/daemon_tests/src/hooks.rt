//! Brands that refuse changes, and the order in which a request is checked.
use crate::boots::PLAIN_BOOT;
use crate::zone::{Answering, Zone, booting, branded, check_has, check_run, rebooting};
use brand_hooks::{Change, ChangeKind, HookAnswer};
use std::alloc::Global;
use std::process::Abort;
use std::test::Fail;
use zn_base::{ZoneName, ZoneState};
use zoneadmd_steps::Request;

const fn refusing(before: bool, kind: ChangeKind, code: u8) -> Answering {
    let change = Change { before, kind };
    (b"lx", change, HookAnswer::Refuse(code))
}

const LX: &[u8] = b"create -b
set zonepath=/zones/web
set brand=lx
set autoboot=false
set ip-type=shared
";

fn cloning(alloc: Global) -> Result<Request, Fail> {
    Ok(Request::Clone(ZoneName::read(alloc, b"db")?))
}

// A zone whose brand refuses one change.
fn lx(
    alloc: Global,
    state: ZoneState,
    before: bool,
    kind: ChangeKind,
    code: u8,
) -> Result<Box<Zone>, Fail> {
    branded(alloc, state, LX, &[refusing(before, kind, code)])
}

const CLONE_REFUSED: &str = "began 1 clone
failed 1: 83 7
finished 1: 83 7
idle
";

fn check_clone<R: Abort + AllocGlobal>(rt: &R, zone: &mut Zone) -> Result<(), Fail> {
    check_run(rt, zone, cloning(rt.alloc())?, CLONE_REFUSED)?;
    check_has(rt, zone, "stored configured 1 /zones/web\n")
}

#[test]
fn a_clone_is_refused_before_its_source_is_looked_at(rt: HostRuntime) -> Result<(), Fail> {
    let mut zone = lx(
        rt.alloc(),
        ZoneState::Configured,
        true,
        ChangeKind::Clone,
        7,
    )?;
    check_clone(&rt, &mut zone)
}

const INSTALL_REFUSED: &str = "began 1 install
hook before install
record incomplete
copy 1
copy 2
copy 3
copy 4
record installed
failed 8: 83 99
finished 1: 83 99
idle
";

fn check_install<R: Abort + AllocGlobal>(rt: &R, zone: &mut Zone) -> Result<(), Fail> {
    check_run(rt, zone, Request::Install, INSTALL_REFUSED)?;
    check_has(rt, zone, "stored installed 1 /zones/web\n")
}

#[test]
fn a_refusal_after_an_install_leaves_the_zone_installed(rt: HostRuntime) -> Result<(), Fail> {
    let mut zone = lx(
        rt.alloc(),
        ZoneState::Configured,
        false,
        ChangeKind::Install,
        99,
    )?;
    check_install(&rt, &mut zone)
}

const READY_REFUSED: &str = "began 1 ready
hook before ready
zid 1
limits
devices 0
root
state ready
failed 7: 83 5
finished 1: 83 5
idle
";

const READY: &str = "stored installed 1 /zones/web
active ready
zid 1
mount / root /zones/web/root rw
";

fn check_ready<R: Abort + AllocGlobal>(rt: &R, zone: &mut Zone) -> Result<(), Fail> {
    check_run(rt, zone, Request::Ready, READY_REFUSED)?;
    check_has(rt, zone, READY)
}

#[test]
fn a_refusal_after_ready_undoes_nothing(rt: HostRuntime) -> Result<(), Fail> {
    let mut zone = lx(
        rt.alloc(),
        ZoneState::Installed,
        false,
        ChangeKind::Ready,
        5,
    )?;
    check_ready(&rt, &mut zone)
}

const BOOT_REFUSED: &str = "began 1 boot
hook before ready
zid 1
limits
devices 0
root
state ready
hook after ready
failed 8: 83 6
finished 1: 83 6
idle
";

fn check_boot<R: Abort + AllocGlobal>(rt: &R, zone: &mut Zone) -> Result<(), Fail> {
    check_run(rt, zone, booting(rt.alloc(), b"")?, BOOT_REFUSED)?;
    check_has(rt, zone, READY)
}

#[test]
fn a_refusal_before_a_boot_leaves_the_zone_ready(rt: HostRuntime) -> Result<(), Fail> {
    let mut zone = lx(rt.alloc(), ZoneState::Installed, true, ChangeKind::Boot, 6)?;
    check_boot(&rt, &mut zone)
}

const RUNNING: &str = "stored installed 1 /zones/web
active running
zid 1
process 2 init
mount / root /zones/web/root rw
";

const HALT_REFUSED: &str = "began 2 halt
failed 1: 83 1
finished 2: 83 1
idle
";

fn check_halt<R: Abort + AllocGlobal>(rt: &R, zone: &mut Zone) -> Result<(), Fail> {
    check_run(rt, zone, booting(rt.alloc(), b"")?, PLAIN_BOOT)?;
    check_run(rt, zone, Request::Halt, HALT_REFUSED)?;
    check_has(rt, zone, RUNNING)
}

#[test]
fn a_refusal_before_a_halt_leaves_the_zone_running(rt: HostRuntime) -> Result<(), Fail> {
    let mut zone = lx(rt.alloc(), ZoneState::Installed, true, ChangeKind::Halt, 1)?;
    check_halt(&rt, &mut zone)
}

const REBOOT_REFUSED: &str = "began 2 reboot
hook before halt
state shutting_down
kill 1
unmount /
clear
state down
zidback 1
state installed
failed 9: 83 2
finished 2: 83 2
idle
";

fn check_reboot<R: Abort + AllocGlobal>(rt: &R, zone: &mut Zone) -> Result<(), Fail> {
    check_run(rt, zone, booting(rt.alloc(), b"")?, PLAIN_BOOT)?;
    let request = rebooting(rt.alloc(), b"")?;
    check_run(rt, zone, request, REBOOT_REFUSED)?;
    check_has(rt, zone, "stored installed 1 /zones/web\n")
}

#[test]
fn a_refusal_after_the_halt_of_a_reboot_ends_it(rt: HostRuntime) -> Result<(), Fail> {
    let mut zone = lx(rt.alloc(), ZoneState::Installed, false, ChangeKind::Halt, 2)?;
    check_reboot(&rt, &mut zone)
}

const FLAWED: &[u8] = b"create -b
set zonepath=/zones/web
set brand=lx9
set autoboot=false
set limitpriv=default,!proc_fork
set ip-type=shared
";

const UNLIMITED: &[u8] = b"create -b
set zonepath=/zones/web
set brand=lx
set autoboot=false
set limitpriv=default,!proc_fork
set ip-type=shared
";

// A state, a configuration, and how a boot ends that doesn't begin.
const CHECKED: &[(ZoneState, &[u8], &str)] = &[
    (
        ZoneState::Configured,
        FLAWED,
        "finished 1: 81 configured\nidle\n",
    ),
    (
        ZoneState::Incomplete,
        LX,
        "finished 1: 81 incomplete\nidle\n",
    ),
    (ZoneState::Installed, FLAWED, "finished 1: 85 46\nidle\n"),
    (ZoneState::Installed, UNLIMITED, "finished 1: 84 48\nidle\n"),
];

fn check_refusal<R: Abort + AllocGlobal>(
    rt: &R,
    state: ZoneState,
    text: &[u8],
    wanted: &str,
) -> Result<(), Fail> {
    let brand = refusing(true, ChangeKind::Ready, 1);
    let mut zone = branded(rt.alloc(), state, text, &[brand])?;
    let request = booting(rt.alloc(), b"")?;
    check_run(rt, &mut zone, request, wanted)
}

#[test]
fn the_state_is_checked_first_then_the_configuration(rt: HostRuntime) -> Result<(), Fail> {
    for (state, text, wanted) in CHECKED {
        check_refusal(&rt, *state, text, wanted)?;
    }
    Ok(())
}

//! Boots and halts.
use crate::zone::{Zone, booting, check_has, check_run, check_turns, web};
use datalink_table::ClaimKind;
use std::process::Abort;
use std::test::Fail;
use zn_base::ZoneState;
use zoneadmd_steps::Request;

/// A zone with nothing but its zonepath and its brand.
pub const PLAIN: &[u8] = b"create -b
set zonepath=/zones/web
set brand=ipkg
set autoboot=false
set ip-type=shared
";

/// The turns of its boot.
pub const PLAIN_BOOT: &str = "began 1 boot
hook before ready
zid 1
limits
devices 0
root
state ready
hook after ready
hook before boot
init 2
state running
hook after boot
finished 1: ok
idle
";

// Two file systems, of which the configuration has the greater directory first.
const FULL: &[u8] = b"create -b
set zonepath=/zones/web
set brand=ipkg
set autoboot=false
set ip-type=exclusive
add fs
set dir=/usr/local
set special=/export/local
set type=lofs
end
add fs
set dir=/usr
set special=/usr
set type=lofs
add options [nodevices,ro]
end
add net
set physical=net0
end
add dataset
set name=tank/web
end
";

const FULL_BOOT: &str = "began 1 boot
hook before ready
zid 1
limits
devices 0
root
mount /usr
mount /usr/local
dataset tank/web
link net0
state ready
hook after ready
hook before boot
init 2
state running
hook after boot
finished 1: ok
idle
";

const FULL_RUNNING: &str = "stored installed 1 /zones/web
active running
zid 1
process 2 init
mount / root /zones/web/root rw
mount /usr lofs /usr ro
mount /usr/local lofs /export/local rw
dataset tank/web
link net0
";

// Ten turns, one more for each of three mounts and two claims, and the idle one.
const FULL_HALT: &str = "began 2 halt
hook before halt
state shutting_down
kill 1
unmount /usr/local
unmount /usr
unmount /
release link net0
release dataset tank/web
clear
state down
zidback 1
state installed
hook after halt
finished 2: ok
idle
";

fn boot_full<R: Abort + AllocGlobal>(rt: &R, zone: &mut Zone) -> Result<(), Fail> {
    zone.declare(rt.alloc(), ClaimKind::Link, b"net0")?;
    zone.declare(rt.alloc(), ClaimKind::Dataset, b"tank/web")?;
    check_run(rt, zone, booting(rt.alloc(), b"")?, FULL_BOOT)?;
    check_has(rt, zone, FULL_RUNNING)
}

fn check_full<R: Abort + AllocGlobal>(rt: &R, zone: &mut Zone) -> Result<(), Fail> {
    boot_full(rt, zone)?;
    check_run(rt, zone, Request::Halt, FULL_HALT)?;
    check_has(rt, zone, "stored installed 1 /zones/web\n")
}

#[test]
fn a_halt_undoes_a_boot_the_latest_first(rt: HostRuntime) -> Result<(), Fail> {
    let mut zone = web(rt.alloc(), ZoneState::Installed, FULL)?;
    check_full(&rt, &mut zone)
}

const TO_THE_HELD: &str = "began 2 halt
hook before halt
state shutting_down
kill 1
unmount /usr/local
stuck
stuck
";

const FROM_THE_HELD: &str = "unmount /usr
unmount /
release link net0
";

fn check_held<R: Abort + AllocGlobal>(rt: &R, zone: &mut Zone) -> Result<(), Fail> {
    boot_full(rt, zone)?;
    assert!(rt; zone.hold(rt.alloc(), b"/usr")?);
    zone.put(rt.alloc(), Request::Halt)?;
    check_turns(rt, zone, 7, TO_THE_HELD)?;
    assert!(rt; zone.release(rt.alloc(), b"/usr")?);
    check_turns(rt, zone, 3, FROM_THE_HELD)
}

#[test]
fn a_held_mount_stops_a_halt_until_it_is_released(rt: HostRuntime) -> Result<(), Fail> {
    let mut zone = web(rt.alloc(), ZoneState::Installed, FULL)?;
    check_held(&rt, &mut zone)
}

const READY: &str = "began 1 ready
hook before ready
zid 1
limits
devices 0
root
state ready
hook after ready
finished 1: ok
idle
";

const BOOT_ONCE_READY: &str = "began 2 boot
hook before boot
init 2
state running
hook after boot
finished 2: ok
idle
";

const RUNNING: &str = "stored installed 1 /zones/web
active running
zid 1
process 2 init
mount / root /zones/web/root rw
";

fn check_ready<R: Abort + AllocGlobal>(rt: &R, zone: &mut Zone) -> Result<(), Fail> {
    check_run(rt, zone, Request::Ready, READY)?;
    check_run(rt, zone, booting(rt.alloc(), b"")?, BOOT_ONCE_READY)?;
    check_has(rt, zone, RUNNING)
}

#[test]
fn a_zone_that_is_ready_has_only_to_boot(rt: HostRuntime) -> Result<(), Fail> {
    let mut zone = web(rt.alloc(), ZoneState::Installed, PLAIN)?;
    check_ready(&rt, &mut zone)
}

const HALT_ONCE_READY: &str = "began 2 halt
hook before halt
state shutting_down
kill 0
unmount /
clear
state down
zidback 1
state installed
hook after halt
finished 2: ok
idle
";

fn check_halt_once_ready<R: Abort + AllocGlobal>(rt: &R, zone: &mut Zone) -> Result<(), Fail> {
    check_run(rt, zone, Request::Ready, READY)?;
    check_run(rt, zone, Request::Halt, HALT_ONCE_READY)
}

#[test]
fn a_zone_that_is_ready_is_halted(rt: HostRuntime) -> Result<(), Fail> {
    let mut zone = web(rt.alloc(), ZoneState::Installed, PLAIN)?;
    check_halt_once_ready(&rt, &mut zone)
}

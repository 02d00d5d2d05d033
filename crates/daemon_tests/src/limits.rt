//! The limits, devices and boot arguments that a zone gets from its configuration.
use crate::boots::PLAIN_BOOT;
use crate::zone::{Zone, booting, check_has, check_run, web};
use priv_sets::number_of;
use std::process::Abort;
use std::test::Fail;
use zn_base::ZoneState;
use zoneadmd_steps::Request;

// Of the limits of processes 4 is the least that denies.
const LIMITED: &[u8] = b"create -b
set zonepath=/zones/web
set brand=ipkg
set autoboot=false
set bootargs=\"-m verbose\"
set limitpriv=default,dtrace_user,!net_icmpaccess
set ip-type=shared
set fs-allowed=ufs,pcfs
add rctl
set name=zone.max-processes
add value (priv=privileged,limit=2,action=none)
add value (priv=privileged,limit=5,action=deny)
end
add rctl
set name=zone.max-lwps
add value (priv=privileged,limit=9,action=deny)
add value (priv=privileged,limit=4,action=deny)
end
add rctl
set name=zone.max-shm-ids
add value (priv=privileged,limit=1,action=deny)
end
";

const LIMITED_RUNNING: &str = "stored installed 1 /zones/web
active running
zid 1
fs-allowed ufs,pcfs
bootargs -m verbose
process 2 init
mount / root /zones/web/root rw
";

fn may(zone: &Zone, name: &[u8]) -> bool {
    match (zone.kernel.privs(2), number_of(name)) {
        (Some(set), Some(number)) => set.has(number),
        _ => false,
    }
}

fn check_privileges<R: Abort + AllocGlobal>(rt: &R, zone: &Zone) {
    assert!(rt; may(zone, b"sys_mount"));
    assert!(rt; may(zone, b"dtrace_user"));
    assert!(rt; !may(zone, b"net_icmpaccess"));
    assert!(rt; !may(zone, b"dtrace_proc"));
}

// Three more processes may enter, and a fourth may not.
fn check_processes<R: Abort + AllocGlobal>(rt: &R, zone: &mut Zone) -> Result<(), Fail> {
    for pid in [3, 4, 5] {
        assert!(rt; !zone.kernel.at_limit());
        assert!(rt; zone.enter(rt.alloc(), pid)?);
    }
    assert!(rt; zone.kernel.at_limit());
    assert!(rt; !zone.enter(rt.alloc(), 6)?);
    Ok(())
}

fn boot_limited<R: Abort + AllocGlobal>(rt: &R, zone: &mut Zone) -> Result<(), Fail> {
    check_run(rt, zone, booting(rt.alloc(), b"")?, PLAIN_BOOT)
}

fn check_limits<R: Abort + AllocGlobal>(rt: &R, zone: &mut Zone) -> Result<(), Fail> {
    boot_limited(rt, zone)?;
    check_has(rt, zone, LIMITED_RUNNING)?;
    check_privileges(rt, zone);
    Ok(())
}

#[test]
fn a_boot_gives_the_limits_of_the_configuration(rt: HostRuntime) -> Result<(), Fail> {
    let mut zone = web(rt.alloc(), ZoneState::Installed, LIMITED)?;
    check_limits(&rt, &mut zone)
}

fn check_most<R: Abort + AllocGlobal>(rt: &R, zone: &mut Zone) -> Result<(), Fail> {
    boot_limited(rt, zone)?;
    check_processes(rt, zone)
}

#[test]
fn the_least_limit_that_denies_is_that_of_processes(rt: HostRuntime) -> Result<(), Fail> {
    let mut zone = web(rt.alloc(), ZoneState::Installed, LIMITED)?;
    check_most(&rt, &mut zone)
}

const STATED_ARGUMENTS: &str = "stored installed 1 /zones/web
active running
zid 1
fs-allowed ufs,pcfs
bootargs -s -m quiet
process 2 init
mount / root /zones/web/root rw
";

fn check_arguments<R: Abort + AllocGlobal>(rt: &R, zone: &mut Zone) -> Result<(), Fail> {
    let request = booting(rt.alloc(), b"-s -m quiet")?;
    check_run(rt, zone, request, PLAIN_BOOT)?;
    check_has(rt, zone, STATED_ARGUMENTS)
}

#[test]
fn the_arguments_of_a_boot_stand_for_the_configured_ones(rt: HostRuntime) -> Result<(), Fail> {
    let mut zone = web(rt.alloc(), ZoneState::Installed, LIMITED)?;
    check_arguments(&rt, &mut zone)
}

const DEVICES: &[u8] = b"create -b
set zonepath=/zones/web
set brand=ipkg
set autoboot=false
set ip-type=shared
add device
set match=/dev/dsk/*
end
add device
set match=/dev/null
end
add device
set match=/dev/dsk/c1
end
";

const DEVICES_READY: &str = "began 1 ready
hook before ready
zid 1
limits
devices 3
root
state ready
hook after ready
finished 1: ok
idle
";

const DEVICES_HAD: &str = "stored installed 1 /zones/web
active ready
zid 1
device /dev/null
device /dev/dsk/c0
device /dev/dsk/c1
mount / root /zones/web/root rw
";

const DECLARED: &[&[u8]] = &[
    b"/dev/null",
    b"/dev/zero",
    b"/dev/dsk/c0",
    b"/dev/rdsk/c0",
    b"/dev/dsk/c1",
];

// A device that two patterns match is counted once.
fn check_devices<R: Abort + AllocGlobal>(rt: &R, zone: &mut Zone) -> Result<(), Fail> {
    for path in DECLARED {
        zone.declare_device(rt.alloc(), path)?;
    }
    check_run(rt, zone, Request::Ready, DEVICES_READY)?;
    check_has(rt, zone, DEVICES_HAD)
}

#[test]
fn a_zone_has_the_declared_devices_that_its_patterns_match(rt: HostRuntime) -> Result<(), Fail> {
    let mut zone = web(rt.alloc(), ZoneState::Installed, DEVICES)?;
    check_devices(&rt, &mut zone)
}

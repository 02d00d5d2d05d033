//! Reboots: a halt, and a boot of the zone as it is stored then.
use crate::boots::{PLAIN, PLAIN_BOOT};
use crate::zone::{Zone, booting, check_has, check_run, check_turns, rebooting, web};
use std::process::Abort;
use std::test::Fail;
use zn_base::ZoneState;

const HALT_PART: &str = "began 2 reboot
hook before halt
state shutting_down
kill 1
unmount /
clear
state down
zidback 1
state installed
hook after halt
";

const WITH_USR: &[u8] = b"create -b
set zonepath=/zones/web
set brand=ipkg
set autoboot=false
set ip-type=shared
add fs
set dir=/usr
set special=/usr
set type=lofs
end
";

const AGAIN: &str = "began 2 boot
hook before ready
zid 2
limits
devices 0
root
mount /usr
state ready
hook after ready
hook before boot
init 3
state running
hook after boot
finished 2: ok
idle
";

const UP_AGAIN: &str = "stored installed 2 /zones/web
active running
zid 2
bootargs -s
process 3 init
mount / root /zones/web/root rw
mount /usr lofs /usr rw
";

// The zone runs, and a reboot of it has come to the end of its halt part, while another configuration was stored.
fn halt_part<R: Abort + AllocGlobal>(rt: &R, zone: &mut Zone, later: &[u8]) -> Result<(), Fail> {
    check_run(rt, zone, booting(rt.alloc(), b"")?, PLAIN_BOOT)?;
    zone.put(rt.alloc(), rebooting(rt.alloc(), b"-s")?)?;
    zone.commit(rt.alloc(), later)?;
    check_turns(rt, zone, 10, HALT_PART)
}

fn check_again<R: Abort + AllocGlobal>(rt: &R, zone: &mut Zone) -> Result<(), Fail> {
    halt_part(rt, zone, WITH_USR)?;
    check_turns(rt, zone, 20, AGAIN)?;
    check_has(rt, zone, UP_AGAIN)
}

#[test]
fn a_reboot_boots_the_zone_as_it_is_stored_then(rt: HostRuntime) -> Result<(), Fail> {
    let mut zone = web(rt.alloc(), ZoneState::Installed, PLAIN)?;
    check_again(&rt, &mut zone)
}

const UNKNOWN_BRAND: &[u8] = b"create -b
set zonepath=/zones/web
set brand=lx9
set autoboot=false
set ip-type=shared
";

const PROHIBITED: &[u8] = b"create -b
set zonepath=/zones/web
set brand=ipkg
set autoboot=false
set limitpriv=all
set ip-type=shared
";

fn check_not_again<R: Abort + AllocGlobal>(
    rt: &R,
    zone: &mut Zone,
    later: &[u8],
    wanted: &str,
) -> Result<(), Fail> {
    halt_part(rt, zone, later)?;
    check_turns(rt, zone, 20, wanted)?;
    check_has(rt, zone, "stored installed 2 /zones/web\n")
}

const NOT_VERIFIED: &str = "finished 2: 85 46\nidle\n";

#[test]
fn a_reboot_ends_where_the_brand_is_unknown_then(rt: HostRuntime) -> Result<(), Fail> {
    let mut zone = web(rt.alloc(), ZoneState::Installed, PLAIN)?;
    check_not_again(&rt, &mut zone, UNKNOWN_BRAND, NOT_VERIFIED)
}

const NOT_LIMITED: &str = "finished 2: 84 49\nidle\n";

#[test]
fn a_reboot_ends_where_the_limit_set_is_none_then(rt: HostRuntime) -> Result<(), Fail> {
    let mut zone = web(rt.alloc(), ZoneState::Installed, PLAIN)?;
    check_not_again(&rt, &mut zone, PROHIBITED, NOT_LIMITED)
}

fn check_incomplete<R: Abort + AllocGlobal>(rt: &R, zone: &mut Zone) -> Result<(), Fail> {
    halt_part(rt, zone, WITH_USR)?;
    zone.put_state(ZoneState::Incomplete)?;
    check_turns(rt, zone, 20, "finished 2: 81 incomplete\nidle\n")?;
    check_has(rt, zone, "stored incomplete 2 /zones/web\n")
}

#[test]
fn a_reboot_ends_where_the_zone_is_incomplete_then(rt: HostRuntime) -> Result<(), Fail> {
    let mut zone = web(rt.alloc(), ZoneState::Installed, PLAIN)?;
    check_incomplete(&rt, &mut zone)
}

//! Claims that are denied, and how what was done until then is undone.
use crate::zone::{Zone, check_has, check_run, check_turns, web};
use datalink_table::{ClaimCell, ClaimKind};
use std::alloc::Global;
use std::process::Abort;
use std::test::Fail;
use zn_base::{Text, ZoneName, ZoneState};
use zone_pools::{Grant, Pool};
use zoneadmd_steps::Request;

const THREE_LINKS: &[u8] = b"create -b
set zonepath=/zones/web
set brand=ipkg
set autoboot=false
set ip-type=exclusive
add net
set physical=net1
end
add net
set physical=net2
end
add net
set physical=net0
end
";

const UNDONE: &str = "began 1 ready
hook before ready
zid 1
limits
devices 0
root
link net1
link net2
failed 8: 82 links
undone link net2
undone link net1
undone root
undone devices 0
undone limits
undone zid 1
finished 1: 82 links
idle
";

const NOTHING_KEPT: &str = "stored installed 1 /zones/web\n";

fn check_links<R: Abort + AllocGlobal>(rt: &R, zone: &mut Zone) -> Result<(), Fail> {
    zone.declare(rt.alloc(), ClaimKind::Link, b"net1")?;
    zone.declare(rt.alloc(), ClaimKind::Link, b"net2")?;
    check_run(rt, zone, Request::Ready, UNDONE)?;
    check_has(rt, zone, NOTHING_KEPT)
}

#[test]
fn a_link_that_is_not_declared_fails_and_all_is_undone(rt: HostRuntime) -> Result<(), Fail> {
    let mut zone = web(rt.alloc(), ZoneState::Installed, THREE_LINKS)?;
    check_links(&rt, &mut zone)
}

// Another zone claims a link.
fn claim_for_other(alloc: Global, zone: &mut Zone, link: &[u8]) -> Result<bool, Fail> {
    let name = ZoneName::read(alloc, b"db")?;
    let mut cell = ClaimCell::new(alloc);
    let item = Text::read(alloc, link)?;
    let came = cell.claim(alloc, &mut zone.items, ClaimKind::Link, item, &name);
    Ok(came.is_ok())
}

fn check_other<R: Abort + AllocGlobal>(rt: &R, zone: &mut Zone) -> Result<(), Fail> {
    zone.declare(rt.alloc(), ClaimKind::Link, b"net0")?;
    assert!(rt; claim_for_other(rt.alloc(), zone, b"net0")?);
    check_links(rt, zone)
}

#[test]
fn a_link_of_another_zone_fails_as_well(rt: HostRuntime) -> Result<(), Fail> {
    let mut zone = web(rt.alloc(), ZoneState::Installed, THREE_LINKS)?;
    check_other(&rt, &mut zone)
}

const MOUNT_AND_LINK: &[u8] = b"create -b
set zonepath=/zones/web
set brand=ipkg
set autoboot=false
set ip-type=exclusive
add fs
set dir=/usr
set special=/usr
set type=lofs
end
add net
set physical=net0
end
";

const TO_THE_MOUNT: &str = "began 1 ready
hook before ready
zid 1
limits
devices 0
root
mount /usr
";

const HELD: &str = "failed 7: 82 links
stuck
stuck
";

const RELEASED: &str = "undone mount /usr
undone root
undone devices 0
undone limits
undone zid 1
finished 1: 82 links
idle
";

fn check_held<R: Abort + AllocGlobal>(rt: &R, zone: &mut Zone) -> Result<(), Fail> {
    zone.put(rt.alloc(), Request::Ready)?;
    check_turns(rt, zone, 7, TO_THE_MOUNT)?;
    assert!(rt; zone.hold(rt.alloc(), b"/usr")?);
    check_turns(rt, zone, 3, HELD)?;
    assert!(rt; zone.release(rt.alloc(), b"/usr")?);
    check_turns(rt, zone, 20, RELEASED)?;
    check_has(rt, zone, NOTHING_KEPT)
}

#[test]
fn a_held_mount_is_undone_once_it_is_released(rt: HostRuntime) -> Result<(), Fail> {
    let mut zone = web(rt.alloc(), ZoneState::Installed, MOUNT_AND_LINK)?;
    check_held(&rt, &mut zone)
}

const ADDRESSES: &[u8] = b"create -b
set zonepath=/zones/web
set brand=ipkg
set autoboot=false
set ip-type=shared
add net
set address=10.0.0.10/24
set physical=net0
end
";

const ADDRESS_READY: &str = "began 1 ready
hook before ready
zid 1
limits
devices 0
root
address 10.0.0.10
state ready
hook after ready
finished 1: ok
idle
";

const ADDRESS_KEPT: &str = "stored installed 1 /zones/web
active ready
zid 1
mount / root /zones/web/root rw
address 10.0.0.10
";

fn check_address<R: Abort + AllocGlobal>(rt: &R, zone: &mut Zone) -> Result<(), Fail> {
    zone.declare(rt.alloc(), ClaimKind::Address, b"10.0.0.10")?;
    check_run(rt, zone, Request::Ready, ADDRESS_READY)?;
    check_has(rt, zone, ADDRESS_KEPT)
}

#[test]
fn a_shared_zone_claims_addresses_without_their_prefix(rt: HostRuntime) -> Result<(), Fail> {
    let mut zone = web(rt.alloc(), ZoneState::Installed, ADDRESSES)?;
    check_address(&rt, &mut zone)
}

const NO_ZID: &str = "failed 2: 82 zids
finished 1: 82 zids
idle
";

fn check_zids<R: Abort + AllocGlobal>(rt: &R, zone: &mut Zone) -> Result<(), Fail> {
    zone.put(rt.alloc(), Request::Ready)?;
    check_turns(rt, zone, 2, "began 1 ready\nhook before ready\n")?;
    zone.stated = Some(Grant::Denied(Pool::Zids));
    check_turns(rt, zone, 20, NO_ZID)?;
    check_has(rt, zone, NOTHING_KEPT)
}

#[test]
fn without_an_id_nothing_is_to_be_undone(rt: HostRuntime) -> Result<(), Fail> {
    let mut zone = web(rt.alloc(), ZoneState::Installed, ADDRESSES)?;
    check_zids(&rt, &mut zone)
}

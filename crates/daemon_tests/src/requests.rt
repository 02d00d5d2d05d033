//! Each request that changes what is stored, where nothing refuses it.
use crate::boots::PLAIN;
use crate::zone::{Zone, check_has, check_run, check_turns, web};
use std::alloc::Global;
use std::process::Abort;
use std::test::Fail;
use zn_base::{ZoneName, ZoneState};
use zone_pools::{Grant, Pool};
use zoneadmd_steps::{Request, RequestKind};

const CONFIGURED: &str = "stored configured 1 /zones/web\n";

const INCOMPLETE: &str = "stored incomplete 1 /zones/web\n";

const INSTALLED: &str = "stored installed 1 /zones/web\n";

const INSTALL: &str = "began 1 install
hook before install
record incomplete
copy 1
copy 2
copy 3
copy 4
record installed
hook after install
finished 1: ok
idle
";

const UNINSTALL: &str = "began 1 uninstall
hook before uninstall
record incomplete
erase 1
erase 2
erase 3
erase 4
record configured
hook after uninstall
finished 1: ok
idle
";

const UNINSTALL_INCOMPLETE: &str = "began 1 uninstall
hook before uninstall
erase 1
erase 2
erase 3
erase 4
record configured
hook after uninstall
finished 1: ok
idle
";

const CLONE: &str = "began 1 clone
hook before clone
source db
record incomplete
copy 1
copy 2
copy 3
copy 4
record installed
hook after clone
finished 1: ok
idle
";

const ATTACH: &str = "began 1 attach
hook before attach
record installed
hook after attach
finished 1: ok
idle
";

const DETACH: &str = "began 1 detach
hook before detach
record configured
hook after detach
finished 1: ok
idle
";

const MARK: &str = "began 1 mark
record incomplete
finished 1: ok
idle
";

// What is asked in a state, what its turns report, and what is stored then.
const ASKED: &[(RequestKind, ZoneState, &str, &str)] = &[
    (
        RequestKind::Install,
        ZoneState::Configured,
        INSTALL,
        INSTALLED,
    ),
    (
        RequestKind::Uninstall,
        ZoneState::Installed,
        UNINSTALL,
        CONFIGURED,
    ),
    (
        RequestKind::Uninstall,
        ZoneState::Incomplete,
        UNINSTALL_INCOMPLETE,
        CONFIGURED,
    ),
    (RequestKind::Clone, ZoneState::Configured, CLONE, INSTALLED),
    (
        RequestKind::Attach,
        ZoneState::Configured,
        ATTACH,
        INSTALLED,
    ),
    (
        RequestKind::Detach,
        ZoneState::Installed,
        DETACH,
        CONFIGURED,
    ),
    (RequestKind::Mark, ZoneState::Installed, MARK, INCOMPLETE),
    (
        RequestKind::Install,
        ZoneState::Installed,
        "finished 1: 81 installed\nidle\n",
        INSTALLED,
    ),
    (
        RequestKind::Mark,
        ZoneState::Incomplete,
        "finished 1: 81 incomplete\nidle\n",
        INCOMPLETE,
    ),
    (
        RequestKind::Halt,
        ZoneState::Installed,
        "finished 1: 81 installed\nidle\n",
        INSTALLED,
    ),
];

// A request of a kind, which is copied as it would be on its desk.
fn request_of(alloc: Global, kind: RequestKind) -> Result<Request, Fail> {
    let request = match kind {
        RequestKind::Uninstall => Request::Uninstall,
        RequestKind::Clone => Request::Clone(ZoneName::read(alloc, b"db")?),
        RequestKind::Attach => Request::Attach,
        RequestKind::Detach => Request::Detach,
        RequestKind::Mark => Request::Mark,
        RequestKind::Halt => Request::Halt,
        _ => Request::Install,
    };
    Ok(request.copy(alloc)?)
}

fn check_asked<R: Abort + AllocGlobal>(
    rt: &R,
    kind: RequestKind,
    state: ZoneState,
    wanted: &str,
    stored: &str,
) -> Result<(), Fail> {
    let mut zone = web(rt.alloc(), state, PLAIN)?;
    let request = request_of(rt.alloc(), kind)?;
    assert!(rt; request.kind() == kind);
    check_run(rt, &mut zone, request, wanted)?;
    check_has(rt, &zone, stored)
}

#[test]
fn each_request_takes_its_steps(rt: HostRuntime) -> Result<(), Fail> {
    for (kind, state, wanted, stored) in ASKED {
        check_asked(&rt, *kind, *state, wanted, stored)?;
    }
    Ok(())
}

const NO_SOURCE: &str = "failed 2: 82 source
finished 1: 82 source
idle
";

fn check_source<R: Abort + AllocGlobal>(rt: &R, zone: &mut Zone) -> Result<(), Fail> {
    zone.put(rt.alloc(), request_of(rt.alloc(), RequestKind::Clone)?)?;
    check_turns(rt, zone, 2, "began 1 clone\nhook before clone\n")?;
    zone.stated = Some(Grant::Denied(Pool::Source));
    check_turns(rt, zone, 20, NO_SOURCE)?;
    check_has(rt, zone, CONFIGURED)
}

#[test]
fn a_clone_without_a_source_fails_once_the_brand_was_asked(rt: HostRuntime) -> Result<(), Fail> {
    let mut zone = web(rt.alloc(), ZoneState::Configured, PLAIN)?;
    check_source(&rt, &mut zone)
}

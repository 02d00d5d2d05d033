//! Want of memory: a turn that runs out of it leaves all as it was, and is taken again.
use crate::holdings::what_it_has;
use crate::printer::push_turn;
use crate::zone::{Zone, booting, web};
use datalink_table::ClaimKind;
use std::alloc::{AllocError, Global};
use std::process::Abort;
use std::str;
use std::test::Fail;
use zn_base::ZoneState;
use zoneadmd_steps::{Request, TurnReply};

const TEXT: &[u8] = b"create -b
set zonepath=/zones/web
set brand=ipkg
set autoboot=false
set bootargs=\"-m verbose\"
set ip-type=exclusive
add fs
set dir=/usr
set special=/usr
set type=lofs
end
add net
set physical=net0
end
add device
set match=/dev/*
end
";

const REPORTED: &str = "began 1 boot
hook before ready
zid 1
limits
devices 1
root
mount /usr
link net0
state ready
hook after ready
hook before boot
init 2
state running
hook after boot
finished 1: ok
began 2 halt
hook before halt
state shutting_down
kill 1
unmount /usr
unmount /
release link net0
clear
state down
zidback 1
state installed
hook after halt
finished 2: ok
began 3 uninstall
hook before uninstall
record incomplete
erase 1
erase 2
erase 3
erase 4
record configured
hook after uninstall
finished 3: ok
idle
";

// What a zone has, told again where memory ran out.
fn surely(alloc: Global, zone: &Zone) -> Result<Vec<u8>, AllocError> {
    match what_it_has(alloc, zone) {
        Ok(told) => Ok(told),
        Err(_) => what_it_has(alloc, zone),
    }
}

// One turn. Where memory runs out in it, it is taken again, and `?` is answered if something was changed before.
fn turn_again(alloc: Global, zone: &mut Zone) -> Result<Option<TurnReply>, Fail> {
    let before = surely(alloc, zone)?;
    if let Ok(reply) = zone.turn(alloc) {
        return Ok(Some(reply));
    }
    if surely(alloc, zone)?.as_slice() != before.as_slice() {
        return Ok(None);
    }
    Ok(Some(zone.turn(alloc)?))
}

fn line_of(alloc: Global, reply: &TurnReply) -> Result<Vec<u8>, AllocError> {
    let mut out = Vec::new(alloc);
    push_turn(&mut out, reply)?;
    out.extend_from_slice(b"\n")?;
    Ok(out)
}

fn put_line(alloc: Global, out: &mut Vec<u8>, reply: &TurnReply) -> Result<(), AllocError> {
    let line = match line_of(alloc, reply) {
        Ok(line) => line,
        Err(_) => line_of(alloc, reply)?,
    };
    match out.reserve(line.len()) {
        Ok(()) => {}
        Err(_) => out.reserve(line.len())?,
    }
    out.extend_from_slice(&line)
}

fn reported(alloc: Global, zone: &mut Zone) -> Result<Vec<u8>, Fail> {
    let mut out = Vec::new(alloc);
    for _ in 0..64 {
        let Some(reply) = turn_again(alloc, zone)? else {
            out.extend_from_slice(b"CHANGED\n")?;
            return Ok(out);
        };
        put_line(alloc, &mut out, &reply)?;
        if let TurnReply::Idle = reply {
            return Ok(out);
        }
    }
    Ok(out)
}

fn check_reported<R: Abort + AllocGlobal>(rt: &R, zone: &mut Zone) -> Result<(), Fail> {
    zone.declare(rt.alloc(), ClaimKind::Link, b"net0")?;
    zone.declare_device(rt.alloc(), b"/dev/null")?;
    zone.put(rt.alloc(), booting(rt.alloc(), b"")?)?;
    zone.put(rt.alloc(), Request::Halt)?;
    zone.put(rt.alloc(), Request::Uninstall)?;
    let told = reported(rt.alloc(), zone)?;
    assert_eq!(rt; str::from_utf8(&told)?, REPORTED);
    Ok(())
}

#[test]
fn want_of_memory_leaves_the_zone_as_it_was(rt: HostRuntime) -> Result<(), Fail> {
    let mut zone = web(rt.alloc(), ZoneState::Installed, TEXT)?;
    check_reported(&rt, &mut zone)
}

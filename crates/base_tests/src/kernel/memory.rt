//! Want of memory: a call that finds none changes nothing, and does its work when it is made again.
use crate::kernel::zone::{DONE, MEMORY, Zone};
use priv_sets::limit_of;
use std::alloc::Global;
use std::test::Fail;
use zn_base::Text;
use zone_pools::Grant;

// Whether nothing has a number, and the pool gives it next.
fn is_next(zone: &Zone, pid: u32) -> bool {
    zone.shared.pid_free(pid)
        && zone.cell.privs(pid).is_none()
        && zone.shared.next_pid() == Grant::Number(pid)
}

// Each of these does something, or finds all as before where memory runs out, and then does it.
fn activates(alloc: Global, zone: &mut Zone) -> bool {
    let came = zone.activate(alloc, 1);
    if came != MEMORY {
        return came == DONE;
    }
    let same = zone.cell.zid_of() == None && zone.shared.next_zid() == Grant::Number(1);
    same && zone.activate(alloc, 1) == DONE
}

fn enters(alloc: Global, zone: &mut Zone) -> Result<bool, Fail> {
    let came = zone.enter(alloc, b"init", true, 2)?;
    if came != MEMORY {
        return Ok(came == DONE);
    }
    Ok(is_next(zone, 2) && zone.enter(alloc, b"init", true, 2)? == DONE)
}

fn forks(alloc: Global, zone: &mut Zone, pid: u32) -> Result<bool, Fail> {
    let came = zone.fork(alloc, 2, b"x", pid)?;
    if came != MEMORY {
        return Ok(came == DONE);
    }
    Ok(is_next(zone, pid) && zone.fork(alloc, 2, b"x", pid)? == DONE)
}

fn declares(alloc: Global, zone: &mut Zone) -> Result<bool, Fail> {
    let came = zone.declare(alloc, b"/dev/a")?;
    if came != MEMORY {
        return Ok(came == DONE);
    }
    Ok(zone.shared.devices().is_empty() && zone.declare(alloc, b"/dev/a")? == DONE)
}

fn gives(alloc: Global, zone: &mut Zone) -> Result<bool, Fail> {
    let patterns = [Text::read(alloc, b"/dev/*")?];
    match zone.give_devices(alloc, &patterns) {
        Ok(count) => Ok(count == 1),
        Err(_) => Ok(zone.has_devices(alloc, &[])? && zone.give_devices(alloc, &patterns)? == 1),
    }
}

fn all_are_done(alloc: Global, zone: &mut Zone) -> Result<bool, Fail> {
    if !activates(alloc, zone) {
        return Ok(false);
    }
    zone.cell
        .set_limits(limit_of(b"default")?, None, Text::empty(alloc));
    if !enters(alloc, zone)? {
        return Ok(false);
    }
    for pid in 3..40 {
        if !forks(alloc, zone, pid)? {
            return Ok(false);
        }
    }
    Ok(declares(alloc, zone)? && gives(alloc, zone)?)
}

#[test]
fn want_of_memory_changes_nothing(rt: HostRuntime) -> Result<(), Fail> {
    let mut zone = Zone::new(rt.alloc())?;
    assert!(rt; all_are_done(rt.alloc(), &mut zone)?);
    Ok(())
}

//! The id of a zone in the kernel, with the limits and the texts that it has.
use crate::kernel::zone::{DONE, Zone};
use priv_sets::PrivSet;
use std::alloc::Global;
use std::test::Fail;
use zn_base::Text;
use zone_pools::Grant;

// Whether the zone's id has these boot arguments and types of file systems.
fn has_texts(zone: &Zone, args: &[u8], types: &[u8]) -> bool {
    match (zone.cell.bootargs_of(), zone.cell.fs_allowed_of()) {
        (Some(set), Some(allowed)) => set.bytes() == args && allowed.bytes() == types,
        _ => false,
    }
}

fn is_without_id(zone: &Zone) -> bool {
    zone.cell.is_empty()
        && zone.cell.zid_of() == None
        && zone.cell.bootargs_of().is_none()
        && zone.cell.fs_allowed_of().is_none()
        && !zone.cell.at_limit()
}

fn sets(alloc: Global, zone: &mut Zone) -> Result<bool, Fail> {
    let types = Text::read(alloc, b"nfs")?;
    let args = Text::read(alloc, b"-s")?;
    zone.cell.set_limits(PrivSet::none(), Some(0), types);
    zone.cell.set_bootargs(args);
    Ok(zone.cell.at_limit() && has_texts(zone, b"-s", b"nfs"))
}

// The id that a zone gives back, if it has one.
fn given_back(zone: &mut Zone) -> Option<u32> {
    if zone.cell.zid_of().is_none() {
        return None;
    }
    Some(zone.cell.deactivate(&mut zone.shared))
}

fn clears(alloc: Global, zone: &mut Zone) -> bool {
    zone.cell.clear(alloc);
    !zone.cell.at_limit() && has_texts(zone, b"", b"") && zone.cell.zid_of() == Some(4)
}

// Whether an id comes, has what was set, is cleared and goes.
fn ids_come_and_go(alloc: Global, zone: &mut Zone) -> Result<bool, Fail> {
    Ok(
        is_without_id(zone)
            && given_back(zone) == None
            && zone.activate(alloc, 4) == DONE
            && !zone.cell.is_empty()
            && !zone.shared.zid_free(4)
            && sets(alloc, zone)?
            && clears(alloc, zone)
            && given_back(zone) == Some(4)
            && zone.shared.zid_free(4)
            && is_without_id(zone),
    )
}

#[test]
fn an_id_has_what_was_set(rt: HostRuntime) -> Result<(), Fail> {
    let mut zone = Zone::new(rt.alloc())?;
    assert!(rt; ids_come_and_go(rt.alloc(), &mut zone)?);
    Ok(())
}

// Whether an id's limits go, then the id, and then nothing more.
fn gives_up(alloc: Global, zone: &mut Zone) -> Result<bool, Fail> {
    let set = sets(alloc, zone)?;
    zone.cell.clear_limits(alloc);
    let cleared = !zone.cell.at_limit() && has_texts(zone, b"", b"");
    zone.cell.give_up_id(&mut zone.shared);
    zone.cell.give_up_id(&mut zone.shared);
    Ok(set && cleared && zone.shared.zid_free(1) && is_without_id(zone))
}

#[test]
fn an_id_is_given_up(rt: HostRuntime) -> Result<(), Fail> {
    let mut zone = Zone::limited(rt.alloc(), b"default", None)?;
    assert!(rt; gives_up(rt.alloc(), &mut zone)?);
    Ok(())
}

// Whether the numbers of zones start again at 1.
fn zids_start_again(alloc: Global, zone: &mut Zone) -> bool {
    zone.shared.next_zid() == Grant::Number(1)
        && zone.activate(alloc, 9_999) == DONE
        && zone.shared.next_zid() == Grant::Number(1)
        && zone.activate(alloc, 1) == DONE
        && zone.shared.zid_free(9_999)
        && zone.shared.next_zid() == Grant::Number(2)
        && !zone.shared.zid_free(0)
        && !zone.shared.zid_free(10_000)
}

#[test]
fn the_pool_of_ids_starts_again(rt: HostRuntime) -> Result<(), Fail> {
    let mut zone = Zone::new(rt.alloc())?;
    assert!(rt; zids_start_again(rt.alloc(), &mut zone));
    Ok(())
}

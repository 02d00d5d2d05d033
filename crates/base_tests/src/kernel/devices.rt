//! Devices: which are declared, and which of them a zone is given.
use crate::kernel::zone::{Came, DONE, Zone};
use kernel_objects::{DEVICES_MAX, KernelFault};
use std::alloc::Global;
use std::test::Fail;
use zn_base::{AbsPath, Text};

fn declares_three(alloc: Global, zone: &mut Zone) -> Result<bool, Fail> {
    Ok(
        zone.declare(alloc, b"/dev/b")? == DONE
            && zone.declare(alloc, b"/dev/a")? == DONE
            && zone.declare(alloc, b"/other")? == DONE
            && zone.declare(alloc, b"/dev/a")? == Came::Fault(KernelFault::Duplicate),
    )
}

// Whether a zone that is given what fits a pattern has so many devices.
fn is_given(alloc: Global, zone: &mut Zone, pattern: &[u8], count: u32) -> Result<bool, Fail> {
    let patterns = [Text::read(alloc, pattern)?, Text::read(alloc, b"/dev/a")?];
    Ok(zone.give_devices(alloc, &patterns)? == count)
}

fn devices_come_and_go(alloc: Global, zone: &mut Zone) -> Result<bool, Fail> {
    let two = declares_three(alloc, zone)?
        && is_given(alloc, zone, b"/dev/*", 2)?
        && zone.has_devices(alloc, &[b"/dev/b", b"/dev/a"])?;
    let one = two && is_given(alloc, zone, b"/none", 1)? && zone.has_devices(alloc, &[b"/dev/a"])?;
    zone.cell.drop_devices();
    Ok(one && zone.has_devices(alloc, &[])?)
}

#[test]
fn devices_are_given_by_patterns(rt: HostRuntime) -> Result<(), Fail> {
    let mut zone = Zone::new(rt.alloc())?;
    assert!(rt; devices_come_and_go(rt.alloc(), &mut zone)?);
    Ok(())
}

// A path with a number, of four digits.
fn numbered(alloc: Global, number: usize) -> Result<AbsPath, Fail> {
    let digits = [
        b'/',
        b'0' + (number / 1000 % 10) as u8,
        b'0' + (number / 100 % 10) as u8,
        b'0' + (number / 10 % 10) as u8,
        b'0' + (number % 10) as u8,
    ];
    Ok(AbsPath::read(alloc, &digits)?)
}

fn declares_all(alloc: Global, zone: &mut Zone) -> Result<bool, Fail> {
    for number in 0..DEVICES_MAX {
        zone.shared.declare_device(numbered(alloc, number)?)?;
    }
    Ok(
        zone.declare(alloc, b"/new")? == Came::Fault(KernelFault::TooMany(1024))
            && zone.declare(alloc, b"/0007")? == Came::Fault(KernelFault::Duplicate)
            && zone.shared.devices().len() == 1024,
    )
}

#[test]
fn there_are_1024_devices_at_most(rt: HostRuntime) -> Result<(), Fail> {
    let mut zone = Zone::new(rt.alloc())?;
    assert!(rt; declares_all(rt.alloc(), &mut zone)?);
    Ok(())
}

//! Restarts of the machine over a disk that fails. What stays over a restart, and what begins anew, is said by the rows that
//! zones_docs runs.
ghost use Rattle.zone_machine.specs.Code.Decided.{AsksBrands, MayGoOn};

use crate::brands::{Hook, make_brands, proceeds, refuses_clones};
use crate::kept::Kept;
use crate::runs::{Given, disk_of};
use crate::stores::WEB;
use crate::traces::TRACED;
use brand_hooks::{Change, HookAnswer};
use commit_journal::StoreFault;
use std::alloc::Global;
use std::test::Fail;
use zn_io::Disk;
use zone_machine::Machine;

// Whether a restart is done, and whether the machine takes events after it.
fn restarted<D: Disk, F: Fn(&Change) -> HookAnswer>(
    alloc: Global,
    machine: &mut Machine<'_, D, F>,
) -> Result<(bool, bool), StoreFault>
    requires asks { AsksBrands F.Fn machine.old }
    requires ready { MayGoOn D.view machine.old }
{
    match machine.restart(alloc) {
        Ok(()) => Ok((true, machine.sound())),
        Err(StoreFault::DiskFault) => Ok((false, machine.sound())),
        Err(fault) => Err(fault),
    }
}

// The same over the store of web, where a call of the disk fails. None: no machine is opened there.
fn restarted_over(alloc: Global, call: u64) -> Result<Option<(bool, bool)>, Fail> {
    let calls = [call];
    let given = Given {
        disk: WEB,
        calls: &calls,
        ..TRACED
    };
    let ipkg: Hook = proceeds;
    let lx: Hook = refuses_clones;
    let brands = make_brands(alloc, ipkg, lx)?;
    let disk = disk_of(alloc, &given)?;
    match Machine::open(alloc, disk, &brands) {
        Ok(mut machine) => {
            let told = restarted(alloc, &mut machine);
            let _disk = Kept(machine.into_disk());
            Ok(Some(told?))
        }
        Err((fault, disk)) => {
            let _disk = Kept(disk);
            match fault {
                StoreFault::DiskFault => Ok(None),
                _ => Err(fault.into()),
            }
        }
    }
}

// How many calls of the disk opening makes. A restart makes as many.
fn opening_calls(alloc: Global) -> Result<u64, Fail> {
    for call in 1..64 {
        if restarted_over(alloc, call)?.is_some() {
            return Ok(call - 1);
        }
    }
    Ok(64)
}

#[test]
fn a_restart_over_a_disk_that_fails_ends_the_machine(rt: HostRuntime) -> Result<(), Fail> {
    let calls = opening_calls(rt.alloc())?;
    assert!(rt; 0 < calls && calls < 64);
    for call in calls + 1..2 * calls + 2 {
        let done = call > 2 * calls;
        assert!(rt;
            restarted_over(rt.alloc(), call)? == Some((done, done)),
            "{call}"
        );
    }
    Ok(())
}

//! Each call on a zone's cell and on what zones share once, where memory is there.
ghost use Rattle.std.specs.Prelude.{◌≡◌, IfOk, OnOk};
ghost use Rattle.zn_io.specs.MemoryDisk.{view_of};
ghost use Rattle.zone_machine.specs.Code.Records.{IsReady};

use crate::brands::{Hook, make_brands, proceeds, refuses_clones};
use crate::entries::{Told, came_to, event_of, was_told};
use crate::kept::Kept;
use crate::runs::empty_disk;
use brand_hooks::{BrandFault, BrandTables, HookAnswer};
use std::alloc::Global;
use std::test::Fail;
use zn_base::ZoneName;
use zn_io::MemDisk;
use zone_cases::Cell;
use zone_disk::Bank;
use zone_machine::{Shared, StepFault, cell_step, cell_step_given, local_turn};
use zone_pools::Grant;

// The zone `a` with its cell, and what zones share once.
#[derive(Drop)]
struct Zone {
    name: ZoneName,
    cell: Cell,
    shared: Shared,
    bank: Bank<MemDisk>,
}

fn tables(alloc: Global) -> Result<BrandTables, BrandFault> {
    let ipkg: Hook = proceeds;
    let lx: Hook = refuses_clones;
    let brands = make_brands(alloc, ipkg, lx)?;
    Ok(brands.tables(alloc)?)
}

// The bank on a disk that has nothing yet, and what zones share then.
fn opened(alloc: Global) -> Result<(Bank<MemDisk>, Shared), Fail>
    ensures { IfOk result (λ both. IsReady (view_of both.0.disk) both.0 both.1) }
{
    let tables = tables(alloc)?;
    match Bank::open(alloc, empty_disk(alloc)?) {
        Ok(bank) => Ok((bank, Shared::new(alloc, tables))),
        Err((fault, _disk)) => Err(fault.into()),
    }
}

impl Zone {
    fn new(alloc: Global) -> Result<Zone, Fail>
        ensures { IfOk result (λ zone. IsReady (view_of zone.bank.disk) zone.bank zone.shared) }
    {
        let name = ZoneName::read(alloc, b"a")?;
        match opened(alloc) {
            Ok((bank, shared)) => Ok(Zone {
                name,
                cell: Cell::new(alloc),
                shared,
                bank,
            }),
            Err(fault) => Err(fault),
        }
    }

    // The event of a line, of which no brand is asked.
    fn steps(&mut self, alloc: Global, line: &[u8], told: &Told) -> Result<bool, Fail>
        requires { IsReady (view_of self.old.bank.disk) self.old.bank self.old.shared }
        ensures { OnOk result (IsReady (view_of self.new.bank.disk) self.new.bank self.new.shared) }
    {
        if self.cell.next_hook().is_some() {
            return Ok(false);
        }
        let Some(event) = event_of(alloc, line)? else {
            return Ok(false);
        };
        let came = cell_step(
            alloc,
            &self.name,
            &mut self.cell,
            &mut self.shared,
            &mut self.bank,
            event,
            HookAnswer::Proceed,
        );
        came_to(alloc, came, told)
    }

    // The same under a stated grant.
    fn steps_given(
        &mut self,
        alloc: Global,
        line: &[u8],
        grant: Grant,
        told: &Told,
    ) -> Result<bool, Fail>
        requires { IsReady (view_of self.old.bank.disk) self.old.bank self.old.shared }
        ensures { OnOk result (IsReady (view_of self.new.bank.disk) self.new.bank self.new.shared) }
    {
        if self.cell.next_hook().is_some() {
            return Ok(false);
        }
        let Some(event) = event_of(alloc, line)? else {
            return Ok(false);
        };
        let came = cell_step_given(
            alloc,
            &self.name,
            &mut self.cell,
            &mut self.shared,
            &mut self.bank,
            event,
            grant,
            HookAnswer::Proceed,
        );
        came_to(alloc, came, told)
    }

    // The next turn, where it is local; where it isn't, it would be told to record.
    fn turns_alone(&mut self, alloc: Global, told: &Told) -> Result<bool, Fail>
        ensures bank { self.new.bank ≡ self.old.bank }
        ensures shared { self.new.shared ≡ self.old.shared }
    {
        match local_turn(alloc, &self.name, &mut self.cell, HookAnswer::Proceed) {
            Ok(Some(entry)) => was_told(alloc, entry, told),
            Ok(None) => Ok(matches!(told, Err(StepFault::WouldRecord))),
            Err(fault) => Err(fault.into()),
        }
    }
}

const MAKING: &[u8] = b"S 1 zonecfg -z a create -b; set zonepath=/zones/a; set brand=ipkg";

const MADE: Told = Ok((Grant::Number(1), b"a ok\n"));

const INSTALLING: &[u8] = b"S 1 zoneadm -z a install";

const ASKED: Told = Ok((Grant::Nothing, b"a ticket 1\n"));

const SHARED: Told = Err(StepFault::WouldRecord);

const BEGAN: Told = Ok((Grant::Nothing, b"a began 1 install\n"));

const HOOK: Told = Ok((Grant::Nothing, b"a step hook before install\n"));

// An event of a zone needs its cell alone. The zone is borrowed, so that no exit drops what it owns.
fn is_asked(alloc: Global, zone: &mut Zone) -> Result<bool, Fail>
    requires { IsReady (view_of zone.old.bank.disk) zone.old.bank zone.old.shared }
    ensures { OnOk result (IsReady (view_of zone.new.bank.disk) zone.new.bank zone.new.shared) }
{
    Ok(
        zone.steps(alloc, MAKING, &MADE)?
            && zone.cell.is_empty()
            && zone.steps_given(alloc, INSTALLING, Grant::Nothing, &ASKED)?
            && !zone.cell.is_empty(),
    )
}

// A local turn needs nothing shared. A request begins with what is stored, and a new state is stored: neither is local.
fn begins(alloc: Global, zone: &mut Zone) -> Result<bool, Fail>
    requires { IsReady (view_of zone.old.bank.disk) zone.old.bank zone.old.shared }
{
    Ok(
        zone.turns_alone(alloc, &SHARED)?
            && zone.steps(alloc, b"D a", &BEGAN)?
            && zone.turns_alone(alloc, &HOOK)?
            && zone.turns_alone(alloc, &SHARED)?,
    )
}

#[test]
fn an_event_of_a_zone_needs_its_cell_and_a_local_turn_nothing_shared(
    rt: HostRuntime,
) -> Result<(), Fail> {
    match Zone::new(rt.alloc()) {
        Ok(zone) => {
            let mut zone = Kept(zone);
            assert!(rt; is_asked(rt.alloc(), &mut zone.0)?);
            assert!(rt; begins(rt.alloc(), &mut zone.0)?);
            Ok(())
        }
        Err(fault) => Err(fault),
    }
}

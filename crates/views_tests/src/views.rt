//! Two zones, `a` and `b`, are made, installed and booted, and their processes fork: what a machine then tells of `b`, and
//! what is left of the run without the entries of `a`.
ghost use Rattle.zone_machine.specs.Code.Decided.{AsksBrands, MayGoOn};

use crate::events::two_zones;
use crate::kept::Kept;
use crate::machines::{Hook, empty_disk, make_brands, opened, proceeds};
use brand_hooks::{Change, HookAnswer};
use datalink_table::ClaimKind;
use kernel_objects::ProcRow;
use std::alloc::Global;
use std::test::Fail;
use zn_base::ZoneName;
use zn_io::Disk;
use zone_cases::{Body, Entry, Event, Reply};
use zone_machine::Machine;
use zone_views::{Object, ObjectKind, only, replies_of, run, run_purged, view};

// A process by its number, its parent's and its name.
type Row = (u32, u32, &'static [u8]);

const ROWS: &[Row] = &[(3, 0, b"init"), (5, 3, b"y")];

fn is_row(row: &ProcRow, wanted: &Row) -> bool {
    let (pid, parent, name) = wanted;
    row.pid == *pid && row.parent == *parent && row.name.bytes() == *name
}

fn are_rows(rows: &[ProcRow]) -> bool {
    match (rows, ROWS) {
        ([first, second], [init, child]) => is_row(first, init) && is_row(second, child),
        _ => false,
    }
}

// The processes and the mounts of `b`, and that it holds nothing and was given nothing.
fn tells<D: Disk, F: Fn(&Change) -> HookAnswer>(
    alloc: Global,
    machine: &Machine<'_, D, F>,
) -> Result<bool, Fail> {
    let zone = ZoneName::read(alloc, b"b")?;
    let rows = machine.processes(alloc, &zone)?;
    let mounts = machine.mounts(alloc, &zone)?;
    let links = machine.claims(alloc, &zone, ClaimKind::Link)?;
    let devices = machine.devices(alloc, &zone)?;
    let is_root = match mounts.as_slice() {
        [mount] => mount.dir.bytes() == b"/".as_slice()
            && mount.fstype.bytes() == b"root".as_slice(),
        _ => false,
    };
    Ok(
        is_root
            && are_rows(&rows)
            && links.is_empty()
            && devices.is_empty()
            && !machine.console_in_use(&zone)
            && machine.zid_of(&zone) == Some(2),
    )
}

fn is_object(object: &Object, kind: ObjectKind, key: &[u8]) -> bool {
    object.zone.bytes() == b"b".as_slice() && object.kind == kind && object.key.bytes() == key
}

fn views<D: Disk, F: Fn(&Change) -> HookAnswer>(
    alloc: Global,
    machine: &Machine<'_, D, F>,
) -> Result<bool, Fail> {
    let zone = ZoneName::read(alloc, b"b")?;
    let objects = view(alloc, machine, &zone)?;
    Ok(match objects.as_slice() {
        [init, child, root, id] => {
            is_object(init, ObjectKind::Process, b"3")
                && is_object(child, ObjectKind::Process, b"5")
                && is_object(root, ObjectKind::Mount, b"/")
                && is_object(id, ObjectKind::Id, b"2")
        }
        _ => false,
    })
}

// Whether the last two replies tell of the child and of the processes.
fn ends_so(replies: &[Reply]) -> bool {
    match replies {
        [.., fork, ps] => matches!(fork.body, Body::Child(5)) && lists(&ps.body),
        _ => false,
    }
}

fn lists(body: &Body) -> bool {
    match body {
        Body::Processes(rows) => are_rows(rows.as_slice()),
        _ => false,
    }
}

fn copies_entry(alloc: Global, entry: &Entry) -> Result<bool, Fail> {
    let copy = Kept(entry.copy(alloc)?);
    Ok(is_ps(&copy.0.event) && copy.0.grant == entry.grant && lists(&copy.0.reply.body))
}

fn copies_event(alloc: Global, event: &Event) -> Result<bool, Fail> {
    let copy = Kept(event.copy(alloc)?);
    Ok(is_ps(&copy.0))
}

fn copies_reply(alloc: Global, reply: &Reply) -> Result<bool, Fail> {
    let copy = Kept(reply.copy(alloc)?);
    Ok(lists(&copy.0.body))
}

// A copy of the last entry is as it.
fn is_copied(alloc: Global, entries: &[Entry]) -> Result<bool, Fail> {
    match entries {
        [.., last] => Ok(
            copies_entry(alloc, last)?
                && copies_event(alloc, &last.event)?
                && copies_reply(alloc, &last.reply)?,
        ),
        _ => Ok(false),
    }
}

fn is_ps(event: &Event) -> bool {
    match event {
        Event::Process { zone, pid, .. } => zone.bytes() == b"b".as_slice() && *pid == 3,
        _ => false,
    }
}

// What is left of the run without the entries of `a`: 28 entries, all of them of `b`.
fn keeps(alloc: Global, entries: &[Entry]) -> Result<bool, Fail> {
    let zone = ZoneName::read(alloc, b"b")?;
    let kept = Kept(only(alloc, entries, &zone)?);
    Ok(entries.len() == 55 && kept.0.len() == 28)
}

fn replies(alloc: Global, entries: &[Entry]) -> Result<bool, Fail> {
    let zone = ZoneName::read(alloc, b"b")?;
    let replies = Kept(replies_of(alloc, entries, &zone)?);
    Ok(replies.0.len() == 28 && ends_so(&replies.0))
}

// The entries of the run.
fn ran<D: Disk, F: Fn(&Change) -> HookAnswer>(
    alloc: Global,
    machine: &mut Machine<'_, D, F>,
) -> Result<Vec<Entry>, Fail>
    requires asks { AsksBrands F.Fn machine.old }
    requires ready { MayGoOn D.view machine.old }
{
    let events = two_zones(alloc)?;
    Ok(run(alloc, machine, events)?)
}

// The same events again, on another machine, without those of `a`.
fn purges<D: Disk, F: Fn(&Change) -> HookAnswer>(
    alloc: Global,
    machine: &mut Machine<'_, D, F>,
    entries: &[Entry],
) -> Result<bool, Fail>
    requires asks { AsksBrands F.Fn machine.old }
    requires ready { MayGoOn D.view machine.old }
{
    let zone = ZoneName::read(alloc, b"b")?;
    let replies = Kept(run_purged(alloc, machine, entries, &zone)?);
    Ok(replies.0.len() == 28 && ends_so(&replies.0))
}

// What a machine tells once it has run.
fn tells_after<D: Disk, F: Fn(&Change) -> HookAnswer>(
    alloc: Global,
    machine: &mut Machine<'_, D, F>,
) -> Result<bool, Fail>
    requires asks { AsksBrands F.Fn machine.old }
    requires ready { MayGoOn D.view machine.old }
{
    let _entries = Kept(ran(alloc, machine)?);
    Ok(tells(alloc, machine)? && views(alloc, machine)?)
}

fn is_told(alloc: Global) -> Result<bool, Fail> {
    let ipkg: Hook = proceeds;
    let brands = make_brands(alloc, ipkg)?;
    let disk = empty_disk(alloc)?;
    match opened(alloc, disk, &brands) {
        Ok(mut machine) => {
            let told = tells_after(alloc, &mut machine);
            let _disk = Kept(machine.into_disk());
            told
        }
        Err(fault) => Err(fault),
    }
}

// What a machine tells that was put together of so many cells, where it told so before.
fn tells_again<D: Disk, F: Fn(&Change) -> HookAnswer>(
    alloc: Global,
    machine: &Machine<'_, D, F>,
    cells: usize,
    told: Result<bool, Fail>,
) -> Result<bool, Fail> {
    let told = told?;
    Ok(told && cells == 2 && tells(alloc, machine)?)
}

// Taken apart a machine that has run has a cell for each of the two zones, and put together again it tells what it told.
fn is_parted(alloc: Global) -> Result<bool, Fail> {
    let ipkg: Hook = proceeds;
    let brands = make_brands(alloc, ipkg)?;
    let disk = empty_disk(alloc)?;
    match opened(alloc, disk, &brands) {
        Ok(mut machine) => {
            let told = tells_after(alloc, &mut machine);
            let parted = machine.part();
            let cells = parted.cells.len();
            let machine = Machine::whole(parted);
            let again = tells_again(alloc, &machine, cells, told);
            let _disk = Kept(machine.into_disk());
            again
        }
        Err(fault) => Err(fault),
    }
}

fn entries_of(alloc: Global) -> Result<Vec<Entry>, Fail> {
    let ipkg: Hook = proceeds;
    let brands = make_brands(alloc, ipkg)?;
    let disk = empty_disk(alloc)?;
    match opened(alloc, disk, &brands) {
        Ok(mut machine) => {
            let entries = ran(alloc, &mut machine);
            let _disk = Kept(machine.into_disk());
            entries
        }
        Err(fault) => Err(fault),
    }
}

fn is_purged(alloc: Global, entries: &[Entry]) -> Result<bool, Fail> {
    let ipkg: Hook = proceeds;
    let brands = make_brands(alloc, ipkg)?;
    let disk = empty_disk(alloc)?;
    match opened(alloc, disk, &brands) {
        Ok(mut machine) => {
            let purged = purges(alloc, &mut machine, entries);
            let _disk = Kept(machine.into_disk());
            purged
        }
        Err(fault) => Err(fault),
    }
}

#[test]
fn a_zone_is_told_and_viewed(rt: HostRuntime) -> Result<(), Fail> {
    assert!(rt; is_told(rt.alloc())?, "told");
    Ok(())
}

#[test]
fn a_machine_is_taken_apart_and_put_together(rt: HostRuntime) -> Result<(), Fail> {
    assert!(rt; is_parted(rt.alloc())?, "parted");
    Ok(())
}

#[test]
fn a_purged_run_answers_alike(rt: HostRuntime) -> Result<(), Fail> {
    let entries = Kept(entries_of(rt.alloc())?);
    assert!(rt; is_copied(rt.alloc(), &entries.0)?, "copied");
    assert!(rt; keeps(rt.alloc(), &entries.0)?, "kept");
    assert!(rt; replies(rt.alloc(), &entries.0)?, "replies");
    assert!(rt; is_purged(rt.alloc(), &entries.0)?, "purged");
    Ok(())
}

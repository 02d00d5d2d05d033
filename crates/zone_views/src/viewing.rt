//! The objects that a zone has.
ghost use Rattle.std.specs.Prelude.{◌≡◌, ◌++◌, ◌∷◌, [], IfOk, IsOkUnless, OnOk, decimal, map};
ghost use Rattle.zone_cases.specs.State.{State};
ghost use Rattle.zone_cases.specs.State.Worlds.{world};
ghost use Rattle.zone_machine.specs.Code.Cells.{Stands};
ghost use Rattle.zone_views.specs.Naming.{object};
ghost use Rattle.zone_views.specs.Viewing.{IsView, all_told, claims_told, console_told, id_told, kind_place, mounts_told, object_cmp, processes_told};

use brand_hooks::{Change, HookAnswer};
use datalink_table::ClaimKind;
use kernel_objects::ProcRow;
use loopback_mounts::Mount;
use std::alloc::{AllocError, Global};
use std::cmp::Ordering;
use zn_base::{AbsPath, Text, ZoneName, push_decimal};
use zn_io::Disk;
use zone_machine::{Machine, StepFault};

/// What an object is.
#[derive(Clone, Copy, PartialEq, Eq)]
pub enum ObjectKind {
    Process,
    Mount,
    Link,
    Address,
    Dataset,
    Device,
    Console,
    Id,
}

/// An object that a zone has.
#[derive(Drop)]
pub struct Object {
    pub zone: ZoneName,
    pub kind: ObjectKind,
    /// The number of a process or an id in decimal, the directory of a mount, an item that is claimed, or the path of a
    /// device. A console has an empty one.
    pub key: Text,
}

fn kind_place(kind: ObjectKind) -> u8
    ensures { result ≡ kind_place kind }
{
    kind as u8
}

// By kind, and within a kind by key, in byte order.
fn compare(one: &Object, other: &Object) -> Ordering
    ensures { result ≡ object_cmp one.now other.now }
{
    kind_place(one.kind)
        .cmp(&kind_place(other.kind))
        .then(one.key.bytes().cmp(other.key.bytes()))
}

// A number in decimal.
#[tactic(auto, using(crate::proofs::Decimal_texts::decimal_text))]
fn decimal_text(alloc: Global, number: u32) -> Result<Text, AllocError>
    ensures { IfOk result (λ text. text ≡ decimal number) }
{
    let mut digits = Vec::new(alloc);
    push_decimal(&mut digits, number as u64)?;
    Text::of(alloc, &digits)
}

// A path as a text.
#[tactic(auto, using(loopback_mounts::proofs::Rests::path_text))]
fn path_text(alloc: Global, path: &AbsPath) -> Result<Text, AllocError>
    ensures { IfOk result (λ text. text ≡ path.now) }
{
    Text::of(alloc, path.bytes())
}

// An object of a zone is put last.
fn push(
    alloc: Global,
    objects: &mut Vec<Object>,
    zone: &ZoneName,
    kind: ObjectKind,
    key: Text,
) -> Result<(), AllocError>
    ensures { OnOk result (objects.new.items ≡ objects.old.items ++ object zone.now kind key ∷ []) }
{
    let zone = zone.copy(alloc)?;
    objects.push(Object { zone, kind, key })?;
    Ok(())
}

fn push_processes(
    alloc: Global,
    objects: &mut Vec<Object>,
    zone: &ZoneName,
    rows: &[ProcRow],
) -> Result<(), AllocError>
    ensures { OnOk result (objects.new.items ≡ objects.old.items ++ processes_told zone.now rows.now) }
{
    for row in rows {
        let key = decimal_text(alloc, row.pid)?;
        push(alloc, objects, zone, ObjectKind::Process, key)?;
    }
    Ok(())
}

fn push_mounts(
    alloc: Global,
    objects: &mut Vec<Object>,
    zone: &ZoneName,
    mounts: &[Mount],
) -> Result<(), AllocError>
    ensures { OnOk result (objects.new.items ≡ objects.old.items ++ mounts_told zone.now mounts.now) }
{
    for mount in mounts {
        let key = path_text(alloc, &mount.dir)?;
        push(alloc, objects, zone, ObjectKind::Mount, key)?;
    }
    Ok(())
}

fn push_items(
    alloc: Global,
    objects: &mut Vec<Object>,
    zone: &ZoneName,
    kind: ObjectKind,
    items: &[Text],
) -> Result<(), AllocError>
    ensures { OnOk result (objects.new.items ≡ objects.old.items ++ map (object zone.now kind) items.now) }
{
    for item in items {
        push(alloc, objects, zone, kind, item.copy(alloc)?)?;
    }
    Ok(())
}

fn push_devices(
    alloc: Global,
    objects: &mut Vec<Object>,
    zone: &ZoneName,
    paths: &[AbsPath],
) -> Result<(), AllocError>
    ensures { OnOk result (objects.new.items ≡ objects.old.items ++ map (object zone.now ObjectKind.Device) paths.now) }
{
    for path in paths {
        push(
            alloc,
            objects,
            zone,
            ObjectKind::Device,
            path_text(alloc, path)?,
        )?;
    }
    Ok(())
}

fn push_id(
    alloc: Global,
    objects: &mut Vec<Object>,
    zone: &ZoneName,
    zid: Option<u32>,
) -> Result<(), AllocError>
    ensures { OnOk result (objects.new.items ≡ objects.old.items ++ id_told zone.now zid) }
{
    match zid {
        Some(zid) => push(
            alloc,
            objects,
            zone,
            ObjectKind::Id,
            decimal_text(alloc, zid)?,
        ),
        None => Ok(()),
    }
}

fn push_console(
    alloc: Global,
    objects: &mut Vec<Object>,
    zone: &ZoneName,
    in_use: bool,
) -> Result<(), AllocError>
    ensures { OnOk result (objects.new.items ≡ objects.old.items ++ console_told zone.now in_use) }
{
    if in_use {
        push(
            alloc,
            objects,
            zone,
            ObjectKind::Console,
            Text::empty(alloc),
        )
    } else {
        Ok(())
    }
}

// The links, the addresses and the datasets that a zone holds are put last.
fn push_claims<D: Disk, F: Fn(&Change) -> HookAnswer>(
    alloc: Global,
    objects: &mut Vec<Object>,
    machine: &Machine<'_, D, F>,
    zone: &ZoneName,
) -> Result<(), StepFault>
    ensures ok { OnOk result ((S : State) → Stands S machine.now.parts → objects.new.items ≡ objects.old.items ++ claims_told zone.now (world zone.now S)) }
    ensures err { IsOkUnless result StepFault.Memory }
{
    let links = machine.claims(alloc, zone, ClaimKind::Link)?;
    push_items(alloc, objects, zone, ObjectKind::Link, &links)?;
    let addresses = machine.claims(alloc, zone, ClaimKind::Address)?;
    push_items(alloc, objects, zone, ObjectKind::Address, &addresses)?;
    let datasets = machine.claims(alloc, zone, ClaimKind::Dataset)?;
    push_items(alloc, objects, zone, ObjectKind::Dataset, &datasets)?;
    Ok(())
}

// All objects of a zone, kind by kind, but for the order within a kind.
fn gather<D: Disk, F: Fn(&Change) -> HookAnswer>(
    alloc: Global,
    machine: &Machine<'_, D, F>,
    zone: &ZoneName,
) -> Result<Vec<Object>, StepFault>
    ensures ok { IfOk result (λ objects. (S : State) → Stands S machine.now.parts → objects.items ≡ all_told zone.now (world zone.now S)) }
    ensures err { IsOkUnless result StepFault.Memory }
{
    let mut objects = Vec::new(alloc);
    let rows = machine.processes(alloc, zone)?;
    push_processes(alloc, &mut objects, zone, &rows)?;
    let mounts = machine.mounts(alloc, zone)?;
    push_mounts(alloc, &mut objects, zone, &mounts)?;
    push_claims(alloc, &mut objects, machine, zone)?;
    let devices = machine.devices(alloc, zone)?;
    push_devices(alloc, &mut objects, zone, &devices)?;
    push_id(alloc, &mut objects, zone, machine.zid_of(zone))?;
    push_console(alloc, &mut objects, zone, machine.console_in_use(zone))?;
    Ok(objects)
}

/// The objects of a zone: its processes, mounts, links, addresses, datasets, devices, its console where that keeps something or a
/// session has it, and its id, in this order, and within a kind in byte order of their keys.
pub fn view<D: Disk, F: Fn(&Change) -> HookAnswer>(
    alloc: Global,
    machine: &Machine<'_, D, F>,
    zone: &ZoneName,
) -> Result<Vec<Object>, StepFault>
    ensures ok { IfOk result (λ objects. IsView machine.now.parts zone.now objects.items) }
    ensures err { IsOkUnless result StepFault.Memory }
{
    let mut objects = gather(alloc, machine, zone)?;
    objects.sort_unstable_by(|one, other| compare(one, other));
    Ok(objects)
}

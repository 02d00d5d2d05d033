//! What a zone has, in a few words a line.
use crate::zone::Zone;
use commit_journal::Row;
use datalink_table::{ClaimCell, ClaimKind};
use kernel_objects::KernelCell;
use loopback_mounts::{Mount, MountCell};
use std::alloc::{AllocError, Global};
use zn_base::{AbsPath, Text, push_both, push_numbered, push_pieces};
use zone_config::Property;

fn push_line(out: &mut Vec<u8>, word: &[u8], text: &[u8]) -> Result<(), AllocError> {
    push_both(out, word, text)?;
    out.extend_from_slice(b"\n")
}

// The state, the revision and the zonepath of what is stored.
fn push_row(out: &mut Vec<u8>, row: &Row) -> Result<(), AllocError> {
    push_both(out, b"stored ", row.state.text())?;
    push_numbered(out, b" ", row.revision as u64)?;
    push_line(out, b" ", row.config.shown(Property::Zonepath))
}

fn push_some(out: &mut Vec<u8>, word: &[u8], text: Option<&Text>) -> Result<(), AllocError> {
    match text {
        Some(text) if !text.bytes().is_empty() => push_line(out, word, text.bytes()),
        _ => Ok(()),
    }
}

fn push_zid(out: &mut Vec<u8>, zid: Option<u32>) -> Result<(), AllocError> {
    if let Some(zid) = zid {
        push_numbered(out, b"zid ", zid as u64)?;
        out.extend_from_slice(b"\n")?;
    }
    Ok(())
}

fn push_processes(alloc: Global, out: &mut Vec<u8>, kernel: &KernelCell) -> Result<(), AllocError> {
    let Ok(listed) = kernel.list_procs(alloc) else {
        return Err(AllocError);
    };
    for row in listed.as_slice() {
        push_numbered(out, b"process ", row.pid as u64)?;
        push_line(out, b" ", row.name.bytes())?;
    }
    Ok(())
}

fn push_devices(out: &mut Vec<u8>, devices: &[AbsPath]) -> Result<(), AllocError> {
    for device in devices {
        push_line(out, b"device ", device.bytes())?;
    }
    Ok(())
}

fn push_kernel(alloc: Global, out: &mut Vec<u8>, kernel: &KernelCell) -> Result<(), AllocError> {
    push_zid(out, kernel.zid_of())?;
    push_some(out, b"fs-allowed ", kernel.fs_allowed_of())?;
    push_some(out, b"bootargs ", kernel.bootargs_of())?;
    let Ok(devices) = kernel.list_devices(alloc) else {
        return Err(AllocError);
    };
    push_devices(out, devices.as_slice())?;
    push_processes(alloc, out, kernel)
}

fn push_mount(out: &mut Vec<u8>, mount: &Mount) -> Result<(), AllocError> {
    let access: &[u8] = if mount.read_only { b" ro" } else { b" rw" };
    push_pieces(
        out,
        &[
            b"mount ",
            mount.dir.bytes(),
            b" ",
            mount.fstype.bytes(),
            b" ",
            mount.special.bytes(),
            access,
            b"\n",
        ],
    )
}

fn push_mounts(out: &mut Vec<u8>, mounts: &MountCell) -> Result<(), AllocError> {
    for entry in mounts.entries() {
        push_mount(out, &entry.mount)?;
    }
    Ok(())
}

fn push_claims(
    alloc: Global,
    out: &mut Vec<u8>,
    claims: &ClaimCell,
    kind: ClaimKind,
    word: &[u8],
) -> Result<(), AllocError> {
    let Ok(items) = claims.list(alloc, kind) else {
        return Err(AllocError);
    };
    for item in items.as_slice() {
        push_line(out, word, item.bytes())?;
    }
    Ok(())
}

fn push_objects(alloc: Global, out: &mut Vec<u8>, zone: &Zone) -> Result<(), AllocError> {
    push_kernel(alloc, out, &zone.kernel)?;
    push_mounts(out, &zone.mounts)?;
    push_claims(alloc, out, &zone.claims, ClaimKind::Dataset, b"dataset ")?;
    push_claims(alloc, out, &zone.claims, ClaimKind::Link, b"link ")?;
    push_claims(alloc, out, &zone.claims, ClaimKind::Address, b"address ")
}

/// What is stored of the zone, its state where that isn't stored, and its objects.
pub fn what_it_has(alloc: Global, zone: &Zone) -> Result<Vec<u8>, AllocError> {
    let mut out = Vec::new(alloc);
    if let Some(row) = &zone.row {
        push_row(&mut out, row)?;
    }
    if let Some(active) = zone.desk.active() {
        push_line(&mut out, b"active ", active.text())?;
    }
    push_objects(alloc, &mut out, zone)?;
    Ok(out)
}

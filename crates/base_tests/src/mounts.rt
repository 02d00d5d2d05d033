//! The mounts of a zone: each call where it does something, and each refusal in its order; the mounts over paths, by
//! whole components. What is done goes through helpers without contracts, so that no test's proof follows what a cell
//! holds.
use kernel_objects::Errno;
use loopback_mounts::{HoldFault, Last, MOUNTS_MAX, Mount, MountCell, MountFault};
use std::alloc::Global;
use std::test::Fail;
use zn_base::{AbsPath, Text, push_numbered};

// What a call came to.
#[derive(Clone, Copy, Debug, PartialEq, Eq)]
enum Came {
    Done,
    NotSo,
    Fault(MountFault),
    Hold(HoldFault),
}

const DONE: Came = Came::Done;

const EBUSY: Came = Came::Fault(MountFault::Refused(Errno::EBUSY));

const EINVAL: Came = Came::Fault(MountFault::Refused(Errno::EINVAL));

const ENOENT: Came = Came::Fault(MountFault::Refused(Errno::ENOENT));

const EROFS: Came = Came::Fault(MountFault::Refused(Errno::EROFS));

const TOO_MANY: Came = Came::Fault(MountFault::TooManyMounts);

const MEMORY: Came = Came::Fault(MountFault::Memory);

const NO_MOUNT: Came = Came::Hold(HoldFault::NoMount);

const HOLD_STATE: Came = Came::Hold(HoldFault::HoldState);

fn holds(it: bool) -> Came {
    if it { DONE } else { Came::NotSo }
}

fn told(answer: Result<(), MountFault>) -> Came {
    match answer {
        Ok(()) => DONE,
        Err(fault) => Came::Fault(fault),
    }
}

fn held(answer: Result<(), HoldFault>) -> Came {
    match answer {
        Ok(()) => DONE,
        Err(fault) => Came::Hold(fault),
    }
}

// What is mounted: a special, and the type where it is another than root and lofs.
#[derive(Clone, Copy)]
enum What {
    Root(&'static [u8]),
    Lofs(&'static [u8]),
    ReadOnly(&'static [u8]),
    Other(&'static [u8], &'static [u8]),
}

// The type, the special, and whether it is read-only.
fn parts(what: What) -> (&'static [u8], &'static [u8], bool) {
    match what {
        What::Root(special) => (b"root", special, false),
        What::Lofs(special) => (b"lofs", special, false),
        What::ReadOnly(special) => (b"lofs", special, true),
        What::Other(fstype, special) => (fstype, special, false),
    }
}

fn mount_of(alloc: Global, dir: &[u8], what: What) -> Result<Mount, Fail> {
    let (fstype, special, read_only) = parts(what);
    Ok(Mount {
        dir: AbsPath::read(alloc, dir)?,
        fstype: Text::read(alloc, fstype)?,
        special: Text::read(alloc, special)?,
        read_only,
        by_process: true,
    })
}

fn mount(alloc: Global, cell: &mut MountCell, dir: &[u8], what: What) -> Result<Came, Fail> {
    Ok(told(cell.mount(mount_of(alloc, dir, what)?)))
}

fn unmount(alloc: Global, cell: &mut MountCell, dir: &[u8]) -> Result<Came, Fail> {
    let dir = AbsPath::read(alloc, dir)?;
    Ok(match cell.unmount(&dir) {
        Ok(mount) => holds(mount.dir == dir),
        Err(fault) => Came::Fault(fault),
    })
}

fn hold(alloc: Global, cell: &mut MountCell, dir: &[u8]) -> Result<Came, Fail> {
    Ok(held(cell.hold(&AbsPath::read(alloc, dir)?)))
}

fn release(alloc: Global, cell: &mut MountCell, dir: &[u8]) -> Result<Came, Fail> {
    Ok(held(cell.release(&AbsPath::read(alloc, dir)?)))
}

// Whether a path has a place.
fn find(
    alloc: Global,
    cell: &MountCell,
    path: &[u8],
    write: bool,
    place: &[u8],
) -> Result<Came, Fail> {
    let path = AbsPath::read(alloc, path)?;
    let found = match cell.resolve(&path, write) {
        Ok(found) => found,
        Err(fault) => return Ok(Came::Fault(fault)),
    };
    Ok(match found.to_text(alloc) {
        Ok(text) => holds(text.bytes() == place),
        Err(fault) => Came::Fault(fault),
    })
}

// Whether the mount with the greatest directory goes, and is this one.
fn goes_last(cell: &mut MountCell, dir: &[u8]) -> Came {
    match cell.unmount_last() {
        Last::Removed(mount) => holds(mount.dir.bytes() == dir),
        Last::Held | Last::Nothing => Came::NotSo,
    }
}

fn last_is_held(cell: &mut MountCell) -> Came {
    holds(matches!(cell.unmount_last(), Last::Held))
}

fn nothing_is_left(cell: &mut MountCell) -> Came {
    holds(matches!(cell.unmount_last(), Last::Nothing))
}

enum Step {
    Mount(&'static [u8], What),
    Unmount(&'static [u8]),
    Hold(&'static [u8]),
    Release(&'static [u8]),
    // A path, and its place.
    Read(&'static [u8], &'static [u8]),
    Write(&'static [u8], &'static [u8]),
    Last(&'static [u8]),
    LastIsHeld,
    NothingIsLeft,
}

fn take(alloc: Global, cell: &mut MountCell, step: &Step) -> Result<Came, Fail> {
    Ok(match step {
        Step::Mount(dir, what) => mount(alloc, cell, dir, *what)?,
        Step::Unmount(dir) => unmount(alloc, cell, dir)?,
        Step::Hold(dir) => hold(alloc, cell, dir)?,
        Step::Release(dir) => release(alloc, cell, dir)?,
        Step::Read(path, place) => find(alloc, cell, path, false, place)?,
        Step::Write(path, place) => find(alloc, cell, path, true, place)?,
        Step::Last(dir) => goes_last(cell, dir),
        Step::LastIsHeld => last_is_held(cell),
        Step::NothingIsLeft => nothing_is_left(cell),
    })
}

// A directory, its type, and whether it is read-only.
type Row = (&'static [u8], &'static [u8], bool);

fn is_row(mount: &Mount, row: &Row) -> bool {
    let (dir, fstype, read_only) = row;
    mount.dir.bytes() == *dir && mount.fstype.bytes() == *fstype && mount.read_only == *read_only
}

fn are_rows(mounts: &[Mount], rows: &[Row]) -> bool {
    if mounts.len() != rows.len() {
        return false;
    }
    for (mount, row) in mounts.iter().zip(rows) {
        if !is_row(mount, row) {
            return false;
        }
    }
    true
}

// Whether just these mounts are listed.
fn lists(alloc: Global, cell: &MountCell, rows: &[Row]) -> Result<bool, Fail> {
    let mounts = cell.list(alloc)?;
    Ok(are_rows(mounts.as_slice(), rows))
}

// What becomes of a zone without mounts, and what is listed then.
struct Script {
    steps: &'static [(Step, Came)],
    left: &'static [Row],
}

// The first step that comes to something else, or their number where it is the list that differs.
fn first_wrong(alloc: Global, script: &Script) -> Result<Option<usize>, Fail> {
    let mut cell = MountCell::new(alloc);
    for (at, (it, came)) in script.steps.iter().enumerate() {
        if take(alloc, &mut cell, it)? != *came {
            return Ok(Some(at));
        }
    }
    if lists(alloc, &cell, script.left)? {
        Ok(None)
    } else {
        Ok(Some(script.steps.len()))
    }
}

const PREFIXES: Script = Script {
    steps: &[
        (Step::Read(b"/a", b""), ENOENT),
        (Step::Mount(b"/", What::Root(b"/zones/web/root")), DONE),
        (
            Step::Mount(b"/usr/local", What::Lofs(b"/export/local")),
            DONE,
        ),
        (Step::Mount(b"/usr", What::ReadOnly(b"/usr")), DONE),
        (Step::Read(b"/usr/bin", b"/usr/bin"), DONE),
        (Step::Read(b"/usrx/a", b"/zones/web/root/usrx/a"), DONE),
        (Step::Read(b"/usr/local/a", b"/export/local/a"), DONE),
        (Step::Write(b"/usr/bin", b""), EROFS),
        (Step::Write(b"/usr/local/a", b"/export/local/a"), DONE),
        (Step::Read(b"/usr", b"/usr"), DONE),
        (Step::Read(b"/", b"/zones/web/root"), DONE),
    ],
    left: &[
        (b"/", b"root", false),
        (b"/usr", b"lofs", true),
        (b"/usr/local", b"lofs", false),
    ],
};

#[test]
fn prefixes_are_whole_components(rt: HostRuntime) -> Result<(), Fail> {
    assert_eq!(rt; first_wrong(rt.alloc(), &PREFIXES)?, None);
    Ok(())
}

const HOLDS: Script = Script {
    steps: &[
        (Step::Mount(b"/", What::Root(b"/zones/a/root")), DONE),
        (
            Step::Mount(b"/mnt", What::ReadOnly(b"/zones/a/root/export")),
            DONE,
        ),
        (Step::Read(b"/mnt/x", b"/zones/a/root/export/x"), DONE),
        (Step::Write(b"/mnt/x", b""), EROFS),
        (Step::Read(b"/mntx", b"/zones/a/root/mntx"), DONE),
        (Step::Release(b"/mnt"), HOLD_STATE),
        (Step::Hold(b"/mnt"), DONE),
        (Step::Hold(b"/mnt"), HOLD_STATE),
        (Step::Unmount(b"/mnt"), EBUSY),
        (Step::Release(b"/mnt"), DONE),
        (Step::Unmount(b"/mnt"), DONE),
        (Step::Unmount(b"/mnt"), EINVAL),
        (Step::Hold(b"/mnt"), NO_MOUNT),
        (Step::Release(b"/mnt"), NO_MOUNT),
    ],
    left: &[(b"/", b"root", false)],
};

#[test]
fn a_held_mount_stays(rt: HostRuntime) -> Result<(), Fail> {
    assert_eq!(rt; first_wrong(rt.alloc(), &HOLDS)?, None);
    Ok(())
}

const BELOW: Script = Script {
    steps: &[
        (Step::Mount(b"/a", What::Lofs(b"/x")), DONE),
        (Step::Mount(b"/a-b", What::Lofs(b"/x")), DONE),
        (Step::Mount(b"/a/b", What::Lofs(b"/x")), DONE),
        (Step::Mount(b"/ab", What::Lofs(b"/x")), DONE),
        (Step::Mount(b"/a/b", What::Lofs(b"/y")), EBUSY),
        (Step::Unmount(b"/a"), EBUSY),
        (Step::Unmount(b"/a/b"), DONE),
        (Step::Unmount(b"/a"), DONE),
        (Step::Read(b"/a", b""), ENOENT),
    ],
    left: &[(b"/a-b", b"lofs", false), (b"/ab", b"lofs", false)],
};

#[test]
fn a_mount_with_one_below_stays(rt: HostRuntime) -> Result<(), Fail> {
    assert_eq!(rt; first_wrong(rt.alloc(), &BELOW)?, None);
    Ok(())
}

const SHOWN: Script = Script {
    steps: &[
        (Step::Mount(b"/d", What::Lofs(b"/")), DONE),
        (Step::Mount(b"/n", What::Other(b"nfs", b"server:/e")), DONE),
        (Step::Mount(b"/h", What::Other(b"hsfs", b"/")), DONE),
        (Step::Read(b"/d/x/y", b"/x/y"), DONE),
        (Step::Read(b"/d", b"/"), DONE),
        (Step::Read(b"/n/f", b"<nfs:server:/e>/f"), DONE),
        (Step::Read(b"/h/x", b"<hsfs:/>/x"), DONE),
        (Step::Read(b"/h", b"<hsfs:/>"), DONE),
        (Step::Read(b"/x", b""), ENOENT),
    ],
    left: &[
        (b"/d", b"lofs", false),
        (b"/h", b"hsfs", false),
        (b"/n", b"nfs", false),
    ],
};

#[test]
fn places_are_shown(rt: HostRuntime) -> Result<(), Fail> {
    assert_eq!(rt; first_wrong(rt.alloc(), &SHOWN)?, None);
    Ok(())
}

// In byte order `-` comes before `/`.
const HALT: Script = Script {
    steps: &[
        (Step::NothingIsLeft, DONE),
        (Step::Mount(b"/", What::Root(b"/zones/a/root")), DONE),
        (Step::Mount(b"/b/c", What::Lofs(b"/x")), DONE),
        (Step::Mount(b"/b-c", What::Lofs(b"/x")), DONE),
        (Step::Mount(b"/b", What::Lofs(b"/x")), DONE),
        (Step::Hold(b"/b/c"), DONE),
        (Step::LastIsHeld, DONE),
        (Step::LastIsHeld, DONE),
        (Step::Release(b"/b/c"), DONE),
        (Step::Last(b"/b/c"), DONE),
        (Step::Last(b"/b-c"), DONE),
        (Step::Last(b"/b"), DONE),
        (Step::Last(b"/"), DONE),
        (Step::NothingIsLeft, DONE),
    ],
    left: &[],
};

#[test]
fn a_halt_unmounts_the_greatest_first(rt: HostRuntime) -> Result<(), Fail> {
    assert_eq!(rt; first_wrong(rt.alloc(), &HALT)?, None);
    Ok(())
}

fn mount_at(alloc: Global, cell: &mut MountCell, number: u64) -> Result<Came, Fail> {
    let mut dir = Vec::new(alloc);
    push_numbered(&mut dir, b"/m", number)?;
    mount(alloc, cell, &dir, What::Lofs(b"/x"))
}

fn mounts_all(alloc: Global, cell: &mut MountCell) -> Result<bool, Fail> {
    for number in 0..128 {
        if mount_at(alloc, cell, number)? != DONE {
            return Ok(false);
        }
    }
    Ok(true)
}

// Whether a zone has 128 mounts at most. A directory that is one already comes first.
fn has_all(alloc: Global, cell: &mut MountCell) -> Result<bool, Fail> {
    Ok(
        mounts_all(alloc, cell)?
            && mount_at(alloc, cell, 128)? == TOO_MANY
            && mount_at(alloc, cell, 127)? == EBUSY
            && unmount(alloc, cell, b"/m5")? == DONE
            && mount_at(alloc, cell, 128)? == DONE,
    )
}

#[test]
fn there_are_128_mounts_at_most(rt: HostRuntime) -> Result<(), Fail> {
    let mut cell = MountCell::new(rt.alloc());
    assert!(rt; MOUNTS_MAX == 128 && has_all(rt.alloc(), &mut cell)?);
    Ok(())
}

// A mount in its two halves, of which the second wants no memory.
fn mount_in_halves(
    alloc: Global,
    cell: &mut MountCell,
    dir: &[u8],
    what: What,
) -> Result<Came, Fail> {
    let mount = mount_of(alloc, dir, what)?;
    if let Err(fault) = cell.check_mount(&mount.dir) {
        return Ok(Came::Fault(fault));
    }
    cell.reserve()?;
    cell.put_reserved(mount);
    Ok(DONE)
}

// Whether a mount comes, and another not in its place, once it is looked at.
fn decides_and_mounts(alloc: Global, cell: &mut MountCell) -> Result<bool, Fail> {
    Ok(
        mount_in_halves(alloc, cell, b"/a", What::ReadOnly(b"/x"))? == DONE
            && mount_in_halves(alloc, cell, b"/a", What::Lofs(b"/y"))? == EBUSY
            && lists(alloc, cell, &[(b"/a", b"lofs", true)])?,
    )
}

fn is_held(cell: &MountCell, dir: &AbsPath) -> bool {
    match cell.find(dir) {
        Some(entry) => entry.held,
        None => false,
    }
}

// Whether that mount is held, and free again.
fn decides_and_holds(alloc: Global, cell: &mut MountCell) -> Result<bool, Fail> {
    let dir = AbsPath::read(alloc, b"/a")?;
    let may = held(cell.check_hold(&dir)) == DONE && held(cell.check_release(&dir)) == HOLD_STATE;
    cell.put_hold(&dir);
    let is = is_held(cell, &dir) && told(cell.check_unmount(&dir)) == EBUSY;
    let back = held(cell.check_release(&dir)) == DONE;
    cell.lift_hold(&dir);
    Ok(may && is && back && !is_held(cell, &dir))
}

fn takes_out(cell: &mut MountCell, dir: &AbsPath) -> bool {
    cell.take_out(dir).is_some()
}

fn takes_last(cell: &mut MountCell) -> bool {
    cell.take_last().is_some()
}

// Whether it goes, and nothing more then.
fn decides_and_unmounts(alloc: Global, cell: &mut MountCell) -> Result<bool, Fail> {
    let dir = AbsPath::read(alloc, b"/a")?;
    let may = told(cell.check_unmount(&dir)) == DONE && cell.last().is_some();
    let gone = takes_out(cell, &dir) && !takes_out(cell, &dir) && !takes_last(cell);
    let empty = cell.entries().is_empty() && cell.last().is_none();
    Ok(may && gone && empty && told(cell.check_unmount(&dir)) == EINVAL)
}

fn decides_and_does(alloc: Global, cell: &mut MountCell) -> Result<bool, Fail> {
    Ok(
        decides_and_mounts(alloc, cell)?
            && decides_and_holds(alloc, cell)?
            && decides_and_unmounts(alloc, cell)?,
    )
}

#[test]
fn what_is_decided_of_mounts_is_done(rt: HostRuntime) -> Result<(), Fail> {
    let mut cell = MountCell::new(rt.alloc());
    assert!(rt; decides_and_does(rt.alloc(), &mut cell)?);
    Ok(())
}

// Each of these does something, or finds all as before where memory runs out, and then does it.
fn mounts(alloc: Global, cell: &mut MountCell) -> Result<bool, Fail> {
    let came = mount(alloc, cell, b"/a", What::Lofs(b"/x"))?;
    if came != MEMORY {
        return Ok(came == DONE);
    }
    Ok(cell.entries().is_empty() && mount(alloc, cell, b"/a", What::Lofs(b"/x"))? == DONE)
}

fn lists_one(alloc: Global, cell: &MountCell) -> Result<bool, Fail> {
    match cell.list(alloc) {
        Ok(mounts) => Ok(mounts.len() == 1),
        Err(_) => lists(alloc, cell, &[(b"/a", b"lofs", false)]),
    }
}

fn finds(alloc: Global, cell: &MountCell) -> Result<bool, Fail> {
    let came = find(alloc, cell, b"/a/b", false, b"/x/b")?;
    if came != MEMORY {
        return Ok(came == DONE);
    }
    Ok(find(alloc, cell, b"/a/b", false, b"/x/b")? == DONE)
}

fn all_are_done(alloc: Global, cell: &mut MountCell) -> Result<bool, Fail> {
    Ok(mounts(alloc, cell)? && lists_one(alloc, cell)? && finds(alloc, cell)?)
}

#[test]
fn want_of_memory_leaves_the_mounts(rt: HostRuntime) -> Result<(), Fail> {
    let mut cell = MountCell::new(rt.alloc());
    assert!(rt; all_are_done(rt.alloc(), &mut cell)?);
    Ok(())
}

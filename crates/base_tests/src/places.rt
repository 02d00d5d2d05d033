//! Places of paths as text, what is mounted where a path is named, and which types a zone may mount.
use kernel_objects::Errno;
use loopback_mounts::{Mount, MountCell, MountFault, may_mount_type};
use std::alloc::Global;
use std::process::Abort;
use std::test::Fail;
use zn_base::{AbsPath, Text};

// A zone with its mounts. What is asked of it goes through helpers without contracts, so that no test's proof follows
// what the cell holds.
#[derive(Drop)]
struct Zone {
    mounts: MountCell,
}

// A directory, a type, what is mounted, and whether it is read-only.
type Mounted = (&'static [u8], &'static [u8], &'static [u8], bool);

// A place, or why there is none.
type Placed = Result<&'static [u8], Errno>;

fn is_placed(answer: &Result<Text, MountFault>, wanted: Placed) -> bool {
    match (answer, wanted) {
        (Ok(place), Ok(wanted)) => place.bytes() == wanted,
        (Err(fault), Err(wanted)) => *fault == MountFault::Refused(wanted),
        _ => false,
    }
}

fn mount_of(alloc: Global, mounted: Mounted) -> Result<Mount, Fail> {
    let (dir, fstype, special, read_only) = mounted;
    Ok(Mount {
        dir: AbsPath::read(alloc, dir)?,
        fstype: Text::read(alloc, fstype)?,
        special: Text::read(alloc, special)?,
        read_only,
        by_process: true,
    })
}

impl Zone {
    fn new(alloc: Global, mounts: &[Mounted]) -> Result<Box<Zone>, Fail> {
        let zone = Zone {
            mounts: MountCell::new(alloc),
        };
        let mut zone = Box::new(alloc, zone)?;
        for mounted in mounts {
            zone.mounts.mount(mount_of(alloc, *mounted)?)?;
        }
        Ok(zone)
    }

    fn places(
        &self,
        alloc: Global,
        path: &[u8],
        write: bool,
        wanted: Placed,
    ) -> Result<bool, Fail> {
        let path = AbsPath::read(alloc, path)?;
        Ok(is_placed(&self.mounts.place(alloc, &path, write), wanted))
    }

    fn mounts(
        &self,
        alloc: Global,
        fstype: &[u8],
        special: &[u8],
        wanted: Placed,
    ) -> Result<bool, Fail> {
        let fstype = Text::read(alloc, fstype)?;
        let special = Text::read(alloc, special)?;
        Ok(is_placed(&self.mounts.special(alloc, &fstype, &special), wanted))
    }
}

const ROOT: Mounted = (b"/", b"root", b"/zones/a/root", false);

const MOUNTS: &[Mounted] = &[
    ROOT,
    (b"/m", b"lofs", b"/x", true),
    (b"/m/n", b"nfs", b"host:/e", false),
    (b"/g", b"lofs", b"/", false),
];

// A path, whether it is written, and its place.
const PLACES: &[(&[u8], bool, Placed)] = &[
    (b"/", true, Ok(b"/zones/a/root")),
    (b"/mn", false, Ok(b"/zones/a/root/mn")),
    (b"/m/o/p", false, Ok(b"/x/o/p")),
    (b"/m/o/p", true, Err(Errno::EROFS)),
    (b"/m/n/o", true, Ok(b"<nfs:host:/e>/o")),
    (b"/g", false, Ok(b"/")),
    (b"/g/h", false, Ok(b"/h")),
];

#[test]
fn paths_have_places(rt: HostRuntime) -> Result<(), Fail> {
    let zone = Zone::new(rt.alloc(), MOUNTS)?;
    for (path, write, place) in PLACES {
        assert!(rt; zone.places(rt.alloc(), path, *write, *place)?, "{path:?}");
    }
    Ok(())
}

#[test]
fn without_mounts_no_path_has_a_place(rt: HostRuntime) -> Result<(), Fail> {
    let zone = Zone::new(rt.alloc(), &[])?;
    assert!(rt; zone.places(rt.alloc(), b"/a", false, Err(Errno::ENOENT))?);
    Ok(())
}

// A type, what a call names, and what is mounted.
const SPECIALS: &[(&[u8], &[u8], Placed)] = &[
    (b"lofs", b"/export", Ok(b"/zones/a/root/export")),
    (b"lofs", b"/m/o", Ok(b"/x/o")),
    (b"lofs", b"/m/n/o", Ok(b"<nfs:host:/e>/o")),
    (b"lofs", b"/g", Ok(b"/")),
    (b"lofs", b"export", Err(Errno::ENOENT)),
    (b"nfs", b"host:/e", Ok(b"host:/e")),
    (b"hsfs", b"/m/o", Ok(b"/m/o")),
];

fn check_specials<R: Abort + AllocGlobal>(rt: &R, zone: &Zone) -> Result<(), Fail> {
    for (fstype, special, mounted) in SPECIALS {
        assert!(rt;
            zone.mounts(rt.alloc(), fstype, special, *mounted)?,
            "{special:?}"
        );
    }
    Ok(())
}

#[test]
fn a_path_is_mounted_as_its_place(rt: HostRuntime) -> Result<(), Fail> {
    let zone = Zone::new(rt.alloc(), MOUNTS)?;
    check_specials(&rt, &zone)
}

const LONG: &[Mounted] = &[(b"/d", b"lofs", &[b'a'; 4000], false)];

// `/d/`, and then so many bytes.
fn path_below(alloc: Global, count: usize) -> Result<Vec<u8>, Fail> {
    let mut path = Vec::from_slice(alloc, b"/d/")?;
    for _ in 0..count {
        path.push(b'x')?;
    }
    Ok(path)
}

const TOO_LONG: MountFault = MountFault::Refused(Errno::ENAMETOOLONG);

// How many bytes a path has below `/d/`, and how long its place is.
const LENGTHS: &[(usize, Result<usize, MountFault>)] = &[(95, Ok(4096)), (96, Err(TOO_LONG))];

impl Zone {
    // How long the place of a path is.
    fn length(&self, alloc: Global, path: &AbsPath) -> Result<usize, MountFault> {
        Ok(self.mounts.place(alloc, path, false)?.bytes().len())
    }

    fn is_long(
        &self,
        alloc: Global,
        count: usize,
        length: Result<usize, MountFault>,
    ) -> Result<bool, Fail> {
        let path = AbsPath::read(alloc, &path_below(alloc, count)?)?;
        Ok(self.length(alloc, &path) == length)
    }
}

fn check_lengths<R: Abort + AllocGlobal>(rt: &R, zone: &Zone) -> Result<(), Fail> {
    for (count, length) in LENGTHS {
        assert!(rt; zone.is_long(rt.alloc(), *count, *length)?, "{count}");
    }
    Ok(())
}

#[test]
fn a_place_has_4096_bytes_at_most(rt: HostRuntime) -> Result<(), Fail> {
    let zone = Zone::new(rt.alloc(), LONG)?;
    check_lengths(&rt, &zone)
}

// What a zone's fs-allowed says, a type, and whether the zone may mount it.
const TYPES: &[(Option<&[u8]>, &[u8], bool)] = &[
    (None, b"lofs", true),
    (None, b"hsfs", true),
    (None, b"nfs", true),
    (None, b"smbfs", true),
    (None, b"ufs", false),
    (None, b"root", false),
    (None, b"NFS", false),
    (Some(b""), b"nfs", true),
    (Some(b""), b"ufs", false),
    (Some(b"ufs,pcfs"), b"ufs", true),
    (Some(b"ufs,pcfs"), b"pcfs", true),
    (Some(b"ufs,pcfs"), b"nfs", true),
    (Some(b"ufs,pcfs"), b"fs", false),
    (Some(b"-"), b"lofs", true),
    (Some(b"-"), b"nfs", false),
    (Some(b"-"), b"-", false),
    (Some(b"-,pcfs,nfs"), b"lofs", true),
    (Some(b"-,pcfs,nfs"), b"pcfs", true),
    (Some(b"-,pcfs,nfs"), b"nfs", true),
    (Some(b"-,pcfs,nfs"), b"hsfs", false),
    (Some(b"ufs,-"), b"nfs", true),
];

fn may(alloc: Global, allowed: Option<&[u8]>, fstype: &[u8]) -> Result<bool, Fail> {
    let fstype = Text::read(alloc, fstype)?;
    let Some(allowed) = allowed else {
        return Ok(may_mount_type(None, &fstype));
    };
    let allowed = Text::read(alloc, allowed)?;
    Ok(may_mount_type(Some(&allowed), &fstype))
}

#[test]
fn types_are_allowed(rt: HostRuntime) -> Result<(), Fail> {
    for (allowed, fstype, wanted) in TYPES {
        assert!(rt;
            may(rt.alloc(), *allowed, fstype)? == *wanted,
            "{fstype:?} of {allowed:?}"
        );
    }
    Ok(())
}

//! Mounts in byte order, found by their directories.
ghost use Rattle.std.specs.Prelude.{◌≡◌, IfErr, IfOk, true};
ghost use Rattle.std.specs.Cmp.Lexicographic.{slice_cmp};
ghost use Rattle.std.specs.Option.{option_map};
ghost use Rattle.std.specs.Ordering.{nat_cmp};
ghost use Rattle.loopback_mounts.specs.Mounts.{in_order, mount_at};
ghost use Rattle.loopback_mounts.specs.Search.{IsGapFor, IsPlaceOf};

use crate::mount::MountEntry;
use std::cmp::Ordering;

// How the directory of a mount compares with another, in byte order.
fn compare(entry: &MountEntry, dir: &[u8]) -> Ordering
    ensures { result ≡ slice_cmp nat_cmp entry.now.mount.dir dir.now }
{
    entry.mount.dir.bytes().cmp(dir)
}

/// Where the mount at a directory is, or where it would go.
pub(crate) fn search(mounts: &[MountEntry], dir: &[u8]) -> Result<usize, usize>
    requires { in_order mounts.now ≡ true }
    ensures found { IfOk result (IsPlaceOf dir.now mounts.now) }
    ensures free { IfErr result (IsGapFor dir.now mounts.now) }
{
    mounts.binary_search_by(|entry| compare(entry, dir))
}

/// The mount at a directory.
pub(crate) fn find<'a>(mounts: &'a [MountEntry], dir: &[u8]) -> Option<&'a MountEntry>
    requires { in_order mounts.now ≡ true }
    ensures { option_map (λ m. m.now) result ≡ mount_at dir.now mounts.now }
{
    match search(mounts, dir) {
        Ok(at) => Some(&mounts[at]),
        Err(_) => None,
    }
}

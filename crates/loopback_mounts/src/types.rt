//! Which types of file systems a zone may mount.
ghost use Rattle.std.specs.Prelude.{◌≡◌, ◌||◌, bytes_eq};
ghost use Rattle.std.specs.List.{list_any, slice_split};
ghost use Rattle.std.specs.Option.{option_map};
ghost use Rattle.loopback_mounts.specs.Types.{allow_type, is_comma, is_usual, may_mount_type};

use zn_base::{Text, split_at_byte};

fn is_usual(fstype: &[u8]) -> bool
    ensures { result ≡ is_usual fstype.now }
{
    fstype == b"hsfs".as_slice() || fstype == b"nfs".as_slice() || fstype == b"smbfs".as_slice()
}

// Whether a type is one of the items of a list with commas.
fn is_among(items: &[u8], fstype: &[u8]) -> bool
    ensures { result ≡ list_any (bytes_eq fstype.now) (slice_split is_comma items.now) }
{
    for item in items.split(|byte| *byte == b',') {
        if fstype == item {
            return true;
        }
    }
    false
}

// Whether a type is one of the items, or one that a zone may mount without being told so.
fn is_among_or_usual(items: &[u8], fstype: &[u8]) -> bool
    ensures { result ≡ (list_any (bytes_eq fstype.now) (slice_split is_comma items.now) || is_usual fstype.now) }
{
    is_among(items, fstype) || is_usual(fstype)
}

// Whether a zone with this fs-allowed may mount a type.
#[tactic(auto, using(crate::proofs::Items::allow_dash, crate::proofs::Items::allow_other))]
fn allow_type(allowed: &[u8], fstype: &[u8]) -> bool
    ensures { result ≡ allow_type (slice_split is_comma allowed.now) fstype.now }
{
    let (first, more) = split_at_byte(allowed, b',');
    if first != b"-".as_slice() {
        return is_among_or_usual(allowed, fstype);
    }
    match more {
        Some(more) => is_among(more, fstype),
        None => false,
    }
}

/// Whether a zone may mount a type of file system, by fs-allowed of zonecfg(8), if it has one: lofs it may; what is an
/// item of the list, whose first item `-` is none; and hsfs, nfs and smbfs unless the first item is `-`.
pub fn may_mount_type(allowed: Option<&Text>, fstype: &Text) -> bool
    ensures { result ≡ may_mount_type (option_map (λ text. text.now) allowed.entry) fstype.now }
{
    if fstype.bytes() == b"lofs".as_slice() {
        return true;
    }
    match allowed {
        Some(text) => allow_type(text.bytes(), fstype.bytes()),
        None => is_usual(fstype.bytes()),
    }
}

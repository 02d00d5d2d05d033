//! Formatting a disk, so that a crash at any moment leaves one that stands for no body.
ghost use Rattle.std.specs.Prelude.{◌≡◌, ◌≢◌, ◌⊎◌, ◌↔◌, ◌+◌, ◌≤◌, ◌<◌, ◌^◌, [], List, ℕ, length, IfOk, IsTrue, OnOk, OnErr};
ghost use Rattle.zn_io.specs.Disk.{View, OnlyLooks, Leaves, IsDurable};
ghost use Rattle.zn_io.specs.Streams.{HasCause};
ghost use Rattle.zone_disk.specs.Image.{Stands, IsUnformatted, IsSame};
ghost use Rattle.zone_disk.specs.Bank.{KeepsMeaning, Formats, new_store};
ghost use Rattle.zone_disk.specs.Format.{IsHeadless, IsKind};

use crate::header::TAIL;
use zn_io::{Disk, Failed, put_durably};

/// What the front of a disk says.
#[derive(Clone, Copy)]
pub enum Kind {
    /// At most one byte, and that an open head gate.
    Blank,
    /// A closed head gate, and at most 17 bytes.
    Headless,
    /// Anything else: it is to be a store.
    Formatted,
}

fn kind_by(length: u64, first: u8) -> Kind
    ensures blank { (result ≡ Kind.Blank) → (length ≤ 1) }
    ensures headless { (result ≡ Kind.Headless) → (0 < length) × (length ≤ 17) × (first ≢ 1) }
    ensures formatted { (result ≡ Kind.Formatted) → (1 < length) × (17 < length ⊎ (first ≡ 1)) }
{
    if length == 0 || length == 1 && first == 1 {
        Kind::Blank
    } else if length <= 17 && first != 1 {
        Kind::Headless
    } else {
        Kind::Formatted
    }
}

fn kind_of<D: Disk>(disk: &mut D) -> Result<Kind, Failed>
    ensures kind { (D.view disk.old).Keeps → IfOk result (λ kind. IsKind kind (D.view disk.old).reads) }
    ensures looks { OnlyLooks (D.view disk.old) (D.view disk.new) }
    ensures cause { HasCause (D.view disk.old).faults (D.view disk.new).faults result }
{
    let length = disk.length()?;
    let mut head = [0];
    disk.read(0, &mut head)?;
    Ok(kind_by(length, head[0]))
}

// Writes a header whose head gate is opened last.
fn put_header<D: Disk>(disk: &mut D) -> Result<(), Failed>
    ensures any_moment { (D.view disk.old).Keeps → IsDurable (D.view disk.old) → IsHeadless (D.view disk.old).reads → Leaves (D.view disk.old) (D.view disk.new) (λ image. Stands image []) }
    ensures done { (D.view disk.old).Keeps → IsHeadless (D.view disk.old).reads → OnOk result ((D.view disk.new).reads ≡ new_store) }
    ensures durable { OnOk result (IsDurable (D.view disk.new)) }
    ensures model { (D.view disk.old).Keeps ↔ (D.view disk.new).Keeps }
    ensures cause { HasCause (D.view disk.old).faults (D.view disk.new).faults result }
{
    put_durably(disk, 1, &TAIL)?;
    put_durably(disk, 0, &[1])
}

// Writes a closed head gate first, so that a crash leaves no open one before what belongs after it.
fn format_blank<D: Disk>(disk: &mut D) -> Result<(), Failed>
    ensures any_moment { (D.view disk.old).Keeps → IsDurable (D.view disk.old) → length (D.view disk.old).reads ≤ 1 → Leaves (D.view disk.old) (D.view disk.new) (λ image. Stands image []) }
    ensures done { (D.view disk.old).Keeps → length (D.view disk.old).reads ≤ 1 → OnOk result ((D.view disk.new).reads ≡ new_store) }
    ensures durable { OnOk result (IsDurable (D.view disk.new)) }
    ensures model { (D.view disk.old).Keeps ↔ (D.view disk.new).Keeps }
    ensures cause { HasCause (D.view disk.old).faults (D.view disk.new).faults result }
{
    put_durably(disk, 0, &[0])?;
    put_header(disk)
}

// Formats a disk that is unformatted, and says whether it was.
fn format<D: Disk>(disk: &mut D) -> Result<bool, Failed>
    ensures unformatted { (D.view disk.old).Keeps → IfOk result (λ was. IsTrue was ↔ IsUnformatted (D.view disk.old).reads) }
    ensures any_moment { (D.view disk.old).Keeps → IsDurable (D.view disk.old) → Leaves (D.view disk.old) (D.view disk.new) (IsSame (D.view disk.old).reads) }
    ensures formats { (D.view disk.old).Keeps → OnOk result (Formats (D.view disk.old).reads (D.view disk.new).reads) }
    ensures other { (D.view disk.old).Keeps → (IsUnformatted (D.view disk.old).reads → ⊥) → (D.view disk.new).reads ≡ (D.view disk.old).reads }
    ensures durable { (D.view disk.old).Keeps → IsDurable (D.view disk.old) → OnOk result (IsDurable (D.view disk.new)) }
    ensures model { (D.view disk.old).Keeps ↔ (D.view disk.new).Keeps }
    ensures cause { HasCause (D.view disk.old).faults (D.view disk.new).faults result }
{
    match kind_of(disk)? {
        Kind::Blank => format_blank(disk)?,
        Kind::Headless => put_header(disk)?,
        Kind::Formatted => return Ok(false),
    }
    Ok(true)
}

/// Syncs, formats a disk that is unformatted, and says whether it was. A crash at any moment leaves what
/// stands for the same list as before.
pub fn prepare<D: Disk>(disk: &mut D) -> Result<bool, Failed>
    ensures unformatted { (D.view disk.old).Keeps → IfOk result (λ was. IsTrue was ↔ IsUnformatted (D.view disk.old).reads) }
    ensures any_moment { (D.view disk.old).Keeps → Leaves (D.view disk.old) (D.view disk.new) (KeepsMeaning (D.view disk.old)) }
    ensures formats { (D.view disk.old).Keeps → OnOk result (Formats (D.view disk.old).reads (D.view disk.new).reads) }
    ensures other { (D.view disk.old).Keeps → (IsUnformatted (D.view disk.old).reads → ⊥) → (D.view disk.new).reads ≡ (D.view disk.old).reads }
    ensures durable { (D.view disk.old).Keeps → OnOk result (IsDurable (D.view disk.new)) }
    ensures model { (D.view disk.old).Keeps ↔ (D.view disk.new).Keeps }
    ensures cause { HasCause (D.view disk.old).faults (D.view disk.new).faults result }
{
    disk.sync()?;
    format(disk)
}

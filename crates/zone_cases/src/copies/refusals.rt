//! Copies of why lines, calls and requests are refused.
ghost use Rattle.std.specs.Prelude.{◌≡◌, IfOk};

use crate::replies::Refusal;
use config_verify::Flaw;
use std::alloc::{AllocError, Global};

/// An equal flaw.
pub(crate) fn copy_flaw(alloc: Global, flaw: &Flaw) -> Result<Flaw, AllocError>
    ensures { IfOk result (λ copy. copy ≡ flaw.now) }
{
    Ok(match flaw {
        Flaw::Memory => Flaw::Memory,
        Flaw::NoZonepath => Flaw::NoZonepath,
        Flaw::MissingProperty(kind, property) => Flaw::MissingProperty(*kind, *property),
        Flaw::NetForm(place) => Flaw::NetForm(*place),
        Flaw::BadAddress(address) => Flaw::BadAddress(address.copy(alloc)?),
        Flaw::SameDir(dir) => Flaw::SameDir(dir.copy(alloc)?),
        Flaw::UnknownBrand(brand) => Flaw::UnknownBrand(brand.copy(alloc)?),
        Flaw::AttrForm(name) => Flaw::AttrForm(name.copy(alloc)?),
    })
}

/// An equal refusal.
pub(crate) fn copy_refusal(alloc: Global, refusal: &Refusal) -> Result<Refusal, AllocError>
    ensures { IfOk result (λ copy. copy ≡ refusal.now) }
{
    Ok(match refusal {
        Refusal::BadName(fault) => Refusal::BadName(*fault),
        Refusal::Edit(fault) => Refusal::Edit(*fault),
        Refusal::Flawed(flaw) => Refusal::Flawed(copy_flaw(alloc, flaw)?),
        Refusal::NeedForce => Refusal::NeedForce,
        Refusal::WrongState(state) => Refusal::WrongState(*state),
        Refusal::Denied(pool) => Refusal::Denied(*pool),
        Refusal::NoZone => Refusal::NoZone,
        Refusal::Changed(seen, stored) => Refusal::Changed(*seen, *stored),
        Refusal::Waiting(ticket) => Refusal::Waiting(*ticket),
        Refusal::DeskFull => Refusal::DeskFull,
        Refusal::DeskInUse => Refusal::DeskInUse,
        Refusal::Usage => Refusal::Usage,
        Refusal::NoProcess => Refusal::NoProcess,
        Refusal::Duplicate => Refusal::Duplicate,
        Refusal::TooMany(most) => Refusal::TooMany(*most),
        Refusal::TooManyMounts => Refusal::TooManyMounts,
        Refusal::HoldState => Refusal::HoldState,
        Refusal::NoMount => Refusal::NoMount,
        Refusal::Errno(errno) => Refusal::Errno(*errno),
        Refusal::NotRunning(state) => Refusal::NotRunning(*state),
        Refusal::Taken => Refusal::Taken,
        Refusal::Privilege(fault) => Refusal::Privilege(*fault),
    })
}

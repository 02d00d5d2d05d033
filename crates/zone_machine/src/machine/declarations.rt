//! What the whole system declares for its zones to ask for. All memory is taken before anything is changed.
ghost use Rattle.std.specs.Prelude.{◌≡◌, IfOk, OnErr, OnOk};
ghost use Rattle.zone_machine.specs.Code.Cells.{common_in};
ghost use Rattle.zone_cases.specs.State.Declarations.{declare_refusal, declaring};
ghost use Rattle.zone_cases.specs.declared.events.Declaration.TheVariants as declarations;

use crate::machine::shared::Shared;
use datalink_table::{ClaimFault, ClaimKind};
use kernel_objects::KernelFault;
use std::alloc::{AllocError, Global};
use zn_base::{AbsPath, Text};
use zone_cases::{Declaration, Refusal};

// A link, an address or a dataset is declared, or it is told why not.
fn declare_item(
    alloc: Global,
    shared: &mut Shared,
    kind: ClaimKind,
    item: &Text,
) -> Result<Option<Refusal>, AllocError>
    ensures refusal { IfOk result (λ r. r ≡ declare_refusal (declarations.Item kind item.now) (common_in shared.old).declared) }
    ensures declared { OnOk result (common_in shared.new ≡ record (common_in shared.old) { declared = declaring (declarations.Item kind item.now) (common_in shared.old).declared }) }
    ensures memory { OnErr result (common_in shared.new ≡ common_in shared.old) }
    ensures rows { shared.new.rows ≡ shared.old.rows }
    ensures used { shared.new.used ≡ shared.old.used }
{
    match shared.claims.check_declare(kind, item) {
        Ok(()) => {}
        Err(ClaimFault::Duplicate) => return Ok(Some(Refusal::Duplicate)),
        Err(ClaimFault::TooMany(most)) => return Ok(Some(Refusal::TooMany(most))),
        Err(ClaimFault::Denied(_) | ClaimFault::Memory) => unreachable!(),
    }
    let item = item.copy(alloc)?;
    shared.claims.reserve_declared()?;
    shared.claims.declare_reserved(kind, item);
    Ok(None)
}

// A device is declared, or it is told why not.
fn declare_device(
    alloc: Global,
    shared: &mut Shared,
    path: &AbsPath,
) -> Result<Option<Refusal>, AllocError>
    ensures refusal { IfOk result (λ r. r ≡ declare_refusal (declarations.Device path.now) (common_in shared.old).declared) }
    ensures declared { OnOk result (common_in shared.new ≡ record (common_in shared.old) { declared = declaring (declarations.Device path.now) (common_in shared.old).declared }) }
    ensures memory { OnErr result (common_in shared.new ≡ common_in shared.old) }
    ensures rows { shared.new.rows ≡ shared.old.rows }
    ensures used { shared.new.used ≡ shared.old.used }
{
    match shared.kernel.declare_device(path.copy(alloc)?) {
        Ok(()) => Ok(None),
        Err(KernelFault::Duplicate) => Ok(Some(Refusal::Duplicate)),
        Err(KernelFault::TooMany(most)) => Ok(Some(Refusal::TooMany(most))),
        Err(KernelFault::Memory) => Err(AllocError),
        Err(KernelFault::Refused(_)) => unreachable!(),
    }
}

/// Something is declared, or it is told why not.
pub(crate) fn declare(
    alloc: Global,
    shared: &mut Shared,
    what: &Declaration,
) -> Result<Option<Refusal>, AllocError>
    ensures refusal { IfOk result (λ r. r ≡ declare_refusal what.now (common_in shared.old).declared) }
    ensures declared { OnOk result (common_in shared.new ≡ record (common_in shared.old) { declared = declaring what.now (common_in shared.old).declared }) }
    ensures memory { OnErr result (common_in shared.new ≡ common_in shared.old) }
    ensures rows { shared.new.rows ≡ shared.old.rows }
    ensures used { shared.new.used ≡ shared.old.used }
{
    match what {
        Declaration::Item(kind, item) => declare_item(alloc, shared, *kind, item),
        Declaration::Device(path) => declare_device(alloc, shared, path),
    }
}

//! The brand that runs have: `ipkg`, which lets all changes proceed.
ghost use Rattle.std.specs.Prelude.{◌≡◌, ◌∷◌, [], IfOk, IsOkUnless};
ghost use Rattle.brand_hooks.specs.Hooks.{AllFollow, AnswersTable};
ghost use Rattle.brand_hooks.specs.Tables.{proceeding};
ghost use Rattle.brand_hooks.specs.declared.table.HookAnswer.TheVariants.{Proceed};

use brand_hooks::{Brand, BrandFault, Brands, Change, HookAnswer, HookTable};
use std::alloc::Global;

pub type Hook = fn(&Change) -> HookAnswer;

pub fn proceeds(_change: &Change) -> HookAnswer
    ensures { result ≡ Proceed }
{
    HookAnswer::Proceed
}

// A list of one brand.
fn alone<F: Fn(&Change) -> HookAnswer>(
    alloc: Global,
    brand: Brand<F>,
) -> Result<Vec<Brand<F>>, BrandFault>
    ensures list { IfOk result (λ list. list.items ≡ brand ∷ []) }
    ensures memory { IsOkUnless result BrandFault.Memory }
{
    let mut list = Vec::new(alloc);
    if list.push(brand).is_err() {
        return Err(BrandFault::Memory);
    }
    Ok(list)
}

/// The brand, of its hook.
pub fn make_brands<F: Fn(&Change) -> HookAnswer>(
    alloc: Global,
    ipkg: F,
) -> Result<Brands<F>, BrandFault>
    requires ipkg { AnswersTable F.Fn ipkg proceeding }
    ensures follow { IfOk result (AllFollow F.Fn) }
{
    let ipkg = Brand::new(alloc, b"ipkg", HookTable::proceed(), ipkg)?;
    let list = alone(alloc, ipkg)?;
    Brands::new(alloc, list)
}

//! The brands that runs have: `ipkg`, which lets all changes proceed, and `lx`, which refuses that a zone is cloned.
ghost use Rattle.std.specs.Prelude.{◌≡◌, ◌∷◌, [], IfOk, IsOkUnless, true};
ghost use Rattle.brand_hooks.specs.Hooks.{AllFollow, AnswersTable};
ghost use Rattle.brand_hooks.specs.Tables.{answer_at, proceeding, with_answer};
ghost use Rattle.brand_hooks.specs.declared.change.ChangeKind.TheVariants.{Clone};
ghost use Rattle.brand_hooks.specs.declared.table.HookAnswer.TheVariants.{Proceed, Refuse};

use brand_hooks::{Brand, BrandFault, Brands, Change, ChangeKind, HookAnswer, HookTable};
use std::alloc::Global;

pub type Hook = fn(&Change) -> HookAnswer;

const BEFORE_CLONE: Change = Change {
    before: true,
    kind: ChangeKind::Clone,
};

pub fn proceeds(_change: &Change) -> HookAnswer
    ensures { result ≡ Proceed }
{
    HookAnswer::Proceed
}

pub fn refuses_clones(change: &Change) -> HookAnswer
    ensures { result ≡ answer_at change.now (with_answer (record { before = true; kind = Clone }) (Refuse 7) proceeding) }
{
    match change {
        Change {
            before: true,
            kind: ChangeKind::Clone,
        } => HookAnswer::Refuse(7),
        _ => HookAnswer::Proceed,
    }
}

// A list of two brands.
fn pair<F: Fn(&Change) -> HookAnswer>(
    alloc: Global,
    first: Brand<F>,
    second: Brand<F>,
) -> Result<Vec<Brand<F>>, BrandFault>
    ensures list { IfOk result (λ list. list.items ≡ first ∷ second ∷ []) }
    ensures memory { IsOkUnless result BrandFault.Memory }
{
    let mut list = Vec::new(alloc);
    if list.push(first).is_err() || list.push(second).is_err() {
        return Err(BrandFault::Memory);
    }
    Ok(list)
}

/// The two brands, of their hooks.
pub fn make_brands<F: Fn(&Change) -> HookAnswer>(
    alloc: Global,
    ipkg: F,
    lx: F,
) -> Result<Brands<F>, BrandFault>
    requires ipkg { AnswersTable F.Fn ipkg proceeding }
    requires lx { AnswersTable F.Fn lx (with_answer (record { before = true; kind = Clone }) (Refuse 7) proceeding) }
    ensures follow { IfOk result (AllFollow F.Fn) }
{
    let clones = HookTable::proceed().with(&BEFORE_CLONE, HookAnswer::Refuse(7));
    let ipkg = Brand::new(alloc, b"ipkg", HookTable::proceed(), ipkg)?;
    let lx = Brand::new(alloc, b"lx", clones, lx)?;
    let list = pair(alloc, ipkg, lx)?;
    Brands::new(alloc, list)
}

//! Machines over disks in memory, with one brand, which lets all changes proceed.
ghost use Rattle.std.specs.Prelude.{◌≡◌, ◌∷◌, [], IfOk, IsOkUnless};
ghost use Rattle.brand_hooks.specs.Hooks.{AllFollow, AnswersTable};
ghost use Rattle.brand_hooks.specs.Tables.{proceeding};
ghost use Rattle.brand_hooks.specs.declared.table.HookAnswer.TheVariants.{Proceed};
ghost use Rattle.zone_machine.specs.Code.Decided.{AsksBrands, MayGoOn};

use brand_hooks::{Brand, BrandFault, Brands, Change, HookAnswer, HookTable};
use std::alloc::{AllocError, Global};
use std::test::Fail;
use zn_io::{Disk, MemDisk, Room};
use zone_machine::Machine;

pub type Hook = fn(&Change) -> HookAnswer;

pub fn proceeds(_change: &Change) -> HookAnswer
    ensures { result ≡ Proceed }
{
    HookAnswer::Proceed
}

fn alone<F: Fn(&Change) -> HookAnswer>(
    alloc: Global,
    brand: Brand<F>,
) -> Result<Vec<Brand<F>>, BrandFault>
    ensures list { IfOk result (λ list. list.items ≡ brand ∷ []) }
    ensures memory { IsOkUnless result BrandFault.Memory }
{
    let mut list = Vec::new(alloc);
    if list.push(brand).is_err() {
        return Err(BrandFault::Memory);
    }
    Ok(list)
}

/// The brand, of its hook.
pub fn make_brands<F: Fn(&Change) -> HookAnswer>(
    alloc: Global,
    ipkg: F,
) -> Result<Brands<F>, BrandFault>
    requires { AnswersTable F.Fn ipkg proceeding }
    ensures follow { IfOk result (AllFollow F.Fn) }
{
    let ipkg = Brand::new(alloc, b"ipkg", HookTable::proceed(), ipkg)?;
    let list = alone(alloc, ipkg)?;
    Brands::new(alloc, list)
}

/// A disk that has nothing yet.
pub fn empty_disk(alloc: Global) -> Result<MemDisk, AllocError> {
    let room = Room {
        length: 65_536,
        calls: 2048,
        written: 131_072,
    };
    MemDisk::new(alloc, Vec::new(alloc), room, Vec::new(alloc), None)
}

/// A machine over a disk.
pub fn opened<'b, D: Disk + Drop, F: Fn(&Change) -> HookAnswer>(
    alloc: Global,
    disk: D,
    brands: &'b Brands<F>,
) -> Result<Machine<'b, D, F>, Fail>
    requires { AllFollow F.Fn brands.now }
    ensures asks { IfOk result (AsksBrands F.Fn) }
    ensures ready { IfOk result (MayGoOn D.view) }
{
    match Machine::open(alloc, disk, brands) {
        Ok(machine) => Ok(machine),
        Err((fault, _disk)) => Err(fault.into()),
    }
}

//! The store is opened, and the disk of a machine is handed back.
ghost use Rattle.std.specs.Prelude.{◌≡◌, ◌⊎◌, Err, IfErr, IfOk, List};
ghost use Rattle.brand_hooks.specs.Brands.{tables_of};
ghost use Rattle.brand_hooks.specs.Hooks.{AllFollow};
ghost use Rattle.commit_journal.specs.Store.{OpensStore};
ghost use Rattle.commit_journal.specs.declared.records.Commit.{Commit};
ghost use Rattle.zn_io.specs.Streams.{Rose};
ghost use Rattle.zone_cases.specs.State.{State};
ghost use Rattle.zone_machine.specs.Code.Decided.{AsksBrands, MayGoOn};
ghost use Rattle.zone_machine.specs.Code.Openings.{StandsFor};
ghost use Rattle.zone_machine.specs.Code.Records.{Passes};
ghost use Rattle.zone_machine.specs.Machine.{opening};
ghost use Rattle.zone_machine.specs.Machine.Images.{Holds, IsStoreOf};
ghost use Rattle.zones_run.specs.Recording.{KeepsStore};

use brand_hooks::{Brands, Change, HookAnswer};
use commit_journal::{StoreFault, opens_store_one_way};
use std::alloc::Global;
use zn_io::Disk;
use zone_machine::Machine;

/// Opens the store on a disk, which keeps its commits however that ends. Where it is one, only memory or the disk can fail. Whatever the
/// disk is, the machine stands for the store of some commits.
pub(crate) fn open<'b, D: Disk, F: Fn(&Change) -> HookAnswer>(
    alloc: Global,
    disk: D,
    brands: &'b Brands<F>,
) -> Result<Machine<'b, D, F>, (StoreFault, D)>
    requires { AllFollow F.Fn brands.now }
    ensures found { IfOk result (λ m. (R : List Commit) × StandsFor (opening (tables_of brands.now) R) m × ((D.view disk).Keeps → Holds R (D.view disk).reads)) }
    ensures opened { (R : List Commit) → IsStoreOf (D.view disk) R → IfOk result (λ m. StandsFor (opening (tables_of brands.now) R) m × KeepsStore R (D.view disk) (D.view m.bank.disk)) }
    ensures refused { (R : List Commit) → IsStoreOf (D.view disk) R → IfErr result (λ e. ((e.0 ≡ StoreFault.Memory) ⊎ (e.0 ≡ StoreFault.DiskFault)) × KeepsStore R (D.view disk) (D.view e.1)) }
    ensures refuses { (D.view disk).Keeps → IfErr result (λ e. (e.0 ≡ StoreFault.Memory) ⊎ ((e.0 ≡ StoreFault.DiskFault) ⊎ OpensStore (D.view disk).reads (Err e.0))) }
    ensures cause { IfErr result (λ e. e.0 ≡ StoreFault.DiskFault → Rose (D.view disk).faults (D.view e.1).faults) }
    ensures ready { IfOk result (MayGoOn D.view) }
    ensures asks { IfOk result (AsksBrands F.Fn) }
    ensures passes { IfOk result (λ m. Passes (D.view disk) (D.view m.bank.disk)) }
    ensures passes_err { IfErr result (λ e. Passes (D.view disk) (D.view e.1)) }
{
    // A law: an image stands for the records of one store, or for none.
    opens_store_one_way();
    Machine::open(alloc, disk, brands)
}

/// Hands back the disk of a machine by which nothing was done.
pub(crate) fn hand_back<D: Disk, F: Fn(&Change) -> HookAnswer>(machine: Machine<'_, D, F>) -> D
    requires { MayGoOn D.view machine }
    ensures same { result ≡ machine.entry.bank.disk }
    ensures kept { (S : State) → StandsFor S machine.entry → (D.view machine.entry.bank.disk).Keeps → KeepsStore S.commits (D.view machine.entry.bank.disk) (D.view machine.entry.bank.disk) }
{
    machine.into_disk()
}

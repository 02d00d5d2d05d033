//! The command `index`: a line for each zone that the store has.
ghost use Rattle.std.specs.Prelude.{◌≡◌, IfOk, List};
ghost use Rattle.brand_hooks.specs.Brands.{Tabled};
ghost use Rattle.commit_journal.specs.declared.records.Commit.{Commit};
ghost use Rattle.index_file.specs.Index.{index_text};
ghost use Rattle.zone_machine.specs.Code.Decided.{MayGoOn};
ghost use Rattle.zone_machine.specs.Code.Openings.{Begins, StandsFor};
ghost use Rattle.zone_machine.specs.Machine.{opening};
ghost use Rattle.zone_machine.specs.Machine.Indexed.{index_of};

use brand_hooks::{Change, HookAnswer};
use index_file::print_index;
use std::alloc::{AllocError, Global};
use zn_io::Disk;
use zone_machine::Machine;

/// The index text of the stored zones.
pub fn index_text<D: Disk, F: Fn(&Change) -> HookAnswer>(
    alloc: Global,
    machine: &Machine<'_, D, F>,
) -> Result<Vec<u8>, AllocError>
    requires stands { (brands : List Tabled) × Begins brands machine.now }
    requires ready { MayGoOn D.view machine.now }
    ensures text { IfOk result (λ text. (brands : List Tabled) (R : List Commit) → StandsFor (opening brands R) machine.now → text.items ≡ index_text (index_of R)) }
{
    match machine.index(alloc) {
        Ok(rows) => match print_index(alloc, &rows) {
            Ok(text) => Ok(text),
            Err(_) => Err(AllocError),
        },
        Err(_) => Err(AllocError),
    }
}

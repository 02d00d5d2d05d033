//! What becomes of a zone's console. All room has been taken, so nothing here takes memory or fails.
ghost use Rattle.std.specs.Prelude.{◌≡◌, ℕ, false, is_some, nat_eq};
ghost use Rattle.zn_base.specs.Names.{Name};
ghost use Rattle.zone_pools.specs.Owners.{owner};
ghost use Rattle.zone_cases.specs.declared.cases.ConsoleEdit as case_types;
ghost use Rattle.zone_machine.specs.declared.machine.shared.Shared as shared_types;
ghost use Rattle.zone_machine.specs.Code.Cells.{Does, kept};
ghost use Rattle.zone_cases.specs.State.Edits as edits;
ghost use Rattle.zone_cases.specs.State.Edits.{console_gone_world, edit_console, edits_world};
ghost use Rattle.zone_cases.specs.Code.Consoles.{HasConsole, console_after, console_edits, console_in};
ghost use Rattle.console_link.specs.Consoles.{new_console};
ghost use Rattle.zone_machine.specs.Code.Rooms.{HasRoomToSit, IsOpenTo};

use crate::machine::shared::Shared;
use crate::machine::sitting::end;
use console_link::Console;
use zone_cases::{Cell, ConsoleEdit, Ended};

// A zone's console is as a new one.
fn renew(cell: &mut Cell)
    ensures new { console_in cell.new.console ≡ new_console }
    ensures some { is_some cell.new.console ≡ is_some cell.old.console }
    ensures same { cell.new ≡ record cell.old { console = cell.new.console } }
{
    if let Some(console) = &mut cell.console {
        console.detach();
        console.clear();
    }
}

/// Nothing is left of the zone's console.
pub(crate) fn drop_console(cell: &mut Cell, shared: &mut Shared)
    ensures does { (z : Name) → Does z (console_gone_world false) kept cell.old shared.old cell.new shared.new }
    ensures room { HasRoomToSit cell.old shared.old → HasRoomToSit cell.new shared.new }
    ensures open { (z : Name) (k : ℕ) → IsOpenTo z (owner nat_eq shared.old.sessions k) → IsOpenTo z (owner nat_eq shared.new.sessions k) }
    ensures objects { (cell.new.kernel ≡ cell.old.kernel) × (cell.new.mounts ≡ cell.old.mounts) × (cell.new.claims ≡ cell.old.claims) }
    ensures console { (edit : case_types.ConsoleEdit) → HasConsole edit cell.old.console → HasConsole edit cell.new.console }
    ensures ups { shared.new.ups ≡ shared.old.ups }
    ensures brands { shared.new.brands ≡ shared.old.brands }
    ensures rows { shared.new.rows ≡ shared.old.rows }
    ensures used { shared.new.used ≡ shared.old.used }
    ensures desk { cell.new.desk ≡ cell.old.desk }
{
    renew(cell);
    end(cell, shared, Ended::Console);
}

// A session has the zone's console from now on, and takes what is kept.
fn hold_console(console: &mut Console, number: Option<u8>)
    ensures { console.new ≡ edit_console number edits.Hold console.old }
{
    if let Some(number) = number {
        // Where none has it, that changes nothing.
        console.detach();
        console.attach_free(number);
    }
    console.clear();
}

// What becomes of a console.
fn edit_console(console: &mut Console, number: Option<u8>, edit: ConsoleEdit)
    ensures { console.new ≡ console_after number edit console.old }
{
    match edit {
        ConsoleEdit::Nothing => {}
        ConsoleEdit::Hold => hold_console(console, number),
        ConsoleEdit::Take => console.clear(),
        ConsoleEdit::Leave => {
            console.detach();
        }
        ConsoleEdit::Line(line) => console.write_line(line.bytes()),
    }
}

/// What becomes of the zone's console. Where there is none yet, it is as a new one, and stays so.
#[inline(never)]
pub(crate) fn change_console(cell: &mut Cell, number: Option<u8>, edit: ConsoleEdit)
    requires { HasConsole edit cell.old.console }
    ensures does { (z : Name) (s : shared_types.Shared) → Does z (edits_world number (console_edits edit)) kept cell.old s cell.new s }
    ensures desk { cell.new.desk ≡ cell.old.desk }
{
    if let Some(console) = &mut cell.console {
        edit_console(console, number, edit);
    }
}

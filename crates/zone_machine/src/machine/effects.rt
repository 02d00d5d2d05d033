//! What an event does, on its zone's cell and on the shared part. All room for it has been taken, so nothing here takes
//! memory or fails.
ghost use Rattle.std.specs.Prelude.{◌≡◌, IfSome, nat_eq};
ghost use Rattle.zn_base.specs.Names.{Name};
ghost use Rattle.zone_pools.specs.Owners.{owner};
ghost use Rattle.zone_cases.specs.Code.Cases.{IsCaseOf, IsNamedCase, decision_of};
ghost use Rattle.zone_machine.specs.Code.Works.{IsNamedWork, IsStoredOf, arrival_by, rest_of, told_by, work_world};
ghost use Rattle.zone_cases.specs.Code.Doings.{sits};
ghost use Rattle.zoneadmd_steps.specs.Arrivals.{in_store};
ghost use Rattle.zone_cases.specs.declared.cases.ConsoleEdit as case_types;
ghost use Rattle.zone_machine.specs.declared.machine.shared.Shared as shared_types;
ghost use Rattle.zone_machine.specs.Code.Cells.{Acts, Does};
ghost use Rattle.zone_machine.specs.Code.Needs.{pools_in};
ghost use Rattle.zone_machine.specs.Code.Records.{HasNumber, rows_with, used_with};
ghost use Rattle.commit_journal.specs.Zones.{rows_of};
ghost use Rattle.zone_machine.specs.Machine.Common.{came_common};
ghost use Rattle.zone_cases.specs.State.Decisions.{act_of, acts_world};
ghost use Rattle.zone_cases.specs.State.Edits as edits;
ghost use Rattle.zone_cases.specs.Code.Consoles.{HasConsole};
ghost use Rattle.zone_machine.specs.Code.Rooms.{HasRoom, HasRoomOf, HasRoomToChange, HasRoomToSit, IsFreeOf, IsOpenTo};

use crate::machine::consoles::change_console;
use crate::machine::objects::{change_objects, end_last};
use crate::machine::settling::settle;
use crate::machine::shared::Shared;
use crate::machine::sitting::sit_down;
use crate::machine::storing::store_some;
use crate::machine::ups::mark;
use crate::machine::work::Work;
use std::alloc::Global;
use zn_base::ZoneName;
use zone_cases::{Case, Cell, Reply};
use zone_pools::Grant;

// What an event does beside its change of the desk.
fn carry_out(
    alloc: Global,
    cell: &mut Cell,
    shared: &mut Shared,
    number: Option<u8>,
    work: Work,
) -> Reply
    requires free { (z : Name) → IsStoredOf z work.stored → IsFreeOf z (arrival_by work.stored) (pools_in shared.old) }
    requires stored { HasRoomOf (arrival_by work.stored) shared.old }
    requires objects { HasRoomToChange work.objects cell.old }
    requires sits { IfSome work.sits (λ s. HasRoomToSit cell.old shared.old) }
    requires console { HasConsole work.console cell.old.console }
    ensures reply { result ≡ told_by work }
    ensures does { (z : Name) → IsNamedWork z work → IfSome number (λ n. IsOpenTo z (owner nat_eq shared.old.sessions n)) → Does z (work_world number work) (came_common z (arrival_by work.stored)) cell.old shared.old cell.new shared.new }
    ensures ups { shared.new.ups ≡ shared.old.ups }
    ensures brands { shared.new.brands ≡ shared.old.brands }
    ensures rows { (z : Name) → IsNamedWork z work → rows_of shared.new.rows.entries ≡ rows_with z (arrival_by work.stored) (rows_of shared.old.rows.entries) }
    ensures used { (z : Name) → IsNamedWork z work → shared.new.used ≡ used_with z (arrival_by work.stored) shared.old.used }
    ensures desk { cell.new.desk ≡ cell.old.desk }
{
    store_some(cell, shared, work.stored);
    sit_down(cell, shared, number, work.sits);
    let gone = change_objects(alloc, cell, shared, work.objects);
    change_console(cell, number, work.console);
    end_last(cell, shared, work.ended);
    work.reply.with_gone(gone)
}

/// A case is done under a grant that fits, but for what it brings to the kernel.
pub(crate) fn perform(
    alloc: Global,
    cell: &mut Cell,
    shared: &mut Shared,
    zone: &ZoneName,
    number: Option<u8>,
    case: Case,
    grant: Grant,
) -> Reply
    requires of { IsCaseOf cell.old.desk case }
    requires room { HasRoom zone.now case cell.old shared.old }
    requires named { IsNamedCase zone.now case }
    requires numbered { HasNumber case grant }
    requires free { IsFreeOf zone.now (in_store (act_of (decision_of cell.old.desk case) grant).came) (pools_in shared.old) }
    ensures reply { result ≡ (act_of (decision_of cell.old.desk case) grant).effect.reply }
    ensures does { IsNamedCase zone.now case → IfSome number (λ n. IsOpenTo zone.now (owner nat_eq shared.old.sessions n))
        → Acts zone.now (acts_world number (rest_of (act_of (decision_of cell.old.desk case) grant))) (came_common zone.now (in_store (act_of (decision_of cell.old.desk case) grant).came)) cell.old shared.old cell.new shared.new }
    ensures brands { shared.new.brands ≡ shared.old.brands }
    ensures rows { rows_of shared.new.rows.entries ≡ rows_with zone.now (in_store (act_of (decision_of cell.old.desk case) grant).came) (rows_of shared.old.rows.entries) }
    ensures used { shared.new.used ≡ used_with zone.now (in_store (act_of (decision_of cell.old.desk case) grant).came) shared.old.used }
{
    let was = cell.desk.active().is_some();
    let work = settle(alloc, &mut cell.desk, case, grant);
    let is = cell.desk.active().is_some();
    let reply = carry_out(alloc, cell, shared, number, work);
    mark(&mut shared.ups, zone, was, is);
    reply
}

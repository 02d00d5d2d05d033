//! What sessions do from now on. All room has been taken, so nothing here takes memory or fails.
ghost use Rattle.std.specs.Prelude.{◌∷◌, ◌≡◌, [], ℕ, IfSome, None, Option, Some, nat_eq};
ghost use Rattle.zn_base.specs.Names.{Name};
ghost use Rattle.zone_pools.specs.Owners.{owner};
ghost use Rattle.zone_cases.specs.Code.Doings.{as_doing, sits, swept_by};
ghost use Rattle.zone_cases.specs.declared.cases.ConsoleEdit as case_types;
ghost use Rattle.zone_machine.specs.declared.machine.shared.Shared as shared_types;
ghost use Rattle.zone_machine.specs.Code.Cells.{Does, kept};
ghost use Rattle.zone_cases.specs.State.Decisions.{sweeps};
ghost use Rattle.zone_cases.specs.State.Edits as edits;
ghost use Rattle.zone_cases.specs.State.Edits.{Here, edits_world};
ghost use Rattle.zone_machine.specs.Code.Rooms.{HasRoomToSit, IsOpenTo};

use crate::machine::shared::Shared;
use zn_base::ZoneName;
use zone_cases::{Cell, Doing, Ended, Sitting, begin_doing, end_doings, stop_doing};

/// Whoever did what ends is idle again.
pub(crate) fn end(cell: &mut Cell, shared: &mut Shared, ended: Ended)
    ensures does { (z : Name) → Does z (swept_by ended) kept cell.old shared.old cell.new shared.new }
    ensures room { HasRoomToSit cell.old shared.old → HasRoomToSit cell.new shared.new }
    ensures open { (z : Name) (k : ℕ) → IsOpenTo z (owner nat_eq shared.old.sessions k) → IsOpenTo z (owner nat_eq shared.new.sessions k) }
    ensures console { cell.new.console ≡ cell.old.console }
    ensures objects { (cell.new.kernel ≡ cell.old.kernel) × (cell.new.mounts ≡ cell.old.mounts) × (cell.new.claims ≡ cell.old.claims) }
    ensures ups { shared.new.ups ≡ shared.old.ups }
    ensures brands { shared.new.brands ≡ shared.old.brands }
    ensures rows { shared.new.rows ≡ shared.old.rows }
    ensures used { shared.new.used ≡ shared.old.used }
    ensures desk { cell.new.desk ≡ cell.old.desk }
{
    end_doings(&mut cell.doings, &mut shared.sessions, ended);
}

// A session does something in the zone from now on.
fn begin(cell: &mut Cell, shared: &mut Shared, number: u8, doing: Doing, zone: ZoneName)
    requires room { HasRoomToSit cell.old shared.old }
    ensures does { IsOpenTo zone (owner nat_eq shared.old.sessions number) → Does zone (edits_world (Some number) (Here (Some (as_doing doing)) ∷ [])) kept cell.old shared.old cell.new shared.new }
    ensures ups { shared.new.ups ≡ shared.old.ups }
    ensures brands { shared.new.brands ≡ shared.old.brands }
    ensures rows { shared.new.rows ≡ shared.old.rows }
    ensures used { shared.new.used ≡ shared.old.used }
    ensures same { cell.new ≡ record cell.old { doings = cell.new.doings } }
{
    shared.sessions.give_back(&number);
    shared.sessions.take_reserved(number, zone);
    begin_doing(&mut cell.doings, number, doing);
}

// A session of the zone, or nobody's, does nothing from now on.
fn stop(cell: &mut Cell, shared: &mut Shared, number: u8)
    ensures does { (z : Name) → IsOpenTo z (owner nat_eq shared.old.sessions number) → Does z (edits_world (Some number) (Here None ∷ [])) kept cell.old shared.old cell.new shared.new }
    ensures ups { shared.new.ups ≡ shared.old.ups }
    ensures brands { shared.new.brands ≡ shared.old.brands }
    ensures rows { shared.new.rows ≡ shared.old.rows }
    ensures used { shared.new.used ≡ shared.old.used }
    ensures same { cell.new ≡ record cell.old { doings = cell.new.doings } }
{
    shared.sessions.give_back(&number);
    stop_doing(&mut cell.doings, number);
}

// What a session does in the zone from now on.
#[inline(never)]
fn sit(cell: &mut Cell, shared: &mut Shared, number: u8, sitting: Sitting)
    requires room { HasRoomToSit cell.old shared.old }
    ensures does { IsOpenTo sitting.owner (owner nat_eq shared.old.sessions number) → Does sitting.owner (edits_world (Some number) (sits (Some sitting))) kept cell.old shared.old cell.new shared.new }
    ensures ups { shared.new.ups ≡ shared.old.ups }
    ensures brands { shared.new.brands ≡ shared.old.brands }
    ensures rows { shared.new.rows ≡ shared.old.rows }
    ensures used { shared.new.used ≡ shared.old.used }
    ensures same { cell.new ≡ record cell.old { doings = cell.new.doings } }
{
    let Sitting { doing, owner } = sitting;
    match doing {
        Some(doing) => begin(cell, shared, number, doing, owner),
        None => stop(cell, shared, number),
    }
}

/// What the event's session does from now on, if that may change.
pub(crate) fn sit_down(
    cell: &mut Cell,
    shared: &mut Shared,
    number: Option<u8>,
    sitting: Option<Sitting>,
)
    requires room { IfSome sitting (λ s. HasRoomToSit cell.old shared.old) }
    ensures does { (z : Name) → IfSome sitting (λ s. s.owner ≡ z) → IfSome number (λ n. IsOpenTo z (owner nat_eq shared.old.sessions n)) → Does z (edits_world number (sits sitting)) kept cell.old shared.old cell.new shared.new }
    ensures ups { shared.new.ups ≡ shared.old.ups }
    ensures brands { shared.new.brands ≡ shared.old.brands }
    ensures rows { shared.new.rows ≡ shared.old.rows }
    ensures used { shared.new.used ≡ shared.old.used }
    ensures same { cell.new ≡ record cell.old { doings = cell.new.doings } }
{
    match (number, sitting) {
        (Some(number), Some(sitting)) => sit(cell, shared, number, sitting),
        _ => {}
    }
}

/// Whoever waits for a ticket that ended is idle again.
pub(crate) fn end_ticket(cell: &mut Cell, shared: &mut Shared, ticket: u32)
    ensures does { (z : Name) (n : Option ℕ) → Does z (edits_world n (sweeps (Some ticket))) kept cell.old shared.old cell.new shared.new }
    ensures ups { shared.new.ups ≡ shared.old.ups }
    ensures brands { shared.new.brands ≡ shared.old.brands }
    ensures rows { shared.new.rows ≡ shared.old.rows }
    ensures used { shared.new.used ≡ shared.old.used }
    ensures desk { cell.new.desk ≡ cell.old.desk }
{
    end(cell, shared, Ended::Ticket(ticket));
}

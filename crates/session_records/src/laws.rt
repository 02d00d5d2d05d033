//! The laws, over every list of entries.
ghost use Rattle.std.specs.Prelude.{◌≡◌, List, Some, true, ℕ};
ghost use Rattle.brand_hooks.specs.Brands.{Tabled};
ghost use Rattle.commit_journal.specs.declared.records.Commit.{Commit};
ghost use Rattle.session_records.specs.Folds.{folded};
ghost use Rattle.session_records.specs.Records.{Awaited, IsPartial, IsRecord, IsRunPartial, IsRunRecord, Scripts};
ghost use Rattle.session_records.specs.Scripts.{IsDone, begun, keeps_scripts, may_come, noted};
ghost use Rattle.zone_cases.specs.State.{At, Awaiting, State};
ghost use Rattle.zone_cases.specs.declared.events.Declaration.{Declaration};
ghost use Rattle.zone_cases.specs.declared.events.Entry.{Entry};
ghost use Rattle.zone_cases.specs.declared.events.Event.TheVariants.{Turn};
ghost use Rattle.zone_machine.specs.Machine.{opening};
ghost use Rattle.zone_machine.specs.Machine.Histories.{after, is_legal, is_told};

use zone_views::no_turn_is_idle_while_a_session_waits;

/// A legal history is a part of a record of sessions exactly where it keeps to their scripts an entry at a time. It is the whole
/// where besides each session typed all its lines and waits for nothing.
pub fn records_keep_to_scripts()
    ensures part { (S : State) (scripts : Scripts) (h : List Entry) → is_legal S h ≡ true → keeps_scripts scripts h ≡ true → IsPartial S scripts h }
    ensures keeps { (S : State) (scripts : Scripts) (h : List Entry) → IsPartial S scripts h → keeps_scripts scripts h ≡ true }
    ensures whole { (S : State) (scripts : Scripts) (h : List Entry) → is_legal S h ≡ true → keeps_scripts scripts h ≡ true
        → ((n : ℕ) → IsDone scripts h n) → IsRecord S scripts h }
{}

/// The record of a run, and a part of one, is one legal history from before the first declaration on. So all laws of histories hold
/// of it.
pub fn run_records_are_legal()
    ensures whole { (brands : List Tabled) (R : List Commit) (declared : List Declaration) (scripts : Scripts) (h : List Entry)
        → IsRunRecord brands R declared scripts h → is_legal (opening brands R) h ≡ true }
    ensures part { (brands : List Tabled) (R : List Commit) (declared : List Declaration) (scripts : Scripts) (h : List Entry)
        → IsRunPartial brands R declared scripts h → is_legal (opening brands R) h ≡ true }
{}

/// A session that still waits by its record, for a ticket that a zone's daemon is to answer, waits for this ticket in the machine too.
/// So after any history a turn of that daemon is not idle meanwhile, and may come next.
pub fn waits_are_of_sessions()
    ensures waits { (S : State) (scripts : Scripts) (h : List Entry) (n : ℕ) (w : Awaited) → is_legal S h ≡ true → keeps_scripts scripts h ≡ true
        → (folded noted (begun scripts) h n).waits ≡ Some w → (after S h).sessions n ≡ At w.zone (Awaiting w.ticket) }
    ensures works { (brands : List Tabled) (R : List Commit) (first : List Entry) (scripts : Scripts) (h : List Entry) (n : ℕ) (w : Awaited) (e : Entry)
        → let S = after (opening brands R) first in is_legal S h ≡ true → keeps_scripts scripts h ≡ true → (folded noted (begun scripts) h n).waits ≡ Some w
        → e.event ≡ Turn w.zone → is_told (after S h) e ≡ true → may_come (folded noted (begun scripts) h) e ≡ true }
{
    // A law of histories: such a turn is not idle.
    no_turn_is_idle_while_a_session_waits();
}

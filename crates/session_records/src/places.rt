//! The laws of places: of what is done at once, for the global zone and each of some zones. Each is the contract of a function that
//! does nothing.
ghost use Rattle.std.specs.Prelude.{◌≡◌, ◌≢◌, List, true, ℕ};
ghost use Rattle.brand_hooks.specs.Brands.{Tabled};
ghost use Rattle.commit_journal.specs.declared.records.Commit.{Commit};
ghost use Rattle.session_records.specs.Places.{AreApart, is_local_at, is_right_at, own_world_one, place_of, state_after, world_at};
ghost use Rattle.session_records.specs.Records.{may_stand};
ghost use Rattle.zn_base.specs.Names.{Name};
ghost use Rattle.zone_cases.specs.State.{State};
ghost use Rattle.zone_cases.specs.State.Worlds.{World};
ghost use Rattle.zone_cases.specs.declared.events.Entry.{Entry};
ghost use Rattle.zone_cases.specs.declared.events.Event.TheVariants.{Turn};
ghost use Rattle.zone_machine.specs.Machine.Common.{common};
ghost use Rattle.zone_machine.specs.Machine.Histories.{after_entry};
ghost use Rattle.zone_machine.specs.Machine.Local.{is_busy};

/// An entry that is right leaves the worlds of all places but its own as they were, and what it leaves of its own hangs on that world
/// and the entry alone. Where its zone has work, a turn of it is not idle.
pub fn places_are_apart()
    ensures others { (zones : List Name) (S : State) (e : Entry) → AreApart zones → is_right_at zones S e ≡ true
        → (p : ℕ) → place_of zones e.subject ≢ p → world_at zones p (after_entry S e) ≡ world_at zones p S }
    ensures own { (zones : List Name) (S : State) (e : Entry) → is_right_at zones S e ≡ true
        → world_at zones (place_of zones e.subject) (after_entry S e) ≡ own_world_one (world_at zones (place_of zones e.subject) S) e }
    ensures works { (zones : List Name) (S : State) (e : Entry) → is_right_at zones S e ≡ true
        → (z : Name) → e.event ≡ Turn z → is_busy (world_at zones (place_of zones e.subject) S) ≡ true → may_stand e.event e.reply.head ≡ true }
{}

/// A local turn of a place is a turn of the place's zone, and not idle. It is right wherever the place has that world, and after any
/// history it leaves what is common exactly as it was.
pub fn local_turns_stay_in_their_place()
    ensures place { (zones : List Name) (p : ℕ) → AreApart zones → (w : World) (e : Entry) → is_local_at zones p w e ≡ true → place_of zones e.subject ≡ p }
    ensures works { (zones : List Name) (p : ℕ) (w : World) (e : Entry) → is_local_at zones p w e ≡ true
        → (z : Name) × ((e.event ≡ Turn z) × (may_stand e.event e.reply.head ≡ true)) }
    ensures right { (zones : List Name) (p : ℕ) → AreApart zones → (S : State) (e : Entry) → p ≢ 0
        → is_local_at zones p (world_at zones p S) e ≡ true → is_right_at zones S e ≡ true }
    ensures common { (zones : List Name) (p : ℕ) (brands : List Tabled) (R : List Commit) (g : List Entry) (e : Entry)
        → is_local_at zones p (world_at zones p (state_after brands R g)) e ≡ true
        → common (after_entry (state_after brands R g) e) ≡ common (state_after brands R g) }
{}

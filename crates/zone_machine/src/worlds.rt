//! The laws of one zone's world. Each is the contract of a function that does nothing.
ghost use Rattle.std.specs.Prelude.{◌≡◌, false, true};
ghost use Rattle.zn_base.specs.Names.{Name};
ghost use Rattle.brand_hooks.specs.declared.table.HookAnswer.{HookAnswer};
ghost use Rattle.zone_cases.specs.Code.Cells.{CellOf, IsHeardIn};
ghost use Rattle.zone_cases.specs.State.{State};
ghost use Rattle.zone_cases.specs.State.Worlds.{World, world};
ghost use Rattle.zone_cases.specs.declared.cell.Cell.{Cell};
ghost use Rattle.zone_cases.specs.declared.events.Entry.{Entry};
ghost use Rattle.zone_machine.specs.Code.Local_turns.{IsLocalTurn};
ghost use Rattle.zone_machine.specs.Machine.Histories.{after_entry, concerns, is_told, world_one};
ghost use Rattle.zone_machine.specs.Machine.Local.{is_local};

/// What an entry leaves of a zone's world is a function of that world and the entry, where whose it is and its reply are told as they
/// are. One that concerns another zone leaves it as it was.
pub fn entries_move_worlds()
    ensures moves { (z : Name) (S : State) (e : Entry) → is_told S e ≡ true → world z (after_entry S e) ≡ world_one z (world z S) e }
    ensures others { (z : Name) (w : World) (e : Entry) → concerns z e.subject ≡ false → world_one z w e ≡ w }
{}

/// What a local turn on a cell does in every state it does in every world that the cell may have: so several may follow one another
/// on the cell alone, whatever the other zones do meanwhile.
pub fn local_turns_are_of_worlds()
    ensures { (z : Name) (c : Cell) (answer : HookAnswer) (entry : Entry) (d : Cell) → IsLocalTurn z c answer entry d
        → (w : World) → CellOf c w → IsHeardIn w.brands c answer → (is_local z w entry ≡ true) × CellOf d (world_one z w entry) }
{}

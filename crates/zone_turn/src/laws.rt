//! What holds of a turn at every moment.
ghost use Rattle.std.specs.Prelude.{Option};
ghost use Rattle.atomic_table.specs.Table.{State};
ghost use Rattle.zone_turn.specs.Calls.{OneHolder};
ghost use Rattle.zone_turn.specs.Rule.{IsTurn};

use crate::story::Storied;
use crate::views::View;

/// One pass at most has the part out. The rule of a turn holds between any two steps.
pub fn one_holder<T: Storied>()
    ensures { (s : State (Option T) (View T.Entry)) → IsTurn T.stands_for T.belongs_to s → OneHolder s.views }
{}

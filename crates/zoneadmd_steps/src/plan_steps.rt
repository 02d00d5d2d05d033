//! The steps of a request's plan, as a request under way keeps them.
ghost use Rattle.std.specs.Prelude.{◌≡◌, ◌<◌, ◌≤◌, ◌-◌, Some, drop, length, slice_get, true};
ghost use Rattle.std.specs.List.{list_all};
ghost use Rattle.zoneadmd_steps.specs.Plans.{has_stored_state};

use crate::requests::Step;
use std::marker::Model;
use std::mem;

/// The steps of a plan. A state that they record is one in which a zone is stored. Contracts see the list of the steps.
#[derive(Drop)]
pub struct Plan {
    steps: Vec<Step>,
}

impl Model for Plan {
    ghost use Rattle.std.specs.Prelude.{◌≡◌, List, true};
    ghost use Rattle.std.specs.List.{list_all};
    ghost use Rattle.zoneadmd_steps.specs.Plans.{has_stored_state};
    ghost use Rattle.zoneadmd_steps.specs.declared.requests.Step.{Step};

    ghost Value = { List Step };

    ghost view = { λ p. p.steps.items };

    ghost invariant = { λ p. list_all has_stored_state p.steps.items ≡ true };
}

impl Plan {
    /// The plan of these steps.
    pub(crate) fn of(steps: Vec<Step>) -> Self
        requires { list_all has_stored_state steps.items ≡ true }
        ensures { result ≡ steps.items }
    {
        Self { steps }
    }

    /// Its steps.
    pub(crate) fn as_slice(&self) -> &[Step]
        ensures steps { result.now ≡ self.now }
        ensures stored { list_all has_stored_state result.now ≡ true }
    {
        &self.steps
    }

    /// The step before a place is taken out, where nothing looks at it any more.
    #[tactic(auto, using(crate::proofs::Storing::stored_set))]
    pub(crate) fn take(&mut self, next: usize) -> Step
        requires bound { (0 < next) × (next ≤ length self.old) }
        ensures step { slice_get self.old (next - 1) ≡ Some result }
        ensures rest { drop next self.new ≡ drop next self.old }
    {
        mem::replace(&mut self.steps[next - 1], Step::Moved)
    }
}

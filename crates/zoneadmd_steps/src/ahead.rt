//! What is next for a request under way.
ghost use Rattle.std.specs.Prelude.{◌≡◌, ◌+◌, ◌<◌, ◌∷◌, Some, drop, false, length, slice_get};
ghost use Rattle.zoneadmd_steps.specs.Code.Ahead.{IsAhead, as_next};
ghost use Rattle.zoneadmd_steps.specs.Code.Cases.{next_hook};
ghost use Rattle.zoneadmd_steps.specs.Code.Desks.{as_desk, as_job};
ghost use Rattle.zoneadmd_steps.specs.Code.Recordings.{StoresNothing, records_next, stage_records};
ghost use Rattle.zoneadmd_steps.specs.Objects as objects;
ghost use Rattle.zoneadmd_steps.specs.Turns.{Seen, next, turn};

use crate::desks::{Desk, Job};
use crate::requests::Step;
use crate::shared_cases::is_of_store;
use brand_hooks::Change;
use datalink_table::{Claim, ClaimCell};
use loopback_mounts::{MountCell, MountEntry};

/// What is next: a step of the plan, with the place of the one after it, or one of the mounts or claims that the step at a place
/// stands for.
#[derive(Clone, Copy)]
pub(crate) enum Ahead<'j> {
    Nothing,
    Step(&'j Step, usize),
    Mount(&'j MountEntry, usize),
    Claim(&'j Claim, usize),
}

// The step at a place of a plan.
fn step_at(steps: &[Step], at: usize) -> &Step
    requires { at < length steps.now }
    ensures rest { drop at steps.now ≡ result.now ∷ drop (at + 1) steps.now }
    ensures there { slice_get steps.now at ≡ Some result.now }
{
    &steps[at]
}

/// What is next in a plan from a place on. Where there is nothing mounted or claimed, the plan goes on.
pub(crate) fn find_ahead<'j>(
    steps: &'j [Step],
    at: usize,
    mounts: &'j MountCell,
    claims: &'j ClaimCell,
) -> Ahead<'j>
    ensures next { (o : objects.Objects) → o.mounts ≡ mounts.now.list → o.claims ≡ claims.now.claims → next o (drop at steps.now) ≡ as_next steps.now result }
    ensures planned { IsAhead steps.now result }
{
    if at >= steps.len() {
        return Ahead::Nothing;
    }
    match step_at(steps, at) {
        Step::Unmount(_) => match mounts.last() {
            Some(entry) => Ahead::Mount(entry, at),
            None => find_ahead(steps, at + 1, mounts, claims),
        },
        Step::Release(_) => match claims.last() {
            Some(claim) => Ahead::Claim(claim, at),
            None => find_ahead(steps, at + 1, mounts, claims),
        },
        planned => Ahead::Step(planned, at + 1),
    }
}

// Whether the next step of a request changes what is stored.
fn job_records(job: &Job, mounts: &MountCell, claims: &ClaimCell) -> bool
    ensures { (o : objects.Objects) → o.mounts ≡ mounts.now.list → o.claims ≡ claims.now.claims → result ≡ stage_records o (as_job job.now).stage }
{
    match job.failure {
        Some(_) => false,
        None => match find_ahead(job.steps.as_slice(), job.at, mounts, claims) {
            Ahead::Step(planned, _) => is_of_store(planned),
            _ => false,
        },
    }
}

impl Desk {
    /// The change of which the brand of the request under way is asked next, with the brand's place, where it is.
    pub fn next_hook(
        &self,
        mounts: &MountCell,
        claims: &ClaimCell,
    ) -> Option<(Option<usize>, Change)>
        ensures { (o : objects.Objects) → o.mounts ≡ mounts.now.list → o.claims ≡ claims.now.claims → result ≡ next_hook o (as_desk self.now).job }
    {
        let job = self.job.as_ref()?;
        if job.failure.is_some() {
            return None;
        }
        match find_ahead(job.steps.as_slice(), job.at, mounts, claims) {
            Ahead::Step(Step::Hook(change), _) => Some((job.brand, *change)),
            _ => None,
        }
    }
    /// Whether the next step of the request under way changes what is stored of the zone. Such a step stores a record, unless
    /// that is denied or fails; without one a turn stores none.
    pub fn records_next(&self, mounts: &MountCell, claims: &ClaimCell) -> bool
        ensures next { (o : objects.Objects) → o.mounts ≡ mounts.now.list → o.claims ≡ claims.now.claims → result ≡ records_next o (as_desk self.now).job }
        ensures none { result ≡ false → (v : Seen) → v.desk ≡ as_desk self.now → v.objects.mounts ≡ mounts.now.list → v.objects.claims ≡ claims.now.claims → StoresNothing (turn v) }
    {
        match &self.job {
            Some(job) => job_records(job, mounts, claims),
            None => false,
        }
    }
}

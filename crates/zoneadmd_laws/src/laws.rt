//! Laws of the turns of a zone's daemon: over whatever a zone is found to have, and over whole requests of zoneadm(8).
ghost use Rattle.std.specs.Prelude.{◌≡◌, ◌⊎◌, Option, is_ok, ◌<◌, ◌+◌, ◌++◌, List, [], ◌∷◌, Some, None, true, false, is_some, map, length, ℕ};
ghost use Rattle.std.specs.List.{list_all, list_any};
ghost use Rattle.commit_journal.specs.declared.records.Record.{Record};
ghost use Rattle.datalink_table.specs.declared.claims.Claim.{Claim};
ghost use Rattle.brand_hooks.specs.Brands.{Tabled};
ghost use Rattle.zn_base.specs.declared.state.ZoneState.{ZoneState};
ghost use Rattle.zone_config.specs.declared.terms.Contents.{Contents};
ghost use Rattle.zone_pools.specs.Decisions.{Just};
ghost use Rattle.zone_pools.specs.declared.grant.Grant.{Grant};
ghost use Rattle.zone_pools.specs.Firsts.{is_nil};
ghost use Rattle.zn_base.specs.declared.state.ZoneState.TheVariants.{Down};
ghost use Rattle.datalink_table.specs.Claims.{holds};
ghost use Rattle.loopback_mounts.specs.Mounts.{mount_answer};
ghost use Rattle.zoneadmd_laws.specs.Agreement.{Agrees, Has_made, Has_nothing, Has_room, is_installed, is_one};
ghost use Rattle.zoneadmd_laws.specs.Points.{has_id, may_run};
ghost use Rattle.zoneadmd_steps.specs.Configs.{root_dir};
ghost use Rattle.zoneadmd_steps.specs.declared.requests.Outcome.{Outcome};
ghost use Rattle.zoneadmd_steps.specs.declared.requests.Step.TheVariants as step;
ghost use Rattle.zoneadmd_laws.specs.Afters.{after, done};
ghost use Rattle.zoneadmd_laws.specs.Common.{common};
ghost use Rattle.zoneadmd_laws.specs.Items.{Answers, item};
ghost use Rattle.zoneadmd_laws.specs.Lists.{onto};
ghost use Rattle.zoneadmd_laws.specs.Shapes.{only_ends};
ghost use Rattle.zoneadmd_laws.specs.Trails.{Goes_on, IsRun, Killed_first, Later, Moment, Tells, Trail, are_free, bare_progress, dirs_of, in_full, is_well, told, undone_after, with_steps};
ghost use Rattle.zoneadmd_laws.specs.Turns_left.{IsSmall, moves_on, turns_left};
ghost use Rattle.zoneadmd_steps.specs.Desks.{Desk, Fails, Goes, Job, state_now};
ghost use Rattle.zoneadmd_steps.specs.Halts.{is_halting};
ghost use Rattle.zoneadmd_steps.specs.Local.{is_local_reply, is_of_own};
ghost use Rattle.zoneadmd_steps.specs.Objects.{Objects};
ghost use Rattle.zoneadmd_steps.specs.Plans.{plan};
ghost use Rattle.zoneadmd_steps.specs.Turns.{Seen, Turned, local_turn, no_progress, turn};
ghost use Rattle.zoneadmd_steps.specs.declared.requests.Request.{Request};
ghost use Rattle.zoneadmd_steps.specs.declared.requests.Request.TheVariants as request;
ghost use Rattle.zoneadmd_steps.specs.declared.requests.Step.{Step};

/// Each turn answers the next item of the zone: that a request begins, the next step of its plan with its number by the
/// grant and by what stands, the next step back, the end, or the fault in its place.
pub fn each_turn_answers_the_next_item()
    ensures { (w : Seen) (g : Grant) → is_some w.stored ≡ true → Answers w g (item w) (after (turn w) g w).reply }
{}

/// Over any turns of one request from its begin, whatever they are granted and whatever else happens to the zone between
/// them: what they tell is the trail of the request, or a front of it, or a front of it and what a failure tells. Turns
/// that wait for a mount which the global zone holds tell nothing.
pub fn a_request_tells_its_trail()
    ensures { (t : ℕ) (r : Request) (row : Record) (m : Moment) (ms : List Moment)
        → IsRun t r row m ms → Trail m.seen.brands t r (state_now row m.seen.desk) row.config (m ∷ ms) }
{}

/// A halt stays one to its end, so that none of its turns takes memory: once it waits as the first or is under way, so it is
/// after the next turn, or it is over.
pub fn a_halt_stays_one()
    ensures { (w : Seen) (g : Grant) → is_halting w.desk ≡ true → ((after (turn w) g w).seen.desk.job ≡ None) ⊎ (is_halting (after (turn w) g w).seen.desk ≡ true) }
{}

/// What a failure undoes, after some steps of a plan and before the others: while the zone is still to be made ready, all
/// that was done since the request last began, hooks left out, the latest first; else nothing.
pub fn a_failure_undoes_what_was_made()
    ensures { (r : Request) (s : ZoneState) (c : Contents) (ds : List (List ℕ)) (cs : List Claim) (front : List Step) (x : Step) (rest : List Step)
        → in_full ds cs (plan r s c) ≡ front ++ x ∷ rest → (with_steps front no_progress).made ≡ undone_after front (x ∷ rest) }
{}

/// Once no process, mount or claim comes any more, the turns of a request tell the rest of its plan, with the mounts and
/// the claims that stand.
pub fn what_ends_is_told()
    ensures { (ms : List Moment) (w : Seen) (j : Job) (left : List Step)
        → w.desk.job ≡ Some j → j.stage ≡ Goes left → only_ends left ≡ true → w.objects.processes ≡ [] → Goes_on w ms
        → Tells j.ticket (bare_progress j.done) (in_full (dirs_of w.objects.mounts) (onto w.objects.claims []) left) (Later w.brands ms j.ticket j.request) (told ms) }
{}

/// A halt that ends well and never waits for a held mount has ten turns, and one more for each mount and each claim that
/// stands once the zone's processes are gone.
pub fn a_halt_has_ten_turns_and_more()
    ensures { (t : ℕ) (row : Record) (m : Moment) (ms : List Moment)
        → IsRun t request.Halt row m ms → are_free (m ∷ ms) ≡ true → list_any is_well (told (m ∷ ms)) ≡ true
        → (ds : List (List ℕ)) × (cs : List Claim) × Killed_first ds cs (m ∷ ms) × (length (m ∷ ms) ≡ 10 + length ds + length cs) }
{}

/// Each turn but an idle one and one that waits for a held mount leaves the daemon fewer turns, whatever it is granted, in a
/// zone that has, and is configured to have, fewer than 10,000 mounts and claims: 1,000,000 for each request that waits, and
/// so many for the one under way as its plan and its failures can still take.
pub fn turns_come_to_an_end()
    ensures { (w : Seen) (g : Grant) → IsSmall w
        → let a = after (turn w) g w in moves_on a.reply ≡ true → turns_left a.seen < turns_left w }
{}

/// A local turn asks for nothing, and what it does and reports is given by the brands and by the zone's own objects and
/// desk. It changes nothing but the zone's mounts, its devices, its id but for the number, and the request under way, so that
/// what more than one zone may ask of the zone stays. And just the local turns report what is local: a hook, or a step that
/// touches neither the store, a number, a process nor a claim.
pub fn local_turns_share_nothing()
    ensures decided { (w : Seen) (t : Turned) → local_turn w.brands w.objects w.desk ≡ Some t → turn w ≡ Just t }
    ensures own { (brands : List Tabled) (o : Objects) (d : Desk) (t : Turned) → local_turn brands o d ≡ Some t
        → (list_all is_of_own t.objects ≡ true) × (t.ended ≡ None) × (t.desk ≡ record d { job = t.desk.job }) }
    ensures common { (w : Seen) (t : Turned) → local_turn w.brands w.objects w.desk ≡ Some t → common (done t w).seen ≡ common w }
    ensures reported { (w : Seen) (g : Grant) → is_some (local_turn w.brands w.objects w.desk) ≡ is_local_reply (after (turn w) g w).reply }
{}

/// Each turn keeps the agreement of a zone's tables with its daemon, whatever it is granted.
pub fn turns_keep_the_agreement()
    ensures tables { (w : Seen) (g : Grant) → Agrees w → Agrees (after (turn w) g w).seen }
    // And a zone that may have a process at all still may.
    ensures room { (w : Seen) (g : Grant) → Has_room w → Has_room (after (turn w) g w).seen }
{}

/// Where a zone's tables agree with its daemon:
/// a zone without an id has neither process, mount, claim nor device, and no zone has more than one id;
/// a zone with an id, or in a state that isn't stored, is stored as installed;
/// an id is there just from `zid` until it is undone or given back, and processes only from `init` until they are killed;
/// while a ready part is under way, or is undone, the zone has what the steps done and not undone made;
/// once the mounts are gone there is none, and once the zone is cleared neither a mount, a claim nor a device;
/// mount(2) refuses no mount of a ready part, and the zone holds no claim of a ready part before.
pub fn the_agreement_says()
    ensures nothing { (w : Seen) → Agrees w → w.objects.ids ≡ [] → Has_nothing w.objects }
    ensures one_id { (w : Seen) → Agrees w → (w.objects.ids ≡ []) ⊎ (is_one w.objects.ids ≡ true) }
    ensures active { (w : Seen) → Agrees w → is_some w.desk.active ≡ true → is_installed w.stored ≡ true }
    ensures installed { (w : Seen) → Agrees w → is_one w.objects.ids ≡ true → is_installed w.stored ≡ true }
    ensures id { (w : Seen) → Agrees w → is_one w.objects.ids ≡ has_id w.desk }
    ensures processes { (w : Seen) → Agrees w → (w.objects.processes ≡ []) ⊎ (may_run w.desk ≡ true) }
    ensures made { (w : Seen) (j : Job) (left : List Step) → Agrees w → w.desk.job ≡ Some j → j.stage ≡ Goes left
        → is_nil j.done.made ≡ false → Has_made j.done.made left j.config w }
    ensures undone { (w : Seen) (j : Job) (o : Outcome) (s : Step) (undo : List Step) → Agrees w → w.desk.job ≡ Some j → j.stage ≡ Fails o (s ∷ undo)
        → Has_made (s ∷ undo) [] j.config w }
    ensures unmounted { (w : Seen) (j : Job) (c : Option Claim) (rest : List Step) → Agrees w → w.desk.job ≡ Some j → j.stage ≡ Goes (step.Release c ∷ rest)
        → w.objects.mounts ≡ [] }
    ensures cleared { (w : Seen) (j : Job) (rest : List Step) → Agrees w → w.desk.job ≡ Some j → j.stage ≡ Goes (step.State Down ∷ rest)
        → (w.objects.mounts ≡ []) × (w.objects.claims ≡ []) × (w.objects.devices ≡ []) }
    ensures root { (w : Seen) (j : Job) (rest : List Step) → Agrees w → w.desk.job ≡ Some j → j.stage ≡ Goes (step.Root ∷ rest)
        → is_ok (mount_answer root_dir w.objects.mounts) ≡ true }
    ensures mounted { (w : Seen) (j : Job) (dir : List ℕ) (rest : List Step) → Agrees w → w.desk.job ≡ Some j → j.stage ≡ Goes (step.Mounted dir ∷ rest)
        → is_ok (mount_answer dir w.objects.mounts) ≡ true }
    ensures claimed { (w : Seen) (j : Job) (c : Claim) (rest : List Step) → Agrees w → w.desk.job ≡ Some j → j.stage ≡ Goes (step.Claimed c ∷ rest)
        → holds c w.objects.claims ≡ false }
{}

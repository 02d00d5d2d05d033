//! The laws, over every state or every history.
ghost use Rattle.std.specs.Prelude.{◌≡◌, ◌≢◌, ◌≤◌, ◌<◌, ◌⊎◌, ◌++◌, ◌∷◌, Bool, IfSome, List, None, Option, Some, false, is_some, length, true, ℕ};
ghost use Rattle.std.specs.List.{list_all, list_any};
ghost use Rattle.zn_base.specs.Moves.{may_move};
ghost use Rattle.zn_base.specs.Names.{Name};
ghost use Rattle.zn_base.specs.declared.state.ZoneState.TheVariants.{Installed};
ghost use Rattle.zone_pools.specs.Pools.{is_pool};
ghost use Rattle.zone_pools.specs.declared.grant.Grant.{Grant};
ghost use Rattle.zone_pools.specs.declared.grant.Grant.TheVariants.{Number};
ghost use Rattle.zone_pools.specs.declared.grant.Pool.TheVariants.{Pids, Zids};
ghost use Rattle.zone_machine.specs.Machine.Common.{HoldOnce, common};
ghost use Rattle.zone_machine.specs.Machine.Local.{is_local, job_has_record};
ghost use Rattle.zone_machine.specs.Machine.Histories.{after, any_grant, asked, concerns, history, is_history, is_legal, only, replay, replies, run};
ghost use Rattle.zone_machine.specs.Machine.{need, one, opening, subject};
ghost use Rattle.zone_machine.specs.Machine.Pools.{allowed, fits};
ghost use Rattle.zone_cases.specs.State.{At, At_console, Awaiting, Idle, Logged_in, State, bytes_used, stored, zone_state};
ghost use Rattle.zone_cases.specs.State.Decisions.{says};
ghost use Rattle.zone_cases.specs.State.Worlds.{objects_of, seen_of, world};
ghost use Rattle.zoneadmd_laws.specs.Agreement.{Agrees};
ghost use Rattle.zoneadmd_laws.specs.Turns_left.{IsSmall, turns_left};
ghost use Rattle.zoneadmd_steps.specs.Objects.{kernel_of};
ghost use Rattle.zoneadmd_steps.specs.declared.requests.TurnReply.TheVariants.{Idle as No_work};
ghost use Rattle.kernel_objects.specs.Kernel.{within_limit};
ghost use Rattle.kernel_objects.specs.Processes.{with_pid};
ghost use Rattle.zone_cases.specs.declared.events.Entry.{Entry};
ghost use Rattle.zone_cases.specs.declared.events.Event.{Event};
ghost use Rattle.zone_cases.specs.declared.events.Event.TheVariants.{Restart, Turn};
ghost use Rattle.zone_cases.specs.declared.events.Subject.TheVariants.{Whole, Zone};
ghost use Rattle.zone_cases.specs.declared.replies.Head.TheVariants.{Turned};
ghost use Rattle.datalink_table.specs.Claims.{each_once, holds};
ghost use Rattle.datalink_table.specs.declared.claims.Claim.{Claim};
ghost use Rattle.brand_hooks.specs.Brands.{Tabled};
ghost use Rattle.commit_journal.specs.Bodies.{IsRecord};
ghost use Rattle.commit_journal.specs.declared.records.Commit.{Commit};
ghost use Rattle.commit_journal.specs.declared.records.Record.{Record};
ghost use Rattle.zone_views.specs.Edits.{EditsDenoted};
ghost use Rattle.zone_views.specs.Naming.{AreAmong, names, own};
ghost use Rattle.zone_views.specs.Numbers.{AllDiffer, is_small, pids, zids};
ghost use Rattle.zone_views.specs.Storable.{IsRight, are_storable, ends_with_a_restart, zones_besides};
ghost use Rattle.zone_views.specs.Tickets.{is_open};
ghost use Rattle.zone_views.specs.Whole.{is_whole, whole_replies};

/// An event that belongs neither to the zone nor to the whole system leaves the zone's world as it was.
pub fn others_change_nothing()
    ensures { (z : Name) (S : State) (e : Event) (g : Grant) → concerns z (subject S e) ≡ false
        → world z (one S e g).state ≡ world z S }
{}

/// What a zone is answered, what it asks, and what it becomes are functions of its world, the event and the
/// grant.
pub fn own_world_decides()
    ensures reply { (z : Name) (S T : State) (e : Event) (g : Grant) → subject S e ≡ Zone z → subject T e ≡ Zone z
        → world z S ≡ world z T → (one S e g).reply ≡ (one T e g).reply }
    ensures need { (z : Name) (S T : State) (e : Event) → subject S e ≡ Zone z → subject T e ≡ Zone z
        → world z S ≡ world z T → need S e ≡ need T e }
    ensures after { (z : Name) (S T : State) (e : Event) (g : Grant) → concerns z (subject S e) ≡ true
        → subject S e ≡ subject T e → world z S ≡ world z T → world z (one S e g).state ≡ world z (one T e g).state }
{}

/// What is declared changes by events of the whole system alone. The reply to such an event, and what it leaves
/// declared, are functions of what was declared.
pub fn declarations_are_common()
    ensures whole { (S T : State) (e : Event) (g : Grant) → subject S e ≡ Whole → subject T e ≡ Whole → S.declared ≡ T.declared
        → ((one S e g).reply ≡ (one T e g).reply) × ((one S e g).state.declared ≡ (one T e g).state.declared) }
    ensures declared { (S : State) (e : Event) (g : Grant) → is_whole (subject S e) ≡ false
        → (one S e g).state.declared ≡ S.declared }
{}

/// A state that only entries of a zone and of the whole system reached has the same subject for each event
/// that concerns the zone in a state with the same world of it. A session that is away from the zone there is
/// idle in it.
pub fn subjects_agree()
    ensures agree { (z : Name) (S : State) (brands : List Tabled) (commits : List Commit) (h : List Entry) (e : Event)
        → is_history any_grant (opening brands commits) h ≡ true → list_all (λ entry. concerns z entry.subject) h ≡ true
        → world z S ≡ world z (after (opening brands commits) h)
        → concerns z (subject S e) ≡ true → subject (after (opening brands commits) h) e ≡ subject S e }
    ensures away { (z : Name) (S : State) (brands : List Tabled) (commits : List Commit) (h : List Entry) (n : ℕ)
        → is_history any_grant (opening brands commits) h ≡ true → list_all (λ entry. concerns z entry.subject) h ≡ true
        → world z S ≡ world z (after (opening brands commits) h)
        → (world z S).sessions n ≡ None → (after (opening brands commits) h).sessions n ≡ Idle }
{}

/// What the machine makes of any events is a history, under the grants that the pools give and under any that
/// are stated. So the laws of histories hold of it.
pub fn runs_are_histories()
    ensures allowed { (S : State) (es : List Event) → is_legal S (history S es) ≡ true }
    ensures stated { (S : State) (es : List (Event × Grant)) → is_history any_grant S (run S es) ≡ true }
{}

/// After any history whose grants fit, the grant that the pools give fits too.
pub fn allowed_grants_fit()
    ensures now { (brands : List Tabled) (commits : List Commit) (h : List Entry) (e : Event)
        → is_history fits (opening brands commits) h ≡ true → let S = after (opening brands commits) h in fits S e (allowed S e) ≡ true }
    // So the grants of a legal history fit.
    ensures legal { (brands : List Tabled) (commits : List Commit) (h : List Entry)
        → is_legal (opening brands commits) h ≡ true → is_history fits (opening brands commits) h ≡ true }
{}

/// After any history whose grants fit, so after any legal one, no two processes have the same number, whatever
/// zones they are of, and no two ids the same zone number.
pub fn numbers_are_held_once()
    ensures pids { (brands : List Tabled) (commits : List Commit) (h : List Entry)
        → is_history fits (opening brands commits) h ≡ true → AllDiffer (pids (after (opening brands commits) h)) }
    ensures zids { (brands : List Tabled) (commits : List Commit) (h : List Entry)
        → is_history fits (opening brands commits) h ≡ true → AllDiffer (zids (after (opening brands commits) h)) }
{}

/// In every state, a number that is given for a process is 29,999 at most and one for a zone is 9,999, whether the pools
/// give it or it fits as it is stated. Of a record's number this is said where the pools give it: any number that is
/// stated fits a record, from 1 on.
pub fn numbers_given_are_small()
    ensures pids { (S : State) (e : Event) (n : ℕ) → list_any (is_pool Pids) (need S e) ≡ true
        → (allowed S e ≡ Number n) ⊎ (fits S e (Number n) ≡ true) → n ≤ 29999 }
    ensures zids { (S : State) (e : Event) (n : ℕ) → list_any (is_pool Zids) (need S e) ≡ true
        → (allowed S e ≡ Number n) ⊎ (fits S e (Number n) ≡ true) → n ≤ 9999 }
    ensures all { (S : State) (e : Event) (n : ℕ) → allowed S e ≡ Number n → n ≤ 4294967295 }
    // So each number of a legal history has a text that is read again.
    ensures legal { (S : State) (h : List Entry) → is_legal S h ≡ true → list_all (λ entry. is_small entry.grant) h ≡ true }
{}

/// After any history whose grants fit, one zone at most has a process of a number. The laws of `zone_machine` ask this
/// that say whose an event is, and what it is allowed, by what zones share.
pub fn zones_share_no_process_number()
    ensures { (brands : List Tabled) (commits : List Commit) (h : List Entry) → is_history fits (opening brands commits) h ≡ true → HoldOnce (common (after (opening brands commits) h)).pids }
{}

/// Removing the entries of all other zones, grants kept, changes no reply of a zone, whatever else is
/// stored.
pub fn purging_keeps_replies()
    ensures histories { (z : Name) (permits : State → Event → Grant → Bool) (brands : List Tabled) (commits others : List Commit) (h : List Entry)
        → is_history permits (opening brands commits) h ≡ true → stored z commits ≡ stored z others
        → replies z h ≡ replies z (run (opening brands others) (asked (only z h))) }
    // Two histories with the same entries of the zone give it the same replies.
    ensures alike { (z : Name) (permits : State → Event → Grant → Bool) (brands : List Tabled) (commits others : List Commit) (h k : List Entry)
        → is_history permits (opening brands commits) h ≡ true → is_history permits (opening brands others) k ≡ true
        → stored z commits ≡ stored z others → asked (only z h) ≡ asked (only z k) → replies z h ≡ replies z k }
    // The same of a run, whose grants may be any.
    ensures runs { (z : Name) (brands : List Tabled) (commits others : List Commit) (es : List (Event × Grant)) → stored z commits ≡ stored z others
        → replies z (run (opening brands commits) es) ≡ replies z (run (opening brands others) (asked (only z (run (opening brands commits) es)))) }
    // Nor does it change a reply to an event of the whole system, whatever is stored.
    ensures whole { (z : Name) (permits : State → Event → Grant → Bool) (brands : List Tabled) (commits others : List Commit) (h : List Entry)
        → is_history permits (opening brands commits) h ≡ true
        → whole_replies h ≡ whole_replies (run (opening brands others) (asked (only z h))) }
{}

/// The entries of a zone and of the whole system, run again from what is stored of the zone, under the grants that stand
/// in them, are just these entries: each event keeps its subject and its reply, whatever else is stored.
pub fn kept_entries_stay()
    ensures { (z : Name) (permits : State → Event → Grant → Bool) (brands : List Tabled) (commits others : List Commit) (h : List Entry)
        → is_history permits (opening brands commits) h ≡ true
        → stored z commits ≡ stored z others → run (opening brands others) (asked (only z h)) ≡ only z h }
{}

/// Where the grants of a history fit, those of a zone's entries and of the whole system's fit without the other
/// entries too, where 255 zones besides it are stored at most: the zone itself may have to be made anew.
pub fn kept_grants_fit()
    ensures fit { (z : Name) (brands : List Tabled) (commits : List Commit) (h : List Entry)
        → is_history fits (opening brands commits) h ≡ true → zones_besides z commits ≤ 255
        → is_history fits (opening brands commits) (only z h) ≡ true }
    // They fit from other records too that store the same of the zone, and are no more and no longer than those.
    ensures elsewhere { (z : Name) (brands : List Tabled) (commits others : List Commit) (h : List Entry)
        → is_history fits (opening brands commits) h ≡ true
        → stored z commits ≡ stored z others → zones_besides z others ≤ 255 → length others ≤ length commits → bytes_used others ≤ bytes_used commits
        → is_history fits (opening brands others) (only z h) ≡ true }
{}

/// The world of a zone after a history is what its own entries and those of the whole system make of the
/// world before.
pub fn worlds_are_replayed()
    ensures { (z : Name) (permits : State → Event → Grant → Bool) (S : State) (h : List Entry)
        → is_history permits S h ≡ true → world z (after S h) ≡ replay z (world z S) (only z h) }
{}

/// From records whose states are configured, incomplete or installed, after any history, an event leaves the
/// state of each zone as it was, or the zone is its subject and moves along the transition table; or the system
/// restarts, and a zone that was ready, running, shutting down or down is installed.
pub fn states_move_along_the_table()
    ensures { (z : Name) (brands : List Tabled) (commits : List Commit) (h : List Entry) (e : Event) (g : Grant)
        → are_storable commits ≡ true → let S = after (opening brands commits) h in let T = (one S e g).state in
        (zone_state z T ≡ zone_state z S) ⊎ (((subject S e ≡ Zone z) × (may_move (zone_state z S) (zone_state z T) ≡ true))
        ⊎ ((e ≡ Restart) × (ends_with_a_restart (zone_state z S) ≡ true) × (zone_state z T ≡ Some Installed))) }
{}

/// After any history, whatever was granted, each process's privileges lie within its zone's limit set, as
/// privileges(7) and zones(7) say.
pub fn sets_lie_within_limits()
    ensures { (z : Name) (brands : List Tabled) (commits : List Commit) (h : List Entry)
        → within_limit (kernel_of (objects_of (world z (after (opening brands commits) h)))) ≡ true }
{}

/// After any history, what a session edits is what subcommands denote over its base (zonecfg(8)). A line that is said to it
/// adds to these, a `revert` begins anew, and a commit makes what is open the base.
pub fn sessions_edit_what_was_said()
    ensures { (z : Name) (brands : List Tabled) (commits : List Commit) (h : List Entry) (n : ℕ)
        → EditsDenoted ((world z (after (opening brands commits) h)).sessions n) }
{}

/// After any history, whatever was granted, a session that is logged in to a zone has its process there (zlogin(1)).
pub fn logins_have_their_process()
    ensures { (z : Name) (brands : List Tabled) (commits : List Commit) (h : List Entry) (n pid : ℕ) (escape : Option ℕ)
        → let S = after (opening brands commits) h in
        S.sessions n ≡ At z (Logged_in pid escape) → is_some (with_pid pid (world z S).processes) ≡ true }
{}

/// After any history the holder of a zone's console is a session at that console, and a session at a zone's console is
/// its holder. So one session at most is at a zone's console (zlogin(1)).
pub fn consoles_are_held_by_who_is_there()
    ensures holder { (z : Name) (brands : List Tabled) (commits : List Commit) (h : List Entry) (n : ℕ)
        → let S = after (opening brands commits) h in
        (S.consoles z).holder ≡ Some n → (escape : Option ℕ) × (S.sessions n ≡ At z (At_console escape)) }
    ensures there { (z : Name) (brands : List Tabled) (commits : List Commit) (h : List Entry) (n : ℕ) (escape : Option ℕ)
        → let S = after (opening brands commits) h in
        S.sessions n ≡ At z (At_console escape) → (S.consoles z).holder ≡ Some n }
{}

/// After any history a session that waits for a ticket waits for one that its zone's daemon still has to answer
/// (zoneadmd(8)), and no turn of that daemon is idle.
pub fn no_turn_is_idle_while_a_session_waits()
    ensures waits { (z : Name) (brands : List Tabled) (commits : List Commit) (h : List Entry) (n ticket : ℕ)
        → let S = after (opening brands commits) h in
        S.sessions n ≡ At z (Awaiting ticket) → is_open ticket (S.desks z) ≡ true }
    ensures awake { (z : Name) (brands : List Tabled) (commits : List Commit) (h : List Entry) (n ticket : ℕ) (g : Grant)
        → let S = after (opening brands commits) h in
        S.sessions n ≡ At z (Awaiting ticket) → (one S (Turn z) g).reply ≢ says (Turned No_work) }
{}

/// After any history a request under way is of a stored zone.
pub fn requests_are_of_stored_zones()
    ensures { (z : Name) (brands : List Tabled) (commits : List Commit) (h : List Entry)
        → job_has_record (world z (after (opening brands commits) h)) ≡ true }
{}

/// After any history a local turn leaves what zones share exactly as it was.
pub fn local_turns_leave_what_is_common()
    ensures { (z : Name) (brands : List Tabled) (commits : List Commit) (h : List Entry) (e : Entry)
        → let S = after (opening brands commits) h in
        is_local z (world z S) e ≡ true → common (one S e.event e.grant).state ≡ common S }
{}

/// After any history whose grants fit, so after any legal one, no item is claimed by two zones.
pub fn each_item_has_one_holder()
    ensures { (brands : List Tabled) (commits : List Commit) (h : List Entry) (y z : Name) (c : Claim) → is_history fits (opening brands commits) h ≡ true
        → let S = after (opening brands commits) h in
        holds c (world y S).claims ≡ true → holds c (world z S).claims ≡ true → y ≡ z }
{}

/// After any history whose grants fit, so after any legal one, each item that a zone claims is declared. It claims none
/// twice, and so 3,072 at most, since 1,024 of each of the three kinds are declared at most.
pub fn claimed_items_are_declared()
    ensures declared { (brands : List Tabled) (commits : List Commit) (h : List Entry) (z : Name) (c : Claim) → is_history fits (opening brands commits) h ≡ true
        → let S = after (opening brands commits) h in
        holds c (world z S).claims ≡ true → holds c S.declared.items ≡ true }
    ensures once { (brands : List Tabled) (commits : List Commit) (h : List Entry) (z : Name)
        → each_once (world z (after (opening brands commits) h)).claims ≡ true }
    ensures few { (brands : List Tabled) (commits : List Commit) (h : List Entry) (z : Name) → is_history fits (opening brands commits) h ≡ true
        → length (world z (after (opening brands commits) h)).claims ≤ 3072 }
{}

/// After any history, whatever was granted, a zone has 128 mounts at most.
pub fn mounts_are_few()
    ensures { (z : Name) (brands : List Tabled) (commits : List Commit) (h : List Entry)
        → length (world z (after (opening brands commits) h)).mounts ≤ 128 }
{}

/// After any history, whatever was granted, what is stored of a zone is right, where it was so at the start: its state is
/// configured, incomplete or installed, and its configuration is sound (zonecfg(8)).
pub fn stores_hold_records()
    ensures after { (z : Name) (brands : List Tabled) (commits : List Commit) (h : List Entry) → IfSome (stored z commits) IsRight
        → IfSome (stored z (after (opening brands commits) h).commits) IsRight }
    // What a store's form allows is right.
    ensures form { (row : Record) → IsRecord row → IsRight row }
{}

/// After any history, whatever was granted, a zone's tables agree with its daemon (zoneadmd(8)), where what was stored of the
/// zone at the start is right. So a zone has what the steps of the request under way made, as far as they are done and not undone,
/// and what the next step mounts or claims is not there yet.
pub fn tables_agree_with_daemons()
    ensures { (z : Name) (brands : List Tabled) (commits : List Commit) (h : List Entry) → IfSome (stored z commits) IsRight
        → Agrees (seen_of (world z (after (opening brands commits) h))) }
{}

/// After any history, whatever was granted, each object that a reply to a zone names is the zone's own, where what was stored of
/// the zone at the start is right: the zone has it before the event or after it, or it is the process or the id whose number the
/// event's grant gives.
pub fn replies_name_own_objects()
    ensures events { (z : Name) (brands : List Tabled) (commits : List Commit) (h : List Entry) (e : Event) (g : Grant) → IfSome (stored z commits) IsRight
        → let S = after (opening brands commits) h in
        subject S e ≡ Zone z → AreAmong (names z (one S e g).reply) (own z S e g) }
    // So it is of each entry of the zone in a history, a legal one or one of stated grants.
    ensures entries { (z : Name) (permits : State → Event → Grant → Bool) (brands : List Tabled) (commits : List Commit) (h more : List Entry) (e : Entry)
        → IfSome (stored z commits) IsRight → is_history permits (opening brands commits) (h ++ e ∷ more) ≡ true
        → e.subject ≡ Zone z → AreAmong (names z e.reply) (own z (after (opening brands commits) h) e.event e.grant) }
{}

/// After any history whose grants fit, so after any legal one, a zone is small, where what was stored of it at the start is right:
/// what it has and what its record asks for are fewer than 10,000 mounts and claims in all. So its daemon has fewer than 10,000,000
/// turns left.
pub fn zones_stay_small()
    ensures small { (brands : List Tabled) (commits : List Commit) (h : List Entry) (z : Name) → is_history fits (opening brands commits) h ≡ true
        → IfSome (stored z commits) IsRight → IsSmall (seen_of (world z (after (opening brands commits) h))) }
    ensures turns { (brands : List Tabled) (commits : List Commit) (h : List Entry) (z : Name) → is_history fits (opening brands commits) h ≡ true
        → IfSome (stored z commits) IsRight → turns_left (seen_of (world z (after (opening brands commits) h))) < 10000000 }
{}

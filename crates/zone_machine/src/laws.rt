//! The laws of what zones share, over every state. Each is the contract of a function that does nothing.
ghost use Rattle.std.specs.Prelude.{◌≡◌, ◌≢◌, ℕ, List, true};
ghost use Rattle.zn_base.specs.Names.{Name};
ghost use Rattle.commit_journal.specs.Store.{row_of};
ghost use Rattle.kernel_objects.specs.declared.objects.Id.{Id};
ghost use Rattle.zone_pools.specs.declared.grant.Grant.{Grant};
ghost use Rattle.zone_machine.specs.Machine.Common.{HoldOnce, acts_common, common, whole_common};
ghost use Rattle.zone_cases.specs.State.Decisions.{act_of, says};
ghost use Rattle.zoneadmd_steps.specs.Desks.{Desk};
ghost use Rattle.zone_machine.specs.Machine.Histories.{is_allowed, is_told};
ghost use Rattle.zone_machine.specs.Machine.Local.{is_busy, is_local};
ghost use Rattle.zone_machine.specs.Machine.{decide, need, one, session_number, subject};
ghost use Rattle.zone_machine.specs.Machine.Pools.{allowed, fits};
ghost use Rattle.zone_cases.specs.State.{State, stored};
ghost use Rattle.zone_cases.specs.State.Worlds.{World, view_of, world};
ghost use Rattle.zoneadmd_steps.specs.declared.requests.TurnReply.TheVariants.{Idle};
ghost use Rattle.zone_cases.specs.declared.events.Entry.{Entry};
ghost use Rattle.zone_cases.specs.declared.events.Event.TheVariants.{Turn};
ghost use Rattle.loopback_mounts.specs.declared.mount.MountEntry.{MountEntry};
ghost use Rattle.zone_cases.specs.declared.replies.Head.TheVariants.{Turned};
ghost use Rattle.zone_cases.specs.declared.events.Event.{Event};
ghost use Rattle.zone_cases.specs.declared.events.Subject.TheVariants.{Global, Whole, Zone};

/// What an event makes of what is common is a function of that, the event, its grant and its zone's world.
pub fn changes_what_is_common()
    ensures zone { (z : Name) (S : State) (e : Event) (g : Grant) → subject S e ≡ Zone z
        → common (one S e g).state ≡ acts_common z (session_number e) (act_of (decide (view_of z (world z S)) e) g) (world z S) (common S) }
    // An event of the global zone only says that an event has come.
    ensures global { (S : State) (e : Event) (g : Grant) → subject S e ≡ Global
        → common (one S e g).state ≡ record (common S) { started = true } }
    // An event of the whole system only declares something, or it is a restart, after which nobody holds anything.
    ensures whole { (S : State) (e : Event) (g : Grant) → subject S e ≡ Whole
        → common (one S e g).state ≡ whole_common e (common S) }
{}

/// Whose an event is follows from what is common, where no two zones hold one number of a process.
pub fn subject_by_what_is_common()
    ensures { (S T : State) (e : Event) → HoldOnce (common S).pids → common S ≡ common T → subject S e ≡ subject T e }
{}

/// What an event of a zone asks, the grant that the pools give it, and which grants may be stated follow from
/// what is common and the zone's world, where no two zones hold one number of a process.
pub fn allowed_by_what_is_common()
    ensures need { (z : Name) (S T : State) (e : Event) → subject S e ≡ Zone z → HoldOnce (common S).pids
        → common S ≡ common T → world z S ≡ world z T → need S e ≡ need T e }
    ensures allowed { (z : Name) (S T : State) (e : Event) → subject S e ≡ Zone z → HoldOnce (common S).pids
        → common S ≡ common T → world z S ≡ world z T → allowed S e ≡ allowed T e }
    ensures fits { (z : Name) (S T : State) (e : Event) (g : Grant) → subject S e ≡ Zone z → HoldOnce (common S).pids
        → common S ≡ common T → world z S ≡ world z T → fits S e g ≡ fits T e g }
{}

/// What is stored of a zone is common.
pub fn is_stored_in_common()
    ensures { (z : Name) (S : State) → stored z S.commits ≡ row_of z (common S).rows }
{}

/// A local turn is told as it is and under the grant that the pools give, leaves what is common as it is but for the
/// start, changes its zone's mounts, its devices, its id and its desk alone, and isn't idle.
pub fn local_turns_touch_nothing_common()
    ensures right { (z : Name) (S : State) (e : Entry) → is_local z (world z S) e ≡ true → (is_told S e ≡ true) × (is_allowed S e.event e.grant ≡ true) }
    ensures common { (z : Name) (S : State) (e : Entry) → is_local z (world z S) e ≡ true → common (one S e.event e.grant).state ≡ record (common S) { started = true } }
    ensures world { (z : Name) (S : State) (e : Entry) → is_local z (world z S) e ≡ true
        → (ms : List MountEntry) × (ds : List (List ℕ)) × (is : List Id) × (d : Desk) × (world z (one S e.event e.grant).state ≡ record (world z S) { mounts = ms; devices = ds; ids = is; desk = d }) }
    ensures awake { (z : Name) (w : World) (e : Entry) → is_local z w e ≡ true → e.reply ≢ says (Turned Idle) }
{}

/// A turn of a stored zone whose daemon has a request isn't idle.
pub fn busy_turns_are_not_idle()
    ensures { (z : Name) (S : State) (g : Grant) → is_busy (world z S) ≡ true → (one S (Turn z) g).reply ≢ says (Turned Idle) }
{}

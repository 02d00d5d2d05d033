//! What a line of zonecfg(8) comes to that is said to an editor: it commits what was edited, removes the zone, goes on, or leaves.
ghost use Rattle.std.specs.Prelude.{◌∷◌, ◌≡◌, [], IfOk, IsSome, IsSomeAnd, List, None, Ok, Some, if◌then◌else◌, ℕ};
ghost use Rattle.zone_pools.specs.Decisions.{Just};
ghost use Rattle.std.specs.Option.{option_map};
ghost use Rattle.zn_base.specs.Names.{Name};
ghost use Rattle.zonecfg_scopes.specs.Edited.{Edited, revision_of};
ghost use Rattle.zonecfg_scopes.specs.OpenOf.{config_of};
ghost use Rattle.zonecfg_lines.specs.Runs.{run};
ghost use Rattle.zonecfg_lines.specs.declared.reply.Ending.TheVariants as ending;
ghost use Rattle.zoneadmd_steps.specs.Code.Desks.{as_desk};
ghost use Rattle.zoneadmd_steps.specs.declared.desks.Desk as desk_types;
ghost use Rattle.zone_cases.specs.Code.Cases.{IsCaseOf, IsNamedCase, IsNamedCommitter, as_typist, base_by, decision_of, made, MountsNothing};
ghost use Rattle.zone_cases.specs.Code.Commits.{IsRecord, IsRecordOf, as_hearer, judged_decision, typist_by};
ghost use Rattle.zone_cases.specs.Session.Commits.{Typist, commit, commits, delete, ended, ends, goes, leaves, line_refusal, novelty_of, records, refuses, removes, telling, typist};
ghost use Rattle.zone_cases.specs.Code.Doings.{as_doing};
ghost use Rattle.zone_cases.specs.State.Edits.{Here};
ghost use Rattle.zone_cases.specs.State.Worlds.{View};
ghost use Rattle.zone_cases.specs.declared.session.commits.Going.TheVariants as going;

use crate::cases::{Case, Committed, Committer, Novelty, Removed, Seat, Seated, Sitting};
use crate::replies::{Body, Head, Refusal, Reply};
use crate::session::doings::Doing;
use crate::session::held::{HeldConfig, HeldEditor};
use crate::session::judging::{Judged, delete_refusal, judge};
use brand_hooks::BrandTables;
use commit_journal::{Record, Row, StoredConfig};
use std::alloc::{AllocError, Global};
use uuid::Uuid;
use zn_base::{Bytes, Listing, ZoneName, ZoneState};
use zone_config::ZoneConfig;
use zoneadmd_steps::Desk;
use zonecfg_lines::{Ending, LineRefusal, LineReply};
use zonecfg_scopes::Editor;

/// Whose line of zonecfg(8) it is: one that is a session of its own, or that of a session which edits.
#[derive(Clone, Copy)]
pub(crate) enum Hearer {
    OfItsOwn,
    ASession,
}

/// What becomes of the session that types a line, once what the line asks for is done.
#[derive(Clone, Copy)]
pub(crate) enum Going {
    /// The line is a session of its own, and its editor is dropped.
    Alone,
    GoesOn,
    Leaves,
}

impl Hearer {
    // What becomes of its session after a line that ends so.
    fn going(self, ending: Ending) -> Going
        ensures { (e : Edited) → typist_by result e ≡ typist (as_hearer self) ending e }
    {
        match (self, ending) {
            (Hearer::OfItsOwn, _) => Going::Alone,
            (Hearer::ASession, Ending::Exit { .. } | Ending::Delete) => Going::Leaves,
            (Hearer::ASession, Ending::Commit | Ending::Nothing) => Going::GoesOn,
        }
    }
}

fn line_refusal(refusal: LineRefusal) -> Refusal
    ensures { result ≡ line_refusal refusal }
{
    match refusal {
        LineRefusal::Edit(fault) => Refusal::Edit(fault),
        LineRefusal::Flawed(flaw) => Refusal::Flawed(flaw),
        LineRefusal::NoZone => Refusal::NoZone,
        LineRefusal::Usage => Refusal::Usage,
    }
}

// Lines are told, and nothing is done.
fn telling_case(alloc: Global, head: Head, told: Listing<Bytes>) -> Result<Case, AllocError>
    ensures decides { IfOk result (λ c. (d : desk_types.Desk) → Just (telling [] head told) ≡ decision_of d c) }
    ensures of { IfOk result (λ c. (d : desk_types.Desk) → IsCaseOf d c) }
    ensures named { IfOk result (λ c. (z : Name) → IsNamedCase z c) }
    ensures free { IfOk result MountsNothing }
{
    let reply = Reply {
        head,
        body: Body::Lines(told),
    };
    Ok(Case::Answers(Box::new(alloc, reply)?))
}

/// Lines are told, and the session does this from now on.
pub(crate) fn seated_case(
    alloc: Global,
    zone: &ZoneName,
    doing: Option<Doing>,
    head: Head,
    body: Body,
) -> Result<Case, AllocError>
    ensures decides { IfOk result (λ c. (d : desk_types.Desk) → Just (record { edits = Here (option_map as_doing doing) ∷ []; reply = record { head = head; body = body } }) ≡ decision_of d c) }
    ensures of { IfOk result (λ c. (d : desk_types.Desk) → IsCaseOf d c) }
    ensures named { IfOk result (IsNamedCase zone.now) }
    ensures free { IfOk result MountsNothing }
{
    let owner = zone.copy(alloc)?;
    let seated = Seated {
        sitting: Sitting { doing, owner },
        reply: Reply { head, body },
    };
    Ok(Case::Sit(Box::new(alloc, seated)?))
}

// A line is refused: a session stays in the editor.
fn refused_case(
    alloc: Global,
    zone: &ZoneName,
    editor: HeldEditor,
    going: Going,
    refusal: Refusal,
    told: Listing<Bytes>,
) -> Result<Case, AllocError>
    ensures decides { IfOk result (λ c. (d : desk_types.Desk) → Just (refuses (typist_by going editor) refusal told) ≡ decision_of d c) }
    ensures of { IfOk result (λ c. (d : desk_types.Desk) → IsCaseOf d c) }
    ensures named { IfOk result (IsNamedCase zone.now) }
    ensures free { IfOk result MountsNothing }
{
    let head = Head::Refused(refusal);
    match going {
        Going::Alone => telling_case(alloc, head, told),
        Going::GoesOn | Going::Leaves => {
            let doing = Some(Doing::Edits(editor));
            seated_case(alloc, zone, doing, head, Body::Lines(told))
        }
    }
}

// A line is done, and stores nothing.
fn done_case(
    alloc: Global,
    zone: &ZoneName,
    editor: HeldEditor,
    going: Going,
    told: Listing<Bytes>,
) -> Result<Case, AllocError>
    ensures decides { IfOk result (λ c. (d : desk_types.Desk) → Just (telling (goes (typist_by going editor)) Head.Ok told) ≡ decision_of d c) }
    ensures of { IfOk result (λ c. (d : desk_types.Desk) → IsCaseOf d c) }
    ensures named { IfOk result (IsNamedCase zone.now) }
    ensures free { IfOk result MountsNothing }
{
    match going {
        Going::Alone => telling_case(alloc, Head::Ok, told),
        Going::GoesOn => {
            let doing = Some(Doing::Edits(editor));
            seated_case(alloc, zone, doing, Head::Ok, Body::Lines(told))
        }
        Going::Leaves => seated_case(alloc, zone, None, Head::Ok, Body::Lines(told)),
    }
}

// The record of a new zone, but for its number.
fn new_row(config: StoredConfig) -> Row
    requires { IsSome config.zonepath }
    ensures { (z : Name) (told : List (List ℕ)) (c : Committer) → base_by c config ≡ config → records z None config told (as_typist c) ≡ made Novelty.Zone z result told c }
{
    Row::new(Record {
        state: ZoneState::Configured,
        // The grant gives the UUID and the revision.
        uuid: Uuid::nil(),
        revision: 1,
        config,
    })
}

// The record of a zone that is stored, with another configuration, but for its number.
fn changed_row(row: &Row, config: StoredConfig) -> Row
    requires { IsSome config.zonepath }
    ensures { (z : Name) (told : List (List ℕ)) (c : Committer) → base_by c config ≡ config → records z (Some row.now) config told (as_typist c) ≡ made (novelty_of (Some row.now) config) z result told c }
{
    let stored = row.record();
    Row::new(Record {
        state: stored.state,
        uuid: stored.uuid,
        // The grant gives the revision.
        revision: stored.revision,
        config,
    })
}

fn committed_row(row: Option<&Row>, config: StoredConfig) -> Row
    requires { IsSome config.zonepath }
    ensures { (z : Name) (told : List (List ℕ)) (c : Committer) → base_by c config ≡ config → records z (option_map (λ r. r.now) row.entry) config told (as_typist c) ≡ made (novelty_of (option_map (λ r. r.now) row.entry) config) z result told c }
{
    match row {
        Some(row) => changed_row(row, config),
        None => new_row(config),
    }
}

// A configuration is committed, by a line or a session.
fn committed_case(
    alloc: Global,
    zone: &ZoneName,
    row: Option<&Row>,
    config: StoredConfig,
    novelty: Novelty,
    told: Listing<Bytes>,
    committer: Committer,
) -> Result<Case, AllocError>
    requires zonepath { IsSome config.zonepath }
    requires novelty { novelty ≡ novelty_of (option_map (λ r. r.now) row) config }
    requires base { base_by committer config ≡ config }
    requires named { IsNamedCommitter zone.now committer }
    ensures decides { IfOk result (λ c. (d : desk_types.Desk) → records zone.now (option_map (λ r. r.now) row.entry) config told (as_typist committer) ≡ decision_of d c) }
    ensures of { IfOk result (λ c. (d : desk_types.Desk) → IsCaseOf d c) }
    ensures named { IfOk result (IsNamedCase zone.now) }
    ensures free { IfOk result MountsNothing }
{
    let row = Box::new(alloc, committed_row(row, config))?;
    let committed = Committed {
        row,
        owner: zone.copy(alloc)?,
        novelty,
        told,
        committer,
    };
    Ok(Case::Commit(Box::new(alloc, committed)?))
}

// A session's editor, and the name of its zone.
fn seat(alloc: Global, zone: &ZoneName, editor: HeldEditor) -> Result<Seat, AllocError>
    ensures { IfOk result (λ seat. (seat.editor ≡ editor) × (seat.owner ≡ zone.now)) }
{
    Ok(Seat {
        owner: zone.copy(alloc)?,
        editor,
    })
}

// A session that commits what is open, and goes on or leaves.
fn committer(
    alloc: Global,
    zone: &ZoneName,
    editor: HeldEditor,
    config: &ZoneConfig,
    leaves: bool,
) -> Result<Committer, AllocError>
    ensures typist { IfOk result (λ c. as_typist c ≡ typist_by (if leaves then going.Leaves else going.GoesOn) editor) }
    ensures base { IfOk result (λ c. base_by c config.now ≡ config.now) }
    ensures named { IfOk result (IsNamedCommitter zone.now) }
{
    let seat = seat(alloc, zone, editor)?;
    if leaves {
        return Ok(Committer::Leaves(seat));
    }
    Ok(Committer::GoesOn(seat, HeldConfig::copy_of(alloc, config)?))
}

// The configuration that is open, where one is, as it is to be stored.
fn open_config(alloc: Global, editor: &HeldEditor) -> Result<Option<StoredConfig>, AllocError>
    ensures { IfOk result (λ config. config ≡ config_of editor.now.opened) }
{
    let Some(config) = editor.config() else {
        return Ok(None);
    };
    match config.copy(alloc) {
        Ok(config) => Ok(Some(StoredConfig::new(alloc, config)?)),
        Err(_) => Err(AllocError),
    }
}

// What is open is committed by a session.
fn session_record(
    alloc: Global,
    zone: &ZoneName,
    row: Option<&Row>,
    editor: HeldEditor,
    leaves: bool,
    novelty: Novelty,
    told: Listing<Bytes>,
) -> Result<Case, AllocError>
    requires record { IsSomeAnd (config_of editor.opened) (IsRecord novelty (option_map (λ r. r.now) row)) }
    ensures decides { IfOk result (λ c. (d : desk_types.Desk) → judged_decision (Judged.Records novelty) zone.now (option_map (λ r. r.now) row.entry) (config_of editor.opened) told (typist_by (if leaves then going.Leaves else going.GoesOn) editor) ≡ decision_of d c) }
    ensures of { IfOk result (λ c. (d : desk_types.Desk) → IsCaseOf d c) }
    ensures named { IfOk result (IsNamedCase zone.now) }
    ensures free { IfOk result MountsNothing }
{
    match open_config(alloc, &editor)? {
        Some(config) => {
            let committer = committer(alloc, zone, editor, config.as_config(), leaves)?;
            committed_case(alloc, zone, row, config, novelty, told, committer)
        }
        None => unreachable!(),
    }
}

// What is open is committed by a line that is a session of its own.
fn alone_record(
    alloc: Global,
    zone: &ZoneName,
    row: Option<&Row>,
    editor: HeldEditor,
    novelty: Novelty,
    told: Listing<Bytes>,
) -> Result<Case, AllocError>
    requires record { IsSomeAnd (config_of editor.opened) (IsRecord novelty (option_map (λ r. r.now) row)) }
    ensures decides { IfOk result (λ c. (d : desk_types.Desk) → judged_decision (Judged.Records novelty) zone.now (option_map (λ r. r.now) row.entry) (config_of editor.opened) told (typist_by going.Alone editor) ≡ decision_of d c) }
    ensures of { IfOk result (λ c. (d : desk_types.Desk) → IsCaseOf d c) }
    ensures named { IfOk result (IsNamedCase zone.now) }
    ensures free { IfOk result MountsNothing }
{
    match editor.into_config() {
        Some(config) => {
            let config = StoredConfig::new(alloc, config)?;
            committed_case(alloc, zone, row, config, novelty, told, Committer::Alone)
        }
        None => unreachable!(),
    }
}

// What is open is committed.
fn record_case(
    alloc: Global,
    zone: &ZoneName,
    row: Option<&Row>,
    editor: HeldEditor,
    going: Going,
    novelty: Novelty,
    told: Listing<Bytes>,
) -> Result<Case, AllocError>
    requires record { IsSomeAnd (config_of editor.opened) (IsRecord novelty (option_map (λ r. r.now) row)) }
    ensures decides { IfOk result (λ c. (d : desk_types.Desk) → judged_decision (Judged.Records novelty) zone.now (option_map (λ r. r.now) row.entry) (config_of editor.opened) told (typist_by going editor) ≡ decision_of d c) }
    ensures of { IfOk result (λ c. (d : desk_types.Desk) → IsCaseOf d c) }
    ensures named { IfOk result (IsNamedCase zone.now) }
    ensures free { IfOk result MountsNothing }
{
    match going {
        Going::Alone => alone_record(alloc, zone, row, editor, novelty, told),
        Going::GoesOn => session_record(alloc, zone, row, editor, false, novelty, told),
        Going::Leaves => session_record(alloc, zone, row, editor, true, novelty, told),
    }
}

// What the commit of what is open comes to, if something is.
fn judge_open(
    alloc: Global,
    desk: &Desk,
    brands: &BrandTables,
    row: Option<&Row>,
    editor: &HeldEditor,
) -> Result<Judged, AllocError>
    ensures decides { IfOk result (λ judged. (v : View) (told : List (List ℕ)) (t : Typist) → v.world.stored ≡ option_map (λ r. r.now) row.entry → v.world.brands ≡ brands.now → v.world.desk ≡ as_desk desk.now
        → commit v (revision_of editor.now.base) (config_of editor.now.opened) told t ≡ judged_decision judged v.zone (option_map (λ r. r.now) row.entry) (config_of editor.now.opened) told t) }
    ensures records { IfOk result (λ judged. IsRecordOf judged (option_map (λ r. r.now) row.entry) (config_of editor.now.opened)) }
{
    match editor.config() {
        Some(config) => judge(alloc, editor.seen(), desk, brands, row, config),
        None => Ok(Judged::Same),
    }
}

// What is open is committed, where something is.
fn commit_case(
    alloc: Global,
    zone: &ZoneName,
    desk: &Desk,
    brands: &BrandTables,
    row: Option<&Row>,
    editor: HeldEditor,
    going: Going,
    told: Listing<Bytes>,
) -> Result<Case, AllocError>
    ensures decides { IfOk result (λ c. (d : desk_types.Desk) (v : View) → v.zone ≡ zone.now → v.world.stored ≡ option_map (λ r. r.now) row.entry → v.world.brands ≡ brands.now → v.world.desk ≡ as_desk desk.now
        → commit v (revision_of editor.base) (config_of editor.opened) told (typist_by going editor) ≡ decision_of d c) }
    ensures of { IfOk result (λ c. (d : desk_types.Desk) → IsCaseOf d c) }
    ensures named { IfOk result (IsNamedCase zone.now) }
    ensures free { IfOk result MountsNothing }
{
    match judge_open(alloc, desk, brands, row, &editor)? {
        Judged::Refused(refusal) => refused_case(alloc, zone, editor, going, refusal, told),
        Judged::Same => done_case(alloc, zone, editor, going, told),
        Judged::Records(novelty) => record_case(alloc, zone, row, editor, going, novelty, told),
    }
}

fn commits(ending: Ending, changed: bool) -> bool
    ensures { result ≡ commits ending changed }
{
    match ending {
        Ending::Commit => true,
        Ending::Exit { force } => !force && changed,
        Ending::Delete | Ending::Nothing => false,
    }
}

// Who removes a zone.
fn remover(
    alloc: Global,
    zone: &ZoneName,
    editor: HeldEditor,
    hearer: Hearer,
) -> Result<Committer, AllocError>
    ensures typist { IfOk result (λ c. as_typist c ≡ typist (as_hearer hearer) ending.Delete editor) }
    ensures named { IfOk result (IsNamedCommitter zone.now) }
{
    match hearer {
        Hearer::OfItsOwn => Ok(Committer::Alone),
        Hearer::ASession => Ok(Committer::Leaves(seat(alloc, zone, editor)?)),
    }
}

// A zone is removed.
fn remove_case(
    alloc: Global,
    zone: &ZoneName,
    editor: HeldEditor,
    hearer: Hearer,
    told: Listing<Bytes>,
) -> Result<Case, AllocError>
    ensures decides { IfOk result (λ c. (d : desk_types.Desk) → removes told (typist (as_hearer hearer) ending.Delete editor) ≡ decision_of d c) }
    ensures of { IfOk result (λ c. (d : desk_types.Desk) → IsCaseOf d c) }
    ensures named { IfOk result (IsNamedCase zone.now) }
    ensures free { IfOk result MountsNothing }
{
    let committer = remover(alloc, zone, editor, hearer)?;
    let removed = Removed {
        owner: zone.copy(alloc)?,
        told,
        committer,
    };
    Ok(Case::Remove(Box::new(alloc, removed)?))
}

// A zone is removed, where nothing refuses that.
fn delete_case(
    alloc: Global,
    zone: &ZoneName,
    desk: &Desk,
    row: Option<&Row>,
    editor: HeldEditor,
    hearer: Hearer,
    told: Listing<Bytes>,
) -> Result<Case, AllocError>
    ensures decides { IfOk result (λ c. (d : desk_types.Desk) → delete (revision_of editor.base) (as_desk desk.now) (option_map (λ r. r.now) row.entry) told (typist (as_hearer hearer) ending.Delete editor) ≡ decision_of d c) }
    ensures of { IfOk result (λ c. (d : desk_types.Desk) → IsCaseOf d c) }
    ensures named { IfOk result (IsNamedCase zone.now) }
    ensures free { IfOk result MountsNothing }
{
    match delete_refusal(editor.seen(), desk, row) {
        Some(refusal) => {
            let going = hearer.going(Ending::Delete);
            refused_case(alloc, zone, editor, going, refusal, told)
        }
        None => remove_case(alloc, zone, editor, hearer, told),
    }
}

// What a line comes to whose end commits nothing.
fn leaving_case(
    alloc: Global,
    zone: &ZoneName,
    desk: &Desk,
    row: Option<&Row>,
    editor: HeldEditor,
    hearer: Hearer,
    ending: Ending,
    told: Listing<Bytes>,
) -> Result<Case, AllocError>
    ensures decides { IfOk result (λ c. (d : desk_types.Desk) (v : View) → v.world.stored ≡ option_map (λ r. r.now) row.entry → v.world.desk ≡ as_desk desk.now
        → leaves v (revision_of editor.base) ending told (typist (as_hearer hearer) ending editor) ≡ decision_of d c) }
    ensures of { IfOk result (λ c. (d : desk_types.Desk) → IsCaseOf d c) }
    ensures named { IfOk result (IsNamedCase zone.now) }
    ensures free { IfOk result MountsNothing }
{
    match ending {
        Ending::Delete => delete_case(alloc, zone, desk, row, editor, hearer, told),
        Ending::Commit | Ending::Exit { .. } | Ending::Nothing => done_case(
            alloc,
            zone,
            editor,
            hearer.going(ending),
            told,
        ),
    }
}

// What a line comes to in which nothing was refused.
fn ended_case(
    alloc: Global,
    zone: &ZoneName,
    desk: &Desk,
    brands: &BrandTables,
    row: Option<&Row>,
    editor: HeldEditor,
    hearer: Hearer,
    ending: Ending,
    told: Listing<Bytes>,
) -> Result<Case, AllocError>
    ensures decides { IfOk result (λ c. (d : desk_types.Desk) (v : View) → v.zone ≡ zone.now → v.world.stored ≡ option_map (λ r. r.now) row.entry → v.world.brands ≡ brands.now → v.world.desk ≡ as_desk desk.now
        → ends v (revision_of editor.base) (run editor told (Ok ending)) ending (typist (as_hearer hearer) ending editor) ≡ decision_of d c) }
    ensures of { IfOk result (λ c. (d : desk_types.Desk) → IsCaseOf d c) }
    ensures named { IfOk result (IsNamedCase zone.now) }
    ensures free { IfOk result MountsNothing }
{
    if commits(ending, editor.changed()) {
        let going = hearer.going(ending);
        commit_case(alloc, zone, desk, brands, row, editor, going, told)
    } else {
        leaving_case(alloc, zone, desk, row, editor, hearer, ending, told)
    }
}

/// What a line comes to, by the editor after it, and its reply.
pub(crate) fn line_case(
    alloc: Global,
    zone: &ZoneName,
    desk: &Desk,
    brands: &BrandTables,
    row: Option<&Row>,
    editor: Editor,
    hearer: Hearer,
    reply: LineReply,
) -> Result<Case, AllocError>
    ensures decides { IfOk result (λ c. (d : desk_types.Desk) (v : View) → v.zone ≡ zone.now → v.world.stored ≡ option_map (λ r. r.now) row.entry → v.world.brands ≡ brands.now → v.world.desk ≡ as_desk desk.now
        → ended v (as_hearer hearer) (run editor reply.told reply.end) reply.end ≡ decision_of d c) }
    ensures of { IfOk result (λ c. (d : desk_types.Desk) → IsCaseOf d c) }
    ensures named { IfOk result (IsNamedCase zone.now) }
    ensures free { IfOk result MountsNothing }
{
    let editor = HeldEditor::new(alloc, editor)?;
    let LineReply { told, end } = reply;
    match end {
        Ok(ending) => ended_case(alloc, zone, desk, brands, row, editor, hearer, ending, told),
        Err(refusal) => {
            let going = hearer.going(Ending::Nothing);
            refused_case(alloc, zone, editor, going, line_refusal(refusal), told)
        }
    }
}

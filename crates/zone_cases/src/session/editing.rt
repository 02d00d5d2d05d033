//! What a line is said to: an editor of the line's own, or a copy of the one that its session holds; and how a session begins
//! to edit.
ghost use Rattle.std.specs.Prelude.{◌≡◌, ◌≤◌, IfOk, None, Ok, Some, length};
ghost use Rattle.std.specs.Option.{option_map};
ghost use Rattle.zonecfg_scopes.specs.Edited.{opened_on};
ghost use Rattle.zonecfg_lines.specs.Runs.{base_of as taken_base};
ghost use Rattle.zoneadmd_steps.specs.Code.Desks.{as_desk};
ghost use Rattle.zoneadmd_steps.specs.declared.desks.Desk as desk_types;
ghost use Rattle.zone_cases.specs.Code.Cases.{IsCaseOf, IsNamedCase, decision_of, MountsNothing};
ghost use Rattle.zone_cases.specs.Session.Commits.{base_of, edits_line, opens, zonecfg};
ghost use Rattle.zone_cases.specs.State.Worlds.{View};

use crate::cases::Case;
use crate::replies::{Body, Head};
use crate::session::commits::{Hearer, line_case, seated_case};
use crate::session::doings::Doing;
use crate::session::held::HeldEditor;
use brand_hooks::BrandTables;
use commit_journal::Row;
use std::alloc::{AllocError, Global};
use zn_base::ZoneName;
use zoneadmd_steps::Desk;
use zonecfg_lines::{Stored, type_alone, type_line};
use zonecfg_scopes::{Base, Editor};

// What is stored, as an editor takes it.
fn base_in(alloc: Global, row: Option<&Row>) -> Result<Option<Base>, AllocError>
    ensures { IfOk result (λ base. base ≡ option_map base_of (option_map (λ r. r.now) row.entry)) }
{
    let Some(row) = row else {
        return Ok(None);
    };
    let stored = row.record();
    match stored.config.copy(alloc) {
        Ok(config) => Ok(Some(Base {
            config,
            revision: stored.revision,
        })),
        Err(_) => Err(AllocError),
    }
}

// An editor of a zone, with what is stored of it as its base.
fn open_editor(alloc: Global, zone: &ZoneName, row: Option<&Row>) -> Result<Editor, AllocError>
    ensures { IfOk result (λ editor. editor ≡ opened_on zone.now (option_map base_of (option_map (λ r. r.now) row.entry))) }
{
    let base = base_in(alloc, row)?;
    match Editor::open(alloc, zone.copy(alloc)?, base) {
        Ok(editor) => Ok(editor),
        Err(_) => Err(AllocError),
    }
}

// The stored configuration, as a line finds it.
fn stored_in(row: Option<&Row>) -> Option<Stored<'_>>
    ensures { taken_base result ≡ option_map base_of (option_map (λ r. r.now) row.entry) }
{
    let stored = row?.record();
    Some(Stored {
        config: stored.config.as_config(),
        revision: stored.revision,
    })
}

/// What subcommands come to that follow the name of a zone.
#[inline(never)]
pub(crate) fn zonecfg_case(
    alloc: Global,
    zone: &ZoneName,
    desk: &Desk,
    brands: &BrandTables,
    row: Option<&Row>,
    text: &[u8],
) -> Result<Case, AllocError>
    requires { length text.now ≤ 4200 }
    ensures decides { IfOk result (λ c. (d : desk_types.Desk) (v : View) → v.zone ≡ zone.now → v.world.stored ≡ option_map (λ r. r.now) row.entry → v.world.brands ≡ brands.now → v.world.desk ≡ as_desk desk.now
        → zonecfg v text.now ≡ decision_of d c) }
    ensures of { IfOk result (λ c. (d : desk_types.Desk) → IsCaseOf d c) }
    ensures named { IfOk result (IsNamedCase zone.now) }
    ensures free { IfOk result MountsNothing }
{
    let mut editor = open_editor(alloc, zone, row)?;
    let reply = type_alone(alloc, &mut editor, text, stored_in(row), brands.names())?;
    line_case(
        alloc,
        zone,
        desk,
        brands,
        row,
        editor,
        Hearer::OfItsOwn,
        reply,
    )
}

/// What a line comes to of a session that edits: it is said to a copy of the session's editor, which takes the other's place
/// once the line is done.
#[inline(never)]
pub(crate) fn edit_case(
    alloc: Global,
    zone: &ZoneName,
    desk: &Desk,
    brands: &BrandTables,
    row: Option<&Row>,
    editor: &HeldEditor,
    text: &[u8],
) -> Result<Case, AllocError>
    requires { length text.now ≤ 4200 }
    ensures decides { IfOk result (λ c. (d : desk_types.Desk) (v : View) → v.zone ≡ zone.now → v.world.stored ≡ option_map (λ r. r.now) row.entry → v.world.brands ≡ brands.now → v.world.desk ≡ as_desk desk.now
        → edits_line v editor.now text.now ≡ decision_of d c) }
    ensures of { IfOk result (λ c. (d : desk_types.Desk) → IsCaseOf d c) }
    ensures named { IfOk result (IsNamedCase zone.now) }
    ensures free { IfOk result MountsNothing }
{
    let mut editor = editor.copy(alloc)?;
    let reply = type_line(alloc, &mut editor, text, stored_in(row), brands.names())?;
    line_case(
        alloc,
        zone,
        desk,
        brands,
        row,
        editor,
        Hearer::ASession,
        reply,
    )
}

/// A session edits the zone from now on, over what is stored.
#[inline(never)]
pub(crate) fn open_case(
    alloc: Global,
    zone: &ZoneName,
    row: Option<&Row>,
) -> Result<Case, AllocError>
    ensures decides { IfOk result (λ c. (d : desk_types.Desk) (v : View) → v.zone ≡ zone.now → v.world.stored ≡ option_map (λ r. r.now) row.entry → opens v ≡ decision_of d c) }
    ensures of { IfOk result (λ c. (d : desk_types.Desk) → IsCaseOf d c) }
    ensures named { IfOk result (IsNamedCase zone.now) }
    ensures free { IfOk result MountsNothing }
{
    let editor = open_editor(alloc, zone, row)?;
    let doing = Some(Doing::Edits(HeldEditor::new(alloc, editor)?));
    seated_case(alloc, zone, doing, Head::Ok, Body::Nothing)
}

//! What the lines come to that sessions type.
ghost use Rattle.std.specs.Prelude.{◌∷◌, ◌≡◌, [], IfOk, IfSome, IsTrue, List, None, Some, false, option_copied, true};
ghost use Rattle.std.specs.Option.{option_map, unwrap_or};
ghost use Rattle.zn_base.specs.Text.{is_text};
ghost use Rattle.zone_pools.specs.Decisions.{Just};
ghost use Rattle.zone_cases.specs.Code.Cases.{IsCaseOf, IsNamedCase, decision_of, IsCaseIn, IsFreeCase, MountsNothing};
ghost use Rattle.zoneadmd_steps.specs.Code.Desks.{as_desk};
ghost use Rattle.zone_cases.specs.Code.Lines.{IsRight, IsRightLine, as_command, as_line};
ghost use Rattle.zone_cases.specs.Session.Lines as lines;
ghost use Rattle.zone_cases.specs.Session.Lines.{asks, joined, words};
ghost use Rattle.zone_cases.specs.State.Declarations.{Declared};
ghost use Rattle.zone_cases.specs.Code.Doings.{as_doing};
ghost use Rattle.datalink_table.specs.declared.claims.Claim as claim_types;
ghost use Rattle.loopback_mounts.specs.Mounts.{mount_at};
ghost use Rattle.loopback_mounts.specs.declared.mount.MountEntry as entry_types;
ghost use Rattle.zoneadmd_steps.specs.Code.Cases.{IsFreeFor, object_edits};
ghost use Rattle.zn_base.specs.Names.{Name, name_of};
ghost use Rattle.zone_cases.specs.Code.Cells.{Shows};
ghost use Rattle.zone_cases.specs.Session.Typed.{held_answer, hold_refusal, holding_at, holds, idle_line, put_clone, put_request, typed};
ghost use Rattle.zoneadmd_steps.specs.Desks.{is_full};
ghost use Rattle.zone_cases.specs.State.Worlds.{View};
ghost use Rattle.zoneadmd_steps.specs.declared.desks.Desk as desk_types;

use crate::calls::signal_case;
use crate::cases::{Case, Manner};
use crate::cell::Cell;
use crate::replies::{Head, Refusal};
use crate::session::doings::Doing;
use crate::session::editing::{edit_case, open_case, zonecfg_case};
use crate::session::entering::entered_case;
use crate::session::lines::{Command, Line};
use crate::session::logins::{console_case, hold_console_case, logged_case, login_case};
use crate::session::telling_cases::{help_case, list_case, verify_case};
use crate::session::words::split_word;
use brand_hooks::BrandTables;
use commit_journal::Row;
use loopback_mounts::{HoldFault, MountCell};
use std::alloc::{AllocError, Global};
use zn_base::{AbsPath, NameFault, Text, ZoneName, is_path, push_both};
use zoneadmd_steps::{Desk, ObjectEdit, QueuedRequest, Request, RequestKind};

pub(crate) fn refused(refusal: Refusal) -> Case
    ensures { result ≡ Case.Says (Head.Refused refusal) }
{
    Case::Says(Head::Refused(refusal))
}

// A request is put on the desk of a zone that is stored.
fn put_case(
    alloc: Global,
    zone: &ZoneName,
    desk: &Desk,
    row: Option<&Row>,
    request: Request,
) -> Result<Case, AllocError>
    ensures decides { IfOk result (λ c. Just (put_request (as_desk desk.now) request (option_map (λ r. r.now) row.entry)) ≡ decision_of desk.now c) }
    ensures of { IfOk result (IsCaseOf desk.now) }
    ensures named { IfOk result (IsNamedCase zone.now) }
    ensures free { IfOk result MountsNothing }
{
    if row.is_none() {
        return Ok(refused(Refusal::NoZone));
    }
    if desk.is_full() {
        return Ok(refused(Refusal::DeskFull));
    }
    let queued = QueuedRequest::new(alloc, request)?;
    Ok(Case::Put(queued, zone.copy(alloc)?))
}

// The request that a kind is which has no contents.
fn plain_request(kind: RequestKind) -> Option<Request>
    ensures { asks kind ≡ unwrap_or (option_map lines.Ask result) lines.Unknown }
{
    match kind {
        RequestKind::Install => Some(Request::Install),
        RequestKind::Uninstall => Some(Request::Uninstall),
        RequestKind::Attach => Some(Request::Attach),
        RequestKind::Detach => Some(Request::Detach),
        RequestKind::Mark => Some(Request::Mark),
        RequestKind::Ready => Some(Request::Ready),
        RequestKind::Halt => Some(Request::Halt),
        RequestKind::Clone | RequestKind::Move | RequestKind::Boot | RequestKind::Reboot => None,
    }
}

// The words of a text, with a space between two.
#[tactic(auto, using(crate::proofs::Words::joined_spaced))]
fn joined(alloc: Global, text: &[u8]) -> Result<Vec<u8>, AllocError>
    ensures { IfOk result (λ out. out.items ≡ joined (words text.now)) }
{
    let mut out = Vec::new(alloc);
    let Some((word, rest)) = split_word(text) else {
        return Ok(out);
    };
    out.extend_from_slice(word)?;
    let mut rest = rest;
    while let Some((word, more)) = split_word(rest) {
        push_both(&mut out, b" ", word)?;
        rest = more;
    }
    Ok(out)
}

// The arguments that the words of a text are.
fn args_of(alloc: Global, text: &[u8]) -> Result<Text, AllocError>
    requires { IsTrue (is_text (joined (words text.now))) }
    ensures { IfOk result (λ args. args ≡ joined (words text.now)) }
{
    let args = joined(alloc, text)?;
    Text::of(alloc, &args)
}

// A request for a copy of another zone, which is looked at for its name alone.
#[inline(never)]
fn clone_case(
    alloc: Global,
    zone: &ZoneName,
    desk: &Desk,
    row: Option<&Row>,
    word: &[u8],
) -> Result<Case, AllocError>
    ensures decides { IfOk result (λ c. Just (put_clone (as_desk desk.now) (name_of word.now) (option_map (λ r. r.now) row.entry)) ≡ decision_of desk.now c) }
    ensures of { IfOk result (IsCaseOf desk.now) }
    ensures named { IfOk result (IsNamedCase zone.now) }
    ensures free { IfOk result MountsNothing }
{
    match ZoneName::read(alloc, word) {
        Ok(source) => put_case(alloc, zone, desk, row, Request::Clone(source)),
        Err(NameFault::Memory) => Err(AllocError),
        Err(fault) => Ok(refused(Refusal::BadName(fault))),
    }
}

// The directory that a word is. What is no path is no mount's.
fn dir_of(alloc: Global, mounts: &MountCell, word: &[u8]) -> Result<Option<AbsPath>, AllocError>
    ensures some { IfOk result (λ dir. IfSome dir (λ dir. dir ≡ word.now)) }
    ensures none { IfOk result (λ dir. dir ≡ None → mount_at word.now mounts.now.list ≡ None) }
{
    let entries = mounts.entries();
    if !is_path(word) {
        return Ok(None);
    }
    Ok(Some(AbsPath::of(alloc, word)?))
}

fn hold_refusal(fault: HoldFault) -> Refusal
    ensures { result ≡ hold_refusal fault }
{
    match fault {
        HoldFault::HoldState => Refusal::HoldState,
        HoldFault::NoMount => Refusal::NoMount,
    }
}

// Whether the global zone may hold the mount at a directory, or holds it and may release it.
fn check_held(mounts: &MountCell, dir: &AbsPath, held: bool) -> Result<(), HoldFault>
    ensures { result ≡ held_answer held dir.now mounts.now.list }
{
    if held {
        mounts.check_hold(dir)
    } else {
        mounts.check_release(dir)
    }
}

// The mount at a directory is held from now on, or free.
fn holding_at(dir: AbsPath, held: bool) -> ObjectEdit
    ensures edits { object_edits result ≡ holding_at held dir ∷ [] }
    ensures free { (ms : List entry_types.MountEntry) (cs : List claim_types.Claim) → IsFreeFor result ms cs }
{
    if held {
        ObjectEdit::Hold(dir)
    } else {
        ObjectEdit::Release(dir)
    }
}

// The global zone holds a mount of a zone that is stored, or holds it no more.
#[inline(never)]
fn hold_case(
    alloc: Global,
    mounts: &MountCell,
    row: Option<&Row>,
    word: &[u8],
    held: bool,
) -> Result<Case, AllocError>
    ensures decides { IfOk result (λ c. (d : desk_types.Desk) → holds (option_map (λ r. r.now) row.entry) (held_answer held word.now mounts.now.list) (holding_at held word.now) ≡ decision_of d c) }
    ensures of { IfOk result (λ c. (d : desk_types.Desk) → IsCaseOf d c) }
    ensures named { IfOk result (λ c. (z : Name) → IsNamedCase z c) }
    ensures free { IfOk result MountsNothing }
{
    if row.is_none() {
        return Ok(refused(Refusal::NoZone));
    }
    let Some(dir) = dir_of(alloc, mounts, word)? else {
        return Ok(refused(Refusal::NoMount));
    };
    match check_held(mounts, &dir, held) {
        Ok(()) => Ok(Case::Change(holding_at(dir, held), Manner::Plain)),
        Err(fault) => Ok(refused(hold_refusal(fault))),
    }
}

// What the daemon of a zone is asked is put on the desk, where it is a request.
fn plain_case(
    alloc: Global,
    zone: &ZoneName,
    desk: &Desk,
    row: Option<&Row>,
    kind: RequestKind,
) -> Result<Case, AllocError>
    ensures decides { IfOk result (λ c. (v : View) → v.world.stored ≡ option_map (λ r. r.now) row.entry → v.world.desk ≡ as_desk desk.now
        → idle_line v (asks kind) ≡ decision_of desk.now c) }
    ensures of { IfOk result (IsCaseOf desk.now) }
    ensures named { IfOk result (IsNamedCase zone.now) }
    ensures free { IfOk result MountsNothing }
{
    match plain_request(kind) {
        Some(request) => put_case(alloc, zone, desk, row, request),
        None => Ok(refused(Refusal::Usage)),
    }
}

// A line of an idle session.
fn idle_case(
    alloc: Global,
    zone: &ZoneName,
    cell: &Cell,
    brands: &BrandTables,
    row: Option<&Row>,
    command: Command<'_>,
) -> Result<Case, AllocError>
    requires { IsRight (as_command command) }
    ensures decides { IfOk result (λ c. (v : View) → Shows v zone.now cell.now → v.world.stored ≡ option_map (λ r. r.now) row.entry → v.world.brands ≡ brands.now → v.world.desk ≡ as_desk cell.now.desk
        → idle_line v (as_command command.entry) ≡ decision_of cell.now.desk c) }
    ensures of { IfOk result (IsCaseOf cell.now.desk) }
    ensures named { IfOk result (IsNamedCase zone.now) }
    ensures free { IfOk result (λ c. IsFreeCase c cell.now.mounts.list cell.now.claims.claims) }
{
    let desk = &cell.desk;
    match command {
        Command::Blank => Ok(Case::Says(Head::Ok)),
        Command::Edit => open_case(alloc, zone, row),
        Command::Zonecfg(text) => zonecfg_case(alloc, zone, desk, brands, row, text),
        Command::Request(kind) => plain_case(alloc, zone, desk, row, kind),
        Command::Boot(text) => put_case(
            alloc,
            zone,
            desk,
            row,
            Request::Boot(args_of(alloc, text)?),
        ),
        Command::Reboot(text) => put_case(
            alloc,
            zone,
            desk,
            row,
            Request::Reboot(args_of(alloc, text)?),
        ),
        Command::Move(word) => put_case(
            alloc,
            zone,
            desk,
            row,
            Request::Move(AbsPath::of(alloc, word)?),
        ),
        Command::Clone(word) => clone_case(alloc, zone, desk, row, word),
        Command::Unforced => Ok(refused(Refusal::NeedForce)),
        Command::Kill(signal, pid) => Ok(signal_case(&cell.kernel, false, signal, pid)),
        Command::Hold(word) => hold_case(alloc, &cell.mounts, row, word, true),
        Command::Release(word) => hold_case(alloc, &cell.mounts, row, word, false),
        Command::Login(escape) => login_case(alloc, zone, cell, row, escape),
        Command::Console(escape) => hold_console_case(alloc, zone, cell, row, escape),
        Command::Enter(text) => entered_case(alloc, zone, cell, row, text),
        Command::Help => help_case(alloc),
        Command::Verify => verify_case(alloc, brands, row),
        Command::ListOne(form) => list_case(alloc, zone, cell, row, form),
        Command::ListZones(_) | Command::Unknown => Ok(refused(Refusal::Usage)),
    }
}

// A line of a session that does something in the zone.
#[tactic(auto, unfolding(crate::specs::Session::Typed::typed, crate::specs::State::Worlds::view_of))]
fn busy_case(
    alloc: Global,
    zone: &ZoneName,
    cell: &Cell,
    brands: &BrandTables,
    row: Option<&Row>,
    doing: &Doing,
    line: Line<'_>,
) -> Result<Case, AllocError>
    requires { IsRightLine line }
    ensures { IfOk result (λ c. (declared : Declared) → IsCaseIn zone.now (record { stored = option_map (λ r. r.now) row.entry; declared = declared; brands = brands.now }) cell.now
        (λ v. typed v (Some (as_doing doing.now)) (as_line line.entry)) c) }
{
    match doing {
        Doing::Awaits(ticket) => Ok(refused(Refusal::Waiting(*ticket))),
        Doing::Edits(editor) => edit_case(alloc, zone, &cell.desk, brands, row, editor, line.text),
        Doing::LoggedIn(pid, escape) => logged_case(alloc, zone, cell, *pid, *escape, line.text),
        Doing::AtConsole(escape) => console_case(alloc, zone, cell, *escape, line.text),
    }
}

/// What a line comes to that a session types, which is idle, or waits in the zone for a ticket, or edits it.
#[inline(never)]
#[tactic(auto, unfolding(crate::specs::Session::Typed::typed, crate::specs::State::Worlds::view_of))]
pub fn decide_line(
    alloc: Global,
    zone: &ZoneName,
    cell: &Cell,
    brands: &BrandTables,
    row: Option<&Row>,
    doing: Option<&Doing>,
    line: Line<'_>,
) -> Result<Case, AllocError>
    requires { IsRightLine line }
    ensures { IfOk result (λ c. (declared : Declared) → IsCaseIn zone.now (record { stored = option_map (λ r. r.now) row.entry; declared = declared; brands = brands.now }) cell.now
        (λ v. typed v (option_map as_doing (option_copied doing.entry)) (as_line line.entry)) c) }
{
    match doing {
        Some(doing) => busy_case(alloc, zone, cell, brands, row, doing, line),
        None => idle_case(alloc, zone, cell, brands, row, line.command),
    }
}

//! What is decided of a commit and of a removal, before anything is made for it.
ghost use Rattle.std.specs.Prelude.{◌≡◌, IfOk, List, None, Some, bytes_eq, is_some, true, ℕ};
ghost use Rattle.brand_hooks.specs.Brands.{tabled_names};
ghost use Rattle.config_verify.specs.Flaws.{first, flaws};
ghost use Rattle.std.specs.Option.{option_map};
ghost use Rattle.zn_base.specs.Names.{Name};
ghost use Rattle.zoneadmd_steps.specs.Code.Desks.{as_desk};
ghost use Rattle.zoneadmd_steps.specs.Desks.{state_now};
ghost use Rattle.zoneadmd_steps.specs.declared.desks.Desk as desk_types;
ghost use Rattle.zone_cases.specs.Code.Commits.{IsOfNovelty, IsStorableIf, judged_decision, removes_unless};
ghost use Rattle.zone_cases.specs.Session.Commits.{Typist, commit_over, commit_seen, commit_unless, delete, keeps_path, revision_now};

use crate::cases::Novelty;
use crate::replies::Refusal;
use brand_hooks::BrandTables;
use commit_journal::Row;
use config_verify::{Flaw, verify};
use std::alloc::{AllocError, Global};
use zn_base::ZoneState;
use zone_config::{Property, ZoneConfig, same_contents};
use zoneadmd_steps::Desk;

/// What a commit comes to.
#[derive(Drop)]
pub(crate) enum Judged {
    Refused(Refusal),
    /// What is committed is what is stored.
    Same,
    Records(Novelty),
}

fn keeps_path(row: &Row, config: &ZoneConfig) -> bool
    ensures { result ≡ keeps_path row.now config.now }
{
    config.shown(Property::Zonepath) == row.record().config.shown(Property::Zonepath)
}

fn keeps_brand(row: &Row, config: &ZoneConfig) -> bool
    ensures { result ≡ bytes_eq config.now.brand row.now.config.brand }
{
    config.shown(Property::Brand) == row.record().config.shown(Property::Brand)
}

/// A zone's state, which is stored or is one of those that aren't.
pub(crate) fn state_now(row: &Row, desk: &Desk) -> ZoneState
    ensures { result ≡ state_now row.now (as_desk desk.now) }
{
    match desk.active() {
        Some(state) => state,
        None => row.record().state,
    }
}

// What a commit of a configuration without a flaw comes to, over what is stored.
fn judge_over(row: &Row, desk: &Desk, config: &ZoneConfig) -> Judged
    ensures decides { (z : Name) (told : List (List ℕ)) (t : Typist) → commit_over z (as_desk desk.now) (Some row.now) config.now told t ≡ judged_decision result z (Some row.now) (Some config.now) told t }
    ensures novelty { IsOfNovelty result (Some row.now) config.now }
{
    if same_contents(config, row.record().config.as_config()) {
        return Judged::Same;
    }
    let keeps_path = keeps_path(row, config);
    let keeps_place = keeps_path && keeps_brand(row, config);
    let state = state_now(row, desk);
    if !keeps_place && !matches!(state, ZoneState::Configured) {
        return Judged::Refused(Refusal::WrongState(state));
    }
    if keeps_path {
        Judged::Records(Novelty::Nothing)
    } else {
        Judged::Records(Novelty::Path)
    }
}

// The revision that is stored, or 0 where none is.
fn revision_now(row: Option<&Row>) -> u32
    ensures { result ≡ revision_now (option_map (λ r. r.now) row.entry) }
{
    match row {
        Some(row) => row.revision,
        None => 0,
    }
}

// What a commit of a configuration without a flaw comes to, whose editor has seen a revision.
fn judge_seen(seen: u32, row: Option<&Row>, desk: &Desk, config: &ZoneConfig) -> Judged
    ensures decides { (z : Name) (told : List (List ℕ)) (t : Typist) → commit_seen seen z (as_desk desk.now) (option_map (λ r. r.now) row.entry) config.now told t
        ≡ judged_decision result z (option_map (λ r. r.now) row.entry) (Some config.now) told t }
    ensures novelty { IsOfNovelty result (option_map (λ r. r.now) row.entry) config.now }
{
    let now = revision_now(row);
    if now != seen {
        return Judged::Refused(Refusal::Changed(seen, now));
    }
    match row {
        Some(row) => judge_over(row, desk, config),
        None => Judged::Records(Novelty::Zone),
    }
}

/// What a commit of a configuration comes to.
#[tactic(auto, using(crate::proofs::Made::has_zonepath))]
pub(crate) fn judge(
    alloc: Global,
    seen: u32,
    desk: &Desk,
    brands: &BrandTables,
    row: Option<&Row>,
    config: &ZoneConfig,
) -> Result<Judged, AllocError>
    ensures decides { IfOk result (λ judged. (z : Name) (told : List (List ℕ)) (t : Typist) → commit_unless (first (flaws (tabled_names brands.now) config.now)) seen z (as_desk desk.now) (option_map (λ r. r.now) row.entry) config.now told t
        ≡ judged_decision judged z (option_map (λ r. r.now) row.entry) (Some config.now) told t) }
    ensures novelty { IfOk result (λ judged. IsOfNovelty judged (option_map (λ r. r.now) row.entry) config.now) }
    ensures storable { IfOk result (λ judged. IsStorableIf judged config.now) }
{
    match verify(alloc, config, brands.names()) {
        Ok(()) => Ok(judge_seen(seen, row, desk, config)),
        Err(Flaw::Memory) => Err(AllocError),
        Err(flaw) => Ok(Judged::Refused(Refusal::Flawed(flaw))),
    }
}

/// Why a zone may not be removed whose editor has seen a revision, if it may not.
pub(crate) fn delete_refusal(seen: u32, desk: &Desk, row: Option<&Row>) -> Option<Refusal>
    ensures decides { (told : List (List ℕ)) (t : Typist) → delete seen (as_desk desk.now) (option_map (λ r. r.now) row.entry) told t ≡ removes_unless result told t }
    ensures stored { result ≡ None → is_some row.entry ≡ true }
{
    let Some(row) = row else {
        return Some(Refusal::NoZone);
    };
    if row.revision != seen {
        return Some(Refusal::Changed(seen, row.revision));
    }
    let state = state_now(row, desk);
    if !matches!(state, ZoneState::Configured) {
        return Some(Refusal::WrongState(state));
    }
    if desk.has_request() {
        return Some(Refusal::DeskInUse);
    }
    None
}

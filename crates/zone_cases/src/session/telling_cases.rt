//! What the lines of zoneadm(8) come to in a zone that only tell something.
ghost use Rattle.std.specs.Prelude.{◌∷◌, ◌≡◌, [], IfOk};
ghost use Rattle.std.specs.Option.{option_map};
ghost use Rattle.brand_hooks.specs.Brands.{tabled_names};
ghost use Rattle.config_verify.specs.Flaws.{first, flaws};
ghost use Rattle.priv_sets.specs.Limit as limits;
ghost use Rattle.zn_base.specs.Names.{Name};
ghost use Rattle.zone_pools.specs.Decisions.{Just};
ghost use Rattle.zoneadmd_steps.specs.Code.Desks.{as_desk};
ghost use Rattle.zoneadmd_steps.specs.Objects.{ids_of};
ghost use Rattle.zoneadmd_steps.specs.declared.desks.Desk as desk_types;
ghost use Rattle.zone_cases.specs.Code.Cases.{IsCaseOf, IsNamedCase, decision_of, MountsNothing};
ghost use Rattle.zone_cases.specs.Session.Listed.{config_refusal, flaw_refusal, help_line, limit_refusal, list_one_reply, verify_reply};
ghost use Rattle.zone_cases.specs.State.Decisions.{answers};

use crate::cases::Case;
use crate::cell::Cell;
use crate::replies::{Body, Head, Refusal};
use crate::session::line_cases::refused;
use crate::session::listing::{Form, cell_row, help, list_one};
use brand_hooks::BrandTables;
use commit_journal::Row;
use config_verify::{Flaw, verify};
use priv_sets::limit_of;
use std::alloc::{AllocError, Global};
use zn_base::{Text, ZoneName};
use zone_config::ZoneConfig;

/// What zoneadm(8) can be asked for is told.
#[inline(never)]
pub(crate) fn help_case(alloc: Global) -> Result<Case, AllocError>
    ensures { IfOk result (λ c. c ≡ Case.Tells (Body.Lines (help_line ∷ []))) }
{
    Ok(Case::Tells(Body::Lines(help(alloc)?)))
}

// The first flaw of a configuration.
fn first_flaw(
    alloc: Global,
    config: &ZoneConfig,
    brands: &BrandTables,
) -> Result<Option<Refusal>, AllocError>
    ensures { IfOk result (λ refusal. refusal ≡ flaw_refusal (first (flaws (tabled_names brands.now) config.now))) }
{
    match verify(alloc, config, brands.names()) {
        Ok(()) => Ok(None),
        Err(Flaw::Memory) => Err(AllocError),
        Err(flaw) => Ok(Some(Refusal::Flawed(flaw))),
    }
}

// Why a limitpriv denotes no limit set.
fn limit_refusal(text: &Text) -> Option<Refusal>
    ensures { result ≡ limit_refusal (limits.limit_of text.now) }
{
    match limit_of(text.bytes()) {
        Ok(_) => None,
        Err(fault) => Some(Refusal::Privilege(fault)),
    }
}

fn config_refusal(
    alloc: Global,
    config: &ZoneConfig,
    brands: &BrandTables,
) -> Result<Option<Refusal>, AllocError>
    ensures { IfOk result (λ refusal. refusal ≡ config_refusal brands.now config.now) }
{
    match first_flaw(alloc, config, brands)? {
        Some(refusal) => Ok(Some(refusal)),
        None => Ok(limit_refusal(&config.limitpriv)),
    }
}

/// The configuration of a zone that is stored is looked at.
#[inline(never)]
pub(crate) fn verify_case(
    alloc: Global,
    brands: &BrandTables,
    row: Option<&Row>,
) -> Result<Case, AllocError>
    ensures decides { IfOk result (λ c. (d : desk_types.Desk) → Just (answers (verify_reply brands.now (option_map (λ r. r.now) row.entry))) ≡ decision_of d c) }
    ensures of { IfOk result (λ c. (d : desk_types.Desk) → IsCaseOf d c) }
    ensures named { IfOk result (λ c. (z : Name) → IsNamedCase z c) }
    ensures free { IfOk result MountsNothing }
{
    let Some(row) = row else {
        return Ok(refused(Refusal::NoZone));
    };
    match config_refusal(alloc, row.config.as_config(), brands)? {
        Some(refusal) => Ok(refused(refusal)),
        None => Ok(Case::Says(Head::Ok)),
    }
}

/// A zone that is stored is told of, whatever its state.
#[inline(never)]
pub(crate) fn list_case(
    alloc: Global,
    zone: &ZoneName,
    cell: &Cell,
    row: Option<&Row>,
    form: Form,
) -> Result<Case, AllocError>
    ensures decides { IfOk result (λ c. (d : desk_types.Desk) → Just (answers (list_one_reply zone.now form (option_map (λ r. r.now) row.entry) (as_desk cell.now.desk) (ids_of cell.now.kernel.id))) ≡ decision_of d c) }
    ensures of { IfOk result (λ c. (d : desk_types.Desk) → IsCaseOf d c) }
    ensures named { IfOk result (λ c. (z : Name) → IsNamedCase z c) }
    ensures free { IfOk result MountsNothing }
{
    match row {
        Some(row) => {
            let lines = list_one(alloc, form, &cell_row(zone, row, cell))?;
            Ok(Case::Tells(Body::Lines(lines)))
        }
        None => Ok(refused(Refusal::NoZone)),
    }
}

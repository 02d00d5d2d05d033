//! What is checked as a request begins.
ghost use Rattle.std.specs.Prelude.{◌≡◌, IfOk};
ghost use Rattle.config_verify.specs.Flaws.{first, flaws, Finds};
ghost use Rattle.priv_sets.specs.Limit as limit_sets;
ghost use Rattle.zoneadmd_steps.specs.Plans.{is_limited, is_verified, refusal, unlimited, unverified};
ghost use Rattle.brand_hooks.specs.Brands.{tabled_names};

use crate::plans::{is_limited, is_verified, may_begin};
use crate::requests::{Outcome, RequestKind};
use brand_hooks::BrandTables;
use commit_journal::StoredConfig;
use config_verify::{Flaw, verify, verify_brand};
use priv_sets::limit_of;
use std::alloc::{AllocError, Global};
use zn_base::{Text, ZoneState};
use zone_config::ZoneConfig;

// What `verify` finds in a configuration that is stored. Where it is known to have no other flaw, its brand alone is looked at.
fn verify_stored(alloc: Global, config: &StoredConfig, brands: &[Text]) -> Result<(), Flaw>
    ensures { Finds (flaws brands.now config.now) result }
{
    if config.is_verified() {
        verify_brand(alloc, config.as_config(), brands)
    } else {
        verify(alloc, config.as_config(), brands)
    }
}

// The configuration's first flaw.
fn unverified(
    alloc: Global,
    brands: &BrandTables,
    config: &StoredConfig,
) -> Result<Option<Outcome>, AllocError>
    ensures { IfOk result (λ o. o ≡ unverified (first (flaws (tabled_names brands.now) config.now))) }
{
    match verify_stored(alloc, config, brands.names()) {
        Ok(()) => Ok(None),
        Err(Flaw::Memory) => Err(AllocError),
        Err(flaw) => Ok(Some(Outcome::NotVerified(flaw))),
    }
}

// The fault of its limit set.
fn unlimited(config: &ZoneConfig) -> Option<Outcome>
    ensures { result ≡ unlimited (limit_sets.limit_of config.now.limitpriv) }
{
    match limit_of(config.limitpriv.bytes()) {
        Ok(_) => None,
        Err(fault) => Some(Outcome::Privilege(fault)),
    }
}

/// Why a request doesn't begin: its state, else the configuration's first flaw, else the fault of its limit set.
pub(crate) fn refusal(
    alloc: Global,
    brands: &BrandTables,
    kind: RequestKind,
    state: ZoneState,
    config: &StoredConfig,
) -> Result<Option<Outcome>, AllocError>
    ensures { IfOk result (λ o. o ≡ refusal brands.now kind state config.now) }
{
    if !may_begin(kind, state) {
        return Ok(Some(Outcome::WrongState(state)));
    }
    if is_verified(kind, state) {
        if let Some(outcome) = unverified(alloc, brands, config)? {
            return Ok(Some(outcome));
        }
    }
    if is_limited(kind, state) {
        Ok(unlimited(config.as_config()))
    } else {
        Ok(None)
    }
}

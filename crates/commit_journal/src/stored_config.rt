//! The configuration of a record, with its export text.
ghost use Rattle.std.specs.Prelude.{◌≡◌, [], IfOk, true};
ghost use Rattle.config_verify.specs.Flaws.{other_flaws};
ghost use Rattle.zone_config.specs.Export.{export_text};
ghost use Rattle.zone_config.specs.Sound.{IsSound};

use config_verify::verify_but_brand;
use std::alloc::{AllocError, Global};
use std::marker::Model;
use std::ops::Deref;
use std::sync::Arc;
use zone_config::{ZoneConfig, export};

// A configuration, its export text, and whether it is known to have no flaw but perhaps that of its brand.
#[derive(Drop)]
struct Printed {
    config: ZoneConfig,
    text: Vec<u8>,
    verified: bool,
}

// Where memory runs out the answer is no.
#[tactic(auto, using(config_verify::proofs::Chains::none_found))]
fn is_verified(alloc: Global, config: &ZoneConfig) -> bool
    ensures { result ≡ true → other_flaws config.now ≡ [] }
{
    verify_but_brand(alloc, config).is_ok()
}

/// A configuration that is stored, with its export text. Several may hold it, in any threads, and nobody changes it: another holder costs
/// the same whatever the configuration has. Contracts see its contents.
#[derive(Drop)]
pub struct StoredConfig {
    held: Arc<Printed, Global>,
}

impl Model for StoredConfig {
    ghost use Rattle.std.specs.Prelude.{◌≡◌, [], true};
    ghost use Rattle.config_verify.specs.Flaws.{other_flaws};
    ghost use Rattle.std.specs.Arc.{arc_value};
    ghost use Rattle.zone_config.specs.Export.{export_text};
    ghost use Rattle.zone_config.specs.declared.terms.Contents.{Contents};

    ghost Value = { Contents };

    ghost view = { λ s. (arc_value s.held).config };

    ghost invariant = { λ s. ((arc_value s.held).text.items ≡ export_text (arc_value s.held).config) × ((arc_value s.held).verified ≡ true → other_flaws (arc_value s.held).config ≡ []) };
}

impl Deref for StoredConfig {
    type Target = ZoneConfig;

    ghost deref_gives = { λ s config. config ≡ s };

    fn deref(&self) -> &ZoneConfig {
        &self.held.config
    }
}

impl StoredConfig {
    /// A configuration that several may hold from now on. It is printed, once.
    pub fn new(alloc: Global, config: ZoneConfig) -> Result<StoredConfig, AllocError>
        ensures { IfOk result (λ stored. stored ≡ config) }
    {
        let Ok(text) = export(alloc, &config) else {
            return Err(AllocError);
        };
        let verified = is_verified(alloc, &config);
        Ok(StoredConfig {
            held: Arc::new(
                alloc,
                Printed {
                    config,
                    text,
                    verified,
                },
            )?,
        })
    }

    /// The configuration.
    pub fn as_config(&self) -> &ZoneConfig
        ensures { result.now ≡ self.now }
    {
        &self.held.config
    }

    /// Its export text.
    pub fn text(&self) -> &[u8]
        ensures text { result.now ≡ export_text self.now }
        ensures sound { IsSound self.now }
    {
        // The clauses of `contents` say that the configuration is sound.
        let _contents = self.held.config.contents();
        &self.held.text
    }

    /// Whether the configuration is known to have no flaw but perhaps that of its brand. It takes no memory.
    pub fn is_verified(&self) -> bool
        ensures { result ≡ true → other_flaws self.now ≡ [] }
    {
        self.held.verified
    }

    /// One more holder of the same configuration. It takes no memory, but there may be no more holders than a counter can count.
    pub fn share(&self) -> Result<StoredConfig, AllocError>
        ensures { IfOk result (λ stored. stored ≡ self.now) }
    {
        Ok(StoredConfig {
            held: Arc::try_clone(&self.held)?,
        })
    }
}

//! The configuration of a request under way.
ghost use Rattle.std.specs.Prelude.{◌≡◌};
ghost use Rattle.zone_config.specs.Property.{blank};
ghost use Rattle.zone_config.specs.declared.terms.Contents.{Contents};

use commit_journal::StoredConfig;
use std::alloc::Global;
use std::marker::Model;
use std::ops::Deref;
use zone_config::{ZoneConfig, blank};

// Where the configuration is.
#[derive(Drop)]
enum Kept {
    Stored(StoredConfig),
    Blank(ZoneConfig),
}

/// The configuration of a request under way: the one that was stored as the request last began, which it shares, or a blank one, which takes
/// no memory. Contracts see its contents.
#[derive(Drop)]
pub(crate) struct JobConfig {
    kept: Kept,
}

impl Model for JobConfig {
    ghost use Rattle.zone_config.specs.declared.terms.Contents.{Contents};
    ghost use Rattle.zoneadmd_steps.specs.Code.Job_configs.{contents_of};

    ghost Value = { Contents };

    ghost view = { λ c. contents_of c.kept };
}

impl Deref for JobConfig {
    type Target = ZoneConfig;

    ghost deref_gives = { λ c config. config ≡ c };

    fn deref(&self) -> &ZoneConfig {
        self.as_config()
    }
}

impl JobConfig {
    /// The one that is stored.
    pub(crate) fn stored(config: StoredConfig) -> JobConfig
        ensures { result ≡ config }
    {
        JobConfig {
            kept: Kept::Stored(config),
        }
    }

    /// A blank one. It takes no memory.
    pub(crate) fn blank(alloc: Global) -> JobConfig
        ensures { result ≡ blank }
    {
        JobConfig {
            kept: Kept::Blank(blank(alloc)),
        }
    }

    /// The configuration itself.
    pub(crate) fn as_config(&self) -> &ZoneConfig
        ensures { result.now ≡ self.now }
    {
        match &self.kept {
            Kept::Stored(config) => config.as_config(),
            Kept::Blank(config) => config,
        }
    }
}

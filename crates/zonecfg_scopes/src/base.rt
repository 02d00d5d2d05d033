//! What an editor begins with.
ghost use Rattle.std.specs.Prelude.{◌≡◌, IfOk, OnErr, Err};
ghost use Rattle.zonecfg_scopes.specs.declared.fault.EditFault.TheVariants.{Memory};

use crate::EditFault;
use std::alloc::Global;
use zone_config::ZoneConfig;

/// A stored configuration, and its revision.
#[derive(Drop)]
pub struct Base {
    pub config: ZoneConfig,
    pub revision: u32,
}

impl Base {
    /// An equal base.
    pub fn copy(&self, alloc: Global) -> Result<Base, EditFault>
        ensures same { IfOk result (λ base. base ≡ self.now) }
        ensures memory { OnErr result (result ≡ Err Memory) }
    {
        Ok(Base {
            config: self.config.copy(alloc)?,
            revision: self.revision,
        })
    }
}

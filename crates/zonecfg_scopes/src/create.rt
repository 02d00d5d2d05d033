//! New configurations.
ghost use Rattle.std.specs.Prelude.{Ok, codes, false};
ghost use Rattle.zn_base.specs.Answers.{AnswersUnless};
ghost use Rattle.zonecfg_scopes.specs.Scopes.{created};

use crate::EditFault;
use std::alloc::Global;
use zn_base::{Text, Value};
use zone_config::{ZoneConfig, blank};

fn ipkg(alloc: Global) -> Result<Value, EditFault>
    ensures { AnswersUnless EditFault.Memory (Ok (Value.Simple (codes "ipkg"))) result }
{
    Ok(Value::Simple(Text::of(alloc, b"ipkg")?))
}

#[tactic(auto, using(crate::proofs::Branded::branded))]
fn branded(alloc: Global) -> Result<ZoneConfig, EditFault>
    ensures { AnswersUnless EditFault.Memory (Ok (created false)) result }
{
    let mut config = blank(alloc);
    let brand = ipkg(alloc)?;
    match config.set_property(alloc, b"brand", brand) {
        Ok(()) => Ok(config),
        // The brand is allowed, so only memory can run out.
        Err(_) => Err(EditFault::Memory),
    }
}

/// A configuration of which nothing is set, or its brand alone.
pub(crate) fn created(alloc: Global, bare: bool) -> Result<ZoneConfig, EditFault>
    ensures { AnswersUnless EditFault.Memory (Ok (created bare)) result }
{
    if bare {
        Ok(blank(alloc))
    } else {
        branded(alloc)
    }
}

//! The shortest configuration whose text the lines so far begin.
ghost use Rattle.std.specs.Prelude.{◌≡◌, None, Some, option_and_then};
ghost use Rattle.std.specs.Result.{result_ok};
ghost use Rattle.zone_config.specs.Resources.{with_resource};
ghost use Rattle.config_terms.specs.Fields.{kind_of};
ghost use Rattle.export_read.specs.Drafts.{completed, completed_by, named_in, renamed_by};
ghost use Rattle.export_read.specs.Halts.{Puts};

use crate::draft::{Draft, with_own, with_resource};
use crate::halt::Halt;
use crate::names::fresh;
use config_terms::{Field, Resource};
use std::alloc::Global;
use zone_config::{Contents, ZoneConfig};

fn renamed(
    alloc: Global,
    key: Option<Field>,
    contents: &Contents,
    resource: Resource,
) -> Result<Resource, Halt>
    ensures { Puts (renamed_by key contents.now resource) result }
{
    match key {
        None => Err(Halt::Refused),
        Some(key) => {
            let name = fresh(alloc, contents, key)?;
            with_own(alloc, resource, key.name(), name)
        }
    }
}

fn named(alloc: Global, contents: &Contents, resource: Resource) -> Result<Resource, Halt>
    ensures { Puts (named_in contents.now resource) result }
{
    if !contents.has_taken(&resource) {
        return Ok(resource);
    }
    let key = resource.kind().key();
    renamed(alloc, key, contents, resource)
}

/// The shortest configuration whose export text the lines so far begin, if there is one.
#[tactic(auto, unfolding(crate::specs::Drafts::completed))]
pub fn completed(alloc: Global, draft: Draft) -> Result<ZoneConfig, Halt>
    ensures { Puts (completed draft) result }
{
    let Draft { config, resource } = draft;
    match resource {
        None => Ok(config),
        Some(resource) => {
            let resource = named(alloc, config.contents(), resource)?;
            with_resource(config, resource)
        }
    }
}

//! A configuration that is being read, line by line.
ghost use Rattle.std.specs.Prelude.{◌≡◌, None, Some, option_and_then, option_map};
ghost use Rattle.std.specs.Result.{result_ok};
ghost use Rattle.zn_base.specs.declared.values.Value.TheVariants.{Simple};
ghost use Rattle.config_terms.specs.Edits.{with_property as with_own};
ghost use Rattle.zone_config.specs.Edits.{with_property};
ghost use Rattle.zone_config.specs.Resources.{with_resource};
ghost use Rattle.export_read.specs.Drafts.{closed, ended_in, opened, put, set_in, with_limit, with_options};
ghost use Rattle.export_read.specs.Halts.{Puts};

use crate::command::Command;
use crate::halt::Halt;
use config_terms::{Limit, Resource};
use std::alloc::Global;
use zn_base::{Listing, Text, Value};
use zone_config::ZoneConfig;

/// What the lines so far make: a configuration, and the resource that is open.
#[derive(Drop)]
pub struct Draft {
    pub config: ZoneConfig,
    pub resource: Option<Resource>,
}

#[tactic(auto, using(crate::proofs::Refusals::done, crate::proofs::Refusals::refused))]
pub fn with_property(
    alloc: Global,
    mut config: ZoneConfig,
    name: &[u8],
    value: Text,
) -> Result<ZoneConfig, Halt>
    ensures { Puts (result_ok (with_property name.now (Simple value) config)) result }
{
    config.set_property(alloc, name, Value::Simple(value))?;
    Ok(config)
}

#[tactic(auto, using(crate::proofs::Refusals::done, crate::proofs::Refusals::refused))]
pub fn with_own(
    alloc: Global,
    mut resource: Resource,
    name: &[u8],
    value: Text,
) -> Result<Resource, Halt>
    ensures { Puts (result_ok (with_own name.now (Simple value) resource)) result }
{
    resource.set_property(alloc, name, &Value::Simple(value))?;
    Ok(resource)
}

#[tactic(auto, using(crate::proofs::Refusals::done, crate::proofs::Refusals::refused))]
pub fn with_resource(mut config: ZoneConfig, resource: Resource) -> Result<ZoneConfig, Halt>
    ensures { Puts (result_ok (with_resource resource config)) result }
{
    config.add_resource(resource)?;
    Ok(config)
}

fn with_options(resource: Resource, options: Listing<Text>) -> Result<Resource, Halt>
    ensures { Puts (with_options options resource) result }
{
    match resource {
        Resource::Fs(mut fs) => {
            fs.options = options;
            Ok(Resource::Fs(fs))
        }
        _ => Err(Halt::Refused),
    }
}

fn with_limit(resource: Resource, limit: Limit) -> Result<Resource, Halt>
    ensures { Puts (with_limit limit resource) result }
{
    match resource {
        Resource::Rctl(mut rctl) => {
            rctl.values.push(limit)?;
            Ok(Resource::Rctl(rctl))
        }
        _ => Err(Halt::Refused),
    }
}

fn opened(resource: Option<Resource>) -> Result<Resource, Halt>
    ensures { Puts resource result }
{
    match resource {
        Some(resource) => Ok(resource),
        None => Err(Halt::Refused),
    }
}

impl Draft {
    fn with(config: ZoneConfig, resource: Resource) -> Draft
        ensures { result ≡ opened config resource }
    {
        Draft {
            config,
            resource: Some(resource),
        }
    }

    fn closed(config: ZoneConfig) -> Draft
        ensures { result ≡ closed config }
    {
        Draft {
            config,
            resource: None,
        }
    }

    fn set(self, alloc: Global, name: &[u8], value: Text) -> Result<Draft, Halt>
        ensures { Puts (set_in self.resource name.now value self.config) result }
    {
        let Draft { config, resource } = self;
        match resource {
            None => Ok(Draft::closed(with_property(alloc, config, name, value)?)),
            Some(resource) => Ok(Draft::with(config, with_own(alloc, resource, name, value)?)),
        }
    }

    fn set_options(self, options: Listing<Text>) -> Result<Draft, Halt>
        ensures { Puts (option_map (opened self.config) (option_and_then (with_options options) self.resource)) result }
    {
        let Draft { config, resource } = self;
        let resource = with_options(opened(resource)?, options)?;
        Ok(Draft::with(config, resource))
    }

    fn add_limit(self, limit: Limit) -> Result<Draft, Halt>
        ensures { Puts (option_map (opened self.config) (option_and_then (with_limit limit) self.resource)) result }
    {
        let Draft { config, resource } = self;
        let resource = with_limit(opened(resource)?, limit)?;
        Ok(Draft::with(config, resource))
    }

    fn end(self) -> Result<Draft, Halt>
        ensures { Puts (option_and_then (ended_in self.config) self.resource) result }
    {
        let Draft { config, resource } = self;
        let config = with_resource(config, opened(resource)?)?;
        Ok(Draft::closed(config))
    }

    /// The draft after a command.
    pub fn put(self, alloc: Global, command: Command) -> Result<Draft, Halt>
        ensures { Puts (put command self) result }
    {
        match command {
            Command::Create => Ok(self),
            Command::Set(name, value) => self.set(alloc, name.bytes(), value),
            Command::Open(kind) => Ok(Draft::with(self.config, Resource::empty(alloc, kind))),
            Command::Options(options) => self.set_options(options),
            Command::Value(limit) => self.add_limit(limit),
            Command::End => self.end(),
        }
    }
}

//! What is open, and what subcommands make of it.
ghost use Rattle.std.specs.Prelude.{◌≡◌, IfOk, IsTrue, OnErr, OnOk, Err, Ok, option_copied};
ghost use Rattle.config_terms.specs.Edits.{Changes};
ghost use Rattle.zonecfg_scopes.specs.declared.command.Command.{Command};
ghost use Rattle.zonecfg_scopes.specs.Denotes.{Follows};
ghost use Rattle.zonecfg_scopes.specs.Info.{export_lines, info_lines};
ghost use Rattle.zonecfg_scopes.specs.Open.{Nothing, Whole};
ghost use Rattle.zonecfg_scopes.specs.OpenOf.{config_of};
ghost use Rattle.zonecfg_scopes.specs.Scopes.{ended_length, is_in_place, made, without_matching};

use crate::command::{ListProperty, Matching, Topic};
use crate::create::created;
use crate::info::{resource_lines, topic_lines};
use crate::line::export_lines;
use crate::resource_scope::{ResourceScope, selection, wrong_scope};
use crate::{EditFault, Scope};
use config_terms::{ConfigFault, Kind, Resource};
use std::alloc::{AllocError, Global};
use std::marker::Model;
use zn_base::{Bytes, Listing, Text, TryClone, Value};
use zone_config::ZoneConfig;

/// What is open: nothing, a configuration in the global scope, or a resource of one, which is as before
/// the scope. Contracts see these three.
pub struct Opened {
    config: Option<ZoneConfig>,
    scope: Option<ResourceScope>,
}

impl Drop for Opened {
    fn drop(self) {
        let Opened {
            config: _,
            scope: _,
        } = self;
    }
}

impl Model for Opened {
    ghost use Rattle.zonecfg_scopes.specs.Open.{Open};
    ghost use Rattle.zonecfg_scopes.specs.OpenOf.{open_of};

    ghost Value = { Open };

    ghost view = { λ o. open_of o.config o.scope };
}

// Removes the one resource that matches, or with `force` all that match.
#[tactic(auto, unfolding(crate::specs::Scopes::without_matching))]
fn remove_matching(
    config: &mut ZoneConfig,
    force: bool,
    matching: &Matching,
) -> Result<(), ConfigFault>
    ensures { Changes config.old config.new result (without_matching force matching.now config.old) }
{
    let wanted = matching.pairs.as_slice();
    if force {
        config.remove_matches(matching.kind, wanted)
    } else {
        config.remove_found(matching.kind, wanted)
    }
}

impl Opened {
    /// Nothing is open.
    pub(crate) fn nothing() -> Opened
        ensures { result ≡ Nothing }
    {
        Opened {
            config: None,
            scope: None,
        }
    }

    /// A configuration is open, in the global scope.
    pub(crate) fn whole(config: ZoneConfig) -> Opened
        ensures { result ≡ Whole config }
    {
        Opened {
            config: Some(config),
            scope: None,
        }
    }

    /// The configuration that is open.
    pub(crate) fn config(&self) -> Option<&ZoneConfig>
        ensures { option_copied result ≡ config_of self.now }
    {
        self.config.as_ref()
    }

    /// The same, out of what is open.
    pub(crate) fn into_config(self) -> Option<ZoneConfig>
        ensures { result ≡ config_of self }
    {
        let Opened { config, scope: _ } = self;
        config
    }

    /// The lines of what `info` shows, by the zone's name.
    #[tactic(auto, unfolding(crate::specs::Info::info_lines))]
    pub(crate) fn info(
        &self,
        alloc: Global,
        name: &[u8],
        topic: Topic,
    ) -> Result<Listing<Bytes>, AllocError>
        ensures { IfOk result (λ lines. lines ≡ info_lines topic name.now self.now) }
    {
        match (&self.config, &self.scope) {
            (None, _) => Ok(Listing::new(alloc)),
            (Some(config), None) => topic_lines(alloc, topic, name, config.contents()),
            (Some(_), Some(scope)) => resource_lines(alloc, &scope.resource),
        }
    }

    /// The lines of `export`.
    #[tactic(auto, unfolding(crate::specs::Info::export_lines))]
    pub(crate) fn export(&self, alloc: Global) -> Result<Listing<Bytes>, AllocError>
        ensures { IfOk result (λ lines. lines ≡ export_lines self.now) }
    {
        match (&self.config, &self.scope) {
            (Some(config), None) => export_lines(alloc, config),
            _ => Ok(Listing::new(alloc)),
        }
    }

    /// The same is open in the copy.
    pub(crate) fn copy(&self, alloc: Global) -> Result<Opened, EditFault>
        ensures same { IfOk result (λ o. o ≡ self.now) }
        ensures memory { OnErr result (result ≡ Err EditFault.Memory) }
    {
        let config = match &self.config {
            None => None,
            Some(config) => Some(config.copy(alloc)?),
        };
        let scope = match &self.scope {
            None => None,
            Some(scope) => Some(ResourceScope {
                resource: scope.resource.try_clone(alloc)?,
                place: scope.place,
            }),
        };
        Ok(Opened { config, scope })
    }
}

#[tactic(auto, unfolding(crate::specs::Scopes::made))]
impl Opened {
    pub(crate) fn create(&mut self, alloc: Global, force: bool, bare: bool) -> Result<(), EditFault>
        ensures { Follows (Command.Create force bare) self.old self.new result }
    {
        match (&self.config, &self.scope) {
            (Some(_), Some(scope)) => return Err(wrong_scope(scope)),
            (Some(_), None) if !force => return Err(EditFault::NeedForce),
            _ => {}
        }
        self.config = Some(created(alloc, bare)?);
        self.scope = None;
        Ok(())
    }

    pub(crate) fn set(&mut self, alloc: Global, name: &Text, value: Value) -> Result<(), EditFault>
        ensures { Follows (Command.Set name.now value) self.old self.new result }
    {
        match (&mut self.config, &mut self.scope) {
            (None, _) => return Err(EditFault::NothingOpen),
            (Some(config), None) => config.set_property(alloc, name.bytes(), value)?,
            (Some(_), Some(scope)) => scope.resource.set_property(alloc, name.bytes(), &value)?,
        }
        Ok(())
    }

    pub(crate) fn clear(&mut self, alloc: Global, name: &Text) -> Result<(), EditFault>
        ensures { Follows (Command.Clear name.now) self.old self.new result }
    {
        match (&mut self.config, &mut self.scope) {
            (None, _) => return Err(EditFault::NothingOpen),
            (Some(config), None) => config.clear_property(alloc, name.bytes())?,
            (Some(_), Some(scope)) => scope.resource.clear_property(alloc, name.bytes())?,
        }
        Ok(())
    }

    pub(crate) fn append(
        &mut self,
        alloc: Global,
        list: ListProperty,
        value: &Value,
    ) -> Result<(), EditFault>
        ensures { Follows (Command.Append list value.now) self.old self.new result }
    {
        match (&self.config, &mut self.scope) {
            (None, _) => return Err(EditFault::NothingOpen),
            (Some(_), None) => return Err(EditFault::WrongScope(Scope::Global)),
            (Some(_), Some(scope)) => scope.resource.add_value(alloc, list.name(), value)?,
        }
        Ok(())
    }

    pub(crate) fn remove_item(
        &mut self,
        alloc: Global,
        list: ListProperty,
        value: &Value,
    ) -> Result<(), EditFault>
        ensures { Follows (Command.RemoveItem list value.now) self.old self.new result }
    {
        match (&self.config, &mut self.scope) {
            (None, _) => return Err(EditFault::NothingOpen),
            (Some(_), None) => return Err(EditFault::WrongScope(Scope::Global)),
            (Some(_), Some(scope)) => scope.resource.remove_value(alloc, list.name(), value)?,
        }
        Ok(())
    }

    pub(crate) fn add(&mut self, alloc: Global, kind: Kind) -> Result<(), EditFault>
        ensures { Follows (Command.Add kind) self.old self.new result }
    {
        match (&self.config, &self.scope) {
            (None, _) => return Err(EditFault::NothingOpen),
            (Some(_), Some(scope)) => return Err(wrong_scope(scope)),
            (Some(_), None) => {}
        }
        let resource = Resource::empty(alloc, kind);
        self.scope = Some(ResourceScope {
            resource,
            place: None,
        });
        Ok(())
    }

    pub(crate) fn select(&mut self, alloc: Global, matching: &Matching) -> Result<(), EditFault>
        ensures { Follows (Command.Select matching.now) self.old self.new result }
    {
        let scope = match (&self.config, &self.scope) {
            (None, _) => return Err(EditFault::NothingOpen),
            (Some(_), Some(scope)) => return Err(wrong_scope(scope)),
            (Some(config), None) => selection(alloc, config, matching)?,
        };
        self.scope = Some(scope);
        Ok(())
    }

    pub(crate) fn remove(&mut self, force: bool, matching: &Matching) -> Result<(), EditFault>
        ensures { Follows (Command.Remove force matching.now) self.old self.new result }
    {
        match (&mut self.config, &self.scope) {
            (None, _) => return Err(EditFault::NothingOpen),
            (Some(_), Some(scope)) => return Err(wrong_scope(scope)),
            (Some(config), None) => remove_matching(config, force, matching)?,
        }
        Ok(())
    }

    // How long the export text is once the scope has ended, or why it may not end.
    fn check_end(&self) -> Result<usize, EditFault>
        requires { IsTrue (is_in_place self.now) }
        ensures { result ≡ ended_length self.now }
    {
        match (&self.config, &self.scope) {
            (None, _) => Err(EditFault::NothingOpen),
            (Some(_), None) => Err(EditFault::WrongScope(Scope::Global)),
            (Some(config), Some(scope)) => Ok(scope.check_back(config)?),
        }
    }

    // Ends the scope, which `check_end` answers the length for. Where memory runs out, all is as before.
    #[tactic(auto, unfolding(crate::specs::Scopes::made), using(crate::proofs::Ending::lifted_ok))]
    fn close(&mut self, size: usize) -> Result<(), AllocError>
        requires inside { IsTrue (is_in_place self.old) }
        requires checked { ended_length self.old ≡ Ok size }
        ensures ok { OnOk result (made Command.End self.old ≡ Ok self.new) }
        ensures err { OnErr result (self.new ≡ self.old) }
    {
        if let Some(config) = &mut self.config {
            if let Some(scope) = self.scope.take() {
                if let Err(failed) = scope.put_back(config, size) {
                    self.scope = Some(failed.value);
                    return Err(AllocError);
                }
            }
        }
        Ok(())
    }

    pub(crate) fn end(&mut self) -> Result<(), EditFault>
        requires { IsTrue (is_in_place self.old) }
        ensures { Follows Command.End self.old self.new result }
    {
        let size = self.check_end()?;
        self.close(size)?;
        Ok(())
    }

    pub(crate) fn cancel(&mut self) -> Result<(), EditFault>
        ensures { Follows Command.Cancel self.old self.new result }
    {
        match (&self.config, &self.scope) {
            (None, _) => return Err(EditFault::NothingOpen),
            (Some(_), None) => return Err(EditFault::WrongScope(Scope::Global)),
            (Some(_), Some(_)) => {}
        }
        self.scope = None;
        Ok(())
    }

    // `delete` and `revert` ask for `-F`, and leave all else to the caller.
    pub(crate) fn look_forced(&self, force: bool) -> Result<(), EditFault>
        ensures delete { Follows (Command.Delete force) self.now self.now result }
        ensures revert { Follows (Command.Revert force) self.now self.now result }
    {
        match (&self.config, &self.scope) {
            (None, _) => Err(EditFault::NothingOpen),
            (Some(_), None) if force => Ok(()),
            (Some(_), None) => Err(EditFault::NeedForce),
            (Some(_), Some(scope)) => Err(wrong_scope(scope)),
        }
    }

    // What stands in the global scope and leaves all to the caller.
    pub(crate) fn look(&self) -> Result<(), EditFault>
        ensures commit { Follows Command.Commit self.now self.now result }
        ensures export { Follows Command.Export self.now self.now result }
        ensures verify { Follows Command.Verify self.now self.now result }
    {
        match (&self.config, &self.scope) {
            (None, _) => Err(EditFault::NothingOpen),
            (Some(_), None) => Ok(()),
            (Some(_), Some(scope)) => Err(wrong_scope(scope)),
        }
    }

    pub(crate) fn exit(&self, force: bool) -> Result<(), EditFault>
        ensures { Follows (Command.Exit force) self.now self.now result }
    {
        match (&self.config, &self.scope) {
            (Some(_), Some(scope)) if !force => Err(wrong_scope(scope)),
            _ => Ok(()),
        }
    }

    pub(crate) fn inform(&self, topic: Topic) -> Result<(), EditFault>
        ensures { Follows (Command.Info topic) self.now self.now result }
    {
        match (&self.config, &self.scope) {
            (None, _) => Err(EditFault::NothingOpen),
            (Some(_), None) => Ok(()),
            (Some(_), Some(scope)) => match topic {
                Topic::Everything => Ok(()),
                Topic::Setting(_) | Topic::Resources(_) => Err(wrong_scope(scope)),
            },
        }
    }
}

//! The scope of a resource.
ghost use Rattle.std.specs.Prelude.{◌≡◌, IfErr, IsTrue, Ok, OnErr, OnOk};
ghost use Rattle.zn_base.specs.Answers.{AnswersUnless};
ghost use Rattle.config_terms.specs.Fields.{kind_of};
ghost use Rattle.zone_config.specs.Resources.{length_of};
ghost use Rattle.zonecfg_scopes.specs.Scopes.{is_placed, put_back, selection};

use crate::command::Matching;
use crate::{EditFault, Scope};
use config_terms::{ConfigFault, Resource};
use std::alloc::{AllocFailed, Global};
use zone_config::ZoneConfig;

/// The resource of an open scope. It is new, or was selected at its place among those of its kind.
pub struct ResourceScope {
    pub resource: Resource,
    pub place: Option<u32>,
}

/// The fault of a subcommand that the scope does not have.
pub(crate) fn wrong_scope(scope: &ResourceScope) -> EditFault
    ensures { result ≡ EditFault.WrongScope (Scope.Resource (kind_of scope.now.resource)) }
{
    EditFault::WrongScope(Scope::Resource(scope.resource.kind()))
}

/// The place and a copy of the resource that a matching selects.
pub(crate) fn selection(
    alloc: Global,
    config: &ZoneConfig,
    matching: &Matching,
) -> Result<ResourceScope, ConfigFault>
    ensures { AnswersUnless ConfigFault.Memory (selection matching.now config.now) result }
{
    let place = config.find_resource(matching.kind, matching.pairs.as_slice())?;
    let resource = config.copy_at(alloc, matching.kind, place as usize)?;
    Ok(ResourceScope {
        resource,
        place: Some(place),
    })
}

impl ResourceScope {
    /// How long the export text is once the resource is put back, or why it may not be.
    pub(crate) fn check_back(&self, config: &ZoneConfig) -> Result<usize, ConfigFault>
        requires { IsTrue (is_placed self.now.place self.now.resource config.now) }
        ensures { result ≡ length_of (put_back self.now.place self.now.resource config.now) }
    {
        match self.place {
            None => config.check_added(&self.resource),
            Some(place) => config.check_replaced(place, &self.resource),
        }
    }

    /// Puts the resource back, which `check_back` answers the length for. Where memory runs out all is as
    /// before, and the scope comes back.
    pub(crate) fn put_back(
        self,
        config: &mut ZoneConfig,
        size: usize,
    ) -> Result<(), AllocFailed<ResourceScope>>
        requires placed { IsTrue (is_placed self.place self.resource config.old) }
        requires checked { length_of (put_back self.place self.resource config.old) ≡ Ok size }
        ensures ok { OnOk result (put_back self.place self.resource config.old ≡ Ok config.new) }
        ensures err { OnErr result (config.new ≡ config.old) }
        ensures back { IfErr result (λ failed. failed.value ≡ self) }
    {
        let ResourceScope { resource, place } = self;
        match place {
            None => match config.put_added(resource, size) {
                Ok(()) => Ok(()),
                Err(failed) => Err(AllocFailed {
                    value: ResourceScope {
                        resource: failed.value,
                        place,
                    },
                }),
            },
            Some(place) => {
                config.put_replaced(place, resource, size);
                Ok(())
            }
        }
    }
}

// In one step, and so is all that is open: each is let go where something else takes its place.
impl Drop for ResourceScope {
    fn drop(self) {
        let ResourceScope {
            resource: _,
            place: _,
        } = self;
    }
}

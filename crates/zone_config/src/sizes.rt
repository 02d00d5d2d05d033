//! How long the export text will be, without a look at the rest of it.
ghost use Rattle.std.specs.Prelude.{◌≡◌, ◌<◌, ◌≤◌, length};
ghost use Rattle.config_terms.specs.Fields.{kind_of};
ghost use Rattle.zone_config.specs.Export.{export_text};
ghost use Rattle.zone_config.specs.Property.{shown, with_value};
ghost use Rattle.zone_config.specs.Resources.{added, count_of, replaced};
ghost use Rattle.zone_config.specs.Sound.{IsKept};

use crate::{Contents, Property};
use config_terms::{Resource, entry_length, setting_length};

/// The length once a property shows a value.
#[tactic(auto, using(crate::proofs::PropertyEdits::size_with))]
pub(crate) fn size_with(contents: &Contents, size: usize, property: Property, value: &[u8]) -> usize
    requires kept { IsKept contents.now size }
    requires shows { shown property (with_value property value.now contents.now) ≡ value.now }
    requires short { length value.now ≤ 4200 }
    ensures { result ≡ length (export_text (with_value property value.now contents.now)) }
{
    let line = setting_length(property.name(), contents.shown(property));
    size - line + setting_length(property.name(), value)
}

/// The length once there is one more resource.
#[tactic(auto, using(crate::proofs::ResourceEdits::size_added))]
pub(crate) fn size_added(contents: &Contents, size: usize, resource: &Resource) -> usize
    requires { IsKept contents.now size }
    ensures { result ≡ length (export_text (added resource.now contents.now)) }
{
    size + entry_length(resource.kind(), resource)
}

/// The length once a resource has the place of another of its kind.
#[tactic(auto, using(crate::proofs::ResourceEdits::size_replaced))]
pub(crate) fn size_replaced(
    contents: &Contents,
    size: usize,
    place: usize,
    resource: &Resource,
) -> usize
    requires kept { IsKept contents.now size }
    requires place { place < count_of (kind_of resource.now) contents.now }
    ensures { result ≡ length (export_text (replaced place resource.now contents.now)) }
{
    let kind = resource.kind();
    size - contents.length_at(kind, place) + entry_length(kind, resource)
}

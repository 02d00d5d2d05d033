//! The verification of a configuration.
ghost use Rattle.std.specs.Prelude.{◌≡◌, [], bytes_eq, is_some};
ghost use Rattle.std.specs.List.{list_any};
ghost use Rattle.zn_base.specs.Glob.{glob};
ghost use Rattle.config_verify.specs.declared.flaw.Flaw.TheVariants.{NoZonepath, UnknownBrand};
ghost use Rattle.config_verify.specs.Flaws.{flaws, other_flaws, resource_flaws, unless, Finds};

use crate::Flaw;
use crate::resources::{
    flaw_of_attrs, flaw_of_datasets, flaw_of_devices, flaw_of_mounts, flaw_of_nets, flaw_of_rctls,
};
use std::alloc::Global;
use zn_base::{Text, glob};
use zone_config::{Contents, ZoneConfig};

fn zonepath_flaw(contents: &Contents) -> Result<(), Flaw>
    ensures { Finds (unless (is_some contents.now.zonepath) NoZonepath) result }
{
    if contents.zonepath.is_some() {
        Ok(())
    } else {
        Err(Flaw::NoZonepath)
    }
}

fn is_known(brands: &[Text], brand: &[u8]) -> bool
    ensures { result ≡ list_any (bytes_eq brand.now) brands.now }
{
    brands.iter().any(|known| brand == known.bytes())
}

fn brand_flaw(alloc: Global, brand: &Text, brands: &[Text]) -> Result<(), Flaw>
    ensures { Finds (unless (list_any (bytes_eq brand.now) brands.now) (UnknownBrand brand.now)) result }
{
    if is_known(brands, brand.bytes()) {
        Ok(())
    } else {
        Err(Flaw::UnknownBrand(brand.copy(alloc)?))
    }
}

fn flaw_of_resources(alloc: Global, contents: &Contents) -> Result<(), Flaw>
    ensures { Finds (resource_flaws contents.now) result }
{
    flaw_of_mounts(alloc, contents.fs.as_slice())?;
    flaw_of_nets(alloc, contents.ip, contents.net.as_slice())?;
    flaw_of_devices(contents.device.as_slice())?;
    flaw_of_rctls(contents.rctl.as_slice())?;
    flaw_of_attrs(alloc, contents.attr.as_slice())?;
    flaw_of_datasets(contents.dataset.as_slice())
}

fn first_flaw(alloc: Global, contents: &Contents, brands: &[Text]) -> Result<(), Flaw>
    ensures { Finds (flaws brands.now contents.now) result }
{
    zonepath_flaw(contents)?;
    brand_flaw(alloc, &contents.brand, brands)?;
    flaw_of_resources(alloc, contents)
}

fn first_other_flaw(alloc: Global, contents: &Contents) -> Result<(), Flaw>
    ensures { Finds (other_flaws contents.now) result }
{
    zonepath_flaw(contents)?;
    flaw_of_resources(alloc, contents)
}

/// The first flaw of a configuration, where it has one: of its zonepath, of its brand, which has to be one of
/// those given, and then of its file systems, nets, devices, resource controls, attributes and datasets.
pub fn verify(alloc: Global, config: &ZoneConfig, brands: &[Text]) -> Result<(), Flaw>
    ensures { Finds (flaws brands.now config.now) result }
{
    first_flaw(alloc, config.contents(), brands)
}

/// The first flaw of a configuration but for that of its brand, where it has one: what `verify` finds whatever brands there are.
pub fn verify_but_brand(alloc: Global, config: &ZoneConfig) -> Result<(), Flaw>
    ensures { Finds (other_flaws config.now) result }
{
    first_other_flaw(alloc, config.contents())
}

/// What `verify` finds in a configuration that has no flaw but perhaps that of its brand.
pub fn verify_brand(alloc: Global, config: &ZoneConfig, brands: &[Text]) -> Result<(), Flaw>
    requires { other_flaws config.now ≡ [] }
    ensures { Finds (flaws brands.now config.now) result }
{
    brand_flaw(alloc, &config.contents().brand, brands)
}

/// Whether a device's match fits the path of a device, as `glob` says. It takes no memory.
pub fn matches(pattern: &[u8], path: &[u8]) -> bool
    ensures { result ≡ glob pattern.now path.now }
{
    glob(pattern, path)
}

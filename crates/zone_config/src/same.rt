//! Whether two configurations are one.
ghost use Rattle.std.specs.Prelude.{◌≡◌};
ghost use Rattle.zone_config.specs.Same.{same_contents, same_resources, same_settings};

use crate::Contents;

fn same_settings(contents: &Contents, other: &Contents) -> bool
    ensures { result ≡ same_settings contents.now other.now }
{
    contents.zonepath == other.zonepath
        && contents.brand == other.brand
        && contents.autoboot == other.autoboot
        && contents.bootargs == other.bootargs
        && contents.pool == other.pool
        && contents.limitpriv == other.limitpriv
        && contents.class == other.class
        && contents.ip == other.ip
        && contents.hostid == other.hostid
        && contents.fs_allowed == other.fs_allowed
}

fn same_resources(contents: &Contents, other: &Contents) -> bool
    ensures { result ≡ same_resources contents.now other.now }
{
    contents.fs == other.fs
        && contents.net == other.net
        && contents.device == other.device
        && contents.rctl == other.rctl
        && contents.attr == other.attr
        && contents.dataset == other.dataset
}

/// Whether two configurations are one. It takes no memory.
#[tactic(auto, unfolding(crate::specs::Same::same_contents))]
pub fn same_contents(contents: &Contents, other: &Contents) -> bool
    ensures { result ≡ same_contents contents.now other.now }
{
    same_settings(contents, other) && same_resources(contents, other)
}

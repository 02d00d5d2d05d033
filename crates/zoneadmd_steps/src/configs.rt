//! What a daemon takes from a zone's configuration.
ghost use Rattle.std.specs.Prelude.{◌≡◌, ◌++◌, IfOk, None, Some, bytes_eq, codes, find};
ghost use Rattle.std.specs.List.{list_any};
ghost use Rattle.std.specs.Option.{option_map};
ghost use Rattle.config_terms.specs.Fields.{path_text};
ghost use Rattle.config_verify.specs.Flaws.{has_dir};
ghost use Rattle.priv_sets.specs.Limit as limit_sets;
ghost use Rattle.zoneadmd_steps.specs.Configs.{bound_of, bounds_processes, denied_at, fs_mount, least_denied, lesser, mount_by, most_processes, root_dir, root_mount, set_or_none};

use crate::objects::changes::Limits;
use config_terms::{Fs, Limit, Rctl};
use loopback_mounts::Mount;
use priv_sets::{PrivSet, limit_of};
use std::alloc::{AllocError, Global};
use zn_base::{AbsPath, Text};
use zone_config::ZoneConfig;

/// The root directory.
pub(crate) fn root_dir(alloc: Global) -> Result<AbsPath, AllocError>
    ensures { IfOk result (λ path. path ≡ root_dir) }
{
    AbsPath::of(alloc, b"/")
}

#[tactic(auto, using(zn_base::proofs::Path_texts::path_with_root))]
fn below(alloc: Global, path: &AbsPath) -> Result<Text, AllocError>
    ensures { IfOk result (λ text. text ≡ path.now ++ codes "/root") }
{
    let mut bytes = Vec::from_slice(alloc, path.bytes())?;
    bytes.extend_from_slice(b"/root")?;
    Text::of(alloc, &bytes)
}

// Where the zone's root is.
fn root_special(alloc: Global, config: &ZoneConfig) -> Result<Text, AllocError>
    ensures { IfOk result (λ text. text ≡ path_text config.now.zonepath ++ codes "/root") }
{
    match &config.zonepath {
        Some(path) => below(alloc, path),
        None => Text::of(alloc, b"/root"),
    }
}

/// The zone's root, from below its zonepath.
pub(crate) fn root_mount(alloc: Global, config: &ZoneConfig) -> Result<Mount, AllocError>
    ensures { IfOk result (λ mount. mount ≡ root_mount config.now) }
{
    Ok(Mount {
        dir: root_dir(alloc)?,
        fstype: Text::of(alloc, b"root")?,
        special: root_special(alloc, config)?,
        read_only: false,
        by_process: false,
    })
}

fn has_dir(fs: &Fs, dir: &AbsPath) -> bool
    ensures { result ≡ has_dir dir.now fs.now }
{
    match &fs.dir {
        Some(path) => path == dir,
        None => false,
    }
}

fn is_read_only(options: &[Text]) -> bool
    ensures { result ≡ list_any (λ option. bytes_eq (codes "ro") option) options.now }
{
    options
        .iter()
        .any(|option| option.bytes() == b"ro".as_slice())
}

// A directory at which the configuration has no file system.
fn bare_mount(alloc: Global, dir: &AbsPath) -> Result<Mount, AllocError>
    ensures { IfOk result (λ mount. mount ≡ mount_by dir.now None) }
{
    Ok(Mount {
        dir: dir.copy(alloc)?,
        fstype: Text::empty(alloc),
        special: Text::empty(alloc),
        read_only: false,
        by_process: false,
    })
}

fn mount_of(alloc: Global, dir: &AbsPath, fs: &Fs) -> Result<Mount, AllocError>
    ensures { IfOk result (λ mount. mount ≡ mount_by dir.now (Some fs.now)) }
{
    Ok(Mount {
        dir: dir.copy(alloc)?,
        fstype: fs.fstype.copy(alloc)?,
        special: fs.special.copy(alloc)?,
        read_only: is_read_only(fs.options.as_slice()),
        by_process: false,
    })
}

fn find_fs<'c>(list: &'c [Fs], dir: &AbsPath) -> Option<&'c Fs>
    ensures { option_map (λ f. f.now) result ≡ find (has_dir dir.now) list.now }
{
    list.iter().find(|fs| has_dir(fs, dir))
}

/// The file system at a directory.
pub(crate) fn fs_mount(
    alloc: Global,
    config: &ZoneConfig,
    dir: &AbsPath,
) -> Result<Mount, AllocError>
    ensures { IfOk result (λ mount. mount ≡ fs_mount config.now dir.now) }
{
    match find_fs(config.fs.as_slice(), dir) {
        Some(fs) => mount_of(alloc, dir, fs),
        None => bare_mount(alloc, dir),
    }
}

fn lesser(one: Option<u64>, other: Option<u64>) -> Option<u64>
    ensures { result ≡ lesser one other }
{
    match (one, other) {
        (None, _) => other,
        (Some(_), None) => one,
        (Some(m), Some(n)) => Some(m.min(n)),
    }
}

fn denied_at(value: Limit) -> Option<u64>
    ensures { result ≡ denied_at value }
{
    if value.deny { Some(value.limit) } else { None }
}

fn least_denied(values: &[Limit]) -> Option<u64>
    ensures { result ≡ least_denied values.now }
{
    match values {
        [] => None,
        [first, rest @ ..] => lesser(denied_at(*first), least_denied(rest)),
    }
}

fn bounds_processes(rctl: &Rctl) -> bool
    ensures { result ≡ bounds_processes rctl.now }
{
    let name = rctl.name.bytes();
    name == b"zone.max-processes".as_slice() || name == b"zone.max-lwps".as_slice()
}

fn bound_of(rctl: &Rctl) -> Option<u64>
    ensures { result ≡ bound_of rctl.now }
{
    if bounds_processes(rctl) {
        least_denied(rctl.values.as_slice())
    } else {
        None
    }
}

fn most_processes(rctls: &[Rctl]) -> Option<u64>
    ensures { result ≡ most_processes rctls.now }
{
    match rctls {
        [] => None,
        [first, rest @ ..] => lesser(bound_of(first), most_processes(rest)),
    }
}

/// The limits that a zone's id gets.
pub(crate) fn limits_by(alloc: Global, config: &ZoneConfig) -> Result<Limits, AllocError>
    ensures { IfOk result (λ l. l ≡ record { set = set_or_none (limit_sets.limit_of config.now.limitpriv); most = most_processes config.now.rctl; fs_allowed = config.now.fs_allowed }) }
{
    let set = match limit_of(config.limitpriv.bytes()) {
        Ok(set) => set,
        Err(_) => PrivSet::none(),
    };
    Ok(Limits {
        set,
        most: most_processes(config.rctl.as_slice()),
        fs_allowed: config.fs_allowed.copy(alloc)?,
    })
}

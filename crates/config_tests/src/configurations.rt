//! Properties, aliases and resources of configurations, by tables.
use crate::values::{list, pairs, simple};
use config_terms::{ConfigFault, Kind, Limit, Rctl, Resource};
use std::alloc::Global;
use std::test::Fail;
use zn_base::{Listing, Pair, Text, Value};
use zone_config::{ZoneConfig, blank, export};

// What is done to configurations goes through helpers without contracts, so that no test's proof follows
// what a configuration holds.
fn set(
    alloc: Global,
    config: &mut ZoneConfig,
    name: &[u8],
    text: &[u8],
) -> Result<(), ConfigFault> {
    config.set_property(alloc, name, simple(alloc, text)?)
}

// What a configuration prints, in the length that is reported.
fn shows(alloc: Global, config: &ZoneConfig, wanted: &[u8]) -> Result<bool, ConfigFault> {
    let text = export(alloc, config)?;
    Ok(text.as_slice() == wanted && config.text_length() == wanted.len())
}

fn copy_shows(alloc: Global, config: &ZoneConfig, wanted: &[u8]) -> Result<bool, ConfigFault> {
    let copy = config.copy(alloc)?;
    shows(alloc, &copy, wanted)
}

const WEB: &[u8] = b"create -b
set zonepath=/zones/web
set brand=ipkg
set autoboot=false
set ip-type=shared
";

fn is_web(alloc: Global, config: &mut ZoneConfig) -> Result<bool, ConfigFault> {
    set(alloc, config, b"zonepath", b"/zones/web")?;
    set(alloc, config, b"brand", b"ipkg")?;
    Ok(config.brand.bytes() == b"ipkg".as_slice() && copy_shows(alloc, config, WEB)?)
}

#[test]
fn web_has_87_bytes(rt: HostRuntime) -> Result<(), Fail> {
    let mut config = blank(rt.alloc());
    assert!(rt; WEB.len() == 87 && is_web(rt.alloc(), &mut config)?);
    Ok(())
}

const NONE: &[u8] = b"create -b\nset autoboot=false\nset ip-type=shared\n";

// Each property with a value that it takes, one that it refuses, and whether an empty one unsets it.
const PROPERTIES: &[(&[u8], &[u8], &[u8], bool)] = &[
    (b"zonepath", b"/z", b"/", false),
    (
        b"brand",
        b"a.b_c-1",
        b"123456789012345678901234567890123",
        true,
    ),
    (b"autoboot", b"true", b"yes", false),
    (b"bootargs", b"-m verbose", b"-m \"x\"", true),
    (b"pool", b"p1", b"a b", true),
    (b"limitpriv", b"default,!proc_fork", b"\"", true),
    (b"scheduling-class", b"FSS", b"F/S", true),
    (b"ip-type", b"exclusive", b"both", false),
    (b"hostid", b"80f0c086", b"ffffffff", true),
    (b"fs-allowed", b"ufs,pcfs", b"\"ufs", true),
    (
        b"cpu-shares",
        b"18446744073709551615",
        b"18446744073709551616",
        false,
    ),
    (b"max-lwps", b"1", b"0", false),
    (b"max-processes", b"300", b"03", false),
];

const ALL: &[u8] = b"create -b
set zonepath=/z
set brand=a.b_c-1
set autoboot=true
set bootargs=\"-m verbose\"
set pool=p1
set limitpriv=default,!proc_fork
set scheduling-class=FSS
set ip-type=exclusive
set hostid=80f0c086
set fs-allowed=ufs,pcfs
add rctl
set name=zone.cpu-shares
add value (priv=privileged,limit=18446744073709551615,action=none)
end
add rctl
set name=zone.max-lwps
add value (priv=privileged,limit=1,action=deny)
end
add rctl
set name=zone.max-processes
add value (priv=privileged,limit=300,action=deny)
end
";

// Whether an empty value unsets a property of a copy. Otherwise it is refused.
fn may_be_empty(alloc: Global, config: &ZoneConfig, name: &[u8]) -> Result<bool, ConfigFault> {
    let mut copy = config.copy(alloc)?;
    Ok(set(alloc, &mut copy, name, b"").is_ok())
}

fn takes_all(alloc: Global, config: &mut ZoneConfig) -> Result<bool, ConfigFault> {
    let mut told = true;
    for (name, good, bad, may_be) in PROPERTIES {
        set(alloc, config, name, good)?;
        told = told && set(alloc, config, name, bad) == Err(ConfigFault::BadValue);
        told = told && may_be_empty(alloc, config, name)? == *may_be;
    }
    Ok(told)
}

fn clear_all(alloc: Global, config: &mut ZoneConfig) -> Result<(), ConfigFault> {
    for (name, _, _, _) in PROPERTIES {
        config.clear_property(alloc, name)?;
    }
    Ok(())
}

fn fills_and_empties(alloc: Global, config: &mut ZoneConfig) -> Result<bool, ConfigFault> {
    let taken = takes_all(alloc, config)?;
    let full = shows(alloc, config, ALL)?;
    clear_all(alloc, config)?;
    Ok(taken && full && shows(alloc, config, NONE)?)
}

#[test]
fn each_property_takes_its_values(rt: HostRuntime) -> Result<(), Fail> {
    let mut config = blank(rt.alloc());
    assert!(rt; fills_and_empties(rt.alloc(), &mut config)?);
    Ok(())
}

fn rctl(alloc: Global, limit: u64, deny: bool) -> Result<Resource, ConfigFault> {
    let mut values = Listing::new(alloc);
    values.push(Limit { limit, deny })?;
    let name = Text::of(alloc, b"zone.cpu-shares")?;
    Ok(Resource::Rctl(Rctl { name, values }))
}

fn no_list_is_set(alloc: Global, config: &mut ZoneConfig) -> Result<bool, ConfigFault> {
    let unknown = config.set_property(alloc, b"dir", list(alloc, &[])?);
    let bad = config.set_property(alloc, b"pool", list(alloc, &[])?);
    Ok(unknown == Err(ConfigFault::UnknownProperty) && bad == Err(ConfigFault::BadValue))
}

#[test]
fn an_unknown_property_is_told_first(rt: HostRuntime) -> Result<(), Fail> {
    let mut config = blank(rt.alloc());
    assert!(rt; no_list_is_set(rt.alloc(), &mut config)?);
    Ok(())
}

fn alias_is_held(alloc: Global, config: &mut ZoneConfig) -> Result<bool, ConfigFault> {
    config.add_resource(rctl(alloc, 20, true)?)?;
    Ok(
        set(alloc, config, b"cpu-shares", b"10") == Err(ConfigFault::AliasHeld)
            && config.clear_property(alloc, b"cpu-shares") == Err(ConfigFault::AliasHeld),
    )
}

fn name_is_taken(alloc: Global, config: &mut ZoneConfig) -> Result<bool, ConfigFault> {
    let taken = config.add_resource(rctl(alloc, 1, false)?);
    let zero = config.add_resource(rctl(alloc, 0, false)?);
    Ok(taken == Err(ConfigFault::Duplicate) && zero == Err(ConfigFault::BadValue))
}

#[test]
fn an_rctl_keeps_its_alias_and_its_name(rt: HostRuntime) -> Result<(), Fail> {
    let mut config = blank(rt.alloc());
    assert!(rt; alias_is_held(rt.alloc(), &mut config)?);
    assert!(rt; name_is_taken(rt.alloc(), &mut config)?);
    Ok(())
}

type Settings = &'static [(&'static [u8], &'static [u8])];

fn put_all(alloc: Global, resource: &mut Resource, settings: Settings) -> Result<(), ConfigFault> {
    for (name, text) in settings {
        let value = simple(alloc, text)?;
        resource.set_property(alloc, name, &value)?;
    }
    Ok(())
}

fn fill(alloc: Global, fs: &mut Resource, dir: Settings) -> Result<(), ConfigFault> {
    put_all(alloc, fs, dir)?;
    put_all(alloc, fs, &[(b"special", b"/my usr"), (b"type", b"lofs")])?;
    let options = list(alloc, &[b"ro", b"nodevices"])?;
    fs.add_value(alloc, b"options", &options)
}

fn mount(alloc: Global, dir: Settings) -> Result<Resource, ConfigFault> {
    let mut fs = Resource::empty(alloc, Kind::Fs);
    fill(alloc, &mut fs, dir)?;
    Ok(fs)
}

fn dataset(alloc: Global) -> Result<Resource, ConfigFault> {
    Ok(Resource::Dataset(Text::of(alloc, b"rpool/a")?))
}

fn add_three(alloc: Global, config: &mut ZoneConfig) -> Result<(), ConfigFault> {
    config.add_resource(dataset(alloc)?)?;
    config.add_resource(mount(alloc, &[(b"dir", b"/usr")])?)?;
    config.add_resource(mount(alloc, &[(b"dir", b"/opt")])?)
}

fn finds(config: &ZoneConfig, kind: Kind, wanted: &[Pair]) -> Result<u32, ConfigFault> {
    config.find_resource(kind, wanted)
}

fn searches(alloc: Global, config: &ZoneConfig) -> Result<bool, ConfigFault> {
    let typed = pairs(alloc, &[(b"type", b"lofs")])?;
    let opt = pairs(alloc, &[(b"dir", b"/opt")])?;
    Ok(
        finds(config, Kind::Fs, typed.as_slice()) == Err(ConfigFault::SeveralMatch(2))
            && finds(config, Kind::Net, typed.as_slice()) == Err(ConfigFault::NoMatch)
            && finds(config, Kind::Fs, opt.as_slice()) == Ok(1),
    )
}

// Puts an fs in the place of the one that has all wanted pairs.
fn replace(config: &mut ZoneConfig, wanted: &[Pair], new: Resource) -> Result<(), ConfigFault> {
    let place = config.find_resource(Kind::Fs, wanted)?;
    if new.kind() != Kind::Fs {
        return Err(ConfigFault::NoMatch);
    }
    config.replace_resource(place, new)
}

// Takes out the fs that has all wanted pairs.
fn remove(config: &mut ZoneConfig, wanted: &[Pair]) -> Result<(), ConfigFault> {
    let place = config.find_resource(Kind::Fs, wanted)?;
    let _removed = config.remove_resource(Kind::Fs, place);
    Ok(())
}

fn replace_opt(alloc: Global, config: &mut ZoneConfig) -> Result<(), ConfigFault> {
    let opt = pairs(alloc, &[(b"dir", b"/opt")])?;
    replace(config, opt.as_slice(), mount(alloc, &[(b"dir", b"/mnt")])?)
}

fn remove_usr(alloc: Global, config: &mut ZoneConfig) -> Result<(), ConfigFault> {
    let usr = pairs(alloc, &[(b"dir", b"/usr")])?;
    remove(config, usr.as_slice())
}

const MOUNTED: &[u8] = b"create -b
set autoboot=false
set ip-type=shared
add fs
set dir=/mnt
set special=\"/my usr\"
set type=lofs
add options [ro,nodevices]
end
add dataset
set name=rpool/a
end
";

fn come_and_go(alloc: Global, config: &mut ZoneConfig) -> Result<bool, ConfigFault> {
    add_three(alloc, config)?;
    let found = searches(alloc, config)?;
    replace_opt(alloc, config)?;
    remove_usr(alloc, config)?;
    Ok(found && shows(alloc, config, MOUNTED)?)
}

#[test]
fn resources_come_and_go(rt: HostRuntime) -> Result<(), Fail> {
    let mut config = blank(rt.alloc());
    assert!(rt; come_and_go(rt.alloc(), &mut config)?);
    Ok(())
}

//! Rules of values and resources, by tables.
use crate::values::{limit, list, pairs, simple, text};
use config_terms::{
    ConfigFault, Kind, Resource, Rule, entry_length, find_entry, is_taken, is_taken_but, push_entry,
};
use std::alloc::Global;
use std::test::Fail;
use zn_base::{Listing, Text, TryClone, Value};

// A rule, a value that it allows, and one that it doesn't.
const RULES: &[(Rule, &[u8], &[u8])] = &[
    (Rule::RootedPath, b"/", b"usr"),
    (Rule::OwnPath, b"/zones/web", b"/"),
    (Rule::Flag, b"false", b"yes"),
    (Rule::ShortName, b"ipkg-1.0_a", b"a b"),
    (Rule::Simple, b"-m verbose", b"a\"b"),
    (Rule::IpWay, b"exclusive", b"Shared"),
    (Rule::HostId, b"80f0c086", b"ffffffff"),
    (
        Rule::Number,
        b"18446744073709551615",
        b"18446744073709551616",
    ),
    (Rule::TypeWord, b"lofs", b"tmp-fs"),
    (Rule::OptionWord, b"zone/a", b"a,b"),
    (Rule::ControlName, b"zone.max-lwps", b"zone/max"),
    (Rule::AttributeName, b"0wner", b"zonename"),
    (Rule::AttributeForm, b"uint", b"text"),
];

fn tells(rule: Rule, good: &[u8], bad: &[u8]) -> bool {
    rule.allows(good) && rule.fits(good) && rule.fits(b"") && !rule.allows(bad) && !rule.fits(bad)
}

#[test]
fn each_rule_takes_a_good_value_and_no_bad_one(rt: HostRuntime) {
    for (rule, good, bad) in RULES {
        assert!(rt; tells(*rule, good, bad), "{good:?}");
    }
    assert!(rt; Rule::ShortName.allows(b"") && !Rule::Number.allows(b"0"));
}

// What is done to resources goes through helpers without contracts, so that no test's proof follows what
// a resource holds.
#[derive(Clone, Copy)]
enum Edit {
    Put,
    Add,
    Remove,
}

fn make(
    alloc: Global,
    resource: &mut Resource,
    way: Edit,
    name: &[u8],
    value: &Value,
) -> Result<(), ConfigFault> {
    match way {
        Edit::Put => resource.set_property(alloc, name, value),
        Edit::Add => resource.add_value(alloc, name, value),
        Edit::Remove => resource.remove_value(alloc, name, value),
    }
}

// What a resource prints, in the length that is reported.
fn shows(alloc: Global, resource: &Resource, wanted: &[u8]) -> Result<bool, ConfigFault> {
    let mut out = Vec::new(alloc);
    push_entry(&mut out, resource.kind(), resource)?;
    Ok(out.as_slice() == wanted && entry_length(resource.kind(), resource) == wanted.len())
}

fn copy_shows(alloc: Global, resource: &Resource, wanted: &[u8]) -> Result<bool, ConfigFault> {
    let copy = resource.try_clone(alloc)?;
    shows(alloc, &copy, wanted)
}

fn put(
    alloc: Global,
    resource: &mut Resource,
    name: &[u8],
    text: &[u8],
) -> Result<(), ConfigFault> {
    let value = simple(alloc, text)?;
    make(alloc, resource, Edit::Put, name, &value)
}

type Settings = &'static [(&'static [u8], &'static [u8])];

fn put_all(alloc: Global, resource: &mut Resource, settings: Settings) -> Result<(), ConfigFault> {
    for (name, text) in settings {
        put(alloc, resource, name, text)?;
    }
    Ok(())
}

fn clear_all(
    alloc: Global,
    resource: &mut Resource,
    settings: Settings,
) -> Result<(), ConfigFault> {
    for (name, _) in settings {
        resource.clear_property(alloc, name)?;
    }
    Ok(())
}

// A kind, what is set of a resource, and what it and an empty resource print.
const RESOURCES: &[(Kind, Settings, &[u8], &[u8])] = &[
    (
        Kind::Fs,
        &[(b"dir", b"/usr"), (b"type", b"lofs")],
        b"add fs\nset dir=/usr\nset type=lofs\nend\n",
        b"add fs\nend\n",
    ),
    (
        Kind::Net,
        &[(b"physical", b"net0"), (b"address", b"10.0.0.1/24")],
        b"add net\nset address=10.0.0.1/24\nset physical=net0\nend\n",
        b"add net\nend\n",
    ),
    (
        Kind::Device,
        &[(b"match", b"/dev/d[0-3]")],
        b"add device\nset match=\"/dev/d[0-3]\"\nend\n",
        b"add device\nend\n",
    ),
    (
        Kind::Rctl,
        &[(b"name", b"zone.a")],
        b"add rctl\nset name=zone.a\nend\n",
        b"add rctl\nend\n",
    ),
    (
        Kind::Attr,
        &[
            (b"name", b"owner"),
            (b"type", b"string"),
            (b"value", b"web team"),
        ],
        b"add attr\nset name=owner\nset type=string\nset value=\"web team\"\nend\n",
        b"add attr\nend\n",
    ),
    (
        Kind::Dataset,
        &[(b"name", b"tank/web")],
        b"add dataset\nset name=tank/web\nend\n",
        b"add dataset\nend\n",
    ),
];

// A resource with the settings prints the text, and the empty one once they are cleared.
fn comes_and_goes(
    alloc: Global,
    resource: &mut Resource,
    settings: Settings,
    text: &[u8],
    empty: &[u8],
) -> Result<bool, ConfigFault> {
    let fresh = resource.is_allowed() && shows(alloc, resource, empty)?;
    put_all(alloc, resource, settings)?;
    let full = copy_shows(alloc, resource, text)?;
    clear_all(alloc, resource, settings)?;
    Ok(fresh && full && shows(alloc, resource, empty)?)
}

fn is_printed(
    alloc: Global,
    kind: Kind,
    settings: Settings,
    text: &[u8],
    empty: &[u8],
) -> Result<bool, ConfigFault> {
    let mut resource = Resource::empty(alloc, kind);
    comes_and_goes(alloc, &mut resource, settings, text, empty)
}

#[test]
fn resources_are_printed(rt: HostRuntime) -> Result<(), Fail> {
    for (kind, settings, text, empty) in RESOURCES {
        assert!(rt;
            is_printed(rt.alloc(), *kind, settings, text, empty)?,
            "{text:?}"
        );
    }
    Ok(())
}

#[test]
fn kinds_are_named(rt: HostRuntime) {
    for (kind, _, _, _) in RESOURCES {
        assert!(rt; Kind::with_name(kind.name()) == Some(*kind), "{kind:?}");
    }
}

const RO: &[u8] = b"ro";

const OPTIONS: &[(Edit, &[&[u8]], Result<(), ConfigFault>)] = &[
    (Edit::Add, &[b"ro", b"nodevices"], Ok(())),
    (Edit::Add, &[b"ro"], Ok(())),
    (Edit::Remove, &[b"ro"], Ok(())),
    (Edit::Remove, &[b"ro", b"ro"], Err(ConfigFault::NoMatch)),
    (Edit::Put, &[b""], Err(ConfigFault::BadValue)),
    (Edit::Add, &[RO; 31], Err(ConfigFault::TooMany(32))),
];

fn edits_options(alloc: Global, usr: &mut Resource) -> Result<bool, ConfigFault> {
    let mut told = true;
    for (way, items, wanted) in OPTIONS {
        let value = list(alloc, items)?;
        told = told && make(alloc, usr, *way, b"options", &value) == *wanted;
    }
    Ok(told)
}

fn options_stand(alloc: Global, usr: &mut Resource) -> Result<bool, ConfigFault> {
    let edited = edits_options(alloc, usr)?;
    let some = shows(alloc, usr, b"add fs\nadd options [nodevices,ro]\nend\n")?;
    put(alloc, usr, b"options", b"")?;
    Ok(edited && some && shows(alloc, usr, b"add fs\nend\n")?)
}

#[test]
fn options_are_edited(rt: HostRuntime) -> Result<(), Fail> {
    let mut usr = Resource::empty(rt.alloc(), Kind::Fs);
    assert!(rt; options_stand(rt.alloc(), &mut usr)?);
    Ok(())
}

const LIMITS: &[(Edit, &[u8], &[u8], &[u8], Result<(), ConfigFault>)] = &[
    (Edit::Add, b"value", b"20", b"none", Ok(())),
    (Edit::Add, b"value", b"300", b"deny", Ok(())),
    (Edit::Remove, b"value", b"20", b"none", Ok(())),
    (
        Edit::Add,
        b"value",
        b"0",
        b"deny",
        Err(ConfigFault::BadValue),
    ),
    (
        Edit::Add,
        b"options",
        b"1",
        b"deny",
        Err(ConfigFault::UnknownProperty),
    ),
];

fn edits_limits(alloc: Global, lwps: &mut Resource) -> Result<bool, ConfigFault> {
    let mut told = true;
    for (way, name, number, action, wanted) in LIMITS {
        let value = limit(alloc, number, action)?;
        told = told && make(alloc, lwps, *way, name, &value) == *wanted;
    }
    Ok(told)
}

fn limits_stand(alloc: Global, lwps: &mut Resource) -> Result<bool, ConfigFault> {
    let edited = edits_limits(alloc, lwps)?;
    let wanted = b"add rctl\nadd value (priv=privileged,limit=300,action=deny)\nend\n";
    Ok(edited && shows(alloc, lwps, wanted)?)
}

#[test]
fn limits_are_edited(rt: HostRuntime) -> Result<(), Fail> {
    let mut lwps = Resource::empty(rt.alloc(), Kind::Rctl);
    assert!(rt; limits_stand(rt.alloc(), &mut lwps)?);
    Ok(())
}

fn devices(alloc: Global) -> Result<Listing<Text>, ConfigFault> {
    let mut devices = Listing::new(alloc);
    for path in [b"/dev/a".as_slice(), b"/dev/b", b"/dev/a"] {
        devices.push(text(alloc, path)?)?;
    }
    Ok(devices)
}

const SEARCHES: &[(&[u8], &[u8], Result<usize, ConfigFault>)] = &[
    (b"match", b"/dev/b", Ok(1)),
    (b"match", b"/dev/a", Err(ConfigFault::SeveralMatch(2))),
    (b"match", b"/dev", Err(ConfigFault::NoMatch)),
    (b"name", b"/dev/b", Err(ConfigFault::NoMatch)),
];

fn finds(
    alloc: Global,
    devices: &[Text],
    name: &[u8],
    value: &[u8],
    wanted: Result<usize, ConfigFault>,
) -> Result<bool, ConfigFault> {
    let pairs = pairs(alloc, &[(name, value)])?;
    Ok(find_entry(Kind::Device, devices, pairs.as_slice()) == wanted)
}

#[test]
fn matches_are_found(rt: HostRuntime) -> Result<(), Fail> {
    let devices = devices(rt.alloc())?;
    for (name, value, wanted) in SEARCHES {
        assert!(rt;
            finds(rt.alloc(), devices.as_slice(), name, value, *wanted)?,
            "{value:?}"
        );
    }
    Ok(())
}

// Whether a device of this match is there, and whether it is there but for the second place.
fn is_there(alloc: Global, devices: &[Text], path: &[u8]) -> Result<(bool, bool), ConfigFault> {
    let device = text(alloc, path)?;
    let but = devices.len() > 1 && is_taken_but(Kind::Device, 1, &device, devices);
    Ok((is_taken(Kind::Device, &device, devices), but))
}

fn tells_taken(alloc: Global, devices: &[Text]) -> Result<bool, ConfigFault> {
    Ok(
        devices.len() == 3
            && is_there(alloc, devices, b"/dev/c")? == (false, false)
            && is_there(alloc, devices, b"/dev/b")? == (true, false),
    )
}

#[test]
fn keys_are_taken(rt: HostRuntime) -> Result<(), Fail> {
    let devices = devices(rt.alloc())?;
    assert!(rt; tells_taken(rt.alloc(), devices.as_slice())?);
    Ok(())
}

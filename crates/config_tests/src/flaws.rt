//! One configuration for each flaw, and flaws in their order.
use crate::values::simple;
use config_terms::{ConfigFault, Kind, Named, Resource};
use config_verify::{Flaw, matches, verify};
use std::alloc::{AllocError, Global};
use std::process::Abort;
use std::test::Fail;
use zn_base::{Text, TextFault};
use zone_config::{ZoneConfig, blank};

// What is set of a zone, and of a resource after its kind, is given in words `NAME=VALUE`.
const SHARED: &str = "zonepath=/z brand=ipkg";

const EXCLUSIVE: &str = "zonepath=/z brand=lx ip-type=exclusive";

fn set(alloc: Global, config: &mut ZoneConfig, name: &str, value: &str) -> Result<(), ConfigFault> {
    config.set_property(alloc, name.as_bytes(), simple(alloc, value.as_bytes())?)
}

fn set_own(
    alloc: Global,
    resource: &mut Resource,
    name: &str,
    value: &str,
) -> Result<(), ConfigFault> {
    resource.set_property(alloc, name.as_bytes(), &simple(alloc, value.as_bytes())?)
}

// Configurations and resources go through helpers without contracts, so that no test's proof follows what
// they hold.
fn set_all(alloc: Global, config: &mut ZoneConfig, words: &str) -> Result<(), ConfigFault> {
    for word in words.split_whitespace() {
        if let Some((name, value)) = word.split_once('=') {
            set(alloc, config, name, value)?;
        }
    }
    Ok(())
}

fn empty(alloc: Global, kind: &str) -> Result<Resource, ConfigFault> {
    match Kind::with_name(kind.as_bytes()) {
        Some(kind) => Ok(Resource::empty(alloc, kind)),
        None => Err(ConfigFault::NoMatch),
    }
}

fn set_all_own(alloc: Global, resource: &mut Resource, words: &str) -> Result<(), ConfigFault> {
    for word in words.split_whitespace() {
        if let Some((name, value)) = word.split_once('=') {
            set_own(alloc, resource, name, value)?;
        }
    }
    Ok(())
}

fn resource_of(alloc: Global, kind: &str, words: &str) -> Result<Resource, ConfigFault> {
    let mut resource = empty(alloc, kind)?;
    set_all_own(alloc, &mut resource, words)?;
    Ok(resource)
}

fn add(alloc: Global, config: &mut ZoneConfig, words: &str) -> Result<(), ConfigFault> {
    let resource = match words.split_once(' ') {
        Some((kind, words)) => resource_of(alloc, kind, words)?,
        None => resource_of(alloc, words, "")?,
    };
    config.add_resource(resource)
}

fn property(kind: Kind, name: Named) -> &'static [u8] {
    match name {
        Named::One(field) => field.name(),
        Named::Many => match kind.list_name() {
            Some(name) => name,
            None => b"",
        },
    }
}

// A flaw's code, or the kind that lacks a property.
fn code(answer: &Result<(), Flaw>) -> &'static [u8] {
    match answer {
        Ok(()) => b"ok",
        Err(Flaw::Memory) => b"memory",
        Err(Flaw::NoZonepath) => b"41",
        Err(Flaw::MissingProperty(kind, _)) => kind.name(),
        Err(Flaw::NetForm(_)) => b"43",
        Err(Flaw::BadAddress(_)) => b"44",
        Err(Flaw::SameDir(_)) => b"45",
        Err(Flaw::UnknownBrand(_)) => b"46",
        Err(Flaw::AttrForm(_)) => b"50",
    }
}

// What a flaw says.
fn what(answer: &Result<(), Flaw>) -> &[u8] {
    match answer {
        Ok(()) | Err(Flaw::Memory | Flaw::NoZonepath) => b"",
        Err(Flaw::MissingProperty(kind, name)) => property(*kind, *name),
        Err(Flaw::NetForm(0)) => b"0",
        Err(Flaw::NetForm(_)) => b"1",
        Err(Flaw::BadAddress(text)) => text.bytes(),
        Err(Flaw::SameDir(dir)) => dir.bytes(),
        Err(Flaw::UnknownBrand(brand)) => brand.bytes(),
        Err(Flaw::AttrForm(name)) => name.bytes(),
    }
}

fn told(alloc: Global, answer: &Result<(), Flaw>) -> Result<Vec<u8>, AllocError> {
    let mut text = Vec::new(alloc);
    text.extend_from_slice(code(answer))?;
    text.push(b' ')?;
    text.extend_from_slice(what(answer))?;
    Ok(text)
}

fn brands(alloc: Global) -> Result<[Text; 2], TextFault> {
    Ok([Text::read(alloc, b"ipkg")?, Text::read(alloc, b"lx")?])
}

fn answers(
    alloc: Global,
    config: &ZoneConfig,
    brands: &[Text],
    wanted: &str,
) -> Result<bool, AllocError> {
    let answer = verify(alloc, config, brands);
    let found = told(alloc, &answer)?;
    Ok(found.as_slice() == wanted.as_bytes())
}

fn add_all(
    alloc: Global,
    config: &mut ZoneConfig,
    zone: &str,
    resources: &[&str],
) -> Result<(), ConfigFault> {
    set_all(alloc, config, zone)?;
    for words in resources {
        add(alloc, config, words)?;
    }
    Ok(())
}

fn finds(
    alloc: Global,
    zone: &str,
    resources: &[&str],
    brands: &[Text],
    wanted: &str,
) -> Result<bool, ConfigFault> {
    let mut config = blank(alloc);
    add_all(alloc, &mut config, zone, resources)?;
    Ok(answers(alloc, &config, brands, wanted)?)
}

type Row = (&'static str, &'static [&'static str], &'static str);

const ZONES: &[Row] = &[
    ("", &[], "41 "),
    ("zonepath=/z", &[], "46 "),
    ("zonepath=/z brand=sn1", &[], "46 sn1"),
    (SHARED, &[], "ok "),
    (EXCLUSIVE, &[], "ok "),
];

const MOUNTS: &[Row] = &[
    (SHARED, &["fs special=/a type=lofs"], "fs dir"),
    (SHARED, &["fs dir=/a type=ufs"], "fs special"),
    (SHARED, &["fs dir=/a special=b type=lofs"], "fs special"),
    (SHARED, &["fs dir=/a special=b"], "fs type"),
    (SHARED, &["fs dir=/ special=b type=ufs"], "45 /"),
    (
        SHARED,
        &[
            "fs dir=/a special=b type=ufs",
            "fs dir=/a special=/c type=lofs",
        ],
        "45 /a",
    ),
];

const NETS: &[Row] = &[
    (SHARED, &["net address=10.0.0.1"], "net physical"),
    (SHARED, &["net physical=e0"], "43 0"),
    (
        SHARED,
        &["net physical=e0 address=10.0.0.1 allowed-address=10.0.0.2"],
        "43 0",
    ),
    (
        SHARED,
        &["net physical=e0 address=10.0.0.256"],
        "44 10.0.0.256",
    ),
    (
        SHARED,
        &["net physical=e0 address=10.0.01.1"],
        "44 10.0.01.1",
    ),
    (SHARED, &["net physical=e0 address=10.0.0"], "44 10.0.0"),
    (
        SHARED,
        &["net physical=e0 address=1.2.3.4.5"],
        "44 1.2.3.4.5",
    ),
    (
        SHARED,
        &["net physical=e0 address=1.2.3.4/33"],
        "44 1.2.3.4/33",
    ),
    (
        SHARED,
        &["net physical=e0 address=1.2.3.4 defrouter=1.2.3.1/8"],
        "44 1.2.3.1/8",
    ),
    (EXCLUSIVE, &["net physical=e0 address=10.0.0.1"], "43 0"),
    (EXCLUSIVE, &["net physical=e0 allowed-address=x"], "44 x"),
    (
        EXCLUSIVE,
        &["net physical=e0 allowed-address=1.2.3.4/8"],
        "ok ",
    ),
    (
        SHARED,
        &[
            "net physical=e0 address=10.0.0.1/8",
            "net physical=e1 address=10.0.0.1/24",
        ],
        "43 1",
    ),
    (EXCLUSIVE, &["net physical=e0", "net physical=e0"], "43 1"),
    (
        SHARED,
        &[
            "net physical=e0 address=10.0.0.1/32",
            "net physical=e0 address=0.255.0.10 defrouter=10.0.0.1",
        ],
        "ok ",
    ),
];

const OTHERS: &[Row] = &[
    (SHARED, &["device"], "device match"),
    (SHARED, &["rctl"], "rctl name"),
    (SHARED, &["rctl name=zone.max-lwps"], "rctl value"),
    (SHARED, &["attr"], "attr name"),
    (SHARED, &["attr name=a"], "attr type"),
    (SHARED, &["attr name=a type=int"], "attr value"),
    (SHARED, &["dataset"], "dataset name"),
    (SHARED, &["attr name=a type=int value=-12"], "ok "),
    (SHARED, &["attr name=a type=int value=-12x"], "50 a"),
    (SHARED, &["attr name=a type=uint value=-12"], "50 a"),
    (
        SHARED,
        &["attr name=a type=uint value=1234567890123456789"],
        "50 a",
    ),
    (SHARED, &["attr name=a type=boolean value=yes"], "50 a"),
    (SHARED, &["attr name=a type=boolean value=false"], "ok "),
    (SHARED, &["attr name=a type=string value=any[text]"], "ok "),
];

const EACH: &[&str] = &["dataset", "attr", "rctl", "device", "net", "fs"];

const ORDERED: &[Row] = &[
    ("", EACH, "41 "),
    ("zonepath=/z", EACH, "46 "),
    (SHARED, EACH, "fs dir"),
    (
        SHARED,
        &["dataset", "attr", "rctl", "device", "net"],
        "net physical",
    ),
    (
        SHARED,
        &["dataset", "attr", "rctl", "device"],
        "device match",
    ),
    (SHARED, &["dataset", "attr", "rctl"], "rctl name"),
];

fn are_found(rt: &impl Abort, alloc: Global, rows: &[Row]) -> Result<(), Fail> {
    let brands = brands(alloc)?;
    for (zone, resources, wanted) in rows {
        assert!(rt;
            finds(alloc, zone, resources, &brands, wanted)?,
            "{zone} {resources:?}"
        );
    }
    Ok(())
}

#[test]
fn flaws_of_the_zone(rt: HostRuntime) -> Result<(), Fail> {
    are_found(&rt, rt.alloc(), ZONES)
}

#[test]
fn flaws_of_an_fs(rt: HostRuntime) -> Result<(), Fail> {
    are_found(&rt, rt.alloc(), MOUNTS)
}

#[test]
fn flaws_of_a_net(rt: HostRuntime) -> Result<(), Fail> {
    are_found(&rt, rt.alloc(), NETS)
}

#[test]
fn flaws_of_other_resources(rt: HostRuntime) -> Result<(), Fail> {
    are_found(&rt, rt.alloc(), OTHERS)
}

#[test]
fn flaws_come_in_their_order(rt: HostRuntime) -> Result<(), Fail> {
    are_found(&rt, rt.alloc(), ORDERED)
}

#[test]
fn a_match_fits_a_path(rt: HostRuntime) {
    assert!(rt; matches(b"/dev/d*", b"/dev/dsk") && !matches(b"/dev/d*", b"/dev/d/a"));
}

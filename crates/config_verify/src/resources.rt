//! The flaws of resources.
ghost use Rattle.std.specs.Prelude.{◌≡◌, ◌<◌, ◌≤◌, ◌^◌, ◌&&◌, ◌||◌, ◌==◌, [], IsTrue, bytes_eq, is_some, length, not};
ghost use Rattle.std.specs.List.{flat_map, list_any};
ghost use Rattle.config_terms.specs.declared.fields.Field.TheVariants.{FsDir, FsSpecial};
ghost use Rattle.config_terms.specs.declared.fields.Named.TheVariants.{Many, One};
ghost use Rattle.config_terms.specs.declared.terms.Kind.TheVariants as kind;
ghost use Rattle.config_verify.specs.declared.flaw.Flaw.TheVariants.{AttrForm, BadAddress};
ghost use Rattle.config_verify.specs.Flaws.{claimed, dir_flaws, each_behind, flaws_of_attr, flaws_of_dataset, flaws_of_device, flaws_of_fs, flaws_of_net, flaws_of_rctl, form_flaws, has_dir, has_form, has_special, is_claimed, is_unset, needed, needs_text, unless, Finds};
ghost use Rattle.zn_base.specs.Text.{is_text};
ghost use Rattle.config_verify.specs.Values.{is_address, is_of_form, is_plain_address};

use crate::Flaw;
use crate::values::{is_address, is_of_form, is_plain_address, without_prefix};
use config_terms::{Attr, Field, Fs, IpType, Kind, Named, Net, Rctl};
use std::alloc::Global;
use zn_base::{AbsPath, Text, is_path};

fn needed(is_set: bool, kind: Kind, name: Named) -> Result<(), Flaw>
    ensures { Finds (needed is_set kind name) result }
{
    if is_set {
        Ok(())
    } else {
        Err(Flaw::MissingProperty(kind, name))
    }
}

// Whether a text property is set.
fn is_set(text: &Text) -> bool
    ensures { result ≡ not (is_unset text.now) }
{
    !text.bytes().is_empty()
}

fn needs_text(text: &Text, kind: Kind, name: Named) -> Result<(), Flaw>
    ensures { Finds (needs_text text.now kind name) result }
{
    needed(is_set(text), kind, name)
}

#[tactic(auto, unfolding(crate::specs::Flaws::has_special))]
fn has_special(fs: &Fs) -> bool
    ensures { result ≡ has_special fs.now }
{
    is_set(&fs.special) && (fs.fstype.bytes() != b"lofs".as_slice() || is_path(fs.special.bytes()))
}

fn has_dir(fs: &Fs, dir: &[u8]) -> bool
    ensures { result ≡ has_dir dir.now fs.now }
{
    match &fs.dir {
        None => false,
        Some(path) => path.bytes() == dir,
    }
}

fn some_has_dir(before: &[Fs], dir: &[u8]) -> bool
    ensures { result ≡ list_any (has_dir dir.now) before.now }
{
    before.iter().any(|fs| has_dir(fs, dir))
}

fn dir_flaw(alloc: Global, before: &[Fs], dir: &Option<AbsPath>) -> Result<(), Flaw>
    ensures { Finds (dir_flaws before.now dir.now) result }
{
    let Some(dir) = dir else {
        return Ok(());
    };
    if dir.bytes() == b"/".as_slice() || some_has_dir(before, dir.bytes()) {
        return Err(Flaw::SameDir(dir.copy(alloc)?));
    }
    Ok(())
}

fn needs_dir(fs: &Fs) -> Result<(), Flaw>
    ensures { Finds (needed (is_some fs.now.dir) kind.Fs (One FsDir)) result }
{
    needed(fs.dir.is_some(), Kind::Fs, Named::One(Field::FsDir))
}

fn needs_special(fs: &Fs) -> Result<(), Flaw>
    ensures { Finds (needed (has_special fs.now) kind.Fs (One FsSpecial)) result }
{
    needed(has_special(fs), Kind::Fs, Named::One(Field::FsSpecial))
}

fn flaw_of_fs(alloc: Global, before: &[Fs], fs: &Fs) -> Result<(), Flaw>
    ensures { Finds (flaws_of_fs before.now fs.now) result }
{
    needs_dir(fs)?;
    needs_special(fs)?;
    needs_text(&fs.fstype, Kind::Fs, Named::One(Field::FsType))?;
    dir_flaw(alloc, before, &fs.dir)
}

pub(crate) fn flaw_of_mounts(alloc: Global, all: &[Fs]) -> Result<(), Flaw>
    ensures { Finds (each_behind flaws_of_fs [] all.now) result }
{
    for place in 0..all.len() {
        flaw_of_fs(alloc, &all[..place], &all[place])?;
    }
    Ok(())
}

#[tactic(auto, unfolding(crate::specs::Values::without_prefix), using(crate::proofs::Front_texts::front_text))]
/// What a net takes for its zone alone: an interface, or in a shared zone an address.
pub fn claimed(ip: IpType, net: &Net) -> &[u8]
    ensures item { result.now ≡ claimed ip net.now }
    ensures text { IsTrue (is_text result.now) }
{
    match ip {
        IpType::Exclusive => net.physical.bytes(),
        IpType::Shared => without_prefix(net.address.bytes()),
    }
}

fn has_form(ip: IpType, net: &Net) -> bool
    ensures { result ≡ has_form ip net.now }
{
    match ip {
        IpType::Shared => is_set(&net.address) && !is_set(&net.allowed),
        IpType::Exclusive => !is_set(&net.address),
    }
}

fn some_claims(ip: IpType, before: &[Net], item: &[u8]) -> bool
    ensures { result ≡ list_any (λ m. bytes_eq (claimed ip m) item.now) before.now }
{
    before.iter().any(|net| claimed(ip, net) == item)
}

#[tactic(auto, unfolding(crate::specs::Flaws::is_claimed))]
fn is_claimed(ip: IpType, before: &[Net], net: &Net) -> bool
    ensures { result ≡ is_claimed ip before.now net.now }
{
    let item = claimed(ip, net);
    !item.is_empty() && some_claims(ip, before, item)
}

fn suits(ip: IpType, before: &[Net], net: &Net) -> bool
    ensures { result ≡ (has_form ip net.now && not (is_claimed ip before.now net.now)) }
{
    has_form(ip, net) && !is_claimed(ip, before, net)
}

fn form_flaw(ip: IpType, before: &[Net], net: &Net) -> Result<(), Flaw>
    requires { length before.now < 2 ^ 32 }
    ensures { Finds (form_flaws ip before.now net.now) result }
{
    if suits(ip, before, net) {
        Ok(())
    } else {
        Err(Flaw::NetForm(before.len() as u32))
    }
}

// The flaw of an address that is set and not right.
fn needs_address(alloc: Global, text: &Text, is_right: bool) -> Result<(), Flaw>
    ensures { Finds (unless (is_unset text.now || is_right) (BadAddress text.now)) result }
{
    if !is_set(text) || is_right {
        Ok(())
    } else {
        Err(Flaw::BadAddress(text.copy(alloc)?))
    }
}

fn flaw_of_net(alloc: Global, ip: IpType, before: &[Net], net: &Net) -> Result<(), Flaw>
    requires { length before.now < 2 ^ 32 }
    ensures { Finds (flaws_of_net ip before.now net.now) result }
{
    needs_text(&net.physical, Kind::Net, Named::One(Field::NetPhysical))?;
    form_flaw(ip, before, net)?;
    needs_address(alloc, &net.address, is_address(net.address.bytes()))?;
    needs_address(alloc, &net.allowed, is_address(net.allowed.bytes()))?;
    needs_address(
        alloc,
        &net.defrouter,
        is_plain_address(net.defrouter.bytes()),
    )
}

pub(crate) fn flaw_of_nets(alloc: Global, ip: IpType, all: &[Net]) -> Result<(), Flaw>
    requires { length all.now ≤ 4294967295 }
    ensures { Finds (each_behind (flaws_of_net ip) [] all.now) result }
{
    for place in 0..all.len() {
        flaw_of_net(alloc, ip, &all[..place], &all[place])?;
    }
    Ok(())
}

#[tactic(auto, unfolding(crate::specs::Flaws::flaws_of_device))]
fn flaw_of_device(device: &Text) -> Result<(), Flaw>
    ensures { Finds (flaws_of_device device.now) result }
{
    needs_text(device, Kind::Device, Named::One(Field::DeviceMatch))
}

pub(crate) fn flaw_of_devices(all: &[Text]) -> Result<(), Flaw>
    ensures { Finds (flat_map flaws_of_device all.now) result }
{
    for device in all {
        flaw_of_device(device)?;
    }
    Ok(())
}

fn needs_values(rctl: &Rctl) -> Result<(), Flaw>
    ensures { Finds (needed (not (length rctl.now.values == 0)) kind.Rctl Many) result }
{
    needed(rctl.values.len() != 0, Kind::Rctl, Named::Many)
}

fn flaw_of_rctl(rctl: &Rctl) -> Result<(), Flaw>
    ensures { Finds (flaws_of_rctl rctl.now) result }
{
    needs_text(&rctl.name, Kind::Rctl, Named::One(Field::RctlName))?;
    needs_values(rctl)
}

pub(crate) fn flaw_of_rctls(all: &[Rctl]) -> Result<(), Flaw>
    ensures { Finds (flat_map flaws_of_rctl all.now) result }
{
    for rctl in all {
        flaw_of_rctl(rctl)?;
    }
    Ok(())
}

fn value_flaw(alloc: Global, attr: &Attr) -> Result<(), Flaw>
    ensures { Finds (unless (is_of_form attr.now.form attr.now.value) (AttrForm attr.now.name)) result }
{
    if is_of_form(attr.form.bytes(), attr.value.bytes()) {
        Ok(())
    } else {
        Err(Flaw::AttrForm(attr.name.copy(alloc)?))
    }
}

fn flaw_of_attr(alloc: Global, attr: &Attr) -> Result<(), Flaw>
    ensures { Finds (flaws_of_attr attr.now) result }
{
    needs_text(&attr.name, Kind::Attr, Named::One(Field::AttrName))?;
    needs_text(&attr.form, Kind::Attr, Named::One(Field::AttrType))?;
    needs_text(&attr.value, Kind::Attr, Named::One(Field::AttrValue))?;
    value_flaw(alloc, attr)
}

pub(crate) fn flaw_of_attrs(alloc: Global, all: &[Attr]) -> Result<(), Flaw>
    ensures { Finds (flat_map flaws_of_attr all.now) result }
{
    for attr in all {
        flaw_of_attr(alloc, attr)?;
    }
    Ok(())
}

#[tactic(auto, unfolding(crate::specs::Flaws::flaws_of_dataset))]
fn flaw_of_dataset(dataset: &Text) -> Result<(), Flaw>
    ensures { Finds (flaws_of_dataset dataset.now) result }
{
    needs_text(dataset, Kind::Dataset, Named::One(Field::DatasetName))
}

pub(crate) fn flaw_of_datasets(all: &[Text]) -> Result<(), Flaw>
    ensures { Finds (flat_map flaws_of_dataset all.now) result }
{
    for dataset in all {
        flaw_of_dataset(dataset)?;
    }
    Ok(())
}

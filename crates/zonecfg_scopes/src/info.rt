//! The lines of `help` and `info`.
ghost use Rattle.std.specs.Prelude.{◌≡◌, ◌++◌, [], ◌∷◌, IfOk, OnOk, codes, find, map, option_copied};
ghost use Rattle.std.specs.List.{flat_map};
ghost use Rattle.config_terms.specs.Fields.{kinds};
ghost use Rattle.config_terms.specs.Texts.{options_text};
ghost use Rattle.zone_config.specs.Edits.{is_named_for};
ghost use Rattle.zone_config.specs.Property.{properties};
ghost use Rattle.zonecfg_scopes.specs.Info.{alias_lines, all_lines, entry_lines, field_lines, help_line, kind_lines, limit_line, named_line, options_line, property_line, resource_lines, set_line, topic_lines};

use crate::command::Topic;
use crate::line::push_line;
use config_terms::{Entry, KINDS, Kind, Limit, Rctl, Resource, push_limit, push_options};
use std::alloc::{AllocError, Global};
use zn_base::{Bytes, Listing, Text};
use zone_config::{Alias, Contents, PROPERTIES, Property, Setting, by_kind};

const HELP: &[u8] =
    b"add cancel clear commit create delete end exit export help info remove revert select set verify";

#[tactic(auto, using(crate::proofs::Shown::helped))]
fn help_line(alloc: Global) -> Result<Bytes, AllocError>
    ensures { IfOk result (λ line. line ≡ help_line) }
{
    Bytes::from_slice(alloc, HELP)
}

/// The line of `help`.
pub(crate) fn help(alloc: Global) -> Result<Listing<Bytes>, AllocError>
    ensures { IfOk result (λ lines. lines ≡ help_line ∷ []) }
{
    let mut lines = Listing::new(alloc);
    lines.push(help_line(alloc)?)?;
    Ok(lines)
}

fn push_named(
    alloc: Global,
    out: &mut Listing<Bytes>,
    name: &[u8],
    value: &[u8],
) -> Result<(), AllocError>
    ensures { OnOk result (out.new ≡ out.old ++ named_line name.now value.now ∷ []) }
{
    push_line(alloc, out, &[name, b": ", value])
}

#[tactic(auto, unfolding(crate::specs::Info::set_line))]
fn push_set(
    alloc: Global,
    out: &mut Listing<Bytes>,
    name: &[u8],
    value: &[u8],
) -> Result<(), AllocError>
    ensures { OnOk result (out.new ≡ out.old ++ set_line name.now value.now) }
{
    if value.is_empty() {
        return Ok(());
    }
    push_line(alloc, out, &[b"    ", name, b": ", value])
}

// The line of options in their brackets.
fn options_in_line(alloc: Global, options: &[Text]) -> Result<Bytes, AllocError>
    ensures { IfOk result (λ line. line ≡ codes "    options: " ++ options_text options.now) }
{
    let mut bytes = Vec::new(alloc);
    bytes.extend_from_slice(b"    options: ")?;
    push_options(&mut bytes, options)?;
    Ok(Bytes::from_vec(bytes))
}

#[tactic(auto, unfolding(crate::specs::Info::options_line))]
fn push_options_line(
    alloc: Global,
    out: &mut Listing<Bytes>,
    options: &[Text],
) -> Result<(), AllocError>
    ensures { OnOk result (out.new ≡ out.old ++ options_line options.now) }
{
    if options.is_empty() {
        return Ok(());
    }
    out.push(options_in_line(alloc, options)?)?;
    Ok(())
}

#[tactic(auto, unfolding(crate::specs::Info::limit_line))]
fn limit_line(alloc: Global, value: Limit) -> Result<Bytes, AllocError>
    ensures { IfOk result (λ line. line ≡ limit_line value) }
{
    let mut bytes = Vec::new(alloc);
    bytes.extend_from_slice(b"    value: ")?;
    push_limit(&mut bytes, value)?;
    Ok(Bytes::from_vec(bytes))
}

fn push_limit_lines(
    alloc: Global,
    out: &mut Listing<Bytes>,
    values: &[Limit],
) -> Result<(), AllocError>
    ensures { OnOk result (out.new ≡ out.old ++ map limit_line values.now) }
{
    for value in values {
        out.push(limit_line(alloc, *value)?)?;
    }
    Ok(())
}

#[tactic(auto, unfolding(crate::specs::Info::field_lines))]
fn push_fields<T: Entry>(
    alloc: Global,
    out: &mut Listing<Bytes>,
    kind: Kind,
    entry: &T,
) -> Result<(), AllocError>
    ensures { OnOk result (out.new ≡ out.old ++ field_lines kind (T.shown entry.now)) }
{
    for field in kind.fields() {
        push_set(alloc, out, field.name(), entry.shown(*field))?;
    }
    Ok(())
}

#[tactic(auto, unfolding(crate::specs::Info::entry_lines))]
fn push_entry<T: Entry>(
    alloc: Global,
    out: &mut Listing<Bytes>,
    kind: Kind,
    entry: &T,
) -> Result<(), AllocError>
    ensures { OnOk result (out.new ≡ out.old ++ entry_lines kind (T.shown entry.now) (T.options entry.now) (T.values entry.now)) }
{
    push_line(alloc, out, &[kind.name(), b":"])?;
    push_fields(alloc, out, kind, entry)?;
    push_options_line(alloc, out, entry.options())?;
    push_limit_lines(alloc, out, entry.values())
}

fn push_entries<T: Entry>(
    alloc: Global,
    out: &mut Listing<Bytes>,
    kind: Kind,
    entries: &[T],
) -> Result<(), AllocError>
    ensures { OnOk result (out.new ≡ out.old ++ flat_map (λ e. entry_lines kind (T.shown e) (T.options e) (T.values e)) entries.now) }
{
    for entry in entries {
        push_entry(alloc, out, kind, entry)?;
    }
    Ok(())
}

#[tactic(auto, unfolding(crate::specs::Info::kind_lines))]
fn push_kind(
    alloc: Global,
    out: &mut Listing<Bytes>,
    contents: &Contents,
    kind: Kind,
) -> Result<(), AllocError>
    ensures { OnOk result (out.new ≡ out.old ++ kind_lines contents.now kind) }
{
    by_kind!(
        kind,
        contents,
        |kind, list| push_entries(alloc, out, kind, list.as_slice())
    )
}

fn push_kind_lines(
    alloc: Global,
    out: &mut Listing<Bytes>,
    contents: &Contents,
    kinds: &[Kind],
) -> Result<(), AllocError>
    ensures { OnOk result (out.new ≡ out.old ++ flat_map (kind_lines contents.now) kinds.now) }
{
    for kind in kinds {
        push_kind(alloc, out, contents, *kind)?;
    }
    Ok(())
}

fn push_property(
    alloc: Global,
    out: &mut Listing<Bytes>,
    contents: &Contents,
    property: Property,
) -> Result<(), AllocError>
    ensures { OnOk result (out.new ≡ out.old ++ property_line contents.now property ∷ []) }
{
    push_named(alloc, out, property.name(), contents.shown(property))
}

fn push_property_lines(
    alloc: Global,
    out: &mut Listing<Bytes>,
    contents: &Contents,
    properties: &[Property],
) -> Result<(), AllocError>
    ensures { OnOk result (out.new ≡ out.old ++ map (property_line contents.now) properties.now) }
{
    for property in properties {
        push_property(alloc, out, contents, *property)?;
    }
    Ok(())
}

fn push_properties(
    alloc: Global,
    out: &mut Listing<Bytes>,
    contents: &Contents,
) -> Result<(), AllocError>
    ensures { OnOk result (out.new ≡ out.old ++ map (property_line contents.now) properties) }
{
    push_property_lines(alloc, out, contents, &PROPERTIES)
}

fn push_resources(
    alloc: Global,
    out: &mut Listing<Bytes>,
    contents: &Contents,
) -> Result<(), AllocError>
    ensures { OnOk result (out.new ≡ out.old ++ flat_map (kind_lines contents.now) kinds) }
{
    push_kind_lines(alloc, out, contents, &KINDS)
}

fn push_all(
    alloc: Global,
    out: &mut Listing<Bytes>,
    name: &[u8],
    contents: &Contents,
) -> Result<(), AllocError>
    ensures { OnOk result (out.new ≡ out.old ++ all_lines name.now contents.now) }
{
    push_named(alloc, out, b"zonename", name)?;
    push_properties(alloc, out, contents)?;
    push_resources(alloc, out, contents)?;
    Ok(())
}

fn is_named_for(alias: Alias, rctl: &Rctl) -> bool
    ensures { result ≡ is_named_for alias rctl.now }
{
    rctl.name.bytes() == alias.rctl_name()
}

fn rctl_for(alias: Alias, rctls: &[Rctl]) -> Option<&Rctl>
    ensures { option_copied result ≡ find (is_named_for alias) rctls.now }
{
    rctls.iter().find(|rctl| is_named_for(alias, rctl))
}

#[tactic(auto, unfolding(crate::specs::Info::alias_lines))]
fn push_alias(
    alloc: Global,
    out: &mut Listing<Bytes>,
    contents: &Contents,
    alias: Alias,
) -> Result<(), AllocError>
    ensures { OnOk result (out.new ≡ out.old ++ alias_lines alias contents.now) }
{
    match rctl_for(alias, contents.rctl.as_slice()) {
        None => Ok(()),
        Some(rctl) => push_entry(alloc, out, Kind::Rctl, rctl),
    }
}

#[tactic(auto, unfolding(crate::specs::Info::topic_lines))]
fn push_topic(
    alloc: Global,
    out: &mut Listing<Bytes>,
    topic: Topic,
    name: &[u8],
    contents: &Contents,
) -> Result<(), AllocError>
    ensures { OnOk result (out.new ≡ out.old ++ topic_lines topic name.now contents.now) }
{
    match topic {
        Topic::Everything => push_all(alloc, out, name, contents),
        Topic::Setting(Setting::Kept(property)) => push_property(alloc, out, contents, property),
        Topic::Setting(Setting::Aliased(alias)) => push_alias(alloc, out, contents, alias),
        Topic::Resources(kind) => push_kind(alloc, out, contents, kind),
    }
}

/// The lines of what `info` shows of a configuration, by the zone's name.
pub(crate) fn topic_lines(
    alloc: Global,
    topic: Topic,
    name: &[u8],
    contents: &Contents,
) -> Result<Listing<Bytes>, AllocError>
    ensures { IfOk result (λ lines. lines ≡ topic_lines topic name.now contents.now) }
{
    let mut lines = Listing::new(alloc);
    push_topic(alloc, &mut lines, topic, name, contents)?;
    Ok(lines)
}

/// The lines of a resource.
pub(crate) fn resource_lines(
    alloc: Global,
    resource: &Resource,
) -> Result<Listing<Bytes>, AllocError>
    ensures { IfOk result (λ lines. lines ≡ resource_lines resource.now) }
{
    let mut lines = Listing::new(alloc);
    push_entry(alloc, &mut lines, resource.kind(), resource)?;
    Ok(lines)
}

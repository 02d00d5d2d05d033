//! The export text.
ghost use Rattle.std.specs.Prelude.{◌≡◌, ◌++◌, Err, IfOk, OnErr, OnOk};
ghost use Rattle.std.specs.List.{flat_map};
ghost use Rattle.config_terms.specs.Fields.{kinds};
ghost use Rattle.zone_config.specs.Export.{export_text, kind_text, property_line};
ghost use Rattle.zone_config.specs.Property.{properties};

use crate::{Contents, PROPERTIES, Property, ZoneConfig, by_kind};
use config_terms::{ConfigFault, KINDS, Kind, push_entries, push_setting};
use std::alloc::{AllocError, Global};

fn push_lines(
    out: &mut Vec<u8>,
    contents: &Contents,
    properties: &[Property],
) -> Result<(), AllocError>
    ensures { OnOk result (out.new.items ≡ out.old.items ++ flat_map (property_line contents.now) properties.now) }
{
    for property in properties {
        push_setting(out, property.name(), contents.shown(*property))?;
    }
    Ok(())
}

fn push_properties(out: &mut Vec<u8>, contents: &Contents) -> Result<(), AllocError>
    ensures { OnOk result (out.new.items ≡ out.old.items ++ flat_map (property_line contents.now) properties) }
{
    push_lines(out, contents, &PROPERTIES)
}

fn push_kind(out: &mut Vec<u8>, contents: &Contents, kind: Kind) -> Result<(), AllocError>
    ensures { OnOk result (out.new.items ≡ out.old.items ++ kind_text contents.now kind) }
{
    by_kind!(
        kind,
        contents,
        |kind, list| push_entries(out, kind, list.as_slice())
    )
}

fn push_kinds(out: &mut Vec<u8>, contents: &Contents, kinds: &[Kind]) -> Result<(), AllocError>
    ensures { OnOk result (out.new.items ≡ out.old.items ++ flat_map (kind_text contents.now) kinds.now) }
{
    for kind in kinds {
        push_kind(out, contents, *kind)?;
    }
    Ok(())
}

fn push_resources(out: &mut Vec<u8>, contents: &Contents) -> Result<(), AllocError>
    ensures { OnOk result (out.new.items ≡ out.old.items ++ flat_map (kind_text contents.now) kinds) }
{
    push_kinds(out, contents, &KINDS)
}

/// Puts the export text of a configuration, which zonecfg(8) reads back, after what a buffer has.
#[tactic(auto, unfolding(crate::specs::Export::export_text))]
pub fn push_export(out: &mut Vec<u8>, config: &ZoneConfig) -> Result<(), AllocError>
    ensures { OnOk result (out.new.items ≡ out.old.items ++ export_text config.now) }
{
    let contents = config.contents();
    out.extend_from_slice(b"create -b\n")?;
    push_properties(out, contents)?;
    push_resources(out, contents)
}

/// The export text of a configuration, which zonecfg(8) reads back.
pub fn export(alloc: Global, config: &ZoneConfig) -> Result<Vec<u8>, ConfigFault>
    ensures text { IfOk result (λ text. text.items ≡ export_text config.now) }
    ensures memory { OnErr result (result ≡ Err ConfigFault.Memory) }
{
    let mut out = Vec::with_capacity(alloc, config.text_length())?;
    push_export(&mut out, config)?;
    Ok(out)
}

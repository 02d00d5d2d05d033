//! The texts of resources, and how long they are.
ghost use Rattle.std.specs.Prelude.{◌≡◌, ◌+◌, ◌*◌, ◌^◌, ◌≤◌, ◌++◌, length, OnOk};
ghost use Rattle.std.specs.List.{flat_map};
ghost use Rattle.config_terms.specs.Texts.{settings, entry_text};

use crate::lines::{limit_lines_length, options_line_length, push_limit_lines, push_options_line};
use crate::texts::{push_setting, setting_length};
use crate::{Entry, Kind};
use std::alloc::AllocError;
use zn_base::push_pieces;

#[tactic(auto, unfolding(crate::specs::Texts::settings))]
fn push_settings<T: Entry>(out: &mut Vec<u8>, kind: Kind, entry: &T) -> Result<(), AllocError>
    ensures { OnOk result (out.new.items ≡ out.old.items ++ settings kind (T.shown entry.now)) }
{
    for field in kind.fields() {
        push_setting(out, field.name(), entry.shown(*field))?;
    }
    Ok(())
}

#[tactic(auto, unfolding(crate::specs::Texts::settings))]
fn settings_length<T: Entry>(kind: Kind, entry: &T) -> usize
    ensures same { result ≡ length (settings kind (T.shown entry.now)) }
    ensures bound { result ≤ 4 * 4308 }
{
    let mut total = 0;
    for field in kind.fields() {
        total += setting_length(field.name(), entry.shown(*field));
    }
    total
}

/// Puts the text of a resource at the end of `out`: `add KIND`, the properties that are set, `end` (zonecfg(8)). Where
/// memory runs out, `out` has what it had, and perhaps a front of the text.
#[tactic(auto, unfolding(crate::specs::Texts::entry_text))]
pub fn push_entry<T: Entry>(out: &mut Vec<u8>, kind: Kind, entry: &T) -> Result<(), AllocError>
    ensures { OnOk result (out.new.items ≡ out.old.items ++ entry_text kind (T.shown entry.now) (T.options entry.now) (T.values entry.now)) }
{
    push_pieces(out, &[b"add ", kind.name(), b"\n"])?;
    push_settings(out, kind, entry)?;
    push_options_line(out, entry.options())?;
    push_limit_lines(out, entry.values())?;
    out.extend_from_slice(b"end\n")?;
    Ok(())
}

/// How many bytes that text has. It takes no memory.
#[tactic(auto, unfolding(crate::specs::Texts::entry_text))]
pub fn entry_length<T: Entry>(kind: Kind, entry: &T) -> usize
    ensures same { result ≡ length (entry_text kind (T.shown entry.now) (T.options entry.now) (T.values entry.now)) }
    ensures bound { result ≤ 2 ^ 47 }
{
    // `add `, its newline, and `end` with its own.
    9 + kind.name().len()
        + settings_length(kind, entry)
        + options_line_length(entry.options())
        + limit_lines_length(entry.values())
}

/// Puts the texts of resources of one kind at the end of `out`. Where memory runs out, `out` has what it had, and perhaps
/// a front of the text.
pub fn push_entries<T: Entry>(
    out: &mut Vec<u8>,
    kind: Kind,
    entries: &[T],
) -> Result<(), AllocError>
    ensures { OnOk result (out.new.items ≡ out.old.items ++ flat_map (λ e. entry_text kind (T.shown e) (T.options e) (T.values e)) entries.now) }
{
    for entry in entries {
        push_entry(out, kind, entry)?;
    }
    Ok(())
}

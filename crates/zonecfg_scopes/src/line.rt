//! Lines that the editor shows, each without its newline, and those of an export text.
ghost use Rattle.std.specs.Prelude.{◌≡◌, ◌++◌, [], ◌∷◌, IfOk, OnOk};
ghost use Rattle.std.specs.List.{flat_map};
ghost use Rattle.zn_base.specs.Lines.{lines_of};
ghost use Rattle.zone_config.specs.Export.{export_text};

use std::alloc::{AllocError, Global};
use zn_base::{Bytes, Listing, lines, push_pieces};
use zone_config::{ZoneConfig, export};

fn line_of(alloc: Global, pieces: &[&[u8]]) -> Result<Bytes, AllocError>
    ensures { IfOk result (λ line. line ≡ flat_map (λ p. p.now) pieces.now) }
{
    let mut bytes = Vec::new(alloc);
    push_pieces(&mut bytes, pieces)?;
    Ok(Bytes::from_vec(bytes))
}

/// Puts a line of some pieces, one after another, last.
pub(crate) fn push_line(
    alloc: Global,
    out: &mut Listing<Bytes>,
    pieces: &[&[u8]],
) -> Result<(), AllocError>
    ensures { OnOk result (out.new ≡ out.old ++ flat_map (λ p. p.now) pieces.now ∷ []) }
{
    out.push(line_of(alloc, pieces)?)?;
    Ok(())
}

/// The lines of the export text of a configuration.
pub(crate) fn export_lines(alloc: Global, config: &ZoneConfig) -> Result<Listing<Bytes>, AllocError>
    ensures { IfOk result (λ lines. lines ≡ lines_of (export_text config.now)) }
{
    match export(alloc, config) {
        Ok(text) => lines(alloc, &text),
        // Memory is all that an export text can want.
        Err(_) => Err(AllocError),
    }
}

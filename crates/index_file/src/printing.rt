//! The index text, printed.
ghost use Rattle.std.specs.Prelude.{◌≡◌, ◌++◌, ◌∷◌, All, IfErr, IfOk, IsTrue, OnOk};
ghost use Rattle.zn_base.specs.States.{is_stored};
ghost use Rattle.index_file.specs.declared.fault.IndexFault.TheVariants.{Memory};
ghost use Rattle.index_file.specs.Index.{colon, escaped, escaped_byte, index_text, is_escaped_byte, line_text, IsIndex, IsIndexRow, NamesDiffer};

use crate::{IndexFault, IndexRow};
use std::alloc::{AllocError, Global};
use uuid_text::push_uuid;

fn is_escaped_byte(byte: u8) -> bool
    ensures { result ≡ is_escaped_byte byte }
{
    byte == b':' || byte == b'\\'
}

fn push_escaped_byte(out: &mut Vec<u8>, byte: u8) -> Result<(), AllocError>
    ensures { OnOk result (out.new.items ≡ out.old.items ++ escaped_byte byte) }
{
    if is_escaped_byte(byte) {
        out.push(b'\\')?;
    }
    out.push(byte)?;
    Ok(())
}

/// Puts a path after what is there, with a backslash before each colon and each backslash. Where memory runs out,
/// what is there has a front of it after it.
pub fn push_escaped(out: &mut Vec<u8>, path: &[u8]) -> Result<(), AllocError>
    ensures { OnOk result (out.new.items ≡ out.old.items ++ escaped path.now) }
{
    for byte in path {
        push_escaped_byte(out, *byte)?;
    }
    Ok(())
}

fn push_field(out: &mut Vec<u8>, field: &[u8]) -> Result<(), AllocError>
    ensures { OnOk result (out.new.items ≡ out.old.items ++ colon ∷ field.now) }
{
    out.push(b':')?;
    out.extend_from_slice(field)
}

/// Appends the line of a row.
#[tactic(auto, unfolding(crate::specs::Index::line_text))]
pub(crate) fn push_line(out: &mut Vec<u8>, row: &IndexRow) -> Result<(), AllocError>
    ensures text { OnOk result (out.new.items ≡ out.old.items ++ line_text row.now) }
    ensures row { OnOk result (IsTrue (is_stored row.now.state) → IsIndexRow row.now) }
{
    out.extend_from_slice(row.name.bytes())?;
    push_field(out, row.state.text())?;
    out.push(b':')?;
    push_escaped(out, row.path.bytes())?;
    out.push(b':')?;
    push_uuid(out, row.uuid)?;
    out.push(b'\n')?;
    Ok(())
}

/// The index text of some zones, in their order: one line `NAME:STATE:PATH:UUID` for each. In PATH a
/// backslash stands before each colon and each backslash; UUID is hyphenated, in lower case.
pub fn print_index(alloc: Global, rows: &[IndexRow]) -> Result<Vec<u8>, IndexFault>
    requires stored { All (λ row. IsTrue (is_stored row.state)) rows.now }
    requires names { NamesDiffer rows.now }
    ensures text { IfOk result (λ text. text.items ≡ index_text rows.now) }
    ensures index { OnOk result (IsIndex rows.now) }
    ensures memory { IfErr result (λ fault. fault ≡ Memory) }
{
    let mut text = Vec::new(alloc);
    for row in rows {
        push_line(&mut text, row)?;
    }
    Ok(text)
}

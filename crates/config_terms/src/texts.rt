//! Values and settings as an export text has them, and how long they are.
ghost use Rattle.std.specs.Prelude.{◌≡◌, ◌+◌, ◌≤◌, ◌++◌, length, OnOk, IsTrue};
ghost use Rattle.std.specs.List.{list_all, flat_map};
ghost use Rattle.config_terms.specs.Texts.{is_bare_byte, value_text, setting, joined};

use crate::rules::is_alphanumeric;
use std::alloc::AllocError;
use zn_base::Text;

/// The bytes of a text, of which there are at most 4,200.
#[tactic(auto, using(crate::proofs::Short::text_short))]
pub fn bytes_of(text: &Text) -> &[u8]
    ensures same { result.now ≡ text.now }
    ensures short { length result.now ≤ 4200 }
{
    text.bytes()
}

fn is_bare_byte(byte: u8) -> bool
    ensures { result ≡ is_bare_byte byte }
{
    is_alphanumeric(byte)
        || matches!(
            byte,
            b'_' | b'-' | b'.' | b'/' | b':' | b',' | b'*' | b'?' | b'!' | b'@' | b'+' | b'%'
        )
}

fn is_bare(value: &[u8]) -> bool
    ensures { result ≡ list_all is_bare_byte value.now }
{
    value.iter().all(|byte| is_bare_byte(*byte))
}

fn push_value(out: &mut Vec<u8>, value: &[u8]) -> Result<(), AllocError>
    ensures { OnOk result (out.new.items ≡ out.old.items ++ value_text value.now) }
{
    if is_bare(value) {
        return out.extend_from_slice(value);
    }
    out.push(b'"')?;
    out.extend_from_slice(value)?;
    out.push(b'"')?;
    Ok(())
}

fn value_length(value: &[u8]) -> usize
    requires { length value.now ≤ 4200 }
    ensures same { result ≡ length (value_text value.now) }
    ensures bound { result ≤ 4202 }
{
    if is_bare(value) {
        value.len()
    } else {
        value.len() + 2
    }
}

/// Puts the line `set NAME=VALUE` at the end of `out`, where the value is not empty: an empty one is a property
/// that is not set. A value prints bare where each of its bytes may stand so, and else in double quotes. Where
/// memory runs out, `out` has what it had, and perhaps a front of the text.
#[tactic(auto, unfolding(crate::specs::Texts::setting))]
pub fn push_setting(out: &mut Vec<u8>, name: &[u8], value: &[u8]) -> Result<(), AllocError>
    ensures { OnOk result (out.new.items ≡ out.old.items ++ setting name.now value.now) }
{
    if value.is_empty() {
        return Ok(());
    }
    out.extend_from_slice(b"set ")?;
    out.extend_from_slice(name)?;
    out.extend_from_slice(b"=")?;
    push_value(out, value)?;
    out.push(b'\n')?;
    Ok(())
}

/// How many bytes that line has. It takes no memory.
#[tactic(auto, unfolding(crate::specs::Texts::setting))]
pub fn setting_length(name: &[u8], value: &[u8]) -> usize
    requires name { length name.now ≤ 100 }
    requires value { length value.now ≤ 4200 }
    ensures same { result ≡ length (setting name.now value.now) }
    ensures bound { result ≤ 4308 }
{
    if value.is_empty() {
        return 0;
    }
    // `set `, `=` and the newline.
    6 + name.len() + value_length(value)
}

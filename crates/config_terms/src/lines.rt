//! The lines of lists, and how long they are.
ghost use Rattle.std.specs.Prelude.{◌≡◌, ◌+◌, ◌*◌, ◌^◌, ◌≤◌, ◌++◌, ◌∷◌, length, OnOk};
ghost use Rattle.std.specs.List.{flat_map};
ghost use Rattle.config_terms.specs.Texts.{action, limit_text, limit_line, limit_lines, bracketed, bracketed_line, options_text, options_line};

use crate::Limit;
use crate::texts::bytes_of;
use itoa::Buffer;
use std::alloc::AllocError;
use zn_base::{Text, push_pieces};

fn action(deny: bool) -> &'static [u8]
    ensures { result.now ≡ action deny }
{
    if deny { b"deny" } else { b"none" }
}

/// Puts a value of an rctl at the end of `out`: `(priv=privileged,limit=N,action=A)`. Where memory runs out, `out` has
/// what it had, and perhaps a front of the text.
#[tactic(auto, unfolding(crate::specs::Texts::limit_text))]
pub fn push_limit(out: &mut Vec<u8>, value: Limit) -> Result<(), AllocError>
    ensures { OnOk result (out.new.items ≡ out.old.items ++ limit_text value) }
{
    let mut digits = Buffer::new();
    let limit = digits.format(value.limit).as_bytes();
    push_pieces(
        out,
        &[
            b"(priv=privileged,limit=",
            limit,
            b",action=",
            action(value.deny),
            b")",
        ],
    )
}

#[tactic(auto, unfolding(crate::specs::Texts::limit_text))]
fn limit_length(value: Limit) -> usize
    ensures same { result ≡ length (limit_text value) }
    ensures bound { result ≤ 100 }
{
    let mut digits = Buffer::new();
    // All but the number: `(priv=privileged,limit=`, `,action=`, four letters and `)`.
    36 + digits.format(value.limit).as_bytes().len()
}

#[tactic(auto, unfolding(crate::specs::Texts::limit_line))]
fn push_limit_line(out: &mut Vec<u8>, value: Limit) -> Result<(), AllocError>
    ensures { OnOk result (out.new.items ≡ out.old.items ++ limit_line value) }
{
    out.extend_from_slice(b"add value ")?;
    push_limit(out, value)?;
    out.push(b'\n')?;
    Ok(())
}

#[tactic(auto, unfolding(crate::specs::Texts::limit_line))]
fn limit_line_length(value: Limit) -> usize
    ensures same { result ≡ length (limit_line value) }
    ensures bound { result ≤ 111 }
{
    // `add value ` and the newline.
    11 + limit_length(value)
}

#[tactic(auto, unfolding(crate::specs::Texts::limit_lines))]
pub(crate) fn push_limit_lines(out: &mut Vec<u8>, values: &[Limit]) -> Result<(), AllocError>
    ensures { OnOk result (out.new.items ≡ out.old.items ++ limit_lines values.now) }
{
    for value in values {
        push_limit_line(out, *value)?;
    }
    Ok(())
}

#[tactic(auto, unfolding(crate::specs::Texts::limit_lines))]
pub(crate) fn limit_lines_length(values: &[Limit]) -> usize
    requires { length values.now ≤ 4294967295 }
    ensures same { result ≡ length (limit_lines values.now) }
    ensures bound { result ≤ 2 ^ 40 }
{
    let mut total = 0;
    for value in values {
        total += limit_line_length(*value);
    }
    total
}

fn push_more_options(out: &mut Vec<u8>, options: &[Text]) -> Result<(), AllocError>
    ensures { OnOk result (out.new.items ≡ out.old.items ++ flat_map (λ o. 44 ∷ o) options.now) }
{
    for option in options {
        out.push(b',')?;
        out.extend_from_slice(option.bytes())?;
    }
    Ok(())
}

fn more_options_length(options: &[Text]) -> usize
    requires { length options.now ≤ 4294967295 }
    ensures same { result ≡ length (flat_map (λ o. 44 ∷ o) options.now) }
    ensures bound { result ≤ 4294967295 * 4201 }
{
    let mut total = 0;
    for option in options {
        total += 1 + bytes_of(option).len();
    }
    total
}

fn push_bracketed(out: &mut Vec<u8>, first: &[u8], more: &[Text]) -> Result<(), AllocError>
    ensures { OnOk result (out.new.items ≡ out.old.items ++ bracketed first.now more.now) }
{
    out.push(b'[')?;
    out.extend_from_slice(first)?;
    push_more_options(out, more)?;
    out.push(b']')?;
    Ok(())
}

/// Puts options at the end of `out`: `[a,b]`. Where memory runs out, `out` has what it had, and perhaps a front of the
/// text.
#[tactic(auto, unfolding(crate::specs::Texts::options_text))]
pub fn push_options(out: &mut Vec<u8>, options: &[Text]) -> Result<(), AllocError>
    ensures { OnOk result (out.new.items ≡ out.old.items ++ options_text options.now) }
{
    let [first, more @ ..] = options else {
        out.extend_from_slice(b"[]")?;
        return Ok(());
    };
    push_bracketed(out, first.bytes(), more)
}

fn push_bracketed_line(out: &mut Vec<u8>, first: &[u8], more: &[Text]) -> Result<(), AllocError>
    ensures { OnOk result (out.new.items ≡ out.old.items ++ bracketed_line first.now more.now) }
{
    out.extend_from_slice(b"add options ")?;
    push_bracketed(out, first, more)?;
    out.push(b'\n')?;
    Ok(())
}

#[tactic(auto, unfolding(crate::specs::Texts::options_line))]
pub(crate) fn push_options_line(out: &mut Vec<u8>, options: &[Text]) -> Result<(), AllocError>
    ensures { OnOk result (out.new.items ≡ out.old.items ++ options_line options.now) }
{
    let [first, more @ ..] = options else {
        return Ok(());
    };
    push_bracketed_line(out, first.bytes(), more)
}

#[tactic(auto, unfolding(crate::specs::Texts::options_line))]
pub(crate) fn options_line_length(options: &[Text]) -> usize
    requires { length options.now ≤ 4294967295 }
    ensures same { result ≡ length (options_line options.now) }
    ensures bound { result ≤ 2 ^ 46 }
{
    let [first, more @ ..] = options else {
        return 0;
    };
    // `add options `, two brackets and the newline.
    15 + bytes_of(first).len() + more_options_length(more)
}

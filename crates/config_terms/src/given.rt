//! What a value gives to a list.
ghost use Rattle.std.specs.Prelude.{◌≡◌, IfOk, IsTrue};
ghost use Rattle.std.specs.Option.{option_copied};
ghost use Rattle.config_terms.specs.declared.rules.Rule.TheVariants.{RootedPath};
ghost use Rattle.config_terms.specs.Rules.{fits};
ghost use Rattle.config_terms.specs.Edits.{kept_path, option_texts, options_given, is_pair, is_action, are_limit_pairs, limit_of_pairs, limit_of, limit_given};

use crate::Limit;
use crate::allowed::are_options;
use crate::lists::ListEdit;
use std::alloc::{AllocError, Global};
use std::slice::from_ref;
use zn_base::{AbsPath, Pair, Text, Value, read_decimal};

fn option_texts(texts: &[Text]) -> Option<&[Text]>
    ensures { option_copied result ≡ option_texts texts.now }
{
    if are_options(texts) {
        Some(texts)
    } else {
        None
    }
}

/// The options that a value gives. An empty text gives none where they are put.
pub(crate) fn options_given(edit: ListEdit, value: &Value) -> Option<&[Text]>
    ensures { option_copied result ≡ options_given edit value.now }
{
    match value {
        Value::Simple(text) => match edit {
            ListEdit::Put if text.bytes().is_empty() => Some(&[]),
            _ => option_texts(from_ref(text)),
        },
        Value::List(texts) => option_texts(texts.as_slice()),
        Value::Complex(_) => None,
    }
}

fn is_pair(name: &[u8], value: &[u8], pair: &Pair) -> bool
    ensures { result ≡ is_pair name.now value.now pair.now }
{
    pair.name.bytes() == name && pair.value.bytes() == value
}

fn is_action(pair: &Pair) -> bool
    ensures { result ≡ is_action pair.now }
{
    is_pair(b"action", b"deny", pair) || is_pair(b"action", b"none", pair)
}

fn limit_of_pairs(privilege: &Pair, limit: &Pair, action: &Pair) -> Option<Limit>
    ensures { result ≡ limit_of_pairs privilege.now limit.now action.now }
{
    if !is_pair(b"priv", b"privileged", privilege)
        || limit.name.bytes() != b"limit".as_slice()
        || !is_action(action)
    {
        return None;
    }
    let number = read_decimal(limit.value.bytes(), u64::MAX)?;
    Some(Limit {
        limit: number,
        deny: action.value.bytes() == b"deny".as_slice(),
    })
}

fn limit_of(pairs: &[Pair]) -> Option<Limit>
    ensures { result ≡ limit_of pairs.now }
{
    match pairs {
        [privilege, limit, action] => limit_of_pairs(privilege, limit, action),
        _ => None,
    }
}

/// The value of an rctl that a value gives: exactly `(priv=privileged,limit=N,action=A)`.
pub(crate) fn limit_given(value: &Value) -> Option<Limit>
    ensures { result ≡ limit_given value.now }
{
    match value {
        Value::Complex(pairs) => limit_of(pairs.as_slice()),
        Value::Simple(_) | Value::List(_) => None,
    }
}

/// The path that a text is: none where it is empty.
pub fn path_kept(alloc: Global, text: &[u8]) -> Result<Option<AbsPath>, AllocError>
    requires { IsTrue (fits RootedPath text.now) }
    ensures { IfOk result (λ path. path ≡ kept_path text.now) }
{
    if text.is_empty() {
        return Ok(None);
    }
    Ok(Some(AbsPath::of(alloc, text)?))
}

//! The command that a line may say.
ghost use Rattle.std.specs.Prelude.{◌≡◌, ◌==◌, [], position, IfOk, None, Some, if◌then◌else◌, option_copied};
ghost use Rattle.std.specs.List.{after_first, before_first, list_all, slice_split};
ghost use Rattle.zn_base.specs.Text.{is_text};
ghost use Rattle.export_read.specs.Reading.{behind, command_of, is_comma, limit_of, opening_of, options_of, set_of, setting_of, texts_among, unquoted, without_last};

use crate::command::Command;
use config_terms::{Kind, Limit};
use std::alloc::{AllocError, Global};
use zn_base::{Listing, Text, TextFault, read_decimal};

fn behind<'a>(line: &'a [u8], front: &[u8]) -> Option<&'a [u8]>
    ensures { option_copied result ≡ behind front.now line.now }
{
    line.strip_prefix(front)
}

fn place_of(bytes: &[u8], byte: u8) -> Option<usize>
    ensures { result ≡ position (λ b. b == byte) bytes.now }
{
    bytes.iter().position(|b| *b == byte)
}

// What stands before the first such byte, and what follows it.
fn cut(bytes: &[u8], byte: u8) -> (&[u8], &[u8])
    ensures before { result.0.now ≡ before_first (λ b. b == byte) bytes.now }
    ensures after { result.1.now ≡ after_first (λ b. b == byte) bytes.now }
{
    match place_of(bytes, byte) {
        Some(place) => (&bytes[..place], &bytes[place + 1..]),
        None => (bytes, b""),
    }
}

fn without_last(bytes: &[u8]) -> &[u8]
    ensures { result.now ≡ without_last bytes.now }
{
    if bytes.is_empty() {
        return bytes;
    }
    &bytes[..bytes.len() - 1]
}

fn unquoted(value: &[u8]) -> &[u8]
    ensures { result.now ≡ unquoted value.now }
{
    match value {
        [b'"', rest @ ..] => without_last(rest),
        _ => value,
    }
}

fn text(alloc: Global, bytes: &[u8]) -> Result<Option<Text>, AllocError>
    ensures { IfOk result (λ text. text ≡ (if is_text bytes.now then Some bytes.now else None)) }
{
    match Text::read(alloc, bytes) {
        Ok(text) => Ok(Some(text)),
        Err(TextFault::Memory) => Err(AllocError),
        Err(TextFault::BadText(_)) => Ok(None),
        Err(TextFault::TextLong) => Ok(None),
    }
}

fn set_of(alloc: Global, name: &[u8], value: &[u8]) -> Result<Option<Command>, AllocError>
    ensures { IfOk result (λ command. command ≡ set_of name.now value.now) }
{
    let Some(name) = text(alloc, name)? else {
        return Ok(None);
    };
    let Some(value) = text(alloc, value)? else {
        return Ok(None);
    };
    Ok(Some(Command::Set(name, value)))
}

fn setting_of(alloc: Global, bytes: &[u8]) -> Result<Option<Command>, AllocError>
    ensures { IfOk result (λ command. command ≡ setting_of bytes.now) }
{
    let (name, value) = cut(bytes, b'=');
    set_of(alloc, name, unquoted(value))
}

fn opening_of(name: &[u8]) -> Option<Command>
    ensures { result ≡ opening_of name.now }
{
    match Kind::with_name(name) {
        Some(kind) => Some(Command::Open(kind)),
        None => None,
    }
}

// The options that the pieces between commas are, if each is a text.
fn texts_of(alloc: Global, bytes: &[u8]) -> Result<Option<Listing<Text>>, AllocError>
    ensures { IfOk result (λ texts. texts ≡ texts_among (slice_split is_comma bytes.now)) }
{
    let mut texts = Listing::new(alloc);
    for piece in bytes.split(|b| *b == b',') {
        let Some(option) = text(alloc, piece)? else {
            return Ok(None);
        };
        texts.push(option)?;
    }
    Ok(Some(texts))
}

fn options_of(alloc: Global, bytes: &[u8]) -> Result<Option<Command>, AllocError>
    ensures { IfOk result (λ command. command ≡ options_of bytes.now) }
{
    match texts_of(alloc, without_last(bytes))? {
        Some(options) => Ok(Some(Command::Options(options))),
        None => Ok(None),
    }
}

fn limit_of(bytes: &[u8]) -> Option<Command>
    ensures { result ≡ limit_of bytes.now }
{
    let (number, action) = cut(bytes, b',');
    let limit = read_decimal(number, u64::MAX)?;
    let deny = action == b"action=deny)".as_slice();
    Some(Command::Value(Limit { limit, deny }))
}

/// The command that a line says, if it says one.
#[tactic(auto, unfolding(crate::specs::Reading::command_of))]
pub fn command_of(alloc: Global, line: &[u8]) -> Result<Option<Command>, AllocError>
    ensures { IfOk result (λ command. command ≡ command_of line.now) }
{
    if line == b"create -b".as_slice() {
        return Ok(Some(Command::Create));
    }
    if line == b"end".as_slice() {
        return Ok(Some(Command::End));
    }
    if let Some(rest) = behind(line, b"set ") {
        return setting_of(alloc, rest);
    }
    if let Some(rest) = behind(line, b"add options [") {
        return options_of(alloc, rest);
    }
    if let Some(rest) = behind(line, b"add value (priv=privileged,limit=") {
        return Ok(limit_of(rest));
    }
    match behind(line, b"add ") {
        Some(rest) => Ok(opening_of(rest)),
        None => Ok(None),
    }
}

//! What a line of zlogin(1) asks for, and the zone that it names.
ghost use Rattle.std.specs.Prelude.{◌≡◌, List, false, ℕ};
ghost use Rattle.std.specs.Option.{option_map};
ghost use Rattle.zone_cases.specs.Session.Lines.{attended_command, byte_word, console_command, entered_command, escape_byte, escape_words, is_escape_option, named, past_spaces, past_word, words, zlogin_command, zlogin_zone};
ghost use Rattle.zone_cases.specs.Code.Lines.{as_command, as_escape, as_word};

use crate::session::lines::{Command, at_end};
use crate::session::words::{after_spaces, behind_word, first_word, is_blank, split_word};

// The escape byte where no option says otherwise.
const USUAL_ESCAPE: Option<u8> = Some(b'~');

// One byte.
fn byte_word(word: &[u8]) -> Option<u8>
    ensures { result ≡ byte_word word.now }
{
    match word {
        [byte] => Some(*byte),
        _ => None,
    }
}

// The escape byte that follows `-e`, and the text after it.
fn escape_byte(text: &[u8]) -> Option<(Option<u8>, &[u8])>
    ensures { option_map as_escape result ≡ escape_byte (words text.now) }
{
    let (word, text) = split_word(text)?;
    Some((Some(byte_word(word)?), text))
}

// The escape byte, by `-e C`, `-E` or neither, and the text after that.
fn escape_words(text: &[u8]) -> Option<(Option<u8>, &[u8])>
    ensures { option_map as_escape result ≡ escape_words (words text.now) }
{
    let Some((word, rest)) = split_word(text) else {
        return Some((USUAL_ESCAPE, text));
    };
    if word == b"-E".as_slice() {
        Some((None, rest))
    } else if word == b"-e".as_slice() {
        escape_byte(rest)
    } else {
        Some((USUAL_ESCAPE, text))
    }
}

// A name, and no more.
fn named<'t>(command: Command<'t>, text: &[u8]) -> Option<Command<'t>>
    ensures { option_map as_command result ≡ named (as_command command.entry) (words text.now) }
{
    let (_, text) = split_word(text)?;
    at_end(text, command)
}

// What follows `zlogin -C`.
fn console_command(text: &[u8]) -> Option<Command<'_>>
    ensures { option_map as_command result ≡ console_command (words text.now) }
{
    let (escape, text) = escape_words(text)?;
    named(Command::Console(escape), text)
}

// What follows `zlogin` where that is an option which says the escape byte.
fn attended_command(text: &[u8]) -> Option<Command<'_>>
    ensures { option_map as_command result ≡ attended_command (words text.now) }
{
    let (escape, text) = escape_words(text)?;
    let (word, text) = split_word(text)?;
    if word == b"-C".as_slice() {
        named(Command::Console(escape), text)
    } else {
        at_end(text, Command::Login(escape))
    }
}

// What follows the name: nothing, or a call.
fn entered_command(text: &[u8]) -> Command<'_>
    ensures { as_command result ≡ entered_command (past_spaces text.now) (words text.now) }
{
    match after_spaces(text) {
        Some(text) => Command::Enter(text),
        None => Command::Login(USUAL_ESCAPE),
    }
}

fn is_escape_option(word: &[u8]) -> bool
    ensures { result ≡ is_escape_option word.now }
{
    word == b"-E".as_slice() || word == b"-e".as_slice()
}

/// What follows `zlogin` in a line.
pub(crate) fn zlogin_command(text: &[u8]) -> Option<Command<'_>>
    ensures { (line : List ℕ) → text.now ≡ past_word line → option_map as_command result ≡ zlogin_command line (words text.now) }
{
    let (word, rest) = split_word(text)?;
    if word == b"-C".as_slice() {
        console_command(rest)
    } else if is_escape_option(word) {
        attended_command(text)
    } else {
        Some(entered_command(rest))
    }
}

/// What is the name behind `zlogin`: the first word that is no option, nor the one behind `-e`.
pub(crate) fn zlogin_zone(text: &[u8]) -> Option<&[u8]>
    ensures { as_word result ≡ zlogin_zone false (words text.now) }
{
    let mut text = text;
    while let Some((word, rest)) = split_word(text) {
        if word == b"-e".as_slice() {
            let (_, rest) = split_word(rest)?;
            text = rest;
        } else if word == b"-C".as_slice() || word == b"-E".as_slice() {
            text = rest;
        } else {
            return Some(word);
        }
    }
    None
}

//! How a line of a session is read, by the words of zonecfg(8), zoneadm(8), zlogin(1) and kill(1).
ghost use Rattle.std.specs.Prelude.{◌∷◌, ◌≡◌, IsTrue};
ghost use Rattle.std.specs.List.{list_all};
ghost use Rattle.std.specs.Option.{option_map, option_or};
ghost use Rattle.zoneadmd_steps.specs.declared.requests.Request.TheVariants.{Boot, Reboot};
ghost use Rattle.zn_base.specs.Text.{is_text};
ghost use Rattle.zone_cases.specs.Session.Lines.{Ask, are_args, are_options, args_text, asks, at_end, clone_command, command_by, command_of, dir_words, form_by, form_word, general_command, general_subcommand, has_option, is_option, joined, kill_command, line_of, list_one_command, list_zones_command, mark_command, move_command, move_path, options_of, options_word, past_spaces, past_word, request_command, request_word, subcommand, tool_command, uninstall_command, words, zone_command, zone_word, zoneadm_command, zonecfg_command};
ghost use Rattle.zone_cases.specs.Code.Lines.{IsRightLine, as_command, as_line, as_word};

use crate::session::listing::{Form, Options};
use crate::session::words::{
    after_spaces, behind_word, first_word, is_blank, split_word, word_after_flag,
};
use crate::session::zlogin_lines::{zlogin_command, zlogin_zone};
use kernel_objects::Signal;
use process_calls::{pid_in, signal_in};
use zn_base::is_path;
use zoneadmd_steps::RequestKind;

/// What a line asks for.
#[derive(Clone, Copy)]
pub enum Command<'t> {
    Blank,
    /// The session edits the zone from now on, by zonecfg(8).
    Edit,
    /// These subcommands of zonecfg(8) are said to an editor of their own.
    Zonecfg(&'t [u8]),
    /// The zone's daemon is asked for something that has no contents.
    Request(RequestKind),
    /// It is asked to boot the zone, with the words of this text as arguments.
    Boot(&'t [u8]),
    Reboot(&'t [u8]),
    /// It is asked to move the zone to this path.
    Move(&'t [u8]),
    /// It is asked to make the zone a copy of another, by the word that names that one.
    Clone(&'t [u8]),
    /// It would be asked to uninstall the zone, but `-F` is missing.
    Unforced,
    /// A signal is sent to the process of a number, whichever zone has it, by kill(1).
    Kill(Signal, u32),
    /// The global zone holds the mount at this directory.
    Hold(&'t [u8]),
    /// The global zone holds the mount at this directory no more.
    Release(&'t [u8]),
    /// By zlogin(1), the session is logged in, with this escape byte or none.
    Login(Option<u8>),
    /// It has the zone's console.
    Console(Option<u8>),
    /// A process enters the zone, makes the call that this text spells, and goes.
    Enter(&'t [u8]),
    /// It is told what zoneadm(8) can be asked for.
    Help,
    /// The zone's stored configuration is looked at.
    Verify,
    /// The zone is told of in this form, and no other.
    ListOne(Form),
    /// The zones are told of that the options say.
    ListZones(Options),
    Unknown,
}

/// A line, the word that it gives as the name of its zone, and what it asks for where its session is idle.
#[derive(Clone, Copy)]
pub struct Line<'t> {
    pub text: &'t [u8],
    pub zone: Option<&'t [u8]>,
    pub command: Command<'t>,
}

/// What ends a line's words.
pub(crate) fn at_end<'t>(text: &[u8], command: Command<'t>) -> Option<Command<'t>>
    ensures { option_map as_command result ≡ at_end (as_command command.entry) (words text.now) }
{
    if is_blank(text) { Some(command) } else { None }
}

// Subcommands, where some word is left.
fn zonecfg_command(text: &[u8]) -> Command<'_>
    ensures { as_command result ≡ zonecfg_command (past_spaces text.now) (words text.now) }
{
    match after_spaces(text) {
        Some(text) => Command::Zonecfg(text),
        None => Command::Edit,
    }
}

// A request that is one word.
fn request_word(word: &[u8]) -> Option<RequestKind>
    ensures { option_map asks result ≡ option_map Ask (request_word word.now) }
{
    if word == b"install".as_slice() {
        Some(RequestKind::Install)
    } else if word == b"attach".as_slice() {
        Some(RequestKind::Attach)
    } else if word == b"detach".as_slice() {
        Some(RequestKind::Detach)
    } else if word == b"ready".as_slice() {
        Some(RequestKind::Ready)
    } else if word == b"halt".as_slice() {
        Some(RequestKind::Halt)
    } else {
        None
    }
}

// `uninstall` wants `-F`.
fn uninstall_command(text: &[u8]) -> Option<Command<'_>>
    ensures { option_map as_command result ≡ uninstall_command (words text.now) }
{
    let Some((word, text)) = split_word(text) else {
        return Some(Command::Unforced);
    };
    if word == b"-F".as_slice() {
        at_end(text, Command::Request(RequestKind::Uninstall))
    } else {
        None
    }
}

// `mark incomplete`.
fn mark_command(text: &[u8]) -> Option<Command<'_>>
    ensures { option_map as_command result ≡ mark_command (words text.now) }
{
    let text = behind_word(text, b"incomplete")?;
    at_end(text, Command::Request(RequestKind::Mark))
}

// A path other than `/`.
fn move_path(word: &[u8]) -> Option<&[u8]>
    ensures { as_word result ≡ move_path word.now }
{
    if is_path(word) && word != b"/".as_slice() {
        Some(word)
    } else {
        None
    }
}

// `move PATH`.
fn move_command(text: &[u8]) -> Option<Command<'_>>
    ensures { option_map as_command result ≡ move_command (words text.now) }
{
    let (word, text) = split_word(text)?;
    let path = move_path(word)?;
    at_end(text, Command::Move(path))
}

// `clone SOURCE`.
fn clone_command(text: &[u8]) -> Option<Command<'_>>
    ensures { option_map as_command result ≡ clone_command (words text.now) }
{
    let (word, text) = split_word(text)?;
    at_end(text, Command::Clone(word))
}

// Whether these are options of a boot, by those that may still come: `-s`, `-i PATH`, `-m WORD`.
fn are_args(single: bool, init: bool, milestone: bool, text: &[u8]) -> bool
    ensures { result ≡ are_args single init milestone (words text.now) }
{
    let Some((word, rest)) = split_word(text) else {
        return true;
    };
    if word == b"-s".as_slice() {
        return single && are_args(false, init, milestone, rest);
    }
    let Some((other, rest)) = split_word(rest) else {
        return false;
    };
    if word == b"-i".as_slice() {
        init && is_path(other) && are_args(single, false, milestone, rest)
    } else if word == b"-m".as_slice() {
        milestone && are_args(single, init, false, rest)
    } else {
        false
    }
}

// The options of a boot, after `--`, or no words.
fn args_text(text: &[u8]) -> Option<&[u8]>
    ensures { option_map (λ args. joined (words args.now)) result ≡ args_text (words text.now) }
{
    let Some((word, rest)) = split_word(text) else {
        return Some(text);
    };
    if word == b"--".as_slice() && are_args(true, true, true, rest) {
        Some(rest)
    } else {
        None
    }
}

fn boot_command(text: &[u8]) -> Option<Command<'_>>
    ensures { option_map as_command result ≡ option_map (λ args. Ask (Boot args)) (args_text (words text.now)) }
{
    Some(Command::Boot(args_text(text)?))
}

fn reboot_command(text: &[u8]) -> Option<Command<'_>>
    ensures { option_map as_command result ≡ option_map (λ args. Ask (Reboot args)) (args_text (words text.now)) }
{
    Some(Command::Reboot(args_text(text)?))
}

// The request that a word and those after it are.
fn request_command<'t>(word: &[u8], text: &'t [u8]) -> Option<Command<'t>>
    ensures { option_map as_command result ≡ request_command word.now (words text.now) }
{
    if word == b"boot".as_slice() {
        boot_command(text)
    } else if word == b"reboot".as_slice() {
        reboot_command(text)
    } else if word == b"uninstall".as_slice() {
        uninstall_command(text)
    } else if word == b"mark".as_slice() {
        mark_command(text)
    } else if word == b"move".as_slice() {
        move_command(text)
    } else if word == b"clone".as_slice() {
        clone_command(text)
    } else {
        let kind = request_word(word)?;
        at_end(text, Command::Request(kind))
    }
}

// `-p` or `-v`.
fn form_word(word: &[u8]) -> Option<Form>
    ensures { result ≡ form_word word.now }
{
    if word == b"-p".as_slice() {
        Some(Form::Fields)
    } else if word == b"-v".as_slice() {
        Some(Form::Columns)
    } else {
        None
    }
}

// `list`, with `-p` or `-v` or neither.
fn list_one_command(text: &[u8]) -> Option<Command<'_>>
    ensures { option_map as_command result ≡ list_one_command (words text.now) }
{
    let Some((word, text)) = split_word(text) else {
        return Some(Command::ListOne(Form::Names));
    };
    let form = form_word(word)?;
    at_end(text, Command::ListOne(form))
}

// What only tells something, or a request.
fn subcommand<'t>(word: &[u8], text: &'t [u8]) -> Option<Command<'t>>
    ensures { option_map as_command result ≡ subcommand word.now (words text.now) }
{
    if word == b"help".as_slice() {
        at_end(text, Command::Help)
    } else if word == b"verify".as_slice() {
        at_end(text, Command::Verify)
    } else if word == b"list".as_slice() {
        list_one_command(text)
    } else {
        request_command(word, text)
    }
}

fn zoneadm_command(text: &[u8]) -> Option<Command<'_>>
    ensures { option_map as_command result ≡ zoneadm_command (words text.now) }
{
    let (word, text) = split_word(text)?;
    subcommand(word, text)
}

// A directory, and no more.
fn dir_words(text: &[u8]) -> Option<&[u8]>
    ensures { as_word result ≡ dir_words (words text.now) }
{
    let (word, text) = split_word(text)?;
    if is_path(word) && is_blank(text) {
        Some(word)
    } else {
        None
    }
}

fn tool_command<'t>(tool: &[u8], text: &'t [u8]) -> Option<Command<'t>>
    ensures { option_map as_command result ≡ tool_command (past_spaces text.now) tool.now (words text.now) }
{
    if tool == b"zonecfg".as_slice() {
        Some(zonecfg_command(text))
    } else if tool == b"zoneadm".as_slice() {
        zoneadm_command(text)
    } else if tool == b"fhold".as_slice() {
        Some(Command::Hold(dir_words(text)?))
    } else if tool == b"frelease".as_slice() {
        Some(Command::Release(dir_words(text)?))
    } else {
        None
    }
}

fn zone_command(text: &[u8]) -> Option<Command<'_>>
    ensures { option_map as_command result ≡ zone_command text.now (words text.now) }
{
    let (tool, text) = split_word(text)?;
    let text = behind_word(text, b"-z")?;
    let (_, text) = split_word(text)?;
    tool_command(tool, text)
}

// What follows `kill`.
fn kill_command(text: &[u8]) -> Option<Command<'_>>
    ensures { option_map as_command result ≡ kill_command (words text.now) }
{
    let (word, text) = split_word(text)?;
    let signal = signal_in(word)?;
    let (word, text) = split_word(text)?;
    let pid = pid_in(word)?;
    at_end(text, Command::Kill(signal, pid))
}

// The word that a line gives as the name of its zone.
fn zone_word(text: &[u8]) -> Option<&[u8]>
    ensures { as_word result ≡ zone_word (words text.now) }
{
    let (word, rest) = split_word(text)?;
    if word == b"zlogin".as_slice() {
        zlogin_zone(rest)
    } else {
        word_after_flag(text)
    }
}

fn is_option(byte: u8) -> bool
    ensures { result ≡ is_option byte }
{
    matches!(byte, b'c' | b'i' | b'n' | b'p' | b'v')
}

fn all_options(letters: &[u8]) -> bool
    ensures { result ≡ list_all is_option letters.now }
{
    letters.iter().all(|byte| is_option(*byte))
}

// `-` and letters, each of which is an option.
fn are_options(word: &[u8]) -> bool
    ensures { result ≡ are_options word.now }
{
    match word {
        [] => false,
        [first, letters @ ..] => *first == b'-' && !letters.is_empty() && all_options(letters),
    }
}

fn has_option(letter: u8, word: &[u8]) -> bool
    ensures { result ≡ has_option letter word.now }
{
    word.iter().any(|byte| *byte == letter)
}

// `-p` and `-v` exclude each other.
fn form_by(fields: bool, columns: bool) -> Option<Form>
    ensures { result ≡ form_by fields columns }
{
    match (fields, columns) {
        (false, false) => Some(Form::Names),
        (true, false) => Some(Form::Fields),
        (false, true) => Some(Form::Columns),
        (true, true) => None,
    }
}

fn options_of(word: &[u8], form: Form) -> Options
    ensures { result ≡ options_of word.now form }
{
    Options {
        configured: has_option(b'c', word),
        installed: has_option(b'i', word),
        no_global: has_option(b'n', word),
        form,
    }
}

fn options_word(word: &[u8]) -> Option<Options>
    ensures { result ≡ options_word word.now }
{
    if !are_options(word) {
        return None;
    }
    let form = form_by(has_option(b'p', word), has_option(b'v', word))?;
    Some(options_of(word, form))
}

// `list` of all zones.
fn list_zones_command(text: &[u8]) -> Option<Command<'_>>
    ensures { option_map as_command result ≡ list_zones_command (words text.now) }
{
    let Some((word, text)) = split_word(text) else {
        return Some(Command::ListZones(options_of(b"", Form::Names)));
    };
    let options = options_word(word)?;
    at_end(text, Command::ListZones(options))
}

fn general_subcommand<'t>(word: &[u8], text: &'t [u8]) -> Option<Command<'t>>
    ensures { option_map as_command result ≡ general_subcommand word.now (words text.now) }
{
    if word == b"help".as_slice() {
        at_end(text, Command::Help)
    } else if word == b"list".as_slice() {
        list_zones_command(text)
    } else {
        None
    }
}

// `zoneadm help` and `zoneadm list`, which name no zone.
fn general_command(text: &[u8]) -> Option<Command<'_>>
    ensures { option_map as_command result ≡ general_command (words text.now) }
{
    let text = behind_word(text, b"zoneadm")?;
    let (word, text) = split_word(text)?;
    general_subcommand(word, text)
}

// Of a line that names no zone, or else of one that does.
fn tool_line(text: &[u8]) -> Option<Command<'_>>
    ensures { option_map as_command result ≡ option_or (general_command (words text.now)) (zone_command text.now (words text.now)) }
{
    match general_command(text) {
        Some(command) => Some(command),
        None => zone_command(text),
    }
}

// By its first word.
fn command_by<'t>(word: &[u8], rest: &'t [u8], text: &'t [u8]) -> Option<Command<'t>>
    requires words { words text.now ≡ word.now ∷ words rest.now }
    requires past { rest.now ≡ past_word text.now }
    ensures { option_map as_command result ≡ command_by text.now word.now (words rest.now) }
{
    if word == b"kill".as_slice() {
        kill_command(rest)
    } else if word == b"zlogin".as_slice() {
        zlogin_command(rest)
    } else {
        tool_line(text)
    }
}

fn command_of(text: &[u8]) -> Command<'_>
    ensures { as_command result ≡ command_of text.now (words text.now) }
{
    match split_word(text) {
        Some((word, rest)) => command_by(word, rest, text).unwrap_or(Command::Unknown),
        None => Command::Blank,
    }
}

/// What a line says.
#[tactic(auto, unfolding(crate::specs::Session::Lines::line_of), using(crate::proofs::Right_lines::right_line, crate::proofs::Right_lines::short_line))]
#[inline(never)]
pub fn line_of(text: &[u8]) -> Line<'_>
    requires { IsTrue (is_text text.now) }
    ensures says { as_line result ≡ line_of text.now }
    ensures right { IsRightLine result }
{
    Line {
        text,
        zone: zone_word(text),
        command: command_of(text),
    }
}

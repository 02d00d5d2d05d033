//! The forms of subcommands.
ghost use Rattle.std.specs.Prelude.{◌≡◌, ◌≤◌, All, Ok, length};
ghost use Rattle.std.specs.List.{list_any};
ghost use Rattle.zn_base.specs.Answers.{AnswersUnless};
ghost use Rattle.zonecfg_lex.specs.Value.{IsReadable, value_of};
ghost use Rattle.zonecfg_scopes.specs.Forms.{add_of, alone, clear_of, command_of, create_of, force_of, form_of, info_of, matching_by, matching_of, names_list, remove_matching, remove_of, select_by, set_of, spelled_by};
ghost use Rattle.zonecfg_lex.specs.Tokens.{part_tokens_of};

use crate::EditFault;
use crate::command::{Command, ListProperty, Matching, Topic};
use crate::verb::Verb;
use crate::words::{are_pairs, behind_flag, first_value_missed, has_flag, said};
use config_terms::Kind;
use std::alloc::Global;
use zn_base::Pair;
use zonecfg_lex::{LexFault, Token, given_text, pairs, part_tokens, value};

fn alone<T: Drop>(tokens: &[Token], it: T) -> Result<T, EditFault>
    ensures { result ≡ alone tokens.now it }
{
    if tokens.is_empty() {
        Ok(it)
    } else {
        Err(EditFault::Usage)
    }
}

// `[-F]`: whether it is given.
fn force(line: &[u8], args: &[Token]) -> Result<bool, EditFault>
    requires { All (IsReadable line.now) args.now }
    ensures { result ≡ force_of line.now args.now }
{
    alone(behind_flag(line, args, b"-F"), has_flag(line, args, b"-F"))
}

// `create [-F] [-b]`
fn create(line: &[u8], args: &[Token]) -> Result<Command, EditFault>
    requires { All (IsReadable line.now) args.now }
    ensures { result ≡ create_of line.now args.now }
{
    let force = has_flag(line, args, b"-F");
    let rest = behind_flag(line, args, b"-F");
    let bare = has_flag(line, rest, b"-b");
    alone(
        behind_flag(line, rest, b"-b"),
        Command::Create { force, bare },
    )
}

// `add KIND`, `add options VALUE`, `add value VALUE`
fn add(alloc: Global, line: &[u8], args: &[Token]) -> Result<Command, EditFault>
    requires short { length line.now ≤ 4200 }
    requires readable { All (IsReadable line.now) args.now }
    ensures { AnswersUnless EditFault.Memory (add_of line.now args.now) result }
{
    let [first, rest @ ..] = args else {
        return Err(EditFault::Usage);
    };
    let word = said(line, *first);
    if let Some(list) = ListProperty::named(word) {
        return Ok(Command::Append(list, value(alloc, line, rest)?));
    }
    match Kind::with_name(word) {
        Some(kind) => alone(rest, Command::Add(kind)),
        None => Err(EditFault::Usage),
    }
}

// `clear NAME`
fn clear(alloc: Global, line: &[u8], args: &[Token]) -> Result<Command, EditFault>
    requires { All (IsReadable line.now) args.now }
    ensures { AnswersUnless EditFault.Memory (clear_of line.now args.now) result }
{
    match args {
        [name] if name.is_word() => Ok(Command::Clear(given_text(alloc, line, *name)?)),
        _ => Err(EditFault::Usage),
    }
}

// `set NAME=VALUE`
fn set(alloc: Global, line: &[u8], args: &[Token]) -> Result<Command, EditFault>
    requires short { length line.now ≤ 4200 }
    requires readable { All (IsReadable line.now) args.now }
    ensures { AnswersUnless EditFault.Memory (set_of line.now args.now) result }
{
    let [name, sign, rest @ ..] = args else {
        return Err(EditFault::Usage);
    };
    if !name.is_word() || !sign.is_equals() {
        return Err(EditFault::Usage);
    }
    let value = value(alloc, line, rest)?;
    Ok(Command::Set(given_text(alloc, line, *name)?, value))
}

// `info`, `info NAME`, `info KIND`
fn info(line: &[u8], args: &[Token]) -> Result<Command, EditFault>
    requires { All (IsReadable line.now) args.now }
    ensures { result ≡ info_of line.now args.now }
{
    match args {
        [] => Ok(Command::Info(Topic::Everything)),
        [name] => match Topic::named(said(line, *name)) {
            Some(topic) => Ok(Command::Info(topic)),
            None => Err(EditFault::Usage),
        },
        _ => Err(EditFault::Usage),
    }
}

fn names_list(pair: &Pair) -> bool
    ensures { result ≡ names_list pair.now }
{
    ListProperty::named(pair.name.bytes()).is_some()
}

fn name_a_list(pairs: &[Pair]) -> bool
    ensures { result ≡ list_any names_list pairs.now }
{
    pairs.iter().any(names_list)
}

// What follows the word of a kind, or another word, in a matching.
fn matching_by(
    alloc: Global,
    kind: Option<Kind>,
    line: &[u8],
    rest: &[Token],
) -> Result<Matching, EditFault>
    requires { All (IsReadable line.now) rest.now }
    ensures { AnswersUnless EditFault.Memory (matching_by kind line.now rest.now) result }
{
    let Some(kind) = kind else {
        return Err(EditFault::Usage);
    };
    if !are_pairs(rest) {
        return Err(EditFault::Usage);
    }
    let pairs = pairs(alloc, line, rest)?;
    if name_a_list(pairs.as_slice()) {
        return Err(EditFault::Usage);
    }
    Ok(Matching { kind, pairs })
}

// `KIND` and pairs `NAME=VALUE`, of which none names a list.
fn matching(alloc: Global, line: &[u8], args: &[Token]) -> Result<Matching, EditFault>
    requires { All (IsReadable line.now) args.now }
    ensures { AnswersUnless EditFault.Memory (matching_of line.now args.now) result }
{
    let [first, rest @ ..] = args else {
        return Err(EditFault::Usage);
    };
    if let Some(place) = first_value_missed(line.len(), rest) {
        return Err(EditFault::Lex(LexFault::NoValue(place)));
    }
    matching_by(alloc, Kind::with_name(said(line, *first)), line, rest)
}

// `select KIND` and one pair or more.
fn select(alloc: Global, line: &[u8], args: &[Token]) -> Result<Command, EditFault>
    requires { All (IsReadable line.now) args.now }
    ensures { AnswersUnless EditFault.Memory (select_by (matching_of line.now args.now)) result }
{
    let matching = matching(alloc, line, args)?;
    if matching.pairs.as_slice().is_empty() {
        return Err(EditFault::Usage);
    }
    Ok(Command::Select(matching))
}

// `remove [-F] KIND` and pairs.
fn remove_matching(alloc: Global, line: &[u8], args: &[Token]) -> Result<Command, EditFault>
    requires { All (IsReadable line.now) args.now }
    ensures { AnswersUnless EditFault.Memory (remove_matching line.now args.now) result }
{
    let force = has_flag(line, args, b"-F");
    let matching = matching(alloc, line, behind_flag(line, args, b"-F"))?;
    Ok(Command::Remove { force, matching })
}

// `remove options VALUE`, `remove value VALUE`, or a matching.
fn remove(alloc: Global, line: &[u8], args: &[Token]) -> Result<Command, EditFault>
    requires short { length line.now ≤ 4200 }
    requires readable { All (IsReadable line.now) args.now }
    ensures { AnswersUnless EditFault.Memory (remove_of line.now args.now) result }
{
    let [first, rest @ ..] = args else {
        return Err(EditFault::Usage);
    };
    match ListProperty::named(said(line, *first)) {
        Some(list) => Ok(Command::RemoveItem(list, value(alloc, line, rest)?)),
        None => remove_matching(alloc, line, args),
    }
}

#[tactic(auto, unfolding(crate::specs::Forms::form_of))]
fn form(alloc: Global, verb: Verb, line: &[u8], args: &[Token]) -> Result<Command, EditFault>
    requires short { length line.now ≤ 4200 }
    requires readable { All (IsReadable line.now) args.now }
    ensures { AnswersUnless EditFault.Memory (form_of verb line.now args.now) result }
{
    match verb {
        Verb::Add => add(alloc, line, args),
        Verb::Cancel => alone(args, Command::Cancel),
        Verb::Clear => clear(alloc, line, args),
        Verb::Commit => alone(args, Command::Commit),
        Verb::Create => create(line, args),
        Verb::Delete => Ok(Command::Delete {
            force: force(line, args)?,
        }),
        Verb::End => alone(args, Command::End),
        Verb::Exit => Ok(Command::Exit {
            force: force(line, args)?,
        }),
        Verb::Export => alone(args, Command::Export),
        Verb::Help => alone(args, Command::Help),
        Verb::Info => info(line, args),
        Verb::Remove => remove(alloc, line, args),
        Verb::Revert => Ok(Command::Revert {
            force: force(line, args)?,
        }),
        Verb::Select => select(alloc, line, args),
        Verb::Set => set(alloc, line, args),
        Verb::Verify => alone(args, Command::Verify),
    }
}

// The subcommand that some tokens spell.
fn spelled(alloc: Global, line: &[u8], tokens: &[Token]) -> Result<Command, EditFault>
    requires short { length line.now ≤ 4200 }
    requires readable { All (IsReadable line.now) tokens.now }
    ensures { AnswersUnless EditFault.Memory (spelled_by line.now tokens.now) result }
{
    let [first, args @ ..] = tokens else {
        return Ok(Command::Blank);
    };
    match Verb::named(said(line, *first)) {
        Some(verb) => form(alloc, verb, line, args),
        None => Err(EditFault::UnknownCommand),
    }
}

/// The subcommand that a line spells, or its first fault. `#` begins a word, since only a whole typed
/// line is a comment.
#[tactic(auto, unfolding(crate::specs::Forms::command_of))]
pub fn read_command(alloc: Global, line: &[u8]) -> Result<Command, EditFault>
    requires { length line.now ≤ 4200 }
    ensures { AnswersUnless EditFault.Memory (command_of line.now) result }
{
    let tokens = part_tokens(alloc, line)?;
    spelled(alloc, line, &tokens)
}

/// The same of a line, or a part of one, whose tokens are there.
#[tactic(auto, unfolding(crate::specs::Forms::command_of))]
pub fn read_tokens(alloc: Global, line: &[u8], tokens: &[Token]) -> Result<Command, EditFault>
    requires short { length line.now ≤ 4200 }
    requires readable { All (IsReadable line.now) tokens.now }
    requires read { part_tokens_of line.now ≡ Ok tokens.now }
    ensures { AnswersUnless EditFault.Memory (command_of line.now) result }
{
    spelled(alloc, line, tokens)
}

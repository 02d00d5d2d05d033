//! What a subcommand asks for.
ghost use Rattle.std.specs.Prelude.{◌≡◌, IsTrue};
ghost use Rattle.zonecfg_scopes.specs.Commands.{list_name, list_named, topic_named};
ghost use Rattle.zonecfg_scopes.specs.Denotes.{Follows};
ghost use Rattle.zonecfg_scopes.specs.Scopes.{is_in_place};

use crate::EditFault;
use crate::opened::Opened;
use config_terms::Kind;
use std::alloc::Global;
use zn_base::{Bytes, Listing, Pair, Text, Value};
use zone_config::Setting;

/// The properties of resources that hold a list: the options of an fs, the values of an rctl.
#[derive(Clone, Copy, Debug, PartialEq, Eq)]
pub enum ListProperty {
    Options,
    Value,
}

/// The resources of a type whose properties have each of some texts.
#[derive(Drop)]
pub struct Matching {
    pub kind: Kind,
    pub pairs: Listing<Pair>,
}

/// What `info` shows.
#[derive(Clone, Copy, Debug, PartialEq, Eq)]
pub enum Topic {
    Everything,
    Setting(Setting),
    Resources(Kind),
}

/// A subcommand of zonecfg(8) in a form that it has. `force` is `-F`; `bare` is the `-b` of `create`.
pub enum Command {
    /// No token: nothing is asked for.
    Blank,
    Add(Kind),
    /// `add options` or `add value`.
    Append(ListProperty, Value),
    Cancel,
    Clear(Text),
    Commit,
    Create { force: bool, bare: bool },
    Delete { force: bool },
    End,
    Exit { force: bool },
    Export,
    Help,
    Info(Topic),
    Remove { force: bool, matching: Matching },
    /// `remove options` or `remove value`.
    RemoveItem(ListProperty, Value),
    Revert { force: bool },
    Select(Matching),
    Set(Text, Value),
    Verify,
}

// In one step, so that a function that holds a subcommand has one for it at each of its exits.
impl Drop for Command {
    fn drop(self) {
        match self {
            Command::Append(_, _value) | Command::RemoveItem(_, _value) => {}
            Command::Clear(_name) => {}
            Command::Remove {
                force: _,
                matching: _matching,
            } => {}
            Command::Select(_matching) => {}
            Command::Set(_name, _value) => {}
            Command::Blank
            | Command::Add(_)
            | Command::Cancel
            | Command::Commit
            | Command::Create { force: _, bare: _ }
            | Command::Delete { force: _ }
            | Command::End
            | Command::Exit { force: _ }
            | Command::Export
            | Command::Help
            | Command::Info(_)
            | Command::Revert { force: _ }
            | Command::Verify => {}
        }
    }
}

/// What a subcommand is answered that is not refused: it is done, or there are lines to show, or there is
/// something for the caller to do. `WantExit(true)` is `exit -F`.
#[derive(Drop)]
pub enum EditReply {
    Done,
    Lines(Listing<Bytes>),
    WantVerify,
    WantCommit,
    WantRevert,
    WantDelete,
    WantExit(bool),
}

impl ListProperty {
    /// Its name.
    pub fn name(self) -> &'static [u8]
        ensures { result.now ≡ list_name self }
    {
        match self {
            ListProperty::Options => b"options",
            ListProperty::Value => b"value",
        }
    }

    /// The property that a word names.
    pub fn named(name: &[u8]) -> Option<ListProperty>
        ensures { result ≡ list_named name.now }
    {
        if name == b"options".as_slice() {
            Some(ListProperty::Options)
        } else if name == b"value".as_slice() {
            Some(ListProperty::Value)
        } else {
            None
        }
    }
}

impl Topic {
    /// What a word names: a property of the global scope, or the resources of a type.
    pub fn named(name: &[u8]) -> Option<Topic>
        ensures { result ≡ topic_named name.now }
    {
        match Setting::named(name) {
            Some(setting) => Some(Topic::Setting(setting)),
            None => Kind::with_name(name).map(Topic::Resources),
        }
    }
}

#[tactic(auto, unfolding(crate::specs::Scopes::made))]
impl Command {
    /// Does what the subcommand says. A refused one leaves all as it was, and so does running out of memory.
    pub(crate) fn obey(self, alloc: Global, opened: &mut Opened) -> Result<(), EditFault>
        requires { IsTrue (is_in_place opened.old) }
        ensures { Follows self opened.old opened.new result }
    {
        match self {
            Command::Blank | Command::Help => Ok(()),
            Command::Add(kind) => opened.add(alloc, kind),
            Command::Append(list, value) => opened.append(alloc, list, &value),
            Command::Cancel => opened.cancel(),
            Command::Clear(name) => opened.clear(alloc, &name),
            Command::Commit | Command::Export | Command::Verify => opened.look(),
            Command::Create { force, bare } => opened.create(alloc, force, bare),
            Command::Delete { force } | Command::Revert { force } => opened.look_forced(force),
            Command::End => opened.end(),
            Command::Exit { force } => opened.exit(force),
            Command::Info(topic) => opened.inform(topic),
            Command::Remove { force, matching } => opened.remove(force, &matching),
            Command::RemoveItem(list, value) => opened.remove_item(alloc, list, &value),
            Command::Select(matching) => opened.select(alloc, &matching),
            Command::Set(name, value) => opened.set(alloc, &name, value),
        }
    }
}

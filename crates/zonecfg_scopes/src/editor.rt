//! The editor of one zone's configuration.
ghost use Rattle.std.specs.Prelude.{◌≡◌, ◌≤◌, ◌↔◌, IfOk, IsTrue, OnErr, OnOk, List, Some, length, Err, ℕ, option_copied};
ghost use Rattle.zn_base.specs.Answers.{AnswersUnless};
ghost use Rattle.zonecfg_scopes.specs.Denotes.{GoesOn};
ghost use Rattle.zonecfg_scopes.specs.Info.{info_lines};
ghost use Rattle.zonecfg_scopes.specs.OpenOf.{config_of};
ghost use Rattle.zonecfg_scopes.specs.Edited.{after_command, after_line, answer_of, is_changed, line_answer, lines_after, opened_on, reply_of, revision_of, IsAfter, IsChanged};

use crate::base::Base;
use crate::command::{Command, EditReply, Topic};
use crate::fault::EditFault;
use crate::forms::read_command;
use crate::info::help;
use crate::opened::Opened;
use std::alloc::{AllocError, Global};
use std::marker::Model;
use zn_base::{Bytes, Listing, ZoneName};
use zone_config::{ZoneConfig, same_contents};

/// The editor of a zone's configuration (zonecfg(8)): its base, and what is open after the subcommands since.
/// It keeps no list of them. Contracts see the name, the base and what is open.
#[derive(Drop)]
pub struct Editor {
    name: ZoneName,
    base: Option<Base>,
    opened: Opened,
}

impl Model for Editor {
    ghost use Rattle.std.specs.Prelude.{IsTrue};
    ghost use Rattle.zonecfg_scopes.specs.Edited.{Edited};
    ghost use Rattle.zonecfg_scopes.specs.Scopes.{is_in_place};

    ghost Value = { Edited };

    ghost view = { λ e. record { name = e.name; base = e.base; opened = e.opened } };

    ghost invariant = { λ e. IsTrue (is_in_place e.opened) };
}

impl Editor {
    /// An editor of a zone with a base, whose configuration is open, or with none.
    pub fn open(alloc: Global, name: ZoneName, base: Option<Base>) -> Result<Editor, EditFault>
        ensures ok { IfOk result (λ e. e ≡ opened_on name base) }
        ensures memory { OnErr result (result ≡ Err EditFault.Memory) }
    {
        let opened = match &base {
            None => Opened::nothing(),
            Some(base) => Opened::whole(base.config.copy(alloc)?),
        };
        Ok(Editor { name, base, opened })
    }

    /// Does what one subcommand says (zonecfg(8), SUBCOMMANDS): a typed line without its newline, or a part of
    /// it between semicolons. A `#` begins a word here. A refused one leaves the editor as it was, and so does
    /// running out of memory.
    pub fn command(&mut self, alloc: Global, line: &[u8]) -> Result<EditReply, EditFault>
        requires { length line.now ≤ 4200 }
        ensures answer { AnswersUnless EditFault.Memory (line_answer line.now self.old) result }
        ensures ok { OnOk result (self.new ≡ after_line line.now self.old) }
        ensures err { OnErr result (self.new ≡ self.old) }
        ensures stands { (lines : List (List ℕ)) → IsAfter lines self.old → IsAfter (lines_after lines line.now result) self.new }
    {
        let command = read_command(alloc, line)?;
        self.obey(alloc, command)
    }

    /// The same of a subcommand that was read.
    pub fn obey(&mut self, alloc: Global, command: Command) -> Result<EditReply, EditFault>
        ensures answer { AnswersUnless EditFault.Memory (answer_of command self.old) result }
        ensures ok { OnOk result (self.new ≡ after_command command self.old) }
        ensures err { OnErr result (self.new ≡ self.old) }
        ensures held { self.new ≡ record self.old { opened = self.new.opened } }
        ensures stands { GoesOn command self.old.opened self.new.opened result }
    {
        // The lines come first: should memory run out over them, nothing was done.
        let reply = self.reply(alloc, &command)?;
        command.obey(alloc, &mut self.opened)?;
        Ok(reply)
    }

    // What a subcommand is answered where it is not refused.
    fn reply(&self, alloc: Global, command: &Command) -> Result<EditReply, AllocError>
        ensures { IfOk result (λ reply. reply ≡ reply_of command.now self.now) }
    {
        match command {
            Command::Commit => Ok(EditReply::WantCommit),
            Command::Delete { .. } => Ok(EditReply::WantDelete),
            Command::Exit { force } => Ok(EditReply::WantExit(*force)),
            Command::Export => Ok(EditReply::Lines(self.opened.export(alloc)?)),
            Command::Help => Ok(EditReply::Lines(help(alloc)?)),
            Command::Info(topic) => Ok(EditReply::Lines(self.info(alloc, *topic)?)),
            Command::Revert { .. } => Ok(EditReply::WantRevert),
            Command::Verify => Ok(EditReply::WantVerify),
            _ => Ok(EditReply::Done),
        }
    }

    fn info(&self, alloc: Global, topic: Topic) -> Result<Listing<Bytes>, AllocError>
        ensures { IfOk result (λ lines. lines ≡ info_lines topic self.now.name self.now.opened) }
    {
        self.opened.info(alloc, self.name.bytes(), topic)
    }

    /// Takes a new base: its configuration is open, in the global scope. Where memory runs out, all is as
    /// before.
    pub fn rebase(&mut self, alloc: Global, base: Base) -> Result<(), EditFault>
        ensures ok { OnOk result (self.new ≡ opened_on self.old.name (Some base)) }
        ensures err { OnErr result (self.new ≡ self.old) }
        ensures memory { OnErr result (result ≡ Err EditFault.Memory) }
    {
        self.opened = Opened::whole(base.config.copy(alloc)?);
        self.base = Some(base);
        Ok(())
    }

    /// Takes for its base what was stored, as a commit does, and leaves open what is open. It takes no memory.
    pub fn set_base(&mut self, stored: Base)
        ensures { self.new ≡ record self.old { base = Some stored } }
    {
        self.base = Some(stored);
    }

    /// An equal editor, its base and its open scope included.
    pub fn copy(&self, alloc: Global) -> Result<Editor, EditFault>
        ensures same { IfOk result (λ e. e ≡ self.now) }
        ensures memory { OnErr result (result ≡ Err EditFault.Memory) }
    {
        let base = match &self.base {
            None => None,
            Some(base) => Some(base.copy(alloc)?),
        };
        Ok(Editor {
            name: self.name.copy(alloc)?,
            base,
            opened: self.opened.copy(alloc)?,
        })
    }

    /// The configuration that is open. In the scope of a resource it is as before the scope.
    pub fn config(&self) -> Option<&ZoneConfig>
        ensures { option_copied result ≡ config_of self.now.opened }
    {
        self.opened.config()
    }

    /// The same, out of the editor. It takes no memory.
    pub fn into_config(self) -> Option<ZoneConfig>
        ensures { result ≡ config_of self.opened }
    {
        let Editor {
            name: _,
            base: _,
            opened,
        } = self;
        opened.into_config()
    }

    /// Whether a configuration is open that differs from the base's, or that has no base. It takes no
    /// memory.
    #[tactic(auto, using(crate::proofs::Changed::is_changed_decides))]
    pub fn changed(&self) -> bool
        ensures value { result ≡ is_changed self.now }
        ensures meaning { IsTrue result ↔ IsChanged self.now }
    {
        match (self.opened.config(), &self.base) {
            (None, _) => false,
            (Some(_), None) => true,
            (Some(config), Some(base)) => !same_contents(config, &base.config),
        }
    }

    /// The revision of the base, or 0 without one.
    pub fn seen(&self) -> u32
        ensures { result ≡ revision_of self.now.base }
    {
        match &self.base {
            None => 0,
            Some(base) => base.revision,
        }
    }
}

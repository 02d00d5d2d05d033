//! What one subcommand of a line does.
ghost use Rattle.std.specs.Prelude.{◌≡◌, Err, IfOk, OnErr, OnOk, Some};
ghost use Rattle.zn_base.specs.Answers.{AnswersUnless};
ghost use Rattle.config_verify.specs.declared.flaw.Flaw.TheVariants.{Memory};
ghost use Rattle.zonecfg_scopes.specs.Edited.{opened_on};
ghost use Rattle.zonecfg_scopes.specs.OpenOf.{config_of};
ghost use Rattle.zonecfg_lines.specs.Halts.{Makes};
ghost use Rattle.zonecfg_lines.specs.Runs.{answered, base_of, first_flaw, obeyed, stored_base};

use crate::refusal::{Halt, LineRefusal};
use crate::reply::{Ending, Stored};
use config_verify::{Flaw, verify};
use std::alloc::{AllocError, Global};
use zn_base::{Bytes, Listing, Text};
use zonecfg_scopes::{Base, Command, EditReply, Editor};

// What is stored, for an editor to take as its base.
fn copy_stored(alloc: Global, stored: Stored<'_>) -> Result<Base, AllocError>
    ensures { IfOk result (λ base. base ≡ stored_base stored.entry) }
{
    match stored.config.copy(alloc) {
        Ok(config) => Ok(Base {
            config,
            revision: stored.revision,
        }),
        // Memory is all that a copy can want.
        Err(_) => Err(AllocError),
    }
}

// Begins anew with what is stored.
fn go_back(alloc: Global, editor: &mut Editor, stored: Stored<'_>) -> Result<(), Halt>
    ensures back { OnOk result (editor.new ≡ opened_on editor.old.name (Some (stored_base stored.entry))) }
    ensures memory { OnErr result (result ≡ Err Halt.Memory) }
    ensures name { editor.new.name ≡ editor.old.name }
{
    let base = copy_stored(alloc, stored)?;
    editor.rebase(alloc, base)?;
    Ok(())
}

// The first flaw of the configuration that is open, where there is one.
fn look_over(alloc: Global, editor: &Editor, brands: &[Text]) -> Result<(), Flaw>
    ensures { AnswersUnless Memory (first_flaw brands.now (config_of editor.now.opened)) result }
{
    match editor.config() {
        None => Ok(()),
        Some(config) => verify(alloc, config, brands),
    }
}

// Does what the editor's answer to a subcommand leaves to do.
fn answer(
    alloc: Global,
    editor: &mut Editor,
    told: &mut Listing<Bytes>,
    reply: EditReply,
    stored: Option<Stored<'_>>,
    brands: &[Text],
) -> Result<Ending, Halt>
    ensures run { Makes (answered (base_of stored.entry) brands.now reply editor.old) told.old editor.new told.new result }
    ensures name { editor.new.name ≡ editor.old.name }
{
    match reply {
        EditReply::Done => Ok(Ending::Nothing),
        EditReply::Lines(lines) => {
            told.append(lines)?;
            Ok(Ending::Nothing)
        }
        EditReply::WantVerify => {
            look_over(alloc, editor, brands)?;
            Ok(Ending::Nothing)
        }
        EditReply::WantRevert => match stored {
            None => Err(Halt::Refused(LineRefusal::NoZone)),
            Some(stored) => {
                go_back(alloc, editor, stored)?;
                Ok(Ending::Nothing)
            }
        },
        EditReply::WantCommit => Ok(Ending::Commit),
        EditReply::WantDelete => Ok(Ending::Delete),
        EditReply::WantExit(force) => Ok(Ending::Exit { force }),
    }
}

/// Does what a subcommand says, and puts the lines that it tells after others.
#[tactic(auto, unfolding(crate::specs::Runs::obeyed))]
pub(crate) fn obey(
    alloc: Global,
    editor: &mut Editor,
    told: &mut Listing<Bytes>,
    command: Command,
    stored: Option<Stored<'_>>,
    brands: &[Text],
) -> Result<Ending, Halt>
    ensures run { Makes (obeyed (base_of stored.entry) brands.now command editor.old) told.old editor.new told.new result }
    ensures name { editor.new.name ≡ editor.old.name }
{
    let reply = editor.obey(alloc, command)?;
    answer(alloc, editor, told, reply, stored, brands)
}

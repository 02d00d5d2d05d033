//! What a line of `export` does to the configuration that is open: its subcommands, from left to right, up to
//! the first that is refused (zonecfg(8), SUBCOMMANDS).
ghost use Rattle.std.specs.Prelude.{◌≡◌, ◌≤◌, [], IfOk, false, length};
ghost use Rattle.zonecfg_lex.specs.Subcommands.{texts_from, ReadsInParts};
ghost use Rattle.zonecfg_scopes.specs.OpenOf.{config_of};
ghost use Rattle.zones_run.specs.Subcommands.{Edits, edit_of, is_elsewhere, known_brands, obeyed, obeyed_as, verified};
ghost use Rattle.zonecfg_scopes.specs.Turns.{in_turn};

use crate::refusal::Refusal;
use config_verify::verify;
use std::alloc::{AllocError, Global};
use zn_base::Text;
use zonecfg_lex::{Part, Token, line_tokens};
use zonecfg_scopes::{Command, EditFault, EditReply, Editor, next_command};

/// The brands that a zone may have.
pub fn known_brands(alloc: Global) -> Result<Vec<Text>, AllocError>
    ensures { IfOk result (λ names. names.items ≡ known_brands) }
{
    Ok(vec![in alloc; Text::of(alloc, b"ipkg")?, Text::of(alloc, b"lx")?]?)
}

// Whether only an editing session has the subcommand.
fn is_elsewhere(command: &Command) -> bool
    ensures { result ≡ is_elsewhere command.now }
{
    match command {
        Command::Commit
        | Command::Delete { .. }
        | Command::Exit { .. }
        | Command::Export
        | Command::Help
        | Command::Info(_)
        | Command::Revert { .. } => true,
        _ => false,
    }
}

// The first flaw of the configuration that is open, where there is one.
fn first_flaw(alloc: Global, editor: &Editor, brands: &[Text]) -> Result<(), Refusal>
    requires { brands.now ≡ known_brands }
    ensures { Edits editor.now.opened result (verified (config_of editor.now.opened) editor.now.opened) }
{
    match editor.config() {
        None => Ok(()),
        Some(config) => Ok(verify(alloc, config, brands)?),
    }
}

/// Does what a subcommand says, and looks for a flaw where it asks for that.
#[tactic(auto, using(crate::proofs::Obeying::elsewhere, crate::proofs::Obeying::fails, crate::proofs::Obeying::verifies, crate::proofs::Obeying::does))]
pub fn obey(
    alloc: Global,
    editor: &mut Editor,
    brands: &[Text],
    command: Command,
) -> Result<(), Refusal>
    requires { brands.now ≡ known_brands }
    ensures { Edits editor.new.opened result (obeyed command editor.old.opened) }
{
    if is_elsewhere(&command) {
        return Err(Refusal::Edit(EditFault::NotHere));
    }
    if let EditReply::WantVerify = editor.obey(alloc, command)? {
        return first_flaw(alloc, editor, brands);
    }
    Ok(())
}

// Does what the subcommands of a line say, one after another.
#[tactic(auto, using(crate::proofs::Turning::fault_refused, crate::proofs::Turning::first_obeyed, crate::proofs::Turning::first_refused, crate::proofs::Turning::none_left))]
fn obey_parts(
    alloc: Global,
    editor: &mut Editor,
    brands: &[Text],
    line: Part,
) -> Result<(), Refusal>
    requires brands { brands.now ≡ known_brands }
    requires short { length line.text.now ≤ 4200 }
    requires reads { ReadsInParts line.text.now [] line.tokens.now }
    ensures { Edits editor.new.opened result (in_turn obeyed_as (texts_from false line.entry.text.now line.entry.tokens.now) editor.old.opened) }
{
    let mut left = line;
    while let Some(command) = next_command(alloc, &mut left)? {
        obey(alloc, editor, brands, command)?;
    }
    Ok(())
}

/// Does what a line says. Its tokens take the place of others, and are given back for the next line.
#[tactic(auto, unfolding(crate::specs::Subcommands::edit_of, zonecfg_scopes::specs::Turns::line_in_turn))]
pub fn edit(
    alloc: Global,
    editor: &mut Editor,
    brands: &[Text],
    tokens: Vec<Token>,
    line: &[u8],
) -> Result<Vec<Token>, Refusal>
    requires brands { brands.now ≡ known_brands }
    requires short { length line.now ≤ 4200 }
    ensures { Edits editor.new.opened result (edit_of line.now editor.old.opened) }
{
    let tokens = match line_tokens(tokens, line) {
        Ok(tokens) => tokens,
        Err(fault) => return Err(Refusal::from(EditFault::from(fault))),
    };
    let parts = Part {
        text: line,
        tokens: &tokens,
    };
    obey_parts(alloc, editor, brands, parts)?;
    Ok(tokens)
}

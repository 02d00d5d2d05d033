//! What a line of a session does.
ghost use Rattle.std.specs.Prelude.{◌≡◌, ◌≤◌, [], false, length, IfOk, IsTrue};
ghost use Rattle.zonecfg_lex.specs.Subcommands.{texts_from, ReadsInParts};
ghost use Rattle.zonecfg_scopes.specs.Edited.{Edited};
ghost use Rattle.zonecfg_lines.specs.Halts.{has_cause, Makes};
ghost use Rattle.zonecfg_lines.specs.Replies.{Replies};
ghost use Rattle.zonecfg_lines.specs.Runs.{alone_run, base_of, in_turn, line_run, run, Run};

use crate::obey::obey;
use crate::order::has_misplaced;
use crate::refusal::{Halt, LineRefusal};
use crate::reply::{Ending, LineReply, Stored};
use std::alloc::{AllocError, Global};
use zn_base::{Bytes, Listing, Text};
use zonecfg_lex::{Part, line_tokens};
use zonecfg_scopes::{Command, EditFault, Editor, next_command};

// Does what the subcommands of a line say, one after another.
fn obey_parts(
    alloc: Global,
    editor: &mut Editor,
    told: &mut Listing<Bytes>,
    line: Part,
    stored: Option<Stored<'_>>,
    brands: &[Text],
) -> Result<Ending, Halt>
    requires short { length line.text.now ≤ 4200 }
    requires reads { ReadsInParts line.text.now [] line.tokens.now }
    ensures run { Makes (in_turn (base_of stored.entry) brands.now (texts_from false line.entry.text.now line.entry.tokens.now) editor.old) told.old editor.new told.new result }
    ensures name { editor.new.name ≡ editor.old.name }
{
    let mut left = line;
    while let Some(command) = next_command(alloc, &mut left)? {
        match obey(alloc, editor, told, command, stored, brands)? {
            Ending::Nothing => {}
            ending => return Ok(ending),
        }
    }
    Ok(Ending::Nothing)
}

// Does what a line says.
#[tactic(auto, unfolding(crate::specs::Runs::line_run))]
fn obey_line(
    alloc: Global,
    editor: &mut Editor,
    told: &mut Listing<Bytes>,
    line: &[u8],
    stored: Option<Stored<'_>>,
    brands: &[Text],
) -> Result<Ending, Halt>
    requires { length line.now ≤ 4200 }
    ensures run { Makes (line_run (base_of stored.entry) brands.now line.now editor.old) told.old editor.new told.new result }
    ensures name { editor.new.name ≡ editor.old.name }
{
    let tokens = match line_tokens(Vec::new(alloc), line) {
        Ok(tokens) => tokens,
        Err(fault) => return Err(Halt::from(EditFault::from(fault))),
    };
    let parts = Part {
        text: line,
        tokens: &tokens,
    };
    if has_misplaced(parts) {
        return Err(Halt::Refused(LineRefusal::Usage));
    }
    obey_parts(alloc, editor, told, parts, stored, brands)
}

// The same, with an `exit` put in where it asks for nothing.
#[tactic(auto, unfolding(crate::specs::Runs::alone_run))]
fn obey_alone(
    alloc: Global,
    editor: &mut Editor,
    told: &mut Listing<Bytes>,
    line: &[u8],
    stored: Option<Stored<'_>>,
    brands: &[Text],
) -> Result<Ending, Halt>
    requires { length line.now ≤ 4200 }
    ensures run { Makes (alone_run (base_of stored.entry) brands.now line.now editor.old) told.old editor.new told.new result }
    ensures name { editor.new.name ≡ editor.old.name }
{
    match obey_line(alloc, editor, told, line, stored, brands)? {
        Ending::Nothing => {
            let exit = Command::Exit { force: false };
            obey(alloc, editor, told, exit, stored, brands)
        }
        ending => Ok(ending),
    }
}

// The reply to a line that told some lines and came to an end, unless memory ran out.
fn reply(told: Listing<Bytes>, end: Result<Ending, Halt>) -> Result<LineReply, AllocError>
    ensures { (r : Run) (new : Edited) → Makes r [] new told end → Replies r new result }
{
    match end {
        Ok(ending) => Ok(LineReply {
            told,
            end: Ok(ending),
        }),
        Err(Halt::Refused(refusal)) => Ok(LineReply {
            told,
            end: Err(refusal),
        }),
        Err(Halt::Memory) => Err(AllocError),
    }
}

/// Does what a line of a session says (zonecfg(8)): a typed line without its newline, by what is stored of the zone
/// and the names of the brands. A wrong quote, byte or bracket anywhere refuses it as a whole, with a place that
/// counts from its first byte, and so does `commit`, `delete` or `exit` before its last subcommand: then nothing
/// runs. Else its subcommands run from left to right, up to the first that is refused; those before it stand. A
/// blank line and a comment do nothing. Where memory runs out, the editor's configuration is not to be used any more:
/// some of the subcommands may have run.
pub fn type_line(
    alloc: Global,
    editor: &mut Editor,
    line: &[u8],
    stored: Option<Stored<'_>>,
    brands: &[Text],
) -> Result<LineReply, AllocError>
    requires { length line.now ≤ 4200 }
    ensures run { IfOk result (λ reply. line_run (base_of stored.entry) brands.now line.now editor.old ≡ run editor.new reply.told reply.end) }
    ensures cause { IfOk result (λ reply. IsTrue (has_cause reply.end)) }
    ensures name { editor.new.name ≡ editor.old.name }
{
    let mut told = Listing::new(alloc);
    let end = obey_line(alloc, editor, &mut told, line, stored, brands);
    reply(told, end)
}

/// Does the same with a line that is a session of its own, as the words after `zonecfg -z ZONE` are: where it asks
/// for nothing, an `exit` is put in at its end, which is refused in the scope of a resource.
pub fn type_alone(
    alloc: Global,
    editor: &mut Editor,
    line: &[u8],
    stored: Option<Stored<'_>>,
    brands: &[Text],
) -> Result<LineReply, AllocError>
    requires { length line.now ≤ 4200 }
    ensures run { IfOk result (λ reply. alone_run (base_of stored.entry) brands.now line.now editor.old ≡ run editor.new reply.told reply.end) }
    ensures cause { IfOk result (λ reply. IsTrue (has_cause reply.end)) }
    ensures name { editor.new.name ≡ editor.old.name }
{
    let mut told = Listing::new(alloc);
    let end = obey_alone(alloc, editor, &mut told, line, stored, brands);
    reply(told, end)
}

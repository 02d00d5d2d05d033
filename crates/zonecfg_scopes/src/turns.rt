//! The subcommands of a line, one after another.
ghost use Rattle.std.specs.Prelude.{◌≤◌, [], false, length};
ghost use Rattle.zonecfg_lex.specs.Subcommands.{texts_from, ReadsInParts};
ghost use Rattle.zonecfg_scopes.specs.Turns.{ReadsNext};

use crate::EditFault;
use crate::command::Command;
use crate::forms::read_tokens;
use std::alloc::Global;
use zonecfg_lex::Part;

/// The next subcommand of what is left of a line, which is then what follows it. Its tokens count from
/// the begins of their parts, as `line_tokens` gives them.
pub fn next_command(alloc: Global, left: &mut Part) -> Result<Option<Command>, EditFault>
    requires short { length left.old.text.now ≤ 4200 }
    requires reads { ReadsInParts left.old.text.now [] left.old.tokens.now }
    ensures next { ReadsNext (texts_from false left.old.text.now left.old.tokens.now) (texts_from false left.new.text.now left.new.tokens.now) result }
    ensures short { length left.new.text.now ≤ 4200 }
    ensures reads { ReadsInParts left.new.text.now [] left.new.tokens.now }
{
    while !left.tokens.is_empty() {
        let (part, rest) = left.split();
        *left = rest;
        if !part.tokens.is_empty() {
            return Ok(Some(read_tokens(alloc, part.text, part.tokens)?));
        }
    }
    Ok(None)
}

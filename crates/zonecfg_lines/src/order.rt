//! Which subcommands may stand only at the end of a line.
ghost use Rattle.std.specs.Prelude.{◌≡◌, ◌≤◌, [], All, Ok, false, length};
ghost use Rattle.zonecfg_lex.specs.Subcommands.{texts_from, AreRead, ReadsInParts};
ghost use Rattle.zonecfg_lex.specs.Value.{IsReadable};
ghost use Rattle.zonecfg_lines.specs.Order.{begins_ending, has_misplaced, is_ending};

use zonecfg_lex::{Part, Token};

fn is_ending(word: &[u8]) -> bool
    ensures { result ≡ is_ending word.now }
{
    word == b"commit".as_slice() || word == b"delete".as_slice() || word == b"exit".as_slice()
}

// Whether the word that begins the tokens of a part may begin only the last part of a line.
fn ends_line(text: &[u8], tokens: &[Token]) -> bool
    requires { All (IsReadable text.now) tokens.now }
    ensures { result ≡ begins_ending text.now (Ok tokens.now) }
{
    match tokens {
        [first, ..] => first.is_word() && is_ending(first.text(text)),
        [] => false,
    }
}

/// Whether `commit`, `delete` or `exit` begins a subcommand of a line that is not its last.
#[tactic(auto, unfolding(crate::specs::Order::ends_line))]
pub(crate) fn has_misplaced(line: Part) -> bool
    requires short { length line.text.now ≤ 4200 }
    requires reads { ReadsInParts line.text.now [] line.tokens.now }
    ensures { result ≡ has_misplaced (texts_from false line.entry.text.now line.entry.tokens.now) }
{
    let mut left = line;
    let mut ended = false;
    while !left.tokens.is_empty() {
        let (part, rest) = left.split();
        left = rest;
        if !part.tokens.is_empty() {
            if ended {
                return true;
            }
            ended = ends_line(part.text, part.tokens);
        }
    }
    false
}

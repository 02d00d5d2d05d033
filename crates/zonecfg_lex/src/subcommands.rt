//! The subcommands of a line: its parts, and the tokens of each.
ghost use Rattle.std.specs.Prelude.{◌≡◌, ◌≤◌, ◌<◌, [], ◌++◌, false, IfOk, All, length};
ghost use Rattle.zn_base.specs.Answers.{AnswersUnless};
ghost use Rattle.zonecfg_lex.specs.Subcommands.{before_semi, counted_in_parts, part_text, subcommands_of, texts_from, AreRead, ReadsInParts};
ghost use Rattle.zonecfg_lex.specs.Tokens.{result_map, AreRising};
ghost use Rattle.zonecfg_lex.specs.Value.{IsReadable};

use crate::bytes::is_comment;
use crate::lexer::cut;
use crate::{LexFault, Token};

/// Some text of a line, and its tokens. Each counts from the begin of its part.
#[derive(Clone, Copy)]
pub struct Part<'a> {
    pub text: &'a [u8],
    pub tokens: &'a [Token],
}

// Lets each token count from the begin of its part.
fn count_in_parts(tokens: &mut [Token])
    requires { AreRising tokens.old }
    ensures { tokens.new ≡ counted_in_parts 0 tokens.old }
{
    let mut start = 0;
    for token in tokens.iter_mut() {
        let end = token.end;
        token.start -= start;
        token.end -= start;
        if token.is_semicolon() {
            start = end;
        }
    }
}

// How many tokens stand before the first semicolon.
fn before_semicolon(tokens: &[Token]) -> usize
    ensures count { result ≡ before_semi tokens.now }
    ensures within { result ≤ length tokens.now }
{
    for count in 0..tokens.len() {
        if tokens[count].is_semicolon() {
            return count;
        }
    }
    tokens.len()
}

/// The tokens of a line, as `tokens` gives them, but that each counts from the begin of its part. They are
/// put in place of others.
pub fn line_tokens(mut tokens: Vec<Token>, line: &[u8]) -> Result<Vec<Token>, LexFault>
    requires { length line.now ≤ 4200 }
    ensures texts { AnswersUnless LexFault.Memory (subcommands_of line.now) (result_map (λ ts. texts_from false line.now ts.items) result) }
    ensures read { IfOk result (λ ts. ReadsInParts line.now [] ts.items) }
{
    if is_comment(line) {
        tokens.clear();
        return Ok(tokens);
    }
    let mut tokens = cut(tokens, line)?;
    count_in_parts(&mut tokens);
    Ok(tokens)
}

impl<'a> Part<'a> {
    /// The first part, and what follows its semicolon.
    pub fn split(self) -> (Part<'a>, Part<'a>)
        requires short { length self.text.now ≤ 4200 }
        requires reads { ReadsInParts self.text.now [] self.tokens.now }
        ensures read { AreRead result.0.text.now result.0.tokens.now }
        ensures readable { All (IsReadable result.0.text.now) result.0.tokens.now }
        ensures short { length result.0.text.now ≤ length self.entry.text.now }
        ensures rest { ReadsInParts result.1.text.now [] result.1.tokens.now }
        ensures shorter { length result.1.text.now ≤ length self.entry.text.now }
        ensures texts { texts_from false self.entry.text.now self.entry.tokens.now ≡ part_text result.0.text.now result.0.tokens.now ++ texts_from false result.1.text.now result.1.tokens.now }
        ensures fewer { 0 < length self.entry.tokens.now → length result.1.tokens.now < length self.entry.tokens.now }
    {
        let (tokens, behind) = self.tokens.split_at(before_semicolon(self.tokens));
        let [semicolon, rest @ ..] = behind else {
            return (
                self,
                Part {
                    text: b"",
                    tokens: &[],
                },
            );
        };
        let part = Part {
            text: &self.text[..semicolon.start as usize],
            tokens,
        };
        (
            part,
            Part {
                text: &self.text[semicolon.end as usize..],
                tokens: rest,
            },
        )
    }
}

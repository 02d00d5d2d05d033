//! The cutting of a line into tokens.
ghost use Rattle.std.specs.Prelude.{◌≡◌, ◌<◌, ◌≤◌, ◌+◌, ◌∷◌, ◌⊎◌, IfOk, IfSome, IsTrue, All, None, Some, length, drop, slice_index};
ghost use Rattle.zn_base.specs.Answers.{AnswersUnless};
ghost use Rattle.zn_base.specs.Text.{is_text};
ghost use Rattle.zonecfg_lex.specs.declared.scope.Role.TheVariants.{Letter};
ghost use Rattle.zonecfg_lex.specs.declared.scope.Scope.{Scope};
ghost use Rattle.zonecfg_lex.specs.declared.scope.Scope.TheVariants.{Between};
ghost use Rattle.zonecfg_lex.specs.Value.{IsReadable};
ghost use Rattle.zonecfg_lex.specs.Tokens.{in_word, nothing_unless, or_stray, part_tokens_of, place_of, result_map, role_of, text_of, token, tokens_from, tokens_of, word, AreRising, IsWithin};

use crate::bytes::is_comment;
use crate::scope::{LETTERS, Role, Scope};
use crate::{LexFault, Token, TokenKind};
use std::alloc::Global;
use zn_base::is_text_byte;

fn make_token(kind: TokenKind, start: usize, end: usize) -> Token
    requires ordered { start ≤ end }
    requires short { end ≤ 4200 }
    ensures { result ≡ token kind start end }
{
    Token {
        kind,
        start: start as u32,
        end: end as u32,
    }
}

// Where the word ends that begins at a place, and after whose bytes a scope holds.
fn word_end(line: &[u8], scope: Scope, start: usize) -> usize
    requires inside { start < length line.now }
    requires begins { role_of scope (slice_index line.now start) ≡ Letter }
    ensures after { start < result }
    ensures within { result ≤ length line.now }
    ensures found { tokens_from None scope start (drop start line.now) ≡ result_map (λ ts. word start result ∷ ts) (tokens_from None scope result (drop result line.now)) }
{
    let least = scope.in_word().least_letter();
    let mut end = start + 1;
    while end < line.len() && LETTERS[line[end] as usize] >= least {
        end += 1;
    }
    end
}

// Where the quote ends that begins at a place, or the end of the line, and the first stray byte in it.
fn quote_end(line: &[u8], start: usize) -> (usize, Option<usize>)
    requires { start < length line.now }
    ensures after { start < result.0 }
    ensures within { result.0 ≤ length line.now }
    ensures ends { result.0 < length line.now → slice_index line.now result.0 ≡ 34 }
    ensures stray { IfSome result.1 (λ place. (start < place) × (place < result.0)) }
    ensures found { (scope : Scope) → tokens_from (Some start) scope (start + 1) (drop (start + 1) line.now) ≡ or_stray result.1 (tokens_from (Some start) scope result.0 (drop result.0 line.now)) }
{
    let mut stray = None;
    let mut end = start + 1;
    while end < line.len() && line[end] != b'"' {
        if stray.is_none() && !is_text_byte(line[end]) {
            stray = Some(end);
        }
        end += 1;
    }
    (end, stray)
}

// The tokens of a line, given its first stray byte and what is open at its end.
fn unless_fault(
    tokens: Vec<Token>,
    stray: Option<usize>,
    at_end: Option<LexFault>,
) -> Result<Vec<Token>, LexFault>
    ensures { result_map (λ ts. ts.items) result ≡ or_stray stray (result_map (λ _. tokens.items) (nothing_unless at_end)) }
{
    match (stray, at_end) {
        (None, None) => Ok(tokens),
        (Some(place), Some(fault)) if fault.place() < place => Err(fault),
        (Some(place), _) => Err(LexFault::StrayByte(place)),
        (None, Some(fault)) => Err(fault),
    }
}

/// The tokens of a line, in order, or its first fault from the left. A quote or a bracket without an end
/// counts where it begins. A comment has none.
pub fn tokens(alloc: Global, line: &[u8]) -> Result<Vec<Token>, LexFault>
    requires { length line.now ≤ 4200 }
    ensures tokens { AnswersUnless LexFault.Memory (tokens_of line.now) (result_map (λ ts. ts.items) result) }
    ensures within { IfOk result (λ ts. All (IsWithin (length line.now)) ts.items) }
    ensures rising { IfOk result (λ ts. AreRising ts.items) }
    ensures printable { IfOk result (λ ts. All (λ t. IsTrue (is_text (text_of line.now t))) ts.items) }
    ensures readable { IfOk result (λ ts. All (IsReadable line.now) ts.items) }
{
    if is_comment(line) {
        return Ok(Vec::new(alloc));
    }
    part_tokens(alloc, line)
}

/// The tokens of one part of a line, as `tokens` gives them, but that `#` begins a word: only a whole line
/// is a comment.
pub fn part_tokens(alloc: Global, part: &[u8]) -> Result<Vec<Token>, LexFault>
    requires { length part.now ≤ 4200 }
    ensures tokens { AnswersUnless LexFault.Memory (part_tokens_of part.now) (result_map (λ ts. ts.items) result) }
    ensures within { IfOk result (λ ts. All (IsWithin (length part.now)) ts.items) }
    ensures rising { IfOk result (λ ts. AreRising ts.items) }
    ensures printable { IfOk result (λ ts. All (λ t. IsTrue (is_text (text_of part.now t))) ts.items) }
    ensures readable { IfOk result (λ ts. All (IsReadable part.now) ts.items) }
{
    cut(Vec::new(alloc), part)
}

// The tokens of a line, in place of those that are there.
pub(crate) fn cut(mut tokens: Vec<Token>, line: &[u8]) -> Result<Vec<Token>, LexFault>
    requires { length line.now ≤ 4200 }
    ensures { AnswersUnless LexFault.Memory (tokens_from None Between 0 line.now) (result_map (λ ts. ts.items) result) }
{
    tokens.clear();
    let mut scope = Scope::Between;
    let mut stray = None;
    let mut at = 0;
    while at < line.len() {
        match scope.role(line[at]) {
            Role::Blank => at += 1,
            Role::Letter => {
                let end = word_end(line, scope, at);
                tokens.push(make_token(TokenKind::Word, at, end))?;
                at = end;
            }
            Role::Sign(kind) => {
                tokens.push(make_token(kind, at, at + 1))?;
                scope = scope.behind_sign(kind, at);
                at += 1;
            }
            Role::Quote => {
                let (end, stray_inside) = quote_end(line, at);
                stray = stray.or(stray_inside);
                if end == line.len() {
                    return unless_fault(tokens, stray, scope.open_at_end(Some(at)));
                }
                tokens.push(make_token(TokenKind::Quoted, at, end))?;
                at = end + 1;
            }
            Role::Stray => {
                stray = stray.or(Some(at));
                at += 1;
            }
        }
    }
    unless_fault(tokens, stray, scope.open_at_end(None))
}

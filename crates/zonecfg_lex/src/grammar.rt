//! The reading of values from tokens.
ghost use Rattle.std.specs.Prelude.{◌≡◌, ◌<◌, ◌≤◌, ◌∷◌, All, length};
ghost use Rattle.zn_base.specs.Answers.{AnswersUnless};
ghost use Rattle.zonecfg_lex.specs.declared.grammar.Stage.TheVariants.{Start};
ghost use Rattle.zonecfg_lex.specs.Tokens.{result_map};
ghost use Rattle.zonecfg_lex.specs.Value.{first_misfit, given_text, given_texts, made_value, paired, stage_behind, text_start, value_of, IsReadable};

use crate::{LexFault, Token, TokenKind};
use std::alloc::Global;
use zn_base::{Listing, Pair, Text, Value};

/// What may stand next in a value: its beginning, the parts of a pair and what follows it, the first
/// item of a list or its end, an item and what follows it, or nothing.
#[derive(Clone, Copy)]
pub enum Stage {
    Start,
    Name,
    Sign,
    Given,
    Parted,
    First,
    Item,
    Listed,
    Done,
}

impl Stage {
    /// How a value goes on after a token of a kind, where one may stand here.
    pub fn behind(self, kind: TokenKind) -> Option<Stage>
        ensures { result ≡ stage_behind self kind }
    {
        match (self, kind) {
            (Stage::Start, TokenKind::Word | TokenKind::Quoted) => Some(Stage::Done),
            (Stage::Start, TokenKind::Open) => Some(Stage::Name),
            (Stage::Start, TokenKind::ListOpen) => Some(Stage::First),
            (Stage::Name, TokenKind::Word) => Some(Stage::Sign),
            (Stage::Sign, TokenKind::Equals) => Some(Stage::Given),
            (Stage::Given, TokenKind::Word | TokenKind::Quoted) => Some(Stage::Parted),
            (Stage::Parted, TokenKind::Comma) => Some(Stage::Name),
            (Stage::Parted, TokenKind::Close) => Some(Stage::Done),
            (Stage::First | Stage::Item, TokenKind::Word | TokenKind::Quoted) => Some(
                Stage::Listed,
            ),
            (Stage::Listed, TokenKind::Comma) => Some(Stage::Item),
            (Stage::First | Stage::Listed, TokenKind::ListClose) => Some(Stage::Done),
            _ => None,
        }
    }
}

fn first_misfit(line: &[u8], tokens: &[Token]) -> Option<usize>
    ensures { result ≡ first_misfit (length line.now) Start tokens.now }
{
    let mut stage = Stage::Start;
    for token in tokens {
        match stage.behind(token.kind) {
            Some(next) => stage = next,
            None => return Some(token.start as usize),
        }
    }
    match stage {
        Stage::Done => None,
        _ => Some(line.len()),
    }
}

fn text_start(token: Token) -> u32
    requires { token.start < token.end }
    ensures start { result ≡ text_start token }
    ensures bound { result ≤ token.end }
{
    match token.kind {
        TokenKind::Quoted => token.start + 1,
        _ => token.start,
    }
}

/// The text that a word or a quoted token of a line gives.
pub fn given_text(alloc: Global, line: &[u8], token: Token) -> Result<Text, LexFault>
    requires { IsReadable line.now token }
    ensures { AnswersUnless LexFault.Memory (Ok (given_text line.now token)) result }
{
    let start = text_start(token);
    Ok(Text::of(alloc, &line[start as usize..token.end as usize])?)
}

fn texts(alloc: Global, line: &[u8], tokens: &[Token]) -> Result<Listing<Text>, LexFault>
    requires { All (IsReadable line.now) tokens.now }
    ensures { AnswersUnless LexFault.Memory (Ok (given_texts line.now tokens.now)) result }
{
    let mut texts = Listing::new(alloc);
    for token in tokens {
        if token.gives_text() {
            texts.push(given_text(alloc, line, *token)?)?;
        }
    }
    Ok(texts)
}

/// The pairs that the words and quoted tokens of a line give, each name with the text after it.
pub fn pairs(alloc: Global, line: &[u8], tokens: &[Token]) -> Result<Listing<Pair>, LexFault>
    requires { All (IsReadable line.now) tokens.now }
    ensures { AnswersUnless LexFault.Memory (Ok (paired (given_texts line.now tokens.now))) result }
{
    let mut pairs = Listing::new(alloc);
    let mut waiting = None;
    for token in tokens {
        if token.gives_text() {
            let text = given_text(alloc, line, *token)?;
            match waiting.take() {
                None => waiting = Some(text),
                Some(name) => pairs.push(Pair { name, value: text })?,
            }
        }
    }
    Ok(pairs)
}

// The value that fitting tokens are.
fn made_value(alloc: Global, line: &[u8], first: Token, rest: &[Token]) -> Result<Value, LexFault>
    requires first { IsReadable line.now first }
    requires rest { All (IsReadable line.now) rest.now }
    ensures { AnswersUnless LexFault.Memory (Ok (made_value line.now (first ∷ rest.now))) result }
{
    match first.kind {
        TokenKind::Open => Ok(Value::Complex(pairs(alloc, line, rest)?)),
        TokenKind::ListOpen => Ok(Value::List(texts(alloc, line, rest)?)),
        _ => Ok(Value::Simple(given_text(alloc, line, first)?)),
    }
}

/// The value that some tokens of a line are, or the place where they stop being one.
pub fn value(alloc: Global, line: &[u8], tokens: &[Token]) -> Result<Value, LexFault>
    requires short { length line.now ≤ 4200 }
    requires readable { All (IsReadable line.now) tokens.now }
    ensures { AnswersUnless LexFault.Memory (value_of line.now tokens.now) result }
{
    if let Some(place) = first_misfit(line, tokens) {
        return Err(LexFault::NoValue(place));
    }
    let [first, rest @ ..] = tokens else {
        unreachable!();
    };
    made_value(alloc, line, *first, rest)
}

//! The parts of a line between its semicolons.
ghost use Rattle.std.specs.Prelude.{◌≡◌, ◌≤◌, [], ◌∷◌, ◌++◌, IfOk, OnOk, All, filter, length, if◌then◌else◌};
ghost use Rattle.zn_base.specs.Answers.{AnswersUnless};
ghost use Rattle.zonecfg_lex.specs.Parts.{holds_one, parts_of, span, spans_between, IsSpanWithin, SpansRise};
ghost use Rattle.zonecfg_lex.specs.Tokens.{result_map, AreRising, IsWithin};

use crate::lexer::tokens;
use crate::{LexFault, Span, Token};
use std::alloc::{AllocError, Global};

fn push_if(spans: &mut Vec<Span>, filled: bool, start: u32, end: u32) -> Result<(), AllocError>
    ensures { OnOk result (spans.new.items ≡ spans.old.items ++ (if filled then span start end ∷ [] else [])) }
{
    if filled {
        spans.push(Span { start, end })?;
    }
    Ok(())
}

// The spans up to an end that the semicolons among some tokens part, where they hold a token.
fn filled_spans(alloc: Global, tokens: &[Token], end: u32) -> Result<Vec<Span>, AllocError>
    requires rising { AreRising tokens.now }
    requires within { All (IsWithin end) tokens.now }
    ensures spans { IfOk result (λ ss. ss.items ≡ filter (holds_one tokens.now) (spans_between 0 end tokens.now)) }
    ensures within { IfOk result (λ ss. All (IsSpanWithin end) ss.items) }
    ensures rising { IfOk result (λ ss. SpansRise ss.items) }
{
    let mut spans = Vec::new(alloc);
    let mut start = 0;
    let mut filled = false;
    for token in tokens {
        if token.is_semicolon() {
            push_if(&mut spans, filled, start, token.start)?;
            start = token.end;
            filled = false;
        } else {
            filled = true;
        }
    }
    push_if(&mut spans, filled, start, end)?;
    Ok(spans)
}

/// The spans of a line between its semicolons that hold a token, in order, or the line's first fault. A
/// span begins right after its semicolon, blanks included. A semicolon in quotes is none.
pub fn parts(alloc: Global, line: &[u8]) -> Result<Vec<Span>, LexFault>
    requires { length line.now ≤ 4200 }
    ensures parts { AnswersUnless LexFault.Memory (parts_of line.now) (result_map (λ ss. ss.items) result) }
    ensures within { IfOk result (λ ss. All (IsSpanWithin (length line.now)) ss.items) }
    ensures rising { IfOk result (λ ss. SpansRise ss.items) }
{
    let tokens = tokens(alloc, line)?;
    Ok(filled_spans(alloc, &tokens, line.len() as u32)?)
}

//! The words of a line.
ghost use Rattle.std.specs.Prelude.{◌≡◌, IfSome, length, not, position, unwrap_or};
ghost use Rattle.zone_pools.specs.Firsts.{first_of, is_nil};
ghost use Rattle.zone_cases.specs.Session.Lines.{after_word, is_space, past_word, word_after_flag, words};
ghost use Rattle.zone_cases.specs.Code.Lines.{BeginsWord, EndsWord, GivesPast, GivesRest, GivesSpaceless, GivesWord, IsWordFirst, as_word};

fn first_other(text: &[u8]) -> Option<usize>
    ensures { result ≡ position (λ b. not (is_space b)) text.now }
{
    text.iter().position(|byte| *byte != b' ')
}

fn first_space(text: &[u8]) -> Option<usize>
    ensures { result ≡ position is_space text.now }
{
    text.iter().position(|byte| *byte == b' ')
}

/// The text from its first word on.
#[tactic(auto, using(crate::proofs::Words::no_words))]
pub(crate) fn after_spaces(text: &[u8]) -> Option<&[u8]>
    ensures begins { BeginsWord result text.now }
    ensures text { GivesSpaceless result text.now }
{
    let start = first_other(text)?;
    Some(&text[start..])
}

// Where the word ends that a text begins with.
#[tactic(auto, using(crate::proofs::Words::ends_at_space, crate::proofs::Words::ends_all))]
fn word_end(text: &[u8]) -> usize
    requires { IsWordFirst text.now }
    ensures ends { EndsWord result text.now }
    ensures end { result ≡ unwrap_or (position is_space text.now) (length text.now) }
{
    first_space(text).unwrap_or(text.len())
}

/// The first word of a text, and the text after it.
pub(crate) fn split_word(text: &[u8]) -> Option<(&[u8], &[u8])>
    ensures word { GivesWord result (words text.now) }
    ensures past { GivesPast result text.now }
{
    let text = after_spaces(text)?;
    let end = word_end(text);
    Some((&text[..end], &text[end..]))
}

/// The text after a word that is wanted.
pub(crate) fn behind_word<'t>(text: &'t [u8], wanted: &[u8]) -> Option<&'t [u8]>
    ensures words { GivesRest result (after_word wanted.now (words text.now)) }
    ensures past { IfSome result (λ rest. rest.now ≡ past_word text.now) }
{
    let (word, rest) = split_word(text)?;
    if word == wanted { Some(rest) } else { None }
}

pub(crate) fn is_blank(text: &[u8]) -> bool
    ensures { result ≡ is_nil (words text.now) }
{
    split_word(text).is_none()
}

pub(crate) fn first_word(text: &[u8]) -> Option<&[u8]>
    ensures { as_word result ≡ first_of (words text.now) }
{
    let (word, _) = split_word(text)?;
    Some(word)
}

/// The word after the first `-z`.
pub(crate) fn word_after_flag(text: &[u8]) -> Option<&[u8]>
    ensures { as_word result ≡ word_after_flag (words text.now) }
{
    let mut text = text;
    while let Some((word, rest)) = split_word(text) {
        if word == b"-z".as_slice() {
            return first_word(rest);
        }
        text = rest;
    }
    None
}

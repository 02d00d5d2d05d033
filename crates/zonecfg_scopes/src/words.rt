//! What the tokens of a subcommand say.
ghost use Rattle.std.specs.Prelude.{◌≡◌, All, length};
ghost use Rattle.zonecfg_lex.specs.Value.{IsReadable};
ghost use Rattle.zonecfg_scopes.specs.Words.{are_pairs, begins_pair, behind_flag, first_value_missed, has_flag, said, value_missed};

use zonecfg_lex::Token;

/// The word that a token is, or nothing where it is none.
pub(crate) fn said(line: &[u8], token: Token) -> &[u8]
    requires { IsReadable line.now token }
    ensures { result.now ≡ said line.now token }
{
    if token.is_word() {
        token.text(line)
    } else {
        b""
    }
}

/// Whether a flag stands first.
pub(crate) fn has_flag(line: &[u8], tokens: &[Token], flag: &[u8]) -> bool
    requires { All (IsReadable line.now) tokens.now }
    ensures { result ≡ has_flag flag.now line.now tokens.now }
{
    match tokens {
        [] => false,
        [first, ..] => said(line, *first) == flag,
    }
}

/// What follows a flag, where it stands first.
pub(crate) fn behind_flag<'a>(line: &[u8], tokens: &'a [Token], flag: &[u8]) -> &'a [Token]
    requires { All (IsReadable line.now) tokens.now }
    ensures behind { result.now ≡ behind_flag flag.now line.now tokens.now }
    ensures readable { All (IsReadable line.now) result.now }
{
    match tokens {
        [first, rest @ ..] if said(line, *first) == flag => rest,
        _ => tokens,
    }
}

fn begins_pair(tokens: &[Token]) -> bool
    ensures { result ≡ begins_pair tokens.now }
{
    match tokens {
        [name, sign, ..] => name.is_word() && sign.is_equals(),
        _ => false,
    }
}

fn value_missed(end: usize, tokens: &[Token]) -> Option<usize>
    ensures { result ≡ value_missed end tokens.now }
{
    if !begins_pair(tokens) {
        return None;
    }
    match tokens {
        [_, _, value, ..] if value.gives_text() => None,
        [_, _, value, ..] => Some(value.start as usize),
        _ => Some(end),
    }
}

/// The first place where a word and an equals sign have no text after them, in a line that ends at a
/// place.
pub(crate) fn first_value_missed(end: usize, tokens: &[Token]) -> Option<usize>
    ensures { result ≡ first_value_missed end tokens.now }
{
    for at in 0..tokens.len() {
        if let Some(place) = value_missed(end, &tokens[at..]) {
            return Some(place);
        }
    }
    None
}

/// Whether tokens are nothing but pairs of a word, an equals sign and a text.
pub(crate) fn are_pairs(tokens: &[Token]) -> bool
    ensures { result ≡ are_pairs tokens.now }
{
    let mut rest = tokens;
    while let [name, sign, value, behind @ ..] = rest {
        if !name.is_word() || !sign.is_equals() || !value.gives_text() {
            return false;
        }
        rest = behind;
    }
    rest.is_empty()
}

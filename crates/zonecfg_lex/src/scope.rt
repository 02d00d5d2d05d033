//! What a byte is where it stands.
ghost use Rattle.std.specs.Prelude.{◌≡◌, ◌<◌, ◌≤◌, ◌↔◌, ℕ, slice_index};
ghost use Rattle.zonecfg_lex.specs.declared.scope.Role.TheVariants.{Letter};
ghost use Rattle.zonecfg_lex.specs.declared.scope.TheConstants.{LETTERS};
ghost use Rattle.zonecfg_lex.specs.Tokens.{behind_sign, in_word, open_at_end, out_of_word, printable_role, role_between, role_in_bracket, role_in_word, role_of};

use crate::bytes::is_mark;
use crate::{LexFault, TokenKind};

/// Where a byte outside quotes stands: outside brackets, between words or inside one, or inside the round
/// or the square bracket that opens at a place.
#[derive(Clone, Copy)]
pub enum Scope {
    Between,
    InWord,
    Round(usize),
    Square(usize),
}

/// What a byte outside quotes is.
#[derive(Clone, Copy)]
pub enum Role {
    Blank,
    Letter,
    Sign(TokenKind),
    Quote,
    Stray,
}

/// For each byte where it is a letter: `3` everywhere outside quotes, `2` outside brackets, `1` inside a word
/// outside brackets, `0` nowhere.
pub(crate) static LETTERS: [u8; 256] = *b"\
    00000000000000000000000000000000\
    03033333003323333333333333303033\
    33333333333333333333333333313133\
    33333333333333333333333333333330\
    00000000000000000000000000000000\
    00000000000000000000000000000000\
    00000000000000000000000000000000\
    00000000000000000000000000000000";

fn role_in_word(byte: u8) -> Role
    ensures { result ≡ role_in_word byte }
{
    match byte {
        b';' => Role::Sign(TokenKind::Semi),
        b'(' => Role::Sign(TokenKind::Open),
        b')' => Role::Stray,
        _ => Role::Letter,
    }
}

fn role_between(byte: u8) -> Role
    ensures { result ≡ role_between byte }
{
    match byte {
        b'[' => Role::Sign(TokenKind::ListOpen),
        b']' => Role::Stray,
        _ => role_in_word(byte),
    }
}

fn role_in_bracket(closing: u8, kind: TokenKind, byte: u8) -> Role
    ensures { result ≡ role_in_bracket closing kind byte }
{
    if byte == b',' {
        Role::Sign(TokenKind::Comma)
    } else if byte == closing {
        Role::Sign(kind)
    } else if is_mark(byte) {
        Role::Stray
    } else {
        Role::Letter
    }
}

impl Scope {
    /// What a byte that stands here is.
    #[tactic(auto, unfolding(crate::specs::Tokens::role_of))]
    pub fn role(self, byte: u8) -> Role
        ensures { result ≡ role_of self byte }
    {
        match byte {
            b' ' | b'\t' => Role::Blank,
            b'"' => Role::Quote,
            b'=' => Role::Sign(TokenKind::Equals),
            b'!'..=b'~' => self.printable_role(byte),
            _ => Role::Stray,
        }
    }

    /// The least entry of `LETTERS` that a letter here has.
    pub(crate) fn least_letter(self) -> u8
        ensures { (byte : ℕ) → byte < 256 → (result ≤ slice_index LETTERS byte) ↔ (role_of self byte ≡ Letter) }
    {
        match self {
            Scope::InWord => b'1',
            Scope::Between => b'2',
            Scope::Round(_) | Scope::Square(_) => b'3',
        }
    }

    fn printable_role(self, byte: u8) -> Role
        ensures { result ≡ printable_role self byte }
    {
        match self {
            Scope::Between => role_between(byte),
            Scope::InWord => role_in_word(byte),
            Scope::Round(_) => role_in_bracket(b')', TokenKind::Close, byte),
            Scope::Square(_) => role_in_bracket(b']', TokenKind::ListClose, byte),
        }
    }

    /// Where the byte after a word byte stands.
    pub fn in_word(self) -> Scope
        ensures { result ≡ in_word self }
    {
        match self {
            Scope::Between => Scope::InWord,
            scope => scope,
        }
    }

    /// Where the byte after a sign at a place stands.
    pub fn behind_sign(self, kind: TokenKind, place: usize) -> Scope
        ensures { result ≡ behind_sign self kind place }
    {
        match kind {
            TokenKind::Open => Scope::Round(place),
            TokenKind::ListOpen => Scope::Square(place),
            TokenKind::Close | TokenKind::ListClose => Scope::Between,
            _ => self.out_of_word(),
        }
    }

    fn out_of_word(self) -> Scope
        ensures { result ≡ out_of_word self }
    {
        match self {
            Scope::InWord => Scope::Between,
            scope => scope,
        }
    }

    /// What is open at the end of a line that ends here, in the quote that begins at a place or in none.
    pub fn open_at_end(self, quote: Option<usize>) -> Option<LexFault>
        ensures { result ≡ open_at_end quote self }
    {
        match self {
            Scope::Round(place) | Scope::Square(place) => Some(LexFault::OpenBracket(place)),
            _ => quote.map(LexFault::OpenQuote),
        }
    }
}

//! Tokens and spans: what a part of a line is, and where it stands.
ghost use Rattle.std.specs.Prelude.{◌≡◌, ◌≤◌, length};
ghost use Rattle.zonecfg_lex.specs.Parts.{is_semi, span_text, IsSpanWithin};
ghost use Rattle.zonecfg_lex.specs.Tokens.{is_equals, is_word, text_of, IsWithin};
ghost use Rattle.zonecfg_lex.specs.Value.{gives_text};

/// What a token is. `Open` and `Close` are round brackets, `ListOpen` and `ListClose` square ones.
#[derive(Clone, Copy, PartialEq, Eq)]
pub enum TokenKind {
    Word,
    Quoted,
    Equals,
    Comma,
    Open,
    Close,
    ListOpen,
    ListClose,
    Semi,
}

/// A part of a line, from the place `start` up to the place `end`, which it leaves out. A quoted token
/// begins with its opening quote and ends before the closing one.
#[derive(Clone, Copy)]
pub struct Token {
    pub kind: TokenKind,
    pub start: u32,
    pub end: u32,
}

impl Token {
    /// What the token is in its line.
    pub fn text(self, line: &[u8]) -> &[u8]
        requires { IsWithin (length line.now) self }
        ensures { result.now ≡ text_of line.now self }
    {
        &line[self.start as usize..self.end as usize]
    }

    /// Whether it is a bare word.
    pub fn is_word(self) -> bool
        ensures { result ≡ is_word self.kind }
    {
        self.kind == TokenKind::Word
    }

    /// Whether it is an equals sign.
    pub fn is_equals(self) -> bool
        ensures { result ≡ is_equals self.kind }
    {
        self.kind == TokenKind::Equals
    }

    /// Whether it is a semicolon.
    pub fn is_semicolon(self) -> bool
        ensures { result ≡ is_semi self.kind }
    {
        self.kind == TokenKind::Semi
    }

    /// Whether it gives a text: a bare word, or what stands in quotes.
    pub fn gives_text(self) -> bool
        ensures { result ≡ gives_text self }
    {
        matches!(self.kind, TokenKind::Word | TokenKind::Quoted)
    }
}

/// What stands between two semicolons of a line, or between one and an end of the line.
#[derive(Clone, Copy)]
pub struct Span {
    pub start: u32,
    pub end: u32,
}

impl Span {
    /// What the span is in its line.
    pub fn text(self, line: &[u8]) -> &[u8]
        requires { IsSpanWithin (length line.now) self }
        ensures { result.now ≡ span_text line.now self }
    {
        &line[self.start as usize..self.end as usize]
    }
}

//! What the bytes of a line are.
ghost use Rattle.std.specs.Prelude.{◌≡◌, drop};
ghost use Rattle.zonecfg_lex.specs.Tokens.{is_blank, is_mark, is_comment};

pub(crate) fn is_blank(byte: u8) -> bool
    ensures { result ≡ is_blank byte }
{
    byte == b' ' || byte == b'\t'
}

pub(crate) fn is_mark(byte: u8) -> bool
    ensures { result ≡ is_mark byte }
{
    matches!(byte, b'"' | b';' | b'(' | b')' | b'[' | b']')
}

// Whether the first byte other than a blank is `#`.
pub(crate) fn is_comment(line: &[u8]) -> bool
    ensures { result ≡ is_comment line.now }
{
    for byte in line {
        if !is_blank(*byte) {
            return *byte == b'#';
        }
    }
    false
}

//! Printable texts of a bounded length.
ghost use Rattle.std.specs.Prelude.{◌≡◌, ◌≤◌, [], IfOk, IsTrue, bytes_eq, length, position, not};
ghost use Rattle.std.specs.Cmp.{partial_equiv_from_equiv};
ghost use Rattle.std.specs.Cmp.Lexicographic.{nat_list_eq_equiv};
ghost use Rattle.zn_base.specs.declared.text.TextFault.TheVariants.{Memory};
ghost use Rattle.zn_base.specs.Answers.{AnswersUnless};
ghost use Rattle.zn_base.specs.Text.{is_text, is_text_byte, text_of};

use std::alloc::{AllocError, Global};
use std::marker::Model;
use thiserror::Error;

/// The greatest length of a text, in bytes.
pub const TEXT_MAX: usize = 4200;

/// Why bytes are no text. A bad byte comes before a length.
#[derive(Clone, Copy, Debug, PartialEq, Eq, Error)]
pub enum TextFault {
    #[error("out of memory")]
    Memory,
    /// The place of the first byte outside space to tilde, from 0.
    #[error("byte {0} is not printable")]
    BadText(usize),
    #[error("the text is longer than 4200 bytes")]
    TextLong,
}

impl From<AllocError> for TextFault {
    ghost from_gives = { λ _ e. e ≡ Memory };

    fn from(_: AllocError) -> Self {
        TextFault::Memory
    }
}

/// At most 4,200 bytes from space to tilde. Contracts see the list of its bytes.
#[derive(Drop)]
pub struct Text {
    bytes: Vec<u8>,
}

impl Model for Text {
    ghost use Rattle.std.specs.Prelude.{List, ℕ, IsTrue};
    ghost use Rattle.zn_base.specs.Text.{is_text};

    ghost Value = { List ℕ };

    ghost view = { λ t. t.bytes.items };

    ghost invariant = { λ t. IsTrue (is_text t.bytes.items) };
}

/// Whether a text may have a byte: from space to tilde.
pub fn is_text_byte(byte: u8) -> bool
    ensures { result ≡ is_text_byte byte }
{
    (b' '..=b'~').contains(&byte)
}

fn first_bad_byte(bytes: &[u8]) -> Option<usize>
    ensures { result ≡ position (λ b. not (is_text_byte b)) bytes.now }
{
    bytes.iter().position(|byte| !is_text_byte(*byte))
}

impl Text {
    /// The text that the bytes are.
    pub fn read(alloc: Global, bytes: &[u8]) -> Result<Text, TextFault>
        ensures { AnswersUnless TextFault.Memory (text_of bytes.now) result }
    {
        if let Some(place) = first_bad_byte(bytes) {
            return Err(TextFault::BadText(place));
        }
        if bytes.len() > TEXT_MAX {
            return Err(TextFault::TextLong);
        }
        Ok(Text::of(alloc, bytes)?)
    }

    /// The text that the bytes are, which are known to be one.
    pub fn of(alloc: Global, bytes: &[u8]) -> Result<Text, AllocError>
        requires { IsTrue (is_text bytes.now) }
        ensures { IfOk result (λ text. text ≡ bytes.now) }
    {
        Ok(Text {
            bytes: Vec::from_slice(alloc, bytes)?,
        })
    }

    /// A text of no bytes. It takes no memory.
    pub fn empty(alloc: Global) -> Text
        ensures { result ≡ [] }
    {
        Text {
            bytes: Vec::new(alloc),
        }
    }

    /// The bytes of the text.
    pub fn bytes(&self) -> &[u8]
        ensures bytes { result.now ≡ self.now }
        ensures text { IsTrue (is_text result.now) }
    {
        &self.bytes
    }

    /// An equal text.
    pub fn copy(&self, alloc: Global) -> Result<Text, AllocError>
        ensures { IfOk result (λ text. text ≡ self.now) }
    {
        Text::of(alloc, self.bytes())
    }
}

impl PartialEq for Text {
    ghost eq = { bytes_eq };

    ghost laws = { partial_equiv_from_equiv nat_list_eq_equiv };

    fn eq(&self, other: &Text) -> bool {
        self.bytes() == other.bytes()
    }
}

impl Eq for Text {
    ghost laws = { nat_list_eq_equiv };
}

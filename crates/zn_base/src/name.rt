//! Zone names.
ghost use Rattle.std.specs.Prelude.{◌≡◌, ◌≤◌, Err, IfOk, IsTrue, None, OnErr, Some, bytes_eq, codes, if◌then◌else◌, length, nat_eq, not, position};
ghost use Rattle.std.specs.Cmp.{partial_equiv_from_equiv};
ghost use Rattle.std.specs.Cmp.Lexicographic.{nat_list_eq_equiv};
ghost use Rattle.std.specs.Cmp.Rules.{hashing};
ghost use Rattle.std.specs.Hash as fed;
ghost use Rattle.std.specs.List.{starts_with};
ghost use Rattle.std.proofs.Common.{rules};
ghost use Rattle.zn_base.specs.declared.name.NameFault.TheVariants.{Memory};
ghost use Rattle.zn_base.specs.Answers.{AnswersUnless};
ghost use Rattle.zn_base.specs.Names.{first_wrong, is_letter_or_digit, is_name, is_name_byte, is_reserved, name_of};

use std::alloc::{AllocError, Global};
use std::hash::{Hash, Hasher};
use std::marker::Model;
use thiserror::Error;

/// The greatest length of a zone's name, in bytes.
pub const NAME_MAX: usize = 63;

/// Why bytes are no zone's name, in the order in which they are looked at.
#[derive(Clone, Copy, Debug, PartialEq, Eq, Error)]
pub enum NameFault {
    #[error("out of memory")]
    Memory,
    #[error("the name is empty")]
    Empty,
    #[error("the name is longer than 63 bytes")]
    TooLong,
    /// The place of the first byte that doesn't belong there, from 0.
    #[error("byte {0} doesn't belong in a zone's name")]
    BadByte(usize),
    /// The global zone's own name, and the names that begin with `SUNW`.
    #[error("the name is reserved")]
    Reserved,
}

impl From<AllocError> for NameFault {
    ghost from_gives = { λ _ e. e ≡ Memory };

    fn from(_: AllocError) -> Self {
        NameFault::Memory
    }
}

/// The name of a non-global zone, by zonecfg(8): 1 to 63 letters, digits, `_`, `-` and `.`, of which the
/// first is a letter or a digit, and neither `global` nor a name that begins with `SUNW`. Contracts see
/// the list of its bytes.
#[derive(Drop)]
pub struct ZoneName {
    bytes: Vec<u8>,
}

impl Model for ZoneName {
    ghost use Rattle.std.specs.Prelude.{List, ℕ, IsTrue};
    ghost use Rattle.zn_base.specs.Names.{is_name};

    ghost Value = { List ℕ };

    ghost view = { λ n. n.bytes.items };

    ghost invariant = { λ n. IsTrue (is_name n.bytes.items) };
}

fn is_letter_or_digit(byte: u8) -> bool
    ensures { result ≡ is_letter_or_digit byte }
{
    byte.is_ascii_alphanumeric()
}

/// Whether a zone's name may have a byte: a letter, a digit, `_`, `-` or `.`.
pub fn is_name_byte(byte: u8) -> bool
    ensures { result ≡ is_name_byte byte }
{
    is_letter_or_digit(byte) || byte == b'_' || byte == b'-' || byte == b'.'
}

fn first_other(bytes: &[u8]) -> Option<usize>
    ensures { result ≡ position (λ b. not (is_name_byte b)) bytes.now }
{
    bytes.iter().position(|byte| !is_name_byte(*byte))
}

fn first_wrong(bytes: &[u8]) -> Option<usize>
    ensures { result ≡ first_wrong bytes.now }
{
    match bytes {
        [first, ..] if !is_letter_or_digit(*first) => Some(0),
        _ => first_other(bytes),
    }
}

fn begins_with_sunw(bytes: &[u8]) -> bool
    ensures { result ≡ starts_with nat_eq bytes.now (codes "SUNW") }
{
    bytes.starts_with(b"SUNW")
}

fn is_reserved(bytes: &[u8]) -> bool
    ensures { result ≡ is_reserved bytes.now }
{
    bytes == b"global".as_slice() || begins_with_sunw(bytes)
}

impl ZoneName {
    /// The name that the bytes are. Memory runs out for a right name alone.
    pub fn read(alloc: Global, bytes: &[u8]) -> Result<ZoneName, NameFault>
        ensures answer { AnswersUnless NameFault.Memory (name_of bytes.now) result }
        ensures memory { result ≡ Err NameFault.Memory → IsTrue (is_name bytes.now) }
    {
        if bytes.is_empty() {
            return Err(NameFault::Empty);
        }
        if bytes.len() > NAME_MAX {
            return Err(NameFault::TooLong);
        }
        if let Some(place) = first_wrong(bytes) {
            return Err(NameFault::BadByte(place));
        }
        if is_reserved(bytes) {
            return Err(NameFault::Reserved);
        }
        Ok(ZoneName {
            bytes: Vec::from_slice(alloc, bytes)?,
        })
    }

    /// The name that the bytes are, or nothing where they are none. Memory runs out for a right name alone.
    pub fn read_if_name(alloc: Global, bytes: &[u8]) -> Result<Option<ZoneName>, AllocError>
        ensures name { IfOk result (λ name. name ≡ (if is_name bytes.now then Some bytes.now else None)) }
        ensures memory { OnErr result (IsTrue (is_name bytes.now)) }
    {
        match ZoneName::read(alloc, bytes) {
            Ok(name) => Ok(Some(name)),
            Err(NameFault::Memory) => Err(AllocError),
            Err(_) => Ok(None),
        }
    }

    /// The bytes of the name.
    pub fn bytes(&self) -> &[u8]
        ensures bytes { result.now ≡ self.now }
        ensures name { IsTrue (is_name result.now) }
    {
        &self.bytes
    }

    /// An equal name.
    pub fn copy(&self, alloc: Global) -> Result<ZoneName, AllocError>
        ensures { IfOk result (λ name. name ≡ self.now) }
    {
        Ok(ZoneName {
            bytes: Vec::from_slice(alloc, &self.bytes)?,
        })
    }
}

impl PartialEq for ZoneName {
    ghost eq = { bytes_eq };

    ghost laws = { partial_equiv_from_equiv nat_list_eq_equiv };

    fn eq(&self, other: &ZoneName) -> bool {
        self.bytes() == other.bytes()
    }
}

impl Eq for ZoneName {
    ghost laws = { nat_list_eq_equiv };
}

impl Hash for ZoneName {
    ghost hash_input = { fed.slice fed.u8 };

    ghost respects_eq = { Prim.search (hashing, rules) };

    fn hash<H: Hasher>(&self, state: &mut H) {
        self.bytes().hash(state);
    }
}

//! Absolute paths.
ghost use Rattle.std.specs.Prelude.{◌≡◌, ◌+◌, ◌≤◌, ◌<◌, length, IfOk, IsTrue, bytes_eq, position, drop};
ghost use Rattle.std.specs.Cmp.{partial_equiv_from_equiv};
ghost use Rattle.std.specs.Cmp.Lexicographic.{nat_list_eq_equiv};
ghost use Rattle.std.specs.List.{slice_split, list_all};
ghost use Rattle.std.specs.Result.{result_and};
ghost use Rattle.zn_base.specs.declared.path.PathFault.TheVariants.{Memory};
ghost use Rattle.zn_base.specs.Answers.{AnswersUnless};
ghost use Rattle.zn_base.specs.Path.{is_slash, is_component_byte, is_component, first_bad, is_path, path_of};

use std::alloc::{AllocError, Global};
use std::marker::Model;
use thiserror::Error;

/// The greatest length of a path, in bytes.
pub const PATH_MAX: usize = 1023;

/// Why bytes are no absolute path, in the order in which they are looked at.
#[derive(Clone, Copy, Debug, PartialEq, Eq, Error)]
pub enum PathFault {
    #[error("out of memory")]
    Memory,
    #[error("the path is longer than 1023 bytes")]
    PathLong,
    #[error("the path does not begin with a slash")]
    NotAbsolute,
    /// The place where the first bad component begins, from 0.
    #[error("no component of a path begins at byte {0}")]
    BadComponent(usize),
}

impl From<AllocError> for PathFault {
    ghost from_gives = { λ _ e. e ≡ Memory };

    fn from(_: AllocError) -> Self {
        PathFault::Memory
    }
}

/// `/`, or components, each after one `/`, in at most 1,023 bytes. A component is neither empty nor `.`
/// nor `..`, and has printable bytes other than space and `"`. Contracts see the list of its bytes.
#[derive(Drop)]
pub struct AbsPath {
    bytes: Vec<u8>,
}

impl Model for AbsPath {
    ghost use Rattle.std.specs.Prelude.{List, ℕ, IsTrue};
    ghost use Rattle.zn_base.specs.Path.{is_path};

    ghost Value = { List ℕ };

    ghost view = { λ p. p.bytes.items };

    ghost invariant = { λ p. IsTrue (is_path p.bytes.items) };
}

fn is_component_byte(byte: u8) -> bool
    ensures { result ≡ is_component_byte byte }
{
    (b'!'..=b'~').contains(&byte) && byte != b'"'
}

fn has_component_bytes(part: &[u8]) -> bool
    ensures { result ≡ list_all is_component_byte part.now }
{
    part.iter().all(|byte| is_component_byte(*byte))
}

fn is_component(part: &[u8]) -> bool
    ensures { result ≡ is_component part.now }
{
    has_component_bytes(part)
        && !part.is_empty()
        && part != b".".as_slice()
        && part != b"..".as_slice()
}

fn first_slash(bytes: &[u8]) -> Option<usize>
    ensures { result ≡ position is_slash bytes.now }
{
    bytes.iter().position(|byte| *byte == b'/')
}

fn rest_behind(bytes: &[u8], at: usize) -> &[u8]
    requires { at < length bytes.now }
    ensures { result.now ≡ drop (at + 1) bytes.now }
{
    &bytes[at + 1..]
}

// Where the first bad component begins, in a path whose components are these after its first slash.
#[tactic(auto, using(crate::proofs::Splits::split_some, crate::proofs::Splits::first_bad_more, crate::proofs::Splits::first_bad_here, crate::proofs::Splits::split_none))]
fn first_bad(components: &[u8]) -> Option<usize>
    requires { length components.now < 2000 }
    ensures { result ≡ first_bad 1 (slice_split is_slash components.now) }
{
    let mut place = 1;
    let mut rest = components;
    loop {
        let Some(end) = first_slash(rest) else {
            return if is_component(rest) {
                None
            } else {
                Some(place)
            };
        };
        if !is_component(&rest[..end]) {
            return Some(place);
        }
        place += end + 1;
        rest = rest_behind(rest, end);
    }
}

// Why bytes are no path, where they are none.
fn check(bytes: &[u8]) -> Result<(), PathFault>
    ensures { path_of bytes.now ≡ result_and result (Ok bytes.now) }
{
    if bytes.len() > PATH_MAX {
        return Err(PathFault::PathLong);
    }
    let [b'/', components @ ..] = bytes else {
        return Err(PathFault::NotAbsolute);
    };
    if !components.is_empty() {
        if let Some(place) = first_bad(components) {
            return Err(PathFault::BadComponent(place));
        }
    }
    Ok(())
}

/// Whether bytes are an absolute path. It takes no memory.
pub fn is_path(bytes: &[u8]) -> bool
    ensures { result ≡ is_path bytes.now }
{
    check(bytes).is_ok()
}

impl AbsPath {
    /// The path that the bytes are.
    pub fn read(alloc: Global, bytes: &[u8]) -> Result<AbsPath, PathFault>
        ensures { AnswersUnless PathFault.Memory (path_of bytes.now) result }
    {
        check(bytes)?;
        Ok(AbsPath::of(alloc, bytes)?)
    }

    /// The path that the bytes are, which are known to be one.
    pub fn of(alloc: Global, bytes: &[u8]) -> Result<AbsPath, AllocError>
        requires { IsTrue (is_path bytes.now) }
        ensures { IfOk result (λ path. path ≡ bytes.now) }
    {
        Ok(AbsPath {
            bytes: Vec::from_slice(alloc, bytes)?,
        })
    }

    /// The bytes of the path.
    pub fn bytes(&self) -> &[u8]
        ensures bytes { result.now ≡ self.now }
        ensures path { IsTrue (is_path result.now) }
    {
        &self.bytes
    }

    /// An equal path.
    pub fn copy(&self, alloc: Global) -> Result<AbsPath, AllocError>
        ensures { IfOk result (λ path. path ≡ self.now) }
    {
        AbsPath::of(alloc, self.bytes())
    }
}

impl PartialEq for AbsPath {
    ghost eq = { bytes_eq };

    ghost laws = { partial_equiv_from_equiv nat_list_eq_equiv };

    fn eq(&self, other: &AbsPath) -> bool {
        self.bytes() == other.bytes()
    }
}

impl Eq for AbsPath {
    ghost laws = { nat_list_eq_equiv };
}

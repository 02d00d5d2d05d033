//! The lines of a source, one at a time. No more is kept than the line under way and one piece that was
//! read ahead, and a line that is too long is found without being stored.
ghost use Rattle.std.specs.Prelude.{◌≡◌, ◌<◌, ◌≤◌, ◌+◌, ◌++◌, ◌==◌, [], length, drop, IfOk, OnOk, OnErr, IsErrOf, Err, nat_le, position, true, false};
ghost use Rattle.std.specs.Io.KnownBytes.{IsAtEnd};
ghost use Rattle.std.specs.List.{after_first, before_first};
ghost use Rattle.zn_io.specs.Streams.{Rose, before_known};
ghost use Rattle.zn_base.specs.Lines.{is_newline};
ghost use Rattle.input_lines.specs.Lines.{has_newline};
ghost use Rattle.input_lines.specs.Reading.{GivesLine, TakesBytes, TakesPart, lines_left};
ghost use Rattle.input_lines.specs.Taking.{BeginsLine, TakesPiece};
ghost use Rattle.input_lines.specs.declared.lines.ReadFault.TheVariants.{Memory};

use std::alloc::{AllocError, Global};
use std::marker::Model;
use thiserror::Error;
use zn_io::Source;

// How many bytes are read at once.
const PIECE: usize = 4096;

/// The greatest length of a line without its newline, in bytes.
pub const LINE_MAX: usize = 4096;

/// Why the input could not be read on.
#[derive(Clone, Copy, Debug, PartialEq, Eq, Error)]
pub enum ReadFault {
    #[error("out of memory")]
    Memory,
    #[error("the source has failed")]
    Failed,
}

impl From<AllocError> for ReadFault {
    ghost from_gives = { λ _ e. e ≡ Memory };

    fn from(_: AllocError) -> Self {
        ReadFault::Memory
    }
}

/// What a call of `next_line` came to.
#[derive(Clone, Copy, Debug, PartialEq, Eq)]
pub enum Got {
    /// A line, which may be the last one and lack its newline.
    Line,
    /// The end of the input.
    End,
    /// A line of more than `LINE_MAX` bytes.
    TooLong,
}

// What is ahead of a line under way.
#[derive(Clone, Copy, Debug, PartialEq, Eq)]
enum Part {
    Ends,
    GoesOn,
    Overlong,
}

/// Bytes that were read and not used yet.
#[derive(Drop)]
pub struct Ahead {
    piece: [u8; PIECE],
    from: usize,
    to: usize,
}

impl Model for Ahead {
    ghost use Rattle.std.specs.Prelude.{List, ℕ, ◌≤◌, take, drop};

    ghost Value = { List ℕ };

    ghost view = { λ a. drop a.from (take a.to a.piece) };

    ghost invariant = { λ a. (a.from ≤ a.to) × (a.to ≤ 4096) };
}

fn first_newline(bytes: &[u8]) -> Option<usize>
    ensures { result ≡ position is_newline bytes.now }
{
    bytes.iter().position(|byte| *byte == b'\n')
}

// Whether a line may have so many bytes more.
fn has_room(line: &[u8], count: usize) -> bool
    requires { count ≤ 4096 }
    ensures { result ≡ nat_le (length line.now + count) 4096 }
{
    line.len() <= LINE_MAX - count
}

impl Ahead {
    /// Nothing was read yet.
    pub fn new() -> Ahead
        ensures { result ≡ [] }
    {
        Ahead {
            piece: [0; PIECE],
            from: 0,
            to: 0,
        }
    }

    fn bytes(&self) -> &[u8]
        ensures bytes { result.now ≡ self.now }
        ensures bound { length result.now ≤ 4096 }
    {
        &self.piece[self.from..self.to]
    }

    /// Whether all that was read is used.
    pub fn is_empty(&self) -> bool
        ensures empty { result ≡ (length self.now == 0) }
        ensures few { length self.now ≤ 4096 }
    {
        self.bytes().is_empty()
    }

    fn skip(&mut self, count: usize)
        requires { count ≤ length self.old }
        ensures { self.new ≡ drop count self.old }
    {
        self.from += count;
    }

    // Reads a piece, where nothing is ahead.
    fn fill<S: Source>(&mut self, source: &mut S) -> Result<(), ReadFault>
        requires { self.old ≡ [] }
        ensures bytes { OnOk result (S.left source.old ≡ before_known self.new (S.left source.new)) }
        ensures end { OnOk result (self.new ≡ [] → IsAtEnd (S.left source.new)) }
        ensures kept { OnErr result ((self.new ≡ []) × (S.left source.new ≡ S.left source.old)) }
        ensures failed { OnErr result ((result ≡ Err ReadFault.Failed) × Rose (S.faults source.old) (S.faults source.new)) }
        ensures later { S.faults source.old ≤ S.faults source.new }
    {
        self.from = 0;
        self.to = 0;
        match source.read(&mut self.piece) {
            Ok(count) => {
                self.to = count;
                Ok(())
            }
            Err(_) => Err(ReadFault::Failed),
        }
    }

    /// Reads a piece where nothing is ahead, and says whether something is.
    #[tactic(auto, using(crate::proofs::Cuts::nothing_before))]
    pub fn refill<S: Source>(&mut self, source: &mut S) -> Result<bool, ReadFault>
        ensures bytes { OnOk result (before_known self.old (S.left source.old) ≡ before_known self.new (S.left source.new)) }
        ensures more { IfOk result (λ more. more ≡ true → 0 < length self.new) }
        ensures end { IfOk result (λ more. more ≡ false → (self.new ≡ []) × IsAtEnd (S.left source.new)) }
        ensures kept { OnErr result (before_known self.old (S.left source.old) ≡ S.left source.new) }
        ensures few { length self.new ≤ 4096 }
        ensures failed { OnErr result ((result ≡ Err ReadFault.Failed) × Rose (S.faults source.old) (S.faults source.new)) }
        ensures later { S.faults source.old ≤ S.faults source.new }
    {
        if !self.is_empty() {
            return Ok(true);
        }
        self.fill(source)?;
        Ok(!self.is_empty())
    }

    // Moves what stands before a newline onto a line, unless the line would be too long.
    #[tactic(auto, using(crate::proofs::Cuts::found_some, crate::proofs::Cuts::found_none))]
    fn take_part(&mut self, line: &mut Vec<u8>) -> Result<Part, AllocError>
        ensures { IfOk result (λ part. TakesPart part line.old.items line.new.items self.old self.new) }
    {
        match first_newline(self.bytes()) {
            Some(at) => {
                if !has_room(line, at) {
                    return Ok(Part::Overlong);
                }
                line.extend_from_slice(&self.bytes()[..at])?;
                self.skip(at + 1);
                Ok(Part::Ends)
            }
            None => {
                if !has_room(line, self.bytes().len()) {
                    return Ok(Part::Overlong);
                }
                line.extend_from_slice(self.bytes())?;
                self.skip(self.bytes().len());
                Ok(Part::GoesOn)
            }
        }
    }
}

/// Reads the next line into `line`, without its newline.
pub fn next_line<S: Source>(
    ahead: &mut Ahead,
    source: &mut S,
    line: &mut Vec<u8>,
) -> Result<Got, ReadFault>
    ensures got { IfOk result (λ got. GivesLine got line.new.items (lines_left ahead.old (S.left source.old)) (lines_left ahead.new (S.left source.new))) }
    ensures took { IfOk result (λ got. TakesBytes got line.new.items (before_known ahead.old (S.left source.old)) (before_known ahead.new (S.left source.new))) }
    ensures taken { TakesPiece (before_known ahead.old (S.left source.old)) (S.left source.new) }
    ensures begun { IsErrOf result ReadFault.Failed → BeginsLine (before_known ahead.old (S.left source.old)) (S.left source.new) }
    ensures few { IfOk result (λ got. got ≡ Got.Line → length ahead.new ≤ 4096) }
    ensures failed { IsErrOf result ReadFault.Failed → Rose (S.faults source.old) (S.faults source.new) }
    ensures later { S.faults source.old ≤ S.faults source.new }
{
    line.clear();
    loop {
        if !ahead.refill(source)? {
            return Ok(if line.is_empty() { Got::End } else { Got::Line });
        }
        match ahead.take_part(line)? {
            Part::Ends => return Ok(Got::Line),
            Part::Overlong => return Ok(Got::TooLong),
            Part::GoesOn => {}
        }
    }
}

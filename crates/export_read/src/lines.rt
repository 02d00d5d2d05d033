//! The lines of a text.
ghost use Rattle.std.specs.Prelude.{◌≡◌, ◌≤◌, ◌<◌, ◌+◌, ◌++◌, ◌∷◌, [], length, position, take, IfOk, OnOk};
ghost use Rattle.std.specs.List.{after_first, before_first};
ghost use Rattle.zn_base.specs.Lines.{is_newline, lines_of};
ghost use Rattle.export_read.specs.Lines.{ended};

use std::alloc::{AllocError, Global};

fn newline_in(bytes: &[u8]) -> Option<usize>
    ensures { result ≡ position is_newline bytes.now }
{
    bytes.iter().position(|byte| *byte == b'\n')
}

/// The first line, without its newline.
pub fn first_line(bytes: &[u8]) -> &[u8]
    ensures { result.now ≡ before_first is_newline bytes.now }
{
    match newline_in(bytes) {
        Some(place) => &bytes[..place],
        None => bytes,
    }
}

/// What follows the first line.
pub fn behind_line(bytes: &[u8]) -> &[u8]
    ensures { result.now ≡ after_first is_newline bytes.now }
{
    match newline_in(bytes) {
        Some(place) => &bytes[place + 1..],
        None => b"",
    }
}

fn push_line(out: &mut Vec<u8>, line: &[u8]) -> Result<(), AllocError>
    ensures { OnOk result (out.new.items ≡ out.old.items ++ (line.now ++ 10 ∷ [])) }
{
    out.extend_from_slice(line)?;
    out.push(b'\n')?;
    Ok(())
}

/// The first lines of a text, each with its newline.
#[tactic(auto, using(crate::proofs::Steps::lines_taken, crate::proofs::Steps::behind_less, crate::proofs::Steps::none_left))]
pub fn front(alloc: Global, text: &[u8], count: usize) -> Result<Vec<u8>, AllocError>
    ensures { IfOk result (λ front. front.items ≡ ended (take count (lines_of text.now))) }
{
    let mut front = Vec::new(alloc);
    let mut rest = text;
    let mut left = count;
    while left > 0 && !rest.is_empty() {
        push_line(&mut front, first_line(rest))?;
        rest = behind_line(rest);
        left -= 1;
    }
    Ok(front)
}

/// How many lines there are.
#[tactic(auto, using(crate::proofs::Steps::lines_fewer, crate::proofs::Steps::behind_less, crate::proofs::Steps::lines_few))]
pub fn count(text: &[u8]) -> usize
    ensures lines { result ≡ length (lines_of text.now) }
    ensures bound { result ≤ length text.now }
{
    let mut number = 0;
    let mut rest = text;
    while !rest.is_empty() {
        number += 1;
        rest = behind_line(rest);
    }
    number
}

//! Index texts, read.
ghost use Rattle.std.specs.Prelude.{◌≡◌, ◌≢◌, ◌∷◌, ◌++◌, ◌≤◌, ◌↔◌, ◌⊎◌, ℕ, List, Err, IfErr, IfOk, IfSome, IsTrue, None, Ok, Some, [], length, take};
ghost use Rattle.std.specs.List.{Any};
ghost use Rattle.std.specs.Option.{IsSomeAnd};
ghost use Rattle.uuid_text.specs.Text.{uuid_text};
ghost use Rattle.zn_base.specs.Path.{is_path};
ghost use Rattle.zn_base.specs.States.{is_stored, state_text};
ghost use Rattle.index_file.specs.declared.fault.IndexFault.TheVariants.{Memory};
ghost use Rattle.index_file.specs.declared.rows.IndexRow.{IndexRow};
ghost use Rattle.index_file.specs.Index.{escaped, line_text, IsIndexRow};
ghost use Rattle.index_file.specs.Reading.{ReadsAs, StandsFor};

use crate::printing::push_line;
use crate::{IndexFault, IndexRow};
use std::alloc::{AllocError, Global};
use uuid::fmt::Hyphenated;
use uuid_text::read_uuid;
use zn_base::{AbsPath, PathFault, ZoneName, ZoneState, place_of_byte, split_at_byte};

// The fields of a line, as they stand in it.
#[derive(Clone, Copy)]
struct Fields<'a> {
    name: &'a [u8],
    state: &'a [u8],
    path: &'a [u8],
    uuid: &'a [u8],
}

// A UUID's text is as long as all others, so it is cut off the end of a line, with the newline after it and
// the colon before it.
fn cut_fields(line: &[u8]) -> Option<Fields<'_>>
    ensures { (row : IndexRow) → IsIndexRow row → line.now ≡ line_text row → IsSomeAnd result (λ fields. (fields.name.now ≡ row.name) × (fields.state.now ≡ state_text row.state) × (fields.path.now ≡ escaped row.path) × (fields.uuid.now ≡ uuid_text row.uuid)) }
{
    let (name, behind_name) = split_at_byte(line, b':');
    let (state, behind_state) = split_at_byte(behind_name?, b':');
    let rest = behind_state?;
    if rest.len() < Hyphenated::LENGTH + 2 {
        return None;
    }
    let end = rest.len() - 1;
    let start = end - Hyphenated::LENGTH;
    Some(Fields {
        name,
        state,
        path: &rest[..start - 1],
        uuid: &rest[start..end],
    })
}

// The bytes without the backslashes that stand before others.
fn unescaped(alloc: Global, bytes: &[u8]) -> Result<Vec<u8>, AllocError>
    ensures { (path : List ℕ) → bytes.now ≡ escaped path → IfOk result (λ found. found.items ≡ path) }
{
    let mut path = Vec::new(alloc);
    let mut is_held = false;
    for byte in bytes {
        if *byte == b'\\' && !is_held {
            is_held = true;
        } else {
            path.push(*byte)?;
            is_held = false;
        }
    }
    Ok(path)
}

fn read_path(alloc: Global, bytes: &[u8]) -> Result<Option<AbsPath>, IndexFault>
    ensures path { (path : List ℕ) → IsTrue (is_path path) → bytes.now ≡ escaped path → IfOk result (λ found. found ≡ Some path) }
    ensures memory { IfErr result (λ fault. fault ≡ Memory) }
{
    let path = unescaped(alloc, bytes)?;
    match AbsPath::read(alloc, &path) {
        Ok(path) => Ok(Some(path)),
        Err(PathFault::Memory) => Err(IndexFault::Memory),
        Err(_) => Ok(None),
    }
}

// The row whose line this is, if there is one.
fn guess(alloc: Global, line: &[u8]) -> Result<Option<IndexRow>, IndexFault>
    ensures right { (row : IndexRow) → IsIndexRow row → line.now ≡ line_text row → IfOk result (λ guess. guess ≡ Some row) }
    ensures stored { IfOk result (λ guess. IfSome guess (λ row. IsTrue (is_stored row.state))) }
    ensures memory { IfErr result (λ fault. fault ≡ Memory) }
{
    let Some(fields) = cut_fields(line) else {
        return Ok(None);
    };
    let Some(state) = ZoneState::stored(fields.state) else {
        return Ok(None);
    };
    let Some(uuid) = read_uuid(fields.uuid) else {
        return Ok(None);
    };
    let Some(name) = ZoneName::read_if_name(alloc, fields.name)? else {
        return Ok(None);
    };
    let Some(path) = read_path(alloc, fields.path)? else {
        return Ok(None);
    };
    Ok(Some(IndexRow {
        name,
        state,
        path,
        uuid,
    }))
}

// A line is read with some leniency and compared with its row's: what is taken is right.
fn read_line(alloc: Global, line: &[u8]) -> Result<Option<IndexRow>, IndexFault>
    ensures row { IfOk result (λ found. IfSome found (λ row. IsIndexRow row × (line.now ≡ line_text row))) }
    ensures none { result ≡ Ok None → (row : IndexRow) → IsIndexRow row → line.now ≢ line_text row }
    ensures memory { IfErr result (λ fault. fault ≡ Memory) }
{
    let Some(row) = guess(alloc, line)? else {
        return Ok(None);
    };
    let mut text = Vec::new(alloc);
    push_line(&mut text, &row)?;
    if text.as_slice() == line {
        Ok(Some(row))
    } else {
        Ok(None)
    }
}

// The first line with its newline, or all where there is none, and what follows it.
fn cut_line(text: &[u8]) -> (&[u8], &[u8])
    ensures whole { text.now ≡ result.0.now ++ result.1.now }
    ensures some { text.now ≢ [] → result.0.now ≢ [] }
    ensures line { (row : IndexRow) (more : List ℕ) → IsIndexRow row → text.now ≡ line_text row ++ more → result.0.now ≡ line_text row }
{
    match place_of_byte(text, b'\n') {
        None => (text, &[]),
        Some(end) => text.split_at(end + 1),
    }
}

fn has_name(rows: &[IndexRow], name: &ZoneName) -> bool
    ensures { IsTrue result ↔ Any (λ row. row.name ≡ name.now) rows.now }
{
    rows.iter().any(|row| row.name == *name)
}

/// The rows whose index text the bytes are, or the number of the first line that is wrong, from 1: a line
/// that no row has, or one that names a zone of an earlier line. A last line without its newline is wrong.
pub fn read_index(alloc: Global, text: &[u8]) -> Result<Vec<IndexRow>, IndexFault>
    ensures rows { IfOk result (λ rows. StandsFor text.now rows.items) }
    ensures fault { IfErr result (λ fault. (fault ≡ Memory) ⊎ ReadsAs text.now (Err fault)) }
{
    let mut rows = Vec::new(alloc);
    let mut rest = text;
    while !rest.is_empty() {
        let (line, behind) = cut_line(rest);
        let number = rows.len() + 1;
        let Some(row) = read_line(alloc, line)? else {
            return Err(IndexFault::IndexLine(number));
        };
        if has_name(&rows, &row.name) {
            return Err(IndexFault::SameName(number));
        }
        rows.push(row)?;
        rest = behind;
    }
    Ok(rows)
}

//! Bodies of records, read.
ghost use Rattle.std.specs.Prelude.{◌≡◌, ◌≢◌, ◌+◌, ◌/◌, ◌%◌, ◌<◌, ◌≤◌, ◌^◌, ◌++◌, ◌↔◌, ℕ, List, IfOk, IfSome, IsTrue, None, Ok, Some, codes, length, option_map};
ghost use Rattle.std.specs.Option.{IsSomeAnd};
ghost use Rattle.uuid_text.specs.Text.{uuid_text};
ghost use Rattle.zn_base.specs.Cuts.{lacks};
ghost use Rattle.zn_base.specs.Lines.{newline};
ghost use Rattle.zn_base.specs.States.{state_text};
ghost use Rattle.zone_config.specs.Export.{export_text};
ghost use Rattle.zone_config.specs.Sound.{IsSound};
ghost use Rattle.zone_config.specs.declared.terms.Contents.{Contents};
ghost use Rattle.commit_journal.specs.declared.records.Commit.{Commit};
ghost use Rattle.commit_journal.specs.declared.records.Record.{Record};
ghost use Rattle.commit_journal.specs.Bodies.{body_text, padded, stored_text, told, HasDigits, IsCommit, IsRecord, IsStorable};
ghost use Rattle.commit_journal.specs.Store.{change_text};

use crate::bodies::body_of;
use crate::sizes::BODY_MAX;
use crate::{Commit, Record, StoredConfig};
use export_read::read_export;
use std::alloc::{AllocError, Global};
use uuid_text::read_uuid;
use zn_base::{ZoneName, ZoneState, split_at_byte};
use zone_config::ConfigFault;

// What a line says, and what follows it.
#[derive(Clone, Copy)]
struct Line<'a> {
    value: &'a [u8],
    rest: &'a [u8],
}

// The value after the word of the first line. Whether the word is there isn't looked at.
fn cut_line<'a>(bytes: &'a [u8], word: &[u8]) -> Option<Line<'a>>
    requires word { IsTrue (lacks newline word.now) }
    requires short { length word.now ≤ 100 }
    ensures { (value rest : List ℕ) → IsTrue (lacks newline value) → bytes.now ≡ told word.now value ++ rest → IsSomeAnd result (λ line. (line.value.now ≡ value) × (line.rest.now ≡ rest)) }
{
    let (line, rest) = split_at_byte(bytes, b'\n');
    let rest = rest?;
    let start = word.len() + 1;
    if line.len() < start {
        return None;
    }
    Some(Line {
        value: &line[start..],
        rest,
    })
}

// The number whose digits but the last are those of another, if it fits.
fn with_digit(front: u32, digit: u8) -> Option<u32>
    ensures { (n : ℕ) → n < 2 ^ 32 → front ≡ n / 10 → digit ≡ 48 + n % 10 → result ≡ Some n }
{
    if digit < b'0' {
        return None;
    }
    let value = front as u64 * 10 + (digit - b'0') as u64;
    if value > u32::MAX as u64 {
        return None;
    }
    Some(value as u32)
}

// The number that a few digits are: it calls itself once for each. Whether each byte is one isn't looked at.
fn number(digits: &[u8]) -> Option<u32>
    ensures { (k n : ℕ) → n < 2 ^ 32 → HasDigits k n → digits.now ≡ padded k n → result ≡ Some n }
{
    match digits {
        [] => Some(0),
        [front @ .., last] => with_digit(number(front)?, *last),
    }
}

// The revision that ten digits are. No line of another length is looked into.
fn revision_of(digits: &[u8]) -> Option<u32>
    ensures { (n : ℕ) → n < 2 ^ 32 → HasDigits 10 n → digits.now ≡ padded 10 n → result ≡ Some n }
{
    if digits.len() == 10 {
        number(digits)
    } else {
        None
    }
}

fn read_config(alloc: Global, text: &[u8]) -> Result<Option<StoredConfig>, AllocError>
    ensures { (c : Contents) → IsSound c → text.now ≡ export_text c → IfOk result (λ config. config ≡ Some c) }
{
    match read_export(alloc, text) {
        Ok(config) => Ok(Some(StoredConfig::new(alloc, config)?)),
        Err(ConfigFault::Memory) => Err(AllocError),
        Err(_) => Ok(None),
    }
}

// What the lines after a state's say of a zone, read with some leniency.
fn guess_record(alloc: Global, state: &[u8], rest: &[u8]) -> Result<Option<Record>, AllocError>
    ensures { (row : Record) → IsRecord row → state.now ≡ state_text row.state → rest.now ≡ told (codes "uuid") (uuid_text row.uuid) ++ (told (codes "revision") (padded 10 row.revision) ++ export_text row.config) → IfOk result (λ guess. guess ≡ Some row) }
{
    let Some(state) = ZoneState::stored(state) else {
        return Ok(None);
    };
    let Some(uuid_line) = cut_line(rest, b"uuid") else {
        return Ok(None);
    };
    let Some(uuid) = read_uuid(uuid_line.value) else {
        return Ok(None);
    };
    let Some(revision_line) = cut_line(uuid_line.rest, b"revision") else {
        return Ok(None);
    };
    let Some(revision) = revision_of(revision_line.value) else {
        return Ok(None);
    };
    let Some(config) = read_config(alloc, revision_line.rest)? else {
        return Ok(None);
    };
    Ok(Some(Record {
        state,
        uuid,
        revision,
        config,
    }))
}

// What a body says, read with some leniency.
fn guess(alloc: Global, body: &[u8]) -> Result<Option<Commit>, AllocError>
    ensures { (c : Commit) → IsCommit c → body.now ≡ body_text c → IfOk result (λ guess. guess ≡ Some c) }
{
    let Some(zone_line) = cut_line(body, b"zone") else {
        return Ok(None);
    };
    let Some(state_line) = cut_line(zone_line.rest, b"state") else {
        return Ok(None);
    };
    let Some(zone) = ZoneName::read_if_name(alloc, zone_line.value)? else {
        return Ok(None);
    };
    if state_line.value == b"none".as_slice() {
        return Ok(Some(Commit { zone, stored: None }));
    }
    let Some(row) = guess_record(alloc, state_line.value, state_line.rest)? else {
        return Ok(None);
    };
    Ok(Some(Commit {
        zone,
        stored: Some(row),
    }))
}

fn is_storable(stored: Option<&Record>) -> bool
    ensures { IsTrue result ↔ IfSome stored.entry (λ row. IsStorable row.now) }
{
    match stored {
        None => true,
        Some(row) => { row.state.is_stored() && row.revision >= 1 && row.config.zonepath.is_some() }
    }
}

fn is_body(alloc: Global, commit: &Commit, body: &[u8]) -> Result<bool, AllocError>
    ensures same { IfOk result (λ is. IsTrue is ↔ (IfSome commit.now.stored IsStorable × (body.now ≡ body_text commit.now))) }
    ensures commit { IfOk result (λ is. IsTrue is → IsCommit commit.now) }
{
    if !is_storable(commit.stored.as_ref()) {
        return Ok(false);
    }
    let text = body_of(alloc, &commit.zone, commit.stored.as_ref())?;
    Ok(text.bytes() == body)
}

/// What a body says, `None` where it says nothing. A body is read with some leniency and compared with the
/// one that is then written: what is taken is right.
#[tactic(auto, using(crate::proofs::Lengths::long_is_none))]
pub(crate) fn read_commit(alloc: Global, body: &[u8]) -> Result<Option<Commit>, AllocError>
    ensures some { IfOk result (λ commit. IfSome commit (λ c. IsCommit c × (body.now ≡ body_text c))) }
    ensures none { result ≡ Ok None → (c : Commit) → IsCommit c → body.now ≢ body_text c }
{
    if body.len() > BODY_MAX {
        return Ok(None);
    }
    let Some(commit) = guess(alloc, body)? else {
        return Ok(None);
    };
    if is_body(alloc, &commit, body)? {
        Ok(Some(commit))
    } else {
        Ok(None)
    }
}

//! The body of one record of a store, written.
ghost use Rattle.std.specs.Prelude.{◌≡◌, ◌<◌, ◌^◌, ◌++◌, ◌+◌, ◌%◌, IfOk, IfSome, OnOk, codes, option_map};
ghost use Rattle.uuid_text.specs.Text.{uuid_text, IsUuid};
ghost use Rattle.zone_config.specs.Export.{export_text};
ghost use Rattle.zone_config.specs.Sound.{IsSound};
ghost use Rattle.commit_journal.specs.Bodies.{IsCommit, IsRecord, IsStorable, padded, record_text, stored_text, told};
ghost use Rattle.commit_journal.specs.Store.{change_text};

use crate::sizes::body_length;
use crate::{Record, StoredConfig};
use std::alloc::{AllocError, Global};
use uuid::Uuid;
use uuid_text::push_uuid;
use zn_base::ZoneName;
use zone_disk::Body;

fn push_told(out: &mut Vec<u8>, word: &[u8], value: &[u8]) -> Result<(), AllocError>
    ensures { OnOk result (out.new.items ≡ out.old.items ++ told word.now value.now) }
{
    out.extend_from_slice(word)?;
    out.push(b' ')?;
    out.extend_from_slice(value)?;
    out.push(b'\n')?;
    Ok(())
}

fn push_uuid_line(out: &mut Vec<u8>, uuid: Uuid) -> Result<(), AllocError>
    ensures text { OnOk result (out.new.items ≡ out.old.items ++ told (codes "uuid") (uuid_text uuid)) }
    ensures uuid { OnOk result (IsUuid uuid) }
{
    out.extend_from_slice(b"uuid ")?;
    push_uuid(out, uuid)?;
    out.push(b'\n')?;
    Ok(())
}

// The last digit of a number.
fn digit(number: u32) -> u8
    ensures { result ≡ 48 + number % 10 }
{
    b'0' + (number % 10) as u8
}

// A number in ten digits, with leading zeros.
#[tactic(auto, unfolding(crate::specs::Bodies::padded))]
fn push_padded(out: &mut Vec<u8>, number: u32) -> Result<(), AllocError>
    ensures { OnOk result (out.new.items ≡ out.old.items ++ padded 10 number) }
{
    let n8 = number / 10;
    let n7 = n8 / 10;
    let n6 = n7 / 10;
    let n5 = n6 / 10;
    let n4 = n5 / 10;
    let n3 = n4 / 10;
    let n2 = n3 / 10;
    let n1 = n2 / 10;
    let n0 = n1 / 10;
    out.extend_from_slice(&[
        digit(n0),
        digit(n1),
        digit(n2),
        digit(n3),
        digit(n4),
        digit(n5),
        digit(n6),
        digit(n7),
        digit(n8),
        digit(number),
    ])
}

fn push_revision(out: &mut Vec<u8>, revision: u32) -> Result<(), AllocError>
    ensures text { OnOk result (out.new.items ≡ out.old.items ++ told (codes "revision") (padded 10 revision)) }
    ensures fits { revision < 2 ^ 32 }
{
    out.extend_from_slice(b"revision ")?;
    push_padded(out, revision)?;
    out.push(b'\n')?;
    Ok(())
}

fn push_config(out: &mut Vec<u8>, config: &StoredConfig) -> Result<(), AllocError>
    ensures text { OnOk result (out.new.items ≡ out.old.items ++ export_text config.now) }
    ensures sound { IsSound config.now }
{
    out.extend_from_slice(config.text())
}

#[tactic(auto, unfolding(crate::specs::Bodies::record_text))]
fn push_record(out: &mut Vec<u8>, row: &Record) -> Result<(), AllocError>
    ensures text { OnOk result (out.new.items ≡ out.old.items ++ record_text row.now) }
    ensures record { OnOk result (IsStorable row.now → IsRecord row.now) }
{
    push_told(out, b"state", row.state.text())?;
    push_uuid_line(out, row.uuid)?;
    push_revision(out, row.revision)?;
    push_config(out, &row.config)
}

fn push_stored(out: &mut Vec<u8>, stored: Option<&Record>) -> Result<(), AllocError>
    ensures text { OnOk result (out.new.items ≡ out.old.items ++ stored_text (option_map (λ row. row.now) stored.entry)) }
    ensures record { OnOk result (IfSome stored.entry (λ row. IsStorable row.now → IsRecord row.now)) }
{
    match stored {
        None => push_told(out, b"state", b"none"),
        Some(row) => push_record(out, row),
    }
}

/// The body of a record: what is stored of a zone from then on, or that it is removed.
#[tactic(auto, unfolding(crate::specs::Bodies::body_text))]
pub(crate) fn body_of(
    alloc: Global,
    zone: &ZoneName,
    stored: Option<&Record>,
) -> Result<Body, AllocError>
    ensures text { IfOk result (λ body. body ≡ change_text zone.now (option_map (λ row. row.now) stored.entry)) }
    ensures commit { OnOk result (IfSome stored.entry (λ row. IsStorable row.now) → IsCommit (record { zone = zone.now; stored = option_map (λ row. row.now) stored.entry })) }
{
    let mut body = Body::begun(alloc, body_length(zone, stored))?;
    push_told(&mut body, b"zone", zone.bytes())?;
    push_stored(&mut body, stored)?;
    Body::ended(body)
}

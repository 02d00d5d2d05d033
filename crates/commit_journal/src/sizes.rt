//! How long a body will be, without writing it.
ghost use Rattle.std.specs.Prelude.{◌≡◌, ◌≤◌, length, option_map};
ghost use Rattle.commit_journal.specs.Bodies.{record_text, stored_text};
ghost use Rattle.commit_journal.specs.Journal.{body_size, fits_after};
ghost use Rattle.commit_journal.specs.Store.{change_text};

use crate::Record;
use zn_base::ZoneName;
use zone_disk::BANK_BYTES;

/// How many bytes a body has at most: its parts are at most some 32,900 together.
pub(crate) const BODY_MAX: usize = 34_000;

/// How many bytes what is stored of a zone has: the lines of the state, the UUID and the revision, and the export text. It takes
/// no memory.
#[tactic(auto, using(crate::proofs::Lengths::record_parts))]
pub fn record_length(row: &Record) -> usize
    ensures same { result ≡ length (record_text row.now) }
    ensures bound { result ≤ 33000 }
{
    7 + row.state.text().len() + 42 + 20 + row.config.text_length()
}

fn stored_length(stored: Option<&Record>) -> usize
    ensures same { result ≡ length (stored_text (option_map (λ row. row.now) stored.entry)) }
    ensures bound { result ≤ 33000 }
{
    match stored {
        None => 11,
        Some(row) => record_length(row),
    }
}

/// How many bytes the body of a record has. It takes no memory.
#[tactic(auto, using(crate::proofs::Lengths::body_parts))]
pub fn body_length(zone: &ZoneName, stored: Option<&Record>) -> usize
    ensures same { result ≡ length (change_text zone.now (option_map (λ row. row.now) stored.entry)) }
    ensures bound { result ≤ BODY_MAX }
{
    6 + zone.bytes().len() + stored_length(stored)
}

/// Whether the body of a zone's record and the next gate fit into the bank after the bytes in use, where what is stored of the
/// zone has so many bytes.
#[tactic(auto, using(crate::proofs::Lengths::zone_line))]
pub fn fits(used: u32, zone: &ZoneName, stored: usize) -> bool
    ensures { result ≡ fits_after used (body_size zone.now stored) }
{
    stored <= BANK_BYTES && used as usize + 5 + (6 + zone.bytes().len() + stored) <= BANK_BYTES
}

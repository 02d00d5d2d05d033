//! A law of the text.
ghost use Rattle.uuid_text.specs.Text.{UuidsDiffer};

/// A law: no two UUIDs have one text.
pub fn uuids_differ()
    ensures { UuidsDiffer }
{}

//! The text of a UUID, printed.
ghost use Rattle.std.specs.Prelude.{◌≡◌, ◌++◌, OnOk};
ghost use Rattle.uuid_text.specs.Text.{uuid_text, IsUuid};

use std::alloc::AllocError;
use uuid::Uuid;

/// Appends the text of a UUID. Where memory runs out, the bytes are as they were, or have a front of it after
/// them.
#[tactic(auto, using(crate::proofs::Parsed::parsed_is_uuid))]
pub fn push_uuid(out: &mut Vec<u8>, uuid: Uuid) -> Result<(), AllocError>
    ensures text { OnOk result (out.new.items ≡ out.old.items ++ uuid_text uuid) }
    ensures uuid { IsUuid uuid }
{
    let mut buffer = Uuid::encode_buffer();
    out.extend_from_slice(uuid.hyphenated().encode_lower(&mut buffer).as_bytes())
}

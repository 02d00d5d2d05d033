//! The text of a UUID, read.
ghost use Rattle.std.specs.Prelude.{◌≡◌, ℕ, List, IfSome, IsTrue, Some, bytes_eq};
ghost use Rattle.uuid_text.specs.Text.{uuid_text, IsUuid};

use uuid::Uuid;

// The UUID that the bytes say, in any spelling.
fn parse(text: &[u8]) -> Option<Uuid>
    ensures { (uuid : List ℕ) → IsUuid uuid → text.now ≡ uuid_text uuid → result ≡ Some uuid }
{
    Uuid::try_parse_ascii(text).ok()
}

// Whether the bytes are the text of a UUID.
#[tactic(auto, using(crate::proofs::Parsed::parsed_is_uuid))]
fn is_text_of(uuid: Uuid, text: &[u8]) -> bool
    ensures text { result ≡ bytes_eq (uuid_text uuid) text.now }
    ensures uuid { IsUuid uuid }
{
    let mut buffer = Uuid::encode_buffer();
    uuid.hyphenated().encode_lower(&mut buffer).as_bytes() == text
}

/// The UUID whose text the bytes are, if there is one. Of the spellings of a UUID that are in use only the
/// hyphenated one in lower case is its text. It takes no memory.
pub fn read_uuid(text: &[u8]) -> Option<Uuid>
    ensures some { IfSome result (λ uuid. IsUuid uuid × (text.now ≡ uuid_text uuid)) }
    ensures every { (uuid : List ℕ) → IsUuid uuid → text.now ≡ uuid_text uuid → result ≡ Some uuid }
{
    match parse(text) {
        Some(uuid) if is_text_of(uuid, text) => Some(uuid),
        _ => None,
    }
}

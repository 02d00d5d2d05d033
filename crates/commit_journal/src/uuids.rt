//! UUIDs of zones.
ghost use Rattle.std.specs.Prelude.{◌≡◌};
ghost use Rattle.commit_journal.specs.Uuids.{uuid_name, uuid_of};

use arrayvec::ArrayVec;
use itoa::Buffer;
use uuid::Uuid;
use zn_base::ZoneName;

// The longest name of a zone, a colon and the longest number.
const NAMED_MAX: usize = 74;

#[tactic(auto, using(crate::proofs::Lengths::name_short))]
fn uuid_name(name: &ZoneName, serial: u32) -> ArrayVec<u8, NAMED_MAX>
    ensures { result.items ≡ uuid_name name.now serial }
{
    let mut digits = Buffer::new();
    let mut text = ArrayVec::new();
    text.try_extend_from_slice(name.bytes()).unwrap();
    text.push(b':');
    text.try_extend_from_slice(digits.format(serial).as_bytes())
        .unwrap();
    text
}

/// The UUID of a zone that is made by the record of a number: version 5 of RFC 9562, in the namespace of
/// domain names, of the zone's name, a colon and the number in decimal. It takes no memory.
pub fn uuid_of(name: &ZoneName, serial: u32) -> Uuid
    ensures { result ≡ uuid_of name.now serial }
{
    let text = uuid_name(name, serial);
    Uuid::new_v5(&Uuid::NAMESPACE_DNS, text.as_slice())
}

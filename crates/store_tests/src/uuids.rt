//! UUIDs of zones, and the text of a UUID.
use commit_journal::uuid_of;
use std::test::Fail;
use uuid::Uuid;
use uuid_text::{push_uuid, read_uuid};
use zn_base::ZoneName;

// Another implementation of version 5 gives these UUIDs. With the long names, what is hashed ends about the end of a
// block.
#[test]
fn a_uuid_is_that_of_the_name_and_the_number(rt: HostRuntime) -> Result<(), Fail> {
    let web = ZoneName::read(rt.alloc(), b"web")?;
    let first = Uuid::try_parse_ascii(b"8a2e61b6-8ea3-5b49-9719-c91d461d9a87")?;
    assert_eq!(rt; uuid_of(&web, 1), first);
    let a = ZoneName::read(rt.alloc(), b"a")?;
    let last = Uuid::try_parse_ascii(b"4849e5c4-3380-51bf-a8e7-962dd6a02083")?;
    assert_eq!(rt; uuid_of(&a, 4_294_967_295), last);
    let long = [
        (37, b"2381a684-71e5-5d00-ae8c-e2ca1400bef3".as_slice()),
        (38, b"1b2919e6-fd63-5379-a4a0-ac74ff6ba2fb"),
        (46, b"3b3201f4-af57-50ae-8f77-e58894d85122"),
    ];
    for (length, uuid) in long {
        let mut name = Vec::new(rt.alloc());
        name.resize(length, b'z')?;
        let name = ZoneName::read(rt.alloc(), &name)?;
        let want = Uuid::try_parse_ascii(uuid)?;
        assert_eq!(rt; uuid_of(&name, 1), want, "{length} bytes");
    }
    Ok(())
}

// The other spellings of RFC 9562 and of other programs are none.
#[test]
fn a_uuid_has_one_text(rt: HostRuntime) -> Result<(), Fail> {
    let text = b"8a2e61b6-8ea3-5b49-9719-c91d461d9a87";
    let uuid = Uuid::try_parse_ascii(b"8A2E61B6-8EA3-5B49-9719-C91D461D9A87")?;
    let mut printed = Vec::new(rt.alloc());
    push_uuid(&mut printed, uuid)?;
    assert_eq!(rt; printed.as_slice(), text.as_slice());
    assert_eq!(rt; read_uuid(text), Some(uuid));
    let others = [
        b"8A2E61B6-8EA3-5B49-9719-C91D461D9A87".as_slice(),
        b"8a2e61b68ea35b499719c91d461d9a87",
        b"{8a2e61b6-8ea3-5b49-9719-c91d461d9a87}",
        b"urn:uuid:8a2e61b6-8ea3-5b49-9719-c91d461d9a87",
        b"8a2e61b6-8ea3-5b49-9719-c91d461d9a8",
        b"",
    ];
    for other in others {
        assert_eq!(rt; read_uuid(other), None);
    }
    Ok(())
}

//! Index texts, printed and read.
use index_file::{IndexFault, IndexRow, print_index, read_index};
use std::alloc::Global;
use std::test::Fail;
use uuid::Uuid;
use zn_base::{AbsPath, ZoneName, ZoneState};

// The UUIDs are those that another implementation of version 5 gives to the names `web:1` and `db:2`.
const WEB: &[u8] = b"web:installed:/zones/web:8a2e61b6-8ea3-5b49-9719-c91d461d9a87\n";

const DB: &[u8] = b"db:configured:/a\\:b\\\\c:3edb1a40-dd1b-5520-a4de-4684d80f8b22\n";

const BOTH: &[u8] = b"web:installed:/zones/web:8a2e61b6-8ea3-5b49-9719-c91d461d9a87
db:configured:/a\\:b\\\\c:3edb1a40-dd1b-5520-a4de-4684d80f8b22
";

// How many rows a text has, or its fault. Running out of memory ends the test.
fn count_rows(alloc: Global, text: &[u8]) -> Result<Result<usize, IndexFault>, IndexFault> {
    match read_index(alloc, text) {
        Ok(rows) => Ok(Ok(rows.len())),
        Err(IndexFault::Memory) => Err(IndexFault::Memory),
        Err(fault) => Ok(Err(fault)),
    }
}

#[test]
fn a_row_is_printed_with_its_path_escaped(rt: HostRuntime) -> Result<(), Fail> {
    let row = IndexRow {
        name: ZoneName::read(rt.alloc(), b"db")?,
        state: ZoneState::Configured,
        path: AbsPath::read(rt.alloc(), b"/a:b\\c")?,
        uuid: Uuid::try_parse_ascii(b"3EDB1A40-DD1B-5520-A4DE-4684D80F8B22")?,
    };
    assert_eq!(rt; print_index(rt.alloc(), &[row])?.as_slice(), DB);
    Ok(())
}

#[test]
fn a_text_is_read_as_its_rows(rt: HostRuntime) -> Result<(), Fail> {
    let rows = read_index(rt.alloc(), BOTH)?;
    assert_eq!(rt; rows.len(), 2);
    assert_eq!(rt; rows[0].name.bytes(), b"web".as_slice());
    assert_eq!(rt; rows[0].state, ZoneState::Installed);
    assert_eq!(rt; rows[1].path.bytes(), b"/a:b\\c".as_slice());
    assert_eq!(rt;
        rows[1].uuid,
        Uuid::try_parse_ascii(b"3edb1a40-dd1b-5520-a4de-4684d80f8b22")?
    );
    assert_eq!(rt; print_index(rt.alloc(), &rows)?.as_slice(), BOTH);
    Ok(())
}

#[test]
fn a_front_of_a_text_is_an_index_at_the_end_of_a_line(rt: HostRuntime) -> Result<(), Fail> {
    for length in 0..=BOTH.len() {
        let said = if length == 0 {
            Ok(0)
        } else if length < WEB.len() {
            Err(IndexFault::IndexLine(1))
        } else if length == WEB.len() {
            Ok(1)
        } else if length < BOTH.len() {
            Err(IndexFault::IndexLine(2))
        } else {
            Ok(2)
        };
        assert_eq!(rt; count_rows(rt.alloc(), &BOTH[..length])?, said);
    }
    Ok(())
}

// A backslash stands before each colon and backslash of a path, and before nothing else.
#[test]
fn every_path_has_one_spelling(rt: HostRuntime) -> Result<(), Fail> {
    let cases = [
        (b"/".as_slice(), Ok(1)),
        (b"/.\\:", Ok(1)),
        (b"/\\.", Err(IndexFault::IndexLine(1))),
        (b"/a\\", Err(IndexFault::IndexLine(1))),
        (b"", Err(IndexFault::IndexLine(1))),
    ];
    for (path, came) in cases {
        let mut text = b"a:installed:".to_vec(rt.alloc())?;
        text.extend_from_slice(path)?;
        text.extend_from_slice(b":8a2e61b6-8ea3-5b49-9719-c91d461d9a87\n")?;
        assert_eq!(rt; count_rows(rt.alloc(), &text)?, came);
    }
    Ok(())
}

#[test]
fn the_first_wrong_line_is_told(rt: HostRuntime) -> Result<(), Fail> {
    let faults = [
        (b"\n".as_slice(), IndexFault::IndexLine(1)),
        (
            b"web:running:/zones/web:8a2e61b6-8ea3-5b49-9719-c91d461d9a87\n",
            IndexFault::IndexLine(1),
        ),
        (
            b"web:installed:/zones/web:8A2E61B6-8EA3-5B49-9719-C91D461D9A87\n",
            IndexFault::IndexLine(1),
        ),
        (
            b"web:installed:/zones:web:8a2e61b6-8ea3-5b49-9719-c91d461d9a87\n",
            IndexFault::IndexLine(1),
        ),
        (
            b"web:installed:/zones\\web:8a2e61b6-8ea3-5b49-9719-c91d461d9a87\n",
            IndexFault::IndexLine(1),
        ),
        (
            b"web:/zones/web:installed:8a2e61b6-8ea3-5b49-9719-c91d461d9a87\n",
            IndexFault::IndexLine(1),
        ),
        (
            b"web:installed:/zones/web:8a2e61b6-8ea3-5b49-9719-c91d461d9a87\r\n",
            IndexFault::IndexLine(1),
        ),
        (
            b"web:installed:/zones/web:8a2e61b6-8ea3-5b49-9719-c91d461d9a87
web:configured:/a:3edb1a40-dd1b-5520-a4de-4684d80f8b22
web
",
            IndexFault::SameName(2),
        ),
        (
            b"web:installed:/zones/web:8a2e61b6-8ea3-5b49-9719-c91d461d9a87
web
web:configured:/a:3edb1a40-dd1b-5520-a4de-4684d80f8b22
",
            IndexFault::IndexLine(2),
        ),
    ];
    for (text, fault) in faults {
        assert_eq!(rt; count_rows(rt.alloc(), text)?, Err(fault));
    }
    Ok(())
}

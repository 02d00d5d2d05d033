//! How replies are printed that no trace of a few lines is answered: what is refused and what fails, each with its code, and
//! bodies of a text that is empty, and of links beside addresses.
use crate::kept::Kept;
use crate::texts::is_same;
use config_terms::Kind;
use config_verify::Flaw;
use kernel_objects::Errno;
use priv_sets::PrivFault;
use std::alloc::Global;
use std::process::Abort;
use std::test::Fail;
use trace_text::print_reply;
use zn_base::{Bytes, Listing, NameFault, Text, TextFault, ZoneState};
use zone_cases::{Body, Head, Refusal, Reply, Subject};
use zone_pools::Pool;
use zoneadmd_steps::{Outcome, TurnReply};
use zonecfg_lex::LexFault;
use zonecfg_scopes::{EditFault, Scope};

// What a reply tells.
enum Told {
    BadName(NameFault),
    Edit(EditFault),
    UnknownBrand(&'static [u8]),
    WrongState(ZoneState),
    Denied(Pool),
    Waiting(u32),
    Errno(Errno),
    FailedDenied(u32, Pool),
    FailedTooLarge(u32, u32),
    FinishedPrivilege(u32, PrivFault),
    FinishedUnknownBrand(u32, &'static [u8]),
}

type Row = (Told, &'static str);

fn failed(number: u32, outcome: Outcome) -> Head {
    Head::Turned(TurnReply::Failed(number, outcome))
}

fn finished(ticket: u32, outcome: Outcome) -> Head {
    Head::Turned(TurnReply::Finished(ticket, outcome))
}

fn head(alloc: Global, told: &Told) -> Result<Head, TextFault> {
    Ok(match told {
        Told::BadName(fault) => Head::Refused(Refusal::BadName(*fault)),
        Told::Edit(fault) => Head::Refused(Refusal::Edit(*fault)),
        Told::UnknownBrand(brand) => {
            let brand = Text::read(alloc, brand)?;
            Head::Refused(Refusal::Flawed(Flaw::UnknownBrand(brand)))
        }
        Told::WrongState(state) => Head::Refused(Refusal::WrongState(*state)),
        Told::Denied(pool) => Head::Refused(Refusal::Denied(*pool)),
        Told::Waiting(ticket) => Head::Refused(Refusal::Waiting(*ticket)),
        Told::Errno(errno) => Head::Refused(Refusal::Errno(*errno)),
        Told::FailedDenied(number, pool) => failed(*number, Outcome::Denied(*pool)),
        Told::FailedTooLarge(number, size) => failed(*number, Outcome::TooLarge(*size)),
        Told::FinishedPrivilege(ticket, fault) => finished(*ticket, Outcome::Privilege(*fault)),
        Told::FinishedUnknownBrand(ticket, brand) => {
            let brand = Text::read(alloc, brand)?;
            finished(*ticket, Outcome::NotVerified(Flaw::UnknownBrand(brand)))
        }
    })
}

// Whether a reply is printed so, as one that is the whole system's.
fn is_printed(alloc: Global, head: Head, body: Body, wanted: &str) -> Result<bool, Fail> {
    let reply = Kept(Reply { head, body });
    let text = print_reply(alloc, &Subject::Whole, &reply.0)?;
    Ok(is_same(&text, wanted.as_bytes()))
}

fn check(rt: &impl Abort, alloc: Global, rows: &[Row]) -> Result<(), Fail> {
    for (told, wanted) in rows {
        let head = head(alloc, told)?;
        assert!(rt; is_printed(alloc, head, Body::Nothing, wanted)?, "{wanted}");
    }
    Ok(())
}

const REFUSALS: &[Row] = &[
    (Told::BadName(NameFault::Empty), "* err 1 Empty\n"),
    (
        Told::Edit(EditFault::Lex(LexFault::OpenBracket(7))),
        "* err 13 OpenBracket 7\n",
    ),
    (
        Told::Edit(EditFault::WrongScope(Scope::Resource(Kind::Rctl))),
        "* err 32 WrongScope rctl\n",
    ),
    (Told::UnknownBrand(b"lx9"), "* err 46 UnknownBrand lx9\n"),
    (
        Told::WrongState(ZoneState::ShuttingDown),
        "* err 81 WrongState shutting_down\n",
    ),
    (Told::Denied(Pool::Zones), "* err 82 Denied zones\n"),
    (Told::Waiting(4294967295), "* err 91 Waiting 4294967295\n"),
    (Told::Errno(Errno::ENOENT), "* err ENOENT\n"),
];

#[test]
fn refusals(rt: HostRuntime) -> Result<(), Fail> {
    check(&rt, rt.alloc(), REFUSALS)
}

const FAILURES: &[Row] = &[
    (
        Told::FailedDenied(9, Pool::Pids),
        "* failed 9: 82 Denied pids\n",
    ),
    (
        Told::FailedDenied(2, Pool::Zids),
        "* failed 2: 82 Denied zids\n",
    ),
    (
        Told::FailedDenied(1, Pool::Store),
        "* failed 1: 82 Denied store\n",
    ),
    (
        Told::FailedTooLarge(1, 32769),
        "* failed 1: 29 TooLarge 32769\n",
    ),
    (
        Told::FinishedPrivilege(3, PrivFault::PrivWord(8)),
        "* finished 3 err 84 Privilege 47 PrivWord 8\n",
    ),
    (
        Told::FinishedPrivilege(3, PrivFault::PrivProhibited(4)),
        "* finished 3 err 84 Privilege 49 PrivProhibited dtrace_kernel\n",
    ),
    (
        Told::FinishedUnknownBrand(2, b"lx9"),
        "* finished 2 err 85 NotVerified 46 UnknownBrand lx9\n",
    ),
];

#[test]
fn failures(rt: HostRuntime) -> Result<(), Fail> {
    check(&rt, rt.alloc(), FAILURES)
}

fn lines(alloc: Global, rows: &[&[u8]]) -> Result<Listing<Bytes>, Fail> {
    let mut lines = Listing::new(alloc);
    for row in rows {
        lines.push(Bytes::from_slice(alloc, row)?)?;
    }
    Ok(lines)
}

#[test]
fn each_text_has_a_line(rt: HostRuntime) -> Result<(), Fail> {
    let body = Body::Lines(lines(rt.alloc(), &[b"proc_exec,proc_fork", b""])?);
    let wanted = "* ok\n| proc_exec,proc_fork\n| \n";
    assert!(rt; is_printed(rt.alloc(), Head::Ok, body, wanted)?);
    Ok(())
}

fn texts(alloc: Global, rows: &[&[u8]]) -> Result<Listing<Text>, Fail> {
    let mut texts = Listing::new(alloc);
    for row in rows {
        texts.push(Text::read(alloc, row)?)?;
    }
    Ok(texts)
}

#[test]
fn links_come_before_addresses(rt: HostRuntime) -> Result<(), Fail> {
    let links = texts(rt.alloc(), &[b"net1", b"net0"])?;
    let body = Body::Net(links, texts(rt.alloc(), &[b"10.0.0.2"])?);
    let wanted = "* ok\n| link net1\n| link net0\n| address 10.0.0.2\n";
    assert!(rt; is_printed(rt.alloc(), Head::Ok, body, wanted)?);
    Ok(())
}

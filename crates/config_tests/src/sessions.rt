//! Lines of an editing session, with what they tell, ask for and leave open, by tables.
use crate::values::{simple, text};
use config_terms::{ConfigFault, Kind};
use config_verify::Flaw;
use std::alloc::{AllocError, Global};
use std::process::Abort;
use std::test::Fail;
use zn_base::{Bytes, Listing, Text, ZoneName};
use zone_config::{ZoneConfig, blank, export};
use zonecfg_lex::LexFault;
use zonecfg_lines::{Ending, LineRefusal, LineReply, Stored, type_alone, type_line};
use zonecfg_scopes::{Base, EditFault, Editor, Scope};

// How a line ends. A flaw is told by its name.
#[derive(Clone, Copy, PartialEq, Eq)]
enum End {
    Asks(Ending),
    Refused(EditFault),
    Flawed(&'static str),
    NoZone,
    Usage,
}

const NOTHING: End = End::Asks(Ending::Nothing);

const EXIT: End = End::Asks(Ending::Exit { force: false });

const BAD_VALUE: End = End::Refused(EditFault::Config(ConfigFault::BadValue));

const IN_FS: End = End::Refused(EditFault::WrongScope(Scope::Resource(Kind::Fs)));

fn flaw_name(flaw: &Flaw) -> &'static str {
    match flaw {
        Flaw::NoZonepath => "NoZonepath",
        Flaw::UnknownBrand(_) => "UnknownBrand",
        _ => "another flaw",
    }
}

fn end_of(end: &Result<Ending, LineRefusal>) -> End {
    match end {
        Ok(ending) => End::Asks(*ending),
        Err(LineRefusal::Edit(fault)) => End::Refused(*fault),
        Err(LineRefusal::Flawed(flaw)) => End::Flawed(flaw_name(flaw)),
        Err(LineRefusal::NoZone) => End::NoZone,
        Err(LineRefusal::Usage) => End::Usage,
    }
}

// A line, the lines that it tells, each with a newline, and its end.
type Row = (&'static [u8], &'static [u8], End);

fn joined(alloc: Global, lines: &Listing<Bytes>) -> Result<Vec<u8>, AllocError> {
    let mut text = Vec::new(alloc);
    for line in lines.as_slice() {
        text.extend_from_slice(line.as_slice())?;
        text.push(b'\n')?;
    }
    Ok(text)
}

fn is_reply(alloc: Global, reply: &LineReply, told: &[u8], end: End) -> Result<bool, AllocError> {
    Ok(joined(alloc, &reply.told)?.as_slice() == told && end_of(&reply.end) == end)
}

fn brands(alloc: Global) -> Result<Vec<Text>, Fail> {
    Ok(vec![in alloc; text(alloc, b"ipkg")?, text(alloc, b"lx")?]?)
}

// Editors and replies go through helpers without contracts, so that no test's proof follows what they hold.
fn typed(
    alloc: Global,
    editor: &mut Editor,
    stored: Option<Stored<'_>>,
    brands: &[Text],
    line: &[u8],
) -> Result<LineReply, AllocError> {
    if line.len() > 4200 {
        return Err(AllocError);
    }
    type_line(alloc, editor, line, stored, brands)
}

fn is_replied(
    alloc: Global,
    editor: &mut Editor,
    stored: Option<Stored<'_>>,
    brands: &[Text],
    row: &Row,
) -> Result<bool, AllocError> {
    let (line, told, end) = row;
    let reply = typed(alloc, editor, stored, brands, line)?;
    is_reply(alloc, &reply, told, *end)
}

fn are_replied(
    rt: &impl Abort,
    alloc: Global,
    editor: &mut Editor,
    stored: Option<Stored<'_>>,
    brands: &[Text],
    rows: &[Row],
) -> Result<(), Fail> {
    for row in rows {
        assert!(rt;
            is_replied(alloc, editor, stored, brands, row)?,
            "{:?}",
            row.0
        );
    }
    Ok(())
}

fn is_text(alloc: Global, editor: &Editor, wanted: &[u8]) -> Result<bool, ConfigFault> {
    match editor.config() {
        None => Ok(wanted.is_empty()),
        Some(config) => Ok(export(alloc, config)?.as_slice() == wanted),
    }
}

fn stands(
    rt: &impl Abort,
    alloc: Global,
    editor: &mut Editor,
    stored: Option<Stored<'_>>,
    rows: &[Row],
) -> Result<(), Fail> {
    let brands = brands(alloc)?;
    are_replied(rt, alloc, editor, stored, &brands, rows)
}

fn begun(alloc: Global, base: Option<Base>) -> Result<Editor, Fail> {
    let name = ZoneName::read(alloc, b"web")?;
    Ok(Editor::open(alloc, name, base)?)
}

fn leaves(
    rt: &impl Abort,
    alloc: Global,
    editor: &mut Editor,
    stored: Option<Stored<'_>>,
    rows: &[Row],
    seen: u32,
) -> Result<(), Fail> {
    stands(rt, alloc, editor, stored, rows)?;
    assert!(rt; is_text(alloc, editor, WEB)? && editor.seen() == seen);
    Ok(())
}

// Lines are replied so, and leave the zone `web` and the revision of its base.
fn come_to(
    rt: &impl Abort,
    alloc: Global,
    base: Option<Base>,
    stored: Option<Stored<'_>>,
    rows: &[Row],
    seen: u32,
) -> Result<(), Fail> {
    let mut editor = begun(alloc, base)?;
    leaves(rt, alloc, &mut editor, stored, rows, seen)
}

fn set(
    alloc: Global,
    config: &mut ZoneConfig,
    name: &[u8],
    value: &[u8],
) -> Result<(), ConfigFault> {
    config.set_property(alloc, name, simple(alloc, value)?)
}

fn set_web(alloc: Global, config: &mut ZoneConfig) -> Result<(), ConfigFault> {
    set(alloc, config, b"zonepath", b"/zones/web")?;
    set(alloc, config, b"brand", b"ipkg")
}

fn web(alloc: Global) -> Result<Base, ConfigFault> {
    let mut config = blank(alloc);
    set_web(alloc, &mut config)?;
    Ok(Base {
        config,
        revision: 1,
    })
}

fn come_to_stored(
    rt: &impl Abort,
    alloc: Global,
    config: &ZoneConfig,
    rows: &[Row],
    revision: u32,
) -> Result<(), Fail> {
    let stored = Some(Stored { config, revision });
    come_to(rt, alloc, Some(web(alloc)?), stored, rows, revision)
}

// The editor begins with revision 1 of the zone, and this one is stored by now.
fn come_to_made(rt: &impl Abort, alloc: Global, rows: &[Row], revision: u32) -> Result<(), Fail> {
    let made = web(alloc)?;
    come_to_stored(rt, alloc, &made.config, rows, revision)
}

const WEB: &[u8] = b"create -b
set zonepath=/zones/web
set brand=ipkg
set autoboot=false
set ip-type=shared
";

const REFUSED: &[Row] = &[
    (
        b"end",
        b"",
        End::Refused(EditFault::WrongScope(Scope::Global)),
    ),
    (b"delete", b"", End::Refused(EditFault::NeedForce)),
    (b"add fs", b"", NOTHING),
    (b"verify", b"", IN_FS),
    (
        b"set pool=\"a",
        b"",
        End::Refused(EditFault::Lex(LexFault::OpenQuote(9))),
    ),
    (b"cancel", b"", NOTHING),
];

#[test]
fn a_line_is_refused_as_its_subcommand_is(rt: HostRuntime) -> Result<(), Fail> {
    come_to_made(&rt, rt.alloc(), REFUSED, 1)
}

const OF_A_NEW_ZONE: &[Row] = &[
    (
        b"set autoboot=true",
        b"",
        End::Refused(EditFault::NothingOpen),
    ),
    (b"", b"", NOTHING),
    (b"# commit; end", b"", NOTHING),
    (b" ; ;", b"", NOTHING),
    (b"revert -F", b"", End::Refused(EditFault::NothingOpen)),
    (
        b"create -b; verify; info brand",
        b"",
        End::Flawed("NoZonepath"),
    ),
    (
        b"set zonepath=/zones/web; set brand=bsd; verify",
        b"",
        End::Flawed("UnknownBrand"),
    ),
    (b"set brand=lx; verify; info brand", b"brand: lx\n", NOTHING),
    (b"revert -F", b"", End::NoZone),
    (
        b"info pool; revert -F; info brand",
        b"pool: \n",
        End::NoZone,
    ),
    (b"set brand=ipkg; commit", b"", End::Asks(Ending::Commit)),
];

#[test]
fn a_new_zone_is_verified(rt: HostRuntime) -> Result<(), Fail> {
    come_to(&rt, rt.alloc(), None, None, OF_A_NEW_ZONE, 0)
}

// The lines of the subcommands before a refused one are told; of those after it none runs.
const UP_TO_A_REFUSAL: &[Row] = &[
    (
        b"info pool; set autoboot=perhaps; info brand; set pool=p1",
        b"pool: \n",
        BAD_VALUE,
    ),
    (
        b"info pool; set pool=\"a",
        b"",
        End::Refused(EditFault::Lex(LexFault::OpenQuote(20))),
    ),
    (
        b"info pool; set pool=",
        b"pool: \n",
        End::Refused(EditFault::Lex(LexFault::NoValue(10))),
    ),
    (
        b"set pool=p1; info pool; nonsense",
        b"pool: p1\n",
        End::Refused(EditFault::UnknownCommand),
    ),
    (
        b"info pool; clear pool; info brand",
        b"pool: p1\nbrand: ipkg\n",
        NOTHING,
    ),
];

#[test]
fn a_line_runs_up_to_a_refusal(rt: HostRuntime) -> Result<(), Fail> {
    come_to_made(&rt, rt.alloc(), UP_TO_A_REFUSAL, 1)
}

const AT_THE_END: &[Row] = &[
    (b"commit; set autoboot=true", b"", End::Usage),
    (b"info pool; delete; info brand", b"", End::Usage),
    (b"exit -F; exit", b"", End::Usage),
    (b"commit now; info", b"", End::Usage),
    (b"nonsense; exit; info", b"", End::Usage),
    (
        b"\"exit\"; info pool",
        b"",
        End::Refused(EditFault::UnknownCommand),
    ),
    (
        b"info pool; commit; ",
        b"pool: \n",
        End::Asks(Ending::Commit),
    ),
    (b"info exit", b"", End::Refused(EditFault::Usage)),
    (b"delete -F", b"", End::Asks(Ending::Delete)),
    (b"exit", b"", EXIT),
    (b"exit -F", b"", End::Asks(Ending::Exit { force: true })),
    (b"add fs; exit", b"", IN_FS),
    (b"exit -F", b"", End::Asks(Ending::Exit { force: true })),
];

#[test]
fn commit_delete_and_exit_end_a_line(rt: HostRuntime) -> Result<(), Fail> {
    come_to_made(&rt, rt.alloc(), AT_THE_END, 1)
}

const BACK: &[Row] = &[
    (
        b"set pool=p1; revert",
        b"",
        End::Refused(EditFault::NeedForce),
    ),
    (
        b"set autoboot=true; info pool; revert -F; info pool; info autoboot",
        b"pool: p1\npool: \nautoboot: false\n",
        NOTHING,
    ),
];

// What is stored is a later revision than the editor began with.
#[test]
fn revert_goes_back_to_what_is_stored(rt: HostRuntime) -> Result<(), Fail> {
    come_to_made(&rt, rt.alloc(), BACK, 7)
}

fn typed_alone(
    alloc: Global,
    editor: &mut Editor,
    stored: Option<Stored<'_>>,
    brands: &[Text],
    line: &[u8],
) -> Result<LineReply, AllocError> {
    if line.len() > 4200 {
        return Err(AllocError);
    }
    type_alone(alloc, editor, line, stored, brands)
}

fn is_replied_alone(
    alloc: Global,
    editor: &mut Editor,
    stored: Option<Stored<'_>>,
    brands: &[Text],
    row: &Row,
) -> Result<bool, AllocError> {
    let (line, told, end) = row;
    let reply = typed_alone(alloc, editor, stored, brands, line)?;
    is_reply(alloc, &reply, told, *end)
}

fn is_alone(
    alloc: Global,
    base: Option<Base>,
    stored: Option<Stored<'_>>,
    brands: &[Text],
    row: &Row,
) -> Result<bool, Fail> {
    let mut editor = begun(alloc, base)?;
    Ok(is_replied_alone(alloc, &mut editor, stored, brands, row)?)
}

fn are_alone_in_a_new_zone(
    rt: &impl Abort,
    alloc: Global,
    brands: &[Text],
    rows: &[Row],
) -> Result<(), Fail> {
    for row in rows {
        assert!(rt; is_alone(alloc, None, None, brands, row)?, "{:?}", row.0);
    }
    Ok(())
}

fn are_alone(
    rt: &impl Abort,
    alloc: Global,
    config: &ZoneConfig,
    brands: &[Text],
    rows: &[Row],
) -> Result<(), Fail> {
    let stored = Some(Stored {
        config,
        revision: 1,
    });
    for row in rows {
        let base = Some(web(alloc)?);
        assert!(rt; is_alone(alloc, base, stored, brands, row)?, "{:?}", row.0);
    }
    Ok(())
}

fn are_alone_in_web(
    rt: &impl Abort,
    alloc: Global,
    brands: &[Text],
    rows: &[Row],
) -> Result<(), Fail> {
    let made = web(alloc)?;
    are_alone(rt, alloc, &made.config, brands, rows)
}

const ALONE_OF_A_NEW_ZONE: &[Row] = &[
    (
        b"create -b; set zonepath=/zones/web; set brand=ipkg",
        b"",
        EXIT,
    ),
    (b"create -b; add fs", b"", IN_FS),
    (b"create; commit", b"", End::Asks(Ending::Commit)),
    (
        b"create; exit -F",
        b"",
        End::Asks(Ending::Exit { force: true }),
    ),
    (b"create; add fs; exit", b"", IN_FS),
    (
        b"set autoboot=true",
        b"",
        End::Refused(EditFault::NothingOpen),
    ),
    (b"exit; create", b"", End::Usage),
    (b"# nothing", b"", EXIT),
];

const ALONE: &[Row] = &[
    (
        b"info pool; set pool=p1; info pool",
        b"pool: \npool: p1\n",
        EXIT,
    ),
    (b"info pool; set autoboot=perhaps", b"pool: \n", BAD_VALUE),
    (b"info pool; add fs", b"pool: \n", IN_FS),
    (b"delete -F", b"", End::Asks(Ending::Delete)),
    (b"set pool=p1; revert -F; info pool", b"pool: \n", EXIT),
];

#[test]
fn a_line_alone_has_an_exit_put_in(rt: HostRuntime) -> Result<(), Fail> {
    let brands = brands(rt.alloc())?;
    are_alone_in_a_new_zone(&rt, rt.alloc(), &brands, ALONE_OF_A_NEW_ZONE)?;
    are_alone_in_web(&rt, rt.alloc(), &brands, ALONE)
}

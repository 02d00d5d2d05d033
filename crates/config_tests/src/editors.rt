//! Subcommands that are read and obeyed, by tables.
use crate::values::simple;
use config_terms::{ConfigFault, Kind};
use std::alloc::Global;
use std::process::Abort;
use std::test::Fail;
use zn_base::{Bytes, ZoneName};
use zone_config::{ZoneConfig, blank, export};
use zonecfg_lex::LexFault;
use zonecfg_scopes::{
    Base, Command, EditFault, EditReply, Editor, ListProperty, Scope, Topic, read_command,
};

fn read(alloc: Global, line: &[u8]) -> Result<Command, EditFault> {
    if line.len() > 4200 {
        return Err(EditFault::Usage);
    }
    read_command(alloc, line)
}

fn shown(command: &Command) -> &'static str {
    match command {
        Command::Blank => "nothing",
        Command::Add(Kind::Attr) => "add attr",
        Command::Append(ListProperty::Options, _) => "append to options",
        Command::Create {
            force: true,
            bare: true,
        } => "create -F -b",
        Command::Remove { force: true, .. } => "remove all",
        Command::Info(Topic::Resources(Kind::Fs)) => "info of each fs",
        _ => "something else",
    }
}

fn is_form(alloc: Global, line: &[u8], wanted: &str) -> Result<bool, EditFault> {
    let command = read(alloc, line)?;
    Ok(shown(&command) == wanted)
}

const FORMS: &[(&[u8], &str)] = &[
    (b"create -F -b", "create -F -b"),
    (b" add attr", "add attr"),
    (b"add options [ro,nodevices]", "append to options"),
    (b"remove -F net", "remove all"),
    (b"info fs", "info of each fs"),
    (b"\t", "nothing"),
];

#[test]
fn forms_are_read(rt: HostRuntime) -> Result<(), Fail> {
    for (line, wanted) in FORMS {
        assert!(rt; is_form(rt.alloc(), line, wanted)?, "{line:?}");
    }
    Ok(())
}

fn is_fault(alloc: Global, line: &[u8], wanted: EditFault) -> bool {
    match read(alloc, line) {
        Ok(_) => false,
        Err(fault) => fault == wanted,
    }
}

const FAULTS: &[(&[u8], EditFault)] = &[
    (b"set pool=\"a", EditFault::Lex(LexFault::OpenQuote(9))),
    (
        b"remove options [a",
        EditFault::Lex(LexFault::OpenBracket(15)),
    ),
    (b"set brand=", EditFault::Lex(LexFault::NoValue(10))),
    (b"add value", EditFault::Lex(LexFault::NoValue(9))),
    (b"select ufs a dir=", EditFault::Lex(LexFault::NoValue(17))),
    (b"#add fs", EditFault::UnknownCommand),
    (b"\"add\" fs", EditFault::UnknownCommand),
    (b"create -b -F", EditFault::Usage),
    (b"select fs", EditFault::Usage),
    (b"select attr value=a", EditFault::Usage),
    (b"info zonename", EditFault::Usage),
    (b"end fs", EditFault::Usage),
];

#[test]
fn faults_have_their_places(rt: HostRuntime) {
    for (line, wanted) in FAULTS {
        assert!(rt; is_fault(rt.alloc(), line, *wanted), "{line:?}");
    }
}

// A reply without its lines.
#[derive(Clone, Copy, PartialEq, Eq)]
enum Reply {
    Done,
    Lines,
    Verify,
    Commit,
    Revert,
    Delete,
    Exit(bool),
}

fn replied(reply: &EditReply) -> Reply {
    match reply {
        EditReply::Done => Reply::Done,
        EditReply::Lines(_) => Reply::Lines,
        EditReply::WantVerify => Reply::Verify,
        EditReply::WantCommit => Reply::Commit,
        EditReply::WantRevert => Reply::Revert,
        EditReply::WantDelete => Reply::Delete,
        EditReply::WantExit(force) => Reply::Exit(*force),
    }
}

type Row = (&'static [u8], Result<Reply, EditFault>);

// What a line is answered. Editors go through helpers without contracts, so that no test's proof follows what
// they hold.
fn answer(alloc: Global, editor: &mut Editor, line: &[u8]) -> Result<Reply, EditFault> {
    if line.len() > 4200 {
        return Err(EditFault::Usage);
    }
    match editor.command(alloc, line) {
        Ok(reply) => Ok(replied(&reply)),
        Err(fault) => Err(fault),
    }
}

fn are_answered(rt: &impl Abort, alloc: Global, editor: &mut Editor, rows: &[Row]) {
    for (line, wanted) in rows {
        assert!(rt; answer(alloc, editor, line) == *wanted, "{line:?}");
    }
}

// Lines of which none is refused, and none asks for something.
fn done(rt: &impl Abort, alloc: Global, editor: &mut Editor, lines: &[&[u8]]) {
    for line in lines {
        assert!(rt; answer(alloc, editor, line) == DONE, "{line:?}");
    }
}

fn is_text(alloc: Global, editor: &Editor, wanted: &[u8]) -> Result<bool, ConfigFault> {
    match editor.config() {
        None => Ok(wanted.is_empty()),
        Some(config) => Ok(export(alloc, config)?.as_slice() == wanted),
    }
}

fn begun(alloc: Global, base: Option<Base>) -> Result<Editor, Fail> {
    let name = ZoneName::read(alloc, b"web")?;
    Ok(Editor::open(alloc, name, base)?)
}

fn set(
    alloc: Global,
    config: &mut ZoneConfig,
    name: &[u8],
    text: &[u8],
) -> Result<(), ConfigFault> {
    config.set_property(alloc, name, simple(alloc, text)?)
}

fn set_web(alloc: Global, config: &mut ZoneConfig) -> Result<(), ConfigFault> {
    set(alloc, config, b"zonepath", b"/zones/web")?;
    set(alloc, config, b"brand", b"ipkg")
}

fn made(alloc: Global) -> Result<Base, ConfigFault> {
    let mut config = blank(alloc);
    set_web(alloc, &mut config)?;
    Ok(Base {
        config,
        revision: 1,
    })
}

fn stands(
    rt: &impl Abort,
    alloc: Global,
    editor: &mut Editor,
    rows: &[Row],
    wanted: &[u8],
) -> Result<(), Fail> {
    are_answered(rt, alloc, editor, rows);
    assert!(rt; is_text(alloc, editor, wanted)?);
    Ok(())
}

// The export text after lines that are answered so.
fn comes_to(
    rt: &impl Abort,
    alloc: Global,
    base: Option<Base>,
    rows: &[Row],
    wanted: &[u8],
) -> Result<(), Fail> {
    let mut editor = begun(alloc, base)?;
    stands(rt, alloc, &mut editor, rows, wanted)
}

const DONE: Result<Reply, EditFault> = Ok(Reply::Done);

const IN_NO_SCOPE: Result<Reply, EditFault> = Err(EditFault::WrongScope(Scope::Global));

const IN_FS: Result<Reply, EditFault> = Err(EditFault::WrongScope(Scope::Resource(Kind::Fs)));

const ANSWERS: &[Row] = &[
    (b"set autoboot=true", Err(EditFault::NothingOpen)),
    (b"help", Ok(Reply::Lines)),
    (b"create", DONE),
    (b"create -b", Err(EditFault::NeedForce)),
    (b"set zonepath=/zones/web", DONE),
    (b"cancel", IN_NO_SCOPE),
    (b"revert", Err(EditFault::NeedForce)),
    (b"add fs", DONE),
    (b"create -F", IN_FS),
    (b"set dir=/usr", DONE),
    (b"end", DONE),
    (b"select fs dir=/usr", DONE),
    (b"cancel", DONE),
    (
        b"select fs dir=/opt",
        Err(EditFault::Config(ConfigFault::NoMatch)),
    ),
    (b"add fs", DONE),
    (b"end", DONE),
    (
        b"remove fs",
        Err(EditFault::Config(ConfigFault::SeveralMatch(2))),
    ),
    (b"remove -F fs", DONE),
    (
        b"remove -F fs",
        Err(EditFault::Config(ConfigFault::NoMatch)),
    ),
    (b"info", Ok(Reply::Lines)),
    (b"revert -F", Ok(Reply::Revert)),
    (b"exit -F", Ok(Reply::Exit(true))),
];

const WEB: &[u8] = b"create -b
set zonepath=/zones/web
set brand=ipkg
set autoboot=false
set ip-type=shared
";

#[test]
fn an_editor_answers_and_refuses(rt: HostRuntime) -> Result<(), Fail> {
    comes_to(&rt, rt.alloc(), None, ANSWERS, WEB)
}

const REFUSALS: &[Row] = &[
    (b"end", IN_NO_SCOPE),
    (b"delete", Err(EditFault::NeedForce)),
    (b"add fs", DONE),
    (b"verify", IN_FS),
    (b"set pool=\"a", Err(EditFault::Lex(LexFault::OpenQuote(9)))),
];

#[test]
fn a_made_zone_is_edited_with_refusals(rt: HostRuntime) -> Result<(), Fail> {
    comes_to(&rt, rt.alloc(), Some(made(rt.alloc())?), REFUSALS, WEB)
}

const STAYS_OPEN: &[Row] = &[
    (b"create -b", DONE),
    (b"add fs", DONE),
    (b"set dir=/a", DONE),
    (b"end", DONE),
    (b"add attr", DONE),
    (
        b"export",
        Err(EditFault::WrongScope(Scope::Resource(Kind::Attr))),
    ),
];

const BEFORE: &[u8] = b"create -b
set autoboot=false
set ip-type=shared
add fs
set dir=/a
end
";

#[test]
fn a_scope_stays_open(rt: HostRuntime) -> Result<(), Fail> {
    comes_to(&rt, rt.alloc(), None, STAYS_OPEN, BEFORE)
}

const BUILT: &[Row] = &[
    (b"create -b", DONE),
    (b"set zonepath=/zones/web", DONE),
    (b"set brand=ipkg", DONE),
    (b"set ip-type=exclusive", DONE),
    (b"add fs", DONE),
    (b"set dir=/usr", DONE),
    (b"set special=/opt", DONE),
    (b"set type=lofs", DONE),
    (b"add options [ro,nodevices]", DONE),
    (b"end", DONE),
    (b"add net", DONE),
    (b"set physical=net0", DONE),
    (b"end", DONE),
    (b"add attr", DONE),
    (b"set name=owner", DONE),
    (b"set type=string", DONE),
    (b"set value=\"web team\"", DONE),
    (b"end", DONE),
    (b"select fs dir=/usr", DONE),
    (b"set special=/usr", DONE),
    (b"remove options nodevices", DONE),
    (b"end", DONE),
    (b"select attr name=owner", DONE),
    (b"clear value", DONE),
    (b"cancel", DONE),
];

const BUILT_TEXT: &[u8] = b"create -b
set zonepath=/zones/web
set brand=ipkg
set autoboot=false
set ip-type=exclusive
add fs
set dir=/usr
set special=/usr
set type=lofs
add options [ro]
end
add net
set physical=net0
end
add attr
set name=owner
set type=string
set value=\"web team\"
end
";

#[test]
fn resources_are_built_in_their_scopes(rt: HostRuntime) -> Result<(), Fail> {
    comes_to(&rt, rt.alloc(), None, BUILT, BUILT_TEXT)
}

// What is open becomes the base, where something is.
fn rebase(alloc: Global, editor: &mut Editor, revision: u32) -> Result<(), Fail> {
    let config = match editor.config() {
        None => blank(alloc),
        Some(config) => config.copy(alloc)?,
    };
    Ok(editor.rebase(alloc, Base { config, revision })?)
}

fn is_as(rt: &impl Abort, editor: &Editor, changed: bool, revision: u32) {
    assert!(rt; editor.changed() == changed && editor.seen() == revision);
}

const MAKE: &[&[u8]] = &[b"create -b", b"set zonepath=/zones/web", b"set brand=ipkg"];

const ADD: &[&[u8]] = &[b"add fs", b"set dir=/usr", b"add options ro", b"end"];

const REMOVE: &[&[u8]] = &[b"remove fs dir=/usr"];

const BEGIN: &[&[u8]] = &[b"add rctl"];

fn changes_before_its_base(rt: &impl Abort, alloc: Global, editor: &mut Editor) {
    is_as(rt, editor, false, 0);
    done(rt, alloc, editor, MAKE);
    is_as(rt, editor, true, 0);
}

fn changes_after_its_base(rt: &impl Abort, alloc: Global, editor: &mut Editor) {
    is_as(rt, editor, false, 7);
    done(rt, alloc, editor, ADD);
    is_as(rt, editor, true, 7);
}

fn comes_back_to_its_base(rt: &impl Abort, alloc: Global, editor: &mut Editor) {
    done(rt, alloc, editor, REMOVE);
    is_as(rt, editor, true, 8);
    done(rt, alloc, editor, ADD);
    is_as(rt, editor, false, 8);
    done(rt, alloc, editor, BEGIN);
    is_as(rt, editor, false, 8);
}

fn ends_its_scope(rt: &impl Abort, alloc: Global, editor: &mut Editor) {
    done(rt, alloc, editor, &[b"end"]);
    is_as(rt, editor, true, 8);
}

// A copy of an editor has its scope.
fn is_copied(rt: &impl Abort, alloc: Global, editor: &Editor) -> Result<(), Fail> {
    let mut copy = editor.copy(alloc)?;
    ends_its_scope(rt, alloc, &mut copy);
    Ok(())
}

fn changes(rt: &impl Abort, alloc: Global, editor: &mut Editor) -> Result<(), Fail> {
    changes_before_its_base(rt, alloc, editor);
    rebase(alloc, editor, 7)?;
    changes_after_its_base(rt, alloc, editor);
    rebase(alloc, editor, 8)?;
    comes_back_to_its_base(rt, alloc, editor);
    is_copied(rt, alloc, editor)
}

#[test]
fn changes_are_told_from_the_base(rt: HostRuntime) -> Result<(), Fail> {
    let mut editor = begun(rt.alloc(), None)?;
    changes(&rt, rt.alloc(), &mut editor)
}

const SHOWN: &[(&[u8], &[u8])] = &[
    (
        b"help",
        b"add cancel clear commit create delete end exit export help info remove revert select set verify\n",
    ),
    (
        b"info",
        b"zonename: web\nzonepath: /zones/web\nbrand: ipkg\nautoboot: false\nbootargs: \npool: \nlimitpriv: \nscheduling-class: \nip-type: shared\nhostid: \nfs-allowed: \nfs:\n    dir: /usr\n    options: [ro]\n",
    ),
    (b"info pool", b"pool: \n"),
    (b"info max-lwps", b""),
    (
        b"export",
        b"create -b\nset zonepath=/zones/web\nset brand=ipkg\nset autoboot=false\nset ip-type=shared\nadd fs\nset dir=/usr\nadd options [ro]\nend\n",
    ),
];

// The lines of an answer one after another, each with a newline.
fn joined_lines(alloc: Global, lines: &[Bytes]) -> Result<Vec<u8>, Fail> {
    let mut text = Vec::new(alloc);
    for line in lines {
        text.extend_from_slice(line.as_slice())?;
        text.push(b'\n')?;
    }
    Ok(text)
}

fn shows(alloc: Global, reply: &EditReply, wanted: &[u8]) -> Result<bool, Fail> {
    match reply {
        EditReply::Lines(lines) => Ok(joined_lines(alloc, lines.as_slice())?.as_slice() == wanted),
        _ => Ok(false),
    }
}

fn is_shown(alloc: Global, editor: &mut Editor, line: &[u8], wanted: &[u8]) -> Result<bool, Fail> {
    if line.len() > 4200 {
        return Ok(false);
    }
    let reply = editor.command(alloc, line)?;
    shows(alloc, &reply, wanted)
}

fn are_shown(rt: &impl Abort, alloc: Global, editor: &mut Editor) -> Result<(), Fail> {
    done(rt, alloc, editor, MAKE);
    done(rt, alloc, editor, ADD);
    for (line, wanted) in SHOWN {
        assert!(rt; is_shown(alloc, editor, line, wanted)?, "{line:?}");
    }
    Ok(())
}

#[test]
fn lines_are_shown(rt: HostRuntime) -> Result<(), Fail> {
    let mut editor = begun(rt.alloc(), None)?;
    are_shown(&rt, rt.alloc(), &mut editor)
}

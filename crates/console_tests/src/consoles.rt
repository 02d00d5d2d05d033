//! A zone's console: each call where it does something, each refusal, and how many bytes are kept. What is done goes
//! through helpers without contracts, so that no test's proof follows what a console keeps.
use console_link::{Console, ConsoleFault, OUTPUT_MAX};
use std::alloc::Global;
use std::test::Fail;

// What is done to a console, with what it is to answer.
enum Step {
    Write(&'static [u8]),
    WriteLine(&'static [u8]),
    Attach(u8, Result<(), ConsoleFault>),
    AttachInHalves(u8, Result<(), ConsoleFault>),
    Detach(Option<u8>),
    Clear,
    InUse(bool),
    Holder(Option<u8>),
    Reads(&'static [u8]),
    Takes(&'static [u8]),
    TakesInHalves(&'static [u8]),
    Types(&'static [u8], &'static [u8]),
    TypesInHalves(&'static [u8], &'static [u8]),
}

fn is_done(answer: Result<Vec<u8>, ConsoleFault>, wanted: &[u8]) -> bool {
    match answer {
        Ok(bytes) => bytes.as_slice() == wanted,
        Err(_) => false,
    }
}

fn attach_in_halves(console: &mut Console, session: u8) -> Result<(), ConsoleFault> {
    console.check_attach()?;
    console.attach_free(session);
    Ok(())
}

// Whether a step answers what it is to answer.
fn is_right(alloc: Global, console: &mut Console, step: &Step) -> bool {
    match step {
        Step::Write(bytes) => console.write(bytes),
        Step::WriteLine(text) => console.write_line(text),
        Step::Clear => console.clear(),
        Step::Attach(session, wanted) => return console.attach(*session) == *wanted,
        Step::AttachInHalves(session, wanted) => {
            return attach_in_halves(console, *session) == *wanted;
        }
        Step::Detach(wanted) => return console.detach() == *wanted,
        Step::InUse(wanted) => return console.in_use() == *wanted,
        Step::Holder(wanted) => return console.holder() == *wanted,
        Step::Reads(wanted) => return is_done(console.output(alloc), wanted),
        Step::Takes(wanted) => return is_done(console.take_output(alloc), wanted),
        Step::TakesInHalves(wanted) => {
            let output = console.output(alloc);
            console.clear();
            return is_done(output, wanted);
        }
        Step::Types(line, wanted) => return is_done(console.type_line(alloc, line), wanted),
        Step::TypesInHalves(line, wanted) => {
            let output = console.output_after(alloc, line);
            console.clear();
            return is_done(output, wanted);
        }
    }
    true
}

// The first step that answers something else.
fn first_wrong(alloc: Global, steps: &[Step]) -> Result<Option<usize>, Fail> {
    let mut console = Console::new(alloc)?;
    for (at, step) in steps.iter().enumerate() {
        if !is_right(alloc, &mut console, step) {
            return Ok(Some(at));
        }
    }
    Ok(None)
}

const ONE_HOLDER: &[Step] = &[
    Step::Holder(None),
    Step::InUse(false),
    Step::Detach(None),
    Step::Attach(2, Ok(())),
    Step::InUse(true),
    Step::Attach(3, Err(ConsoleFault::Taken)),
    Step::AttachInHalves(2, Err(ConsoleFault::Taken)),
    Step::Holder(Some(2)),
    Step::Detach(Some(2)),
    Step::InUse(false),
    Step::AttachInHalves(64, Ok(())),
    Step::Holder(Some(64)),
    Step::Clear,
    Step::Holder(Some(64)),
];

#[test]
fn one_session_is_attached(rt: HostRuntime) -> Result<(), Fail> {
    assert_eq!(rt; first_wrong(rt.alloc(), ONE_HOLDER)?, None);
    Ok(())
}

// A session reads what was written before it came, and no byte twice.
const TAKEN_ONCE: &[Step] = &[
    Step::Takes(b""),
    Step::WriteLine(b"web console login:"),
    Step::InUse(true),
    Step::Attach(1, Ok(())),
    Step::Reads(b"web console login:\n"),
    Step::Takes(b"web console login:\n"),
    Step::Takes(b""),
    Step::Write(b"a"),
    Step::Write(b""),
    Step::WriteLine(b""),
    Step::Detach(Some(1)),
    Step::Attach(2, Ok(())),
    Step::TakesInHalves(b"a\n"),
    Step::Write(b"lost"),
    Step::Clear,
    Step::Takes(b""),
];

#[test]
fn output_is_taken_once(rt: HostRuntime) -> Result<(), Fail> {
    assert_eq!(rt; first_wrong(rt.alloc(), TAKEN_ONCE)?, None);
    Ok(())
}

const LINES: &[Step] = &[
    Step::Types(b"", b""),
    Step::Types(b"root", b"root\n"),
    Step::Types(b"", b""),
    Step::WriteLine(b"up"),
    Step::TypesInHalves(b"", b"up\n"),
    Step::WriteLine(b"up"),
    Step::TypesInHalves(b" ", b"up\n \n"),
    Step::Reads(b""),
    Step::InUse(false),
];

#[test]
fn lines_are_typed(rt: HostRuntime) -> Result<(), Fail> {
    assert_eq!(rt; first_wrong(rt.alloc(), LINES)?, None);
    Ok(())
}

// What is read where so many `a` were written, then so many `b`, and then a line is typed: how many of each, and in all.
fn counts(
    alloc: Global,
    first: usize,
    then: usize,
    line: &[u8],
) -> Result<(usize, usize, usize), Fail> {
    let mut console = Console::new(alloc)?;
    for _ in 0..first {
        console.write(b"a");
    }
    console.write(&vec![in alloc; b'b'; then]?);
    let output = console.type_line(alloc, line)?;
    let firsts = output.iter().filter(|byte| **byte == b'a').count();
    let thens = output.iter().filter(|byte| **byte == b'b').count();
    Ok((firsts, thens, output.len()))
}

#[test]
fn the_last_bytes_are_kept(rt: HostRuntime) -> Result<(), Fail> {
    let alloc = rt.alloc();
    assert_eq!(rt; OUTPUT_MAX, 4096);
    assert_eq!(rt; counts(alloc, 4000, 96, b"")?, (4000, 96, 4096));
    assert_eq!(rt; counts(alloc, 4000, 97, b"")?, (3999, 97, 4096));
    assert_eq!(rt; counts(alloc, 4097, 0, b"")?, (4096, 0, 4096));
    assert_eq!(rt; counts(alloc, 5, 4096, b"")?, (0, 4096, 4096));
    assert_eq!(rt; counts(alloc, 5, 9000, b"")?, (0, 4096, 4096));
    assert_eq!(rt; counts(alloc, 4000, 96, b"xy")?, (3997, 96, 4096));
    assert_eq!(rt; counts(alloc, 4000, 93, b"xy")?, (4000, 93, 4096));
    Ok(())
}

// A call that memory runs out for is made again, and is then as if it were the first.
fn types_at_last(alloc: Global, console: &mut Console, line: &[u8], wanted: &[u8]) -> bool {
    match console.type_line(alloc, line) {
        Ok(bytes) => bytes.as_slice() == wanted,
        Err(_) => is_done(console.type_line(alloc, line), wanted),
    }
}

#[test]
fn nothing_changes_without_memory(rt: HostRuntime) -> Result<(), Fail> {
    let alloc = rt.alloc();
    let mut console = match Console::new(alloc) {
        Ok(console) => console,
        Err(_) => Console::new(alloc)?,
    };
    console.write_line(b"up");
    assert!(rt; types_at_last(alloc, &mut console, b"who", b"up\nwho\n"));
    console.write(b"root");
    assert!(rt; types_at_last(alloc, &mut console, b"", b"root"));
    Ok(())
}

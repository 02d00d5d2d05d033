//! The examples, each with the files beside it that say how it ends.
use crate::runs::{run, run_on};
use std::rt::Files;
use std::{fs, io};

struct Example {
    command: &'static str,
    // The input of a run before it, which has left its store; none: there is no store.
    before: Option<&'static str>,
    input: &'static str,
    status: u8,
    // The file of what comes on standard output; none: nothing.
    out: Option<&'static str>,
    // The file of the line on standard error; none: nothing.
    err: Option<&'static str>,
}

const EXAMPLES: &[Example] = &[
    Example {
        command: "export",
        before: None,
        input: "examples/web.zonecfg",
        status: 0,
        out: Some("examples/web.export"),
        err: None,
    },
    Example {
        command: "export",
        before: None,
        input: "examples/mount.zonecfg",
        status: 0,
        out: Some("examples/mount.export"),
        err: None,
    },
    Example {
        command: "export",
        before: None,
        input: "examples/full.zonecfg",
        status: 0,
        out: Some("examples/full.export"),
        err: None,
    },
    Example {
        command: "export",
        before: None,
        input: "examples/refused.zonecfg",
        status: 1,
        out: None,
        err: Some("examples/refused.message"),
    },
    Example {
        command: "trace",
        before: None,
        input: "examples/web.trace",
        status: 0,
        out: Some("examples/web.replies"),
        err: None,
    },
    Example {
        command: "script",
        before: None,
        input: "examples/web.script",
        status: 0,
        out: Some("examples/web.replies"),
        err: None,
    },
    Example {
        command: "trace",
        before: Some("examples/web.trace"),
        input: "examples/again.trace",
        status: 1,
        out: Some("examples/again.replies"),
        err: Some("examples/again.message"),
    },
    Example {
        command: "trace",
        before: None,
        input: "examples/two.trace",
        status: 1,
        out: Some("examples/two.replies"),
        err: Some("examples/two.message"),
    },
    Example {
        command: "purge db",
        before: None,
        input: "examples/two.trace",
        status: 1,
        out: Some("examples/purged.trace"),
        err: Some("examples/two.message"),
    },
    Example {
        command: "given",
        before: None,
        input: "examples/purged.trace",
        status: 1,
        out: Some("examples/purged.replies"),
        err: Some("examples/purged.message"),
    },
    Example {
        command: "trace",
        before: None,
        input: "examples/processes.trace",
        status: 1,
        out: Some("examples/processes.replies"),
        err: Some("examples/processes.message"),
    },
    Example {
        command: "trace",
        before: None,
        input: "examples/mounts.trace",
        status: 1,
        out: Some("examples/mounts.replies"),
        err: Some("examples/mounts.message"),
    },
    Example {
        command: "trace",
        before: None,
        input: "examples/requests.trace",
        status: 1,
        out: Some("examples/requests.replies"),
        err: Some("examples/requests.message"),
    },
    Example {
        command: "trace",
        before: None,
        input: "examples/configured.trace",
        status: 1,
        out: Some("examples/configured.replies"),
        err: Some("examples/configured.message"),
    },
    Example {
        command: "trace",
        before: None,
        input: "examples/listed.trace",
        status: 1,
        out: Some("examples/listed.replies"),
        err: Some("examples/listed.message"),
    },
    Example {
        command: "trace",
        before: None,
        input: "examples/edited.trace",
        status: 1,
        out: Some("examples/edited.replies"),
        err: Some("examples/edited.message"),
    },
    Example {
        command: "trace",
        before: None,
        input: "examples/logged.trace",
        status: 1,
        out: Some("examples/logged.replies"),
        err: Some("examples/logged.message"),
    },
];

fn text_of(rt: &(impl Files + AllocGlobal), file: Option<&str>) -> io::Result<Vec<u8>> {
    match file {
        Some(name) => fs::read(rt, name),
        None => Ok(Vec::new(rt.alloc())),
    }
}

// What the run before an example has left.
fn store_before(rt: &(impl Files + AllocGlobal), example: &Example) -> io::Result<Vec<u8>> {
    match example.before {
        Some(name) => Ok(run(rt.alloc(), example.command, fs::read(rt, name)?)?.store),
        None => Ok(Vec::new(rt.alloc())),
    }
}

// Whether an example ends as its files say.
fn is_kept(rt: &(impl Files + AllocGlobal), example: &Example) -> io::Result<bool> {
    let store = store_before(rt, example)?;
    let ended = run_on(
        rt.alloc(),
        example.command,
        fs::read(rt, example.input)?,
        store,
    )?;
    let out = text_of(rt, example.out)?;
    let err = text_of(rt, example.err)?;
    Ok(
        ended.status == example.status
            && ended.out.bytes() == out.as_slice()
            && ended.err.bytes() == err.as_slice(),
    )
}

/// Runs each example, and prints whether it ended as its files say.
pub fn check(rt: &(impl Files + Print + AllocGlobal)) -> io::Result<()> {
    for example in EXAMPLES {
        let said = if is_kept(rt, example)? {
            "as written"
        } else {
            "DIFFERS"
        };
        println!(rt; "{}: {}", example.input, said)?;
    }
    Ok(())
}

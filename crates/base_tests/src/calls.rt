//! Calls of processes, read and written, by tables.
use kernel_objects::Signal;
use process_calls::{Call, CallFault, MountCall, push_call, read_call};
use std::alloc::{AllocError, Global};
use std::test::Fail;
use zn_base::AbsPath;

const NAMES: &[&[u8]] = &[b"y", b"-", b"web-1.a_B", b"0123456789abcdef"];

fn text_of(alloc: Global, word: &[u8], rest: &[u8]) -> Result<Vec<u8>, AllocError> {
    let mut text = Vec::from_slice(alloc, word)?;
    text.extend_from_slice(rest)?;
    Ok(text)
}

fn is_fork(alloc: Global, text: &[u8], name: &[u8]) -> Result<bool, CallFault> {
    Ok(match &read_call(alloc, text)? {
        Call::Fork(read) => read.bytes() == name,
        _ => false,
    })
}

fn is_exec(alloc: Global, text: &[u8], name: &[u8]) -> Result<bool, CallFault> {
    Ok(match &read_call(alloc, text)? {
        Call::Exec(read) => read.bytes() == name,
        _ => false,
    })
}

fn follows_fork(alloc: Global, name: &[u8]) -> Result<bool, CallFault> {
    is_fork(alloc, &text_of(alloc, b"fork ", name)?, name)
}

fn follows_exec(alloc: Global, name: &[u8]) -> Result<bool, CallFault> {
    is_exec(alloc, &text_of(alloc, b"exec ", name)?, name)
}

#[test]
fn names_follow_fork_and_exec(rt: HostRuntime) -> Result<(), Fail> {
    for name in NAMES {
        assert!(rt; follows_fork(rt.alloc(), name)?, "{name:?}");
        assert!(rt; follows_exec(rt.alloc(), name)?, "{name:?}");
    }
    Ok(())
}

const KILLS: &[(&[u8], Signal, u32)] = &[
    (b"kill 0 3", Signal::Zero, 3),
    (b"kill 9 0", Signal::Kill, 0),
    (b"kill 15 4294967295", Signal::Term, 4_294_967_295),
];

fn is_kill(alloc: Global, text: &[u8], signal: Signal, pid: u32) -> Result<bool, CallFault> {
    Ok(match read_call(alloc, text)? {
        Call::Kill(read, number) => read == signal && number == pid,
        _ => false,
    })
}

#[test]
fn signals_and_numbers_follow_kill(rt: HostRuntime) -> Result<(), Fail> {
    for (text, signal, pid) in KILLS {
        assert!(rt; is_kill(rt.alloc(), text, *signal, *pid)?, "{text:?}");
    }
    Ok(())
}

const DROPS: &[(&[u8], u8)] = &[
    (b"drop contract_event", 0),
    (b"drop proc_exec", 25),
    (b"drop proc_fork", 26),
    (b"drop sys_time", 39),
];

fn is_drop(alloc: Global, text: &[u8], privilege: u8) -> Result<bool, CallFault> {
    Ok(match read_call(alloc, text)? {
        Call::Drop(number) => number == privilege,
        _ => false,
    })
}

#[test]
fn a_privilege_follows_drop(rt: HostRuntime) -> Result<(), Fail> {
    for (text, privilege) in DROPS {
        assert!(rt; is_drop(rt.alloc(), text, *privilege)?, "{text:?}");
    }
    Ok(())
}

// The calls that are one word.
#[derive(Clone, Copy, PartialEq, Eq)]
enum Bare {
    Exit,
    Ps,
    Privs,
    Mounts,
    Links,
    Datasets,
    Devices,
    Zonename,
    True,
    False,
}

const BARE: &[(&[u8], Bare)] = &[
    (b"exit", Bare::Exit),
    (b"ps", Bare::Ps),
    (b"privs", Bare::Privs),
    (b"mounts", Bare::Mounts),
    (b"links", Bare::Links),
    (b"datasets", Bare::Datasets),
    (b"devices", Bare::Devices),
    (b"zonename", Bare::Zonename),
    (b"true", Bare::True),
    (b"false", Bare::False),
];

fn bare_of(call: &Call) -> Option<Bare> {
    match call {
        Call::Exit => Some(Bare::Exit),
        Call::Ps => Some(Bare::Ps),
        Call::Privs => Some(Bare::Privs),
        Call::Mounts => Some(Bare::Mounts),
        Call::Links => Some(Bare::Links),
        Call::Datasets => Some(Bare::Datasets),
        Call::Devices => Some(Bare::Devices),
        Call::Zonename => Some(Bare::Zonename),
        Call::True => Some(Bare::True),
        Call::False => Some(Bare::False),
        _ => None,
    }
}

fn is_bare(alloc: Global, text: &[u8], wanted: Bare) -> Result<bool, CallFault> {
    Ok(bare_of(&read_call(alloc, text)?) == Some(wanted))
}

#[test]
fn calls_of_one_word_are_read(rt: HostRuntime) -> Result<(), Fail> {
    for (text, call) in BARE {
        assert!(rt; is_bare(rt.alloc(), text, *call)?, "{text:?}");
    }
    Ok(())
}

// The type, what is mounted, the directory, and whether it is read-only.
type Mounted = (&'static [u8], &'static [u8], &'static [u8], bool);

const MOUNTS: &[(&[u8], Mounted)] = &[
    (
        b"mount lofs /export /mnt ro",
        (b"lofs", b"/export", b"/mnt", true),
    ),
    (b"mount lofs / /", (b"lofs", b"/", b"/", false)),
    (
        b"mount nfs host:/e /m/n",
        (b"nfs", b"host:/e", b"/m/n", false),
    ),
    (b"mount LOFS ~!\"; /m", (b"LOFS", b"~!\";", b"/m", false)),
    (
        b"mount 0123456789abcde . /m ro",
        (b"0123456789abcde", b".", b"/m", true),
    ),
];

fn is_mounted(mount: &MountCall, wanted: Mounted) -> bool {
    let (fstype, special, dir, read_only) = wanted;
    mount.fstype.bytes() == fstype
        && mount.special.bytes() == special
        && mount.dir.bytes() == dir
        && mount.read_only == read_only
}

fn is_mount(alloc: Global, text: &[u8], wanted: Mounted) -> Result<bool, CallFault> {
    Ok(match &read_call(alloc, text)? {
        Call::Mount(boxed) => is_mounted(boxed.mount(), wanted),
        _ => false,
    })
}

#[test]
fn a_file_system_and_a_directory_follow_mount(rt: HostRuntime) -> Result<(), Fail> {
    for (text, wanted) in MOUNTS {
        assert!(rt; is_mount(rt.alloc(), text, *wanted)?, "{text:?}");
    }
    Ok(())
}

// The calls that have a path.
#[derive(Clone, Copy)]
enum Word {
    Umount,
    Read,
    Write,
}

const PATHS: &[(&[u8], Word, &[u8])] = &[
    (b"umount /", Word::Umount, b"/"),
    (b"umount /mnt", Word::Umount, b"/mnt"),
    (b"read /.a", Word::Read, b"/.a"),
    (b"write /a/b", Word::Write, b"/a/b"),
];

fn path_of(call: &Call, word: Word) -> Option<&AbsPath> {
    match (call, word) {
        (Call::Umount(path), Word::Umount)
        | (Call::Read(path), Word::Read)
        | (Call::Write(path), Word::Write) => Some(path),
        _ => None,
    }
}

fn has_path(alloc: Global, text: &[u8], word: Word, wanted: &[u8]) -> Result<bool, CallFault> {
    Ok(match path_of(&read_call(alloc, text)?, word) {
        Some(path) => path.bytes() == wanted,
        None => false,
    })
}

#[test]
fn a_path_follows_umount_read_and_write(rt: HostRuntime) -> Result<(), Fail> {
    for (text, word, path) in PATHS {
        assert!(rt; has_path(rt.alloc(), text, *word, path)?, "{text:?}");
    }
    Ok(())
}

const CALLS: &[&[u8]] = &[
    b"fork y",
    b"exec 0123456789abcdef",
    b"exit",
    b"kill 0 3",
    b"kill 9 0",
    b"kill 15 4294967295",
    b"ps",
    b"privs",
    b"drop contract_event",
    b"drop sys_time",
    b"mount lofs /export /mnt ro",
    b"mount nfs host:/e /m/n",
    b"umount /mnt",
    b"read /",
    b"write /a/b",
    b"mounts",
    b"links",
    b"datasets",
    b"devices",
    b"zonename",
    b"true",
    b"false",
];

// Puts the call that a text spells after what is there.
fn write(alloc: Global, line: &mut Vec<u8>, text: &[u8]) -> Result<(), CallFault> {
    let call = read_call(alloc, text)?;
    push_call(line, &call)?;
    Ok(())
}

// Whether a text is written of the call that it spells, after what was there.
fn is_written(alloc: Global, text: &[u8]) -> Result<bool, CallFault> {
    let mut line = Vec::from_slice(alloc, b"P a 3 ")?;
    write(alloc, &mut line, text)?;
    Ok(line.as_slice().strip_prefix(b"P a 3 ") == Some(text))
}

#[test]
fn calls_are_written_as_they_are_read(rt: HostRuntime) -> Result<(), Fail> {
    for text in CALLS {
        assert!(rt; is_written(rt.alloc(), text)?, "{text:?}");
    }
    Ok(())
}

const FAULTS: &[(&[u8], usize)] = &[
    // No word that begins a call.
    (b"", 0),
    (b" ", 0),
    (b" fork y", 0),
    (b"sync", 0),
    (b"Fork y", 0),
    (b"forks y", 0),
    (b"fork\ty", 0),
    (b"tru", 0),
    // A word is missing.
    (b"fork", 4),
    (b"exec", 4),
    (b"kill", 4),
    (b"kill 9", 6),
    (b"drop", 4),
    (b"mount", 5),
    (b"mount lofs", 10),
    (b"mount lofs /x", 13),
    (b"umount", 6),
    (b"read", 4),
    (b"write", 5),
    // A word is empty, or stands where another should.
    (b"fork ", 5),
    (b"fork  y", 5),
    (b"kill  9 3", 5),
    (b"kill 9  3", 7),
    (b"kill 3 9", 5),
    (b"drop fork", 5),
    (b"mount  /x /m", 6),
    (b"mount nfs  /m", 10),
    (b"mount nfs x ", 12),
    // A name that is none.
    (b"fork 0123456789abcdefg", 5),
    (b"exec a/b", 5),
    (b"fork a\x7f", 5),
    // Numbers.
    (b"kill 09 3", 5),
    (b"kill 1 3", 5),
    (b"kill 9 03", 7),
    (b"kill 9 00", 7),
    (b"kill 9 -3", 7),
    (b"kill 9 +3", 7),
    (b"kill 9 0x3", 7),
    (b"kill 9 4294967296", 7),
    (b"kill 9 18446744073709551617", 7),
    // No privilege.
    (b"drop 26", 5),
    (b"drop proc", 5),
    (b"drop PROC_FORK", 5),
    (b"drop proc_fork,proc_exec", 5),
    // No type of file system, nothing that can be mounted, and no path.
    (b"mount lo-fs /x /m", 6),
    (b"mount 0123456789abcdef x /m", 6),
    (b"mount lofs x /m", 11),
    (b"mount lofs /x/ /m", 11),
    (b"mount nfs x\x7f /m", 10),
    (b"mount nfs x m", 12),
    (b"mount nfs x /m/", 12),
    (b"mount nfs x /m rw", 15),
    (b"umount m", 7),
    (b"read .", 5),
    (b"read /a/../b", 5),
    (b"write /a//b", 6),
    // Of several faults the first.
    (b"fork a/b c", 5),
    (b"kill 1 03 x", 5),
    (b"kill 9 03 x", 7),
    (b"mount lo-fs x m rw", 6),
    (b"mount lofs x m rw", 11),
    (b"mount nfs x m rw", 12),
    // A word too many, which may be empty.
    (b"fork y z", 7),
    (b"exec y ", 7),
    (b"exit ", 5),
    (b"exit now", 5),
    (b"kill 9 3 4", 9),
    (b"kill 15 3 ", 10),
    (b"ps -f", 3),
    (b"privs all", 6),
    (b"drop proc_fork proc_exec", 15),
    (b"mount nfs x /m ", 15),
    (b"mount nfs x /m ro ro", 18),
    (b"umount /m /n", 10),
    (b"read /m ", 8),
    (b"write /m /n", 9),
    (b"mounts x", 7),
    (b"links x", 6),
    (b"datasets ", 9),
    (b"devices x", 8),
    (b"zonename a", 9),
    (b"true false", 5),
    (b"false ", 6),
];

fn is_fault(alloc: Global, text: &[u8], place: usize) -> bool {
    match read_call(alloc, text) {
        Ok(_) => false,
        Err(found) => found == CallFault::BadWord(place),
    }
}

#[test]
fn faults_have_the_place_of_their_word(rt: HostRuntime) {
    for (text, place) in FAULTS {
        assert!(rt; is_fault(rt.alloc(), text, *place), "{text:?}");
    }
}

#[test]
fn a_fault_names_its_place(rt: HostRuntime) -> Result<(), Fail> {
    let message = CallFault::BadWord(7).to_string(rt.alloc())?;
    assert_eq!(rt; message.as_str(), "a wrong or missing word at byte 7");
    Ok(())
}

//! The codes that can be printed, made from the fault types, and their paragraphs in docs/CODES.md.
use crate::runs::{Ended, run, run_on};
use commit_journal::StoreFault;
use config_verify::Flaw;
use kernel_objects::Errno;
use priv_sets::PrivFault;
use std::alloc::{AllocError, Global};
use std::rt::Files;
use std::{fs, io, str};
use trace_text::LineFault;
use zn_base::NameFault;
use zone_cases::Refusal;
use zone_config::ConfigFault;
use zone_machine::StepFault;
use zoneadmd_steps::Outcome;
use zonecfg_lex::LexFault;
use zonecfg_scopes::EditFault;

const PAGE: &str = "CODES.md";

// How the paragraph of a code begins; its code and name follow, to the end of the line.
const HEAD: &str = "### ";

// A command, `IN_A_ZONE` or `ON_A_DISK`, an input that it refuses, and the code and name that it prints.
type Run = (&'static str, &'static str, &'static str);

// A trace in which the zone `a` has its first process.
const IN_A_ZONE: &str = "trace in a zone";

// A trace without a line over a disk that has the input.
const ON_A_DISK: &str = "trace on a disk";

const BOOTED: &str = "S 1 zonecfg -z a create -b; set zonepath=/a; set brand=ipkg
S 1 zoneadm -z a install
D a\nD a\nD a\nD a\nD a\nD a\nD a\nD a\nD a\nD a
S 1 zoneadm -z a boot
D a\nD a\nD a\nD a\nD a\nD a\nD a\nD a\nD a\nD a\nD a\nD a\nD a\n";

// For each variant of a fault type the runs that print it: a variant that is left out doesn't compile.
macro_rules! runs_of {
    ($fault:ty: $($variant:pat => [$($run:expr),*]),+ $(,)?) => {
        match None::<&$fault> {
            None => &[$($($run,)*)+],
            $(Some($variant) => &[],)+
        }
    };
}

fn lex_runs() -> &'static [Run] {
    runs_of!(LexFault:
        LexFault::Memory => [],
        LexFault::OpenQuote(_) => [("export", "create; set pool=\"a\n", "11 OpenQuote")],
        LexFault::StrayByte(_) => [("export", "create; set pool=a)\n", "12 StrayByte")],
        LexFault::OpenBracket(_) => [("export", "create; set pool=(a\n", "13 OpenBracket")],
        LexFault::NoValue(_) => [("export", "create; set pool=\n", "14 NoValue")],
    )
}

const DUPLICATE: &str = "create; add attr; set name=a; end; add attr; set name=a; end\n";

const SEVERAL: &str = "create; add net; end; add net; end; remove net\n";

const OPTIONS: &str = "create; add fs
add options [a,a,a,a,a,a,a,a,a,a,a,a,a,a,a,a,a,a,a,a,a,a,a,a,a,a,a,a,a,a,a,a,a]\n";

const HELD: &str = "create; add rctl; set name=zone.max-lwps; end; set max-lwps=1\n";

// No command reads an export text, so none prints `NotExport`; `TooLarge` wants a longer input, as `too_large` makes.
fn config_runs() -> &'static [Run] {
    runs_of!(ConfigFault:
        ConfigFault::Memory => [],
        ConfigFault::NotExport(_) => [],
        ConfigFault::UnknownProperty => [("export", "create; set dir=/a\n", "22 UnknownProperty")],
        ConfigFault::BadValue => [("export", "create; set autoboot=yes\n", "23 BadValue")],
        ConfigFault::Duplicate => [("export", DUPLICATE, "24 Duplicate")],
        ConfigFault::NoMatch => [("export", "create; select fs dir=/a\n", "25 NoMatch")],
        ConfigFault::SeveralMatch(_) => [("export", SEVERAL, "26 SeveralMatch")],
        ConfigFault::TooMany(_) => [("export", OPTIONS, "27 TooMany")],
        ConfigFault::AliasHeld => [("export", HELD, "28 AliasHeld")],
        ConfigFault::TooLarge(_) => [],
    )
}

const TOO_LARGE: &str = "29 TooLarge";

// Nets with long names, so many that the export text would be too long.
fn too_large(alloc: Global) -> Result<Vec<u8>, AllocError> {
    let mut input = b"create\n".to_vec(alloc)?;
    for _ in 0..40 {
        input.extend_from_slice(b"add net; set physical=")?;
        for _ in 0..1000 {
            input.push(b'x')?;
        }
        input.extend_from_slice(b"; end\n")?;
    }
    Ok(input)
}

fn edit_runs() -> &'static [Run] {
    runs_of!(EditFault:
        EditFault::Memory => [],
        EditFault::Lex(_) => [],
        EditFault::UnknownCommand => [("export", "create; frob\n", "31 UnknownCommand")],
        EditFault::WrongScope(_) => [("export", "create; end\n", "32 WrongScope")],
        EditFault::NothingOpen => [("export", "verify\n", "33 NothingOpen")],
        EditFault::NeedForce => [("export", "create; create\n", "34 NeedForce")],
        EditFault::Usage => [("export", "create; add zone\n", "35 Usage")],
        EditFault::NotHere => [("export", "commit\n", "36 NotHere")],
        EditFault::Config(_) => [],
    )
}

const NO_ADDRESS: &str = "create; set zonepath=/z; add net; set physical=e0; end\n";

const NO_NUMBERS: &str = "create; set zonepath=/z; add net; set physical=e0; set address=x; end\n";

const ROOT_DIR: &str =
    "create; set zonepath=/z; add fs; set dir=/; set special=/a; set type=lofs; end\n";

const NO_NUMBER: &str =
    "create; set zonepath=/z; add attr; set name=n; set type=int; set value=x; end\n";

fn flaw_runs() -> &'static [Run] {
    runs_of!(Flaw:
        Flaw::Memory => [],
        Flaw::NoZonepath => [("export", "create\n", "41 NoZonepath")],
        Flaw::MissingProperty(_, _) => [(
            "export",
            "create; set zonepath=/z; add fs; end\n",
            "42 MissingProperty"
        )],
        Flaw::NetForm(_) => [("export", NO_ADDRESS, "43 NetForm")],
        Flaw::BadAddress(_) => [("export", NO_NUMBERS, "44 BadAddress")],
        Flaw::SameDir(_) => [("export", ROOT_DIR, "45 SameDir")],
        Flaw::UnknownBrand(_) => [(
            "export",
            "create; set zonepath=/z; set brand=lx9\n",
            "46 UnknownBrand"
        )],
        Flaw::AttrForm(_) => [("export", NO_NUMBER, "50 AttrForm")],
    )
}

fn line_runs() -> &'static [Run] {
    runs_of!(LineFault:
        LineFault::Memory => [],
        LineFault::BadTag => [("trace", "Q\n", "101 BadTag")],
        LineFault::BadWord(_) => [("trace", "S 65 x\n", "102 BadWord")],
        LineFault::GrantForm => [
            ("trace", "@- D a\n", "103 GrantForm"),
            ("given", "D a\n", "103 GrantForm")
        ],
        LineFault::SysAfterStart => [("trace", "S 1\nY link a\n", "104 SysAfterStart")],
    )
}

const LONG_NAME: &str = "S 1 zoneadm -z \
aaaaaaaaaaaaaaaaaaaaaaaaaaaaaaaaaaaaaaaaaaaaaaaaaaaaaaaaaaaaaaaa boot\n";

// A word of a line is never empty, so no command prints `Empty`.
fn name_runs() -> &'static [Run] {
    runs_of!(NameFault:
        NameFault::Memory => [],
        NameFault::Empty => [],
        NameFault::TooLong => [("trace", LONG_NAME, "2 TooLong")],
        NameFault::BadByte(_) => [("trace", "S 1 zoneadm -z -a boot\n", "3 BadByte")],
        NameFault::Reserved => [("trace", "S 1 zoneadm -z global boot\n", "4 Reserved")],
    )
}

const ROOT_PATH: &str = "S 1 zonecfg -z a create -b; set zonepath=/; set brand=ipkg\n";

const MADE_TWICE: &str = "S 1 zonecfg -z a create -b; set zonepath=/a; set brand=ipkg
S 1 zonecfg -z a create -b; set zonepath=/a; set brand=ipkg\n";

const UNKNOWN_BRAND: &str = "S 1 zonecfg -z a create -b; set zonepath=/a; set brand=lx9\n";

const SAME_PATH: &str = "S 1 zonecfg -z a create -b; set zonepath=/a; set brand=ipkg
S 1 zonecfg -z b create -b; set zonepath=/a; set brand=ipkg\n";

const ASKED_TWICE: &str = "S 1 zonecfg -z a create -b; set zonepath=/a; set brand=ipkg
S 1 zoneadm -z a install
S 1 zoneadm -z a install\n";

const DELETED_WHILE_ASKED: &str = "S 1 zonecfg -z a create -b; set zonepath=/a; set brand=ipkg
S 1 zoneadm -z a install
S 2 zonecfg -z a delete -F\n";

const CHANGED_MEANWHILE: &str = "S 1 zonecfg -z a create -b; set zonepath=/a; set brand=ipkg
S 1 zonecfg -z a
S 2 zonecfg -z a set autoboot=true
S 1 commit
S 1 set pool=x; commit
";

const ASKED_NINE_TIMES: &str = "S 1 zonecfg -z a create -b; set zonepath=/a; set brand=ipkg
S 1 zoneadm -z a install\nS 2 zoneadm -z a install\nS 3 zoneadm -z a install
S 4 zoneadm -z a install\nS 5 zoneadm -z a install\nS 6 zoneadm -z a install
S 7 zoneadm -z a install\nS 8 zoneadm -z a install\nS 9 zoneadm -z a install\n";

const VERIFIED: &str = "S 1 zonecfg -z a create; set zonepath=/a; set limitpriv=none
S 1 zoneadm -z a verify\n";

const NOT_BOOTED: &str = "S 1 zonecfg -z a create -b; set zonepath=/a; set brand=ipkg
S 1 zlogin a\n";

// `TooMany` and `TooManyMounts` want longer inputs; of the latter `too_many_mounts` makes one.
fn reply_runs() -> &'static [Run] {
    runs_of!(Refusal:
        Refusal::BadName(_) => [],
        Refusal::Edit(_) => [("trace", ROOT_PATH, "23 BadValue")],
        Refusal::WrongState(_) => [(IN_A_ZONE, "S 1 zonecfg -z a set zonepath=/b\n", "81 WrongState")],
        Refusal::Flawed(_) => [("trace", UNKNOWN_BRAND, "46 UnknownBrand")],
        Refusal::NeedForce => [
            ("trace", MADE_TWICE, "34 NeedForce"),
            ("trace", "S 1 zoneadm -z a uninstall\n", "34 NeedForce")
        ],
        Refusal::Denied(_) => [("trace", SAME_PATH, "82 Denied")],
        Refusal::NoZone => [("trace", "S 1 zoneadm -z a boot\n", "90 NoZone")],
        Refusal::Changed(_, _) => [("trace", CHANGED_MEANWHILE, "94 Changed")],
        Refusal::Waiting(_) => [("trace", ASKED_TWICE, "91 Waiting")],
        Refusal::DeskFull => [("trace", ASKED_NINE_TIMES, "92 DeskFull")],
        Refusal::DeskInUse => [("trace", DELETED_WHILE_ASKED, "97 DeskInUse")],
        Refusal::Usage => [("trace", "S 1 zlogin\n", "93 Usage")],
        Refusal::NoProcess => [("trace", "P a 2 true\n", "98 NoProcess")],
        Refusal::Duplicate => [("trace", "Y link a\nY link a\n", "24 Duplicate")],
        Refusal::TooMany(_) => [],
        Refusal::TooManyMounts => [],
        Refusal::HoldState => [(IN_A_ZONE, "S 1 frelease -z a /\n", "96 HoldState")],
        Refusal::NoMount => [(IN_A_ZONE, "S 1 fhold -z a /x\n", "99 NoMount")],
        Refusal::Errno(_) => [],
        Refusal::NotRunning(_) => [("trace", NOT_BOOTED, "95 NotRunning")],
        Refusal::Taken => [(IN_A_ZONE, "S 1 zlogin -C a\nS 2 zlogin -C a\n", "75 Taken")],
        Refusal::Privilege(_) => [("trace", VERIFIED, "47 PrivWord")],
    )
}

const ONE_PROCESS: &str =
    "S 1 zonecfg -z a create -b; set zonepath=/a; set brand=ipkg; set max-processes=1
S 1 zoneadm -z a attach
D a\nD a\nD a\nD a\nD a
S 1 zoneadm -z a boot
D a\nD a\nD a\nD a\nD a\nD a\nD a\nD a\nD a\nD a\nD a\nD a\nD a
P a 2 fork x\n";

const FORKED_WITHOUT_PRIVILEGE: &str = "P a 2 drop proc_fork\nP a 2 fork x\n";

const WRITTEN_READ_ONLY: &str = "P a 2 mount lofs /b /c ro\nP a 2 write /c\n";

const MOUNTED_TWICE: &str = "P a 2 mount lofs /b /c\nP a 2 mount lofs /b /c\n";

const TOO_MANY_MOUNTS: &str = "71 TooManyMounts";

// One mount more than a zone may have, its root among them.
fn too_many_mounts(alloc: Global) -> Result<Vec<u8>, AllocError> {
    let mut input = Vec::new(alloc);
    for first in b'a'..=b'h' {
        for last in b'a'..=b'p' {
            input.extend_from_slice(b"P a 2 mount lofs / /")?;
            input.push(first)?;
            input.push(last)?;
            input.push(b'\n')?;
        }
    }
    Ok(input)
}

const NAME_TOO_LONG: &str = "ENAMETOOLONG";

// A path whose place is too long.
fn name_too_long(alloc: Global) -> Result<Vec<u8>, AllocError> {
    let mut input = b"P a 2 mount nfs ".to_vec(alloc)?;
    for _ in 0..4060 {
        input.push(b'x')?;
    }
    input.extend_from_slice(b" /b\nP a 2 read /b/")?;
    for _ in 0..40 {
        input.push(b'x')?;
    }
    input.push(b'\n')?;
    Ok(input)
}

// A zone with processes has its root mounted, so no trace prints `ENOENT`; and `ENAMETOOLONG` wants a longer input, as
// `name_too_long` makes.
fn errno_runs() -> &'static [Run] {
    runs_of!(Errno:
        Errno::ESRCH => [("trace", "S 1 kill 9 2\n", "ESRCH")],
        Errno::EPERM => [(IN_A_ZONE, FORKED_WITHOUT_PRIVILEGE, "EPERM")],
        Errno::EAGAIN => [("trace", ONE_PROCESS, "EAGAIN")],
        Errno::EINVAL => [(IN_A_ZONE, "P a 2 umount /b\n", "EINVAL")],
        Errno::ENOENT => [],
        Errno::EROFS => [(IN_A_ZONE, WRITTEN_READ_ONLY, "EROFS")],
        Errno::EBUSY => [(IN_A_ZONE, MOUNTED_TWICE, "EBUSY")],
        Errno::ENAMETOOLONG => [],
    )
}

const HALTED_TOO_EARLY: &str = "S 1 zonecfg -z a create -b; set zonepath=/a; set brand=ipkg
S 1 zoneadm -z a halt
D a\n";

const CLONED_FROM_NONE: &str = "S 1 zonecfg -z a create -b; set zonepath=/a; set brand=ipkg
S 1 zoneadm -z a clone b
D a\nD a\nD a\n";

const CLONED_BY_LX: &str = "S 1 zonecfg -z a create -b; set zonepath=/a; set brand=lx
S 1 zoneadm -z a clone b
D a\nD a\n";

// A commit looks for flaws before it records, so no zone that a trace makes has one; and a move whose text would be too
// long prints the code and name that `too_large` does.
fn outcome_runs() -> &'static [Run] {
    runs_of!(Outcome:
        Outcome::Done => [],
        Outcome::WrongState(_) => [("trace", HALTED_TOO_EARLY, "81 WrongState")],
        Outcome::Denied(_) => [("trace", CLONED_FROM_NONE, "82 Denied")],
        Outcome::HookRefused(_) => [("trace", CLONED_BY_LX, "83 HookRefused")],
        Outcome::Privilege(_) => [("trace", NO_SUCH_PRIVILEGE, "84 Privilege")],
        Outcome::NotVerified(_) => [],
        Outcome::TooLarge(_) => [],
    )
}

const NO_SUCH_PRIVILEGE: &str =
    "S 1 zonecfg -z a create; set zonepath=/a; set limitpriv=default,file_all
S 1 zoneadm -z a attach
D a\nD a\nD a\nD a\nD a
S 1 zoneadm -z a ready
D a\n";

const NO_FORK: &str = "S 1 zonecfg -z a create; set zonepath=/a; set limitpriv=default,!proc_fork
S 1 zoneadm -z a attach
D a\nD a\nD a\nD a\nD a
S 1 zoneadm -z a ready
D a\n";

const ALL_PRIVILEGES: &str = "S 1 zonecfg -z a create; set zonepath=/a; set limitpriv=all
S 1 zoneadm -z a attach
D a\nD a\nD a\nD a\nD a
S 1 zoneadm -z a ready
D a\n";

fn priv_runs() -> &'static [Run] {
    runs_of!(PrivFault:
        PrivFault::Memory => [],
        PrivFault::PrivWord(_) => [("trace", NO_SUCH_PRIVILEGE, "47 PrivWord")],
        PrivFault::PrivRequired(_) => [("trace", NO_FORK, "48 PrivRequired")],
        PrivFault::PrivProhibited(_) => [("trace", ALL_PRIVILEGES, "49 PrivProhibited")],
    )
}

const NO_STORE: &str = "xxxxxxxxxxxxxxxxxxxx";

// A store whose first record has no length, and one whose first record has another form.
const OPEN_GATE: &str = "\x01ZNSTORE1A\0\0\0\0\0\0\x01";

const OTHER_FORM: &str = "\x01ZNSTORE1A\0\0\0\0\0\0\x01\0\0\0\x01x\0";

// Of what ends a step one has a code: a stated grant that doesn't fit. A store's own faults are below.
fn step_runs() -> &'static [Run] {
    runs_of!(StepFault:
        StepFault::Memory => [],
        StepFault::BadGrant => [("given", "@1 D a\n", "105 BadGrant")],
        StepFault::WouldRecord => [],
        StepFault::DiskFault => [],
        StepFault::NoStore(_) => [],
    )
}

// A disk that fails has a line without a code, and a store without room is the pool `store`, which denies.
fn store_runs() -> &'static [Run] {
    runs_of!(StoreFault:
        StoreFault::Memory => [],
        StoreFault::NotAStore(_) => [(ON_A_DISK, NO_STORE, "61 NotAStore")],
        StoreFault::BadRecord(_) => [(ON_A_DISK, OPEN_GATE, "62 BadRecord")],
        StoreFault::DiskFault => [],
        StoreFault::BankFull => [],
        StoreFault::RecordForm(_) => [(ON_A_DISK, OTHER_FORM, "65 RecordForm")],
    )
}

fn has(text: &[u8], part: &str) -> bool {
    match str::from_utf8(text) {
        Ok(text) => text.contains(part),
        Err(_) => false,
    }
}

fn has_paragraph(page: &str, title: &str) -> bool {
    for line in page.lines() {
        if line.strip_prefix(HEAD) == Some(title) {
            return true;
        }
    }
    false
}

// The lines that bring the zone `a` up, and then an input.
fn in_a_zone(alloc: Global, input: &[u8]) -> Result<Vec<u8>, AllocError> {
    let mut bytes = BOOTED.as_bytes().to_vec(alloc)?;
    bytes.extend_from_slice(input)?;
    Ok(bytes)
}

// What a command comes to over an input.
fn ended(alloc: Global, command: &str, input: &[u8]) -> Result<Ended, AllocError> {
    match command {
        IN_A_ZONE => run(alloc, "trace", in_a_zone(alloc, input)?),
        ON_A_DISK => run_on(alloc, "trace", Vec::new(alloc), input.to_vec(alloc)?),
        _ => run(alloc, command, input.to_vec(alloc)?),
    }
}

// Runs a command, and prints what is wrong: that it doesn't print the code and name, or that they have no paragraph.
fn check_run(
    rt: &(impl Print + AllocGlobal),
    page: &str,
    command: &str,
    input: &[u8],
    title: &str,
) -> io::Result<()> {
    let ended = ended(rt.alloc(), command, input)?;
    if !has(ended.out.bytes(), title) && !has(ended.err.bytes(), title) {
        println!(rt; "{title} IS NOT PRINTED")?;
    }
    if !has_paragraph(page, title) {
        println!(rt; "{title} HAS NO PARAGRAPH")?;
    }
    Ok(())
}

fn is_among(titles: &[&str], title: &str) -> bool {
    for it in titles {
        if *it == title {
            return true;
        }
    }
    false
}

// Each paragraph is of a code that is printed.
fn check_paragraphs(rt: &impl Print, page: &str, titles: &[&str]) -> io::Result<()> {
    let mut count = 0u64;
    for line in page.lines() {
        if let Some(title) = line.strip_prefix(HEAD) {
            count = count.saturating_add(1);
            if !is_among(titles, title) {
                println!(rt; "{title} IS NO CODE")?;
            }
        }
    }
    println!(rt; "{count} codes have their paragraph")
}

/// Prints each code of no run or no paragraph, and each paragraph of no code, and how many there are.
pub fn check(rt: &(impl Files + Print + AllocGlobal)) -> io::Result<()> {
    let page = fs::read_to_string(rt, PAGE)?;
    let mut titles = Vec::new(rt.alloc());
    let all = [
        lex_runs(),
        config_runs(),
        edit_runs(),
        flaw_runs(),
        line_runs(),
        name_runs(),
        reply_runs(),
        errno_runs(),
        outcome_runs(),
        priv_runs(),
        step_runs(),
        store_runs(),
    ];
    for runs in all {
        for (command, input, title) in runs {
            check_run(rt, page.as_str(), command, input.as_bytes(), title)?;
            titles.push(*title)?;
        }
    }
    let long = [
        ("export", too_large(rt.alloc())?, TOO_LARGE),
        (IN_A_ZONE, too_many_mounts(rt.alloc())?, TOO_MANY_MOUNTS),
        (IN_A_ZONE, name_too_long(rt.alloc())?, NAME_TOO_LONG),
    ];
    for (command, input, title) in &long {
        check_run(rt, page.as_str(), command, input.as_slice(), title)?;
        titles.push(*title)?;
    }
    check_paragraphs(rt, page.as_str(), titles.as_slice())
}

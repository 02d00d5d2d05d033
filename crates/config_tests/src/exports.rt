//! Export texts that are read, and lines that stop being the beginning of one.
use crate::values::joined;
use export_read::read_export;
use std::alloc::Global;
use std::test::Fail;
use zone_config::{ConfigFault, ZoneConfig, export};

const WEB: &[u8] = b"create -b
set zonepath=/zones/web
set brand=ipkg
set autoboot=false
set ip-type=shared
";

// Every property, and a resource of every kind.
const ALL: &[u8] = b"create -b
set zonepath=/zones/web
set brand=ipkg
set autoboot=false
set bootargs=\"-m verbose\"
set pool=pool_default
set limitpriv=default,!sys_time
set scheduling-class=FSS
set ip-type=exclusive
set hostid=80f0c086
set fs-allowed=ufs,pcfs
add fs
set dir=/data
set special=/export/data
set raw=/dev/rdsk/c0t0d0s0
set type=lofs
add options [ro,nodevices]
end
add net
set physical=net0
end
add device
end
add device
set match=/dev/zvol/*
end
add rctl
set name=zone.cpu-shares
add value (priv=privileged,limit=10,action=none)
end
add attr
set name=comment
set value=\"a web zone\"
end
add dataset
set name=tank/web
end
";

// How many of its first lines are a whole text.
const WHOLE: &[usize] = &[9, 10, 11, 18, 21, 23, 26, 30, 34, 37];

// What is read goes through helpers without contracts, so that no test's proof follows what a configuration holds.
fn shows(
    alloc: Global,
    config: &ZoneConfig,
    brand: &[u8],
    text: &[u8],
) -> Result<bool, ConfigFault> {
    Ok(config.brand.bytes() == brand && export(alloc, config)?.as_slice() == text)
}

fn copy_shows(
    alloc: Global,
    config: &ZoneConfig,
    brand: &[u8],
    text: &[u8],
) -> Result<bool, ConfigFault> {
    let copy = config.copy(alloc)?;
    shows(alloc, &copy, brand, text)
}

fn is_read(alloc: Global, text: &[u8], brand: &[u8]) -> Result<bool, ConfigFault> {
    let config = read_export(alloc, text)?;
    copy_shows(alloc, &config, brand, text)
}

#[test]
fn a_text_is_read_and_its_copy_exports_the_same(rt: HostRuntime) -> Result<(), Fail> {
    for text in [WEB, ALL] {
        assert!(rt; is_read(rt.alloc(), text, b"ipkg")?);
    }
    Ok(())
}

// The line of the fault, or 0 where there is none.
fn line_of_fault(alloc: Global, text: &[u8]) -> Result<usize, ConfigFault> {
    match read_export(alloc, text) {
        Ok(_) => Ok(0),
        Err(ConfigFault::NotExport(line)) => Ok(line),
        Err(fault) => Err(fault),
    }
}

// What is to be reported of a text's first lines: nothing where they are a whole text, and else the next line.
fn line_wanted(lines: usize) -> usize {
    if WHOLE.contains(&lines) {
        0
    } else {
        lines.wrapping_add(1)
    }
}

// Whether the first lines of a text, however many, are all reported to be well begun, or read.
fn fronts_are_told(alloc: Global, text: &[u8]) -> Result<bool, ConfigFault> {
    let mut told = true;
    let mut lines: usize = 0;
    for (place, byte) in text.iter().enumerate() {
        if *byte == b'\n' {
            lines = lines.wrapping_add(1);
            let line = line_of_fault(alloc, &text[..place + 1])?;
            told = told && line == line_wanted(lines);
        }
    }
    Ok(told)
}

// Whether a blank at the end of a line, whichever it is, is reported.
fn blanks_are_told(alloc: Global, text: &[u8]) -> Result<bool, ConfigFault> {
    let mut told = true;
    let mut lines: usize = 0;
    for (place, byte) in text.iter().enumerate() {
        if *byte == b'\n' {
            lines = lines.wrapping_add(1);
            let changed = joined(alloc, &[&text[..place], b" ", &text[place..]])?;
            told = told && line_of_fault(alloc, &changed)? == lines;
        }
    }
    Ok(told)
}

#[test]
fn each_line_of_a_whole_text_is_told(rt: HostRuntime) -> Result<(), Fail> {
    assert!(rt; fronts_are_told(rt.alloc(), ALL)?);
    assert!(rt; blanks_are_told(rt.alloc(), ALL)?);
    Ok(())
}

// Texts, and the lines of their faults.
const FAULTS: &[(&[u8], usize)] = &[
    (b"", 1),
    (b"\n", 1),
    (b"create\n", 1),
    (b"create -b\r\n", 1),
    (b"create -b\nset pool=\xff\n", 2),
    (b"create -b\nset brand=ip", 3),
    (b"create -b\nset hostid=ffffffff\n", 2),
    (
        b"create -b\nset brand=ipkg\nset zonepath=/zones/web\nset autoboot=false\nset ip-type=shared\n",
        3,
    ),
    (
        b"create -b\nset zonepath=/zones/web\nset brand=ipkg\nset autoboot=false\n",
        5,
    ),
    (b"create -b\nset autoboot=false\nset ip-type=shared", 4),
    (b"create -b\nset brand=\"ipkg\"\nset autoboot=false\n", 2),
    (b"create -b\nset auto", 2),
];

#[test]
fn a_fault_has_its_line(rt: HostRuntime) -> Result<(), Fail> {
    for (text, line) in FAULTS {
        assert!(rt; line_of_fault(rt.alloc(), text)? == *line, "{text:?}");
    }
    Ok(())
}

// What is to be reported of these lines after those of the two properties that every text has; 0 where all is read.
const BEHIND: &[(&[u8], usize)] = &[
    (b"end\n", 4),
    (b"add zone\n", 4),
    (b"\n", 4),
    (b"set cpu-shares=1\n", 4),
    (b"add fs\nend\nadd fs\nend\n", 0),
    (b"add net\nend\nadd net\nend\n", 0),
    (b"add net\nend\nadd fs\n", 6),
    (b"add fs\nadd options [ro,ro]\nend\n", 0),
    (b"add attr\nend\nadd attr\nset type=int\n", 7),
    (
        b"add attr\nset name=a\nend\nadd attr\nset type=int\nend\n",
        0,
    ),
    (b"add attr\nset name=zone\n", 5),
    (b"add attr\nset name=Zone\nend\n", 0),
    (b"add rctl\nset name=zone\nend\n", 0),
    (
        b"add rctl\nend\nadd rctl\nadd value (priv=privileged,limit=1,action=deny)\n",
        7,
    ),
    (
        b"add rctl
set name=zone.cpu-shares
add value (priv=privileged,limit=1,action=deny)
add value (priv=privileged,limit=1,action=deny)
end
",
        0,
    ),
    (b"add attr\nset name=a\nend\nadd attr\nset name=a\nend\n", 8),
    (b"add attr\nend\nadd attr\nend\n", 7),
];

const PROPERTIES: &[u8] = b"create -b\nset autoboot=true\nset ip-type=shared\n";

fn line_behind(alloc: Global, lines: &[u8]) -> Result<usize, ConfigFault> {
    let text = joined(alloc, &[PROPERTIES, lines])?;
    line_of_fault(alloc, &text)
}

#[test]
fn resources_stand_behind_the_properties(rt: HostRuntime) -> Result<(), Fail> {
    for (lines, line) in BEHIND {
        assert!(rt; line_behind(rt.alloc(), lines)? == *line, "{lines:?}");
    }
    Ok(())
}

//! Limitpriv texts and sets, by tables.
use priv_sets::{PrivFault, PrivSet, limit_of, name_of, number_of};
use std::alloc::{AllocError, Global};
use std::test::Fail;

// What `default` means, by the table of classes.
const DEFAULT: &str = "\
    contract_event,contract_identity,contract_observer,file_chown,file_chown_self,\
    file_dac_execute,file_dac_read,file_dac_search,file_dac_write,file_link_any,file_owner,\
    file_setid,ipc_dac_read,ipc_dac_write,ipc_owner,net_icmpaccess,net_privaddr,proc_audit,\
    proc_chroot,proc_exec,proc_fork,proc_info,proc_owner,proc_session,proc_setid,\
    proc_taskid,sys_acct,sys_admin,sys_mount";

const SETS: &[(&[u8], &str)] = &[
    (b"", DEFAULT),
    (b"default", DEFAULT),
    (b"default,proc_zone,-proc_zone", DEFAULT),
    (
        b"sys_mount,proc_fork,proc_exec",
        "proc_exec,proc_fork,sys_mount",
    ),
    (
        b"default,!all,proc_exec,proc_fork,sys_mount,sys_time",
        "proc_exec,proc_fork,sys_mount,sys_time",
    ),
    (
        b"!proc_audit,proc_audit,proc_exec,proc_fork,sys_mount",
        "proc_audit,proc_exec,proc_fork,sys_mount",
    ),
    (
        b"cpc_cpu,proc_exec,proc_fork,sys_mount,-cpc_cpu",
        "proc_exec,proc_fork,sys_mount",
    ),
];

const FAULTS: &[(&[u8], PrivFault)] = &[
    (b"default,zone", PrivFault::PrivWord(8)),
    (b"proc_exec,default", PrivFault::PrivWord(10)),
    (b"default,", PrivFault::PrivWord(8)),
    (b"default,,all", PrivFault::PrivWord(8)),
    (b"all,default", PrivFault::PrivWord(4)),
    (b"!all,zone", PrivFault::PrivWord(5)),
    (b"basic", PrivFault::PrivWord(0)),
    (b"PROC_FORK", PrivFault::PrivWord(0)),
    (b"priv_proc_fork", PrivFault::PrivWord(0)),
    (b"!default", PrivFault::PrivWord(0)),
    (b"!", PrivFault::PrivWord(0)),
    (b"default,!proc_fork", PrivFault::PrivRequired(26)),
    (b"proc_audit,!proc_audit", PrivFault::PrivRequired(25)),
    (b"default,!all", PrivFault::PrivRequired(25)),
    (b"-all", PrivFault::PrivRequired(25)),
    (b"all,!proc_fork", PrivFault::PrivRequired(26)),
    (b"default,proc_zone", PrivFault::PrivProhibited(33)),
    (b"all", PrivFault::PrivProhibited(4)),
    (b"all,!dtrace_kernel", PrivFault::PrivProhibited(33)),
    (
        b"all,!dtrace_kernel,!proc_zone",
        PrivFault::PrivProhibited(36),
    ),
    (
        b"all,!dtrace_kernel,!proc_zone,!sys_config",
        PrivFault::PrivProhibited(37),
    ),
];

fn is_printed(alloc: Global, text: &[u8], names: &str) -> Result<bool, AllocError> {
    match limit_of(text) {
        Ok(set) => Ok(set.print(alloc)?.as_slice() == names.as_bytes()),
        Err(_) => Ok(false),
    }
}

#[test]
fn limit_sets_are_read_and_printed(rt: HostRuntime) -> Result<(), Fail> {
    for (text, names) in SETS {
        assert!(rt; is_printed(rt.alloc(), text, names)?, "{text:?}");
    }
    Ok(())
}

fn is_fault(text: &[u8], fault: PrivFault) -> bool {
    match limit_of(text) {
        Ok(_) => false,
        Err(found) => found == fault,
    }
}

#[test]
fn faults_have_their_place_or_privilege(rt: HostRuntime) {
    for (text, fault) in FAULTS {
        assert!(rt; is_fault(text, *fault), "{text:?}");
    }
}

#[test]
fn a_fault_names_its_privilege(rt: HostRuntime) -> Result<(), Fail> {
    let message = PrivFault::PrivRequired(26).to_string(rt.alloc())?;
    assert_eq!(rt; message.as_str(), "the privilege proc_fork is required");
    Ok(())
}

#[test]
fn privileges_have_their_numbers_and_names(rt: HostRuntime) {
    let numbers: &[(&[u8], Option<u8>)] = &[
        (b"contract_event", Some(0)),
        (b"sys_time", Some(39)),
        (b"proc", None),
    ];
    for (name, number) in numbers {
        assert!(rt; number_of(name) == *number, "{name:?}");
        if let Some(number) = number {
            assert!(rt; name_of(*number).as_bytes() == *name, "{name:?}");
        }
    }
    assert_eq!(rt; name_of(40), "");
}

// Whether two limits, of which the second has sys_time besides, are told apart as sets.
fn differ_by_time(limit: &PrivSet, more: &PrivSet) -> bool {
    let time = more.without(limit);
    let both = limit.union(&time);
    limit.has(26)
        && !limit.has(39)
        && !limit.has(40)
        && both.has(26)
        && both.has(39)
        && limit.within(&both)
        && !both.within(limit)
        && time.has(39)
        && !time.has(26)
}

#[test]
fn sets_are_sets(rt: HostRuntime) -> Result<(), PrivFault> {
    let limit = limit_of(b"default")?;
    let more = limit_of(b"default,sys_time")?;
    assert!(rt; differ_by_time(&limit, &more));
    Ok(())
}

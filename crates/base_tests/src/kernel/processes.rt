//! Processes of a zone: how they come, are changed and go, and each refusal in its order.
use crate::kernel::zone::{Came, DONE, EAGAIN, EPERM, ESRCH, Row, Zone, refused};
use kernel_objects::Signal;
use priv_sets::{PROC_EXEC, PROC_FORK, SYS_MOUNT};
use std::alloc::Global;
use std::test::Fail;
use zn_base::Text;
use zone_pools::Grant;

// What a process does, what is done to it, or what is asked of it.
enum Step {
    Enter(&'static [u8], bool, u32),
    Fork(u32, &'static [u8], u32),
    Exec(u32, &'static [u8]),
    Exit(u32),
    // From the zone itself or not.
    Kill(bool, Signal, u32),
    Drop(u32, u8),
    May(u32, u8),
    MayMount(u32),
    // Whether the number is free, and whether the pool gives it next.
    IsFree(u32),
    IsNext(u32),
}

// What becomes of a zone with the default limit set and so many processes at most.
struct Script {
    most: Option<u64>,
    steps: &'static [(Step, Came)],
    // The processes that are left, each with its parent and its name.
    left: &'static [Row],
}

fn holds(it: bool) -> Came {
    if it { DONE } else { Came::NotSo }
}

fn take(alloc: Global, zone: &mut Zone, step: &Step) -> Result<Came, Fail> {
    Ok(match step {
        Step::Enter(name, first, pid) => zone.enter(alloc, name, *first, *pid)?,
        Step::Fork(parent, name, pid) => zone.fork(alloc, *parent, name, *pid)?,
        Step::Exec(pid, name) => zone.rename(alloc, *pid, name)?,
        Step::Exit(pid) => zone.exit(*pid),
        Step::Kill(inside, signal, pid) => zone.kill(*inside, *signal, *pid),
        Step::Drop(pid, number) => zone.drop_priv(*pid, *number),
        Step::May(pid, number) => holds(zone.may(*pid, *number)),
        Step::MayMount(pid) => zone.may_mount(*pid),
        Step::IsFree(pid) => holds(zone.shared.pid_free(*pid)),
        Step::IsNext(pid) => holds(zone.shared.next_pid() == Grant::Number(*pid)),
    })
}

// The first step that comes to something else, or their number where it is the list that differs.
fn first_wrong(alloc: Global, script: &Script) -> Result<Option<usize>, Fail> {
    let mut zone = Zone::limited(alloc, b"default", script.most)?;
    for (at, (it, came)) in script.steps.iter().enumerate() {
        if take(alloc, &mut zone, it)? != *came {
            return Ok(Some(at));
        }
    }
    if zone.lists(alloc, script.left)? {
        Ok(None)
    } else {
        Ok(Some(script.steps.len()))
    }
}

const COMING_AND_GOING: Script = Script {
    most: Some(3),
    steps: &[
        (Step::IsNext(2), DONE),
        (Step::Enter(b"init", true, 2), DONE),
        (Step::Fork(2, b"a", 3), DONE),
        (Step::Fork(3, b"b", 4), DONE),
        (Step::Fork(2, b"c", 5), EAGAIN),
        (Step::Exit(3), DONE),
        (Step::IsFree(3), DONE),
        (Step::IsFree(4), Came::NotSo),
        (Step::IsNext(5), DONE),
        (Step::Fork(2, b"c", 5), DONE),
        (Step::Exit(3), ESRCH),
    ],
    left: &[(2, 0, b"init"), (4, 2, b"b"), (5, 2, b"c")],
};

#[test]
fn processes_come_and_go(rt: HostRuntime) -> Result<(), Fail> {
    assert_eq!(rt; first_wrong(rt.alloc(), &COMING_AND_GOING)?, None);
    Ok(())
}

const ONE_AT_MOST: Script = Script {
    most: Some(1),
    steps: &[
        (Step::Enter(b"init", true, 2), DONE),
        (Step::Enter(b"login", false, 3), EAGAIN),
        (Step::Fork(2, b"x", 3), EAGAIN),
        (Step::IsFree(3), DONE),
        (Step::Fork(7, b"x", 3), ESRCH),
        (Step::Drop(2, PROC_FORK), DONE),
        (Step::Fork(7, b"x", 3), ESRCH),
        (Step::Fork(2, b"x", 3), EPERM),
        (Step::Drop(7, PROC_FORK), ESRCH),
        (Step::Exec(7, b"x"), ESRCH),
        (Step::Exec(2, b"sh"), DONE),
        (Step::Drop(2, PROC_EXEC), DONE),
        (Step::Exec(2, b"x"), EPERM),
    ],
    left: &[(2, 0, b"sh")],
};

#[test]
fn refusals_have_their_order(rt: HostRuntime) -> Result<(), Fail> {
    assert_eq!(rt; first_wrong(rt.alloc(), &ONE_AT_MOST)?, None);
    Ok(())
}

// 38 is sys_mount, and 39 sys_time, which is no zone's by default.
const DROPPED: Script = Script {
    most: None,
    steps: &[
        (Step::Enter(b"init", true, 2), DONE),
        (Step::May(2, 38), DONE),
        (Step::May(2, 39), Came::NotSo),
        (Step::Drop(2, 38), DONE),
        (Step::Drop(2, 38), DONE),
        (Step::Drop(2, 200), DONE),
        (Step::Exec(2, b"sh"), DONE),
        (Step::Fork(2, b"x", 3), DONE),
        (Step::May(2, 38), Came::NotSo),
        (Step::May(3, 38), Came::NotSo),
        (Step::May(3, PROC_FORK), DONE),
        (Step::Enter(b"login", false, 4), DONE),
        (Step::May(4, 38), DONE),
        (Step::May(5, PROC_FORK), Came::NotSo),
    ],
    left: &[(2, 0, b"sh"), (3, 2, b"x"), (4, 0, b"login")],
};

#[test]
fn a_dropped_privilege_stays_dropped(rt: HostRuntime) -> Result<(), Fail> {
    assert_eq!(rt; first_wrong(rt.alloc(), &DROPPED)?, None);
    Ok(())
}

const MOUNTERS: Script = Script {
    most: None,
    steps: &[
        (Step::Enter(b"init", true, 2), DONE),
        (Step::MayMount(2), DONE),
        (Step::Fork(2, b"x", 3), DONE),
        (Step::Drop(3, SYS_MOUNT), DONE),
        (Step::MayMount(3), EPERM),
        (Step::MayMount(2), DONE),
        (Step::MayMount(4), ESRCH),
    ],
    left: &[(2, 0, b"init"), (3, 2, b"x")],
};

#[test]
fn mounts_need_their_privilege(rt: HostRuntime) -> Result<(), Fail> {
    assert_eq!(rt; first_wrong(rt.alloc(), &MOUNTERS)?, None);
    Ok(())
}

const SIGNALS: Script = Script {
    most: None,
    steps: &[
        (Step::Enter(b"init", true, 2), DONE),
        (Step::Fork(2, b"a", 3), DONE),
        (Step::Fork(3, b"b", 4), DONE),
        (Step::Fork(4, b"c", 5), DONE),
        (Step::Kill(true, Signal::Kill, 2), DONE),
        (Step::Kill(true, Signal::Term, 2), DONE),
        (Step::Kill(true, Signal::Zero, 3), DONE),
        (Step::Kill(true, Signal::Kill, 9), ESRCH),
        (Step::Kill(false, Signal::Zero, 9), ESRCH),
        (Step::IsFree(2), Came::NotSo),
        (Step::IsFree(3), Came::NotSo),
        (Step::Kill(true, Signal::Term, 3), DONE),
        (Step::IsFree(3), DONE),
        (Step::Kill(false, Signal::Kill, 2), DONE),
        (Step::IsFree(2), DONE),
    ],
    left: &[(4, 0, b"b"), (5, 4, b"c")],
};

#[test]
fn signals_end_processes(rt: HostRuntime) -> Result<(), Fail> {
    assert_eq!(rt; first_wrong(rt.alloc(), &SIGNALS)?, None);
    Ok(())
}

const STARTING_AGAIN: Script = Script {
    most: None,
    steps: &[
        (Step::IsFree(1), Came::NotSo),
        (Step::IsFree(30_000), Came::NotSo),
        (Step::Enter(b"init", true, 29_999), DONE),
        (Step::IsNext(2), DONE),
        (Step::Enter(b"login", false, 2), DONE),
        (Step::IsNext(3), DONE),
    ],
    left: &[(2, 0, b"login"), (29_999, 0, b"init")],
};

#[test]
fn the_pool_of_processes_starts_again(rt: HostRuntime) -> Result<(), Fail> {
    assert_eq!(rt; first_wrong(rt.alloc(), &STARTING_AGAIN)?, None);
    Ok(())
}

// Whether all end at once, and their numbers come free.
fn all_end(alloc: Global, zone: &mut Zone) -> Result<bool, Fail> {
    let three = zone.enter(alloc, b"init", true, 2)? == DONE
        && zone.fork(alloc, 2, b"a", 3)? == DONE
        && zone.enter(alloc, b"login", false, 29_999)? == DONE;
    Ok(
        three
            && zone.shared.owner(29_999).is_some()
            && zone.cell.count_procs() == 3
            && zone.kill_all() == 3
            && zone.shared.owner(29_999).is_none()
            && zone.shared.pid_free(2)
            && zone.shared.pid_free(3)
            && zone.lists(alloc, &[])?
            && zone.kill_all() == 0,
    )
}

#[test]
fn all_processes_end(rt: HostRuntime) -> Result<(), Fail> {
    let mut zone = Zone::limited(rt.alloc(), b"default", None)?;
    assert!(rt; all_end(rt.alloc(), &mut zone)?);
    Ok(())
}

// Whether a process and its child begin, which are looked at first.
fn decides_and_begins(alloc: Global, zone: &mut Zone) -> Result<bool, Fail> {
    let init = zone.cell.entering(Text::read(alloc, b"init")?, true);
    if !zone.begin(alloc, 2, &init) {
        return Ok(false);
    }
    match zone.cell.forking(2, Text::read(alloc, b"a")?) {
        Ok(child) => Ok(
            zone.begin(alloc, 3, &child)
                && zone.may(3, PROC_FORK)
                && zone.lists(alloc, &[(2, 0, b"init"), (3, 2, b"a")])?,
        ),
        Err(_) => Ok(false),
    }
}

// Whether the child and then its parent are changed, after each is looked at.
fn decides_and_changes(alloc: Global, zone: &mut Zone) -> Result<bool, Fail> {
    let may = refused(zone.cell.check_exec(3)) == DONE && refused(zone.cell.check_there(2)) == DONE;
    zone.cell.set_name(3, Text::read(alloc, b"sh")?);
    zone.cell.give_up(2, PROC_EXEC);
    Ok(
        may && refused(zone.cell.check_exec(2)) == EPERM
            && refused(zone.cell.check_there(4)) == ESRCH
            && zone.may(3, PROC_EXEC)
            && zone.lists(alloc, &[(2, 0, b"init"), (3, 2, b"sh")])?,
    )
}

// Whether a signal ends a process.
fn is_ended(zone: &Zone, inside: bool, pid: u32) -> bool {
    match zone.cell.check_signal(inside, Signal::Kill, pid) {
        Ok(ended) => ended,
        Err(_) => false,
    }
}

// Whether the parent ends, once a signal of the global zone is looked at.
fn decides_and_ends(alloc: Global, zone: &mut Zone) -> Result<bool, Fail> {
    let outside_only = is_ended(zone, false, 2) && !is_ended(zone, true, 2);
    zone.cell.end(&mut zone.shared, 2);
    Ok(outside_only && zone.shared.pid_free(2) && zone.lists(alloc, &[(3, 0, b"sh")])?)
}

#[test]
fn what_is_decided_is_done(rt: HostRuntime) -> Result<(), Fail> {
    let mut zone = Zone::limited(rt.alloc(), b"default", None)?;
    assert!(rt; decides_and_begins(rt.alloc(), &mut zone)?);
    assert!(rt; decides_and_changes(rt.alloc(), &mut zone)?);
    assert!(rt; decides_and_ends(rt.alloc(), &mut zone)?);
    Ok(())
}

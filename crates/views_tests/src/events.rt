//! The events of two zones that are made, installed and booted, and whose processes fork.
use process_calls::read_call;
use std::alloc::Global;
use std::test::Fail;
use zn_base::{Text, ZoneName};
use zone_cases::Event;

// What comes next.
enum Next {
    Line(u8, &'static [u8]),
    Turns(&'static [u8], usize),
    Call(&'static [u8], u32, &'static [u8]),
}

// `a` and `b` are made and installed, `a` boots before `b`, and so its first process is 2 and that of `b` is 3.
const NEXT: &[Next] = &[
    Next::Line(
        1,
        b"zonecfg -z a create -b; set zonepath=/zones/a; set brand=ipkg",
    ),
    Next::Line(
        1,
        b"zonecfg -z b create -b; set zonepath=/zones/b; set brand=ipkg",
    ),
    Next::Line(1, b"zoneadm -z a install"),
    Next::Turns(b"a", 10),
    Next::Line(2, b"zoneadm -z b install"),
    Next::Turns(b"b", 10),
    Next::Line(1, b"zoneadm -z a boot"),
    Next::Turns(b"a", 13),
    Next::Line(2, b"zoneadm -z b boot"),
    Next::Turns(b"b", 13),
    Next::Call(b"a", 2, b"fork x"),
    Next::Call(b"b", 3, b"fork y"),
    Next::Call(b"b", 3, b"ps"),
];

fn push_line(alloc: Global, events: &mut Vec<Event>, number: u8, line: &[u8]) -> Result<(), Fail> {
    let text = Text::read(alloc, line)?;
    events.push(Event::Session { number, text })?;
    Ok(())
}

fn push_turns(
    alloc: Global,
    events: &mut Vec<Event>,
    name: &[u8],
    count: usize,
) -> Result<(), Fail> {
    for _ in 0..count {
        let zone = ZoneName::read(alloc, name)?;
        events.push(Event::Turn { zone })?;
    }
    Ok(())
}

fn push_call(
    alloc: Global,
    events: &mut Vec<Event>,
    name: &[u8],
    pid: u32,
    words: &[u8],
) -> Result<(), Fail> {
    let zone = ZoneName::read(alloc, name)?;
    let call = read_call(alloc, words)?;
    events.push(Event::Process { zone, pid, call })?;
    Ok(())
}

fn push_next(alloc: Global, events: &mut Vec<Event>, next: &Next) -> Result<(), Fail> {
    match next {
        Next::Line(number, line) => push_line(alloc, events, *number, line),
        Next::Turns(name, count) => push_turns(alloc, events, name, *count),
        Next::Call(name, pid, words) => push_call(alloc, events, name, *pid, words),
    }
}

/// The events, of which there are 55.
pub fn two_zones(alloc: Global) -> Result<Vec<Event>, Fail> {
    let mut events = Vec::new(alloc);
    for next in NEXT {
        push_next(alloc, &mut events, next)?;
    }
    Ok(events)
}

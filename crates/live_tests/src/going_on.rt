//! The machine that sessions hand back takes events, which go on from what the sessions left.
ghost use Rattle.std.specs.Prelude.{◌≡◌, ◌∷◌, [], IfOk};

use crate::brands::{Hook, make_brands, proceeds};
use crate::gates::OpenGate;
use crate::runs::{LIVE, disk_of};
use daemon_threads::{Live, run_sessions};
use session_runs::Script;
use std::alloc::{AllocError, Global};
use std::str;
use std::test::*;
use trace_text::push_entry;
use zn_base::Text;
use zone_cases::Event;
use zone_machine::Machine;

// What session 1 types.
fn script(alloc: Global, typed: &[&[u8]]) -> Result<Script, Fail>
    ensures { IfOk result (λ script. script.session ≡ 1) }
{
    let mut lines = Vec::new(alloc);
    for line in typed {
        lines.push(Text::read(alloc, line)?)?;
    }
    Ok(Script { session: 1, lines })
}

fn alone(alloc: Global, script: Script) -> Result<Vec<Script>, AllocError>
    ensures { IfOk result (λ scripts. scripts.items ≡ script ∷ []) }
{
    let mut scripts = Vec::new(alloc);
    scripts.push(script)?;
    Ok(scripts)
}

const INSTALLED: &[&[u8]] = &[
    b"zonecfg -z web create -b; set zonepath=/zones/web; set brand=ipkg",
    b"zoneadm -z web install",
];

#[test]
fn boots_what_sessions_installed(rt: HostRuntime) -> Result<(), Fail> {
    let alloc = rt.alloc();
    let hook: Hook = proceeds;
    let brands = make_brands(alloc, hook)?;
    let Ok(machine) = Machine::open(alloc, disk_of(alloc, &LIVE)?, &brands) else {
        assert!(rt; false, "the disk holds no store");
        return Ok(());
    };
    let scripts = alone(alloc, script(alloc, INSTALLED)?)?;
    let Live {
        entries: _entries,
        mut machine,
        ended,
    } = run_sessions(&rt, alloc, machine, &OpenGate, scripts);
    assert!(rt; ended.is_none());
    assert!(rt; machine.sound());
    let event = Event::Session {
        number: 1,
        text: Text::read(alloc, b"zoneadm -z web boot")?,
    };
    let entry = machine.step(alloc, event)?;
    let mut text = Vec::new(alloc);
    push_entry(&mut text, &entry)?;
    // The first ticket was the install's.
    let told = "> @- S 1 zoneadm -z web boot\nweb ticket 2\n";
    assert_eq!(rt; str::from_utf8(&text)?, told);
    assert!(rt; machine.records() == 3);
    Ok(())
}

//! Two zones' events are under way at once.
use crate::brands::{Hook, make_brands, proceeds};
use crate::runs::{Given, LIVE, run};
use std::sync::Wait;
use std::sync::atomic::{AtomicU64, Ordering};
use std::test::*;
use std::thread;
use zone_threads::Gate;

/// A gate at which nobody waits.
#[derive(Drop)]
pub struct OpenGate;

impl Gate for OpenGate {
    fn pass<W: Wait>(&self, _rt: &W, _place: u32) {}
}

// For how many turns of a loop a zone waits for another.
const TURNS_MAX: u64 = 20_000_000;

// Each of the zones whose places are 2 and 3 waits at its third event until the other has come to its third, and how many of them saw the
// other come is counted. Both do only where the two events are under way at once.
#[derive(Drop)]
struct Meeting {
    at_2: AtomicU64,
    at_3: AtomicU64,
    met: AtomicU64,
}

impl Gate for Meeting {
    fn pass<W: Wait>(&self, _rt: &W, place: u32) {
        let (mine, other) = match place {
            2 => (&self.at_2, &self.at_3),
            3 => (&self.at_3, &self.at_2),
            _ => return,
        };
        let before = mine.fetch_add(1, Ordering::SeqCst);
        if before == 2 {
            for _ in 0..TURNS_MAX {
                if other.load(Ordering::SeqCst) >= 3 {
                    self.met.fetch_add(1, Ordering::SeqCst);
                    break;
                }
                thread::yield_now();
            }
        }
    }
}

const TWO: Given<'static> = Given {
    input: b"S 1 zonecfg -z a create -b; set zonepath=/zones/a; set brand=ipkg
S 2 zonecfg -z b create -b; set zonepath=/zones/b; set brand=ipkg
S 1 zoneadm -z a install
S 2 zoneadm -z b install
S 1 zoneadm -z a boot
S 2 zoneadm -z b boot
",
    ..LIVE
};

#[test]
fn two_zones_at_once(rt: HostRuntime) -> Result<(), Fail> {
    let alloc = rt.alloc();
    let hook: Hook = proceeds;
    let brands = make_brands(alloc, hook)?;
    let gate = Meeting {
        at_2: AtomicU64::new(0),
        at_3: AtomicU64::new(0),
        met: AtomicU64::new(0),
    };
    let ended = run(&rt, alloc, &TWO, &brands, &gate)?;
    assert_eq!(rt; ended.status, 0);
    assert_eq!(rt; gate.met.load(Ordering::SeqCst), 2);
    Ok(())
}

//! Hooks are asked while what zones share isn't held.
ghost use Rattle.std.specs.Prelude.{◌≡◌};
ghost use Rattle.brand_hooks.specs.declared.table.HookAnswer.TheVariants.{Proceed};

use crate::brands::make_brands;
use crate::gates::OpenGate;
use crate::runs::{Given, LIVE, run};
use brand_hooks::{Change, ChangeKind, HookAnswer};
use std::sync::atomic::{AtomicU64, Ordering};
use std::test::*;
use std::thread;

// For how many turns of a loop a hook waits for another.
const TURNS_MAX: u64 = 20_000_000;

// Two hooks that are asked before an install wait for one another.
#[derive(Drop)]
struct Meeting {
    came: AtomicU64,
    met: AtomicU64,
}

impl Meeting {
    fn hook(&self, change: &Change) -> HookAnswer
        ensures { result ≡ Proceed }
    {
        if change.before && change.kind == ChangeKind::Install {
            self.came.fetch_add(1, Ordering::SeqCst);
            for _ in 0..TURNS_MAX {
                if self.came.load(Ordering::SeqCst) >= 2 {
                    self.met.fetch_add(1, Ordering::SeqCst);
                    break;
                }
                thread::yield_now();
            }
        }
        HookAnswer::Proceed
    }
}

const TWO: Given<'static> = Given {
    input: b"S 1 zonecfg -z a create -b; set zonepath=/zones/a; set brand=ipkg
S 2 zonecfg -z b create -b; set zonepath=/zones/b; set brand=ipkg
S 1 zoneadm -z a install
S 2 zoneadm -z b install
",
    ..LIVE
};

#[test]
fn hooks_of_two_zones_at_once(rt: HostRuntime) -> Result<(), Fail> {
    let alloc = rt.alloc();
    let meeting = Meeting {
        came: AtomicU64::new(0),
        met: AtomicU64::new(0),
    };
    let hook = |change: &Change| -> HookAnswer { meeting.hook(change) };
    let brands = make_brands(alloc, hook)?;
    let ended = run(&rt, alloc, &TWO, &brands, &OpenGate)?;
    assert_eq!(rt; ended.status, 0);
    assert_eq!(rt; meeting.met.load(Ordering::SeqCst), 2);
    Ok(())
}

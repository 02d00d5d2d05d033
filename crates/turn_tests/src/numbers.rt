//! A list of numbers, which stands for just that list, goes round between two passes. The second one adds in a thread of its
//! own, so that a turn is seen to be shared with a thread, and a pass and the part to be sent to it.
ghost use Rattle.std.specs.Prelude.{◌≡◌, ◌==◌, true, if◌then◌else◌};
ghost use Rattle.zone_turn.specs.Passes.{is_idle};

use std::alloc::AllocError;
use std::sync::Wait;
use std::test::*;
use std::thread;
use zone_turn::{Pass, Storied, Turn};

#[derive(Drop)]
struct Numbers {
    items: Vec<u64>,
}

// The number 6 belongs to the pass 0, and each other to the pass 1.
impl Storied for Numbers {
    type Entry = u64;

    ghost stands_for = { λ part h. part.items.items ≡ h };

    ghost belongs_to = { λ e. if e == 6 then 0 else 1 };
}

// Takes the part, adds a number, and gives it back. It answers how many the part had before.
fn add<W: Wait>(
    rt: &W,
    turn: &Turn<Numbers>,
    pass: &mut Pass<Numbers>,
    number: u64,
) -> Result<usize, AllocError>
    requires turn { pass.old.turn ≡ turn.now }
    requires idle { is_idle pass.old.knows ≡ true }
    requires own { (if number == 6 then 0 else 1) ≡ pass.old.knows.number }
    ensures turn { pass.new.turn ≡ pass.old.turn }
    ensures idle { is_idle pass.new.knows ≡ true }
    ensures role { pass.new.knows.role ≡ pass.old.knows.role }
{
    let mut part = turn.take(rt, pass);
    let before = part.items.len();
    match part.items.push(number) {
        Ok(()) => {
            turn.give(pass, part, &[number]);
            Ok(before)
        }
        Err(_) => {
            turn.give(pass, part, &[]);
            Err(AllocError)
        }
    }
}

#[test]
fn numbers_go_round(rt: HostRuntime) -> Result<(), Fail> {
    let numbers = Numbers {
        items: Vec::new(rt.alloc()),
    };
    let (turn, mut first) = Turn::new(rt.alloc(), numbers).map_err(|_| "memory")?;
    let before_first = add(&rt, &turn, &mut first, 6);
    let mut second = turn.split(&mut first);
    let (before_second, ()) = thread::join_mut(
        &rt,
        &mut || -> Result<usize, AllocError>
            requires { (second.turn ≡ turn) × (is_idle second.knows ≡ true) × (second.knows.number ≡ 1) }
            ensures { (second.exit.turn ≡ second.entry.turn) × (is_idle second.exit.knows ≡ true) }
        { add(&rt, &turn, &mut second, 7) },
        &mut || {},
    );
    turn.join(&mut first, second);
    let numbers = turn.close(first);
    assert_eq!(rt; before_first?, 0);
    assert_eq!(rt; before_second?, 1);
    assert_eq!(rt; numbers.items.as_slice(), [6, 7].as_slice());
    Ok(())
}

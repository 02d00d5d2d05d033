//! Copies of what processes ask for.
ghost use Rattle.std.specs.Prelude.{◌≡◌, IfOk};

use process_calls::{BoxedMount, Call, MountCall};
use std::alloc::{AllocError, Global};

fn copy_mount(alloc: Global, mount: &MountCall) -> Result<BoxedMount, AllocError>
    ensures { IfOk result (λ copy. copy ≡ mount.now) }
{
    let copy = MountCall {
        fstype: mount.fstype.copy(alloc)?,
        special: mount.special.copy(alloc)?,
        dir: mount.dir.copy(alloc)?,
        read_only: mount.read_only,
    };
    BoxedMount::new(alloc, copy)
}

/// An equal call.
pub(crate) fn copy_call(alloc: Global, call: &Call) -> Result<Call, AllocError>
    ensures { IfOk result (λ copy. copy ≡ call.now) }
{
    Ok(match call {
        Call::Fork(name) => Call::Fork(name.copy(alloc)?),
        Call::Exec(name) => Call::Exec(name.copy(alloc)?),
        Call::Exit => Call::Exit,
        Call::Kill(signal, pid) => Call::Kill(*signal, *pid),
        Call::Ps => Call::Ps,
        Call::Privs => Call::Privs,
        Call::Drop(number) => Call::Drop(*number),
        Call::Mount(boxed) => Call::Mount(copy_mount(alloc, boxed.mount())?),
        Call::Umount(dir) => Call::Umount(dir.copy(alloc)?),
        Call::Read(path) => Call::Read(path.copy(alloc)?),
        Call::Write(path) => Call::Write(path.copy(alloc)?),
        Call::Mounts => Call::Mounts,
        Call::Links => Call::Links,
        Call::Datasets => Call::Datasets,
        Call::Devices => Call::Devices,
        Call::Zonename => Call::Zonename,
        Call::Bootargs => Call::Bootargs,
        Call::Cons(line) => Call::Cons(line.copy(alloc)?),
        Call::True => Call::True,
        Call::False => Call::False,
    })
}

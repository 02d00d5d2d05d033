//! Calls, written.
ghost use Rattle.std.specs.Prelude.{◌≡◌, ◌++◌, OnOk};
ghost use Rattle.process_calls.specs.Calls.{call_text, read_only_text, signal_text};

use crate::{Call, MountCall};
use kernel_objects::Signal;
use priv_sets::name_of;
use std::alloc::AllocError;
use zn_base::{push_both, push_numbered};

fn signal_text(signal: Signal) -> &'static [u8]
    ensures { result.now ≡ signal_text signal }
{
    match signal {
        Signal::Zero => b"0",
        Signal::Kill => b"9",
        Signal::Term => b"15",
    }
}

fn push_kill(text: &mut Vec<u8>, signal: Signal, pid: u32) -> Result<(), AllocError>
    ensures { OnOk result (text.new.items ≡ text.old.items ++ call_text (Call.Kill signal pid)) }
{
    push_both(text, b"kill ", signal_text(signal))?;
    push_numbered(text, b" ", pid as u64)
}

fn read_only_text(read_only: bool) -> &'static [u8]
    ensures { result.now ≡ read_only_text read_only }
{
    if read_only { b" ro" } else { b"" }
}

fn push_mount(text: &mut Vec<u8>, mount: &MountCall) -> Result<(), AllocError>
    ensures { OnOk result (text.new.items ≡ text.old.items ++ call_text (Call.Mount mount.now)) }
{
    push_both(text, b"mount ", mount.fstype.bytes())?;
    push_both(text, b" ", mount.special.bytes())?;
    push_both(text, b" ", mount.dir.bytes())?;
    text.extend_from_slice(read_only_text(mount.read_only))
}

/// Puts a call after what is there, as `read_call` reads it. Where memory runs out, the text has what it had, and
/// perhaps a front of the call.
pub fn push_call(text: &mut Vec<u8>, call: &Call) -> Result<(), AllocError>
    ensures { OnOk result (text.new.items ≡ text.old.items ++ call_text call.now) }
{
    match call {
        Call::Fork(name) => push_both(text, b"fork ", name.bytes()),
        Call::Exec(name) => push_both(text, b"exec ", name.bytes()),
        Call::Exit => text.extend_from_slice(b"exit"),
        Call::Kill(signal, pid) => push_kill(text, *signal, *pid),
        Call::Ps => text.extend_from_slice(b"ps"),
        Call::Privs => text.extend_from_slice(b"privs"),
        Call::Drop(number) => push_both(text, b"drop ", name_of(*number).as_bytes()),
        Call::Mount(boxed) => push_mount(text, boxed.mount()),
        Call::Umount(dir) => push_both(text, b"umount ", dir.bytes()),
        Call::Read(path) => push_both(text, b"read ", path.bytes()),
        Call::Write(path) => push_both(text, b"write ", path.bytes()),
        Call::Mounts => text.extend_from_slice(b"mounts"),
        Call::Links => text.extend_from_slice(b"links"),
        Call::Datasets => text.extend_from_slice(b"datasets"),
        Call::Devices => text.extend_from_slice(b"devices"),
        Call::Zonename => text.extend_from_slice(b"zonename"),
        Call::Bootargs => text.extend_from_slice(b"bootargs"),
        Call::Cons(line) => push_both(text, b"cons ", line.bytes()),
        Call::True => text.extend_from_slice(b"true"),
        Call::False => text.extend_from_slice(b"false"),
    }
}

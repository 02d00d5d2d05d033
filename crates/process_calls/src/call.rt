//! Calls, and why a text is none.
ghost use Rattle.std.specs.Prelude.{◌≡◌, IfOk};
ghost use Rattle.process_calls.specs.declared.call.CallFault.TheVariants.{Memory};

use kernel_objects::Signal;
use std::alloc::{AllocError, Global};
use std::marker::Model;
use thiserror::Error;
use zn_base::{AbsPath, Text};

/// A file system that is mounted, by mount(2).
#[derive(Drop)]
pub struct MountCall {
    /// The type of file system, as `lofs`.
    pub fstype: Text,
    /// What is mounted: where the type is `lofs` a directory's path, else what the type takes.
    pub special: Text,
    /// The directory at which it is mounted.
    pub dir: AbsPath,
    /// Whether it is mounted read-only.
    pub read_only: bool,
}

/// The same behind a pointer, so that a call is small whatever it asks for. Contracts see the mount itself.
#[derive(Drop)]
pub struct BoxedMount {
    mount: Box<MountCall>,
}

impl Model for BoxedMount {
    ghost use Rattle.process_calls.specs.declared.call.MountCall.{MountCall};

    ghost Value = { MountCall };

    ghost view = { λ m. m.mount.value };
}

impl BoxedMount {
    /// A mount behind a pointer.
    pub fn new(alloc: Global, mount: MountCall) -> Result<Self, AllocError>
        ensures { IfOk result (λ boxed. boxed ≡ mount) }
    {
        Ok(Self {
            mount: Box::new(alloc, mount)?,
        })
    }

    /// The mount.
    pub fn mount(&self) -> &MountCall
        ensures { result.now ≡ self.now }
    {
        &self.mount
    }
}

/// What a process asks for.
#[derive(Drop)]
pub enum Call {
    /// Another process is made, with this name, by fork(2).
    Fork(Text),
    /// The process runs another program and has its name from then on, by exec(2).
    Exec(Text),
    /// The process ends, by exit(2).
    Exit,
    /// A signal is sent to the process of a number, by kill(2).
    Kill(Signal, u32),
    /// The processes of the zone, as ps(1) lists them.
    Ps,
    /// The privileges that the process has, by getppriv(2).
    Privs,
    /// The privilege of this number in the table of `priv_sets` is given up, by setppriv(2).
    Drop(u8),
    /// A file system is mounted, by mount(2).
    Mount(BoxedMount),
    /// The file system that is mounted at a directory is unmounted, by umount(2).
    Umount(AbsPath),
    /// The file of a path is read, by read(2).
    Read(AbsPath),
    /// The file of a path is written, by write(2).
    Write(AbsPath),
    /// The mounts that the zone sees, as mnttab(5) lists them.
    Mounts,
    /// The datalinks that the zone sees, as dladm(8) lists them.
    Links,
    /// The datasets that the zone sees, as zfs(8) lists them.
    Datasets,
    /// The devices that the zone sees, as devfs(4FS) lists them.
    Devices,
    /// The name of the zone, by zonename(1).
    Zonename,
    /// The arguments with which the zone was booted.
    Bootargs,
    /// A line is written to the zone's console, by zcons(4D).
    Cons(Text),
    /// What does nothing and succeeds, by true(1).
    True,
    /// What does nothing and fails, by false(1).
    False,
}

/// Why a text is no call.
#[derive(Clone, Copy, Debug, PartialEq, Eq, Error)]
pub enum CallFault {
    #[error("out of memory")]
    Memory,
    /// The place of the first wrong word, from 0, or the text's length where a word is missing.
    #[error("a wrong or missing word at byte {0}")]
    BadWord(usize),
}

impl From<AllocError> for CallFault {
    ghost from_gives = { λ _ e. e ≡ Memory };

    fn from(_: AllocError) -> Self {
        CallFault::Memory
    }
}

//! Processes and ids.
ghost use Rattle.std.specs.Prelude.{◌≡◌, IfOk};
ghost use Rattle.kernel_objects.specs.Kernel.{new_id};

use priv_sets::PrivSet;
use std::alloc::{AllocError, Global};
use zn_base::Text;

/// A signal of kill(1).
#[derive(Clone, Copy, PartialEq, Eq)]
pub enum Signal {
    /// Number 0: whether the process is there.
    Zero,
    /// Number 9.
    Kill,
    /// Number 15.
    Term,
}

/// A process as ps(1) lists it.
#[derive(Drop)]
pub struct ProcRow {
    pub pid: u32,
    /// The parent's number, or 0.
    pub parent: u32,
    pub name: Text,
}

/// A process but for its number: what it is before it begins, and what the map of processes has at its number.
#[derive(Drop)]
pub struct Running {
    /// The parent's number, or 0.
    pub(crate) parent: u32,
    pub(crate) name: Text,
    /// Whether it is the zone's first process.
    pub(crate) first: bool,
    pub(crate) privileges: PrivSet,
}

impl Running {
    /// An equal one.
    pub(crate) fn copy(&self, alloc: Global) -> Result<Running, AllocError>
        ensures { IfOk result (λ running. running ≡ self.now) }
    {
        Ok(Running {
            parent: self.parent,
            name: self.name.copy(alloc)?,
            first: self.first,
            privileges: self.privileges.copy(),
        })
    }
}

/// A zone's id, with what was set at the zone's boot.
#[derive(Drop)]
pub(crate) struct Id {
    pub(crate) zid: u32,
    /// What the zone's processes may have.
    pub(crate) limit: PrivSet,
    /// How many processes there may be, if that is limited.
    pub(crate) most: Option<u64>,
    pub(crate) bootargs: Text,
    pub(crate) fs_allowed: Text,
}

impl Id {
    /// Nothing is set. It takes no memory.
    pub(crate) fn new(alloc: Global, zid: u32) -> Self
        ensures { result ≡ new_id zid }
    {
        Id {
            zid,
            limit: PrivSet::none(),
            most: None,
            bootargs: Text::empty(alloc),
            fs_allowed: Text::empty(alloc),
        }
    }
}

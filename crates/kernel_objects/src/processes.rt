//! The processes of a zone, found by their numbers.
ghost use Rattle.std.specs.Prelude.{◌≡◌, ◌++◌, ◌∷◌, ◌<◌, ◌^◌, [], IfOk, None, OnErr, nat_eq, if◌then◌else◌, OnOk, length, map, ℕ};
ghost use Rattle.std.specs.List.{list_any};
ghost use Rattle.std.specs.List.Sorted.{IsStrictlySortedBy};
ghost use Rattle.std.specs.Option.{option_map};
ghost use Rattle.std.specs.Ordering.{nat_cmp};
ghost use Rattle.zone_pools.specs.Owners.{owner};
ghost use Rattle.zone_pools.specs.Owned_lists.{Change, Go, Put, edited};
ghost use Rattle.kernel_objects.specs.Processes.{adopted, at_pid, below, dropping, has_pid, heir, process_of, renamed, row_of, with_pid, without_pid};

use crate::objects::{ProcRow, Running};
use priv_sets::PrivSet;
use std::alloc::{AllocError, Global};
use std::collections::BTreeMap;
use std::marker::Model;
use zn_base::{Listing, Text};
use zone_pools::Owners;

/// The processes of a zone. Contracts see their list, in order of their numbers.
#[derive(Drop)]
pub(crate) struct Processes {
    by_pid: BTreeMap<u32, Running>,
}

impl Model for Processes {
    ghost use Rattle.std.specs.Prelude.{List, map};
    ghost use Rattle.kernel_objects.specs.Processes.{Process, process_of};

    ghost Value = { List Process };

    ghost view = { λ s. map process_of s.by_pid.entries };
}

// Puts a process as it is listed behind others.
fn push_row(
    rows: &mut Listing<ProcRow>,
    alloc: Global,
    pid: u32,
    running: &Running,
) -> Result<(), AllocError>
    ensures { OnOk result (rows.new ≡ rows.old ++ row_of (process_of (pid, running.now)) ∷ []) }
{
    let name = running.name.copy(alloc)?;
    rows.push(ProcRow {
        pid,
        parent: running.parent,
        name,
    })?;
    Ok(())
}

impl Processes {
    /// No process. It takes no memory.
    pub(crate) fn new(alloc: Global) -> Self
        ensures { result ≡ [] }
    {
        Self {
            by_pid: BTreeMap::new(alloc),
        }
    }

    /// How many there are.
    pub(crate) fn len(&self) -> usize
        ensures len { result ≡ length self.now }
        ensures bound { result < 2 ^ 63 }
    {
        self.by_pid.len()
    }

    /// The process with a number.
    pub(crate) fn find(&self, pid: u32) -> Option<&Running>
        ensures { option_map (λ r. process_of (pid, r.now)) result ≡ with_pid pid self.now }
    {
        self.by_pid.get(&pid)
    }

    /// A process comes to its place among the others. Where memory runs out nothing changes.
    pub(crate) fn insert(&mut self, pid: u32, running: Running) -> Result<(), AllocError>
        ensures placed { OnOk result (with_pid pid self.old ≡ None → self.new ≡ edited (Put (below pid) (process_of (pid, running))) self.old) }
        ensures same { OnErr result (self.new ≡ self.old) }
    {
        self.by_pid.insert(pid, running)?;
        Ok(())
    }

    /// A process gets another name.
    pub(crate) fn rename(&mut self, pid: u32, name: Text)
        ensures { self.new ≡ edited (Change (at_pid pid (renamed name))) self.old }
    {
        if let Some(running) = self.by_pid.get_mut(&pid) {
            running.name = name;
        }
    }

    /// A process gives up a privilege.
    pub(crate) fn drop_priv(&mut self, pid: u32, number: u8)
        ensures { self.new ≡ edited (Change (at_pid pid (dropping number))) self.old }
    {
        if let Some(running) = self.by_pid.get_mut(&pid) {
            running.privileges = running.privileges.without_one(number);
        }
    }

    // A process goes.
    fn take_out(&mut self, pid: u32)
        ensures { self.new ≡ edited (Go (has_pid pid)) self.old }
    {
        self.by_pid.remove(&pid);
    }

    // The number of the first process, or 0 where there is none.
    fn heir(&self) -> u32
        ensures { result ≡ heir self.now }
    {
        for (pid, running) in self.by_pid.iter() {
            if running.first {
                return *pid;
            }
        }
        0
    }

    // The children of a process that went get another parent.
    fn adopt(&mut self, gone: u32, heir: u32)
        ensures { self.new ≡ edited (Change (adopted gone heir)) self.old }
    {
        self.by_pid.retain(|_, running| {
            if running.parent == gone {
                running.parent = heir;
            }
            true
        });
    }

    /// A process goes, and its children get the first process as their parent, or none where it is gone.
    pub(crate) fn remove(&mut self, pid: u32)
        ensures { self.new ≡ without_pid pid self.old }
    {
        self.take_out(pid);
        let heir = self.heir();
        self.adopt(pid, heir);
    }

    /// All processes go.
    pub(crate) fn clear(&mut self)
        ensures { self.new ≡ [] }
    {
        self.by_pid.clear();
    }

    /// The numbers are nobody's from now on.
    pub(crate) fn give_back(&self, pids: &mut Owners<u32>)
        ensures { (n : ℕ) → owner nat_eq pids.new n ≡ (if list_any (has_pid n) self.now then None else owner nat_eq pids.old n) }
    {
        for pid in self.by_pid.keys() {
            pids.give_back(pid);
        }
    }

    /// The processes as they are listed, in order of their numbers.
    pub(crate) fn rows(&self, alloc: Global) -> Result<Listing<ProcRow>, AllocError>
        ensures rows { IfOk result (λ rows. rows ≡ map row_of self.now) }
        ensures ordered { IfOk result (λ rows. IsStrictlySortedBy nat_cmp (map (λ p. p.pid) rows)) }
    {
        let mut rows = Listing::new(alloc);
        for (pid, running) in self.by_pid.iter() {
            push_row(&mut rows, alloc, *pid, running)?;
        }
        Ok(rows)
    }
}

//! What processes do, and what is done to them.
ghost use Rattle.std.specs.Prelude.{◌≡◌, Err, IfErr, IfOk, None, Ok, OnErr, OnOk, false, is_some, map, nat_eq, ◌&&◌, IfSome, [], ℕ};
ghost use Rattle.std.specs.Option.{option_map};
ghost use Rattle.std.specs.List.{list_any};
ghost use Rattle.std.specs.List.Sorted.{IsStrictlySortedBy};
ghost use Rattle.std.specs.Ordering.{nat_cmp};
ghost use Rattle.std.specs.Result.{result_and};
ghost use Rattle.zn_base.specs.Answers.{AnswersUnless};
ghost use Rattle.zone_pools.specs.Owned_lists.{Change, edited};
ghost use Rattle.kernel_objects.specs.declared.faults.KernelFault.TheVariants.{Memory};
ghost use Rattle.kernel_objects.specs.Kernel.{enter_answer, entered, fork_answer, fork_set, forked, at_limit, with_process, with_processes};
ghost use Rattle.kernel_objects.specs.Processes.{at_pid, count_of, dropping, ends, ends_some, has_pid, if_may_exec, if_may_mount, if_there, process_of, renamed, row_of, signalled, with_pid, without_pid};
ghost use Rattle.kernel_objects.specs.Shared.{Alike, FreesPids, TakesPid, pid_owner};

use crate::cell::KernelCell;
use crate::faults::{Errno, KernelFault};
use crate::objects::{ProcRow, Running, Signal};
use crate::shared::KernelShared;
use priv_sets::{PROC_EXEC, PROC_FORK, PrivSet, SYS_MOUNT};
use std::alloc::{AllocError, Global};
use zn_base::{Listing, Text, ZoneName};

// Whether a signal ends a process: a zone's first process ignores what comes from its own zone.
fn ends(inside: bool, signal: Signal, running: &Running) -> bool
    ensures { (pid : ℕ) → result ≡ ends inside signal (process_of (pid, running.now)) }
{
    match signal {
        Signal::Zero => false,
        Signal::Kill | Signal::Term => !(inside && running.first),
    }
}

impl KernelCell {
    /// What a process is that enters the zone, as its first one or by zlogin(1), but for its number: it has the zone's
    /// limit set and no parent. How many processes the zone has is not looked at: `at_limit` tells that, and `begin` does
    /// the rest.
    pub fn entering(&self, name: Text, first: bool) -> Running
        ensures { (pid : ℕ) → process_of (pid, result) ≡ entered self.now name first pid }
    {
        Running {
            parent: 0,
            name,
            first,
            privileges: self.limit(),
        }
    }

    /// A process begins, in a zone where none has its number, as `entering` or `forking` tells it. Nothing is looked at.
    /// The number is nobody's, and is the last one given from now on. Where memory runs out nothing changes, so a caller
    /// that changes more than this calls it once all other memory is taken, and before it changes anything.
    pub fn begin(
        &mut self,
        alloc: Global,
        shared: &mut KernelShared,
        zone: &ZoneName,
        pid: u32,
        running: &Running,
    ) -> Result<(), AllocError>
        requires { pid_owner shared.old pid ≡ None }
        ensures begun { OnOk result (with_pid pid self.old.processes ≡ None → self.new ≡ with_process (process_of (pid, running.now)) self.old) }
        ensures taken { OnOk result (TakesPid zone.now pid shared.old shared.new) }
        ensures same { OnErr result (self.new ≡ self.old) }
        ensures alike { OnErr result (Alike shared.old shared.new) }
    {
        let running = running.copy(alloc)?;
        let owner = shared.room_for_pid(alloc, zone)?;
        self.processes.insert(pid, running)?;
        shared.take_pid(pid, owner);
        Ok(())
    }

    /// A process enters the zone, as its first one or by zlogin(1), with the zone's limit set and no parent: EAGAIN where
    /// the zone has as many as it may have. Its number and memory are as in `begin`.
    pub fn enter(
        &mut self,
        alloc: Global,
        shared: &mut KernelShared,
        zone: &ZoneName,
        name: Text,
        first: bool,
        pid: u32,
    ) -> Result<(), KernelFault>
        requires { pid_owner shared.old pid ≡ None }
        ensures result { AnswersUnless KernelFault.Memory (enter_answer self.old) result }
        ensures entered { OnOk result (with_pid pid self.old.processes ≡ None → self.new ≡ with_process (entered self.old name first pid) self.old) }
        ensures taken { OnOk result (TakesPid zone.now pid shared.old shared.new) }
        ensures same { OnErr result (self.new ≡ self.old) }
        ensures alike { OnErr result (Alike shared.old shared.new) }
    {
        if self.at_limit() {
            return Err(KernelFault::Refused(Errno::EAGAIN));
        }
        let running = self.entering(name, first);
        self.begin(alloc, shared, zone, pid, &running)?;
        Ok(())
    }

    // The set that a child of a process gets.
    fn fork_set(&self, parent: u32) -> Result<PrivSet, Errno>
        ensures { result ≡ fork_set (with_pid parent self.now.processes) (at_limit self.now) }
    {
        match self.processes.find(parent) {
            None => Err(Errno::ESRCH),
            Some(running) if !running.privileges.has(PROC_FORK) => Err(Errno::EPERM),
            Some(_) if self.at_limit() => Err(Errno::EAGAIN),
            Some(running) => Ok(running.privileges.copy()),
        }
    }

    /// What a process is that another makes by fork(2), but for its number, with its parent's set: ESRCH where the zone has
    /// no such parent, EPERM where that lacks proc_fork, EAGAIN where the zone has as many processes as it may have. `begin`
    /// does the rest.
    pub fn forking(&self, parent: u32, name: Text) -> Result<Running, Errno>
        ensures set { IfOk result (λ r. fork_set (with_pid parent self.now.processes) (at_limit self.now) ≡ Ok r.privileges) }
        ensures child { IfOk result (λ r. r ≡ record { parent = parent; name = name; first = false; privileges = r.privileges }) }
        ensures forked { IfOk result (λ r. (pid : ℕ) → IfSome (with_pid parent self.now.processes) (λ p. process_of (pid, r) ≡ forked p name pid)) }
        ensures refused { IfErr result (λ e. fork_set (with_pid parent self.now.processes) (at_limit self.now) ≡ Err e) }
    {
        Ok(Running {
            parent,
            name,
            first: false,
            privileges: self.fork_set(parent)?,
        })
    }

    /// A process makes another, with its own set, by fork(2): ESRCH where the zone has no such process, EPERM where it
    /// lacks proc_fork, EAGAIN where the zone has as many processes as it may have. The number and memory are as in
    /// `begin`.
    pub fn fork(
        &mut self,
        alloc: Global,
        shared: &mut KernelShared,
        zone: &ZoneName,
        parent: u32,
        name: Text,
        pid: u32,
    ) -> Result<(), KernelFault>
        requires { pid_owner shared.old pid ≡ None }
        ensures result { AnswersUnless KernelFault.Memory (fork_answer parent self.old) result }
        ensures forked { OnOk result (with_pid pid self.old.processes ≡ None → IfSome (with_pid parent self.old.processes) (λ p. self.new ≡ with_process (forked p name pid) self.old)) }
        ensures taken { OnOk result (TakesPid zone.now pid shared.old shared.new) }
        ensures same { OnErr result (self.new ≡ self.old) }
        ensures alike { OnErr result (Alike shared.old shared.new) }
    {
        let running = self.forking(parent, name)?;
        self.begin(alloc, shared, zone, pid, &running)?;
        Ok(())
    }

    /// Whether a process may run another program, by exec(2): ESRCH where the zone has no such process, EPERM where it
    /// lacks proc_exec. `set_name` does the rest.
    pub fn check_exec(&self, pid: u32) -> Result<(), Errno>
        ensures { result ≡ if_may_exec (with_pid pid self.now.processes) }
    {
        match self.processes.find(pid) {
            None => Err(Errno::ESRCH),
            Some(running) if !running.privileges.has(PROC_EXEC) => Err(Errno::EPERM),
            Some(_) => Ok(()),
        }
    }

    /// Whether a process may mount and unmount, by mount(2): ESRCH where the zone has no such process, EPERM where it lacks
    /// sys_mount.
    pub fn check_mounter(&self, pid: u32) -> Result<(), Errno>
        ensures { result ≡ if_may_mount (with_pid pid self.now.processes) }
    {
        match self.processes.find(pid) {
            None => Err(Errno::ESRCH),
            Some(running) if !running.privileges.has(SYS_MOUNT) => Err(Errno::EPERM),
            Some(_) => Ok(()),
        }
    }

    /// A process gets the name of the program that it runs, where the zone has the process. Its set stays as it was.
    /// Nothing is looked at: `check_exec` tells whether it may.
    pub fn set_name(&mut self, pid: u32, name: Text)
        ensures { self.new ≡ with_processes (edited (Change (at_pid pid (renamed name))) self.old.processes) self.old }
    {
        self.processes.rename(pid, name);
    }

    /// A process runs another program, by exec(2), and has its name: ESRCH where the zone has no such process, EPERM where
    /// it lacks proc_exec. Its set stays as it was.
    pub fn rename(&mut self, pid: u32, name: Text) -> Result<(), Errno>
        ensures result { result ≡ if_may_exec (with_pid pid self.old.processes) }
        ensures renamed { OnOk result (self.new ≡ with_processes (edited (Change (at_pid pid (renamed name))) self.old.processes) self.old) }
        ensures same { OnErr result (self.new ≡ self.old) }
    {
        self.check_exec(pid)?;
        self.set_name(pid, name);
        Ok(())
    }

    /// Whether the zone has a process, else ESRCH. `end` and `give_up` do what is done to it then.
    pub fn check_there(&self, pid: u32) -> Result<(), Errno>
        ensures { result ≡ if_there (with_pid pid self.now.processes) }
    {
        match self.processes.find(pid) {
            None => Err(Errno::ESRCH),
            Some(_) => Ok(()),
        }
    }

    // The number of a process is nobody's from now on, where the zone has the process.
    fn free_pid_of(&self, shared: &mut KernelShared, pid: u32)
        ensures { FreesPids (λ n. nat_eq pid n && is_some (with_pid pid self.now.processes)) shared.old shared.new }
    {
        match self.processes.find(pid) {
            Some(_) => shared.free_pid(pid),
            None => {}
        }
    }

    /// A process ends, and its number is nobody's from now on, where the zone has it. Its children get the zone's first
    /// process as parent, or none where that is gone. `check_there` tells whether the zone has the process, and
    /// `check_signal` whether a signal ends it. It takes no memory.
    pub fn end(&mut self, shared: &mut KernelShared, pid: u32)
        ensures gone { self.new ≡ with_processes (without_pid pid self.old.processes) self.old }
        ensures freed { FreesPids (λ n. nat_eq pid n && is_some (with_pid pid self.old.processes)) shared.old shared.new }
    {
        self.free_pid_of(shared, pid);
        self.processes.remove(pid);
    }

    /// A process ends, by exit(2): ESRCH where the zone has no such process. Its children get the zone's first process as
    /// parent, or none where that is gone.
    pub fn exit(&mut self, shared: &mut KernelShared, pid: u32) -> Result<(), Errno>
        ensures result { result ≡ if_there (with_pid pid self.old.processes) }
        ensures gone { OnOk result (self.new ≡ with_processes (without_pid pid self.old.processes) self.old) }
        ensures freed { OnOk result (FreesPids (nat_eq pid) shared.old shared.new) }
        ensures same { OnErr result (self.new ≡ self.old) }
        ensures same_shared { OnErr result (shared.new ≡ shared.old) }
    {
        self.check_there(pid)?;
        self.end(shared, pid);
        Ok(())
    }

    /// Whether a signal of kill(1), from the process's own zone (`inside`) or from the global zone, ends a process: ESRCH
    /// where the zone has no such process. `end` does the rest.
    pub fn check_signal(&self, inside: bool, signal: Signal, pid: u32) -> Result<bool, Errno>
        ensures there { result_and result (Ok tt) ≡ if_there (with_pid pid self.now.processes) }
        ensures ends { IfOk result (λ ended. ended ≡ ends_some inside signal (with_pid pid self.now.processes)) }
    {
        match self.processes.find(pid) {
            None => Err(Errno::ESRCH),
            Some(running) => Ok(ends(inside, signal, running)),
        }
    }

    /// A process gets a signal, by kill(1), from its own zone (`inside`) or from the global zone: ESRCH where the zone has
    /// no such process, also where another zone has it. `Kill` and `Term` end it, but a zone's first process ignores what
    /// comes from its own zone. Who speaks for the global zone finds the process's cell by `KernelShared::owner`.
    pub fn kill(
        &mut self,
        shared: &mut KernelShared,
        inside: bool,
        signal: Signal,
        pid: u32,
    ) -> Result<(), Errno>
        ensures result { result ≡ if_there (with_pid pid self.old.processes) }
        ensures gone { self.new ≡ with_processes (signalled inside signal pid self.old.processes) self.old }
        ensures freed { FreesPids (λ n. nat_eq pid n && ends_some inside signal (with_pid pid self.old.processes)) shared.old shared.new }
    {
        if self.check_signal(inside, signal, pid)? {
            self.end(shared, pid);
        }
        Ok(())
    }

    /// How many processes the zone has. The count stands still at its type's end.
    pub fn count_procs(&self) -> u32
        ensures { result ≡ count_of self.now.processes }
    {
        self.processes.len().min(u32::MAX as usize) as u32
    }

    /// All processes of the zone end, and how many there were is answered, as `count_procs` counts them.
    pub fn kill_all(&mut self, shared: &mut KernelShared) -> u32
        ensures count { result ≡ count_of self.old.processes }
        ensures gone { self.new ≡ with_processes [] self.old }
        ensures freed { FreesPids (λ n. list_any (has_pid n) self.old.processes) shared.old shared.new }
    {
        let count = self.count_procs();
        shared.free_pids(&self.processes);
        self.processes.clear();
        count
    }

    /// A process gives up a privilege of privileges(7), by its number, where the zone has the process. Nothing is looked
    /// at: `check_there` tells whether it has.
    pub fn give_up(&mut self, pid: u32, number: u8)
        ensures { self.new ≡ with_processes (edited (Change (at_pid pid (dropping number))) self.old.processes) self.old }
    {
        self.processes.drop_priv(pid, number);
    }

    /// A process gives up a privilege of privileges(7), by its number, whether or not it has it: ESRCH where the zone has no
    /// such process.
    pub fn drop_priv(&mut self, pid: u32, number: u8) -> Result<(), Errno>
        ensures result { result ≡ if_there (with_pid pid self.old.processes) }
        ensures dropped { OnOk result (self.new ≡ with_processes (edited (Change (at_pid pid (dropping number))) self.old.processes) self.old) }
        ensures same { OnErr result (self.new ≡ self.old) }
    {
        self.check_there(pid)?;
        self.give_up(pid, number);
        Ok(())
    }

    /// The set of a process, as ppriv(1) shows it, where the zone has the process.
    pub fn privs(&self, pid: u32) -> Option<PrivSet>
        ensures { result ≡ option_map (λ p. p.privileges) (with_pid pid self.now.processes) }
    {
        match self.processes.find(pid) {
            Some(running) => Some(running.privileges.copy()),
            None => None,
        }
    }

    /// The zone's processes as ps(1) lists them, in order of their numbers. For more than a `Listing` holds, memory counts
    /// as run out.
    pub fn list_procs(&self, alloc: Global) -> Result<Listing<ProcRow>, KernelFault>
        ensures rows { IfOk result (λ rows. rows ≡ map row_of self.now.processes) }
        ensures ordered { IfOk result (λ rows. IsStrictlySortedBy nat_cmp (map (λ row. row.pid) rows)) }
        ensures memory { IfErr result (λ e. e ≡ Memory) }
    {
        Ok(self.processes.rows(alloc)?)
    }
}

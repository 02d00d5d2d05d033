//! What the calls keep, said of the definitions alone. Each law is the contract of a function that does nothing.
ghost use Rattle.std.specs.Prelude.{◌≡◌, ◌&&◌, ◌||◌, [], List, None, Some, Bool, nat_eq, not, true, ℕ};
ghost use Rattle.std.specs.List.{list_any};
ghost use Rattle.zn_base.specs.Names.{Name};
ghost use Rattle.zone_pools.specs.Owned_lists.{Change, Put, edited};
ghost use Rattle.kernel_objects.specs.Kernel.{Kernel, entered, forked, has_zid, is_nothing, new_id, nothing, with_process, with_processes, within_limit};
ghost use Rattle.kernel_objects.specs.Processes.{Process, at_pid, below, dropping, has_pid, renamed, with_pid, without_pid};
ghost use Rattle.kernel_objects.specs.Shared.{Agree, FreesPids, FreesZids, Shared, TakesPid, TakesZid};

/// Which numbers the processes of a zone have after one comes, one goes, or one changes.
pub fn numbers_of_processes()
    ensures come { (n : ℕ) (p : Process) (ps : List Process) → list_any (has_pid n) (edited (Put (below p.pid) p) ps) ≡ (nat_eq p.pid n || list_any (has_pid n) ps) }
    ensures gone { (n pid : ℕ) (ps : List Process) → list_any (has_pid n) (without_pid pid ps) ≡ (list_any (has_pid n) ps && not (nat_eq pid n)) }
    ensures renamed { (n pid : ℕ) (name : List ℕ) (ps : List Process) → list_any (has_pid n) (edited (Change (at_pid pid (renamed name))) ps) ≡ list_any (has_pid n) ps }
    ensures dropped { (n pid number : ℕ) (ps : List Process) → list_any (has_pid n) (edited (Change (at_pid pid (dropping number))) ps) ≡ list_any (has_pid n) ps }
{}

/// A zone's cell and the shared part agree after each call that changes both, where they agreed before.
pub fn cell_and_shared_part_agree()
    ensures come { (z : Name) (k : Kernel) (s t : Shared) (p : Process) → Agree z k s → TakesPid z p.pid s t → Agree z (with_process p k) t }
    ensures gone { (z : Name) (k : Kernel) (s t : Shared) (freed : ℕ → Bool) (ps : List Process) → Agree z k s → FreesPids freed s t
        → ((n : ℕ) → list_any (has_pid n) ps ≡ (list_any (has_pid n) k.processes && not (freed n))) → Agree z (with_processes ps k) t }
    ensures activated { (z : Name) (k : Kernel) (s t : Shared) (zid : ℕ) → Agree z k s → TakesZid z zid (λ n. has_zid n k.id) s t → Agree z (record k { id = Some (new_id zid) }) t }
    ensures deactivated { (z : Name) (k : Kernel) (s t : Shared) → Agree z k s → FreesZids (λ n. has_zid n k.id) s t → Agree z (record k { id = None }) t }
{}

/// Each process's set lies within its zone's limit set after each call that changes processes, where each did before.
/// `activate`, `set_limits`, `clear` and `deactivate` change the limit set: of a zone without processes it holds.
pub fn sets_lie_within_the_limit()
    ensures none { (k : Kernel) → k.processes ≡ [] → within_limit k ≡ true }
    ensures entered { (k : Kernel) (name : List ℕ) (first : Bool) (pid : ℕ) → within_limit k ≡ true → within_limit (with_process (entered k name first pid) k) ≡ true }
    ensures forked { (k : Kernel) (parent pid : ℕ) (p : Process) (name : List ℕ) → with_pid parent k.processes ≡ Some p → within_limit k ≡ true → within_limit (with_process (forked p name pid) k) ≡ true }
    ensures gone { (k : Kernel) (pid : ℕ) → within_limit k ≡ true → within_limit (with_processes (without_pid pid k.processes) k) ≡ true }
    ensures renamed { (k : Kernel) (pid : ℕ) (name : List ℕ) → within_limit k ≡ true → within_limit (with_processes (edited (Change (at_pid pid (renamed name))) k.processes) k) ≡ true }
    ensures dropped { (k : Kernel) (pid number : ℕ) → within_limit k ≡ true → within_limit (with_processes (edited (Change (at_pid pid (dropping number))) k.processes) k) ≡ true }
{}

/// A zone that is told as empty has nothing.
pub fn an_empty_zone_has_nothing()
    ensures { (k : Kernel) → is_nothing k ≡ true → k ≡ nothing }
{}

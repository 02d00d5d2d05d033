//! What the definitions say of a zone's mounts. Each law is the contract of a function that does nothing.
ghost use Rattle.std.specs.Prelude.{◌≡◌, List, None, Some, not, true, ℕ};
ghost use Rattle.std.specs.List.{list_all};
ghost use Rattle.loopback_mounts.specs.declared.mount.MountEntry.{MountEntry};
ghost use Rattle.loopback_mounts.specs.Mounts.{well_kept};
ghost use Rattle.loopback_mounts.specs.Places.{IsOver, covers_path, mount_over};

/// The mount over a path is, among all mounts whose components are the first of the path's, the one with most, of
/// which there is one. Where there is none, no mount's components are.
pub fn the_mount_over_a_path()
    ensures one { (ms : List MountEntry) (path : List ℕ) (m : MountEntry) → mount_over ms path ≡ Some m → IsOver ms path m }
    ensures none { (ms : List MountEntry) (path : List ℕ) → mount_over ms path ≡ None → list_all (λ m. not (covers_path path m)) ms ≡ true }
    ensures only { (ms : List MountEntry) (path : List ℕ) (m : MountEntry) → well_kept ms ≡ true → IsOver ms path m → mount_over ms path ≡ Some m }
{}

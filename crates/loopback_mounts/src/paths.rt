//! Paths by whole components.
ghost use Rattle.std.specs.Prelude.{◌≡◌, IsTrue};
ghost use Rattle.zn_base.specs.Path.{is_path};
ghost use Rattle.loopback_mounts.specs.Paths.{is_below};

/// Whether a path lies below a directory, by whole components.
pub(crate) fn is_below(dir: &[u8], path: &[u8]) -> bool
    requires dir { IsTrue (is_path dir.now) }
    requires path { IsTrue (is_path path.now) }
    ensures { result ≡ is_below dir.now path.now }
{
    if dir.len() >= path.len() {
        return false;
    }
    if !path.starts_with(dir) {
        return false;
    }
    dir.len() == 1 || path[dir.len()] == b'/'
}

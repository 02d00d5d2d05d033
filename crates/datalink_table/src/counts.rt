//! How many items of each kind are declared.
ghost use Rattle.std.specs.Prelude.{◌≡◌, ◌<◌};
ghost use Rattle.datalink_table.specs.Counts.{count_in, counting};
ghost use Rattle.datalink_table.specs.declared.claims.ClaimKind as kinds;

use crate::claims::ClaimKind;

/// How many items of each kind are declared.
#[derive(Clone, Copy)]
pub(crate) struct Counts {
    links: usize,
    addresses: usize,
    datasets: usize,
}

impl Counts {
    /// None of any kind.
    pub(crate) fn new() -> Self
        ensures { (kind : kinds.ClaimKind) → count_in kind result ≡ 0 }
    {
        Self {
            links: 0,
            addresses: 0,
            datasets: 0,
        }
    }

    pub(crate) fn of(self, kind: ClaimKind) -> usize
        ensures { result ≡ count_in kind self }
    {
        match kind {
            ClaimKind::Link => self.links,
            ClaimKind::Address => self.addresses,
            ClaimKind::Dataset => self.datasets,
        }
    }

    /// One more of a kind.
    pub(crate) fn add(&mut self, kind: ClaimKind)
        requires { count_in kind self.old < 1024 }
        ensures { self.new ≡ counting kind self.old }
    {
        match kind {
            ClaimKind::Link => self.links += 1,
            ClaimKind::Address => self.addresses += 1,
            ClaimKind::Dataset => self.datasets += 1,
        }
    }
}

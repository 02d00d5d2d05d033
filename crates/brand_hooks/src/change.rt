//! The changes of a zone that its brand's hooks are asked about.
ghost use Rattle.std.specs.Prelude.{◌≡◌, ◌<◌};
ghost use Rattle.brand_hooks.specs.Tables.{kind_place, place};

/// The changes of a zone's state, by brands(7), in the words of zoneadm(8).
#[derive(Clone, Copy)]
pub enum ChangeKind {
    Install,
    Uninstall,
    Clone,
    Attach,
    Detach,
    Ready,
    Boot,
    Halt,
}

/// A moment at which a brand's hook is asked: before a change or after it.
#[derive(Clone, Copy)]
pub struct Change {
    pub before: bool,
    pub kind: ChangeKind,
}

impl Change {
    // The place of its answer among the 16 of a table.
    pub(crate) fn place(&self) -> usize
        ensures place { result ≡ place self.now }
        ensures bound { result < 16 }
    {
        let kind = self.kind as usize;
        if self.before { kind } else { 8 + kind }
    }
}

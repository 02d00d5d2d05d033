//! What a run begins with.
use crate::toy::Toy;
use std::marker::{Brand, PhantomData};
use zone_threads::Start;

/// The lines of each session by its number. Who runs scripts picks them.
pub trait Lines {
    ghost use Rattle.std.specs.Prelude.{ℕ, List};
    ghost use Rattle.threads_tests.specs.declared.toy.Line.{Line};

    ghost lines: { ℕ → List Line };
}

impl Lines for Brand {
    ghost use Rattle.std.specs.Prelude.{[]};

    ghost lines = { λ s. [] };
}

/// Nothing done, and these lines.
pub struct Fresh<L> {
    of: PhantomData<L>,
}

impl<L: Lines> Start<Toy> for Fresh<L> {
    ghost use Rattle.std.specs.Prelude.{◌≡◌, []};

    ghost starts = { λ s. s ≡ [] };

    ghost scripts = { L.lines };
}

//! What a shared part tells of.
ghost use Rattle.std.specs.Prelude.{ℕ, List};

/// A part that stands for lists of entries: what was done to it.
pub trait Storied {
    type Entry;

    /// Which lists of entries a part stands for.
    ghost stands_for: { Self → List Self.Entry → Type 0 };

    /// The number of the pass to which an entry belongs.
    ghost belongs_to: { Self.Entry → ℕ };
}

//! What a run of threads is about.
use std::marker::Brand;

/// What a run of threads is about: the zones that have a place, each once; the brands that there are; what the disk was when the
/// run began; the states in one of which it began, whichever that was; and the lines of each session by its number.
pub trait Names {
    ghost use Rattle.std.specs.Prelude.{ℕ, List};
    ghost use Rattle.daemon_threads.specs.declared.past.Past.{Past};
    ghost use Rattle.zn_base.specs.Names.{Name};
    ghost use Rattle.zn_io.specs.Disk.{View};
    ghost use Rattle.brand_hooks.specs.Brands.{Tabled};
    ghost use Rattle.session_records.specs.Places.{AreApart};

    ghost zones: { List Name };

    ghost brands: { List Tabled };

    ghost view: { View };

    ghost starts: { Past → Type 0 };

    ghost lines: { ℕ → List (List ℕ) };

    ghost apart: { AreApart zones };
}

impl Names for Brand {
    ghost use Rattle.std.specs.Prelude.{◌≡◌, []};
    ghost use Rattle.daemon_threads.specs.Names.{no_disk, none_apart};

    ghost zones = { [] };

    ghost brands = { [] };

    ghost view = { no_disk };

    ghost starts = { λ s. s.entries ≡ [] };

    ghost lines = { λ n. [] };

    ghost apart = { none_apart };
}

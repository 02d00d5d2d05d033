//! Why there is no brand, or no list of brands.
ghost use Rattle.std.specs.Prelude.{◌≡◌};
ghost use Rattle.brand_hooks.specs.declared.fault.BrandFault.TheVariants.{Memory};

use std::alloc::AllocError;
use thiserror::Error;

/// Why there is no brand, or no list of brands.
#[derive(Clone, Copy, Debug, PartialEq, Eq, Error)]
pub enum BrandFault {
    #[error("out of memory")]
    Memory,
    /// The place of the first brand whose name an earlier one has, from 0.
    #[error("55 SameBrand {0}")]
    SameBrand(usize),
    /// The name isn't 1 to 32 letters, digits, `_` or `-`.
    #[error("56 BadBrandName")]
    BadBrandName,
}

impl From<AllocError> for BrandFault {
    ghost from_gives = { λ _ e. e ≡ Memory };

    fn from(_: AllocError) -> Self {
        BrandFault::Memory
    }
}

//! Copies, which take memory.
ghost use Rattle.std.specs.Prelude.{◌≡◌, IfOk};

use crate::{AbsPath, Text, ZoneName};
use std::alloc::{AllocError, Global};

/// What can be copied, to an equal value.
pub trait TryClone: Drop {
    /// An equal value.
    fn try_clone(&self, alloc: Global) -> Result<Self, AllocError>
        ensures { IfOk result (λ x. x ≡ self.now) };
}

impl TryClone for Text {
    fn try_clone(&self, alloc: Global) -> Result<Self, AllocError> {
        self.copy(alloc)
    }
}

impl TryClone for AbsPath {
    fn try_clone(&self, alloc: Global) -> Result<Self, AllocError> {
        self.copy(alloc)
    }
}

impl TryClone for ZoneName {
    fn try_clone(&self, alloc: Global) -> Result<Self, AllocError> {
        self.copy(alloc)
    }
}

impl<T: TryClone> TryClone for Option<T> {
    fn try_clone(&self, alloc: Global) -> Result<Self, AllocError> {
        match self {
            None => Ok(None),
            Some(item) => Ok(Some(item.try_clone(alloc)?)),
        }
    }
}

//! Values of deep types.

/// A value that is let go by one call, in the place of one for each of its parts: a function's proof grows with all that it
/// lets go, at each of its exits.
pub struct Kept<T: Drop>(pub T);

impl<T: Drop> Drop for Kept<T> {
    fn drop(self) {
        let Kept(_value) = self;
    }
}

//! Texts that are compared.

/// Whether two texts are one. A comparison is a call, so that the proofs of those who compare don't follow it.
pub fn is_same(told: &[u8], wanted: &[u8]) -> bool {
    told == wanted
}

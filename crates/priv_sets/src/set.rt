//! Sets of privileges.
ghost use Rattle.std.specs.Prelude.{◌≡◌, ◌<◌, [], IfOk, OnOk, slice_get};
ghost use Rattle.priv_sets.specs.declared.table.Class.TheVariants.{Default, Required};
ghost use Rattle.priv_sets.specs.Sets.{all_of, both, default_set, everything, has, only, print_of, set_of_bits, union, with_name, within, without};

use crate::table::{COUNT, Class, is_of, row};
use std::alloc::{AllocError, Global};
use std::marker::Model;

/// A set of the privileges of the table. Contracts see the list of their numbers, in the table's order.
#[derive(Drop)]
pub struct PrivSet {
    // The bit of place n is set where the privilege of number n is in the set.
    bits: u64,
}

impl Model for PrivSet {
    ghost use Rattle.std.specs.Prelude.{List, ℕ, ◌<◌, ◌^◌};
    ghost use Rattle.priv_sets.specs.Sets.{set_of_bits};

    ghost Value = { List ℕ };

    ghost view = { λ s. set_of_bits s.bits };

    ghost invariant = { λ s. s.bits < 2 ^ 40 };
}

// The length of the text of all privileges.
const TEXT_MAX: usize = 507;

// The bits of what a zone has unless its configuration says otherwise.
const DEFAULT_BITS: u64 = 0x4deedfff87;

// Whether the bit of a number is set.
fn is_set(bits: u64, number: u8) -> bool
    ensures { result ≡ has (set_of_bits bits) number }
{
    number < COUNT && bits >> number & 1 == 1
}

// Appends a name, after a comma where others stand before it.
fn push_name(text: &mut Vec<u8>, name: &[u8]) -> Result<(), AllocError>
    ensures { OnOk result (text.new.items ≡ with_name text.old.items name.now) }
{
    if !text.is_empty() {
        text.push(b',')?;
    }
    text.extend_from_slice(name)?;
    Ok(())
}

impl PrivSet {
    /// The set of no privileges.
    pub fn none() -> PrivSet
        ensures { result ≡ [] }
    {
        PrivSet { bits: 0 }
    }

    pub(crate) fn everything() -> PrivSet
        ensures { result ≡ everything }
    {
        PrivSet {
            bits: (1 << COUNT) - 1,
        }
    }

    // The set of one privilege.
    pub(crate) fn only(number: u8) -> PrivSet
        requires { number < 40 }
        ensures { result ≡ only number }
    {
        PrivSet { bits: 1 << number }
    }

    /// What is in one of the two sets.
    pub fn union(&self, other: &PrivSet) -> PrivSet
        ensures { result ≡ union self.now other.now }
    {
        PrivSet {
            bits: self.bits | other.bits,
        }
    }

    /// What is in this set and not in the other one.
    pub fn without(&self, other: &PrivSet) -> PrivSet
        ensures { result ≡ without self.now other.now }
    {
        PrivSet {
            bits: self.bits & !other.bits,
        }
    }

    // The set of one privilege, or of none where no privilege has the number.
    #[tactic(auto, using(crate::proofs::Bits::only_past))]
    fn only_if_any(number: u8) -> PrivSet
        ensures { result ≡ only number }
    {
        if number < COUNT {
            PrivSet::only(number)
        } else {
            PrivSet::none()
        }
    }

    /// What is in this set but the privilege of a number.
    pub fn without_one(&self, number: u8) -> PrivSet
        ensures { result ≡ without self.now (only number) }
    {
        self.without(&PrivSet::only_if_any(number))
    }

    /// An equal set.
    pub fn copy(&self) -> PrivSet
        ensures { result ≡ self.now }
    {
        PrivSet { bits: self.bits }
    }

    pub(crate) fn both(&self, other: &PrivSet) -> PrivSet
        ensures { result ≡ both self.now other.now }
    {
        PrivSet {
            bits: self.bits & other.bits,
        }
    }

    /// Whether the privilege of a number is in the set.
    pub fn has(&self, number: u8) -> bool
        ensures { result ≡ has self.now number }
    {
        is_set(self.bits, number)
    }

    /// Whether all that is in this set is in the other one.
    pub fn within(&self, other: &PrivSet) -> bool
        ensures { result ≡ within self.now other.now }
    {
        self.bits & !other.bits == 0
    }

    // The privilege that comes first in the table.
    pub(crate) fn first(&self) -> Option<u8>
        ensures { result ≡ slice_get self.now 0 }
    {
        if self.bits == 0 {
            None
        } else {
            Some(self.bits.trailing_zeros() as u8)
        }
    }

    pub(crate) fn all_of(class: Class) -> PrivSet
        ensures { result ≡ all_of class }
    {
        let mut set = PrivSet::none();
        for number in 0..COUNT {
            if is_of(number, class) {
                set = set.union(&PrivSet::only(number));
            }
        }
        set
    }

    /// What a zone has unless its configuration says otherwise, by zonecfg(8).
    pub fn default_set() -> PrivSet
        ensures { result ≡ default_set }
    {
        PrivSet { bits: DEFAULT_BITS }
    }

    /// The names in the set, in the table's order, with a comma between two.
    pub fn print(&self, alloc: Global) -> Result<Vec<u8>, AllocError>
        ensures { IfOk result (λ text. text.items ≡ print_of self.now) }
    {
        let bits = self.bits;
        let mut text = Vec::with_capacity(alloc, TEXT_MAX)?;
        for number in 0..COUNT {
            if is_set(bits, number) {
                push_name(&mut text, row(number).name.as_bytes())?;
            }
        }
        Ok(text)
    }
}

//! Lists of a bounded length.
ghost use Rattle.std.specs.Prelude.{◌≡◌, ◌<◌, ◌≤◌, ◌++◌, [], ◌∷◌, length, is_ok, if◌then◌else◌, remove, slice_set, slice_index_or, slice_get, Some, IfErr, IfOk};
ghost use Rattle.std.specs.Cmp.Lexicographic.{lists_equiv, lists_per, pointwise};

use crate::TryClone;
use std::alloc::{AllocError, AllocFailed, Global};
use std::marker::Model;

// The greatest length of a list, so that a place in it is a `u32`. No input of the program fills one.
const LISTING_MAX: usize = 4_294_967_295;

/// At most 4,294,967,295 items in order. Contracts see their list. For one more, memory counts as run out.
#[derive(Drop)]
pub struct Listing<T> {
    items: Vec<T>,
}

impl<T> Model for Listing<T> {
    ghost use Rattle.std.specs.Prelude.{◌≤◌, List, length};

    ghost Value = { List T };

    ghost view = { λ l. l.items.items };

    ghost invariant = { λ l. length l.items.items ≤ 4294967295 };
}

impl<T> Listing<T> {
    /// A list of nothing. It takes no memory.
    pub fn new(alloc: Global) -> Listing<T>
        ensures { result ≡ [] }
    {
        Listing {
            items: Vec::new(alloc),
        }
    }

    /// The items of a vector. It takes no memory.
    pub fn from_vec(items: Vec<T>) -> Listing<T>
        requires { length items.items ≤ 4294967295 }
        ensures { result ≡ items.items }
    {
        Listing { items }
    }

    /// The items as a vector. It takes no memory.
    pub fn into_vec(self) -> Vec<T>
        ensures items { result.items ≡ self }
        ensures bound { length result.items ≤ 4294967295 }
    {
        self.items
    }

    /// The items.
    pub fn as_slice(&self) -> &[T]
        ensures items { result.now ≡ self.now }
        ensures bound { length result.now ≤ 4294967295 }
    {
        &self.items
    }

    /// How many items there are.
    pub fn len(&self) -> usize
        ensures len { result ≡ length self.now }
        ensures bound { result ≤ 4294967295 }
    {
        self.items.len()
    }

    /// The item at a place, from 0.
    pub fn at(&self, place: usize) -> &T
        requires { place < length self.now }
        ensures { slice_get self.now place ≡ Some result.now }
    {
        &self.items[place]
    }

    /// Puts an item last. Where memory runs out the list is as before, and the item comes back.
    pub fn try_push(&mut self, item: T) -> Result<(), AllocFailed<T>>
        ensures items { self.new ≡ (if is_ok result then self.old ++ item ∷ [] else self.old) }
        ensures back { IfErr result (λ failed. failed.value ≡ item) }
    {
        if self.items.len() >= LISTING_MAX {
            return Err(AllocFailed { value: item });
        }
        self.items.push(item)
    }

    /// Takes the item at a place out.
    pub fn remove(&mut self, place: usize) -> T
        requires { place < length self.old }
        ensures value { result ≡ slice_index_or self.old place result }
        ensures items { self.new ≡ remove self.old place }
    {
        self.items.remove(place)
    }
}

impl<T: Drop> Listing<T> {
    /// Puts an item last. After a fault the list is as before, and the item is gone.
    pub fn push(&mut self, item: T) -> Result<(), AllocError>
        ensures { self.new ≡ (if is_ok result then self.old ++ item ∷ [] else self.old) }
    {
        self.try_push(item)?;
        Ok(())
    }

    /// Puts the items of another list last. After a fault the list is as before, and those are gone.
    pub fn append(&mut self, mut other: Listing<T>) -> Result<(), AllocError>
        ensures { self.new ≡ (if is_ok result then self.old ++ other else self.old) }
    {
        if self.items.len() + other.items.len() > LISTING_MAX {
            return Err(AllocError);
        }
        self.items.append(&mut other.items)
    }

    /// Puts an item in the place of another.
    pub fn replace(&mut self, place: usize, item: T)
        requires { place < length self.old }
        ensures { self.new ≡ slice_set self.old place item }
    {
        self.items[place] = item;
    }
}

impl<T: PartialEq> PartialEq for Listing<T> {
    ghost eq = { pointwise T.eq };

    ghost laws = { lists_per T.PartialEq.laws };

    fn eq(&self, other: &Listing<T>) -> bool {
        self.as_slice() == other.as_slice()
    }
}

impl<T: Eq> Eq for Listing<T> {
    ghost laws = { lists_equiv T.Eq.laws };
}

/// A list of equal items.
pub fn try_clone_all<T: TryClone>(alloc: Global, items: &[T]) -> Result<Listing<T>, AllocError>
    ensures { IfOk result (λ list. list ≡ items.now) }
{
    let mut list = Listing::new(alloc);
    for item in items {
        list.push(item.try_clone(alloc)?)?;
    }
    Ok(list)
}

impl<T: TryClone> TryClone for Listing<T> {
    fn try_clone(&self, alloc: Global) -> Result<Self, AllocError> {
        try_clone_all(alloc, self.as_slice())
    }
}

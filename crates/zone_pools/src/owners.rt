//! Who holds what: for each thing that one zone alone may hold, as a process's number or a session, the zone that
//! holds it. A machine with one cell for each zone keeps it beside the cells, so that a thing's zone, and whether
//! anyone holds it, is found by one look-up.
ghost use Rattle.std.specs.Prelude.{◌≡◌, ◌≤◌, ◌<◌, IsOk, OnErr, OnOk, None, Some, is_some, option_map, if◌then◌else◌};
ghost use Rattle.std.specs.List.{list_any};
ghost use Rattle.zone_pools.specs.Owners.{owner};

use indexmap::IndexMap;
use std::alloc::{AllocError, Global};
use std::hash::Hash;
use std::marker::Model;
use zn_base::ZoneName;

/// What zones hold, with the zone of each thing. Contracts see `Holders`.
#[derive(Drop)]
pub struct Owners<K: Eq + Hash> {
    zones: IndexMap<K, ZoneName>,
}

impl<K: Eq + Hash> Model for Owners<K> {
    ghost use Rattle.indexmap.specs.IndexMap.{spare};
    ghost use Rattle.zone_pools.specs.Owners.{Holders};

    ghost Value = { Holders K };

    ghost view = { λ s. record { entries = s.zones.entries; room = spare s.zones } };
}

/// What is held under a key.
pub trait Keyed<K> {
    ghost key_of: { Self → K };

    fn key(&self) -> &K
        ensures { result.now ≡ key_of self.now };
}

impl<K: Eq + Hash + Drop> Owners<K> {
    /// Nobody holds anything.
    pub fn new(alloc: Global) -> Self
        ensures { (k : K) → owner K.eq result k ≡ None }
    {
        Self {
            zones: IndexMap::new(alloc),
        }
    }

    /// The zone that holds a thing.
    pub fn owner(&self, key: &K) -> Option<&ZoneName>
        ensures { option_map (λ zone. zone.now) result ≡ owner K.eq self.now key.now }
    {
        self.zones.get(key)
    }

    /// Whether a zone holds a thing.
    pub fn is_held(&self, key: &K) -> bool
        ensures { result ≡ is_some (owner K.eq self.now key.now) }
    {
        self.zones.contains_key(key)
    }

    /// Room for one more, so that the next `take` wants no memory.
    pub fn reserve(&mut self) -> Result<(), AllocError>
        ensures same { (k : K) → owner K.eq self.new k ≡ owner K.eq self.old k }
        ensures room { OnOk result (0 < self.new.room) }
    {
        self.zones.reserve(1)
    }

    /// What nobody holds is the zone's from now on.
    pub fn take(&mut self, key: K, zone: ZoneName) -> Result<(), AllocError>
        requires { owner K.eq self.old key ≡ None }
        ensures taken { OnOk result ((k : K) → owner K.eq self.new k ≡ (if K.eq key k then Some zone else owner K.eq self.old k)) }
        ensures same { OnErr result ((k : K) → owner K.eq self.new k ≡ owner K.eq self.old k) }
        ensures room { 0 < self.old.room → IsOk result }
    {
        self.zones.insert(key, zone)?;
        Ok(())
    }

    /// What nobody holds is the zone's from now on. There is room for it, so this takes no memory.
    pub fn take_reserved(&mut self, key: K, zone: ZoneName)
        requires free { owner K.eq self.old key ≡ None }
        requires room { 0 < self.old.room }
        ensures { (k : K) → owner K.eq self.new k ≡ (if K.eq key k then Some zone else owner K.eq self.old k) }
    {
        match self.take(key, zone) {
            Ok(()) => {}
            Err(_) => unreachable!(),
        }
    }

    /// A thing is nobody's from now on.
    pub fn give_back(&mut self, key: &K)
        ensures given { (k : K) → owner K.eq self.new k ≡ (if K.eq key.now k then None else owner K.eq self.old k) }
        ensures room { self.old.room ≤ self.new.room }
    {
        self.zones.swap_remove(key);
    }

    /// Some things are nobody's from now on.
    pub fn give_all_back<T: Keyed<K>>(&mut self, things: &[T])
        ensures given { (k : K) → owner K.eq self.new k ≡ (if list_any (λ thing. K.eq (T.key_of thing) k) things.now then None else owner K.eq self.old k) }
        ensures room { self.old.room ≤ self.new.room }
    {
        for thing in things {
            self.give_back(thing.key());
        }
    }
}

//! Maps that have room for one more.
ghost use Rattle.std.specs.Prelude.{◌≡◌, ◌<◌, Some};
ghost use Rattle.indexmap.specs.IndexMap.{Updates, insert_entry, spare};

use indexmap::IndexMap;
use std::hash::Hash;

/// A key has a value from now on. There is room for it.
pub fn put<K: Eq + Hash + Drop, V: Drop>(map: &mut IndexMap<K, V>, key: K, value: V)
    requires { 0 < spare map.old }
    ensures entries { map.new.entries ≡ insert_entry K.eq map.old.entries key value }
    ensures updates { Updates K.eq map.old map.new key (Some value) }
{
    match map.insert(key, value) {
        Ok(_) => {}
        Err(_) => unreachable!(),
    }
}

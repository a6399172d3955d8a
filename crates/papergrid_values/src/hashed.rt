//! Single steps on hashed maps, told by what each key has.

ghost use Rattle.std.specs.Prelude.{◌≡◌, ◌+◌, ◌<◌, ◌≤◌, Some, None, OnOk, OnErr, is_some, option_copied};
ghost use Rattle.std.specs.HashMap.{spare, IsUnchanged, Updates, get as map_get};

use std::alloc::AllocError;
use std::collections::HashMap;
use std::hash::Hash;

/// What a key has. Where the map is empty, as most are, no hash is made.
#[inline(always)]
pub fn look_up<K: Eq + Hash + Copy, T>(map: &HashMap<K, T>, key: K) -> Option<&T>
    ensures value { option_copied result ≡ map_get K.eq map.now key }
{
    if map.is_empty() { None } else { map.get(&key) }
}

/// Whether a key has something. Where the map is empty, no hash is made.
pub fn is_stored<K: Eq + Hash + Copy, T>(map: &HashMap<K, T>, key: K) -> bool
    ensures { result ≡ is_some (map_get K.eq map.now key) }
{
    look_up(map, key).is_some()
}

/// Writes a value where there is room, so that no allocation can fail.
pub fn put<K: Eq + Hash + Drop, T: Drop>(map: &mut HashMap<K, T>, key: K, value: T)
    requires room { 0 < spare map.old }
    ensures updates { Updates K.eq map.old map.new key (Some value) }
    ensures spare { spare map.old ≤ spare map.new + 1 }
{
    match map.insert(key, value) {
        Ok(_) => {}
        Err(_) => unreachable!(),
    }
}

/// Writes a value, or leaves all as it was where an allocation fails.
pub fn write<K: Eq + Hash + Drop, T: Drop>(
    map: &mut HashMap<K, T>,
    key: K,
    value: T,
) -> Result<(), AllocError>
    ensures ok { OnOk result (Updates K.eq map.old map.new key (Some value)) }
    ensures err { OnErr result (IsUnchanged map.old map.new) }
{
    let _ = map.insert(key, value)?;
    Ok(())
}

/// Drops what a key has.
pub fn remove<K: Eq + Hash + Copy, T: Drop>(map: &mut HashMap<K, T>, key: K)
    ensures { Updates K.eq map.old map.new key None }
{
    let _ = map.remove(&key);
}

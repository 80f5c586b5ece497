//! Tables of values that are copied, by number.

ghost use Rattle.std.specs.Prelude.{◌≡◌, ◌==◌, if◌then◌else◌, ℕ, Some, OnOk};
ghost use Rattle.std.specs.Ordering.{nat_cmp};
ghost use Rattle.std.specs.BTreeMap.{get};

use ace_io::NoMemory;
use std::collections::BTreeMap;

/// The value under the key.
pub(crate) fn look_up<V: Copy>(table: &BTreeMap<u64, V>, key: u64) -> Option<V>
    ensures { result ≡ get nat_cmp table.now key }
{
    table.get(&key).copied()
}

/// Puts the value under the key, in place of an older one.
pub(crate) fn put<V: Copy>(table: &mut BTreeMap<u64, V>, key: u64, value: V) -> Result<(), NoMemory>
    ensures { OnOk result ((k : ℕ) → get nat_cmp table.new k
        ≡ (if key == k then Some value else get nat_cmp table.old k)) }
{
    match table.insert(key, value) {
        Ok(_older) => Ok(()),
        Err(_) => Err(NoMemory),
    }
}

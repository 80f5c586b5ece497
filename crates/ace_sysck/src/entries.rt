//! Lists with an entry for each port.

ghost use Rattle.std.specs.Prelude.{◌≡◌, slice_set, slice_index_or};

/// The entry of the port, or the other one where it has none.
#[inline(always)]
pub(crate) fn entry_or<T: Copy>(entries: &[T], port: u8, other: T) -> T
    ensures { result ≡ slice_index_or entries.now port other }
{
    let p = port as usize;
    if p < entries.len() { entries[p] } else { other }
}

/// Sets the entry of the port, if it has one.
#[inline(always)]
pub(crate) fn set_entry<T: Copy>(entries: &mut [T], port: u8, entry: T)
    ensures { entries.new ≡ slice_set entries.old port entry }
{
    let p = port as usize;
    if p < entries.len() {
        entries[p] = entry;
    }
}

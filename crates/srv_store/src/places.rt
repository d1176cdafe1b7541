// Vectors of entries in the order of their keys.
ghost use Rattle.std.specs.Prelude.{◌≡◌, not, true, false, is_some, length, IfOk, OnOk, OnErr, slice_get};
ghost use Rattle.std.specs.FinMap as finite;
ghost use Rattle.std.specs.FinMap.Entries.{is_sorted};
ghost use Rattle.std.specs.Option.{option_map_or};
ghost use Rattle.std.specs.Ordering.{is_gt, is_eq};
ghost use Rattle.srv_store.specs.Runs as spec;

use op_base::NoMemory;
use std::cmp::Ordering;

/// Puts the entry in its place, where none of its key is there. The answer says whether it was put.
pub(crate) fn add_new<K: Ord + Drop, V: Drop>(
    entries: &mut Vec<(K, V)>,
    key: K,
    value: V,
) -> Result<bool, NoMemory>
    requires { is_sorted K.cmp entries.old.items ≡ true }
    ensures added { IfOk result (λ added. added ≡ not (is_some (finite.find K.cmp key entries.old.items))) }
    ensures ok { OnOk result (entries.new.items ≡ spec.with_new K.cmp key value entries.old.items) }
    ensures err { OnErr result (entries.new.items ≡ entries.old.items) }
{
    let place = place_of(entries.as_slice(), &key);
    if is_here(entries.as_slice(), place, &key) {
        return Ok(false);
    }
    entries.insert(place, (key, value))?;
    Ok(true)
}

// How many keys stand before the key.
fn place_of<K: Ord, V>(entries: &[(K, V)], key: &K) -> usize
    requires { is_sorted K.cmp entries.now ≡ true }
    ensures { result ≡ spec.place_in K.cmp key.now entries.now }
{
    entries.partition_point(|entry| is_above(key, &entry.0))
}

fn is_above<K: Ord>(this: &K, that: &K) -> bool
    ensures { result ≡ is_gt (K.cmp this.now that.now) }
{
    match this.cmp(that) {
        Ordering::Greater => true,
        _ => false,
    }
}

// The entry at the place has the key.
fn is_here<K: Ord, V>(entries: &[(K, V)], place: usize, key: &K) -> bool
    ensures { result ≡ option_map_or (λ entry. is_eq (K.cmp key.now entry.0)) (slice_get entries.now place) false }
{
    match entries.get(place) {
        Some(entry) => has_key(entry, key),
        None => false,
    }
}

fn has_key<K: Ord, V>(entry: &(K, V), key: &K) -> bool
    ensures { result ≡ is_eq (K.cmp key.now entry.now.0) }
{
    match key.cmp(&entry.0) {
        Ordering::Equal => true,
        _ => false,
    }
}

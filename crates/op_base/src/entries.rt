// The list of entries on which label sets and tags stand. A look-up takes time logarithmic in its length.
ghost use Rattle.std.specs.Prelude.{◌≡◌, slice_get, option_and_then, OnOk, OnErr};
ghost use Rattle.std.specs.Option.{option_copied};
ghost use Rattle.std.specs.Ordering.{nat_cmp, is_gt, eq_by_cmp};
ghost use Rattle.std.specs.Cmp.Lexicographic.{slice_cmp};
ghost use Rattle.op_base.specs.Maps.{IsMap, value_at, with_entry, without_entry};
ghost use Rattle.op_base.specs.Entries.{place_in, stands_at, value_if};

use crate::entry::Entry;
use crate::memory::NoMemory;
use std::cmp::Ordering;

pub(crate) fn find<'a>(entries: &'a [Entry], name: &str) -> Option<&'a str>
    requires { IsMap entries.now }
    ensures { option_copied result ≡ value_at entries.now name.now }
{
    value_there(entries, place_of(entries, name), name)
}

// The value at the place, where the entry there has the name.
fn value_there<'a>(entries: &'a [Entry], place: usize, name: &str) -> Option<&'a str>
    ensures { option_copied result ≡ option_and_then (value_if name.now) (slice_get entries.now place) }
{
    match entries.get(place) {
        Some(entry) => value_in(entry, name),
        None => None,
    }
}

fn value_in<'a>(entry: &'a Entry, name: &str) -> Option<&'a str>
    ensures { option_copied result ≡ value_if name.now entry.now }
{
    if has_name(entry, name) {
        Some(entry.text())
    } else {
        None
    }
}

// Puts the entry, in place of any of its name.
pub(crate) fn put(entries: &mut Vec<Entry>, entry: Entry) -> Result<(), NoMemory>
    requires { IsMap entries.old.items }
    ensures ok { OnOk result (entries.new.items ≡ with_entry entries.old.items entry.0 entry.1) }
    ensures err { OnErr result (entries.new.items ≡ entries.old.items) }
{
    let place = place_of(entries.as_slice(), entry.name());
    if is_at(entries.as_slice(), place, entry.name()) {
        entries[place] = entry;
        return Ok(());
    }
    entries.insert(place, entry)?;
    Ok(())
}

pub(crate) fn remove(entries: &mut Vec<Entry>, name: &str)
    requires { IsMap entries.old.items }
    ensures { entries.new.items ≡ without_entry entries.old.items name.now }
{
    let place = place_of(entries.as_slice(), name);
    if is_at(entries.as_slice(), place, name) {
        let _removed = entries.remove(place);
    }
}

fn place_of(entries: &[Entry], name: &str) -> usize
    requires { IsMap entries.now }
    ensures { result ≡ place_in entries.now name.now }
{
    entries.partition_point(|entry| is_before(entry, name))
}

// The entry's name is below the name.
fn is_before(entry: &Entry, name: &str) -> bool
    ensures { result ≡ is_gt (slice_cmp nat_cmp name.now entry.now.0) }
{
    match name.cmp(entry.name()) {
        Ordering::Greater => true,
        _ => false,
    }
}

fn is_at(entries: &[Entry], place: usize, name: &str) -> bool
    ensures { result ≡ stands_at entries.now place name.now }
{
    match entries.get(place) {
        Some(entry) => has_name(entry, name),
        None => false,
    }
}

fn has_name(entry: &Entry, name: &str) -> bool
    ensures { result ≡ eq_by_cmp (slice_cmp nat_cmp) name.now entry.now.0 }
{
    match name.cmp(entry.name()) {
        Ordering::Equal => true,
        _ => false,
    }
}

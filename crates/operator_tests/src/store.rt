//! Look-ups in a store.

use crate::things::{is_so, label};
use op_base::{List, Moment, NoMemory};
use srv_store::{Entry, LabelMap, Store};
use std::alloc::Global;

fn put(alloc: Global, store: &mut Store, job: &str, at: i64) -> Result<bool, NoMemory> {
    store.add(Entry {
        labels: label(alloc, "job", job)?,
        at: Moment(at),
        value: Some(7),
    })
}

/// Two entries of the job `a` and one of the job `b`.
fn filled(alloc: Global) -> Result<Store, NoMemory> {
    let mut store = Store::new(alloc);
    put(alloc, &mut store, "b", 1000)?;
    put(alloc, &mut store, "a", 3000)?;
    put(alloc, &mut store, "a", 2000)?;
    Ok(store)
}

/// How many entries are selected from one moment to another.
fn selected(alloc: Global, store: &Store, from: i64, to: i64) -> Result<usize, NoMemory> {
    Ok(
        store
            .select(&List::new(alloc), Moment(from), Moment(to))?
            .len(),
    )
}

/// How many label sets have entries from one moment to another.
fn ranged(alloc: Global, store: &Store, from: i128, to: i128) -> Result<usize, NoMemory> {
    Ok(store.ranged(&List::new(alloc), &from, &to)?.len())
}

/// Whether what is found is by moments, and nothing where the end is before the beginning.
fn finds_by_moments(alloc: Global, store: &Store) -> Result<bool, NoMemory> {
    Ok(
        selected(alloc, store, 1000, 2000)? == 2
            && selected(alloc, store, 3000, 1000)? == 0
            && ranged(alloc, store, 1000, 3000)? == 2
            && ranged(alloc, store, 3000, 1000)? == 0,
    )
}

fn is_found(alloc: Global) -> Result<bool, NoMemory> {
    finds_by_moments(alloc, &filled(alloc)?)
}

#[test]
fn a_selection_is_by_moments(rt: HostRuntime) {
    assert!(rt; is_so(is_found(rt.alloc())));
    assert!(rt; LabelMap::<u8>::new(rt.alloc()).len() == 0);
}

ghost use Rattle.std.specs.Prelude.{◌≡◌, [], length, IsTrue, ◌↔◌, IfOk, OnOk, OnErr};
ghost use Rattle.std.specs.Option.{option_copied};
ghost use Rattle.std.specs.FinMap as finite;
ghost use Rattle.op_base.specs.Maps as spec;

use crate::list::List;
use crate::memory::NoMemory;
use std::alloc::Global;
use std::collections::BTreeMap;
use std::collections::btree_map::Iter;
use std::marker::Model;

/// A finite map in the order of its keys. Contracts see its entries in that order. A look-up and an
/// insertion take time logarithmic in its length.
#[derive(Debug, Drop)]
pub struct OrderedMap<K: Ord, V> {
    entries: BTreeMap<K, V>,
}

impl<K: Ord, V> Model for OrderedMap<K, V> {
    ghost use Rattle.std.specs.Prelude.{List};
    ghost use Rattle.std.specs.Coded.{coded_list, coded×};

    ghost Value = { List (K × V) };

    ghost coded = { coded_list (coded× K.code V.code) };

    ghost view = { λ m. m.entries.entries };
}

impl<K: Ord, V> OrderedMap<K, V> {
    /// The empty map.
    pub fn new(alloc: Global) -> OrderedMap<K, V>
        ensures { result ≡ [] }
    {
        OrderedMap {
            entries: BTreeMap::new(alloc),
        }
    }

    pub fn len(&self) -> usize
        ensures len { result ≡ length self.now }
        ensures ordered { spec.IsOrdered K.cmp self.now }
    {
        self.entries.len()
    }

    /// The value at the key.
    pub fn get(&self, key: &K) -> Option<&V>
        ensures { option_copied result ≡ finite.find K.cmp key.now self.now }
    {
        self.entries.get(key)
    }

    /// The entries in the order of their keys.
    pub fn iter(&self) -> Iter<'_, K, V>
        ensures { result ≡ self.now }
    {
        self.entries.iter()
    }
}

impl<K: Ord + Drop, V: Drop> OrderedMap<K, V> {
    /// Puts the value at the key, in place of any that stood there.
    pub fn insert(&mut self, key: K, value: V) -> Result<(), NoMemory>
        ensures ok { OnOk result (self.new ≡ finite.put K.cmp key value self.old) }
        ensures err { OnErr result (self.new ≡ self.old) }
    {
        self.entries.insert(key, value)?;
        Ok(())
    }

    /// The entries in the order of their keys.
    pub fn into_entries(self, alloc: Global) -> Result<List<(K, V)>, NoMemory>
        ensures { IfOk result (λ entries. entries ≡ self) }
    {
        let OrderedMap { entries } = self;
        let mut all = List::new(alloc);
        for entry in entries {
            all.push(entry)?;
        }
        Ok(all)
    }
}

impl<K: Ord, X> OrderedMap<K, List<X>> {
    /// The things at the key.
    pub fn members(&self, key: &K) -> &[X]
        ensures { result.now ≡ spec.members_at K.cmp self.now key.now }
    {
        match self.get(key) {
            Some(members) => members.as_slice(),
            None => &[],
        }
    }

    /// Takes the last of the things at the key, if there is one.
    pub fn pop(&mut self, key: &K) -> Option<X>
        ensures last { result ≡ spec.last_member K.cmp self.old key.now }
        ensures rest { self.new ≡ spec.without_last K.cmp self.old key.now }
    {
        match self.entries.get_mut(key) {
            Some(members) => members.pop(),
            None => None,
        }
    }
}

impl<K: Ord + Drop, X: Drop> OrderedMap<K, List<X>> {
    /// Puts one more thing at the key, behind those that stand there.
    pub fn add(&mut self, alloc: Global, key: K, member: X) -> Result<(), NoMemory>
        ensures ok { OnOk result (self.new ≡ spec.with_member K.cmp self.old key member) }
        ensures err { OnErr result (self.new ≡ self.old) }
    {
        match self.entries.get_mut(&key) {
            Some(members) => members.push(member),
            None => {
                let mut members = List::new(alloc);
                members.push(member)?;
                self.insert(key, members)
            }
        }
    }
}

/// The pairs in the order of their keys; of two with the same key the later one's value stands. It takes
/// n log n steps.
pub fn in_order<K: Ord + Drop, V: Drop>(
    alloc: Global,
    pairs: List<(K, V)>,
) -> Result<List<(K, V)>, NoMemory>
    ensures { IfOk result (λ sorted. sorted ≡ spec.in_order K.cmp pairs) }
{
    let mut map = OrderedMap::new(alloc);
    for (key, value) in pairs.into_vec() {
        map.insert(key, value)?;
    }
    map.into_entries(alloc)
}

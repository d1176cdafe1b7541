ghost use Rattle.std.specs.Prelude.{◌≡◌, [], length, IsTrue, ◌↔◌, IfOk, OnOk, OnErr};
ghost use Rattle.std.specs.Option.{option_copied};
ghost use Rattle.op_base.specs.Maps.{IsMap, value_at, with_entry, with_inner, keys_of, values_of};

use crate::list::List;
use crate::memory::NoMemory;
use crate::text::Text;
use std::alloc::Global;
use std::collections::BTreeMap;
use std::marker::Model;

/// A finite map from texts to values. Contracts see its entries in the order of their keys. It
/// keeps its allocator; a look-up and an insertion take time logarithmic in its length.
#[derive(Debug, Drop)]
pub struct Table<V> {
    entries: BTreeMap<String, V>,
}

impl<V> Model for Table<V> {
    ghost use Rattle.std.specs.Prelude.{List, ℕ};
    ghost use Rattle.std.specs.Coded.{coded_list, coded_ℕ, coded×};
    ghost use Rattle.op_base.specs.Maps.{Map, shown_entries};

    ghost Value = { Map V };

    ghost coded = { coded_list (coded× (coded_list coded_ℕ) V.code) };

    ghost view = { λ t. shown_entries t.entries };
}

impl<V> Table<V> {
    /// The empty map.
    pub fn new(alloc: Global) -> Table<V>
        ensures { result ≡ [] }
    {
        Table {
            entries: BTreeMap::new(alloc),
        }
    }

    pub fn len(&self) -> usize
        ensures len { result ≡ length self.now }
        ensures sorted { IsMap self.now }
    {
        self.entries.len()
    }

    pub fn is_empty(&self) -> bool
        ensures { IsTrue result ↔ (self.now ≡ []) }
    {
        self.entries.is_empty()
    }

    pub fn get(&self, key: &str) -> Option<&V>
        ensures { option_copied result ≡ value_at self.now key.now }
    {
        self.entries.get(key)
    }

    /// The keys in order.
    pub fn keys(&self, alloc: Global) -> Result<List<Text>, NoMemory>
        ensures keys { IfOk result (λ keys. keys ≡ keys_of self.now) }
        ensures sorted { IsMap self.now }
    {
        let _rising = self.entries.len();
        let mut keys = List::new(alloc);
        for key in self.entries.keys() {
            keys.push(Text::from_str(alloc, key.as_str())?)?;
        }
        Ok(keys)
    }
}

impl<V: Drop> Table<V> {
    /// Puts the value at the key, in place of any that stood there.
    pub fn insert(&mut self, key: Text, value: V) -> Result<(), NoMemory>
        ensures ok { OnOk result (self.new ≡ with_entry self.old key value) }
        ensures err { OnErr result (self.new ≡ self.old) }
    {
        self.entries.insert(key.into_string(), value)?;
        Ok(())
    }

    /// The values in the order of their keys.
    pub fn into_values(self, alloc: Global) -> Result<List<V>, NoMemory>
        ensures { IfOk result (λ values. values ≡ values_of self) }
    {
        let Table { entries } = self;
        let mut values = List::new(alloc);
        for value in entries.into_values() {
            values.push(value)?;
        }
        Ok(values)
    }
}

impl<V: Drop> Table<Table<V>> {
    /// Puts the value at the two keys, in an inner table that it adds where there is none.
    pub fn insert_in(
        &mut self,
        alloc: Global,
        outer: Text,
        inner: Text,
        value: V,
    ) -> Result<(), NoMemory>
        ensures ok { OnOk result (self.new ≡ with_inner self.old outer inner value) }
        ensures err { OnErr result (self.new ≡ self.old) }
    {
        match self.entries.get_mut(outer.as_str()) {
            Some(table) => table.insert(inner, value),
            None => {
                let mut table = Table::new(alloc);
                table.insert(inner, value)?;
                self.insert(outer, table)
            }
        }
    }
}

ghost use Rattle.std.specs.Prelude.{◌≡◌, ◌<◌, [], length, IfOk, OnOk, OnErr};
ghost use Rattle.std.specs.Option.{option_copied};
ghost use Rattle.op_base.specs.Maps.{value_at, without_entry};
ghost use Rattle.op_base.specs.Labels.{IsLabels, labels_with, labels_with_all, name_in, text_in};
ghost use Rattle.op_base.specs.Matchers.{label_value};

use crate::entries::{find, put, remove};
use crate::entry::Entry;
use crate::memory::NoMemory;
use crate::tags::Tags;
use std::alloc::Global;
use std::cmp::Ordering;
use std::hash::{Hash, Hasher};
use std::marker::Model;

/// A label set of the Prometheus data model: a finite map from names to texts that aren't empty.
/// Contracts see its entries in the order of the names. It keeps its allocator. A copy shares the texts.
#[derive(Debug, Drop)]
pub struct Labels {
    entries: Vec<Entry>,
}

impl Model for Labels {
    ghost use Rattle.std.specs.Coded.{coded_list, coded_ℕ, coded×};
    ghost use Rattle.op_base.specs.Labels.{Texts, IsLabels};

    ghost Value = { Texts };

    ghost coded = { coded_list (coded× (coded_list coded_ℕ) (coded_list coded_ℕ)) };

    ghost view = { λ labels. labels.entries.items };

    ghost invariant = { λ labels. IsLabels labels.entries.items };
}

impl Labels {
    /// The empty label set.
    pub fn new(alloc: Global) -> Labels
        ensures { result ≡ [] }
    {
        Labels {
            entries: Vec::new(alloc),
        }
    }

    pub fn len(&self) -> usize
        ensures len { result ≡ length self.now }
        ensures labels { IsLabels self.now }
    {
        self.entries.len()
    }

    /// The value at the name.
    pub fn get(&self, name: &str) -> Option<&str>
        ensures value { option_copied result ≡ value_at self.now name.now }
        ensures labels { IsLabels self.now }
    {
        find(self.entries.as_slice(), name)
    }

    /// The value at the name; a missing label counts as the empty text.
    pub fn value(&self, name: &str) -> &str
        ensures { result.now ≡ label_value self.now name.now }
    {
        match self.get(name) {
            Some(value) => value,
            None => "",
        }
    }

    /// Puts the value at the name, in place of any that stood there. An empty value removes the
    /// name.
    pub fn set(&mut self, name: &str, value: &str) -> Result<(), NoMemory>
        ensures ok { OnOk result (self.new ≡ labels_with self.old name.now value.now) }
        ensures err { OnErr result (self.new ≡ self.old) }
    {
        if value.is_empty() {
            remove(&mut self.entries, name);
            return Ok(());
        }
        let entry = Entry::new(*self.entries.allocator(), name, value)?;
        put(&mut self.entries, entry)
    }

    /// Puts each of the texts at its name, in place of any that stood there. An empty text removes the
    /// name. An error leaves some of them put.
    pub fn set_all(&mut self, others: &Tags) -> Result<(), NoMemory>
        ensures { OnOk result (self.new ≡ labels_with_all self.old others.now) }
    {
        self.set_each(others.as_slice())
    }

    /// Puts the other labels over these. An error leaves some of them put.
    pub fn set_labels(&mut self, others: &Labels) -> Result<(), NoMemory>
        ensures { OnOk result (self.new ≡ labels_with_all self.old others.now) }
    {
        self.set_each(others.entries.as_slice())
    }

    fn set_each(&mut self, others: &[Entry]) -> Result<(), NoMemory>
        ensures { OnOk result (self.new ≡ labels_with_all self.old others.now) }
    {
        for other in others {
            self.set_entry(other)?;
        }
        Ok(())
    }

    // As `set`, with the texts shared.
    fn set_entry(&mut self, other: &Entry) -> Result<(), NoMemory>
        ensures { OnOk result (self.new ≡ labels_with self.old other.now.0 other.now.1) }
    {
        if other.text().is_empty() {
            remove(&mut self.entries, other.name());
            return Ok(());
        }
        let entry = other.clone()?;
        put(&mut self.entries, entry)
    }

    /// Removes the name, where it is there.
    pub fn remove(&mut self, name: &str)
        ensures { self.new ≡ without_entry self.old name.now }
    {
        remove(&mut self.entries, name);
    }

    /// The name at the place `index` in the order of names.
    pub fn name_at(&self, index: usize) -> &str
        requires { index < length self.now }
        ensures { result.now ≡ name_in self.now index }
    {
        self.entries[index].name()
    }

    /// The value at the place `index` in the order of names.
    pub fn value_at(&self, index: usize) -> &str
        requires { index < length self.now }
        ensures { result.now ≡ text_in self.now index }
    {
        self.entries[index].text()
    }

    /// An equal label set, which shares the texts.
    pub fn copy(&self) -> Result<Labels, NoMemory>
        ensures { IfOk result (λ labels. labels ≡ self.now) }
    {
        Ok(Labels {
            entries: self.entries.clone()?,
        })
    }
}

impl PartialEq for Labels {
    ghost use Rattle.std.specs.Cmp.Lexicographic.{pointwise};
    ghost use Rattle.std.specs.Cmp.Rules.{comparing};
    ghost use Rattle.std.proofs.Common.{rules};
    ghost use Rattle.op_base.specs.Labels.{entry_eq};

    ghost eq = { pointwise entry_eq };

    ghost laws = { Prim.search (comparing, rules) };

    fn eq(&self, other: &Labels) -> bool {
        self.entries == other.entries
    }
}

impl Eq for Labels {
    ghost use Rattle.std.specs.Cmp.Rules.{comparing};
    ghost use Rattle.std.proofs.Common.{rules};

    ghost laws = { Prim.search (comparing, rules) };
}

impl PartialOrd for Labels {
    ghost use Rattle.std.specs.Ordering.{as_partial_cmp};
    ghost use Rattle.std.specs.Cmp.{partial_order_from_own_ties};
    ghost use Rattle.std.specs.Cmp.Rules.{comparing};
    ghost use Rattle.std.proofs.Common.{rules};
    ghost use Rattle.op_base.specs.Labels.{labels_cmp, labels_ties};

    ghost partial_cmp = { as_partial_cmp labels_cmp };

    ghost laws = { partial_order_from_own_ties (Prim.search (comparing, rules)) labels_ties };

    fn partial_cmp(&self, other: &Labels) -> Option<Ordering> {
        Some(self.cmp(other))
    }
}

impl Ord for Labels {
    ghost use Rattle.std.specs.Cmp.Rules.{comparing};
    ghost use Rattle.std.proofs.Common.{rules};
    ghost use Rattle.op_base.specs.Labels.{labels_cmp, labels_ties};

    ghost cmp = { labels_cmp };

    ghost total = { Prim.search (comparing, rules) };

    ghost matches_partial_cmp = { Prim.search (comparing, rules) };

    ghost matches_eq = { labels_ties };

    fn cmp(&self, other: &Labels) -> Ordering {
        self.entries.cmp(&other.entries)
    }
}

impl Hash for Labels {
    ghost use Rattle.op_base.specs.Labels.{labels_fed, labels_fed_alike};

    ghost hash_input = { labels_fed };

    ghost respects_eq = { labels_fed_alike };

    fn hash<H: Hasher>(&self, state: &mut H) {
        self.entries.hash(state);
    }
}

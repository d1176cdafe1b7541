ghost use Rattle.std.specs.Prelude.{◌≡◌, [], ◌∷◌, ◌++◌, not, length, IfOk, OnOk, OnErr};
ghost use Rattle.srv_store.specs.StoreLaws.{IsTwinless};
ghost use Rattle.srv_store.specs.Stores as spec;

use crate::addition::{Addition, add_at, numbered};
use crate::entry::Entry;
use crate::lookups::{found_runs, newest_entries, ranged_series, selected_entries};
use crate::map::LabelMap;
use crate::run::Run;
use indexmap::IndexSet;
use op_base::{Labels, List, Matcher, Moment, NoMemory, Pattern, PatternFault, Table, Text};
use std::alloc::Global;
use std::marker::Model;

/// The samples that were stored. Contracts see the list of their entries in the order in which they
/// came. It keeps a run of readings for each label set, for each label the numbers of
/// the runs that have it, the patterns that were read for matchers, and its allocator.
#[derive(Drop)]
pub struct Store {
    alloc: Global,
    keys: IndexSet<Labels>,
    runs: Vec<Run>,
    index: LabelMap<List<usize>>,
    log: Vec<Addition>,
    patterns: Table<Pattern>,
}

impl Model for Store {
    ghost use Rattle.srv_store.specs.Stores.{Store as Seen};
    ghost use Rattle.srv_store.specs.Runs.{IsKept, entries_of};
    ghost use Rattle.srv_store.specs.Indexes.{IsIndex};
    ghost use Rattle.srv_store.specs.StoreLaws.{IsTwinless};

    ghost Value = { Seen };

    ghost view = { λ store. entries_of store.keys.keys store.log.items };

    ghost invariant = { λ store. IsKept store.keys.keys store.runs.items store.log.items
        × IsIndex store.keys.keys store.index
        × IsTwinless (entries_of store.keys.keys store.log.items) };
}

impl Store {
    /// The empty store.
    pub fn new(alloc: Global) -> Store
        ensures { result ≡ [] }
    {
        Store {
            alloc,
            keys: IndexSet::new(alloc),
            runs: Vec::new(alloc),
            index: LabelMap::new(alloc),
            log: Vec::new(alloc),
            patterns: Table::new(alloc),
        }
    }

    /// How many entries there are. No two of them are of the same labels and moment.
    pub fn len(&self) -> usize
        ensures len { result ≡ length self.now }
        ensures twinless { IsTwinless self.now }
    {
        self.log.len()
    }

    /// Stores the entry, where none of the same labels and moment is there. The answer says whether
    /// it was stored.
    pub fn add(&mut self, entry: Entry) -> Result<bool, NoMemory>
        ensures added { IfOk result (λ added. added ≡ not (spec.has_twin self.old entry)) }
        ensures ok { OnOk result (self.new ≡ spec.with_one self.old entry) }
        ensures err { OnErr result (self.new ≡ self.old) }
    {
        self.take(&entry)
    }

    fn take(&mut self, entry: &Entry) -> Result<bool, NoMemory>
        ensures added { IfOk result (λ added. added ≡ not (spec.has_twin self.old entry.now)) }
        ensures ok { OnOk result (self.new ≡ spec.with_one self.old entry.now) }
        ensures err { OnErr result (self.new ≡ self.old) }
    {
        let number = numbered(
            self.alloc,
            &mut self.keys,
            &mut self.runs,
            &mut self.index,
            &entry.labels,
        )?;
        let addition = Addition {
            number,
            at: entry.at,
            value: entry.value,
        };
        add_at(&mut self.runs, &mut self.log, addition)
    }

    /// Stores the entries one after the other, leaving out those of which one of the same labels and
    /// moment is there by then. Answers those that were stored. An error leaves some of the first ones
    /// stored.
    pub fn add_all(&mut self, entries: List<Entry>) -> Result<List<Entry>, NoMemory>
        ensures added { IfOk result (λ added. added ≡ spec.fresh self.old entries) }
        ensures ok { OnOk result (self.new ≡ spec.with_all self.old entries) }
        ensures err { OnErr result (spec.AddsPrefix self.old self.new (spec.with_all self.old entries)) }
    {
        let mut added = Vec::new(self.alloc);
        for entry in entries.into_vec() {
            self.add_to(&mut added, entry)?;
        }
        Ok(List::from_vec(added))
    }

    // Stores the entry, and puts it behind those that were stored before.
    fn add_to(&mut self, added: &mut Vec<Entry>, entry: Entry) -> Result<(), NoMemory>
        ensures added { OnOk result (added.new.items
            ≡ added.old.items ++ spec.fresh self.old (entry ∷ [])) }
        ensures ok { OnOk result (self.new ≡ spec.with_one self.old entry) }
        ensures err { OnErr result (self.new ≡ self.old) }
    {
        added.reserve(1)?;
        if self.take(&entry)? {
            added.push(entry).unwrap();
        }
        Ok(())
    }

    /// Reads the pattern, if the text is one, so that no look-up with it reads it anew.
    pub fn read_pattern(&mut self, text: &str) -> Result<(), NoMemory>
        ensures { self.new ≡ self.old }
    {
        if self.patterns.get(text).is_some() {
            return Ok(());
        }
        match Pattern::read(self.alloc, text) {
            Ok(pattern) => self
                .patterns
                .insert(Text::from_str(self.alloc, text)?, pattern),
            Err(PatternFault::BadPattern) => Ok(()),
            Err(PatternFault::NoMemory) => Err(NoMemory),
        }
    }

    /// The entries on whose labels all matchers hold, with moments from one to another, both included,
    /// by labels and then by moments.
    pub fn select(
        &self,
        matchers: &List<Matcher>,
        from: Moment,
        to: Moment,
    ) -> Result<List<Entry>, NoMemory>
        ensures { IfOk result (λ entries. entries ≡ spec.selected self.now matchers.now from.0 to.0) }
    {
        self.selected(matchers, &i128::from(from.0), &i128::from(to.0))
    }

    fn selected(
        &self,
        matchers: &List<Matcher>,
        from: &i128,
        to: &i128,
    ) -> Result<List<Entry>, NoMemory>
        ensures { IfOk result (λ entries. entries ≡ spec.selected self.now matchers.now from.now to.now) }
    {
        let found = found_runs(
            self.alloc,
            &self.keys,
            &self.index,
            &self.patterns,
            matchers,
        )?;
        selected_entries(self.alloc, self.runs.as_slice(), found, from, to)
    }

    /// Of each label set on which all matchers hold the newest entry from one moment to another, in
    /// label order. A label set whose newest entry is stale has none.
    pub fn newest(
        &self,
        matchers: &List<Matcher>,
        from: &i128,
        to: &i128,
    ) -> Result<List<Entry>, NoMemory>
        ensures { IfOk result (λ entries. entries ≡ spec.newest self.now matchers.now from.now to.now) }
    {
        let found = found_runs(
            self.alloc,
            &self.keys,
            &self.index,
            &self.patterns,
            matchers,
        )?;
        newest_entries(self.alloc, self.runs.as_slice(), found, from, to)
    }

    /// Of each label set on which all matchers hold the samples from one moment to another in the order
    /// of their moments, in label order. Stale entries are none, and a label set without a sample isn't
    /// there.
    pub fn ranged(
        &self,
        matchers: &List<Matcher>,
        from: &i128,
        to: &i128,
    ) -> Result<List<(Labels, List<(Moment, i64)>)>, NoMemory>
        ensures { IfOk result (λ series. series ≡ spec.ranged self.now matchers.now from.now to.now) }
    {
        let found = found_runs(
            self.alloc,
            &self.keys,
            &self.index,
            &self.patterns,
            matchers,
        )?;
        ranged_series(self.alloc, self.runs.as_slice(), found, from, to)
    }
}

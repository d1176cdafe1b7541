ghost use Rattle.std.specs.Prelude.{◌≡◌, [], OnOk, OnErr};
ghost use Rattle.std.specs.Option.{option_copied};
ghost use Rattle.op_base.specs.Maps.{value_at, with_entry};

use crate::found::Found;
use op_base::{List, NoMemory, Table, Text};
use std::alloc::Global;
use std::marker::Model;

/// By namespace, the discovered entries that the last line for it gave. It keeps its allocator; a look-up takes time
/// logarithmic in the number of namespaces.
#[derive(Debug, Drop)]
pub struct Discovered {
    alloc: Global,
    entries: Table<List<Found>>,
}

impl Model for Discovered {
    ghost use Rattle.srv_scrape.specs.Discovered.{Discovered as Seen};

    ghost Value = { Seen };

    ghost view = { λ it. it.entries };
}

impl Discovered {
    /// No entries.
    pub fn new(alloc: Global) -> Discovered
        ensures { result ≡ [] }
    {
        Discovered {
            alloc,
            entries: Table::new(alloc),
        }
    }

    /// Replaces the entries of the namespace, and leaves those of all others.
    pub fn set(&mut self, namespace: &str, entries: List<Found>) -> Result<(), NoMemory>
        ensures ok { OnOk result (self.new ≡ with_entry self.old namespace.now entries) }
        ensures err { OnErr result (self.new ≡ self.old) }
    {
        let namespace = Text::from_str(self.alloc, namespace)?;
        self.entries.insert(namespace, entries)
    }

    /// The entries of the namespace, where a line gave them.
    pub fn get(&self, namespace: &str) -> Option<&List<Found>>
        ensures { option_copied result ≡ value_at self.now namespace.now }
    {
        self.entries.get(namespace)
    }
}

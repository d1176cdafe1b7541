ghost use Rattle.std.specs.Prelude.{◌≡◌, [], OnOk, OnErr};
ghost use Rattle.std.specs.Option.{option_copied};
ghost use Rattle.op_base.specs.Maps.{with_entry};
ghost use Rattle.srv_scrape.specs.Pages.{page_at};

use op_base::{Labels, List, NoMemory, Table, Text};
use std::alloc::Global;
use std::marker::Model;

/// A sample of a scraped page: its labels, the metric's name among them, and its value.
#[derive(Debug, PartialEq, Eq, Drop)]
pub struct Sample {
    pub labels: Labels,
    pub value: i64,
}

/// By URL, the samples that a scrape of it answers, or none where the scrape fails. It keeps its
/// allocator; a look-up takes time logarithmic in the number of URLs.
#[derive(Debug, Drop)]
pub struct Pages {
    alloc: Global,
    pages: Table<Option<List<Sample>>>,
}

impl Model for Pages {
    ghost use Rattle.srv_scrape.specs.Pages.{Pages as Seen};

    ghost Value = { Seen };

    ghost view = { λ it. it.pages };
}

impl Pages {
    /// No pages.
    pub fn new(alloc: Global) -> Pages
        ensures { result ≡ [] }
    {
        Pages {
            alloc,
            pages: Table::new(alloc),
        }
    }

    /// Replaces the page of the URL.
    pub fn set(&mut self, url: &str, samples: Option<List<Sample>>) -> Result<(), NoMemory>
        ensures ok { OnOk result (self.new ≡ with_entry self.old url.now samples) }
        ensures err { OnErr result (self.new ≡ self.old) }
    {
        let url = Text::from_str(self.alloc, url)?;
        self.pages.insert(url, samples)
    }

    /// The samples that the URL answers, or none where a scrape of it fails.
    pub fn get(&self, url: &str) -> Option<&List<Sample>>
        ensures { option_copied result ≡ page_at self.now url.now }
    {
        self.pages.get(url)?.as_ref()
    }
}

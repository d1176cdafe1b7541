use op_base::{List, Moment, NoMemory, Text};
use srv_scrape::Sample;

/// What happens to a server.
#[derive(Debug, PartialEq, Eq, Drop)]
pub enum Event {
    /// The namespace is known from now on.
    Known(Text),
    /// The URL answers these samples from now on; where there are none, its scrapes fail.
    Page(Text, Option<List<Sample>>),
    /// Everything is scraped and all rules run at the moment, in milliseconds from 0 to 2^53.
    Tick(Moment),
}

/// Why an event isn't taken.
#[derive(Clone, Copy, Debug, PartialEq, Eq)]
pub enum EventFault {
    /// A tick isn't above the last one, which stands here.
    LateTick(Moment),
    NoMemory,
}

impl From<NoMemory> for EventFault {
    ghost use Rattle.std.specs.Prelude.{◌≡◌};
    ghost use Rattle.srv_run.specs.declared.event.EventFault.TheVariants.{NoMemory as no_memory};

    ghost from_gives = { λ _ fault. fault ≡ no_memory };

    fn from(_refused: NoMemory) -> Self {
        EventFault::NoMemory
    }
}

//! Targets and scrapes: what a job's targets are, and which entries a scrape of one gives.
//!
//! `specs/Targets.antt` says what a job's targets are, `specs/Joined.antt` how a sample's labels meet
//! its target's, and `specs/Scraped.antt` which entries a scrape gives.
#![tactic(auto)]

mod discovered;
mod discovery;
mod found;
mod jobs;
mod join;
mod labels;
mod pages;
mod scraping;
mod shorter;
mod target;
mod tick;
mod url;

pub use discovered::Discovered;
pub use discovery::targets;
pub use found::{Found, Role};
pub use jobs::scrape_all;
pub use join::joined;
pub use pages::{Pages, Sample};
pub use scraping::scrape;
pub use target::Target;
pub use tick::tick_entries;

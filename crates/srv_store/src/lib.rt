//! The store of samples: a list of entries, and what is looked up in it.
//!
//! `specs/Stores.antt` says what a store takes and what the newest entries are, and `specs/StoreLaws.antt`
//! says it without steps; `LabelMap` is a map from label sets in label order.
#![tactic(auto)]

mod addition;
mod candidates;
mod entry;
mod index;
mod laws;
mod lookups;
mod map;
mod places;
mod run;
mod stale;
mod store;

pub use entry::Entry;
pub use laws::{newest_are_latest, selected_are_the_window};
pub use map::LabelMap;
pub use stale::push_stale;
pub use store::Store;

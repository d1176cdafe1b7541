//! The words of a command line: which of them ask for a command, its folder and its options. They are read by `clap`,
//! and what they ask for is said without it.
//!
//! Read `specs/Readings.antt` first: the reading of a list of words, or none.
#![tactic(auto)]

mod command;
mod reading;
mod words;

pub use reading::{Part, Reading};
pub use words::{WordsFault, read_words};
